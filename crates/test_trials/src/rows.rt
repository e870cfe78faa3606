//! The trials of small volumes: what leaks is found and given back while users go on, and names that are given and taken with the
//! device flushed block by block.
use crate::trial::Trial;
use layout::{DOUBLE, SINGLE};

/// Both versions of the layout.
const BOTH: &[u32] = &[SINGLE, DOUBLE];

/// A group of 16 blocks and 16 inodes: blocks 4 to 16 are data blocks, the root is inode 2 and has block 4.
const SMALL: [u32; 3] = [1, 16, 16];

/// File 5 has block 6 and no name. It is dropped while a snapshot holds the block.
pub const LOST_FILE: Trial = Trial {
    name: "lost file",
    versions: BOTH,
    numbers: SMALL,
    puts: &[
        (1_056, b"\x24"),
        (1_184, b"\x05"),
        (2_688, b"\x01\0\x01\0\0\x04\0\0\x06"),
    ],
    before: &[],
    lines: &[
        ("freeze", "ok 0"),
        ("check", "lost inode 5"),
        ("unmarked", "11"),
        ("repair 0", "ok"),
        ("unmarked", "11"),
        ("release 0", "ok"),
        ("unmarked", "12"),
        ("sync", "ok"),
        ("freeze", "ok 1"),
        ("check", "clean"),
        ("release 1", "ok"),
    ],
};

/// File 5 has the name /a and two links. It loses its name after the check and before the repair.
pub const COUNT_TOO_HIGH: Trial = Trial {
    name: "count too high",
    versions: BOTH,
    numbers: SMALL,
    puts: &[
        (1_056, b"\x24"),
        (2_688, b"\x01\0\x02\0"),
        (4_224, b"\x05\0\0\0\x01\0\0\0a"),
    ],
    before: &[],
    lines: &[
        ("freeze", "ok 0"),
        ("check", "count high 5 links 2 entries 1"),
        ("stat /a", "ok number 5 file links 2 size 0"),
        ("unlink /a", "ok"),
        ("stat /a", "refused 7 NotFound"),
        ("repair 0", "ok"),
        ("repair 0", "refused 23 AlreadyDone"),
        ("release 0", "ok"),
        ("sync", "ok"),
        ("freeze", "ok 1"),
        ("check", "clean"),
        ("release 1", "ok"),
    ],
};

/// A file without a name is open while the volume is checked, and closed before the repairs.
pub const UNLINKED_AND_OPEN: Trial = Trial {
    name: "unlinked and open",
    versions: BOTH,
    numbers: SMALL,
    puts: &[],
    before: &[],
    lines: &[
        ("create /t", "ok 3"),
        ("open /t", "ok 0"),
        ("write 0 0 abc", "ok"),
        ("unmarked", "11"),
        ("unlink /t", "ok"),
        ("freeze", "ok 0"),
        ("check", "clean"),
        ("read 0 0", "ok 616263"),
        ("close 0", "ok"),
        ("unmarked", "12"),
        ("create /n", "ok 3"),
        ("repair 0", "refused 18 BadIndex"),
        ("stat /n", "ok number 3 file links 1 size 0"),
        ("release 0", "ok"),
        ("sync", "ok"),
    ],
};

/// A file is written between freezes, each of which begins a snapshot: up to four stand, a block is held as long as one of them
/// has it, and the latest one shows no block as lost that is held for an older one.
pub const FOUR_SNAPSHOTS: Trial = Trial {
    name: "four snapshots",
    versions: BOTH,
    numbers: SMALL,
    puts: &[],
    before: &[],
    lines: &[
        ("create /a", "ok 3"),
        ("open /a", "ok 0"),
        ("write 0 0 one", "ok"),
        ("freeze", "ok 0"),
        ("write 0 0 two", "ok"),
        ("freeze", "ok 1"),
        ("write 0 0 six", "ok"),
        ("freeze", "ok 2"),
        ("unmarked", "9"),
        ("check", "clean"),
        ("snapread 0 3 0", "ok 6f6e65"),
        ("snapread 1 3 0", "ok 74776f"),
        ("snapread 2 3 0", "ok 736978"),
        ("release 0", "ok"),
        ("unmarked", "10"),
        ("release 1", "ok"),
        ("unmarked", "11"),
        ("snapread 1 3 0", "refused 21 NoSnapshot"),
        ("freeze", "ok 3"),
        ("write 0 0 ten", "ok"),
        ("freeze", "ok 4"),
        ("write 0 0 off", "ok"),
        ("freeze", "ok 5"),
        ("write 0 0 out", "ok"),
        ("freeze", "refused 31 TooManySnapshots"),
        ("unmarked", "8"),
        ("snapread 3 3 0", "ok 736978"),
        ("snapread 4 3 0", "ok 74656e"),
        ("snapread 5 3 0", "ok 6f6666"),
        ("sync", "ok"),
        ("release 3", "ok"),
        ("unmarked", "8"),
        ("freeze", "ok 6"),
        ("check", "clean"),
        ("release 6", "ok"),
        ("check", "refused 21 NoSnapshot"),
        ("release 2", "ok"),
        ("unmarked", "9"),
        ("release 5", "ok"),
        ("unmarked", "10"),
        ("release 4", "ok"),
        ("unmarked", "11"),
        ("read 0 0", "ok 6f7574"),
        ("sync", "ok"),
    ],
};

/// The root has fifteen names, the last of them in a second block, which goes and is given again in the first one.
pub const SECOND_BLOCK: Trial = Trial {
    name: "second block",
    versions: BOTH,
    numbers: SMALL,
    puts: &[],
    before: &[],
    lines: &[
        ("create /n01", "ok 3"),
        ("link /n01 /n02", "ok"),
        ("link /n01 /n03", "ok"),
        ("link /n01 /n04", "ok"),
        ("link /n01 /n05", "ok"),
        ("link /n01 /n06", "ok"),
        ("link /n01 /n07", "ok"),
        ("link /n01 /n08", "ok"),
        ("link /n01 /n09", "ok"),
        ("link /n01 /n10", "ok"),
        ("link /n01 /n11", "ok"),
        ("link /n01 /n12", "ok"),
        ("link /n01 /n13", "ok"),
        ("link /n01 /n14", "ok"),
        ("link /n01 /n15", "ok"),
        ("sync", "ok"),
        ("unlink /n15", "ok"),
        ("unlink /n01", "ok"),
        ("create /n15", "ok 4"),
        ("flush 1", "ok 1"),
        ("flush 2", "ok 1"),
        ("flush 4", "ok 1"),
        ("flush 5", "ok 1"),
        ("flush 4", "ok 1"),
        ("flush 2", "ok 2"),
        ("stat /n02", "ok number 3 file links 13 size 0"),
        ("sync", "ok"),
    ],
};

/// A file is renamed into a directory that is not on the device yet.
pub const INTO_NEW_DIRECTORY: Trial = Trial {
    name: "into a new directory",
    versions: BOTH,
    numbers: SMALL,
    puts: &[],
    before: &[],
    lines: &[
        ("create /b", "ok 3"),
        ("sync", "ok"),
        ("mkdir /d", "ok 4"),
        ("rename /b /d/c", "ok"),
        ("flush 4", "ok 0"),
        ("flush 1", "ok 2"),
        ("flush 2", "ok 2"),
        ("flush 5", "ok 2"),
        ("flush 4", "ok 0"),
        ("flush 2", "ok 1"),
        ("flush 4", "ok 2"),
        ("flush 2", "ok 1"),
        ("list /d", "ok c=3"),
        ("sync", "ok"),
    ],
};

/// A file is made while another one goes.
pub const NUMBER_OF_ANOTHER: Trial = Trial {
    name: "one comes and one goes",
    versions: BOTH,
    numbers: SMALL,
    puts: &[],
    before: &[],
    lines: &[
        ("create /b", "ok 3"),
        ("sync", "ok"),
        ("create /a", "ok 4"),
        ("unlink /b", "ok"),
        ("flush 4", "ok 0"),
        ("flush 2", "ok 0"),
        ("flush 1", "ok 1"),
        ("flush 2", "ok 1"),
        ("flush 4", "ok 2"),
        ("flush 2", "ok 1"),
        ("flush 1", "ok 1"),
        ("list /", "ok a=4"),
        ("sync", "ok"),
    ],
};

/// Two users: one writes a file, the other makes one and takes it away.
pub const TWO_USERS: Trial = Trial {
    name: "two users",
    versions: BOTH,
    numbers: SMALL,
    puts: &[],
    before: &[],
    lines: &[
        ("create /x", "ok 3"),
        ("create /y", "ok 4"),
        ("open /x", "ok 0"),
        ("write 0 0 abc", "ok"),
        ("unlink /y", "ok"),
        ("read 0 0", "ok 616263"),
        ("sync", "ok"),
    ],
};
