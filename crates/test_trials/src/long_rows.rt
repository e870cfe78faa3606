//! The trials of long files: an image that is full, and files of version 2 of the layout that grow past 268 and 524 blocks.
use crate::trial::Trial;
use layout::{DOUBLE, SINGLE};

/// A file of 268 blocks is cut while a snapshot holds them, and another one takes all that is left. There are 508 data blocks
/// beside the root's.
pub const FULL: Trial = Trial {
    name: "full",
    versions: &[SINGLE],
    numbers: [1, 512, 16],
    puts: &[],
    before: &[],
    lines: &[
        ("create /a", "ok 3"),
        ("open /a", "ok 0"),
        ("fill 0 0 268", "ok"),
        ("write 0 268 x", "refused 16 TooBig"),
        ("create /b", "ok 4"),
        ("open /b", "ok 1"),
        ("write 1 1 x", "refused 18 BadIndex"),
        ("freeze", "ok 0"),
        ("unmarked", "239"),
        ("truncate 0 0", "ok"),
        ("unmarked", "239"),
        ("fill 1 0 238", "ok"),
        ("unmarked", "0"),
        ("write 1 238 x", "refused 14 NoBlock"),
        ("release 0", "ok"),
        ("unmarked", "269"),
        ("write 1 238 x", "ok"),
        ("sync", "ok"),
    ],
};

/// In version 2 the file goes on behind 268 blocks, and takes three blocks for the next one: two of them are tables. At 505 blocks
/// none of the 508 is left. It is cut back to 268 blocks.
pub const FULL_OF_ONE_FILE: Trial = Trial {
    name: "full of one file",
    versions: &[DOUBLE],
    numbers: [1, 512, 16],
    puts: &[],
    before: &[],
    lines: &[
        ("create /a", "ok 3"),
        ("open /a", "ok 0"),
        ("write 0 65804 x", "refused 16 TooBig"),
        ("write 0 268 x", "refused 18 BadIndex"),
        ("fill 0 0 505", "ok"),
        ("unmarked", "0"),
        ("write 0 505 x", "refused 14 NoBlock"),
        ("truncate 0 274432", "ok"),
        ("unmarked", "239"),
        ("sync", "ok"),
    ],
};

/// A file of 267 blocks grows by two blocks, is cut back, and grows again over the pointers that stand there. There are 13 free
/// blocks beside the 267 and the indirect one.
pub const PAST_268_BLOCKS: Trial = Trial {
    name: "past 268 blocks",
    versions: &[DOUBLE],
    numbers: [1, 285, 16],
    puts: &[],
    before: &["create /a", "open /a", "fill 0 0 267"],
    lines: &[
        ("open /a", "ok 0"),
        ("unmarked", "13"),
        ("fill 0 267 1", "ok"),
        ("write 0 268 abc", "ok"),
        ("unmarked", "9"),
        ("sync", "ok"),
        ("truncate 0 273408", "ok"),
        ("unmarked", "13"),
        ("fill 0 267 2", "ok"),
        ("unmarked", "9"),
        ("sync", "ok"),
    ],
};

/// A file of 523 blocks grows by two blocks, the second of which needs a second-level block more, and is cut back. There are 13
/// free blocks beside the 523 and the three tables.
pub const PAST_524_BLOCKS: Trial = Trial {
    name: "past 524 blocks",
    versions: &[DOUBLE],
    numbers: [1, 543, 16],
    puts: &[],
    before: &["create /a", "open /a", "fill 0 0 523"],
    lines: &[
        ("open /a", "ok 0"),
        ("unmarked", "13"),
        ("fill 0 523 1", "ok"),
        ("write 0 524 abc", "ok"),
        ("unmarked", "10"),
        ("sync", "ok"),
        ("truncate 0 536576", "ok"),
        ("unmarked", "12"),
        ("sync", "ok"),
    ],
};

/// The last blocks of a file of 270 blocks are written under a snapshot, and the file is cut to 12 blocks, while the snapshot has
/// them and its tables. There are 13 free blocks beside the 270 and the three tables.
pub const UNDER_A_SNAPSHOT: Trial = Trial {
    name: "268 blocks under a snapshot",
    versions: &[DOUBLE],
    numbers: [1, 290, 16],
    puts: &[],
    before: &["create /a", "open /a", "fill 0 0 269", "write 0 269 def"],
    lines: &[
        ("open /a", "ok 0"),
        ("unmarked", "13"),
        ("freeze", "ok 0"),
        ("check", "clean"),
        ("write 0 269 uvw", "ok"),
        ("unmarked", "12"),
        ("snapread 0 3 269", "ok 646566"),
        ("truncate 0 12288", "ok"),
        ("unmarked", "13"),
        ("snapread 0 3 269", "ok 646566"),
        ("release 0", "ok"),
        ("unmarked", "274"),
        ("sync", "ok"),
    ],
};
