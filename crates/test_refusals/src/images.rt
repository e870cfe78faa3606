//! The images that are checked, and the trials that are carried out.
use layout::SINGLE;
use test_trials::{
    COUNT_TOO_HIGH, FOUR_SNAPSHOTS, FULL, FULL_OF_ONE_FILE, INTO_NEW_DIRECTORY, LOST_FILE,
    NUMBER_OF_ANOTHER, PAST_268_BLOCKS, PAST_524_BLOCKS, SECOND_BLOCK, TWO_USERS, Trial,
    UNDER_A_SNAPSHOT, UNLINKED_AND_OPEN,
};

/// A group of 16 blocks and 16 inodes.
const SMALL: [u32; 3] = [1, 16, 16];

/// Those that are there for their images, which a check is to find something on.
pub const OF_IMAGES: &[Trial] = &[FRESH, LOST_BLOCK, LOST_DIRECTORY, SHARED_BLOCK, LOST_CYCLE];

/// Those that are there for what is done on their volumes.
pub const OF_VOLUMES: &[Trial] = &[
    LOST_FILE,
    COUNT_TOO_HIGH,
    UNLINKED_AND_OPEN,
    SECOND_BLOCK,
    INTO_NEW_DIRECTORY,
    NUMBER_OF_ANOTHER,
    TWO_USERS,
    FOUR_SNAPSHOTS,
];

/// Those that take all blocks of a volume.
pub const OF_FULL_VOLUMES: &[Trial] = &[FULL, FULL_OF_ONE_FILE];

/// Those of files that version 2 alone can have.
pub const OF_LONG_FILES: &[Trial] = &[PAST_268_BLOCKS, PAST_524_BLOCKS, UNDER_A_SNAPSHOT];

const FRESH: Trial = Trial {
    name: "fresh",
    versions: &[SINGLE],
    numbers: SMALL,
    puts: &[],
    before: &[],
    lines: &[("list /", "ok")],
};

/// Block 9 is marked.
const LOST_BLOCK: Trial = Trial {
    name: "lost block",
    versions: &[SINGLE],
    numbers: SMALL,
    puts: &[(1_184, b"\x21")],
    before: &[],
    lines: &[("unmarked", "11")],
};

/// Directory 6, which nothing names, has block 5 and file 7 in it, and the root a link of its.
const LOST_DIRECTORY: Trial = Trial {
    name: "lost directory",
    versions: &[SINGLE],
    numbers: SMALL,
    puts: &[
        (1_056, b"\xc4"),
        (1_184, b"\x03"),
        (2_306, b"\x03"),
        (2_816, b"\x02\0\x02\0\0\x04\0\0\x05"),
        (2_944, b"\x01\0\x01\0"),
        (5_120, b"\x06\0\0\0\x01\0\0\0."),
        (5_184, b"\x02\0\0\0\x02\0\0\0.."),
        (5_248, b"\x07\0\0\0\x01\0\0\0f"),
    ],
    before: &[],
    lines: &[
        ("freeze", "ok 0"),
        (
            "check",
            "lost inode 6; lost inode 7; count high 2 links 3 entries 2",
        ),
        ("repair 2", "ok"),
        ("repair 1", "ok"),
        ("repair 0", "ok"),
        ("release 0", "ok"),
        ("unmarked", "12"),
        ("sync", "ok"),
    ],
};

/// Files 5 and 6, which the root names, both have block 8. The volume is not mounted.
const SHARED_BLOCK: Trial = Trial {
    name: "shared block",
    versions: &[SINGLE],
    numbers: SMALL,
    puts: &[
        (1_056, b"\x64"),
        (1_184, b"\x11"),
        (2_688, b"\x01\0\x01\0\0\x04\0\0\x08"),
        (2_816, b"\x01\0\x01\0\0\x04\0\0\x08"),
        (4_224, b"\x05\0\0\0\x01\0\0\0a"),
        (4_288, b"\x06\0\0\0\x01\0\0\0b"),
    ],
    before: &[],
    lines: &[("list /", "ok a=5 b=6")],
};

/// Directories 6 and 7 name each other, and nothing else does.
const LOST_CYCLE: Trial = Trial {
    name: "lost cycle",
    versions: &[SINGLE],
    numbers: SMALL,
    puts: &[
        (1_056, b"\xc4"),
        (1_184, b"\x07"),
        (2_816, b"\x02\0\x03\0\0\x04\0\0\x05"),
        (2_944, b"\x02\0\x03\0\0\x04\0\0\x06"),
        (5_120, b"\x06\0\0\0\x01\0\0\0."),
        (5_184, b"\x07\0\0\0\x02\0\0\0.."),
        (5_248, b"\x07\0\0\0\x01\0\0\0b"),
        (6_144, b"\x07\0\0\0\x01\0\0\0."),
        (6_208, b"\x06\0\0\0\x02\0\0\0.."),
        (6_272, b"\x06\0\0\0\x01\0\0\0a"),
    ],
    before: &[],
    lines: &[("stat /", "ok number 2 directory links 2 size 1024")],
};
