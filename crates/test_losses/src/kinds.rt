//! The volumes on which lists begin.
use layout::{DOUBLE, SINGLE};
use test_trials::Trial;

/// How lists of one kind are made and carried out.
#[derive(Clone, Copy)]
pub struct Kind {
    pub name: &'static str,
    /// The volume on which each list begins.
    pub trial: Trial,
    /// The version of its layout.
    pub version: u32,
    /// Whether it has a file of 266 blocks, `/long`.
    pub is_long: bool,
    /// The block from which on the least free ones are.
    pub free: u32,
    /// Of so many writes and syncs of the device one is lost; none is where this is 0.
    pub losing: usize,
}

/// Each kind.
pub const KINDS: &[Kind] = &[
    ON_SINGLE,
    ON_DOUBLE,
    Kind {
        name: "fault",
        losing: 16,
        ..ON_SINGLE
    },
];

/// On a volume of two groups of 32 blocks.
const ON_SINGLE: Kind = Kind {
    name: "single",
    trial: Trial {
        name: "single",
        versions: &[SINGLE],
        numbers: [2, 32, 16],
        puts: &[],
        before: &[
            "create /a",
            "open /a",
            "write 0 0 abcdefg",
            "create /b",
            "open /b",
            "fill 1 0 3",
            "mkdir /d",
            "create /d/a",
            "open /d/a",
            "write 2 0 hijklmn",
            "link /a /d/b",
            "mkdir /d/e",
            "link /b /n01",
            "link /b /n02",
            "link /b /n03",
            "link /b /n04",
            "link /b /n05",
            "link /b /n06",
            "link /b /n07",
            "link /b /n08",
            "link /b /n09",
            "link /b /n10",
        ],
        lines: &[],
    },
    version: SINGLE,
    is_long: false,
    free: 5,
    losing: 0,
};

/// On one with a file that grows past 268 blocks.
const ON_DOUBLE: Kind = Kind {
    name: "double",
    trial: Trial {
        name: "double",
        versions: &[DOUBLE],
        numbers: [1, 400, 16],
        puts: &[],
        before: &[
            "create /a",
            "open /a",
            "write 0 0 abcdefg",
            "create /b",
            "open /b",
            "fill 1 0 3",
            "mkdir /d",
            "create /d/a",
            "open /d/a",
            "write 2 0 hijklmn",
            "link /a /d/b",
            "create /long",
            "open /long",
            "fill 3 0 266",
        ],
        lines: &[],
    },
    version: DOUBLE,
    is_long: true,
    free: 274,
    losing: 0,
};
