//! Queues that were worked out by hand. The volume has two groups of 16 blocks and 16 inodes: blocks of maps at 1 and 17,
//! records of inodes in 2 (numbers 0 to 7), 3 (8 to 15), 18 (16 to 23) and 19 (24 to 31), data blocks from 4 to 16 and
//! from 20 to 32. In the beginning each byte of a block is the block's address, so numbers 8, 16, 20, 24 and 28 and
//! blocks 4, 12, 20, 24, 28 and 32 are marked.
use softdep::Cell;

/// A new value of a cell.
#[derive(Clone, Copy)]
pub(super) enum Put {
    /// The record of an inode, by its number, is that of a file with so many links; with none it is free.
    Record(u32, u16),
    /// An inode number is marked or not.
    Number(u32, bool),
    /// A data block is marked or not, by its address.
    Bit(u32, bool),
    /// Each byte of a data block, by its address.
    Bytes(u32, u8),
}

/// An update: what it puts, and the cells that it comes after.
#[derive(Clone, Copy)]
pub(super) struct Told(pub(super) Put, pub(super) &'static [Cell]);

/// A write: the block's address, how many updates go to it, and the last value of each cell that they put.
pub(super) type Written = (u32, usize, &'static [Put]);

/// What a flush leaves: how many updates are pending then, and the least ready block then.
#[derive(Clone, Copy)]
pub(super) struct Left(pub(super) usize, pub(super) Option<u32>);

/// What is done with a queue.
#[derive(Clone, Copy)]
pub(super) enum Step {
    /// These updates are issued, the first first.
    Issue(&'static [Told]),
    /// A block is flushed: what is written, which is nothing where no update may go, and what that leaves.
    Flush(Written, Left),
}

/// A queue of its own.
#[derive(Clone, Copy)]
pub(super) struct Case {
    /// What it shows.
    pub(super) name: &'static str,
    /// What is done before the sync.
    pub(super) steps: &'static [Step],
    /// What the sync writes, the first first.
    pub(super) synced: &'static [Written],
}

/// Updates as commands of a file system issue them.
pub(super) fn commands() -> &'static [Case] {
    COMMANDS
}

const COMMANDS: &[Case] = &[
    Case {
        name: "a file is created: its number, its record, its name",
        steps: &[
            Step::Issue(&[
                Told(Put::Number(9, true), &[]),
                Told(Put::Record(9, 1), &[Cell::NumberBit(9)]),
                Told(Put::Bytes(4, 0x44), &[Cell::Record(9)]),
            ]),
            Step::Flush((4, 0, &[]), Left(3, Some(1))),
            Step::Flush((3, 0, &[]), Left(3, Some(1))),
            Step::Flush((1, 1, &[Put::Number(9, true)]), Left(2, Some(3))),
            Step::Flush((4, 0, &[]), Left(2, Some(3))),
            Step::Flush((3, 1, &[Put::Record(9, 1)]), Left(1, Some(4))),
        ],
        synced: &[(4, 1, &[Put::Bytes(4, 0x44)])],
    },
    Case {
        name: "a file is truncated: its record, then the bit of its block",
        steps: &[
            Step::Issue(&[
                Told(Put::Record(5, 0), &[]),
                Told(Put::Bit(12, false), &[Cell::Record(5)]),
            ]),
            Step::Flush((1, 0, &[]), Left(2, Some(2))),
        ],
        synced: &[(2, 1, &[Put::Record(5, 0)]), (1, 1, &[Put::Bit(12, false)])],
    },
    Case {
        name: "a file grows: the bit and the contents of its block, then its record",
        steps: &[
            Step::Issue(&[
                Told(Put::Bit(13, true), &[]),
                Told(Put::Bytes(13, 0x77), &[]),
                Told(Put::Record(7, 2), &[Cell::BlockBit(13), Cell::Block(13)]),
            ]),
            Step::Flush((13, 1, &[Put::Bytes(13, 0x77)]), Left(2, Some(1))),
            Step::Flush((2, 0, &[]), Left(2, Some(1))),
        ],
        synced: &[(1, 1, &[Put::Bit(13, true)]), (2, 1, &[Put::Record(7, 2)])],
    },
    Case {
        name: "a file moves to another directory: one link more, its new name, its old name, one link less",
        steps: &[
            Step::Issue(&[
                Told(Put::Record(6, 2), &[]),
                Told(Put::Bytes(15, 0x15), &[Cell::Record(6)]),
                Told(Put::Bytes(14, 0x41), &[Cell::Block(15)]),
                Told(Put::Record(6, 1), &[Cell::Block(14)]),
            ]),
            Step::Flush((2, 1, &[Put::Record(6, 2)]), Left(3, Some(15))),
        ],
        synced: &[
            (15, 1, &[Put::Bytes(15, 0x15)]),
            (14, 1, &[Put::Bytes(14, 0x41)]),
            (2, 1, &[Put::Record(6, 1)]),
        ],
    },
];

/// Chains over several blocks, and several updates of one cell.
pub(super) fn chains() -> &'static [Case] {
    CHAINS
}

const CHAINS: &[Case] = &[
    Case {
        name: "a chain that goes down the addresses",
        steps: &[
            Step::Issue(&[
                Told(Put::Bytes(20, 7), &[]),
                Told(Put::Record(24, 3), &[Cell::Block(20)]),
                Told(Put::Record(16, 2), &[Cell::Record(24)]),
                Told(Put::Number(17, true), &[Cell::Record(16)]),
            ]),
            Step::Flush((18, 0, &[]), Left(4, Some(20))),
        ],
        synced: &[
            (20, 1, &[Put::Bytes(20, 7)]),
            (19, 1, &[Put::Record(24, 3)]),
            (18, 1, &[Put::Record(16, 2)]),
            (17, 1, &[Put::Number(17, true)]),
        ],
    },
    Case {
        name: "a lower block becomes ready, in the other group",
        steps: &[
            Step::Issue(&[
                Told(Put::Bytes(25, 1), &[]),
                Told(Put::Record(23, 4), &[]),
                Told(Put::Number(3, true), &[Cell::Record(23)]),
            ]),
            Step::Flush((1, 0, &[]), Left(3, Some(18))),
            Step::Flush((18, 1, &[Put::Record(23, 4)]), Left(2, Some(1))),
        ],
        synced: &[
            (1, 1, &[Put::Number(3, true)]),
            (25, 1, &[Put::Bytes(25, 1)]),
        ],
    },
    Case {
        name: "two updates of one cell go at once",
        steps: &[
            Step::Issue(&[Told(Put::Record(5, 1), &[]), Told(Put::Record(5, 2), &[])]),
            Step::Flush((2, 2, &[Put::Record(5, 2)]), Left(0, None)),
        ],
        synced: &[],
    },
    Case {
        name: "the first of two updates of one cell goes alone where the second waits for another block",
        steps: &[
            Step::Issue(&[
                Told(Put::Record(5, 1), &[]),
                Told(Put::Bytes(6, 9), &[]),
                Told(Put::Record(5, 2), &[Cell::Block(6)]),
            ]),
            Step::Flush((2, 1, &[Put::Record(5, 1)]), Left(2, Some(6))),
            Step::Flush((2, 0, &[]), Left(2, Some(6))),
        ],
        synced: &[(6, 1, &[Put::Bytes(6, 9)]), (2, 1, &[Put::Record(5, 2)])],
    },
    Case {
        name: "of three updates of one block the second waits, and so the third does too",
        steps: &[
            Step::Issue(&[
                Told(Put::Bytes(22, 9), &[]),
                Told(Put::Bytes(21, 1), &[]),
                Told(Put::Bytes(21, 2), &[Cell::Block(22)]),
                Told(Put::Bytes(21, 3), &[]),
            ]),
            Step::Flush((21, 1, &[Put::Bytes(21, 1)]), Left(3, Some(22))),
        ],
        synced: &[(22, 1, &[Put::Bytes(22, 9)]), (21, 2, &[Put::Bytes(21, 3)])],
    },
];

/// Blocks that wait for each other.
pub(super) fn cycles() -> &'static [Case] {
    CYCLES
}

const CYCLES: &[Case] = &[
    Case {
        name: "a chain that goes to and fro between two blocks takes two writes of each",
        steps: &[
            Step::Issue(&[
                Told(Put::Record(5, 1), &[]),
                Told(Put::Record(8, 1), &[Cell::Record(5)]),
                Told(Put::Record(6, 1), &[Cell::Record(8)]),
                Told(Put::Record(9, 1), &[Cell::Record(6)]),
            ]),
            Step::Flush((3, 0, &[]), Left(4, Some(2))),
        ],
        synced: &[
            (2, 1, &[Put::Record(5, 1)]),
            (3, 1, &[Put::Record(8, 1)]),
            (2, 1, &[Put::Record(6, 1)]),
            (3, 1, &[Put::Record(9, 1)]),
        ],
    },
    Case {
        name: "of two blocks that wait for each other the lower one is written first and last",
        steps: &[Step::Issue(&[
            Told(Put::Record(8, 1), &[]),
            Told(Put::Record(5, 1), &[Cell::Record(8)]),
            Told(Put::Record(6, 1), &[]),
            Told(Put::Record(9, 1), &[Cell::Record(6)]),
        ])],
        synced: &[
            (2, 1, &[Put::Record(6, 1)]),
            (3, 2, &[Put::Record(8, 1), Put::Record(9, 1)]),
            (2, 1, &[Put::Record(5, 1)]),
        ],
    },
    Case {
        name: "of two blocks that wait for each other the upper one is written first and last",
        steps: &[
            Step::Issue(&[
                Told(Put::Record(8, 1), &[]),
                Told(Put::Record(5, 1), &[Cell::Record(8)]),
                Told(Put::Record(6, 1), &[]),
                Told(Put::Record(9, 1), &[Cell::Record(6)]),
            ]),
            Step::Flush((3, 1, &[Put::Record(8, 1)]), Left(3, Some(2))),
            Step::Flush(
                (2, 2, &[Put::Record(5, 1), Put::Record(6, 1)]),
                Left(1, Some(3)),
            ),
            Step::Flush((3, 1, &[Put::Record(9, 1)]), Left(0, None)),
        ],
        synced: &[],
    },
    Case {
        name: "a cycle through one cell of each block goes half by half",
        steps: &[
            Step::Issue(&[
                Told(Put::Bytes(10, 1), &[]),
                Told(Put::Bytes(11, 1), &[Cell::Block(10)]),
                Told(Put::Bytes(10, 2), &[Cell::Block(11)]),
                Told(Put::Bytes(11, 2), &[Cell::Block(10)]),
            ]),
            Step::Flush((11, 0, &[]), Left(4, Some(10))),
            Step::Flush((10, 1, &[Put::Bytes(10, 1)]), Left(3, Some(11))),
        ],
        synced: &[
            (11, 1, &[Put::Bytes(11, 1)]),
            (10, 1, &[Put::Bytes(10, 2)]),
            (11, 1, &[Put::Bytes(11, 2)]),
        ],
    },
];

/// What goes in one write, and what waits although others of its block go.
pub(super) fn writes() -> &'static [Case] {
    WRITES
}

const WRITES: &[Case] = &[
    Case {
        name: "updates of one block that wait for each other go in one write",
        steps: &[
            Step::Issue(&[
                Told(Put::Number(3, true), &[]),
                Told(Put::Bit(5, true), &[Cell::NumberBit(3)]),
                Told(
                    Put::Number(10, true),
                    &[Cell::BlockBit(5), Cell::NumberBit(3)],
                ),
            ]),
            Step::Flush(
                (
                    1,
                    3,
                    &[
                        Put::Number(3, true),
                        Put::Bit(5, true),
                        Put::Number(10, true),
                    ],
                ),
                Left(0, None),
            ),
        ],
        synced: &[],
    },
    Case {
        name: "of one block, one waits for another block and for a neighbour",
        steps: &[
            Step::Issue(&[
                Told(Put::Record(4, 1), &[]),
                Told(Put::Number(5, true), &[Cell::Record(4)]),
                Told(Put::Bit(6, true), &[]),
                Told(Put::Bit(7, true), &[Cell::NumberBit(5), Cell::BlockBit(6)]),
            ]),
            Step::Flush((1, 1, &[Put::Bit(6, true)]), Left(3, Some(2))),
        ],
        synced: &[
            (2, 1, &[Put::Record(4, 1)]),
            (1, 2, &[Put::Number(5, true), Put::Bit(7, true)]),
        ],
    },
    Case {
        name: "an update that waits for two blocks goes after the second one",
        steps: &[
            Step::Issue(&[
                Told(Put::Bytes(30, 3), &[]),
                Told(Put::Bytes(31, 4), &[]),
                Told(Put::Record(30, 1), &[Cell::Block(30), Cell::Block(31)]),
            ]),
            Step::Flush((31, 1, &[Put::Bytes(31, 4)]), Left(2, Some(30))),
            Step::Flush((19, 0, &[]), Left(2, Some(30))),
        ],
        synced: &[
            (30, 1, &[Put::Bytes(30, 3)]),
            (19, 1, &[Put::Record(30, 1)]),
        ],
    },
];

/// What an update waits for, by the cells that it names.
pub(super) fn waits() -> &'static [Case] {
    WAITS
}

const WAITS: &[Case] = &[
    Case {
        name: "a cell whose last update is written is waited for no more",
        steps: &[
            Step::Issue(&[Told(Put::Bytes(7, 1), &[]), Told(Put::Bytes(9, 2), &[])]),
            Step::Flush((7, 1, &[Put::Bytes(7, 1)]), Left(1, Some(9))),
            Step::Issue(&[Told(Put::Record(3, 1), &[Cell::Block(7)])]),
            Step::Flush((2, 1, &[Put::Record(3, 1)]), Left(1, Some(9))),
        ],
        synced: &[(9, 1, &[Put::Bytes(9, 2)])],
    },
    Case {
        name: "a cell that is written and changed again is waited for",
        steps: &[
            Step::Issue(&[Told(Put::Bytes(7, 1), &[]), Told(Put::Bytes(9, 2), &[])]),
            Step::Flush((7, 1, &[Put::Bytes(7, 1)]), Left(1, Some(9))),
            Step::Issue(&[Told(Put::Bytes(7, 3), &[Cell::Block(9)])]),
            Step::Issue(&[Told(Put::Record(3, 1), &[Cell::Block(7)])]),
            Step::Flush((2, 0, &[]), Left(3, Some(9))),
        ],
        synced: &[
            (9, 1, &[Put::Bytes(9, 2)]),
            (7, 1, &[Put::Bytes(7, 3)]),
            (2, 1, &[Put::Record(3, 1)]),
        ],
    },
    Case {
        name: "a cell that is named twice is waited for until it is written",
        steps: &[
            Step::Issue(&[
                Told(Put::Bytes(8, 1), &[]),
                Told(Put::Record(2, 1), &[Cell::Block(8), Cell::Block(8)]),
            ]),
            Step::Flush((2, 0, &[]), Left(2, Some(8))),
        ],
        synced: &[(8, 1, &[Put::Bytes(8, 1)]), (2, 1, &[Put::Record(2, 1)])],
    },
    Case {
        name: "a cell of the same block that is named twice",
        steps: &[
            Step::Issue(&[
                Told(Put::Bytes(29, 1), &[]),
                Told(Put::Bit(28, false), &[]),
                Told(
                    Put::Number(29, true),
                    &[Cell::BlockBit(28), Cell::BlockBit(28)],
                ),
                Told(Put::Number(30, true), &[Cell::Block(29)]),
            ]),
            Step::Flush(
                (17, 2, &[Put::Bit(28, false), Put::Number(29, true)]),
                Left(2, Some(29)),
            ),
        ],
        synced: &[
            (29, 1, &[Put::Bytes(29, 1)]),
            (17, 1, &[Put::Number(30, true)]),
        ],
    },
    Case {
        name: "an update that names its own cell waits for the one before it alone",
        steps: &[
            Step::Issue(&[
                Told(Put::Record(12, 1), &[Cell::Record(12)]),
                Told(Put::Record(12, 2), &[Cell::Record(12)]),
                Told(Put::Bytes(11, 1), &[Cell::Record(12)]),
            ]),
            Step::Flush((11, 0, &[]), Left(3, Some(3))),
            Step::Flush((3, 2, &[Put::Record(12, 2)]), Left(1, Some(11))),
        ],
        synced: &[(11, 1, &[Put::Bytes(11, 1)])],
    },
];

/// Neighbours of a cell, the last cells of the volume, and queues that were empty.
pub(super) fn places() -> &'static [Case] {
    PLACES
}

const PLACES: &[Case] = &[
    Case {
        name: "a record that waits stays as it was between its neighbours",
        steps: &[
            Step::Issue(&[
                Told(Put::Record(16, 1), &[]),
                Told(Put::Bytes(32, 5), &[]),
                Told(Put::Record(17, 2), &[Cell::Block(32)]),
                Told(Put::Record(18, 3), &[]),
            ]),
            Step::Flush(
                (18, 2, &[Put::Record(16, 1), Put::Record(18, 3)]),
                Left(2, Some(32)),
            ),
        ],
        synced: &[
            (32, 1, &[Put::Bytes(32, 5)]),
            (18, 1, &[Put::Record(17, 2)]),
        ],
    },
    Case {
        name: "bits of numbers and of blocks in one block of maps, up to the last of each",
        steps: &[
            Step::Issue(&[
                Told(Put::Number(31, true), &[]),
                Told(Put::Bit(32, false), &[]),
                Told(Put::Record(20, 0), &[]),
                Told(Put::Number(20, false), &[Cell::Record(20)]),
                Told(Put::Bit(24, false), &[Cell::Record(20)]),
            ]),
            Step::Flush(
                (17, 2, &[Put::Number(31, true), Put::Bit(32, false)]),
                Left(3, Some(18)),
            ),
        ],
        synced: &[
            (18, 1, &[Put::Record(20, 0)]),
            (17, 2, &[Put::Number(20, false), Put::Bit(24, false)]),
        ],
    },
    Case {
        name: "the last record and the last block wait for both maps",
        steps: &[Step::Issue(&[
            Told(Put::Number(31, true), &[]),
            Told(Put::Bit(4, false), &[]),
            Told(
                Put::Record(31, 1),
                &[Cell::NumberBit(31), Cell::BlockBit(4)],
            ),
            Told(Put::Bytes(32, 0xff), &[Cell::Record(31)]),
        ])],
        synced: &[
            (1, 1, &[Put::Bit(4, false)]),
            (17, 1, &[Put::Number(31, true)]),
            (19, 1, &[Put::Record(31, 1)]),
            (32, 1, &[Put::Bytes(32, 0xff)]),
        ],
    },
    Case {
        name: "once everything is written, what is issued then waits for nothing of it",
        steps: &[
            Step::Issue(&[
                Told(Put::Record(2, 1), &[]),
                Told(Put::Bytes(5, 1), &[Cell::Record(2)]),
            ]),
            Step::Flush((2, 1, &[Put::Record(2, 1)]), Left(1, Some(5))),
            Step::Flush((5, 1, &[Put::Bytes(5, 1)]), Left(0, None)),
            Step::Issue(&[
                Told(Put::Bytes(5, 2), &[Cell::Record(2)]),
                Told(Put::Record(2, 2), &[Cell::Block(5)]),
            ]),
            Step::Flush((2, 0, &[]), Left(2, Some(5))),
        ],
        synced: &[(5, 1, &[Put::Bytes(5, 2)]), (2, 1, &[Put::Record(2, 2)])],
    },
    Case {
        name: "an empty list of updates changes nothing",
        steps: &[
            Step::Issue(&[]),
            Step::Flush((0, 0, &[]), Left(0, None)),
            Step::Issue(&[Told(Put::Bytes(16, 0), &[])]),
            Step::Issue(&[]),
            Step::Flush((15, 0, &[]), Left(1, Some(16))),
        ],
        synced: &[(16, 1, &[Put::Bytes(16, 0)])],
    },
];
