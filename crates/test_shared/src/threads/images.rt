//! Small images. Each is the fresh image of one group of 16 blocks and 16 inodes but for some bytes.
use device::Byte;

/// No byte differs.
pub const FRESH: &[Byte] = &[];

/// Block 9 is marked, and in no use.
pub const LOST_BLOCK: &[Byte] = &[(1, 160, 0b10_0001)];

/// File 5 has two links, no bytes, and the name `/a` alone.
pub const FILE_WITH_TWO_LINKS: &[Byte] = &[
    (1, 32, 0b10_0100),
    (2, 640, 1),
    (2, 642, 2),
    (4, 128, 5),
    (4, 132, 1),
    (4, 136, b'a'),
];

/// Directory 6 has block 5, in which the name `x` is that of file 7, and no name itself; the root has a link for it.
pub const LOST_DIRECTORY: &[Byte] = &[
    (1, 32, 0b1100_0100),
    (1, 160, 0b11),
    (2, 258, 3),
    (2, 768, 2),
    (2, 770, 2),
    (2, 773, 4),
    (2, 776, 5),
    (2, 896, 1),
    (2, 898, 1),
    (5, 0, 6),
    (5, 4, 1),
    (5, 8, b'.'),
    (5, 64, 2),
    (5, 68, 2),
    (5, 72, b'.'),
    (5, 73, b'.'),
    (5, 128, 7),
    (5, 132, 1),
    (5, 136, b'x'),
];
