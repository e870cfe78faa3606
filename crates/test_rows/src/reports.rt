//! Images that are not fresh, and their reports.

/// The report of a fresh image.
pub(crate) const CLEAN_REPORT: &str =
    "phase 1 blocks and sizes\nphase 2 names\nphase 3 connectivity\nphase 4 reference counts\nphase 5 maps\nfindings 0\nrepairs 0\nverdict clean\n";

/// The report of one whose block 9 is marked.
pub(crate) const SOFT_REPORT: &str =
    "phase 1 blocks and sizes\nphase 2 names\nphase 3 connectivity\nphase 4 reference counts\nphase 5 maps\n  lost block 9\nfindings 1\nrepairs 1\nverdict soft\n";

/// And of one whose number 2, the root's, is not marked.
pub(crate) const DAMAGED_REPORT: &str =
    "phase 1 blocks and sizes\nphase 2 names\nphase 3 connectivity\nphase 4 reference counts\nphase 5 maps\n  unmarked inode 2\nfindings 1\nrepairs 0\nverdict damaged\n";

/// Changes of a fresh image: directory 6, which nothing names, has block 5 and file 7 in it, and the root a link of its.
pub(crate) const LOST_DIRECTORY: &[(usize, u8)] = &[
    (1_056, 196),
    (1_184, 3),
    (2_306, 3),
    (2_816, 2),
    (2_818, 2),
    (2_821, 4),
    (2_824, 5),
    (2_944, 1),
    (2_946, 1),
    (5_120, 6),
    (5_124, 1),
    (5_128, b'.'),
    (5_184, 2),
    (5_188, 2),
    (5_192, b'.'),
    (5_193, b'.'),
    (5_248, 7),
    (5_252, 1),
    (5_256, b'f'),
];

/// The report of such an image.
pub(crate) const LOST_REPORT: &str =
    "phase 1 blocks and sizes\nphase 2 names\nphase 3 connectivity\n  lost inode 6\n  lost inode 7\nphase 4 reference counts\n  count high 2 links 3 entries 2\nphase 5 maps\nfindings 3\nrepairs 3\nverdict soft\n";

/// Changes of a fresh image: files 5 and 6, which the root names, both have block 8.
pub(crate) const SHARED_BLOCK: &[(usize, u8)] = &[
    (1_056, 100),
    (1_184, 17),
    (2_688, 1),
    (2_690, 1),
    (2_693, 4),
    (2_696, 8),
    (2_816, 1),
    (2_818, 1),
    (2_821, 4),
    (2_824, 8),
    (4_224, 5),
    (4_228, 1),
    (4_232, b'a'),
    (4_288, 6),
    (4_292, 1),
    (4_296, b'b'),
];

/// The report of such an image.
pub(crate) const SHARED_REPORT: &str =
    "phase 1 blocks and sizes\n  duplicate 6 position 0 block 8\nphase 2 names\nphase 3 connectivity\nphase 4 reference counts\nphase 5 maps\nfindings 1\nrepairs 0\nverdict damaged\n";

/// The report of an image with a lost directory, and behind it what was mended.
pub(crate) const LOST_MENDED: &str = "drop inode 6\ndrop inode 7\nlower count 2 by 1\nrepaired 3\n";

/// The same of one whose block 9 is marked.
pub(crate) const SOFT_MENDED: &str = "free block 9\nrepaired 1\n";
