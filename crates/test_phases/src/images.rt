//! What is kept of small images of two groups of 16 blocks and 16 inodes.
use device::Byte;
use directories::Piece;
use frozen::Frozen;
use layout::{Geometry, Refusal};
use std::alloc::Global;
use test_images::frozen_with;

/// The numbers of a group of 16 inodes.
pub(crate) fn group(unit: u32) -> Piece {
    let first = unit.saturating_mul(16);
    Piece {
        first,
        past: first.saturating_add(16),
    }
}

/// The bytes that differ from a fresh image of two groups of 16 blocks and 16 inodes: the block, the byte, the value.
/// The root names 3, 18 and 6, and has a bad slot. Directory 3, in block 5, names the root in slot 2 and 17 in its last
/// slot. Directories 19 and 20, in blocks 20 and 21, name each other, and 20 names 18. Inodes 17 and 18 are files; 6 is
/// not sound.
pub(crate) const TREE: &[Byte] = &[
    (2, 384, 2),
    (2, 389, 4),
    (2, 392, 5),
    (2, 768, 3),
    (18, 128, 1),
    (18, 256, 1),
    (18, 384, 2),
    (18, 389, 4),
    (18, 392, 20),
    (18, 512, 2),
    (18, 517, 4),
    (18, 520, 21),
    (4, 128, 3),
    (4, 132, 1),
    (4, 136, 97),
    (4, 192, 18),
    (4, 196, 1),
    (4, 200, 98),
    (4, 256, 6),
    (4, 260, 1),
    (4, 264, 99),
    (4, 320, 40),
    (4, 324, 1),
    (4, 328, 100),
    (5, 0, 3),
    (5, 4, 1),
    (5, 8, 46),
    (5, 64, 2),
    (5, 68, 2),
    (5, 72, 46),
    (5, 73, 46),
    (5, 128, 2),
    (5, 132, 1),
    (5, 136, 97),
    (5, 960, 17),
    (5, 964, 1),
    (5, 968, 98),
    (20, 128, 20),
    (20, 132, 1),
    (20, 136, 97),
    (21, 128, 19),
    (21, 132, 1),
    (21, 136, 97),
    (21, 192, 18),
    (21, 196, 1),
    (21, 200, 98),
];

/// What is kept of an image of two groups, fresh but for these bytes.
pub(crate) fn image_with(alloc: Global, bytes: &[Byte]) -> Result<Frozen, Refusal> {
    frozen_with(alloc, &Geometry::new(2, 16, 16)?, bytes)
}
