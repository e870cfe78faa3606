//! What the rounds of a shared walk have in common.
ghost use Rattle.std.specs.Prelude.{◌≡◌, ◌≤◌, length};
ghost use Rattle.model.specs.Layout.{inode_count};

use claims::Claims;
use directories::Piece;
use frozen::Frozen;
use std::alloc::Global;

/// The image that a shared walk goes over, what its workers claim, and the pieces that the volume's numbers are cut in.
#[derive(Clone, Copy)]
pub(crate) struct SharedWalk<'a> {
    pub(crate) alloc: Global,
    pub(crate) frozen: &'a Frozen,
    pub(crate) claims: &'a Claims,
    pub(crate) pieces: &'a [Piece],
    ghost inodes: { claims.now.inodes ≡ inode_count frozen.now.geometry },
    ghost few: { length pieces.now ≤ 65_537 },
}
