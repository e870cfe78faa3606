ghost use Rattle.std.specs.Prelude.{IfOk, IsOkUnless};
ghost use Rattle.directories.specs.Pieces.{in_piece};
ghost use Rattle.frozen.specs.Kept.{frozen_view};
ghost use Rattle.directories.specs.Named.{IsNamed};

use crate::Part;
use directories::{Piece, named};
use frozen::Frozen;
use layout::Refusal;
use std::alloc::Global;

/// The slot of the first entry of a directory: those before it are the dots.
pub(crate) const FIRST_ENTRY: u32 = 2;

/// The entries of the directories of a piece: what their slots from 2 on name.
pub fn part(alloc: Global, frozen: &Frozen, piece: &Piece) -> Result<Part, Refusal>
    ensures part { IfOk result (IsNamed frozen.now.geometry (frozen_view frozen.now) 2 (in_piece piece.now)) }
    ensures error { IsOkUnless result Refusal.NoMemory }
{
    named(alloc, frozen, piece, FIRST_ENTRY)
}
