ghost use Rattle.std.specs.Prelude.{IfOk, IsOkUnless};
ghost use Rattle.directories.specs.Pieces.{in_piece};
ghost use Rattle.frozen.specs.Kept.{frozen_view};
ghost use Rattle.phase_names.specs.Told.{IsPart};

use crate::parts::Part;
use crate::slots::look_at;
use directories::Piece;
use frozen::Frozen;
use layout::Refusal;
use std::alloc::Global;

/// What the slots of the directories of this piece tell.
pub fn part(alloc: Global, frozen: &Frozen, piece: &Piece) -> Result<Part, Refusal>
    ensures part { IfOk result (λ part. IsPart frozen.now.geometry (frozen_view frozen.now) (in_piece piece.now) part) }
    ensures error { IsOkUnless result Refusal.NoMemory }
{
    let mut part = Part::new(alloc);
    for number in piece.first..piece.past {
        if frozen.is_directory_at(number) {
            part.add(number, look_at(alloc, frozen, number)?)?;
        }
    }
    Ok(part)
}
