//! What the directories of a piece name.
ghost use Rattle.std.specs.Prelude.{◌≡◌, IfOk, OnOk, IsOkUnless, length};
ghost use Rattle.directories.specs.Pieces.{in_piece};
ghost use Rattle.frozen.specs.Kept.{frozen_view};
ghost use Rattle.refcounts.specs.Parts.{IsPart, Reads};

use crate::parts::Part;
use directories::{Piece, numbers_named};
use frozen::Frozen;
use layout::Refusal;
use sets::Members;
use std::alloc::Global;

/// What the directories of this piece name, where they are among the reachable inodes. Only `NoMemory` is refused.
pub fn part(
    alloc: Global,
    frozen: &Frozen,
    piece: &Piece,
    reached: &Members,
) -> Result<Part, Refusal>
    ensures part { IfOk result (λ part. IsPart frozen.now.geometry (frozen_view frozen.now) reached.now (in_piece piece.now) part) }
    ensures error { IsOkUnless result Refusal.NoMemory }
{
    let mut part = Part::none(alloc, frozen.geometry().groups())?;
    for directory in piece.first..piece.past {
        add_directory(alloc, &mut part, frozen, directory, reached)?;
    }
    Ok(part)
}

/// Adds what a number names, if it is a sound directory and among the reachable inodes.
fn add_directory(
    alloc: Global,
    part: &mut Part,
    frozen: &Frozen,
    number: u32,
    reached: &Members,
) -> Result<(), Refusal>
    ensures groups { OnOk result (length part.new ≡ length part.old) }
    ensures added { OnOk result (Reads frozen.now.geometry (frozen_view frozen.now) reached.now number part.old part.new) }
    ensures error { IsOkUnless result Refusal.NoMemory }
{
    if !reached.has(number) || !frozen.is_directory_at(number) {
        return Ok(());
    }
    let numbers = numbers_named(alloc, frozen, number, 0)?;
    part.add_all(&frozen.geometry(), numbers.as_slice())?;
    Ok(())
}
