//! What a worker asks for, and what it is told.
ghost use Rattle.std.specs.Prelude.{◌≡◌, ℕ, ◌∷◌, [], All, OnOk, IsOkUnless, IsTrue};
ghost use Rattle.frozen.specs.Kept.{frozen_view};
ghost use Rattle.model.specs.Uses.{is_directory_at};
ghost use Rattle.connectivity.specs.Asked.{Asks, asked_of, entries_in, in_pieces, round_in};

use crate::entries::FIRST_ENTRY;
use crate::shared_walk::SharedWalk;
use claims::Seat;
use directories::{Piece, numbers_named};
use layout::Refusal;

/// Follows the entries of those directories of a round that are of the piece of this unit. A unit that is no piece has none.
pub(crate) fn follow(
    walk: &SharedWalk<'_>,
    round: &[u32],
    unit: u32,
    seat: &mut Seat,
    found: &mut Vec<u32>,
) -> Result<(), Refusal>
    requires own { seat.old.of ≡ walk.now.claims.now.id }
    requires directories { All (λ d. IsTrue (is_directory_at walk.now.frozen.now.geometry (frozen_view walk.now.frozen.now) d)) round.now }
    ensures own { seat.new.of ≡ seat.old.of }
    ensures asked { OnOk result (Asks walk.now.frozen.now.geometry (frozen_view walk.now.frozen.now)
        (asked_of walk.now.frozen.now.geometry (frozen_view walk.now.frozen.now) (in_pieces round.now walk.now.pieces.now) unit)
        seat.old found.old.items seat.new found.new.items) }
    ensures error { IsOkUnless result Refusal.NoMemory }
{
    match walk.pieces.get(unit as usize) {
        Some(piece) => follow_piece(walk, round, piece, seat, found),
        None => Ok(()),
    }
}

/// Follows the entries of those directories of a round that are of this piece.
fn follow_piece(
    walk: &SharedWalk<'_>,
    round: &[u32],
    piece: &Piece,
    seat: &mut Seat,
    found: &mut Vec<u32>,
) -> Result<(), Refusal>
    requires own { seat.old.of ≡ walk.now.claims.now.id }
    requires directories { All (λ d. IsTrue (is_directory_at walk.now.frozen.now.geometry (frozen_view walk.now.frozen.now) d)) round.now }
    ensures own { seat.new.of ≡ seat.old.of }
    ensures asked { OnOk result (Asks walk.now.frozen.now.geometry (frozen_view walk.now.frozen.now)
        (round_in walk.now.frozen.now.geometry (frozen_view walk.now.frozen.now) round.now piece.now)
        seat.old found.old.items seat.new found.new.items) }
    ensures error { IsOkUnless result Refusal.NoMemory }
{
    for directory in round {
        follow_one(walk, *directory, piece, seat, found)?;
    }
    Ok(())
}

/// Follows the entries of a directory, if it is of this piece.
fn follow_one(
    walk: &SharedWalk<'_>,
    directory: u32,
    piece: &Piece,
    seat: &mut Seat,
    found: &mut Vec<u32>,
) -> Result<(), Refusal>
    requires own { seat.old.of ≡ walk.now.claims.now.id }
    requires directory { IsTrue (is_directory_at walk.now.frozen.now.geometry (frozen_view walk.now.frozen.now) directory) }
    ensures own { seat.new.of ≡ seat.old.of }
    ensures asked { OnOk result (Asks walk.now.frozen.now.geometry (frozen_view walk.now.frozen.now)
        (entries_in walk.now.frozen.now.geometry (frozen_view walk.now.frozen.now) piece.now directory)
        seat.old found.old.items seat.new found.new.items) }
    ensures error { IsOkUnless result Refusal.NoMemory }
{
    if !piece.has(directory) {
        return Ok(());
    }
    let numbers = numbers_named(walk.alloc, walk.frozen, directory, FIRST_ENTRY)?;
    ask_all(walk, seat, found, numbers.as_slice())
}

/// Asks for the inodes of these numbers.
fn ask_all(
    walk: &SharedWalk<'_>,
    seat: &mut Seat,
    found: &mut Vec<u32>,
    numbers: &[u32],
) -> Result<(), Refusal>
    requires own { seat.old.of ≡ walk.now.claims.now.id }
    ensures own { seat.new.of ≡ seat.old.of }
    ensures asked { OnOk result (Asks walk.now.frozen.now.geometry (frozen_view walk.now.frozen.now) numbers.now seat.old found.old.items seat.new found.new.items) }
    ensures error { IsOkUnless result Refusal.NoMemory }
{
    for number in numbers {
        ask(walk, seat, found, *number)?;
    }
    Ok(())
}

/// Asks for the inode of a number, if it is sound. A directory that is given is found. The room for it is there before
/// the claim, so that nothing that was given is lost.
fn ask(
    walk: &SharedWalk<'_>,
    seat: &mut Seat,
    found: &mut Vec<u32>,
    number: u32,
) -> Result<(), Refusal>
    requires own { seat.old.of ≡ walk.now.claims.now.id }
    ensures own { seat.new.of ≡ seat.old.of }
    ensures asked { OnOk result (Asks walk.now.frozen.now.geometry (frozen_view walk.now.frozen.now) (number ∷ []) seat.old found.old.items seat.new found.new.items) }
    ensures error { IsOkUnless result Refusal.NoMemory }
{
    if !walk.frozen.is_sound_at(number) {
        return Ok(());
    }
    found.reserve(1)?;
    let is_given = walk.claims.claim(seat, number);
    if is_given && walk.frozen.is_directory_at(number) {
        found.push_reserved(number);
    }
    Ok(())
}
