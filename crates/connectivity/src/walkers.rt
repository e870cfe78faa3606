//! The workers of a shared walk.
ghost use Rattle.std.specs.Prelude.{◌≡◌, ℕ, [], All, map, IfOk, IsTrue};
ghost use Rattle.std.specs.List.{flat_map};
ghost use Rattle.frozen.specs.Kept.{frozen_view};
ghost use Rattle.model.specs.Uses.{is_directory_at};
ghost use Rattle.connectivity.specs.Asked.{Asks, asked_of, in_pieces};

use crate::asking::follow;
use crate::shared_walk::SharedWalk;
use claims::Seat;
use layout::Refusal;
use std::alloc::{AllocError, Global};
use workers::Work;

/// A worker of a round, with its seat and the directories that it found in this round.
#[derive(Drop)]
pub(crate) struct Walker<'a> {
    pub(crate) walk: &'a SharedWalk<'a>,
    pub(crate) round: &'a [u32],
    pub(crate) seat: Seat,
    pub(crate) found: Vec<u32>,
    ghost own: { seat.of ≡ walk.now.claims.now.id },
    ghost directories: { All (λ d. IsTrue (is_directory_at walk.now.frozen.now.geometry (frozen_view walk.now.frozen.now) d)) round.now },
}

impl Work for Walker<'_> {
    type Part = ();

    ghost gives = { λ before unit part after. (after.walk.now.claims.now ≡ before.walk.now.claims.now) × (after.walk.now.frozen.now ≡ before.walk.now.frozen.now)
        × (in_pieces after.round.now after.walk.now.pieces.now ≡ in_pieces before.round.now before.walk.now.pieces.now)
        × Asks before.walk.now.frozen.now.geometry (frozen_view before.walk.now.frozen.now)
        (asked_of before.walk.now.frozen.now.geometry (frozen_view before.walk.now.frozen.now) (in_pieces before.round.now before.walk.now.pieces.now) unit)
        before.seat before.found.items after.seat after.found.items };

    fn part(&mut self, unit: u32) -> Result<(), Refusal> {
        follow(self.walk, self.round, unit, &mut self.seat, &mut self.found)
    }
}

/// A worker for each seat, which found nothing yet.
pub(crate) fn hired<'a>(
    walk: &'a SharedWalk<'a>,
    round: &'a [u32],
    seats: Vec<Seat>,
) -> Result<Vec<Walker<'a>>, AllocError>
    requires own { All (λ seat. seat.of ≡ walk.now.claims.now.id) seats.items }
    requires directories { All (λ d. IsTrue (is_directory_at walk.now.frozen.now.geometry (frozen_view walk.now.frozen.now) d)) round.now }
    ensures seats { IfOk result (λ walkers. map (λ walker. walker.seat) walkers.items ≡ seats.items) }
    ensures alike { IfOk result (λ walkers. All (λ walker. (walker.walk.now.claims.now ≡ walk.now.claims.now) × (walker.walk.now.frozen.now ≡ walk.now.frozen.now)
        × (in_pieces walker.round.now walker.walk.now.pieces.now ≡ in_pieces round.now walk.now.pieces.now) × (walker.found.items ≡ [])) walkers.items) }
{
    let mut walkers = Vec::new(walk.alloc);
    for seat in seats {
        walkers.push(Walker {
            walk,
            round,
            seat,
            found: Vec::new(walk.alloc),
        })?;
    }
    Ok(walkers)
}

/// The seats of workers, in their order, and all that they found.
pub(crate) fn paid(
    alloc: Global,
    walkers: Vec<Walker<'_>>,
) -> Result<(Vec<Seat>, Vec<u32>), AllocError>
    ensures seats { IfOk result (λ apart. apart.0.items ≡ map (λ walker. walker.seat) walkers.entry.items) }
    ensures found { IfOk result (λ apart. apart.1.items ≡ flat_map (λ walker. walker.found.items) walkers.entry.items) }
{
    let mut seats = Vec::new(alloc);
    let mut all = Vec::new(alloc);
    for walker in walkers {
        let Walker {
            seat,
            mut found,
            ..
        } = walker;
        seats.push(seat)?;
        all.append(&mut found)?;
    }
    Ok((seats, all))
}
