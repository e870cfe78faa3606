//! A round of a shared walk that one worker follows.
ghost use Rattle.std.specs.Prelude.{◌≡◌, ◌∷◌, [], All, IfOk, IsOkUnless, IsTrue, vec_len};
ghost use Rattle.frozen.specs.Kept.{frozen_view};
ghost use Rattle.model.specs.Layout.{inode_count};
ghost use Rattle.model.specs.Uses.{is_directory_at};
ghost use Rattle.directories.specs.Pieces.{AreCut};
ghost use Rattle.worker_counts.specs.Workers.{may_work};
ghost use Rattle.connectivity.specs.Asked.{HaveAsked};

use crate::asking::follow;
use crate::shared_rounds::PHASE;
use crate::shared_walk::SharedWalk;
use claims::Seat;
use frozen::Frozen;
use layout::Refusal;
use workers::Gate;

/// How many blocks of directories there are for each worker of a round that is worth the threads.
const WORTH_A_THREAD: usize = 64;

/// Whether the directories of a round have too few blocks to be worth the threads of so many workers.
pub(crate) fn is_short(frozen: &Frozen, round: &[u32], workers: usize) -> bool {
    let wanted = workers.saturating_mul(WORTH_A_THREAD);
    let mut blocks = 0usize;
    for directory in round {
        if frozen.is_directory_at(*directory) {
            blocks = blocks.saturating_add(frozen.blocks(*directory) as usize);
        }
        if blocks >= wanted {
            return false;
        }
    }
    true
}

/// Follows the entries of the directories of a round on the calling thread, with the last of the seats. The result has
/// the seats, and the directories that are given to it for the first time.
pub(crate) fn lone_round<G: Gate>(
    walk: &SharedWalk<'_>,
    seats: Vec<Seat>,
    round: &[u32],
    gate: &G,
) -> Result<(Vec<Seat>, Vec<u32>), Refusal>
    requires own { All (λ seat. seat.of ≡ walk.now.claims.now.id) seats.items }
    requires seats { IsTrue (may_work (vec_len seats)) }
    requires directories { All (λ d. IsTrue (is_directory_at walk.now.frozen.now.geometry (frozen_view walk.now.frozen.now) d)) round.now }
    requires pieces { AreCut 0 walk.now.pieces.now (inode_count walk.now.frozen.now.geometry) }
    ensures own { IfOk result (λ done. All (λ seat. seat.of ≡ walk.now.claims.now.id) done.0.items) }
    ensures asked { IfOk result (λ done. HaveAsked walk.now.frozen.now.geometry (frozen_view walk.now.frozen.now) round.now seats.items done.0.items done.1.items) }
    ensures error { IsOkUnless result Refusal.NoMemory }
{
    let mut seats = seats;
    let Some(mut seat) = seats.pop() else {
        unreachable!()
    };
    let found = follow_pieces(walk, round, &mut seat, gate)?;
    seats.push(seat)?;
    Ok((seats, found))
}

/// Goes over all pieces, and follows of each the directories of a round that are of it. It passes the gate before each.
fn follow_pieces<G: Gate>(
    walk: &SharedWalk<'_>,
    round: &[u32],
    seat: &mut Seat,
    gate: &G,
) -> Result<Vec<u32>, Refusal>
    requires own { seat.old.of ≡ walk.now.claims.now.id }
    requires directories { All (λ d. IsTrue (is_directory_at walk.now.frozen.now.geometry (frozen_view walk.now.frozen.now) d)) round.now }
    requires pieces { AreCut 0 walk.now.pieces.now (inode_count walk.now.frozen.now.geometry) }
    ensures own { seat.new.of ≡ seat.old.of }
    ensures asked { IfOk result (λ found. HaveAsked walk.now.frozen.now.geometry (frozen_view walk.now.frozen.now)
        round.now (seat.old ∷ []) (seat.new ∷ []) found.items) }
    ensures error { IsOkUnless result Refusal.NoMemory }
{
    let mut found = Vec::new(walk.alloc);
    for unit in 0..walk.pieces.len() as u32 {
        gate.pass(PHASE, unit);
        follow(walk, round, unit, seat, &mut found)?;
    }
    Ok(found)
}
