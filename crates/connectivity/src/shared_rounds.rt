//! The walk in rounds, shared among workers.
ghost use Rattle.std.specs.Prelude.{◌≡◌, ◌≤◌, All, IfOk, IsOkUnless, IsTrue, length, vec_len};
ghost use Rattle.frozen.specs.Kept.{frozen_view};
ghost use Rattle.claims.specs.Seats.{new_seat};
ghost use Rattle.model.specs.Layout.{inode_count};
ghost use Rattle.model.specs.Reached.{AreReached};
ghost use Rattle.model.specs.Uses.{is_directory_at};
ghost use Rattle.directories.specs.Pieces.{AreCut};
ghost use Rattle.worker_counts.specs.Workers.{may_work};
ghost use Rattle.connectivity.specs.Asked.{HasWalked, HaveAsked, opening_round};

use crate::lone_round::{is_short, lone_round};
use crate::shared_walk::SharedWalk;
use crate::walkers::{hired, paid};
use claims::{Claims, Seat};
use directories::Piece;
use frozen::Frozen;
use layout::{ROOT, Refusal};
use sets::Members;
use std::alloc::{AllocError, Global};
use std::thread::Threads;
use workers::{Gate, Workers, each_group};

/// The number of the phase, with which the gate is passed.
pub(crate) const PHASE: u8 = 3;

/// The reachable inodes, by 1 to 64 workers: what `walk` finds.
///
/// The walk goes in rounds, from the root on. In each the workers draw the pieces that the volume's numbers are cut in, and of a
/// piece they follow those directories that the round before reached first: they claim each sound inode that an entry names, and
/// a directory that is given to one of them is for the next round. So each directory is followed once. They pass the gate before
/// each piece in each round, with its index as the unit: the caller's gate may pass it as its group (`ByGroup`). A round after
/// the first whose directories have few blocks is followed on the calling thread alone, as by one worker that draws all pieces.
///
/// Only `NoMemory` is refused.
pub fn rounds<R: Threads + Sync, G: Gate>(
    rt: &R,
    alloc: Global,
    frozen: &Frozen,
    pieces: &[Piece],
    workers: Workers,
    gate: &G,
) -> Result<Members, Refusal>
    requires pieces { AreCut 0 pieces.now (inode_count frozen.now.geometry) }
    requires few { length pieces.now ≤ 65_537 }
    ensures reached { IfOk result (λ reached. AreReached frozen.now.geometry (frozen_view frozen.now) reached) }
    ensures error { IsOkUnless result Refusal.NoMemory }
{
    let geometry = frozen.geometry();
    let opening = first_round(alloc, frozen)?;
    let (claims, seats) = Claims::new(alloc, &geometry, 0, workers.count(), opening)?;
    let walk = SharedWalk {
        alloc,
        frozen,
        claims: &claims,
        pieces,
    };
    let seats = all_rounds(rt, &walk, seats, gate)?;
    let marked = claims.gather(alloc, seats)?;
    Ok(Members::new(alloc, marked)?)
}

/// The root, if it is a sound directory.
fn first_round(alloc: Global, frozen: &Frozen) -> Result<Vec<u32>, AllocError>
    ensures { IfOk result (λ round. round.items ≡ opening_round frozen.now.geometry (frozen_view frozen.now)) }
{
    let mut round = Vec::new(alloc);
    if frozen.is_directory_at(ROOT) {
        round.push(ROOT)?;
    }
    Ok(round)
}

/// Follows round after round, until one finds no directory. There are at most as many as there are inodes, since each
/// but the last gives some number to a seat.
fn all_rounds<R: Threads + Sync, G: Gate>(
    rt: &R,
    walk: &SharedWalk<'_>,
    seats: Vec<Seat>,
    gate: &G,
) -> Result<Vec<Seat>, Refusal>
    requires own { All (λ seat. seat ≡ new_seat walk.now.claims.now.id walk.now.claims.now.units) seats.items }
    requires seats { IsTrue (may_work (vec_len seats)) }
    requires opening { walk.now.claims.now.opening ≡ opening_round walk.now.frozen.now.geometry (frozen_view walk.now.frozen.now) }
    requires pieces { AreCut 0 walk.now.pieces.now (inode_count walk.now.frozen.now.geometry) }
    ensures own { IfOk result (λ back. All (λ seat. seat.of ≡ walk.now.claims.now.id) back.items) }
    ensures count { IfOk result (λ back. vec_len back ≡ vec_len seats) }
    ensures walked { IfOk result (λ back. HasWalked walk.now.frozen.now.geometry (frozen_view walk.now.frozen.now) walk.now.claims.now.opening back.items) }
    ensures error { IsOkUnless result Refusal.NoMemory }
{
    let mut round = first_round(walk.alloc, walk.frozen)?;
    let mut seats = seats;
    let inodes = walk.frozen.geometry().inodes();
    for number in 0..inodes {
        if round.is_empty() {
            return Ok(seats);
        }
        let is_first = number == 0;
        let directories = round.as_slice();
        let (back, found) = one_round(rt, walk, seats, directories, is_first, gate)?;
        seats = back;
        round = found;
    }
    Ok(seats)
}

/// Follows the entries of the directories of a round. The result has the seats, and the directories that are given to
/// one of them for the first time.
fn one_round<R: Threads + Sync, G: Gate>(
    rt: &R,
    walk: &SharedWalk<'_>,
    seats: Vec<Seat>,
    round: &[u32],
    is_first: bool,
    gate: &G,
) -> Result<(Vec<Seat>, Vec<u32>), Refusal>
    requires own { All (λ seat. seat.of ≡ walk.now.claims.now.id) seats.items }
    requires seats { IsTrue (may_work (vec_len seats)) }
    requires directories { All (λ d. IsTrue (is_directory_at walk.now.frozen.now.geometry (frozen_view walk.now.frozen.now) d)) round.now }
    requires pieces { AreCut 0 walk.now.pieces.now (inode_count walk.now.frozen.now.geometry) }
    ensures own { IfOk result (λ done. All (λ seat. seat.of ≡ walk.now.claims.now.id) done.0.items) }
    ensures asked { IfOk result (λ done. HaveAsked walk.now.frozen.now.geometry (frozen_view walk.now.frozen.now) round.now seats.items done.0.items done.1.items) }
    ensures error { IsOkUnless result Refusal.NoMemory }
{
    if is_first || !is_short(walk.frozen, round, seats.len()) {
        shared_round(rt, walk, seats, round, gate)
    } else {
        lone_round(walk, seats, round, gate)
    }
}

/// The same, by a worker for each seat.
fn shared_round<R: Threads + Sync, G: Gate>(
    rt: &R,
    walk: &SharedWalk<'_>,
    seats: Vec<Seat>,
    round: &[u32],
    gate: &G,
) -> Result<(Vec<Seat>, Vec<u32>), Refusal>
    requires own { All (λ seat. seat.of ≡ walk.now.claims.now.id) seats.items }
    requires seats { IsTrue (may_work (vec_len seats)) }
    requires directories { All (λ d. IsTrue (is_directory_at walk.now.frozen.now.geometry (frozen_view walk.now.frozen.now) d)) round.now }
    requires pieces { AreCut 0 walk.now.pieces.now (inode_count walk.now.frozen.now.geometry) }
    ensures own { IfOk result (λ done. All (λ seat. seat.of ≡ walk.now.claims.now.id) done.0.items) }
    ensures asked { IfOk result (λ done. HaveAsked walk.now.frozen.now.geometry (frozen_view walk.now.frozen.now) round.now seats.items done.0.items done.1.items) }
    ensures error { IsOkUnless result Refusal.NoMemory }
{
    let walkers = hired(walk, round, seats)?;
    let units = walk.pieces.len() as u32;
    let (_parts, walkers) = each_group(rt, walk.alloc, PHASE, units, walkers, gate)?;
    Ok(paid(walk.alloc, walkers)?)
}
