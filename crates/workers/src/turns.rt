//! Each worker's turns.
ghost use Rattle.std.specs.Prelude.{◌≡◌, ℕ, ◌^◌, ◌<◌, All, IfOk, IsOkUnless, Some, Ok, length, slice_get, vec_len};
ghost use Rattle.claims.specs.Seats.{new_seat};
ghost use Rattle.workers.specs.Turns.{HasDone};

use crate::interface::{Gate, Work};
use claims::{Claims, Seat};
use layout::Refusal;
use std::alloc::{AllocError, Global};
use std::collections::VecDeque;
use std::thread;
use std::thread::Threads;

/// A worker with its seat.
#[derive(Drop)]
pub(crate) struct Hand<W> {
    pub(crate) seat: Seat,
    pub(crate) work: W,
}

/// A worker to which no unit is left, with its seat, and the units that it drew, in order, each with its part.
#[derive(Drop)]
pub(crate) struct Turns<W, P> {
    pub(crate) seat: Seat,
    pub(crate) work: W,
    pub(crate) calls: VecDeque<(u32, P)>,
}

/// Gives each worker a seat.
pub(crate) fn seated<W: Drop>(
    alloc: Global,
    claims: &Claims,
    seats: Vec<Seat>,
    works: Vec<W>,
) -> Result<Vec<Hand<W>>, AllocError>
    requires count { vec_len seats ≡ vec_len works }
    requires fresh { All (λ seat. seat ≡ new_seat claims.now.id claims.now.units) seats.items }
    ensures count { IfOk result (λ hands. vec_len hands ≡ vec_len works) }
    ensures each { IfOk result (λ hands. (i : ℕ) (work : W) → slice_get works.items i ≡ Some work
        → slice_get hands.items i ≡ Some (record { seat = new_seat claims.now.id claims.now.units; work = work })) }
    ensures fresh { IfOk result (λ hands. All (λ hand. hand.seat ≡ new_seat claims.now.id claims.now.units) hands.items) }
{
    let mut seats = seats;
    let mut hands = Vec::new(alloc);
    for work in works {
        let Some(seat) = seats.pop() else {
            unreachable!()
        };
        hands.push(Hand { seat, work })?;
    }
    Ok(hands)
}

/// What each worker gives of the units that it draws, in order of the workers.
pub(crate) fn run_all<W: Work, G: Gate>(
    rt: &(impl Threads + Sync),
    alloc: Global,
    phase: u8,
    claims: &Claims,
    hands: Vec<Hand<W>>,
    gate: &G,
) -> Result<Vec<Result<Turns<W, W::Part>, Refusal>>, AllocError>
    requires { All (λ hand. hand.seat ≡ new_seat claims.now.id claims.now.units) hands.items }
    ensures count { IfOk result (λ turns. vec_len turns ≡ vec_len hands) }
    ensures each { IfOk result (λ turns. (i : ℕ) (hand : _) (done : _) → slice_get hands.items i ≡ Some hand
        → slice_get turns.items i ≡ Some (Ok done)
        → HasDone W.gives claims.now hand.work done.calls.items done.work done.seat) }
    ensures errors { IfOk result (λ turns. All (λ turn. IsOkUnless turn Refusal.NoMemory) turns.items) }
{
    let take = |hand: Hand<W>| -> Result<Turns<W, W::Part>, Refusal>
        requires { hand.seat ≡ new_seat claims.now.id claims.now.units }
        ensures done { IfOk result (λ done. HasDone W.gives claims.entry.now hand.work done.calls.items done.work done.seat) }
        ensures error { IsOkUnless result Refusal.NoMemory }
    { take_turns(alloc, phase, claims, hand, gate) };
    thread::map_vec(rt, hands, &take)
}

/// Draws units until none is left, and does each.
pub(crate) fn take_turns<W: Work, G: Gate>(
    alloc: Global,
    phase: u8,
    claims: &Claims,
    hand: Hand<W>,
    gate: &G,
) -> Result<Turns<W, W::Part>, Refusal>
    requires { hand.seat ≡ new_seat claims.now.id claims.now.units }
    ensures done { IfOk result (λ done. HasDone W.gives claims.now hand.work done.calls.items done.work done.seat) }
    ensures error { IsOkUnless result Refusal.NoMemory }
{
    let Hand { mut seat, mut work } = hand;
    let mut calls = VecDeque::new(alloc);
    while let Some(unit) = claims.draw(&mut seat) {
        gate.pass(phase, unit);
        calls.push_back((unit, work.part(unit)?))?;
    }
    Ok(Turns { seat, work, calls })
}
