//! The parts of all workers, put in order of their units.
ghost use Rattle.std.specs.Prelude.{◌≡◌, ℕ, ◌<◌, ◌∷◌, ◌++◌, [], All, IfOk, IsOkUnless, OnOk, Some, Ok, length, slice_get, vec_len};
ghost use Rattle.std.specs.List.{position_or_len};
ghost use Rattle.claims.specs.Counting.{times, total, once_below};
ghost use Rattle.claims.specs.Seats.{all_drawn};
ghost use Rattle.workers.specs.Turns.{units_in, IsRising, begins_with, AreDealt};

use crate::turns::Turns;
use claims::Seat;
use layout::Refusal;
use std::alloc::{AllocError, Global};
use std::collections::VecDeque;

/// Turns that were all done, taken apart.
#[derive(Drop)]
pub(crate) struct Apart<W, P> {
    pub(crate) lists: Vec<VecDeque<(u32, P)>>,
    pub(crate) seats: Vec<Seat>,
    pub(crate) works: Vec<W>,
}

impl<W: Drop, P: Drop> Apart<W, P> {
    /// Adds the turns of one worker more.
    fn add(&mut self, turns: Turns<W, P>) -> Result<(), AllocError>
        ensures lists { OnOk result (self.new.lists.items ≡ self.old.lists.items ++ turns.calls ∷ []) }
        ensures seats { OnOk result (self.new.seats.items ≡ self.old.seats.items ++ turns.seat ∷ []) }
        ensures works { OnOk result (self.new.works.items ≡ self.old.works.items ++ turns.work ∷ []) }
    {
        self.lists.push(turns.calls)?;
        self.seats.push(turns.seat)?;
        self.works.push(turns.work)?;
        Ok(())
    }
}

/// The calls, the seats and the workers of turns that were all done, apart, or a refusal of one that was not.
pub(crate) fn settled<W: Drop, P: Drop>(
    alloc: Global,
    turns: Vec<Result<Turns<W, P>, Refusal>>,
) -> Result<Apart<W, P>, Refusal>
    requires { All (λ turn. IsOkUnless turn Refusal.NoMemory) turns.items }
    ensures lists { IfOk result (λ apart. vec_len apart.lists ≡ vec_len turns) }
    ensures seats { IfOk result (λ apart. vec_len apart.seats ≡ vec_len turns) }
    ensures works { IfOk result (λ apart. vec_len apart.works ≡ vec_len turns) }
    ensures each { IfOk result (λ apart. (i : ℕ) (list : _) (seat : _) (work : W) → slice_get apart.lists.items i ≡ Some list
        → slice_get apart.seats.items i ≡ Some seat → slice_get apart.works.items i ≡ Some work
        → slice_get turns.items i ≡ Some (Ok (record { seat = seat; work = work; calls = list }))) }
    ensures error { IsOkUnless result Refusal.NoMemory }
{
    let mut apart = Apart {
        lists: Vec::new(alloc),
        seats: Vec::new(alloc),
        works: Vec::new(alloc),
    };
    for turn in turns {
        apart.add(turn?)?;
    }
    Ok(apart)
}

/// The parts of all units, from one list of calls for each worker, where each unit stands in one of them.
pub(crate) fn in_order<P: Drop>(
    alloc: Global,
    units: u32,
    lists: Vec<VecDeque<(u32, P)>>,
) -> Result<Vec<P>, AllocError>
    requires once { (unit : ℕ) → total (λ list. times unit (units_in list.items)) lists.items ≡ once_below units unit }
    requires rising { (w : ℕ) (list : _) → slice_get lists.items w ≡ Some list → IsRising (units_in list.items) }
    ensures units { IfOk result (λ parts. vec_len parts ≡ units) }
    ensures dealt { IfOk result (λ parts. AreDealt (λ list. list.items) lists.items parts.items) }
{
    let mut lists = lists;
    let mut parts = Vec::new(alloc);
    for unit in 0..units {
        let holder = holder_of(lists.as_slice(), unit);
        let Some((_unit, part)) = lists[holder].pop_front() else {
            unreachable!()
        };
        parts.push(part)?;
    }
    Ok(parts)
}

/// The first list that begins with this unit, or their number.
fn holder_of<P>(lists: &[VecDeque<(u32, P)>], unit: u32) -> usize
    ensures { result ≡ position_or_len (λ list. begins_with unit list.items) lists.now }
{
    let mut holder = 0;
    while holder < lists.len() && !is_first(&lists[holder], unit) {
        holder += 1;
    }
    holder
}

/// Whether a list begins with this unit.
fn is_first<P>(list: &VecDeque<(u32, P)>, unit: u32) -> bool
    ensures { result ≡ begins_with unit list.now.items }
{
    match list.front() {
        Some(call) => call.0 == unit,
        None => false,
    }
}
