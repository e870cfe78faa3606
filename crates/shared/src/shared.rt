//! The lock round the volume, how it is shared, and what is left when it is closed.
ghost use Rattle.std.specs.Prelude.{◌≡◌, ◌≢◌, ◌↔◌, ◌+◌, ◌<◌, ◌≤◌, ℕ, List, All, Err, IfOk, IsErrOf, IsOkUnless, vec_len};
ghost use Rattle.std.specs.List.{sum_by};
ghost use Rattle.shared.specs.Calls.{IsCallOf, IsFlushOf, IsRotationOf};
ghost use Rattle.shared.specs.Limits.{Within};
ghost use Rattle.shared.specs.Opened.{opened_of};
ghost use Rattle.shared.specs.Repairing.{of_others, of_repairs, repairs_in};
ghost use Rattle.shared.specs.Traces.{HasHistory};

use crate::booked::{Booked, Closed};
use crate::limits::are_within;
use crate::seat::{Seat, seated, whole};
use crate::sharing::{Rotating, Sharing};
use device::Device;
use layout::Refusal;
use outcomes::with;
use snapshot::{Command, Reply, Volume};
use std::alloc::Global;
use std::sync::ledger::{Blank, Book, Ledger};
use std::sync::{Mutex, Wait};

/// One volume for many threads, each with a seat.
#[derive(Drop)]
pub struct Shared<D: Device, L: Sharing, M: Ledger> {
    booked: Mutex<Booked<D, L, M>>,
    pub ghost room: { 1 ≤ L.limit },
}

/// The books in which calls are counted, and the seats whose calls they are.
#[derive(Drop)]
struct Opened<L: Ledger, M: Ledger> {
    repairs: Book<L>,
    others: Book<M>,
    seats: Vec<Seat<L, M>>,
}

/// The books of two blanks, in which nothing was counted, and as many seats.
fn open_books<L: Ledger, M: Ledger>(
    alloc: Global,
    limit: u32,
    seats: u32,
    repairs: Blank,
    others: Blank,
) -> Result<Opened<L, M>, Refusal>
    requires name { (repairs.name ≡ L.name) × (others.name ≡ M.name) }
    requires parts { (repairs.parts ≡ L.parts) × (others.parts ≡ M.parts) }
    requires seats { (repairs.parts ≡ seats) × (others.parts ≡ seats) }
    ensures books { IfOk result (λ opened. (opened.repairs.total ≡ 0) × (opened.others.total ≡ 0)) }
    ensures seats { IfOk result (λ opened. (vec_len opened.seats ≡ L.parts) × (vec_len opened.seats ≡ M.parts)) }
    ensures unused { IfOk result (λ opened. All (λ seat. (seat.repairs.amount ≡ 0) × (seat.others.amount ≡ 0)) opened.seats.items) }
    ensures within { IfOk result (λ opened. Within limit seats) }
    ensures bad_index { IsErrOf result Refusal.BadIndex ↔ (Within limit seats → ⊥) }
    ensures error { Within limit seats → IsOkUnless result Refusal.NoMemory }
{
    if !are_within(limit, seats) {
        return Err(Refusal::BadIndex);
    }
    let (repairs, repairs_share) = repairs.open::<L>();
    let (others, others_share) = others.open::<M>();
    let seats = seated(alloc, repairs_share, others_share, seats)?;
    Ok(Opened {
        repairs,
        others,
        seats,
    })
}

impl<D: Device + Drop, L: Sharing, M: Ledger> Shared<D, L, M> {
    /// Shares this volume among so many seats, none of which was used. The trace is empty, and has room for `limit` calls.
    /// Refused with `BadIndex` unless there is room for 1 to 1,000,000 calls and there are 1 to 64 seats, and with
    /// `NoMemory`.
    pub fn new(
        alloc: Global,
        volume: Volume<D>,
        limit: u32,
        seats: u32,
        repairs: Blank,
        others: Blank,
    ) -> Result<(Shared<D, L, M>, Vec<Seat<L, M>>), Refusal>
        requires name { (repairs.name ≡ L.name) × (others.name ≡ M.name) }
        requires parts { (repairs.parts ≡ L.parts) × (others.parts ≡ M.parts) }
        requires seats { (repairs.parts ≡ seats) × (others.parts ≡ seats) }
        requires sharing { (limit ≡ L.limit) × L.opens (opened_of D.held D.image volume) }
        ensures seats { IfOk result (λ made. (vec_len made.1 ≡ L.parts) × (vec_len made.1 ≡ M.parts)) }
        ensures unused { IfOk result (λ made. All (λ seat. (seat.repairs.amount ≡ 0) × (seat.others.amount ≡ 0)) made.1.items) }
        ensures bad_index { IsErrOf result Refusal.BadIndex ↔ (Within limit seats → ⊥) }
        ensures error { Within limit seats → IsOkUnless result Refusal.NoMemory }
    {
        let opened = open_books(alloc, limit, seats, repairs, others);
        let (opened, volume) = with(opened, volume)?;
        let Opened {
            repairs,
            others,
            seats,
        } = opened;
        let booked = Booked::new(alloc, volume, limit as usize, repairs, others)?;
        let shared = Shared {
            booked: Mutex::new(booked),
        };
        Ok((shared, seats))
    }

    /// Waits for the lock, and makes one call of `Booked::call` on what is locked.
    pub fn call<R: Wait>(
        &self,
        rt: &R,
        alloc: Global,
        seat: &mut Seat<L, M>,
        command: Command,
    ) -> Reply
        ensures full { result ≡ Err Refusal.TraceFull → seat.new ≡ seat.old }
        ensures repairs { result ≢ Err Refusal.TraceFull → seat.new.repairs.amount ≡ seat.old.repairs.amount + of_repairs command }
        ensures others { result ≢ Err Refusal.TraceFull → seat.new.others.amount ≡ seat.old.others.amount + of_others command }
        // It was called under the lock, of a volume of this sharing. No clause can name which one.
        ensures called { IsCallOf D.honest D.held D.image L.limit L.opens command result }
    {
        self.booked.lock(rt).call(alloc, seat, command)
    }

    /// Waits for the lock, and makes one call of `Booked::flush_some` on what is locked.
    pub fn flush_some<R: Wait>(&self, rt: &R, alloc: Global, seat: &mut Seat<L, M>) -> Reply
        ensures full { result ≡ Err Refusal.TraceFull → seat.new ≡ seat.old }
        ensures repairs { seat.new.repairs.amount ≡ seat.old.repairs.amount }
        ensures others { result ≢ Err Refusal.TraceFull → seat.new.others.amount ≡ seat.old.others.amount + 1 }
        ensures called { IsFlushOf D.honest D.held D.image L.limit L.opens result }
    {
        self.booked.lock(rt).flush_some(alloc, seat)
    }

    /// The volume with its trace, once all seats are given back: together they were used for the calls before the trace and
    /// those in it, which led to the volume from the one that was shared.
    pub fn close(self, seats: Vec<Seat<L, M>>) -> Closed<D>
        requires all { (vec_len seats ≡ L.parts) × (vec_len seats ≡ M.parts) }
        requires some { 0 < L.parts }
        ensures history { D.honest result.volume.device → HasHistory D.held D.image L.opens result.before result.trace.items result.volume }
        ensures repairs { sum_by (λ seat. seat.repairs.amount) seats.items ≡ result.before.repairs + repairs_in result.trace.items }
        ensures others { sum_by (λ seat. seat.others.amount) seats.items + repairs_in result.trace.items ≡ result.before.others + vec_len result.trace }
    {
        let Shared { booked } = self;
        let (repairs, others) = whole(seats);
        booked.into_inner().close(repairs, others)
    }
}

impl<D: Device + Drop, L: Rotating, M: Ledger> Shared<D, L, M> {
    /// Waits for the lock, and makes one call of `Booked::rotate` on what is locked.
    pub fn rotate<R: Wait>(&self, rt: &R, seat: &mut Seat<L, M>) -> Result<(), Refusal>
        ensures seat { seat.new ≡ seat.old }
        ensures error { IsOkUnless result Refusal.TraceFull }
        ensures called { IsRotationOf D.honest D.held D.image L.limit L.opens result }
    {
        self.booked.lock(rt).rotate(seat)
    }
}
