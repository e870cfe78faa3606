//! The volume under the lock, with the trace of what was called.
ghost use Rattle.std.specs.Prelude.{◌≡◌, ◌≢◌, ◌⊎◌, ◌+◌, ◌<◌, ◌^◌, if◌then◌else◌, [], Err, IfOk, IsErrOf, IsOkUnless, Ok, vec_len};
ghost use Rattle.device.specs.Writes.{HasFailed};
ghost use Rattle.shared.specs.Calls.{CountsSome, FlushesNext, IsCall, IsOfSharing, IsRotation, no_calls};
ghost use Rattle.shared.specs.Next.{IsNext};
ghost use Rattle.snapshot.specs.Asked.{HasBytesOrNames};
ghost use Rattle.shared.specs.Noted.{Notes};
ghost use Rattle.shared.specs.Opened.{opened_of};
ghost use Rattle.shared.specs.Repairing.{is_repair, of_others, of_repairs, repairs_in};
ghost use Rattle.shared.specs.Traces.{HasHistory};

use crate::counts::Counts;
use crate::entry::{Entry, note};
use crate::seat::Seat;
use crate::sharing::{Rotating, Sharing};
use device::Device;
use layout::Refusal;
use outcomes::with;
use snapshot::{Answer, Command, Reply, Volume};
use std::alloc::Global;
use std::marker::Model;
use std::sync::ledger::{Book, Ledger, Share};

/// A volume, and the trace of what was called since it was put here, or since the trace was emptied for the last time. If its
/// device was honest so far, the calls before the trace and the commands of the trace led to the volume from the one that was
/// shared, with replies of which the trace notes all but images.
#[derive(Drop)]
pub struct Booked<D: Device, L: Sharing, M: Ledger> {
    volume: Volume<D>,
    limit: usize,
    /// The calls before the trace.
    before: Counts,
    trace: Vec<Entry>,
    /// The calls of the trace.
    inside: Counts,
    repairs: Book<L>,
    others: Book<M>,
}

impl<D: Device, L: Sharing, M: Ledger> Model for Booked<D, L, M> {
    ghost use Rattle.std.specs.Prelude.{◌≡◌, ◌+◌, ◌≤◌, vec_len, vec_capacity};
    ghost use Rattle.std.specs.List.{count_by};
    ghost use Rattle.shared.specs.Repairing.{is_repair_entry};
    ghost use Rattle.shared.specs.Shown.{Shown};
    ghost use Rattle.shared.specs.Traces.{HasHistory};

    ghost Value = { Shown D };

    ghost view = { λ b. record { before = b.before; trace = b.trace.items; limit = b.limit; volume = b.volume } };

    ghost invariant = { λ b. (vec_len b.trace ≤ b.limit) × (b.limit ≤ vec_capacity b.trace)
        × (b.inside.repairs ≡ count_by is_repair_entry b.trace.items) × (b.inside.repairs + b.inside.others ≡ vec_len b.trace)
        × (b.before.repairs + b.inside.repairs ≡ b.repairs.total) × (b.before.others + b.inside.others ≡ b.others.total)
        × (D.honest b.volume.device → HasHistory D.held D.image L.opens b.before b.trace.items b.volume)
        × (b.limit ≡ L.limit) };
}

/// What is left of a volume when no one calls it any more.
#[derive(Drop)]
pub struct Closed<D: Device> {
    /// The calls before the trace.
    pub before: Counts,
    pub trace: Vec<Entry>,
    pub volume: Volume<D>,
}

impl<D: Device + Drop, L: Sharing, M: Ledger> Booked<D, L, M> {
    /// Puts a volume here, with an empty trace that has room for so many calls. Refused with `NoMemory`.
    pub fn new(
        alloc: Global,
        volume: Volume<D>,
        limit: usize,
        repairs: Book<L>,
        others: Book<M>,
    ) -> Result<Booked<D, L, M>, Refusal>
        requires unused { (repairs.total ≡ 0) × (others.total ≡ 0) }
        requires limit { limit ≡ L.limit }
        requires opens { L.opens (opened_of D.held D.image volume) }
        ensures before { IfOk result (λ booked. booked.before ≡ no_calls) }
        ensures trace { IfOk result (λ booked. booked.trace ≡ []) }
        ensures limit { IfOk result (λ booked. booked.limit ≡ limit) }
        ensures volume { IfOk result (λ booked. booked.volume ≡ volume) }
        ensures error { IsOkUnless result Refusal.NoMemory }
    {
        let (trace, volume) = with(Vec::with_capacity(alloc, limit), volume)?;
        volume.live(); // for the proof: its clause `balance`
        Ok(Booked {
            volume,
            limit,
            before: Counts::NONE,
            trace,
            inside: Counts::NONE,
            repairs,
            others,
        })
    }

    /// The calls before the trace and those in it led here from the volume that was shared: a law.
    pub fn has_history(&self)
        ensures { IsOfSharing D.honest D.held D.image L.limit L.opens self.now }
    {
        let _ = &self.trace;
    }

    /// Carries out a command, and adds it to the trace with its reply. Refused with `TraceFull` where the trace has no room,
    /// and then nothing changes; else as the volume refuses it, and with `NoMemory` where bytes or names cannot be copied.
    pub fn call(&mut self, alloc: Global, seat: &mut Seat<L, M>, command: Command) -> Reply
        ensures known { IsOfSharing D.honest D.held D.image L.limit L.opens self.old }
        ensures call { IsCall D.honest D.held D.image self.old command result self.new }
        ensures unchanged { result ≡ Err Refusal.TraceFull → seat.new ≡ seat.old }
        ensures cause { IsErrOf result Refusal.Device → HasFailed (D.failures self.old.volume.device) (D.failures self.new.volume.device) }
        ensures honest { D.honest self.new.volume.device → D.honest self.old.volume.device }
        ensures repairs { result ≢ Err Refusal.TraceFull → seat.new.repairs.amount ≡ seat.old.repairs.amount + of_repairs command }
        ensures others { result ≢ Err Refusal.TraceFull → seat.new.others.amount ≡ seat.old.others.amount + of_others command }
    {
        if self.trace.len() >= self.limit {
            return Err(Refusal::TraceFull);
        }
        let repair = is_repair(&command);
        let reply = self.volume.apply(alloc, &command);
        let (reply, noted) = with_note(alloc, reply);
        self.trace
            .push(Entry {
                command,
                reply: noted,
            })
            .unwrap();
        count(
            repair,
            &mut self.inside,
            &mut self.repairs,
            &mut self.others,
            seat,
        );
        reply
    }

    /// Flushes the least block of which that writes something, or block 0 where there is none: then nothing is pending, or the
    /// device, which does not keep order, is waited for, so that more may be written next. Refused as `call` is.
    pub fn flush_some(&mut self, alloc: Global, seat: &mut Seat<L, M>) -> Reply
        ensures known { IsOfSharing D.honest D.held D.image L.limit L.opens self.old }
        ensures call { FlushesNext D.honest D.held D.image self.old result self.new }
        ensures unchanged { result ≡ Err Refusal.TraceFull → seat.new ≡ seat.old }
        // The answer counts the updates that were written: 0 exactly where none could be.
        ensures wrote { D.honest self.new.volume.device → IfOk result (CountsSome self.old.volume) }
        ensures cause { IsErrOf result Refusal.Device → HasFailed (D.failures self.old.volume.device) (D.failures self.new.volume.device) }
        ensures honest { D.honest self.new.volume.device → D.honest self.old.volume.device }
        ensures repairs { seat.new.repairs.amount ≡ seat.old.repairs.amount }
        ensures others { result ≢ Err Refusal.TraceFull → seat.new.others.amount ≡ seat.old.others.amount + 1 }
    {
        let address = next_block(&self.volume);
        self.call(alloc, seat, Command::Flush(address))
    }

    /// The volume with its trace, where all calls were counted on these shares.
    pub fn close(self, mut all_repairs: Share<L>, mut all_others: Share<M>) -> Closed<D>
        requires { (all_repairs.parts ≡ L.parts) × (all_others.parts ≡ M.parts) }
        ensures repairs { all_repairs.amount ≡ result.before.repairs + repairs_in result.trace.items }
        ensures others { all_others.amount + repairs_in result.trace.items ≡ result.before.others + vec_len result.trace }
        ensures before { result.before ≡ self.before }
        ensures trace { result.trace.items ≡ self.trace }
        ensures volume { result.volume ≡ self.volume }
        ensures history { D.honest result.volume.device → HasHistory D.held D.image L.opens result.before result.trace.items result.volume }
    {
        let Booked {
            volume,
            limit: _,
            before,
            trace,
            inside: _,
            mut repairs,
            mut others,
        } = self;
        repairs.audit(&mut all_repairs);
        others.audit(&mut all_others);
        Closed {
            before,
            trace,
            volume,
        }
    }
}

impl<D: Device + Drop, L: Rotating, M: Ledger> Booked<D, L, M> {
    /// Empties the trace, and counts its calls among those before it. Refused with `TraceFull` if a count would reach 2^64.
    pub fn rotate(&mut self, _seat: &mut Seat<L, M>) -> Result<(), Refusal>
        ensures known { IsOfSharing D.honest D.held D.image L.limit L.opens self.old }
        ensures rotation { IsRotation self.old result self.new }
        ensures seat { _seat.new ≡ _seat.old }
        ensures error { IsOkUnless result Refusal.TraceFull }
    {
        self.before = self
            .before
            .checked_add(self.inside)
            .ok_or(Refusal::TraceFull)?;
        self.inside = Counts::NONE;
        self.trace.clear();
        Ok(())
    }
}

/// A reply, and what is noted of it. Where a copy is refused memory, both are that.
fn with_note(alloc: Global, reply: Reply) -> (Reply, Reply)
    ensures noted { Notes result.0 result.1 }
    ensures same { (result.0 ≡ reply) ⊎ (HasBytesOrNames reply × (result.0 ≡ Err Refusal.NoMemory)) }
{
    match note(alloc, &reply) {
        Ok(noted) => (reply, noted),
        Err(_) => (Err(Refusal::NoMemory), Err(Refusal::NoMemory)),
    }
}

/// Counts a call, a repair or another one.
fn count<L: Ledger, M: Ledger>(
    repair: bool,
    inside: &mut Counts,
    repairs: &mut Book<L>,
    others: &mut Book<M>,
    seat: &mut Seat<L, M>,
)
    requires { inside.old.repairs + inside.old.others < 2 ^ 63 }
    ensures repairs { inside.new.repairs ≡ inside.old.repairs + (if repair then 1 else 0) }
    ensures others { inside.new.others ≡ inside.old.others + (if repair then 0 else 1) }
    ensures repairs_total { repairs.new.total ≡ repairs.old.total + (if repair then 1 else 0) }
    ensures others_total { others.new.total ≡ others.old.total + (if repair then 0 else 1) }
    ensures repairs_amount { seat.new.repairs.amount ≡ seat.old.repairs.amount + (if repair then 1 else 0) }
    ensures others_amount { seat.new.others.amount ≡ seat.old.others.amount + (if repair then 0 else 1) }
{
    if repair {
        inside.repairs += 1;
        repairs.add(&mut seat.repairs, 1);
    } else {
        inside.others += 1;
        others.add(&mut seat.others, 1);
    }
}

/// The least block of which a flush writes something, or block 0.
fn next_block<D: Device>(volume: &Volume<D>) -> u32
    ensures { IsNext volume.now.queue result }
{
    volume.live().least_ready().unwrap_or(0)
}

/// Whether a command is a repair.
fn is_repair(command: &Command) -> bool
    ensures { result ≡ is_repair command.now }
{
    matches!(command, Command::Repair(_))
}
