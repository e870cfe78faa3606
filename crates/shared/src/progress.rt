//! Repairs, one after another.
ghost use Rattle.std.specs.Prelude.{◌≡◌, ◌≢◌, ◌+◌, ◌≤◌, Err, IfErr, Ok, OnOk};
ghost use Rattle.snapshot.specs.declared.answer.Answer.{Answer};
ghost use Rattle.layout.specs.declared.refusal.Refusal.{Refusal};
ghost use Rattle.shared.specs.Calls.{IsRepairOf};
ghost use Rattle.shared.specs.Repairing.{EndsAt, Repairs, ended};

use crate::seat::Seat;
use crate::shared::Shared;
use crate::sharing::Sharing;
use device::Device;
use layout::Refusal;
use snapshot::Command;
use std::alloc::Global;
use std::sync::Wait;
use std::sync::ledger::Ledger;

/// How far the repairs of a check have come.
#[derive(Clone, Copy, PartialEq, Eq, Debug)]
pub struct Progress {
    /// The place of the next repair.
    pub next: u32,
    /// How many of those before it were carried out, and not found to be.
    pub done: u32,
    pub ghost fewer: { done ≤ next },
}

impl Progress {
    /// Before the first repair.
    pub fn new() -> Progress
        ensures { (result.next ≡ 0) × (result.done ≡ 0) }
    {
        Progress { next: 0, done: 0 }
    }
}

impl<D: Device + Drop, L: Sharing, M: Ledger> Shared<D, L, M> {
    /// Carries out the repairs of the check that is installed, from the next place on, by one call each, until there is none
    /// at a place, or no check is installed. One that is done already is passed over. Any other refusal ends it and is handed
    /// on, with the place that was refused as the next one.
    pub fn repair_all<R: Wait>(
        &self,
        rt: &R,
        alloc: Global,
        seat: &mut Seat<L, M>,
        progress: &mut Progress,
    ) -> Result<(), Refusal>
        // Each place that was passed is one of a call that carried its repair out, which counts, or that found it done.
        ensures passed { Repairs (IsRepairOf D.honest D.held D.image L.limit L.opens) progress.old.next progress.old.done progress.new.next progress.new.done }
        ensures others { seat.new.others.amount ≡ seat.old.others.amount }
        // A repair was called for each place that was passed, and for the place where it ended.
        ensures repairs { seat.new.repairs.amount + progress.old.next ≡ seat.old.repairs.amount + progress.new.next + ended result progress.new.next }
        // It ended where the volume had no repair, or no check; any other refusal is the one of the next place.
        ensures ended { OnOk result (EndsAt (IsRepairOf D.honest D.held D.image L.limit L.opens) progress.new.next) }
        ensures refused { IfErr result (λ r. IsRepairOf D.honest D.held D.image L.limit L.opens progress.new.next (Err r)) }
        ensures handed_on { (result ≢ Err Refusal.AlreadyDone) × (result ≢ Err Refusal.BadIndex) × (result ≢ Err Refusal.NoPlan) }
    {
        while progress.next < u32::MAX {
            match self.repair(rt, alloc, seat, progress.next) {
                Ok(()) => {
                    progress.done += 1;
                    progress.next += 1;
                }
                Err(Refusal::AlreadyDone) => progress.next += 1,
                Err(Refusal::BadIndex | Refusal::NoPlan) => return Ok(()),
                Err(refusal) => return Err(refusal),
            }
        }
        Ok(())
    }

    /// Calls the repair of a place.
    fn repair<R: Wait>(
        &self,
        rt: &R,
        alloc: Global,
        seat: &mut Seat<L, M>,
        place: u32,
    ) -> Result<(), Refusal>
        ensures carried_out { OnOk result ((answer : Answer) × IsRepairOf D.honest D.held D.image L.limit L.opens place (Ok answer)) }
        ensures refused { IfErr result (λ r. IsRepairOf D.honest D.held D.image L.limit L.opens place (Err r)) }
        ensures full { result ≡ Err Refusal.TraceFull → seat.new ≡ seat.old }
        ensures repairs { result ≢ Err Refusal.TraceFull → seat.new.repairs.amount ≡ seat.old.repairs.amount + 1 }
        ensures others { result ≢ Err Refusal.TraceFull → seat.new.others.amount ≡ seat.old.others.amount }
    {
        self.call(rt, alloc, seat, Command::Repair(place))?;
        Ok(())
    }
}
