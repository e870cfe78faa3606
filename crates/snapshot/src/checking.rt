ghost use Rattle.std.specs.Prelude.{◌≡◌, ◌⊎◌, true, Err, IfErr, IsOkUnless, IsSome, None, Ok, OnErr, OnOk, Some};
ghost use Rattle.std.specs.List.{list_all};
ghost use Rattle.findings.specs.Findings.{is_soft};
ghost use Rattle.machine.specs.Command.{Done, RepairAt};
ghost use Rattle.frozen.specs.Kept.{frozen_view};
ghost use Rattle.fsck.specs.Checked.{IsChecked};
ghost use Rattle.machine.specs.Causes.{FirstRefusal};
ghost use Rattle.machine.specs.Standing.{latest_at};
ghost use Rattle.machine.specs.State.{State};
ghost use Rattle.live_states.specs.Holdings.{Has};
ghost use Rattle.live_states.specs.Planned.{IsRefusedWith};
ghost use Rattle.live_states.specs.Snapshots.{AreRepairsOf, IsInstallable, installing};
ghost use Rattle.snapshot.specs.Asked.{check_of};
ghost use Rattle.snapshot.specs.Between.{GotReply, asks_install};

use crate::Volume;
use device::Device;
use findings::{Verdict, findings_are_unique};
use fsck::Checked;
use layout::Refusal;
use live::Live;
use same_metadata::have_same_metadata;
use std::alloc::Global;

impl<D: Device> Volume<D> {
    /// Takes the repairs of a check of the snapshot of the latest freeze, none of them done. Refused with `NoSnapshot` where
    /// that one stands no more, whatever else stands, with `PlanStands` where a check of it was installed before, with
    /// `PlanNotSoft` where the image that was checked is damaged, with `ForeignPlan` where that image is another one than the
    /// snapshot's: its geometry, a record, a bit, or a byte of a table or a directory's block differs; and with
    /// `NoMemory`.
    pub fn install(&mut self, alloc: Global, checked: &Checked) -> Result<(), Refusal>
        ensures installed { OnOk result (D.honest self.new.device → GotReply D.held D.image self.old (asks_install self.old checked.now) (Ok Done) self.new) }
        ensures refused { IfErr result (λ r. D.honest self.new.device → GotReply D.held D.image self.old (asks_install self.old checked.now) (Err r) self.new) }
        ensures cause { IfErr result (IsRefusedWith self.old.kept self.old.holdings (asks_install self.old checked.now)) }
        ensures untouched { OnErr result (self.new ≡ self.old) }
        ensures device { self.new.device ≡ self.old.device }
    {
        may_install(self.live(), checked)?;
        self.take_repairs(alloc, checked)
    }

    /// Takes the repairs of a check as `install` does, where the image that was checked is the very snapshot of the latest
    /// freeze, which stands: nothing is compared. Refused with `PlanStands`, with `PlanNotSoft`, and with `NoMemory`.
    pub fn install_own(&mut self, alloc: Global, checked: &Checked) -> Result<(), Refusal>
        requires own { latest_at self.old.holdings.snapshots.standing self.old.holdings.snapshots.freezes ≡ Some checked.now.frozen }
        ensures installed { OnOk result (D.honest self.new.device → GotReply D.held D.image self.old (asks_install self.old checked.now) (Ok Done) self.new) }
        ensures refused { IfErr result (λ r. D.honest self.new.device → GotReply D.held D.image self.old (asks_install self.old checked.now) (Err r) self.new) }
        ensures cause { IfErr result (IsRefusedWith self.old.kept self.old.holdings (asks_install self.old checked.now)) }
        ensures error { IfErr result (λ r. (r ≡ Refusal.PlanStands) ⊎ ((r ≡ Refusal.PlanNotSoft) ⊎ (r ≡ Refusal.NoMemory))) }
        ensures untouched { OnErr result (self.new ≡ self.old) }
        ensures device { self.new.device ≡ self.old.device }
    {
        may_install_own(self.live(), checked)?;
        self.take_repairs(alloc, checked)
    }

    /// Takes the repairs of a check that may be installed, none of them done.
    fn take_repairs(&mut self, alloc: Global, checked: &Checked) -> Result<(), Refusal>
        requires installable { IsInstallable self.old.kept self.old.holdings (check_of self.old.kept.geometry checked.now) checked.now.repairs }
        requires named { AreRepairsOf self.old.kept.geometry (installing self.old.holdings checked.now.repairs).repairs }
        ensures installed { OnOk result (D.honest self.new.device → GotReply D.held D.image self.old (asks_install self.old checked.now) (Ok Done) self.new) }
        ensures refused { IfErr result (λ r. D.honest self.new.device → GotReply D.held D.image self.old (asks_install self.old checked.now) (Err r) self.new) }
        ensures error { IsOkUnless result Refusal.NoMemory }
        ensures untouched { OnErr result (self.new ≡ self.old) }
        ensures device { self.new.device ≡ self.old.device }
    {
        let repairs = checked.repairs().to_vec(alloc)?;
        let outcome = self.live.install(alloc, repairs);
        self.live.device(); // for the proof: its clause `stands`
        outcome
    }

    /// Carries out the repair of this place in the list of the check that is installed: an inode that nothing reaches loses
    /// its links, one that counts too many loses those, and goes where none is left and no handle is open on it; a block or
    /// a number that is in no use is unmarked. Refused with `NoPlan` where no check is installed, with `BadIndex` where it
    /// has no such repair, with `AlreadyDone`, and with `NoMemory`.
    pub fn repair(&mut self, alloc: Global, place: u32) -> Result<(), Refusal>
        ensures repaired { OnOk result (D.honest self.new.device → GotReply D.held D.image self.old (RepairAt place) (Ok Done) self.new) }
        ensures refused { IfErr result (λ r. D.honest self.new.device → GotReply D.held D.image self.old (RepairAt place) (Err r) self.new) }
        ensures cause { IfErr result (IsRefusedWith self.old.kept self.old.holdings (RepairAt place)) }
        ensures untouched { OnErr result (self.new ≡ self.old) }
        ensures device { self.new.device ≡ self.old.device }
    {
        let outcome = self.live.repair(alloc, place);
        self.live.device(); // for the proof: its clause `stands`
        outcome
    }
}

/// Whether the repairs of a check may be taken.
fn may_install<D: Device>(live: &Live<D>, checked: &Checked) -> Result<(), Refusal>
    ensures installable { OnOk result (IsInstallable live.now.kept live.now.holdings (check_of live.now.kept.geometry checked.now) checked.now.repairs) }
    ensures named { OnOk result (AreRepairsOf live.now.kept.geometry (installing live.now.holdings checked.now.repairs).repairs) }
    ensures refused { IfErr result (λ r. (old : State) → Has live.now.holdings old
        → FirstRefusal live.now.kept.geometry old (asks_install live.now checked.now) r) }
{
    let Some(snapshot) = live.latest() else {
        return Err(Refusal::NoSnapshot);
    };
    may_mend(live, checked)?;
    tells_its_image(checked);
    if !have_same_metadata(snapshot, checked.frozen()) {
        return Err(Refusal::ForeignPlan);
    }
    Ok(())
}

/// Whether the repairs of a check may be taken, where the snapshot of the latest freeze is the image that was checked.
fn may_install_own<D: Device>(live: &Live<D>, checked: &Checked) -> Result<(), Refusal>
    requires { latest_at live.now.holdings.snapshots.standing live.now.holdings.snapshots.freezes ≡ Some checked.now.frozen }
    ensures installable { OnOk result (IsInstallable live.now.kept live.now.holdings (check_of live.now.kept.geometry checked.now) checked.now.repairs) }
    ensures named { OnOk result (AreRepairsOf live.now.kept.geometry (installing live.now.holdings checked.now.repairs).repairs) }
    ensures refused { IfErr result (λ r. (old : State) → Has live.now.holdings old
        → FirstRefusal live.now.kept.geometry old (asks_install live.now checked.now) r) }
    ensures error { IfErr result (λ r. (r ≡ Refusal.PlanStands) ⊎ (r ≡ Refusal.PlanNotSoft)) }
{
    may_mend(live, checked)?;
    live.latest(); // for the proof: its clause `whole`
    tells_its_image(checked);
    Ok(())
}

/// Whether no check is installed in a volume whose latest freeze's snapshot stands, and repairs mend all that this check
/// found.
fn may_mend<D: Device>(live: &Live<D>, checked: &Checked) -> Result<(), Refusal>
    requires { IsSome (latest_at live.now.holdings.snapshots.standing live.now.holdings.snapshots.freezes) }
    ensures unplanned { OnOk result (live.now.holdings.repairs ≡ None) }
    ensures soft { OnOk result (list_all is_soft checked.now.findings ≡ true) }
    ensures refused { IfErr result (λ r. (old : State) → Has live.now.holdings old
        → FirstRefusal live.now.kept.geometry old (asks_install live.now checked.now) r) }
    ensures error { IfErr result (λ r. (r ≡ Refusal.PlanStands) ⊎ (r ≡ Refusal.PlanNotSoft)) }
{
    if live.repair_count().is_some() {
        return Err(Refusal::PlanStands);
    }
    if !is_mendable(checked) {
        return Err(Refusal::PlanNotSoft);
    }
    Ok(())
}

/// Whether repairs mend all that a check found.
fn is_mendable(checked: &Checked) -> bool
    ensures { result ≡ list_all is_soft checked.now.findings }
{
    tells_its_image(checked);
    match checked.verdict() {
        Verdict::Damaged => false,
        _ => true,
    }
}

/// What a checked image says of itself is told by the findings of its image: a law, for a proof.
pub fn tells_its_image(checked: &Checked)
    ensures { IsChecked checked.now.frozen.geometry (frozen_view checked.now.frozen) checked.now }
{
    findings_are_unique();
    checked.findings();
    checked.report();
    checked.verdict();
    checked.repairs();
}
