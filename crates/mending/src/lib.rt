//! A volume whose leaks are given back: a snapshot of it is checked, each repair of the check is carried out, and the
//! volume is written; then a check of its device finds nothing.
#![tactic(auto)]

ghost use Rattle.std.specs.Prelude.{◌≡◌, [], IfErr, IfOk, IsErrOf, IsOkUnless, IsSome, OnOk, Some};
ghost use Rattle.std.specs.Arc.{arc_value};
ghost use Rattle.findings.specs.Findings.{AreFindings};
ghost use Rattle.frozen.specs.Kept.{IsKeptOf};
ghost use Rattle.frozen.specs.Loading.{GivesOut};
ghost use Rattle.fsck.specs.Checked.{IsChecked};
ghost use Rattle.live_states.specs.Holdings.{IsIdle};
ghost use Rattle.machine.specs.Standing.{latest_at};
ghost use Rattle.model.specs.Image.{IsImage};
ghost use Rattle.snapshot.specs.Mounting.{IsMountable};
ghost use Rattle.snapshot.specs.Alive.{disk_of};
ghost use Rattle.softdep.specs.Queued.{pending_of};
ghost use Rattle.mending.specs.Repairs.{HasPlan, IsSnapshotChecked, MayMend, MendsFrozen, Repaired};
ghost use Rattle.mending.specs.Went.{FailedOnTheWay, Went};

mod laws;

use device::Device;
use fsck::Checked;
pub use laws::mended_images_are_clean;
use layout::Refusal;
use snapshot::{Command, Volume};
use std::alloc::Global;
use std::sync::Arc;
use std::thread::Threads;
use workers::{Gate, Workers};

/// Mends a volume that was just mounted, with several workers, which pass the gate as in `fsck::check`: its image is frozen
/// and checked, each repair of the check is carried out in order, the snapshot is released, and all is written. Gives the
/// check. Refused with `NoMemory` and with `Device`; what was written before stays written, and may be mounted and mended
/// again.
pub fn mend<D: Device, G: Gate>(
    rt: &(impl Threads + Sync),
    alloc: Global,
    volume: &mut Volume<D>,
    workers: Workers,
    gate: &G,
) -> Result<Arc<Checked>, Refusal>
    requires pending { pending_of volume.old.queue ≡ [] }
    requires idle { IsIdle volume.old.holdings }
    requires mounted { D.honest volume.old.device → IsMountable volume.old.kept.geometry (D.image volume.old.device) }
    // Where the device was honest, a check finds nothing on the image that it now holds.
    ensures clean { IfOk result (λ checked. D.honest volume.new.device
        → AreFindings volume.new.kept.geometry (disk_of (D.image volume.new.device) volume.new) []) }
    // What the device then holds is an image of the volume, which can be loaded.
    ensures framed { IfOk result (λ checked. D.honest volume.new.device → IsImage volume.new.kept.geometry (D.image volume.new.device)) }
    // The check is that of the image that was mounted.
    ensures checked { IfOk result (λ checked. D.honest volume.new.device
        → IsChecked volume.old.kept.geometry (disk_of (D.image volume.old.device) volume.old) (arc_value checked)) }
    ensures geometry { IfOk result (λ checked. D.honest volume.new.device → volume.new.kept.geometry ≡ volume.old.kept.geometry) }
    // Whatever came of it, commands that mend led from the volume as it was to the volume as it is, and nothing else was done.
    ensures went { D.honest volume.new.device → Went D.held D.image volume.old volume.new }
    ensures error { IfErr result (λ r. D.honest volume.new.device → GivesOut r) }
    // The device is blamed only where it failed, in the last of these commands.
    ensures cause { IsErrOf result Refusal.Device → FailedOnTheWay D.honest D.held D.image D.failures volume.old volume.new }
    ensures honest { D.honest volume.new.device → D.honest volume.old.device }
{
    snapshot::calls_join::<D>();
    mended_images_are_clean::<D>();
    fsck::damaged_where_a_rule_is_broken();
    volume.live(); // for the proof: its clause `balance`
    let (number, _) = volume.freeze(alloc)?;
    let checked = Arc::new(alloc, check_snapshot(rt, alloc, volume, workers, gate)?)?;
    mend_frozen(alloc, volume, number, &checked)?;
    Ok(checked)
}

/// Mends a volume that was just mounted as `mend` does, by a check of its image that was made before: that is not checked
/// again, and the snapshot that is mended is that image, of which nothing is copied and nothing compared. Refused as `mend`.
pub fn mend_checked<D: Device>(
    alloc: Global,
    volume: &mut Volume<D>,
    checked: &Checked,
) -> Result<(), Refusal>
    requires pending { pending_of volume.old.queue ≡ [] }
    requires idle { IsIdle volume.old.holdings }
    requires mounted { D.honest volume.old.device → IsMountable volume.old.kept.geometry (D.image volume.old.device) }
    // The check is of the very metadata that the volume was mounted with.
    requires kept { volume.old.kept ≡ checked.now.frozen }
    requires loaded { D.honest volume.old.device → IsKeptOf checked.now.frozen (D.image volume.old.device) }
    // Where the device was honest, a check finds nothing on the image that it now holds.
    ensures clean { OnOk result (D.honest volume.new.device
        → AreFindings volume.new.kept.geometry (disk_of (D.image volume.new.device) volume.new) []) }
    // What the device then holds is an image of the volume, which can be loaded.
    ensures framed { OnOk result (D.honest volume.new.device → IsImage volume.new.kept.geometry (D.image volume.new.device)) }
    ensures geometry { OnOk result (D.honest volume.new.device → volume.new.kept.geometry ≡ volume.old.kept.geometry) }
    // Whatever came of it, commands that mend led from the volume as it was to the volume as it is, and nothing else was done.
    ensures went { D.honest volume.new.device → Went D.held D.image volume.old volume.new }
    ensures error { IfErr result (λ r. D.honest volume.new.device → GivesOut r) }
    // The device is blamed only where it failed, in the last of these commands.
    ensures cause { IsErrOf result Refusal.Device → FailedOnTheWay D.honest D.held D.image D.failures volume.old volume.new }
    ensures honest { D.honest volume.new.device → D.honest volume.old.device }
{
    snapshot::calls_join::<D>();
    mended_images_are_clean::<D>();
    fsck::damaged_where_a_rule_is_broken();
    snapshot::tells_its_image(checked);
    volume.live().keeps_metadata(); // for the proof
    let snapshot = checked.frozen().clone()?;
    let number = volume.freeze_as(snapshot)?;
    mend_frozen(alloc, volume, number, checked)?;
    Ok(())
}

/// Checks the snapshot of the latest freeze.
fn check_snapshot<D: Device, G: Gate>(
    rt: &(impl Threads + Sync),
    alloc: Global,
    volume: &Volume<D>,
    workers: Workers,
    gate: &G,
) -> Result<Checked, Refusal>
    ensures checked { IfOk result (IsSnapshotChecked volume.now) }
    ensures error { IsSome (latest_at volume.now.holdings.snapshots.standing volume.now.holdings.snapshots.freezes) → IsOkUnless result Refusal.NoMemory }
    ensures device { IsErrOf result Refusal.Device → ⊥ }
{
    let Some(snapshot) = volume.live().latest() else {
        return Err(Refusal::NoSnapshot);
    };
    fsck::check(rt, alloc, snapshot, workers, gate)
}

/// Mends a volume by a check of the snapshot of this number, which is that of the latest freeze and stands: carries out each
/// of its repairs, releases the snapshot, and writes all.
fn mend_frozen<D: Device>(
    alloc: Global,
    volume: &mut Volume<D>,
    number: u64,
    checked: &Checked,
) -> Result<(), Refusal>
    requires { latest_at volume.old.holdings.snapshots.standing volume.old.holdings.snapshots.freezes ≡ Some checked.now.frozen }
    ensures mends { OnOk result (D.honest volume.new.device → MendsFrozen D.held D.image volume.old number checked.now volume.new) }
    ensures went { D.honest volume.new.device → Went D.held D.image volume.old volume.new }
    ensures error { IfErr result (λ r. D.honest volume.new.device → MayMend D.image volume.old number checked.now → GivesOut r) }
    ensures cause { IsErrOf result Refusal.Device → FailedOnTheWay D.honest D.held D.image D.failures volume.old volume.new }
    ensures honest { D.honest volume.new.device → D.honest volume.old.device }
{
    snapshot::calls_join::<D>();
    findings::findings_are_unique();
    volume.install_own(alloc, checked)?;
    repair_all(alloc, volume, checked.repairs().len())?;
    volume.release(alloc, number)?;
    volume.apply(alloc, &Command::Sync)?;
    Ok(())
}

/// Carries out so many repairs of the check that is installed, from the first one on.
fn repair_all<D: Device>(alloc: Global, volume: &mut Volume<D>, count: usize) -> Result<(), Refusal>
    ensures repaired { OnOk result (D.honest volume.new.device → Repaired D.held D.image volume.old count volume.new) }
    ensures went { D.honest volume.new.device → Went D.held D.image volume.old volume.new }
    ensures error { IfErr result (λ r. D.honest volume.new.device → HasPlan D.image volume.old count → GivesOut r) }
    ensures never { IsErrOf result Refusal.Device → ⊥ }
    ensures device { volume.new.device ≡ volume.old.device }
{
    snapshot::calls_join::<D>();
    let Ok(count) = u32::try_from(count) else {
        // No list has more places; one that had would be refused as one that finds no memory.
        return Err(Refusal::NoMemory);
    };
    for place in 0..count {
        volume.repair(alloc, place)?;
    }
    Ok(())
}
