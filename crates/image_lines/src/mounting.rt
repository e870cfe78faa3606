//! The volume of a device whose image was checked.
ghost use Rattle.std.specs.Prelude.{◌≡◌, ◌⊎◌, [], IfErr, IfOk, length};
ghost use Rattle.findings.specs.declared.verdicts.Verdict.TheVariants.{Damaged};
ghost use Rattle.frozen.specs.Kept.{IsKeptOf};
ghost use Rattle.image_changes.specs.GivenBack.{IsGivenBack};
ghost use Rattle.joint_devices.specs.Joined.{AllHonest, of_device};
ghost use Rattle.layout.specs.declared.refusal.Refusal.TheVariants.{Damaged as DamagedRefusal, NoMemory};
ghost use Rattle.live_states.specs.Holdings.{IsIdle};
ghost use Rattle.loaders.specs.Readers.{Show};
ghost use Rattle.model.specs.Layout.{block_count};
ghost use Rattle.rules.specs.Loading.{BreaksRule};
ghost use Rattle.snapshot.specs.Mounting.{IsMountable};
ghost use Rattle.softdep.specs.Queued.{fresh_queue, pending_of};

use crate::check::check_by;
use device::Device;
use findings::Verdict;
use fsck::Checked;
use image_changes::Refused;
use joint_devices::Joint;
use layout::Refusal;
use snapshot::{Live, NotMounted, tells_its_image};
use std::alloc::Global;
use std::thread::Threads;
use workers::{Gate, Workers};

/// Mounts the volume of a device once its image is checked with this many workers, which pass the gate as in `fsck::check`.
/// Refused as `Live::mount` is; then the device is given back.
///
/// The image is loaded by as many workers as there are other devices, which show the same. These are dropped before the volume is
/// used, or the device given back.
pub fn mount<D: Device + Send + Drop, G: Gate>(
    rt: &(impl Threads + Sync),
    alloc: Global,
    mut device: D,
    mut others: Vec<D>,
    workers: Workers,
    gate: &G,
) -> Result<Live<Joint<D>>, Refused<Joint<D>>>
    requires { Show D.image (D.image device) others.items }
    ensures image { IfOk result (λ live. D.image live.device.device ≡ D.image device) }
    ensures held { IfOk result (λ live. D.held live.device.device ≡ D.held device) }
    ensures pending { IfOk result (λ live. pending_of live.queue ≡ []) }
    // Nothing was issued: so it is sound on its medium, where nothing of that is loose.
    ensures fresh { IfOk result (λ live. live.queue ≡ fresh_queue live.kept.geometry) }
    ensures idle { IfOk result (λ live. IsIdle live.holdings) }
    ensures mounted { IfOk result (λ live. AllHonest D.honest live.device → IsMountable live.kept.geometry (D.image device)) }
    ensures refused { IfErr result (IsGivenBack (AllHonest D.honest) (of_device D.image) (of_device D.held) (of_device D.failures)
        (record { device = device; readers = others.items })) }
{
    let checked = check_by(rt, alloc, &mut device, &mut others, workers, gate);
    let device = Joint::new(device, others);
    match checked {
        Ok(checked) => mount_unless_damaged(alloc, device, &checked),
        Err(cause) => Err(Refused { device, cause }),
    }
}

/// Mounts the volume of a device whose image was checked. Refused with `Damaged` where it is, and with `NoMemory`.
fn mount_unless_damaged<D: Device + Drop>(
    alloc: Global,
    device: D,
    checked: &Checked,
) -> Result<Live<D>, Refused<D>>
    requires loaded { D.honest device → IsKeptOf checked.now.frozen (D.image device) }
    requires count { length (D.image device) ≡ block_count checked.now.frozen.geometry }
    ensures device { IfOk result (λ live. live.device ≡ device) }
    ensures pending { IfOk result (λ live. pending_of live.queue ≡ []) }
    ensures fresh { IfOk result (λ live. live.queue ≡ fresh_queue live.kept.geometry) }
    ensures idle { IfOk result (λ live. IsIdle live.holdings) }
    ensures mounted { IfOk result (λ live. D.honest device → IsMountable live.kept.geometry (D.image device)) }
    ensures untouched { IfErr result (λ refused. refused.device ≡ device) }
    ensures refused { IfErr result (λ refused. (refused.cause ≡ NoMemory) ⊎ ((refused.cause ≡ DamagedRefusal) × (D.honest device → BreaksRule (D.image device)))) }
{
    match checked.verdict() {
        Verdict::Damaged => Err(Refused {
            device,
            cause: Refusal::Damaged,
        }),
        Verdict::Clean | Verdict::Soft => mount_checked(alloc, device, checked),
    }
}

/// Mounts the volume of a device whose image was checked, and is not damaged: nothing is read again. Refused with `NoMemory`
/// alone; then the device is given back.
pub fn mount_checked<D: Device + Drop>(
    alloc: Global,
    device: D,
    checked: &Checked,
) -> Result<Live<D>, Refused<D>>
    requires loaded { D.honest device → IsKeptOf checked.now.frozen (D.image device) }
    requires count { length (D.image device) ≡ block_count checked.now.frozen.geometry }
    requires sound { checked.now.verdict ≡ Damaged → ⊥ }
    ensures device { IfOk result (λ live. live.device ≡ device) }
    ensures kept { IfOk result (λ live. live.kept ≡ checked.now.frozen) }
    ensures pending { IfOk result (λ live. pending_of live.queue ≡ []) }
    ensures fresh { IfOk result (λ live. live.queue ≡ fresh_queue live.kept.geometry) }
    ensures idle { IfOk result (λ live. IsIdle live.holdings) }
    ensures mounted { IfOk result (λ live. D.honest device → IsMountable live.kept.geometry (D.image device)) }
    ensures untouched { IfErr result (λ refused. refused.device ≡ device) }
    ensures error { IfErr result (λ refused. refused.cause ≡ NoMemory) }
{
    findings::rules_hold_where_findings_are_soft();
    tells_its_image(checked);
    let frozen = match checked.frozen().copy(alloc) {
        Ok(frozen) => frozen,
        Err(_) => {
            return Err(Refused {
                device,
                cause: Refusal::NoMemory,
            });
        }
    };
    match Live::mount_loaded(alloc, device, frozen) {
        Ok(live) => Ok(live),
        Err(NotMounted { device, cause }) => Err(Refused { device, cause }),
    }
}
