ghost use Rattle.std.specs.Prelude.{◌≡◌, ◌⊎◌, [], IfErr, IfOk, IsErrOf, length, take};
ghost use Rattle.image_changes.specs.Changes.{ChangesMounted};
ghost use Rattle.image_changes.specs.GivenBack.{IsGivenBack, IsNotChanged, cause_of};
ghost use Rattle.image_changes.specs.Stops.{StopsAtRefusal};
ghost use Rattle.frozen.specs.Kept.{IsKeptOf, frozen_view};
ghost use Rattle.frozen.specs.Loading.{LoadRefuses};
ghost use Rattle.joint_devices.specs.Joined.{AllHonest, of_device};
ghost use Rattle.layout.specs.declared.refusal.Refusal.TheVariants.{Damaged, NoMemory};
ghost use Rattle.loaders.specs.Readers.{Show};
ghost use Rattle.model.specs.Layout.{block_count};
ghost use Rattle.model.specs.Rules.{ObeysRules};
ghost use Rattle.rules.specs.Loading.{BreaksRule, LoadSoundRefuses};
ghost use Rattle.snapshot.specs.Mounting.{IsMountable};
ghost use Rattle.live_states.specs.Holdings.{IsIdle};
ghost use Rattle.softdep.specs.Queued.{fresh_queue, pending_of};

use crate::change;
use device::Device;
use frozen::Frozen;
use joint_devices::Joint;
use layout::Refusal;
use loaders::load_by;
use rules::obeys;
use snapshot::{Command, Live, NotMounted, Reply, Volume};
use std::alloc::Global;
use std::thread::Threads;

/// A volume that was mounted and changed, and the replies to the commands.
#[derive(Drop)]
pub struct Changed<D: Device> {
    pub replies: Vec<Reply>,
    pub volume: Volume<D>,
}

/// A device whose volume was not mounted, as it was, and the cause.
#[derive(Drop)]
pub struct Refused<D: Device> {
    pub device: D,
    pub cause: Refusal,
}

/// For a caller that drops the device.
impl<D: Device> From<Refused<D>> for Refusal {
    ghost from_gives = { λ refused refusal. refusal ≡ refused.cause };

    fn from(refused: Refused<D>) -> Refusal {
        refused.cause
    }
}

/// What is left of a device whose volume was not changed, or not written to the end, and the cause.
#[derive(Drop)]
pub enum NotChanged<D: Device> {
    /// It was not mounted, and is not written.
    NotMounted(Refused<D>),
    /// Its volume, of which not all could be written.
    NotWritten(Volume<D>, Refusal),
}

impl<D: Device> From<Refused<D>> for NotChanged<D> {
    ghost use Rattle.image_changes.specs.declared.mounted.NotChanged.TheVariants.{NotMounted};

    ghost from_gives = { λ refused left. left ≡ NotMounted refused };

    fn from(refused: Refused<D>) -> NotChanged<D> {
        NotChanged::NotMounted(refused)
    }
}

/// For a caller that drops the device.
impl<D: Device> From<NotChanged<D>> for Refusal {
    ghost from_gives = { λ refused refusal. refusal ≡ cause_of refused };

    fn from(refused: NotChanged<D>) -> Refusal {
        match refused {
            NotChanged::NotMounted(refused) => refused.cause,
            NotChanged::NotWritten(_volume, cause) => cause,
        }
    }
}

/// Mounts the volume of a device, carries out commands up to the first one that is refused, and writes all. A volume that cannot
/// be mounted is not written, and its device is given back: one whose image breaks a rule is refused with `Damaged`. Refused as
/// `mount` and `change`.
pub fn change_device<D: Device + Drop>(
    alloc: Global,
    device: D,
    commands: &[Command],
) -> Result<Changed<D>, NotChanged<D>>
    // Where the device was honest, the volume of its image went through these commands and a sync.
    ensures changed { IfOk result (λ changed. D.honest changed.volume.device → ChangesMounted (D.held device) (D.image device)
        (take (length changed.replies.items) commands.now) changed.replies.items (D.held changed.volume.device) (D.image changed.volume.device) changed.volume) }
    ensures stopped { IfOk result (λ changed. StopsAtRefusal (length commands.now) changed.replies.items) }
    // Where it was not mounted, the device is as it was; else it was changed as `change` says where that is refused.
    ensures refused { IfErr result (IsNotChanged D.honest D.image D.held D.failures device commands.now) }
{
    let mut volume = mount(alloc, device)?;
    match change(alloc, &mut volume, commands) {
        Ok(replies) => Ok(Changed { replies, volume }),
        Err(cause) => Err(NotChanged::NotWritten(volume, cause)),
    }
}

/// Mounts the volume of a device, which is given back if it cannot be mounted. Refused as `Live::mount` is.
pub fn mount<D: Device + Drop>(alloc: Global, device: D) -> Result<Volume<D>, Refused<D>>
    ensures image { IfOk result (λ volume. D.image volume.device ≡ D.image device) }
    ensures held { IfOk result (λ volume. D.held volume.device ≡ D.held device) }
    ensures pending { IfOk result (λ volume. pending_of volume.queue ≡ []) }
    // Nothing was issued: so it is sound on its medium, where nothing of that is loose.
    ensures fresh { IfOk result (λ volume. volume.queue ≡ fresh_queue volume.kept.geometry) }
    ensures idle { IfOk result (λ volume. IsIdle volume.holdings) }
    ensures mounted { IfOk result (λ volume. D.honest volume.device → IsMountable volume.kept.geometry (D.image device)) }
    ensures refused { IfErr result (IsGivenBack D.honest D.image D.held D.failures device) }
{
    match Live::mount(alloc, device) {
        Ok(live) => Ok(Volume::new(live)),
        Err(NotMounted { device, cause }) => Err(Refused { device, cause }),
    }
}

/// Mounts the volume of a device, which is given back if it cannot be mounted. Refused as `mount`.
///
/// The image is loaded by as many workers as there are other devices, which show the same. These are dropped before the volume is
/// used, or the device given back.
pub fn mount_by<D: Device + Send + Drop>(
    rt: &(impl Threads + Sync),
    alloc: Global,
    mut device: D,
    mut others: Vec<D>,
) -> Result<Volume<Joint<D>>, Refused<Joint<D>>>
    requires { Show D.image (D.image device) others.items }
    // As of `mount`, where each device was honest.
    ensures image { IfOk result (λ volume. D.image volume.device.device ≡ D.image device) }
    ensures held { IfOk result (λ volume. D.held volume.device.device ≡ D.held device) }
    ensures pending { IfOk result (λ volume. pending_of volume.queue ≡ []) }
    ensures fresh { IfOk result (λ volume. volume.queue ≡ fresh_queue volume.kept.geometry) }
    ensures idle { IfOk result (λ volume. IsIdle volume.holdings) }
    ensures mounted { IfOk result (λ volume. AllHonest D.honest volume.device → IsMountable volume.kept.geometry (D.image device)) }
    ensures refused { IfErr result (IsGivenBack (AllHonest D.honest) (of_device D.image) (of_device D.held) (of_device D.failures)
        (record { device = device; readers = others.items })) }
{
    let loaded = load_by(rt, alloc, &mut device, &mut others);
    mount_loaded(alloc, Joint::new(device, others), loaded)
}

/// Mounts the volume of a device whose metadata were loaded from it, if they were. Refused as `mount_sound`, and as they were.
fn mount_loaded<D: Device + Drop>(
    alloc: Global,
    device: D,
    loaded: Result<Frozen, Refusal>,
) -> Result<Volume<D>, Refused<D>>
    requires loaded { IfOk loaded (λ frozen. D.honest device → IsKeptOf frozen (D.image device)) }
    requires count { IfOk loaded (λ frozen. length (D.image device) ≡ block_count frozen.geometry) }
    requires refused { IfErr loaded (LoadRefuses (D.honest device) (D.image device)) }
    ensures device { IfOk result (λ volume. volume.device ≡ device) }
    ensures pending { IfOk result (λ volume. pending_of volume.queue ≡ []) }
    ensures fresh { IfOk result (λ volume. volume.queue ≡ fresh_queue volume.kept.geometry) }
    ensures idle { IfOk result (λ volume. IsIdle volume.holdings) }
    ensures mounted { IfOk result (λ volume. D.honest device → IsMountable volume.kept.geometry (D.image device)) }
    ensures untouched { IfErr result (λ refused. refused.device ≡ device) }
    ensures refused { IfErr result (λ refused. LoadSoundRefuses (D.honest device) (D.image device) refused.cause) }
    ensures cause { IfErr result (λ refused. refused.cause ≡ Refusal.Device → IsErrOf loaded Refusal.Device) }
{
    match loaded {
        Ok(frozen) => mount_sound(alloc, device, frozen),
        Err(cause) => Err(Refused { device, cause }),
    }
}

/// Mounts the volume of a device whose metadata were loaded from it, if they obey the rules. Refused with `Damaged` if they do
/// not, and with `NoMemory`.
fn mount_sound<D: Device + Drop>(
    alloc: Global,
    device: D,
    frozen: Frozen,
) -> Result<Volume<D>, Refused<D>>
    requires loaded { D.honest device → IsKeptOf frozen (D.image device) }
    requires count { length (D.image device) ≡ block_count frozen.geometry }
    ensures device { IfOk result (λ volume. volume.device ≡ device) }
    ensures pending { IfOk result (λ volume. pending_of volume.queue ≡ []) }
    ensures fresh { IfOk result (λ volume. volume.queue ≡ fresh_queue volume.kept.geometry) }
    ensures idle { IfOk result (λ volume. IsIdle volume.holdings) }
    ensures mounted { IfOk result (λ volume. D.honest device → IsMountable volume.kept.geometry (D.image device)) }
    ensures untouched { IfErr result (λ refused. refused.device ≡ device) }
    ensures refused { IfErr result (λ refused. (refused.cause ≡ NoMemory) ⊎ ((refused.cause ≡ Damaged) × (D.honest device → BreaksRule (D.image device)))) }
{
    match obeys(alloc, &frozen) {
        Ok(None) => mount_obeying(alloc, device, frozen),
        Ok(Some(_rule)) => Err(Refused {
            device,
            cause: Refusal::Damaged,
        }),
        Err(cause) => Err(Refused { device, cause }),
    }
}

/// Mounts the volume of a device whose metadata were loaded from it and obey the rules. Refused with `NoMemory` alone.
fn mount_obeying<D: Device + Drop>(
    alloc: Global,
    device: D,
    frozen: Frozen,
) -> Result<Volume<D>, Refused<D>>
    requires loaded { D.honest device → IsKeptOf frozen (D.image device) }
    requires count { length (D.image device) ≡ block_count frozen.geometry }
    requires obeys { ObeysRules frozen.geometry (frozen_view frozen) }
    ensures device { IfOk result (λ volume. volume.device ≡ device) }
    ensures pending { IfOk result (λ volume. pending_of volume.queue ≡ []) }
    ensures fresh { IfOk result (λ volume. volume.queue ≡ fresh_queue volume.kept.geometry) }
    ensures idle { IfOk result (λ volume. IsIdle volume.holdings) }
    ensures mounted { IfOk result (λ volume. D.honest device → IsMountable volume.kept.geometry (D.image device)) }
    ensures untouched { IfErr result (λ refused. refused.device ≡ device) }
    ensures error { IfErr result (λ refused. refused.cause ≡ NoMemory) }
{
    match Live::mount_loaded(alloc, device, frozen) {
        Ok(live) => Ok(Volume::new(live)),
        Err(NotMounted { device, cause }) => Err(Refused { device, cause }),
    }
}
