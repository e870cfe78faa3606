ghost use Rattle.std.specs.Prelude.{◌≡◌, [], ◌<◌, Bool, IfErr, IfOk, IsErrOf, IsOkUnless, List, OnErr, OnOk, length};
ghost use Rattle.std.specs.List.{All};
ghost use Rattle.device.specs.Writes.{HasFailed};
ghost use Rattle.layout.specs.declared.refusal.Refusal.TheVariants.{NoMemory};
ghost use Rattle.ordering.specs.Cuts.{IsClosed, seen};
ghost use Rattle.frozen.specs.Kept.{IsKeptOf, KeepsMetadata, frozen_view};
ghost use Rattle.metadata.specs.declared.staged.Staged.{Staged};
ghost use Rattle.metadata.specs.Staged.{IsStaged, after, changes};
ghost use Rattle.model.specs.Layout.{block_count};
ghost use Rattle.model.specs.Rules.{ObeysRules};
ghost use Rattle.machine.specs.Command.{Answer, Command};
ghost use Rattle.softdep.specs.Queued.{fresh_queue, pending_of};
ghost use Rattle.live_states.specs.Holdings.{IsIdle, with_held};
ghost use Rattle.live_states.specs.Planned.{AreSeen, IsPlannedFor, IsPlannedWith, Seen};
ghost use Rattle.live.specs.Durable.{StaysSoundAfter};
ghost use Rattle.live.specs.Alive.{IsLive, StandsSo, disk_of};
ghost use Rattle.live.specs.Ended.{ended};
ghost use Rattle.live.specs.Issued.{IsIssued};
ghost use Rattle.live.specs.Mounting.{IsFresh, IsMountable};
ghost use Rattle.rules.specs.Loading.{LoadSoundRefuses};
ghost use Rattle.live.specs.Seen.{seen_of, Answered};

use crate::ending::{Ending, end};
use device::Device;
use frozen::Frozen;
use layout::{Geometry, Refusal};
use live_holdings::Holdings;
use live_plans::{Plan, Planned};
use metadata::Metadata;
use rules::load_sound;
use softdep::Queue;
use spares::Spares;
use std::alloc::Global;
use std::marker::Model;

/// A mounted volume, which owns its device.
pub struct Live<D: Device> {
    pub(crate) device: D,
    pub(crate) queue: Queue,
    pub(crate) metadata: Metadata,
    pub(crate) holdings: Holdings,
    /// Blocks that served before and serve again; what the volume is does not depend on them.
    pub(crate) spares: Spares,
}

/// By hand, so that who drops it goes one step and not one for each field.
impl<D: Device> Drop for Live<D> {
    fn drop(self) {
        let Live {
            device: _,
            queue: _,
            metadata: _,
            holdings: _,
            spares: _,
        } = self;
    }
}

impl<D: Device> Model for Live<D> {
    ghost use Rattle.live.specs.Alive.{Alive, IsLive};

    ghost Value = { Alive D };

    ghost view = { λ live. record { device = live.device; queue = live.queue; kept = live.metadata; holdings = live.holdings } };

    ghost invariant = { λ live. IsLive (D.honest live.device) (D.image live.device) live.queue live.metadata live.holdings };
}

/// A device whose volume was not mounted, as it was, and the cause.
#[derive(Drop)]
pub struct NotMounted<D: Device> {
    pub device: D,
    pub cause: Refusal,
}

/// What a volume has in memory.
struct Volume {
    queue: Queue,
    metadata: Metadata,
    holdings: Holdings,
    spares: Spares,
}

impl<D: Device> Live<D> {
    /// Mounts the volume of a device: it reads the metadata, and writes nothing. It is refused with `BadLength`,
    /// `BadSuper`, `BadGroup`, `Device` or `NoMemory` as an image that cannot be loaded, and with `Damaged` where the
    /// image breaks a rule that holds at each stop of a volume. Then the device is given back.
    pub fn mount(alloc: Global, mut device: D) -> Result<Live<D>, NotMounted<D>>
        ensures image { IfOk result (λ live. D.image live.device ≡ D.image device) }
        ensures held { IfOk result (λ live. D.held live.device ≡ D.held device) }
        ensures pending { IfOk result (λ live. pending_of live.queue ≡ []) }
        ensures fresh { IfOk result (λ live. live.queue ≡ fresh_queue live.kept.geometry) }
        ensures idle { IfOk result (λ live. IsIdle live.holdings) }
        ensures mounted { IfOk result (λ live. D.honest live.device → IsMountable live.kept.geometry (D.image device)) }
        ensures untouched { IfErr result (λ refused. (D.image refused.device ≡ D.image device) × (D.held refused.device ≡ D.held device)) }
        ensures refused { IfErr result (λ refused. LoadSoundRefuses (D.honest refused.device) (D.image device) refused.cause) }
        ensures cause { IfErr result (λ refused. refused.cause ≡ Refusal.Device → HasFailed (D.failures device) (D.failures refused.device)) }
    {
        match load_sound(alloc, &mut device) {
            Ok(frozen) => Live::mount_loaded(alloc, device, frozen),
            Err(cause) => Err(NotMounted { device, cause }),
        }
    }

    /// Mounts the volume of a device whose metadata were loaded from it and are known to obey the rules, as those do that a
    /// check does not call damaged: nothing is read again, and nothing is written. It is refused with `NoMemory` alone.
    /// Then the device is given back.
    pub fn mount_loaded(alloc: Global, device: D, frozen: Frozen) -> Result<Live<D>, NotMounted<D>>
        requires loaded { D.honest device → IsKeptOf frozen (D.image device) }
        requires count { length (D.image device) ≡ block_count frozen.geometry }
        requires obeys { ObeysRules frozen.geometry (frozen_view frozen) }
        ensures device { IfOk result (λ live. live.device ≡ device) }
        ensures kept { IfOk result (λ live. live.kept ≡ frozen) }
        ensures pending { IfOk result (λ live. pending_of live.queue ≡ []) }
        ensures fresh { IfOk result (λ live. live.queue ≡ fresh_queue live.kept.geometry) }
        ensures idle { IfOk result (λ live. IsIdle live.holdings) }
        ensures mounted { IfOk result (λ live. D.honest device → IsMountable live.kept.geometry (D.image device)) }
        ensures untouched { IfErr result (λ refused. refused.device ≡ device) }
        ensures error { IfErr result (λ refused. refused.cause ≡ NoMemory) }
    {
        match volume_of(alloc, frozen) {
            Ok(
                Volume {
                    queue,
                    metadata,
                    holdings,
                    spares,
                },
            ) => Ok(Live {
                device,
                queue,
                metadata,
                holdings,
                spares,
            }),
            Err(cause) => Err(NotMounted { device, cause }),
        }
    }
}

/// What a volume with this metadata has in memory: nothing is pending, open or held.
fn volume_of(alloc: Global, frozen: Frozen) -> Result<Volume, Refusal>
    ensures fresh { IfOk result (λ volume. IsFresh frozen volume.metadata volume.queue volume.holdings) }
    ensures error { IsOkUnless result Refusal.NoMemory }
{
    let metadata = Metadata::new(alloc, frozen)?;
    let (queue, holdings, spares) = beside(alloc, metadata.frozen().geometry())?;
    Ok(Volume {
        queue,
        metadata,
        holdings,
        spares,
    })
}

/// What a volume has in memory beside its metadata: nothing is pending, open or held.
fn beside(alloc: Global, geometry: Geometry) -> Result<(Queue, Holdings, Spares), Refusal>
    ensures queue { IfOk result (λ beside. beside.0 ≡ fresh_queue geometry) }
    ensures idle { IfOk result (λ beside. IsIdle beside.1) }
    ensures marks { IfOk result (λ beside. length beside.1.held ≡ block_count geometry) }
    ensures error { IsOkUnless result Refusal.NoMemory }
{
    let spares = Spares::new(alloc)?;
    let holdings = Holdings::new(alloc, &geometry)?;
    let queue = Queue::new(alloc, geometry)?;
    Ok((queue, holdings, spares))
}

impl<D: Device> Live<D> {
    /// The device. Where it was honest so far, the volume stands over it: what it holds obeys the rules, and so does
    /// whatever it may hold next, with any closed part of what is pending.
    pub fn device(&self) -> &D
        ensures device { result.now ≡ self.now.device }
        ensures stands { D.honest self.now.device → StandsSo (D.image self.now.device) self.now }
        ensures obeys { D.honest self.now.device → ObeysRules self.now.kept.geometry (disk_of (D.image self.now.device) self.now) }
        ensures stops { D.honest self.now.device → (cut : List Bool) → IsClosed (pending_of self.now.queue) cut
            → ObeysRules self.now.kept.geometry (seen (disk_of (D.image self.now.device) self.now) (pending_of self.now.queue) cut) }
    {
        live_states::each_stop_of_a_volume_is_safe();
        &self.device
    }

    /// Carries out a command by its plan, all of it or nothing; then what the command ends is ended, and the blocks of the
    /// plan are held. Of a plan that asks for bytes of blocks that are not kept in memory it has to be known that it
    /// carries out some command whatever those bytes are.
    pub(crate) fn carry_out(
        &mut self,
        alloc: Global,
        planned: Planned,
        ending: Ending,
    ) -> Result<(), Refusal>
        requires planned { (command : Command) × (answer : Answer)
            × IsPlannedWith self.old.kept self.old.holdings [] command answer planned.plan (with_held (ended self.old.holdings ending) planned.holds.items) }
        requires holds { All (λ a. a < block_count self.old.kept.geometry) planned.holds.items }
        ensures done { OnOk result ((seen : List Seen) (command : Command) (answer : Answer)
            → IsPlannedFor self.old.kept self.old.holdings seen command answer planned.plan (with_held (ended self.old.holdings ending) planned.holds.items)
            → D.honest self.old.device
            → AreSeen seen (seen_of D.image self.old) → Answered D.image self.old command answer self.new) }
        ensures sound { OnOk result ((seen : List Seen) (command : Command) (answer : Answer)
            → IsPlannedFor self.old.kept self.old.holdings seen command answer planned.plan (with_held (ended self.old.holdings ending) planned.holds.items)
            → D.honest self.old.device
            → AreSeen seen (seen_of D.image self.old) → StaysSoundAfter D.held D.image self.old command self.new) }
        ensures device { self.new.device ≡ self.old.device }
        ensures untouched { OnErr result (self.new ≡ self.old) }
        ensures error { IsOkUnless result Refusal.NoMemory }
    {
        let Planned { plan, holds } = planned;
        issue(
            alloc,
            &mut self.queue,
            &mut self.metadata,
            plan,
            &mut self.spares,
        )?;
        end(&mut self.holdings, ending);
        self.holdings.hold(holds.as_slice());
        Ok(())
    }
}

/// Issues the updates of a plan, all of them or none, and lets users see them.
pub(crate) fn issue(
    alloc: Global,
    queue: &mut Queue,
    metadata: &mut Metadata,
    plan: Plan,
    spares: &mut Spares,
) -> Result<(), Refusal>
    requires geometry { queue.old.geometry ≡ metadata.old.geometry }
    requires plan { plan.geometry ≡ metadata.old.geometry }
    requires metadata { (staged : Staged) → IsStaged metadata.old (changes plan.updates) staged → KeepsMetadata (after metadata.old staged) }
    ensures issued { OnOk result (IsIssued plan queue.old metadata.old queue.new metadata.new) }
    ensures untouched { OnErr result ((queue.new ≡ queue.old) × (metadata.new ≡ metadata.old)) }
    ensures error { IsOkUnless result Refusal.NoMemory }
{
    let updates = plan.into_updates();
    let staged = metadata.stage(alloc, updates.as_slice(), spares)?;
    queue.issue(updates)?;
    metadata.install(staged, spares);
    Ok(())
}
