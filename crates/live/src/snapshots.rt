ghost use Rattle.std.specs.Prelude.{◌≡◌, [], ◌⊎◌, ◌≤◌, IfErr, IfOk, IsErrOf, IsOkUnless, IsSome, IsTrue, OnErr, OnOk, false, length, not};
ghost use Rattle.std.specs.Arc.{arc_value};
ghost use Rattle.std.specs.List.{All};
ghost use Rattle.std.specs.Option.{option_copied, option_map};
ghost use Rattle.device.specs.Writes.{HasFailed};
ghost use Rattle.frozen.specs.Kept.{KeepsMetadata};
ghost use Rattle.layout.specs.declared.refusal.Refusal.TheVariants.{BadIndex, Device as DeviceRefusal};
ghost use Rattle.machine.specs.Command.{Check, Done, Install};
ghost use Rattle.machine.specs.Snapshot.{frozen, released, settled};
ghost use Rattle.machine.specs.Standing.{begun, ended, image_at, latest_at, too_many};
ghost use Rattle.metadata.specs.Shown.{Shows};
ghost use Rattle.model.specs.Image.{block_at};
ghost use Rattle.model.specs.Layout.{block_count, is_data_address};
ghost use Rattle.plans_data.specs.Release.{releasing};
ghost use Rattle.softdep.specs.Queued.{pending_of, unsynced_of};
ghost use Rattle.live_states.specs.Drafts.{over};
ghost use Rattle.live_states.specs.Holdings.{AreImagesOf, Beside, Repairs};
ghost use Rattle.live_states.specs.Planned.{IsQuietlyDone};
ghost use Rattle.live_states.specs.Snapshots.{AreRepairsOf, IsSettled, installing, keeping, let_go, let_go_blocks, places};
ghost use Rattle.live.specs.Durable.{StaysSound};
ghost use Rattle.live.specs.Alive.{IsSnapshotOf, state_of};
ghost use Rattle.live.specs.Places.{Ascend};
ghost use Rattle.live.specs.Seen.{seen_of, Answered};

use crate::Live;
use crate::bytes::read_seen;
use crate::live::issue;
use device::Device;
use findings::Repair;
use frozen::Frozen;
use layout::{BLOCK_BYTES, Block, Geometry, Refusal};
use live_plans::Plan;
use std::alloc::{AllocError, Global};
use std::sync::Arc;
use updates::{Cells, Change};

/// The file that updates name which are none's: those that clear the bits of blocks that are held no more.
const NO_FILE: u32 = 0;

impl<D: Device> Live<D> {
    /// The metadata in memory, as users see it.
    pub fn metadata(&self) -> &Frozen
        ensures { result.now ≡ self.now.kept }
    {
        self.metadata.frozen()
    }

    /// None of the metadata in memory is missing, and where the device was honest so far, they are those that users see: a
    /// law, for a proof.
    pub fn keeps_metadata(&self)
        ensures whole { KeepsMetadata self.now.kept }
        ensures shown { D.honest self.now.device → Shows self.now.kept (seen_of D.image self.now) }
    {
        self.metadata.frozen(); // for the proof: its clause `metadata`
    }

    /// The metadata of the image that a check is to see: that of users, without the open files that have no name, and with
    /// the blocks unmarked that are held for snapshots. The blocks of metadata that do not differ are shared. Refused with
    /// `NoMemory` alone.
    pub fn view(&self, alloc: Global) -> Result<Frozen, Refusal>
        ensures settled { IfOk result (IsSettled self.now.kept self.now.holdings) }
        ensures shown { IfOk result (λ view. D.honest self.now.device → (beside : Beside) → AreImagesOf self.now.holdings.snapshots beside.snapshots
            → Shows view (settled self.now.kept.geometry (state_of (D.image self.now.device) self.now beside))) }
        ensures metadata { IfOk result KeepsMetadata }
        ensures geometry { IfOk result (λ view. view.geometry ≡ self.now.kept.geometry) }
        ensures error { IsOkUnless result Refusal.NoMemory }
    {
        Ok(live_snapshots::settled(alloc, &self.metadata, &self.holdings)?)
    }

    /// Whether one more snapshot may be kept: fewer than four are, and there is a number for it.
    pub fn may_freeze(&self) -> bool
        ensures { result ≡ not (too_many self.now.holdings.snapshots) }
    {
        self.holdings.may_freeze()
    }

    /// The numbers of the snapshots that are kept, in ascending order, and then empty places.
    pub fn standing(&self) -> [Option<u64>; 4]
        ensures numbers { result ≡ places self.now.holdings.snapshots.standing }
        ensures ascending { Ascend result }
    {
        self.holdings.standing()
    }

    /// The metadata of the snapshot of this number, where it is kept.
    pub fn snapshot(&self, number: u64) -> Option<&Arc<Frozen>>
        ensures snapshot { option_map arc_value (option_copied result) ≡ image_at self.now.holdings.snapshots.standing number }
        ensures whole { IsSnapshotOf self.now.kept.geometry (image_at self.now.holdings.snapshots.standing number) }
    {
        self.holdings.snapshot(number)
    }

    /// The metadata of the snapshot of the latest freeze, where it is kept.
    pub fn latest(&self) -> Option<&Arc<Frozen>>
        ensures snapshot { option_map arc_value (option_copied result) ≡ latest_at self.now.holdings.snapshots.standing self.now.holdings.snapshots.freezes }
        ensures whole { IsSnapshotOf self.now.kept.geometry (latest_at self.now.holdings.snapshots.standing self.now.holdings.snapshots.freezes) }
    {
        self.holdings.latest()
    }

    /// How many repairs the check has that is installed; `None` where none is.
    pub fn repair_count(&self) -> Option<usize>
        ensures { result ≡ option_map (λ (repairs : Repairs). length repairs.list) self.now.holdings.repairs }
    {
        self.holdings.repair_count()
    }

    /// The bytes of a data block as users see them, whether they are on the device or pending.
    pub fn data_block(&mut self, address: u32) -> Result<Block, Refusal>
        requires { IsTrue (is_data_address self.old.kept.geometry address) }
        ensures bytes { IfOk result (λ bytes. D.honest self.new.device → (seen_of D.image self.old).bytes address ≡ bytes) }
        ensures error { IsOkUnless result Refusal.Device }
        ensures cause { IsErrOf result Refusal.Device → HasFailed (D.failures self.old.device) (D.failures self.new.device) }
        ensures image { D.image self.new.device ≡ D.image self.old.device }
        ensures held { D.held self.new.device ≡ D.held self.old.device }
        ensures honest { D.honest self.new.device → D.honest self.old.device }
        ensures untouched { (self.new.queue ≡ self.old.queue) × (self.new.kept ≡ self.old.kept) × (self.new.holdings ≡ self.old.holdings) }
    {
        let mut bytes = [0; BLOCK_BYTES];
        read_seen(&mut self.device, &self.queue, address, &mut bytes)?;
        Ok(bytes)
    }

    /// Keeps a snapshot of what a check is to see, and gives its number: from now on no block of it is changed or given out.
    /// Nothing may be pending, and there has to be room for one more. The repairs of an older check are dropped.
    pub fn keep(&mut self, snapshot: Arc<Frozen>) -> u64
        requires pending { pending_of self.old.queue ≡ [] }
        requires room { too_many self.old.holdings.snapshots ≡ false }
        requires settled { IsSettled self.old.kept self.old.holdings (arc_value snapshot) }
        requires whole { ((arc_value snapshot).geometry ≡ self.old.kept.geometry) × KeepsMetadata (arc_value snapshot) }
        ensures kept { self.new ≡ record self.old { holdings = keeping self.old.holdings (arc_value snapshot) } }
        ensures number { result ≡ self.old.holdings.snapshots.freezes }
        ensures frozen { (beside : Beside) → let old = state_of (D.image self.old.device) self.old beside in
            state_of (D.image self.new.device) self.new (record { snapshots = begun beside.snapshots (settled self.old.kept.geometry old) })
            ≡ frozen self.old.kept.geometry old }
    {
        self.holdings.keep(snapshot)
    }

    /// Installs the repairs of a check of the snapshot of the latest freeze, of which none is done yet.
    pub fn install(&mut self, alloc: Global, repairs: Vec<Repair>) -> Result<(), Refusal>
        requires check { (check : Check) × IsQuietlyDone self.old.kept self.old.holdings [] (Install check) Done (installing self.old.holdings repairs.items) }
        requires repairs { AreRepairsOf self.old.kept.geometry (installing self.old.holdings repairs.items).repairs }
        ensures done { OnOk result ((check : Check) → IsQuietlyDone self.old.kept self.old.holdings [] (Install check) Done (installing self.old.holdings repairs.items)
            → D.honest self.old.device → Answered D.image self.old (Install check) Done self.new) }
        ensures installed { OnOk result (self.new ≡ record self.old { holdings = installing self.old.holdings repairs.items }) }
        ensures untouched { OnErr result (self.new ≡ self.old) }
        ensures error { IsOkUnless result Refusal.NoMemory }
    {
        self.holdings.install(alloc, repairs)?;
        Ok(())
    }

    /// Ends the snapshot of this number: what was held for it alone is free. Nothing may be pending, and it has to be kept.
    pub fn end_keep(&mut self, alloc: Global, number: u64) -> Result<(), Refusal>
        requires pending { pending_of self.old.queue ≡ [] }
        requires stands { IsSome (image_at self.old.holdings.snapshots.standing number) }
        ensures released { OnOk result (D.honest self.old.device → (beside : Beside) → AreImagesOf self.old.holdings.snapshots beside.snapshots
            → state_of (D.image self.new.device) self.new (record { snapshots = ended beside.snapshots number })
            ≡ released (state_of (D.image self.old.device) self.old beside) number) }
        ensures sound { OnOk result (D.honest self.old.device → unsynced_of self.old.queue ≡ [] → StaysSound D.held self.old self.new) }
        ensures pending { OnOk result (pending_of self.new.queue ≡ releasing (let_go_blocks self.old.holdings number) []) }
        ensures holdings { OnOk result (self.new.holdings ≡ let_go self.old.holdings number) }
        ensures geometry { OnOk result (self.new.kept.geometry ≡ self.old.kept.geometry) }
        ensures device { self.new.device ≡ self.old.device }
        ensures untouched { OnErr result (self.new ≡ self.old) }
        ensures error { IsOkUnless result Refusal.NoMemory }
    {
        let blocks = self.holdings.held_alone(alloc, number)?;
        let geometry = self.metadata.frozen().geometry();
        let plan = clearing(alloc, geometry, blocks.as_slice())?;
        issue(
            alloc,
            &mut self.queue,
            &mut self.metadata,
            plan,
            &mut self.spares,
        )?;
        self.holdings.let_go(number, blocks.as_slice());
        Ok(())
    }

    /// Reads a block as the device holds it now, whatever is pending. Refused with `BadIndex` where the volume has no such
    /// block.
    pub fn device_block(&mut self, address: u32, to: &mut Block) -> Result<(), Refusal>
        ensures block { OnOk result (D.honest self.new.device → to.new ≡ block_at (D.image self.old.device) address) }
        ensures error { IfErr result (λ r. (r ≡ DeviceRefusal) ⊎ ((r ≡ BadIndex) × (block_count self.old.kept.geometry ≤ address))) }
        ensures cause { IsErrOf result Refusal.Device → HasFailed (D.failures self.old.device) (D.failures self.new.device) }
        ensures image { D.image self.new.device ≡ D.image self.old.device }
        ensures held { D.held self.new.device ≡ D.held self.old.device }
        ensures honest { D.honest self.new.device → D.honest self.old.device }
        ensures untouched { (self.new.queue ≡ self.old.queue) × (self.new.kept ≡ self.old.kept) × (self.new.holdings ≡ self.old.holdings) }
    {
        if address >= self.metadata.frozen().geometry().blocks() {
            return Err(Refusal::BadIndex);
        }
        self.device.read(address, to)?;
        Ok(())
    }
}

/// The updates that clear the bits of these blocks, which are held no more.
fn clearing(alloc: Global, geometry: Geometry, blocks: &[u32]) -> Result<Plan, AllocError>
    requires { All (λ a. IsTrue (is_data_address geometry a)) blocks.now }
    ensures geometry { IfOk result (λ plan. plan.geometry ≡ geometry) }
    ensures updates { IfOk result (λ plan. over [] plan.updates ≡ releasing blocks.now []) }
{
    let mut plan = Plan::new(alloc, geometry, NO_FILE);
    for block in blocks {
        plan.push(Change::SetBlock(*block, false), Cells::new(alloc))?;
    }
    Ok(plan)
}
