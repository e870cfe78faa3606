ghost use Rattle.std.specs.Prelude.{◌≡◌, ℕ, ◌+◌, ◌<◌, ◌≤◌, [], ◌⊎◌, Bool, true, List, length, IfOk, OnOk, OnErr, IsErrOf, IsOkUnless, slice_set};
ghost use Rattle.layout.specs.declared.refusal.Refusal.TheVariants.{Device as DeviceRefusal};
ghost use Rattle.model.specs.Layout.{block_count};
ghost use Rattle.model.specs.View.{View};
ghost use Rattle.model.specs.Image.{IsImage, block_at, image_view};
ghost use Rattle.ordering.specs.Cuts.{IsClosed, rest, seen, users_view};
ghost use Rattle.queue_model.specs.Blocks.{home_of};
ghost use Rattle.queue_model.specs.Flush.{taken, IsOfBlock};
ghost use Rattle.device.specs.Media.{cached, wrote, synced};
ghost use Rattle.device.specs.Writes.{HasFailed};
ghost use Rattle.softdep.specs.Queued.{AreClosed, IsSettled, unsynced_of, pending_of, next_cut, flushed, settled, after_flush};
ghost use Rattle.softdep.specs.OnMedium.{IsOnMedium};
ghost use Rattle.softdep.specs.Syncing.{HasPut, HasHeld, IsHistory, AreWrites, AreFlushes};
ghost use Rattle.softdep.specs.Writing.{WritesTaken};

use crate::Queue;
use crate::queue::Kind;
use device::Device;
use layout::Refusal;
use spares::Spares;

impl Queue {
    /// Writes a block with those of its pending updates that may go there over what is durable, and counts them: what stands
    /// in the block stays, but for what these put there. An image stays one: neither the superblock nor the magic and the
    /// number of a group change. On a device that keeps order what is written is durable, and where there is nothing to
    /// write, the device is not touched; on any other one what is written is loose until a flush of a block with nothing to
    /// write, or a sync, has waited for the medium. Blocks whose bytes are durable then are spare. It needs no memory.
    pub fn flush<D: Device>(
        &mut self,
        device: &mut D,
        address: u32,
        spares: &mut Spares,
    ) -> Result<usize, Refusal>
        requires address { address < block_count self.old.geometry }
        requires count { length (D.image device.old) ≡ block_count self.old.geometry }
        ensures flushed { OnOk result (self.new ≡ after_flush D.KEEPS_ORDER self.old address) }
        ensures closed { IsClosed (pending_of self.old) (next_cut self.old address) }
        ensures of_block { IsOfBlock (home_of self.old.geometry) address (pending_of self.old) (next_cut self.old address) }
        ensures rest { OnOk result (pending_of self.new ≡ rest (pending_of self.old) (next_cut self.old address)) }
        ensures count { IfOk result (λ count. count ≡ taken (next_cut self.old address)) }
        ensures untouched { IfOk result (λ count. count ≡ 0 → D.KEEPS_ORDER ≡ true → device.new ≡ device.old) }
        ensures unwritten { IfOk result (λ count. count ≡ 0
            → (D.image device.new ≡ D.image device.old) × ((D.held device.new).media ≡ (D.held device.old).media)) }
        ensures written { IfOk result (λ count. 0 < count
            → (block : List ℕ) × (D.image device.new ≡ slice_set (D.image device.old) address block)
            × (D.held device.new ≡ wrote D.KEEPS_ORDER (D.held device.old) address block)) }
        ensures view { OnOk result (D.honest device.new
            → image_view self.old.geometry (D.image device.new)
            ≡ seen (image_view self.old.geometry (D.image device.old)) (pending_of self.old) (next_cut self.old address)) }
        ensures medium { D.honest device.new → (mounted : View) → IsOnMedium mounted self.old (D.held device.old).now
            → IsOnMedium mounted self.new (D.held device.new).now }
        ensures bytes { OnOk result (D.honest device.new
            → WritesTaken self.old.geometry address (pending_of self.old) (next_cut self.old address)
            (block_at (D.image device.old) address) (block_at (D.image device.new) address)) }
        ensures frame { OnOk result (D.honest device.new → IsImage self.old.geometry (D.image device.old) → IsImage self.old.geometry (D.image device.new)) }
        ensures calm { OnOk result (D.failures device.new ≡ D.failures device.old) }
        ensures refused { OnErr result (self.new ≡ self.old) }
        ensures image { OnErr result (D.image device.new ≡ D.image device.old) }
        ensures held { OnErr result (D.held device.new ≡ D.held device.old) }
        ensures error { IsOkUnless result Refusal.Device }
        ensures cause { IsErrOf result Refusal.Device → HasFailed (D.failures device.old) (D.failures device.new) }
        ensures honest { D.honest device.new → D.honest device.old }
    {
        let count = self.write(device, address)?;
        if D::KEEPS_ORDER {
            self.retire(spares);
        } else if count == 0 && self.loose() > 0 {
            self.settle(device, spares)?;
        }
        Ok(count)
    }

    /// Writes what is pending, in sweeps, and waits for the medium after each, until nothing is left. On a device that keeps
    /// order one sweep leaves nothing. Blocks whose bytes are durable then are spare. It needs no memory.
    pub fn sync<D: Device>(&mut self, device: &mut D, spares: &mut Spares) -> Result<(), Refusal>
        requires { length (D.image device.old) ≡ block_count self.old.geometry }
        ensures pending { OnOk result (pending_of self.new ≡ []) }
        ensures unsynced { OnOk result (unsynced_of self.new ≡ []) }
        ensures view { OnOk result (D.honest device.new
            → image_view self.old.geometry (D.image device.new) ≡ users_view (image_view self.old.geometry (D.image device.old)) (pending_of self.old)) }
        ensures put { HasPut self.old self.new }
        ensures count { length (D.image device.new) ≡ block_count self.new.geometry }
        ensures rest { (cut : List Bool) × IsClosed (pending_of self.old) cut × (pending_of self.new ≡ rest (pending_of self.old) cut) }
        ensures history { D.honest device.new
            → IsHistory self.old.geometry (D.image device.old) (D.held device.old) (pending_of self.old)
            (D.image device.new) (D.held device.new) (pending_of self.new) }
        ensures writes { D.honest device.new
            → AreWrites self.old.geometry (D.image device.old) (D.held device.old) (pending_of self.old)
            (D.image device.new) (D.held device.new) (pending_of self.new) }
        ensures flushes { D.honest device.new → D.KEEPS_ORDER ≡ true → IsSettled self.old
            → AreFlushes self.old.geometry (D.image device.old) (D.held device.old) (pending_of self.old)
            (D.image device.new) (D.held device.new) (pending_of self.new) }
        ensures medium { D.honest device.new → (mounted : View) → IsOnMedium mounted self.old (D.held device.old).now
            → IsOnMedium mounted self.new (D.held device.new).now }
        ensures held { D.honest device.new → (mounted : View) → IsOnMedium mounted self.old (D.held device.old).now
            → HasHeld mounted self.old (D.held device.old) (D.held device.new) }
        ensures few { length (D.held device.new).media + length (pending_of self.new) ≤ length (D.held device.old).media + length (pending_of self.old) }
        ensures error { IsOkUnless result Refusal.Device }
        ensures cause { IsErrOf result Refusal.Device → HasFailed (D.failures device.old) (D.failures device.new) }
        ensures honest { D.honest device.new → D.honest device.old }
    {
        self.sweep(device, spares)?;
        while self.pending() > 0 {
            self.sweep(device, spares)?;
        }
        Ok(())
    }

    /// Writes each block with something to write once, the least first, and waits for the medium. On a device that keeps order
    /// it begins anew with the least block after each write, until nothing is pending.
    fn sweep<D: Device>(&mut self, device: &mut D, spares: &mut Spares) -> Result<(), Refusal>
        requires { length (D.image device.old) ≡ block_count self.old.geometry }
        ensures closed { AreClosed self.old }
        ensures settled { OnOk result (IsSettled self.new) }
        ensures fewer { OnOk result (IsSettled self.old → (pending_of self.new ≡ []) ⊎ (length (pending_of self.new) < length (pending_of self.old))) }
        ensures put { HasPut self.old self.new }
        ensures count { length (D.image device.new) ≡ block_count self.new.geometry }
        ensures writes { D.honest device.new
            → AreWrites self.old.geometry (D.image device.old) (D.held device.old) (pending_of self.old)
            (D.image device.new) (D.held device.new) (pending_of self.new) }
        ensures flushes { D.honest device.new → D.KEEPS_ORDER ≡ true → IsSettled self.old
            → AreFlushes self.old.geometry (D.image device.old) (D.held device.old) (pending_of self.old)
            (D.image device.new) (D.held device.new) (pending_of self.new) }
        ensures medium { D.honest device.new → (mounted : View) → IsOnMedium mounted self.old (D.held device.old).now
            → IsOnMedium mounted self.new (D.held device.new).now }
        ensures held { D.honest device.new → (mounted : View) → IsOnMedium mounted self.old (D.held device.old).now
            → HasHeld mounted self.old (D.held device.old) (D.held device.new) }
        ensures few { length (D.held device.new).media + length (pending_of self.new) ≤ length (D.held device.old).media + length (pending_of self.old) }
        ensures calm { OnOk result (D.failures device.new ≡ D.failures device.old) }
        ensures error { IsOkUnless result Refusal.Device }
        ensures cause { IsErrOf result Refusal.Device → HasFailed (D.failures device.old) (D.failures device.new) }
        ensures honest { D.honest device.new → D.honest device.old }
    {
        self.pending(); // for the proof: its clause `closed`
        let mut from = 0;
        while let Some(address) = self.next_ready(from) {
            from = if D::KEEPS_ORDER { 0 } else { address };
            self.flush(device, address, spares)?;
        }
        self.settle(device, spares)?;
        Ok(())
    }

    /// Writes a block with what may go there over what is durable, and counts what was not written before. Where that is
    /// nothing, it asks the device nothing.
    fn write<D: Device>(&mut self, device: &mut D, address: u32) -> Result<usize, Refusal>
        requires address { address < block_count self.old.geometry }
        requires count { length (D.image device.old) ≡ block_count self.old.geometry }
        ensures closed { AreClosed self.old }
        ensures flushed { OnOk result (self.new ≡ flushed self.old address) }
        ensures count { IfOk result (λ count. count ≡ taken (next_cut self.old address)) }
        ensures untouched { IfOk result (λ count. count ≡ 0 → device.new ≡ device.old) }
        ensures written { IfOk result (λ count. 0 < count
            → (block : List ℕ) × (D.image device.new ≡ slice_set (D.image device.old) address block)
            × (D.held device.new ≡ wrote D.KEEPS_ORDER (D.held device.old) address block)
            × (D.honest device.new → (mounted : View) → IsOnMedium mounted self.old (D.held device.old).now
            → IsOnMedium mounted self.new (cached (D.held device.old).now address block))) }
        ensures view { OnOk result (D.honest device.new
            → image_view self.old.geometry (D.image device.new)
            ≡ seen (image_view self.old.geometry (D.image device.old)) (pending_of self.old) (next_cut self.old address)) }
        ensures bytes { OnOk result (D.honest device.new
            → WritesTaken self.old.geometry address (pending_of self.old) (next_cut self.old address)
            (block_at (D.image device.old) address) (block_at (D.image device.new) address)) }
        ensures frame { OnOk result (D.honest device.new → IsImage self.old.geometry (D.image device.old) → IsImage self.old.geometry (D.image device.new)) }
        ensures calm { OnOk result (D.failures device.new ≡ D.failures device.old) }
        ensures refused { OnErr result (self.new ≡ self.old) }
        ensures image { OnErr result (D.image device.new ≡ D.image device.old) }
        ensures held { OnErr result (D.held device.new ≡ D.held device.old) }
        ensures error { IsOkUnless result Refusal.Device }
        ensures cause { IsErrOf result Refusal.Device → HasFailed (D.failures device.old) (D.failures device.new) }
        ensures honest { D.honest device.new → D.honest device.old }
    {
        if !self.table.has_ready(address) {
            self.events = self.events.and(&self.none, &Kind::Wrote(address));
            return Ok(0);
        }
        self.geometry.blocks(); // for the proof: its clause `geometry`
        let block = &mut self.block;
        // An update of a data block gives all of its bytes, so what stands there is not read.
        if self.geometry.place_of(address).is_none() {
            device.read(address, block)?;
        }
        let count = self.table.take(&self.geometry, address, block);
        match device.write(address, block) {
            Ok(()) => {
                device.blocks(); // for the proof: its clause `whole`
                self.events = self.events.and(&self.none, &Kind::Wrote(address));
                Ok(count)
            }
            Err(fault) => {
                self.table.give_back(address, count);
                Err(fault.into())
            }
        }
    }

    /// Waits until what was written is durable.
    fn settle<D: Device>(&mut self, device: &mut D, spares: &mut Spares) -> Result<(), Refusal>
        ensures closed { AreClosed self.old }
        ensures settled { OnOk result (self.new ≡ settled self.old) }
        ensures synced { OnOk result (D.held device.new ≡ synced (D.held device.old)) }
        ensures medium { (mounted : View) → IsOnMedium mounted self.old (D.held device.old).now → IsOnMedium mounted self.new (D.held device.new).now }
        ensures same { D.image device.new ≡ D.image device.old }
        ensures calm { OnOk result (D.failures device.new ≡ D.failures device.old) }
        ensures refused { OnErr result (self.new ≡ self.old) }
        ensures held { OnErr result (D.held device.new ≡ D.held device.old) }
        ensures error { IsOkUnless result Refusal.Device }
        ensures cause { IsErrOf result Refusal.Device → HasFailed (D.failures device.old) (D.failures device.new) }
        ensures honest { D.honest device.new → D.honest device.old }
    {
        self.pending(); // for the proof: its clause `closed`
        device.sync()?;
        self.retire(spares);
        Ok(())
    }

    /// All that was written is durable.
    fn retire(&mut self, spares: &mut Spares)
        ensures { self.new ≡ settled self.old }
    {
        self.table.settle(&self.geometry, spares);
        self.events = self.events.and(&self.none, &Kind::Settled);
    }
}
