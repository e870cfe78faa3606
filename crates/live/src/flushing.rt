ghost use Rattle.std.specs.Prelude.{◌≡◌, [], true, ◌<◌, ◌≤◌, ◌⊎◌, IfErr, IfOk, IsErrOf, IsOkUnless, OnErr, OnOk};
ghost use Rattle.layout.specs.declared.refusal.Refusal.TheVariants.{BadIndex, Device as DeviceRefusal};
ghost use Rattle.device.specs.Writes.{HasFailed};
ghost use Rattle.machine.specs.Command.{Done, Flush, Number, Sync};
ghost use Rattle.machine.specs.Room.{unmarked_blocks};
ghost use Rattle.model.specs.Layout.{block_count};
ghost use Rattle.queue_model.specs.Flush.{taken};
ghost use Rattle.softdep.specs.Queued.{IsSettled, after_flush, next_cut, pending_of, unsynced_of};
ghost use Rattle.live.specs.Durable.{StaysSound};
ghost use Rattle.live.specs.Alive.{MayRefuse};
ghost use Rattle.live.specs.Seen.{seen_of, AnsweredByWrites, Flushed, Wrote, WroteBlock, IsLeastReadyOf, IsNextReadyOf};

use crate::Live;
use device::Device;
use layout::Refusal;

impl<D: Device> Live<D> {
    /// How many data blocks are not marked.
    pub fn unmarked_blocks(&self) -> u32
        ensures { D.honest self.now.device → result ≡ unmarked_blocks self.now.kept.geometry (seen_of D.image self.now) }
    {
        self.metadata.unmarked_blocks()
    }

    /// The least block of which a flush writes something; `None` where there is none: then nothing is pending, or what is waits
    /// until what was written of other blocks is durable.
    pub fn least_ready(&self) -> Option<u32>
        ensures { IsLeastReadyOf self.now result }
    {
        self.queue.least_ready()
    }

    /// The least block of which a flush writes something, of this one and those above it; `None` where there is none.
    pub fn next_ready(&self, from: u32) -> Option<u32>
        ensures { IsNextReadyOf self.now from result }
    {
        self.queue.next_ready(from)
    }

    /// Writes a block with those of its pending updates that may go there over what is durable, and counts them. Where none may,
    /// a device that keeps order is not touched, and any other one is waited for, so that what was written is durable. Refused
    /// with `BadIndex` if the volume has no such block, and with `Device`; then nothing is written.
    pub fn flush(&mut self, address: u32) -> Result<usize, Refusal>
        // What the device held after it is what the flush wrote.
        ensures done { IfOk result (λ count. D.honest self.new.device → AnsweredByWrites D.held D.image self.old (Flush address) (Number count) self.new) }
        ensures sound { D.honest self.new.device → StaysSound D.held self.old self.new }
        ensures flushed { OnOk result (self.new.queue ≡ after_flush D.KEEPS_ORDER self.old.queue address) }
        ensures count { IfOk result (λ count. count ≡ taken (next_cut self.old.queue address)) }
        ensures refused { IfErr result (λ r. D.honest self.new.device → MayRefuse (D.image self.old.device) self.old (Flush address) r) }
        ensures untouched { OnErr result ((self.new.queue ≡ self.old.queue) × (D.image self.new.device ≡ D.image self.old.device)
            × (D.held self.new.device ≡ D.held self.old.device)) }
        ensures idle { IfOk result (λ count. count ≡ 0 → D.KEEPS_ORDER ≡ true → self.new.device ≡ self.old.device) }
        ensures unwritten { IfOk result (λ count. count ≡ 0 → (D.image self.new.device ≡ D.image self.old.device)
            × ((D.held self.new.device).media ≡ (D.held self.old.device).media)) }
        ensures written { IfOk result (λ count. 0 < count → WroteBlock D.held D.image address self.old self.new) }
        ensures metadata { self.new.kept ≡ self.old.kept }
        ensures holdings { self.new.holdings ≡ self.old.holdings }
        ensures error { IfErr result (λ r. (r ≡ DeviceRefusal) ⊎ ((r ≡ BadIndex) × (block_count self.old.kept.geometry ≤ address))) }
        ensures cause { IsErrOf result Refusal.Device → HasFailed (D.failures self.old.device) (D.failures self.new.device) }
        ensures honest { D.honest self.new.device → D.honest self.old.device }
    {
        if address >= self.metadata.frozen().geometry().blocks() {
            return Err(Refusal::BadIndex);
        }
        let count = self
            .queue
            .flush(&mut self.device, address, &mut self.spares)?;
        Ok(count)
    }

    /// Writes what is pending, block after block, until all of it is durable. On a device that keeps order each block is the
    /// least then with an update that may go; on any other one it writes in sweeps, each block once, and waits for the medium
    /// after each. A fault of the device ends it; what was written before stays written.
    pub fn sync(&mut self) -> Result<(), Refusal>
        ensures done { OnOk result (D.honest self.new.device → AnsweredByWrites D.held D.image self.old Sync Done self.new) }
        ensures refused { IfErr result (λ r. D.honest self.new.device → MayRefuse (D.image self.old.device) self.old Sync r) }
        ensures sound { D.honest self.new.device → StaysSound D.held self.old self.new }
        ensures pending { OnOk result (pending_of self.new.queue ≡ []) }
        ensures unsynced { OnOk result (unsynced_of self.new.queue ≡ []) }
        ensures metadata { self.new.kept ≡ self.old.kept }
        ensures holdings { self.new.holdings ≡ self.old.holdings }
        // Refused or not, what the device held since is what such writes left, and flushes of the least ready block where it
        // keeps order.
        ensures writes { D.honest self.new.device → Wrote D.held D.image self.old self.new }
        ensures flushes { D.honest self.new.device → D.KEEPS_ORDER ≡ true → IsSettled self.old.queue → Flushed D.held D.image self.old self.new }
        ensures error { IsOkUnless result Refusal.Device }
        ensures cause { IsErrOf result Refusal.Device → HasFailed (D.failures self.old.device) (D.failures self.new.device) }
        ensures honest { D.honest self.new.device → D.honest self.old.device }
    {
        self.queue.sync(&mut self.device, &mut self.spares)?;
        Ok(())
    }
}
