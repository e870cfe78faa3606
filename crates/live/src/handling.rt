ghost use Rattle.std.specs.Prelude.{◌≡◌, ◌⊎◌, ◌<◌, ℕ, None, Some, IfErr, IfOk, IfSome, IsErrOf, IsFalse, IsOkUnless, IsTrue, OnErr, OnOk};
ghost use Rattle.device.specs.Writes.{HasFailed};
ghost use Rattle.layout.specs.declared.refusal.Refusal.TheVariants.{Device as DeviceRefusal};
ghost use Rattle.machine.specs.Command.{Bytes, Close, Done, Number, Open, Read, Truncate, Write};
ghost use Rattle.frozen.specs.Kept.{frozen_view, kept_at};
ghost use Rattle.model.specs.Layout.{is_data_address};
ghost use Rattle.model.specs.Shape.{most_blocks};
ghost use Rattle.model.specs.Uses.{claim_at, is_directory_at};
ghost use Rattle.live_states.specs.Planned.{AreSeen, IsRefusedWith};
ghost use Rattle.live_writes.specs.Aimed.{seen_at, seen_before};
ghost use Rattle.live.specs.Durable.{StaysSound, StaysSoundAfter};
ghost use Rattle.live.specs.Alive.{MayRefuse};
ghost use Rattle.live.specs.Seen.{seen_of, Answered};

use crate::Live;
use crate::bytes::{first_bytes, read_seen};
use crate::ending::Ending;
use device::Device;
use layout::{BLOCK_BYTES, Block, Refusal};
use live_files::{Reading, opening_of, reading_of};
use live_writes::{Piece, Target, aim};
use std::alloc::Global;

impl<D: Device> Live<D> {
    /// Opens a file, and gives the handle: the least one that is not open. Refused with `BadName` where this is no path,
    /// with `NotFound` or `NotDirectory` where it leads nowhere, with `IsDirectory` where it leads to a directory, and
    /// with `TooManyOpen` where 1,024 handles are open.
    pub fn open(&mut self, path: &[u8]) -> Result<u32, Refusal>
        ensures done { IfOk result (λ handle. D.honest self.old.device → Answered D.image self.old (Open path.now) (Number handle) self.new) }
        ensures sound { OnOk result (StaysSound D.held self.old self.new) }
        ensures refused { IfErr result (λ r. D.honest self.old.device → MayRefuse (D.image self.old.device) self.old (Open path.now) r) }
        ensures cause { IfErr result (IsRefusedWith self.old.kept self.old.holdings (Open path.now)) }
        ensures untouched { OnErr result (self.new ≡ self.old) }
        ensures device { self.new.device ≡ self.old.device }
    {
        let opening = opening_of(&self.metadata, &self.holdings, path)?;
        self.holdings.open(opening.handle, opening.number)?;
        Ok(opening.handle)
    }

    /// The bytes that an open file has in its block of this index, as users see them: those that were written last,
    /// whether they are on the device or pending. Refused with `BadHandle` where the handle is not open, and with
    /// `BadIndex` where the file ends before the block.
    pub fn read(&mut self, alloc: Global, handle: u32, index: u32) -> Result<Vec<u8>, Refusal>
        ensures done { IfOk result (λ bytes. D.honest self.new.device → Answered D.image self.old (Read handle index) (Bytes bytes.items) self.new) }
        ensures refused { IfErr result (λ r. D.honest self.new.device → MayRefuse (D.image self.old.device) self.old (Read handle index) r) }
        ensures error { IfErr result (λ r. (r ≡ DeviceRefusal) ⊎ IsRefusedWith self.old.kept self.old.holdings (Read handle index) r) }
        ensures cause { IsErrOf result Refusal.Device → HasFailed (D.failures self.old.device) (D.failures self.new.device) }
        ensures image { D.image self.new.device ≡ D.image self.old.device }
        ensures held { D.held self.new.device ≡ D.held self.old.device }
        ensures honest { D.honest self.new.device → D.honest self.old.device }
        ensures untouched { (self.new.queue ≡ self.old.queue) × (self.new.kept ≡ self.old.kept) × (self.new.holdings ≡ self.old.holdings) }
    {
        let Reading { block, length } = reading_of(&self.metadata, &self.holdings, handle, index)?;
        let mut bytes = [0; BLOCK_BYTES];
        read_seen(&mut self.device, &self.queue, block, &mut bytes)?;
        Ok(first_bytes(alloc, &bytes, length)?)
    }

    /// Writes a piece of 1 to 1,024 bytes at the start of the block of this index of an open file: over the bytes there, or
    /// as its next block. Refused with `BadHandle` where the handle is not open, with `BadPiece` where the piece is empty
    /// or longer than a block, with `TooBig` where no file has such a block, with `BadIndex` where the file ends before
    /// the block, and with `NoBlock` where it needs more blocks than are unmarked.
    pub fn write(
        &mut self,
        alloc: Global,
        handle: u32,
        index: u32,
        piece: &[u8],
    ) -> Result<(), Refusal>
        ensures done { OnOk result (D.honest self.new.device → Answered D.image self.old (Write handle index piece.now) Done self.new) }
        ensures sound { OnOk result (D.honest self.new.device → StaysSoundAfter D.held D.image self.old (Write handle index piece.now) self.new) }
        ensures refused { IfErr result (λ r. D.honest self.new.device → MayRefuse (D.image self.old.device) self.old (Write handle index piece.now) r) }
        ensures error { IfErr result (λ r. (r ≡ DeviceRefusal) ⊎ IsRefusedWith self.old.kept self.old.holdings (Write handle index piece.now) r) }
        ensures cause { IsErrOf result Refusal.Device → HasFailed (D.failures self.old.device) (D.failures self.new.device) }
        ensures image { D.image self.new.device ≡ D.image self.old.device }
        ensures held { D.held self.new.device ≡ D.held self.old.device }
        ensures honest { D.honest self.new.device → D.honest self.old.device }
        ensures untouched { OnErr result ((self.new.queue ≡ self.old.queue) × (self.new.kept ≡ self.old.kept) × (self.new.holdings ≡ self.old.holdings)) }
    {
        let mut before = [0; BLOCK_BYTES];
        let target = aim(&self.metadata, &self.holdings, handle, index, piece)?;
        self.read_under(&target, &mut before)?;
        let over = Piece {
            bytes: piece,
            before: &before,
        };
        let planned = live_writes::write(
            alloc,
            &self.metadata,
            &self.holdings,
            &target,
            &over,
            &mut self.spares,
        )?;
        self.carry_out(alloc, planned, Ending::Nothing)?;
        self.let_go(&target);
        Ok(())
    }

    /// Lets go of the bytes in memory that a file has where it was written: until they are on the device the queue has them, and
    /// no metadata stands there.
    fn let_go(&mut self, target: &Target)
        ensures device { self.new.device ≡ self.old.device }
        ensures queue { self.new.queue ≡ self.old.queue }
        ensures holdings { self.new.holdings ≡ self.old.holdings }
        ensures geometry { self.new.kept.geometry ≡ self.old.kept.geometry }
        ensures gone { (a : ℕ) → target.now.index < most_blocks self.old.kept.geometry
            → IsFalse (is_directory_at self.old.kept.geometry (frozen_view self.old.kept) target.now.file)
            → claim_at self.old.kept.geometry (frozen_view self.old.kept) target.now.file target.now.index ≡ Some a → kept_at self.new.kept.blocks a ≡ None }
    {
        let frozen = self.metadata.frozen();
        if target.index >= frozen.geometry().most_blocks() || frozen.is_directory_at(target.file) {
            return;
        }
        if let Some(block) = frozen.claim_at(target.file, target.index) {
            self.metadata.let_go(block);
        }
    }

    /// Reads the block that a piece is put over, where there is one, as users see it.
    fn read_under(&mut self, target: &Target, block: &mut Block) -> Result<(), Refusal>
        requires { IfSome (seen_at target.now.place) (λ a. IsTrue (is_data_address self.old.kept.geometry a)) }
        ensures seen { OnOk result (D.honest self.new.device
            → AreSeen (seen_before target.now block.new) (seen_of D.image self.old)) }
        ensures image { D.image self.new.device ≡ D.image self.old.device }
        ensures held { D.held self.new.device ≡ D.held self.old.device }
        ensures honest { D.honest self.new.device → D.honest self.old.device }
        ensures untouched { (self.new.queue ≡ self.old.queue) × (self.new.kept ≡ self.old.kept) × (self.new.holdings ≡ self.old.holdings) }
        ensures error { IsOkUnless result Refusal.Device }
        ensures cause { IsErrOf result Refusal.Device → HasFailed (D.failures self.old.device) (D.failures self.new.device) }
    {
        match target.seen() {
            Some(address) => read_seen(&mut self.device, &self.queue, address, block),
            None => Ok(()),
        }
    }

    /// Gives an open file a size that is no larger than its own; blocks behind it are free. Refused with `BadHandle` where
    /// the handle is not open, and with `BadIndex` where the size is larger.
    pub fn truncate(&mut self, alloc: Global, handle: u32, size: u32) -> Result<(), Refusal>
        ensures done { OnOk result (D.honest self.old.device → Answered D.image self.old (Truncate handle size) Done self.new) }
        ensures sound { OnOk result (D.honest self.old.device → StaysSoundAfter D.held D.image self.old (Truncate handle size) self.new) }
        ensures refused { IfErr result (λ r. D.honest self.old.device → MayRefuse (D.image self.old.device) self.old (Truncate handle size) r) }
        ensures cause { IfErr result (IsRefusedWith self.old.kept self.old.holdings (Truncate handle size)) }
        ensures untouched { OnErr result (self.new ≡ self.old) }
        ensures device { self.new.device ≡ self.old.device }
    {
        let planned = live_removals::truncate(alloc, &self.metadata, &self.holdings, handle, size)?;
        self.carry_out(alloc, planned, Ending::Nothing)?;
        Ok(())
    }

    /// Closes a handle; with its last one a file goes that has no names, and its blocks are free. Refused with `BadHandle`
    /// where the handle is not open.
    pub fn close(&mut self, alloc: Global, handle: u32) -> Result<(), Refusal>
        ensures done { OnOk result (D.honest self.old.device → Answered D.image self.old (Close handle) Done self.new) }
        ensures sound { OnOk result (D.honest self.old.device → StaysSoundAfter D.held D.image self.old (Close handle) self.new) }
        ensures refused { IfErr result (λ r. D.honest self.old.device → MayRefuse (D.image self.old.device) self.old (Close handle) r) }
        ensures cause { IfErr result (IsRefusedWith self.old.kept self.old.holdings (Close handle)) }
        ensures untouched { OnErr result (self.new ≡ self.old) }
        ensures device { self.new.device ≡ self.old.device }
    {
        let planned = live_removals::close(alloc, &self.metadata, &self.holdings, handle)?;
        self.carry_out(alloc, planned, Ending::Handle(handle))?;
        Ok(())
    }
}
