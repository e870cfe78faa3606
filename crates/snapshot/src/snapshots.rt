ghost use Rattle.std.specs.Prelude.{◌≡◌, ◌⊎◌, ◌↔◌, ◌≤◌, [], Err, IfErr, IfOk, IsErrOf, IsOkUnless, None, Ok, IsTrue, OnErr, OnOk, is_some};
ghost use Rattle.std.specs.Arc.{arc_value};
ghost use Rattle.device.specs.Writes.{HasFailed};
ghost use Rattle.frozen.specs.Kept.{KeepsMetadata};
ghost use Rattle.model.specs.Layout.{is_data_address};
ghost use Rattle.machine.specs.Command.{Bytes, Freeze, Release, SnapRead};
ghost use Rattle.machine.specs.Standing.{image_at, too_many};
ghost use Rattle.softdep.specs.Queued.{pending_of, unsynced_of};
ghost use Rattle.live_states.specs.Snapshots.{IsSettled, keeping};
ghost use Rattle.live.specs.Alive.{StandsSo};
ghost use Rattle.live.specs.Durable.{StaysSound};
ghost use Rattle.live.specs.Seen.{Wrote};
ghost use Rattle.snapshot.specs.Between.{Froze, GotReply, Released, WroteBlocks};
ghost use Rattle.snapshot.specs.Pieces.{IsPieceOfSnapshot};
ghost use Rattle.snapshot.specs.Refusing.{IsCauseOf, IsWhyUnread};

use crate::Volume;
use crate::pieces::{Piece, piece_of};
use device::Device;
use frozen::Frozen;
use layout::Refusal;
use live::{Live, first_bytes};
use std::alloc::Global;
use std::sync::Arc;

impl<D: Device> Volume<D> {
    /// A snapshot begins: the image of users, without the open files that have no name and without what is held, as it is
    /// once all that is pending is written. From now on no block of a file in it is changed or given out, until it is
    /// released. The repairs of an older check are dropped. Gives its number, which is how many freezes there were before it
    /// since the mount, and its metadata. Refused with `TooManySnapshots` where four stand or no number is left, and with
    /// `NoMemory`, and then nothing changed; and with `Device`, and then what was written before stays written.
    pub fn freeze(&mut self, alloc: Global) -> Result<(u64, Arc<Frozen>), Refusal>
        ensures frozen { IfOk result (λ made. D.honest self.new.device → Froze D.held D.image self.old made.0 (arc_value made.1) self.new) }
        ensures refused { IfErr result (λ r. D.honest self.new.device → GotReply D.held D.image self.old Freeze (Err r) self.new) }
        ensures untouched { OnErr result ((self.new.kept ≡ self.old.kept) × (self.new.holdings ≡ self.old.holdings)) }
        ensures writes { D.honest self.new.device → WroteBlocks D.held D.image self.old self.new }
        ensures many { IsErrOf result Refusal.TooManySnapshots ↔ IsTrue (too_many self.old.holdings.snapshots) }
        ensures unchanged { IsErrOf result Refusal.TooManySnapshots → self.new ≡ self.old }
        ensures full { IsErrOf result Refusal.NoMemory → self.new ≡ self.old }
        ensures error { IfErr result (λ r. (r ≡ Refusal.TooManySnapshots) ⊎ ((r ≡ Refusal.NoMemory) ⊎ (r ≡ Refusal.Device))) }
        ensures cause { IsErrOf result Refusal.Device → HasFailed (D.failures self.old.device) (D.failures self.new.device) }
        ensures honest { D.honest self.new.device → D.honest self.old.device }
    {
        if !self.live.may_freeze() {
            return Err(Refusal::TooManySnapshots);
        }
        let Shared { kept, given } = shared_view(alloc, self.live())?;
        let number = self.freeze_as(kept)?;
        Ok((number, given))
    }

    /// A snapshot begins as by `freeze`, where the caller has the metadata of its image already: nothing is copied. Gives its
    /// number. Refused with `TooManySnapshots`, and then nothing changed; and with `Device`, and then what was written before
    /// stays written.
    pub fn freeze_as(&mut self, snapshot: Arc<Frozen>) -> Result<u64, Refusal>
        requires settled { IsSettled self.old.kept self.old.holdings (arc_value snapshot) }
        requires whole { ((arc_value snapshot).geometry ≡ self.old.kept.geometry) × KeepsMetadata (arc_value snapshot) }
        ensures frozen { IfOk result (λ number. D.honest self.new.device → Froze D.held D.image self.old number (arc_value snapshot) self.new) }
        // Whatever the device did, this is the snapshot that stands under the number, and users see what they saw.
        ensures keeps { IfOk result (λ number. (number ≡ self.old.holdings.snapshots.freezes) × (self.new.kept ≡ self.old.kept)
            × (self.new.holdings ≡ keeping self.old.holdings (arc_value snapshot))) }
        ensures refused { IfErr result (λ r. D.honest self.new.device → GotReply D.held D.image self.old Freeze (Err r) self.new) }
        ensures untouched { OnErr result ((self.new.kept ≡ self.old.kept) × (self.new.holdings ≡ self.old.holdings)) }
        ensures writes { D.honest self.new.device → WroteBlocks D.held D.image self.old self.new }
        ensures many { IsErrOf result Refusal.TooManySnapshots ↔ IsTrue (too_many self.old.holdings.snapshots) }
        ensures unchanged { IsErrOf result Refusal.TooManySnapshots → self.new ≡ self.old }
        ensures error { IfErr result (λ r. (r ≡ Refusal.TooManySnapshots) ⊎ (r ≡ Refusal.Device)) }
        ensures cause { IsErrOf result Refusal.Device → HasFailed (D.failures self.old.device) (D.failures self.new.device) }
        ensures honest { D.honest self.new.device → D.honest self.old.device }
    {
        if !self.live.may_freeze() {
            return Err(Refusal::TooManySnapshots);
        }
        self.live.keeps_metadata(); // for the proof
        write_all(&mut self.live)?;
        let number = self.live.keep(snapshot);
        self.live.device(); // for the proof: its clause `stands`
        Ok(number)
    }

    /// The bytes that a file had in its block of this index when the snapshot of this number began. Refused with `NoSnapshot`
    /// where that one does not stand, with `NotFound` where the inode's number was in no use, with `IsDirectory`, with
    /// `BadIndex` where the file ended before the block, with `Device`, and with `NoMemory`.
    pub fn snap_read(
        &mut self,
        alloc: Global,
        number: u64,
        inode: u32,
        index: u32,
    ) -> Result<Vec<u8>, Refusal>
        ensures read { IfOk result (λ bytes. D.honest self.new.device
            → GotReply D.held D.image self.old (SnapRead number inode index) (Ok (Bytes bytes.items)) self.new) }
        ensures refused { IfErr result (λ r. D.honest self.new.device → GotReply D.held D.image self.old (SnapRead number inode index) (Err r) self.new) }
        ensures untouched { (self.new.queue ≡ self.old.queue) × (self.new.kept ≡ self.old.kept) × (self.new.holdings ≡ self.old.holdings) }
        ensures image { D.image self.new.device ≡ D.image self.old.device }
        ensures held { D.held self.new.device ≡ D.held self.old.device }
        ensures error { IfErr result (IsCauseOf self.old.kept self.old.holdings (SnapRead number inode index)) }
        ensures cause { IsErrOf result Refusal.Device → HasFailed (D.failures self.old.device) (D.failures self.new.device) }
        ensures honest { D.honest self.new.device → D.honest self.old.device }
    {
        let Piece { block, length } = piece_of_snapshot(&self.live, number, inode, index)?;
        let bytes = self.live.data_block(block)?;
        Ok(first_bytes(alloc, &bytes, length)?)
    }

    /// The snapshot of this number ends once all that is pending is written; the blocks are free that were held for it and
    /// that no other one keeps. The repairs of a check stay. Refused with `NoSnapshot` where it does not stand, and then
    /// nothing changed, with `NoMemory`, and with `Device`; what was written before stays written, since the plan that frees
    /// the blocks needs the marks on the device first.
    pub fn release(&mut self, alloc: Global, number: u64) -> Result<(), Refusal>
        ensures released { OnOk result (D.honest self.new.device → Released D.held D.image self.old number self.new) }
        ensures refused { IfErr result (λ r. D.honest self.new.device → GotReply D.held D.image self.old (Release number) (Err r) self.new) }
        ensures untouched { OnErr result ((self.new.kept ≡ self.old.kept) × (self.new.holdings ≡ self.old.holdings)) }
        ensures writes { D.honest self.new.device → WroteBlocks D.held D.image self.old self.new }
        ensures stands { IsErrOf result Refusal.NoSnapshot ↔ (image_at self.old.holdings.snapshots.standing number ≡ None) }
        ensures none { IsErrOf result Refusal.NoSnapshot → self.new ≡ self.old }
        ensures error { IfErr result (λ r. (r ≡ Refusal.NoSnapshot) ⊎ ((r ≡ Refusal.NoMemory) ⊎ (r ≡ Refusal.Device))) }
        ensures cause { IsErrOf result Refusal.Device → HasFailed (D.failures self.old.device) (D.failures self.new.device) }
        ensures honest { D.honest self.new.device → D.honest self.old.device }
    {
        if !has_snapshot(&self.live, number) {
            return Err(Refusal::NoSnapshot);
        }
        write_all(&mut self.live)?;
        let outcome = self.live.end_keep(alloc, number);
        self.live.device(); // for the proof: its clause `stands`
        outcome
    }
}

/// Whether the snapshot of this number stands.
fn has_snapshot<D: Device>(live: &Live<D>, number: u64) -> bool
    ensures { result ≡ is_some (image_at live.now.holdings.snapshots.standing number) }
{
    live.snapshot(number).is_some()
}

/// Writes all that is pending; the volume stands then as before.
fn write_all<D: Device>(live: &mut Live<D>) -> Result<(), Refusal>
    ensures pending { OnOk result (pending_of live.new.queue ≡ []) }
    ensures unsynced { OnOk result (unsynced_of live.new.queue ≡ []) }
    ensures sound { D.honest live.new.device → StaysSound D.held live.old live.new }
    ensures metadata { live.new.kept ≡ live.old.kept }
    ensures holdings { live.new.holdings ≡ live.old.holdings }
    ensures writes { D.honest live.new.device → Wrote D.held D.image live.old live.new }
    ensures stands { D.honest live.new.device → StandsSo (D.image live.new.device) live.new }
    ensures error { IsOkUnless result Refusal.Device }
    ensures cause { IsErrOf result Refusal.Device → HasFailed (D.failures live.old.device) (D.failures live.new.device) }
    ensures honest { D.honest live.new.device → D.honest live.old.device }
{
    let outcome = live.sync();
    live.device(); // for the proof: its clause `stands`
    outcome
}

/// Where the block of this index of a file of the snapshot of this number stands. Refused with `NoSnapshot`, and then as
/// `piece_of`.
fn piece_of_snapshot<D: Device>(
    live: &Live<D>,
    number: u64,
    inode: u32,
    index: u32,
) -> Result<Piece, Refusal>
    ensures piece { IfOk result (IsPieceOfSnapshot live.now.kept.geometry live.now.holdings number inode index) }
    ensures address { IfOk result (λ piece. IsTrue (is_data_address live.now.kept.geometry piece.block)) }
    ensures short { IfOk result (λ piece. piece.length ≤ 1024) }
    ensures refused { IfErr result (IsWhyUnread live.now.kept.geometry live.now.holdings number inode index) }
{
    match live.snapshot(number) {
        Some(snapshot) => piece_of(snapshot, inode, index),
        None => Err(Refusal::NoSnapshot),
    }
}

/// What a check is to see, to keep and to hand out.
#[derive(Drop)]
struct Shared {
    kept: Arc<Frozen>,
    given: Arc<Frozen>,
}

/// What a check is to see of a volume.
fn shared_view<D: Device>(alloc: Global, live: &Live<D>) -> Result<Shared, Refusal>
    ensures settled { IfOk result (λ shared. IsSettled live.now.kept live.now.holdings (arc_value shared.kept)) }
    ensures whole { IfOk result (λ shared. ((arc_value shared.kept).geometry ≡ live.now.kept.geometry) × KeepsMetadata (arc_value shared.kept)) }
    ensures given { IfOk result (λ shared. arc_value shared.given ≡ arc_value shared.kept) }
    ensures error { IsOkUnless result Refusal.NoMemory }
{
    let kept = Arc::new(alloc, live.view(alloc)?)?;
    let given = kept.clone()?;
    Ok(Shared { kept, given })
}
