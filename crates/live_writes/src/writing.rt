ghost use Rattle.std.specs.Prelude.{◌≡◌, ◌<◌, ◌≤◌, ◌∷◌, [], ℕ, IfOk, IsTrue, List, OnOk, length, map, max};
ghost use Rattle.std.specs.Arc.{arc_value};
ghost use Rattle.std.specs.List.{All};
ghost use Rattle.frozen.specs.Kept.{frozen_view};
ghost use Rattle.machine.specs.Command.{Done, Write};
ghost use Rattle.model.specs.Cells.{SetBytes, SetInode};
ghost use Rattle.model.specs.Image.{IsBlock};
ghost use Rattle.model.specs.Layout.{block_count, is_data_address, is_number};
ghost use Rattle.model.specs.Shape.{most_blocks};
ghost use Rattle.model.specs.Uses.{is_sound_at};
ghost use Rattle.plans_data.specs.Write.{enlarged};
ghost use Rattle.updates.specs.Places.{FitsVolume, IsCell};
ghost use Rattle.updates.specs.Values.{cell};
ghost use Rattle.live_plans.specs.Linked.{CanLink, HasPointers};
ghost use Rattle.live_states.specs.Drafts.{GoesOn};
ghost use Rattle.live_states.specs.Holdings.{Holdings as Held, with_held};
ghost use Rattle.live_states.specs.Planned.{IsOfVolumeWith, IsPlannedToTheByte, IsPlannedWith};
ghost use Rattle.live_writes.specs.Aimed.{Fits, IsAimed, seen_before};
ghost use Rattle.live_writes.specs.Written.{bytes_after, held_for, holder_at, repointed, updates_at};

use crate::{Place, Target};
use inode::Record;
use layout::{BLOCK_BYTES, Block};
use live_holdings::Holdings;
use live_places::Tables;
use live_plans::{NewBlock, Plan, Planned, fill, link};
use metadata::Metadata;
use smallvec::smallvec;
use spares::Spares;
use std::alloc::{AllocError, Global};
use std::sync::Arc;
use updates::{Cell, Cells, Change};

/// A piece that is written at the start of a block.
#[derive(Clone, Copy)]
pub struct Piece<'a> {
    /// Its bytes.
    pub bytes: &'a [u8],
    /// The bytes of the block that it is put over.
    pub before: &'a Block,
}

/// The plan by which a piece is written where `aim` has settled, over the bytes of the block that is seen there. Behind the
/// last block it is put over zeroes. What is behind the piece stays, also behind the file's size: a stop may show an older,
/// larger size with these bytes.
///
/// Whatever the bytes of the block were, the same plan is that of a piece, which reaches to the end of the block or of
/// the file. Spare blocks serve for its new bytes, where there are some.
pub fn write(
    alloc: Global,
    metadata: &Metadata,
    holdings: &Holdings,
    target: &Target,
    piece: &Piece,
    spares: &mut Spares,
) -> Result<Planned, AllocError>
    requires volume { IsOfVolumeWith metadata.now holdings.now }
    requires aimed { (h : ℕ) × (k : ℕ) × IsAimed metadata.now holdings.now h k piece.now.bytes.now target.now }
    requires wide { block_count metadata.now.geometry ≤ length holdings.now.held }
    ensures planned { IfOk result (λ planned. (h k : ℕ) → IsAimed metadata.now holdings.now h k piece.now.bytes.now target.now
        → IsPlannedToTheByte metadata.now holdings.now (seen_before target.now piece.now.before.now) (Write h k piece.now.bytes.now) Done planned.plan
        (with_held holdings.now planned.holds.items)) }
    ensures planned_anyhow { IfOk result (λ planned. (h k : ℕ) → IsAimed metadata.now holdings.now h k piece.now.bytes.now target.now
        → (other : List ℕ) × IsPlannedWith metadata.now holdings.now [] (Write h k other) Done planned.plan
        (with_held holdings.now planned.holds.items)) }
    ensures holds { IfOk result (λ planned. All (λ a. a < block_count metadata.now.geometry) planned.holds.items) }
{
    // What is kept is all metadata.
    metadata.frozen(); // for the proof: its clause `metadata`
    let end = BLOCK_BYTES as u32 * target.index + piece.bytes.len() as u32;
    let bytes = overwritten(alloc, &target.place, piece.before, piece.bytes, spares)?;
    let plan = updates(alloc, metadata, target, bytes, end, spares)?;
    let holds = held_blocks(alloc, &target.place)?;
    Ok(Planned { plan, holds })
}

/// The blocks that are held for snapshots once a block is written there: the old one, where it is kept.
pub fn held_blocks(alloc: Global, place: &Place) -> Result<Vec<u32>, AllocError>
    ensures { IfOk result (λ blocks. blocks.items ≡ held_for place.now) }
{
    match place {
        Place::Elsewhere { old, .. } => Ok(vec![in alloc; *old]?),
        _ => Ok(Vec::new(alloc)),
    }
}

/// The new bytes of the block: the piece, and behind it what was there, or zeroes in a block behind the last one.
pub fn overwritten(
    alloc: Global,
    place: &Place,
    before: &Block,
    piece: &[u8],
    spares: &mut Spares,
) -> Result<Arc<Block>, AllocError>
    requires { length piece.now ≤ 1024 }
    ensures bytes { IfOk result (λ bytes. arc_value bytes ≡ bytes_after place.now before.now piece.now) }
    ensures whole { IfOk result (λ bytes. IsBlock (arc_value bytes)) }
{
    match piece.as_array() {
        Some(whole) => spares.share(alloc, whole),
        None => overwritten_in_part(alloc, place, before, piece, spares),
    }
}

/// The new bytes of the block where the piece may be shorter than it.
fn overwritten_in_part(
    alloc: Global,
    place: &Place,
    before: &Block,
    piece: &[u8],
    spares: &mut Spares,
) -> Result<Arc<Block>, AllocError>
    requires { length piece.now ≤ 1024 }
    ensures bytes { IfOk result (λ bytes. arc_value bytes ≡ bytes_after place.now before.now piece.now) }
    ensures whole { IfOk result (λ bytes. IsBlock (arc_value bytes)) }
{
    let mut bytes = match place {
        Place::Behind { .. } => [0; BLOCK_BYTES],
        _ => *before,
    };
    bytes[..piece.len()].copy_from_slice(piece);
    spares.share(alloc, &bytes)
}

/// The updates by which the block that is written gets its bytes, which end here in the file, and the file the size that it
/// needs for them.
fn updates(
    alloc: Global,
    metadata: &Metadata,
    target: &Target,
    bytes: Arc<Block>,
    end: u32,
    spares: &mut Spares,
) -> Result<Plan, AllocError>
    requires pointers { HasPointers metadata.now target.now.file }
    requires fits { (holdings : Held) × Fits metadata.now holdings target.now }
    ensures { IfOk result (λ plan. GoesOn (record { geometry = metadata.now.geometry; file = target.now.file; updates = [] }) plan
        (updates_at metadata.now target.now (arc_value bytes) (max ((frozen_view metadata.now).inode target.now.file).size end))) }
{
    let frozen = metadata.frozen();
    let owner = frozen.record(target.file);
    let size = owner.size.max(end);
    let mut plan = Plan::new(alloc, frozen.geometry(), target.file);
    match target.place {
        Place::InPlace { block } => {
            replace(alloc, &mut plan, block, bytes)?;
            let after = smallvec![in alloc; Cell::Block(block)]?;
            enlarge(alloc, &mut plan, target.file, &owner, size, after)?;
        }
        Place::Behind { block, tables } => {
            fill(alloc, &mut plan, block, bytes)?;
            let new = NewBlock {
                number: target.file,
                owner,
                position: target.index,
                block,
                tables,
            };
            repoint(alloc, metadata, &mut plan, spares, &new, size)?;
        }
        Place::Elsewhere { block, .. } => {
            fill(alloc, &mut plan, block, bytes)?;
            let new = NewBlock {
                number: target.file,
                owner,
                position: target.index,
                block,
                tables: Tables::none(),
            };
            repoint(alloc, metadata, &mut plan, spares, &new, size)?;
        }
    }
    Ok(plan)
}

/// Adds the update that gives a block these bytes.
fn replace(alloc: Global, plan: &mut Plan, block: u32, bytes: Arc<Block>) -> Result<(), AllocError>
    requires { IsTrue (is_data_address plan.old.geometry block) }
    ensures { OnOk result (GoesOn plan.old plan.new (λ q. record { change = SetBytes block (arc_value bytes); after = [] } ∷ q)) }
{
    plan.push(Change::SetBytes(block, bytes), Cells::new(alloc))
}

/// Adds the update that gives an inode with this record a larger size, after these cells, where it is larger.
fn enlarge(
    alloc: Global,
    plan: &mut Plan,
    number: u32,
    owner: &Record,
    size: u32,
    after: Cells,
) -> Result<(), AllocError>
    requires number { IsTrue (is_number plan.old.geometry number) }
    requires fits { FitsVolume plan.old.geometry (SetInode number owner.now) }
    requires after { All (IsCell plan.old.geometry) (map cell after.items) }
    ensures { OnOk result (GoesOn plan.old plan.new (enlarged number owner.now size (map cell after.items))) }
{
    if size <= owner.size {
        return Ok(());
    }
    let mut larger = *owner;
    larger.size = size;
    plan.set_record(alloc, number, larger, after)
}

/// Adds the updates by which a file points to a new block, and gets this size. The pointer goes into the record, into a table
/// that is there, or into the nearest of the new ones; the record is written only where it changes.
fn repoint(
    alloc: Global,
    metadata: &Metadata,
    plan: &mut Plan,
    spares: &mut Spares,
    new: &NewBlock,
    size: u32,
) -> Result<(), AllocError>
    requires geometry { plan.old.geometry ≡ metadata.now.geometry }
    requires owner { new.now.owner ≡ (frozen_view metadata.now).inode new.now.number }
    requires sound { IsTrue (is_sound_at metadata.now.geometry (frozen_view metadata.now) new.now.number) }
    requires room { new.now.position < most_blocks metadata.now.geometry }
    requires block { IsTrue (is_data_address metadata.now.geometry new.now.block) }
    requires tables { CanLink metadata.now new.now.number new.now.position new.now.tables }
    ensures { OnOk result (GoesOn plan.old plan.new
        (repointed metadata.now.geometry new.now.number ((frozen_view metadata.now).inode new.now.number) new.now.position new.now.block size
        (holder_at metadata.now new.now.number new.now.position new.now.block new.now.tables))) }
{
    let linked = link(alloc, metadata, plan, spares, new)?;
    let geometry = metadata.frozen().geometry();
    if new.tables.is_empty() && geometry.pointer_place(new.position).is_some() {
        return enlarge(alloc, plan, new.number, &new.owner, size, linked.after);
    }
    let mut changed = linked.record;
    changed.size = size;
    plan.set_record(alloc, new.number, changed, linked.after)
}
