ghost use Rattle.std.specs.Prelude.{◌≡◌, ◌/◌, ◌≤◌, ◌<◌, ◌∷◌, ◌++◌, ◌⊎◌, ℕ, IsSome, IsTrue, List, OnOk, length, map};
ghost use Rattle.std.specs.List.{All, Contains};
ghost use Rattle.frozen.specs.Kept.{frozen_view};
ghost use Rattle.model.specs.Layout.{is_data_address, is_number};
ghost use Rattle.model.specs.Uses.{IsClaim, claim_at, is_directory_at};
ghost use Rattle.model.specs.View.{View};
ghost use Rattle.machine.specs.Cells.{IsEntryFor};
ghost use Rattle.metadata.specs.Shown.{Shows};
ghost use Rattle.ordering.specs.Cuts.{Cell as OrderedCell};
ghost use Rattle.plans_naming.specs.Entries.{HasBlocks, no_entry, slot_written};
ghost use Rattle.courses.specs.After.{IsBlockOf};
ghost use Rattle.updates.specs.Places.{IsCell};
ghost use Rattle.updates.specs.Values.{cell};
ghost use Rattle.live_states.specs.Drafts.{GoesOn};

use crate::{Found, Plan};
use dirent::{SLOT_BYTES, SLOTS, replace};
use frozen::Frozen;
use inode::Record;
use layout::Block;
use metadata::Metadata;
use std::alloc::{AllocError, Global};
use std::sync::Arc;
use updates::{Cell, Cells, Change};

/// The bytes of an entry that gives a number this name.
pub fn entry(number: u32, name: &[u8]) -> [u8; SLOT_BYTES]
    requires { length name.now ≤ 56 }
    ensures { IsEntryFor number name.now result }
{
    dirent::entry(number, name)
}

/// The bytes of a block that a directory has at some position, as users see them.
pub fn bytes_of(metadata: &Metadata, directory: u32, position: u32, block: u32) -> &Block
    requires directory { IsTrue (is_directory_at metadata.now.geometry (frozen_view metadata.now) directory) }
    requires claim { IsClaim metadata.now.geometry (frozen_view metadata.now) directory position block }
    ensures bytes { (view : View) → Shows metadata.now view → view.bytes block ≡ result.now }
{
    match metadata.frozen().block(block) {
        Some(bytes) => bytes,
        None => unreachable!(),
    }
}

/// A slot of a directory.
#[derive(Clone, Copy)]
pub struct Slot<'a> {
    /// Which one it is, counted through the whole directory.
    pub index: u32,
    /// The address of the directory's block in which it stands.
    pub block: u32,
    /// The bytes of that block.
    pub bytes: &'a Block,
}

/// Adds the update that puts 64 bytes into a slot of a directory, after these cells.
pub fn put_slot(
    alloc: Global,
    plan: &mut Plan,
    slot: &Slot,
    entry: &[u8; SLOT_BYTES],
    after: Cells,
) -> Result<(), AllocError>
    requires block { IsTrue (is_data_address plan.old.geometry slot.now.block) }
    requires after { All (IsCell plan.old.geometry) (map cell after.items) }
    ensures { OnOk result (GoesOn plan.old plan.new
        (λ q. slot_written slot.now.block slot.now.bytes.now slot.now.index entry.now (map cell after.items) ∷ q)) }
{
    let mut bytes = *slot.bytes;
    replace(&mut bytes, slot.index as usize % SLOTS, entry);
    let change = Change::SetBytes(slot.block, Arc::new(alloc, bytes)?);
    plan.push(change, after)
}

/// Adds the update that empties the slot of an entry that a directory has, after these cells.
pub fn empty_slot(
    alloc: Global,
    metadata: &Metadata,
    plan: &mut Plan,
    found: &Found,
    after: Cells,
) -> Result<(), AllocError>
    requires geometry { plan.old.geometry ≡ metadata.now.geometry }
    requires directory { IsTrue (is_directory_at metadata.now.geometry (frozen_view metadata.now) found.now.directory) }
    requires claim { IsClaim metadata.now.geometry (frozen_view metadata.now) found.now.directory (found.now.slot / 16) found.now.block }
    requires after { All (IsCell plan.old.geometry) (map cell after.items) }
    ensures emptied { OnOk result ((view : View) → Shows metadata.now view
        → GoesOn plan.old plan.new (λ q. slot_written found.now.block (view.bytes found.now.block) found.now.slot no_entry (map cell after.items) ∷ q)) }
    ensures geometry { OnOk result (plan.new.geometry ≡ plan.old.geometry) }
{
    let position = found.slot / SLOTS as u32;
    let slot = Slot {
        index: found.slot,
        block: found.block,
        bytes: bytes_of(metadata, found.directory, position, found.block),
    };
    put_slot(alloc, plan, &slot, &[0; SLOT_BYTES], after)
}

/// Adds the cells of a directory's blocks of slots behind these, and no others.
pub fn add_blocks(metadata: &Metadata, directory: u32, cells: &mut Cells) -> Result<(), AllocError>
    ensures kept { OnOk result ((c : OrderedCell) → Contains (map cell cells.old.items) c → Contains (map cell cells.new.items) c) }
    ensures blocks { OnOk result ((view : View) → Shows metadata.now view → HasBlocks metadata.now.geometry view directory (map cell cells.new.items)) }
    ensures only { OnOk result ((view : View) → Shows metadata.now view
        → All (λ c. Contains (map cell cells.old.items) c ⊎ IsBlockOf metadata.now.geometry view directory c) (map cell cells.new.items)) }
    ensures cells { OnOk result (All (IsCell metadata.now.geometry) (map cell cells.old.items) → All (IsCell metadata.now.geometry) (map cell cells.new.items)) }
{
    let frozen = metadata.frozen();
    if !frozen.is_sound_at(directory) {
        return Ok(());
    }
    let inode = frozen.record(directory);
    for position in 0..inode.blocks() {
        if let Some(block) = claim_of(frozen, &inode, position) {
            cells.push(Cell::Block(block))?;
        }
    }
    Ok(())
}

/// The block that the inodes of this record claim at a position, as `Frozen::claim_at` has it.
pub(crate) fn claim_of(frozen: &Frozen, inode: &Record, position: u32) -> Option<u32>
    ensures { (i : ℕ) → IsTrue (is_number frozen.now.geometry i) → (frozen_view frozen.now).inode i ≡ inode.now
        → result ≡ claim_at frozen.now.geometry (frozen_view frozen.now) i position }
{
    let address = frozen.use_of(inode, position)?;
    if frozen.geometry().place_of(address).is_some() {
        Some(address)
    } else {
        None
    }
}
