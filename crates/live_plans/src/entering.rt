ghost use Rattle.std.specs.Prelude.{◌≡◌, ◌≤◌, ℕ, IsFalse, IsTrue, OnOk, length};
ghost use Rattle.frozen.specs.Kept.{frozen_view};
ghost use Rattle.model.specs.Layout.{is_number};
ghost use Rattle.model.specs.Uses.{is_directory_at};
ghost use Rattle.model.specs.View.{View};
ghost use Rattle.machine.specs.Effects.{with_links};
ghost use Rattle.machine.specs.Room.{is_full};
ghost use Rattle.metadata.specs.Shown.{Shows};
ghost use Rattle.live_places.specs.Chosen.{IsPlace};
ghost use Rattle.live_plans.specs.Entered.{EntersAt};
ghost use Rattle.live_plans.specs.Linked.{HasPointers};
ghost use Rattle.live_states.specs.Planned.{IsOfVolume};

use crate::growing::grow;
use crate::{Plan, Slot, add_blocks, bytes_of, entry, put_slot};
use dirent::SLOTS;
use inode::Record;
use layout::BLOCK_BYTES;
use live_places::Place;
use metadata::Metadata;
use smallvec::smallvec;
use std::alloc::{AllocError, Global};
use updates::{Cell, Cells};

/// A name that a directory is to get.
#[derive(Clone, Copy, Debug)]
pub struct NewEntry<'a> {
    /// The directory.
    pub directory: u32,
    /// Its record, as the updates before leave it: what users see, but for its links.
    pub parent: Record,
    /// The number that the entry is to name, whose record the updates before write.
    pub number: u32,
    /// The name.
    pub name: &'a [u8],
    /// Where the entry goes.
    pub place: Place,
}

/// Adds the updates that enter a name into a directory: where it needs one, a new block of zeroes and the pointer to it,
/// and then the entry, after the record of the number and the directory's other blocks, and after nothing else.
pub fn enter(
    alloc: Global,
    metadata: &Metadata,
    plan: &mut Plan,
    new: &NewEntry,
) -> Result<(), AllocError>
    requires geometry { plan.old.geometry ≡ metadata.now.geometry }
    requires volume { IsOfVolume metadata.now }
    requires directory { IsTrue (is_directory_at metadata.now.geometry (frozen_view metadata.now) new.now.directory) }
    requires parent { (links : ℕ) × (new.now.parent ≡ with_links ((frozen_view metadata.now).inode new.now.directory) links) }
    requires number { IsTrue (is_number metadata.now.geometry new.now.number) }
    requires name { length new.now.name.now ≤ 56 }
    requires place { IsPlace metadata.now.geometry (frozen_view metadata.now) new.now.directory new.now.place }
    requires room { IsFalse (is_full metadata.now.geometry (frozen_view metadata.now) new.now.directory) }
    ensures { OnOk result ((view : View) → Shows metadata.now view
        → EntersAt metadata.now.geometry view new.now.directory new.now.parent new.now.number new.now.name.now new.now.place plan.old plan.new) }
{
    // What is kept is all metadata.
    metadata.frozen(); // for the proof: its clause `metadata`
    enter_at(alloc, metadata, plan, new)
}

/// The same, where the directory claims the tables that it has.
pub fn enter_at(
    alloc: Global,
    metadata: &Metadata,
    plan: &mut Plan,
    new: &NewEntry,
) -> Result<(), AllocError>
    requires geometry { plan.old.geometry ≡ metadata.now.geometry }
    requires pointers { HasPointers metadata.now new.now.directory }
    requires directory { IsTrue (is_directory_at metadata.now.geometry (frozen_view metadata.now) new.now.directory) }
    requires parent { (links : ℕ) × (new.now.parent ≡ with_links ((frozen_view metadata.now).inode new.now.directory) links) }
    requires number { IsTrue (is_number metadata.now.geometry new.now.number) }
    requires name { length new.now.name.now ≤ 56 }
    requires place { IsPlace metadata.now.geometry (frozen_view metadata.now) new.now.directory new.now.place }
    requires room { IsFalse (is_full metadata.now.geometry (frozen_view metadata.now) new.now.directory) }
    ensures { OnOk result ((view : View) → Shows metadata.now view
        → EntersAt metadata.now.geometry view new.now.directory new.now.parent new.now.number new.now.name.now new.now.place plan.old plan.new) }
{
    let mut after = smallvec![in alloc; Cell::Record(new.number)]?;
    add_blocks(metadata, new.directory, &mut after)?;
    let entry = entry(new.number, new.name);
    match new.place {
        Place::Slot { slot, block } => {
            let bytes = bytes_of(metadata, new.directory, slot / SLOTS as u32, block);
            let slot = Slot {
                index: slot,
                block,
                bytes,
            };
            put_slot(alloc, plan, &slot, &entry, after)
        }
        Place::NewBlock { block, tables } => {
            let index = SLOTS as u32 * new.parent.blocks();
            grow(alloc, metadata, plan, new, block, tables)?;
            let slot = Slot {
                index,
                block,
                bytes: &[0; BLOCK_BYTES],
            };
            put_slot(alloc, plan, &slot, &entry, after)
        }
    }
}
