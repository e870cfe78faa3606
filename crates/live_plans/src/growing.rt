ghost use Rattle.std.specs.Prelude.{◌≡◌, ℕ, IsFalse, IsTrue, OnOk};
ghost use Rattle.std.specs.Arc.{arc_value};
ghost use Rattle.frozen.specs.Kept.{frozen_view};
ghost use Rattle.model.specs.Layout.{is_data_address};
ghost use Rattle.model.specs.Uses.{is_directory_at};
ghost use Rattle.model.specs.View.{View};
ghost use Rattle.machine.specs.Effects.{with_links};
ghost use Rattle.machine.specs.Room.{is_full};
ghost use Rattle.metadata.specs.Shown.{Shows};
ghost use Rattle.plans_data.specs.Append.{filled};
ghost use Rattle.live_places.specs.Chosen.{IsNewBlock};
ghost use Rattle.live_states.specs.Drafts.{GoesOn};
ghost use Rattle.live_plans.specs.Grown.{Grows};
ghost use Rattle.live_plans.specs.Linked.{HasPointers};

use crate::{NewBlock, NewEntry, Plan, link};
use layout::{BLOCK_BYTES, Block};
use live_places::Tables;
use metadata::Metadata;
use smallvec::smallvec;
use spares::Spares;
use std::alloc::{AllocError, Global};
use std::sync::Arc;
use updates::{Cell, Cells, Change};

/// Adds the updates by which the directory of a new entry gets a block of zeroes: the block, the pointer to it, and the
/// record.
pub(crate) fn grow(
    alloc: Global,
    metadata: &Metadata,
    plan: &mut Plan,
    new: &NewEntry,
    block: u32,
    tables: Tables,
) -> Result<(), AllocError>
    requires geometry { plan.old.geometry ≡ metadata.now.geometry }
    requires pointers { HasPointers metadata.now new.now.directory }
    requires directory { IsTrue (is_directory_at metadata.now.geometry (frozen_view metadata.now) new.now.directory) }
    requires parent { (links : ℕ) × (new.now.parent ≡ with_links ((frozen_view metadata.now).inode new.now.directory) links) }
    requires place { IsNewBlock metadata.now.geometry (frozen_view metadata.now) new.now.directory block tables }
    requires room { IsFalse (is_full metadata.now.geometry (frozen_view metadata.now) new.now.directory) }
    ensures geometry { OnOk result (plan.new.geometry ≡ plan.old.geometry) }
    ensures grows { OnOk result ((view : View) → Shows metadata.now view
        → Grows metadata.now.geometry view new.now.directory new.now.parent block tables plan.old plan.new) }
{
    // What is kept is all metadata.
    metadata.frozen(); // for the proof: its clause `metadata`
    let zeroes = Arc::new(alloc, [0; BLOCK_BYTES])?;
    fill(alloc, plan, block, zeroes)?;
    let parent = &new.parent;
    let size = parent.size + BLOCK_BYTES as u32;
    let mut spares = Spares::none(alloc);
    let new_block = NewBlock {
        number: new.directory,
        owner: new.parent,
        position: parent.blocks(),
        block,
        tables,
    };
    let linked = link(alloc, metadata, plan, &mut spares, &new_block)?;
    let mut grown = linked.record;
    grown.size = size;
    plan.set_record(alloc, new.directory, grown, linked.after)
}

/// Adds the updates that mark a block and then fill it.
pub fn fill(alloc: Global, plan: &mut Plan, block: u32, bytes: Arc<Block>) -> Result<(), AllocError>
    requires { IsTrue (is_data_address plan.old.geometry block) }
    ensures { OnOk result (GoesOn plan.old plan.new (filled block (arc_value bytes))) }
{
    plan.push(Change::SetBlock(block, true), Cells::new(alloc))?;
    let after = smallvec![in alloc; Cell::BlockBit(block)]?;
    plan.push(Change::SetBytes(block, bytes), after)
}
