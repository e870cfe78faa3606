ghost use Rattle.std.specs.Prelude.{◌≡◌, ◌∷◌, ◌++◌, ◌<◌, ◌≤◌, [], IfOk, IsTrue, OnOk, map};
ghost use Rattle.std.specs.List.{All};
ghost use Rattle.frozen.specs.Kept.{frozen_view};
ghost use Rattle.metadata.specs.Shown.{Shows};
ghost use Rattle.model.specs.Layout.{is_data_address, is_number};
ghost use Rattle.model.specs.View.{View};
ghost use Rattle.ordering.specs.Cuts.{Block as BlockCell, Record as RecordCell};
ghost use Rattle.plans_data.specs.Freeing.{cleared, freeing};
ghost use Rattle.plans_naming.specs.Unlink.{lowered};
ghost use Rattle.updates.specs.Places.{IsCell};
ghost use Rattle.updates.specs.Values.{cell};
ghost use Rattle.live_states.specs.Drafts.{GoesOn};
ghost use Rattle.live_states.specs.Holdings.{is_kept_by};
ghost use Rattle.live_removals.specs.Blocks.{claimed_at, freed, held_back, is_loose};
ghost use Rattle.live_removals.specs.Links.{LosesLinks};

use frozen::Frozen;
use inode::{ATTRIBUTES, DIRECT_POINTERS, FREE, Record};
use live_holdings::Holdings;
use live_plans::Plan;
use metadata::Metadata;
use std::alloc::{AllocError, Global};
use updates::{Cell, Cells, Change};

/// Adds the updates by which a number loses this many links, after the last update of a block: where it has more, its
/// record with so many less; else those that free it with its blocks. Gives the blocks that are held then.
pub(crate) fn lose_links(
    alloc: Global,
    metadata: &Metadata,
    holdings: &Holdings,
    plan: &mut Plan,
    number: u32,
    fewer: u16,
    block: u32,
) -> Result<Vec<u32>, AllocError>
    requires geometry { plan.old.geometry ≡ metadata.now.geometry }
    requires number { IsTrue (is_number metadata.now.geometry number) }
    requires block { IsTrue (is_data_address metadata.now.geometry block) }
    ensures { IfOk result (λ holds. (view : View) → Shows metadata.now view
        → LosesLinks metadata.now.geometry view holdings.now number fewer block plan.old plan.new holds.items) }
{
    let record = metadata.frozen().record(number);
    if record.links > fewer {
        lower(alloc, metadata, plan, number, fewer, block)?;
        Ok(Vec::new(alloc))
    } else {
        let mut after = Cells::new(alloc);
        after.push(Cell::Block(block))?;
        free(alloc, metadata.frozen(), holdings, plan, number, after)
    }
}

/// Adds the update by which a record has this many links less, after the last update of a block.
pub(crate) fn lower(
    alloc: Global,
    metadata: &Metadata,
    plan: &mut Plan,
    number: u32,
    fewer: u16,
    block: u32,
) -> Result<(), AllocError>
    requires geometry { plan.old.geometry ≡ metadata.now.geometry }
    requires number { IsTrue (is_number metadata.now.geometry number) }
    requires block { IsTrue (is_data_address metadata.now.geometry block) }
    requires enough { fewer ≤ ((frozen_view metadata.now).inode number).links }
    ensures { OnOk result (GoesOn plan.old plan.new (lowered number ((frozen_view metadata.now).inode number) fewer block)) }
{
    let mut record = metadata.frozen().record(number);
    record.links -= fewer;
    let mut after = Cells::new(alloc);
    after.push(Cell::Block(block))?;
    plan.set_record(alloc, number, record, after)
}

/// Adds the updates that free a number, after the last updates of these cells, and then its bit and all blocks that it
/// claims. Gives those that a snapshot keeps: they are held.
pub fn free(
    alloc: Global,
    frozen: &Frozen,
    holdings: &Holdings,
    plan: &mut Plan,
    number: u32,
    after: Cells,
) -> Result<Vec<u32>, AllocError>
    requires geometry { plan.old.geometry ≡ frozen.now.geometry }
    requires number { IsTrue (is_number frozen.now.geometry number) }
    requires after { All (IsCell plan.old.geometry) (map cell after.items) }
    ensures plan { OnOk result (GoesOn plan.old plan.new (freeing number (freed frozen.now.geometry (frozen_view frozen.now) holdings.now number 0) (map cell after.items))) }
    ensures holds { IfOk result (λ holds. holds.items ≡ held_back frozen.now.geometry (frozen_view frozen.now) holdings.now number 0) }
{
    let free = Record {
        mode: FREE,
        links: 0,
        size: 0,
        direct: [0; DIRECT_POINTERS],
        indirect: 0,
        double: 0,
        attributes: [0; ATTRIBUTES],
    };
    plan.set_record(alloc, number, free, after)?;
    plan.push(
        Change::SetNumber(number, false),
        after_record(alloc, number)?,
    )?;
    give_up(alloc, frozen, holdings, plan, number, 0)
}

/// Adds the updates that clear the bits of the blocks that a number claims and no longer has where so many are left, each
/// after the last update of its record. Gives those that a snapshot keeps: they are held, and their bits stay.
pub(crate) fn give_up(
    alloc: Global,
    frozen: &Frozen,
    holdings: &Holdings,
    plan: &mut Plan,
    number: u32,
    left: u32,
) -> Result<Vec<u32>, AllocError>
    requires geometry { plan.old.geometry ≡ frozen.now.geometry }
    requires number { IsTrue (is_number frozen.now.geometry number) }
    ensures plan { OnOk result (GoesOn plan.old plan.new (cleared number (freed frozen.now.geometry (frozen_view frozen.now) holdings.now number left))) }
    ensures holds { IfOk result (λ holds. holds.items ≡ held_back frozen.now.geometry (frozen_view frozen.now) holdings.now number left) }
{
    let mut holds = Vec::new(alloc);
    let geometry = frozen.geometry();
    let end = frozen.blocks(number).min(geometry.most_blocks());
    let start = left.min(end);
    for position in start..end {
        give_up_at(alloc, frozen, holdings, plan, &mut holds, number, position)?;
    }
    let first = geometry.tables_end(start);
    let last = geometry.tables_end(end);
    for table in first..last {
        give_up_at(alloc, frozen, holdings, plan, &mut holds, number, table)?;
    }
    Ok(holds)
}

/// Adds the update that clears the bit of the block that a number claims at a position, after the last update of its
/// record; or adds the block to these, where a snapshot keeps it.
fn give_up_at(
    alloc: Global,
    frozen: &Frozen,
    holdings: &Holdings,
    plan: &mut Plan,
    holds: &mut Vec<u32>,
    number: u32,
    position: u32,
) -> Result<(), AllocError>
    requires geometry { plan.old.geometry ≡ frozen.now.geometry }
    requires number { IsTrue (is_number frozen.now.geometry number) }
    ensures plan { OnOk result (GoesOn plan.old plan.new (cleared number (claimed_at (is_loose holdings.now) frozen.now.geometry (frozen_view frozen.now) number position))) }
    ensures holds { OnOk result (holds.new.items ≡ holds.old.items ++ claimed_at (is_kept_by holdings.now) frozen.now.geometry (frozen_view frozen.now) number position) }
{
    if let Some(block) = frozen.claim_at(number, position) {
        if holdings.keeps(block) {
            holds.push(block)?;
        } else {
            plan.push(Change::SetBlock(block, false), after_record(alloc, number)?)?;
        }
    }
    Ok(())
}

/// A list of one cell, the record of a number.
fn after_record(alloc: Global, number: u32) -> Result<Cells, AllocError>
    ensures { IfOk result (λ cells. map cell cells.items ≡ RecordCell number ∷ []) }
{
    let mut cells = Cells::new(alloc);
    cells.push(Cell::Record(number))?;
    Ok(cells)
}
