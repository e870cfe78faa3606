ghost use Rattle.std.specs.Prelude.{◌≡◌, ◌<◌, ◌∷◌, ◌++◌, [], ℕ, Some, None, IfOk, IfSome, IsTrue, OnOk, map, option_to_list, replicate, true};
ghost use Rattle.std.specs.Arc.{arc_value};
ghost use Rattle.std.specs.List.{All};
ghost use Rattle.frozen.specs.Kept.{KeepsMetadata, frozen_view};
ghost use Rattle.model.specs.Cells.{SetBlock, SetBytes};
ghost use Rattle.model.specs.Layout.{is_data_address, is_number};
ghost use Rattle.model.specs.Shape.{above, is_table, position_count, table_of};
ghost use Rattle.model.specs.Uses.{IsClaim};
ghost use Rattle.machine.specs.Cells.{block_of, with_pointer};
ghost use Rattle.ordering.specs.Cuts.{Block as BlockCell, BlockBit, Record as RecordCell};
ghost use Rattle.plans_data.specs.Append.{pointer_after};
ghost use Rattle.plans_data.specs.Plans.{holder_of};
ghost use Rattle.updates.specs.Places.{IsCell};
ghost use Rattle.updates.specs.Values.{cell};
ghost use Rattle.live_states.specs.Drafts.{GoesOn};
ghost use Rattle.live_plans.specs.Linked.{CanLink, HasTable, IsLinked};

use crate::Plan;
use crate::entries::claim_of;
use frozen::Frozen;
use inode::Record;
use layout::{BLOCK_BYTES, Block, Geometry, u32_at};
use live_places::Tables;
use metadata::Metadata;
use smallvec::smallvec;
use spares::Spares;
use std::alloc::{AllocError, Global};
use std::sync::Arc;
use updates::{Cell, Cells, Change};

/// How many bytes a pointer has.
const POINTER_BYTES: usize = 4;

/// A block that an inode is to get.
#[derive(Clone, Copy, Debug)]
pub struct NewBlock {
    /// The inode.
    pub number: u32,
    /// Its record, as the updates before leave it.
    pub owner: Record,
    /// The position of the block in it.
    pub position: u32,
    /// The address of the block.
    pub block: u32,
    /// The new tables that come with it.
    pub tables: Tables,
}

/// A table of pointers that an inode has.
#[derive(Clone, Copy)]
struct PointerTable<'a> {
    /// The inode.
    number: u32,
    /// The address of the table.
    address: u32,
    /// The pointers in it.
    pointers: &'a Block,
    /// The address of the table over it, where there is one.
    over: Option<u32>,
}

/// The record of an inode once one of its positions points to a new block, and the cells that it comes after.
#[derive(Drop)]
pub struct Linked {
    pub record: Record,
    pub after: Cells,
}

/// Adds the updates by which an inode points to a new block. The pointer goes into the record, into a table that is there,
/// or, where new ones are given, into the nearest of them, to which the inode then points likewise. Spare blocks serve for
/// the copy of a table, where there are some.
pub fn link(
    alloc: Global,
    metadata: &Metadata,
    plan: &mut Plan,
    spares: &mut Spares,
    new: &NewBlock,
) -> Result<Linked, AllocError>
    requires geometry { plan.old.geometry ≡ metadata.now.geometry }
    requires number { IsTrue (is_number metadata.now.geometry new.now.number) }
    requires position { new.now.position < position_count metadata.now.geometry }
    requires block { IsTrue (is_data_address metadata.now.geometry new.now.block) }
    requires tables { CanLink metadata.now new.now.number new.now.position new.now.tables }
    ensures geometry { OnOk result (plan.new.geometry ≡ plan.old.geometry) }
    ensures links { IfOk result (λ linked. IsLinked metadata.now.geometry new.now.number new.now.owner new.now.position new.now.block
        (holder_of metadata.now.geometry (frozen_view metadata.now) new.now.number new.now.position new.now.block new.now.tables)
        plan.old plan.new linked.record (map cell linked.after.items)) }
{
    let Some(table) = new.tables.first() else {
        return link_there(alloc, metadata.frozen(), plan, spares, new);
    };
    let Some(place) = metadata.frozen().geometry().pointer_place(new.position) else {
        unreachable!()
    };
    start_table(alloc, plan, spares, new.block, table)?;
    let over = NewBlock {
        position: place.table,
        block: table,
        tables: new.tables.rest(),
        ..*new
    };
    let mut linked = link(alloc, metadata, plan, spares, &over)?;
    linked.after.push(Cell::Block(new.block))?;
    Ok(linked)
}

/// The same, where the table that holds the pointer is there.
fn link_there(
    alloc: Global,
    frozen: &Frozen,
    plan: &mut Plan,
    spares: &mut Spares,
    new: &NewBlock,
) -> Result<Linked, AllocError>
    requires metadata { KeepsMetadata frozen.now }
    requires geometry { plan.old.geometry ≡ frozen.now.geometry }
    requires number { IsTrue (is_number frozen.now.geometry new.now.number) }
    requires position { new.now.position < position_count frozen.now.geometry }
    requires block { IsTrue (is_data_address frozen.now.geometry new.now.block) }
    requires tables { CanLink frozen.now new.now.number new.now.position [] }
    ensures geometry { OnOk result (plan.new.geometry ≡ plan.old.geometry) }
    ensures links { IfOk result (λ linked. IsLinked frozen.now.geometry new.now.number new.now.owner new.now.position new.now.block
        (holder_of frozen.now.geometry (frozen_view frozen.now) new.now.number new.now.position new.now.block [])
        plan.old plan.new linked.record (map cell linked.after.items)) }
{
    let geometry = frozen.geometry();
    let Some(place) = geometry.pointer_place(new.position) else {
        let mut after = Cells::new(alloc);
        after.push(Cell::Block(new.block))?;
        let record = new.owner.with_field(&geometry, new.position, new.block);
        return Ok(Linked { record, after });
    };
    let inode = frozen.record(new.number);
    let Some(address) = claim_of(frozen, &inode, place.table) else {
        unreachable!()
    };
    let over = table_over(frozen, &inode, place.table);
    let table = PointerTable {
        number: new.number,
        address,
        pointers: pointers_of(frozen, new.number, place.table, address),
        over,
    };
    put_at(alloc, plan, spares, &table, place.place, new.block)?;
    let after = cells_of(alloc, over, address, new.block)?;
    Ok(Linked {
        record: new.owner,
        after,
    })
}

/// The pointers of a table of an inode.
fn pointers_of(frozen: &Frozen, number: u32, position: u32, block: u32) -> &Block
    requires metadata { KeepsMetadata frozen.now }
    requires table { IsTrue (is_table frozen.now.geometry position) }
    requires claim { IsClaim frozen.now.geometry (frozen_view frozen.now) number position block }
    ensures { result.now ≡ (frozen_view frozen.now).bytes block }
{
    match frozen.block(block) {
        Some(bytes) => bytes,
        None => unreachable!(),
    }
}

/// The table over a table of the inodes of this record, which claim it, where there is one.
fn table_over(frozen: &Frozen, inode: &Record, table: u32) -> Option<u32>
    requires inside { table < position_count frozen.now.geometry }
    requires table { (k : ℕ) × (table_of frozen.now.geometry k ≡ Some table) }
    ensures over { (i : ℕ) → HasTable frozen.now inode.now table i
        → option_to_list result ≡ map (block_of frozen.now.geometry (frozen_view frozen.now) i) (above frozen.now.geometry table) }
    ensures address { (i : ℕ) → HasTable frozen.now inode.now table i → IfSome result (λ a. IsTrue (is_data_address frozen.now.geometry a)) }
{
    let place = frozen.geometry().pointer_place(table)?;
    claim_of(frozen, inode, place.table)
}

/// Adds the update that puts the pointer to a new block into a table, at this place among the pointers.
fn put_at(
    alloc: Global,
    plan: &mut Plan,
    spares: &mut Spares,
    table: &PointerTable,
    place: usize,
    block: u32,
) -> Result<(), AllocError>
    requires place { place < 256 }
    requires number { IsTrue (is_number plan.old.geometry table.now.number) }
    requires block { IsTrue (is_data_address plan.old.geometry block) }
    requires table { IsTrue (is_data_address plan.old.geometry table.now.address) }
    requires over { IfSome table.now.over (λ a. IsTrue (is_data_address plan.old.geometry a)) }
    ensures { OnOk result (GoesOn plan.old plan.new (λ q. record {
      change = SetBytes table.now.address (with_pointer table.now.pointers.now place block);
      after = pointer_after table.now.number place block table.now.pointers.now (option_to_list table.now.over);
    } ∷ q)) }
{
    let mut copy = spares.share(alloc, table.pointers)?;
    let after = pointer_after(
        alloc,
        table.number,
        place,
        block,
        table.pointers,
        table.over,
    )?;
    put_into(&mut copy, place, block)?;
    plan.push(Change::SetBytes(table.address, copy), after)
}

/// What a pointer to a block comes after that is put into this place of a table of an inode: the block, and where another
/// pointer stood there the inode's record and the table over it too, since an older record may have it in use.
pub fn pointer_after(
    alloc: Global,
    number: u32,
    place: usize,
    block: u32,
    pointers: &Block,
    over: Option<u32>,
) -> Result<Cells, AllocError>
    requires { place < 256 }
    ensures { IfOk result (λ after. map cell after.items ≡ pointer_after number place block pointers.now (option_to_list over)) }
{
    if u32_at(pointers, POINTER_BYTES * place) == 0 {
        return Ok(smallvec![in alloc; Cell::Block(block)]?);
    }
    match over {
        None => Ok(smallvec![in alloc; Cell::Block(block), Cell::Record(number)]?),
        Some(over) => Ok(smallvec![in alloc;
            Cell::Block(block),
            Cell::Record(number),
            Cell::Block(over),
        ]?),
    }
}

/// The tables on the way and the block itself, which a record comes after.
fn cells_of(alloc: Global, over: Option<u32>, table: u32, block: u32) -> Result<Cells, AllocError>
    ensures { IfOk result (λ after. map cell after.items ≡ map BlockCell (option_to_list over) ++ BlockCell table ∷ BlockCell block ∷ []) }
{
    match over {
        None => Ok(smallvec![in alloc; Cell::Block(table), Cell::Block(block)]?),
        Some(over) => Ok(smallvec![in alloc;
            Cell::Block(over),
            Cell::Block(table),
            Cell::Block(block),
        ]?),
    }
}

/// Adds the updates that mark a new table of an inode, and put the pointer to a new block into it. A spare block serves for it,
/// where there is one.
fn start_table(
    alloc: Global,
    plan: &mut Plan,
    spares: &mut Spares,
    block: u32,
    table: u32,
) -> Result<(), AllocError>
    requires block { IsTrue (is_data_address plan.old.geometry block) }
    requires table { IsTrue (is_data_address plan.old.geometry table) }
    ensures { OnOk result (GoesOn plan.old plan.new (λ q. record {
      change = SetBytes table (with_pointer (replicate 1024 0) 0 block);
      after = BlockBit table ∷ BlockCell block ∷ [];
    }
        ∷ record { change = SetBlock table true; after = [] } ∷ q)) }
{
    plan.push(Change::SetBlock(table, true), Cells::new(alloc))?;
    let mut pointers = [0; BLOCK_BYTES];
    put_pointer(&mut pointers, 0, block);
    let bytes = spares.share(alloc, &pointers)?;
    let after = smallvec![in alloc; Cell::BlockBit(table), Cell::Block(block)]?;
    plan.push(Change::SetBytes(table, bytes), after)
}

/// Puts a pointer into a shared table, at this place among the pointers. The block is copied first, if it has other
/// owners.
fn put_into(pointers: &mut Arc<Block>, place: usize, block: u32) -> Result<(), AllocError>
    requires { place < 256 }
    ensures { OnOk result (arc_value pointers.new ≡ with_pointer (arc_value pointers.old) place block) }
{
    let bytes = Arc::make_mut(pointers)?;
    put_pointer(bytes, place, block);
    Ok(())
}

/// Puts a pointer into a table, at this place among the pointers.
fn put_pointer(pointers: &mut Block, place: usize, block: u32)
    requires { place < 256 }
    ensures { pointers.new ≡ with_pointer pointers.old place block }
{
    let start = POINTER_BYTES * place;
    pointers[start..start + POINTER_BYTES].copy_from_slice(&block.to_le_bytes());
}
