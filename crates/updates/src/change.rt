ghost use Rattle.std.specs.Arc.{arc_value};
ghost use Rattle.std.specs.Prelude.{◌≡◌, ◌≢◌, ◌<◌, ◌*◌, ◌↔◌, ℕ, IfOk, IfSome, IsTrue, List, length, replicate, slice_index};
ghost use Rattle.model.specs.View.{Fits, IsSpare, free_inode, inode_at, view_of};
ghost use Rattle.model.specs.Image.{IsGroupBlock};
ghost use Rattle.model.specs.Layout.{Geometry as Numbers, IsGeometry, group_block};
ghost use Rattle.model.specs.Cells.{SetInode, put_at, updated};
ghost use Rattle.ordering.specs.Cuts.{cell_of};
ghost use Rattle.queue_model.specs.Blocks.{home_of};
ghost use Rattle.updates.specs.Values.{cell, change};
ghost use Rattle.updates.specs.Places.{FitsVolume, IsCell};
ghost use Rattle.updates.specs.Alone.{ChangesAlone, ChangesRecord, IsPutInto};

use crate::Cell;
use cgmaps::{Map, put_bit};
use inode::{ATTRIBUTES, DIRECT_POINTERS, FREE, RECORD_BYTES, Record};
use layout::{Block, Geometry, INODES_PER_BLOCK};
use smallvec::SmallVec;
use std::alloc::{AllocError, Global};
use std::sync::Arc;

/// A list of cells, which takes memory of its own only for more than three: an update that comes after more is one of a directory.
pub type Cells = SmallVec<Cell, 3>;

/// A freed record.
const FREED: Record = Record {
    mode: FREE,
    links: 0,
    size: 0,
    direct: [0; DIRECT_POINTERS],
    indirect: 0,
    double: 0,
    attributes: [0; ATTRIBUTES],
};

/// A cell and its new value.
#[derive(Debug, Drop)]
pub enum Change {
    /// The record of an inode, by its number. It stands in memory of its own, so that no other change is as large as a record.
    SetInode(u32, Box<Record>),
    /// Whether an inode number is marked.
    SetNumber(u32, bool),
    /// Whether a data block is marked, by its address.
    SetBlock(u32, bool),
    /// The bytes of a data block, by its address.
    SetBytes(u32, Arc<Block>),
}

/// A change, and what the order of writes asks of it.
#[derive(Debug, Drop)]
pub struct Update {
    /// What it writes.
    pub change: Change,
    /// The number of the file whose contents it writes, if it writes a file's.
    pub file: Option<u32>,
    /// The cells after whose last updates it has to reach the device.
    pub after: Cells,
}

impl Change {
    /// The record of an inode, by its number, as a change. Takes memory for it.
    pub fn of_record(alloc: Global, number: u32, inode: Record) -> Result<Change, AllocError>
        ensures { IfOk result (λ made. change made ≡ SetInode number inode) }
    {
        Ok(Change::SetInode(number, Box::new(alloc, inode)?))
    }

    /// The cell whose value it is.
    pub fn cell(&self) -> Cell
        ensures { cell result ≡ cell_of (change self.now) }
    {
        match self {
            Change::SetInode(number, _) => Cell::Record(*number),
            Change::SetNumber(number, _) => Cell::NumberBit(*number),
            Change::SetBlock(address, _) => Cell::BlockBit(*address),
            Change::SetBytes(address, _) => Cell::Block(*address),
        }
    }

    /// The bytes of the whole block in which the cell stands, where those are the new value.
    pub fn whole(&self) -> Option<&Arc<Block>>
        ensures { IfSome result (λ block. (geo : Numbers) → IsGeometry geo → IsCell geo (cell_of (change self.now)) → (old : List ℕ)
            → IsPutInto geo (change self.now) old (arc_value block.now)) }
    {
        match self {
            Change::SetBytes(_, bytes) => Some(bytes),
            _ => None,
        }
    }

    /// Puts the new value into the block in which the cell stands. Of a record that is freed all bytes become zero.
    pub fn put(&self, geometry: &Geometry, block: &mut Block)
        requires cell { IsCell geometry.now (cell_of (change self.now)) }
        requires fits { FitsVolume geometry.now (change self.now) }
        ensures view { (blocks : ℕ → List ℕ) → blocks (home_of geometry.now (cell_of (change self.now))) ≡ block.old
            → view_of geometry.now (put_at blocks (home_of geometry.now (cell_of (change self.now))) block.new) ≡ updated (view_of geometry.now blocks) (change self.now) }
        ensures alone { ChangesAlone geometry.now (change self.now) block.old block.new }
        ensures group_block { (g : ℕ) → home_of geometry.now (cell_of (change self.now)) ≡ group_block geometry.now g → IsGroupBlock g block.old
            → IsGroupBlock g block.new }
    {
        let inodes = geometry.inodes_a_group();
        match self {
            Change::SetInode(number, record) => {
                put_record(record, geometry, *number % INODES_PER_BLOCK, block)
            }
            Change::SetNumber(number, marked) => {
                put_bit(block, Map::Inodes, *number % inodes, *marked)
            }
            Change::SetBlock(address, marked) => match geometry.place_of(*address) {
                Some(place) => put_bit(block, Map::Blocks, place.bit, *marked),
                None => unreachable!(),
            },
            Change::SetBytes(_, bytes) => *block = **bytes,
        }
    }
}

/// Writes a record into its block of inodes, where it has this place among the records.
fn put_record(inode: &Record, geometry: &Geometry, place: u32, block: &mut Block)
    requires place { place < 8 }
    requires fits { Fits geometry.now.version inode.now }
    ensures written { inode_at geometry.now.version block.new (128 * place) ≡ inode.now }
    ensures others { (k : ℕ) → k ≢ place → inode_at geometry.now.version block.new (128 * k) ≡ inode_at geometry.now.version block.old (128 * k) }
    ensures alone { ChangesRecord geometry.now.version block.old block.new (128 * place) inode.now }
{
    let byte = place as usize * RECORD_BYTES;
    write_record(inode, geometry, &mut block[byte..byte + RECORD_BYTES]);
}

/// Writes a record over its bytes. No byte of a freed one stays, so that whoever is given the record next finds nothing
/// in it; of any other one those stay that stand for nothing in this version of the layout.
fn write_record(inode: &Record, geometry: &Geometry, bytes: &mut [u8])
    requires long { length bytes.old ≡ 128 }
    requires fits { Fits geometry.now.version inode.now }
    ensures read { inode_at geometry.now.version bytes.new 0 ≡ inode.now }
    ensures freed { inode.now ≡ free_inode → bytes.new ≡ replicate 128 0 }
    ensures kept { inode.now ≢ free_inode → (k : ℕ) → IsSpare geometry.now.version k → slice_index bytes.new k ≡ slice_index bytes.old k }
{
    let Some(record) = bytes.as_mut_array::<RECORD_BYTES>() else {
        unreachable!()
    };
    if is_freed(inode) {
        *record = [0; RECORD_BYTES];
    } else {
        inode.write(geometry.version(), record);
    }
}

/// Whether each field of a record is zero.
fn is_freed(inode: &Record) -> bool
    ensures { IsTrue result ↔ (inode.now ≡ free_inode) }
{
    inode.mode == FREE && *inode == FREED
}
