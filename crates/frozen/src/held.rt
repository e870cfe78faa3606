ghost use Rattle.std.specs.Prelude.{◌≡◌, ℕ, ◌<◌, IfOk, IsTrue, Some, OnOk, OnErr, slice_set, map};
ghost use Rattle.std.specs.Arc.{arc_value};
ghost use Rattle.std.specs.Bool.{then_some};
ghost use Rattle.std.specs.Option.{option_copied};
ghost use Rattle.frozen.specs.Kept.{KeepsFrame, frozen_view, kept_at, kept_bytes, is_frame};
ghost use Rattle.model.specs.Layout.{inode_count, group_block, inode_block, is_data_address, is_number};
ghost use Rattle.model.specs.Shape.{pointer_in, table_of};
ghost use Rattle.model.specs.Uses.{blocks_of, record_use, use_at, claim_at, has_position, is_sound, is_sound_at, is_directory_at};
ghost use Rattle.model.specs.View.{free_inode, inode_at};
ghost use Rattle.inode.specs.Parts.{without_attributes};
ghost use Rattle.model.specs.Image.{IsGroupBlock};
ghost use Rattle.frozen.specs.Kinds.{IsKind};
ghost use Rattle.frozen.specs.Installed.{FitsIn, standing, with_block, with_blocks, without_block};
ghost use Rattle.std.specs.List.{All};

use crate::Placed;
use crate::kinds::Kind;
use inode::{
    DIRECT_POINTERS, DIRECTORY, FREE, RECORD_BYTES, Record, a_record_is_read_from_its_bytes,
    mode_of,
};
use layout::{Block, Geometry, INODES_PER_BLOCK, ROOT, TablePlace, u32_at};
use spares::Spares;
use std::alloc::{AllocError, Global};
use std::marker::Model;
use std::mem;
use std::sync::Arc;

/// Blocks of an image by address, shared: those that each volume has, and those data blocks that were kept so far.
#[derive(Drop)]
pub struct Held {
    geometry: Geometry,
    blocks: Vec<Option<Arc<Block>>>,
}

impl Model for Held {
    ghost use Rattle.frozen.specs.Kept.{Kept, KeepsFrame};
    ghost use Rattle.frozen.specs.Shared.{shared_blocks};

    ghost Value = { Kept };

    ghost view = { λ held. record { geometry = held.geometry; blocks = shared_blocks held.blocks.items } };

    ghost invariant = { λ held. KeepsFrame (record { geometry = held.geometry; blocks = shared_blocks held.blocks.items }) };
}

impl Held {
    ghost use Rattle.frozen.specs.Shared.{shared_blocks};

    /// These blocks of a volume of this geometry.
    pub fn new(geometry: Geometry, blocks: Vec<Option<Arc<Block>>>) -> Held
        requires { KeepsFrame (record { geometry = geometry; blocks = shared_blocks blocks.items }) }
        ensures { result ≡ record { geometry = geometry; blocks = shared_blocks blocks.items } }
    {
        Held { geometry, blocks }
    }

    /// A copy, which shares the blocks. Takes memory for their table.
    pub(crate) fn copy(&self, alloc: Global) -> Result<Held, AllocError>
        ensures { IfOk result (λ copy. copy ≡ self.now) }
    {
        Ok(Held {
            geometry: self.geometry,
            blocks: self.blocks.as_slice().to_vec(alloc)?,
        })
    }

    /// Its geometry.
    pub fn geometry(&self) -> Geometry
        ensures geometry { result ≡ self.now.geometry }
        ensures frame { KeepsFrame self.now }
    {
        self.geometry
    }

    /// The block of this address, or `None` where it does not hold it.
    pub(crate) fn block(&self, address: u32) -> Option<&Block>
        ensures block { option_copied result ≡ kept_at self.now.blocks address }
        ensures frame { KeepsFrame self.now }
    {
        match self.blocks.get(address as usize) {
            Some(Some(block)) => Some(block),
            _ => None,
        }
    }

    /// The block of maps of a group.
    pub(crate) fn maps_of(&self, group: u32) -> &Block
        requires { group < self.now.geometry.groups }
        ensures maps { result.now ≡ kept_bytes self.now.blocks (group_block self.now.geometry group) }
        ensures is_maps { IsGroupBlock group result.now }
    {
        self.frame_block(self.geometry().group_block(group))
    }

    /// The block that holds the record of an inode.
    pub(crate) fn records_of(&self, number: u32) -> &Block
        requires { number < inode_count self.now.geometry }
        ensures { result.now ≡ kept_bytes self.now.blocks (inode_block self.now.geometry number) }
    {
        self.frame_block(self.geometry().inode_place(number).address)
    }

    /// The record of an inode. Numbers 0 and 1 are not looked at.
    pub(crate) fn record(&self, number: u32) -> Record
        requires { IsTrue (is_number self.now.geometry number) }
        ensures { result ≡ (frozen_view self.now).inode number }
    {
        Record::read(self.geometry().version(), self.record_bytes(number))
    }

    /// The record of an inode but for its attributes, which are 0.
    pub(crate) fn without_attributes(&self, number: u32) -> Record
        requires { IsTrue (is_number self.now.geometry number) }
        ensures { result ≡ without_attributes ((frozen_view self.now).inode number) }
    {
        Record::read_without_attributes(self.geometry().version(), self.record_bytes(number))
    }

    /// The record of an inode with its pointers at 0, of which nothing is read.
    fn head(&self, number: u32) -> Record
        requires { IsTrue (is_number self.now.geometry number) }
        ensures { let inode = (frozen_view self.now).inode number in
            result ≡ record free_inode { mode = inode.mode; links = inode.links; size = inode.size } }
    {
        Record::read_head(self.record_bytes(number))
    }

    /// How many blocks the size of an inode takes: of its record the pointers are not read.
    pub(crate) fn blocks(&self, number: u32) -> u32
        requires { IsTrue (is_number self.now.geometry number) }
        ensures { result ≡ blocks_of ((frozen_view self.now).inode number).size }
    {
        self.head(number).blocks()
    }

    /// How many links an inode has: of its record the pointers are not read.
    pub(crate) fn links(&self, number: u32) -> u16
        requires { IsTrue (is_number self.now.geometry number) }
        ensures { result ≡ ((frozen_view self.now).inode number).links }
    {
        self.head(number).links
    }

    /// The mode of an inode, of whose record nothing else is read.
    pub(crate) fn mode(&self, number: u32) -> u16
        requires { IsTrue (is_number self.now.geometry number) }
        ensures { result ≡ ((frozen_view self.now).inode number).mode }
    {
        mode_of(self.record_bytes(number))
    }

    /// The bytes of the record of an inode.
    fn record_bytes(&self, number: u32) -> &[u8; RECORD_BYTES]
        requires { IsTrue (is_number self.now.geometry number) }
        ensures { inode_at self.now.geometry.version result.now 0 ≡ (frozen_view self.now).inode number }
    {
        a_record_is_read_from_its_bytes();
        let (records, _) = self.records_of(number).as_chunks::<RECORD_BYTES>();
        &records[(number % INODES_PER_BLOCK) as usize]
    }

    /// Whether the number is that of a sound inode.
    pub(crate) fn is_sound_at(&self, number: u32) -> bool
        ensures { result ≡ is_sound_at self.now.geometry (frozen_view self.now) number }
    {
        self.is_number(number)
            && self.mode(number) != FREE
            && self.head(number).is_sound(&self.geometry())
    }

    /// Whether the number is that of a sound directory.
    pub(crate) fn is_directory_at(&self, number: u32) -> bool
        ensures { result ≡ is_directory_at self.now.geometry (frozen_view self.now) number }
    {
        if !self.is_number(number) || self.mode(number) != DIRECTORY {
            return false;
        }
        self.head(number).is_sound(&self.geometry())
    }

    /// What its record tells of an inode number, by one look at it.
    pub fn kind(&self, number: u32) -> Kind
        ensures { IsKind self.now.geometry (frozen_view self.now) number result }
    {
        if !self.is_number(number) {
            return Kind {
                is_sound: false,
                has_tables: false,
                is_directory: false,
            };
        }
        let head = self.head(number);
        if !head.is_sound(&self.geometry()) {
            return Kind {
                is_sound: false,
                has_tables: false,
                is_directory: false,
            };
        }
        Kind {
            is_sound: true,
            has_tables: head.blocks() > DIRECT_POINTERS as u32,
            is_directory: head.is_directory(),
        }
    }

    /// The value that an inode uses at a position: a pointer of its record's, or one of a table's that it claims. `None`
    /// where the inode is not sound or does not use the position.
    pub(crate) fn use_at(&self, inode: u32, position: u32) -> Option<u32>
        ensures { result ≡ use_at self.now.geometry (frozen_view self.now) inode position }
    {
        if !self.is_number(inode) {
            return None;
        }
        if self.mode(inode) == FREE {
            return None;
        }
        self.use_of(&self.without_attributes(inode), position)
    }

    /// The value that a record uses at a position, as `use_at` has it.
    pub(crate) fn use_of(&self, inode: &Record, position: u32) -> Option<u32>
        ensures { result ≡ record_use self.now.geometry (frozen_view self.now) inode.now position }
    {
        let geometry = self.geometry();
        if !inode.is_sound(&geometry) || !geometry.reaches(inode.blocks(), position) {
            return None;
        }
        match geometry.pointer_place(position) {
            Some(TablePlace { table, place }) => self.pointer(self.table_use(inode, table)?, place),
            None => Some(inode.field(&geometry, position)),
        }
    }

    /// The block that an inode claims at a position: the value that it uses there, if that is the address of a data
    /// block.
    pub(crate) fn claim_at(&self, inode: u32, position: u32) -> Option<u32>
        ensures { result ≡ claim_at self.now.geometry (frozen_view self.now) inode position }
    {
        match self.use_at(inode, position) {
            Some(address) if self.geometry().place_of(address).is_some() => Some(address),
            _ => None,
        }
    }

    /// Keeps one more data block.
    pub(crate) fn keep(
        &mut self,
        alloc: Global,
        address: u32,
        block: &Block,
    ) -> Result<(), AllocError>
        requires { IsTrue (is_data_address self.old.geometry address) }
        ensures ok { OnOk result (self.new ≡ record self.old { blocks = slice_set self.old.blocks address (Some block.now) }) }
        ensures frame { OnOk result (KeepsFrame self.new) }
        ensures error { OnErr result (self.new ≡ self.old) }
    {
        let shared = Arc::new(alloc, *block)?;
        self.blocks[address as usize] = Some(shared);
        Ok(())
    }

    /// Puts these blocks in the places of those of their addresses, which are spare then, or keeps them as more, the first
    /// first.
    pub(crate) fn install(&mut self, blocks: Vec<Placed>, spares: &mut Spares)
        requires { All (FitsIn self.old.geometry) blocks.items }
        ensures { self.new ≡ with_blocks self.old (map standing blocks.items) }
    {
        for placed in blocks {
            self.put(placed, spares);
        }
    }

    /// Puts a block in the place of the one of its address, which is spare then, or keeps it as one more.
    fn put(&mut self, placed: Placed, spares: &mut Spares)
        requires { FitsIn self.old.geometry placed }
        ensures put { self.new ≡ with_block self.old placed.address (arc_value placed.block) }
        ensures frame { KeepsFrame self.new }
    {
        let place = &mut self.blocks[placed.address as usize];
        if let Some(block) = mem::replace(place, Some(placed.block)) {
            spares.add(block);
        }
    }

    /// Lets go of the block of this address, which is one of data, if it is kept.
    pub(crate) fn let_go(&mut self, address: u32)
        requires { IsTrue (is_data_address self.old.geometry address) }
        ensures { self.new ≡ without_block self.old address }
    {
        self.blocks[address as usize] = None;
    }

    /// Whether the number is that of an inode that is looked at.
    fn is_number(&self, number: u32) -> bool
        ensures { result ≡ is_number self.now.geometry number }
    {
        ROOT <= number && number < self.geometry().inodes()
    }

    /// The value that a sound record uses at the position of a table that it has.
    fn table_use(&self, inode: &Record, table: u32) -> Option<u32>
        requires sound { IsTrue (is_sound self.now.geometry inode.now) }
        requires has { IsTrue (has_position self.now.geometry inode.now table) }
        requires holds { (k : ℕ) × (table_of self.now.geometry k ≡ Some table) }
        ensures { result ≡ record_use self.now.geometry (frozen_view self.now) inode.now table }
    {
        let geometry = self.geometry();
        match geometry.pointer_place(table) {
            Some(above) => self.pointer(inode.field(&geometry, above.table), above.place),
            None => Some(inode.field(&geometry, table)),
        }
    }

    /// The pointer at a place of the table that stands in a block, and 0 where the block is not held. `None` where this is
    /// no data block: nothing is used below a pointer to such a one.
    fn pointer(&self, block: u32, place: usize) -> Option<u32>
        requires { place < 256 }
        ensures { result ≡ then_some (is_data_address self.now.geometry block) (pointer_in ((frozen_view self.now).bytes block) place) }
    {
        self.geometry().place_of(block)?;
        match self.block(block) {
            Some(table) => Some(u32_at(table, 4 * place)),
            None => Some(0),
        }
    }

    /// A block that each volume has: its superblock, a group's block of maps or a block of inodes.
    fn frame_block(&self, address: u32) -> &Block
        requires { IsTrue (is_frame self.now.geometry address) }
        ensures { result.now ≡ kept_bytes self.now.blocks address }
    {
        match self.block(address) {
            Some(block) => block,
            None => unreachable!(),
        }
    }
}
