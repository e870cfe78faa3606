ghost use Rattle.std.specs.Prelude.{◌≡◌, ℕ, ◌/◌, ◌<◌, IfOk, IsTrue, map};
ghost use Rattle.std.specs.Option.{option_copied, option_map_or};
ghost use Rattle.frozen.specs.Kept.{KeepsFrame, KeepsMetadata, frozen_view, kept_at, kept_bytes};
ghost use Rattle.model.specs.Layout.{inode_count, group_block, inode_block, is_number};
ghost use Rattle.model.specs.Uses.{blocks_of, record_use, use_at, claim_at, is_sound_at, is_directory_at};
ghost use Rattle.model.specs.Slots.{Absent, slot, slot_in};
ghost use Rattle.inode.specs.Parts.{without_attributes};
ghost use Rattle.model.specs.Image.{IsGroupBlock};
ghost use Rattle.std.specs.List.{All};
ghost use Rattle.frozen.specs.Kinds.{AreKinds};
ghost use Rattle.frozen.specs.Installed.{FitsIn, IsPlain, standing, with_blocks, without_block};

use crate::Held;
use crate::kinds::Kind;
use inode::Record;
use layout::{Block, Geometry};
use spares::Spares;
use std::alloc::{AllocError, Global};
use std::marker::Model;
use std::sync::Arc;

/// The metadata of an image as it was at one moment: its superblock, its blocks of maps and of inodes, the blocks of
/// pointers that sound inodes claim, and the blocks that sound directories claim. None of them is missing.
///
/// Beside them stands what is known of the inode numbers from 0 on, so that a question for one takes no look at its record.
/// Once a block is put in or let go of, and in a copy, nothing is known, and records are looked at.
pub struct Frozen {
    held: Held,
    kinds: Vec<Kind>,
}

/// By hand, so that who drops it goes one step and not one for each field.
impl Drop for Frozen {
    fn drop(self) {
        let Frozen { held: _, kinds: _ } = self;
    }
}

/// A block, and the address at which it is to stand.
#[derive(Drop)]
pub struct Placed {
    pub address: u32,
    pub block: Arc<Block>,
}

impl Model for Frozen {
    ghost use Rattle.frozen.specs.Kept.{Kept, KeepsMetadata, frozen_view};
    ghost use Rattle.frozen.specs.Kinds.{AreKinds};

    ghost Value = { Kept };

    ghost view = { λ frozen. frozen.held };

    ghost invariant = { λ frozen. KeepsMetadata frozen.held × AreKinds frozen.held.geometry (frozen_view frozen.held) frozen.kinds.items };
}

impl Frozen {
    /// The frozen image of these blocks, of which none is missing, with what is known of its inode numbers.
    pub(crate) fn new(held: Held, kinds: Vec<Kind>) -> Frozen
        requires metadata { KeepsMetadata held }
        requires known { AreKinds held.geometry (frozen_view held) kinds.items }
        ensures { result ≡ held }
    {
        Frozen { held, kinds }
    }

    /// A copy, which shares the blocks. Takes memory for their table. A copy is made to be changed, so nothing is known of its
    /// inode numbers.
    pub fn copy(&self, alloc: Global) -> Result<Frozen, AllocError>
        ensures { IfOk result (λ copy. copy ≡ self.now) }
    {
        let held = self.held.copy(alloc)?;
        Ok(Frozen {
            held,
            kinds: Vec::new(alloc),
        })
    }

    /// Its geometry.
    pub fn geometry(&self) -> Geometry
        ensures geometry { result ≡ self.now.geometry }
        ensures frame { KeepsFrame self.now }
    {
        self.held.geometry()
    }

    /// The block of this address, or `None` where it does not hold it.
    pub fn block(&self, address: u32) -> Option<&Block>
        ensures block { option_copied result ≡ kept_at self.now.blocks address }
        ensures frame { KeepsFrame self.now }
    {
        self.held.block(address)
    }

    /// The block of maps of a group.
    pub fn maps_of(&self, group: u32) -> &Block
        requires { group < self.now.geometry.groups }
        ensures maps { result.now ≡ kept_bytes self.now.blocks (group_block self.now.geometry group) }
        ensures is_maps { IsGroupBlock group result.now }
    {
        self.held.maps_of(group)
    }

    /// The block that holds the record of an inode.
    pub fn records_of(&self, number: u32) -> &Block
        requires { number < inode_count self.now.geometry }
        ensures { result.now ≡ kept_bytes self.now.blocks (inode_block self.now.geometry number) }
    {
        self.held.records_of(number)
    }

    /// The record of an inode. Numbers 0 and 1 are not looked at.
    pub fn record(&self, number: u32) -> Record
        requires { IsTrue (is_number self.now.geometry number) }
        ensures { result ≡ (frozen_view self.now).inode number }
    {
        self.held.record(number)
    }

    /// The record of an inode but for its attributes, which are 0: they are not read. It uses the same blocks.
    pub fn without_attributes(&self, number: u32) -> Record
        requires { IsTrue (is_number self.now.geometry number) }
        ensures { result ≡ without_attributes ((frozen_view self.now).inode number) }
    {
        self.held.without_attributes(number)
    }

    /// The mode of an inode, of whose record nothing else is read.
    pub fn mode(&self, number: u32) -> u16
        requires { IsTrue (is_number self.now.geometry number) }
        ensures { result ≡ ((frozen_view self.now).inode number).mode }
    {
        self.held.mode(number)
    }

    /// How many blocks the size of an inode takes: of its record only what stands before the pointers is read.
    pub fn blocks(&self, number: u32) -> u32
        requires { IsTrue (is_number self.now.geometry number) }
        ensures { result ≡ blocks_of ((frozen_view self.now).inode number).size }
    {
        self.held.blocks(number)
    }

    /// How many links an inode has: of its record only what stands before the pointers is read.
    pub fn links(&self, number: u32) -> u16
        requires { IsTrue (is_number self.now.geometry number) }
        ensures { result ≡ ((frozen_view self.now).inode number).links }
    {
        self.held.links(number)
    }

    /// Whether the number is that of a sound inode: false for 0, 1 and numbers past the last.
    pub fn is_sound_at(&self, number: u32) -> bool
        ensures { result ≡ is_sound_at self.now.geometry (frozen_view self.now) number }
    {
        match self.kinds.get(number as usize) {
            Some(kind) => kind.is_sound,
            None => self.held.is_sound_at(number),
        }
    }

    /// Whether the number is that of a sound directory: false for 0, 1 and numbers past the last.
    pub fn is_directory_at(&self, number: u32) -> bool
        ensures { result ≡ is_directory_at self.now.geometry (frozen_view self.now) number }
    {
        match self.kinds.get(number as usize) {
            Some(kind) => kind.is_directory,
            None => self.held.is_directory_at(number),
        }
    }

    /// The value that an inode uses at a position: a pointer of its record's, or one of a table's that it claims. `None`
    /// where the inode is not sound or does not use the position.
    pub fn use_at(&self, inode: u32, position: u32) -> Option<u32>
        ensures { result ≡ use_at self.now.geometry (frozen_view self.now) inode position }
    {
        self.held.use_at(inode, position)
    }

    /// The value that a record uses at a position, as `use_at` has it.
    pub fn use_of(&self, inode: &Record, position: u32) -> Option<u32>
        ensures { result ≡ record_use self.now.geometry (frozen_view self.now) inode.now position }
    {
        self.held.use_of(inode, position)
    }

    /// The block that an inode claims at a position: the value that it uses there, if that is the address of a data
    /// block.
    pub fn claim_at(&self, inode: u32, position: u32) -> Option<u32>
        ensures { result ≡ claim_at self.now.geometry (frozen_view self.now) inode position }
    {
        self.held.claim_at(inode, position)
    }

    /// The block of a directory's slots at this position, which holds its slots `16 * position` to
    /// `16 * position + 15`. `None` where the slots are left out: the number is no sound directory's, or it claims no
    /// block there. A table has no slots.
    #[tactic(auto, using(crate::proofs::SlotLemmas::no_slot_past, crate::proofs::SlotLemmas::no_slot_of))]
    pub fn directory_block(&self, directory: u32, position: u32) -> Option<&Block>
        ensures slots { (s : ℕ) → s / 16 ≡ position → slot self.now.geometry (frozen_view self.now) directory s
            ≡ option_map_or (λ block. slot_in self.now.geometry block s) (option_copied result) Absent }
    {
        if position >= self.geometry().most_blocks() || !self.is_directory_at(directory) {
            return None;
        }
        let claimed = self.held.claim_at(directory, position)?;
        self.held.block(claimed)
    }

    /// Puts these blocks in the places of those of their addresses, which are spare then, or keeps them as more, the first
    /// first. What is kept then has to be all metadata again.
    pub fn install(&mut self, blocks: Vec<Placed>, spares: &mut Spares)
        requires fits { All (FitsIn self.old.geometry) blocks.items }
        requires metadata { KeepsMetadata (with_blocks self.old (map standing blocks.items)) }
        ensures { self.new ≡ with_blocks self.old (map standing blocks.items) }
    {
        self.kinds.clear();
        self.held.install(blocks, spares);
    }

    /// Lets go of the block of this address, if it is kept: no metadata stands in it.
    pub fn let_go(&mut self, address: u32)
        requires { IsPlain self.old address }
        ensures { self.new ≡ without_block self.old address }
    {
        self.kinds.clear();
        self.held.let_go(address);
    }
}
