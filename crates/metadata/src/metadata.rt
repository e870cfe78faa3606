ghost use Rattle.std.specs.Prelude.{◌≡◌, ℕ, ◌<◌, List, [], ◌∷◌, ◌++◌, OnOk, IfOk, map, slice_index_or, replicate, None, unwrap_or, MatchOption, length, IsTrue, IsFalse, ◌≤◌};
ghost use Rattle.std.specs.List.{All};
ghost use Rattle.std.specs.Arc.{arc_value};
ghost use Rattle.model.specs.Layout.{Geometry as Numbers};
ghost use Rattle.model.specs.Cells.{Update as Changed, updated, updated_all};
ghost use Rattle.machine.specs.Room.{IsFreeBlock, has_number, unmarked_blocks};
ghost use Rattle.metadata.specs.Free.{IsFreeOf, IsLeastNumber, IsNextBlock};
ghost use Rattle.ordering.specs.Cuts.{cell_of};
ghost use Rattle.queue_model.specs.Blocks.{home_of};
ghost use Rattle.updates.specs.Values.{change as change_of};
ghost use Rattle.updates.specs.Alone.{IsPutInto};
ghost use Rattle.updates.specs.Places.{FitsVolume, IsCell, IsUpdate};
ghost use Rattle.model.specs.View.{View};
ghost use Rattle.model.specs.Metadata.{SameMetadata};
ghost use Rattle.model.specs.Image.{IsBlock, image_view};
ghost use Rattle.frozen.specs.Kept.{Kept, KeepsMetadata, IsKeptOf, frozen_view, kept_at};
ghost use Rattle.metadata.specs.Shown.{Shows};
ghost use Rattle.frozen.specs.Installed.{IsPlain, without_block};
ghost use Rattle.metadata.specs.Staged.{AreBitsOf, HasChange, IsBitOf, IsLastAt, IsStaged, NoneAt, after, bit, bit as update_of, changes};

use crate::free_space::FreeSpace;
use crate::{Bit, Staged};
use frozen::{Frozen, Placed};
use layout::{BLOCK_BYTES, Block, Geometry};
use spares::Spares;
use std::alloc::{AllocError, Global};
use std::marker::Model;
use std::sync::Arc;
use updates::{Change, Update};

/// The metadata that users see.
pub struct Metadata {
    frozen: Frozen,
    free: FreeSpace,
}

/// By hand, so that who drops it goes one step and not one for each field.
impl Drop for Metadata {
    fn drop(self) {
        let Metadata { frozen: _, free: _ } = self;
    }
}

impl Model for Metadata {
    ghost use Rattle.frozen.specs.Kept.{Kept};
    ghost use Rattle.metadata.specs.Shown.{IsMetadata};

    ghost Value = { Kept };

    ghost view = { λ metadata. metadata.frozen };

    ghost invariant = { λ metadata. IsMetadata metadata.frozen metadata.free };
}

impl Metadata {
    /// The metadata that was loaded. Takes memory for the marks of what may be given out.
    pub fn new(alloc: Global, frozen: Frozen) -> Result<Metadata, AllocError>
        ensures { IfOk result (λ metadata. metadata ≡ frozen) }
    {
        let free = FreeSpace::of(alloc, &frozen)?;
        Ok(Metadata { frozen, free })
    }

    /// Its blocks as they are now.
    pub fn frozen(&self) -> &Frozen
        ensures same { result.now ≡ self.now }
        ensures metadata { KeepsMetadata self.now }
    {
        &self.frozen
    }

    /// How many data blocks are not marked.
    pub fn unmarked_blocks(&self) -> u32
        ensures { result ≡ unmarked_blocks self.now.geometry (frozen_view self.now) }
    {
        self.free.unmarked_blocks()
    }

    /// The least inode number that may be given out; `None` where each is marked.
    pub fn least_number(&self) -> Option<u32>
        ensures { MatchOption result (IsFalse (has_number self.now.geometry (frozen_view self.now)))
            (λ number. IsTrue (has_number self.now.geometry (frozen_view self.now)) × IsLeastNumber self.now.geometry (frozen_view self.now) number) }
    {
        self.free.least_number()
    }

    /// The least data block from this address on that may be given out; `None` where there is none.
    pub fn next_block(&self, from: u32) -> Option<u32>
        ensures { MatchOption result ((a : ℕ) → from ≤ a → IsFreeBlock self.now.geometry (frozen_view self.now) a
            → ⊥) (IsNextBlock self.now.geometry (frozen_view self.now) from) }
    {
        self.free.next_block(from)
    }

    /// Makes these changes ready, the first first. Takes memory for each, of spare blocks where there are some; what users
    /// see stays.
    pub fn stage(
        &self,
        alloc: Global,
        updates: &[Update],
        spares: &mut Spares,
    ) -> Result<Staged, AllocError>
        requires { All (IsUpdate self.now.geometry) updates.now }
        ensures { IfOk result (IsStaged self.now (changes updates.now)) }
    {
        let mut staged = Staged::new(alloc);
        for update in updates {
            self.stage_one(alloc, &mut staged, &update.change, spares)?;
        }
        Ok(staged)
    }

    /// Lets users see what was made ready. What is kept then has to be all metadata again. The blocks that stood in the
    /// places are spare.
    pub fn install(&mut self, staged: Staged, spares: &mut Spares)
        requires staged { (us : List Changed) × IsStaged self.old us staged }
        requires metadata { KeepsMetadata (after self.old staged) }
        ensures { self.new ≡ after self.old staged }
    {
        note_all(&mut self.free, staged.bits.as_slice());
        self.frozen.install(staged.blocks, spares);
    }

    /// Lets go of a block of data, if it is kept: no metadata stands in it. Users see what they saw.
    pub fn let_go(&mut self, address: u32)
        requires { IsPlain self.old address }
        ensures left { self.new ≡ without_block self.old address }
        ensures shows { (users : View) → Shows self.old users → Shows self.new users }
    {
        self.frozen.let_go(address);
    }

    /// A copy of its blocks with what was made ready, which is all metadata then too; what users see stays. Takes memory
    /// for the table of blocks.
    pub fn copy_with(&self, alloc: Global, staged: Staged) -> Result<Frozen, AllocError>
        requires staged { (us : List Changed) × IsStaged self.now us staged }
        requires metadata { KeepsMetadata (after self.now staged) }
        ensures { IfOk result (λ copy. copy ≡ after self.now staged) }
    {
        let mut copy = self.frozen.copy(alloc)?;
        copy.install(staged.blocks, &mut Spares::none(alloc));
        Ok(copy)
    }

    /// Makes one more change ready.
    fn stage_one(
        &self,
        alloc: Global,
        staged: &mut Staged,
        change: &Change,
        spares: &mut Spares,
    ) -> Result<(), AllocError>
        requires cell { IsCell self.now.geometry (cell_of (change_of change.now)) }
        requires fits { FitsVolume self.now.geometry (change_of change.now) }
        ensures { OnOk result ((us : List Changed) → IsStaged self.now us staged.old → IsStaged self.now (us ++ change_of change.now ∷ []) staged.new) }
    {
        self.place(alloc, &mut staged.blocks, change, spares)?;
        staged.note(change)
    }

    /// Puts one more change into the block of its address among these, or, if none is to stand there, into one more: so
    /// they are no more than the blocks that the changes are in.
    fn place(
        &self,
        alloc: Global,
        blocks: &mut Vec<Placed>,
        change: &Change,
        spares: &mut Spares,
    ) -> Result<(), AllocError>
        requires cell { IsCell self.now.geometry (cell_of (change_of change.now)) }
        requires fits { FitsVolume self.now.geometry (change_of change.now) }
        ensures { OnOk result (HasChange self.now (change_of change.now) blocks.old.items blocks.new.items) }
    {
        let geometry = self.frozen.geometry();
        let address = change.cell().home(&geometry);
        match last_at(blocks.as_slice(), address) {
            Some(place) => put_into(&mut blocks[place].block, &geometry, change),
            None => self.place_first(alloc, blocks, address, change, spares),
        }
    }

    /// Adds the block of this address with one change.
    fn place_first(
        &self,
        alloc: Global,
        blocks: &mut Vec<Placed>,
        address: u32,
        change: &Change,
        spares: &mut Spares,
    ) -> Result<(), AllocError>
        requires cell { IsCell self.now.geometry (cell_of (change_of change.now)) }
        requires fits { FitsVolume self.now.geometry (change_of change.now) }
        requires address { address ≡ home_of self.now.geometry (cell_of (change_of change.now)) }
        requires low { address < length self.now.blocks }
        ensures { OnOk result ((placed : Placed) × (placed.address ≡ address) × IsBlock (arc_value placed.block)
            × IsPutInto self.now.geometry (change_of change.now) (unwrap_or (kept_at self.now.blocks address) (replicate 1024 0)) (arc_value placed.block)
            × (blocks.new.items ≡ blocks.old.items ++ placed ∷ [])) }
    {
        let block = self.changed(alloc, address, change, spares)?;
        blocks.push(Placed { address, block })?;
        Ok(())
    }

    /// The block of this address with one change. A change that gives all of its bytes shares them.
    fn changed(
        &self,
        alloc: Global,
        address: u32,
        change: &Change,
        spares: &mut Spares,
    ) -> Result<Arc<Block>, AllocError>
        requires cell { IsCell self.now.geometry (cell_of (change_of change.now)) }
        requires fits { FitsVolume self.now.geometry (change_of change.now) }
        requires address { address ≡ home_of self.now.geometry (cell_of (change_of change.now)) }
        requires low { address < length self.now.blocks }
        ensures changed { IfOk result (λ block. IsPutInto self.now.geometry (change_of change.now)
            (unwrap_or (kept_at self.now.blocks address) (replicate 1024 0)) (arc_value block)) }
        ensures whole { IfOk result (λ block. IsBlock (arc_value block)) }
    {
        self.frozen.geometry(); // for the proof: its clause `frame`
        match change.whole() {
            Some(block) => share_again(block),
            None => self.changed_in_part(alloc, address, change, spares),
        }
    }

    /// The block of this address with one change of a part of it.
    fn changed_in_part(
        &self,
        alloc: Global,
        address: u32,
        change: &Change,
        spares: &mut Spares,
    ) -> Result<Arc<Block>, AllocError>
        requires cell { IsCell self.now.geometry (cell_of (change_of change.now)) }
        requires fits { FitsVolume self.now.geometry (change_of change.now) }
        requires address { address ≡ home_of self.now.geometry (cell_of (change_of change.now)) }
        requires low { address < length self.now.blocks }
        ensures changed { IfOk result (λ block. IsPutInto self.now.geometry (change_of change.now)
            (unwrap_or (kept_at self.now.blocks address) (replicate 1024 0)) (arc_value block)) }
        ensures whole { IfOk result (λ block. IsBlock (arc_value block)) }
    {
        let geometry = self.frozen.geometry();
        let mut block = spares.share(alloc, self.kept_or_zeroes(address))?;
        put_into(&mut block, &geometry, change)?;
        Ok(block)
    }

    /// A block as it is, and zeroes where it is none that is kept.
    fn kept_or_zeroes(&self, address: u32) -> &Block
        requires { address < length self.now.blocks }
        ensures { result.now ≡ unwrap_or (kept_at self.now.blocks address) (replicate 1024 0) }
    {
        match self.frozen.block(address) {
            Some(block) => block,
            None => &[0; BLOCK_BYTES],
        }
    }
}

/// Notes these new values of bits, the first first.
fn note_all(free: &mut FreeSpace, bits: &[Bit])
    requires { AreBitsOf free.old bits.now }
    ensures { (geo : Numbers) (view : View) → All (IsBitOf geo) bits.now → IsFreeOf geo view free.old
        → IsFreeOf geo (updated_all view (map bit bits.now)) free.new }
{
    for bit in bits {
        note(free, *bit);
    }
}

/// Notes a new value of a bit.
fn note(free: &mut FreeSpace, bit: Bit)
    requires { AreBitsOf free.old (bit ∷ []) }
    ensures { (geo : Numbers) (view : View) → IsBitOf geo bit → IsFreeOf geo view free.old → IsFreeOf geo (updated view (update_of bit)) free.new }
{
    match bit {
        Bit::Number(number, marked) => free.set_number(number, marked),
        Bit::Block(address, marked) => free.set_block(address, marked),
    }
}

/// The last of these blocks that is to stand at an address.
fn last_at(blocks: &[Placed], address: u32) -> Option<usize>
    ensures { MatchOption result (NoneAt blocks.now address) (IsLastAt blocks.now address) }
{
    blocks.iter().rposition(|placed| placed.address == address)
}

/// Puts a change into a shared block. It is copied first, if it has other owners.
fn put_into(block: &mut Arc<Block>, geometry: &Geometry, change: &Change) -> Result<(), AllocError>
    requires cell { IsCell geometry.now (cell_of (change_of change.now)) }
    requires fits { FitsVolume geometry.now (change_of change.now) }
    ensures put { OnOk result (IsPutInto geometry.now (change_of change.now) (arc_value block.old) (arc_value block.new)) }
    ensures whole { OnOk result (IsBlock (arc_value block.new)) }
{
    let bytes = Arc::make_mut(block)?;
    change.put(geometry, bytes);
    is_whole(bytes);
    Ok(())
}

/// The same block once more.
fn share_again(block: &Arc<Block>) -> Result<Arc<Block>, AllocError>
    ensures bytes { IfOk result (λ shared. arc_value shared ≡ arc_value block.now) }
    ensures whole { IfOk result (λ shared. IsBlock (arc_value shared)) }
{
    is_whole(block);
    Arc::clone(block)
}

/// A block has all of its bytes, and each is one.
fn is_whole(block: &Block)
    ensures { IsBlock block.now }
{
    block.iter(); // for the proof: the length of the array
}

/// What is kept of an image shows what the image holds.
pub fn what_is_kept_of_an_image_shows_it()
    ensures { (kept : Kept) (image : List (List ℕ)) → IsKeptOf kept image → Shows kept (image_view kept.geometry image) }
{}

/// It is the metadata of each view that it shows, where all metadata is kept.
pub fn what_is_kept_is_the_metadata_of_what_it_shows()
    ensures { (kept : Kept) (users : View) → KeepsMetadata kept → Shows kept users → SameMetadata kept.geometry (frozen_view kept) users }
{}
