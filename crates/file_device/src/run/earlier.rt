//! Single blocks of a file.
ghost use Rattle.std.specs.Prelude.{◌≡◌, ◌%◌, ◌/◌, ℕ, List, [], None, Some, IfOk, IfSome, length, slice_set};
ghost use Rattle.file_device.specs.Runs.{IsEarlier, replaced, slots_of, writes_of_earlier};

use layout::Block;
use std::alloc::{AllocError, Global};

/// How many slots there are.
const SLOTS: usize = 31;

/// Blocks that were read alone, each in the slot of its address: the remainder of the address by 31. A block takes the place of another
/// that has the same slot. Where groups have a power of 2 of blocks, those at the same place of 31 groups in a row have slots of their own.
#[derive(Drop)]
pub struct Earlier {
    /// What each slot holds, by its number.
    slots: Box<Slots>,
}

/// The room for the slots.
#[derive(Drop)]
struct Slots {
    all: [Option<Slot>; SLOTS],
}

/// A block in a slot.
#[derive(Clone, Copy)]
struct Slot {
    /// Its address divided by 31, rounded down; the remainder is the number of the slot.
    quotient: u32,
    block: Block,
}

impl Earlier {
    /// No block.
    pub fn none(alloc: Global) -> Result<Earlier, AllocError>
        ensures { IfOk result (λ earlier. writes_of_earlier earlier ≡ []) }
    {
        Ok(Earlier {
            slots: Box::new(alloc, Slots { all: [None; SLOTS] })?,
        })
    }

    /// The block of this address; `None` where its slot holds another's, or none.
    pub fn block(&self, address: u32) -> Option<&Block>
        ensures kept { IfSome result (λ block. IsEarlier self.now address block.now) }
        ensures none { result ≡ None → (block : List ℕ) → IsEarlier self.now address block → ⊥ }
        ensures slots { length (slots_of self.now) ≡ 31 }
    {
        match &self.slots.all[slot_of(address)] {
            Some(slot) if slot.quotient == quotient_of(address) => Some(&slot.block),
            _ => None,
        }
    }

    /// Keeps a block in the slot of its address, in place of what the slot held.
    pub fn keep(&mut self, address: u32, block: &Block)
        ensures { slots_of self.new ≡ slice_set (slots_of self.old) (address % 31) (Some (address, block.now)) }
    {
        self.slots.all[slot_of(address)] = Some(Slot {
            quotient: quotient_of(address),
            block: *block,
        });
    }

    /// Replaces the block of this address, if one is kept for it.
    pub fn replace(&mut self, address: u32, block: &Block)
        ensures { writes_of_earlier self.new ≡ replaced address block.now (writes_of_earlier self.old) }
    {
        if self.block(address).is_none() {
            return;
        }
        self.keep(address, block);
    }
}

/// The slot of this address.
fn slot_of(address: u32) -> usize
    ensures { result ≡ address % 31 }
{
    address as usize % SLOTS
}

/// Which of the addresses of its slot this one is.
fn quotient_of(address: u32) -> u32
    ensures { result ≡ address / 31 }
{
    address / SLOTS as u32
}
