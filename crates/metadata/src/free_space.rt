ghost use Rattle.std.specs.Prelude.{◌≡◌, ℕ, ◌<◌, ◌≤◌, ◌+◌, ◌*◌, length, IfOk, IsTrue, IsFalse, MatchOption};
ghost use Rattle.model.specs.Layout.{Geometry as Numbers, is_number, is_data_address, group_block};
ghost use Rattle.model.specs.View.{View};
ghost use Rattle.model.specs.Cells.{SetNumber, SetBlock, updated};
ghost use Rattle.frozen.specs.Kept.{frozen_view};
ghost use Rattle.machine.specs.Room.{IsFreeBlock, has_number, unmarked_blocks};
ghost use Rattle.metadata.specs.Free.{AreFreeNumbers, AreFreeBlocks, AreFreeNumbersBelow, AreFreeBlocksBelow, IsFreeOf, IsLeastNumber, IsNextBlock, IsCounted, marked_in};

use cgmaps::{Map, bit_of};
use frozen::Frozen;
use layout::ROOT;
use marks::Marks;
use std::alloc::{AllocError, Global};
use std::marker::Model;

/// What of a mounted volume may be given out: the inode numbers from the root's on and the data blocks that are not
/// marked. A question costs the same however large the volume is, and how full.
#[derive(Drop)]
pub(crate) struct FreeSpace {
    /// For each inode number whether it may be.
    numbers: Marks,
    /// For each address whether it is that of a data block that may be.
    blocks: Marks,
    /// How many blocks may be.
    unmarked: u32,
}

impl Model for FreeSpace {
    ghost use Rattle.metadata.specs.Free.{Free, IsCounted};

    ghost Value = { Free };

    ghost view = { λ free. record { numbers = free.numbers; blocks = free.blocks } };

    ghost invariant = { λ free. IsCounted free.unmarked free.blocks };
}

impl FreeSpace {
    /// What may be given out of a volume with these maps. Takes memory, an eighth of a byte for each number and
    /// each address, and little more.
    pub(crate) fn of(alloc: Global, frozen: &Frozen) -> Result<FreeSpace, AllocError>
        ensures { IfOk result (IsFreeOf frozen.now.geometry (frozen_view frozen.now)) }
    {
        let numbers = free_numbers(alloc, frozen)?;
        let (blocks, unmarked) = free_blocks(alloc, frozen)?;
        Ok(FreeSpace {
            numbers,
            blocks,
            unmarked,
        })
    }

    /// How many data blocks are not marked.
    pub(crate) fn unmarked_blocks(&self) -> u32
        ensures { (geo : Numbers) (view : View) → IsFreeOf geo view self.now → result ≡ unmarked_blocks geo view }
    {
        self.unmarked
    }

    /// The least inode number that may be given out; `None` where each is marked.
    pub(crate) fn least_number(&self) -> Option<u32>
        ensures { (geo : Numbers) (view : View) → IsFreeOf geo view self.now
            → MatchOption result (IsFalse (has_number geo view)) (λ number. IsTrue (has_number geo view) × IsLeastNumber geo view number) }
    {
        self.numbers.least()
    }

    /// The least data block from this address on that may be given out; `None` where there is none.
    pub(crate) fn next_block(&self, from: u32) -> Option<u32>
        ensures { (geo : Numbers) (view : View) → IsFreeOf geo view self.now
            → MatchOption result ((a : ℕ) → from ≤ a → IsFreeBlock geo view a → ⊥) (IsNextBlock geo view from) }
    {
        self.blocks.next(from)
    }

    /// Notes that a number is marked now, or is not any more.
    pub(crate) fn set_number(&mut self, number: u32, marked: bool)
        requires { number < length self.old.numbers }
        ensures { (geo : Numbers) (view : View) → IsTrue (is_number geo number) → IsFreeOf geo view self.old
            → IsFreeOf geo (updated view (SetNumber number marked)) self.new }
    {
        if marked {
            self.numbers.unmark(number);
        } else {
            self.numbers.mark(number);
        }
    }

    /// Notes that a data block is marked now, or is not any more.
    pub(crate) fn set_block(&mut self, address: u32, marked: bool)
        requires { address < length self.old.blocks }
        ensures { (geo : Numbers) (view : View) → IsTrue (is_data_address geo address) → IsFreeOf geo view self.old
            → IsFreeOf geo (updated view (SetBlock address marked)) self.new }
    {
        let was_free = self.blocks.is_marked(address);
        if marked {
            self.blocks.unmark(address);
            if was_free {
                self.unmarked -= 1;
            }
        } else {
            self.blocks.mark(address);
            if !was_free {
                self.unmarked += 1;
            }
        }
    }
}

/// Marks of the numbers that may be given out.
fn free_numbers(alloc: Global, frozen: &Frozen) -> Result<Marks, AllocError>
    ensures { IfOk result (AreFreeNumbers frozen.now.geometry (frozen_view frozen.now)) }
{
    let geometry = frozen.geometry();
    let mut marks = Marks::new(alloc, geometry.inodes())?;
    for group in 0..geometry.groups() {
        mark_free_numbers(&mut marks, frozen, group);
    }
    Ok(marks)
}

/// Marks of the data blocks that may be given out, and how many these are.
fn free_blocks(alloc: Global, frozen: &Frozen) -> Result<(Marks, u32), AllocError>
    ensures blocks { IfOk result (λ both. AreFreeBlocks frozen.now.geometry (frozen_view frozen.now) both.0) }
    ensures count { IfOk result (λ both. IsCounted both.1 both.0) }
{
    let geometry = frozen.geometry();
    let mut marks = Marks::new(alloc, geometry.blocks())?;
    let mut count = 0;
    for group in 0..geometry.groups() {
        count += mark_free_blocks(&mut marks, frozen, group);
    }
    Ok((marks, count))
}

/// Marks the numbers of a group that may be given out, where those of the groups before it are marked.
fn mark_free_numbers(marks: &mut Marks, frozen: &Frozen, group: u32)
    requires group { group < frozen.now.geometry.groups }
    requires before { AreFreeNumbersBelow frozen.now.geometry (frozen_view frozen.now) (group * frozen.now.geometry.inodes) marks.old }
    ensures { AreFreeNumbersBelow frozen.now.geometry (frozen_view frozen.now) ((group + 1) * frozen.now.geometry.inodes) marks.new }
{
    let inodes = frozen.geometry().inodes_a_group();
    let maps = frozen.maps_of(group);
    let first = group * inodes;
    for bit in 0..inodes {
        let number = first + bit;
        if ROOT <= number && !bit_of(maps, Map::Inodes, bit) {
            marks.mark(number);
        }
    }
}

/// Marks the data blocks of a group that may be given out, where those of the groups before it are marked; and tells
/// how many it marks.
fn mark_free_blocks(marks: &mut Marks, frozen: &Frozen, group: u32) -> u32
    requires group { group < frozen.now.geometry.groups }
    requires before { AreFreeBlocksBelow frozen.now.geometry (frozen_view frozen.now) (group_block frozen.now.geometry group) marks.old }
    ensures blocks { AreFreeBlocksBelow frozen.now.geometry (frozen_view frozen.now) (group_block frozen.now.geometry (group + 1)) marks.new }
    ensures count { marked_in marks.old + result ≡ marked_in marks.new }
{
    let geometry = frozen.geometry();
    let maps = frozen.maps_of(group);
    let mut count = 0;
    for bit in 0..geometry.blocks_a_group() - geometry.header_blocks() {
        if !bit_of(maps, Map::Blocks, bit) {
            marks.mark(geometry.data_address(group, bit));
            count += 1;
        }
    }
    count
}

#[cfg(test)]
mod tests;
