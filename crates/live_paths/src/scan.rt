ghost use Rattle.std.specs.Prelude.{◌≡◌, ℕ, ◌+◌, ◌*◌, ◌/◌, ◌%◌, ◌<◌, ◌≤◌, ◌==◌, not, IsFalse, IsTrue, IfNone, IfSome};
ghost use Rattle.std.specs.Option.{option_copied, option_map_or};
ghost use Rattle.inode.specs.Parts.{without_attributes};
ghost use Rattle.frozen.specs.Kept.{frozen_view};
ghost use Rattle.dirent.specs.Seen.{seen};
ghost use Rattle.machine.specs.Paths as machine;
ghost use Rattle.machine.specs.Room as room;
ghost use Rattle.model.specs.Reach.{slot_count};
ghost use Rattle.model.specs.Slots as model;
ghost use Rattle.model.specs.Shape.{most_blocks};
ghost use Rattle.model.specs.Uses.{is_directory_at};
ghost use Rattle.model.specs.View as view;
ghost use Rattle.live_paths.specs.Sought.{is_sought, IsFirst, NoneIsSought};

use dirent::{NAME_BYTES, SLOT_BYTES, SLOTS, Slot, slot_in};
use frozen::Frozen;
use inode::Record;
use layout::{Block, u32_at};

/// The first slot of a directory behind its dots.
pub(crate) const FIRST_NAME: u32 = 2;

/// An entry that was found: the slot of the directory in which it stands, and the number that stands there.
#[derive(Clone, Copy, Debug, PartialEq, Eq)]
pub struct Entry {
    /// The slot, counted through the whole directory.
    pub slot: u32,
    /// The number of the inode that it names.
    pub number: u32,
}

/// What is sought in the slots of a directory.
#[derive(Clone, Copy)]
pub(crate) enum Sought<'a> {
    /// An entry of this name.
    Name(&'a [u8]),
    /// An empty slot.
    Room,
    /// Any entry behind the dots.
    AnyName,
}

/// The first slot of a directory that is sought, with the number that stands there, 0 where the slot is empty. A number
/// that is no sound directory's has no slots.
pub(crate) fn first(frozen: &Frozen, directory: u32, sought: &Sought) -> Option<Entry>
    ensures found { IfSome result (IsFirst frozen.now directory sought.now 0 (slot_count frozen.now.geometry)) }
    ensures none { IfNone result (NoneIsSought frozen.now directory sought.now 0 (slot_count frozen.now.geometry)) }
{
    if !frozen.is_directory_at(directory) {
        return None;
    }
    let inode = frozen.without_attributes(directory);
    for position in 0..block_count(frozen, directory) {
        if let Some(entry) = first_in_block(frozen, directory, &inode, position, sought) {
            return Some(entry);
        }
    }
    None
}

/// How many blocks of slots a directory has, and none where the number is no sound directory's.
pub(crate) fn block_count(frozen: &Frozen, directory: u32) -> u32
    ensures few { result ≤ most_blocks frozen.now.geometry }
    ensures past { (s : ℕ) → 16 * result ≤ s → model.slot frozen.now.geometry (frozen_view frozen.now) directory s ≡ model.Absent }
{
    if !frozen.is_directory_at(directory) {
        return 0;
    }
    frozen.blocks(directory)
}

/// The block of slots that a directory, of which this is the record, has at a position; `None` where it has none. It is
/// the answer of `directory_block`, which would read the record anew.
fn block_at<'a>(
    frozen: &'a Frozen,
    directory: u32,
    inode: &Record,
    position: u32,
) -> Option<&'a Block>
    requires directory { IsTrue (is_directory_at frozen.now.geometry (frozen_view frozen.now) directory) }
    requires inode { without_attributes ((frozen_view frozen.now).inode directory) ≡ inode.now }
    requires position { position < most_blocks frozen.now.geometry }
    ensures slots { (s : ℕ) → s / 16 ≡ position → model.slot frozen.now.geometry (frozen_view frozen.now) directory s
        ≡ option_map_or (λ block. model.slot_in frozen.now.geometry block s) (option_copied result) model.Absent }
{
    let address = frozen.use_of(inode, position)?;
    if frozen.geometry().place_of(address).is_none() {
        return None;
    }
    match frozen.block(address) {
        Some(block) => Some(block),
        None => frozen.directory_block(directory, position),
    }
}

/// The first slot that is sought among those of a directory's block at this position. The block is read where it stands.
fn first_in_block(
    frozen: &Frozen,
    directory: u32,
    inode: &Record,
    position: u32,
    sought: &Sought,
) -> Option<Entry>
    requires directory { IsTrue (is_directory_at frozen.now.geometry (frozen_view frozen.now) directory) }
    requires inode { without_attributes ((frozen_view frozen.now).inode directory) ≡ inode.now }
    requires position { position < most_blocks frozen.now.geometry }
    ensures found { IfSome result (IsFirst frozen.now directory sought.now (16 * position) (16 * (position + 1))) }
    ensures none { IfNone result (NoneIsSought frozen.now directory sought.now (16 * position) (16 * (position + 1))) }
{
    let block = block_at(frozen, directory, inode, position)?;
    let start = position * SLOTS as u32;
    let inodes = frozen.geometry().inodes();
    for slot in start..start + SLOTS as u32 {
        if is_met(sought, block, slot, inodes) {
            let number = number_in(&slot_in(block, slot, inodes));
            return Some(Entry { slot, number });
        }
    }
    None
}

/// Whether a slot of a directory is sought, by what stands in the block in which it stands. Most slots are told by a few
/// of their bytes; one that may be sought is read whole.
fn is_met(sought: &Sought, block: &Block, slot: u32, inodes: u32) -> bool
    ensures { result ≡ is_sought sought.now slot (model.slot_of inodes block.now slot) }
{
    match sought {
        Sought::Name(name) => {
            may_have_name(block, slot, name) && has_name(&slot_in(block, slot, inodes), name)
        }
        Sought::Room => is_empty(block, slot),
        Sought::AnyName => FIRST_NAME <= slot && is_named(block, slot, inodes),
    }
}

/// Whether a slot holds the bytes of this name, and their number. Where it does not, the slot is no entry of this name.
fn may_have_name(block: &Block, slot: u32, name: &[u8]) -> bool
    ensures { IsFalse result → (inodes : ℕ) → IsFalse (machine.has_name (model.slot_of inodes block.now slot) name.now) }
{
    let start = SLOT_BYTES * (slot as usize % SLOTS);
    let length = block[start + 4] as usize;
    if length != name.len() || length == 0 || length > NAME_BYTES {
        return false;
    }
    if block[start + 7 + length] != name[length - 1] {
        return false;
    }
    &block[start + 8..start + 8 + length] == name
}

/// Whether a slot is an entry of this name.
fn has_name(content: &Slot, name: &[u8]) -> bool
    ensures { result ≡ machine.has_name (seen content.now) name.now }
{
    match content {
        Slot::Good { name: own, .. } => *own == name,
        _ => false,
    }
}

/// Whether a slot is empty.
fn is_empty(block: &Block, slot: u32) -> bool
    ensures { (inodes : ℕ) → result ≡ room.is_empty (model.slot_of inodes block.now slot) }
{
    first_number(block, slot) == 0
}

/// Whether a slot is an entry.
fn is_named(block: &Block, slot: u32, inodes: u32) -> bool
    ensures { result ≡ not (model.number_in (model.slot_of inodes block.now slot) == 0) }
{
    first_number(block, slot) != 0 && number_in(&slot_in(block, slot, inodes)) != 0
}

/// The number that stands in a slot, whether or not the slot is an entry.
fn first_number(block: &Block, slot: u32) -> u32
    ensures { result ≡ view.u32_at block.now (64 * (slot % 16)) }
{
    u32_at(block, SLOT_BYTES * (slot as usize % SLOTS))
}

/// The number that a slot names, 0 where it names none.
fn number_in(content: &Slot) -> u32
    ensures { result ≡ model.number_in (seen content.now) }
{
    match content {
        Slot::Good { number, .. } => *number,
        _ => 0,
    }
}
