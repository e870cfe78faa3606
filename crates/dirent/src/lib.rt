//! Directory entries: the slots of a block of a directory. The form is that of the entries of the BSD fast file system,
//! but each takes the same room. A block holds 16 slots of 64 bytes:
//!
//! | Bytes of the slot | What stands there |
//! |---|---|
//! | 0 to 3 | the number of an inode, the least byte first; 0 in an empty slot |
//! | 4 | how many bytes the name has |
//! | 5 to 7 | not looked at |
//! | 8 to 63 | the name; the bytes after it are not looked at |
//!
//! Slots are counted through the whole directory, so slot `j` of the block at position `p` is slot `16 * p + j` of the
//! directory. Slot 0 is the place of ".", slot 1 that of "..", and neither name is good in any other slot. A name is a
//! list of bytes, in no encoding. No call takes memory.
#![tactic(auto)]

ghost use Rattle.std.specs.Prelude.{◌≡◌, ℕ, ◌+◌, ◌*◌, ◌<◌, ◌≤◌, ◌^◌, ◌↔◌, IsTrue, IfSome, IfNone, length, replicate};
ghost use Rattle.std.specs.List.{list_all};
ghost use Rattle.model.specs.Layout.{Geometry, inode_count};
ghost use Rattle.model.specs.Slots as model;
ghost use Rattle.dirent.specs.Seen.{seen};
ghost use Rattle.dirent.specs.DirectoryBlock.{block_from, IsInDirectory, slot_at, slots_of, HasName, IsFirst, HasNone, slot_bytes, entry_bytes, with_slot, ChangesSlot};

use byteorder::{ByteOrder, LittleEndian};
use layout::{Block, ROOT, u32_at};
use std::marker::Model;

/// How many slots a block of a directory has.
pub const SLOTS: usize = 16;

/// How many bytes a slot has.
pub const SLOT_BYTES: usize = 64;

/// How many bytes the longest name has.
pub const NAME_BYTES: usize = 56;

/// What a slot says.
#[derive(Clone, Copy, Debug, PartialEq, Eq)]
pub enum Slot<'a> {
    /// The slot has the number 0; nothing else of it is looked at.
    Empty,
    /// An entry.
    Good {
        /// The number of the inode that it names, from 2 on and on the volume. The inode may be of any kind.
        number: u32,
        /// The name, which is good and fits the slot.
        name: &'a [u8],
    },
    /// The slot is neither empty nor an entry: its number, its name's length, its name or its place is wrong.
    Bad,
}

/// Slot `slot` of a directory, in the block of it in which it stands, which is the one at position `slot / 16`. The
/// volume has this many inode numbers. The name is lent from the block.
pub fn slot_in(block: &Block, slot: u32, inodes: u32) -> Slot<'_>
    ensures { seen result ≡ model.slot_of inodes block.now slot }
{
    let start = SLOT_BYTES * (slot as usize % SLOTS);
    let number = u32_at(block, start);
    if number == 0 {
        return Slot::Empty;
    }
    let length = block[start + 4] as usize;
    if length > NAME_BYTES {
        return Slot::Bad;
    }
    let name = &block[start + 8..start + 8 + length];
    if ROOT <= number && number < inodes && name_ok(name) && fits_slot(slot, name) {
        Slot::Good { number, name }
    } else {
        Slot::Bad
    }
}

/// Whether a name is good: it has 1 to 56 bytes, and none of them is 0 or `/`. The names of the dots are good.
pub fn name_ok(name: &[u8]) -> bool
    ensures { result ≡ model.is_name name.now }
{
    !name.is_empty() && name.len() <= NAME_BYTES && has_name_bytes(name)
}

/// Whether no byte is 0 or `/`.
fn has_name_bytes(name: &[u8]) -> bool
    ensures { result ≡ list_all model.is_name_byte name.now }
{
    name.iter().all(|&byte| byte != 0 && byte != b'/')
}

/// Whether a good name may stand in this slot of a directory: "." alone in slot 0, ".." alone in slot 1, and any name
/// but these two in the others.
pub fn fits_slot(slot: u32, name: &[u8]) -> bool
    ensures { result ≡ model.fits_slot slot name.now }
{
    match slot {
        0 => is_dot(name),
        1 => is_dot_dot(name),
        _ => !is_dot(name) && !is_dot_dot(name),
    }
}

/// Whether this is a directory's name for itself.
fn is_dot(name: &[u8]) -> bool
    ensures { result ≡ model.is_dot name.now }
{
    matches!(name, b".")
}

/// Whether this is a directory's name for its parent.
fn is_dot_dot(name: &[u8]) -> bool
    ensures { result ≡ model.is_dot_dot name.now }
{
    matches!(name, b"..")
}

/// The block at a position of a directory of a volume, on which its slots are read and changed.
#[derive(Clone, Debug, PartialEq, Eq, Drop)]
pub struct Slots {
    block: Block,
    position: u32,
    inodes: u32,
}

impl Model for Slots {
    ghost use Rattle.dirent.specs.DirectoryBlock.{DirectoryBlock, block_from, IsInDirectory};

    ghost Value = { DirectoryBlock };

    ghost view = { λ s. block_from s.block s.position s.inodes };

    ghost invariant = { λ s. IsInDirectory (block_from s.block s.position s.inodes) };

    ghost inverse = { λ b. record { block = b.bytes; position = b.position; inodes = b.inodes } };
}

impl Slots {
    /// Takes a copy of the block at `position` of a directory, on a volume with this many inode numbers. The numbers of
    /// the block's slots fit in 32 bits.
    pub fn read(block: &Block, position: u32, inodes: u32) -> Slots
        requires { position < 2 ^ 28 }
        ensures value { result ≡ block_from block.now position inodes }
        ensures slots { (geo : Geometry) → inode_count geo ≡ inodes → (j : ℕ) → j < 16
            → slot_at result j ≡ model.slot_in geo block.now (16 * position + j) }
    {
        Slots {
            block: *block,
            position,
            inodes,
        }
    }

    /// Slot `j` of the block, which is slot `16 * position + j` of the directory.
    pub fn slot(&self, j: usize) -> Slot<'_>
        requires { j < 16 }
        ensures { seen result ≡ slot_at self.now j }
    {
        let slot = SLOTS as u32 * self.position + j as u32;
        slot_in(&self.block, slot, self.inodes)
    }

    /// The first slot that holds an entry of this name, or `None` if the block has no such entry.
    pub fn find(&self, name: &[u8]) -> Option<usize>
        ensures found { IfSome result (IsFirst (HasName name.now) self.now) }
        ensures none { IfNone result (HasNone (HasName name.now) self.now) }
    {
        for j in 0..SLOTS {
            if self.has_name(j, name) {
                return Some(j);
            }
        }
        None
    }

    /// The first empty slot, or `None` if the block has none. In the block at position 0, slots 0 and 1 are the places
    /// of the dots, and are answered where they are empty.
    pub fn free_slot(&self) -> Option<usize>
        ensures found { IfSome result (IsFirst (λ slot. slot ≡ model.Empty) self.now) }
        ensures none { IfNone result (HasNone (λ slot. slot ≡ model.Empty) self.now) }
    {
        for j in 0..SLOTS {
            if let Slot::Empty = self.slot(j) {
                return Some(j);
            }
        }
        None
    }

    /// Puts an entry into slot `j`, over what stood there. The bytes of the slot that are not looked at become zeroes.
    pub fn put(&mut self, j: usize, number: u32, name: &[u8])
        requires in_block { j < 16 }
        requires given_out { 2 ≤ number }
        requires on_volume { number < self.old.inodes }
        requires good_name { IsTrue (model.is_name name.now) }
        requires fits { IsTrue (model.fits_slot (16 * self.old.position + j) name.now) }
        ensures changes { ChangesSlot self.old self.new j (model.Good number name.now) }
        ensures bytes { slot_bytes self.new.bytes j ≡ entry_bytes number name.now }
    {
        replace(&mut self.block, j, &entry(number, name));
    }

    /// Empties slot `j`: all its bytes become zeroes.
    pub fn clear(&mut self, j: usize)
        requires { j < 16 }
        ensures changes { ChangesSlot self.old self.new j model.Empty }
        ensures bytes { slot_bytes self.new.bytes j ≡ replicate 64 0 }
    {
        replace(&mut self.block, j, &[0; SLOT_BYTES]);
    }

    /// Writes the whole block. A read of what was written, at the same position, gives the same slots.
    pub fn write(&self, block: &mut Block)
        ensures written { block.new ≡ self.now.bytes }
        ensures read { block_from block.new self.now.position self.now.inodes ≡ self.now }
        ensures slots { slots_of (block_from block.new self.now.position self.now.inodes) ≡ slots_of self.now }
        ensures in_directory { IsInDirectory self.now }
    {
        *block = self.block;
    }

    /// Whether slot `j` is an entry of this name.
    fn has_name(&self, j: usize, name: &[u8]) -> bool
        requires { j < 16 }
        ensures { IsTrue result ↔ HasName name.now (slot_at self.now j) }
    {
        matches!(self.slot(j), Slot::Good { name: own, .. } if own == name)
    }
}

/// The bytes of an entry, with zeroes where nothing is looked at.
pub fn entry(number: u32, name: &[u8]) -> [u8; SLOT_BYTES]
    requires { length name.now ≤ 56 }
    ensures { result ≡ entry_bytes number name.now }
{
    let mut bytes = [0; SLOT_BYTES];
    LittleEndian::write_u32(&mut bytes[..4], number);
    bytes[4] = name.len() as u8;
    bytes[8..8 + name.len()].copy_from_slice(name);
    bytes
}

/// Puts these bytes over those of slot `j` of a block.
pub fn replace(block: &mut Block, j: usize, bytes: &[u8; SLOT_BYTES])
    requires { j < 16 }
    ensures { block.new ≡ with_slot block.old j bytes.now }
{
    let start = SLOT_BYTES * j;
    block[start..start + SLOT_BYTES].copy_from_slice(bytes);
}
