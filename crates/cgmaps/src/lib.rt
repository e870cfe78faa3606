//! The block of maps of a cylinder group: which inodes and which data blocks of the group are marked, as in the
//! cylinder group block of the BSD fast file system (McKusick and Ganger 1999). The block begins with a magic number
//! and the group's number; a bit for each inode begins at byte 32, and one for each data block at byte 160, the least
//! bit of each byte first. Nothing else in the block is looked at or changed. No call takes memory.
#![tactic(auto)]

ghost use Rattle.std.specs.Prelude.{◌≡◌, ◌<◌, ◌/◌, ◌%◌, ℕ, Bool, true, false, List, length, IsOkUnless};
ghost use Rattle.std.specs.Result.{OkIff};
ghost use Rattle.model.specs.Image.{IsGroupBlock};
ghost use Rattle.model.specs.Layout.{Geometry, IsGeometry, group_block, group_of_address, data_bit, is_number, is_data_address};
ghost use Rattle.model.specs.View.{map_bit, view_of};
ghost use Rattle.model.specs.Cells.{SetNumber, SetBlock, put_at, updated};
ghost use Rattle.cgmaps.specs.Maps.{first_byte, bit_count, ChangesBit, ChangesByte};

use layout::{Block, GROUP_MAGIC, Refusal, u32_at};
use std::marker::Model;

/// Which map of a group.
#[derive(Clone, Copy, Debug, PartialEq, Eq)]
pub enum Map {
    /// The inodes': at most 1,024 bits.
    Inodes,
    /// The data blocks': at most 4,096 bits.
    Blocks,
}

impl Map {
    /// The byte of the block where the map begins.
    fn first_byte(self) -> usize
        ensures { result ≡ first_byte self }
    {
        match self {
            Map::Inodes => 32,
            Map::Blocks => 160,
        }
    }
}

/// The block of maps of a cylinder group, seen as its bytes.
#[derive(Clone, Debug, PartialEq, Eq, Drop)]
pub struct GroupMaps {
    block: Block,
}

impl Model for GroupMaps {
    ghost use Rattle.std.specs.Prelude.{List, ℕ};

    ghost Value = { List ℕ };

    ghost view = { λ maps. maps.block };

    ghost inverse = { λ bytes. record { block = bytes } };
}

/// Reads the block of maps of this group: `BadGroup` where the block begins with another magic number, or has another
/// group's number.
pub fn read_group(block: &Block, group: u32) -> Result<GroupMaps, Refusal>
    ensures ok { OkIff result (IsGroupBlock group block.now) block.now }
    ensures error { IsOkUnless result (Refusal.BadGroup group) }
{
    if u32_at(block, 0) != GROUP_MAGIC || u32_at(block, 4) != group {
        return Err(Refusal::BadGroup(group));
    }
    Ok(GroupMaps { block: *block })
}

impl GroupMaps {
    /// Whether the inode of this bit is marked.
    pub fn inode_bit(&self, bit: u32) -> bool
        requires { bit < 1024 }
        ensures { result ≡ map_bit self.now 32 bit }
    {
        bit_of(&self.block, Map::Inodes, bit)
    }

    /// Whether the data block of this bit is marked.
    pub fn block_bit(&self, bit: u32) -> bool
        requires { bit < 4096 }
        ensures { result ≡ map_bit self.now 160 bit }
    {
        bit_of(&self.block, Map::Blocks, bit)
    }

    /// Marks the inode or data block of this bit.
    pub fn set(&mut self, map: Map, bit: u32)
        requires { bit < bit_count map }
        ensures { ChangesBit self.old self.new (first_byte map) bit true }
    {
        self.put(map, bit, true);
    }

    /// Unmarks the inode or data block of this bit.
    pub fn clear(&mut self, map: Map, bit: u32)
        requires { bit < bit_count map }
        ensures { ChangesBit self.old self.new (first_byte map) bit false }
    {
        self.put(map, bit, false);
    }

    /// Writes the whole block.
    pub fn write(&self, block: &mut Block)
        ensures written { block.new ≡ self.now }
        ensures length { length self.now ≡ 1024 }
    {
        *block = self.block;
    }

    /// Gives this bit of a map a value.
    fn put(&mut self, map: Map, bit: u32, value: bool)
        requires { bit < bit_count map }
        ensures { ChangesBit self.old self.new (first_byte map) bit value }
    {
        put_bit(&mut self.block, map, bit, value);
    }
}

/// Whether this bit of a map is set, in a group's block of maps that is read where it stands.
pub fn bit_of(block: &Block, map: Map, bit: u32) -> bool
    requires { bit < bit_count map }
    ensures { result ≡ map_bit block.now (first_byte map) bit }
{
    let byte = block[map.first_byte() + (bit / 8) as usize];
    byte >> (bit % 8) & 1 == 1
}

/// Gives this bit of a map a value, in a group's block of maps that is changed where it stands.
pub fn put_bit(block: &mut Block, map: Map, bit: u32, value: bool)
    requires { bit < bit_count map }
    ensures { ChangesBit block.old block.new (first_byte map) bit value }
{
    let place = map.first_byte() + (bit / 8) as usize;
    block[place] = with_bit(block[place], bit % 8, value);
}

/// The byte with this value at this bit.
fn with_bit(byte: u8, bit: u32, value: bool) -> u8
    requires { bit < 8 }
    ensures { ChangesByte byte result bit value }
{
    let mask = 1 << bit;
    if value { byte | mask } else { byte & !mask }
}

/// A write of a group's block of maps that changes one bit is an update of that bit's cell alone.
pub fn changed_bits_are_updates_of_a_cell()
    ensures numbers { (geo : Geometry) → IsGeometry geo → (block : ℕ → List ℕ) (n : ℕ) (bytes : List ℕ) (value : Bool) → is_number geo n ≡ true
        → ChangesBit (block (group_block geo (n / geo.inodes))) bytes 32 (n % geo.inodes) value
        → view_of geo (put_at block (group_block geo (n / geo.inodes)) bytes) ≡ updated (view_of geo block) (SetNumber n value) }
    ensures blocks { (geo : Geometry) → IsGeometry geo → (block : ℕ → List ℕ) (a : ℕ) (bytes : List ℕ) (value : Bool) → is_data_address geo a ≡ true
        → ChangesBit (block (group_block geo (group_of_address geo a))) bytes 160 (data_bit geo a) value
        → view_of geo (put_at block (group_block geo (group_of_address geo a)) bytes) ≡ updated (view_of geo block) (SetBlock a value) }
{}
