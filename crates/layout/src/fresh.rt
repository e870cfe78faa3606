ghost use Rattle.std.specs.Prelude.{◌≡◌, ℕ, ◌<◌, ◌≤◌, ◌+◌};
ghost use Rattle.model.specs.Layout.{Geometry as Numbers, IsGeometry, block_count};
ghost use Rattle.model.specs.Image.{IsImage, image_view};
ghost use Rattle.model.specs.Fresh.{fresh_view, root_bytes};
ghost use Rattle.model.specs.Rules.{ObeysRules};
ghost use Rattle.layout.specs.Fresh as fresh;

use crate::geometry::{ROOT, SUPER_MAGIC};
use crate::{BLOCK_BYTES, Block, Geometry};
use byteorder::{ByteOrder, LittleEndian};

/// The first four bytes of a group's block of maps, as a number.
pub const GROUP_MAGIC: u32 = 0x5355_4347;

/// The mode of a directory.
const DIRECTORY: u16 = 2;

/// Gives the block of this address on a fresh image: the superblock, each group's block of maps, the record of the
/// root and its block with the dots, and zeroes. The root's inode and block are marked and nothing else is.
pub fn fresh_block(geometry: &Geometry, address: u32, block: &mut Block)
    requires { address < block_count geometry.now }
    ensures { block.new ≡ fresh.fresh_bytes geometry.now address }
{
    *block = [0; BLOCK_BYTES];
    if address == 0 {
        return write_super(geometry, block);
    }
    let group = (address - 1) / geometry.blocks_a_group();
    let root = geometry.inode_place(ROOT);
    if (address - 1) % geometry.blocks_a_group() == 0 {
        write_maps(group, block);
    } else if address == root.address {
        write_root_record(geometry.data_start(0), root.byte, block);
    } else if address == geometry.data_start(0) {
        write_root_slots(block);
    }
}

/// The next address whose block on a fresh image may be other than zeroes, or the number of blocks where none follows: the
/// blocks between are zeroes.
pub fn next_fresh_block(geometry: &Geometry, address: u32) -> u32
    requires { address < block_count geometry.now }
    ensures later { address < result }
    ensures on_volume { result ≤ block_count geometry.now }
    ensures zeroes { (k : ℕ) → address < k → k < result → fresh.fresh_bytes geometry.now k ≡ fresh.zero_block }
{
    let blocks = geometry.blocks_a_group();
    if address < geometry.data_start(0) {
        return address + 1;
    }
    1 + ((address - 1) / blocks + 1) * blocks
}

/// Writes the superblock over zeroes.
fn write_super(geometry: &Geometry, block: &mut Block)
    requires { block.old ≡ fresh.zero_block }
    ensures { block.new ≡ fresh.super_bytes geometry.now }
{
    put_u32(block, 0, SUPER_MAGIC);
    put_u32(block, 4, geometry.version());
    put_u32(block, 8, geometry.groups());
    put_u32(block, 12, geometry.blocks_a_group());
    put_u32(block, 16, geometry.inodes_a_group());
}

/// Writes a group's block of maps over zeroes.
fn write_maps(group: u32, block: &mut Block)
    requires { block.old ≡ fresh.zero_block }
    ensures rest { (group ≡ 0 → ⊥) → block.new ≡ fresh.group_bytes group }
    ensures first { group ≡ 0 → block.new ≡ fresh.first_group_bytes }
{
    put_u32(block, 0, GROUP_MAGIC);
    put_u32(block, 4, group);
    if group == 0 {
        block[32] = 1 << ROOT;
        block[160] = 1;
    }
}

/// Writes the root's record over zeroes.
fn write_root_record(first_data: u32, byte: usize, block: &mut Block)
    requires in_block { byte + 128 ≤ 1024 }
    requires zeroes { block.old ≡ fresh.zero_block }
    ensures { block.new ≡ fresh.put_u32 (byte + 8) first_data (fresh.put_u32 (byte + 4) 1024 (fresh.put_u16 (byte + 2) 2 (fresh.put_u16 byte 2 fresh.zero_block))) }
{
    put_u16(block, byte, DIRECTORY);
    put_u16(block, byte + 2, 2);
    put_u32(block, byte + 4, BLOCK_BYTES as u32);
    put_u32(block, byte + 8, first_data);
}

/// Writes the root's dots over zeroes.
fn write_root_slots(block: &mut Block)
    requires { block.old ≡ fresh.zero_block }
    ensures { block.new ≡ root_bytes }
{
    put_u32(block, 0, ROOT);
    block[4] = 1;
    block[8] = b'.';
    put_u32(block, 64, ROOT);
    block[68] = 2;
    block[72] = b'.';
    block[73] = b'.';
}

/// Writes a number into the four bytes from this one on, the least byte first.
fn put_u32(block: &mut Block, byte: usize, number: u32)
    requires { byte + 4 ≤ 1024 }
    ensures { block.new ≡ fresh.put_u32 byte number block.old }
{
    LittleEndian::write_u32(&mut block[byte..byte + 4], number);
}

/// Writes a number into the two bytes from this one on, the least byte first.
fn put_u16(block: &mut Block, byte: usize, number: u16)
    requires { byte + 2 ≤ 1024 }
    ensures { block.new ≡ fresh.put_u16 byte number block.old }
{
    LittleEndian::write_u16(&mut block[byte..byte + 2], number);
}

/// The blocks of a fresh image are an image, it holds what the fresh view says, and it obeys the rules.
pub fn fresh_blocks_are_the_fresh_image()
    ensures image { (geo : Numbers) → IsGeometry geo → IsImage geo (fresh.fresh_image geo) }
    ensures view { (geo : Numbers) → IsGeometry geo → image_view geo (fresh.fresh_image geo) ≡ fresh_view geo }
    ensures rules { (geo : Numbers) → IsGeometry geo → ObeysRules geo (image_view geo (fresh.fresh_image geo)) }
{}
