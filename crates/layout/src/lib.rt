//! Where everything stands on an image: the superblock, the cylinder groups, the blocks of inodes and the data
//! blocks, after the BSD fast file system (McKusick and Ganger 1999). No call takes memory.
#![tactic(auto)]

ghost use Rattle.std.specs.Prelude.{◌≡◌, ◌+◌, ◌≤◌};
ghost use Rattle.model.specs.View as view;

use byteorder::{ByteOrder, LittleEndian};

mod fresh;
mod geometry;
mod refusal;

pub use fresh::{GROUP_MAGIC, fresh_block, fresh_blocks_are_the_fresh_image, next_fresh_block};
pub use geometry::{
    DIRECT_POINTERS, DOUBLE, DataPlace, Geometry, INODES_PER_BLOCK, InodePlace, MOST_BLOCKS, ROOT,
    SINGLE, TablePlace, places_are_one_to_one, read_super,
};
pub use refusal::Refusal;

/// How many bytes a block has.
pub const BLOCK_BYTES: usize = 1024;

/// What is read and written at once.
pub type Block = [u8; BLOCK_BYTES];

/// The number in the four bytes from this one on, the least byte first.
pub fn u32_at(block: &Block, byte: usize) -> u32
    requires { byte + 4 ≤ 1024 }
    ensures { result ≡ view.u32_at block.now byte }
{
    LittleEndian::read_u32(&block[byte..])
}
