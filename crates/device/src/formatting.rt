ghost use Rattle.std.specs.Prelude.{◌≡◌, ℕ, ◌<◌, ◌≤◌, length, slice_set, OnOk, OnErr, IsErrOf, IsOkUnless};
ghost use Rattle.model.specs.Layout.{block_count};
ghost use Rattle.model.specs.Image.{IsImage, block_at, image_view};
ghost use Rattle.model.specs.Fresh.{fresh_view};
ghost use Rattle.model.specs.Rules.{ObeysRules};
ghost use Rattle.layout.specs.Fresh as fresh;
ghost use Rattle.layout.specs.Fresh.{zero_block};
ghost use Rattle.device.specs.Zeroes.{AreZeroes};
ghost use Rattle.device.specs.Writes.{CountsFaults, HasFailed};

use crate::{Device, DeviceFault};
use layout::{
    BLOCK_BYTES, Block, Geometry, Refusal, fresh_block, fresh_blocks_are_the_fresh_image,
    next_fresh_block,
};

/// What the blocks of a device are known to hold before it is formatted.
#[derive(Clone, Copy, Debug, PartialEq, Eq)]
pub enum Before {
    /// Anything: each block is written.
    Anything,
    /// Zeroes: the blocks that stay zero are not written.
    Zeroes,
}

/// Makes a fresh image of all blocks of a device, writing in the order of their addresses. `Device` where a write
/// failed: then the blocks before that one are those of the fresh image.
pub fn format<D: Device>(device: &mut D, geometry: &Geometry, before: Before) -> Result<(), Refusal>
    requires count { length (D.image device.old) ≡ block_count geometry.now }
    requires zeroes { before ≡ Before.Zeroes → AreZeroes (D.image device.old) }

    ensures image { OnOk result (D.image device.new ≡ fresh.fresh_image geometry.now) }
    ensures is_image { OnOk result (IsImage geometry.now (D.image device.new)) }
    ensures view { OnOk result (image_view geometry.now (D.image device.new) ≡ fresh_view geometry.now) }
    ensures rules { OnOk result (ObeysRules geometry.now (image_view geometry.now (D.image device.new))) }

    ensures error { IsOkUnless result Refusal.Device }
    ensures cause { IsErrOf result Refusal.Device → HasFailed (D.failures device.old) (D.failures device.new) }
    ensures count { length (D.image device.new) ≡ length (D.image device.old) }
    ensures honest { D.honest device.new → D.honest device.old }
{
    fresh_blocks_are_the_fresh_image();
    let mut block = [0; BLOCK_BYTES];
    let mut address = 0;
    while address < geometry.blocks() {
        fresh_block(geometry, address, &mut block);
        put(device, address, &block, before)?;
        address = next_address(geometry, address, before);
    }
    Ok(())
}

/// The next address to be looked at: the blocks between are zeroes and stay so.
fn next_address(geometry: &Geometry, address: u32, before: Before) -> u32
    requires address { address < block_count geometry.now }
    requires few { block_count geometry.now ≤ 262_145 }
    ensures later { address < result }
    ensures on_volume { result ≤ block_count geometry.now }
    ensures between { (k : ℕ) → address < k → k < result → (before ≡ Before.Zeroes) × (fresh.fresh_bytes geometry.now k ≡ zero_block) }
{
    match before {
        Before::Anything => address + 1,
        Before::Zeroes => next_fresh_block(geometry, address),
    }
}

/// Gives an address its block, by a write unless that would put zeroes over zeroes.
fn put<D: Device>(
    device: &mut D,
    address: u32,
    block: &Block,
    before: Before,
) -> Result<(), DeviceFault>
    requires address { address < length (D.image device.old) }
    requires zeroes { before ≡ Before.Zeroes → block_at (D.image device.old) address ≡ zero_block }
    ensures put { OnOk result (D.image device.new ≡ slice_set (D.image device.old) address block.now) }
    ensures fault { OnErr result (D.image device.new ≡ D.image device.old) }
    ensures honest { D.honest device.new → D.honest device.old }
    ensures cause { CountsFaults result (D.failures device.old) (D.failures device.new) }
{
    match before {
        Before::Zeroes if *block == [0; BLOCK_BYTES] => Ok(()),
        _ => device.write(address, block),
    }
}
