//! Small images for tests: each is a fresh one but for some bytes.
#![tactic(auto)]

use device::{Byte, MemDevice};
use frozen::{Frozen, load};
use layout::{BLOCK_BYTES, Geometry, Refusal};
use std::alloc::Global;

/// A device of zeroes in memory.
pub fn zeroes(alloc: Global, blocks: u32) -> Result<MemDevice, Refusal> {
    let bytes = vec![in alloc; 0; blocks as usize * BLOCK_BYTES]?;
    MemDevice::from_bytes(alloc, bytes.as_slice())
}

/// What is kept of the fresh image of this geometry, in which these bytes are put.
pub fn frozen_with(alloc: Global, geometry: &Geometry, bytes: &[Byte]) -> Result<Frozen, Refusal> {
    load(alloc, &mut MemDevice::formatted(alloc, geometry, bytes)?)
}
