//! Bytes of images, and what a check finds on them.
use device::MemDevice;
use frozen::load;
use fsck::{Checked, check};
use layout::{BLOCK_BYTES, Block, Geometry, Refusal, fresh_block};
use std::alloc::Global;
use std::sync::Arc;
use std::thread::Threads;
use workers::{OpenGate, Workers};

/// Bytes that an image has in place of a fresh one's: where the first one stands, and what they are.
pub(crate) type Put = (usize, &'static [u8]);

/// The bytes of a fresh image.
pub(crate) fn fresh_bytes(alloc: Global, geometry: &Geometry) -> Result<Vec<u8>, Refusal> {
    let mut bytes = Vec::new(alloc);
    let mut block: Block = [0; BLOCK_BYTES];
    for address in 0..geometry.blocks() {
        fresh_block(geometry, address, &mut block);
        bytes.extend_from_slice(&block)?;
    }
    Ok(bytes)
}

/// Puts bytes into an image, and leaves out what stands behind its end.
pub(crate) fn put(bytes: &mut [u8], at: usize, values: &[u8]) {
    for (index, value) in values.iter().enumerate() {
        if let Some(byte) = bytes.get_mut(at.saturating_add(index)) {
            *byte = *value;
        }
    }
}

/// A fresh image with these bytes in it.
pub(crate) fn changed_bytes(
    alloc: Global,
    geometry: &Geometry,
    puts: &[Put],
) -> Result<Vec<u8>, Refusal> {
    let mut bytes = fresh_bytes(alloc, geometry)?;
    for (at, values) in puts {
        put(bytes.as_mut_slice(), *at, values);
    }
    Ok(bytes)
}

/// The check of an image of these bytes, by this many workers.
pub(crate) fn checked_by<R: Threads + AllocGlobal + Sync>(
    rt: &R,
    bytes: &[u8],
    workers: Workers,
) -> Result<Checked, Refusal> {
    let alloc = rt.alloc();
    let mut device = MemDevice::from_bytes(alloc, bytes)?;
    let frozen = Arc::new(alloc, load(alloc, &mut device)?)?;
    check(rt, alloc, &frozen, workers, &OpenGate)
}

/// A line for each finding on an image of these bytes.
pub(crate) fn found<R: Threads + AllocGlobal + Sync>(
    rt: &R,
    bytes: &[u8],
) -> Result<String, Refusal> {
    let checked = checked_by(rt, bytes, Workers::new(1)?)?;
    let mut lines = String::new(rt.alloc());
    for finding in checked.findings() {
        writeln!(lines, "{finding}")?;
    }
    Ok(lines)
}
