//! Volumes of small images, and what a check finds on what their devices hold.
use device::{Byte, MemDevice};
use findings::Finding;
use frozen::{Frozen, load};
use fsck::check_one;
use image_changes::mount;
use layout::{DOUBLE, Geometry, Refusal, SINGLE};
use snapshot::Volume;
use std::alloc::Global;
use std::sync::Arc;
use std::thread::Threads;

/// The versions of the layout.
pub const VERSIONS: [u32; 2] = [SINGLE, DOUBLE];

/// The mounted volume, of version 1 of the layout, of the image of so many groups of 16 blocks and so many inodes each that is
/// fresh but for these bytes.
pub fn mounted(
    alloc: Global,
    groups: u32,
    inodes: u32,
    bytes: &[Byte],
) -> Result<Volume<MemDevice>, Refusal> {
    mounted_of(alloc, SINGLE, groups, inodes, bytes)
}

/// The same of this version of the layout.
pub fn mounted_of(
    alloc: Global,
    version: u32,
    groups: u32,
    inodes: u32,
    bytes: &[Byte],
) -> Result<Volume<MemDevice>, Refusal> {
    let geometry = Geometry::new(groups, 16, inodes)?.with_version(version)?;
    Ok(mount(alloc, MemDevice::formatted(alloc, &geometry, bytes)?)?)
}

/// What the device of a volume holds.
fn held_by(alloc: Global, volume: &Volume<MemDevice>) -> Result<Frozen, Refusal> {
    let device = volume.live().device();
    let mut copy = device.image_after(alloc, device.writes())?;
    load(alloc, &mut copy)
}

/// What a check finds on what the device of a volume holds.
pub fn found_on<R: Threads + Sync>(
    rt: &R,
    alloc: Global,
    volume: &Volume<MemDevice>,
) -> Result<Vec<Finding>, Refusal> {
    let frozen = Arc::new(alloc, held_by(alloc, volume)?)?;
    let checked = check_one(rt, alloc, &frozen)?;
    Ok(checked.findings().to_vec(alloc)?)
}
