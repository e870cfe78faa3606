//! What is left by stops: each image that a device held, mounted, checked, and its files compared with what they had.
use crate::carrying::mount;
use crate::history::{History, Place, block_of};
use device::MemDevice;
use findings::Finding;
use frozen::{Frozen, load};
use fsck::check_one;
use inode::Record;
use layout::{BLOCK_BYTES, ROOT, Refusal};
use std::alloc::{AllocError, Global};
use std::sync::Arc;
use std::thread::Threads;

/// What no stop may leave.
#[derive(Clone, Copy)]
pub enum Fault {
    /// A volume that is not mounted.
    NotMounted(Refusal),
    /// Damage: something that no repair mends.
    Damage(Finding),
    /// A block of a reachable file that has, below the file's size, bytes which the file never had there.
    OtherBytes(Place),
}

/// A stop with what none may leave.
#[derive(Clone, Copy)]
pub struct BadStop {
    /// How many writes were made before it.
    pub writes: usize,
    pub fault: Fault,
}

impl BadStop {
    /// Writes it behind a text.
    pub fn write_to(&self, text: &mut String) -> Result<(), AllocError> {
        let writes = self.writes;
        match self.fault {
            Fault::NotMounted(refusal) => write!(text, "stop {writes} refused {refusal}"),
            Fault::Damage(finding) => write!(text, "stop {writes} damaged {finding}"),
            Fault::OtherBytes(Place { inode, index }) => {
                write!(
                    text,
                    "stop {writes} other bytes inode {inode} index {index}"
                )
            }
        }
    }
}

/// Looks at the stop after each number of writes that a device got, and tells how many stops these are.
pub fn look_at_stops(
    rt: &(impl Threads + Sync),
    alloc: Global,
    device: &MemDevice,
    history: &History,
) -> Result<usize, BadStop> {
    for writes in 0..=device.writes() {
        let outcome = device
            .image_after(alloc, writes)
            .map_err(|refusal| Fault::NotMounted(refusal))
            .and_then(|image| look_at(rt, alloc, image, history));
        if let Err(fault) = outcome {
            return Err(BadStop { writes, fault });
        }
    }
    Ok(device.writes().saturating_add(1))
}

/// Looks at what a stop left.
fn look_at(
    rt: &(impl Threads + Sync),
    alloc: Global,
    mut image: MemDevice,
    history: &History,
) -> Result<(), Fault> {
    find_fault(rt, alloc, &mut image, history)?;
    match mount(alloc, image).err() {
        Some(refusal) => Err(Fault::NotMounted(refusal)),
        None => Ok(()),
    }
}

/// Gives what is wrong with what a stop left as an error.
fn find_fault(
    rt: &(impl Threads + Sync),
    alloc: Global,
    image: &mut MemDevice,
    history: &History,
) -> Result<(), Fault> {
    match fault_of(rt, alloc, image, history) {
        Ok(None) => Ok(()),
        Ok(Some(fault)) => Err(fault),
        Err(refusal) => Err(Fault::NotMounted(refusal)),
    }
}

/// What is wrong with what a stop left, if anything is. Refused as an image that cannot be loaded.
fn fault_of(
    rt: &(impl Threads + Sync),
    alloc: Global,
    image: &mut MemDevice,
    history: &History,
) -> Result<Option<Fault>, Refusal> {
    let frozen = Arc::new(alloc, load(alloc, image)?)?;
    let checked = check_one(rt, alloc, &frozen)?;
    let findings = checked.findings();
    if let Some(damage) = findings.iter().find(|finding| !finding.is_soft()) {
        return Ok(Some(Fault::Damage(*damage)));
    }
    let place = other_bytes(&frozen, image, findings, history)?;
    Ok(place.map(|place| Fault::OtherBytes(place)))
}

/// The first block of a reachable file with bytes that the file never had there.
fn other_bytes(
    frozen: &Frozen,
    image: &mut MemDevice,
    findings: &[Finding],
    history: &History,
) -> Result<Option<Place>, Refusal> {
    for inode in ROOT..frozen.geometry().inodes() {
        if findings.contains(&Finding::LostInode(inode)) {
            continue;
        }
        let record = frozen.record(inode);
        if let Some(place) = other_bytes_of(frozen, image, inode, &record, history)? {
            return Ok(Some(place));
        }
    }
    Ok(None)
}

/// The first block of the file with this number and record that has bytes which the file never had there.
fn other_bytes_of(
    frozen: &Frozen,
    image: &mut MemDevice,
    inode: u32,
    record: &Record,
    history: &History,
) -> Result<Option<Place>, Refusal> {
    for index in 0..record.blocks() {
        let place = Place { inode, index };
        let behind = (record.size as usize).saturating_sub(BLOCK_BYTES * index as usize);
        if let Some(block) = block_of(frozen, image, place)? {
            if !history.has(place, &block[..behind.min(BLOCK_BYTES)]) {
                return Ok(Some(place));
            }
        }
    }
    Ok(None)
}
