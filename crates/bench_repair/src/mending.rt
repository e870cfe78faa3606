//! The steps by which a volume is mended, each timed.
use crate::job::mounted;
use anyhow::Result;
use device::MemDevice;
use frozen::Frozen;
use fsck::{Checked, check};
use layout::Refusal;
use snapshot::{Command, Volume};
use std::alloc::Global;
use std::io::Eprint;
use std::rt::Files;
use std::sync::Arc;
use std::thread::Threads;
use std::time::{Clock, Instant};
use workers::{OpenGate, Workers};

/// Mends the volume of an image, prints the time of each step, and counts the repairs.
pub fn mend(
    rt: &(impl Files + AllocGlobal + Threads + Sync + Clock + Eprint),
    image: &str,
    workers: Workers,
) -> Result<usize> {
    let mut volume = mounted(rt, image)?;
    mend_volume(rt, &mut volume, workers)
}

/// Mends a volume, prints the time of each step, and counts the repairs.
fn mend_volume(
    rt: &(impl AllocGlobal + Threads + Sync + Clock + Eprint),
    volume: &mut Volume<MemDevice>,
    workers: Workers,
) -> Result<usize> {
    let (number, frozen) = freeze(rt, volume)?;
    inspect(rt, volume, &frozen, workers)?;
    let repairs = repair(rt, volume)?;
    end(rt, volume, number)?;
    Ok(repairs)
}

/// Prints the time since a step began.
pub fn tell(rt: &(impl Clock + Eprint), step: &str, start: &Instant) -> Result<()> {
    let taken = start.elapsed(rt)?.as_nanos();
    eprintln!(rt; "{step} {taken}")?;
    Ok(())
}

/// Freezes the volume, prints the time, and gives the snapshot's number and its metadata.
pub fn freeze(
    rt: &(impl AllocGlobal + Clock + Eprint),
    volume: &mut Volume<MemDevice>,
) -> Result<(u64, Arc<Frozen>)> {
    let start = Instant::now(rt)?;
    let made = volume.freeze(rt.alloc())?;
    tell(rt, "freezing", &start)?;
    Ok(made)
}

/// Checks what was frozen, and installs the check.
fn inspect(
    rt: &(impl AllocGlobal + Threads + Sync + Clock + Eprint),
    volume: &mut Volume<MemDevice>,
    frozen: &Arc<Frozen>,
    workers: Workers,
) -> Result<()> {
    let start = Instant::now(rt)?;
    let checked = check(rt, rt.alloc(), frozen, workers, &OpenGate)?;
    tell(rt, "checking", &start)?;
    install(rt, volume, &checked)
}

/// Installs a check.
fn install(
    rt: &(impl AllocGlobal + Clock + Eprint),
    volume: &mut Volume<MemDevice>,
    checked: &Checked,
) -> Result<()> {
    let start = Instant::now(rt)?;
    volume.install(rt.alloc(), checked)?;
    tell(rt, "installing", &start)
}

/// Carries out the repairs, and counts them.
fn repair(
    rt: &(impl AllocGlobal + Clock + Eprint),
    volume: &mut Volume<MemDevice>,
) -> Result<usize> {
    let start = Instant::now(rt)?;
    let repairs = repair_all(rt.alloc(), volume)?;
    tell(rt, "repairing", &start)?;
    Ok(repairs)
}

/// Releases the snapshot of this number, and syncs.
fn end(
    rt: &(impl AllocGlobal + Clock + Eprint),
    volume: &mut Volume<MemDevice>,
    number: u64,
) -> Result<()> {
    let start = Instant::now(rt)?;
    volume.release(rt.alloc(), number)?;
    tell(rt, "releasing", &start)?;
    let start = Instant::now(rt)?;
    volume.apply(rt.alloc(), &Command::Sync)?;
    tell(rt, "syncing", &start)
}

/// Carries out each repair of the check that is installed, and counts them.
fn repair_all(alloc: Global, volume: &mut Volume<MemDevice>) -> Result<usize, Refusal> {
    let count = volume.plan_len();
    for place in 0..u32::try_from(count).unwrap_or(u32::MAX) {
        volume.repair(alloc, place)?;
    }
    Ok(count)
}
