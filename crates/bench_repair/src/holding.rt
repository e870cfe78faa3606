//! Four snapshots, and the blocks that are held for one of them.
use crate::job::mounted;
use crate::mending::{freeze, tell};
use crate::unlinking::unlink_listed;
use anyhow::Result;
use device::MemDevice;
use snapshot::{Command, Volume};
use std::fs;
use std::io::Eprint;
use std::rt::Files;
use std::time::{Clock, Instant};

/// Unlinks the files of these paths while a snapshot stands, takes three more, and ends the first one, for which all blocks of
/// these files are held. Prints the time of the fourth freeze and of that end, and counts the files.
pub fn hold(
    rt: &(impl Files + AllocGlobal + Clock + Eprint),
    image: &str,
    paths: &str,
) -> Result<usize> {
    let listed = fs::read(rt, paths)?;
    let mut volume = mounted(rt, image)?;
    let count = unlink_listed(rt.alloc(), &mut volume, listed.as_slice(), 1)?;
    take_and_end(rt, &mut volume)?;
    Ok(count)
}

/// Takes three more snapshots, and ends the first one.
fn take_and_end(
    rt: &(impl AllocGlobal + Clock + Eprint),
    volume: &mut Volume<MemDevice>,
) -> Result<()> {
    for _snapshot in 0..2 {
        volume.freeze(rt.alloc())?;
    }
    freeze(rt, volume)?;
    let start = Instant::now(rt)?;
    volume.release(rt.alloc(), 0)?;
    tell(rt, "releasing", &start)?;
    let start = Instant::now(rt)?;
    volume.apply(rt.alloc(), &Command::Sync)?;
    tell(rt, "syncing", &start)
}
