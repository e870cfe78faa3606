//! Files are unlinked, while snapshots stand or not.
use crate::job::mounted_on_file;
use anyhow::Result;
use device::Device;
use layout::Refusal;
use snapshot::{Command, Volume};
use std::alloc::Global;
use std::fs;
use std::os::unix::fs::FileExt;
use std::rt::Files;

/// After how many files all is written, so that what is pending takes little memory.
const TOGETHER: usize = 256;

/// Unlinks the files of these paths, which a file lists, and counts them. Meanwhile so many snapshots are taken, the first one
/// before the first file, and each behind as many files; they stand at the end.
pub fn unlink_all<R: Files + AllocGlobal>(
    rt: &R,
    image: &str,
    paths: &str,
    snapshots: u32,
) -> Result<usize>
where
    R::File: FileExt,
{
    let listed = fs::read(rt, paths)?;
    let mut volume = mounted_on_file(rt, image)?;
    Ok(unlink_listed(rt.alloc(), &mut volume, listed.as_slice(), snapshots)?)
}

/// Unlinks the files of these paths while a snapshot stands, ends it, and counts the files.
pub fn unlink_and_end<R: Files + AllocGlobal>(rt: &R, image: &str, paths: &str) -> Result<usize>
where
    R::File: FileExt,
{
    let listed = fs::read(rt, paths)?;
    let mut volume = mounted_on_file(rt, image)?;
    let count = unlink_listed(rt.alloc(), &mut volume, listed.as_slice(), 1)?;
    volume.release(rt.alloc(), 0)?;
    Ok(count)
}

/// Unlinks the files of the paths in these lines, and counts them, while so many snapshots are taken.
pub fn unlink_listed<D: Device>(
    alloc: Global,
    volume: &mut Volume<D>,
    listed: &[u8],
    snapshots: u32,
) -> Result<usize, Refusal> {
    let files = listed.split(|byte| *byte == b'\n').count();
    let part = files
        .checked_div(snapshots as usize)
        .unwrap_or(files)
        .max(1);
    let mut count = 0usize;
    let mut taken = 0u32;
    for path in listed.split(|byte| *byte == b'\n') {
        if taken < snapshots && count.checked_rem(part) == Some(0) {
            volume.freeze(alloc)?;
            taken += 1;
        }
        if !path.is_empty() {
            unlink(alloc, volume, path)?;
            count = count.saturating_add(1);
        }
        if count.checked_rem(TOGETHER) == Some(0) {
            volume.apply(alloc, &Command::Sync)?;
        }
    }
    volume.apply(alloc, &Command::Sync)?;
    Ok(count)
}

/// Unlinks a file.
fn unlink<D: Device>(alloc: Global, volume: &mut Volume<D>, path: &[u8]) -> Result<(), Refusal> {
    let path = path.to_vec(alloc)?;
    volume.apply(alloc, &Command::Unlink(path))?;
    Ok(())
}
