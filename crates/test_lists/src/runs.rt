//! Commands carried out on the volume of an image in a file.
use crate::answer::Answer;
use crate::carrying::{Mounted, mount};
use crate::line::{is_skipped, parted};
use crate::request::Request;
use device::Device;
use file_device::FileDevice;
use layout::Refusal;
use snapshot::Command;
use std::alloc::{AllocError, Global};
use std::marker::Brand;
use std::os::unix::fs::FileExt;
use std::rt::Files;
use std::thread::Threads;

/// After how many lines what waits is flushed, so that the queue of updates stays short.
const LINES_AT_ONCE: usize = 1024;

/// How many lines there were.
#[derive(Clone, Copy)]
pub struct Count {
    /// How many asked for anything.
    pub lines: usize,
    /// How many of them were refused, or are no command to a mounted volume.
    pub refused: usize,
}

/// Carries out the commands of a file with these bytes on the volume of an image, and syncs it.
pub fn carry_out_on<R: Files + AllocGlobal + Threads + Sync>(
    rt: &R,
    image: &str,
    bytes: &[u8],
) -> Result<Count, Refusal>
where
    R::File: FileExt,
{
    let device: FileDevice<R::File, Brand> = FileDevice::open_to_write(rt, image)?;
    let mut mounted = mount(rt.alloc(), device)?;
    let count = carry_out_and_sync(rt, rt.alloc(), &mut mounted, bytes);
    drop(mounted);
    count
}

/// Carries out the commands on a mounted volume, and syncs it.
fn carry_out_and_sync<D: Device>(
    rt: &(impl Threads + Sync),
    alloc: Global,
    mounted: &mut Mounted<D>,
    bytes: &[u8],
) -> Result<Count, Refusal> {
    let count = carry_out_all(rt, alloc, mounted, bytes)?;
    mounted.flush(alloc)?;
    match mounted.carry_out(rt, alloc, Request::Command(Command::Sync)) {
        Answer::Refused(refusal) => Err(refusal),
        _ => Ok(count),
    }
}

/// Carries out the commands on a mounted volume.
fn carry_out_all<D: Device>(
    rt: &(impl Threads + Sync),
    alloc: Global,
    mounted: &mut Mounted<D>,
    bytes: &[u8],
) -> Result<Count, Refusal> {
    let mut count = Count {
        lines: 0,
        refused: 0,
    };
    for line in bytes.split(|byte| *byte == b'\n') {
        if is_skipped(line) {
            continue;
        }
        count.lines = count.lines.saturating_add(1);
        if carry_out_line(rt, alloc, mounted, line)?.is_refusal() {
            count.refused = count.refused.saturating_add(1);
        }
        if count.lines % LINES_AT_ONCE == 0 {
            mounted.flush(alloc)?;
        }
    }
    Ok(count)
}

/// Carries out a line.
fn carry_out_line<D: Device>(
    rt: &(impl Threads + Sync),
    alloc: Global,
    mounted: &mut Mounted<D>,
    line: &[u8],
) -> Result<Answer, AllocError> {
    let (asked, _wanted) = parted(line);
    Ok(match Request::parse(alloc, asked)? {
        Some(request) => mounted.carry_out(rt, alloc, request),
        None => Answer::NoCommand,
    })
}
