//! What the words of a line ask for, and the volume of an image.
use anyhow::{Result, bail};
use device::{Device, MemDevice};
use file_device::{FileDevice, OpenError};
use layout::Refusal;
use snapshot::{Live, NotMounted, Volume};
use std::alloc::Global;
use std::fs;
use std::marker::Brand;
use std::os::unix::fs::FileExt;
use std::rt::Files;
use workers::Workers;

/// What a line asks for.
#[derive(Clone, Copy, PartialEq, Eq)]
pub enum Job<'a> {
    /// The volume of an image is mended, with this many workers.
    Mend {
        image: &'a str,
        workers: Workers,
    },
    /// The files of these paths are unlinked while one snapshot stands, then three more are taken, and the first one ends.
    Hold {
        image: &'a str,
        paths: &'a str,
    },
    /// The files of these paths are unlinked, while so many snapshots are taken, which stand.
    Unlink {
        image: &'a str,
        paths: &'a str,
        snapshots: u32,
    },
    /// The files of these paths are unlinked while one snapshot stands, and then it ends.
    End {
        image: &'a str,
        paths: &'a str,
    },
}

/// Reads the words of a line, the program's name first.
pub fn parse(words: &[String]) -> Result<Job<'_>> {
    match words {
        [_, mode, image, last] => mode_of(mode.as_str(), image.as_str(), last.as_str()),
        [_, mode, image, paths, snapshots] if mode.as_str() == "unlink" => Ok(Job::Unlink {
            image: image.as_str(),
            paths: paths.as_str(),
            snapshots: snapshots.as_str().parse()?,
        }),
        _ => bail!(
            "the words are mend IMAGE WORKERS, hold IMAGE PATHS, end IMAGE PATHS or unlink IMAGE PATHS SNAPSHOTS"
        ),
    }
}

/// What a mode, an image and a word more ask for.
fn mode_of<'a>(mode: &str, image: &'a str, last: &'a str) -> Result<Job<'a>> {
    match mode {
        "mend" => Ok(Job::Mend {
            image,
            workers: Workers::new(last.parse()?)?,
        }),
        "hold" => Ok(Job::Hold { image, paths: last }),
        "end" => Ok(Job::End { image, paths: last }),
        _ => bail!("no such mode"),
    }
}

/// Mounts the volume of an image, on a device in memory.
pub fn mounted(rt: &(impl Files + AllocGlobal), image: &str) -> Result<Volume<MemDevice>> {
    let bytes = fs::read(rt, image)?;
    let device = MemDevice::from_bytes(rt.alloc(), bytes.as_slice())?;
    Ok(mount(rt.alloc(), device)?)
}

/// Mounts the volume of an image, on its file.
pub fn mounted_on_file<R: Files + AllocGlobal>(
    rt: &R,
    image: &str,
) -> Result<Volume<FileDevice<R::File, Brand>>>
where
    R::File: FileExt,
{
    let device = FileDevice::open_to_write(rt, image).map_err(|error: OpenError| error.cause)?;
    Ok(mount(rt.alloc(), device)?)
}

/// Mounts the volume of a device.
fn mount<D: Device + Drop>(alloc: Global, device: D) -> Result<Volume<D>, Refusal> {
    match Live::mount(alloc, device) {
        Ok(live) => Ok(Volume::new(live)),
        Err(NotMounted { device: _, cause }) => Err(cause),
    }
}
