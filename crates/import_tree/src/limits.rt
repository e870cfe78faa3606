//! How many bytes a file may have that goes into an image.
ghost use Rattle.std.specs.Prelude.{◌≡◌, ◌*◌, ◌≤◌, IsOkUnless, OkIff};
ghost use Rattle.model.specs.Shape.{most_blocks};

use device::Device;
use failures::Failure;
use file_device::FileDevice;
use layout::{BLOCK_BYTES, DIRECT_POINTERS, Geometry, MOST_BLOCKS, Refusal, read_super};
use std::marker::Brand;
use std::os::unix::fs::FileExt;
use std::rt::Files;

/// How many bytes a file may have in the image that allows the longest files.
pub const MOST_BYTES: u64 = MOST_BLOCKS as u64 * BLOCK_BYTES as u64;

/// How many bytes a file may have in each image, whatever version its layout has: their pointers stand in the record and in the
/// indirect block.
pub const SHORT_BYTES: u64 = (DIRECT_POINTERS as u64 + 256) * BLOCK_BYTES as u64;

/// Where the items of a line go.
#[derive(Clone, Copy, Debug)]
pub enum Destination<'a> {
    /// Into an image of this geometry, which is made once they are listed.
    Fresh(&'a Geometry),
    /// Into the image in this file.
    File(&'a str),
}

impl Destination<'_> {
    /// How many bytes a file of this length may have there at most. An image is looked at for a long file alone, since every image
    /// may have a short one: then it is refused where it cannot be read.
    pub(crate) fn most_bytes<R: Files + AllocGlobal>(
        self,
        rt: &R,
        length: u64,
    ) -> Result<u64, Failure>
    where
        R::File: FileExt,
    {
        match self {
            Destination::Fresh(geometry) => Ok(file_bytes(geometry)),
            Destination::File(_) if length <= SHORT_BYTES => Ok(SHORT_BYTES),
            Destination::File(image) => file_bytes_in(rt, image),
        }
    }
}

/// How many bytes a file may have in a volume, which depends on the version of its layout.
pub fn file_bytes(geometry: &Geometry) -> u64
    ensures { result ≡ 1024 * most_blocks geometry.now }
{
    u64::from(geometry.most_blocks()) * BLOCK_BYTES as u64
}

/// How many bytes a file may have in a file's image. If that begins with no superblock, no file is too long for it: the line is
/// refused for its image then.
fn file_bytes_in<R: Files + AllocGlobal>(rt: &R, image: &str) -> Result<u64, Failure>
where
    R::File: FileExt,
{
    match geometry_in(rt, image) {
        Ok(Some(geometry)) => Ok(file_bytes(&geometry)),
        Ok(None) => Ok(MOST_BYTES),
        Err(failure) => Err(failure.on_image(rt, image)),
    }
}

/// The geometry that a file's image begins with.
fn geometry_in<R: Files + AllocGlobal>(rt: &R, image: &str) -> Result<Option<Geometry>, Failure>
where
    R::File: FileExt,
{
    let mut device: FileDevice<R::File, Brand> = FileDevice::open(rt, image)?;
    let mut block = [0; BLOCK_BYTES];
    match device.read(0, &mut block) {
        Ok(()) => Ok(read_super(&block).ok()),
        Err(_fault) => Err(Failure::from(Refusal::Device)),
    }
}

/// Refuses, with `TooBig`, a file of more than so many bytes.
pub(crate) fn allow_length(length: u64, most: u64) -> Result<(), Refusal>
    ensures allowed { OkIff result (length ≤ most) tt }
    ensures error { IsOkUnless result Refusal.TooBig }
{
    if length > most {
        return Err(Refusal::TooBig);
    }
    Ok(())
}
