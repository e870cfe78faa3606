//! An image that is read alone.
ghost use Rattle.std.specs.Prelude.{◌≡◌, ◌⊎◌, IfErr, OnOk};
ghost use Rattle.fuse_loop.specs.Sessions.{EndsWell};
ghost use Rattle.serve_lines.specs.Ends.{MayEndService};

use crate::owner::{Numbers, owner_of};
use crate::serve::failure_of;
use command_line::{Failure, others_of, workers_here};
use file_device::FileDevice;
use fuse_channels::Channel;
use fuse_loop::serve;
use fuse_reader::Desk;
use loaders::load_by;
use std::marker::Brand;
use std::os::unix::fs::FileExt;
use std::rt::Files;
use std::thread::Threads;

/// Answers the messages of a channel from a file's image.
pub(crate) fn serve_file<R: Files + AllocGlobal + Threads + Sync, C: Channel>(
    rt: &R,
    image: &str,
    owner: Option<Numbers>,
    channel: &mut C,
) -> Result<(), Failure>
where
    R::File: FileExt + Send,
    ensures refused { IfErr result (λ failure. MayEndService failure ⊎ (channel.new ≡ channel.old)) }
    ensures ended { OnOk result (EndsWell (C.ended channel.new) (C.taken channel.new)) }
{
    let mut desk = desk_of(rt, image, owner)?;
    match serve(rt.alloc(), &mut desk, channel) {
        Ok(()) => Ok(()),
        Err(error) => Err(failure_of(rt.alloc(), error)),
    }
}

/// A desk over a file's image.
fn desk_of<R: Files + AllocGlobal + Threads + Sync>(
    rt: &R,
    image: &str,
    owner: Option<Numbers>,
) -> Result<Desk<FileDevice<R::File, Brand>>, Failure>
where
    R::File: FileExt + Send,
{
    let alloc = rt.alloc();
    let mut device: FileDevice<R::File, Brand> = FileDevice::open(rt, image)?;
    let mut others = others_of(alloc, &device, workers_here(rt))?;
    let frozen = load_by(rt, alloc, &mut device, &mut others)?;
    let owner = owner_of(rt, image, owner)?;
    Ok(Desk::new(alloc, device, frozen, owner)?)
}
