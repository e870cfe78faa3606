//! An image that is read and written.
ghost use Rattle.std.specs.Prelude.{◌≡◌, ◌⊎◌, IfErr, IsOk, OnOk};
ghost use Rattle.fuse_loop.specs.Sessions.{EndsWell};
ghost use Rattle.serve_lines.specs.Ends.{MayEndService};

use crate::holding::{Holdable, held};
use crate::owner::{Numbers, owner_of};
use crate::serve::failure_of;
use crate::telling::Told;
use command_line::{Failure, others_of, workers_here};
use file_device::FileDevice;
use fuse_channels::Channel;
use fuse_daemon::{Ended, Plan, run};
use fuse_loop::LeftError;
use fuse_wire::Errno;
use fuse_writer::{Desk, Rules};
use image_changes::mount_by;
use joint_devices::Joint;
use layout::Refusal;
use std::alloc::Global;
use std::io::Eprint;
use std::marker::Brand;
use std::os::unix::fs::FileExt;
use std::rt::Files;
use std::sync::Wait;
use std::thread::Threads;
use std::time::Clock;

/// Answers the messages of a channel from a file's image, which is held and changed; beside that it is mended and flushed.
pub(crate) fn serve_file<
    R: Files + AllocGlobal + Clock + Eprint + Threads + Wait + Sync,
    C: Channel,
>(
    rt: &R,
    image: &str,
    owner: Option<Numbers>,
    rules: Rules,
    plan: Plan,
    channel: &mut C,
) -> Result<(), Failure>
where
    R::File: FileExt + Holdable + Send,
    ensures refused { IfErr result (λ failure. MayEndService failure ⊎ (channel.new ≡ channel.old)) }
    ensures ended { OnOk result (EndsWell (C.ended channel.new) (C.taken channel.new)) }
{
    let medium = held(rt, image)?;
    let desk = desk_of(rt, image, owner, rules)?;
    let told = Told { rt, image };
    let Ended {
        desk: _,
        served,
        written,
    } = run(rt, rt.alloc(), desk, plan, medium, &told, channel);
    outcome_of(rt.alloc(), served, written)
}

/// Whether the volume was served until it was unmounted, and all is written.
fn outcome_of(
    alloc: Global,
    served: Result<(), LeftError>,
    written: Result<(), Errno>,
) -> Result<(), Failure>
    ensures left { IfErr result MayEndService }
    ensures done { OnOk result (IsOk served × IsOk written) }
{
    match served {
        Ok(()) => {}
        Err(error) => return Err(failure_of(alloc, error)),
    }
    match written {
        Ok(()) => Ok(()),
        Err(_) => Err(Failure::from(Refusal::Device)),
    }
}

/// A desk over the volume of a file's image.
fn desk_of<R: Files + AllocGlobal + Threads + Sync>(
    rt: &R,
    image: &str,
    owner: Option<Numbers>,
    rules: Rules,
) -> Result<Desk<Joint<FileDevice<R::File, Brand>>>, Failure>
where
    R::File: FileExt + Send,
{
    let alloc = rt.alloc();
    let owner = owner_of(rt, image, owner)?;
    let device: FileDevice<R::File, Brand> = FileDevice::open_to_write(rt, image)?;
    let others = others_of(alloc, &device, workers_here(rt))?;
    let volume = mount_by(rt, alloc, device, others).map_err(|refused| refused.cause)?;
    Ok(Desk::new(alloc, volume, owner, rules)?)
}
