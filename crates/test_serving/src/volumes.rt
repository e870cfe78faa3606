//! The image that is served.
use device::MemDevice;
use frozen::load;
use fuse_reader::{Desk, Owner};
use fuse_wire::Time;
use image_changes::change;
use layout::{Refusal, SINGLE};
use snapshot::{Command, Volume};
use std::alloc::Global;
use test_mounted::{Asked, commands_of, mounted_of};

/// A file with six bytes, and a directory with an empty file.
const MADE: &[Asked] = &[
    Asked::Create(b"/a"),
    Asked::Open(b"/a"),
    Asked::Write(0, 0, b"hello\n"),
    Asked::Close(0),
    Asked::Mkdir(b"/d"),
    Asked::Create(b"/d/b"),
];

/// Whose all is, and when it was changed.
const OWNER: Owner = Owner {
    user: 7,
    group: 8,
    changed: Time {
        seconds: 1000,
        nanoseconds: 5,
    },
};

/// A desk with an image of one group of 16 blocks and 16 inodes.
pub(crate) fn desk(alloc: Global) -> Result<Desk<MemDevice>, Refusal> {
    let commands = commands_of(alloc, MADE)?;
    let mut device = device_of(alloc, commands.as_slice())?;
    let frozen = load(alloc, &mut device)?;
    Ok(Desk::new(alloc, device, frozen, OWNER)?)
}

/// A device with what a fresh volume is after these commands.
fn device_of(alloc: Global, commands: &[Command]) -> Result<MemDevice, Refusal> {
    let mut volume = mounted_of(alloc, SINGLE, 1, 16, &[])?;
    changed(alloc, &mut volume, commands)
}

/// A device with what a volume's device holds after these commands.
fn changed(
    alloc: Global,
    volume: &mut Volume<MemDevice>,
    commands: &[Command],
) -> Result<MemDevice, Refusal> {
    change(alloc, volume, commands)?;
    let held = volume.live().device();
    held.image_after(alloc, held.writes())
}
