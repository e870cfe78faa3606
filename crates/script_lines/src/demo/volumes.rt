//! The volumes of the story, all of them in memory.
use crate::demo::texts::{SCRIPT, STOP, USERS_SCRIPT, WORKERS};
use crate::stops::carry_out;
use device::MemDevice;
use image_changes::mount;
use image_lines::mounting::mount as mount_by_workers;
use joint_devices::Joint;
use layout::{BLOCK_BYTES, Block, Geometry, Refusal, fresh_block};
use outcomes::with;
use snapshot::{Command, Volume};
use std::alloc::Global;
use std::sync::Wait;
use std::thread::Threads;
use user_scripts::{BadScript, Commands, UserLine, parse};
use users::{Ran, run};
use workers::{OpenGate, Workers};

/// The bytes of a fresh image of one group with 16 blocks and 16 inodes.
pub(crate) fn fresh_bytes(alloc: Global) -> Result<Vec<u8>, Refusal> {
    let geometry = Geometry::new(1, 16, 16)?;
    let mut bytes = Vec::new(alloc);
    let mut block: Block = [0; BLOCK_BYTES];
    for address in 0..geometry.blocks() {
        fresh_block(&geometry, address, &mut block);
        bytes.extend_from_slice(&block)?;
    }
    Ok(bytes)
}

/// The lines of the script that is stopped.
pub(crate) fn script(alloc: Global) -> Result<Vec<UserLine>, Refusal> {
    lines_of(alloc, SCRIPT, Commands::OfUsersAndFlushes)
}

/// The lines of a script of the story.
fn lines_of(alloc: Global, script: &str, which: Commands) -> Result<Vec<UserLine>, Refusal> {
    parse(alloc, script.as_bytes(), which).map_err(refusal_of)
}

/// What a script of the story is refused for: want of memory alone, since its lines are of a form that is read.
fn refusal_of(refused: BadScript) -> Refusal {
    match refused {
        BadScript::NoMemory => Refusal::NoMemory,
        BadScript::Line(_) => Refusal::BadIndex,
    }
}

/// What the device held, as the script ran on the volume of this image, after the write at which the script is stopped.
pub(crate) fn stopped(alloc: Global, image: &[u8]) -> Result<MemDevice, Refusal> {
    let device = MemDevice::from_bytes(alloc, image)?;
    let mut volume = mount(alloc, device)?;
    stopped_on(alloc, &mut volume)
}

/// The same of a volume that was just mounted.
fn stopped_on(alloc: Global, volume: &mut Volume<MemDevice>) -> Result<MemDevice, Refusal> {
    carry_out(alloc, volume, script(alloc)?)?;
    volume.apply(alloc, &Command::Sync)?;
    volume.live().device().image_after(alloc, STOP)
}

/// What comes of two users on the volume of a device, while it is frozen, checked and repaired.
pub(crate) fn run_of_users(
    rt: &(impl Threads + Wait + Sync),
    alloc: Global,
    device: MemDevice,
) -> Result<Ran<Joint<MemDevice>>, Refusal> {
    let workers = Workers::nearest(WORKERS);
    let volume = Volume::new(mount_by_workers(
        rt,
        alloc,
        device,
        Vec::new(alloc),
        workers,
        &OpenGate,
    )?);
    let (script, volume) = with(lines_of(alloc, USERS_SCRIPT, Commands::OfUsers), volume)?;
    run(rt, alloc, volume, script, workers)
}

/// What the device of a volume holds.
pub(crate) fn held_by(
    alloc: Global,
    volume: &Volume<Joint<MemDevice>>,
) -> Result<MemDevice, Refusal> {
    let device = volume.live().device().device();
    device.image_after(alloc, device.writes())
}
