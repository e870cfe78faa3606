//! The image with which a trial begins.
use crate::carrying::carry_out;
use crate::images::{bytes_of, mount};
use crate::trial::{Step, Trial, steps_before};
use device::{Device, MemDevice};
use layout::Refusal;
use snapshot::{Command, Volume};
use std::alloc::Global;
use std::thread::Threads;

/// A device, which was never written, with the image with which a trial begins for this version of the layout. Refused as what is
/// done before the trial is, if anything of it is.
pub fn beginning_of(
    rt: &(impl Threads + Sync),
    alloc: Global,
    trial: &Trial,
    version: u32,
) -> Result<MemDevice, Refusal> {
    let bytes = bytes_of(alloc, trial.numbers, version, trial.puts)?;
    let device = MemDevice::from_bytes(alloc, bytes.as_slice())?;
    if trial.before.is_empty() {
        return Ok(device);
    }
    let steps = steps_before(alloc, trial)?;
    after_steps(rt, alloc, device, steps.as_slice())
}

/// What a device holds once these steps were carried out on its volume, and synced.
fn after_steps(
    rt: &(impl Threads + Sync),
    alloc: Global,
    device: MemDevice,
    steps: &[Step],
) -> Result<MemDevice, Refusal> {
    let mut volume = Volume::new(mount(alloc, device)?);
    carry_out_all(rt, alloc, &mut volume, steps)?;
    let device = volume.live().device();
    device.image_after(alloc, device.writes())
}

/// Carries these steps out on a volume, and syncs it.
fn carry_out_all<D: Device>(
    rt: &(impl Threads + Sync),
    alloc: Global,
    volume: &mut Volume<D>,
    steps: &[Step],
) -> Result<(), Refusal> {
    for step in steps {
        carry_out(rt, alloc, volume, &step.action)?;
    }
    volume.apply(alloc, &Command::Sync)?;
    Ok(())
}
