//! The volume of a trial, on a device that may fail, and how its steps come out.
use crate::keeping::Keeps;
use device::{Device, Fuse, MemDevice};
use layout::Refusal;
use snapshot::{Command, Live, NotMounted, Volume};
use std::alloc::{AllocError, Global};
use test_trials::{Action, Step, Told, Watched, write_told};

/// A device in memory that keeps what it is given, under a fuse, under a count of its calls.
pub type Fused<D> = Watched<Fuse<D>>;

/// A device with this image that lets so many calls through, and then fails once or from then on.
pub fn fused<D: Device + Keeps>(
    alloc: Global,
    image: &MemDevice,
    calls: u64,
    once: bool,
) -> Result<Fused<D>, Refusal> {
    let device = D::over(alloc, image.image_after(alloc, 0)?)?;
    Ok(Watched::new(Fuse::new(device, calls, once)))
}

/// A volume, or a device whose volume was not mounted and the cause.
pub fn mount<D: Device + Keeps>(
    alloc: Global,
    device: Fused<D>,
) -> Result<Volume<Fused<D>>, NotMounted<Fused<D>>> {
    match Live::mount(alloc, device) {
        Ok(live) => Ok(Volume::new(live)),
        Err(refused) => Err(refused),
    }
}

/// The device of a volume, which keeps what it was given.
pub fn kept<D: Device + Keeps>(volume: &Volume<Fused<D>>) -> &D {
    volume.live().device().device().device()
}

/// Whether a step came out as it has to. How many updates a flush writes depends on the device: what was written before may be
/// loose.
pub fn is_wanted<D: Device + Keeps>(
    alloc: Global,
    told: &Result<Told, Refusal>,
    step: &Step,
) -> Result<bool, AllocError> {
    if is_flushed(&step.action, told) && !D::KEEPS_ORDER {
        return Ok(true);
    }
    let mut text = String::new(alloc);
    write_told(&mut text, told)?;
    Ok(text.as_str() == step.wanted)
}

/// Whether an action is a flush that was answered.
fn is_flushed(action: &Action, told: &Result<Told, Refusal>) -> bool {
    matches!(action, Action::Command(Command::Flush(_))) && told.is_ok()
}
