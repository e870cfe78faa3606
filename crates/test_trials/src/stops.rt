//! What a stop leaves, or a loss of power.
use crate::images::mount;
use crate::stays::Stays;
use device::{Device, MemDevice};
use findings::Verdict;
use frozen::load;
use fsck::{Checked, check_one};
use layout::Refusal;
use mending::mend;
use rules::obeys;
use snapshot::Volume;
use std::alloc::Global;
use std::sync::Arc;
use std::thread::Threads;
use workers::{OpenGate, Workers};

/// What no stop may leave, and no loss of power.
#[derive(Clone, Copy, Debug, PartialEq, Eq)]
pub enum Fault {
    /// The image breaks the rule of this number.
    BreaksRule(u8),
    /// A check finds it damaged.
    IsDamaged,
    /// It is not mounted, or not mended, for this cause.
    Refused(Refusal),
    /// It was mended, and a check still finds so much.
    StaysSoft(usize),
    /// It has not all that was synced and is still there for users.
    LosesSynced,
    /// A sync was answered before all that was written is on the medium.
    IsLoose,
}

/// What is said of an image.
#[derive(Clone, Copy, Debug, PartialEq, Eq)]
pub struct Looked {
    /// By a check.
    pub verdict: Verdict,
    /// What is wrong with it, if anything is.
    pub fault: Option<Fault>,
}

/// What is wrong with an image that a stop left, if anything is: it has to obey the rules, a check may find nothing but what
/// repairs mend, it has to be mounted, and once its repairs are carried out, the snapshot has ended and all is written, a
/// check may find nothing. Refused with `NoMemory`.
pub fn fault_of(
    rt: &(impl Threads + Sync),
    alloc: Global,
    image: MemDevice,
) -> Result<Option<Fault>, Refusal> {
    let looked = look_at(rt, alloc, image, &Stays::nothing(alloc))?;
    Ok(looked.fault)
}

/// What is said of an image that a stop left, or a loss of power: it has to be as `fault_of` says, and to have all that stays.
/// Refused with `NoMemory`.
pub fn look_at(
    rt: &(impl Threads + Sync),
    alloc: Global,
    image: MemDevice,
    stays: &Stays,
) -> Result<Looked, Refusal> {
    match look_through(rt, alloc, image, stays) {
        Err(Refusal::NoMemory) => Err(Refusal::NoMemory),
        Err(refusal) => Ok(Looked {
            verdict: Verdict::Damaged,
            fault: Some(Fault::Refused(refusal)),
        }),
        Ok(looked) => Ok(looked),
    }
}

/// The same, refused as the image is.
fn look_through(
    rt: &(impl Threads + Sync),
    alloc: Global,
    mut image: MemDevice,
    stays: &Stays,
) -> Result<Looked, Refusal> {
    let checked = checked_of(rt, alloc, &mut image)?;
    let fault = match fault_of_checked(alloc, &checked, &mut image, stays)? {
        Some(fault) => Some(fault),
        None => fault_once_mended(rt, alloc, image)?,
    };
    Ok(Looked {
        verdict: checked.verdict(),
        fault,
    })
}

/// What is wrong with an image that was checked, as it is.
fn fault_of_checked(
    alloc: Global,
    checked: &Checked,
    image: &mut MemDevice,
    stays: &Stays,
) -> Result<Option<Fault>, Refusal> {
    if let Some(rule) = obeys(alloc, checked.frozen())? {
        return Ok(Some(Fault::BreaksRule(rule)));
    }
    if checked.verdict() == Verdict::Damaged {
        return Ok(Some(Fault::IsDamaged));
    }
    let has_all = stays.is_in(alloc, checked.frozen(), image)?;
    Ok((!has_all).then_some(Fault::LosesSynced))
}

/// What is wrong with an image once it was mended.
fn fault_once_mended(
    rt: &(impl Threads + Sync),
    alloc: Global,
    image: MemDevice,
) -> Result<Option<Fault>, Refusal> {
    let mut left = mended(rt, alloc, image)?;
    let left = checked_of(rt, alloc, &mut left)?.findings().len();
    Ok((left > 0).then_some(Fault::StaysSoft(left)))
}
/// The check of what a device holds.
fn checked_of(
    rt: &(impl Threads + Sync),
    alloc: Global,
    device: &mut MemDevice,
) -> Result<Checked, Refusal> {
    let frozen = Arc::new(alloc, load(alloc, device)?)?;
    check_one(rt, alloc, &frozen)
}

/// What a device holds once its volume was mounted and mended.
fn mended(
    rt: &(impl Threads + Sync),
    alloc: Global,
    image: MemDevice,
) -> Result<MemDevice, Refusal> {
    let volume = mended_volume(rt, alloc, image)?;
    let device = volume.live().device();
    device.image_after(alloc, device.writes())
}

/// Mounts the volume of a device, and mends it.
fn mended_volume<D: Device + Drop>(
    rt: &(impl Threads + Sync),
    alloc: Global,
    device: D,
) -> Result<Volume<D>, Refusal> {
    let mut volume = Volume::new(mount(alloc, device)?);
    mend(rt, alloc, &mut volume, Workers::new(1)?, &OpenGate)?;
    Ok(volume)
}
