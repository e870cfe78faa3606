//! A trial whose device does not fail.
use crate::keeping::Keeps;
use crate::running::{Fused, fused, is_wanted, mount};
use device::{Device, MemDevice};
use layout::Refusal;
use snapshot::Volume;
use std::alloc::Global;
use std::thread::Threads;
use test_trials::{Step, Trial, beginning_of, carry_out, steps_of};

/// How a trial goes whose device does not fail.
#[derive(Drop)]
pub struct Plain<D: Device + Keeps> {
    /// A device, which was never written, with the image with which it begins.
    pub image: MemDevice,
    pub steps: Vec<Step>,
    /// How many calls of the device were made once each step was carried out.
    pub calls: Vec<u64>,
    /// Its volume once all steps were carried out, with the device.
    pub volume: Volume<Fused<D>>,
    /// How many steps came out otherwise than they have to.
    pub wrong: u64,
}

impl<D: Device + Keeps> Plain<D> {
    /// How many calls of the device were made in all.
    pub fn all_calls(&self) -> u64 {
        match self.calls.last() {
            Some(calls) => *calls,
            None => 0,
        }
    }

    /// Whether the call behind so many is made in a step, or before it.
    pub fn has_made(&self, place: usize, after: u64) -> bool {
        match self.calls.get(place) {
            Some(calls) => *calls > after,
            None => false,
        }
    }
}

/// Carries a trial out with a version of the layout.
pub fn plain_of<D: Device + Keeps>(
    rt: &(impl Threads + Sync),
    alloc: Global,
    trial: &Trial,
    version: u32,
) -> Result<Plain<D>, Refusal> {
    let image = beginning_of(rt, alloc, trial, version)?;
    let steps = steps_of(alloc, trial)?;
    let mut plain = Plain {
        volume: mounted(alloc, &image)?,
        image,
        steps: Vec::new(alloc),
        calls: Vec::new(alloc),
        wrong: 0,
    };
    for step in steps {
        add_step(rt, alloc, step, &mut plain)?;
    }
    Ok(plain)
}

/// The volume of an image, on a device that does not fail.
fn mounted<D: Device + Keeps>(
    alloc: Global,
    image: &MemDevice,
) -> Result<Volume<Fused<D>>, Refusal> {
    match mount(alloc, fused(alloc, image, u64::MAX, true)?) {
        Ok(volume) => Ok(volume),
        Err(refused) => Err(refused.cause),
    }
}

/// Carries a step out, and tells whether it came out as it has to.
fn goes_well<D: Device + Keeps>(
    rt: &(impl Threads + Sync),
    alloc: Global,
    volume: &mut Volume<Fused<D>>,
    step: &Step,
) -> Result<bool, Refusal> {
    let told = carry_out(rt, alloc, volume, &step.action);
    Ok(is_wanted::<D>(alloc, &told, step)?)
}

/// Carries a step out, and adds how it came out.
fn add_step<D: Device + Keeps>(
    rt: &(impl Threads + Sync),
    alloc: Global,
    step: Step,
    plain: &mut Plain<D>,
) -> Result<(), Refusal> {
    if !goes_well(rt, alloc, &mut plain.volume, &step)? {
        plain.wrong = plain.wrong.saturating_add(1);
    }
    plain.calls.push(plain.volume.live().device().calls())?;
    plain.steps.push(step)?;
    Ok(())
}
