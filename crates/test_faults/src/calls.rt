//! A device that fails at each of its calls in turn, once or from then on.
use crate::keeping::Keeps;
use crate::plain::Plain;
use crate::running::{Fused, fused, is_wanted, kept, mount};
use crate::tally::Tally;
use anyhow::Result;
use device::Device;
use layout::Refusal;
use snapshot::{NotMounted, Volume};
use std::alloc::Global;
use std::io::Eprint;
use std::thread::Threads;
use test_trials::{Seen, Step, Told, carry_out, is_synced};

/// Which call of the device fails: the one behind so many, alone or with all that follow.
#[derive(Clone, Copy, Debug)]
struct Failing {
    after: u64,
    once: bool,
}

/// What goes wrong in a run.
#[derive(Clone, Copy, Debug)]
enum Wrong {
    /// The mount was refused where the device had not failed, with another cause, or once more; or it was not where it had.
    Mount,
    /// A step was refused with `Device`, and the device had not failed in it; or the other way round.
    Cause,
    /// A step that was refused so changed what users see.
    Changed,
    /// A step came out otherwise than it has to.
    Answer,
    /// The device did not fail.
    NoFault,
    /// Other writes reached the device than do where nothing fails, or other syncs.
    Writes,
    /// A sync was answered before all that was written is on the medium.
    Loose,
}

/// Lets each call of the device fail that a trial makes, with all that follow and alone.
pub fn break_calls<R: Threads + Eprint + Sync + AllocGlobal, D: Device + Keeps>(
    rt: &R,
    name: (&str, &str),
    plain: &Plain<D>,
) -> Result<Tally> {
    let mut tally = Tally::new();
    for after in 0..plain.all_calls() {
        break_call(rt, name, plain, Failing { after, once: false }, &mut tally)?;
        break_call(rt, name, plain, Failing { after, once: true }, &mut tally)?;
    }
    Ok(tally)
}

/// Carries a trial out on a device that fails so.
fn break_call<R: Threads + Eprint + Sync + AllocGlobal, D: Device + Keeps>(
    rt: &R,
    name: (&str, &str),
    plain: &Plain<D>,
    failing: Failing,
    tally: &mut Tally,
) -> Result<()> {
    let wrong = wrong_of(rt, rt.alloc(), plain, failing)?;
    tally.count(wrong.is_some());
    if let Some(wrong) = wrong {
        let (name, behind) = name;
        eprintln!(rt; "{name}{behind}: {failing:?}: {wrong:?}")?;
    }
    Ok(())
}

/// What goes wrong where the device fails so, if anything does.
fn wrong_of<D: Device + Keeps>(
    rt: &(impl Threads + Sync),
    alloc: Global,
    plain: &Plain<D>,
    failing: Failing,
) -> Result<Option<Wrong>, Refusal> {
    let device: Fused<D> = fused(alloc, &plain.image, failing.after, failing.once)?;
    match mount(alloc, device) {
        Ok(mut volume) => wrong_in_volume(rt, alloc, &mut volume, plain, failing),
        Err(refused) => wrong_after_mount(rt, alloc, refused, plain, failing),
    }
}

/// The same of a volume that was mounted, with no failure.
fn wrong_in_volume<D: Device + Keeps>(
    rt: &(impl Threads + Sync),
    alloc: Global,
    volume: &mut Volume<Fused<D>>,
    plain: &Plain<D>,
    failing: Failing,
) -> Result<Option<Wrong>, Refusal> {
    if volume.live().device().faults() > 0 {
        return Ok(Some(Wrong::Mount));
    }
    wrong_in_steps(rt, alloc, volume, plain, failing)
}

/// The same where the mount was refused. If the device failed once it is mounted again.
fn wrong_after_mount<D: Device + Keeps>(
    rt: &(impl Threads + Sync),
    alloc: Global,
    refused: NotMounted<Fused<D>>,
    plain: &Plain<D>,
    failing: Failing,
) -> Result<Option<Wrong>, Refusal> {
    let NotMounted { device, cause } = refused;
    if cause != Refusal::Device || device.faults() != 1 {
        return Ok(Some(Wrong::Mount));
    }
    if !failing.once {
        return Ok(None);
    }
    match mount(alloc, device) {
        Ok(mut volume) => wrong_in_steps(rt, alloc, &mut volume, plain, failing),
        Err(_) => Ok(Some(Wrong::Mount)),
    }
}

/// The same of a mounted volume.
fn wrong_in_steps<D: Device + Keeps>(
    rt: &(impl Threads + Sync),
    alloc: Global,
    volume: &mut Volume<Fused<D>>,
    plain: &Plain<D>,
    failing: Failing,
) -> Result<Option<Wrong>, Refusal> {
    for (place, step) in plain.steps.iter().enumerate() {
        let wrong = if plain.has_made(place, failing.after) {
            wrong_in_step(rt, alloc, volume, step, failing.once)?
        } else {
            wrong_answer(rt, alloc, volume, step)?
        };
        if wrong.is_some() {
            return Ok(wrong);
        }
    }
    Ok(wrong_at_end(volume, plain, failing.once))
}

/// Carries a step out in which the device may fail, once more where it does so once. What comes behind a step that was refused
/// for good may be answered otherwise.
fn wrong_in_step<D: Device + Keeps>(
    rt: &(impl Threads + Sync),
    alloc: Global,
    volume: &mut Volume<Fused<D>>,
    step: &Step,
    once: bool,
) -> Result<Option<Wrong>, Refusal> {
    let faults = volume.live().device().faults();
    if once && faults > 0 {
        return wrong_answer(rt, alloc, volume, step);
    }
    let before = Seen::of(alloc, volume)?;
    let told = carry_out(rt, alloc, volume, &step.action);
    let has_failed = volume.live().device().faults() > faults;
    let wrong = if has_failed {
        wrong_refusal(alloc, volume, &before, &told)
    } else {
        wrong_otherwise(alloc, volume, &told, step, faults)
    }?;
    if once && has_failed && wrong.is_none() {
        return wrong_answer(rt, alloc, volume, step);
    }
    Ok(wrong)
}

/// What is wrong with how a step came out in which the device did not fail, and before which it had failed so often.
fn wrong_otherwise<D: Device + Keeps>(
    alloc: Global,
    volume: &Volume<Fused<D>>,
    told: &Result<Told, Refusal>,
    step: &Step,
    faults: u64,
) -> Result<Option<Wrong>, Refusal> {
    if faults > 0 && is_refused_so(told) {
        return Ok(Some(Wrong::Cause));
    }
    if faults > 0 {
        return Ok(may_lose_synced(volume, step, told).then_some(Wrong::Loose));
    }
    wrong_told(alloc, volume, told, step)
}

/// Whether a step was refused for a device that failed.
fn is_refused_so(told: &Result<Told, Refusal>) -> bool {
    matches!(told, Err(Refusal::Device))
}

/// What is wrong with how a step came out in which the device failed, and before which users saw this.
fn wrong_refusal<D: Device + Keeps>(
    alloc: Global,
    volume: &Volume<Fused<D>>,
    before: &Seen,
    told: &Result<Told, Refusal>,
) -> Result<Option<Wrong>, Refusal> {
    if !is_refused_so(told) {
        return Ok(Some(Wrong::Cause));
    }
    let after = Seen::of(alloc, volume)?;
    Ok((!before.is_same(&after)).then_some(Wrong::Changed))
}

/// Carries a step out that has to give its answer.
fn wrong_answer<D: Device + Keeps>(
    rt: &(impl Threads + Sync),
    alloc: Global,
    volume: &mut Volume<Fused<D>>,
    step: &Step,
) -> Result<Option<Wrong>, Refusal> {
    let told = carry_out(rt, alloc, volume, &step.action);
    wrong_told(alloc, volume, &told, step)
}

/// What is wrong with how a step came out.
fn wrong_told<D: Device + Keeps>(
    alloc: Global,
    volume: &Volume<Fused<D>>,
    told: &Result<Told, Refusal>,
    step: &Step,
) -> Result<Option<Wrong>, Refusal> {
    if !is_wanted::<D>(alloc, told, step)? {
        return Ok(Some(Wrong::Answer));
    }
    Ok(may_lose_synced(volume, step, told).then_some(Wrong::Loose))
}

/// Whether a step is a sync that was answered, and a loss of power may take back what was written before.
fn may_lose_synced<D: Device + Keeps>(
    volume: &Volume<Fused<D>>,
    step: &Step,
    told: &Result<Told, Refusal>,
) -> bool {
    is_synced(&step.action, told) && kept(volume).may_lose()
}

/// What is wrong once all steps were carried out: the device has to have failed, and what was written and synced has to be what is
/// where nothing fails: all of it where the device failed once, and the first of it else. So what a loss of power may leave at a
/// moment of such a run it may leave at one of the run in which nothing fails.
fn wrong_at_end<D: Device + Keeps>(
    volume: &Volume<Fused<D>>,
    plain: &Plain<D>,
    once: bool,
) -> Option<Wrong> {
    if volume.live().device().faults() == 0 {
        return Some(Wrong::NoFault);
    }
    let all = kept(&plain.volume);
    let is_well = if once {
        kept(volume).is_same(all)
    } else {
        kept(volume).is_start_of(all)
    };
    (!is_well).then_some(Wrong::Writes)
}
