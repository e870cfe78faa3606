//! A trial is carried out, and what is refused for want of memory is asked for once more.
use crate::outcome::Outcome;
use device::{Device, MemDevice};
use frozen::load;
use fsck::check;
use layout::{BLOCK_BYTES, Block, Refusal};
use snapshot::{Live, NotMounted, Volume};
use std::alloc::Global;
use std::sync::Arc;
use std::thread::Threads;
use test_trials::{
    Seen, Step, Told, Trial, beginning_of, behind_name, carry_out, steps_of, write_told,
};
use workers::{OpenGate, Workers};

/// What a call gives, which is made once more where memory was refused in it.
macro_rules! twice {
    ($call:expr) => {
        match $call {
            Err(Refusal::NoMemory) => $call,
            outcome => outcome,
        }
    };
}

/// Checks the image of a trial with this version of the layout, mounts its volume, and carries its commands out.
pub fn try_trial<R: Threads + Sync>(
    rt: &R,
    alloc: Global,
    trial: &Trial,
    version: u32,
    outcome: &mut Outcome,
) -> Result<(), Refusal> {
    let image = twice!(beginning_of(rt, alloc, trial, version))?;
    report_image(rt, alloc, &image, outcome)?;
    match mounted(alloc, image, outcome) {
        Ok(mut volume) => try_steps(rt, alloc, &mut volume, trial, version, outcome),
        Err(cause) => report_refused(alloc, trial, cause, outcome),
    }
}

/// Adds the report of an image, which has to be the same by 1 and by 3 workers.
fn report_image<R: Threads + Sync>(
    rt: &R,
    alloc: Global,
    image: &MemDevice,
    outcome: &mut Outcome,
) -> Result<(), Refusal> {
    let report = twice!(report_of(rt, alloc, image, Workers::new(1)?))?;
    outcome.add(report.as_str())?;
    let by_three = twice!(report_of(rt, alloc, image, Workers::new(3)?))?;
    if report != by_three {
        outcome.add_wrong("another report by 3 workers\n")?;
    }
    Ok(())
}

/// Adds the line of a trial whose volume was not mounted.
fn report_refused(
    alloc: Global,
    trial: &Trial,
    cause: Refusal,
    outcome: &mut Outcome,
) -> Result<(), Refusal> {
    let line = twice!(refused_line(alloc, trial, cause))?;
    Ok(outcome.add(line.as_str())?)
}

/// The report of a check of what a device holds, by so many workers.
fn report_of(
    rt: &(impl Threads + Sync),
    alloc: Global,
    device: &MemDevice,
    workers: Workers,
) -> Result<String, Refusal> {
    let mut copy = device.image_after(alloc, device.writes())?;
    let frozen = Arc::new(alloc, load(alloc, &mut copy)?)?;
    let checked = check(rt, alloc, &frozen, workers, &OpenGate)?;
    let mut text = String::new(alloc);
    for byte in checked.report() {
        text.push(char::from(*byte))?;
    }
    Ok(text)
}

/// Mounts the volume of a device, once more on the very device where memory was refused.
fn mounted(
    alloc: Global,
    device: MemDevice,
    outcome: &mut Outcome,
) -> Result<Volume<MemDevice>, Refusal> {
    match Live::mount(alloc, device) {
        Ok(live) => Ok(Volume::new(live)),
        Err(
            NotMounted {
                device,
                cause: Refusal::NoMemory,
            },
        ) => {
            outcome.count_refused();
            mounted_again(alloc, device)
        }
        Err(NotMounted { device: _, cause }) => Err(cause),
    }
}

/// Mounts the volume of a device.
fn mounted_again(alloc: Global, device: MemDevice) -> Result<Volume<MemDevice>, Refusal> {
    match Live::mount(alloc, device) {
        Ok(live) => Ok(Volume::new(live)),
        Err(NotMounted { device: _, cause }) => Err(cause),
    }
}

/// The line of a trial whose volume was not mounted.
fn refused_line(alloc: Global, trial: &Trial, cause: Refusal) -> Result<String, Refusal> {
    let name = trial.name;
    Ok(format!(in alloc; "{name}: mount refused {cause}\n")?)
}

/// Carries the commands of a trial out, and tells what its device holds then.
fn try_steps<R: Threads + Sync>(
    rt: &R,
    alloc: Global,
    volume: &mut Volume<MemDevice>,
    trial: &Trial,
    version: u32,
    outcome: &mut Outcome,
) -> Result<(), Refusal> {
    let steps = twice!(steps_of(alloc, trial))?;
    for (place, step) in steps.iter().enumerate() {
        try_step(rt, alloc, volume, place, step, outcome)?;
    }
    report_end(
        rt,
        alloc,
        volume.live().device(),
        (trial.name, behind_name(version)),
        steps.len(),
        outcome,
    )
}

/// Adds what a device holds once so many commands of a trial were carried out.
fn report_end<R: Threads + Sync>(
    rt: &R,
    alloc: Global,
    device: &MemDevice,
    name: (&str, &str),
    steps: usize,
    outcome: &mut Outcome,
) -> Result<(), Refusal> {
    let line = twice!(end_line(alloc, name, steps, device))?;
    outcome.add(line.as_str())?;
    let report = twice!(report_of(rt, alloc, device, Workers::new(1)?))?;
    Ok(outcome.add(report.as_str())?)
}

/// Carries a command out, once more where it was refused: then it has to have changed nothing that users see.
fn try_step(
    rt: &(impl Threads + Sync),
    alloc: Global,
    volume: &mut Volume<MemDevice>,
    place: usize,
    step: &Step,
    outcome: &mut Outcome,
) -> Result<(), Refusal> {
    let before = seen(alloc, volume)?;
    let told = carry_out(rt, alloc, volume, &step.action);
    if !matches!(told, Err(Refusal::NoMemory | Refusal::Device)) {
        return compare(alloc, place, step, &told, outcome);
    }
    outcome.count_refused();
    if !before.is_same(&seen(alloc, volume)?) {
        outcome.add_wrong("a refused command changed what users see\n")?;
    }
    let told = carry_out(rt, alloc, volume, &step.action);
    compare(alloc, place, step, &told, outcome)
}

/// What users see of a volume.
fn seen(alloc: Global, volume: &Volume<MemDevice>) -> Result<Seen, Refusal> {
    twice!(Seen::of(alloc, volume))
}

/// Compares an answer with the one that is wanted.
fn compare(
    alloc: Global,
    place: usize,
    step: &Step,
    told: &Result<Told, Refusal>,
    outcome: &mut Outcome,
) -> Result<(), Refusal> {
    let text = twice!(text_of(alloc, told))?;
    if text.as_str() != step.wanted {
        let line = twice!(wrong_line(alloc, place, step, text.as_str()))?;
        outcome.add_wrong(line.as_str())?;
    }
    Ok(())
}

/// The line of a command that was answered otherwise than it has to be.
fn wrong_line(alloc: Global, place: usize, step: &Step, text: &str) -> Result<String, Refusal> {
    let wanted = step.wanted;
    Ok(format!(in alloc; "step {place}: {text}, not {wanted}\n")?)
}

/// How a command came out, in text.
fn text_of(alloc: Global, told: &Result<Told, Refusal>) -> Result<String, Refusal> {
    let mut text = String::new(alloc);
    write_told(&mut text, told)?;
    Ok(text)
}

/// The line of a trial that was carried out: how many commands it has, how many writes were made, and a sum of the bytes that
/// the device holds.
fn end_line(
    alloc: Global,
    (name, behind): (&str, &str),
    steps: usize,
    device: &MemDevice,
) -> Result<String, Refusal> {
    let writes = device.writes();
    let mut copy = device.image_after(alloc, writes)?;
    let sum = sum_of(&mut copy)?;
    Ok(format!(in alloc; "{name}{behind}: steps {steps} writes {writes} sum {sum:016x}\n")?)
}

/// A sum of the bytes that a device holds, which depends on where they stand.
fn sum_of<D: Device>(device: &mut D) -> Result<u64, Refusal> {
    let mut sum = 0xcbf2_9ce4_8422_2325u64;
    for address in 0..device.blocks() {
        sum = with_block(sum, &block_of(device, address)?);
    }
    Ok(sum)
}

/// The block of this address.
fn block_of<D: Device>(device: &mut D, address: u32) -> Result<Block, Refusal> {
    if address >= device.blocks() {
        return Err(Refusal::BadIndex);
    }
    let mut block = [0; BLOCK_BYTES];
    device.read(address, &mut block)?;
    Ok(block)
}

/// A sum with the bytes of one more block.
fn with_block(sum: u64, block: &Block) -> u64 {
    let mut sum = sum;
    for byte in block {
        sum = (sum ^ u64::from(*byte)).wrapping_mul(0x100_0000_01b3);
    }
    sum
}
