//! Rounds of random commands, each with stops.
use crate::answers::{is_possible, opens_own, reads_back};
use crate::commands::random_script;
use crate::long_files::image_of_long_files;
use crate::snapshots::Snapshots;
use anyhow::Result;
use device::MemDevice;
use findings::Verdict;
use layout::{DOUBLE, Refusal, SINGLE};
use snapshot::{Answer, Volume};
use std::alloc::Global;
use std::io::Eprint;
use std::sync::Wait;
use std::thread::Threads;
use std::time::{Clock, Instant};
use test_noise::Noise;
use test_trials::{bytes_of, fault_of, mount};
use user_scripts::{Commands, UserLine, parse};
use users::{Answered, Mended, Ran, run};
use workers::Workers;

/// How many groups the volume of version 1 has, and how many blocks and inodes each has: few, so that they run out.
const NUMBERS: [u32; 3] = [3, 48, 24];

/// How many rounds there are at least.
const LEAST_ROUNDS: u64 = 3;

/// How many stops are looked at in each. The next round begins with what the last one left.
const STOPS: u64 = 4;

/// How many workers check.
const WORKERS: usize = 2;

/// What was done, and what went wrong.
#[derive(Clone, Copy)]
pub struct Counts {
    pub rounds: u64,
    pub commands: u64,
    /// Repairs beside users.
    pub repairs: u64,
    /// Snapshots beside that which is checked.
    pub snapshots: u64,
    pub stops: u64,
    pub wrong: u64,
}

impl Counts {
    /// Before the first round.
    fn new() -> Counts {
        Counts {
            rounds: 0,
            commands: 0,
            repairs: 0,
            snapshots: 0,
            stops: 0,
            wrong: 0,
        }
    }
}

/// Makes rounds for so many minutes with this version of the layout.
pub fn soak<R: Threads + Wait + Clock + Eprint + Sync + AllocGlobal>(
    rt: &R,
    minutes: u64,
    seed: u64,
    version: u32,
) -> Result<Counts> {
    let start = Instant::now(rt)?;
    let mut noise = Noise::new(seed);
    let mut counts = Counts::new();
    let mut image = first_image(rt, rt.alloc(), version)?;
    for _ in rt.forever() {
        if is_over(rt, start, minutes, counts)? {
            return Ok(counts);
        }
        image = round(rt, rt.alloc(), image, version, &mut noise, &mut counts)?;
    }
    unreachable!()
}

/// Whether there were rounds enough, and the minutes are over.
fn is_over(rt: &impl Clock, start: Instant, minutes: u64, counts: Counts) -> Result<bool> {
    let seconds = start.elapsed(rt)?.as_secs();
    Ok(counts.rounds >= LEAST_ROUNDS && seconds >= minutes.saturating_mul(60))
}

/// The image with which the first round begins: a fresh one in version 1, and one with long files in version 2.
fn first_image(
    rt: &(impl Threads + Sync),
    alloc: Global,
    version: u32,
) -> Result<MemDevice, Refusal> {
    if version == DOUBLE {
        return image_of_long_files(rt, alloc);
    }
    let bytes = bytes_of(alloc, NUMBERS, SINGLE, &[])?;
    MemDevice::from_bytes(alloc, bytes.as_slice())
}

/// Carries out a random script on the volume of an image, looks at stops, and gives what the last one of them left.
fn round<R: Threads + Wait + Eprint + Sync>(
    rt: &R,
    alloc: Global,
    image: MemDevice,
    version: u32,
    noise: &mut Noise,
    counts: &mut Counts,
) -> Result<MemDevice> {
    let ran = ran(rt, alloc, image, version, noise)?;
    look_at_round(rt, alloc, &ran, noise, counts)
}

/// Counts what was answered and mended in a round, looks at stops, and gives what the last one of them left.
fn look_at_round<R: Threads + Eprint + Sync>(
    rt: &R,
    alloc: Global,
    ran: &Ran<MemDevice>,
    noise: &mut Noise,
    counts: &mut Counts,
) -> Result<MemDevice> {
    counts.rounds = counts.rounds.saturating_add(1);
    count_answers(rt, ran.answered.as_slice(), counts)?;
    count_snapshots(rt, alloc, ran.answered.as_slice(), counts)?;
    count_repairs(rt, &ran.mended, counts)?;
    look_at_stops(rt, alloc, ran.volume.live().device(), noise, counts)
}

/// Carries out a random script on the volume of an image.
fn ran<R: Threads + Wait + Sync>(
    rt: &R,
    alloc: Global,
    image: MemDevice,
    version: u32,
    noise: &mut Noise,
) -> Result<Ran<MemDevice>> {
    let script = script_of(alloc, noise, version)?;
    let volume = Volume::new(mount(alloc, image)?);
    Ok(run(rt, alloc, volume, script, Workers::nearest(WORKERS))?)
}

/// Looks at random stops, and gives what the last one of them left.
fn look_at_stops<R: Threads + Eprint + Sync>(
    rt: &R,
    alloc: Global,
    device: &MemDevice,
    noise: &mut Noise,
    counts: &mut Counts,
) -> Result<MemDevice> {
    for _stop in 1..STOPS {
        look_at(rt, alloc, stopped(alloc, device, noise)?, counts)?;
    }
    let left = stopped(alloc, device, noise)?;
    look_at_copy(rt, alloc, &left, counts)?;
    Ok(left)
}

/// Looks at a copy of what a stop left.
fn look_at_copy<R: Threads + Eprint + Sync>(
    rt: &R,
    alloc: Global,
    left: &MemDevice,
    counts: &mut Counts,
) -> Result<()> {
    let copy = left.image_after(alloc, 0)?;
    look_at(rt, alloc, copy, counts)
}

/// A random script.
fn script_of(alloc: Global, noise: &mut Noise, version: u32) -> Result<Vec<UserLine>> {
    let text = random_script(alloc, noise, version)?;
    Ok(parse(alloc, text.as_bytes(), Commands::OfUsersAndSnapshots)?)
}

/// What a device held after a random number of its writes.
fn stopped(alloc: Global, device: &MemDevice, noise: &mut Noise) -> Result<MemDevice, Refusal> {
    let writes = u32::try_from(device.writes()).unwrap_or(u32::MAX);
    let after = noise.below(writes.saturating_add(1));
    device.image_after(alloc, after as usize)
}

/// Looks at what a stop left.
fn look_at<R: Threads + Eprint + Sync>(
    rt: &R,
    alloc: Global,
    left: MemDevice,
    counts: &mut Counts,
) -> Result<()> {
    counts.stops = counts.stops.saturating_add(1);
    if let Some(fault) = fault_of(rt, alloc, left)? {
        counts.wrong = counts.wrong.saturating_add(1);
        let round = counts.rounds;
        eprintln!(rt; "round {round}: a stop leaves {fault:?}")?;
    }
    Ok(())
}

/// Counts the repairs of the check beside the users, which may not find the volume damaged.
fn count_repairs(rt: &impl Eprint, mended: &Mended, counts: &mut Counts) -> Result<()> {
    counts.repairs = counts.repairs.saturating_add(u64::from(mended.repaired));
    if mended.checked.verdict() == Verdict::Damaged {
        counts.wrong = counts.wrong.saturating_add(1);
        let round = counts.rounds;
        eprintln!(rt; "round {round}: the check beside the users finds damage")?;
    }
    Ok(())
}

/// Counts the snapshots, and the lines on them that are answered wrongly.
fn count_snapshots(
    rt: &impl Eprint,
    alloc: Global,
    answered: &[Answered],
    counts: &mut Counts,
) -> Result<()> {
    let mut snapshots = Snapshots::new(alloc);
    for (place, line) in answered.iter().enumerate() {
        if let Ok(Answer::Image(_, _)) = &line.reply {
            counts.snapshots = counts.snapshots.saturating_add(1);
        }
        if !snapshots.is_right(line)? {
            counts.wrong = counts.wrong.saturating_add(1);
            let round = counts.rounds;
            eprintln!(rt; "round {round}: line {place} is not answered as its snapshot")?;
        }
    }
    Ok(())
}

/// Counts the commands, and those that are answered wrongly.
fn count_answers(rt: &impl Eprint, answered: &[Answered], counts: &mut Counts) -> Result<()> {
    let mut before: Option<&Answered> = None;
    let mut has_own = false;
    for (place, line) in answered.iter().enumerate() {
        counts.commands = counts.commands.saturating_add(1);
        if opens_own(line.text.as_slice()) {
            has_own = line.reply.is_ok();
        }
        if !is_possible(&line.reply) || has_own && !reads_back(before, line) {
            counts.wrong = counts.wrong.saturating_add(1);
            let round = counts.rounds;
            eprintln!(rt; "round {round}: line {place} is answered wrongly")?;
        }
        before = Some(line);
    }
    Ok(())
}
