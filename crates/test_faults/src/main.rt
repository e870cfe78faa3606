//! `test_faults NAME` breaks a trial at every place with version 1 of the layout, `test_faults NAME 2` with version 2, and `test_faults`
//! all with each version that they are for, but the two largest, which take long: it looks at what a stop
//! leaves after each number of the writes that the trial's device gets, and carries the trial out once more for each call of the
//! device, which fails alone, and with all that follow. It prints a line for each trial: how many stops and how many runs there
//! were, and how much was wrong. Then it does the same on a device with a write cache, and looks at what a loss of power may leave
//! at each moment. Of that it prints a line too: at how many moments, at how many images, the worst verdict on one, how many runs
//! there were in which a call fails, and how much was wrong. What was wrong stands on standard error; the status is 1 where anything
//! was. `bench/faults` runs all of them.
#![tactic(auto)]

mod calls;
mod keeping;
mod plain;
mod running;
mod stops;
mod tally;

use anyhow::Result;
use calls::break_calls;
use device::{CacheDevice, MemDevice};
use layout::{DOUBLE, SINGLE};
use plain::{Plain, plain_of};
use recording::Recording;
use std::env;
use std::io::{Eprint, Print};
use std::process::ExitCode;
use std::thread::Threads;
use stops::stop_each;
use tally::Tally;
use test_trials::{
    COUNT_TOO_HIGH, FOUR_SNAPSHOTS, FULL, FULL_OF_ONE_FILE, INTO_NEW_DIRECTORY, LOST_FILE,
    NUMBER_OF_ANOTHER, PAST_268_BLOCKS, PAST_524_BLOCKS, PowerCuts, SECOND_BLOCK, TWO_USERS, Trial,
    UNDER_A_SNAPSHOT, UNLINKED_AND_OPEN, behind_name, is_asked, power_cuts_of,
};

/// Those that take less than a second.
const TRIALS: &[Trial] = &[
    LOST_FILE,
    COUNT_TOO_HIGH,
    UNLINKED_AND_OPEN,
    SECOND_BLOCK,
    INTO_NEW_DIRECTORY,
    NUMBER_OF_ANOTHER,
    TWO_USERS,
    FOUR_SNAPSHOTS,
    SOON_FULL,
    PAST_268_BLOCKS,
    PAST_524_BLOCKS,
    UNDER_A_SNAPSHOT,
];

/// Those that take long, and are broken only if they are named.
const LONG: &[Trial] = &[FULL, FULL_OF_ONE_FILE];

/// How many of the images that a loss of power may leave at a moment are looked at at most: all where no more than six writes are
/// loose.
const MOST: u32 = 64;

/// The same of those that take long: all where no more than three writes are loose.
const MOST_OF_LONG: u32 = 8;

/// A file of 15 blocks is cut while a snapshot holds them, and another one takes all that is left. There are 28 data blocks beside
/// the root's.
const SOON_FULL: Trial = Trial {
    name: "soon full",
    versions: &[SINGLE, DOUBLE],
    numbers: [1, 32, 16],
    puts: &[],
    before: &[],
    lines: &[
        ("create /a", "ok 3"),
        ("open /a", "ok 0"),
        ("fill 0 0 15", "ok"),
        ("create /b", "ok 4"),
        ("open /b", "ok 1"),
        ("freeze", "ok 0"),
        ("unmarked", "12"),
        ("truncate 0 0", "ok"),
        ("unmarked", "12"),
        ("fill 1 0 12", "ok"),
        ("unmarked", "0"),
        ("write 1 12 x", "refused 14 NoBlock"),
        ("release 0", "ok"),
        ("unmarked", "16"),
        ("write 1 12 x", "ok"),
        ("sync", "ok"),
    ],
};

fn main(rt: HostRuntime) -> Result<ExitCode> {
    let words: Vec<String> = env::args(&rt)?.collect(rt.alloc())?;
    let wrong = break_all(&rt, TRIALS, MOST, words.as_slice())?;
    let wrong = match words.len() {
        0 | 1 => wrong,
        _ => wrong.saturating_add(break_all(&rt, LONG, MOST_OF_LONG, words.as_slice())?),
    };
    Ok(ExitCode::from(if wrong == 0 { 0 } else { 1 }))
}

/// Breaks those of these trials that the words of a line ask for, and tells how much was wrong. At each moment at most so many of the
/// images that a loss of power may leave are looked at.
fn break_all<R: Threads + Print + Eprint + Sync + AllocGlobal>(
    rt: &R,
    trials: &[Trial],
    most: u32,
    words: &[String],
) -> Result<u64> {
    let mut wrong = 0u64;
    for trial in trials {
        for version in trial.versions {
            if is_asked(words, trial.name, *version) {
                wrong = wrong.saturating_add(break_trial(rt, trial, *version, most)?);
            }
        }
    }
    Ok(wrong)
}

/// Breaks a trial at every place, on both devices, prints its lines, and tells how much was wrong.
fn break_trial<R: Threads + Print + Eprint + Sync + AllocGlobal>(
    rt: &R,
    trial: &Trial,
    version: u32,
    most: u32,
) -> Result<u64> {
    let wrong = break_in_order(rt, trial, version)?;
    Ok(wrong.saturating_add(break_cached(rt, trial, version, most)?))
}

/// Breaks a trial on a device that keeps order, prints its line, and tells how much was wrong.
fn break_in_order<R: Threads + Print + Eprint + Sync + AllocGlobal>(
    rt: &R,
    trial: &Trial,
    version: u32,
) -> Result<u64> {
    let name = trial.name;
    let behind = behind_name(version);
    let plain: Plain<Recording<MemDevice>> = plain_of(rt, rt.alloc(), trial, version)?;
    let stops = stop_each(rt, (name, behind), &plain)?;
    let calls = break_calls(rt, (name, behind), &plain)?;
    let wrong = plain
        .wrong
        .saturating_add(stops.wrong)
        .saturating_add(calls.wrong);
    let Tally { tried: stops, .. } = stops;
    let Tally { tried: runs, .. } = calls;
    println!(rt; "{name}{behind}: stops {stops}, runs {runs}, wrong {wrong}")?;
    Ok(wrong)
}

/// Breaks a trial on a device with a write cache, prints its line, and tells how much was wrong. What a loss of power may leave is
/// looked at in the run in which nothing fails: the others give the device the same, or the first of it.
fn break_cached<R: Threads + Print + Eprint + Sync + AllocGlobal>(
    rt: &R,
    trial: &Trial,
    version: u32,
    most: u32,
) -> Result<u64> {
    let name = trial.name;
    let behind = behind_name(version);
    let name = format!(in rt.alloc(); "{name}{behind}, write cache")?;
    let cuts = power_cuts_of(rt, rt.alloc(), trial, version, most)?;
    if let Some(fault) = cuts.fault {
        eprintln!(rt; "{name}: a loss of power leaves {fault:?}")?;
    }
    let plain: Plain<CacheDevice> = plain_of(rt, rt.alloc(), trial, version)?;
    let calls = break_calls(rt, (name.as_str(), ""), &plain)?;
    let wrong = plain
        .wrong
        .saturating_add(cuts.wrong)
        .saturating_add(calls.wrong);
    let PowerCuts {
        moments,
        images,
        ..
    } = cuts;
    let worst = cuts.worst();
    let Tally { tried: runs, .. } = calls;
    println!(rt;
        "{name}: moments {moments}, images {images}, worst {worst}, runs {runs}, wrong {wrong}"
    )?;
    Ok(wrong)
}
