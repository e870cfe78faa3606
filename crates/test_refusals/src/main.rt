//! `test_refusals NAME` carries out a trial with version 1 of the layout, `test_refusals NAME 2` with version 2, and `test_refusals`
//! all of them with each version that they are for: the image is checked by 1 and by 3 workers, its volume is
//! mounted, and its commands are carried out on a device in memory. What is refused for want of memory is asked for once more:
//! a refused command has to have changed nothing that users see, and each one has to give its answer in the end. So what the
//! program prints is the same wherever one allocation is refused; `bench/refused` refuses each one in turn. How many commands
//! were refused stands on standard error. The status is 1 where anything is wrong.
#![tactic(auto)]

mod images;
mod outcome;
mod trying;

use anyhow::Result;
use images::{OF_FULL_VOLUMES, OF_IMAGES, OF_LONG_FILES, OF_VOLUMES};
use outcome::Outcome;
use std::alloc::Global;
use std::env;
use std::process::ExitCode;
use std::thread::Threads;
use test_trials::{Trial, is_asked};
use trying::try_trial;

fn main(rt: HostRuntime) -> Result<ExitCode> {
    let alloc = rt.alloc();
    let words = match env::args(&rt) {
        Ok(words) => words,
        Err(_) => env::args(&rt)?,
    };
    let words: Vec<String> = match words.collect(alloc) {
        Ok(words) => words,
        Err(_) => env::args(&rt)?.collect(alloc)?,
    };
    let mut outcome = Outcome::new(alloc);
    try_images(&rt, alloc, words.as_slice(), &mut outcome)?;
    try_volumes(&rt, alloc, words.as_slice(), &mut outcome)?;
    try_full_volumes(&rt, alloc, words.as_slice(), &mut outcome)?;
    try_long_files(&rt, alloc, words.as_slice(), &mut outcome)?;
    let Outcome {
        text,
        refused,
        wrong,
    } = outcome;
    print!(rt; "{text}")?;
    eprintln!(rt; "refused {refused}")?;
    Ok(ExitCode::from(if wrong == 0 { 0 } else { 1 }))
}

/// Carries out those trials of images that the words of a line ask for.
fn try_images(
    rt: &(impl Threads + Sync),
    alloc: Global,
    words: &[String],
    outcome: &mut Outcome,
) -> Result<()> {
    try_asked(rt, alloc, words, OF_IMAGES, outcome)
}

/// Carries out those trials of volumes that the words of a line ask for.
fn try_volumes(
    rt: &(impl Threads + Sync),
    alloc: Global,
    words: &[String],
    outcome: &mut Outcome,
) -> Result<()> {
    try_asked(rt, alloc, words, OF_VOLUMES, outcome)
}

/// Carries out those trials of full volumes that the words of a line ask for.
fn try_full_volumes(
    rt: &(impl Threads + Sync),
    alloc: Global,
    words: &[String],
    outcome: &mut Outcome,
) -> Result<()> {
    try_asked(rt, alloc, words, OF_FULL_VOLUMES, outcome)
}

/// Carries out those trials of long files that the words of a line ask for.
fn try_long_files(
    rt: &(impl Threads + Sync),
    alloc: Global,
    words: &[String],
    outcome: &mut Outcome,
) -> Result<()> {
    try_asked(rt, alloc, words, OF_LONG_FILES, outcome)
}

/// Carries out those of these trials that the words of a line ask for.
fn try_asked(
    rt: &(impl Threads + Sync),
    alloc: Global,
    words: &[String],
    trials: &[Trial],
    outcome: &mut Outcome,
) -> Result<()> {
    for trial in trials {
        for version in trial.versions {
            if is_asked(words, trial.name, *version) {
                try_trial(rt, alloc, trial, *version, outcome)?;
            }
        }
    }
    Ok(())
}
