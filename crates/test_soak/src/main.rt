//! `test_soak MINUTES SEED` drives a volume with random commands of four users, each by a thread of its own, while one more thread
//! freezes the volume, checks the snapshot and carries out the repairs, one takes snapshots, reads them and ends them, and
//! one flushes. After each round it stops the volume after random numbers of the writes that its device got: what the device
//! then held has to be mounted, to obey the rules, and to be clean once it is mended. It goes on with what the last of these
//! stops left, unmended, until the minutes are over, and for a few rounds at least. Then it does the same, for as many minutes, on a
//! volume of version 2 of the layout, on which each user has a long file. At last it prints for each version how many rounds,
//! commands and stops there were, and how much went wrong. What went wrong stands on standard error, and how many repairs were
//! carried out and snapshots taken beside users; the status is 1 where anything went wrong. `bench/soak` runs it.
#![tactic(auto)]

mod answers;
mod commands;
mod long_files;
mod rounds;
mod snapshots;

use anyhow::{Result, bail};
use layout::{DOUBLE, SINGLE};
use rounds::{Counts, soak};
use std::env;
use std::io::{Eprint, Print};
use std::process::ExitCode;

fn main(rt: HostRuntime) -> Result<ExitCode> {
    let words: Vec<String> = env::args(&rt)?.collect(rt.alloc())?;
    let [_, minutes, seed] = words.as_slice() else {
        bail!("the words are MINUTES SEED");
    };
    let minutes: u64 = minutes.as_str().parse()?;
    let seed: u64 = seed.as_str().parse()?;
    let first = soak(&rt, minutes, seed, SINGLE)?;
    print_counts(&rt, &first, "")?;
    let second = soak(&rt, minutes, seed, DOUBLE)?;
    print_counts(&rt, &second, "version 2: ")?;
    let right = first.wrong == 0 && second.wrong == 0;
    Ok(ExitCode::from(if right { 0 } else { 1 }))
}

/// Prints what was done, and what went wrong, behind these words.
fn print_counts<R: Print + Eprint>(rt: &R, counts: &Counts, before: &str) -> Result<()> {
    let Counts {
        rounds,
        commands,
        repairs,
        snapshots,
        stops,
        wrong,
    } = *counts;
    eprintln!(rt; "{before}repairs {repairs} snapshots {snapshots}")?;
    println!(rt; "{before}rounds {rounds} commands {commands} stops {stops} wrong {wrong}")?;
    Ok(())
}
