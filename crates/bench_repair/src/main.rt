//! `bench_repair mend IMAGE WORKERS` mends the volume of an image, which it reads into memory, and prints the nanoseconds of
//! each step on standard error. `bench_repair hold IMAGE PATHS` does so of a freeze with three snapshots beside it and the
//! blocks of the files held whose paths are the lines of a file, and of the end of the snapshot that they are held for.
//! `bench_repair unlink IMAGE PATHS SNAPSHOTS` unlinks these files on the image itself while it takes so many snapshots, and
//! `bench_repair end IMAGE PATHS` while one stands, which then ends: what these take more is the memory of the snapshots and
//! of the end. The program prints how many repairs or paths there were; `bench/repair` runs it.
#![tactic(auto)]

mod holding;
mod job;
mod mending;
mod unlinking;

use anyhow::Result;
use holding::hold;
use job::{Job, parse};
use mending::mend;
use std::env;
use std::io::Print;
use unlinking::{unlink_all, unlink_and_end};

fn main(rt: HostRuntime) -> Result<()> {
    let words: Vec<String> = env::args(&rt)?.collect(rt.alloc())?;
    match parse(words.as_slice())? {
        Job::Mend { image, workers } => {
            let repairs = mend(&rt, image, workers)?;
            println!(rt; "repairs {repairs}")?;
        }
        Job::Hold { image, paths } => tell_paths(&rt, hold(&rt, image, paths)?)?,
        Job::Unlink {
            image,
            paths,
            snapshots,
        } => tell_paths(&rt, unlink_all(&rt, image, paths, snapshots)?)?,
        Job::End { image, paths } => tell_paths(&rt, unlink_and_end(&rt, image, paths)?)?,
    }
    Ok(())
}

/// Prints how many paths there were.
fn tell_paths(rt: &impl Print, count: usize) -> Result<()> {
    println!(rt; "paths {count}")?;
    Ok(())
}
