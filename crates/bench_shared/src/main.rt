//! `bench_shared alone IMAGE USERS ROUNDS WORKERS` mounts the volume of an image, which it reads into memory, and lets so many
//! users' threads carry out so many rounds each: a file is made, opened, written, read, closed and taken away. One thread
//! flushes beside them. With `beside` one more thread freezes the volume, checks the snapshot by so many workers, carries out
//! the repairs and ends the snapshot, until the users have ended. The program prints how many commands there were, and on
//! standard error the nanoseconds of all and of the longest one, and how many checks there were; `bench/shared` runs it.
#![tactic(auto)]

mod job;
mod rounds;
mod running;

use anyhow::Result;
use job::{mounted, parse};
use running::run;
use std::env;

fn main(rt: HostRuntime) -> Result<()> {
    let words: Vec<String> = env::args(&rt)?.collect(rt.alloc())?;
    let job = parse(words.as_slice())?;
    let volume = mounted(&rt, job.image)?;
    let measured = run(&rt, rt.alloc(), volume, &job.load)?;
    let commands = measured.used.commands;
    let all = measured.all;
    let longest = measured.used.longest;
    let checks = measured.checks;
    println!(rt; "commands {commands}")?;
    eprintln!(rt; "all {all}\nlongest {longest}\nchecks {checks}")?;
    Ok(())
}
