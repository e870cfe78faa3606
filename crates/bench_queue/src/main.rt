//! `bench_queue MODE UPDATES SPREAD` measures the queue of updates: it issues so many updates, or few more, of files'
//! lives, and brings them to a device in memory. It prints counts, and on standard error nanoseconds; `bench/queue` runs
//! it and makes tables of them.
//!
//! A life of a file: it is created in a directory, which gives its number's bit, its record and its entry; it grows,
//! which gives the bit and the bytes of each new block and then its record; and once the volume is full the oldest file
//! goes, which takes its entry, its record and all those bits away, and a new one takes its number and its blocks. Sixteen
//! files have their entries in one block of a directory.
//!
//! The spread says in how many blocks the cells of the updates stand: `few`, `medium` or `many` (`files`). The modes are
//! those of `line::Mode`. What is timed is `issue`, `sync`, `flush` and the writes alone: neither the lists of updates nor
//! the device are made meanwhile.
#![tactic(auto)]

mod command;
mod files;
mod issuing;
mod line;
mod steady;
mod update_lists;
mod writing;

use anyhow::Result;
use issuing::{Issued, hold, issue};
use line::{Line, Mode, parse};
use softdep::Queue;
use spares::Spares;
use std::alloc::Global;
use std::env;
use std::time::Clock;
use steady::issue_steadily;
use writing::{Order, Written, flush_in_passes, sync, write_again, write_once};

fn main(rt: HostRuntime) -> Result<()> {
    let words: Vec<String> = env::args(&rt)?.collect(rt.alloc())?;
    let line = parse(words.as_slice())?;
    let (issued, written) = measure(&rt, rt.alloc(), &line)?;
    let updates = issued.updates;
    let contents = issued.contents;
    let blocks = issued.blocks();
    let issuing = issued.time.as_nanos();
    let Written {
        passes,
        writes,
        time,
    } = written;
    let writing = time.as_nanos();
    println!(rt;
        "updates {updates}\ncontents {contents}\nblocks {blocks}\npasses {passes}\nwrites {writes}"
    )?;
    eprintln!(rt; "issuing {issuing}\nwriting {writing}")?;
    Ok(())
}

/// Carries out a line.
fn measure(clock: &impl Clock, alloc: Global, line: &Line) -> Result<(Issued, Written)> {
    if line.mode == Mode::Hold {
        return Ok((hold(alloc, line.spread, line.updates)?, Written::NOTHING));
    }
    let mut queue = Queue::new(alloc, line.spread.geometry()?)?;
    measure_queue(clock, alloc, &mut queue, line)
}

/// Issues the updates of a line to a queue, and brings them to a device.
fn measure_queue(
    clock: &impl Clock,
    alloc: Global,
    queue: &mut Queue,
    line: &Line,
) -> Result<(Issued, Written)> {
    if line.mode == Mode::Steady {
        return issue_steadily(clock, alloc, queue, line.spread, line.updates);
    }
    let issued = issue(clock, alloc, queue, line.spread, line.updates)?;
    let written = bring(clock, alloc, queue, line.mode, issued.homes.as_slice())?;
    Ok((issued, written))
}

/// Brings what was issued to a device, as the mode says.
fn bring(
    clock: &impl Clock,
    alloc: Global,
    queue: &mut Queue,
    mode: Mode,
    homes: &[bool],
) -> Result<Written> {
    let mut spares = Spares::new(alloc)?;
    match mode {
        Mode::Issue | Mode::Hold | Mode::Steady => Ok(Written::NOTHING),
        Mode::Sync => sync(clock, alloc, queue, &mut spares),
        Mode::Upward => flush_in_passes(clock, alloc, queue, &mut spares, Order::Upward),
        Mode::Downward => flush_in_passes(clock, alloc, queue, &mut spares, Order::Downward),
        Mode::Again => write_again(clock, alloc, queue, &mut spares),
        Mode::Once => write_once(clock, alloc, queue, homes),
    }
}
