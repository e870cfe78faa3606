//! `test_lists MODE ARGS` carries out lists of commands on volumes.
//!
//! - `test_lists lists FILE` carries out the lists of a file on volumes in memory, those for version 1 of the layout and then those
//!   for version 2; most are for both. It prints each line whose answer is another one than the line says, and then how many
//!   lists and lines there were. The status is 1 where an answer is wrong.
//! - `test_lists answers FILE` carries out each list once, and prints each answer and nothing else.
//! - `test_lists run IMAGE FILE` carries out the commands of a file on the volume of an image, syncs it, and prints how many
//!   lines there were and how many of them were refused.
//!
//! Lines end by a line feed. An empty line, and one that begins with `#`, is skipped. A line is a command, or a command,
//! ` -> ` and its answer; a blank parts its words. What the commands are stands in `request`, what else a list has at
//! `line::Line`, and what the answers are at `answer::Answer`.
#![tactic(auto)]

mod answer;
mod carrying;
mod command_lists;
mod history;
mod job;
mod line;
mod many;
mod pass;
mod recorded;
mod request;
mod runs;
mod session;
mod stops;

use anyhow::Result;
use job::{Output, parse, perform};
use std::env;
use std::process::ExitCode;

fn main(rt: HostRuntime) -> Result<ExitCode> {
    let words: Vec<String> = env::args(&rt)?.collect(rt.alloc())?;
    let job = parse(words.as_slice())?;
    let Output { text, status } = perform(&rt, &job)?;
    print!(rt; "{text}")?;
    Ok(ExitCode::from(status))
}
