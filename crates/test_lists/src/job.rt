//! What the words of the program ask for, and how it is done.
use crate::command_lists::{Outcome, Show, carry_out_lists};
use crate::pass::Pass;
use crate::runs::carry_out_on;
use anyhow::{Result, bail};
use layout::{DOUBLE, Refusal, SINGLE};
use std::alloc::{AllocError, Global};
use std::fs;
use std::os::unix::fs::FileExt;
use std::rt::Files;
use std::thread::Threads;

/// What the words ask for.
#[derive(Clone, Copy)]
pub enum Job<'a> {
    /// The lists of this file, and the answers that are shown.
    Lists { file: &'a str, show: Show },
    /// The commands of this file, on this image.
    Run { image: &'a str, file: &'a str },
}

/// What is printed, and the status that the program then ends with.
#[derive(Drop)]
pub struct Output {
    pub text: String,
    pub status: u8,
}

/// Reads the words, the program's name first.
pub fn parse(words: &[String]) -> Result<Job<'_>> {
    match words {
        [_, mode, file] => list_job(mode.as_str(), file.as_str()),
        [_, mode, image, file] if mode.as_str() == "run" => Ok(Job::Run {
            image: image.as_str(),
            file: file.as_str(),
        }),
        _ => bail!("the words are lists FILE, answers FILE, or run IMAGE FILE"),
    }
}

/// The lists of a file in this mode.
fn list_job<'a>(mode: &str, file: &'a str) -> Result<Job<'a>> {
    let show = match mode {
        "lists" => Show::Wrong,
        "answers" => Show::Each,
        _ => bail!("no such mode of one file"),
    };
    Ok(Job::Lists { file, show })
}

/// Does what the words ask for.
pub fn perform<R: Files + AllocGlobal + Threads + Sync>(rt: &R, job: &Job<'_>) -> Result<Output>
where
    R::File: FileExt,
{
    match *job {
        Job::Lists { file, show } => lists(rt, file, show),
        Job::Run { image, file } => run(rt, image, file),
    }
}

/// Carries out the lists of a file.
fn lists<R: Files + AllocGlobal + Threads + Sync>(
    rt: &R,
    file: &str,
    show: Show,
) -> Result<Output> {
    let bytes = fs::read(rt, file)?;
    let bytes = bytes.as_slice();
    Ok(match show {
        Show::Each => answers_of(rt, rt.alloc(), bytes),
        Show::Wrong => wrong_of(rt, rt.alloc(), bytes),
    }?)
}

/// What is printed of the answers to the lists of a file with these bytes, and the status.
fn answers_of(
    rt: &(impl Threads + Sync),
    alloc: Global,
    bytes: &[u8],
) -> Result<Output, AllocError> {
    let Outcome { text, .. } = carry_out_lists(rt, alloc, bytes, Pass::All, Show::Each)?;
    Ok(Output { text, status: 0 })
}

/// What is printed of the lists of a file with these bytes for each version of the layout, and the status.
fn wrong_of(rt: &(impl Threads + Sync), alloc: Global, bytes: &[u8]) -> Result<Output, AllocError> {
    let mut output = Output {
        text: String::new(alloc),
        status: 0,
    };
    for version in [SINGLE, DOUBLE] {
        add_wrong(rt, alloc, bytes, version, &mut output)?;
    }
    Ok(output)
}

/// Adds what is printed of the lists of a file with these bytes for a version of the layout.
fn add_wrong(
    rt: &(impl Threads + Sync),
    alloc: Global,
    bytes: &[u8],
    version: u32,
    output: &mut Output,
) -> Result<(), AllocError> {
    let Outcome {
        text,
        lists,
        lines,
        wrong,
        ..
    } = carry_out_lists(rt, alloc, bytes, Pass::Of(version), Show::Wrong)?;
    output.text.push_str(text.as_str())?;
    writeln!(
        output.text,
        "version {version}: lists {lists} lines {lines} wrong {wrong}"
    )?;
    if wrong > 0 {
        output.status = 1;
    }
    Ok(())
}

/// Carries out the commands of a file on an image.
fn run<R: Files + AllocGlobal + Threads + Sync>(rt: &R, image: &str, file: &str) -> Result<Output>
where
    R::File: FileExt,
{
    let bytes = fs::read(rt, file)?;
    let count = carry_out_on(rt, image, bytes.as_slice())?;
    let lines = count.lines;
    let refused = count.refused;
    Ok(Output {
        text: format!(in rt.alloc(); "lines {lines} refused {refused}\n")?,
        status: 0,
    })
}
