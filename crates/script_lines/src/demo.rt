//! The line `demo`: what the program does, shown on a small volume in memory. It opens no file.
ghost use Rattle.std.specs.Prelude.{◌≡◌, IfOk};

mod passages;
mod story;
mod texts;
mod volumes;

use crate::demo::story::story;
use clap::{ArgMatches, Command};
use command_line::{Answer, Failure};
use std::alloc::{AllocError, Global};
use std::sync::Wait;
use std::thread::Threads;

/// What the line asks for: the demo, which takes no argument.
#[derive(Clone, Copy)]
pub struct DemoLine;

/// The words of the line.
pub fn command<'a>(alloc: Global) -> Result<Command<'a>, AllocError> {
    Ok(Command::new(alloc, "demo").about("Shows on a small volume in memory what fsvol does"))
}

/// What these words ask for.
pub fn line_of(_options: &ArgMatches<'_>) -> Option<DemoLine> {
    Some(DemoLine)
}

/// Makes a small volume in memory, takes an image that a stop of a script leaves, lets two users work on it while it is checked
/// and repaired, and shows what each stop of the script leaves. What it prints is the same each time.
pub fn answer<R: Threads + Wait + Sync + AllocGlobal>(
    rt: &R,
    _line: &DemoLine,
) -> Result<Answer, Failure>
    ensures { IfOk result (λ answer. answer.status ≡ 0) }
{
    Ok(Answer {
        text: story(rt, rt.alloc())?,
        status: 0,
    })
}
