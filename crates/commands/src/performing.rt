//! A line carried out, from its words to its output.
ghost use Rattle.std.specs.Prelude.{◌≡◌, ◌<◌, ◌≤◌, ◌⊎◌, IfOk};
ghost use Rattle.commands.specs.Lines.{IsServe};

use crate::line::Line;
use crate::words::parse;
use command_line::{Answer, Failure, GAVE_OUT, Screen};
use fuse_channels::Channel;
use host_lines::{get, mkfs, put};
use image_lines::{bits, check, repair, sample, upgrade};
use progress::Watcher;
use script_lines::{cuts, demo, run, stops};
use serve_lines::{Holdable, serve};
use std::convert::AsStr;
use std::io::{Eprint, Write};
use std::os::unix::fs::FileExt;
use std::rt::Files;
use std::sync::Wait;
use std::thread::Threads;
use std::time::Clock;
use tool_lines::{cat, change, info, ls, map, stat};

/// Carries out the line of these words, which are those after the program's name. Its output is written to `out` once
/// all else is done; a refusal is written to `err`, and then nothing to `out`. Gives the status that the program ends
/// with.
///
/// How far the line has come is shown on the screen while it is carried out. That is no part of what is written to `err`, and no
/// clause speaks of it.
///
/// The channel is the connection to Linux of the line that serves an image. No other line uses it.
pub fn perform<
    R: Files + AllocGlobal + Clock + Eprint + Threads + Wait + Sync + Clone + Drop,
    S: AsStr,
    W: Write,
    E: Write,
    P: Write + Send + Drop,
    C: Channel,
>(rt: &R, words: &[S], out: &mut W, err: &mut E, screen: Screen<P>, channel: &mut C) -> u8
where
    R::File: FileExt + Holdable + Send,
    ensures few { result ≤ 4 }
    ensures refused { result ≡ 3 → out.new ≡ out.old }
    ensures done { result < 2 → err.new ≡ err.old }
{
    match answer(rt, words, screen, channel) {
        Ok(answer) => match answer.print(out) {
            Ok(()) => answer.status,
            Err(_) => GAVE_OUT,
        },
        Err(failure) => failure.report(err),
    }
}

/// Does what the words ask for, and shows how far that has come.
fn answer<
    R: Files + AllocGlobal + Clock + Eprint + Threads + Wait + Sync + Clone + Drop,
    S: AsStr,
    P: Write + Send + Drop,
    C: Channel,
>(rt: &R, words: &[S], screen: Screen<P>, channel: &mut C) -> Result<Answer, Failure>
where
    R::File: FileExt + Holdable + Send,
    ensures { IfOk result (λ answer. answer.status < 3) }
{
    let line = match parse(rt.alloc(), words) {
        Ok(line) => line,
        Err(failure) => return Err(failure),
    };
    let shown = screen.line(rt, rt.alloc(), line.asks_progress());
    let answer = carry_out(rt, &line, &shown, channel);
    if let Some(shown) = shown {
        shown.end();
    }
    answer
}

/// Does what a line asks for, and tells the watcher how far that has come.
pub fn carry_out<
    R: Files + AllocGlobal + Clock + Eprint + Threads + Wait + Sync + Clone + Drop,
    T: Watcher + Sync,
    C: Channel,
>(rt: &R, line: &Line<'_>, watcher: &T, channel: &mut C) -> Result<Answer, Failure>
where
    R::File: FileExt + Holdable + Send,
    ensures status { IfOk result (λ answer. answer.status < 3) }
    ensures apart { IsServe line.now ⊎ (channel.new ≡ channel.old) }
{
    match line {
        Line::Mkfs(line) => mkfs::answer(rt, line, watcher),
        Line::Check(line) => check::answer(rt, line, watcher),
        Line::Repair(line) => repair::answer(rt, line, watcher),
        Line::Upgrade(line) => upgrade::answer(rt, line),
        Line::Run(line) => run::answer(rt, line),
        Line::Stops(line) => stops::answer(rt, line),
        Line::Cuts(line) => cuts::answer(rt, line),
        Line::Bits(line) => bits::answer(rt, line),
        Line::Demo(line) => demo::answer(rt, line),
        Line::Info(line) => info::answer(rt, line),
        Line::Map(line) => map::answer(rt, line),
        Line::Ls(line) => ls::answer(rt, line),
        Line::Stat(line) => stat::answer(rt, line),
        Line::Cat(line) => cat::answer(rt, line),
        Line::Get(line) => get::answer(rt, line, watcher),
        Line::Put(line) => put::answer(rt, line, watcher),
        Line::Change(line) => change::answer(rt, line),
        Line::Serve(line) => serve::answer(rt, line, channel),
        Line::Sample => sample::answer(rt.alloc()),
    }
}
