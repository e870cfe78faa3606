//! What the words of a line ask for.
ghost use Rattle.std.specs.Prelude.{◌≡◌, ◌≢◌, ◌↔◌, [], Ok, IfOk, IfSome};

use crate::line::Line;
use crate::program::program;
use clap::error::ErrorKind;
use clap::{ArgMatches, Command};
use command_line::{Failure, misread};
use host_lines::{get, mkfs, put};
use image_lines::{bits, check, repair, upgrade};
use layout::Refusal;
use script_lines::{cuts, demo, run, stops};
use serve_lines::serve;
use std::alloc::{AllocError, Global};
use std::convert::AsStr;
use std::env::Env;
use std::{env, io};
use tool_lines::{cat, change, info, ls, map, stat};

/// The words that the program was started with, without its name.
pub fn words_given(rt: &(impl Env + AllocGlobal)) -> Result<Vec<String>, Failure> {
    match env::args(rt) {
        Ok(words) => Ok(words.skip(1).collect(rt.alloc())?),
        Err(error) if error.kind() == io::ErrorKind::OutOfMemory => {
            Err(Failure::from(Refusal::NoMemory))
        }
        Err(_) => Err(Failure::Line(String::from_str(
            rt.alloc(),
            "error: a word is not written in UTF-8\n",
        )?)),
    }
}

/// Reads the words of a line, without the program's name.
pub fn parse<'a, S: AsStr>(alloc: Global, words: &'a [S]) -> Result<Line<'a>, Failure>
    ensures { (result ≡ Ok Line.Sample) ↔ (words.now ≡ []) }
{
    if words.is_empty() {
        return Ok(Line::Sample);
    }
    match parse_words(alloc, words) {
        Ok(line) => Ok(line),
        Err(error) => Err(misread(alloc, &error)),
    }
}

fn parse_words<'a, S: AsStr>(alloc: Global, words: &'a [S]) -> Result<Line<'a>, clap::Error>
    ensures { IfOk result (λ line. line ≢ Line.Sample) }
{
    let mut command = program(alloc)?;
    line_asked(alloc, &mut command, words)
}

/// What the words ask for, by the program's command.
fn line_asked<'a, S: AsStr>(
    alloc: Global,
    command: &mut Command<'a>,
    words: &'a [S],
) -> Result<Line<'a>, clap::Error>
    ensures { IfOk result (λ line. line ≢ Line.Sample) }
{
    match line_matched(alloc, command, words)? {
        Some(line) => Ok(line),
        // Each argument is required, so the parse has refused such a line.
        None => Err(command.error(ErrorKind::MissingRequiredArgument, "an argument is missing")?),
    }
}

/// What the words ask for, if they match the program's command.
fn line_matched<'a, S: AsStr>(
    alloc: Global,
    command: &mut Command<'a>,
    words: &'a [S],
) -> Result<Option<Line<'a>>, clap::Error>
    ensures { IfOk result (λ asked. IfSome asked (λ line. line ≢ Line.Sample)) }
{
    let matches = command.try_get_matches_from_mut(words)?;
    match line_of(alloc, &matches) {
        Ok(asked) => Ok(asked),
        Err(error) => Err(clap::Error::from(error)),
    }
}

/// What the matches of the program's command ask for.
fn line_of<'a>(alloc: Global, matches: &ArgMatches<'a>) -> Result<Option<Line<'a>>, AllocError>
    ensures { IfOk result (λ asked. IfSome asked (λ line. line ≢ Line.Sample)) }
{
    let Some((name, options)) = matches.subcommand() else {
        return Ok(None);
    };
    match change::change_of(name) {
        Some(change) => match change::line_of(alloc, change, options)? {
            Some(line) => Ok(Some(Line::Change(line))),
            None => Ok(None),
        },
        None => Ok(line_of_parts(name, options)),
    }
}

/// What the matches of a line ask for that makes an image or moves files between it and the host, or of another one that changes
/// no names.
fn line_of_parts<'a>(name: &str, options: &ArgMatches<'a>) -> Option<Line<'a>>
    ensures { IfSome result (λ line. line ≢ Line.Sample) }
{
    match name {
        "mkfs" => Some(Line::Mkfs(mkfs::line_of(options)?)),
        "put" => Some(Line::Put(put::line_of(options)?)),
        "get" => Some(Line::Get(get::line_of(options)?)),
        _ => line_that_looks(name, options),
    }
}

/// What the matches of a line ask for that looks into an image, or of one that serves, checks, mends, upgrades or tries something.
fn line_that_looks<'a>(name: &str, options: &ArgMatches<'a>) -> Option<Line<'a>>
    ensures { IfSome result (λ line. line ≢ Line.Sample) }
{
    match name {
        "ls" => Some(Line::Ls(ls::line_of(options)?)),
        "stat" => Some(Line::Stat(stat::line_of(options)?)),
        "cat" => Some(Line::Cat(cat::line_of(options)?)),
        "info" => Some(Line::Info(info::line_of(options)?)),
        "map" => Some(Line::Map(map::line_of(options)?)),
        _ => line_that_checks(name, options),
    }
}

/// What the matches of a line ask for that serves an image, checks, mends or upgrades it, or of one that shows what the program does.
fn line_that_checks<'a>(name: &str, options: &ArgMatches<'a>) -> Option<Line<'a>>
    ensures { IfSome result (λ line. line ≢ Line.Sample) }
{
    match name {
        "serve" => Some(Line::Serve(serve::line_of(options)?)),
        "check" => Some(Line::Check(check::line_of(options)?)),
        "repair" => Some(Line::Repair(repair::line_of(options)?)),
        "upgrade" => Some(Line::Upgrade(upgrade::line_of(options)?)),
        "bits" => Some(Line::Bits(bits::line_of(options)?)),
        "run" => Some(Line::Run(run::line_of(options)?)),
        _ => line_that_tries(name, options),
    }
}

/// What the matches of a line ask for that shows what the program does.
fn line_that_tries<'a>(name: &str, options: &ArgMatches<'a>) -> Option<Line<'a>>
    ensures { IfSome result (λ line. line ≢ Line.Sample) }
{
    match name {
        "stops" => Some(Line::Stops(stops::line_of(options)?)),
        "cuts" => Some(Line::Cuts(cuts::line_of(options)?)),
        "demo" => Some(Line::Demo(demo::line_of(options)?)),
        _ => None,
    }
}
