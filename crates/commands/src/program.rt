//! The program's `clap` command: a subcommand for each line, in groups, and its help.
use clap::Command;
use host_lines::{get, mkfs, put};
use image_lines::{bits, check, repair, upgrade};
use script_lines::{cuts, demo, run, stops};
use serve_lines::serve;
use std::alloc::{AllocError, Global};
use tool_lines::{cat, change, info, ls, map, stat};

/// The version of the program.
const VERSION: &str = "0.1.0";

/// What the help tells below the lines.
const BELOW_LINES: &str = "\
Groups:
  make and move   mkfs, put, get
  look            ls, stat, cat, info, map
  change          mkdir, rm, rmdir, mv, ln
  mount           serve
  check and mend  check, repair, upgrade, bits, run
  experiments     stops, cuts, demo

Status:
  0  done, or the image is clean
  1  the image is soft: blocks or inodes are lost, or link counts are too high
  2  the image is damaged
  3  the line is refused
  4  no memory, the device failed, or the output could not be written

Safety:
  A line that changes an image syncs at its end. If the program is stopped before, or
  the power fails, the image leaks at most, and has the files of the last sync.

Example:
  fsvol mkfs disk.img --groups 1 --blocks 64 --inodes 32
  fsvol put disk.img /papers papers
  fsvol ls -R disk.img /";

/// The program's command with those of all lines, in the order in which its help tells of them.
pub(crate) fn program<'a>(alloc: Global) -> Result<Command<'a>, AllocError> {
    let program = that_make(alloc, without_lines(alloc)?)?;
    let program = that_look(alloc, program)?;
    let program = that_change(alloc, program)?;
    let program = with_line(program, serve::command(alloc))?;
    let program = that_check(alloc, program)?;
    that_try(alloc, program)
}

/// The program's command before its lines.
fn without_lines<'a>(alloc: Global) -> Result<Command<'a>, AllocError> {
    let program = Command::new(alloc, "fsvol")
        .version(VERSION)
        .about("A file system in an image file: makes, fills, checks and mends volumes")
        .after_help(BELOW_LINES)
        .no_binary_name(true)
        .subcommand_required(true);
    program.bin_name("fsvol")
}

/// With the lines that make images, and move files between them and the host.
fn that_make<'a>(alloc: Global, program: Command<'a>) -> Result<Command<'a>, AllocError> {
    let program = with_line(program, mkfs::command(alloc))?;
    let program = with_line(program, put::command(alloc))?;
    with_line(program, get::command(alloc))
}

/// With the lines that look into an image.
fn that_look<'a>(alloc: Global, program: Command<'a>) -> Result<Command<'a>, AllocError> {
    let program = with_line(program, ls::command(alloc))?;
    let program = with_line(program, stat::command(alloc))?;
    let program = with_line(program, cat::command(alloc))?;
    let program = with_line(program, info::command(alloc))?;
    with_line(program, map::command(alloc))
}

/// With the lines that change the names in an image.
fn that_change<'a>(alloc: Global, program: Command<'a>) -> Result<Command<'a>, AllocError> {
    let program = with_line(program, change::mkdir(alloc))?;
    let program = with_line(program, change::rm(alloc))?;
    let program = with_line(program, change::rmdir(alloc))?;
    let program = with_line(program, change::mv(alloc))?;
    with_line(program, change::ln(alloc))
}

/// With the lines that check an image, mend it and upgrade it.
fn that_check<'a>(alloc: Global, program: Command<'a>) -> Result<Command<'a>, AllocError> {
    let program = with_line(program, check::command(alloc))?;
    let program = with_line(program, repair::command(alloc))?;
    let program = with_line(program, upgrade::command(alloc))?;
    let program = with_line(program, bits::command(alloc))?;
    with_line(program, run::command(alloc))
}

/// With the lines that show what the program does.
fn that_try<'a>(alloc: Global, program: Command<'a>) -> Result<Command<'a>, AllocError> {
    let program = with_line(program, stops::command(alloc))?;
    let program = with_line(program, cuts::command(alloc))?;
    with_line(program, demo::command(alloc))
}

/// With one more line, if there was memory for it.
fn with_line<'a>(
    program: Command<'a>,
    line: Result<Command<'a>, AllocError>,
) -> Result<Command<'a>, AllocError> {
    program.subcommand(line?)
}
