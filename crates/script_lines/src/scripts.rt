//! The word for a script, and the file of it.
ghost use Rattle.std.specs.Prelude.{◌≡◌};
ghost use Rattle.failures.specs.Status.{plain};
ghost use Rattle.layout.specs.declared.refusal.Refusal.TheVariants.{NoMemory};

use clap::Command;
use command_line::{Failure, arguments, bytes_of_file, words};
use layout::Refusal;
use printed_names::write_name;
use std::alloc::{AllocError, Global};
use std::rt::Files;
use std::str::from_utf8;
use user_scripts::{BadScript, Commands, UserLine};

/// How many bytes of a line are told at most.
const BYTES_TOLD: usize = 200;

/// A line that takes an image and a script.
pub(crate) fn of_script<'a>(
    alloc: Global,
    name: &'a str,
    about: &'a str,
) -> Result<Command<'a>, AllocError> {
    words::of_image(alloc, name, about)?.arg(arguments::script(alloc))
}

/// The lines of a file's script.
pub(crate) fn lines_of_file<R: Files + AllocGlobal>(
    rt: &R,
    script: &str,
    which: Commands,
) -> Result<Vec<UserLine>, Failure> {
    let bytes = bytes_of_file(rt, script)?;
    match user_scripts::parse(rt.alloc(), bytes.as_slice(), which) {
        Ok(lines) => Ok(lines),
        Err(refused) => Err(refusal_of_script(rt.alloc(), bytes.as_slice(), refused)),
    }
}

/// Why a script of these bytes is refused: the number of the line of another form, and the line.
pub fn refusal_of_script(alloc: Global, script: &[u8], refused: BadScript) -> Failure
    ensures { refused ≡ BadScript.NoMemory → result ≡ plain NoMemory }
{
    match refused {
        BadScript::NoMemory => Failure::from(Refusal::NoMemory),
        BadScript::Line(number) => match text_of(alloc, script, number) {
            Ok(text) => Failure::Line(text),
            Err(AllocError) => Failure::from(Refusal::NoMemory),
        },
    }
}

/// The number of a line, and behind it the line, as they are told.
fn text_of(alloc: Global, script: &[u8], number: usize) -> Result<String, AllocError> {
    let mut told = Vec::new(alloc);
    write_told(&mut told, line_at(script, number))?;
    let line = from_utf8(told.as_slice()).unwrap_or("");
    let refused = BadScript::Line(number);
    format!(in alloc; "{refused}\n{line}\n")
}

/// Writes what is told of a line: its first bytes, each as in a printed name, but for blanks.
fn write_told(told: &mut Vec<u8>, line: &[u8]) -> Result<(), AllocError> {
    let line = line.get(..BYTES_TOLD).unwrap_or(line);
    for (place, word) in line.split(|byte| *byte == b' ').enumerate() {
        if place > 0 {
            told.push(b' ')?;
        }
        write_name(told, word)?;
    }
    Ok(())
}

/// The line of this number, of lines that count from 1.
fn line_at(script: &[u8], number: usize) -> &[u8] {
    let mut lines = script.split(|byte| *byte == b'\n');
    lines.nth(number.saturating_sub(1)).unwrap_or(&[])
}
