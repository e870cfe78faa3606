//! The line `ls`: the names in a directory.
ghost use Rattle.std.specs.Prelude.{◌≡◌, IfOk};

use clap::{Arg, ArgAction, ArgMatches, Command};
use command_line::{Answer, Failure, arguments};
use failures::path_given;
use file_device::FileDevice;
use std::alloc::{AllocError, Global};
use std::marker::Brand;
use std::os::unix::fs::FileExt;
use std::rt::Files;
use tool_answers::{Style, ls};

/// What the line asks for: the names in a directory of this image, in this style.
#[derive(Clone, Copy)]
pub struct LsLine<'a> {
    pub image: &'a str,
    pub path: &'a str,
    pub style: Style,
}

/// The words of the line.
pub fn command<'a>(alloc: Global) -> Result<Command<'a>, AllocError> {
    Command::new(alloc, "ls")
        .about("Prints the names in a directory of an image")
        .arg(flag(alloc, "long", 'l').help("With the number, kind, links and size of each"))?
        .arg(flag(alloc, "recursive", 'R').help("And those in each directory below"))?
        .arg(arguments::image(alloc))?
        .arg(arguments::path(alloc))
}

/// What these words ask for.
pub fn line_of<'a>(options: &ArgMatches<'a>) -> Option<LsLine<'a>> {
    Some(LsLine {
        image: options.get_str("image")?,
        path: options.get_str("path")?,
        style: Style {
            long: options.get_flag("long"),
            recursive: options.get_flag("recursive"),
        },
    })
}

/// Tells the names in a file's image, which is opened to be read alone.
pub fn answer<R: Files + AllocGlobal>(rt: &R, line: &LsLine<'_>) -> Result<Answer, Failure>
where
    R::File: FileExt,
    ensures { IfOk result (λ answer. answer.status ≡ 0) }
{
    let path = path_given(rt.alloc(), line.path)?;
    match names_in_file(rt, line.image, &path, line.style) {
        Ok(text) => Ok(Answer::of_text(text)),
        Err(failure) => Err(failure.on_image(rt, line.image).on_path(rt.alloc(), &path)),
    }
}

/// The names in a directory of a file's image, as they are printed.
fn names_in_file<R: Files + AllocGlobal>(
    rt: &R,
    image: &str,
    path: &[u8],
    style: Style,
) -> Result<Vec<u8>, Failure>
where
    R::File: FileExt,
{
    let mut device: FileDevice<R::File, Brand> = FileDevice::open(rt, image)?;
    Ok(ls(rt.alloc(), &mut device, path, style)?)
}

/// A flag.
fn flag<'a>(alloc: Global, name: &'a str, letter: char) -> Arg<'a> {
    Arg::new(alloc, name)
        .short(letter)
        .action(ArgAction::SetTrue)
}
