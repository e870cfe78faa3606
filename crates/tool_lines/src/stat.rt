//! The line `stat`: what a path in an image leads to.
ghost use Rattle.std.specs.Prelude.{◌≡◌, IfOk};

use clap::{ArgMatches, Command};
use command_line::{Answer, Failure, words};
use failures::path_given;
use file_device::FileDevice;
use std::alloc::{AllocError, Global};
use std::marker::Brand;
use std::os::unix::fs::FileExt;
use std::rt::Files;
use tool_answers::stat;

/// What the line asks for: what a path in this image leads to.
#[derive(Clone, Copy)]
pub struct StatLine<'a> {
    pub image: &'a str,
    pub path: &'a str,
}

/// The words of the line.
pub fn command<'a>(alloc: Global) -> Result<Command<'a>, AllocError> {
    words::of_path(alloc, "stat", "Prints what a path in an image leads to")
}

/// What these words ask for.
pub fn line_of<'a>(options: &ArgMatches<'a>) -> Option<StatLine<'a>> {
    Some(StatLine {
        image: options.get_str("image")?,
        path: options.get_str("path")?,
    })
}

/// Tells what a path leads to in a file's image, which is opened to be read alone.
pub fn answer<R: Files + AllocGlobal>(rt: &R, line: &StatLine<'_>) -> Result<Answer, Failure>
where
    R::File: FileExt,
    ensures { IfOk result (λ answer. answer.status ≡ 0) }
{
    let path = path_given(rt.alloc(), line.path)?;
    match status_in_file(rt, line.image, &path) {
        Ok(text) => Ok(Answer::of_text(text)),
        Err(failure) => Err(failure.on_image(rt, line.image).on_path(rt.alloc(), &path)),
    }
}

/// What a path leads to in a file's image, as it is printed.
fn status_in_file<R: Files + AllocGlobal>(
    rt: &R,
    image: &str,
    path: &[u8],
) -> Result<Vec<u8>, Failure>
where
    R::File: FileExt,
{
    let mut device: FileDevice<R::File, Brand> = FileDevice::open(rt, image)?;
    Ok(stat(rt.alloc(), &mut device, path)?)
}
