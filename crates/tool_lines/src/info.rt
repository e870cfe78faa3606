//! The line `info`: the numbers of an image.
ghost use Rattle.std.specs.Prelude.{◌≡◌, IfOk};

use clap::{ArgMatches, Command};
use command_line::{Answer, Failure, others_of, words, workers_here};
use file_device::FileDevice;
use std::alloc::{AllocError, Global};
use std::marker::Brand;
use std::os::unix::fs::FileExt;
use std::rt::Files;
use std::thread::Threads;
use tool_answers::info;

/// What the line asks for: the numbers of this image.
#[derive(Clone, Copy)]
pub struct InfoLine<'a> {
    pub image: &'a str,
}

/// The words of the line.
pub fn command<'a>(alloc: Global) -> Result<Command<'a>, AllocError> {
    words::of_image(alloc, "info", "Prints the numbers of an image")
}

/// What these words ask for.
pub fn line_of<'a>(options: &ArgMatches<'a>) -> Option<InfoLine<'a>> {
    Some(InfoLine {
        image: options.get_str("image")?,
    })
}

/// Tells the numbers of a file's image, which is opened to be read alone.
pub fn answer<R: Files + AllocGlobal + Threads + Sync>(
    rt: &R,
    line: &InfoLine<'_>,
) -> Result<Answer, Failure>
where
    R::File: FileExt + Send,
    ensures { IfOk result (λ answer. answer.status ≡ 0) }
{
    match numbers_in_file(rt, line.image) {
        Ok(text) => Ok(Answer::of_text(text)),
        Err(failure) => Err(failure.on_image(rt, line.image)),
    }
}

/// The numbers of a file's image, as they are printed.
fn numbers_in_file<R: Files + AllocGlobal + Threads + Sync>(
    rt: &R,
    image: &str,
) -> Result<Vec<u8>, Failure>
where
    R::File: FileExt + Send,
{
    let alloc = rt.alloc();
    let mut device: FileDevice<R::File, Brand> = FileDevice::open(rt, image)?;
    let mut others = others_of(alloc, &device, workers_here(rt))?;
    Ok(info(rt, alloc, &mut device, &mut others)?)
}
