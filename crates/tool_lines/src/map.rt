//! The line `map`: a picture of an image.
ghost use Rattle.std.specs.Prelude.{◌≡◌, IfOk};

use clap::{ArgMatches, Command};
use command_line::{Answer, Failure, others_of, words, workers_here};
use file_device::FileDevice;
use pictures::{draw, look};
use std::alloc::{AllocError, Global};
use std::marker::Brand;
use std::os::unix::fs::FileExt;
use std::rt::Files;
use std::thread::Threads;

/// What the line asks for: a picture of what each block of this image is used for.
#[derive(Clone, Copy)]
pub struct MapLine<'a> {
    pub image: &'a str,
}

/// The words of the line.
pub fn command<'a>(alloc: Global) -> Result<Command<'a>, AllocError> {
    words::of_image(
        alloc,
        "map",
        "Writes a picture of an image to standard output, in SVG: what each block is used for",
    )
}

/// What these words ask for.
pub fn line_of<'a>(options: &ArgMatches<'a>) -> Option<MapLine<'a>> {
    Some(MapLine {
        image: options.get_str("image")?,
    })
}

/// Draws a file's image, which is opened to be read alone.
pub fn answer<R: Files + AllocGlobal + Threads + Sync>(
    rt: &R,
    line: &MapLine<'_>,
) -> Result<Answer, Failure>
where
    R::File: FileExt + Send,
    ensures { IfOk result (λ answer. answer.status ≡ 0) }
{
    match picture_of_file(rt, line.image) {
        Ok(text) => Ok(Answer::of_text(text)),
        Err(failure) => Err(failure.on_image(rt, line.image)),
    }
}

/// A picture of a file's image.
fn picture_of_file<R: Files + AllocGlobal + Threads + Sync>(
    rt: &R,
    image: &str,
) -> Result<Vec<u8>, Failure>
where
    R::File: FileExt + Send,
{
    let alloc = rt.alloc();
    let mut device: FileDevice<R::File, Brand> = FileDevice::open(rt, image)?;
    let mut others = others_of(alloc, &device, workers_here(rt))?;
    let picture = look(rt, alloc, &mut device, &mut others)?;
    Ok(draw(alloc, &picture)?.into_bytes())
}
