//! The line `get`: what stands in an image, on the host.
ghost use Rattle.std.specs.Prelude.{◌≡◌, IfOk};

use crate::ends::{printed, silent};
use crate::input::ARCHIVE;
use crate::words::of_host;
use clap::{ArgMatches, Command};
use command_line::{Answer, Failure};
use export_archive::pack_from_file;
use export_host::get_from_file;
use progress::Watcher;
use std::alloc::{AllocError, Global};
use std::os::unix::fs::FileExt;
use std::rt::Files;

/// What the line asks for: what a path in this image leads to, and all below it, at a path of the host.
#[derive(Clone, Copy)]
pub struct GetLine<'a> {
    pub image: &'a str,
    pub path: &'a str,
    pub host: &'a str,
    pub progress: bool,
}

/// The words of the line.
pub fn command<'a>(alloc: Global) -> Result<Command<'a>, AllocError> {
    of_host(
        alloc,
        "get",
        "Makes a file or a whole tree of an image on the host, where nothing stands",
    )
}

/// What these words ask for.
pub fn line_of<'a>(options: &ArgMatches<'a>) -> Option<GetLine<'a>> {
    Some(GetLine {
        image: options.get_str("image")?,
        path: options.get_str("path")?,
        host: options.get_str("host")?,
        progress: options.get_flag("progress"),
    })
}

/// Makes what stands in a file's image on the host, or prints a tar archive of it. The image is opened to be read alone, and the
/// watcher is told what comes out of it.
pub fn answer<R: Files + AllocGlobal>(
    rt: &R,
    line: &GetLine<'_>,
    watcher: &impl Watcher,
) -> Result<Answer, Failure>
where
    R::File: FileExt,
    ensures { IfOk result (λ answer. answer.status ≡ 0) }
{
    if line.host == ARCHIVE {
        return printed(pack_from_file(rt, line.image, line.path, watcher));
    }
    silent(
        rt.alloc(),
        get_from_file(rt, line.image, line.path, line.host, watcher),
    )
}
