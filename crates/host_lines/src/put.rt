//! The line `put`: what stands on the host, in an image.
ghost use Rattle.std.specs.Prelude.{◌≡◌, IfOk};

use crate::ends::silent;
use crate::input::{ARCHIVE, archive_given};
use crate::words::of_host;
use clap::{ArgMatches, Command};
use command_line::{Answer, Failure};
use import_tree::{put_archive_into_file, put_into_file};
use progress::Watcher;
use std::alloc::{AllocError, Global};
use std::os::unix::fs::FileExt;
use std::rt::Files;
use std::sync::Wait;
use std::thread::Threads;

/// What the line asks for: what stands at a path of the host, and all below it, at a path in this image.
#[derive(Clone, Copy)]
pub struct PutLine<'a> {
    pub image: &'a str,
    pub path: &'a str,
    pub host: &'a str,
    pub progress: bool,
}

/// The words of the line.
pub fn command<'a>(alloc: Global) -> Result<Command<'a>, AllocError> {
    of_host(
        alloc,
        "put",
        "Puts a file or a whole tree of the host into an image, where nothing stands",
    )
}

/// What these words ask for.
pub fn line_of<'a>(options: &ArgMatches<'a>) -> Option<PutLine<'a>> {
    Some(PutLine {
        image: options.get_str("image")?,
        path: options.get_str("path")?,
        host: options.get_str("host")?,
        progress: options.get_flag("progress"),
    })
}

/// Puts what stands on the host, or in a tar archive on standard input, into a file's image. The watcher is told what goes into
/// it.
pub fn answer<R: Files + AllocGlobal + Threads + Wait + Sync + Clone + Drop>(
    rt: &R,
    line: &PutLine<'_>,
    watcher: &impl Watcher,
) -> Result<Answer, Failure>
where
    R::File: FileExt + Send,
    ensures { IfOk result (λ answer. answer.status ≡ 0) }
{
    if line.host == ARCHIVE {
        return put_archive(rt, line, watcher);
    }
    silent(
        rt.alloc(),
        put_into_file(rt, line.image, line.path, line.host, watcher),
    )
}

/// Puts what stands in the tar archive on standard input into a file's image.
fn put_archive<R: Files + AllocGlobal + Threads + Wait + Sync>(
    rt: &R,
    line: &PutLine<'_>,
    watcher: &impl Watcher,
) -> Result<Answer, Failure>
where
    R::File: FileExt + Send,
    ensures { IfOk result (λ answer. answer.status ≡ 0) }
{
    let archive = archive_given(rt)?;
    silent(
        rt.alloc(),
        put_archive_into_file(rt, line.image, line.path, archive.as_slice(), watcher),
    )
}
