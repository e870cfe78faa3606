//! How a line is tried on an image, and what it is to give.
use command_line::Screen;
use commands::perform;
use fuse_channels::MemoryChannel;
use serve_lines::Holdable;
use std::alloc::Global;
use std::io::{Eprint, Sink};
use std::os::unix::fs::FileExt;
use std::process::Abort;
use std::rt::Files;
use std::sync::Wait;
use std::thread::Threads;
use std::time::Clock;
use std::{fs, io};

/// How many bytes an image of 1 group, 16 blocks and 16 inodes has.
pub(crate) const SMALL: usize = 17_408;

/// What a line is to give.
#[derive(Clone, Copy)]
pub(crate) enum Wanted<'a> {
    /// It prints this, and ends with this status.
    Printed(&'a str, u8),
    /// It is refused with this text, and ends with this status.
    Refused(&'a str, u8),
}

use Wanted::{Printed, Refused};

/// Bytes of an image, each by its place.
pub(crate) type Changes<'a> = &'a [(usize, u8)];

/// A line on an image, as `give` takes it: what stands before the image's name, what stands behind it but for the last word, that
/// word, and what the line is to give.
pub(crate) type Row<'a> = (&'a str, &'a str, &'a str, Wanted<'a>);

/// A screen that nobody sees.
pub(crate) fn unwatched() -> Screen<Sink> {
    Screen {
        to: io::sink(),
        is_terminal: false,
    }
}

/// A channel on which nothing comes.
pub(crate) fn unconnected(alloc: Global) -> MemoryChannel {
    MemoryChannel::new(alloc, Vec::new(alloc))
}

/// Carries out a line of these words, and of a last one behind them.
pub(crate) fn gives<
    R: Files + AllocGlobal + Clock + Eprint + Threads + Wait + Sync + Abort + Clone + Drop,
>(rt: &R, start: &str, last: &str, wanted: Wanted<'_>)
where
    R::File: FileExt + Holdable + Send,
{
    let mut words: Vec<&str> = start.split(' ').collect(rt.alloc()).expect(rt, "memory");
    words.push(last).expect(rt, "memory");
    gives_of_words(rt, words.as_slice(), wanted);
}

/// Carries out a line of these words.
pub(crate) fn gives_of_words<
    R: Files + AllocGlobal + Clock + Eprint + Threads + Wait + Sync + Abort + Clone + Drop,
>(rt: &R, words: &[&str], wanted: Wanted<'_>)
where
    R::File: FileExt + Holdable + Send,
{
    let mut out = Vec::new(rt.alloc());
    let mut err = Vec::new(rt.alloc());
    let mut channel = unconnected(rt.alloc());
    let status = perform(rt, words, &mut out, &mut err, unwatched(), &mut channel);
    given(rt, words, out.as_slice(), err.as_slice(), status, wanted);
}

/// What was written to the output and the errors, and the status, are those that are wanted of these words.
pub(crate) fn given(
    rt: &impl Abort,
    words: &[&str],
    out: &[u8],
    err: &[u8],
    status: u8,
    wanted: Wanted<'_>,
) {
    let (wanted_out, wanted_err, wanted_status) = match wanted {
        Printed(text, status) => (text, "", status),
        Refused(text, status) => ("", text, status),
    };
    same(rt, words, out, wanted_out.as_bytes());
    same(rt, words, err, wanted_err.as_bytes());
    assert_eq!(rt; status, wanted_status, "{words:?}");
}

/// Bytes that are wanted of these words.
pub(crate) fn same(rt: &impl Abort, words: &[&str], bytes: &[u8], wanted: &[u8]) {
    assert!(rt; bytes == wanted, "{words:?}");
}

/// Carries out lines on an image, one after another.
pub(crate) fn give<
    R: Files + AllocGlobal + Clock + Eprint + Threads + Wait + Sync + Abort + Clone + Drop,
>(rt: &R, image: &str, lines: &[Row<'_>])
where
    R::File: FileExt + Holdable + Send,
{
    for &(name, words, last, wanted) in lines {
        let start = format!(in rt.alloc(); "{name} {image}{words}").expect(rt, "memory");
        gives(rt, start.as_str(), last, wanted);
    }
}

/// Makes a fresh image in this file, and gives its bytes.
pub(crate) fn made<
    R: Files + AllocGlobal + Clock + Eprint + Threads + Wait + Sync + Abort + Clone + Drop,
>(rt: &R, geometry: &str, image: &str) -> Vec<u8>
where
    R::File: FileExt + Holdable + Send,
{
    let start = format!(in rt.alloc(); "mkfs {geometry}").expect(rt, "memory");
    gives(rt, start.as_str(), image, Printed("", 0));
    fs::read(rt, image).expect(rt, image)
}

/// A fresh image of 1 group, 16 blocks and 16 inodes, in this file.
pub(crate) fn made_small<
    R: Files + AllocGlobal + Clock + Eprint + Threads + Wait + Sync + Abort + Clone + Drop,
>(rt: &R, image: &str) -> Vec<u8>
where
    R::File: FileExt + Holdable + Send,
{
    made(rt, "--groups 1 --blocks 16 --inodes 16", image)
}

/// Carries out a line of these words on an image of these bytes, which stand in this file, and then stand there still.
pub(crate) fn gives_of_bytes<
    R: Files + AllocGlobal + Clock + Eprint + Threads + Wait + Sync + Abort + Clone + Drop,
>(rt: &R, start: &str, image: &str, bytes: &[u8], wanted: Wanted<'_>)
where
    R::File: FileExt + Holdable + Send,
{
    writes(rt, image, bytes);
    gives(rt, start, image, wanted);
    holds(rt, start, image, bytes);
}

/// The file has these bytes, after a line of these words.
pub(crate) fn holds<R: Files + AllocGlobal + Abort>(rt: &R, line: &str, file: &str, bytes: &[u8]) {
    let held = fs::read(rt, file).expect(rt, file);
    same(rt, &[line, file], held.as_slice(), bytes);
}

/// Carries out a line of these words on images, each of these bytes with changes: what it is to give on each. None of them is
/// written.
pub(crate) fn gives_of_each<
    R: Files + AllocGlobal + Clock + Eprint + Threads + Wait + Sync + Abort + Clone + Drop,
>(rt: &R, start: &str, image: &str, fresh: &[u8], rows: &[(Changes<'_>, Wanted<'_>)])
where
    R::File: FileExt + Holdable + Send,
{
    for &(changes, wanted) in rows {
        let bytes = changed(rt, fresh, changes);
        gives_of_bytes(rt, start, image, bytes.as_slice(), wanted);
    }
}

/// Carries out a line of these words on what is no image, since it has one of these lengths, of which this is told.
pub(crate) fn refuses_lengths<
    R: Files + AllocGlobal + Clock + Eprint + Threads + Wait + Sync + Abort + Clone + Drop,
>(rt: &R, start: &str, image: &str, fresh: &[u8], lengths: &[(usize, &str)])
where
    R::File: FileExt + Holdable + Send,
{
    for &(length, told) in lengths {
        let mut bytes = fresh.to_vec(rt.alloc()).expect(rt, "memory");
        bytes.resize(length, 0).expect(rt, "memory");
        let refused = format!(in rt.alloc(); "refused 3 BadLength\nat {image}: {told}\n").expect(
            rt, "memory",
        );
        gives_of_bytes(
            rt,
            start,
            image,
            bytes.as_slice(),
            Refused(refused.as_str(), 3),
        );
    }
}

/// These bytes with changes.
pub(crate) fn changed<R: AllocGlobal + Abort>(
    rt: &R,
    bytes: &[u8],
    changes: Changes<'_>,
) -> Vec<u8> {
    let mut bytes = bytes.to_vec(rt.alloc()).expect(rt, "memory");
    set_all(bytes.as_mut_slice(), changes);
    bytes
}

/// Sets each of these bytes.
fn set_all(bytes: &mut [u8], values: Changes<'_>) {
    for &(place, value) in values {
        set(bytes, place, value);
    }
}

/// Sets a byte.
pub(crate) fn set(bytes: &mut [u8], place: usize, value: u8) {
    if let Some(byte) = bytes.get_mut(place) {
        *byte = value;
    }
}

/// Writes a file with these bytes.
pub(crate) fn writes<R: Files + Abort>(rt: &R, path: &str, bytes: &[u8]) {
    fs::write(rt, path, bytes).expect(rt, path);
}

/// Removes a file.
pub(crate) fn removes<R: Files + Abort>(rt: &R, path: &str) {
    fs::remove_file(rt, path).expect(rt, path);
}

/// Whether the file stands there.
pub(crate) fn stands<R: Files>(rt: &R, path: &str) -> bool {
    fs::metadata(rt, path).is_ok()
}

/// No file stands there, after a line of these words.
pub(crate) fn is_missing<R: Files + Abort>(rt: &R, line: &str, path: &str) {
    assert!(rt; !stands(rt, path), "{line}");
}
