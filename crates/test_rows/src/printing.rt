//! Lines without an image, and writers that fail.
use crate::trying::Wanted::Printed;
use crate::trying::{gives_of_words, is_missing, unconnected, unwatched};
use commands::perform;
use serve_lines::Holdable;
use std::io::{Eprint, Write};
use std::os::unix::fs::FileExt;
use std::process::Abort;
use std::rt::Files;
use std::sync::Wait;
use std::thread::Threads;
use std::time::Clock;
use std::{fs, io};

#[test]
fn no_words_check_the_sample(rt: HostRuntime) {
    gives_of_words(&rt, &[], Printed("verdict clean\n", 0));
}

/// Wrong lines, and those that ask for help.
const WRONG: &[&str] = &[
    "frob rows_wrong_line.img",
    "mkfs rows_wrong_line.img --groups 1 --blocks 16",
    "mkfs rows_wrong_line.img --groups 1 --blocks 16 --inodes x",
    "bits",
    "demo rows_wrong_line.img",
    "--help",
    "--version",
];

#[test]
fn a_wrong_line_is_refused_with_a_text(rt: HostRuntime) {
    let image = "rows_wrong_line.img";
    let _ = fs::remove_file(&rt, image);
    for &line in WRONG {
        is_refused_with_a_text(&rt, line);
        is_missing(&rt, line, image);
    }
}

/// The line prints nothing, and tells something of its refusal.
fn is_refused_with_a_text<
    R: Files + AllocGlobal + Clock + Eprint + Threads + Wait + Sync + Abort + Clone + Drop,
>(rt: &R, line: &str)
where
    R::File: FileExt + Holdable + Send,
{
    let words: Vec<&str> = line.split(' ').collect(rt.alloc()).expect(rt, "memory");
    let mut out = Vec::new(rt.alloc());
    let mut err = Vec::new(rt.alloc());
    let mut channel = unconnected(rt.alloc());
    let status = perform(
        rt,
        words.as_slice(),
        &mut out,
        &mut err,
        unwatched(),
        &mut channel,
    );
    has_status(rt, line, status, 3);
    is_empty(rt, line, out.as_slice());
    is_not_empty(rt, line, err.as_slice());
}

fn has_status(rt: &impl Abort, line: &str, status: u8, wanted: u8) {
    assert_eq!(rt; status, wanted, "{line}");
}

fn is_empty(rt: &impl Abort, line: &str, text: &[u8]) {
    assert!(rt; text.is_empty(), "{line}");
}

fn is_not_empty(rt: &impl Abort, line: &str, text: &[u8]) {
    assert!(rt; !text.is_empty(), "{line}");
}

/// A writer that takes so many bytes, and then fails.
#[derive(Drop)]
struct Failing(usize);

impl Write for Failing {
    fn write(&mut self, buf: &[u8]) -> io::Result<usize> {
        let taken = buf.len().min(self.0);
        if taken == 0 {
            return Err(io::Error::from(io::ErrorKind::StorageFull));
        }
        self.0 -= taken;
        Ok(taken)
    }

    fn flush(&mut self) -> io::Result<()> {
        Ok(())
    }
}

/// A writer that takes all bytes, and fails where they are to reach their end.
#[derive(Drop)]
struct Unflushed;

impl Write for Unflushed {
    fn write(&mut self, buf: &[u8]) -> io::Result<usize> {
        Ok(buf.len())
    }

    fn flush(&mut self) -> io::Result<()> {
        Err(io::Error::from(io::ErrorKind::StorageFull))
    }
}

#[test]
fn a_failed_write_is_told_by_the_status(rt: HostRuntime) {
    for taken in 0..14 {
        ends_with(&rt, &mut Failing(taken), 4);
    }
    ends_with(&rt, &mut Failing(14), 0);
    ends_with(&rt, &mut Unflushed, 4);
}

/// The line without words, whose output goes to this writer, ends with this status, and tells of no refusal.
fn ends_with<
    R: Files + AllocGlobal + Clock + Eprint + Threads + Wait + Sync + Abort + Clone + Drop,
    W: Write,
>(rt: &R, out: &mut W, wanted: u8)
where
    R::File: FileExt + Holdable + Send,
{
    let words: &[&str] = &[];
    let mut err = Vec::new(rt.alloc());
    let mut channel = unconnected(rt.alloc());
    let status = perform(rt, words, out, &mut err, unwatched(), &mut channel);
    has_status(rt, "no words", status, wanted);
    is_empty(rt, "no words", err.as_slice());
}

#[test]
fn a_refusal_keeps_its_status_where_it_cannot_be_printed(rt: HostRuntime) {
    is_refused_unprinted(&rt, "frob", 3);
    is_refused_unprinted(&rt, "bits", 4);
}

/// The line is refused with this status, and prints nothing, where the refusal cannot be printed.
fn is_refused_unprinted<
    R: Files + AllocGlobal + Clock + Eprint + Threads + Wait + Sync + Abort + Clone + Drop,
>(rt: &R, name: &str, wanted: u8)
where
    R::File: FileExt + Holdable + Send,
{
    let mut out = Vec::new(rt.alloc());
    let mut channel = unconnected(rt.alloc());
    let words = [name, "rows_unprinted.img"];
    let status = perform(
        rt,
        words.as_slice(),
        &mut out,
        &mut Failing(3),
        unwatched(),
        &mut channel,
    );
    has_status(rt, name, status, wanted);
    is_empty(rt, name, out.as_slice());
}
