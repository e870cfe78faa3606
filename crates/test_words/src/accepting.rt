//! The lines that are read.
use crate::telling::{asked_by, asks_progress, told};
use commands::parse;
use std::process::Abort;
use std::test::Fail;

/// Lines, and what each asks for.
const READ: &[(&str, &str)] = &[
    (
        "mkfs a.img --groups 2 --blocks 32 --inodes 16",
        "mkfs \"a.img\" 2 32 16 1 None false",
    ),
    (
        "mkfs --groups 2 --blocks 32 --inodes 16 a.img",
        "mkfs \"a.img\" 2 32 16 1 None false",
    ),
    (
        "mkfs --inodes 16 a.img --blocks 32 --groups 2",
        "mkfs \"a.img\" 2 32 16 1 None false",
    ),
    (
        "mkfs --blocks=32 --inodes=16 --groups=2 a.img",
        "mkfs \"a.img\" 2 32 16 1 None false",
    ),
    (
        "mkfs --groups 2 --blocks 32 --inodes 16 -- a.img",
        "mkfs \"a.img\" 2 32 16 1 None false",
    ),
    (
        "mkfs --groups +2 --blocks 032 --inodes=+16 a.img",
        "mkfs \"a.img\" 2 32 16 1 None false",
    ),
    (
        "mkfs --groups 0 --blocks 4294967295 --inodes=-0 a.img",
        "mkfs \"a.img\" 0 4294967295 0 1 None false",
    ),
    (
        "mkfs --groups 2 --blocks 32 --inodes 16 --format 1 a.img",
        "mkfs \"a.img\" 2 32 16 1 None false",
    ),
    (
        "mkfs --format=2 --groups 2 --blocks 32 --inodes 16 a.img --from b",
        "mkfs \"a.img\" 2 32 16 2 Some(\"b\") false",
    ),
    ("bits a.img", "bits \"a.img\""),
    ("bits -- --help", "bits \"--help\""),
    ("bits -", "bits \"-\""),
    ("bits ", "bits \"\""),
    ("check --workers 1 a.img", "check \"a.img\" 1 false"),
    ("check a.img --workers=64", "check \"a.img\" 64 false"),
    ("check --workers 0 a.img", "check \"a.img\" 0 false"),
    (
        "check --workers 4294967295 a.img",
        "check \"a.img\" 4294967295 false",
    ),
    ("repair --workers 1 a.img", "repair \"a.img\" 1 false"),
    ("repair a.img --workers=65", "repair \"a.img\" 65 false"),
    ("upgrade a.img", "upgrade \"a.img\""),
    ("run --workers 1 a.img b.txt", "run \"a.img\" \"b.txt\" 1"),
    ("run a.img --workers=65 b.txt", "run \"a.img\" \"b.txt\" 65"),
    ("run a.img b.txt --workers 0", "run \"a.img\" \"b.txt\" 0"),
    ("stops a.img b.txt", "stops \"a.img\" \"b.txt\""),
    ("cuts a.img b.txt", "cuts \"a.img\" \"b.txt\" 64 0"),
    (
        "cuts --seed 18446744073709551615 a.img --most 2 b.txt",
        "cuts \"a.img\" \"b.txt\" 2 18446744073709551615",
    ),
    (
        "serve a.img",
        "serve \"a.img\" None Write(Rules { keeps_attributes: true, fills: true, replaces: true }, Beside { workers: 2, seconds: 5 })",
    ),
    (
        "serve --check 0 a.img --seconds=30 --strict-names",
        "serve \"a.img\" None Write(Rules { keeps_attributes: true, fills: true, replaces: false }, Beside { workers: 0, seconds: 30 })",
    ),
    (
        "serve --strict-attributes --strict-size a.img --check=65 --owner 1:2",
        "serve \"a.img\" Some(\"1:2\") Write(Rules { keeps_attributes: false, fills: false, replaces: true }, Beside { workers: 65, seconds: 5 })",
    ),
    ("serve --read-only a.img", "serve \"a.img\" None Read"),
    (
        "serve a.img --owner=1:2 --read-only --check 3",
        "serve \"a.img\" Some(\"1:2\") Read",
    ),
];

#[test]
fn reads_these_lines(rt: HostRuntime) -> Result<(), Fail> {
    for &(line, wanted) in READ {
        asks_for(&rt, line, wanted)?;
    }
    Ok(())
}

/// Lines that may show how far they have come.
const SHOWN: &[&str] = &[
    "mkfs --groups 2 --blocks 32 --inodes 16 a.img",
    "check --workers 1 a.img",
    "repair --workers 1 a.img",
    "get a.img / b",
    "put a.img / b",
];

#[test]
fn reads_whether_progress_is_shown(rt: HostRuntime) -> Result<(), Fail> {
    for &line in SHOWN {
        shows_progress_where_asked(&rt, line)?;
    }
    Ok(())
}

#[test]
fn reads_no_words(rt: HostRuntime) -> Result<(), Fail> {
    let words: Vec<String> = Vec::new(rt.alloc());
    let asked = parse(rt.alloc(), words.as_slice()).ok().ok_or("a line")?;
    let told = told(rt.alloc(), &asked)?;
    same(&rt, told.as_str(), "sample");
    Ok(())
}

/// The line is read as this one.
fn asks_for(rt: &(impl AllocGlobal + Abort), line: &str, wanted: &str) -> Result<(), Fail> {
    let asked = asked_by(rt.alloc(), line)?;
    same(rt, asked.as_str(), wanted);
    Ok(())
}

/// The line shows how far it has come where it ends with `--progress`, and else not.
fn shows_progress_where_asked(rt: &(impl AllocGlobal + Abort), line: &str) -> Result<(), Fail> {
    let asking = format!(in rt.alloc(); "{line} --progress")?;
    let shown = asks_progress(rt.alloc(), line)?;
    let shown_asked = asks_progress(rt.alloc(), asking.as_str())?;
    holds(rt, !shown, line);
    holds(rt, shown_asked, line);
    Ok(())
}

fn same(rt: &impl Abort, text: &str, wanted: &str) {
    assert!(rt; text == wanted, "{text}");
}

fn holds(rt: &impl Abort, fact: bool, line: &str) {
    assert!(rt; fact, "{line}");
}
