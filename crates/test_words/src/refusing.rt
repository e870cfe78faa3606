//! The texts by which lines are refused.
use crate::telling::words_of;
use command_line::Failure;
use commands::parse;
use std::alloc::Global;
use std::process::Abort;
use std::test::Fail;

/// Lines of no form, and what the text that refuses each has.
const WRONG: &[(&str, &str)] = &[
    ("frob", "unrecognized subcommand 'frob'"),
    ("", "unrecognized subcommand ''"),
    ("--", "requires a subcommand but one was not provided"),
    (
        "--groups 1 bits a.img",
        "unexpected argument '--groups' found",
    ),
    ("bits", "required arguments were not provided:\n  <IMAGE>"),
    (
        "check a.img",
        "required arguments were not provided:\n  --workers <NUMBER>",
    ),
    (
        "check --workers 4",
        "required arguments were not provided:\n  <IMAGE>",
    ),
    ("bits a.img b.img", "unexpected argument 'b.img' found"),
    (
        "ls a.img",
        "required arguments were not provided:\n  <PATH>",
    ),
    (
        "mkdir a.img",
        "required arguments were not provided:\n  <PATH>...",
    ),
    ("mv a.img /b", "values required by"),
    (
        "run --workers 1 a.img",
        "required arguments were not provided:\n  <SCRIPT>",
    ),
    (
        "run a.img b.txt",
        "required arguments were not provided:\n  --workers <NUMBER>",
    ),
    (
        "stops",
        "required arguments were not provided:\n  <IMAGE>\n  <SCRIPT>",
    ),
    (
        "cuts a.img",
        "required arguments were not provided:\n  <SCRIPT>",
    ),
    (
        "cuts --most 1 a.img b.txt",
        "invalid value '1' for '--most <NUMBER>': 1 is not in 2..=65536",
    ),
    (
        "cuts --seed -1 a.img b.txt",
        "unexpected argument '-1' found",
    ),
    (
        "stops --workers 1 a.img b.txt",
        "unexpected argument '--workers' found",
    ),
    (
        "bits --groups 1 a.img",
        "unexpected argument '--groups' found",
    ),
    (
        "serve a.img --check two",
        "invalid value 'two' for '--check <NUMBER>': invalid digit found in string",
    ),
    (
        "serve a.img --seconds",
        "a value is required for '--seconds <NUMBER>' but none was supplied",
    ),
    (
        "serve --read-only",
        "required arguments were not provided:\n  <IMAGE>",
    ),
    (
        "serve a.img --read-only --owner",
        "a value is required for '--owner <USER:GROUP>' but none was supplied",
    ),
];

/// Lines with `mkfs` of no form, and what the text that refuses each has.
const WRONG_MKFS: &[(&str, &str)] = &[
    (
        "mkfs --groups 1 --blocks 16 --inodes 16",
        "required arguments were not provided:\n  <IMAGE>",
    ),
    (
        "mkfs --blocks 16 --inodes 16 a.img",
        "required arguments were not provided:\n  --groups <NUMBER>",
    ),
    (
        "mkfs --groups 1 --inodes 16 a.img",
        "required arguments were not provided:\n  --blocks <NUMBER>",
    ),
    (
        "mkfs --groups 1 --blocks 16 a.img",
        "required arguments were not provided:\n  --inodes <NUMBER>",
    ),
    (
        "mkfs --groups 1 --groups 1 --blocks 16 --inodes 16 a.img",
        "the argument '--groups <NUMBER>' cannot be used multiple times",
    ),
    (
        "mkfs --groups 1 --blocks 16 --inodes 16 a.img b.img",
        "unexpected argument 'b.img' found",
    ),
    (
        "mkfs --groups 1 --blocks 16 --inodes 16 a.img --force",
        "unexpected argument '--force' found",
    ),
    (
        "mkfs --blocks 16 --inodes 16 a.img --groups",
        "a value is required for '--groups <NUMBER>' but none was supplied",
    ),
];

/// What stands in place of the version of the layout, and what the text that refuses it has.
const NO_VERSIONS: &[(&str, &str)] = &[
    (
        " 3",
        "invalid value '3' for '--format <NUMBER>': 3 is not in 1..=2\n",
    ),
    (
        "=0",
        "invalid value '0' for '--format <NUMBER>': 0 is not in 1..=2\n",
    ),
    (" x", "invalid value 'x' for '--format <NUMBER>'"),
    (
        "",
        "a value is required for '--format <NUMBER>' but none was supplied",
    ),
    (
        " 1 --format 2",
        "the argument '--format <NUMBER>' cannot be used multiple times",
    ),
];

/// What stands in place of the groups' number, and what the text that refuses it has.
const NO_NUMBERS: &[(&str, &str)] = &[
    (" x", "invalid value 'x' for '--groups <NUMBER>'"),
    ("=x", "invalid value 'x' for '--groups <NUMBER>'"),
    ("=1x", "invalid value '1x' for '--groups <NUMBER>'"),
    ("=0x1", "invalid value '0x1' for '--groups <NUMBER>'"),
    ("=1.0", "invalid value '1.0' for '--groups <NUMBER>'"),
    ("=", "invalid value '' for '--groups <NUMBER>'"),
    (" ", "invalid value '' for '--groups <NUMBER>'"),
    (" -1", "unexpected argument '-1' found"),
    ("=-1", "-1 is not in 0..=4294967295"),
    (" 4294967296", "4294967296 is not in 0..=4294967295"),
    (
        " 18446744073709551616",
        "number too large to fit in target type",
    ),
];

/// Lines that ask for help or for the version, and what the text has.
const HELPS: &[(&str, &str)] = &[
    ("--help", "Usage: fsvol <COMMAND>\n"),
    ("-h", "Usage: fsvol <COMMAND>\n"),
    ("help", "Usage: fsvol <COMMAND>\n"),
    (
        "--help",
        "A file system in an image file: makes, fills, checks and mends volumes\n",
    ),
    (
        "--help",
        "Commands:\n  mkfs     Writes a fresh image\n  put      Puts ",
    ),
    (
        "--help",
        "\nGroups:\n  make and move   mkfs, put, get\n  look            ls, stat, cat, info, map\n  change          mkdir, rm, rmdir, mv, ln\n  mount           serve\n  check and mend  check, repair, upgrade, bits, run\n  experiments     stops, cuts, demo\n",
    ),
    ("--help", "\nStatus:\n  0  done, or the image is clean\n"),
    ("--help", "\n  3  the line is refused\n"),
    (
        "--help",
        "\nSafety:\n  A line that changes an image syncs at its end. If the program is stopped before, or\n",
    ),
    ("--help", "\nExample:\n  fsvol mkfs disk.img "),
    ("--version", "fsvol 0.1.0\n"),
    ("-V", "fsvol 0.1.0\n"),
    (
        "mkfs --help",
        "Usage: fsvol mkfs [OPTIONS] --groups <NUMBER> --blocks <NUMBER> --inodes <NUMBER> <IMAGE>\n",
    ),
    (
        "help mkfs",
        "Usage: fsvol mkfs [OPTIONS] --groups <NUMBER> --blocks <NUMBER> --inodes <NUMBER> <IMAGE>\n",
    ),
    (
        "check --help",
        "Usage: fsvol check [OPTIONS] --workers <NUMBER> <IMAGE>\n",
    ),
    (
        "run --help",
        "Usage: fsvol run --workers <NUMBER> <IMAGE> <SCRIPT>\n",
    ),
    ("stops --help", "Usage: fsvol stops <IMAGE> <SCRIPT>\n"),
    (
        "cuts --help",
        "Usage: fsvol cuts [OPTIONS] <IMAGE> <SCRIPT>\n",
    ),
    ("bits --help", "Usage: fsvol bits <IMAGE>\n"),
    ("bits a.img -h", "Usage: fsvol bits <IMAGE>\n"),
    (
        "get --help",
        "Usage: fsvol get [OPTIONS] <IMAGE> <PATH> <HOST>\n",
    ),
    ("mkfs --help", "--from <HOST>"),
    (
        "mkfs --help",
        "  --format <NUMBER>  The version of the layout: 1, or 2 for files of more than 268 KiB [default: 1]\n",
    ),
];

#[test]
fn refuses_a_wrong_line(rt: HostRuntime) -> Result<(), Fail> {
    for &(line, cause) in WRONG {
        is_refused(&rt, line, cause)?;
    }
    Ok(())
}

#[test]
fn refuses_a_wrong_mkfs(rt: HostRuntime) -> Result<(), Fail> {
    for &(line, cause) in WRONG_MKFS {
        is_refused(&rt, line, cause)?;
    }
    Ok(())
}

#[test]
fn refuses_what_is_no_number(rt: HostRuntime) -> Result<(), Fail> {
    for &(value, cause) in NO_NUMBERS {
        is_no_number(&rt, value, cause)?;
    }
    Ok(())
}

#[test]
fn refuses_what_is_no_version(rt: HostRuntime) -> Result<(), Fail> {
    for &(value, cause) in NO_VERSIONS {
        let line = format!(in rt.alloc();
            "mkfs a.img --groups 1 --blocks 16 --inodes 16 --format{value}"
        )?;
        is_refused(&rt, line.as_str(), cause)?;
    }
    Ok(())
}

#[test]
fn refuses_a_line_that_asks_for_help_or_version(rt: HostRuntime) -> Result<(), Fail> {
    for &(line, part) in HELPS {
        is_helped(&rt, line, part)?;
    }
    Ok(())
}

/// The line is refused with a text that names this cause.
fn is_refused(rt: &(impl AllocGlobal + Abort), line: &str, cause: &str) -> Result<(), Fail> {
    let text = refusal_of(rt.alloc(), line)?;
    starts_with(rt, text.as_str(), "error: ");
    contains(rt, text.as_str(), cause);
    ends_with(rt, text.as_str(), "For more information, try '--help'.\n");
    Ok(())
}

/// A line with this number of groups is refused with a text that names this cause.
fn is_no_number(rt: &(impl AllocGlobal + Abort), value: &str, cause: &str) -> Result<(), Fail> {
    let line = format!(in rt.alloc(); "mkfs --groups{value} --blocks 16 --inodes 16 a.img")?;
    let text = refusal_of(rt.alloc(), line.as_str())?;
    contains(rt, text.as_str(), cause);
    Ok(())
}

/// The line's help has this part.
fn is_helped(rt: &(impl AllocGlobal + Abort), line: &str, part: &str) -> Result<(), Fail> {
    let text = refusal_of(rt.alloc(), line)?;
    contains(rt, text.as_str(), part);
    ends_with(rt, text.as_str(), "\n");
    Ok(())
}

/// The text that refuses the line.
fn refusal_of(alloc: Global, line: &str) -> Result<String, Fail> {
    let words = words_of(alloc, line)?;
    match parse(alloc, words.as_slice()) {
        Ok(_) => Err(Fail::from("the line was read")),
        Err(Failure::Line(text)) => Ok(text),
        Err(_) => Err(Fail::from("no memory")),
    }
}

fn starts_with(rt: &impl Abort, text: &str, start: &str) {
    assert!(rt; text.starts_with(start), "{text}");
}

fn contains(rt: &impl Abort, text: &str, part: &str) {
    assert!(rt; text.contains(part), "{part}: {text}");
}

fn ends_with(rt: &impl Abort, text: &str, end: &str) {
    assert!(rt; text.ends_with(end), "{text}");
}
