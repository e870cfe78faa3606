//! The words of a line, and what was read, as text.
use commands::{Line, parse};
use host_lines::mkfs::MkfsLine;
use image_lines::bits::BitsLine;
use image_lines::check::CheckLine;
use image_lines::repair::RepairLine;
use image_lines::upgrade::UpgradeLine;
use script_lines::cuts::{CutsLine, Tries};
use script_lines::run::RunLine;
use script_lines::stops::StopsLine;
use serve_lines::serve::ServeLine;
use std::alloc::{AllocError, Global};
use std::test::Fail;

/// The words of a line, of which two blanks have an empty one between them.
pub(crate) fn words_of(alloc: Global, line: &str) -> Result<Vec<&str>, AllocError> {
    line.split(' ').collect(alloc)
}

/// What a line asks for, in words.
pub(crate) fn asked_by(alloc: Global, line: &str) -> Result<String, Fail> {
    let words = words_of(alloc, line)?;
    let asked = parse(alloc, words.as_slice()).ok().ok_or(line)?;
    Ok(told(alloc, &asked)?)
}

/// Whether a line asks to be shown how far it has come.
pub(crate) fn asks_progress(alloc: Global, line: &str) -> Result<bool, Fail> {
    let words = words_of(alloc, line)?;
    let asked = parse(alloc, words.as_slice()).ok().ok_or(line)?;
    Ok(asked.asks_progress())
}

/// All that was read of a line, but for the everyday lines.
pub(crate) fn told(alloc: Global, line: &Line<'_>) -> Result<String, AllocError> {
    match line {
        Line::Mkfs(line) => told_of_mkfs(alloc, line),
        Line::Check(
            CheckLine {
                image,
                workers,
                progress,
            },
        ) => format!(in alloc; "check {image:?} {workers} {progress}"),
        Line::Repair(
            RepairLine {
                image,
                workers,
                progress,
            },
        ) => format!(in alloc; "repair {image:?} {workers} {progress}"),
        Line::Run(
            RunLine {
                image,
                script,
                workers,
            },
        ) => format!(in alloc; "run {image:?} {script:?} {workers}"),
        Line::Stops(StopsLine { image, script }) => format!(in alloc; "stops {image:?} {script:?}"),
        Line::Cuts(
            CutsLine {
                image,
                script,
                tries: Tries { most, seed },
            },
        ) => format!(in alloc; "cuts {image:?} {script:?} {most} {seed}"),
        Line::Upgrade(UpgradeLine { image }) => format!(in alloc; "upgrade {image:?}"),
        Line::Serve(
            ServeLine {
                image,
                owner,
                access,
            },
        ) => format!(in alloc; "serve {image:?} {owner:?} {access:?}"),
        Line::Bits(BitsLine { image }) => format!(in alloc; "bits {image:?}"),
        Line::Sample => String::from_str(alloc, "sample"),
        _ => String::from_str(alloc, "an everyday line"),
    }
}

fn told_of_mkfs(alloc: Global, line: &MkfsLine<'_>) -> Result<String, AllocError> {
    let MkfsLine {
        image,
        groups,
        blocks,
        inodes,
        format,
        from,
        progress,
    } = line;
    format!(in alloc; "mkfs {image:?} {groups} {blocks} {inodes} {format} {from:?} {progress}")
}
