//! Random lists of commands.
use crate::kinds::Kind;
use layout::BLOCK_BYTES;
use std::alloc::{AllocError, Global};
use test_noise::Noise;

/// How many lines each list has at least.
const LEAST_LINES: u32 = 8;

/// How many more it has at most.
const MORE_LINES: u32 = 52;

/// The paths that commands name. Ten further names of `/b` fill the first block of the root but for one slot.
const PATHS: &[&str] = &[
    "/a", "/b", "/c", "/d", "/d/a", "/d/b", "/d/e", "/d/e/f", "/g", "/g/a", "/n10",
];

/// The list of a seed, of a kind: a line for each command, or for several writes. Some of them are refused.
pub fn list_of(alloc: Global, seed: u64, kind: &Kind) -> Result<String, AllocError> {
    let mut noise = Noise::new(seed);
    let mut text = String::new(alloc);
    if kind.is_long {
        write_growth(&mut text, &mut noise)?;
    }
    writeln!(text, "open /a\nopen /b")?;
    let mut taken = 0u32;
    for _line in 0..LEAST_LINES.saturating_add(noise.below(MORE_LINES)) {
        write_line(&mut text, &mut noise, kind, &mut taken)?;
    }
    Ok(text)
}

/// Writes the growth of the long file past 268 blocks, with a sync behind a block now and then. Its handle is 0.
fn write_growth(text: &mut String, noise: &mut Noise) -> Result<(), AllocError> {
    writeln!(text, "open /long")?;
    for index in 266..270u32 {
        write_piece(text, noise, 0, index, BLOCK_BYTES)?;
        if noise.below(4) == 0 {
            writeln!(text, "sync")?;
        }
    }
    Ok(())
}

/// Writes the next line. So many freezes stand before it.
fn write_line(
    text: &mut String,
    noise: &mut Noise,
    kind: &Kind,
    taken: &mut u32,
) -> Result<(), AllocError> {
    match noise.below(28) {
        0..=2 => write_named(text, noise, "create"),
        3 => write_named(text, noise, "mkdir"),
        4..=5 => write_named(text, noise, "open"),
        6..=8 => write_write(text, noise),
        9 => write_fill(text, noise),
        10 => write_truncate(text, noise),
        11 => write_close(text, noise),
        12..=13 => write_named(text, noise, "unlink"),
        14 => write_named(text, noise, "rmdir"),
        15..=16 => write_renamed(text, noise, "rename"),
        17 => write_renamed(text, noise, "link"),
        18 => write_snapshot(text, noise, taken),
        19..=20 => writeln!(text, "sync"),
        21..=23 if kind.is_long => write_of_long(text, noise),
        _ => write_flush(text, noise, kind),
    }
}

/// A random path.
fn path(noise: &mut Noise) -> &'static str {
    noise.one_of(PATHS, "/a")
}

/// A random handle.
fn handle(noise: &mut Noise) -> u32 {
    noise.below(5)
}

/// Writes a command on a path.
fn write_named(text: &mut String, noise: &mut Noise, command: &str) -> Result<(), AllocError> {
    let path = path(noise);
    writeln!(text, "{command} {path}")
}

/// Writes a command on two paths.
fn write_renamed(text: &mut String, noise: &mut Noise, command: &str) -> Result<(), AllocError> {
    let from = path(noise);
    let to = path(noise);
    writeln!(text, "{command} {from} {to}")
}

/// Writes a `write` of a byte, of some, or of a whole block.
fn write_write(text: &mut String, noise: &mut Noise) -> Result<(), AllocError> {
    let handle = handle(noise);
    let index = noise.below(4);
    let count = noise.one_of(&[1, 7, BLOCK_BYTES, BLOCK_BYTES], 1);
    write_piece(text, noise, handle, index, count)
}

/// Writes a `write` of so many bytes.
fn write_piece(
    text: &mut String,
    noise: &mut Noise,
    handle: u32,
    index: u32,
    count: usize,
) -> Result<(), AllocError> {
    let letter = noise.one_of(&['k', 'l', 'm', 'n', 'o', 'p', 'q', 'r', 's', 't'], 'k');
    write!(text, "write {handle} {index} ")?;
    for _byte in 0..count {
        text.push(letter)?;
    }
    writeln!(text, "")
}

/// Writes several whole blocks.
fn write_fill(text: &mut String, noise: &mut Noise) -> Result<(), AllocError> {
    let handle = handle(noise);
    let first = noise.below(3);
    for index in first..first.saturating_add(4) {
        write_piece(text, noise, handle, index, BLOCK_BYTES)?;
    }
    Ok(())
}

/// Writes a `truncate`.
fn write_truncate(text: &mut String, noise: &mut Noise) -> Result<(), AllocError> {
    let handle = handle(noise);
    let size = noise.one_of(&[0u32, 1, 1_000, 1_024, 1_500, 2_048], 0);
    writeln!(text, "truncate {handle} {size}")
}

/// Writes a `close`.
fn write_close(text: &mut String, noise: &mut Noise) -> Result<(), AllocError> {
    let handle = handle(noise);
    writeln!(text, "close {handle}")
}

/// Writes a snapshot's beginning, or the end of one of the last two.
fn write_snapshot(text: &mut String, noise: &mut Noise, taken: &mut u32) -> Result<(), AllocError> {
    if noise.below(2) == 0 {
        *taken = taken.saturating_add(1);
        return writeln!(text, "freeze");
    }
    let number = taken.saturating_sub(noise.below(2).saturating_add(1));
    writeln!(text, "release {number}")
}

/// Writes what is done with the long file, if its handle is open: a block is written, or it is cut.
fn write_of_long(text: &mut String, noise: &mut Noise) -> Result<(), AllocError> {
    let index = noise.below(8).saturating_add(265);
    if noise.below(3) > 0 {
        return write_piece(text, noise, 0, index, BLOCK_BYTES);
    }
    let blocks = noise.one_of(&[index, index, 268, 12, 0], 0);
    let size = blocks.saturating_mul(BLOCK_BYTES as u32);
    writeln!(text, "truncate 0 {size}")
}

/// Writes a `flush`: of the maps, of records, of the root, or of one of the next free blocks.
fn write_flush(text: &mut String, noise: &mut Noise, kind: &Kind) -> Result<(), AllocError> {
    let address = if noise.below(2) == 0 {
        noise.below(4).saturating_add(1)
    } else {
        kind.free.saturating_add(noise.below(16))
    };
    writeln!(text, "flush {address}")
}
