//! What users do with long files of their own in version 2 of the layout.
use device::MemDevice;
use layout::{BLOCK_BYTES, DOUBLE, Refusal};
use std::alloc::{AllocError, Global};
use std::thread::Threads;
use test_noise::Noise;
use test_trials::{Trial, beginning_of};

/// How many blocks each of these files has at first, and has again after the deepest cut.
pub const BLOCKS: u32 = 266;

/// A volume on which each of four users has a file of its own of 266 blocks: its blocks run out as the files grow.
const LONG_FILES: Trial = Trial {
    name: "long files",
    versions: &[DOUBLE],
    numbers: [3, 400, 24],
    puts: &[],
    before: &[
        "create /own1",
        "open /own1",
        "fill 0 0 266",
        "create /own2",
        "open /own2",
        "fill 1 0 266",
        "create /own3",
        "open /own3",
        "fill 2 0 266",
        "create /own4",
        "open /own4",
        "fill 3 0 266",
    ],
    lines: &[],
};

/// The image of this volume.
pub fn image_of_long_files(
    rt: &(impl Threads + Sync),
    alloc: Global,
) -> Result<MemDevice, Refusal> {
    beginning_of(rt, alloc, &LONG_FILES, DOUBLE)
}

/// Writes what a user does with its own file of so many blocks, mostly: it grows by a block, a block from 266 on is written again,
/// or it is cut.
pub fn write_long(
    text: &mut String,
    noise: &mut Noise,
    user: u32,
    blocks: &mut u32,
) -> Result<(), AllocError> {
    match noise.below(4) {
        0 => Ok(()),
        1 => write_cut(text, noise, user, blocks),
        _ => write_block(text, noise, user, blocks),
    }
}

/// Writes a cut to 266 blocks and up to three more.
fn write_cut(
    text: &mut String,
    noise: &mut Noise,
    user: u32,
    blocks: &mut u32,
) -> Result<(), AllocError> {
    let left = BLOCKS.saturating_add(noise.below(4)).min(*blocks);
    *blocks = left;
    let size = left.saturating_mul(BLOCK_BYTES as u32);
    writeln!(text, "{user} truncate 0 {size}")
}

/// Writes a write of a whole block from 266 on, which may be the one behind the last, and a read of the same block.
fn write_block(
    text: &mut String,
    noise: &mut Noise,
    user: u32,
    blocks: &mut u32,
) -> Result<(), AllocError> {
    let behind = blocks.saturating_sub(BLOCKS).saturating_add(1);
    let index = BLOCKS.saturating_add(noise.below(behind));
    *blocks = index.saturating_add(1).max(*blocks);
    let letter = noise.one_of(&['a', 'b', 'c', 'd', 'e', 'f'], 'a');
    write!(text, "{user} write 0 {index} ")?;
    for _byte in 0..BLOCK_BYTES {
        text.push(letter)?;
    }
    writeln!(text, "")?;
    writeln!(text, "{user} read 0 {index}")
}
