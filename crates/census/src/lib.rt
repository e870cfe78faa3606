//! What an image holds, in numbers: how many inode numbers and data blocks are marked and may be given out, how many
//! files and directories there are, and how long the longest run of free blocks is. All is told by an image's metadata, so it is told
//! of a soft or a damaged image too, and nothing is written.
#![tactic(auto)]

mod counting;
mod runs;

ghost use Rattle.census.specs.Census.{IsCensus};
ghost use Rattle.frozen.specs.Kept.{frozen_view};

pub use counting::Counted;
use counting::count;
use frozen::Frozen;
use layout::{BLOCK_BYTES, Geometry};
use runs::longest_run;
use std::alloc::AllocError;

/// What an image holds, in numbers.
#[derive(Clone, Copy, Debug, PartialEq, Eq)]
pub struct Census {
    pub geometry: Geometry,
    /// Inode numbers from the root's on that are marked.
    pub numbers_used: u32,
    /// Those that are not, and may be given out.
    pub numbers_free: u32,
    /// Data blocks that are marked.
    pub blocks_used: u32,
    /// Those that are not, and may be given out.
    pub blocks_free: u32,
    /// Records of files, also of those that no name leads to.
    pub files: u32,
    /// Records of directories, also of those that no name leads to.
    pub directories: u32,
    /// The most free data blocks that stand one behind the other.
    pub longest_free_run: u32,
}

/// The numbers of a frozen image.
pub fn take_census(frozen: &Frozen) -> Census
    ensures { IsCensus frozen.now.geometry (frozen_view frozen.now) result }
{
    Census {
        geometry: frozen.geometry(),
        numbers_used: count(frozen, Counted::UsedNumbers),
        numbers_free: count(frozen, Counted::FreeNumbers),
        blocks_used: count(frozen, Counted::UsedBlocks),
        blocks_free: count(frozen, Counted::FreeBlocks),
        files: count(frozen, Counted::Files),
        directories: count(frozen, Counted::Directories),
        longest_free_run: longest_run(frozen),
    }
}

impl Census {
    /// Writes a line for each number behind a text, its name, a blank and the number: first the version of the layout.
    pub fn write(&self, text: &mut String) -> Result<(), AllocError> {
        let Census {
            geometry,
            numbers_used,
            numbers_free,
            blocks_used,
            blocks_free,
            files,
            directories,
            longest_free_run,
        } = *self;
        let lines = [
            ("format", geometry.version()),
            ("groups", geometry.groups()),
            ("blocks-a-group", geometry.blocks_a_group()),
            ("inodes-a-group", geometry.inodes_a_group()),
            ("blocks", geometry.blocks()),
            ("block-bytes", BLOCK_BYTES as u32),
            ("numbers-used", numbers_used),
            ("numbers-free", numbers_free),
            ("data-blocks-used", blocks_used),
            ("data-blocks-free", blocks_free),
            ("files", files),
            ("directories", directories),
            ("longest-free-run", longest_free_run),
        ];
        for (name, number) in lines {
            writeln!(text, "{name} {number}")?;
        }
        Ok(())
    }
}
