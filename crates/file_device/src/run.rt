//! Blocks of a file of which a copy is kept in memory.
ghost use Rattle.std.specs.Prelude.{◌+◌, ◌≤◌};

mod earlier;
mod keeping;

pub use earlier::Earlier;
use layout::Block;

/// How many blocks a run has at most.
pub const RUN_BLOCKS: usize = 32;

/// Blocks that stand one after another in a file.
#[derive(Drop)]
pub struct Run {
    span: Span,
    /// The blocks, and behind them whatever was left there.
    blocks: Box<Blocks>,
}

/// The room for the blocks of a run.
#[derive(Drop)]
struct Blocks {
    all: [Block; RUN_BLOCKS],
}

/// Where a run stands.
#[derive(Drop)]
struct Span {
    /// The address of the first block.
    first: u32,
    /// How many blocks there are.
    count: usize,
    ghost few: { count ≤ 32 },
    ghost within: { first + count ≤ 4294967296 },
}
