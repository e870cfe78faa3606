ghost use Rattle.std.specs.Prelude.{◌≡◌, ◌⊎◌, ◌+◌, ◌<◌, ◌≤◌, [], ◌∷◌, true, None, List, ℕ, IfOk, IfSome};
ghost use Rattle.file_device.specs.Runs.{IsKept, blocks_of_run, with_block, writes_of_run};

use super::{Blocks, RUN_BLOCKS, Run, Span};
use crate::file::offset;
use layout::{BLOCK_BYTES, Block};
use std::alloc::{AllocError, Global};
use std::os::unix::fs::FileExt;

impl Run {
    /// No block, and behind it this address.
    pub fn before(alloc: Global, address: u32) -> Result<Run, AllocError>
        ensures { IfOk result (λ run. writes_of_run run ≡ []) }
    {
        Ok(Run {
            span: Span {
                first: address,
                count: 0,
            },
            blocks: Box::new(
                alloc,
                Blocks {
                    all: [[0; BLOCK_BYTES]; RUN_BLOCKS],
                },
            )?,
        })
    }

    /// Lets go of all blocks; behind them comes this address.
    pub fn clear(&mut self, address: u32)
        ensures none { writes_of_run self.new ≡ [] }
        ensures first { self.new.span.first ≡ address }
        ensures count { self.new.span.count ≡ 0 }
    {
        self.span = Span {
            first: address,
            count: 0,
        };
    }

    /// Whether this address comes right behind the last block.
    pub fn ends_before(&self, address: u32) -> bool
        ensures { result ≡ true → address ≡ self.now.span.first + self.now.span.count }
    {
        u64::from(self.span.first) + self.span.count as u64 == u64::from(address)
    }

    /// Whether a block of this address comes right behind the last one, and there is room for it.
    pub fn goes_on(&self, address: u32) -> bool
        ensures behind { result ≡ true → address ≡ self.now.span.first + self.now.span.count }
        ensures room { result ≡ true → self.now.span.count < 32 }
    {
        self.ends_before(address) && self.span.count < RUN_BLOCKS
    }

    /// The block of this address; `None` where none is kept for it.
    pub fn block(&self, address: u32) -> Option<&Block>
        ensures kept { IfSome result (λ block. IsKept self.now address block.now) }
        ensures none { result ≡ None → (block : List ℕ) → IsKept self.now address block → ⊥ }
    {
        if address < self.span.first {
            return None;
        }
        let at = (address - self.span.first) as usize;
        if at >= self.span.count {
            return None;
        }
        Some(&self.blocks.all[at])
    }

    /// Adds a block behind the last one.
    pub fn push(&mut self, block: &Block)
        requires room { self.old.span.count < 32 }
        requires within { self.old.span.first + self.old.span.count < 4294967296 }
        ensures { writes_of_run self.new ≡ with_block self.old block.now }
    {
        self.blocks.all[self.span.count] = *block;
        self.span = Span {
            first: self.span.first,
            count: self.span.count + 1,
        };
    }

    /// Keeps this block alone.
    pub fn start(&mut self, address: u32, block: &Block)
        ensures { writes_of_run self.new ≡ (address, block.now) ∷ [] }
    {
        self.clear(address);
        self.push(block);
    }

    /// Reads so many blocks of a file from this address on. None is kept where the file does not give them all.
    pub fn read<F: FileExt>(&mut self, file: &F, address: u32, count: usize)
        requires few { count ≤ 32 }
        requires within { address + count ≤ 4294967296 }
        ensures first { self.new.span.first ≡ address }
        ensures count { (self.new.span.count ≡ 0) ⊎ (self.new.span.count ≡ count) }
    {
        self.clear(address);
        if !fill(&mut self.blocks.all, file, address, count) {
            return;
        }
        self.span = Span {
            first: address,
            count,
        };
    }

    /// The address of the first block.
    pub fn first(&self) -> u32
        ensures { result ≡ self.now.span.first }
    {
        self.span.first
    }

    /// All blocks, the first first.
    pub fn blocks(&self) -> &[Block]
        ensures { result.now ≡ blocks_of_run self.now }
    {
        &self.blocks.all[..self.span.count]
    }
}

/// Reads so many blocks of a file from this address on. Tells whether the file gave them all.
fn fill<F: FileExt>(blocks: &mut [Block; RUN_BLOCKS], file: &F, address: u32, count: usize) -> bool
    requires few { count ≤ 32 }
{
    file.read_exact_at(blocks[..count].as_flattened_mut(), offset(address))
        .is_ok()
}
