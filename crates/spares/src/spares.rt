ghost use Rattle.std.specs.Prelude.{◌≡◌, IfOk};
ghost use Rattle.std.specs.Arc.{arc_value};
ghost use Rattle.model.specs.Image.{IsBlock};

use layout::Block;
use std::alloc::{AllocError, Global};
use std::sync::Arc;

/// How many blocks are kept at most, 4 MiB in all. What is written of a MiB of a file lets go of two to three times as many bytes at
/// once, since each of its blocks comes with a new table.
const MOST: usize = 4096;

/// Blocks in memory that nothing needs any more. What their bytes were is of no account.
#[derive(Drop)]
pub struct Spares {
    pub(crate) blocks: Vec<Arc<Block>>,
}

impl Spares {
    /// No blocks yet, and room for as many as are kept at most. Takes memory for their table.
    pub fn new(alloc: Global) -> Result<Spares, AllocError> {
        Ok(Spares {
            blocks: Vec::with_capacity(alloc, MOST)?,
        })
    }

    /// No blocks, and no room for any.
    pub fn none(alloc: Global) -> Spares {
        Spares {
            blocks: Vec::new(alloc),
        }
    }

    /// Takes over a block that its owner needs no more. It is let go of where another one owns it too, and where there is no
    /// room for it. Takes no memory.
    pub fn add(&mut self, block: Arc<Block>) {
        if self.blocks.len() < self.blocks.capacity() && Arc::strong_count(&block) == 1 {
            self.blocks.push_reserved(block);
        }
    }

    /// A block with these bytes that may be shared. It takes memory where no block is spare.
    pub fn share(&mut self, alloc: Global, bytes: &Block) -> Result<Arc<Block>, AllocError>
        ensures bytes { IfOk result (λ shared. arc_value shared ≡ bytes.now) }
        ensures whole { IfOk result (λ shared. IsBlock (arc_value shared)) }
    {
        // It has all of its bytes.
        bytes.iter();
        if let Some(mut spare) = self.blocks.pop() {
            if let Some(place) = Arc::get_mut(&mut spare) {
                *place = *bytes;
                return Ok(spare);
            }
        }
        Ok(Arc::new(alloc, *bytes)?)
    }
}
