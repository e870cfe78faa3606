//! Blocks that were read ahead, put in their places.
ghost use Rattle.std.specs.Prelude.{ℕ, All, List};
ghost use Rattle.frozen.specs.Kept.{KeepsFrame};
ghost use Rattle.frozen.specs.Loading.{AreBlocksOf};
ghost use Rattle.frozen.specs.Shared.{shared_blocks};
ghost use Rattle.loaders.specs.Readers.{IsOfData, IsPlacedOf};

use frozen::Placed;
use layout::{Block, Geometry};
use std::sync::Arc;

/// Puts the blocks that each worker read ahead in their places.
pub(crate) fn place_all(
    geometry: &Geometry,
    ahead: Vec<Vec<Placed>>,
    blocks: &mut Vec<Option<Arc<Block>>>,
)
    requires frame { KeepsFrame (record { geometry = geometry.now; blocks = shared_blocks blocks.old.items }) }
    requires of_data { All (λ one. All (IsOfData geometry.now) one.items) ahead.items }

    ensures frame { KeepsFrame (record { geometry = geometry.now; blocks = shared_blocks blocks.new.items }) }
    ensures blocks { (image : List (List ℕ)) → All (λ one. All (IsPlacedOf image) one.items) ahead.items
        → AreBlocksOf (shared_blocks blocks.old.items) image → AreBlocksOf (shared_blocks blocks.new.items) image }
{
    for one in ahead {
        place(geometry, one, blocks);
    }
}

/// Puts blocks in their places; of several of one address the last stays.
fn place(geometry: &Geometry, ahead: Vec<Placed>, blocks: &mut Vec<Option<Arc<Block>>>)
    requires frame { KeepsFrame (record { geometry = geometry.now; blocks = shared_blocks blocks.old.items }) }
    requires of_data { All (IsOfData geometry.now) ahead.items }

    ensures frame { KeepsFrame (record { geometry = geometry.now; blocks = shared_blocks blocks.new.items }) }
    ensures blocks { (image : List (List ℕ)) → All (IsPlacedOf image) ahead.items
        → AreBlocksOf (shared_blocks blocks.old.items) image → AreBlocksOf (shared_blocks blocks.new.items) image }
{
    for placed in ahead {
        blocks[placed.address as usize] = Some(placed.block);
    }
}
