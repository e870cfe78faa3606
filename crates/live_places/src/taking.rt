ghost use Rattle.std.specs.Prelude.{◌≡◌, ◌+◌, ◌<◌, ◌≤◌, IfErr, IfOk, length};
ghost use Rattle.frozen.specs.Kept.{frozen_view};
ghost use Rattle.layout.specs.declared.refusal.Refusal.TheVariants.{NoBlock};
ghost use Rattle.machine.specs.Room.{unmarked_blocks};
ghost use Rattle.live_places.specs.Chosen.{AreNextBlocks};
ghost use Rattle.live_places.specs.Taken.{IsTaken, free_below};

use crate::Tables;
use layout::Refusal;
use metadata::Metadata;

/// The least data block from an address on that may be given out; `NoBlock` where there is none.
pub fn take(metadata: &Metadata, from: u32) -> Result<u32, Refusal>
    ensures taken { IfOk result (IsTaken metadata.now.geometry (frozen_view metadata.now) from) }
    ensures none { IfErr result (λ r. (r ≡ NoBlock)
        × (unmarked_blocks metadata.now.geometry (frozen_view metadata.now) ≤ free_below metadata.now.geometry (frozen_view metadata.now) from)) }
{
    let blocks = metadata.frozen().geometry().blocks();
    match metadata.next_block(from) {
        Some(block) => {
            prove!(block < blocks);
            Ok(block)
        }
        None => Err(Refusal::NoBlock),
    }
}

/// So many new tables, each in the least data block that may be given out, from an address on and then behind the one
/// before; `NoBlock` where there are fewer.
pub fn take_tables(metadata: &Metadata, from: u32, count: u32) -> Result<Tables, Refusal>
    requires { count ≤ 2 }
    ensures count { IfOk result (λ tables. length tables ≡ count) }
    ensures taken { IfOk result (AreNextBlocks metadata.now.geometry (frozen_view metadata.now) from) }
    ensures enough { IfOk result (λ tables. free_below metadata.now.geometry (frozen_view metadata.now) from + count ≤ unmarked_blocks metadata.now.geometry (frozen_view metadata.now)) }
    ensures too_few { IfErr result (λ r. (r ≡ NoBlock)
        × (unmarked_blocks metadata.now.geometry (frozen_view metadata.now) < free_below metadata.now.geometry (frozen_view metadata.now) from + count)) }
{
    if count == 0 {
        return Ok(Tables::none());
    }
    let nearest = take(metadata, from)?;
    if count == 1 {
        return Ok(Tables::one(nearest));
    }
    let over = take(metadata, nearest + 1)?;
    Ok(Tables::two(nearest, over))
}
