//! The image that a check is to see: that of users, without the open files that have no name any more, and without the
//! bits of the blocks that are held for snapshots. Such a file goes with its last handle, and such a block with the last
//! snapshot that keeps it, so that a check would find a leak where there is none.
//!
//! It is made from the metadata of the volume that is held in memory, and changes nothing. What it keeps it shares with the
//! volume, but for the blocks that differ.
#![tactic(auto)]

ghost use Rattle.std.specs.Prelude.{◌≡◌, IfOk};
ghost use Rattle.frozen.specs.Kept.{KeepsMetadata};
ghost use Rattle.live_states.specs.Planned.{IsOfVolumeWith};
ghost use Rattle.live_states.specs.Snapshots.{IsSettled};

mod held;
mod orphans;

use frozen::Frozen;
pub use held::unmark_held;
use live_holdings::Holdings;
use metadata::Metadata;
pub use orphans::without_orphans;
use std::alloc::{AllocError, Global};

/// The metadata of the image that a check is to see: of the image of users, each open inode without links is freed, with
/// its number and its blocks, and the blocks that are held are unmarked. The blocks of metadata that do not change are
/// shared.
pub fn settled(
    alloc: Global,
    metadata: &Metadata,
    holdings: &Holdings,
) -> Result<Frozen, AllocError>
    requires volume { IsOfVolumeWith metadata.now holdings.now }
    ensures settled { IfOk result (IsSettled metadata.now holdings.now) }
    ensures metadata { IfOk result KeepsMetadata }
    ensures geometry { IfOk result (λ snapshot. snapshot.geometry ≡ metadata.now.geometry) }
{
    let mut left = without_orphans(alloc, metadata, holdings)?;
    unmark_held(alloc, &mut left, holdings)?;
    Ok(left)
}
