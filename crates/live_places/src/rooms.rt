ghost use Rattle.std.specs.Prelude.{◌≡◌, ◌<◌, ◌≤◌, IfErr, IfOk, IsTrue, length};
ghost use Rattle.frozen.specs.Kept.{frozen_view};
ghost use Rattle.layout.specs.declared.refusal.Refusal.TheVariants.{TooBig};
ghost use Rattle.machine.specs.Room.{is_full};
ghost use Rattle.model.specs.Shape.{most_blocks, new_tables};
ghost use Rattle.model.specs.Uses.{is_directory_at};
ghost use Rattle.live_places.specs.Rooms.{IsRoomOf};

use dirent::SLOTS;
use frozen::Frozen;
use layout::{Geometry, Refusal};
use live_paths::empty_slot;

/// Where a directory has room for one more entry.
#[derive(Clone, Copy)]
pub(crate) enum Room {
    /// In this slot, in this block of the directory.
    Slot { slot: u32, block: u32 },
    /// In a new block, with which so many new tables come.
    NewBlock { tables: u32 },
}

/// Where a directory has room for one more entry; `TooBig` where it has none.
pub(crate) fn room_in(frozen: &Frozen, directory: u32) -> Result<Room, Refusal>
    requires { IsTrue (is_directory_at frozen.now.geometry (frozen_view frozen.now) directory) }
    ensures room { IfOk result (IsRoomOf frozen.now.geometry (frozen_view frozen.now) directory) }
    ensures full { IfErr result (λ r. (r ≡ TooBig) × IsTrue (is_full frozen.now.geometry (frozen_view frozen.now) directory)) }
{
    if let Some(slot) = empty_slot(frozen, directory) {
        return match frozen.claim_at(directory, slot / SLOTS as u32) {
            Some(block) => Ok(Room::Slot { slot, block }),
            None => unreachable!(),
        };
    }
    let geometry = frozen.geometry();
    let blocks = frozen.blocks(directory);
    if blocks >= geometry.most_blocks() {
        return Err(Refusal::TooBig);
    }
    let tables = new_tables(&geometry, blocks);
    Ok(Room::NewBlock { tables })
}

/// How many new tables come with the block of a file that has so many before it.
pub fn new_tables(geometry: &Geometry, before: u32) -> u32
    requires { before < most_blocks geometry.now }
    ensures count { result ≡ length (new_tables geometry.now before) }
    ensures few { result ≤ 2 }
{
    geometry.tables_end(before + 1) - geometry.tables_end(before)
}
