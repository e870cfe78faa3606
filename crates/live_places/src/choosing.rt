ghost use Rattle.std.specs.Prelude.{◌≡◌, ℕ, ◌+◌, ◌<◌, ◌≤◌, ◌⊎◌, IfErr, IfOk, IsFalse, IsTrue};
ghost use Rattle.frozen.specs.Kept.{frozen_view};
ghost use Rattle.layout.specs.declared.refusal.Refusal.TheVariants.{NoBlock, TooBig};
ghost use Rattle.live_paths.specs.Shown.{IsShownBy};
ghost use Rattle.machine.specs.Room.{is_full, unmarked_blocks};
ghost use Rattle.model.specs.Uses.{is_directory_at};
ghost use Rattle.model.specs.View.{View};
ghost use Rattle.live_places.specs.Chosen.{AreChosen, AreLeastFrom, IsPlace, blocks_needed};
ghost use Rattle.live_places.specs.Rooms.{IsRoomOf, blocks_for};
ghost use Rattle.live_places.specs.Taken.{free_below};

use crate::Tables;
use crate::rooms::{Room, room_in};
use crate::taking::{take, take_tables};
use layout::Refusal;
use metadata::Metadata;

/// Where a new entry of a directory goes.
#[derive(Clone, Copy, Debug, PartialEq, Eq)]
pub enum Place {
    /// Into an empty slot, in this block of the directory.
    Slot { slot: u32, block: u32 },
    /// Into a new block of the directory, whose pointer stands in the record or in a table, with the new tables that come
    /// with it.
    NewBlock { block: u32, tables: Tables },
}

/// What a command chose that enters a name into a directory.
#[derive(Clone, Copy, Debug, PartialEq, Eq)]
pub struct Places {
    /// The block for a new directory itself, where one was asked for.
    pub own: Option<u32>,
    /// Where the entry goes.
    pub place: Place,
}

/// Chooses where a new entry of a directory goes, and a block for a new directory itself where `own` asks for one.
/// `TooBig` where the directory has no empty slot and no position left; else `NoBlock` where fewer data blocks are
/// unmarked than that takes.
pub fn choose(metadata: &Metadata, directory: u32, own: bool) -> Result<Places, Refusal>
    requires { IsTrue (is_directory_at metadata.now.geometry (frozen_view metadata.now) directory) }
    ensures chosen { (view : View) → IsShownBy metadata.now view → IfOk result (λ places. IsFalse (is_full metadata.now.geometry view directory)
        × (blocks_needed metadata.now.geometry view directory own ≤ unmarked_blocks metadata.now.geometry view)
        × AreChosen metadata.now.geometry view directory own places) }
    ensures refused { (view : View) → IsShownBy metadata.now view → IfErr result (λ r. ((r ≡ TooBig) × IsTrue (is_full metadata.now.geometry view directory))
        ⊎ ((r ≡ NoBlock) × IsFalse (is_full metadata.now.geometry view directory)
        × (unmarked_blocks metadata.now.geometry view < blocks_needed metadata.now.geometry view directory own))) }
{
    let room = room_in(metadata.frozen(), directory)?;
    if !own {
        let place = place_in(metadata, room, 0)?;
        return Ok(Places { own: None, place });
    }
    let block = take(metadata, 0)?;
    let place = place_in(metadata, room, block + 1)?;
    Ok(Places {
        own: Some(block),
        place,
    })
}

/// Where an entry goes for which there is this room, with the least free blocks from an address on.
fn place_in(metadata: &Metadata, room: Room, from: u32) -> Result<Place, Refusal>
    requires { blocks_for room ≤ 3 }
    ensures placed { (d : ℕ) → IsRoomOf metadata.now.geometry (frozen_view metadata.now) d room
        → IfOk result (λ place. IsPlace metadata.now.geometry (frozen_view metadata.now) d place
        × AreLeastFrom metadata.now.geometry (frozen_view metadata.now) from place) }
    ensures enough { IfOk result (λ place. free_below metadata.now.geometry (frozen_view metadata.now) from + blocks_for room ≤ unmarked_blocks metadata.now.geometry (frozen_view metadata.now)) }
    ensures too_few { IfErr result (λ r. (r ≡ NoBlock)
        × (unmarked_blocks metadata.now.geometry (frozen_view metadata.now) < free_below metadata.now.geometry (frozen_view metadata.now) from + blocks_for room)) }
{
    match room {
        Room::Slot { slot, block } => Ok(Place::Slot { slot, block }),
        Room::NewBlock { tables } => {
            let block = take(metadata, from)?;
            let tables = take_tables(metadata, block + 1, tables)?;
            Ok(Place::NewBlock { block, tables })
        }
    }
}
