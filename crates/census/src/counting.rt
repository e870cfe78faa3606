ghost use Rattle.std.specs.Prelude.{◌≡◌, ◌<◌, ◌&&◌, not};
ghost use Rattle.census.specs.Census.{bound_of, count_of, counts};
ghost use Rattle.frozen.specs.Kept.{frozen_view};
ghost use Rattle.model.specs.Layout.{inode_count, is_data_address, is_number};

use cgmaps::{Map, bit_of};
use frozen::Frozen;
use layout::ROOT;

/// What is counted.
#[derive(Clone, Copy, Debug, PartialEq, Eq)]
pub enum Counted {
    /// Inode numbers, from the root's on, that are marked.
    UsedNumbers,
    /// Inode numbers that may be given out.
    FreeNumbers,
    /// Data blocks that are marked.
    UsedBlocks,
    /// Data blocks that may be given out.
    FreeBlocks,
    /// Sound records of files.
    Files,
    /// Sound records of directories.
    Directories,
}

/// How many there are of what is counted.
pub(crate) fn count(frozen: &Frozen, what: Counted) -> u32
    ensures { result ≡ count_of frozen.now.geometry (frozen_view frozen.now) what }
{
    let mut count = 0;
    for place in 0..bound(frozen, what) {
        if is_counted(frozen, what, place) {
            count += 1;
        }
    }
    count
}

/// How many inode numbers there are, or addresses, where blocks are counted.
fn bound(frozen: &Frozen, what: Counted) -> u32
    ensures bound { result ≡ bound_of frozen.now.geometry what }
{
    match what {
        Counted::UsedBlocks | Counted::FreeBlocks => frozen.geometry().blocks(),
        Counted::UsedNumbers | Counted::FreeNumbers | Counted::Files | Counted::Directories => {
            frozen.geometry().inodes()
        }
    }
}

/// Whether the inode of this number, or the block of this address, is one of those that are counted.
fn is_counted(frozen: &Frozen, what: Counted, place: u32) -> bool
    requires { place < bound_of frozen.now.geometry what }
    ensures { result ≡ counts frozen.now.geometry (frozen_view frozen.now) what place }
{
    match what {
        Counted::UsedNumbers => is_used_number(frozen, place),
        Counted::FreeNumbers => is_free_number(frozen, place),
        Counted::UsedBlocks => is_used_block(frozen, place),
        Counted::FreeBlocks => is_free_block(frozen, place),
        Counted::Files => frozen.is_sound_at(place) && !frozen.is_directory_at(place),
        Counted::Directories => frozen.is_directory_at(place),
    }
}

/// Whether a number is marked.
fn is_used_number(frozen: &Frozen, number: u32) -> bool
    requires { number < inode_count frozen.now.geometry }
    ensures { result ≡ (is_number frozen.now.geometry number && (frozen_view frozen.now).number_marked number) }
{
    let geometry = frozen.geometry();
    let maps = frozen.maps_of(geometry.group_of(number));
    ROOT <= number && bit_of(maps, Map::Inodes, number % geometry.inodes_a_group())
}

/// Whether a number may be given out.
fn is_free_number(frozen: &Frozen, number: u32) -> bool
    requires { number < inode_count frozen.now.geometry }
    ensures { result ≡ (is_number frozen.now.geometry number && not ((frozen_view frozen.now).number_marked number)) }
{
    let geometry = frozen.geometry();
    let maps = frozen.maps_of(geometry.group_of(number));
    ROOT <= number && !bit_of(maps, Map::Inodes, number % geometry.inodes_a_group())
}

/// Whether this is the address of a data block that is marked.
fn is_used_block(frozen: &Frozen, address: u32) -> bool
    ensures { result ≡ (is_data_address frozen.now.geometry address && (frozen_view frozen.now).block_marked address) }
{
    match frozen.geometry().place_of(address) {
        Some(place) => bit_of(frozen.maps_of(place.group), Map::Blocks, place.bit),
        None => false,
    }
}

/// Whether this is the address of a data block that may be given out.
pub(crate) fn is_free_block(frozen: &Frozen, address: u32) -> bool
    ensures { result ≡ (is_data_address frozen.now.geometry address && not ((frozen_view frozen.now).block_marked address)) }
{
    match frozen.geometry().place_of(address) {
        Some(place) => !bit_of(frozen.maps_of(place.group), Map::Blocks, place.bit),
        None => false,
    }
}
