//! Listings of directories.
ghost use Rattle.std.specs.Prelude.{◌≡◌, ◌+◌, ◌*◌, ◌≤◌, ◌<◌, ◌/◌, ◌^◌, IfOk, OnOk, false, length, not};
ghost use Rattle.std.specs.Option.{option_copied, option_map_or};
ghost use Rattle.frozen.specs.Kept.{frozen_view};
ghost use Rattle.dirent.specs.Seen.{seen};
ghost use Rattle.model.specs.Slots.{Absent, slot};
ghost use Rattle.fuse_reader.specs.Listings.{add_bytes, add_slot, kind_numbered, kind_of, listed_name, listing_from, so_far};

use crate::showing::kind_at;
use dirent::{SLOTS, Slot, slot_in};
use frozen::Frozen;
use fuse_wire::{DirectoryEntry, Kind, push_entry};
use reading::record_of;
use std::alloc::{AllocError, Global};

/// The names in a directory from this slot on, the dots among them, as many as have room in so many bytes.
pub fn listing_from(
    alloc: Global,
    frozen: &Frozen,
    directory: u32,
    from: u64,
    room: u32,
) -> Result<Vec<u8>, AllocError>
    ensures listed { IfOk result (λ listing. listing.items ≡ listing_from frozen.now.geometry (frozen_view frozen.now) directory from room) }
    ensures few { IfOk result (λ listing. length listing.items ≤ room) }
{
    let mut listing = Vec::new(alloc);
    let end = SLOTS as u32 * record_of(frozen, directory).blocks();
    if from >= u64::from(end) {
        return Ok(listing);
    }
    for place in from as u32..end {
        if !push_slot(&mut listing, frozen, directory, place, room)? {
            return Ok(listing);
        }
    }
    Ok(listing)
}

/// Adds the name in a slot, if one stands there, and tells whether there was room for it.
fn push_slot(
    listing: &mut Vec<u8>,
    frozen: &Frozen,
    directory: u32,
    place: u32,
    room: u32,
) -> Result<bool, AllocError>
    requires { length listing.old.items ≤ room }
    ensures added { IfOk result (λ goes_on. so_far listing.new.items (not goes_on)
        ≡ add_slot frozen.now.geometry (frozen_view frozen.now) room place (slot frozen.now.geometry (frozen_view frozen.now) directory place)
        (so_far listing.old.items false)) }
    ensures few { OnOk result (length listing.new.items ≤ room) }
{
    let Some(block) = frozen.directory_block(directory, place / SLOTS as u32) else {
        return Ok(true);
    };
    match slot_in(block, place, frozen.geometry().inodes()) {
        Slot::Good { number, name } => push_name(listing, frozen, place, number, name, room),
        Slot::Empty | Slot::Bad => Ok(true),
    }
}

/// Adds a name that stands in a slot for an inode, and tells whether there was room for it.
#[tactic(auto, unfolding(fuse_wire::specs::Replies::listed_head))]
fn push_name(
    listing: &mut Vec<u8>,
    frozen: &Frozen,
    place: u32,
    number: u32,
    name: &[u8],
    room: u32,
) -> Result<bool, AllocError>
    requires room { length listing.old.items ≤ room }
    requires name { length name.now ≤ 56 }
    ensures added { IfOk result (λ goes_on. so_far listing.new.items (not goes_on)
        ≡ add_bytes room (listed_name frozen.now.geometry (frozen_view frozen.now) place number name.now) (so_far listing.old.items false)) }
    ensures few { OnOk result (length listing.new.items ≤ room) }
{
    let entry = entry_in(frozen, place, number, name);
    let fits = push_entry(listing, room as usize, &entry)?;
    Ok(fits)
}

/// The entry of a name that stands in a slot for an inode. The listing goes on from the next slot.
pub fn entry_in<'a>(frozen: &Frozen, place: u32, number: u32, name: &'a [u8]) -> DirectoryEntry<'a>
    ensures { result ≡ record { inode = number; next = place + 1; kind = kind_of frozen.now.geometry (frozen_view frozen.now) number; name = name.entry } }
{
    DirectoryEntry {
        inode: u64::from(number),
        next: u64::from(place) + 1,
        kind: kind_of(frozen, number),
        name,
    }
}

/// What an inode is in a listing.
fn kind_of(frozen: &Frozen, number: u32) -> Kind
    ensures { result ≡ kind_of frozen.now.geometry (frozen_view frozen.now) number }
{
    kind_numbered(kind_at(frozen, number))
}

/// The kind of this number, which is what the upper four bits of 16 of a mode say.
fn kind_numbered(number: u16) -> Kind
    ensures { result ≡ kind_numbered number }
{
    match number {
        1 => Kind::Fifo,
        2 => Kind::CharacterDevice,
        4 => Kind::Directory,
        6 => Kind::BlockDevice,
        10 => Kind::SymbolicLink,
        12 => Kind::Socket,
        _ => Kind::File,
    }
}
