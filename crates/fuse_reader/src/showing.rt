//! What is shown of inodes.
ghost use Rattle.std.specs.Prelude.{◌≡◌, ◌<◌, length};
ghost use Rattle.frozen.specs.Kept.{frozen_view};
ghost use Rattle.fuse_reader.specs.Shown.{attributes_of, default_attributes, entry_of, kept_time, kind_at, own_attributes, room_of, shown_by, time_in, time_shown};
ghost use Rattle.fuse_nodes.specs.Table.{Table, id_of};

use crate::owner::Owner;
use attributes::kind_of;
use census::take_census;
use dirent::NAME_BYTES;
use frozen::Frozen;
use fuse_wire::{Attributes, Entry, NodeId, Statistics, Time};
use layout::BLOCK_BYTES;
use reading::record_of;

/// How long the kernel may keep what it was told: an hour.
pub(crate) const KEPT: Time = Time {
    seconds: 3600,
    nanoseconds: 0,
};

/// The mode of a directory that all may list.
const DIRECTORY_MODE: u16 = 0o40_755;

/// The mode of a file that all may read.
const FILE_MODE: u16 = 0o100_644;

/// The most nanoseconds that are shown above a second.
const MOST_NANOSECONDS: u32 = 999_999_999;

/// A time, as it is kept in a record.
pub fn time_in(time: Time) -> attributes::Time
    ensures { result ≡ time_in time }
{
    attributes::Time {
        seconds: time.seconds,
        nanoseconds: time.nanoseconds,
    }
}

/// A time that is kept in a record, as it is shown.
fn time_shown(time: attributes::Time) -> Time
    ensures { result ≡ time_shown time }
{
    Time {
        seconds: time.seconds,
        nanoseconds: time.nanoseconds.min(MOST_NANOSECONDS),
    }
}

/// What an inode has of which no attributes are kept: those of the image.
fn default_attributes(owner: Owner, is_directory: bool) -> attributes::Attributes
    ensures { result ≡ default_attributes owner is_directory }
{
    let changed = time_in(owner.changed);
    attributes::Attributes {
        mode: if is_directory {
            DIRECTORY_MODE
        } else {
            FILE_MODE
        },
        user: owner.user,
        group: owner.group,
        device: 0,
        generation: 0,
        accessed: changed,
        modified: changed,
        changed,
    }
}

/// The attributes that an inode has: what is kept of it, or those of the image.
pub fn own_attributes(frozen: &Frozen, owner: Owner, number: u32) -> attributes::Attributes
    ensures { result ≡ own_attributes frozen.now.geometry (frozen_view frozen.now) owner number }
{
    match attributes::Attributes::read(&record_of(frozen, number).attributes) {
        Some(own) => own,
        None => default_attributes(owner, frozen.is_directory_at(number)),
    }
}

/// What is shown of an inode that has these attributes.
pub fn shown_by(frozen: &Frozen, number: u32, own: attributes::Attributes) -> Attributes
    ensures { result ≡ shown_by frozen.now.geometry (frozen_view frozen.now) number own }
{
    let record = record_of(frozen, number);
    Attributes {
        inode: u64::from(number),
        size: u64::from(record.size),
        blocks: 2 * u64::from(record.blocks()),
        accessed: time_shown(own.accessed),
        modified: time_shown(own.modified),
        changed: time_shown(own.changed),
        mode: u32::from(own.shown_mode(frozen.is_directory_at(number))),
        links: u32::from(record.links),
        user: own.user,
        group: own.group,
        device: own.device,
        block_bytes: BLOCK_BYTES as u32,
    }
}

/// What is shown of an inode.
pub fn attributes_of(frozen: &Frozen, owner: Owner, number: u32) -> Attributes
    ensures { result ≡ attributes_of frozen.now.geometry (frozen_view frozen.now) owner number }
{
    shown_by(frozen, number, own_attributes(frozen, owner, number))
}

/// What an inode is, as a number: the upper four bits of 16 of the mode that is shown of it.
pub fn kind_at(frozen: &Frozen, number: u32) -> u16
    ensures { result ≡ kind_at frozen.now.geometry (frozen_view frozen.now) number }
{
    let mode = match attributes::Attributes::read(&record_of(frozen, number).attributes) {
        Some(own) => own.mode,
        None => 0,
    };
    kind_of(frozen.is_directory_at(number), mode)
}

/// What a name leads to that leads to an inode, which the kernel knows by this node.
pub(crate) fn entry_of(frozen: &Frozen, owner: Owner, node: NodeId, number: u32) -> Entry
    ensures { (t : Table) → node.0 ≡ id_of t number → result ≡ entry_of frozen.now.geometry (frozen_view frozen.now) owner t number }
{
    Entry {
        node,
        generation: 0,
        name_kept: KEPT,
        attributes_kept: KEPT,
        attributes: attributes_of(frozen, owner, number),
    }
}

/// How much room the volume has.
pub fn room_of(frozen: &Frozen) -> Statistics
    ensures { result ≡ room_of frozen.now.geometry (frozen_view frozen.now) }
{
    let census = take_census(frozen);
    Statistics {
        blocks: u64::from(census.blocks_used) + u64::from(census.blocks_free),
        free_blocks: u64::from(census.blocks_free),
        available_blocks: u64::from(census.blocks_free),
        inodes: u64::from(census.numbers_used) + u64::from(census.numbers_free),
        free_inodes: u64::from(census.numbers_free),
        block_bytes: BLOCK_BYTES as u32,
        name_bytes: NAME_BYTES as u32,
    }
}
