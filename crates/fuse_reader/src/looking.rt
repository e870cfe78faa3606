//! Requests on a node. The inode that the kernel means is known; if it was told of no such node, the request is refused.
ghost use Rattle.std.specs.Prelude.{◌≡◌, ◌⊎◌, ◌≤◌, ◌+◌, ◌-◌, ◌/◌, ◌<◌, ◌^◌, IfOk, OnErr, OnOk, Some, length, min};
ghost use Rattle.device.specs.Reading.{ReadsOnly};
ghost use Rattle.device.specs.Writes.{HasFailed};
ghost use Rattle.frozen.specs.Kept.{IsKeptOf, frozen_view};
ghost use Rattle.machine.specs.Paths.{lookup};
ghost use Rattle.model.specs.Image.{image_view};
ghost use Rattle.model.specs.Layout.{block_count, inode_count};
ghost use Rattle.model.specs.Uses.{blocks_of};
ghost use Rattle.fuse_nodes.specs.Runs.{after_all};
ghost use Rattle.fuse_reader.specs.Said.{Says, spelled};
ghost use Rattle.fuse_reader.specs.Turns.{attributes_said, directory_opened, entry_said, listed_said, looked_up, on_inode, opened_said, piece_said, read_said, sized, target_said, told_of, told_under};

use crate::listing::listing_from;
use crate::owner::Owner;
use crate::piece::{blocks_from, cut};
use crate::saying::{refuse, tell, tell_bytes};
use crate::showing::{KEPT, attributes_of, entry_of, kind_at};
use device::Device;
use dirent::NAME_BYTES;
use frozen::Frozen;
use fuse_nodes::Nodes;
use fuse_wire::{Body, Errno, Handle, Opened, Unique, flags};
use inode::blocks_of_size;
use layout::{BLOCK_BYTES, ROOT, Refusal};
use live_paths::find;
use reading::record_of;
use std::alloc::{AllocError, Global};

/// The most bytes that a request may ask for: 256 pages of 4 KiB.
const MOST_BYTES: u32 = 1 << 20;

/// The handle of all that is open: the node tells enough.
const HANDLE: Handle = Handle(0);

/// The number of what a symbolic link is.
pub const SYMBOLIC_LINK: u16 = 10;

/// The most bytes of the target of one that Linux takes.
pub const TARGET_BYTES: u32 = 4095;

/// The bits of an open that tell whether the file is to be written.
const ACCESS: u32 = 3;

/// Tells the attributes of an inode.
#[tactic(auto, unfolding(fuse_wire::specs::Replies::attributes_bytes, fuse_wire::specs::Replies::told_bytes))]
pub(crate) fn tell_attributes(
    reply: &mut Vec<u8>,
    unique: Unique,
    frozen: &Frozen,
    owner: Owner,
    number: Option<u32>,
) -> Result<(), AllocError>
    ensures { OnOk result (reply.new.items
        ≡ spelled unique (on_inode (attributes_said frozen.now.geometry (frozen_view frozen.now) owner) number)) }
{
    let Some(number) = number else {
        return refuse(reply, unique, Errno::Stale);
    };
    let attributes = attributes_of(frozen, owner, number);
    tell(
        reply,
        unique,
        Body::Attributes {
            kept: KEPT,
            attributes,
        },
    )
}

/// Opens a file to be read.
#[tactic(auto, unfolding(fuse_wire::specs::Replies::opened_bytes))]
pub(crate) fn open(
    reply: &mut Vec<u8>,
    unique: Unique,
    frozen: &Frozen,
    number: Option<u32>,
    asked: u32,
) -> Result<(), AllocError>
    ensures { OnOk result (reply.new.items ≡ spelled unique (on_inode (opened_said frozen.now.geometry (frozen_view frozen.now) asked) number)) }
{
    let Some(number) = number else {
        return refuse(reply, unique, Errno::Stale);
    };
    if frozen.is_directory_at(number) {
        return refuse(reply, unique, Errno::IsDirectory);
    }
    if asked & ACCESS != 0 {
        return refuse(reply, unique, Errno::ReadOnly);
    }
    let opened = Opened {
        handle: HANDLE,
        flags: flags::KEEP_CACHE,
    };
    tell(reply, unique, Body::Opened(opened))
}

/// Opens a directory to be listed.
#[tactic(auto, unfolding(fuse_wire::specs::Replies::opened_bytes))]
pub(crate) fn open_directory(
    reply: &mut Vec<u8>,
    unique: Unique,
    frozen: &Frozen,
    number: Option<u32>,
) -> Result<(), AllocError>
    ensures { OnOk result (reply.new.items ≡ spelled unique (on_inode (directory_opened frozen.now.geometry (frozen_view frozen.now)) number)) }
{
    let Some(number) = number else {
        return refuse(reply, unique, Errno::Stale);
    };
    if !frozen.is_directory_at(number) {
        return refuse(reply, unique, Errno::NotDirectory);
    }
    let opened = Opened {
        handle: HANDLE,
        flags: flags::KEEP_CACHE | flags::CACHE_DIR,
    };
    tell(reply, unique, Body::Opened(opened))
}

/// Lists a directory from this slot on.
pub(crate) fn list(
    alloc: Global,
    reply: &mut Vec<u8>,
    unique: Unique,
    frozen: &Frozen,
    directory: Option<u32>,
    from: u64,
    size: u32,
) -> Result<(), AllocError>
    ensures { OnOk result (reply.new.items
        ≡ spelled unique (on_inode (λ d. sized size (listed_said frozen.now.geometry (frozen_view frozen.now) from size d)) directory)) }
{
    let Some(directory) = directory else {
        return refuse(reply, unique, Errno::Stale);
    };
    if size > MOST_BYTES {
        return refuse(reply, unique, Errno::Invalid);
    }
    if !frozen.is_directory_at(directory) {
        return refuse(reply, unique, Errno::NotDirectory);
    }
    let listing = listing_from(alloc, frozen, directory, from, size)?;
    tell_bytes(reply, unique, &listing)
}

/// Tells what a name in a directory leads to. After an error the kernel may count as told.
pub(crate) fn look_up(
    reply: &mut Vec<u8>,
    unique: Unique,
    frozen: &Frozen,
    owner: Owner,
    nodes: &mut Nodes,
    directory: Option<u32>,
    name: &[u8],
) -> Result<(), AllocError>
    requires { length nodes.old ≡ inode_count frozen.now.geometry }
    ensures told { OnOk result (reply.new.items
        ≡ spelled unique (on_inode (looked_up frozen.now.geometry (frozen_view frozen.now) owner nodes.old name.now) directory)) }
    ensures known { OnOk result (nodes.new ≡ after_all (told_of frozen.now.geometry (frozen_view frozen.now) name.now directory) nodes.old) }
    ensures refused { OnErr result ((nodes.new ≡ nodes.old)
        ⊎ (nodes.new ≡ after_all (told_of frozen.now.geometry (frozen_view frozen.now) name.now directory) nodes.old)) }
    ensures length { length nodes.new ≡ length nodes.old }
{
    let Some(directory) = directory else {
        return refuse(reply, unique, Errno::Stale);
    };
    if !frozen.is_directory_at(directory) {
        return refuse(reply, unique, Errno::NotDirectory);
    }
    if name.len() > NAME_BYTES {
        return refuse(reply, unique, Errno::NameTooLong);
    }
    match number_of(frozen, directory, name) {
        Some(number) => tell_found(reply, unique, frozen, owner, nodes, directory, name, number),
        None => tell(reply, unique, Body::Absent { kept: KEPT }),
    }
}

/// The number that a name in a directory stands for.
pub fn number_of(frozen: &Frozen, directory: u32, name: &[u8]) -> Option<u32>
    ensures { result ≡ lookup frozen.now.geometry (frozen_view frozen.now) directory name.now }
{
    match find(frozen, directory, name) {
        Some(entry) => Some(entry.number),
        None => None,
    }
}

/// Tells that a name in a directory leads to an inode.
fn tell_found(
    reply: &mut Vec<u8>,
    unique: Unique,
    frozen: &Frozen,
    owner: Owner,
    nodes: &mut Nodes,
    directory: u32,
    name: &[u8],
    number: u32,
) -> Result<(), AllocError>
    requires { length nodes.old ≡ inode_count frozen.now.geometry }
    ensures told { OnOk result (reply.new.items
        ≡ spelled unique (entry_said frozen.now.geometry (frozen_view frozen.now) owner nodes.old (Some number))) }
    ensures known { OnOk result (nodes.new ≡ after_all (told_under frozen.now.geometry directory name.now (Some number)) nodes.old) }
    ensures refused { OnErr result ((nodes.new ≡ nodes.old)
        ⊎ (nodes.new ≡ after_all (told_under frozen.now.geometry directory name.now (Some number)) nodes.old)) }
    ensures length { length nodes.new ≡ length nodes.old }
{
    if number <= ROOT || number >= frozen.geometry().inodes() {
        return refuse(reply, unique, Errno::Device);
    }
    // No number of an inode is given anew, so no number of a node is used up: there was no memory.
    let Ok(node) = nodes.tell(number, directory, name) else {
        return Err(AllocError);
    };
    let entry = entry_of(frozen, owner, node, number);
    tell(reply, unique, Body::Entry(entry))
}

/// Tells a piece of a file: so many bytes from an offset on, as many as it has there.
pub(crate) fn read<D: Device>(
    alloc: Global,
    reply: &mut Vec<u8>,
    unique: Unique,
    frozen: &Frozen,
    device: &mut D,
    number: Option<u32>,
    offset: u64,
    size: u32,
) -> Result<(), AllocError>
    requires { length (D.image device.old) ≡ block_count frozen.now.geometry }
    ensures told { OnOk result (D.honest device.new → IsKeptOf frozen.now (D.image device.old)
        → Says unique (on_inode (λ i. sized size (read_said frozen.now.geometry (image_view frozen.now.geometry (D.image device.old)) offset size i)) number)
        (HasFailed (D.failures device.old) (D.failures device.new)) reply.new.items) }
    ensures failures { (D.failures device.new ≡ D.failures device.old) ⊎ HasFailed (D.failures device.old) (D.failures device.new) }
    ensures reads { ReadsOnly D.honest D.image D.held device.old device.new }
{
    let Some(number) = number else {
        return refuse(reply, unique, Errno::Stale);
    };
    if size > MOST_BYTES {
        return refuse(reply, unique, Errno::Invalid);
    }
    if frozen.is_directory_at(number) {
        return refuse(reply, unique, Errno::IsDirectory);
    }
    let end = end_of(u64::from(record_of(frozen, number).size), offset, size);
    if offset >= end {
        return tell_bytes(reply, unique, &[]);
    }
    tell_piece(alloc, reply, unique, frozen, device, number, offset, end)
}

/// Tells the target of a symbolic link.
pub(crate) fn read_link<D: Device>(
    alloc: Global,
    reply: &mut Vec<u8>,
    unique: Unique,
    frozen: &Frozen,
    device: &mut D,
    number: Option<u32>,
) -> Result<(), AllocError>
    requires { length (D.image device.old) ≡ block_count frozen.now.geometry }
    ensures told { OnOk result (D.honest device.new → IsKeptOf frozen.now (D.image device.old)
        → Says unique (on_inode (target_said frozen.now.geometry (image_view frozen.now.geometry (D.image device.old))) number)
        (HasFailed (D.failures device.old) (D.failures device.new)) reply.new.items) }
    ensures failures { (D.failures device.new ≡ D.failures device.old) ⊎ HasFailed (D.failures device.old) (D.failures device.new) }
    ensures reads { ReadsOnly D.honest D.image D.held device.old device.new }
{
    let Some(link) = number else {
        return refuse(reply, unique, Errno::Stale);
    };
    let kind = kind_at(frozen, link);
    if kind != SYMBOLIC_LINK {
        return refuse(reply, unique, Errno::Invalid);
    }
    read(
        alloc,
        reply,
        unique,
        frozen,
        device,
        number,
        0,
        TARGET_BYTES,
    )
}

/// Tells the bytes of a file from an offset to an end, which lies behind it.
fn tell_piece<D: Device>(
    alloc: Global,
    reply: &mut Vec<u8>,
    unique: Unique,
    frozen: &Frozen,
    device: &mut D,
    number: u32,
    offset: u64,
    end: u64,
) -> Result<(), AllocError>
    requires device { length (D.image device.old) ≡ block_count frozen.now.geometry }
    requires before { offset < end }
    requires few { end < 2 ^ 32 }
    requires small { end - offset ≤ 2 ^ 20 }
    ensures told { OnOk result (D.honest device.new → IsKeptOf frozen.now (D.image device.old)
        → Says unique (piece_said frozen.now.geometry (image_view frozen.now.geometry (D.image device.old)) offset (end - offset)
        (blocks_of end - offset / 1024) number)
        (HasFailed (D.failures device.old) (D.failures device.new)) reply.new.items) }
    ensures failures { (D.failures device.new ≡ D.failures device.old) ⊎ HasFailed (D.failures device.old) (D.failures device.new) }
    ensures reads { ReadsOnly D.honest D.image D.held device.old device.new }
{
    let first = (offset / BLOCK_BYTES as u64) as u32;
    let count = blocks_of_size(end as u32) - first;
    match blocks_from(alloc, frozen, device, number, first, count) {
        Ok(bytes) => {
            let before = offset as usize % BLOCK_BYTES;
            tell_bytes(reply, unique, cut(&bytes, before, (end - offset) as usize))
        }
        Err(Refusal::Device) => refuse(reply, unique, Errno::Device),
        // A block is not there.
        Err(Refusal::Damaged) => refuse(reply, unique, Errno::Device),
        Err(_) => Err(AllocError),
    }
}

/// Where the piece of a file ends of which so many bytes from an offset on are asked for.
pub fn end_of(file: u64, offset: u64, size: u32) -> u64
    ensures { result ≡ min (offset + size) file }
{
    match offset.checked_add(u64::from(size)) {
        Some(end) if end < file => end,
        _ => file,
    }
}
