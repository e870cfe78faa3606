//! Listings of directories, which are written entry by entry while there is room.
ghost use Rattle.std.specs.Prelude.{◌≡◌, ◌+◌, ◌≤◌, ◌<◌, ◌^◌, ◌++◌, ◌↔◌, IfOk, IsTrue, OnOk, length, replicate, if◌then◌else◌};
ghost use Rattle.fuse_wire.specs.Replies.{found_bytes, kind_number, listed_bytes, listed_head, listed_plus_bytes, padded, padding};

use crate::bodies::Entry;
use crate::fields::{put_longs, put_words};
use crate::writing::put_entry;
use std::alloc::AllocError;

/// What a name in a listing is.
#[derive(Clone, Copy, Debug, PartialEq, Eq)]
pub enum Kind {
    Fifo,
    CharacterDevice,
    Directory,
    BlockDevice,
    File,
    SymbolicLink,
    Socket,
}

/// An entry of a directory in a listing.
#[derive(Clone, Copy, Debug, PartialEq, Eq)]
pub struct DirectoryEntry<'a> {
    pub inode: u64,
    /// From where the listing goes on behind this entry.
    pub next: u64,
    pub kind: Kind,
    pub name: &'a [u8],
}

/// Writes an entry behind a listing that may have so many bytes, and tells whether there was room for it. Else the listing is as
/// before. After an error, part of the entry may stand there.
pub fn push_entry(
    listing: &mut Vec<u8>,
    room: usize,
    entry: &DirectoryEntry<'_>,
) -> Result<bool, AllocError>
    requires { length entry.now.name.now < 2 ^ 32 }
    ensures fits { IfOk result (λ fits. IsTrue fits ↔ (length listing.old.items + length (listed_bytes entry.now) ≤ room)) }
    ensures written { IfOk result (λ fits. listing.new.items ≡ (if fits then listing.old.items ++ listed_bytes entry.now else listing.old.items)) }
{
    if !has_room(listing, room, size_of(entry)) {
        return Ok(false);
    }
    put_listed(listing, entry)?;
    Ok(true)
}

/// The same for a listing that also tells what each name leads to: this, or nothing.
#[tactic(auto, using(crate::proofs::Messages::length_listed_plus))]
pub fn push_entry_plus(
    listing: &mut Vec<u8>,
    room: usize,
    found: Option<&Entry>,
    entry: &DirectoryEntry<'_>,
) -> Result<bool, AllocError>
    requires { length entry.now.name.now < 2 ^ 32 }
    ensures fits { IfOk result (λ fits. IsTrue fits ↔ (length listing.old.items + length (listed_plus_bytes found.entry entry.now) ≤ room)) }
    ensures written { IfOk result (λ fits. listing.new.items
        ≡ (if fits then listing.old.items ++ listed_plus_bytes found.entry entry.now else listing.old.items)) }
{
    if !has_room(listing, room, 128 + size_of(entry)) {
        return Ok(false);
    }
    put_found(listing, found)?;
    put_listed(listing, entry)?;
    Ok(true)
}

/// Whether an entry has room behind such a listing.
pub fn fits_plus(listing: &[u8], room: usize, entry: &DirectoryEntry<'_>) -> bool
    requires { length entry.now.name.now < 2 ^ 32 }
    ensures { IsTrue result ↔ (length listing.now + (128 + length (listed_bytes entry.now)) ≤ room) }
{
    has_room(listing, room, 128 + size_of(entry))
}

/// Whether so many bytes have room behind a listing.
fn has_room(listing: &[u8], room: usize, bytes: usize) -> bool
    ensures { IsTrue result ↔ (length listing.now + bytes ≤ room) }
{
    match room.checked_sub(listing.len()) {
        Some(left) => bytes <= left,
        None => false,
    }
}

/// How many bytes an entry has in a listing.
#[tactic(auto, unfolding(crate::specs::Replies::listed_head))]
fn size_of(entry: &DirectoryEntry<'_>) -> usize
    requires { length entry.now.name.now < 2 ^ 32 }
    ensures value { result ≡ length (listed_bytes entry.now) }
    ensures small { result < 2 ^ 33 }
{
    let bytes = entry.name.len();
    24 + bytes + padding(bytes)
}

/// How many zeroes stand behind so many bytes, up to a multiple of 8.
fn padding(bytes: usize) -> usize
    ensures value { result ≡ padding bytes }
    ensures few { result < 8 }
{
    (8 - bytes % 8) % 8
}

/// Writes what a name leads to; zeroes if that is not told.
fn put_found(listing: &mut Vec<u8>, found: Option<&Entry>) -> Result<(), AllocError>
    ensures { OnOk result (listing.new.items ≡ listing.old.items ++ found_bytes found.entry) }
{
    match found {
        Some(entry) => put_entry(listing, entry),
        None => listing.extend_from_slice(&[0; 128]),
    }
}

/// Writes an entry of a listing.
fn put_listed(listing: &mut Vec<u8>, entry: &DirectoryEntry<'_>) -> Result<(), AllocError>
    requires { length entry.now.name.now < 2 ^ 32 }
    ensures { OnOk result (listing.new.items ≡ listing.old.items ++ listed_bytes entry.now) }
{
    let bytes = entry.name.len() as u32;
    put_listed_head(
        listing,
        entry.inode,
        entry.next,
        bytes,
        kind_number(entry.kind),
    )?;
    put_padded(listing, entry.name)
}

/// Writes what stands before the name of an entry of a listing.
#[tactic(auto, unfolding(crate::specs::Replies::listed_head))]
fn put_listed_head(
    listing: &mut Vec<u8>,
    inode: u64,
    next: u64,
    bytes: u32,
    kind: u32,
) -> Result<(), AllocError>
    ensures { OnOk result (listing.new.items ≡ listing.old.items ++ listed_head inode next bytes kind) }
{
    put_longs(listing, &[inode, next])?;
    put_words(listing, &[bytes, kind])
}

/// Writes a name, and zeroes up to a multiple of 8.
fn put_padded(listing: &mut Vec<u8>, name: &[u8]) -> Result<(), AllocError>
    ensures { OnOk result (listing.new.items ≡ listing.old.items ++ padded name.now) }
{
    listing.extend_from_slice(name)?;
    put_zeroes(listing, padding(name.len()))
}

/// Writes zeroes, fewer than 8.
#[tactic(auto, using(crate::proofs::Messages::zeroes_before))]
fn put_zeroes(listing: &mut Vec<u8>, count: usize) -> Result<(), AllocError>
    requires { count < 8 }
    ensures { OnOk result (listing.new.items ≡ listing.old.items ++ replicate count 0) }
{
    listing.extend_from_slice(&[0; 8][..count])
}

/// The number of a kind.
fn kind_number(kind: Kind) -> u32
    ensures { result ≡ kind_number kind }
{
    match kind {
        Kind::Fifo => 1,
        Kind::CharacterDevice => 2,
        Kind::Directory => 4,
        Kind::BlockDevice => 6,
        Kind::File => 8,
        Kind::SymbolicLink => 10,
        Kind::Socket => 12,
    }
}
