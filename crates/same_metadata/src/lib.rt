//! Whether two frozen images are the same to a check: whether they have the same geometry and the same metadata. A check
//! looks at nothing else of an image, so it finds the same in two such images.
#![tactic(auto)]

ghost use Rattle.std.specs.Prelude.{◌≡◌, ◌<◌, ◌↔◌, ℕ, IsTrue};
ghost use Rattle.model.specs.Layout.{is_data_address, is_number};
ghost use Rattle.model.specs.Metadata.{SameMetadata};
ghost use Rattle.frozen.specs.Kept.{frozen_view, kept_bytes};
ghost use Rattle.same_metadata.specs.Same.{HasSameClaim, HasSameDirectory, HasSameInode, HasSameTables};

use cgmaps::{Map, bit_of};
use frozen::Frozen;
use layout::{DataPlace, ROOT};

/// Whether two images have the same geometry and the same metadata: all that a check looks at. That is the records of
/// all inodes from number 2 on, the bits of these numbers and of the data blocks, and the bytes of the blocks of pointers
/// and of the blocks of sound directories that are claimed. It takes no memory, and time in proportion to the volume's
/// size and to the claims of its directories; where both keep the same blocks, these alone are compared.
pub fn have_same_metadata(one: &Frozen, other: &Frozen) -> bool
    ensures { IsTrue result ↔ ((one.now.geometry ≡ other.now.geometry)
        × SameMetadata one.now.geometry (frozen_view one.now) (frozen_view other.now)) }
{
    if one.geometry() != other.geometry() {
        return false;
    }
    have_same_blocks(one, other) || have_same_parts(one, other)
}

/// Whether both keep the same blocks: then all metadata are the same.
fn have_same_blocks(one: &Frozen, other: &Frozen) -> bool
    requires { one.now.geometry ≡ other.now.geometry }
    ensures { IsTrue result → SameMetadata one.now.geometry (frozen_view one.now) (frozen_view other.now) }
{
    for address in 0..one.geometry().blocks() {
        if !has_same_block(one, other, address) {
            return false;
        }
    }
    other.geometry(); // for the proof: its clause `frame`
    true
}

/// Whether the metadata are the same in both, part by part.
fn have_same_parts(one: &Frozen, other: &Frozen) -> bool
    requires { one.now.geometry ≡ other.now.geometry }
    ensures { IsTrue result ↔ SameMetadata one.now.geometry (frozen_view one.now) (frozen_view other.now) }
{
    have_same_block_bits(one, other) && have_same_inodes(one, other)
}

/// Whether the bits of all data blocks are the same in both.
fn have_same_block_bits(one: &Frozen, other: &Frozen) -> bool
    requires { one.now.geometry ≡ other.now.geometry }
    ensures { IsTrue result ↔ ((a : ℕ) → IsTrue (is_data_address one.now.geometry a)
        → (frozen_view one.now).block_marked a ≡ (frozen_view other.now).block_marked a) }
{
    for address in 0..one.geometry().blocks() {
        if !has_same_block_bit(one, other, address) {
            return false;
        }
    }
    true
}

/// Whether a data block's bit is the same in both. A block of another kind has no bit.
fn has_same_block_bit(one: &Frozen, other: &Frozen, address: u32) -> bool
    requires { one.now.geometry ≡ other.now.geometry }
    ensures { IsTrue result ↔ ((frozen_view one.now).block_marked address ≡ (frozen_view other.now).block_marked address) }
{
    let Some(DataPlace { group, bit }) = one.geometry().place_of(address) else {
        return true;
    };
    bit_of(one.maps_of(group), Map::Blocks, bit) == bit_of(other.maps_of(group), Map::Blocks, bit)
}

/// Whether all inodes are the same in both to a check.
fn have_same_inodes(one: &Frozen, other: &Frozen) -> bool
    requires { one.now.geometry ≡ other.now.geometry }
    ensures { IsTrue result ↔ ((i : ℕ) → IsTrue (is_number one.now.geometry i)
        → HasSameInode one.now.geometry (frozen_view one.now) (frozen_view other.now) i) }
{
    for number in ROOT..one.geometry().inodes() {
        if !has_same_inode(one, other, number) {
            return false;
        }
    }
    true
}

/// Whether an inode is the same in both to a check: its record, its number's bit, its tables, and its blocks if it is a
/// sound directory.
fn has_same_inode(one: &Frozen, other: &Frozen, number: u32) -> bool
    requires geometry { one.now.geometry ≡ other.now.geometry }
    requires number { IsTrue (is_number one.now.geometry number) }
    ensures { IsTrue result ↔ HasSameInode one.now.geometry (frozen_view one.now) (frozen_view other.now) number }
{
    has_same_record(one, other, number)
        && is_number_marked(one, number) == is_number_marked(other, number)
        && has_same_tables(one, other, number)
        && has_same_directory(one, other, number)
}

/// Whether the record of an inode is the same in both. The bytes of it that stand for nothing are not looked at.
fn has_same_record(one: &Frozen, other: &Frozen, number: u32) -> bool
    requires geometry { one.now.geometry ≡ other.now.geometry }
    requires number { IsTrue (is_number one.now.geometry number) }
    ensures { IsTrue result ↔ ((frozen_view one.now).inode number ≡ (frozen_view other.now).inode number) }
{
    one.record(number) == other.record(number)
}

/// Whether the number of an inode is marked.
fn is_number_marked(frozen: &Frozen, number: u32) -> bool
    requires { IsTrue (is_number frozen.now.geometry number) }
    ensures { result ≡ (frozen_view frozen.now).number_marked number }
{
    let geometry = frozen.geometry();
    let maps = frozen.maps_of(geometry.group_of(number));
    bit_of(maps, Map::Inodes, number % geometry.inodes_a_group())
}

/// Whether the tables that an inode claims are the same in both.
fn has_same_tables(one: &Frozen, other: &Frozen, number: u32) -> bool
    requires { one.now.geometry ≡ other.now.geometry }
    ensures { IsTrue result ↔ HasSameTables one.now.geometry (frozen_view one.now) (frozen_view other.now) number }
{
    if !one.is_sound_at(number) {
        return true;
    }
    let geometry = one.geometry();
    for position in geometry.most_blocks()..geometry.tables_end(one.blocks(number)) {
        if !has_same_claim(one, other, number, position) {
            return false;
        }
    }
    true
}

/// Whether the blocks that an inode claims are the same in both, if it is a sound directory, but for its tables.
fn has_same_directory(one: &Frozen, other: &Frozen, number: u32) -> bool
    requires geometry { one.now.geometry ≡ other.now.geometry }
    requires number { IsTrue (is_number one.now.geometry number) }
    ensures { IsTrue result ↔ HasSameDirectory one.now.geometry (frozen_view one.now) (frozen_view other.now) number }
{
    if !one.is_directory_at(number) {
        return true;
    }
    for position in 0..one.blocks(number) {
        if !has_same_claim(one, other, number, position) {
            return false;
        }
    }
    true
}

/// Whether the block that an inode claims at a position is the same in both, if it claims one there.
fn has_same_claim(one: &Frozen, other: &Frozen, number: u32, position: u32) -> bool
    requires { one.now.geometry ≡ other.now.geometry }
    ensures { IsTrue result ↔ HasSameClaim one.now.geometry (frozen_view one.now) (frozen_view other.now) number position }
{
    match one.claim_at(number, position) {
        Some(address) => has_same_block(one, other, address),
        None => true,
    }
}

/// Whether both hold the same block at an address, or neither holds one.
fn has_same_block(one: &Frozen, other: &Frozen, address: u32) -> bool
    ensures { IsTrue result ↔ (kept_bytes one.now.blocks address ≡ kept_bytes other.now.blocks address) }
{
    match (one.block(address), other.block(address)) {
        (Some(block), Some(there)) => block == there,
        (None, None) => true,
        _ => false,
    }
}
