ghost use Rattle.std.specs.Prelude.{◌≤◌, length};

use crate::expect::same;
use device::MemDevice;
use frozen::load;
use layout::{BLOCK_BYTES, Block, Geometry, Refusal};
use live_places::Tables;
use live_writes::{Place, Target, held_blocks, overwritten, place_behind};
use metadata::Metadata;
use spares::Spares;
use std::alloc::{AllocError, Global};
use std::process::Abort;

/// The metadata of a fresh image of one group of 16 blocks and 16 inodes, with these marks of the data blocks from block 4
/// on.
fn image(alloc: Global, marks: [u8; 2]) -> Result<Metadata, Refusal> {
    let geometry = Geometry::new(1, 16, 16)?;
    let bytes = [(1, 160, marks[0]), (1, 161, marks[1])];
    let mut device = MemDevice::formatted(alloc, &geometry, &bytes)?;
    Ok(Metadata::new(alloc, load(alloc, &mut device)?)?)
}

/// A place behind the last block.
fn behind(block: u32, tables: Tables) -> Place {
    Place::Behind { block, tables }
}

/// Aborts unless this is the place behind so many blocks, where these blocks are marked.
fn expect_place(
    rt: &(impl AllocGlobal + Abort),
    marks: [u8; 2],
    blocks: u32,
    wanted: Result<Place, Refusal>,
) -> Result<(), Refusal> {
    let metadata = image(rt.alloc(), marks)?;
    if blocks >= metadata.frozen().geometry().most_blocks() {
        return Err(Refusal::TooBig);
    }
    assert_eq!(rt; place_behind(&metadata, blocks), wanted);
    Ok(())
}

#[test]
fn a_new_block_is_the_least_free_one(rt: HostRuntime) -> Result<(), Refusal> {
    expect_place(&rt, [0b1011, 0], 0, Ok(behind(6, Tables::none())))?;
    expect_place(&rt, [0b1011, 0], 11, Ok(behind(6, Tables::none())))?;
    expect_place(&rt, [0b1011, 0], 13, Ok(behind(6, Tables::none())))
}

#[test]
fn the_thirteenth_block_needs_another_one(rt: HostRuntime) -> Result<(), Refusal> {
    expect_place(&rt, [0b1011, 0], 12, Ok(behind(6, Tables::one(8))))
}

#[test]
fn too_few_blocks_are_refused(rt: HostRuntime) -> Result<(), Refusal> {
    expect_place(&rt, [0xff, 0x0f], 11, Ok(behind(16, Tables::none())))?;
    expect_place(&rt, [0xff, 0x0f], 12, Err(Refusal::NoBlock))?;
    expect_place(&rt, [0xff, 0x1f], 0, Err(Refusal::NoBlock))
}

/// Aborts unless a piece in a block of nines leaves these bytes at a place.
fn expect_bytes(
    rt: &(impl AllocGlobal + Abort),
    place: &Place,
    piece: &[u8],
    wanted: &Block,
) -> Result<(), Refusal>
    requires { length piece.now ≤ 1024 }
{
    let mut spares = Spares::none(rt.alloc());
    let bytes = overwritten(rt.alloc(), place, &[9; BLOCK_BYTES], piece, &mut spares)?;
    assert!(rt; *bytes == *wanted);
    Ok(())
}

/// The piece `ab`, and these bytes behind it.
fn ab_and(byte: u8) -> Block {
    let mut bytes = [byte; BLOCK_BYTES];
    bytes[0] = b'a';
    bytes[1] = b'b';
    bytes
}

#[test]
fn a_piece_leaves_what_is_behind_it(rt: HostRuntime) -> Result<(), Refusal> {
    expect_bytes(&rt, &Place::InPlace { block: 5 }, b"ab", &ab_and(9))?;
    expect_bytes(
        &rt,
        &Place::Elsewhere { old: 5, block: 7 },
        b"ab",
        &ab_and(9),
    )
}

#[test]
fn a_new_block_has_zeroes_behind_the_piece(rt: HostRuntime) -> Result<(), Refusal> {
    expect_bytes(&rt, &behind(7, Tables::none()), b"ab", &ab_and(0))
}

#[test]
fn a_piece_as_long_as_a_block_leaves_nothing(rt: HostRuntime) -> Result<(), Refusal> {
    let piece = [7; BLOCK_BYTES];
    expect_bytes(&rt, &Place::InPlace { block: 5 }, &piece, &piece)
}

/// Aborts unless these blocks are held where a place is written.
fn expect_held(
    rt: &(impl AllocGlobal + Abort),
    place: &Place,
    wanted: &[u32],
) -> Result<(), AllocError> {
    let held = held_blocks(rt.alloc(), place)?;
    assert!(rt; held.as_slice() == wanted);
    Ok(())
}

#[test]
fn a_block_that_a_snapshot_keeps_is_held(rt: HostRuntime) -> Result<(), AllocError> {
    expect_held(&rt, &Place::Elsewhere { old: 5, block: 7 }, &[5])?;
    expect_held(&rt, &Place::InPlace { block: 5 }, &[])
}

#[test]
fn the_old_block_is_seen(rt: HostRuntime) {
    let target = |place| Target {
        file: 3,
        index: 0,
        place,
    };
    same(
        &rt,
        "in place",
        target(Place::InPlace { block: 5 }).seen(),
        Some(5),
    );
    same(
        &rt,
        "behind",
        target(behind(7, Tables::none())).seen(),
        None,
    );
    same(
        &rt,
        "elsewhere",
        target(Place::Elsewhere { old: 5, block: 7 }).seen(),
        Some(5),
    );
}
