use device::{Byte, MemDevice, set_byte};
use frozen::{Frozen, load};
use layout::{Geometry, Refusal};
use same_metadata::have_same_metadata;
use std::alloc::Global;
use std::process::Abort;

/// Bytes of an image of one group of 16 blocks and 16 inodes: an address, a byte and its value. Inode 3 is a file of 13
/// blocks, of which the first is block 6, with the indirect block 5. Inode 4 is a directory of 13 blocks, of which the
/// first is block 7 and the last block 9, with the indirect block 8.
const FILES: [Byte; 9] = [
    (2, 384, 1),
    (2, 389, 52),
    (2, 392, 6),
    (2, 440, 5),
    (2, 512, 2),
    (2, 517, 52),
    (2, 520, 7),
    (2, 568, 8),
    (8, 0, 9),
];

/// Changes of one byte of that image: an address, a byte, its value, and whether a check looks at the same as before.
const CHANGES: [(u32, usize, u8, bool); 23] = [
    // The superblock and the block of maps hold more bytes than are looked at.
    (0, 20, 1, true),
    (1, 8, 1, true),
    // The bits of numbers 0 and 1, of number 3, and past the last number.
    (1, 32, 7, true),
    (1, 32, 12, false),
    (1, 33, 128, false),
    (1, 34, 1, true),
    // The bits of blocks 5 and 16, and past the last block.
    (1, 160, 3, false),
    (1, 161, 16, false),
    (1, 161, 32, true),
    // The records of inodes 0 and 1, those of inodes 2 and 15, and the bytes of a record behind its pointers.
    (2, 2, 1, true),
    (2, 130, 1, true),
    (2, 258, 3, false),
    (2, 315, 1, false),
    (2, 316, 1, true),
    (3, 898, 1, false),
    // The blocks of directories, indirect blocks, a file's block, and a block that no inode claims.
    (4, 1023, 1, false),
    (5, 1023, 1, false),
    (6, 0, 1, true),
    (7, 1023, 1, false),
    (8, 0, 10, false),
    (8, 1023, 1, false),
    (9, 0, 1, false),
    (10, 0, 1, true),
];

/// The metadata of the image that has `FILES`, with one byte changed where one is named.
fn loaded(alloc: Global, change: Option<Byte>) -> Result<Frozen, Refusal> {
    let mut device = MemDevice::formatted(alloc, &Geometry::new(1, 16, 16)?, &FILES)?;
    if let Some(byte) = change {
        set_byte(&mut device, byte)?;
    }
    load(alloc, &mut device)
}

/// Aborts unless the one is the same as the other, and the other as the one, or neither is.
fn expect_same(rt: &impl Abort, one: &Frozen, other: &Frozen, is_same: bool) {
    let told = [
        have_same_metadata(one, other),
        have_same_metadata(other, one),
    ];
    assert_eq!(rt; told, [is_same; 2]);
}

#[test]
fn an_image_that_is_loaded_twice_is_the_same(rt: HostRuntime) -> Result<(), Refusal> {
    let once = loaded(rt.alloc(), None)?;
    expect_same(&rt, &once, &once, true);
    let twice = loaded(rt.alloc(), None)?;
    expect_same(&rt, &once, &twice, true);
    Ok(())
}

/// Aborts unless the image with a change is the same as this one, or is not.
fn expect_change(
    rt: &(impl AllocGlobal + Abort),
    before: &Frozen,
    change: (u32, usize, u8),
    is_same: bool,
) -> Result<(), Refusal> {
    let after = loaded(rt.alloc(), Some(change))?;
    expect_same(rt, before, &after, is_same);
    Ok(())
}

#[test]
fn a_change_of_what_a_check_looks_at_is_told(rt: HostRuntime) -> Result<(), Refusal> {
    let before = loaded(rt.alloc(), None)?;
    for (address, byte, value, is_same) in CHANGES {
        expect_change(&rt, &before, (address, byte, value), is_same)?;
    }
    Ok(())
}

/// The metadata of a fresh image.
fn loaded_fresh(alloc: Global, groups: u32, blocks: u32, inodes: u32) -> Result<Frozen, Refusal> {
    let geometry = Geometry::new(groups, blocks, inodes)?;
    let mut device = MemDevice::formatted(alloc, &geometry, &[])?;
    load(alloc, &mut device)
}

/// Aborts unless a fresh image has the same metadata as this one, or has not.
fn expect_fresh(
    rt: &(impl AllocGlobal + Abort),
    one: &Frozen,
    geometry: (u32, u32, u32),
    is_same: bool,
) -> Result<(), Refusal> {
    let (groups, blocks, inodes) = geometry;
    let other = loaded_fresh(rt.alloc(), groups, blocks, inodes)?;
    assert_eq!(rt; have_same_metadata(one, &other), is_same);
    Ok(())
}

#[test]
fn images_of_two_geometries_are_not_the_same(rt: HostRuntime) -> Result<(), Refusal> {
    let one = loaded_fresh(rt.alloc(), 1, 16, 16)?;
    for (geometry, is_same) in [
        ((1, 16, 16), true),
        ((2, 16, 16), false),
        ((1, 17, 16), false),
        ((1, 16, 8), false),
    ] {
        expect_fresh(&rt, &one, geometry, is_same)?;
    }
    Ok(())
}
