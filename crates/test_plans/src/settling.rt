use crate::expect::same;
use device::{Byte, MemDevice, set_bytes};
use frozen::{Frozen, load};
use layout::{Geometry, Refusal};
use live_holdings::Holdings;
use live_snapshots::{unmark_held, without_orphans};
use metadata::Metadata;
use std::alloc::Global;
use std::process::Abort;

// Each image is a fresh one of groups of 32 blocks and 16 inodes but for some bytes.

/// File 6 has a link, and 1,024 bytes in block 20. File 8 has no link, and 1,024 bytes in block 21.
const FILES: [Byte; 7] = [
    (2, 768, 1),
    (2, 770, 1),
    (2, 773, 4),
    (2, 776, 20),
    (3, 0, 1),
    (3, 5, 4),
    (3, 8, 21),
];

/// File 5 has no link, and 13 blocks in blocks 6 to 17 and 19. Its indirect block is block 18.
const ORPHAN: [Byte; 16] = [
    (2, 640, 1),
    (2, 645, 52),
    (2, 648, 6),
    (2, 652, 7),
    (2, 656, 8),
    (2, 660, 9),
    (2, 664, 10),
    (2, 668, 11),
    (2, 672, 12),
    (2, 676, 13),
    (2, 680, 14),
    (2, 684, 15),
    (2, 688, 16),
    (2, 692, 17),
    (2, 696, 18),
    (18, 0, 19),
];

/// Numbers 2, 5, 6 and 8 are marked, and so are blocks 4 and 6 to 21.
const MARKS: [Byte; 5] = [
    (1, 32, 0b0110_0100),
    (1, 33, 1),
    (1, 160, 0b1111_1101),
    (1, 161, 0b1111_1111),
    (1, 162, 0b11),
];

/// Numbers 2, 6 and 8 are marked, and so are blocks 4, 20 and 21.
const MARKS_LEFT: [Byte; 5] = [
    (1, 32, 0b0100_0100),
    (1, 33, 1),
    (1, 160, 0b1),
    (1, 161, 0),
    (1, 162, 0b11),
];

/// Of two groups: blocks 4, 7 and 8 of the first one are marked, and 37 and 38 of the second.
const MARKED: [Byte; 2] = [(1, 160, 0b1_1001), (33, 160, 0b110)];

/// The same without blocks 7, 37 and 38.
const UNMARKED: [Byte; 2] = [(1, 160, 0b1_0001), (33, 160, 0)];

/// The metadata of the image of one group with these bytes.
fn image(alloc: Global, changes: &[&[Byte]]) -> Result<Metadata, Refusal> {
    image_of(alloc, 1, changes)
}

/// The metadata of the image of so many groups with these bytes.
fn image_of(alloc: Global, groups: u32, changes: &[&[Byte]]) -> Result<Metadata, Refusal> {
    let geometry = Geometry::new(groups, 32, 16)?;
    let mut device = MemDevice::formatted(alloc, &geometry, &[])?;
    for some in changes {
        set_bytes(&mut device, some)?;
    }
    Ok(Metadata::new(alloc, load(alloc, &mut device)?)?)
}

/// Opens one more handle on a number.
fn open_on(holdings: &mut Holdings, number: u32) -> Result<(), Refusal> {
    match holdings.free_handle() {
        Some(handle) => {
            holdings.open(handle, number)?;
            Ok(())
        }
        None => Err(Refusal::TooManyOpen),
    }
}

/// The first block of the one that the other does not have.
fn first_difference(one: &Frozen, other: &Frozen) -> Option<u32> {
    for address in 0..one.geometry().blocks() {
        if let Some(block) = one.block(address) {
            match other.block(address) {
                Some(same) if *same == *block => {}
                _ => return Some(address),
            }
        }
    }
    None
}

/// What a check is to see of an image with an orphan, where these numbers are opened.
fn left_of(alloc: Global, metadata: &Metadata, numbers: &[u32]) -> Result<Frozen, Refusal> {
    let mut holdings = Holdings::new(alloc, &metadata.frozen().geometry())?;
    for number in numbers {
        open_on(&mut holdings, *number)?;
    }
    Ok(without_orphans(alloc, metadata, &holdings)?)
}

/// The first block in which what is left of an image with an orphan is not this image, where these numbers are opened.
fn lacking(alloc: Global, wanted: &Metadata, numbers: &[u32]) -> Result<Option<u32>, Refusal> {
    let metadata = image(alloc, &[&FILES, &ORPHAN, &MARKS])?;
    let left = left_of(alloc, &metadata, numbers)?;
    Ok(first_difference(wanted.frozen(), &left))
}

/// Aborts unless this is the first block in which the image with these bytes has what is not left of one with an orphan, where
/// these numbers are opened.
fn expect_lacking(
    rt: &(impl AllocGlobal + Abort),
    changes: &[&[Byte]],
    numbers: &[u32],
    wanted: Option<u32>,
) -> Result<(), Refusal> {
    let other = image(rt.alloc(), changes)?;
    let found = lacking(rt.alloc(), &other, numbers)?;
    assert_eq!(rt; found, wanted);
    Ok(())
}

/// The first block of the image with these bytes that the metadata has otherwise.
fn other_than(
    alloc: Global,
    metadata: &Metadata,
    changes: &[&[Byte]],
) -> Result<Option<u32>, Refusal> {
    let one = image(alloc, changes)?;
    Ok(first_difference(one.frozen(), metadata.frozen()))
}

/// Aborts unless this is the first block in which one image is not the other.
fn expect_other(
    rt: &(impl AllocGlobal + Abort),
    one: &[&[Byte]],
    other: &[&[Byte]],
    wanted: Option<u32>,
) -> Result<(), Refusal> {
    let metadata = image(rt.alloc(), other)?;
    let found = other_than(rt.alloc(), &metadata, one)?;
    assert_eq!(rt; found, wanted);
    Ok(())
}

#[test]
fn an_open_file_without_links_goes(rt: HostRuntime) -> Result<(), Refusal> {
    expect_lacking(&rt, &[&FILES, &MARKS_LEFT], &[5, 6, 5], None)?;
    expect_other(
        &rt,
        &[&FILES, &MARKS_LEFT],
        &[&FILES, &ORPHAN, &MARKS],
        Some(1),
    )
}

#[test]
fn a_file_that_is_not_open_stays(rt: HostRuntime) -> Result<(), Refusal> {
    expect_lacking(&rt, &[&FILES, &ORPHAN, &MARKS], &[], None)
}

/// Blocks 7, 37 and 38 are held.
fn with_three_held(alloc: Global, geometry: &Geometry) -> Result<Holdings, Refusal> {
    if geometry.blocks() <= 38 {
        return Err(Refusal::BadIndex);
    }
    let mut holdings = Holdings::new(alloc, geometry)?;
    holdings.hold(&[7, 37, 38]);
    Ok(holdings)
}

/// What is left of an image of two groups where three blocks are held.
fn without_held(alloc: Global, metadata: &Metadata) -> Result<Frozen, Refusal> {
    let holdings = with_three_held(alloc, &metadata.frozen().geometry())?;
    let mut left = without_orphans(alloc, metadata, &holdings)?;
    unmark_held(alloc, &mut left, &holdings)?;
    Ok(left)
}

#[test]
fn held_blocks_are_unmarked_in_each_group(rt: HostRuntime) -> Result<(), Refusal> {
    let metadata = image_of(rt.alloc(), 2, &[&MARKED])?;
    let left = without_held(rt.alloc(), &metadata)?;
    let wanted = image_of(rt.alloc(), 2, &[&UNMARKED])?;
    same(
        &rt,
        "what is left",
        first_difference(wanted.frozen(), &left),
        None,
    );
    same(
        &rt,
        "what was there",
        first_difference(metadata.frozen(), &left),
        Some(1),
    );
    Ok(())
}
