use crate::expect::same;
use device::{Byte, Device, MemDevice, set_byte, set_bytes};
use frozen::{Frozen, load};
use layout::{BLOCK_BYTES, DOUBLE, Geometry, Refusal, SINGLE};
use live_places::{Place, Places, Tables, choose, take_tables};
use metadata::Metadata;
use std::alloc::Global;
use std::process::Abort;
use std::test::Fail;

/// The bytes that differ from a fresh image of one group of 16 blocks and 16 inodes: the block, the byte, the value.
/// The root, in block 4, has its dots alone. Directory 3 has one block, which is block 5; directory 4 has twelve, each
/// of them block 5; directory 5 has 268 blocks, of which none is there.
const CHANGES: &[Byte] = &[
    (2, 384, 2),
    (2, 389, 4),
    (2, 392, 5),
    (2, 512, 2),
    (2, 517, 48),
    (2, 520, 5),
    (2, 524, 5),
    (2, 528, 5),
    (2, 532, 5),
    (2, 536, 5),
    (2, 540, 5),
    (2, 544, 5),
    (2, 548, 5),
    (2, 552, 5),
    (2, 556, 5),
    (2, 560, 5),
    (2, 564, 5),
    (2, 640, 2),
    (2, 645, 48),
    (2, 646, 4),
];

/// Makes these changes, and gives the data blocks from block 4 on these marks. Each slot of block 5 is bad.
fn change(device: &mut MemDevice, marks: [u8; 2]) -> Result<(), Refusal> {
    if device.blocks() <= 5 {
        return Err(Refusal::BadIndex);
    }
    device.write(5, &[255; BLOCK_BYTES])?;
    set_bytes(device, CHANGES)?;
    set_byte(device, (1, 160, marks[0]))?;
    set_byte(device, (1, 161, marks[1]))
}

/// What is kept of this image, of this version of the layout.
fn frozen(alloc: Global, version: u32, marks: [u8; 2]) -> Result<Frozen, Refusal> {
    let geometry = Geometry::new(1, 16, 16)?.with_version(version)?;
    let mut device = MemDevice::formatted(alloc, &geometry, &[])?;
    match change(&mut device, marks) {
        Ok(()) => load(alloc, &mut device),
        Err(refusal) => Err(refusal),
    }
}

/// The metadata of this image.
fn image(alloc: Global, version: u32, marks: [u8; 2]) -> Result<Metadata, Refusal> {
    Ok(Metadata::new(alloc, frozen(alloc, version, marks)?)?)
}

/// What is chosen for a directory.
fn chosen(metadata: &Metadata, directory: u32, own: bool) -> Result<Places, Refusal> {
    if !metadata.frozen().is_directory_at(directory) {
        return Err(Refusal::NotDirectory);
    }
    choose(metadata, directory, own)
}

/// A new block, with or without one of the directory's own, and with these new tables.
fn new_block(own: Option<u32>, block: u32, tables: Tables) -> Places {
    let place = Place::NewBlock { block, tables };
    Places { own, place }
}

/// An empty slot, with or without a block.
fn empty_slot(own: Option<u32>, slot: u32, block: u32) -> Places {
    let place = Place::Slot { slot, block };
    Places { own, place }
}

/// A directory, whether a block of its own is asked for, and what is chosen then.
type Choice = (u32, bool, Result<Places, Refusal>);

/// Expects these choices on the images of both versions of the layout with these marks.
fn expect_choices<R: AllocGlobal + Abort>(
    rt: &R,
    marks: [u8; 2],
    choices: &[Choice],
) -> Result<(), Refusal> {
    expect_choices_of(rt, SINGLE, marks, choices)?;
    expect_choices_of(rt, DOUBLE, marks, choices)
}

/// Expects these choices on the image of this version with these marks.
fn expect_choices_of<R: AllocGlobal + Abort>(
    rt: &R,
    version: u32,
    marks: [u8; 2],
    choices: &[Choice],
) -> Result<(), Refusal> {
    let metadata = image(rt.alloc(), version, marks)?;
    for (directory, own, wanted) in choices {
        let found = chosen(&metadata, *directory, *own);
        same(rt, (version, *directory, *own), found, *wanted);
    }
    Ok(())
}

#[test]
fn entries_go_into_empty_slots(rt: HostRuntime) -> Result<(), Fail> {
    let choices = [
        (2, false, Ok(empty_slot(None, 2, 4))),
        (2, true, Ok(empty_slot(Some(6), 2, 4))),
    ];
    expect_choices(&rt, [0b11, 0], &choices)?;
    Ok(())
}

#[test]
fn directories_without_an_empty_slot_get_a_block(rt: HostRuntime) -> Result<(), Fail> {
    let choices = [
        (3, false, Ok(new_block(None, 6, Tables::none()))),
        (3, true, Ok(new_block(Some(6), 8, Tables::none()))),
    ];
    expect_choices(&rt, [0b1011, 0], &choices)?;
    Ok(())
}

#[test]
fn the_block_after_twelve_needs_another_one(rt: HostRuntime) -> Result<(), Fail> {
    let choices = [
        (4, false, Ok(new_block(None, 6, Tables::one(7)))),
        (4, true, Ok(new_block(Some(6), 7, Tables::one(8)))),
    ];
    expect_choices(&rt, [0b11, 0], &choices)?;
    Ok(())
}

#[test]
fn too_few_blocks_are_refused(rt: HostRuntime) -> Result<(), Fail> {
    let one = [
        (2, true, Ok(empty_slot(Some(16), 2, 4))),
        (3, false, Ok(new_block(None, 16, Tables::none()))),
        (3, true, Err(Refusal::NoBlock)),
        (4, false, Err(Refusal::NoBlock)),
    ];
    expect_choices(&rt, [0xff, 0x0f], &one)?;
    Ok(())
}

#[test]
fn no_block_at_all_is_refused(rt: HostRuntime) -> Result<(), Fail> {
    let none = [
        (2, false, Ok(empty_slot(None, 2, 4))),
        (2, true, Err(Refusal::NoBlock)),
        (3, false, Err(Refusal::NoBlock)),
    ];
    expect_choices(&rt, [0xff, 0x1f], &none)?;
    Ok(())
}

#[test]
fn full_directories_are_refused_first(rt: HostRuntime) -> Result<(), Fail> {
    let choices = [
        (5, false, Err(Refusal::TooBig)),
        (5, true, Err(Refusal::TooBig)),
    ];
    expect_choices_of(&rt, SINGLE, [0xff, 0x1f], &choices)?;
    Ok(())
}

#[test]
fn the_block_after_268_needs_two_more_in_version_2(rt: HostRuntime) -> Result<(), Fail> {
    let many = [
        (5, false, Ok(new_block(None, 6, Tables::two(7, 8)))),
        (5, true, Ok(new_block(Some(6), 7, Tables::two(8, 9)))),
    ];
    expect_choices_of(&rt, DOUBLE, [0b11, 0], &many)?;
    let three = [
        (5, false, Ok(new_block(None, 14, Tables::two(15, 16)))),
        (5, true, Err(Refusal::NoBlock)),
    ];
    expect_choices_of(&rt, DOUBLE, [0xff, 0b11], &three)?;
    let two = [(5, false, Err(Refusal::NoBlock))];
    expect_choices_of(&rt, DOUBLE, [0xff, 0b111], &two)?;
    Ok(())
}

/// The table at the first address or, where the second is not 0, those at both; too few blocks where the first is 0.
fn tables_at(first: u32, second: u32) -> Result<Tables, Refusal> {
    match (first, second) {
        (0, _) => Err(Refusal::NoBlock),
        (one, 0) => Ok(Tables::one(one)),
        (one, two) => Ok(Tables::two(one, two)),
    }
}

#[test]
fn new_tables_are_the_next_blocks(rt: HostRuntime) -> Result<(), Fail> {
    // The marks, an address, and the first table from there on and the first two; 0 where there are too few blocks.
    let table = [
        ([0b1011, 0], 0, 6, (6, 8)),
        ([0b1011, 0], 7, 8, (8, 9)),
        ([0xff, 0x0f], 0, 16, (0, 0)),
        ([0xff, 0x0f], 17, 0, (0, 0)),
    ];
    for (marks, from, one, (first, second)) in table {
        let metadata = image(rt.alloc(), SINGLE, marks)?;
        let none = Ok(Tables::none());
        same(&rt, (from, 0), take_tables(&metadata, from, 0), none);
        same(
            &rt,
            (from, 1),
            take_tables(&metadata, from, 1),
            tables_at(one, 0),
        );
        same(
            &rt,
            (from, 2),
            take_tables(&metadata, from, 2),
            tables_at(first, second),
        );
    }
    Ok(())
}

#[test]
fn tables_are_taken_off_from_the_nearest_on(rt: HostRuntime) -> Result<(), Fail> {
    let offs = [
        (Tables::none(), None, Tables::none()),
        (Tables::one(7), Some(7), Tables::none()),
        (Tables::two(7, 9), Some(7), Tables::one(9)),
    ];
    for (tables, first, rest) in offs {
        same(&rt, tables, tables.first(), first);
        same(&rt, tables, tables.rest(), rest);
        same(&rt, tables, tables.is_empty(), first.is_none());
    }
    Ok(())
}
