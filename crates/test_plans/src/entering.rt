ghost use Rattle.std.specs.Prelude.{◌<◌, IsTrue};
ghost use Rattle.frozen.specs.Kept.{frozen_view};
ghost use Rattle.model.specs.Uses.{is_directory_at};
ghost use Rattle.live_plans.specs.Linked.{HasPointers};

use device::{Device, MemDevice, set_bytes};
use frozen::{Frozen, load};
use inode::{ATTRIBUTES, DIRECTORY, Record};
use layout::{BLOCK_BYTES, Block, Geometry, ROOT, Refusal};
use live_paths::Path;
use live_places::choose;
use live_plans::{Found, NewEntry, Plan, enter_at, locate, pointer_after};
use metadata::Metadata;
use std::alloc::{AllocError, Global};
use std::process::Abort;
use updates::{Cell, Change, Update};

/// The bytes that differ from a fresh image of one group of 16 blocks and 16 inodes: the block, the byte, the value.
/// The root, in block 4, has the entry `d` of number 3 besides its dots. Directory 3 has one block, which is block 5;
/// directory 4 has twelve and directory 5 has thirteen, each of them block 5. The indirect block of 5 is block 6.
const CHANGES: [(u32, usize, u8); 37] = [
    (1, 160, 7),
    (2, 384, 2),
    (2, 389, 4),
    (2, 392, 5),
    (2, 512, 2),
    (2, 517, 48),
    (2, 520, 5),
    (2, 524, 5),
    (2, 528, 5),
    (2, 532, 5),
    (2, 536, 5),
    (2, 540, 5),
    (2, 544, 5),
    (2, 548, 5),
    (2, 552, 5),
    (2, 556, 5),
    (2, 560, 5),
    (2, 564, 5),
    (2, 640, 2),
    (2, 645, 52),
    (2, 648, 5),
    (2, 652, 5),
    (2, 656, 5),
    (2, 660, 5),
    (2, 664, 5),
    (2, 668, 5),
    (2, 672, 5),
    (2, 676, 5),
    (2, 680, 5),
    (2, 684, 5),
    (2, 688, 5),
    (2, 692, 5),
    (2, 696, 6),
    (4, 128, 3),
    (4, 132, 1),
    (4, 136, b'd'),
    (6, 0, 5),
];

/// The metadata of this image. Each slot of block 5 is bad.
fn image(alloc: Global) -> Result<Metadata, Refusal> {
    let geometry = Geometry::new(1, 16, 16)?;
    let mut device = MemDevice::formatted(alloc, &geometry, &[])?;
    fill(&mut device, 5, 255)?;
    set_bytes(&mut device, &CHANGES)?;
    Ok(Metadata::new(alloc, load(alloc, &mut device)?)?)
}

/// Gives each byte of a block this value.
fn fill(device: &mut MemDevice, address: u32, value: u8) -> Result<(), Refusal> {
    if address >= device.blocks() {
        return Err(Refusal::BadIndex);
    }
    device.write(address, &[value; BLOCK_BYTES])?;
    Ok(())
}

/// Whether a directory claims each table that it has.
fn has_pointers(frozen: &Frozen, directory: u32) -> bool
    requires { IsTrue (is_directory_at frozen.now.geometry (frozen_view frozen.now) directory) }
    ensures { IsTrue result → HasPointers frozen.now directory }
{
    let geometry = frozen.geometry();
    for position in geometry.most_blocks()..geometry.tables_end(frozen.record(directory).blocks()) {
        if frozen.claim_at(directory, position).is_none() {
            return false;
        }
    }
    true
}

/// The updates that enter the name `ab` of number 9 into a directory of the image.
fn entered(alloc: Global, directory: u32) -> Result<Vec<Update>, Refusal> {
    let metadata = image(alloc)?;
    entered_on(alloc, &metadata, directory)
}

/// The updates that enter the name `ab` of number 9 into a directory.
fn entered_on(alloc: Global, metadata: &Metadata, directory: u32) -> Result<Vec<Update>, Refusal> {
    let frozen = metadata.frozen();
    let geometry = frozen.geometry();
    if !frozen.is_directory_at(directory) || geometry.inodes() <= 9 {
        return Err(Refusal::NotDirectory);
    }
    let parent = frozen.record(directory);
    if !has_pointers(frozen, directory) {
        return Err(Refusal::BadIndex);
    }
    let places = choose(metadata, directory, false)?;
    let mut plan = Plan::new(alloc, geometry, 9);
    let new = NewEntry {
        directory,
        parent,
        number: 9,
        name: b"ab",
        place: places.place,
    };
    enter_at(alloc, metadata, &mut plan, &new)?;
    Ok(plan.into_updates())
}

/// Whether an update of file 9 writes these bytes of a block, after these cells.
fn writes(update: &Update, address: u32, bytes: &Block, after: &[Cell]) -> bool {
    match &update.change {
        Change::SetBytes(written, new) if *written == address && **new == *bytes => {
            update.file == Some(9) && update.after.as_slice() == after
        }
        _ => false,
    }
}

/// Whether an update of file 9 marks a block, after nothing.
fn marks(update: &Update, address: u32) -> bool {
    match &update.change {
        Change::SetBlock(marked, true) if *marked == address => {
            update.file == Some(9) && update.after.is_empty()
        }
        _ => false,
    }
}

/// Whether an update of file 9 gives an inode this record, after these cells.
fn sets(update: &Update, number: u32, record: &Record, after: &[Cell]) -> bool {
    match &update.change {
        Change::SetInode(set, new) if *set == number && **new == *record => {
            update.file == Some(9) && update.after.as_slice() == after
        }
        _ => false,
    }
}

/// A block of zeroes with the entry `ab` of number 9 in its first slot.
fn first_entry() -> Block {
    let mut bytes = [0; BLOCK_BYTES];
    bytes[0] = 9;
    bytes[4] = 2;
    bytes[8] = b'a';
    bytes[9] = b'b';
    bytes
}

/// The record of a directory of one link, with these first blocks, which are block 5, and then this one.
fn directory(blocks: usize, then: u32, size: u32, indirect: u32) -> Record {
    let mut direct = [0; 12];
    for position in 0..12 {
        if position < blocks {
            direct[position] = 5;
        } else if position == blocks {
            direct[position] = then;
        }
    }
    Record {
        mode: DIRECTORY,
        links: 0,
        size,
        direct,
        indirect,
        double: 0,
        attributes: [0; ATTRIBUTES],
    }
}

/// Aborts unless what is looked at is so.
fn expect(rt: &impl Abort, is_so: bool) {
    assert!(rt; is_so);
}

/// Whether these updates write the name into the empty slot of the root's block.
fn fill_a_slot(updates: &[Update]) -> bool {
    let mut wanted = [0; BLOCK_BYTES];
    wanted[0] = 2;
    wanted[4] = 1;
    wanted[8] = b'.';
    wanted[64] = 2;
    wanted[68] = 2;
    wanted[72] = b'.';
    wanted[73] = b'.';
    wanted[128] = 3;
    wanted[132] = 1;
    wanted[136] = b'd';
    wanted[192] = 9;
    wanted[196] = 2;
    wanted[200] = b'a';
    wanted[201] = b'b';
    match updates {
        [entry] => writes(entry, 4, &wanted, &[Cell::Record(9), Cell::Block(4)]),
        _ => false,
    }
}

#[test]
fn a_name_goes_into_an_empty_slot(rt: HostRuntime) -> Result<(), Refusal> {
    let updates = entered(rt.alloc(), ROOT)?;
    expect(&rt, fill_a_slot(updates.as_slice()));
    Ok(())
}

/// Whether these updates add block 7 to directory 3, whose record points to it.
fn grow_by_the_record(updates: &[Update]) -> bool {
    match updates {
        [mark, zeroes, record, entry] => {
            marks(mark, 7)
                && writes(zeroes, 7, &[0; BLOCK_BYTES], &[Cell::BlockBit(7)])
                && sets(record, 3, &directory(1, 7, 2048, 0), &[Cell::Block(7)])
                && writes(entry, 7, &first_entry(), &[Cell::Record(9), Cell::Block(5)])
        }
        _ => false,
    }
}

#[test]
fn a_directory_grows_by_its_record(rt: HostRuntime) -> Result<(), Refusal> {
    let updates = entered(rt.alloc(), 3)?;
    expect(&rt, grow_by_the_record(updates.as_slice()));
    Ok(())
}

/// Whether these updates add block 7 to directory 4, and block 8, which points to it.
fn add_an_indirect_block(updates: &[Update]) -> bool {
    let mut pointers = [0; BLOCK_BYTES];
    pointers[0] = 7;
    let behind = [Cell::BlockBit(8), Cell::Block(7)];
    let blocks = [Cell::Block(8), Cell::Block(7)];
    let mut after = [Cell::Block(5); 13];
    after[0] = Cell::Record(9);
    match updates {
        [mark, zeroes, mark_of_pointers, pointer, record, entry] => {
            marks(mark, 7)
                && writes(zeroes, 7, &[0; BLOCK_BYTES], &[Cell::BlockBit(7)])
                && marks(mark_of_pointers, 8)
                && writes(pointer, 8, &pointers, &behind)
                && sets(record, 4, &directory(12, 0, 13312, 8), &blocks)
                && writes(entry, 7, &first_entry(), &after)
        }
        _ => false,
    }
}

#[test]
fn a_directory_gets_an_indirect_block(rt: HostRuntime) -> Result<(), Refusal> {
    let updates = entered(rt.alloc(), 4)?;
    expect(&rt, add_an_indirect_block(updates.as_slice()));
    Ok(())
}

/// Whether these updates add block 7 to directory 5, whose indirect block 6 points to it.
fn grow_by_the_indirect_block(updates: &[Update]) -> bool {
    let mut pointers = [0; BLOCK_BYTES];
    pointers[0] = 5;
    pointers[4] = 7;
    let blocks = [Cell::Block(6), Cell::Block(7)];
    let mut after = [Cell::Block(5); 14];
    after[0] = Cell::Record(9);
    match updates {
        [mark, zeroes, pointer, record, entry] => {
            marks(mark, 7)
                && writes(zeroes, 7, &[0; BLOCK_BYTES], &[Cell::BlockBit(7)])
                && writes(pointer, 6, &pointers, &[Cell::Block(7)])
                && sets(record, 5, &directory(12, 0, 14336, 6), &blocks)
                && writes(entry, 7, &first_entry(), &after)
        }
        _ => false,
    }
}

#[test]
fn a_directory_grows_by_its_indirect_block(rt: HostRuntime) -> Result<(), Refusal> {
    let updates = entered(rt.alloc(), 5)?;
    expect(&rt, grow_by_the_indirect_block(updates.as_slice()));
    Ok(())
}

/// Aborts unless a pointer at this place of an indirect block, in which another stands at place 1, comes after these cells.
fn expect_after(
    rt: &(impl AllocGlobal + Abort),
    place: usize,
    wanted: &[Cell],
) -> Result<(), AllocError>
    requires { place < 256 }
{
    let mut pointers = [0; BLOCK_BYTES];
    pointers[4] = 9;
    let after = pointer_after(rt.alloc(), 5, place, 7, &pointers, None)?;
    assert_eq!(rt; after.as_slice(), wanted);
    Ok(())
}

#[test]
fn a_pointer_over_another_waits_for_the_inode(rt: HostRuntime) -> Result<(), AllocError> {
    expect_after(&rt, 0, &[Cell::Block(7)])?;
    expect_after(&rt, 1, &[Cell::Block(7), Cell::Record(5)])?;
    expect_after(&rt, 2, &[Cell::Block(7)])
}

/// What is found of a path.
fn located(metadata: &Metadata, path: &[u8]) -> Result<Found, Refusal> {
    let path = Path::parse(path)?;
    if path.is_root() {
        return Err(Refusal::IsRoot);
    }
    locate(metadata.frozen(), &path)
}

/// Aborts unless this is found of a path of the image, where that can be had.
fn expect_located(
    rt: &(impl AllocGlobal + Abort),
    path: &[u8],
    wanted: Result<Found, Refusal>,
) -> Result<(), Refusal> {
    let metadata = image(rt.alloc())?;
    assert_eq!(rt; located(&metadata, path), wanted);
    Ok(())
}

#[test]
fn entries_are_found(rt: HostRuntime) -> Result<(), Refusal> {
    let found = Found {
        directory: ROOT,
        slot: 2,
        block: 4,
        number: 3,
    };
    expect_located(&rt, b"/d", Ok(found))?;
    expect_located(&rt, b"/e", Err(Refusal::NotFound))?;
    expect_located(&rt, b"/e/f", Err(Refusal::NotFound))?;
    expect_located(&rt, b"/d/f", Err(Refusal::NotFound))
}
