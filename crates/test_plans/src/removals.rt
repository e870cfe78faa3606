use device::MemDevice;
use dirent::{SLOT_BYTES, SLOTS, replace};
use frozen::load;
use layout::{Block, Geometry, Refusal};
use live_holdings::Holdings;
use live_paths::Path;
use live_plans::Planned;
use live_removals::{directory_at, file_at, let_go, removed, shortened, unlinked, unnamed};
use metadata::Metadata;
use std::alloc::Global;
use std::process::Abort;
use updates::{Cell, Change, Update};

/// The bytes that differ from a fresh image of one group of 32 blocks and 16 inodes: the block, the byte, the value. The
/// root, in block 4, names directory 3 "a", file 4 "f", file 5 "g", directory 6 "d" and directory 7 "e" in its slots from
/// 2 on. Directory 3, in block 5, names file 4 "f" in slot 2. File 4 is empty. File 5 has 13 blocks, in blocks 6 to 17 and
/// 19, and its indirect block is block 18. Directory 6, in block 20, and directory 7, in block 21, have their dots alone;
/// directory 7 has a link too many. File 8 has no name, and 1,025 bytes in blocks 22 and 23.
const CHANGES: [(u32, usize, u8); 79] = [
    (2, 256, 2),
    (2, 258, 5),
    (2, 261, 4),
    (2, 264, 4),
    (2, 384, 2),
    (2, 386, 2),
    (2, 389, 4),
    (2, 392, 5),
    (2, 512, 1),
    (2, 514, 2),
    (2, 640, 1),
    (2, 642, 1),
    (2, 645, 52),
    (2, 648, 6),
    (2, 652, 7),
    (2, 656, 8),
    (2, 660, 9),
    (2, 664, 10),
    (2, 668, 11),
    (2, 672, 12),
    (2, 676, 13),
    (2, 680, 14),
    (2, 684, 15),
    (2, 688, 16),
    (2, 692, 17),
    (2, 696, 18),
    (2, 768, 2),
    (2, 770, 2),
    (2, 773, 4),
    (2, 776, 20),
    (2, 896, 2),
    (2, 898, 3),
    (2, 901, 4),
    (2, 904, 21),
    (3, 0, 1),
    (3, 4, 1),
    (3, 5, 4),
    (3, 8, 22),
    (3, 12, 23),
    (4, 128, 3),
    (4, 132, 1),
    (4, 136, 97),
    (4, 192, 4),
    (4, 196, 1),
    (4, 200, 102),
    (4, 256, 5),
    (4, 260, 1),
    (4, 264, 103),
    (4, 320, 6),
    (4, 324, 1),
    (4, 328, 100),
    (4, 384, 7),
    (4, 388, 1),
    (4, 392, 101),
    (5, 0, 3),
    (5, 4, 1),
    (5, 8, 46),
    (5, 64, 2),
    (5, 68, 2),
    (5, 72, 46),
    (5, 73, 46),
    (5, 128, 4),
    (5, 132, 1),
    (5, 136, 102),
    (18, 0, 19),
    (20, 0, 6),
    (20, 4, 1),
    (20, 8, 46),
    (20, 64, 2),
    (20, 68, 2),
    (20, 72, 46),
    (20, 73, 46),
    (21, 0, 7),
    (21, 4, 1),
    (21, 8, 46),
    (21, 64, 2),
    (21, 68, 2),
    (21, 72, 46),
    (21, 73, 46),
];

/// What an update does.
#[derive(Clone, Copy, Debug, PartialEq, Eq)]
enum Step {
    /// A record gets this mode, so many links and this size.
    Record(u32, u16, u16, u32),
    /// The bit of a number is cleared.
    Number(u32),
    /// The bit of a block is cleared.
    Bit(u32),
    /// This slot of a block is emptied.
    Slot(u32, usize),
    /// Anything else.
    Other,
}

/// What an update does, and the cell that it comes after.
type Done = (Step, Option<Cell>);

/// What is done to the image.
#[derive(Clone, Copy)]
enum Act<'a> {
    /// A name goes, and its file where nothing else holds it.
    Unlink(&'a [u8]),
    /// A name of an open file goes.
    UnlinkOpen(&'a [u8]),
    /// A directory goes.
    RemoveDirectory(&'a [u8]),
    /// File 5 gets this size.
    Shorten(u32),
    /// The first of two handles on a file is closed.
    CloseFirst(u32),
    /// The second one is, once the first is closed.
    CloseSecond(u32),
    /// The only one is.
    CloseOnly(u32),
}

/// The metadata of this image.
fn image(alloc: Global) -> Result<Metadata, Refusal> {
    let geometry = Geometry::new(1, 32, 16)?;
    let mut device = MemDevice::formatted(alloc, &geometry, &CHANGES)?;
    Ok(Metadata::new(alloc, load(alloc, &mut device)?)?)
}

/// Its updates, where no block is held for a snapshot.
fn updates_of(planned: Planned) -> Result<Vec<Update>, Refusal> {
    let Planned { plan, holds } = planned;
    if !holds.is_empty() {
        return Err(Refusal::Damaged);
    }
    Ok(plan.into_updates())
}

/// Nothing is open.
fn nothing_open(alloc: Global, metadata: &Metadata) -> Result<Holdings, Refusal> {
    Ok(Holdings::new(alloc, &metadata.frozen().geometry())?)
}

/// Opens one more handle on a number.
fn open_on(holdings: &mut Holdings, number: u32) -> Result<u32, Refusal> {
    match holdings.free_handle() {
        Some(handle) => {
            holdings.open(handle, number)?;
            Ok(handle)
        }
        None => Err(Refusal::TooManyOpen),
    }
}

/// The updates of an unlink.
fn unlinking(alloc: Global, metadata: &Metadata, path: &[u8]) -> Result<Vec<Update>, Refusal> {
    let parsed = Path::parse(path)?;
    let found = file_at(metadata.frozen(), &parsed)?;
    let holdings = nothing_open(alloc, metadata)?;
    updates_of(unlinked(alloc, metadata, &holdings, &found)?)
}

/// The updates of an unlink of an open file, where the file has a link.
fn unnaming(alloc: Global, metadata: &Metadata, path: &[u8]) -> Result<Vec<Update>, Refusal> {
    let parsed = Path::parse(path)?;
    let found = file_at(metadata.frozen(), &parsed)?;
    if !metadata.frozen().is_sound_at(found.number)
        || metadata.frozen().record(found.number).links == 0
    {
        return Err(Refusal::Damaged);
    }
    Ok(unnamed(alloc, metadata, &found)?.into_updates())
}

/// The updates of the removal of a directory, where the parent has a link.
fn removing(alloc: Global, metadata: &Metadata, path: &[u8]) -> Result<Vec<Update>, Refusal> {
    let parsed = Path::parse(path)?;
    let found = directory_at(metadata.frozen(), &parsed)?;
    if metadata.frozen().record(found.directory).links == 0 {
        return Err(Refusal::Damaged);
    }
    let holdings = nothing_open(alloc, metadata)?;
    updates_of(removed(alloc, metadata, &holdings, &found)?)
}

/// The updates of a close of a handle on a sound file.
fn closing(
    alloc: Global,
    metadata: &Metadata,
    holdings: &Holdings,
    handle: u32,
) -> Result<Vec<Update>, Refusal> {
    match holdings.file_of(handle) {
        Some(number) if metadata.frozen().is_sound_at(number) => {
            updates_of(let_go(alloc, metadata, holdings, handle, number)?)
        }
        _ => Err(Refusal::BadHandle),
    }
}

/// The updates of a close of one of two handles on a file; of the second one, once the first is closed.
fn closing_of_two(
    alloc: Global,
    metadata: &Metadata,
    number: u32,
    is_second: bool,
) -> Result<Vec<Update>, Refusal> {
    let mut holdings = nothing_open(alloc, metadata)?;
    let handle = opened_twice(&mut holdings, number, is_second)?;
    closing(alloc, metadata, &holdings, handle)
}

/// The first of two handles on a number; or the second one, and then the first is closed.
fn opened_twice(holdings: &mut Holdings, number: u32, is_second: bool) -> Result<u32, Refusal> {
    let first = open_on(holdings, number)?;
    let second = open_on(holdings, number)?;
    if is_second {
        holdings.close(Some(first));
        return Ok(second);
    }
    Ok(first)
}

/// The updates of a close of the only handle on a file.
fn closing_of_one(alloc: Global, metadata: &Metadata, number: u32) -> Result<Vec<Update>, Refusal> {
    let mut holdings = nothing_open(alloc, metadata)?;
    let handle = open_on(&mut holdings, number)?;
    closing(alloc, metadata, &holdings, handle)
}

/// The updates by which a sound file gets a size.
fn shortening(
    alloc: Global,
    metadata: &Metadata,
    number: u32,
    size: u32,
) -> Result<Vec<Update>, Refusal> {
    if !metadata.frozen().is_sound_at(number) {
        return Err(Refusal::Damaged);
    }
    let holdings = nothing_open(alloc, metadata)?;
    updates_of(shortened(alloc, metadata, &holdings, number, size)?)
}

/// The updates of what is done.
fn updates_by(alloc: Global, metadata: &Metadata, act: Act<'_>) -> Result<Vec<Update>, Refusal> {
    match act {
        Act::Unlink(path) => unlinking(alloc, metadata, path),
        Act::UnlinkOpen(path) => unnaming(alloc, metadata, path),
        Act::RemoveDirectory(path) => removing(alloc, metadata, path),
        Act::Shorten(size) => shortening(alloc, metadata, 5, size),
        Act::CloseFirst(number) => closing_of_two(alloc, metadata, number, false),
        Act::CloseSecond(number) => closing_of_two(alloc, metadata, number, true),
        Act::CloseOnly(number) => closing_of_one(alloc, metadata, number),
    }
}

/// The slot without which two blocks are the same, and which is empty in the second one.
fn emptied_slot(old: &Block, new: &Block) -> Option<usize> {
    for slot in 0..SLOTS {
        let mut block = *old;
        replace(&mut block, slot, &[0; SLOT_BYTES]);
        if block == *new {
            return Some(slot);
        }
    }
    None
}

/// What a change does.
fn step_of(metadata: &Metadata, change: &Change) -> Step {
    match change {
        Change::SetInode(number, record) => {
            Step::Record(*number, record.mode, record.links, record.size)
        }
        Change::SetNumber(number, false) => Step::Number(*number),
        Change::SetBlock(address, false) => Step::Bit(*address),
        Change::SetBytes(address, bytes) => match metadata.frozen().block(*address) {
            Some(old) => match emptied_slot(old, bytes) {
                Some(slot) => Step::Slot(*address, slot),
                None => Step::Other,
            },
            None => Step::Other,
        },
        _ => Step::Other,
    }
}

/// What updates of a file do, each after one cell at most.
fn steps(
    alloc: Global,
    metadata: &Metadata,
    updates: &[Update],
    file: u32,
) -> Result<Vec<Done>, Refusal> {
    let mut steps = Vec::new(alloc);
    for update in updates {
        if update.file != Some(file) || update.after.len() > 1 {
            return Err(Refusal::Damaged);
        }
        let after = update.after.first().copied();
        steps.push((step_of(metadata, &update.change), after))?;
    }
    Ok(steps)
}

/// What is done of a file by an act on this metadata.
fn done_on(
    alloc: Global,
    metadata: &Metadata,
    act: Act<'_>,
    file: u32,
) -> Result<Vec<Done>, Refusal> {
    let updates = updates_by(alloc, metadata, act)?;
    steps(alloc, metadata, updates.as_slice(), file)
}

/// What is done of a file by an act on the image.
fn done_by(alloc: Global, act: Act<'_>, file: u32) -> Result<Vec<Done>, Refusal> {
    let metadata = image(alloc)?;
    done_on(alloc, &metadata, act, file)
}

/// Aborts unless an act on the image does this of a file.
fn expect(
    rt: &(impl AllocGlobal + Abort),
    act: Act<'_>,
    file: u32,
    wanted: &[Done],
) -> Result<(), Refusal> {
    let done = done_by(rt.alloc(), act, file)?;
    assert_eq!(rt; done.as_slice(), wanted);
    Ok(())
}

/// Aborts unless the metadata can be had, and an act on the image is refused so.
fn expect_refusal(
    rt: &(impl AllocGlobal + Abort),
    act: Act<'_>,
    refusal: Refusal,
) -> Result<(), Refusal> {
    let metadata = image(rt.alloc())?;
    let refused = updates_by(rt.alloc(), &metadata, act).err();
    assert_eq!(rt; refused, Some(refusal));
    Ok(())
}

#[test]
fn a_file_loses_one_of_two_names(rt: HostRuntime) -> Result<(), Refusal> {
    let wanted = [
        (Step::Slot(5, 2), None),
        (Step::Record(4, 1, 1, 0), Some(Cell::Block(5))),
    ];
    expect(&rt, Act::Unlink(b"/a/f"), 4, &wanted)
}

#[test]
fn a_file_goes_with_its_last_name(rt: HostRuntime) -> Result<(), Refusal> {
    let record = Some(Cell::Record(5));
    let wanted = [
        (Step::Slot(4, 4), None),
        (Step::Record(5, 0, 0, 0), Some(Cell::Block(4))),
        (Step::Number(5), record),
        (Step::Bit(6), record),
        (Step::Bit(7), record),
        (Step::Bit(8), record),
        (Step::Bit(9), record),
        (Step::Bit(10), record),
        (Step::Bit(11), record),
        (Step::Bit(12), record),
        (Step::Bit(13), record),
        (Step::Bit(14), record),
        (Step::Bit(15), record),
        (Step::Bit(16), record),
        (Step::Bit(17), record),
        (Step::Bit(19), record),
        (Step::Bit(18), record),
    ];
    expect(&rt, Act::Unlink(b"/g"), 5, &wanted)
}

#[test]
fn an_open_file_stays_without_a_name(rt: HostRuntime) -> Result<(), Refusal> {
    let wanted = [
        (Step::Slot(4, 4), None),
        (Step::Record(5, 1, 0, 13_312), Some(Cell::Block(4))),
    ];
    expect(&rt, Act::UnlinkOpen(b"/g"), 5, &wanted)
}

#[test]
fn a_file_without_a_name_goes_with_its_last_handle(rt: HostRuntime) -> Result<(), Refusal> {
    let record = Some(Cell::Record(8));
    let wanted = [
        (Step::Record(8, 0, 0, 0), None),
        (Step::Number(8), record),
        (Step::Bit(22), record),
        (Step::Bit(23), record),
    ];
    expect(&rt, Act::CloseFirst(8), 8, &[])?;
    expect(&rt, Act::CloseSecond(8), 8, &wanted)
}

#[test]
fn a_file_with_a_name_stays_without_a_handle(rt: HostRuntime) -> Result<(), Refusal> {
    expect(&rt, Act::CloseOnly(5), 5, &[])
}

/// Aborts unless file 5 can get this size, and then the bits of these blocks are cleared.
fn expect_shortened(
    rt: &(impl AllocGlobal + Abort),
    size: u32,
    blocks: &[u32],
) -> Result<(), Refusal> {
    let mut wanted = vec![in rt.alloc(); (Step::Record(5, 1, 1, size), None)]?;
    for block in blocks {
        wanted.push((Step::Bit(*block), Some(Cell::Record(5))))?;
    }
    expect(rt, Act::Shorten(size), 5, wanted.as_slice())
}

#[test]
fn the_blocks_behind_a_size_go(rt: HostRuntime) -> Result<(), Refusal> {
    // All 13 blocks are left, the last one in part, and then 12, which need no indirect block, 2 and none.
    let of_sizes: [(u32, &[u32]); 5] = [
        (13_312, &[]),
        (12_289, &[]),
        (12_288, &[19, 18]),
        (1_025, &[8, 9, 10, 11, 12, 13, 14, 15, 16, 17, 19, 18]),
        (0, &[6, 7, 8, 9, 10, 11, 12, 13, 14, 15, 16, 17, 19, 18]),
    ];
    for (size, blocks) in of_sizes {
        expect_shortened(&rt, size, blocks)?;
    }
    Ok(())
}

#[test]
fn a_directory_goes_with_its_block(rt: HostRuntime) -> Result<(), Refusal> {
    let wanted = [
        (Step::Slot(4, 5), Some(Cell::Block(20))),
        (Step::Record(6, 0, 0, 0), Some(Cell::Block(4))),
        (Step::Number(6), Some(Cell::Record(6))),
        (Step::Bit(20), Some(Cell::Record(6))),
        (Step::Record(2, 2, 4, 1024), Some(Cell::Block(4))),
    ];
    expect(&rt, Act::RemoveDirectory(b"/d"), 6, &wanted)
}

#[test]
fn a_directory_with_a_link_too_many_stays(rt: HostRuntime) -> Result<(), Refusal> {
    let wanted = [
        (Step::Slot(4, 6), Some(Cell::Block(21))),
        (Step::Record(7, 2, 1, 1024), Some(Cell::Block(4))),
        (Step::Record(2, 2, 4, 1024), Some(Cell::Block(4))),
    ];
    expect(&rt, Act::RemoveDirectory(b"/e"), 7, &wanted)
}

#[test]
fn each_cause_refuses(rt: HostRuntime) -> Result<(), Refusal> {
    let refused: [(Act<'static>, Refusal); 12] = [
        (Act::Unlink(b"a"), Refusal::BadName),
        (Act::Unlink(b"/"), Refusal::IsRoot),
        (Act::Unlink(b"/x"), Refusal::NotFound),
        (Act::Unlink(b"/x/y"), Refusal::NotFound),
        (Act::Unlink(b"/f/y"), Refusal::NotDirectory),
        (Act::Unlink(b"/a"), Refusal::IsDirectory),
        (Act::RemoveDirectory(b"/d/"), Refusal::BadName),
        (Act::RemoveDirectory(b"/"), Refusal::IsRoot),
        (Act::RemoveDirectory(b"/a/x"), Refusal::NotFound),
        (Act::RemoveDirectory(b"/f/y"), Refusal::NotDirectory),
        (Act::RemoveDirectory(b"/a/f"), Refusal::NotDirectory),
        (Act::RemoveDirectory(b"/a"), Refusal::NotEmpty),
    ];
    for (act, refusal) in refused {
        expect_refusal(&rt, act, refusal)?;
    }
    Ok(())
}
