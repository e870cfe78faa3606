//! Small images, made by changes of a fresh one.
use device::{Before, MemDevice, format};
use dirent::SLOT_BYTES;
use findings::Finding;
use frozen::{Frozen, load};
use fsck::{Checked, check_one};
use inode::{ATTRIBUTES, DIRECT_POINTERS, DIRECTORY, FILE, RECORD_BYTES, Record};
use layout::{BLOCK_BYTES, Block, DOUBLE, Geometry, Refusal, SINGLE, fresh_block};
use std::alloc::Global;
use std::sync::Arc;
use std::thread::Threads;

/// The versions of the layout.
pub(crate) const VERSIONS: [u32; 2] = [SINGLE, DOUBLE];

/// The position of the indirect block in version 1.
const INDIRECT_POSITION: u32 = 268;

/// A change of an image.
#[derive(Clone, Copy)]
pub(crate) enum Change {
    /// An inode has a record of this mode and size. Its first pointers are these, and the others are 0.
    Inode {
        number: u32,
        mode: u16,
        size: u32,
        direct: &'static [u32],
        indirect: u32,
    },
    /// An inode is a file: its number, size and first direct pointers.
    File(u32, u32, &'static [u32]),
    /// An inode is a file of 13 blocks: its number, direct pointers and indirect pointer.
    LargeFile(u32, &'static [u32], u32),
    /// A slot of an indirect block has this value: the block, the slot and the value.
    Pointer(u32, usize, u32),
    /// Slots of an indirect block have these values, from this one on, each one more than the one before.
    Pointers {
        block: u32,
        slot: usize,
        first: u32,
        count: u32,
    },
    /// Data blocks are marked, from the first address to the last.
    Marked(u32, u32),
    /// A data block is not marked.
    Unmarked(u32),
    /// An inode is marked.
    Number(u32),
    /// An inode is not marked.
    NoNumber(u32),
    /// An inode is a directory: its number, links, and the blocks that it has.
    Directory(u32, u16, &'static [u32]),
    /// An inode is a directory of 13 blocks: its number, links, direct pointers and indirect pointer.
    LargeDirectory(u32, u16, &'static [u32], u32),
    /// An inode has this many links.
    Links(u32, u16),
    /// The first two slots of a block are the dots: the block, the directory's number and its parent's.
    Dots(u32, u32, u32),
    /// A slot is an entry: the block, the slot in it, the number and the name.
    Entry(u32, usize, u32, &'static [u8]),
    /// A byte of the image has this value.
    Byte(usize, u8),
}

/// Which findings are asked for.
#[derive(Clone, Copy, PartialEq, Eq)]
pub(crate) enum Wanted {
    /// Those of all phases.
    All,
    /// Those of the blocks that inodes use and of the maps, which are phases 1 and 5.
    UsedBlocks,
}

/// A fresh image with these changes, checked.
pub(crate) fn checked<R: Threads + AllocGlobal + Sync>(
    rt: &R,
    geometry: &Geometry,
    changes: &[Change],
) -> Result<Checked, Refusal> {
    let alloc = rt.alloc();
    check_one(rt, alloc, &changed(alloc, geometry, changes)?)
}

/// What is kept of a fresh image with these changes.
pub(crate) fn changed(
    alloc: Global,
    geometry: &Geometry,
    changes: &[Change],
) -> Result<Arc<Frozen>, Refusal> {
    let mut bytes = fresh_bytes(alloc, geometry)?;
    for change in changes {
        apply(&mut bytes, geometry, change)?;
    }
    let mut device = MemDevice::from_bytes(alloc, bytes.as_slice())?;
    Ok(Arc::new(alloc, load(alloc, &mut device)?)?)
}

/// What a check finds on a fresh image with these changes: a line for each finding that is wanted, with the positions of version 1
/// of the layout.
pub(crate) fn found<R: Threads + AllocGlobal + Sync>(
    rt: &R,
    geometry: &Geometry,
    changes: &[Change],
    wanted: Wanted,
) -> Result<String, Refusal> {
    let checked = checked(rt, geometry, changes)?;
    let mut lines = String::new(rt.alloc());
    for finding in checked.findings() {
        if wanted == Wanted::All || is_of_used_blocks(finding) {
            let told = told(geometry, finding);
            writeln!(lines, "{told}")?;
        }
    }
    Ok(lines)
}

/// A finding as it is told of an image of version 1, in which the indirect block stands at another position.
fn told(geometry: &Geometry, finding: &Finding) -> Finding {
    match *finding {
        Finding::BadPointer(inode, position, value) if position == geometry.most_blocks() => {
            Finding::BadPointer(inode, INDIRECT_POSITION, value)
        }
        Finding::Duplicate(inode, position, block) if position == geometry.most_blocks() => {
            Finding::Duplicate(inode, INDIRECT_POSITION, block)
        }
        other => other,
    }
}

/// Whether a finding is of phase 1 or of phase 5.
fn is_of_used_blocks(finding: &Finding) -> bool {
    matches!(
        finding,
        Finding::BadInode(_)
            | Finding::BadPointer(..)
            | Finding::Duplicate(..)
            | Finding::LostBlock(_)
            | Finding::UnmarkedBlock(_)
            | Finding::LostNumber(_)
            | Finding::UnmarkedInode(_)
    )
}

/// The bytes of a fresh image.
fn fresh_bytes(alloc: Global, geometry: &Geometry) -> Result<Vec<u8>, Refusal> {
    let mut bytes = Vec::new(alloc);
    let mut block: Block = [0; BLOCK_BYTES];
    for address in 0..geometry.blocks() {
        fresh_block(geometry, address, &mut block);
        bytes.extend_from_slice(&block)?;
    }
    Ok(bytes)
}

/// Makes one change.
fn apply(bytes: &mut Vec<u8>, geometry: &Geometry, change: &Change) -> Result<(), Refusal> {
    match *change {
        Change::Pointer(block, slot, value) => set_pointers(bytes, slot_at(block, slot), value, 1),
        Change::Pointers {
            block,
            slot,
            first,
            count,
        } => set_pointers(bytes, slot_at(block, slot), first, count),
        Change::Marked(first, last) => mark_blocks(bytes, geometry, first, last),
        Change::Unmarked(address) => mark_block(bytes, geometry, address, false),
        Change::Number(number) => mark_number(bytes, geometry, number, true),
        Change::NoNumber(number) => mark_number(bytes, geometry, number, false),
        Change::Links(number, links) => set_links(bytes, geometry, number, links),
        Change::Dots(block, directory, parent) => {
            set_entry(bytes, block, 0, directory, b".")?;
            set_entry(bytes, block, 1, parent, b"..")
        }
        Change::Entry(block, slot, number, name) => set_entry(bytes, block, slot, number, name),
        Change::Byte(at, value) => put(bytes, at, &[value]),
        _ => apply_record(bytes, geometry, change),
    }
}

/// Makes a change of a whole record.
fn apply_record(bytes: &mut Vec<u8>, geometry: &Geometry, change: &Change) -> Result<(), Refusal> {
    match *change {
        Change::Inode {
            number,
            mode,
            size,
            direct,
            indirect,
        } => set_record(
            bytes,
            geometry,
            number,
            &record(mode, 1, size, direct, indirect),
        ),
        Change::File(number, size, direct) => {
            set_record(bytes, geometry, number, &record(FILE, 1, size, direct, 0))
        }
        Change::LargeFile(number, direct, indirect) => set_record(
            bytes,
            geometry,
            number,
            &record(FILE, 1, 13_312, direct, indirect),
        ),
        Change::Directory(number, links, direct) => set_record(
            bytes,
            geometry,
            number,
            &record(DIRECTORY, links, size_of_blocks(direct), direct, 0),
        ),
        Change::LargeDirectory(number, links, direct, indirect) => set_record(
            bytes,
            geometry,
            number,
            &record(DIRECTORY, links, 13_312, direct, indirect),
        ),
        _ => Ok(()),
    }
}

/// How many bytes these blocks have.
fn size_of_blocks(blocks: &[u32]) -> u32 {
    let mut size: u32 = 0;
    for _ in blocks {
        size = size.saturating_add(1024);
    }
    size
}

/// A record with these first pointers, and zeroes for the other direct ones.
fn record(mode: u16, links: u16, size: u32, direct: &[u32], indirect: u32) -> Record {
    Record {
        mode,
        links,
        size,
        direct: pointers(direct),
        indirect,
        double: 0,
        attributes: [0; ATTRIBUTES],
    }
}

/// The byte of an image where a slot of an indirect block begins.
fn slot_at(block: u32, slot: usize) -> usize {
    byte_of(block).saturating_add(slot.saturating_mul(4))
}

/// The byte of an image where a block begins.
fn byte_of(block: u32) -> usize {
    block as usize * BLOCK_BYTES
}

/// These pointers, and zeroes.
fn pointers(first: &[u32]) -> [u32; DIRECT_POINTERS] {
    let mut all = [0; DIRECT_POINTERS];
    for (to, from) in all.iter_mut().zip(first) {
        *to = *from;
    }
    all
}

/// Puts bytes into an image.
fn put(bytes: &mut Vec<u8>, at: usize, values: &[u8]) -> Result<(), Refusal> {
    for (index, value) in values.iter().enumerate() {
        let Some(byte) = bytes.get_mut(at.saturating_add(index)) else {
            return Err(Refusal::BadIndex);
        };
        *byte = *value;
    }
    Ok(())
}

/// Puts the record of an inode.
fn set_record(
    bytes: &mut Vec<u8>,
    geometry: &Geometry,
    number: u32,
    inode: &Record,
) -> Result<(), Refusal> {
    if number >= geometry.inodes() {
        return Err(Refusal::BadIndex);
    }
    let place = geometry.inode_place(number);
    let mut record = [0; RECORD_BYTES];
    inode.write(geometry.version(), &mut record);
    put(
        bytes,
        byte_of(place.address).saturating_add(place.byte),
        &record,
    )
}

/// Puts the links of an inode into its record.
fn set_links(
    bytes: &mut Vec<u8>,
    geometry: &Geometry,
    number: u32,
    links: u16,
) -> Result<(), Refusal> {
    if number >= geometry.inodes() {
        return Err(Refusal::BadIndex);
    }
    let place = geometry.inode_place(number);
    let at = byte_of(place.address).saturating_add(place.byte);
    put(bytes, at.saturating_add(2), &links.to_le_bytes())
}

/// Puts an entry into a slot of a block: its number, the length of its name, and the name.
fn set_entry(
    bytes: &mut Vec<u8>,
    block: u32,
    slot: usize,
    number: u32,
    name: &[u8],
) -> Result<(), Refusal> {
    let at = byte_of(block).saturating_add(slot.saturating_mul(SLOT_BYTES));
    let length = u8::try_from(name.len()).map_err(|_| Refusal::BadName)?;
    put(bytes, at, &number.to_le_bytes())?;
    put(bytes, at.saturating_add(4), &[length])?;
    put(bytes, at.saturating_add(8), name)
}

/// Puts numbers of four bytes that count up.
fn set_pointers(bytes: &mut Vec<u8>, at: usize, first: u32, count: u32) -> Result<(), Refusal> {
    for step in 0..count {
        let value = first.saturating_add(step);
        put(
            bytes,
            at.saturating_add(4 * step as usize),
            &value.to_le_bytes(),
        )?;
    }
    Ok(())
}

/// Marks data blocks.
fn mark_blocks(
    bytes: &mut Vec<u8>,
    geometry: &Geometry,
    first: u32,
    last: u32,
) -> Result<(), Refusal> {
    for address in first..=last {
        mark_block(bytes, geometry, address, true)?;
    }
    Ok(())
}

/// Marks a data block, or takes its mark.
fn mark_block(
    bytes: &mut Vec<u8>,
    geometry: &Geometry,
    address: u32,
    is_set: bool,
) -> Result<(), Refusal> {
    let place = geometry.place_of(address).ok_or(Refusal::BadIndex)?;
    let maps = geometry.group_block(place.group);
    set_bit(bytes, byte_of(maps).saturating_add(160), place.bit, is_set)
}

/// Marks an inode, or takes its mark.
fn mark_number(
    bytes: &mut Vec<u8>,
    geometry: &Geometry,
    number: u32,
    is_set: bool,
) -> Result<(), Refusal> {
    if number >= geometry.inodes() {
        return Err(Refusal::BadIndex);
    }
    let maps = geometry.group_block(geometry.group_of(number));
    let bit = number % geometry.inodes_a_group();
    set_bit(bytes, byte_of(maps).saturating_add(32), bit, is_set)
}

/// Sets or clears a bit of the map that begins at this byte.
fn set_bit(bytes: &mut Vec<u8>, map: usize, bit: u32, is_set: bool) -> Result<(), Refusal> {
    let Some(byte) = bytes.get_mut(map.saturating_add(bit as usize / 8)) else {
        return Err(Refusal::BadIndex);
    };
    let mask = 1 << (bit % 8);
    *byte = if is_set { *byte | mask } else { *byte & !mask };
    Ok(())
}
