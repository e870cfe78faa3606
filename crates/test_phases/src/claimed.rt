use crate::expect::same;
use device::{Device, MemDevice};
use findings::{Finding, OfGroup, in_order};
use frozen::{Frozen, load};
use inode::{ATTRIBUTES, DIRECT_POINTERS, FILE, RECORD_BYTES, Record};
use layout::{BLOCK_BYTES, Geometry, INODES_PER_BLOCK, Refusal};
use phase_blocks::{BlockOwners, Claim, Part, owners, part};
use std::alloc::Global;
use std::process::Abort;
use std::test::Fail;

/// Writes the record of an inode.
fn write_record(
    device: &mut MemDevice,
    geometry: &Geometry,
    number: u32,
    record: &Record,
) -> Result<(), Refusal> {
    if number >= geometry.inodes() || device.blocks() != geometry.blocks() {
        return Err(Refusal::BadIndex);
    }
    let address = geometry.inode_place(number).address;
    let mut block = [0; BLOCK_BYTES];
    device.read(address, &mut block)?;
    let (records, _) = block.as_chunks_mut::<RECORD_BYTES>();
    let place = (number % INODES_PER_BLOCK) as usize;
    record.write(geometry.version(), &mut records[place]);
    device.write(address, &block)?;
    Ok(())
}

/// A file with this size, these first three direct pointers and this indirect pointer.
fn file(size: u32, pointers: [u32; 3], indirect: u32) -> Record {
    let mut direct = [0; DIRECT_POINTERS];
    direct[0] = pointers[0];
    direct[1] = pointers[1];
    direct[2] = pointers[2];
    Record {
        mode: FILE,
        links: 1,
        size,
        direct,
        indirect,
        double: 0,
        attributes: [0; ATTRIBUTES],
    }
}

/// A claim of a block by an inode, at a position.
fn claim(block: u32, inode: u32, position: u32) -> Claim {
    Claim {
        block,
        inode,
        position,
    }
}

/// An inode's number and its record.
type Numbered = (u32, Record);

/// Writes these records.
fn write_records(
    device: &mut MemDevice,
    geometry: &Geometry,
    records: &[Numbered],
) -> Result<(), Refusal> {
    for (number, record) in records {
        write_record(device, geometry, *number, record)?;
    }
    Ok(())
}

/// What is kept of an image of two groups, each of 16 blocks and 16 inodes, fresh but for these records: its data blocks
/// are 4 to 16 and 20 to 32, and the root claims block 4.
fn image_with(alloc: Global, records: &[Numbered]) -> Result<Frozen, Refusal> {
    let geometry = Geometry::new(2, 16, 16)?;
    let mut device = MemDevice::formatted(alloc, &geometry, &[])?;
    match write_records(&mut device, &geometry, records) {
        Ok(()) => load(alloc, &mut device),
        Err(refusal) => Err(refusal),
    }
}

/// What both groups claim.
fn parts(alloc: Global, frozen: &Frozen) -> Result<Vec<Part>, Refusal> {
    let mut parts = Vec::new(alloc);
    for unit in 0..2 {
        parts.push(part(alloc, frozen, unit)?)?;
    }
    Ok(parts)
}

/// The owners of the first six data blocks of a group.
fn first_six(owners: &BlockOwners) -> [Option<Claim>; 6] {
    [
        owners.of(0),
        owners.of(1),
        owners.of(2),
        owners.of(3),
        owners.of(4),
        owners.of(5),
    ]
}

/// What is found of claims, and who owns the first six data blocks of a group.
type Looked = (Vec<Finding>, [Option<Claim>; 6]);

/// What is found of one group.
fn look_at(alloc: Global, frozen: &Frozen, parts: &[Part], unit: u32) -> Result<Looked, Refusal> {
    let OfGroup { kept, found } = owners(alloc, frozen, parts, unit)?;
    Ok((found, first_six(&kept)))
}

/// What is found of both groups, with the owners of the second one.
fn look(alloc: Global, frozen: &Frozen) -> Result<Looked, Refusal> {
    let parts = parts(alloc, frozen)?;
    let (mut found, _) = look_at(alloc, frozen, parts.as_slice(), 0)?;
    let (mut more, owned) = look_at(alloc, frozen, parts.as_slice(), 1)?;
    found.append(&mut more)?;
    Ok((in_order(found)?, owned))
}

/// Expects these findings on the image with these records, and these owners of the first six data blocks of the second
/// group, where they are asked for.
fn expect_found<R: AllocGlobal + Abort>(
    rt: &R,
    records: &[Numbered],
    wanted: &[Finding],
    owners: Option<[Option<Claim>; 6]>,
) -> Result<(), Refusal> {
    let frozen = image_with(rt.alloc(), records)?;
    let (found, owned) = look(rt.alloc(), &frozen)?;
    same(rt, "found", found.as_slice(), wanted);
    if let Some(owners) = owners {
        same(rt, "owners", owned, owners);
    }
    Ok(())
}

#[test]
fn nothing_is_found_on_a_fresh_image(rt: HostRuntime) -> Result<(), Fail> {
    expect_found(&rt, &[], &[], Some([None; 6]))?;
    Ok(())
}

/// What is found where inode 5 is of no kind, inode 3 has pointers to no data blocks, and inode 16 claims blocks that are
/// claimed already.
const BAD: &[Finding] = &[
    Finding::BadInode(5),
    Finding::BadPointer(3, 1, 0),
    Finding::BadPointer(3, 2, 17),
    Finding::BadPointer(16, 3, 0),
    Finding::BadPointer(16, 4, 0),
    Finding::BadPointer(16, 5, 0),
    Finding::BadPointer(16, 6, 0),
    Finding::BadPointer(16, 7, 0),
    Finding::BadPointer(16, 8, 0),
    Finding::BadPointer(16, 9, 0),
    Finding::BadPointer(16, 10, 0),
    Finding::BadPointer(16, 11, 0),
    Finding::BadPointer(16, 268, 33),
    Finding::Duplicate(16, 0, 20),
    Finding::Duplicate(16, 1, 4),
    Finding::Duplicate(16, 2, 20),
];

#[test]
fn bad_records_pointers_and_duplicates_are_found(rt: HostRuntime) -> Result<(), Fail> {
    let mut bad_mode = file(0, [0; 3], 0);
    bad_mode.mode = 3;
    let records = [
        (5, bad_mode),
        // Its last two blocks are no data blocks.
        (3, file(3 * 1024, [20, 0, 17], 9)),
        // It claims the blocks of the root and of inode 3, and one of them twice. Its indirect pointer is looked at.
        (16, file(13 * 1024, [20, 4, 20], 33)),
    ];
    expect_found(&rt, &records, BAD, None)?;
    Ok(())
}

#[test]
fn all_but_the_first_of_three_claims_are_duplicates(rt: HostRuntime) -> Result<(), Fail> {
    let records = [
        (17, file(1024, [21, 0, 0], 0)),
        (6, file(2 * 1024, [22, 21, 0], 0)),
        (3, file(3 * 1024, [23, 24, 21], 0)),
    ];
    let wanted = [Finding::Duplicate(6, 1, 21), Finding::Duplicate(17, 0, 21)];
    let owners = [
        None,
        Some(claim(21, 3, 2)),
        Some(claim(22, 6, 0)),
        Some(claim(23, 3, 0)),
        Some(claim(24, 3, 1)),
        None,
    ];
    expect_found(&rt, &records, &wanted, Some(owners))?;
    Ok(())
}
