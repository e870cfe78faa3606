use crate::expect::{holds, same};
use device::{Device, MemDevice, set_byte};
use inode::{ATTRIBUTES, DIRECT_POINTERS, FILE, RECORD_BYTES, Record};
use layout::{BLOCK_BYTES, DOUBLE, Geometry, INODES_PER_BLOCK, Refusal};
use pictures::{Picture, Use, draw, look};
use std::test::Fail;
use std::thread::Threads;

/// What the blocks of the image of `used` are used for.
const CELLS: &[Use] = &[
    Use::Maps,
    Use::Maps,
    Use::Inodes,
    Use::Inodes,
    Use::Directory,
    Use::File,
    Use::File,
    Use::Free,
    Use::Free,
    Use::Free,
    Use::Lost,
    Use::Free,
    Use::Free,
    Use::Free,
    Use::Free,
    Use::Free,
    Use::Free,
    Use::Maps,
    Use::Inodes,
    Use::Inodes,
    Use::Duplicate,
    Use::File,
    Use::Indirect,
    Use::File,
    Use::Free,
    Use::Free,
    Use::Free,
    Use::Free,
    Use::Free,
    Use::Free,
    Use::Free,
    Use::Free,
    Use::Free,
];

/// The record of a file with this size, these first three direct pointers and this indirect pointer.
fn record_of(size: u32, pointers: [u32; 3], indirect: u32) -> Record {
    let mut direct = [0; DIRECT_POINTERS];
    direct[0] = pointers[0];
    direct[1] = pointers[1];
    direct[2] = pointers[2];
    Record {
        mode: FILE,
        links: 1,
        size,
        direct,
        indirect,
        double: 0,
        attributes: [0; ATTRIBUTES],
    }
}

/// Writes the record of such a file.
fn write_file(
    device: &mut MemDevice,
    geometry: &Geometry,
    number: u32,
    size: u32,
    pointers: [u32; 3],
    indirect: u32,
) -> Result<(), Refusal> {
    if number >= geometry.inodes() || device.blocks() != geometry.blocks() {
        return Err(Refusal::BadIndex);
    }
    let record = record_of(size, pointers, indirect);
    let address = geometry.inode_place(number).address;
    let mut block = [0; BLOCK_BYTES];
    device.read(address, &mut block)?;
    let (records, _) = block.as_chunks_mut::<RECORD_BYTES>();
    let place = (number % INODES_PER_BLOCK) as usize;
    record.write(geometry.version(), &mut records[place]);
    device.write(address, &block)?;
    Ok(())
}

/// Damages an image: file 3 has blocks 5 and 6, file 16 claims 20, 21 and 20 again, and by its indirect block 22 block 23,
/// and block 10 is marked for nothing.
fn damage(device: &mut MemDevice, geometry: &Geometry) -> Result<(), Refusal> {
    write_file(device, geometry, 3, 2 * 1024, [5, 6, 0], 0)?;
    write_file(device, geometry, 16, 13 * 1024, [20, 21, 20], 22)?;
    set_byte(device, (22, 0, 23))?;
    set_byte(device, (1, 160, 65))
}

/// The picture of that image, which is else a fresh one of two groups of 16 blocks and 16 inodes: the maps stand in
/// blocks 1 and 17, the records in 2, 3, 18 and 19, and the root claims block 4.
fn used<R: AllocGlobal + Threads + Sync>(rt: &R) -> Result<Picture, Refusal> {
    let alloc = rt.alloc();
    let geometry = Geometry::new(2, 16, 16)?;
    let mut device = MemDevice::formatted(alloc, &geometry, &[])?;
    match damage(&mut device, &geometry) {
        Ok(()) => look(rt, alloc, &mut device, &mut Vec::new(alloc)),
        Err(refusal) => Err(refusal),
    }
}

#[test]
fn each_block_has_its_use(rt: HostRuntime) -> Result<(), Fail> {
    let picture = used(&rt)?;
    same(&rt, "cells", picture.cells(), CELLS);
    same(&rt, "free", picture.count(Use::Free), 18);
    Ok(())
}

/// What the blocks are used for where file 3 has the last of 269 blocks alone, block 5, by its double indirect block 6 and the
/// second-level block 7.
const BY_TABLES: &[Use] = &[
    Use::Maps,
    Use::Maps,
    Use::Inodes,
    Use::Inodes,
    Use::Directory,
    Use::File,
    Use::Indirect,
    Use::Indirect,
    Use::Free,
    Use::Free,
    Use::Free,
    Use::Free,
    Use::Free,
    Use::Free,
    Use::Free,
    Use::Free,
    Use::Free,
];

/// The bytes of record 3 and of these tables, which a fresh image has not: mode, links, size, and a pointer each.
const TABLES: &[(u32, usize, u8)] = &[
    (2, 384, 1),
    (2, 386, 1),
    (2, 389, 52),
    (2, 390, 4),
    (2, 444, 6),
    (6, 0, 7),
    (7, 0, 5),
];

#[test]
fn tables_of_version_2_have_their_use(rt: HostRuntime) -> Result<(), Fail> {
    let geometry = Geometry::new(1, 16, 16)?.with_version(DOUBLE)?;
    let mut device = MemDevice::formatted(rt.alloc(), &geometry, TABLES)?;
    let picture = look(&rt, rt.alloc(), &mut device, &mut Vec::new(rt.alloc()))?;
    same(&rt, "cells", picture.cells(), BY_TABLES);
    Ok(())
}

/// What stands in the drawing of that image.
const PARTS: &[&str] = &[
    "fill=\"#D55E00\"/><text x=\"20\" y=\"12\">duplicate 1</text></g>\n",
    ">group 1</text>",
    "<path stroke=\"#0072B2\" d=\"M1 0h2\"/>\n",
    "<path stroke=\"#E6E6E6\" d=\"M6 0h3M10 0h6\"/>\n",
    "<path stroke=\"#E69F00\" d=\"M9 0h1\"/>\n",
    "<path stroke=\"#56B4E9\" d=\"M4 0h1M6 0h1\"/>\n",
];

/// The drawing of that image.
fn drawn<R: AllocGlobal + Threads + Sync>(rt: &R) -> Result<String, Fail> {
    let picture = used(rt)?;
    Ok(draw(rt.alloc(), &picture)?)
}

#[test]
fn rows_are_drawn_by_runs(rt: HostRuntime) -> Result<(), Fail> {
    let text = drawn(&rt)?;
    let text = text.as_str();
    let start = "<svg xmlns=\"http://www.w3.org/2000/svg\" ";
    holds(&rt, start, text.starts_with(start));
    holds(&rt, "end", text.ends_with("</g>\n</svg>\n"));
    for part in PARTS {
        holds(&rt, *part, text.contains(*part));
    }
    Ok(())
}

/// Why an image has no picture whose second block of maps is not its own.
fn refused<R: AllocGlobal + Threads + Sync>(rt: &R) -> Result<Option<Refusal>, Refusal> {
    let alloc = rt.alloc();
    let mut device = MemDevice::formatted(alloc, &Geometry::new(2, 16, 16)?, &[(17, 4, 7)])?;
    Ok(look(rt, alloc, &mut device, &mut Vec::new(alloc)).err())
}

#[test]
fn what_is_no_image_has_no_picture(rt: HostRuntime) -> Result<(), Fail> {
    let refused = refused(&rt)?;
    same(&rt, "look", refused, Some(Refusal::BadGroup(1)));
    Ok(())
}
