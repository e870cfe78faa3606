use crate::expect::same;
use device::{Byte, Device, MemDevice};
use frozen::{Frozen, load};
use layout::{Geometry, Refusal};
use reading::{list, read, stat, tree};
use std::alloc::Global;
use std::process::Abort;
use std::test::Fail;
use test_images::frozen_with;

/// What differs from a fresh image of one group of 16 blocks and 16 inodes: the block, the byte, the value. The root, in
/// block 4, names file 3 "f" and directory 4 "d"; directory 4, in block 7, names the same file "g". The file has 1,500
/// bytes in blocks 5 and 6.
const CHANGES: &[Byte] = &[
    (2, 258, 3),
    (2, 384, 1),
    (2, 386, 2),
    (2, 388, 0xdc),
    (2, 389, 5),
    (2, 392, 5),
    (2, 396, 6),
    (2, 512, 2),
    (2, 514, 2),
    (2, 517, 4),
    (2, 520, 7),
    (4, 128, 3),
    (4, 132, 1),
    (4, 136, b'f'),
    (4, 192, 4),
    (4, 196, 1),
    (4, 200, b'd'),
    (5, 0, b'a'),
    (5, 1_023, b'b'),
    (6, 0, b'c'),
    (6, 475, b'd'),
    (6, 476, b'e'),
    (7, 0, 4),
    (7, 4, 1),
    (7, 8, b'.'),
    (7, 64, 2),
    (7, 68, 2),
    (7, 72, b'.'),
    (7, 73, b'.'),
    (7, 128, 3),
    (7, 132, 1),
    (7, 136, b'g'),
];

/// The device with such an image.
fn device(alloc: Global) -> Result<MemDevice, Refusal> {
    MemDevice::formatted(alloc, &Geometry::new(1, 16, 16)?, CHANGES)
}

/// What is kept of such an image.
fn image(alloc: Global) -> Result<Frozen, Refusal> {
    frozen_with(alloc, &Geometry::new(1, 16, 16)?, CHANGES)
}

/// Paths, and the number and the size of what they lead to.
const PATHS: &[(&[u8], Result<(u32, u32), Refusal>)] = &[
    (b"/", Ok((2, 1_024))),
    (b"/f", Ok((3, 1_500))),
    (b"/d", Ok((4, 1_024))),
    (b"/d/g", Ok((3, 1_500))),
    (b"/d/f", Err(Refusal::NotFound)),
    (b"/f/g", Err(Refusal::NotDirectory)),
    (b"f", Err(Refusal::BadName)),
];

#[test]
fn paths_lead_somewhere(rt: HostRuntime) -> Result<(), Fail> {
    let frozen = image(rt.alloc())?;
    for (path, wanted) in PATHS {
        let found = stat(&frozen, path).map(|found| (found.number, found.record.size));
        same(&rt, *path, found, *wanted);
    }
    Ok(())
}

#[test]
fn names_are_read(rt: HostRuntime) -> Result<(), Fail> {
    let frozen = image(rt.alloc())?;
    let names = list(rt.alloc(), &frozen, b"/")?;
    let wanted = [(b"f".as_slice(), 3), (b"d", 4)];
    same(&rt, "names", names.len(), wanted.len());
    for (name, wanted) in names.iter().zip(wanted) {
        same(&rt, wanted, (name.name.as_slice(), name.number), wanted);
    }
    Ok(())
}

#[test]
fn names_of_a_file_are_refused(rt: HostRuntime) -> Result<(), Fail> {
    let frozen = image(rt.alloc())?;
    let refused = list(rt.alloc(), &frozen, b"/f").err();
    same(&rt, "file", refused, Some(Refusal::NotDirectory));
    Ok(())
}

/// The bytes of the file at a path of this image, which stands on this device.
fn bytes_at(
    alloc: Global,
    frozen: &Frozen,
    device: &mut MemDevice,
    path: &[u8],
) -> Result<Vec<u8>, Refusal> {
    if device.blocks() != frozen.geometry().blocks() {
        return Err(Refusal::BadLength);
    }
    read(alloc, frozen, device, path)
}

/// Expects the bytes of the file.
fn expect_bytes(rt: &impl Abort, bytes: &[u8]) {
    same(rt, "length", bytes.len(), 1_500);
    for (place, wanted) in [
        (0, b'a'),
        (1, 0),
        (1_023, b'b'),
        (1_024, b'c'),
        (1_499, b'd'),
    ] {
        same(rt, place, bytes.get(place).copied(), Some(wanted));
    }
}

/// Expects what is read of an image on this device.
fn expect_read<R: AllocGlobal + Abort>(rt: &R, device: &mut MemDevice) -> Result<(), Refusal> {
    let frozen = load(rt.alloc(), device)?;
    let refused = bytes_at(rt.alloc(), &frozen, device, b"/d").err();
    same(rt, "directory", refused, Some(Refusal::IsDirectory));
    let bytes = bytes_at(rt.alloc(), &frozen, device, b"/d/g")?;
    expect_bytes(rt, bytes.as_slice());
    Ok(())
}

#[test]
fn bytes_are_read(rt: HostRuntime) -> Result<(), Fail> {
    let mut device = device(rt.alloc())?;
    expect_read(&rt, &mut device)?;
    Ok(())
}

#[test]
fn trees_are_listed(rt: HostRuntime) -> Result<(), Fail> {
    let frozen = image(rt.alloc())?;
    let listings = tree(rt.alloc(), &frozen, b"/")?;
    let wanted = [(b"/".as_slice(), 2), (b"/d", 1)];
    same(&rt, "directories", listings.len(), wanted.len());
    for (listing, wanted) in listings.iter().zip(wanted) {
        let found = (listing.path.as_slice(), listing.names.len());
        same(&rt, wanted, found, wanted);
    }
    Ok(())
}
