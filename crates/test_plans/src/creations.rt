use crate::expect::holds;
use device::MemDevice;
use frozen::{Frozen, load};
use inode::{ATTRIBUTES, DIRECTORY, Record};
use layout::{BLOCK_BYTES, Geometry, ROOT, Refusal};
use live_creations::{directory_for, dots, file_at, new_directory};
use live_paths::Path;
use std::alloc::Global;
use std::process::Abort;

/// The bytes that differ from a fresh image of one group of 16 blocks and 16 inodes: the block, the byte, the value.
/// The root, in block 4, names directory 3 "d" in slot 2 and file 4 "f" in slot 3. Directory 3 has block 5.
const CHANGES: [(u32, usize, u8); 10] = [
    (2, 384, 2),
    (2, 389, 4),
    (2, 392, 5),
    (2, 512, 1),
    (4, 128, 3),
    (4, 132, 1),
    (4, 136, b'd'),
    (4, 192, 4),
    (4, 196, 1),
    (4, 200, b'f'),
];

/// The metadata of this image.
fn image(alloc: Global) -> Result<Frozen, Refusal> {
    let geometry = Geometry::new(1, 16, 16)?;
    let mut device = MemDevice::formatted(alloc, &geometry, &CHANGES)?;
    load(alloc, &mut device)
}

/// Where the name of a path may be entered.
fn entered(frozen: &Frozen, path: &[u8]) -> Result<u32, Refusal> {
    directory_for(frozen, &Path::parse(path)?)
}

/// The file of a path.
fn file(frozen: &Frozen, path: &[u8]) -> Result<u32, Refusal> {
    file_at(frozen, &Path::parse(path)?)
}

/// Aborts unless a new name goes into this directory, where the image can be had.
fn expect_entered(
    rt: &(impl AllocGlobal + Abort),
    path: &[u8],
    wanted: Result<u32, Refusal>,
) -> Result<(), Refusal> {
    let frozen = image(rt.alloc())?;
    assert_eq!(rt; entered(&frozen, path), wanted);
    Ok(())
}

/// Aborts unless a path leads to this file, where the image can be had.
fn expect_file(
    rt: &(impl AllocGlobal + Abort),
    path: &[u8],
    wanted: Result<u32, Refusal>,
) -> Result<(), Refusal> {
    let frozen = image(rt.alloc())?;
    assert_eq!(rt; file(&frozen, path), wanted);
    Ok(())
}

#[test]
fn a_new_name_goes_into_its_directory(rt: HostRuntime) -> Result<(), Refusal> {
    expect_entered(&rt, b"/a", Ok(ROOT))?;
    expect_entered(&rt, b"/d/a", Ok(3))
}

#[test]
fn other_names_are_refused(rt: HostRuntime) -> Result<(), Refusal> {
    expect_entered(&rt, b"a", Err(Refusal::BadName))?;
    expect_entered(&rt, b"/", Err(Refusal::IsRoot))?;
    expect_entered(&rt, b"/d", Err(Refusal::Exists))?;
    expect_entered(&rt, b"/e/a", Err(Refusal::NotFound))?;
    expect_entered(&rt, b"/f/a", Err(Refusal::NotDirectory))
}

#[test]
fn files_alone_are_linked(rt: HostRuntime) -> Result<(), Refusal> {
    expect_file(&rt, b"/f", Ok(4))?;
    expect_file(&rt, b"/", Err(Refusal::IsDirectory))?;
    expect_file(&rt, b"/d", Err(Refusal::IsDirectory))?;
    expect_file(&rt, b"/d/f", Err(Refusal::NotFound))
}

#[test]
fn a_new_directory_names_itself_and_the_one_above(rt: HostRuntime) {
    let mut wanted = [0; BLOCK_BYTES];
    wanted[0] = 5;
    wanted[4] = 1;
    wanted[8] = b'.';
    wanted[64] = 3;
    wanted[68] = 2;
    wanted[72] = b'.';
    wanted[73] = b'.';
    holds(&rt, "dots", dots(5, 3) == wanted);
}

#[test]
fn a_new_directory_has_one_block(rt: HostRuntime) {
    let mut direct = [0; 12];
    direct[0] = 7;
    let wanted = Record {
        mode: DIRECTORY,
        links: 2,
        size: 1024,
        direct,
        indirect: 0,
        double: 0,
        attributes: [9; ATTRIBUTES],
    };
    let made = new_directory(7, &[9; ATTRIBUTES]);
    holds(&rt, "its record", made == wanted);
}
