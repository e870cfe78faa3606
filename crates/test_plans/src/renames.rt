use device::MemDevice;
use frozen::load;
use layout::{Geometry, Refusal};
use live_paths::Path;
use live_renames::{find_ends, refuse_taken, rename_in_slot};
use metadata::Metadata;
use std::alloc::Global;
use std::process::Abort;
use updates::{Change, Update};

/// The bytes that differ from a fresh image of one group of 16 blocks and 16 inodes: the block, the byte, the value. The
/// root, in block 4, names directory 3 "a" in slot 2 and file 4 "f" in slot 3. Directory 3, in block 5, has its dots
/// alone, and file 4 is empty.
const CHANGES: [(u32, usize, u8); 20] = [
    (2, 258, 3),
    (2, 384, 2),
    (2, 386, 2),
    (2, 389, 4),
    (2, 392, 5),
    (2, 512, 1),
    (2, 514, 1),
    (4, 128, 3),
    (4, 132, 1),
    (4, 136, 97),
    (4, 192, 4),
    (4, 196, 1),
    (4, 200, 102),
    (5, 0, 3),
    (5, 4, 1),
    (5, 8, 46),
    (5, 64, 2),
    (5, 68, 2),
    (5, 72, 46),
    (5, 73, 46),
];

/// The metadata of this image.
fn image(alloc: Global) -> Result<Metadata, Refusal> {
    let geometry = Geometry::new(1, 16, 16)?;
    let mut device = MemDevice::formatted(alloc, &geometry, &CHANGES)?;
    Ok(Metadata::new(alloc, load(alloc, &mut device)?)?)
}

/// The number that a path leads to, its directory, and the directory of a free name.
fn ends_of(metadata: &Metadata, path: &[u8], other: &[u8]) -> Result<(u32, u32, u32), Refusal> {
    let from = Path::parse(path)?;
    let to = Path::parse(other)?;
    let ends = find_ends(metadata.frozen(), &from, &to)?;
    refuse_taken(metadata.frozen(), ends.directory, &to)?;
    Ok((ends.found.number, ends.found.directory, ends.directory))
}

/// The updates by which an entry gets the last part of another path as its name, in its slot.
fn renaming(
    alloc: Global,
    metadata: &Metadata,
    path: &[u8],
    other: &[u8],
) -> Result<Vec<Update>, Refusal> {
    let from = Path::parse(path)?;
    let to = Path::parse(other)?;
    let ends = find_ends(metadata.frozen(), &from, &to)?;
    Ok(rename_in_slot(alloc, metadata, &ends.found, to.name())?.into_updates())
}

/// Aborts unless these are the ends of a rename, where the image can be had.
fn expect_ends(
    rt: &(impl AllocGlobal + Abort),
    path: &[u8],
    other: &[u8],
    wanted: Result<(u32, u32, u32), Refusal>,
) -> Result<(), Refusal> {
    let metadata = image(rt.alloc())?;
    assert_eq!(rt; ends_of(&metadata, path, other), wanted);
    Ok(())
}

#[test]
fn both_ends_are_found(rt: HostRuntime) -> Result<(), Refusal> {
    expect_ends(&rt, b"/f", b"/g", Ok((4, 2, 2)))?;
    expect_ends(&rt, b"/f", b"/a/f", Ok((4, 2, 3)))?;
    expect_ends(&rt, b"/a", b"/a/b", Ok((3, 2, 3)))
}

#[test]
fn each_cause_refuses_and_the_first_of_two(rt: HostRuntime) -> Result<(), Refusal> {
    let refused: [(&[u8], &[u8], Refusal); 12] = [
        (b"f", b"/g", Refusal::BadName),
        (b"/f", b"", Refusal::BadName),
        (b"/", b"g", Refusal::BadName),
        (b"/", b"/g", Refusal::IsRoot),
        (b"/f", b"/", Refusal::IsRoot),
        (b"/x", b"/", Refusal::IsRoot),
        (b"/x", b"/f/g", Refusal::NotFound),
        (b"/f/x", b"/x/g", Refusal::NotDirectory),
        (b"/f", b"/x/g", Refusal::NotFound),
        (b"/f", b"/f/g", Refusal::NotDirectory),
        (b"/f", b"/a", Refusal::Exists),
        (b"/a", b"/a", Refusal::Exists),
    ];
    for (path, other, refusal) in refused {
        expect_ends(&rt, path, other, Err(refusal))?;
    }
    Ok(())
}

/// Whether this update gives directory 3 the name `bc`, in its slot, and leaves the slot behind.
fn gives_bc(update: &Update) -> bool {
    match &update.change {
        Change::SetBytes(4, bytes) => {
            update.file == Some(3)
                && update.after.len() == 1
                && bytes[128..138] == [3, 0, 0, 0, 2, 0, 0, 0, 98, 99][..]
                && bytes[192..201] == [4, 0, 0, 0, 1, 0, 0, 0, 102][..]
        }
        _ => false,
    }
}

/// The updates by which an entry of the image gets another name, in its slot.
fn renamed(alloc: Global, path: &[u8], other: &[u8]) -> Result<Vec<Update>, Refusal> {
    let metadata = image(alloc)?;
    renaming(alloc, &metadata, path, other)
}

#[test]
fn a_directory_gets_another_name_in_its_slot(rt: HostRuntime) -> Result<(), Refusal> {
    let updates = renamed(rt.alloc(), b"/a", b"/bc")?;
    let is_given = match updates.as_slice() {
        [update] => gives_bc(update),
        _ => false,
    };
    assert!(rt; is_given);
    Ok(())
}
