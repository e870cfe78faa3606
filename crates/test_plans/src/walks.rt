use crate::expect::same;
use device::Byte;
use frozen::Frozen;
use layout::{Geometry, Refusal};
use live_paths::{Entry, Path, empty_slot, find, has_names, names, target, walk};
use std::alloc::Global;
use std::process::Abort;
use std::test::Fail;
use test_images::frozen_with;

/// The bytes that differ from a fresh image of one group of 16 blocks and 16 inodes: the block, the byte, the value.
/// The root, in block 4, names directory 3 "a" in slot 3 and file 4 "f" in slot 4; its slot 2 is bad. Directory 3, in
/// block 5, names directory 5 "b" in slot 2 and file 4 "g" in its last slot, and all slots between are empty. Directory
/// 5, in blocks 6 and 7, names file 4 "x" in slot 16 and file 6 "x" in slot 18; its block 6 is full of bad slots behind
/// its dots. Directory 7, in block 8, has its dots alone. Inode 9 is not sound.
const CHANGES: &[Byte] = &[
    (2, 384, 2),
    (2, 389, 4),
    (2, 392, 5),
    (2, 512, 1),
    (2, 640, 2),
    (2, 645, 8),
    (2, 648, 6),
    (2, 652, 7),
    (2, 768, 1),
    (2, 896, 2),
    (2, 901, 4),
    (2, 904, 8),
    (3, 128, 3),
    (4, 128, 40),
    (4, 192, 3),
    (4, 196, 1),
    (4, 200, 97),
    (4, 256, 4),
    (4, 260, 1),
    (4, 264, 102),
    (5, 0, 3),
    (5, 4, 1),
    (5, 8, 46),
    (5, 64, 2),
    (5, 68, 2),
    (5, 72, 46),
    (5, 73, 46),
    (5, 128, 5),
    (5, 132, 1),
    (5, 136, 98),
    (5, 960, 4),
    (5, 964, 1),
    (5, 968, 103),
    (6, 0, 5),
    (6, 4, 1),
    (6, 8, 46),
    (6, 64, 3),
    (6, 68, 2),
    (6, 72, 46),
    (6, 73, 46),
    (6, 128, 1),
    (6, 192, 1),
    (6, 256, 1),
    (6, 320, 1),
    (6, 384, 1),
    (6, 448, 1),
    (6, 512, 1),
    (6, 576, 1),
    (6, 640, 1),
    (6, 704, 1),
    (6, 768, 1),
    (6, 832, 1),
    (6, 896, 1),
    (6, 960, 1),
    (7, 0, 4),
    (7, 4, 1),
    (7, 8, 120),
    (7, 128, 6),
    (7, 132, 1),
    (7, 136, 120),
    (8, 0, 7),
    (8, 4, 1),
    (8, 8, 46),
    (8, 64, 2),
    (8, 68, 2),
    (8, 72, 46),
    (8, 73, 46),
];

/// Bytes that are paths. A part may have any bytes but 0 and `/`.
const GOOD: &[&[u8]] = &[b"/", b"/a", b"/a/b", b"/...", b"/.a/..b", b"/\xff\x01/ "];

/// Bytes that are none: nothing; a part without a byte; the dots; no `/` at the start; a byte that is 0.
const BAD: &[&[u8]] = &[
    b"", b"//", b"/a/", b"/a//b", b"//a", b"/.", b"/..", b"/a/.", b"/../a", b"a", b"a/b", b"/a\0",
    b"/\0/b",
];

/// What is kept of this image.
fn image(alloc: Global) -> Result<Frozen, Refusal> {
    frozen_with(alloc, &Geometry::new(1, 16, 16)?, CHANGES)
}

/// What a walk of these bytes answers.
fn walked(frozen: &Frozen, bytes: &[u8]) -> Result<u32, Refusal> {
    let path = Path::parse(bytes)?;
    walk(frozen, &path)
}

/// What these bytes lead to.
fn led(frozen: &Frozen, bytes: &[u8]) -> Result<u32, Refusal> {
    let path = Path::parse(bytes)?;
    target(frozen, &path)
}

/// Whether these bytes are a path.
fn is_path(bytes: &[u8]) -> bool {
    Path::parse(bytes).is_ok()
}

/// A path of `whole` parts of 56 bytes each, and one of `rest` bytes.
fn long_path(alloc: Global, whole: usize, rest: usize) -> Result<Vec<u8>, Refusal> {
    let mut bytes = Vec::new(alloc);
    for _ in 0..whole {
        bytes.push(b'/')?;
        bytes.extend_from_slice(&[b'n'; 56])?;
    }
    bytes.push(b'/')?;
    for _ in 0..rest {
        bytes.push(b'm')?;
    }
    Ok(bytes)
}

/// Whether the path of such parts is one, and how many bytes it has.
fn seen(alloc: Global, whole: usize, rest: usize) -> Result<(usize, bool), Refusal> {
    let path = long_path(alloc, whole, rest)?;
    Ok((path.len(), is_path(path.as_slice())))
}

#[test]
fn paths_are_told_from_other_bytes(rt: HostRuntime) {
    for bytes in GOOD {
        same(&rt, *bytes, is_path(bytes), true);
    }
    for bytes in BAD {
        same(&rt, *bytes, is_path(bytes), false);
    }
}

#[test]
fn names_of_57_bytes_are_refused(rt: HostRuntime) -> Result<(), Fail> {
    same(&rt, 56, seen(rt.alloc(), 0, 56)?, (57, true));
    same(&rt, 57, seen(rt.alloc(), 0, 57)?, (58, false));
    Ok(())
}

#[test]
fn paths_of_4097_bytes_are_refused(rt: HostRuntime) -> Result<(), Fail> {
    same(&rt, 48, seen(rt.alloc(), 71, 48)?, (4096, true));
    same(&rt, 49, seen(rt.alloc(), 71, 49)?, (4097, false));
    Ok(())
}

/// Expects a path to be the root's or not, and this name of its last part.
fn expect_name(rt: &impl Abort, bytes: &[u8], is_root: bool, name: &[u8]) -> Result<(), Refusal> {
    let path = Path::parse(bytes)?;
    same(rt, bytes, path.is_root(), is_root);
    same(rt, bytes, path.name(), name);
    Ok(())
}

#[test]
fn the_last_part_is_the_name(rt: HostRuntime) -> Result<(), Fail> {
    expect_name(&rt, b"/", true, b"")?;
    expect_name(&rt, b"/usr/local/bin", false, b"bin")?;
    expect_name(&rt, b"/usr", false, b"usr")?;
    Ok(())
}

/// Paths, and the directory in which the walk ends.
const WALKS: &[(&[u8], Result<u32, Refusal>)] = &[
    (b"/a", Ok(2)),
    (b"/none", Ok(2)),
    (b"/a/none", Ok(3)),
    (b"/a/b/x", Ok(5)),
    (b"/", Err(Refusal::IsRoot)),
    (b"/f/x", Err(Refusal::NotDirectory)),
    (b"/f/x/y", Err(Refusal::NotDirectory)),
    (b"/none/x", Err(Refusal::NotFound)),
    (b"/a/none/x", Err(Refusal::NotFound)),
];

#[test]
fn walks_end_in_the_directory_of_the_last_part(rt: HostRuntime) -> Result<(), Fail> {
    let frozen = image(rt.alloc())?;
    for (path, wanted) in WALKS {
        same(&rt, *path, walked(&frozen, path), *wanted);
    }
    Ok(())
}

/// Paths, and what they lead to.
const TARGETS: &[(&[u8], Result<u32, Refusal>)] = &[
    (b"/", Ok(2)),
    (b"/a", Ok(3)),
    (b"/f", Ok(4)),
    (b"/a/b", Ok(5)),
    (b"/a/g", Ok(4)),
    (b"/a/b/x", Ok(4)),
    (b"/none", Err(Refusal::NotFound)),
    (b"/a/b/none", Err(Refusal::NotFound)),
    (b"/f/x", Err(Refusal::NotDirectory)),
    (b"/a/g/x", Err(Refusal::NotDirectory)),
];

#[test]
fn paths_lead_where_their_names_stand(rt: HostRuntime) -> Result<(), Fail> {
    let frozen = image(rt.alloc())?;
    for (path, wanted) in TARGETS {
        same(&rt, *path, led(&frozen, path), *wanted);
    }
    Ok(())
}

/// Inodes and names, and the slot and the number of the first entry there.
const ENTRIES: &[(u32, &[u8], Option<(u32, u32)>)] = &[
    (2, b"a", Some((3, 3))),
    (3, b".", Some((0, 3))),
    (3, b"g", Some((15, 4))),
    (5, b"x", Some((16, 4))),
    (3, b"a", None),
    (4, b"a", None),
    (0, b"a", None),
    (u32::MAX, b"a", None),
];

#[test]
fn the_first_entry_of_a_name_is_found(rt: HostRuntime) -> Result<(), Fail> {
    let frozen = image(rt.alloc())?;
    for (directory, name, wanted) in ENTRIES {
        let wanted = wanted.map(|(slot, number)| Entry { slot, number });
        same(
            &rt,
            (*directory, *name),
            find(&frozen, *directory, name),
            wanted,
        );
    }
    Ok(())
}

#[test]
fn the_first_empty_slot_is_found(rt: HostRuntime) -> Result<(), Fail> {
    let frozen = image(rt.alloc())?;
    for (directory, wanted) in [(2, Some(5)), (3, Some(3)), (5, Some(17)), (4, None)] {
        same(&rt, directory, empty_slot(&frozen, directory), wanted);
    }
    Ok(())
}

#[test]
fn names_besides_the_dots_are_seen(rt: HostRuntime) -> Result<(), Fail> {
    let frozen = image(rt.alloc())?;
    for (directory, wanted) in [(2, true), (5, true), (7, false), (4, false)] {
        same(&rt, directory, has_names(&frozen, directory), wanted);
    }
    Ok(())
}

/// Expects these names and numbers in a directory, in this order.
fn expect_names<R: AllocGlobal + Abort>(
    rt: &R,
    frozen: &Frozen,
    directory: u32,
    wanted: &[(&[u8], u32)],
) -> Result<(), Refusal> {
    let listed = names(rt.alloc(), frozen, directory)?;
    same(rt, directory, listed.len(), wanted.len());
    for (found, wanted) in listed.iter().zip(wanted) {
        same(
            rt,
            directory,
            (found.name.as_slice(), found.number),
            *wanted,
        );
    }
    Ok(())
}

#[test]
fn names_are_listed_in_the_order_of_the_slots(rt: HostRuntime) -> Result<(), Fail> {
    let frozen = image(rt.alloc())?;
    expect_names(&rt, &frozen, 3, &[(b"b", 5), (b"g", 4)])?;
    expect_names(&rt, &frozen, 7, &[])?;
    expect_names(&rt, &frozen, 4, &[])?;
    Ok(())
}
