use crate::expect::same;
use crate::images::group;
use device::{Byte, MemDevice, set_bytes};
use findings::Finding;
use frozen::{Frozen, load};
use layout::{Geometry, Refusal};
use phase_names::{Part, finish, merge, part};
use sets::Members;
use std::alloc::Global;
use std::process::Abort;
use std::test::Fail;

/// The records of directories that differ from a fresh image of two groups of 16 blocks and 16 inodes. Directory 3 has
/// block 5, 4 has block 6 and 5 has block 7. Directory 18 has 13 blocks: it claims 20, and 22 at position 12.
const RECORDS: &[Byte] = &[
    (2, 384, 2),
    (2, 389, 4),
    (2, 392, 5),
    (2, 512, 2),
    (2, 517, 4),
    (2, 520, 6),
    (2, 640, 2),
    (2, 645, 4),
    (2, 648, 7),
    (18, 256, 2),
    (18, 261, 0x34),
    (18, 264, 20),
    (18, 312, 21),
    (21, 0, 22),
    (22, 964, 1),
];

/// The entries of the root from slot 2 on: `a` names 3, `b` names 4, `a` names 3 again, slot 5 is bad, `x` names 9,
/// which is free, `r` names the root, `c` names 18, and slot 15 names the root too.
const ROOT_ENTRIES: &[Byte] = &[
    (4, 128, 3),
    (4, 132, 1),
    (4, 136, b'a'),
    (4, 192, 4),
    (4, 196, 1),
    (4, 200, b'b'),
    (4, 256, 3),
    (4, 260, 1),
    (4, 264, b'a'),
    (4, 320, 1),
    (4, 384, 9),
    (4, 388, 1),
    (4, 392, b'x'),
    (4, 448, 2),
    (4, 452, 1),
    (4, 456, b'r'),
    (4, 512, 18),
    (4, 516, 1),
    (4, 520, b'c'),
    (4, 960, 2),
    (4, 964, 1),
    (4, 968, b's'),
];

/// The entries of the others. The dots of 3 and 18 are right, 4 has no slot 0 and its slot 1 names 3, which is
/// reachable and does not name it. 5, which nothing reaches, has a bad slot. The last slot of 18 names 3.
const OTHER_ENTRIES: &[Byte] = &[
    (5, 0, 3),
    (5, 4, 1),
    (5, 8, b'.'),
    (5, 64, 2),
    (5, 68, 2),
    (5, 72, b'.'),
    (5, 73, b'.'),
    (6, 64, 3),
    (6, 68, 2),
    (6, 72, b'.'),
    (6, 73, b'.'),
    (7, 128, 1),
    (20, 0, 18),
    (20, 4, 1),
    (20, 8, b'.'),
    (20, 64, 2),
    (20, 68, 2),
    (20, 72, b'.'),
    (20, 73, b'.'),
    (22, 960, 3),
    (22, 968, b'a'),
    (22, 896, 1),
];

/// Changes the bytes of each of these tables.
fn change(device: &mut MemDevice, tables: &[&[Byte]]) -> Result<(), Refusal> {
    for bytes in tables {
        set_bytes(device, bytes)?;
    }
    Ok(())
}

/// What is kept of an image of two groups, fresh but for the bytes of these tables.
fn image_with(alloc: Global, tables: &[&[Byte]]) -> Result<Frozen, Refusal> {
    let mut device = MemDevice::formatted(alloc, &Geometry::new(2, 16, 16)?, &[])?;
    match change(&mut device, tables) {
        Ok(()) => load(alloc, &mut device),
        Err(refusal) => Err(refusal),
    }
}

/// The parts of these units, merged in this order.
fn merged(alloc: Global, frozen: &Frozen, units: &[u32]) -> Result<Part, Refusal> {
    let mut whole = Part::new(alloc);
    for unit in units {
        whole = merge(whole, part(alloc, frozen, &group(*unit))?)?;
    }
    Ok(whole)
}

/// The findings where these inodes are reached, of parts that are merged in this order.
fn found(
    alloc: Global,
    frozen: &Frozen,
    reached: &[u32],
    units: &[u32],
) -> Result<Vec<Finding>, Refusal> {
    let reached = Members::new(alloc, Vec::from_slice(alloc, reached)?)?;
    let whole = merged(alloc, frozen, units)?;
    finish(alloc, frozen, &whole, &reached)
}

/// Expects these findings where these inodes are reached, of parts that are merged in this order.
fn expect_found<R: AllocGlobal + Abort>(
    rt: &R,
    frozen: &Frozen,
    reached: &[u32],
    units: &[u32],
    wanted: &[Finding],
) -> Result<(), Refusal> {
    let found = found(rt.alloc(), frozen, reached, units)?;
    same(rt, units, found.as_slice(), wanted);
    Ok(())
}

#[test]
fn nothing_is_found_on_a_fresh_image(rt: HostRuntime) -> Result<(), Fail> {
    let frozen = image_with(rt.alloc(), &[])?;
    expect_found(&rt, &frozen, &[2], &[0, 1], &[])?;
    Ok(())
}

/// The root's record is free.
const NO_ROOT: &[Byte] = &[(2, 256, 0)];

#[test]
fn a_bad_root_is_found_alone(rt: HostRuntime) -> Result<(), Fail> {
    let frozen = image_with(rt.alloc(), &[ROOT_ENTRIES, NO_ROOT])?;
    expect_found(&rt, &frozen, &[], &[0, 1], &[Finding::RootBad])?;
    Ok(())
}

/// What is found of the whole image.
const FOUND: &[Finding] = &[
    Finding::BadSlot(2, 5),
    Finding::BadSlot(18, 206),
    Finding::DupName(2, 4),
    Finding::BadDot(4),
    Finding::BadDotDot(4),
    Finding::ToUnsound(2, 6),
    Finding::ExtraName(2, 4),
    Finding::ExtraName(2, 7),
    Finding::ExtraName(2, 15),
    Finding::ExtraName(18, 207),
];

#[test]
fn each_kind_is_found_in_the_reachable_directories(rt: HostRuntime) -> Result<(), Fail> {
    let frozen = image_with(rt.alloc(), &[RECORDS, ROOT_ENTRIES, OTHER_ENTRIES])?;
    for units in [[0, 1, 2], [2, 1, 0], [1, 0, 63]] {
        expect_found(&rt, &frozen, &[2, 3, 4, 18], &units, FOUND)?;
    }
    Ok(())
}
