use crate::expect::same;
use crate::images::{group, image_with};
use device::Byte;
use findings::Finding;
use frozen::Frozen;
use layout::Refusal;
use refcounts::{Part, counts, findings, part};
use sets::Members;
use std::alloc::Global;
use std::process::Abort;
use std::test::Fail;

/// The bytes that differ from a fresh image of two groups of 16 blocks and 16 inodes: the block, the byte, the value.
/// The root has 3 links; its slots 2 and 3 name file 5, which has 1 link, "a" and "b", and its slot 4 names file 20 of
/// the second group, which has no link, "c".
const CHANGES: &[Byte] = &[
    (2, 258, 3),
    (2, 640, 1),
    (2, 642, 1),
    (4, 128, 5),
    (4, 132, 1),
    (4, 136, b'a'),
    (4, 192, 5),
    (4, 196, 1),
    (4, 200, b'b'),
    (4, 256, 20),
    (4, 260, 1),
    (4, 264, b'c'),
];

/// What the directories of both groups name.
fn parts(alloc: Global, frozen: &Frozen, reached: &Members) -> Result<Vec<Part>, Refusal> {
    let mut parts = Vec::new(alloc);
    for unit in 0..2 {
        parts.push(part(alloc, frozen, &group(unit), reached)?)?;
    }
    Ok(parts)
}

/// Expects so many entries of each of these inodes, by their place in a unit, and these findings of the unit, where the
/// parts of both groups stand side by side.
fn expect_counts<R: AllocGlobal + Abort>(
    rt: &R,
    frozen: &Frozen,
    unit: u32,
    entries: &[(u32, u64)],
    wanted: &[Finding],
) -> Result<(), Refusal> {
    let reached = Members::new(rt.alloc(), vec![in rt.alloc(); 2, 5, 20]?)?;
    let parts = parts(rt.alloc(), frozen, &reached)?;
    let counts = counts(rt.alloc(), frozen, parts.as_slice(), unit)?;
    for (place, entries) in entries {
        same(rt, (unit, *place), counts.of(*place), *entries);
    }
    let found = findings(rt.alloc(), frozen, unit, &counts, &reached)?;
    same(rt, (unit, 0), found.as_slice(), wanted);
    Ok(())
}

#[test]
fn links_are_compared_with_entries(rt: HostRuntime) -> Result<(), Fail> {
    let frozen = image_with(rt.alloc(), CHANGES)?;
    let first = [Finding::CountHigh(2, 3, 2), Finding::CountLow(5, 1, 2)];
    expect_counts(&rt, &frozen, 0, &[(2, 2), (5, 2), (6, 0)], &first)?;
    let second = [Finding::CountLow(20, 0, 1)];
    expect_counts(&rt, &frozen, 1, &[(4, 1), (5, 0)], &second)?;
    Ok(())
}

#[test]
fn a_unit_that_is_no_group_has_nothing(rt: HostRuntime) -> Result<(), Fail> {
    let frozen = image_with(rt.alloc(), CHANGES)?;
    expect_counts(&rt, &frozen, 2, &[(0, 0), (2, 0)], &[])?;
    Ok(())
}
