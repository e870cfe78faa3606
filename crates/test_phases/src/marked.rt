use crate::expect::same;
use crate::images::image_with;
use device::Byte;
use findings::{Finding, OfGroup, in_order};
use frozen::Frozen;
use layout::Refusal;
use phase_blocks::{Part, owners, part};
use phase_maps::{findings, number_findings};
use std::alloc::Global;
use std::process::Abort;
use std::test::Fail;

/// The bytes that differ from a fresh image of two groups of 16 blocks and 16 inodes: the block, the byte, the value.
/// Block 16 is marked, which is the last one of group 0, and number 31, which is the last one of group 1. Inode 18 has
/// 13 blocks: it claims 20, the indirect block 21 and through it 22.
const CHANGES: &[Byte] = &[
    (1, 161, 0x10),
    (17, 33, 0x80),
    (18, 256, 1),
    (18, 261, 0x34),
    (18, 264, 20),
    (18, 312, 21),
    (21, 0, 22),
    (21, 4, 3),
];

/// What phase 1 made of both groups.
fn parts(alloc: Global, frozen: &Frozen) -> Result<Vec<Part>, Refusal> {
    let mut parts = Vec::new(alloc);
    for unit in 0..2 {
        parts.push(part(alloc, frozen, unit)?)?;
    }
    Ok(parts)
}

/// What phase 5 finds of one unit.
fn found_of(
    alloc: Global,
    frozen: &Frozen,
    parts: &[Part],
    unit: u32,
) -> Result<Vec<Finding>, Refusal> {
    let OfGroup { kept, .. } = owners(alloc, frozen, parts, unit)?;
    findings(alloc, frozen, unit, &kept)
}

/// What phase 5 finds of the groups from 0 on and of a unit that is no group, in order.
fn found(alloc: Global, frozen: &Frozen) -> Result<Vec<Finding>, Refusal> {
    let parts = parts(alloc, frozen)?;
    let mut all = Vec::new(alloc);
    for unit in 0..3 {
        let mut more = found_of(alloc, frozen, parts.as_slice(), unit)?;
        all.append(&mut more)?;
    }
    in_order(all)
}

/// Expects all these findings of phase 5, and those of numbers, on the image with these changes.
fn expect_found<R: AllocGlobal + Abort>(
    rt: &R,
    changes: &[Byte],
    wanted: &[Finding],
    of_numbers: &[Finding],
) -> Result<(), Refusal> {
    let frozen = image_with(rt.alloc(), changes)?;
    let all = found(rt.alloc(), &frozen)?;
    same(rt, "all", all.as_slice(), wanted);
    let numbers = number_findings(rt.alloc(), &frozen)?;
    same(rt, "numbers", numbers.as_slice(), of_numbers);
    Ok(())
}

#[test]
fn nothing_is_found_on_a_fresh_image(rt: HostRuntime) -> Result<(), Fail> {
    expect_found(&rt, &[], &[], &[])?;
    Ok(())
}

#[test]
fn maps_are_compared_with_owners_and_records(rt: HostRuntime) -> Result<(), Fail> {
    let wanted = [
        Finding::LostBlock(16),
        Finding::UnmarkedBlock(20),
        Finding::UnmarkedBlock(21),
        Finding::UnmarkedBlock(22),
        Finding::LostNumber(31),
        Finding::UnmarkedInode(18),
    ];
    expect_found(&rt, CHANGES, &wanted, &wanted[4..])?;
    Ok(())
}
