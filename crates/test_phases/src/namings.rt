use crate::expect::same;
use crate::images::{TREE, group, image_with};
use directories::{Named, groups_of, merge, named, pieces};
use frozen::Frozen;
use layout::Refusal;
use std::alloc::Global;
use std::process::Abort;
use std::test::Fail;

/// Expects each of these directories to name these numbers.
fn expect_named(rt: &impl Abort, named: &Named, wanted: &[(u32, &[u32])]) {
    for (directory, numbers) in wanted {
        same(rt, *directory, named.of(*directory), *numbers);
    }
}

#[test]
fn good_slots_are_named_in_their_order(rt: HostRuntime) -> Result<(), Fail> {
    let frozen = image_with(rt.alloc(), TREE)?;
    let with_dots = named(rt.alloc(), &frozen, &group(0), 0)?;
    expect_named(
        &rt,
        &with_dots,
        &[(2, &[2, 2, 3, 18, 6]), (3, &[3, 2, 2, 17]), (19, &[])],
    );
    Ok(())
}

/// The tables of these units, merged in this order.
fn merged(alloc: Global, frozen: &Frozen, units: &[u32]) -> Result<Named, Refusal> {
    let mut whole = Named::new(alloc);
    for unit in units {
        whole = merge(whole, named(alloc, frozen, &group(*unit), 2)?)?;
    }
    Ok(whole)
}

/// What the directories of both groups name behind their dots.
const WHOLE: &[(u32, &[u32])] = &[
    (2, &[3, 18, 6]),
    (3, &[2, 17]),
    (18, &[]),
    (19, &[20]),
    (20, &[19, 18]),
];

#[test]
fn tables_are_merged_in_any_order(rt: HostRuntime) -> Result<(), Fail> {
    let frozen = image_with(rt.alloc(), TREE)?;
    for units in [[0, 1, 2], [2, 1, 0], [1, 0, 63]] {
        let whole = merged(rt.alloc(), &frozen, &units)?;
        expect_named(&rt, &whole, WHOLE);
    }
    Ok(())
}

#[test]
fn a_group_with_few_blocks_of_directories_is_one_piece(rt: HostRuntime) -> Result<(), Fail> {
    let frozen = image_with(rt.alloc(), TREE)?;
    let pieces = pieces(rt.alloc(), &frozen)?;
    same(&rt, "pieces", pieces.as_slice(), &[group(0), group(1)][..]);
    let groups = groups_of(rt.alloc(), &frozen, pieces.as_slice())?;
    same(&rt, "groups", groups.as_slice(), &[0, 1][..]);
    Ok(())
}
