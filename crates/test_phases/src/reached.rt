use crate::expect::same;
use crate::images::{TREE, group, image_with};
use connectivity::{findings, merge, part, rounds, walk};
use directories::pieces;
use findings::Finding;
use frozen::Frozen;
use layout::Refusal;
use sets::Members;
use std::alloc::Global;
use std::process::Abort;
use std::test::Fail;
use workers::{OpenGate, Workers};

/// Expects these inodes to be reached.
fn expect_reached<R: AllocGlobal + Abort>(
    rt: &R,
    workers: u32,
    reached: &Members,
) -> Result<(), Refusal> {
    let numbers: Vec<u32> = (0..33)
        .filter(|number| reached.has(*number))
        .collect(rt.alloc())?;
    same(rt, workers, numbers.as_slice(), &[2, 3, 17, 18][..]);
    Ok(())
}

/// What is reached by one walk.
fn walked(alloc: Global, frozen: &Frozen) -> Result<Members, Refusal> {
    let whole = merge(
        part(alloc, frozen, &group(1))?,
        part(alloc, frozen, &group(0))?,
    )?;
    walk(alloc, frozen, &whole)
}

#[test]
fn a_cycle_that_is_not_reachable_is_lost(rt: HostRuntime) -> Result<(), Fail> {
    let frozen = image_with(rt.alloc(), TREE)?;
    let reached = walked(rt.alloc(), &frozen)?;
    expect_reached(&rt, 0, &reached)?;
    let found = findings(rt.alloc(), &frozen, &reached)?;
    let wanted = [Finding::LostInode(19), Finding::LostInode(20)];
    same(&rt, "lost", found.as_slice(), &wanted[..]);
    Ok(())
}

#[test]
fn many_workers_reach_what_one_reaches(rt: HostRuntime) -> Result<(), Fail> {
    let frozen = image_with(rt.alloc(), TREE)?;
    let pieces = pieces(rt.alloc(), &frozen)?;
    for count in [1, 2, 3, 64] {
        let workers = Workers::new(count)?;
        let reached = rounds(&rt, rt.alloc(), &frozen, &pieces, workers, &OpenGate)?;
        expect_reached(&rt, count, &reached)?;
    }
    Ok(())
}
