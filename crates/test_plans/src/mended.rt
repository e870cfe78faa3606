ghost use Rattle.std.specs.Prelude.{◌≡◌, true};
ghost use Rattle.live_states.specs.Snapshots.{IsRepairOf};

use crate::expect::same;
use device::Byte;
use findings::Repair;
use frozen::Frozen;
use inode::{FILE, FREE};
use layout::{Geometry, ROOT, Refusal};
use live_holdings::Holdings;
use live_plans::Planned;
use live_repairs::{drop_inode, free_block, free_number, lower_count};
use metadata::Metadata;
use std::alloc::{AllocError, Global};
use std::process::Abort;
use std::test::Fail;
use test_images::frozen_with;
use updates::{Cell, Change, Update};

/// The bytes that differ from a fresh image of one group of 32 blocks and 16 inodes: the block, the byte, the value. File
/// 4 has no name, 3 links, and 1,025 bytes in blocks 6 and 7.
const CHANGES: &[Byte] = &[
    (2, 512, 1),
    (2, 514, 3),
    (2, 516, 1),
    (2, 517, 4),
    (2, 520, 6),
    (2, 524, 7),
];

/// What an update does.
#[derive(Clone, Copy, Debug, PartialEq, Eq)]
enum Step {
    /// A record gets this mode, so many links and this size.
    Record(u32, u16, u16, u32),
    /// The bit of a number is cleared.
    Number(u32),
    /// The bit of a block is cleared.
    Bit(u32),
    /// Anything else.
    Other,
}

/// What is kept of this image.
fn frozen(alloc: Global) -> Result<Frozen, Refusal> {
    frozen_with(alloc, &Geometry::new(1, 32, 16)?, CHANGES)
}

/// The metadata of this image.
fn image(alloc: Global) -> Result<Metadata, Refusal> {
    Ok(Metadata::new(alloc, frozen(alloc)?)?)
}

/// Nothing is open, and a check of these repairs is installed.
fn to_mend(alloc: Global, metadata: &Metadata, repairs: &[Repair]) -> Result<Holdings, Refusal> {
    let mut holdings = Holdings::new(alloc, &metadata.frozen().geometry())?;
    holdings.install(alloc, Vec::from_slice(alloc, repairs)?)?;
    Ok(holdings)
}

/// Whether the volume has what a repair names.
fn is_of(geometry: &Geometry, repair: Repair) -> bool
    ensures { result ≡ true → IsRepairOf geometry.now repair }
{
    match repair {
        Repair::DropInode(number) => ROOT <= number && number < geometry.inodes(),
        Repair::LowerCount(number, _) => ROOT <= number && number < geometry.inodes(),
        Repair::FreeBlock(address) => geometry.place_of(address).is_some(),
        Repair::FreeNumber(number) => ROOT <= number && number < geometry.inodes(),
    }
}

/// The plan of a repair.
fn repaired(
    alloc: Global,
    metadata: &Metadata,
    holdings: &Holdings,
    repair: Repair,
) -> Result<Planned, AllocError>
    requires { IsRepairOf metadata.now.geometry repair }
{
    match repair {
        Repair::DropInode(number) => drop_inode(alloc, metadata, holdings, number),
        Repair::LowerCount(number, fewer) => {
            lower_count(alloc, metadata, holdings, number, fewer)
        }
        Repair::FreeBlock(address) => free_block(alloc, metadata, address),
        Repair::FreeNumber(number) => free_number(alloc, metadata, number),
    }
}

/// The updates of the repair of a place, where no block is held for a snapshot.
fn mending(
    alloc: Global,
    metadata: &Metadata,
    holdings: &Holdings,
    place: u32,
) -> Result<Vec<Update>, Refusal> {
    let repair = holdings.to_do(place)?;
    let geometry = metadata.frozen().geometry();
    if !is_of(&geometry, repair) {
        return Err(Refusal::Damaged);
    }
    updates_of(repaired(alloc, metadata, holdings, repair)?)
}

/// The updates of what was planned, which holds no block.
fn updates_of(planned: Planned) -> Result<Vec<Update>, Refusal> {
    let Planned { plan, holds } = planned;
    if holds.is_empty() {
        Ok(plan.into_updates())
    } else {
        Err(Refusal::Damaged)
    }
}

/// What a change does.
fn step_of(change: &Change) -> Step {
    match change {
        Change::SetInode(number, record) => {
            Step::Record(*number, record.mode, record.links, record.size)
        }
        Change::SetNumber(number, false) => Step::Number(*number),
        Change::SetBlock(address, false) => Step::Bit(*address),
        _ => Step::Other,
    }
}

/// What updates in the name of a file do, each after one cell at most.
fn steps(
    alloc: Global,
    updates: &[Update],
    file: u32,
) -> Result<Vec<(Step, Option<Cell>)>, Refusal> {
    let mut steps = Vec::new(alloc);
    for update in updates {
        if update.file != Some(file) || update.after.len() > 1 {
            return Err(Refusal::Damaged);
        }
        let after = update.after.first().copied();
        steps.push((step_of(&update.change), after))?;
    }
    Ok(steps)
}

/// A step, and the cell that it comes after.
type After = (Step, Option<Cell>);

/// Expects the repair of a place to make these steps in the name of a file.
fn expect_steps<R: AllocGlobal + Abort>(
    rt: &R,
    metadata: &Metadata,
    holdings: &Holdings,
    place: u32,
    file: u32,
    wanted: &[After],
) -> Result<(), Refusal> {
    let updates = mending(rt.alloc(), metadata, holdings, place)?;
    let done = steps(rt.alloc(), updates.as_slice(), file)?;
    same(rt, place, done.as_slice(), wanted);
    Ok(())
}

/// Expects the repair of a place, where these are installed, to make these steps in the name of a file.
fn expect_repair<R: AllocGlobal + Abort>(
    rt: &R,
    repairs: &[Repair],
    place: u32,
    file: u32,
    wanted: &[After],
) -> Result<(), Refusal> {
    let metadata = image(rt.alloc())?;
    let holdings = to_mend(rt.alloc(), &metadata, repairs)?;
    expect_steps(rt, &metadata, &holdings, place, file, wanted)
}

#[test]
fn an_inode_is_dropped_with_its_blocks(rt: HostRuntime) -> Result<(), Fail> {
    let repairs = [Repair::DropInode(4), Repair::LowerCount(4, 3)];
    let record = Some(Cell::Record(4));
    let wanted = [
        (Step::Record(4, FREE, 0, 0), None),
        (Step::Number(4), record),
        (Step::Bit(6), record),
        (Step::Bit(7), record),
    ];
    for place in 0..2 {
        expect_repair(&rt, &repairs, place, 4, &wanted)?;
    }
    Ok(())
}

/// Opens a file.
fn open(holdings: &mut Holdings, number: u32) -> Result<(), Refusal> {
    match holdings.free_handle() {
        Some(handle) => Ok(holdings.open(handle, number)?),
        None => Err(Refusal::TooManyOpen),
    }
}

/// Expects these steps of the first of these repairs, where the file is open.
fn expect_repair_of_open<R: AllocGlobal + Abort>(
    rt: &R,
    repairs: &[Repair],
    file: u32,
    wanted: &[After],
) -> Result<(), Refusal> {
    let metadata = image(rt.alloc())?;
    let mut holdings = to_mend(rt.alloc(), &metadata, repairs)?;
    open(&mut holdings, file)?;
    expect_steps(rt, &metadata, &holdings, 0, file, wanted)
}

#[test]
fn an_open_inode_loses_its_links_alone(rt: HostRuntime) -> Result<(), Fail> {
    let wanted = [(Step::Record(4, FILE, 0, 1025), None)];
    expect_repair_of_open(&rt, &[Repair::DropInode(4)], 4, &wanted)?;
    Ok(())
}

#[test]
fn a_count_is_lowered_by_what_is_too_much(rt: HostRuntime) -> Result<(), Fail> {
    let wanted = [(Step::Record(4, FILE, 2, 1025), None)];
    expect_repair(&rt, &[Repair::LowerCount(4, 1)], 0, 4, &wanted)?;
    Ok(())
}

#[test]
fn blocks_and_numbers_are_unmarked(rt: HostRuntime) -> Result<(), Fail> {
    let repairs = [Repair::FreeBlock(9), Repair::FreeNumber(7)];
    expect_repair(&rt, &repairs, 0, 9, &[(Step::Bit(9), None)])?;
    expect_repair(&rt, &repairs, 1, 7, &[(Step::Number(7), None)])?;
    Ok(())
}

/// Expects the repair of a place to be refused.
fn expect_refused<R: AllocGlobal + Abort>(
    rt: &R,
    metadata: &Metadata,
    holdings: &Holdings,
    place: u32,
    wanted: Refusal,
) {
    let refused = mending(rt.alloc(), metadata, holdings, place).err();
    same(rt, place, refused, Some(wanted));
}

/// Expects a volume with no check to refuse a repair.
fn expect_no_plan<R: AllocGlobal + Abort>(rt: &R, metadata: &Metadata) -> Result<(), Refusal> {
    let idle = Holdings::new(rt.alloc(), &metadata.frozen().geometry())?;
    expect_refused(rt, metadata, &idle, 0, Refusal::NoPlan);
    Ok(())
}

#[test]
fn each_cause_refuses(rt: HostRuntime) -> Result<(), Fail> {
    let metadata = image(rt.alloc())?;
    expect_no_plan(&rt, &metadata)?;
    let mut holdings = to_mend(rt.alloc(), &metadata, &[Repair::FreeBlock(9)])?;
    expect_refused(&rt, &metadata, &holdings, 1, Refusal::BadIndex);
    holdings.finish(0);
    expect_refused(&rt, &metadata, &holdings, 0, Refusal::AlreadyDone);
    Ok(())
}
