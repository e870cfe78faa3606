use crate::expect::{holds, same};
use crate::volumes::on_mounted;
use device::{Byte, MemDevice};
use frozen::Frozen;
use fsck::{Checked, check_one};
use layout::{Geometry, Refusal};
use snapshot::{Answer, Command, Reply, Volume};
use std::alloc::Global;
use std::process::Abort;
use std::sync::Arc;
use std::test::Fail;
use std::thread::Threads;
use test_images::frozen_with;
use test_mounted::{Asked, VERSIONS, Wanted, commands_of, is_as};

/// Block 9 is marked, and in no use.
const LOST_BLOCK: &[Byte] = &[(1, 160, 0b10_0001)];

/// The root has a link fewer than entries name it.
const LOW_COUNT: &[Byte] = &[(2, 258, 1)];

/// The file `/f` is made, opened, and written to.
const FILE: &[Asked] = &[
    Asked::Create(b"/f"),
    Asked::Open(b"/f"),
    Asked::Write(0, 0, b"abc"),
];

/// The replies of a volume to a list of commands.
fn replies_to(
    alloc: Global,
    volume: &mut Volume<MemDevice>,
    asked: &[Asked],
) -> Result<Vec<Reply>, Refusal> {
    let commands = commands_of(alloc, asked)?;
    volume.run(alloc, commands)
}

/// Makes the file on a volume, which answers each command.
fn make_file<R: AllocGlobal + Abort>(
    rt: &R,
    volume: &mut Volume<MemDevice>,
) -> Result<(), Refusal> {
    let replies = replies_to(rt.alloc(), volume, FILE)?;
    holds(rt, "made", replies.iter().all(|reply| reply.is_ok()));
    Ok(())
}

/// The check of the snapshot that begins.
fn freeze_and_check<R: Threads + AllocGlobal + Sync>(
    rt: &R,
    volume: &mut Volume<MemDevice>,
) -> Result<Checked, Refusal> {
    let (_, frozen) = volume.freeze(rt.alloc())?;
    check_one(rt, rt.alloc(), &frozen)
}

/// Expects a check of a volume to be installed, and to have one repair.
fn expect_installed<R: AllocGlobal + Abort>(
    rt: &R,
    volume: &mut Volume<MemDevice>,
    checked: &Checked,
) -> Result<(), Refusal> {
    same(rt, "before", volume.plan_len(), 0);
    volume.install(rt.alloc(), checked)?;
    same(rt, "plan", volume.plan_len(), 1);
    same(rt, "marked", volume.live().unmarked_blocks(), 10);
    Ok(())
}

/// Expects the check of the snapshot that begins to be installed.
fn expect_plan<R: Threads + AllocGlobal + Abort + Sync>(
    rt: &R,
    volume: &mut Volume<MemDevice>,
) -> Result<(), Refusal> {
    let checked = freeze_and_check(rt, volume)?;
    expect_installed(rt, volume, &checked)
}

/// Expects the snapshot of a volume to have the file's bytes, and its end to give a block back.
fn expect_release<R: AllocGlobal + Abort>(
    rt: &R,
    volume: &mut Volume<MemDevice>,
) -> Result<(), Refusal> {
    let bytes = volume.snap_read(rt.alloc(), 0, 3, 0)?;
    same(rt, "bytes", bytes.as_slice(), b"abc".as_slice());
    volume.release(rt.alloc(), 0)?;
    same(rt, "unmarked", volume.live().unmarked_blocks(), 11);
    let reply = volume.apply(rt.alloc(), &Command::Sync);
    holds(rt, "sync", matches!(reply, Ok(Answer::Done)));
    Ok(())
}

/// Expects a lost block of a volume to be found and given back.
fn expect_mended<R: Threads + AllocGlobal + Abort + Sync>(
    rt: &R,
    volume: &mut Volume<MemDevice>,
) -> Result<(), Refusal> {
    make_file(rt, volume)?;
    expect_plan(rt, volume)?;
    volume.repair(rt.alloc(), 0)?;
    expect_release(rt, volume)
}

#[test]
fn a_lost_block_is_found_and_given_back(rt: HostRuntime) -> Result<(), Fail> {
    for version in VERSIONS {
        on_mounted(
            rt.alloc(),
            version,
            16,
            LOST_BLOCK,
            |volume| expect_mended(&rt, volume),
        )?;
    }
    Ok(())
}

/// The path of a name that is too long.
const LONG: &[u8] = b"/xxxxxxxxxxxxxxxxxxxxxxxxxxxxxxxxxxxxxxxxxxxxxxxxxxxxxxxxx";

/// Commands that are refused, and two freezes.
const REFUSED: &[Asked] = &[
    Asked::Create(b"/"),
    Asked::Create(b"a"),
    Asked::Create(b"/a/b"),
    Asked::Rmdir(b"/"),
    Asked::Close(0),
    Asked::Repair(0),
    Asked::Release(0),
    Asked::Create(LONG),
    Asked::Freeze,
    Asked::Freeze,
];

/// What each of them is answered.
const REPLIES: &[Wanted] = &[
    Wanted::Refused(Refusal::IsRoot),
    Wanted::Refused(Refusal::BadName),
    Wanted::Refused(Refusal::NotFound),
    Wanted::Refused(Refusal::IsRoot),
    Wanted::Refused(Refusal::BadHandle),
    Wanted::Refused(Refusal::NoPlan),
    Wanted::Refused(Refusal::NoSnapshot),
    Wanted::Refused(Refusal::BadName),
    Wanted::Snapshot(0),
    Wanted::Snapshot(1),
];

/// Expects each command of a volume to be answered so.
fn expect_replies<R: AllocGlobal + Abort>(
    rt: &R,
    volume: &mut Volume<MemDevice>,
) -> Result<(), Refusal> {
    let replies = replies_to(rt.alloc(), volume, REFUSED)?;
    same(rt, "replies", replies.len(), REPLIES.len());
    for (reply, wanted) in replies.iter().zip(REPLIES) {
        holds(rt, *wanted, is_as(Some(reply), *wanted));
    }
    Ok(())
}

#[test]
fn commands_are_answered_in_their_order(rt: HostRuntime) -> Result<(), Fail> {
    for version in VERSIONS {
        on_mounted(
            rt.alloc(),
            version,
            16,
            &[],
            |volume| expect_replies(&rt, volume),
        )?;
    }
    Ok(())
}

/// What is kept of a damaged image.
fn damaged(alloc: Global) -> Result<Arc<Frozen>, Refusal> {
    let frozen = frozen_with(alloc, &Geometry::new(1, 16, 16)?, LOW_COUNT)?;
    Ok(Arc::new(alloc, frozen)?)
}

/// Expects a volume of which there is a snapshot to refuse the check of a damaged image.
fn expect_not_soft<R: Threads + AllocGlobal + Abort + Sync>(
    rt: &R,
    volume: &mut Volume<MemDevice>,
) -> Result<(), Refusal> {
    volume.freeze(rt.alloc())?;
    let checked = check_one(rt, rt.alloc(), &damaged(rt.alloc())?)?;
    let outcome = volume.install(rt.alloc(), &checked);
    same(rt, "install", outcome, Err(Refusal::PlanNotSoft));
    Ok(())
}

#[test]
fn a_check_of_a_damaged_image_is_not_installed(rt: HostRuntime) -> Result<(), Fail> {
    for version in VERSIONS {
        on_mounted(
            rt.alloc(),
            version,
            16,
            &[],
            |volume| expect_not_soft(&rt, volume),
        )?;
    }
    Ok(())
}

/// The file `/f` is removed.
const REMOVED: &[Asked] = &[Asked::Close(0), Asked::Unlink(b"/f")];

/// Expects so many blocks of a volume to be unmarked, and a check of what users see to find nothing.
fn expect_nothing_found<R: Threads + AllocGlobal + Abort + Sync>(
    rt: &R,
    volume: &mut Volume<MemDevice>,
    unmarked: u32,
) -> Result<(), Refusal> {
    same(rt, "unmarked", volume.live().unmarked_blocks(), unmarked);
    let view = Arc::new(rt.alloc(), volume.live().view(rt.alloc())?)?;
    let checked = check_one(rt, rt.alloc(), &view)?;
    same(rt, "findings", checked.findings().len(), 0);
    Ok(())
}

/// Expects the block of a file that is removed to stay marked while a snapshot has it, and no check to find it.
fn expect_held<R: Threads + AllocGlobal + Abort + Sync>(
    rt: &R,
    volume: &mut Volume<MemDevice>,
) -> Result<(), Refusal> {
    make_file(rt, volume)?;
    volume.freeze(rt.alloc())?;
    let replies = replies_to(rt.alloc(), volume, REMOVED)?;
    holds(rt, "removed", replies.iter().all(|reply| reply.is_ok()));
    expect_nothing_found(rt, volume, 11)?;
    volume.release(rt.alloc(), 0)?;
    expect_nothing_found(rt, volume, 12)
}

#[test]
fn what_is_held_is_no_finding(rt: HostRuntime) -> Result<(), Fail> {
    for version in VERSIONS {
        on_mounted(
            rt.alloc(),
            version,
            16,
            &[],
            |volume| expect_held(&rt, volume),
        )?;
    }
    Ok(())
}
