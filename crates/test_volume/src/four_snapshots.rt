//! Up to four snapshots that stand at once.
use crate::expect::{holds, same};
use crate::volumes::on_mounted;
use device::MemDevice;
use fsck::check_one;
use layout::Refusal;
use snapshot::{Answer, Reply, Volume};
use std::process::Abort;
use std::test::Fail;
use std::thread::Threads;
use test_mounted::{Asked, VERSIONS, Wanted, command_of, is_as};

/// What is asked of a volume, or what is seen of it then.
#[derive(Clone, Copy)]
enum Row {
    /// A command, and its answer.
    Asks(Asked, Wanted),
    /// Which of blocks 4 to 11 are marked, the least one in the lowest bit.
    Marks(u8),
    /// Which snapshots stand.
    Stand([Option<u64>; 4]),
}

/// A file is written between freezes, and each of its blocks is held as long as a snapshot has it.
const THREE_STAND: &[Row] = &[
    Row::Asks(Asked::Create(b"/a"), Wanted::Number(3)),
    Row::Asks(Asked::Open(b"/a"), Wanted::Number(0)),
    Row::Asks(Asked::Write(0, 0, b"one"), Wanted::Done),
    Row::Marks(0b11),
    Row::Asks(Asked::Freeze, Wanted::Snapshot(0)),
    Row::Asks(Asked::Write(0, 0, b"two"), Wanted::Done),
    Row::Marks(0b111),
    Row::Asks(Asked::Freeze, Wanted::Snapshot(1)),
    Row::Asks(Asked::Write(0, 0, b"six"), Wanted::Done),
    Row::Marks(0b1111),
    Row::Asks(Asked::Freeze, Wanted::Snapshot(2)),
    Row::Stand([Some(0), Some(1), Some(2), None]),
    Row::Asks(Asked::SnapRead(0, 3, 0), Wanted::Bytes(b"one")),
    Row::Asks(Asked::SnapRead(1, 3, 0), Wanted::Bytes(b"two")),
    Row::Asks(Asked::SnapRead(2, 3, 0), Wanted::Bytes(b"six")),
    Row::Asks(Asked::Release(0), Wanted::Done),
    Row::Marks(0b1101),
    Row::Asks(Asked::Release(1), Wanted::Done),
    Row::Marks(0b1001),
    Row::Asks(
        Asked::SnapRead(1, 3, 0),
        Wanted::Refused(Refusal::NoSnapshot),
    ),
    Row::Asks(Asked::Freeze, Wanted::Snapshot(3)),
    Row::Asks(Asked::Freeze, Wanted::Snapshot(4)),
    Row::Asks(Asked::Freeze, Wanted::Snapshot(5)),
    Row::Asks(Asked::Freeze, Wanted::Refused(Refusal::TooManySnapshots)),
    Row::Stand([Some(2), Some(3), Some(4), Some(5)]),
];

/// A block that two snapshots have is held until both have ended.
const TWO_HAVE_A_BLOCK: &[Row] = &[
    Row::Asks(Asked::Create(b"/a"), Wanted::Number(3)),
    Row::Asks(Asked::Open(b"/a"), Wanted::Number(0)),
    Row::Asks(Asked::Write(0, 0, b"one"), Wanted::Done),
    Row::Asks(Asked::Freeze, Wanted::Snapshot(0)),
    Row::Asks(Asked::Freeze, Wanted::Snapshot(1)),
    Row::Asks(Asked::Write(0, 0, b"two"), Wanted::Done),
    Row::Marks(0b111),
    Row::Asks(Asked::Release(0), Wanted::Done),
    Row::Marks(0b111),
    Row::Stand([Some(1), None, None, None]),
    Row::Asks(Asked::SnapRead(1, 3, 0), Wanted::Bytes(b"one")),
    Row::Asks(Asked::Release(1), Wanted::Done),
    Row::Marks(0b101),
    Row::Stand([None, None, None, None]),
];

/// Which of blocks 4 to 11 of a volume are marked.
fn marks_of(volume: &Volume<MemDevice>) -> Option<u8> {
    let maps = volume.live().metadata().block(1)?;
    Some(maps[160])
}

/// Expects a check to find nothing on an image that a reply has.
fn expect_clean<R: Threads + AllocGlobal + Abort + Sync>(
    rt: &R,
    place: usize,
    reply: &Reply,
) -> Result<(), Refusal> {
    if let Ok(Answer::Image(_, frozen)) = reply {
        let checked = check_one(rt, rt.alloc(), frozen)?;
        same(rt, place, checked.findings().len(), 0);
    }
    Ok(())
}

/// Expects a command to be answered so.
fn expect_answer<R: Threads + AllocGlobal + Abort + Sync>(
    rt: &R,
    volume: &mut Volume<MemDevice>,
    place: usize,
    asked: Asked,
    wanted: Wanted,
) -> Result<(), Refusal> {
    let command = command_of(rt.alloc(), asked)?;
    let reply = volume.apply(rt.alloc(), &command);
    holds(rt, (place, wanted), is_as(Some(&reply), wanted));
    expect_clean(rt, place, &reply)
}

/// Expects a volume to do what the rows say.
fn expect_rows<R: Threads + AllocGlobal + Abort + Sync>(
    rt: &R,
    volume: &mut Volume<MemDevice>,
    rows: &[Row],
) -> Result<(), Refusal> {
    for (place, row) in rows.iter().enumerate() {
        match *row {
            Row::Asks(asked, wanted) => expect_answer(rt, volume, place, asked, wanted)?,
            Row::Marks(wanted) => same(rt, place, marks_of(volume), Some(wanted)),
            Row::Stand(wanted) => same(rt, place, volume.standing(), wanted),
        }
    }
    Ok(())
}

#[test]
fn each_snapshot_has_what_the_file_had(rt: HostRuntime) -> Result<(), Fail> {
    for version in VERSIONS {
        on_mounted(
            rt.alloc(),
            version,
            16,
            &[],
            |volume| expect_rows(&rt, volume, THREE_STAND),
        )?;
    }
    Ok(())
}

#[test]
fn a_block_is_held_until_no_snapshot_has_it(rt: HostRuntime) -> Result<(), Fail> {
    for version in VERSIONS {
        on_mounted(
            rt.alloc(),
            version,
            16,
            &[],
            |volume| expect_rows(&rt, volume, TWO_HAVE_A_BLOCK),
        )?;
    }
    Ok(())
}
