ghost use Rattle.std.specs.Prelude.{◌≡◌};
ghost use Rattle.shared.specs.Opened.{Opened};

mod images;
mod meeting;
mod stage;

use crate::expect::{holds, same};
use device::{Byte, MemDevice};
use findings::Finding;
use fsck::check_one;
use images::{FILE_WITH_TWO_LINKS, FRESH, LOST_BLOCK, LOST_DIRECTORY};
use layout::Refusal;
use meeting::{Met, check_beside_a_user};
use shared::{Counts, Entry, MOST_CALLS, MOST_SEATS, Shared, Sharing};
use snapshot::{Answer, Command, Reply, Volume};
use stage::{Outcome, Step, carry_out};
use std::alloc::Global;
use std::marker::Brand;
use std::process::Abort;
use std::sync::Wait;
use std::sync::ledger::{Blank, Ledger};
use std::test::Fail;
use std::thread::Threads;
use test_mounted::{Asked, Wanted, found_on, is_as, mounted};

/// How often a row with threads is carried out.
const TIMES: u32 = 20;

/// Two threads: one makes a file, and writes and reads it; the other makes another one, and takes it away.
const TWO_USERS: Step = Step::AtOnce(
    &[
        Asked::Create(b"/x"),
        Asked::Open(b"/x"),
        Asked::Write(0, 0, b"abc"),
        Asked::Read(0, 0),
    ],
    &[Asked::Create(b"/y"), Asked::Unlink(b"/y")],
);

/// Carries out steps on a shared volume whose trace has room for so many calls, and looks at what came of them. What came of
/// steps has a volume, which is dear to let go, so this function alone owns it.
fn look_at<T, R: Threads + Wait + Sync + AllocGlobal, F: FnOnce(&Outcome) -> T>(
    rt: &R,
    bytes: &[Byte],
    limit: u32,
    steps: &[Step],
    look: F,
) -> Result<T, Refusal>
    requires { F.IsAlwaysCallable look }
{
    let outcome = carry_out(rt, rt.alloc(), bytes, limit, steps)?;
    Ok(look(&outcome))
}

/// Expects these replies at these places.
fn expect_replies(rt: &impl Abort, replies: &[Reply], wanted: &[(usize, Wanted)]) {
    for (place, wanted) in wanted {
        holds(rt, (*place, *wanted), is_as(replies.get(*place), *wanted));
    }
}

/// Expects these replies to the calls of the steps.
fn expect_told(rt: &impl Abort, outcome: &Outcome, wanted: &[(usize, Wanted)]) {
    expect_replies(rt, outcome.told.replies.as_slice(), wanted);
}

/// Whether the same is noted of two replies, which are no images.
fn are_same(noted: &Reply, reply: &Reply) -> bool {
    match (noted, reply) {
        (Ok(Answer::Done), Ok(Answer::Done)) => true,
        (Ok(Answer::Number(noted)), Ok(Answer::Number(number))) => *noted == *number,
        (Ok(Answer::Bytes(noted)), Ok(Answer::Bytes(bytes))) => {
            noted.as_slice() == bytes.as_slice()
        }
        (Err(noted), Err(refusal)) => *noted == *refusal,
        _ => false,
    }
}

/// Whether a call is one of the thread with the file `/y`.
fn is_second(entry: &Entry) -> bool {
    match &entry.command {
        Command::Create { path, .. } | Command::Unlink(path) => path.as_slice() == b"/y".as_slice(),
        _ => false,
    }
}

/// Whether the calls of a thread are noted with these replies, in order.
fn are_noted(trace: &[Entry], second: bool, replies: &[Reply]) -> bool {
    let mut left = replies.iter();
    for entry in trace.iter().filter(|entry| is_second(entry) == second) {
        match left.next() {
            Some(reply) if are_same(&entry.reply, reply) => {}
            _ => return false,
        }
    }
    left.next().is_none()
}

/// Whether the replies to four calls of one thread, and then to the calls of the other one, are noted.
fn are_all_noted(trace: &[Entry], replies: &[Reply]) -> bool {
    match (replies.get(..4), replies.get(4..)) {
        (Some(first), Some(second)) => {
            are_noted(trace, false, first) && are_noted(trace, true, second)
        }
        _ => false,
    }
}

/// Expects both threads to have got the replies that are noted.
fn expect_noted(rt: &impl Abort, outcome: &Outcome) {
    let (trace, replies) = (
        outcome.closed.trace.as_slice(),
        outcome.told.replies.as_slice(),
    );
    same(rt, "replies", replies.len(), 6);
    expect_replies(rt, replies, &[(3, Wanted::Bytes(b"abc"))]);
    same(rt, "before", outcome.closed.before, Counts::NONE);
    same(rt, "trace", trace.len(), 6);
    holds(rt, "noted", are_all_noted(trace, replies));
}

#[test]
fn two_threads_get_the_replies_that_are_noted(rt: HostRuntime) -> Result<(), Fail> {
    for _time in 0..TIMES {
        look_at(
            &rt,
            FRESH,
            100,
            &[TWO_USERS],
            |outcome| expect_noted(&rt, outcome),
        )?;
    }
    Ok(())
}

/// How many of these replies are that the trace is full.
fn full(replies: &[Reply]) -> usize {
    let wanted = Wanted::Refused(Refusal::TraceFull);
    replies
        .iter()
        .filter(|reply| is_as(Some(*reply), wanted))
        .count()
}

/// Expects one call to have found the trace full, and one to have gone after that.
fn expect_emptied(rt: &impl Abort, outcome: &Outcome) {
    let replies = outcome.told.replies.as_slice();
    let before = Counts {
        repairs: 0,
        others: 5,
    };
    same(rt, "full", full(replies), 1);
    expect_replies(rt, replies, &[(6, Wanted::Bytes(b"abc"))]);
    same(rt, "before", outcome.closed.before, before);
    same(rt, "trace", outcome.closed.trace.len(), 1);
}

/// Two threads fill the trace, which is emptied before one more call.
const EMPTIED: &[Step] = &[TWO_USERS, Step::Rotate, Step::Call(Asked::Read(0, 0))];

#[test]
fn a_full_trace_takes_a_call_once_it_is_emptied(rt: HostRuntime) -> Result<(), Fail> {
    for _time in 0..TIMES {
        look_at(
            &rt,
            FRESH,
            5,
            EMPTIED,
            |outcome| expect_emptied(&rt, outcome),
        )?;
    }
    Ok(())
}

/// Expects three repairs of a directory that was lost.
fn expect_three_repairs(rt: &impl Abort, outcome: &Outcome) {
    let found = [
        Finding::LostInode(6),
        Finding::LostInode(7),
        Finding::CountHigh(2, 3, 2),
    ];
    let unmarked = outcome.closed.volume.live().unmarked_blocks();
    same(rt, "found", outcome.told.findings.as_slice(), &found[..]);
    same(rt, "done", outcome.told.done, 3);
    same(rt, "trace", outcome.closed.trace.len(), 11);
    same(rt, "unmarked", unmarked, 12);
}

/// A check is repaired by two threads at once, and the snapshot ends.
const REPAIRED_AT_ONCE: &[Step] = &[Step::Check, Step::RepairAll, Step::Call(Asked::Release(0))];

#[test]
fn two_threads_share_the_repairs(rt: HostRuntime) -> Result<(), Fail> {
    for _time in 0..TIMES {
        look_at(
            &rt,
            LOST_DIRECTORY,
            100,
            REPAIRED_AT_ONCE,
            |outcome| expect_three_repairs(&rt, outcome),
        )?;
    }
    Ok(())
}

/// The file of a link too many is checked, and then moved into a new directory, repaired and looked at.
const MOVED_AND_REPAIRED: &[Step] = &[
    Step::Check,
    Step::Call(Asked::Mkdir(b"/d")),
    Step::Call(Asked::Rename(b"/a", b"/d/c")),
    Step::Call(Asked::Repair(0)),
    Step::Call(Asked::Stat(b"/d/c")),
];

/// Expects the repair to be carried out, and one link to be left.
fn expect_one_link(rt: &impl Abort, outcome: &Outcome) {
    let wanted = [(3, Wanted::Done), (4, Wanted::Links(1))];
    expect_replies(rt, outcome.told.replies.as_slice(), &wanted);
    same(rt, "trace", outcome.closed.trace.len(), 6);
}

#[test]
fn a_file_that_was_moved_is_repaired(rt: HostRuntime) -> Result<(), Fail> {
    look_at(
        &rt,
        FILE_WITH_TWO_LINKS,
        100,
        MOVED_AND_REPAIRED,
        |outcome| expect_one_link(&rt, outcome),
    )?;
    Ok(())
}

/// The same file is checked and moved, and the volume is frozen anew before the repair.
const MOVED_AND_FROZEN: &[Step] = &[
    Step::Check,
    Step::Call(Asked::Mkdir(b"/d")),
    Step::Call(Asked::Rename(b"/a", b"/d/c")),
    Step::Call(Asked::Release(0)),
    Step::Call(Asked::Freeze),
    Step::Call(Asked::Repair(0)),
];

/// The repair is refused.
const NO_PLAN: &[(usize, Wanted)] = &[(5, Wanted::Refused(Refusal::NoPlan))];

#[test]
fn a_plan_ends_with_the_next_freeze(rt: HostRuntime) -> Result<(), Fail> {
    look_at(
        &rt,
        FILE_WITH_TWO_LINKS,
        100,
        MOVED_AND_FROZEN,
        |outcome| expect_told(&rt, outcome, NO_PLAN),
    )?;
    Ok(())
}

/// Expects a check to find this on the device after these steps, which end with a sync.
fn expect_found<R: Threads + Wait + Sync + AllocGlobal + Abort>(
    rt: &R,
    steps: &[Step],
    wanted: &[Finding],
) -> Result<(), Refusal> {
    let found = look_at(
        rt,
        FILE_WITH_TWO_LINKS,
        100,
        steps,
        |outcome| found_on(rt, rt.alloc(), &outcome.closed.volume),
    )??;
    same(rt, "found", found.as_slice(), wanted);
    Ok(())
}

/// A file is opened and loses its last name between two checks, and the repair of the second one drops it.
const DROPPED_WHILE_OPEN: &[Step] = &[
    Step::Check,
    Step::Call(Asked::Open(b"/a")),
    Step::Call(Asked::Unlink(b"/a")),
    Step::Call(Asked::Release(0)),
    Step::Check,
    Step::Call(Asked::Repair(0)),
    Step::Call(Asked::Sync),
];

/// The same, and the file is closed.
const DROPPED_AND_CLOSED: &[Step] = &[
    Step::Check,
    Step::Call(Asked::Open(b"/a")),
    Step::Call(Asked::Unlink(b"/a")),
    Step::Call(Asked::Release(0)),
    Step::Check,
    Step::Call(Asked::Repair(0)),
    Step::Call(Asked::Close(0)),
    Step::Call(Asked::Sync),
];

#[test]
fn a_file_that_is_dropped_while_it_is_open_goes_when_it_is_closed(
    rt: HostRuntime,
) -> Result<(), Fail> {
    expect_found(&rt, DROPPED_WHILE_OPEN, &[Finding::LostInode(5)])?;
    expect_found(&rt, DROPPED_AND_CLOSED, &[])?;
    Ok(())
}

/// A file is open before the check, loses its last name, and has its links lowered.
const LOWERED_WHILE_OPEN: &[Step] = &[
    Step::Call(Asked::Open(b"/a")),
    Step::Check,
    Step::Call(Asked::Unlink(b"/a")),
    Step::Call(Asked::Repair(0)),
    Step::Call(Asked::Sync),
];

/// The same, and the file is closed.
const LOWERED_AND_CLOSED: &[Step] = &[
    Step::Call(Asked::Open(b"/a")),
    Step::Check,
    Step::Call(Asked::Unlink(b"/a")),
    Step::Call(Asked::Repair(0)),
    Step::Call(Asked::Close(0)),
    Step::Call(Asked::Sync),
];

#[test]
fn a_file_that_was_open_before_the_freeze_is_repaired(rt: HostRuntime) -> Result<(), Fail> {
    for _time in 0..TIMES {
        expect_found(&rt, LOWERED_WHILE_OPEN, &[Finding::LostInode(5)])?;
        expect_found(&rt, LOWERED_AND_CLOSED, &[])?;
    }
    Ok(())
}

/// A block of the character 0.
const ZEROS: &[u8] = &[b'0'; 1024];

/// A lost block is given back, a file takes it, and the repair is asked for once more.
const REPAIRED_TWICE: &[Step] = &[
    Step::Check,
    Step::Call(Asked::Repair(0)),
    Step::Call(Asked::Create(b"/f")),
    Step::Call(Asked::Open(b"/f")),
    Step::Call(Asked::Write(0, 0, ZEROS)),
    Step::Call(Asked::Write(0, 1, ZEROS)),
    Step::Call(Asked::Write(0, 2, ZEROS)),
    Step::Call(Asked::Write(0, 3, ZEROS)),
    Step::Call(Asked::Write(0, 4, ZEROS)),
    Step::Call(Asked::Repair(0)),
    Step::Call(Asked::Read(0, 4)),
];

/// The first repair is carried out, and the file keeps its bytes.
const REPAIRED_ONCE: &[(usize, Wanted)] = &[
    (1, Wanted::Done),
    (9, Wanted::Refused(Refusal::AlreadyDone)),
    (10, Wanted::Bytes(ZEROS)),
];

#[test]
fn a_repair_is_carried_out_once(rt: HostRuntime) -> Result<(), Fail> {
    for _time in 0..TIMES {
        look_at(
            &rt,
            LOST_BLOCK,
            100,
            REPAIRED_TWICE,
            |outcome| expect_told(&rt, outcome, REPAIRED_ONCE),
        )?;
    }
    Ok(())
}

/// Two threads in turn freeze a volume and write a file between, until four snapshots stand.
const FOUR_SNAPSHOTS: &[Step] = &[
    Step::Call(Asked::Create(b"/a")),
    Step::Call(Asked::Open(b"/a")),
    Step::Call(Asked::Write(0, 0, b"one")),
    Step::Call(Asked::Freeze),
    Step::Call(Asked::Write(0, 0, b"two")),
    Step::Call(Asked::Freeze),
    Step::Call(Asked::Write(0, 0, b"six")),
    Step::Call(Asked::Freeze),
    Step::Call(Asked::SnapRead(0, 3, 0)),
    Step::Call(Asked::SnapRead(1, 3, 0)),
    Step::Call(Asked::SnapRead(2, 3, 0)),
    Step::Call(Asked::Release(0)),
    Step::Call(Asked::Release(1)),
    Step::Call(Asked::SnapRead(1, 3, 0)),
    Step::Call(Asked::Freeze),
    Step::Call(Asked::Freeze),
    Step::Call(Asked::Freeze),
    Step::Call(Asked::Freeze),
];

/// Each snapshot has what the file had when it began.
const SNAPSHOTS_TOLD: &[(usize, Wanted)] = &[
    (3, Wanted::Snapshot(0)),
    (5, Wanted::Snapshot(1)),
    (7, Wanted::Snapshot(2)),
    (8, Wanted::Bytes(b"one")),
    (9, Wanted::Bytes(b"two")),
    (10, Wanted::Bytes(b"six")),
    (11, Wanted::Done),
    (12, Wanted::Done),
    (13, Wanted::Refused(Refusal::NoSnapshot)),
    (14, Wanted::Snapshot(3)),
    (15, Wanted::Snapshot(4)),
    (16, Wanted::Snapshot(5)),
    (17, Wanted::Refused(Refusal::TooManySnapshots)),
];

/// The trace notes their numbers.
const SNAPSHOTS_NOTED: &[(usize, Wanted)] = &[
    (3, Wanted::Number(0)),
    (5, Wanted::Number(1)),
    (7, Wanted::Number(2)),
    (10, Wanted::Bytes(b"six")),
    (16, Wanted::Number(5)),
    (17, Wanted::Refused(Refusal::TooManySnapshots)),
];

/// Expects these replies at these places of a trace.
fn expect_trace(rt: &impl Abort, trace: &[Entry], wanted: &[(usize, Wanted)]) {
    for (place, wanted) in wanted {
        let noted = trace.get(*place).map(|entry| &entry.reply);
        holds(rt, (*place, *wanted), is_as(noted, *wanted));
    }
}

/// Expects a check to find nothing on each image that was frozen.
fn expect_clean<R: Threads + Sync + AllocGlobal + Abort>(
    rt: &R,
    replies: &[Reply],
) -> Result<(), Refusal> {
    for reply in replies {
        if let Ok(Answer::Image(number, frozen)) = reply {
            let checked = check_one(rt, rt.alloc(), frozen)?;
            same(rt, *number, checked.findings().len(), 0);
        }
    }
    Ok(())
}

/// Expects the snapshots to be told and noted, and the last four to stand.
fn expect_snapshots<R: Threads + Sync + AllocGlobal + Abort>(
    rt: &R,
    outcome: &Outcome,
) -> Result<(), Refusal> {
    let volume = &outcome.closed.volume;
    expect_told(rt, outcome, SNAPSHOTS_TOLD);
    expect_trace(rt, outcome.closed.trace.as_slice(), SNAPSHOTS_NOTED);
    same(
        rt,
        "standing",
        volume.standing(),
        [Some(2), Some(3), Some(4), Some(5)],
    );
    same(rt, "unmarked", volume.live().unmarked_blocks(), 11);
    expect_clean(rt, outcome.told.replies.as_slice())
}

#[test]
fn up_to_four_snapshots_stand(rt: HostRuntime) -> Result<(), Fail> {
    look_at(
        &rt,
        FRESH,
        100,
        FOUR_SNAPSHOTS,
        |outcome| expect_snapshots(&rt, outcome),
    )??;
    Ok(())
}

/// Expects two workers to have met in each phase, and a user to have gone on.
fn expect_met(rt: &impl Abort, met: &Met) {
    holds(rt, "clean", met.checked.findings().is_empty());
    same(rt, "met", met.met.as_slice(), &[2, 2, 2, 2, 2][..]);
    let wanted = [(0, Wanted::Number(3)), (1, Wanted::Done)];
    expect_replies(rt, met.replies.as_slice(), &wanted);
}

#[test]
fn users_go_on_while_two_workers_check(rt: HostRuntime) -> Result<(), Fail> {
    for _time in 0..TIMES {
        let met = check_beside_a_user(&rt, rt.alloc())?;
        expect_met(&rt, &met);
    }
    Ok(())
}

/// Whether a volume is shared by so many, with room for so many calls.
fn may_share(alloc: Global, limit: u32, seats: u32) -> Result<bool, Refusal> {
    let volume = mounted(alloc, 1, 16, FRESH)?;
    may_share_on::<Brand, Brand>(
        alloc,
        volume,
        limit,
        seats,
        Blank::new(u64::from(seats)),
        Blank::new(u64::from(seats)),
    )
}

/// The same with the ledgers of these blanks.
fn may_share_on<L: Sharing, M: Ledger>(
    alloc: Global,
    volume: Volume<MemDevice>,
    limit: u32,
    seats: u32,
    repairs: Blank,
    others: Blank,
) -> Result<bool, Refusal>
    requires name { (repairs.name ≡ L.name) × (others.name ≡ M.name) }
    requires parts { (repairs.parts ≡ L.parts) × (others.parts ≡ M.parts) }
    requires seats { (repairs.parts ≡ seats) × (others.parts ≡ seats) }
    requires sharing { (L.limit ≡ limit) × ((opened : Opened) → L.opens opened) }
{
    match Shared::<MemDevice, L, M>::new(alloc, volume, limit, seats, repairs, others) {
        Ok((_shared, made)) => Ok(made.len() == seats as usize),
        Err(Refusal::BadIndex) => Ok(false),
        Err(refusal) => Err(refusal),
    }
}

#[test]
fn one_to_64_may_share_a_trace_of_up_to_a_million_calls(rt: HostRuntime) -> Result<(), Fail> {
    same(&rt, "most", (MOST_CALLS, MOST_SEATS), (1_000_000, 64));
    for (limit, seats, wanted) in [
        (1, 1, true),
        (1_000_000, 64, true),
        (0, 1, false),
        (1_000_001, 1, false),
        (1, 0, false),
        (1, 65, false),
    ] {
        let shared = may_share(rt.alloc(), limit, seats)?;
        same(&rt, (limit, seats), shared, wanted);
    }
    Ok(())
}
