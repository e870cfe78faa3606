//! Steps on a volume that two threads share.
ghost use Rattle.std.specs.Prelude.{◌≡◌, ◌∷◌, [], IfOk, vec_len};
ghost use Rattle.shared.specs.Opened.{Opened};

use device::{Byte, MemDevice};
use findings::Finding;
use fsck::{Checked, check_one};
use layout::Refusal;
use outcomes::with;
use shared::{Closed, Progress, Rotating, Seat, Shared, Sharing};
use snapshot::{Answer, Command, Reply, Volume};
use std::alloc::{AllocError, Global};
use std::marker::Brand;
use std::sync::ledger::{Blank, Ledger};
use std::sync::{Arc, Wait};
use std::thread::{Threads, join};
use test_mounted::{Asked, command_of, mounted};

/// What is done next.
#[derive(Clone, Copy)]
pub enum Step {
    /// A thread makes this call, from the seat of which the other one made the call before.
    Call(Asked),
    /// The volume is frozen, the snapshot is checked, and the check is installed.
    Check,
    /// Two threads make these calls, each its own in order.
    AtOnce(&'static [Asked], &'static [Asked]),
    /// Two threads carry out all repairs.
    RepairAll,
    /// The trace is emptied.
    Rotate,
}

/// What was answered.
#[derive(Drop)]
pub struct Told {
    /// The replies to all calls but those of `RepairAll`; of `AtOnce`, those of the first thread come first.
    pub replies: Vec<Reply>,
    /// What the last check found.
    pub findings: Vec<Finding>,
    /// How many repairs the threads of `RepairAll` carried out.
    pub done: u64,
}

/// What was answered, and what was left.
#[derive(Drop)]
pub struct Outcome {
    pub told: Told,
    pub closed: Closed<MemDevice>,
}

/// The two seats, of which the first one makes the next call.
#[derive(Drop)]
struct Seats<L: Ledger, M: Ledger> {
    next: Seat<L, M>,
    other: Seat<L, M>,
}

/// Carries out the steps on a shared volume with room for so many calls, and closes it. Its image has one group, and is
/// fresh but for these bytes.
pub fn carry_out<R: Threads + Wait + Sync>(
    rt: &R,
    alloc: Global,
    bytes: &[Byte],
    limit: u32,
    steps: &[Step],
) -> Result<Outcome, Refusal> {
    let volume = mounted(alloc, 1, 16, bytes)?;
    carry_out_on::<Brand, Brand, R>(
        rt,
        alloc,
        volume,
        limit,
        steps,
        Blank::new(2),
        Blank::new(2),
    )
}

/// The same with the ledgers of these blanks.
fn carry_out_on<L: Rotating + Send + Sync, M: Ledger + Send + Sync, R: Threads + Wait + Sync>(
    rt: &R,
    alloc: Global,
    volume: Volume<MemDevice>,
    limit: u32,
    steps: &[Step],
    repairs: Blank,
    others: Blank,
) -> Result<Outcome, Refusal>
    requires name { (repairs.name ≡ L.name) × (others.name ≡ M.name) }
    requires parts { (repairs.parts ≡ L.parts) × (others.parts ≡ M.parts) }
    requires two { (repairs.parts ≡ 2) × (others.parts ≡ 2) }
    requires sharing { (L.limit ≡ limit) × ((opened : Opened) → L.opens opened) }
{
    let (shared, seats) = Shared::<MemDevice, L, M>::new(alloc, volume, limit, 2, repairs, others)?;
    let done = do_all(rt, alloc, &shared, seats, steps);
    let (Done { told, seats }, shared) = with(done, shared)?;
    Ok(Outcome {
        told,
        closed: shared.close(seats),
    })
}

/// Both seats.
fn two_of<L: Ledger, M: Ledger>(mut seats: Vec<Seat<L, M>>) -> Seats<L, M>
    requires { vec_len seats ≡ 2 }
{
    Seats {
        next: seats.pop().unwrap(),
        other: seats.pop().unwrap(),
    }
}

/// Both seats in one list.
fn both<L: Ledger, M: Ledger>(
    alloc: Global,
    seats: Seats<L, M>,
) -> Result<Vec<Seat<L, M>>, AllocError>
    ensures { IfOk result (λ all. all.items ≡ seats.next ∷ seats.other ∷ []) }
{
    let Seats { next, other } = seats;
    let mut all = Vec::new(alloc);
    all.push(next)?;
    all.push(other)?;
    Ok(all)
}

/// What was answered, and the seats.
#[derive(Drop)]
struct Done<L: Ledger, M: Ledger> {
    told: Told,
    seats: Vec<Seat<L, M>>,
}

/// Carries out the steps.
fn do_all<L: Rotating + Send + Sync, M: Ledger + Send + Sync, R: Threads + Wait + Sync>(
    rt: &R,
    alloc: Global,
    shared: &Shared<MemDevice, L, M>,
    seats: Vec<Seat<L, M>>,
    steps: &[Step],
) -> Result<Done<L, M>, Refusal>
    requires { vec_len seats ≡ 2 }
    ensures { IfOk result (λ done. vec_len done.seats ≡ 2) }
{
    let mut told = Told {
        replies: Vec::new(alloc),
        findings: Vec::new(alloc),
        done: 0,
    };
    let seats = do_each(rt, alloc, shared, two_of(seats), steps, &mut told);
    let (seats, told) = with(seats, told)?;
    let (seats, told) = with(both(alloc, seats), told)?;
    Ok(Done { told, seats })
}

/// Carries out the steps, and adds to what was answered.
fn do_each<L: Rotating + Send + Sync, M: Ledger + Send + Sync, R: Threads + Wait + Sync>(
    rt: &R,
    alloc: Global,
    shared: &Shared<MemDevice, L, M>,
    mut seats: Seats<L, M>,
    steps: &[Step],
    told: &mut Told,
) -> Result<Seats<L, M>, Refusal> {
    for step in steps {
        let (later, done) = do_step(rt, alloc, shared, seats, *step, told);
        seats = later;
        done?;
    }
    Ok(seats)
}

/// Carries out a step, and adds to what was answered.
fn do_step<L: Rotating + Send + Sync, M: Ledger + Send + Sync, R: Threads + Wait + Sync>(
    rt: &R,
    alloc: Global,
    shared: &Shared<MemDevice, L, M>,
    seats: Seats<L, M>,
    step: Step,
    told: &mut Told,
) -> (Seats<L, M>, Result<(), Refusal>) {
    match step {
        Step::Call(asked) => {
            let (seats, reply) = ask(rt, alloc, shared, seats, asked);
            (seats, noted(told, reply))
        }
        Step::Check => {
            let (seats, checked) = check(rt, alloc, shared, seats);
            (seats, found(told, checked))
        }
        Step::AtOnce(first, second) => at_once(rt, alloc, shared, seats, first, second, told),
        Step::RepairAll => repair_at_once(rt, alloc, shared, seats, told),
        Step::Rotate => rotate(rt, shared, seats),
    }
}

/// Adds what a check found, and the reply to its installing.
fn found(told: &mut Told, checked: Result<(Vec<Finding>, Reply), Refusal>) -> Result<(), Refusal> {
    let (findings, reply) = checked?;
    told.findings = findings;
    noted(told, reply)
}

/// Empties the trace.
fn rotate<L: Rotating, M: Ledger, R: Wait>(
    rt: &R,
    shared: &Shared<MemDevice, L, M>,
    seats: Seats<L, M>,
) -> (Seats<L, M>, Result<(), Refusal>) {
    let Seats { mut next, other } = seats;
    let rotated = shared.rotate(rt, &mut next);
    (Seats { next, other }, rotated)
}

/// Makes a call in a thread of its own.
fn ask<L: Sharing + Send + Sync, M: Ledger + Send + Sync, R: Threads + Wait + Sync>(
    rt: &R,
    alloc: Global,
    shared: &Shared<MemDevice, L, M>,
    seats: Seats<L, M>,
    asked: Asked,
) -> (Seats<L, M>, Reply) {
    match command_of(alloc, asked) {
        Ok(command) => call_apart(rt, alloc, shared, seats, command),
        Err(_) => (seats, Err(Refusal::NoMemory)),
    }
}

/// Adds a reply.
fn noted(told: &mut Told, reply: Reply) -> Result<(), Refusal> {
    told.replies.push(reply)?;
    Ok(())
}

/// Makes a call in a thread of its own.
fn call_apart<L: Sharing + Send + Sync, M: Ledger + Send + Sync, R: Threads + Wait + Sync>(
    rt: &R,
    alloc: Global,
    shared: &Shared<MemDevice, L, M>,
    seats: Seats<L, M>,
    command: Command,
) -> (Seats<L, M>, Reply) {
    let Seats { next, other } = seats;
    let ((), (next, reply)) = join(
        rt,
        || (),
        move || {
            let mut seat = next;
            let reply = shared.call(rt, alloc, &mut seat, command);
            (seat, reply)
        },
    );
    (
        Seats {
            next: other,
            other: next,
        },
        reply,
    )
}

/// Freezes the volume, checks the snapshot, and installs the check.
fn check<L: Sharing + Send + Sync, M: Ledger + Send + Sync, R: Threads + Wait + Sync>(
    rt: &R,
    alloc: Global,
    shared: &Shared<MemDevice, L, M>,
    seats: Seats<L, M>,
) -> (Seats<L, M>, Result<(Vec<Finding>, Reply), Refusal>) {
    let (seats, frozen) = call_apart(rt, alloc, shared, seats, Command::Freeze);
    match checked(rt, alloc, frozen) {
        Ok((findings, checked)) => {
            let (seats, reply) = call_apart(rt, alloc, shared, seats, Command::Install(checked));
            (seats, Ok((findings, reply)))
        }
        Err(refusal) => (seats, Err(refusal)),
    }
}

/// The check of an image that was frozen, and what it found.
fn checked<R: Threads + Sync>(
    rt: &R,
    alloc: Global,
    frozen: Reply,
) -> Result<(Vec<Finding>, Arc<Checked>), Refusal> {
    match frozen? {
        Answer::Image(_, frozen) => {
            let checked = check_one(rt, alloc, &frozen)?;
            let findings = checked.findings().to_vec(alloc)?;
            Ok((findings, Arc::new(alloc, checked)?))
        }
        _ => Err(Refusal::NoSnapshot),
    }
}

/// Two threads make these calls.
fn at_once<L: Sharing + Send + Sync, M: Ledger + Send + Sync, R: Threads + Wait + Sync>(
    rt: &R,
    alloc: Global,
    shared: &Shared<MemDevice, L, M>,
    seats: Seats<L, M>,
    first: &[Asked],
    second: &[Asked],
    told: &mut Told,
) -> (Seats<L, M>, Result<(), Refusal>) {
    let Seats { next, other } = seats;
    let ((next, first), (other, second)) = join(
        rt,
        move || calls(rt, alloc, shared, next, first),
        move || calls(rt, alloc, shared, other, second),
    );
    let seats = Seats { next, other };
    match (first, second) {
        (Ok(first), Ok(second)) => (seats, all_noted(told, first, second)),
        _ => (seats, Err(Refusal::NoMemory)),
    }
}

/// Adds these replies.
fn all_noted(told: &mut Told, first: Vec<Reply>, second: Vec<Reply>) -> Result<(), Refusal> {
    for reply in first.into_iter().chain(second) {
        told.replies.push(reply)?;
    }
    Ok(())
}

/// Makes these calls from this seat, in order, and gives the replies.
fn calls<L: Sharing, M: Ledger, R: Wait>(
    rt: &R,
    alloc: Global,
    shared: &Shared<MemDevice, L, M>,
    mut seat: Seat<L, M>,
    asked: &[Asked],
) -> (Seat<L, M>, Result<Vec<Reply>, AllocError>) {
    let replies = replies_to(rt, alloc, shared, &mut seat, asked);
    (seat, replies)
}

/// Makes these calls from this seat, in order.
fn replies_to<L: Sharing, M: Ledger, R: Wait>(
    rt: &R,
    alloc: Global,
    shared: &Shared<MemDevice, L, M>,
    seat: &mut Seat<L, M>,
    asked: &[Asked],
) -> Result<Vec<Reply>, AllocError> {
    let mut replies = Vec::new(alloc);
    for asked in asked {
        let command = command_of(alloc, *asked)?;
        replies.push(shared.call(rt, alloc, seat, command))?;
    }
    Ok(replies)
}

/// Two threads carry out all repairs.
fn repair_at_once<L: Sharing + Send + Sync, M: Ledger + Send + Sync, R: Threads + Wait + Sync>(
    rt: &R,
    alloc: Global,
    shared: &Shared<MemDevice, L, M>,
    seats: Seats<L, M>,
    told: &mut Told,
) -> (Seats<L, M>, Result<(), Refusal>) {
    let Seats { next, other } = seats;
    let ((next, first), (other, second)) = join(
        rt,
        move || repairs(rt, alloc, shared, next),
        move || repairs(rt, alloc, shared, other),
    );
    let seats = Seats { next, other };
    match (first, second) {
        (Ok(first), Ok(second)) => {
            told.done = u64::from(first.done) + u64::from(second.done);
            (seats, Ok(()))
        }
        (Err(refusal), _) | (_, Err(refusal)) => (seats, Err(refusal)),
    }
}

/// Carries out all repairs from this seat.
fn repairs<L: Sharing, M: Ledger, R: Wait>(
    rt: &R,
    alloc: Global,
    shared: &Shared<MemDevice, L, M>,
    mut seat: Seat<L, M>,
) -> (Seat<L, M>, Result<Progress, Refusal>) {
    let mut progress = Progress::new();
    let repaired = shared.repair_all(rt, alloc, &mut seat, &mut progress);
    (seat, repaired.map(|()| progress))
}
