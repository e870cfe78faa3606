//! All threads, timed.
ghost use Rattle.std.specs.Prelude.{◌≡◌, ◌+◌, vec_len};
ghost use Rattle.shared.specs.Opened.{Opened};

use crate::job::Load;
use crate::rounds::{Used, use_volume};
use device::MemDevice;
use layout::Refusal;
use shared::{Rotating, Seat, Shared};
use snapshot::Volume;
use std::alloc::{AllocError, Global};
use std::marker::Brand;
use std::sync::Wait;
use std::sync::atomic::{AtomicU64, Ordering};
use std::sync::ledger::{Blank, Ledger};
use std::thread::{Threads, join, map_vec};
use std::time::{Clock, Instant};
use users::{flush_until, mend};

/// How many calls the trace has room for before it is emptied.
const TRACE_LIMIT: u32 = 10_000;

/// What was measured.
#[derive(Clone, Copy)]
pub struct Measured {
    pub used: Used,
    /// The nanoseconds until all users had ended.
    pub all: u128,
    /// How often the volume was checked and mended.
    pub checks: u32,
}

/// Runs this load on a volume.
pub fn run<R: Threads + Wait + Clock + Sync>(
    rt: &R,
    alloc: Global,
    volume: Volume<MemDevice>,
    load: &Load,
) -> Result<Measured, Refusal> {
    let seats = load.users + 2;
    run_on::<Brand, Brand, R>(
        rt,
        alloc,
        volume,
        load,
        seats,
        Blank::new(u64::from(seats)),
        Blank::new(u64::from(seats)),
    )
}

/// The same with the ledgers of these blanks.
fn run_on<L: Rotating + Send + Sync, M: Ledger + Send + Sync, R: Threads + Wait + Clock + Sync>(
    rt: &R,
    alloc: Global,
    volume: Volume<MemDevice>,
    load: &Load,
    seats: u32,
    repairs: Blank,
    others: Blank,
) -> Result<Measured, Refusal>
    requires name { (repairs.name ≡ L.name) × (others.name ≡ M.name) }
    requires parts { (repairs.parts ≡ L.parts) × (others.parts ≡ M.parts) }
    requires seats { (repairs.parts ≡ seats) × (others.parts ≡ seats) }
    requires users { load.now.users + 2 ≡ seats }
    requires sharing { (L.limit ≡ 10000) × ((opened : Opened) → L.opens opened) }
{
    let (shared, seats) = Shared::<MemDevice, L, M>::new(
        alloc,
        volume,
        TRACE_LIMIT,
        seats,
        repairs,
        others,
    )?;
    measure(rt, alloc, &shared, seats, load)
}

/// Runs this load on a shared volume.
fn measure<L: Rotating + Send + Sync, M: Ledger + Send + Sync, R: Threads + Wait + Clock + Sync>(
    rt: &R,
    alloc: Global,
    shared: &Shared<MemDevice, L, M>,
    mut seats: Vec<Seat<L, M>>,
    load: &Load,
) -> Result<Measured, Refusal>
    requires { load.now.users + 2 ≡ vec_len seats }
{
    let (mut checker, mut flusher) = (seats.pop().unwrap(), seats.pop().unwrap());
    let posts = posted(alloc, seats)?;
    let ended = &AtomicU64::new(0);
    // Where no thread can be made the first of two comes last: so those that wait for the users do.
    let (flushed, (checks, used)) = join(
        rt,
        move || flush_until(rt, alloc, shared, &mut flusher, ended, 1),
        move || join(
            rt,
            move || check_until(rt, alloc, shared, &mut checker, load, ended),
            move || {
                let used = use_all(rt, alloc, shared, posts, load.rounds);
                ended.fetch_add(1, Ordering::SeqCst);
                used
            },
        ),
    );
    told_by_all(used, flushed, checks)
}

/// What was measured. Where a user was refused, or else who flushes, or else who checks, that is the refusal.
fn told_by_all(
    used: Result<(Used, u128), Refusal>,
    flushed: Result<(), Refusal>,
    checks: Result<u32, Refusal>,
) -> Result<Measured, Refusal> {
    let (used, all) = used?;
    flushed?;
    Ok(Measured {
        used,
        all,
        checks: checks?,
    })
}

/// A user's seat and number.
#[derive(Drop)]
struct Post<L: Ledger, M: Ledger> {
    seat: Seat<L, M>,
    user: u32,
}

/// A post for each seat.
fn posted<L: Ledger, M: Ledger>(
    alloc: Global,
    seats: Vec<Seat<L, M>>,
) -> Result<Vec<Post<L, M>>, AllocError> {
    let mut posts = Vec::with_capacity(alloc, seats.len())?;
    for (user, seat) in (0..).zip(seats) {
        posts.push(Post { seat, user })?;
    }
    Ok(posts)
}

/// Lets all users carry out so many rounds, each in a thread of its own. Gives what they did, and the nanoseconds of all.
fn use_all<L: Rotating + Send + Sync, M: Ledger + Send + Sync, R: Threads + Wait + Clock + Sync>(
    rt: &R,
    alloc: Global,
    shared: &Shared<MemDevice, L, M>,
    posts: Vec<Post<L, M>>,
    rounds: u32,
) -> Result<(Used, u128), Refusal> {
    let start = Instant::now(rt);
    let take = |post: Post<L, M>| {
        let Post { mut seat, user } = post;
        use_volume(rt, alloc, shared, &mut seat, user, rounds)
    };
    let used = map_vec(rt, posts, &take)?;
    let start = start.map_err(|_| Refusal::Device)?;
    let all = start.elapsed(rt).map_err(|_| Refusal::Device)?.as_nanos();
    let mut sum = Used::NONE;
    for used in used {
        sum = sum.and(used?);
    }
    Ok((sum, all))
}

/// Checks and mends the volume again and again until all users have ended, if the load has that. Counts the checks.
fn check_until<
    L: Rotating + Send + Sync,
    M: Ledger + Send + Sync,
    R: Threads + Wait + Clock + Sync,
>(
    rt: &R,
    alloc: Global,
    shared: &Shared<MemDevice, L, M>,
    seat: &mut Seat<L, M>,
    load: &Load,
    ended: &AtomicU64,
) -> Result<u32, Refusal> {
    let mut checks = 0u32;
    for _ in rt.forever() {
        if !load.beside || ended.load(Ordering::SeqCst) > 0 {
            return Ok(checks);
        }
        mend(rt, alloc, shared, seat, load.workers)?;
        checks = checks.saturating_add(1);
    }
    unreachable!()
}
