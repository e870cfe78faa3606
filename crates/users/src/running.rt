//! All threads of a script.
ghost use Rattle.std.specs.Prelude.{◌≡◌, ◌+◌, IfOk, IfSome, vec_len};
ghost use Rattle.shared.specs.Opened.{opened_of};

use crate::checking::mend_beside;
use crate::flushing::flush_until;
use crate::lines::{Answered, carry_out};
use device::Device;
use layout::Refusal;
use outcomes::with;
use shared::{Rotating, Seat, Shared};
use snapshot::{Command, Volume};
use std::alloc::{AllocError, Global};
use std::collections::BTreeMap;
use std::marker::Brand;
use std::sync::Wait;
use std::sync::atomic::{AtomicU64, Ordering};
use std::sync::ledger::{Blank, Ledger};
use std::thread::{Threads, join, map_vec};
use upkeep::Mended;
use user_scripts::UserLine;
use workers::Workers;

/// How many calls the trace has room for before it is emptied.
const TRACE_LIMIT: u32 = 100_000;

/// What came of a script.
#[derive(Drop)]
pub struct Ran<D: Device> {
    /// The lines of the first user in their order, then those of the next one, each with its reply.
    pub answered: Vec<Answered>,
    pub mended: Mended,
    pub volume: Volume<D>,
}

/// A user's seat and lines.
#[derive(Drop)]
struct Post<L: Ledger, M: Ledger> {
    seat: Seat<L, M>,
    lines: Vec<UserLine>,
}

/// A user's seat, and what came of its lines.
#[derive(Drop)]
struct Left<L: Ledger, M: Ledger> {
    seat: Seat<L, M>,
    answered: Result<Vec<Answered>, AllocError>,
}

/// Carries out the lines of a script, those of each user in order by a thread of its own. Beside them one thread freezes the
/// volume, checks the snapshot with so many workers, installs the check, carries out each of its repairs and ends the
/// snapshot, once; and one flushes what may go to the device, until all others have ended. Then all is written. The one that
/// checks waits while users have four snapshots, and is refused with `TooManySnapshots` where they leave four. Where the
/// thread that checks was refused, or else the one that flushes, that is the refusal; further refused with `NoMemory`, and
/// with `Device` where not all could be written.
pub fn run<D: Device + Drop + Send, R: Threads + Wait + Sync>(
    rt: &R,
    alloc: Global,
    volume: Volume<D>,
    script: Vec<UserLine>,
    workers: Workers,
) -> Result<Ran<D>, Refusal> {
    let (users, volume) = with(users_of(alloc, script), volume)?;
    let (users, seats) = users;
    let Outcome { told, mut volume } = run_on::<D, Brand, Brand, R>(
        rt,
        alloc,
        volume,
        users,
        workers,
        seats,
        Blank::new(u64::from(seats)),
        Blank::new(u64::from(seats)),
    )?;
    let told = written(alloc, &mut volume, told);
    let (told, volume) = with(told, volume)?;
    let Told { answered, mended } = told;
    Ok(Ran {
        answered,
        mended,
        volume,
    })
}

/// What came of all threads, and what was left.
#[derive(Drop)]
struct Outcome<D: Device> {
    told: Result<Told, Refusal>,
    volume: Volume<D>,
}

/// What all threads tell.
#[derive(Drop)]
struct Told {
    answered: Vec<Answered>,
    mended: Mended,
}

/// The lines of each user that has some, and how many seats their threads and two more need.
fn users_of(alloc: Global, script: Vec<UserLine>) -> Result<(Vec<Vec<UserLine>>, u32), Refusal>
    ensures { IfOk result (λ users. vec_len users.0 + 2 ≡ users.1) }
{
    let users = by_user(alloc, script)?;
    // No script has so many users.
    let seats = seats_for(users.len()).ok_or(Refusal::BadIndex)?;
    Ok((users, seats))
}

/// The seats of so many users' threads and two more.
fn seats_for(users: usize) -> Option<u32>
    ensures { IfSome result (λ seats. users + 2 ≡ seats) }
{
    u32::try_from(users).ok()?.checked_add(2)
}

/// What all threads tell, once all is written.
fn written<D: Device>(
    alloc: Global,
    volume: &mut Volume<D>,
    told: Result<Told, Refusal>,
) -> Result<Told, Refusal> {
    let told = told?;
    volume.apply(alloc, &Command::Sync)?;
    Ok(told)
}

/// The lines of each user that has some, in the order of the users.
fn by_user(alloc: Global, script: Vec<UserLine>) -> Result<Vec<Vec<UserLine>>, AllocError> {
    let mut users: BTreeMap<u8, Vec<UserLine>> = BTreeMap::new(alloc);
    for line in script {
        match users.get_mut(&line.user) {
            Some(lines) => lines.push(line)?,
            None => {
                let user = line.user;
                users.insert(user, vec![in alloc; line]?)?;
            }
        }
    }
    let mut lines_of_users = Vec::with_capacity(alloc, users.len())?;
    for (_user, lines) in users {
        lines_of_users.push(lines)?;
    }
    Ok(lines_of_users)
}

/// Runs all threads, with the ledgers of these blanks.
fn run_on<
    D: Device + Drop + Send,
    L: Rotating + Send + Sync,
    M: Ledger + Send + Sync,
    R: Threads + Wait + Sync,
>(
    rt: &R,
    alloc: Global,
    volume: Volume<D>,
    users: Vec<Vec<UserLine>>,
    workers: Workers,
    seats: u32,
    repairs: Blank,
    others: Blank,
) -> Result<Outcome<D>, Refusal>
    requires name { (repairs.name ≡ L.name) × (others.name ≡ M.name) }
    requires parts { (repairs.parts ≡ L.parts) × (others.parts ≡ M.parts) }
    requires seats { (repairs.parts ≡ seats) × (others.parts ≡ seats) }
    requires sharing { (L.limit ≡ 100000) × L.opens (opened_of D.held D.image volume) }
    requires users { vec_len users + 2 ≡ seats }
{
    let (shared, seats) = Shared::<D, L, M>::new(
        alloc,
        volume,
        TRACE_LIMIT,
        seats,
        repairs,
        others,
    )?;
    let (seats, told) = work_on(rt, alloc, &shared, seats, users, workers)?;
    let volume = shared.close(seats).volume;
    Ok(Outcome { told, volume })
}

/// Runs all threads on a shared volume, and gives the seats back with what they tell.
fn work_on<
    D: Device + Drop + Send,
    L: Rotating + Send + Sync,
    M: Ledger + Send + Sync,
    R: Threads + Wait + Sync,
>(
    rt: &R,
    alloc: Global,
    shared: &Shared<D, L, M>,
    mut seats: Vec<Seat<L, M>>,
    users: Vec<Vec<UserLine>>,
    workers: Workers,
) -> Result<(Vec<Seat<L, M>>, Result<Told, Refusal>), Refusal>
    requires { vec_len users + 2 ≡ vec_len seats }
    ensures { IfOk result (λ ended. vec_len ended.0 ≡ vec_len seats) }
{
    let (checker, flusher) = (seats.pop().unwrap(), seats.pop().unwrap());
    let posts = posted(alloc, seats, users)?;
    let (left, (checker, mended), (flusher, flushed)) = work_all(
        rt, alloc, shared, posts, checker, flusher, workers,
    );
    let (mut seats, answered) = gathered(alloc, left?)?;
    seats.push(checker)?;
    seats.push(flusher)?;
    Ok((seats, told_by_all(answered, mended, flushed)))
}

/// What all threads tell. Where the one that checks was refused, or else the one that flushes, that is the refusal; further
/// refused with `NoMemory`.
fn told_by_all(
    answered: Result<Vec<Answered>, AllocError>,
    mended: Result<Mended, Refusal>,
    flushed: Result<(), Refusal>,
) -> Result<Told, Refusal> {
    let mended = mended?;
    flushed?;
    Ok(Told {
        answered: answered?,
        mended,
    })
}

/// A post for each user.
fn posted<L: Ledger, M: Ledger>(
    alloc: Global,
    mut seats: Vec<Seat<L, M>>,
    users: Vec<Vec<UserLine>>,
) -> Result<Vec<Post<L, M>>, AllocError>
    requires { vec_len seats ≡ vec_len users }
    ensures { IfOk result (λ posts. vec_len posts ≡ vec_len users) }
{
    let mut posts = Vec::with_capacity(alloc, users.len())?;
    for lines in users {
        let seat = seats.pop().unwrap();
        posts.push(Post { seat, lines })?;
    }
    Ok(posts)
}

/// What came of the users' posts, of the thread that checks, and of the one that flushes.
type AllWork<L, M> = (
    Result<Vec<Left<L, M>>, AllocError>,
    (Seat<L, M>, Result<Mended, Refusal>),
    (Seat<L, M>, Result<(), Refusal>),
);

/// Whom the thread that flushes waits for: the users, all together, and the one that checks.
const OTHERS: u64 = 2;

/// Runs the threads of the users, the one that checks and the one that flushes.
fn work_all<
    D: Device + Drop + Send,
    L: Rotating + Send + Sync,
    M: Ledger + Send + Sync,
    R: Threads + Wait + Sync,
>(
    rt: &R,
    alloc: Global,
    shared: &Shared<D, L, M>,
    posts: Vec<Post<L, M>>,
    checker: Seat<L, M>,
    flusher: Seat<L, M>,
    workers: Workers,
) -> AllWork<L, M>
    ensures { IfOk result.0 (λ left. vec_len left ≡ vec_len posts) }
{
    let ended = &AtomicU64::new(0);
    // Where no thread can be made the first of two comes last: so the one that waits for the others does.
    let (flushed, (checked, left)) = join(
        rt,
        move || {
            let mut seat = flusher;
            let flushed = flush_until(rt, alloc, shared, &mut seat, ended, OTHERS);
            (seat, flushed)
        },
        move || join(
            rt,
            move || {
                let mut seat = checker;
                let mended = mend_beside(rt, alloc, shared, &mut seat, workers, ended);
                ended.fetch_add(1, Ordering::SeqCst);
                (seat, mended)
            },
            move || -> Result<Vec<Left<L, M>>, AllocError>
                ensures { IfOk result (λ left. vec_len left ≡ vec_len posts) }
            {
                let left = carry_out_all(rt, alloc, shared, posts);
                ended.fetch_add(1, Ordering::SeqCst);
                left
            },
        ),
    );
    (left, checked, flushed)
}

/// Carries out the lines of each user in a thread of its own.
fn carry_out_all<
    D: Device + Drop + Send,
    L: Rotating + Send + Sync,
    M: Ledger + Send + Sync,
    R: Threads + Wait + Sync,
>(
    rt: &R,
    alloc: Global,
    shared: &Shared<D, L, M>,
    posts: Vec<Post<L, M>>,
) -> Result<Vec<Left<L, M>>, AllocError>
    ensures { IfOk result (λ left. vec_len left ≡ vec_len posts) }
{
    let take = |post: Post<L, M>| {
        let Post { mut seat, lines } = post;
        let answered = carry_out(rt, alloc, shared, &mut seat, lines);
        Left { seat, answered }
    };
    map_vec(rt, posts, &take)
}

/// The users' seats, and their lines with the replies, those of the first user first.
fn gathered<L: Ledger, M: Ledger>(
    alloc: Global,
    left: Vec<Left<L, M>>,
) -> Result<(Vec<Seat<L, M>>, Result<Vec<Answered>, AllocError>), AllocError>
    ensures { IfOk result (λ gathered. vec_len gathered.0 ≡ vec_len left) }
{
    let mut seats = Vec::with_capacity(alloc, left.len())?;
    let mut all = Ok(Vec::new(alloc));
    for Left { seat, answered } in left {
        seats.push(seat)?;
        all = all.and_then(|all| appended(all, answered));
    }
    Ok((seats, all))
}

/// The lines of the users before, and those of one more.
fn appended(
    mut all: Vec<Answered>,
    answered: Result<Vec<Answered>, AllocError>,
) -> Result<Vec<Answered>, AllocError> {
    all.append(&mut answered?)?;
    Ok(all)
}
