//! A check by two workers of a snapshot, while a user goes on.
ghost use Rattle.std.specs.Prelude.{◌≡◌, vec_len};
ghost use Rattle.shared.specs.Opened.{Opened};

use super::images::FRESH;
use device::MemDevice;
use frozen::Frozen;
use fsck::{Checked, check};
use layout::Refusal;
use shared::{Seat, Shared, Sharing};
use snapshot::{Answer, Command, Reply, Volume};
use std::alloc::{AllocError, Global};
use std::marker::Brand;
use std::sync::atomic::{AtomicU64, Ordering};
use std::sync::ledger::{Blank, Ledger};
use std::sync::{Arc, Wait};
use std::thread;
use std::thread::{Threads, join};
use std::time::{Clock, Duration};
use test_mounted::{Asked, command_of, mounted};
use workers::{Gate, Workers};

/// How often a gate looks, at most, and a millisecond lies between.
const TURNS: u32 = 10_000;

/// How many workers came to a phase for each of two units, and how many of the first ones met.
#[derive(Drop)]
struct Place {
    first: AtomicU64,
    second: AtomicU64,
    met: AtomicU64,
}

/// A gate that holds the first pass of each of two units in a phase until both came to it in that phase; and in phase 1 until
/// a user was answered twice.
#[derive(Drop)]
struct Meeting<'a, R> {
    clock: &'a R,
    places: &'a [Place],
    answered: &'a AtomicU64,
}

impl<R: Clock + Sync> Gate for Meeting<'_, R> {
    fn pass(&self, phase: u8, unit: u32) {
        let Some(place) = self.places.get(usize::from(phase).wrapping_sub(1)) else {
            return;
        };
        let mine = if unit == 0 {
            &place.first
        } else {
            &place.second
        };
        if mine.fetch_add(1, Ordering::SeqCst) > 0 {
            return;
        }
        for _turn in 0..TURNS {
            let both = place.first.load(Ordering::SeqCst) > 0
                && place.second.load(Ordering::SeqCst) > 0;
            if both && (phase != 1 || self.answered.load(Ordering::SeqCst) >= 2) {
                place.met.fetch_add(1, Ordering::SeqCst);
                return;
            }
            thread::sleep(self.clock, Duration::from_millis(1));
        }
    }
}

/// The places of five phases, to which nobody came.
fn five_places(alloc: Global) -> Result<Vec<Place>, AllocError> {
    let mut places = Vec::new(alloc);
    for _phase in 0..5 {
        places.push(Place {
            first: AtomicU64::new(0),
            second: AtomicU64::new(0),
            met: AtomicU64::new(0),
        })?;
    }
    Ok(places)
}

/// What came of it.
#[derive(Drop)]
pub struct Met {
    /// The check.
    pub checked: Checked,
    /// What the user was answered.
    pub replies: Vec<Reply>,
    /// How many of the two workers met in each phase.
    pub met: Vec<u64>,
}

/// A fresh volume of two groups is frozen and checked by two workers, while a user makes a file and takes it away: the first
/// phase goes on only once the user was answered.
pub fn check_beside_a_user<R: Threads + Wait + Clock + Sync>(
    rt: &R,
    alloc: Global,
) -> Result<Met, Refusal> {
    let volume = mounted(alloc, 2, 16, FRESH)?;
    check_beside_on::<Brand, Brand, R>(rt, alloc, volume, Blank::new(2), Blank::new(2))
}

/// The same with the ledgers of these blanks.
fn check_beside_on<
    L: Sharing + Send + Sync,
    M: Ledger + Send + Sync,
    R: Threads + Wait + Clock + Sync,
>(
    rt: &R,
    alloc: Global,
    volume: Volume<MemDevice>,
    repairs: Blank,
    others: Blank,
) -> Result<Met, Refusal>
    requires name { (repairs.name ≡ L.name) × (others.name ≡ M.name) }
    requires parts { (repairs.parts ≡ L.parts) × (others.parts ≡ M.parts) }
    requires two { (repairs.parts ≡ 2) × (others.parts ≡ 2) }
    requires sharing { (L.limit ≡ 100) × ((opened : Opened) → L.opens opened) }
{
    let (shared, mut seats) = Shared::<MemDevice, L, M>::new(
        alloc, volume, 100, 2, repairs, others,
    )?;
    let (checker, user) = (seats.pop().unwrap(), seats.pop().unwrap());
    check_beside(rt, alloc, &shared, checker, user)
}

/// One seat freezes the volume, and what is frozen is checked while the other one is at work.
fn check_beside<
    L: Sharing + Send + Sync,
    M: Ledger + Send + Sync,
    R: Threads + Wait + Clock + Sync,
>(
    rt: &R,
    alloc: Global,
    shared: &Shared<MemDevice, L, M>,
    mut checker: Seat<L, M>,
    user: Seat<L, M>,
) -> Result<Met, Refusal> {
    let frozen = image_of(shared.call(rt, alloc, &mut checker, Command::Freeze))?;
    let places = five_places(alloc)?;
    let (checked, replies) = check_at(rt, alloc, shared, user, &frozen, places.as_slice());
    Ok(Met {
        met: met_at(alloc, places.as_slice())?,
        checked: checked?,
        replies: replies?,
    })
}

/// The image that was frozen.
fn image_of(reply: Reply) -> Result<Arc<Frozen>, Refusal> {
    match reply? {
        Answer::Image(_, frozen) => Ok(frozen),
        _ => Err(Refusal::NoSnapshot),
    }
}

/// What is frozen is checked by two workers, who meet at these places, while a user goes on.
fn check_at<L: Sharing + Send + Sync, M: Ledger + Send + Sync, R: Threads + Wait + Clock + Sync>(
    rt: &R,
    alloc: Global,
    shared: &Shared<MemDevice, L, M>,
    user: Seat<L, M>,
    frozen: &Arc<Frozen>,
    places: &[Place],
) -> (Result<Checked, Refusal>, Result<Vec<Reply>, AllocError>) {
    let answered = AtomicU64::new(0);
    let gate = Meeting {
        clock: rt,
        places,
        answered: &answered,
    };
    let workers = Workers::nearest(2);
    join(
        rt,
        || check(rt, alloc, frozen, workers, &gate),
        || make_and_take_away(rt, alloc, shared, user, &answered),
    )
}

/// How many workers met at each of these places.
fn met_at(alloc: Global, places: &[Place]) -> Result<Vec<u64>, AllocError> {
    let mut met = Vec::new(alloc);
    for place in places {
        met.push(place.met.load(Ordering::SeqCst))?;
    }
    Ok(met)
}

/// A file is made, and taken away.
const MADE_AND_TAKEN_AWAY: [Asked; 2] = [Asked::Create(b"/u"), Asked::Unlink(b"/u")];

/// Makes a file and takes it away, and counts each answer.
fn make_and_take_away<L: Sharing, M: Ledger, R: Wait>(
    rt: &R,
    alloc: Global,
    shared: &Shared<MemDevice, L, M>,
    mut seat: Seat<L, M>,
    answered: &AtomicU64,
) -> Result<Vec<Reply>, AllocError> {
    let mut replies = Vec::new(alloc);
    for asked in MADE_AND_TAKEN_AWAY {
        let command = command_of(alloc, asked)?;
        replies.push(shared.call(rt, alloc, &mut seat, command))?;
        answered.fetch_add(1, Ordering::SeqCst);
    }
    Ok(replies)
}
