//! How many workers a phase has.
#![tactic(auto)]

ghost use Rattle.std.specs.Prelude.{◌≡◌, ◌≤◌, ◌↔◌, IfOk, IsErrOf, IsFalse, IsOkUnless, IsTrue, length, max, min};
ghost use Rattle.worker_counts.specs.Workers.{may_work};

use layout::Refusal;

/// The most workers that a phase may have.
const MOST_WORKERS: usize = 64;

/// How many workers a phase has: 1 to 64.
#[derive(Clone, Copy, Debug, PartialEq, Eq)]
pub struct Workers {
    count: u32,
    pub ghost allowed: { IsTrue (may_work count) },
}

impl Workers {
    /// One alone.
    pub const ONE: Workers = Workers { count: 1 };

    /// So many workers. `BadWorkers` is refused where these are not 1 to 64.
    pub fn new(count: u32) -> Result<Workers, Refusal>
        ensures made { IfOk result (λ workers. workers.count ≡ count) }
        ensures bad_workers { IsErrOf result Refusal.BadWorkers ↔ IsFalse (may_work count) }
        ensures error { IsOkUnless result Refusal.BadWorkers }
    {
        if count == 0 || count as usize > MOST_WORKERS {
            return Err(Refusal::BadWorkers);
        }
        Ok(Workers { count })
    }

    /// A worker for each place of a list. `BadWorkers` is refused where there are not 1 to 64.
    pub fn for_each<T>(list: &[T]) -> Result<Workers, Refusal>
        ensures made { IfOk result (λ workers. workers.count ≡ length list.now) }
        ensures bad_workers { IsErrOf result Refusal.BadWorkers ↔ IsFalse (may_work (length list.now)) }
        ensures error { IsOkUnless result Refusal.BadWorkers }
    {
        match u32::try_from(list.len()) {
            Ok(count) => Workers::new(count),
            Err(_) => Err(Refusal::BadWorkers),
        }
    }

    /// The number of workers that is nearest to this one: 1 for 0, and 64 for more.
    pub fn nearest(count: usize) -> Workers
        ensures { result.count ≡ min (max count 1) 64 }
    {
        Workers {
            count: count.max(1).min(MOST_WORKERS) as u32,
        }
    }

    /// How many they are.
    pub fn count(self) -> u32
        ensures count { result ≡ self.count }
        ensures some { 1 ≤ result }
        ensures few { result ≤ 64 }
    {
        self.count
    }
}
