//! The thread that mends what leaked.
use crate::calling::call;
use device::Device;
use http_server::Log;
use layout::Refusal;
use shared::{Rotating, Seat, Shared};
use snapshot::{Command, Reply};
use std::alloc::Global;
use std::sync::Wait;
use std::sync::atomic::{AtomicU64, Ordering};
use std::sync::ledger::Ledger;
use std::thread::{Threads, yield_now};
use upkeep::{Asked, Mended};
use workers::{OpenGate, Workers};

/// A user of a shared volume, as it is asked to mend.
#[derive(Drop)]
struct Caller<'a, D: Device, L: Rotating, M: Ledger, R> {
    rt: &'a R,
    alloc: Global,
    shared: &'a Shared<D, L, M>,
    seat: &'a mut Seat<L, M>,
    calls: Log<Command, Reply>,
}

impl<D: Device + Drop, L: Rotating, M: Ledger, R: Wait> Asked for Caller<'_, D, L, M, R> {
    ghost calls = { λ caller. caller.calls.items };

    fn ask(&mut self, command: &Command) -> Reply {
        let reply = call(self.rt, self.alloc, self.shared, self.seat, command);
        self.calls = self.calls.and(command, &reply);
        reply
    }
}

/// Mends the volume as `upkeep::mend` does. Where another thread froze it before the check was installed, it begins anew. Refused
/// with `TooManySnapshots` where four others stand.
pub fn mend<D: Device + Drop, L: Rotating, M: Ledger, R: Threads + Wait + Sync>(
    rt: &R,
    alloc: Global,
    shared: &Shared<D, L, M>,
    seat: &mut Seat<L, M>,
    workers: Workers,
) -> Result<Mended, Refusal> {
    for _ in rt.forever() {
        let mut caller = Caller {
            rt,
            alloc,
            shared,
            seat,
            calls: Log::new(),
        };
        if let Some(mended) = upkeep::mend(rt, alloc, &mut caller, workers, &OpenGate)? {
            return Ok(mended);
        }
    }
    unreachable!()
}

/// Mends the volume beside users, of whom so many have ended. Where four snapshots stand, it waits for one of them to end, and
/// is refused where all users have ended.
pub(crate) fn mend_beside<D: Device + Drop, L: Rotating, M: Ledger, R: Threads + Wait + Sync>(
    rt: &R,
    alloc: Global,
    shared: &Shared<D, L, M>,
    seat: &mut Seat<L, M>,
    workers: Workers,
    ended: &AtomicU64,
) -> Result<Mended, Refusal> {
    for _ in rt.forever() {
        let is_over = ended.load(Ordering::SeqCst) > 0;
        match mend(rt, alloc, shared, seat, workers) {
            Err(Refusal::TooManySnapshots) if !is_over => yield_now(),
            mended => return mended,
        }
    }
    unreachable!()
}
