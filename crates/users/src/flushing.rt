//! The thread that flushes.
use device::Device;
use layout::Refusal;
use shared::{Rotating, Seat, Shared};
use std::alloc::Global;
use std::sync::Wait;
use std::sync::atomic::{AtomicU64, Ordering};
use std::sync::ledger::Ledger;
use std::thread::yield_now;

/// Flushes what may go to the device, until so many others have ended.
pub fn flush_until<D: Device + Drop, L: Rotating, M: Ledger, R: Wait>(
    rt: &R,
    alloc: Global,
    shared: &Shared<D, L, M>,
    seat: &mut Seat<L, M>,
    ended: &AtomicU64,
    others: u64,
) -> Result<(), Refusal> {
    for _ in rt.forever() {
        if ended.load(Ordering::SeqCst) >= others {
            return Ok(());
        }
        match shared.flush_some(rt, alloc, seat) {
            Ok(_) => yield_now(),
            Err(Refusal::TraceFull) => shared.rotate(rt, seat)?,
            Err(refusal) => return Err(refusal),
        }
    }
    unreachable!()
}
