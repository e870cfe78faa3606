//! Calls of a shared volume whose trace is emptied when it is full.
use crate::copies::copy_of;
use device::Device;
use layout::Refusal;
use shared::{Rotating, Seat, Shared};
use snapshot::{Command, Reply};
use std::alloc::Global;
use std::sync::Wait;
use std::sync::ledger::Ledger;

/// Makes a call. Where the trace is full it is emptied, and the call is made again, as often as that happens; where it
/// cannot be emptied, that is the reply.
pub fn call<D: Device + Drop, L: Rotating, M: Ledger, R: Wait>(
    rt: &R,
    alloc: Global,
    shared: &Shared<D, L, M>,
    seat: &mut Seat<L, M>,
    command: &Command,
) -> Reply {
    for _ in rt.forever() {
        match shared.call(rt, alloc, seat, copy_of(alloc, command)?) {
            Err(Refusal::TraceFull) => shared.rotate(rt, seat)?,
            reply => return reply,
        }
    }
    unreachable!()
}
