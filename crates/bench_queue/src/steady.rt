//! Updates that are issued and brought to a device all along, so that there is always something pending.
use crate::files::{Lives, Spread};
use crate::issuing::{Issued, issue_life};
use crate::writing::{Written, flush_until};
use anyhow::Result;
use softdep::Queue;
use spares::Spares;
use std::alloc::Global;
use std::time::Clock;

/// Where more updates than this are pending, some go to the device.
const MOST_PENDING: usize = 2_000;

/// So many are left pending then, or few less.
const LEAST_PENDING: usize = 1_000;

/// Issues so many updates, or few more, and flushes blocks all along.
pub fn issue_steadily(
    clock: &impl Clock,
    alloc: Global,
    queue: &mut Queue,
    spread: Spread,
    updates: usize,
) -> Result<(Issued, Written)> {
    let mut lives = Lives::new(spread)?;
    let mut issued = Issued::new(alloc, lives.geometry())?;
    let written = issue_and_flush(clock, alloc, queue, &mut lives, &mut issued, updates)?;
    Ok((issued, written))
}

/// Issues the updates of these lives, until so many are issued, and flushes blocks all along.
fn issue_and_flush(
    clock: &impl Clock,
    alloc: Global,
    queue: &mut Queue,
    lives: &mut Lives,
    issued: &mut Issued,
    updates: usize,
) -> Result<Written> {
    let mut spares = Spares::new(alloc)?;
    let mut written = Written::NOTHING;
    for _ in 0..updates {
        if issued.updates >= updates {
            break;
        }
        issue_life(clock, alloc, queue, lives, issued)?;
        written = written.and(flush_some(clock, alloc, queue, &mut spares)?);
    }
    Ok(written)
}

/// Flushes blocks where more updates are pending than there may be.
fn flush_some(
    clock: &impl Clock,
    alloc: Global,
    queue: &mut Queue,
    spares: &mut Spares,
) -> Result<Written> {
    if queue.pending() <= MOST_PENDING {
        return Ok(Written::NOTHING);
    }
    flush_until(clock, alloc, queue, spares, LEAST_PENDING)
}
