//! The work of a phase, split among workers: each makes the parts of the units that it draws, all of them at once, and
//! the parts of all units come back in order.
#![tactic(auto)]

ghost use Rattle.std.specs.Prelude.{◌≡◌, ◌↔◌, ◌<◌, ◌∷◌, [], IfOk, IsErrOf, IsFalse, IsOkUnless, IsTrue, vec_len};
ghost use Rattle.workers.specs.Turns.{AreDone};
ghost use Rattle.worker_counts.specs.Workers.{may_work};

mod interface;
mod merging;
mod turns;

use claims::Claims;
pub use interface::{ByGroup, Gate, OpenGate, Work};
use layout::Refusal;
use merging::{Apart, in_order, settled};
use std::alloc::Global;
use std::thread::Threads;
use turns::{run_all, seated};
pub use worker_counts::Workers;

/// The parts of the units 0 to `units - 1`, in this order, and the workers, in the order in which they came.
///
/// Each worker draws units, in a thread of its own where one can be made, until none is left. It passes the gate with
/// the phase's number after it drew a unit. Which worker draws which unit is left open.
///
/// `BadWorkers` is refused where there are not 1 to 64 workers, and `NoMemory` where memory ran out, also in a unit.
/// The workers are lost then.
pub fn each_group<W: Work, G: Gate>(
    rt: &(impl Threads + Sync),
    alloc: Global,
    phase: u8,
    units: u32,
    works: Vec<W>,
    gate: &G,
) -> Result<(Vec<W::Part>, Vec<W>), Refusal>
    ensures done { IfOk result (λ done. AreDone W.gives units works.items done.0.items done.1.items) }
    ensures bad_workers { IsErrOf result Refusal.BadWorkers ↔ IsFalse (may_work (vec_len works)) }
    ensures error { IsTrue (may_work (vec_len works)) → IsOkUnless result Refusal.NoMemory }
{
    let workers = Workers::for_each(works.as_slice())?;
    let (claims, seats) = Claims::of_units(alloc, units, workers.count())?;
    let hands = seated(alloc, &claims, seats, works)?;
    let turns = run_all(rt, alloc, phase, &claims, hands, gate)?;
    let Apart {
        lists,
        seats,
        works,
    } = settled(alloc, turns)?;
    claims.gather(alloc, seats)?;
    Ok((in_order(alloc, units, lists)?, works))
}

/// The parts of the units 0 to `units - 1`, in this order, and the worker, which makes them one after another on the
/// calling thread. It passes no gate. Only `NoMemory` is refused, also in a unit, and the worker is lost then.
pub fn in_turn<W: Work>(alloc: Global, units: u32, work: W) -> Result<(Vec<W::Part>, W), Refusal>
    ensures done { IfOk result (λ done. AreDone W.gives units (work ∷ []) done.0.items (done.1 ∷ [])) }
    ensures error { IsOkUnless result Refusal.NoMemory }
{
    let mut work = work;
    let mut parts = Vec::new(alloc);
    for unit in 0..units {
        parts.push(work.part(unit)?)?;
    }
    Ok((parts, work))
}
