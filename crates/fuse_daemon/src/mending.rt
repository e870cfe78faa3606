//! What leaked is given back while the volume is served.
ghost use Rattle.std.specs.Prelude.{◌≡◌, [], IfOk, length};
ghost use Rattle.fuse_daemon.specs.Services.{TellsOfMending};
ghost use Rattle.upkeep.specs.Calls.{EndsItsSnapshot};

use crate::beginning::Beginning;
use crate::going::is_upkeep;
use crate::locked::{Locked, Right};
use device::Device;
use http_server::Log;
use layout::Refusal;
use snapshot::{Command, Reply};
use std::alloc::Global;
use std::sync::Wait;
use std::thread::Threads;
use upkeep::Asked;
use workers::{OpenGate, Workers};

/// What a check found, and how many repairs were carried out.
#[derive(Clone, Copy, Debug, PartialEq, Eq)]
pub struct Mended {
    pub findings: usize,
    pub repairs: u32,
}

/// The desk behind the lock, as its volume is asked between turns by the one who has the right to.
#[derive(Drop)]
pub(crate) struct Between<'a, D: Device, B: Beginning, R> {
    rt: &'a R,
    locked: &'a Locked<D, B>,
    right: &'a Right,
    pub(crate) calls: Log<Command, Reply>,
}

impl<D: Device + Drop, B: Beginning, R: Wait> Asked for Between<'_, D, B, R> {
    ghost calls = { λ between. between.calls.items };

    fn ask(&mut self, command: &Command) -> Reply {
        let reply = self.reply_to(command);
        self.calls = self.calls.and(command, &reply);
        reply
    }
}

impl<'a, D: Device + Drop, B: Beginning, R: Wait> Between<'a, D, B, R> {
    /// Nothing was asked yet.
    pub(crate) fn new(rt: &'a R, locked: &'a Locked<D, B>, right: &'a Right) -> Between<'a, D, B, R>
        ensures { result.calls.items ≡ [] }
    {
        Between {
            rt,
            locked,
            right,
            calls: Log::new(),
        }
    }

    /// Carries out a command of upkeep. To mend, no other one is asked; one that was would be refused.
    fn reply_to(&self, command: &Command) -> Reply {
        if !is_upkeep(command) {
            return Err(Refusal::NoPlan);
        }
        self.locked.ask(self.rt, self.right, command)
    }
}

/// Mends the volume as `upkeep::mend` does, with so many workers, which take no lock. Nobody else freezes it.
pub(crate) fn mend<D: Device + Drop, B: Beginning, R: Threads + Wait + Sync>(
    rt: &R,
    alloc: Global,
    between: &mut Between<'_, D, B, R>,
    workers: Workers,
) -> Result<Mended, Refusal>
    ensures mended { IfOk result (TellsOfMending between.old.calls.items between.new.calls.items) }
    // Whatever came of it, the snapshot that was taken was ended.
    ensures ended { EndsItsSnapshot between.old.calls.items between.new.calls.items }
{
    match upkeep::mend(rt, alloc, between, workers, &OpenGate)? {
        Some(mended) => Ok(Mended {
            findings: mended.checked.findings().len(),
            repairs: mended.repaired,
        }),
        None => Err(Refusal::NoSnapshot),
    }
}
