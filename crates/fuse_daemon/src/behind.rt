//! The desk behind the lock, as it stands at a channel.
ghost use Rattle.std.specs.Prelude.{IsFalse};
ghost use Rattle.fuse_daemon.specs.Services.{TurnsSome};
ghost use Rattle.fuse_loop.specs.Sessions.{IsDestroy};

use crate::beginning::Beginning;
use crate::clocked::time_of;
use crate::locked::{Locked, Right};
use device::Device;
use fuse_loop::Answering;
use fuse_reader::Turned;
use fuse_wire::Request;
use std::alloc::AllocError;
use std::sync::Wait;
use std::time::Clock;

/// A desk of which another thread asks too, until the one that serves has the right to.
#[derive(Drop)]
pub(crate) struct Behind<'a, D: Device, B: Beginning, R> {
    rt: &'a R,
    locked: &'a Locked<D, B>,
    right: Option<Right>,
}

impl<'a, D: Device + Drop, B: Beginning, R: Wait> Behind<'a, D, B, R> {
    /// The desk behind this lock.
    pub(crate) fn new(rt: &'a R, locked: &'a Locked<D, B>) -> Behind<'a, D, B, R> {
        Behind {
            rt,
            locked,
            right: None,
        }
    }

    /// The service is at its end: waits until the other thread asks nothing any more.
    pub(crate) fn end(self) {
        let Behind { rt, locked, right } = self;
        if right.is_none() {
            let _ = locked.end(rt);
        }
    }
}

impl<D: Device + Drop, B: Beginning, R: Wait + Clock> Answering for Behind<'_, D, B, R> {
    ghost turns = { λ _ message turned reply _. TurnsSome D.honest D.held D.image B.begins message turned reply };

    ghost fails = { λ _ _ _. Unit {0} };

    /// Answers a message under the lock, at the time that it is before. The last one waits before until the other thread is at its
    /// end, so that its turn writes all, and nothing is changed behind its reply.
    fn turn(&mut self, message: &[u8], reply: &mut Vec<u8>) -> Result<Turned, AllocError> {
        let time = time_of(self.rt);
        if !is_last(message) {
            return self.locked.turn(self.rt, message, time, reply);
        }
        let right = match self.right.take() {
            Some(right) => right,
            None => self.locked.end(self.rt),
        };
        let turned = self.locked.last_turn(self.rt, &right, message, time, reply);
        self.right = Some(right);
        turned
    }
}

/// Whether no message follows this one.
fn is_last(message: &[u8]) -> bool
    ensures { IsFalse result → IsDestroy message.now → ⊥ }
{
    matches!(fuse_wire::read(message), Some((_, Request::Destroy)))
}
