//! The lock round a desk, and how two threads wait for each other.
ghost use Rattle.std.specs.Prelude.{◌≡◌, ◌↔◌, true, None, Some, IfErr, IfOk, IfSome};
ghost use Rattle.fuse_daemon.specs.Services.{TurnsAt, Went, is_upkeep};
ghost use Rattle.fuse_wire.specs.declared.requests.Head.{Head};
ghost use Rattle.fuse_wire.specs.Requests.{Asked, decode};
ghost use Rattle.fuse_loop.specs.Sessions.{IsDestroy};
ghost use Rattle.shared.specs.Opened.{opened_of};
ghost use Rattle.fuse_reader.specs.Desks.{turned_of};

use crate::beginning::Beginning;
use crate::flushing::{flush_some, ready_blocks, settle_some};
use crate::going::Going;
use attributes::Time;
use device::Device;
use fuse_reader::Turned;
use fuse_writer::Desk;
use layout::Refusal;
use snapshot::{Command, Reply};
use std::alloc::AllocError;
use std::sync::{Condvar, Mutex, OnceLock, OnceToken, Wait};
use std::time::{Clock, Duration};

/// A desk for the thread that serves, and for the one beside.
#[derive(Drop)]
pub(crate) struct Locked<D: Device, B: Beginning> {
    kept: Mutex<Kept<D, B>>,
    changed: Condvar,
    /// It is set when the service is at its end. Who has a token of it knows that.
    pub(crate) ended: OnceLock<()>,
}

/// The right to ask the volume between two turns. There is one for each lock. It lies under the lock, unless a thread has it: the one
/// beside while it works, and the one that serves from the end of the service on.
#[derive(Drop)]
pub(crate) struct Right {
    one: (),
}

/// What is under the lock.
#[derive(Drop)]
struct Kept<D: Device, B: Beginning> {
    going: Going<D, B>,
    /// Whether the service is at its end.
    ends: bool,
    right: Option<Right>,
}

impl<D: Device + Drop, B: Beginning> Locked<D, B> {
    /// A desk of which nobody asks anything yet.
    pub(crate) fn new(desk: Desk<D>) -> Locked<D, B>
        requires { B.begins (opened_of D.held D.image desk.volume) }
    {
        Locked {
            kept: Mutex::new(Kept {
                going: Going::new(desk),
                ends: false,
                right: Some(Right { one: () }),
            }),
            changed: Condvar::new(),
            ended: OnceLock::new(),
        }
    }

    /// Waits for the lock, and answers a message by a turn of the desk at this time; where no clock tells it, at that of the turn before.
    /// It is not the last one.
    pub(crate) fn turn<R: Wait>(
        &self,
        rt: &R,
        message: &[u8],
        time: Option<Time>,
        reply: &mut Vec<u8>,
    ) -> Result<Turned, AllocError>
        requires { IsDestroy message.now → ⊥ }
        ensures unread { IfOk result (λ turned. (turned ≡ Turned.Unread) ↔ (decode message.now ≡ None)) }
        ensures turned { IfOk result (λ turned. (head : Head) (asked : Asked) → decode message.now ≡ Some (head, asked) → turned ≡ turned_of asked) }
        // It was a turn of a desk of this service. No clause can name which one.
        ensures some { IfOk result (λ turned. TurnsAt D.honest D.held D.image B.begins time message.now turned reply.new.items) }
    {
        turn_at(&mut self.kept.lock(rt).going, message, time, reply)
    }

    /// Waits for the lock, and answers a message by a turn of the desk, which may be the last one: who has the right knows that
    /// nobody asks anything between turns any more.
    pub(crate) fn last_turn<R: Wait>(
        &self,
        rt: &R,
        _right: &Right,
        message: &[u8],
        time: Option<Time>,
        reply: &mut Vec<u8>,
    ) -> Result<Turned, AllocError>
        ensures unread { IfOk result (λ turned. (turned ≡ Turned.Unread) ↔ (decode message.now ≡ None)) }
        ensures turned { IfOk result (λ turned. (head : Head) (asked : Asked) → decode message.now ≡ Some (head, asked) → turned ≡ turned_of asked) }
        ensures some { IfOk result (λ turned. TurnsAt D.honest D.held D.image B.begins time message.now turned reply.new.items) }
    {
        turn_at(&mut self.kept.lock(rt).going, message, time, reply)
    }

    /// Waits for the lock, and carries out a command of upkeep.
    pub(crate) fn ask<R: Wait>(&self, rt: &R, _right: &Right, command: &Command) -> Reply
        requires { is_upkeep command.now ≡ true }
    {
        self.kept.lock(rt).going.ask(command)
    }

    /// Waits for the lock, and lets the kernel keep attributes for longer: no repair changes links any more.
    pub(crate) fn links_stay<R: Wait>(&self, rt: &R, _right: &Right) {
        self.kept.lock(rt).going.links_stay();
    }

    /// Waits for the lock, and counts the blocks that may be written.
    pub(crate) fn ready_blocks<R: Wait>(&self, rt: &R) -> u32 {
        ready_blocks(self.kept.lock(rt).going.desk())
    }

    /// Waits for the lock, and flushes so many blocks that may be written, those from this one on first; gives the one to go on with.
    pub(crate) fn flush_some<R: Wait>(
        &self,
        rt: &R,
        _right: &Right,
        from: u32,
        count: u32,
    ) -> Result<u32, Refusal> {
        flush_some(&mut self.kept.lock(rt).going, from, count)
    }

    /// Waits for the lock, and gives the records of so many inodes from this number on what is ahead of them. Tells whether there are
    /// more behind. What is refused stays ahead, and is tried again.
    pub(crate) fn settle_some<R: Wait>(
        &self,
        rt: &R,
        _right: &Right,
        from: u32,
        count: u32,
    ) -> bool {
        settle_some(&mut self.kept.lock(rt).going, from, count)
    }

    /// The thread beside begins to work, and takes the right; or the service is at its end, and what shows that is given.
    pub(crate) fn begin<R: Wait>(&self, rt: &R) -> Result<Right, OnceToken<'_, ()>>
        ensures { IfErr result (λ token. token.of ≡ self.now.ended.id) }
    {
        let kept = self.kept.lock(rt);
        let mut kept = self
            .changed
            .wait_while(rt, kept, |kept| { kept.right.is_none() && !kept.ends });
        if kept.ends {
            // It is set already.
            return Err(self.ended.init(rt, || ()));
        }
        match kept.right.take() {
            Some(right) => Ok(right),
            None => unreachable!(),
        }
    }

    /// The thread beside works no more, and gives the right back.
    pub(crate) fn leave<R: Wait>(&self, rt: &R, right: Right) {
        self.kept.lock(rt).right = Some(right);
        self.changed.notify_all();
    }

    /// Whether the service is at its end.
    pub(crate) fn ends(&self) -> bool {
        self.ended.witness().is_some()
    }

    /// Waits for so long, or until the service is at its end, and gives what shows that it is, if it is.
    pub(crate) fn rest<R: Wait + Clock>(&self, rt: &R, time: Duration) -> Option<OnceToken<'_, ()>>
        ensures { IfSome result (λ token. token.of ≡ self.now.ended.id) }
    {
        let kept = self.kept.lock(rt);
        let _ = self
            .changed
            .wait_timeout_while(rt, kept, time, |kept| { !kept.ends });
        self.ended.witness()
    }

    /// The service is at its end: waits until the thread beside works no more, and takes the right. Nobody else has taken it, but the
    /// thread beside.
    pub(crate) fn end<R: Wait>(&self, rt: &R) -> Right {
        let mut kept = self.kept.lock(rt);
        kept.ends = true;
        let _ = self.ended.try_set(());
        self.changed.notify_all();
        let mut kept = self
            .changed
            .wait_while(rt, kept, |kept| kept.right.is_none());
        match kept.right.take() {
            Some(right) => right,
            None => unreachable!(),
        }
    }

    /// The desk, of which nobody asks anything any more.
    pub(crate) fn into_desk(self) -> Desk<D>
        ensures { Went D.honest D.held D.image B.begins result }
    {
        let Locked {
            kept,
            changed: _,
            ended: _,
        } = self;
        let Kept {
            going,
            ends: _,
            right: _,
        } = kept.into_inner();
        going.into_desk()
    }
}

/// Answers a message by a turn of the desk at this time, or at that of the turn before.
fn turn_at<D: Device + Drop, B: Beginning>(
    going: &mut Going<D, B>,
    message: &[u8],
    time: Option<Time>,
    reply: &mut Vec<u8>,
) -> Result<Turned, AllocError>
    ensures unread { IfOk result (λ turned. (turned ≡ Turned.Unread) ↔ (decode message.now ≡ None)) }
    ensures turned { IfOk result (λ turned. (head : Head) (asked : Asked) → decode message.now ≡ Some (head, asked) → turned ≡ turned_of asked) }
    ensures some { IfOk result (λ turned. TurnsAt D.honest D.held D.image B.begins time message.now turned reply.new.items) }
{
    let at = time.unwrap_or(going.desk().time());
    going.turn(message, at, reply)
}
