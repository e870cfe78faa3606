//! The desk of a service, whose volume goes on by turns and by upkeep alone.
ghost use Rattle.std.specs.Prelude.{◌≡◌, ◌↔◌, ◌∷◌, ◌+◌, ◌<◌, ◌^◌, [], true, None, Some, IfOk};
ghost use Rattle.fuse_daemon.specs.Services.{Went, is_upkeep, timed};
ghost use Rattle.fuse_wire.specs.declared.requests.Head.{Head};
ghost use Rattle.fuse_wire.specs.Requests.{Asked, decode};
ghost use Rattle.fuse_loop.specs.Tended.{TurnsTended};
ghost use Rattle.shared.specs.Opened.{opened_of};
ghost use Rattle.fuse_writer.specs.Desks.{begun, ended, with_links};
ghost use Rattle.fuse_writer.specs.Doings.{Does};
ghost use Rattle.fuse_writer.specs.Requests.{settles_some};
ghost use Rattle.fuse_writer.specs.Saying.{said_done};
ghost use Rattle.fuse_writer.specs.Turns.{GoesBy};
ghost use Rattle.fuse_reader.specs.Desks.{turned_of};

use crate::beginning::Beginning;
use attributes::Time;
use device::Device;
use fuse_reader::Turned;
use fuse_wire::Errno;
use fuse_writer::Desk;
use snapshot::{Command, Reply};
use std::alloc::AllocError;
use std::marker::{Model, PhantomData};

/// A desk. Turns and commands of upkeep led to it from the one with which the service began, and nothing else was done to its volume.
#[derive(Drop)]
pub(crate) struct Going<D: Device, B: Beginning> {
    desk: Desk<D>,
    began: PhantomData<B>,
}

impl<D: Device, B: Beginning> Model for Going<D, B> {
    ghost use Rattle.fuse_daemon.specs.Services.{Went};
    ghost use Rattle.fuse_writer.specs.Desks.{AtDesk};

    ghost Value = { AtDesk D };

    ghost view = { λ g. g.desk };

    ghost invariant = { λ g. Went D.honest D.held D.image B.begins g.desk };
}

impl<D: Device + Drop, B: Beginning> Going<D, B> {
    /// A desk with which a service begins.
    pub(crate) fn new(desk: Desk<D>) -> Going<D, B>
        requires { B.begins (opened_of D.held D.image desk.volume) }
        ensures { result ≡ desk }
    {
        Going {
            desk,
            began: PhantomData,
        }
    }

    /// Answers a message by a turn of the desk at this time.
    pub(crate) fn turn(
        &mut self,
        message: &[u8],
        time: Time,
        reply: &mut Vec<u8>,
    ) -> Result<Turned, AllocError>
        ensures known { Went D.honest D.held D.image B.begins self.old }
        ensures unread { IfOk result (λ turned. (turned ≡ Turned.Unread) ↔ (decode message.now ≡ None)) }
        ensures turned { IfOk result (λ turned. (head : Head) (asked : Asked) → decode message.now ≡ Some (head, asked) → turned ≡ turned_of asked) }
        ensures turn { IfOk result (λ turned. TurnsTended D.honest D.held D.image (timed time self.old) message.now turned reply.new.items self.new) }
    {
        self.desk.turn(message, time, reply)
    }

    /// Gives the records of so many inodes from this number on what is ahead of them, between two turns.
    pub(crate) fn settle(&mut self, from: u32, count: u32) -> Result<(), Errno>
        requires { from + count < 2 ^ 32 }
        ensures goes { GoesBy D.honest D.held D.image self.old.volume self.new.calls self.new.volume }
        ensures does { Does (settles_some self.old.session from count) (begun self.old) self.old.session (said_done result)
            (ended self.new) self.new.session }
    {
        self.desk.settle(from, count)
    }

    /// No repair changes links any more: the kernel may keep attributes for longer.
    pub(crate) fn links_stay(&mut self)
        ensures goes { GoesBy D.honest D.held D.image self.old.volume self.new.calls self.new.volume }
        ensures session { self.new.session ≡ with_links self.old.session }
    {
        self.desk.links_stay();
    }

    /// Carries out a command of upkeep between two turns.
    pub(crate) fn ask(&mut self, command: &Command) -> Reply
        requires { is_upkeep command.now ≡ true }
        ensures calls { self.new.calls ≡ (command.now, result) ∷ [] }
        ensures goes { GoesBy D.honest D.held D.image self.old.volume self.new.calls self.new.volume }
    {
        self.desk.ask(command)
    }

    /// The desk.
    pub(crate) fn desk(&self) -> &Desk<D>
        ensures { result.now ≡ self.now }
    {
        &self.desk
    }

    /// The desk, at the end of the service.
    pub(crate) fn into_desk(self) -> Desk<D>
        ensures went { Went D.honest D.held D.image B.begins result }
        ensures same { result ≡ self }
    {
        let Going { desk, began: _ } = self;
        desk
    }
}

/// Whether a command changes no name and no byte of a file.
pub(crate) fn is_upkeep(command: &Command) -> bool
    ensures { result ≡ is_upkeep command.now }
{
    matches!(
        command,
        Command::Freeze
            | Command::Install(_)
            | Command::Repair(_)
            | Command::Release(_)
            | Command::Flush(_)
            | Command::Sync
    )
}
