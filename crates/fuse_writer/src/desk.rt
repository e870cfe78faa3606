//! One request after another.
ghost use Rattle.std.specs.Prelude.{◌≡◌, ◌↔◌, ◌∷◌, ◌+◌, ◌<◌, ◌^◌, [], None, Some, IfOk, OnOk};
ghost use Rattle.fuse_wire.specs.declared.requests.Head.{Head as Front};
ghost use Rattle.fuse_wire.specs.Requests.{Asked, decode};
ghost use Rattle.model.specs.Layout.{inode_count};
ghost use Rattle.softdep.specs.Queued.{unsynced_of};
ghost use Rattle.fuse_writer.specs.Answers.{IsNoted, IsTurn};
ghost use Rattle.fuse_writer.specs.Desks.{at_time, begun, ended, new_session, with_links};
ghost use Rattle.fuse_writer.specs.Doings.{Does};
ghost use Rattle.fuse_writer.specs.Requests.{ends, settles_some};
ghost use Rattle.fuse_writer.specs.Saying.{said_done};
ghost use Rattle.fuse_writer.specs.Turns.{GoesBy};
ghost use Rattle.fuse_reader.specs.Desks.{turned_of};

use crate::answering::{answer, end};
use crate::asking::Asking;
use crate::granted::Rules;
use crate::mounted::Mounted;
use crate::session::Session;
use crate::settling::settle_all;
use attributes::Time;
use device::Device;
use fuse_reader::{Owner, Turned, turned_of};
use fuse_wire::Errno;
use outcomes::with;
use snapshot::{Command, Reply, Volume};
use std::alloc::{AllocError, Global};
use std::marker::Model;

/// A mounted volume, and what the kernel was told of it.
#[derive(Drop)]
pub struct Desk<D: Device> {
    mounted: Mounted<D>,
}

impl<D: Device> Model for Desk<D> {
    ghost use Rattle.fuse_writer.specs.Desks.{AtDesk};

    ghost Value = { AtDesk D };

    ghost view = { λ d. record { volume = d.mounted.asking.volume; calls = d.mounted.asking.calls; session = d.mounted.session } };
}

impl<D: Device + Drop> Desk<D> {
    /// A volume, whose all is, and what it may be asked for. The kernel was told nothing of it.
    pub fn new(
        alloc: Global,
        volume: Volume<D>,
        owner: Owner,
        rules: Rules,
    ) -> Result<Desk<D>, AllocError>
        ensures { IfOk result (λ desk. desk ≡ record {
          volume = volume;
          calls = [];
          session = new_session (inode_count volume.kept.geometry) owner rules;
        }) }
    {
        let inodes = volume.live().metadata().geometry().inodes();
        let (session, volume) = with(Session::new(alloc, inodes, owner, rules), volume)?;
        Ok(Desk {
            mounted: Mounted {
                alloc,
                asking: Asking::new(volume),
                session,
            },
        })
    }

    /// Answers a message by one turn at this time. The reply is written over what stands there, and is empty if none is asked for.
    /// After an error, which is that there was no memory to say so, part of a reply may stand there.
    pub fn turn(
        &mut self,
        message: &[u8],
        time: Time,
        reply: &mut Vec<u8>,
    ) -> Result<Turned, AllocError>
        ensures unread { IfOk result (λ turned. (turned ≡ Turned.Unread) ↔ (decode message.now ≡ None)) }
        ensures turned { IfOk result (λ turned. (head : Front) (asked : Asked) → decode message.now ≡ Some (head, asked) → turned ≡ turned_of asked) }
        // Commands led from the volume before to the one after it, and nothing else was done to it.
        ensures goes { GoesBy D.honest D.held D.image self.old.volume self.new.calls self.new.volume }
        ensures turn { (head : Front) (asked : Asked) → decode message.now ≡ Some (head, asked)
            → IsTurn head asked (begun self.old) (at_time time self.old.session) result reply.new.items (ended self.new) self.new.session }
        ensures idle { decode message.now ≡ None → self.new.session ≡ at_time time self.old.session }
        // Of what cannot be read nothing is asked.
        ensures unasked { decode message.now ≡ None → (self.new.calls ≡ []) × (self.new.volume ≡ self.old.volume) }
        ensures noted { IsNoted (at_time time self.old.session) self.new.session }
    {
        self.mounted.session.time = time;
        self.mounted.asking.begin();
        let turned = take_turn(&mut self.mounted, message, reply);
        self.mounted.asking.goes_by_calls();
        turned
    }

    /// Carries out a command between two turns, and answers it: one about snapshots, checks and repairs, a flush or a sync. Names
    /// and files are changed by turns alone, since the kernel is told of them.
    pub fn ask(&mut self, command: &Command) -> Reply
        ensures calls { self.new.calls ≡ (command.now, result) ∷ [] }
        ensures goes { GoesBy D.honest D.held D.image self.old.volume self.new.calls self.new.volume }
        ensures same { self.new.session ≡ self.old.session }
    {
        self.mounted.asking.begin();
        let reply = self.mounted.asking.ask(self.mounted.alloc, command);
        self.mounted.asking.goes_by_calls();
        reply
    }

    /// The time that it is, until another one is told: that of the last turn, and at first that of the image.
    pub fn time(&self) -> Time
        ensures { result ≡ self.now.session.time }
    {
        self.mounted.session.time
    }

    /// Gives the records of so many inodes from this number on what is ahead of them, between two turns.
    pub fn settle(&mut self, from: u32, count: u32) -> Result<(), Errno>
        requires { from + count < 2 ^ 32 }
        ensures goes { GoesBy D.honest D.held D.image self.old.volume self.new.calls self.new.volume }
        ensures does { Does (settles_some self.old.session from count) (begun self.old) self.old.session (said_done result)
            (ended self.new) self.new.session }
    {
        self.mounted.asking.begin();
        let outcome = settle_all(&mut self.mounted, from, count);
        self.mounted.asking.goes_by_calls();
        outcome
    }

    /// No repair changes links any more: the kernel may keep attributes for longer.
    pub fn links_stay(&mut self)
        ensures goes { GoesBy D.honest D.held D.image self.old.volume self.new.calls self.new.volume }
        ensures calls { self.new.calls ≡ [] }
        ensures session { self.new.session ≡ with_links self.old.session }
    {
        self.mounted.asking.begin();
        self.mounted.session.links_stay = true;
        self.mounted.asking.goes_by_calls();
    }

    /// The volume.
    pub fn volume(&self) -> &Volume<D>
        ensures { result.now ≡ self.now.volume }
    {
        self.mounted.asking.volume()
    }

    /// Settles what is ahead of records, closes all that is open, writes all and waits for the medium, as DESTROY does: for an end to
    /// which it does not come. Where it came there is nothing left to do.
    pub fn end(&mut self) -> Result<(), Errno>
        ensures goes { GoesBy D.honest D.held D.image self.old.volume self.new.calls self.new.volume }
        ensures does { Does (ends self.old.volume.kept self.old.session) (begun self.old) self.old.session (said_done result)
            (ended self.new) self.new.session }
        ensures synced { OnOk result (unsynced_of self.new.volume.queue ≡ []) }
    {
        self.mounted.asking.begin();
        let outcome = end(&mut self.mounted);
        self.mounted.asking.goes_by_calls();
        outcome
    }
}

/// Answers a message.
fn take_turn<D: Device>(
    mounted: &mut Mounted<D>,
    message: &[u8],
    reply: &mut Vec<u8>,
) -> Result<Turned, AllocError>
    ensures unread { IfOk result (λ turned. (turned ≡ Turned.Unread) ↔ (decode message.now ≡ None)) }
    ensures turned { IfOk result (λ turned. (head : Front) (asked : Asked) → decode message.now ≡ Some (head, asked) → turned ≡ turned_of asked) }
    ensures start { mounted.new.asking.start ≡ mounted.old.asking.start }
    ensures turn { (head : Front) (asked : Asked) → decode message.now ≡ Some (head, asked)
        → IsTurn head asked mounted.old.asking mounted.old.session result reply.new.items mounted.new.asking mounted.new.session }
    ensures idle { decode message.now ≡ None → (mounted.new.session ≡ mounted.old.session) × (mounted.new.asking ≡ mounted.old.asking) }
    ensures noted { IsNoted mounted.old.session mounted.new.session }
{
    let Some((head, request)) = fuse_wire::read(message) else {
        return Ok(Turned::Unread);
    };
    answer(mounted, head, request, reply)?;
    Ok(turned_of(request))
}
