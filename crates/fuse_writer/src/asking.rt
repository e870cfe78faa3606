//! A volume that is asked by commands alone.
ghost use Rattle.std.specs.Prelude.{◌≡◌, ℕ, [], ◌∷◌, ◌++◌, IfErr, IfOk, IsErrOf, OnErr};
ghost use Rattle.device.specs.Writes.{HasFailed};
ghost use Rattle.snapshot.specs.Alive.{Alive};
ghost use Rattle.softdep.specs.Queued.{unsynced_of};
ghost use Rattle.snapshot.specs.Asked.{HasBytesOrNames};
ghost use Rattle.fuse_writer.specs.Turns.{GoesBy, Turn};

use device::Device;
use frozen::Frozen;
use http_server::Log;
use layout::Refusal;
use snapshot::{Command, Reply, Volume};
use std::alloc::Global;
use std::marker::Model;

/// A volume, and what it was asked since a turn began. If its device was honest so far, the commands of the turn led to it from the
/// volume that it was then, with these replies: nothing else was done to it. What it was and was asked is a history that only
/// clauses read, and takes no memory.
pub(crate) struct Asking<D: Device> {
    volume: Volume<D>,
    /// What the volume was when the turn began; none if none began yet.
    start: Log<(), Volume<D>>,
    calls: Log<Command, Reply>,
}

/// By hand, so that who drops it goes one step and not one for each field.
impl<D: Device> Drop for Asking<D> {
    fn drop(self) {
        let Asking {
            volume: _,
            start: _,
            calls: _,
        } = self;
    }
}

impl<D: Device> Model for Asking<D> {
    ghost use Rattle.std.specs.Prelude.{◌≡◌, ◌∷◌, [], map};
    ghost use Rattle.snapshot.specs.Alive.{Alive};
    ghost use Rattle.fuse_writer.specs.Turns.{GoesBy, Turn};

    ghost Value = { Turn D };

    ghost view = { λ a. record { start = map (λ e. e.1) a.start.items; calls = a.calls.items; volume = a.volume } };

    ghost invariant = { λ a. (start : Alive D) → map (λ e. e.1) a.start.items ≡ start ∷ [] → GoesBy D.honest D.held D.image start a.calls.items a.volume };
}

impl<D: Device> Asking<D> {
    /// No turn began yet.
    pub(crate) fn new(volume: Volume<D>) -> Asking<D>
        ensures { result ≡ record { start = []; calls = []; volume = volume } }
    {
        Asking {
            volume,
            start: Log::new(),
            calls: Log::new(),
        }
    }

    /// A turn begins.
    pub(crate) fn begin(&mut self)
        ensures { self.new ≡ record { start = self.old.volume ∷ []; calls = []; volume = self.old.volume } }
    {
        self.start = Log::new().and(&(), &self.volume);
        self.calls = Log::new();
    }

    /// The volume.
    pub(crate) fn volume(&self) -> &Volume<D>
        ensures { result.now ≡ self.now.volume }
    {
        &self.volume
    }

    /// The metadata that users see.
    pub(crate) fn metadata(&self) -> &Frozen
        ensures { result.now ≡ self.now.volume.kept }
    {
        self.volume.live().metadata()
    }

    /// The commands of the turn led here from the volume that it began with: a law.
    pub(crate) fn goes_by_calls(&self)
        ensures { (start : Alive D) → self.now.start ≡ start ∷ [] → GoesBy D.honest D.held D.image start self.now.calls self.now.volume }
    {
        let _ = &self.calls;
    }

    /// Carries out a command, and answers it.
    pub(crate) fn ask(&mut self, alloc: Global, command: &Command) -> Reply
        ensures start { self.new.start ≡ self.old.start }
        ensures calls { self.new.calls ≡ self.old.calls ++ (command.now, result) ∷ [] }
        ensures reading { HasBytesOrNames result → self.new.volume.kept ≡ self.old.volume.kept }
        ensures untouched { OnErr result (self.new.volume.kept ≡ self.old.volume.kept) }
        // After a sync that is answered all is durable.
        ensures synced { command.now ≡ Command.Sync → IfOk result (λ _. unsynced_of self.new.volume.queue ≡ []) }
        ensures cause { IsErrOf result Refusal.Device → HasFailed (D.failures self.old.volume.device) (D.failures self.new.volume.device) }
    {
        let reply = self.volume.apply(alloc, command);
        self.calls = self.calls.and(command, &reply);
        reply
    }
}
