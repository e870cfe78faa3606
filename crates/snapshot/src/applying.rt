ghost use Rattle.std.specs.Prelude.{◌≡◌, [], ℕ, true, IfErr, IfOk, IsErrOf, IsOkUnless, OnErr};
ghost use Rattle.device.specs.Writes.{HasFailed};
ghost use Rattle.softdep.specs.Queued.{unsynced_of};
ghost use Rattle.snapshot.specs.Asked.{HasBytesOrNames, is_users};
ghost use Rattle.snapshot.specs.Between.{Applied, Ran, could_go};
ghost use Rattle.snapshot.specs.Refusing.{AreCaused, IsCause};
ghost use Rattle.snapshot.specs.Writes.{Writes};

use crate::answer::{bytes, done, image};
use crate::users::user_reply;
use crate::{Answer, Command, Reply, Volume};
use device::Device;
use layout::Refusal;
use std::alloc::Global;

impl<D: Device> Volume<D> {
    /// Carries out a command, and answers it. A refused one leaves what users see, what is open and held, and the repairs,
    /// as they were. Nothing is written to the device but by a flush, which writes its block alone, and by a sync, a freeze and
    /// a release, which write what is pending.
    pub fn apply(&mut self, alloc: Global, command: &Command) -> Reply
        ensures applied { D.honest self.new.device → Applied D.held D.image self.old command.now result self.new }
        ensures untouched { OnErr result ((self.new.kept ≡ self.old.kept) × (self.new.holdings ≡ self.old.holdings)) }
        // An answer of bytes or names leaves all of that too.
        ensures reading { HasBytesOrNames result → (self.new.kept ≡ self.old.kept) × (self.new.holdings ≡ self.old.holdings) }
        // A flush counts the updates of its block that could go.
        ensures flushed { (a : ℕ) → command.now ≡ Command.Flush a → D.honest self.new.device → IfOk result (λ answer. answer ≡ Answer.Number (could_go self.old a)) }
        // After a sync that is answered all is durable.
        ensures synced { command.now ≡ Command.Sync → IfOk result (λ _. unsynced_of self.new.queue ≡ []) }
        ensures writes { Writes D.honest D.held D.image self.old command.now result self.new }
        ensures cause { IsErrOf result Refusal.Device → HasFailed (D.failures self.old.device) (D.failures self.new.device) }
        // Whatever the device did, a refusal has a cause in what the volume keeps.
        ensures error { IfErr result (IsCause self.old command.now) }
        ensures honest { D.honest self.new.device → D.honest self.old.device }
    {
        match command {
            Command::Freeze => image(self.freeze(alloc)),
            Command::SnapRead {
                snapshot,
                inode,
                index,
            } => bytes(self.snap_read(alloc, *snapshot, *inode, *index)),
            Command::Release(number) => done(self.release(alloc, *number)),
            Command::Install(checked) => done(self.install(alloc, checked)),
            Command::Repair(place) => done(self.repair(alloc, *place)),
            _ => self.user_answer(alloc, command),
        }
    }

    /// Carries out a command of users, and answers it.
    fn user_answer(&mut self, alloc: Global, command: &Command) -> Reply
        requires { is_users command.now ≡ true }
        ensures applied { D.honest self.new.device → Applied D.held D.image self.old command.now result self.new }
        ensures untouched { OnErr result ((self.new.kept ≡ self.old.kept) × (self.new.holdings ≡ self.old.holdings)) }
        // An answer of bytes or names leaves all of that too.
        ensures reading { HasBytesOrNames result → (self.new.kept ≡ self.old.kept) × (self.new.holdings ≡ self.old.holdings) }
        // A flush counts the updates of its block that could go.
        ensures flushed { (a : ℕ) → command.now ≡ Command.Flush a → D.honest self.new.device → IfOk result (λ answer. answer ≡ Answer.Number (could_go self.old a)) }
        // After a sync that is answered all is durable.
        ensures synced { command.now ≡ Command.Sync → IfOk result (λ _. unsynced_of self.new.queue ≡ []) }
        ensures writes { Writes D.honest D.held D.image self.old command.now result self.new }
        ensures cause { IsErrOf result Refusal.Device → HasFailed (D.failures self.old.device) (D.failures self.new.device) }
        // Whatever the device did, a refusal has a cause in what the volume keeps.
        ensures error { IfErr result (IsCause self.old command.now) }
        ensures honest { D.honest self.new.device → D.honest self.old.device }
    {
        let reply = user_reply(&mut self.live, alloc, command);
        self.live.device(); // for the proof: its clause `stands`
        reply
    }

    /// Carries out commands, one after another, and gives their replies. Refused with `NoMemory` alone, and then none was
    /// carried out.
    pub fn run(&mut self, alloc: Global, commands: Vec<Command>) -> Result<Vec<Reply>, Refusal>
        ensures ran { IfOk result (λ replies. D.honest self.new.device → Ran D.held D.image self.old commands.items replies.items self.new) }
        ensures untouched { OnErr result (self.new ≡ self.old) }
        ensures error { IsOkUnless result Refusal.NoMemory }
        // Whatever the device did, each refusal has a cause in what the volume kept then.
        ensures caused { IfOk result (λ replies. AreCaused self.old commands.items replies.items self.new) }
        ensures honest { D.honest self.new.device → D.honest self.old.device }
    {
        let mut replies = Vec::with_capacity(alloc, commands.len())?;
        for command in &commands {
            let reply = self.apply(alloc, command);
            replies.push(reply)?;
        }
        Ok(replies)
    }
}
