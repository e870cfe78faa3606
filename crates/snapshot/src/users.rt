//! The commands of users, carried out on the mounted volume.
ghost use Rattle.std.specs.Prelude.{◌≡◌, [], ℕ, true, IfErr, IfOk, IsErrOf, OnErr};
ghost use Rattle.device.specs.Writes.{HasFailed};
ghost use Rattle.softdep.specs.Queued.{unsynced_of};
ghost use Rattle.snapshot.specs.Asked.{HasBytesOrNames, is_users};
ghost use Rattle.snapshot.specs.Between.{RepliedSo, could_go};
ghost use Rattle.snapshot.specs.Refusing.{IsCause};
ghost use Rattle.snapshot.specs.Writes.{Writes};

use crate::answer::{attributes, bytes, count, done, names, number, status};
use crate::{Answer, Command, Reply};
use device::Device;
use layout::Refusal;
use live::Live;
use std::alloc::Global;

/// Carries out a command of users, and answers it.
pub(crate) fn user_reply<D: Device>(live: &mut Live<D>, alloc: Global, command: &Command) -> Reply
    requires { is_users command.now ≡ true }
    ensures replied { D.honest live.new.device → RepliedSo D.held D.image live.old command.now result live.new }
    ensures untouched { OnErr result ((live.new.kept ≡ live.old.kept) × (live.new.holdings ≡ live.old.holdings)) }
    // An answer of bytes or names leaves all of that too.
    ensures reading { HasBytesOrNames result → (live.new.kept ≡ live.old.kept) × (live.new.holdings ≡ live.old.holdings) }
    ensures flushed { (a : ℕ) → command.now ≡ Command.Flush a → IfOk result (λ answer. answer ≡ Answer.Number (could_go live.old a)) }
    ensures synced { command.now ≡ Command.Sync → IfOk result (λ _. unsynced_of live.new.queue ≡ []) }
    ensures writes { Writes D.honest D.held D.image live.old command.now result live.new }
    ensures cause { IsErrOf result Refusal.Device → HasFailed (D.failures live.old.device) (D.failures live.new.device) }
    ensures error { IfErr result (IsCause live.old command.now) }
    ensures honest { D.honest live.new.device → D.honest live.old.device }
{
    match command {
        Command::Create { path, attributes } => number(live.create(alloc, path, attributes)),
        Command::Mkdir { path, attributes } => number(live.mkdir(alloc, path, attributes)),
        Command::Link(path, other) => done(live.link(alloc, path, other)),
        Command::Unlink(path) => done(live.unlink(alloc, path)),
        Command::Rmdir(path) => done(live.rmdir(alloc, path)),
        Command::Rename(path, other) => done(live.rename(alloc, path, other)),
        Command::Open(path) => number(live.open(path)),
        Command::Close(handle) => done(live.close(alloc, *handle)),
        Command::Read { handle, index } => bytes(live.read(alloc, *handle, *index)),
        Command::Write {
            handle,
            index,
            piece,
        } => done(live.write(alloc, *handle, *index, piece)),
        Command::Truncate { handle, size } => done(live.truncate(alloc, *handle, *size)),
        Command::SetAttributes { inode, attributes } => {
            done(live.set_attributes(alloc, *inode, attributes))
        }
        Command::ReadAttributes(inode) => attributes(live.attributes(*inode)),
        Command::List(path) => names(live.list(alloc, path)),
        Command::Stat(path) => status(live.stat(path)),
        Command::Flush(address) => count(live.flush(*address)),
        Command::Sync => done(live.sync()),
        Command::Freeze
        | Command::SnapRead { .. }
        | Command::Release(_)
        | Command::Install(_)
        | Command::Repair(_) => unreachable!(),
    }
}
