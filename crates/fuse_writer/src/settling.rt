//! What is ahead of records gets into them, and all is written.
ghost use Rattle.std.specs.Prelude.{◌≡◌, ◌+◌, ◌<◌, ◌^◌, [], OnErr, OnOk};
ghost use Rattle.fuse_wire.specs.declared.errors.Errno.{Errno as Number};
ghost use Rattle.softdep.specs.Queued.{unsynced_of};
ghost use Rattle.fuse_writer.specs.declared.session.Session.{Session};
ghost use Rattle.fuse_writer.specs.Doings.{Does, Doing, LeadsOn, go_on_at, go_on_or, refuses};
ghost use Rattle.fuse_writer.specs.Requests.{settles, settles_all, syncs, syncs_all, syncs_node};
ghost use Rattle.fuse_writer.specs.Saying.{said_done};

use crate::mounted::Mounted;
use device::Device;
use fuse_wire::{Errno, NodeId};
use snapshot::Command;

/// Gives the record of an inode what is ahead of it.
fn settle<D: Device>(mounted: &mut Mounted<D>, number: u32) -> Result<(), Errno>
    ensures start { mounted.new.asking.start ≡ mounted.old.asking.start }
    ensures does { (next : Session → Doing) (refused : Number → Doing) → LeadsOn (settles mounted.old.session number next refused)
        mounted.old.asking mounted.old.session (go_on_or result (next mounted.new.session) refused) mounted.new.asking mounted.new.session }
    // Where that is refused it stays ahead.
    ensures same { OnErr result (mounted.new.session ≡ mounted.old.session) }
{
    let Some(attributes) = mounted.session.ahead.of(number) else {
        return Ok(());
    };
    mounted.ask_settled(Command::SetAttributes {
        inode: number,
        attributes: attributes.write(),
    })?;
    mounted.clear(number);
    Ok(())
}

/// The same of so many inodes from this number on, up to the first refusal.
pub(crate) fn settle_all<D: Device>(
    mounted: &mut Mounted<D>,
    from: u32,
    count: u32,
) -> Result<(), Errno>
    requires { from + count < 2 ^ 32 }
    ensures start { mounted.new.asking.start ≡ mounted.old.asking.start }
    ensures does { (next : Session → Doing) (refused : Session → Number → Doing) → LeadsOn (settles_all mounted.old.session from count next refused)
        mounted.old.asking mounted.old.session (go_on_at result next refused mounted.new.session) mounted.new.asking mounted.new.session }
{
    for number in from..from + count {
        settle(mounted, number)?;
    }
    Ok(())
}

/// Writes all, and waits for the medium.
pub(crate) fn sync<D: Device>(mounted: &mut Mounted<D>) -> Result<(), Errno>
    ensures start { mounted.new.asking.start ≡ mounted.old.asking.start }
    ensures synced { OnOk result (unsynced_of mounted.new.asking.volume.queue ≡ []) }
    ensures does { Does (syncs)
        mounted.old.asking mounted.old.session (said_done result) mounted.new.asking mounted.new.session }
{
    mounted.ask_done(Command::Sync)
}

/// The same after a file or a directory was settled, unless its data alone are meant.
pub(crate) fn sync_node<D: Device>(
    mounted: &mut Mounted<D>,
    node: NodeId,
    data_only: bool,
) -> Result<(), Errno>
    ensures start { mounted.new.asking.start ≡ mounted.old.asking.start }
    ensures synced { OnOk result (unsynced_of mounted.new.asking.volume.queue ≡ []) }
    ensures does { Does (syncs_node mounted.old.session node data_only)
        mounted.old.asking mounted.old.session (said_done result) mounted.new.asking mounted.new.session }
{
    if data_only {
        return sync(mounted);
    }
    match mounted.session.nodes.find(node) {
        Some(number) => sync_settled(mounted, number),
        None => sync(mounted),
    }
}

/// The same after an inode was settled.
fn sync_settled<D: Device>(mounted: &mut Mounted<D>, number: u32) -> Result<(), Errno>
    ensures start { mounted.new.asking.start ≡ mounted.old.asking.start }
    ensures synced { OnOk result (unsynced_of mounted.new.asking.volume.queue ≡ []) }
    ensures does { Does (settles mounted.old.session number (λ t. syncs) refuses)
        mounted.old.asking mounted.old.session (said_done result) mounted.new.asking mounted.new.session }
{
    settle(mounted, number)?;
    sync(mounted)
}

/// The same after all was settled.
pub(crate) fn sync_all<D: Device>(mounted: &mut Mounted<D>) -> Result<(), Errno>
    ensures start { mounted.new.asking.start ≡ mounted.old.asking.start }
    ensures synced { OnOk result (unsynced_of mounted.new.asking.volume.queue ≡ []) }
    ensures does { Does (syncs_all mounted.old.asking.volume.kept mounted.old.session)
        mounted.old.asking mounted.old.session (said_done result) mounted.new.asking mounted.new.session }
{
    let inodes = mounted.inodes();
    settle_all(mounted, 0, inodes)?;
    sync(mounted)
}
