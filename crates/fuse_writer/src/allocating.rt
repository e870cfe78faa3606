//! Room for files.
ghost use Rattle.std.specs.Prelude.{◌≡◌};
ghost use Rattle.fuse_writer.specs.Doings.{Does, Doing, LeadsOn, go_on};
ghost use Rattle.fuse_writer.specs.Requests.{allocates, lengthens};
ghost use Rattle.fuse_writer.specs.Saying.{said_done};

use crate::bytes::fill_to;
use crate::mounted::Mounted;
use crate::opening::handle_of;
use device::Device;
use fuse_wire::{Errno, NodeId};
use reading::record_of;
use snapshot::Command;

/// Sees to it that an open file has so many bytes from an offset on: as far as it ends before, it gets zeroes. Room behind the end of a
/// file, which other modes ask for, there is none.
pub(crate) fn allocate<D: Device>(
    mounted: &mut Mounted<D>,
    node: NodeId,
    offset: u64,
    bytes: u64,
    mode: u32,
) -> Result<(), Errno>
    ensures start { mounted.new.asking.start ≡ mounted.old.asking.start }
    ensures does { Does (allocates mounted.old.asking.volume.kept mounted.old.session node offset bytes mode)
        mounted.old.asking mounted.old.session (said_done result) mounted.new.asking mounted.new.session }
{
    if mode != 0 {
        return Err(Errno::NotSupported);
    }
    let number = mounted.inode(node)?;
    let handle = handle_of(mounted, number)?;
    let end = offset.saturating_add(bytes);
    if end > u64::from(u32::MAX) {
        return Err(Errno::TooBig);
    }
    let own = record_of(mounted.metadata(), number).size;
    if end <= u64::from(own) {
        return Ok(());
    }
    let touched = mounted.touched(number);
    lengthen(mounted, handle, own, end as u32)?;
    mounted.note(number, touched);
    Ok(())
}

/// Lengthens an open file of this size by zeroes to another one. If one of them is refused, it gets its size back.
fn lengthen<D: Device>(
    mounted: &mut Mounted<D>,
    handle: u32,
    own: u32,
    size: u32,
) -> Result<(), Errno>
    ensures start { mounted.new.asking.start ≡ mounted.old.asking.start }
    ensures session { mounted.new.session ≡ mounted.old.session }
    ensures does { (next : Doing) → LeadsOn (lengthens mounted.old.session.rules handle own size next)
        mounted.old.asking mounted.old.session (go_on result next) mounted.new.asking mounted.new.session }
{
    match fill_to(mounted, handle, own, size) {
        Ok(()) => Ok(()),
        Err(error) => {
            let _ = mounted.ask_done(Command::Truncate { handle, size: own });
            Err(error)
        }
    }
}
