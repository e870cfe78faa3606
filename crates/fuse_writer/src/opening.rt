//! Files that are open.
ghost use Rattle.std.specs.Prelude.{◌≡◌};
ghost use Rattle.fuse_wire.specs.declared.bodies.Body.TheVariants as bodies;
ghost use Rattle.fuse_wire.specs.declared.errors.Errno.{Errno as Number};
ghost use Rattle.fuse_writer.specs.Doings.{Does, Doing, Gives, LeadsOn, go_on_or, said_by};
ghost use Rattle.fuse_writer.specs.Requests.{at_handle, closed, closes, open_file, opens, opens_directory, releases};
ghost use Rattle.fuse_writer.specs.Saying.{said_done};

use crate::mounted::Mounted;
use crate::paths::path_of;
use device::Device;
use fuse_wire::{Errno, Handle, NodeId, Opened, flags};
use snapshot::Command;

/// Opens a file. Each is open by one handle of the volume, however often it is opened.
pub(crate) fn open<D: Device>(mounted: &mut Mounted<D>, node: NodeId) -> Result<Opened, Errno>
    ensures start { mounted.new.asking.start ≡ mounted.old.asking.start }
    ensures does { Does (opens mounted.old.asking.volume.kept mounted.old.session node)
        mounted.old.asking mounted.old.session (said_by bodies.Opened result) mounted.new.asking mounted.new.session }
{
    let number = mounted.inode(node)?;
    if mounted.metadata().is_directory_at(number) {
        return Err(Errno::IsDirectory);
    }
    if let Some(open) = mounted.session.nodes.open_by(number) {
        mounted.session.nodes.open(number, open.handle);
        return Ok(opened_file(number));
    }
    let path = path_of(mounted, number)?;
    let handle = mounted.ask_number(Command::Open(path))?;
    mounted.session.nodes.open(number, handle);
    Ok(opened_file(number))
}

/// An open file, whose contents the kernel may keep. The handle is the number of the inode: the file may lose its last name, and then
/// is reached by it alone.
pub(crate) fn opened_file(number: u32) -> Opened
    ensures { result ≡ open_file number }
{
    Opened {
        handle: Handle(u64::from(number)),
        flags: flags::KEEP_CACHE,
    }
}

/// One of those who opened a file is done.
pub(crate) fn release<D: Device>(mounted: &mut Mounted<D>, handle: Handle) -> Result<(), Errno>
    ensures start { mounted.new.asking.start ≡ mounted.old.asking.start }
    ensures does { Does (releases mounted.old.session handle.0)
        mounted.old.asking mounted.old.session (said_done result) mounted.new.asking mounted.new.session }
{
    if handle.0 > u64::from(u32::MAX) {
        return Err(Errno::Stale);
    }
    close(mounted, handle.0 as u32)
}

/// One of those who opened the file of this number is done: the last closes the volume's handle.
pub(crate) fn close<D: Device>(mounted: &mut Mounted<D>, number: u32) -> Result<(), Errno>
    ensures start { mounted.new.asking.start ≡ mounted.old.asking.start }
    ensures session { mounted.new.session ≡ closed mounted.old.session number }
    ensures does { (next : Doing) (refused : Number → Doing) → LeadsOn (closes mounted.old.session number next refused)
        mounted.old.asking mounted.old.session (go_on_or result next refused) mounted.new.asking mounted.new.session }
{
    match mounted.session.nodes.close(number) {
        Some(handle) => mounted.ask_done(Command::Close(handle)),
        None => Ok(()),
    }
}

/// The volume's handle of an open file.
pub(crate) fn handle_of<D: Device>(mounted: &Mounted<D>, number: u32) -> Result<u32, Errno>
    ensures { Gives result (at_handle mounted.now.session number) }
{
    match mounted.session.nodes.open_by(number) {
        Some(open) => Ok(open.handle),
        None => Err(Errno::Stale),
    }
}

/// Opens a directory to be listed.
pub(crate) fn open_directory<D: Device>(mounted: &Mounted<D>, node: NodeId) -> Result<Opened, Errno>
    ensures { Does (opens_directory mounted.now.asking.volume.kept mounted.now.session node)
        mounted.now.asking mounted.now.session (said_by bodies.Opened result) mounted.now.asking mounted.now.session }
{
    mounted.directory(node)?;
    Ok(Opened {
        handle: Handle(0),
        flags: 0,
    })
}
