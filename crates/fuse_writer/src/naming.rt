//! Names: what they lead to, new ones, and names that go.
ghost use Rattle.std.specs.Prelude.{◌≡◌, ◌∷◌, [], None};
ghost use Rattle.attributes.specs.declared.Attributes.{Attributes as Own};
ghost use Rattle.fuse_wire.specs.declared.bodies.Body.TheVariants as bodies;
ghost use Rattle.machine.specs.Command.{Rmdir, Unlink};
ghost use Rattle.fuse_nodes.specs.Table.{Born};
ghost use Rattle.fuse_writer.specs.Ahead.{notes};
ghost use Rattle.fuse_writer.specs.Doings.{Does, Gives, noted, said_by};
ghost use Rattle.fuse_writer.specs.Requests.{at_name, creates, links, links_at, looks_up, makes_directory, makes_node, opens_new, removes, takes_away, where_leads};
ghost use Rattle.fuse_writer.specs.Saying.{said_created, said_done, said_found};
ghost use Rattle.fuse_reader.specs.Said.{Refused};

use crate::making::{New, may_make, words_for};
use crate::mounted::Mounted;
use crate::opening::opened_file;
use crate::paths::{path_in, path_of};
use crate::showing::tell_of;
use attributes::Attributes;
use device::Device;
use dirent::NAME_BYTES;
use fuse_wire::{Entry, Errno, NodeId, Opened};
use snapshot::Command;

/// The number that a name in a directory leads to.
pub(crate) fn leads_to<D: Device>(
    mounted: &Mounted<D>,
    directory: u32,
    name: &[u8],
) -> Result<Option<u32>, Errno>
    ensures { Gives result (where_leads mounted.now.asking.volume.kept directory name.now) }
{
    if name.len() > NAME_BYTES {
        return Err(Errno::NameTooLong);
    }
    Ok(fuse_reader::number_of(mounted.metadata(), directory, name))
}

/// The same of a name that is there.
pub(crate) fn number_at<D: Device>(
    mounted: &Mounted<D>,
    directory: u32,
    name: &[u8],
) -> Result<u32, Errno>
    ensures { Gives result (at_name mounted.now.asking.volume.kept directory name.now) }
{
    match leads_to(mounted, directory, name)? {
        Some(number) => Ok(number),
        None => Err(Errno::NotFound),
    }
}

/// What a name in a directory leads to, if it is there.
pub(crate) fn look_up<D: Device>(
    mounted: &mut Mounted<D>,
    parent: NodeId,
    name: &[u8],
) -> Result<Option<Entry>, Errno>
    ensures start { mounted.new.asking.start ≡ mounted.old.asking.start }
    ensures does { Does (looks_up mounted.old.asking.volume.kept mounted.old.session parent name.now)
        mounted.old.asking mounted.old.session (said_found result) mounted.new.asking mounted.new.session }
{
    let directory = mounted.directory(parent)?;
    match leads_to(mounted, directory, name)? {
        Some(number) => Ok(Some(tell_of(mounted, directory, name, number)?)),
        None => Ok(None),
    }
}

/// Makes a directory.
pub(crate) fn make_directory<D: Device>(
    mounted: &mut Mounted<D>,
    parent: NodeId,
    name: &[u8],
    new: New,
) -> Result<Entry, Errno>
    ensures start { mounted.new.asking.start ≡ mounted.old.asking.start }
    ensures does { Does (makes_directory mounted.old.asking.volume.kept mounted.old.session parent name.now new)
        mounted.old.asking mounted.old.session (said_by bodies.Entry result) mounted.new.asking mounted.new.session }
{
    let directory = mounted.directory(parent)?;
    let path = path_in(mounted, directory, name)?;
    let attributes = words_for(mounted, directory, new);
    let touched = mounted.touched(directory);
    let number = mounted.ask_number(Command::Mkdir { path, attributes })?;
    bear(mounted, number, directory, touched);
    tell_of(mounted, directory, name, number)
}

/// Makes a file; where attributes are kept a fifo, a device or a socket too, which are files that say so.
pub(crate) fn make_node<D: Device>(
    mounted: &mut Mounted<D>,
    parent: NodeId,
    name: &[u8],
    new: New,
) -> Result<Entry, Errno>
    ensures start { mounted.new.asking.start ≡ mounted.old.asking.start }
    ensures does { Does (makes_node mounted.old.asking.volume.kept mounted.old.session parent name.now new)
        mounted.old.asking mounted.old.session (said_by bodies.Entry result) mounted.new.asking mounted.new.session }
{
    if !may_make(mounted.session.rules, new.kind()) {
        return Err(Errno::NotPermitted);
    }
    let directory = mounted.directory(parent)?;
    let path = path_in(mounted, directory, name)?;
    let attributes = words_for(mounted, directory, new);
    let touched = mounted.touched(directory);
    let number = mounted.ask_number(Command::Create { path, attributes })?;
    bear(mounted, number, directory, touched);
    tell_of(mounted, directory, name, number)
}

/// Makes a file, and opens it. If it cannot be opened, it is taken away again.
pub(crate) fn create<D: Device>(
    mounted: &mut Mounted<D>,
    parent: NodeId,
    name: &[u8],
    new: New,
) -> Result<(Entry, Opened), Errno>
    ensures start { mounted.new.asking.start ≡ mounted.old.asking.start }
    ensures does { Does (creates mounted.old.asking.volume.kept mounted.old.session parent name.now new)
        mounted.old.asking mounted.old.session (said_created result) mounted.new.asking mounted.new.session }
{
    let directory = mounted.directory(parent)?;
    let path = path_in(mounted, directory, name)?;
    let Ok(again) = Vec::from_slice(mounted.alloc, path.as_slice()) else {
        return Err(Errno::NoMemory);
    };
    let attributes = words_for(mounted, directory, new);
    let touched = mounted.touched(directory);
    let number = mounted.ask_number(Command::Create { path, attributes })?;
    bear(mounted, number, directory, touched);
    open_new(mounted, directory, name, number, again)
}

/// Opens a new file, by its path. If it cannot be opened, its name is taken away again.
fn open_new<D: Device>(
    mounted: &mut Mounted<D>,
    directory: u32,
    name: &[u8],
    number: u32,
    path: Vec<u8>,
) -> Result<(Entry, Opened), Errno>
    ensures start { mounted.new.asking.start ≡ mounted.old.asking.start }
    ensures does { Does (opens_new mounted.old.session directory name.now number path.items)
        mounted.old.asking mounted.old.session (said_created result) mounted.new.asking mounted.new.session }
{
    match mounted.ask_number(Command::Open(path)) {
        Ok(handle) => {
            mounted.session.nodes.open(number, handle);
            let entry = tell_of(mounted, directory, name, number)?;
            Ok((entry, opened_file(number)))
        }
        Err(error) => Err(take_away(mounted, directory, name, error)),
    }
}

/// Takes a new name away again, since of what was to be behind it something was refused. Gives that refusal, or the one of the removal.
pub(crate) fn take_away<D: Device>(
    mounted: &mut Mounted<D>,
    directory: u32,
    name: &[u8],
    error: Errno,
) -> Errno
    ensures start { mounted.new.asking.start ≡ mounted.old.asking.start }
    ensures session { mounted.new.session ≡ mounted.old.session }
    ensures does { Does (takes_away mounted.old.session directory name.now error)
        mounted.old.asking mounted.old.session (Refused result) mounted.new.asking mounted.new.session }
{
    let path = match path_in(mounted, directory, name) {
        Ok(path) => path,
        Err(other) => return other,
    };
    match mounted.ask_done(Command::Unlink(path)) {
        Ok(()) => error,
        Err(other) => other,
    }
}

/// This number was given to a new inode of a directory, which is touched, and has these attributes.
pub(crate) fn bear<D: Device>(
    mounted: &mut Mounted<D>,
    number: u32,
    directory: u32,
    touched: Attributes,
)
    ensures asking { mounted.new.asking ≡ mounted.old.asking }
    ensures session { mounted.new.session ≡ noted (Born number ∷ [])
        (record { number = number; ahead = None } ∷ notes mounted.old.session directory touched) mounted.old.session }
{
    mounted.session.nodes.bear(number);
    mounted.clear(number);
    mounted.note(directory, touched);
}

/// Gives a file one more name.
pub(crate) fn link<D: Device>(
    mounted: &mut Mounted<D>,
    parent: NodeId,
    file: NodeId,
    name: &[u8],
) -> Result<Entry, Errno>
    ensures start { mounted.new.asking.start ≡ mounted.old.asking.start }
    ensures does { Does (links mounted.old.asking.volume.kept mounted.old.session parent file name.now)
        mounted.old.asking mounted.old.session (said_by bodies.Entry result) mounted.new.asking mounted.new.session }
{
    let directory = mounted.directory(parent)?;
    let number = mounted.inode(file)?;
    if mounted.metadata().is_directory_at(number) {
        return Err(Errno::NotPermitted);
    }
    link_at(mounted, directory, name, number)
}

/// Gives a file one more name, by the first that the kernel was told.
fn link_at<D: Device>(
    mounted: &mut Mounted<D>,
    directory: u32,
    name: &[u8],
    number: u32,
) -> Result<Entry, Errno>
    ensures start { mounted.new.asking.start ≡ mounted.old.asking.start }
    ensures does { Does (links_at mounted.old.asking.volume.kept mounted.old.session directory name.now number)
        mounted.old.asking mounted.old.session (said_by bodies.Entry result) mounted.new.asking mounted.new.session }
{
    let own = path_of(mounted, number)?;
    let path = path_in(mounted, directory, name)?;
    let touched = mounted.touched(directory);
    let marked = mounted.marked(number);
    mounted.ask_done(Command::Link(own, path))?;
    mounted.note(directory, touched);
    mounted.note(number, marked);
    tell_of(mounted, directory, name, number)
}

/// Takes a name from a file.
pub(crate) fn unlink<D: Device>(
    mounted: &mut Mounted<D>,
    parent: NodeId,
    name: &[u8],
) -> Result<(), Errno>
    ensures start { mounted.new.asking.start ≡ mounted.old.asking.start }
    ensures does { Does (removes mounted.old.asking.volume.kept mounted.old.session parent name.now Unlink)
        mounted.old.asking mounted.old.session (said_done result) mounted.new.asking mounted.new.session }
{
    let directory = mounted.directory(parent)?;
    let number = number_at(mounted, directory, name)?;
    let path = path_in(mounted, directory, name)?;
    let touched = mounted.touched(directory);
    let marked = mounted.marked(number);
    mounted.ask_done(Command::Unlink(path))?;
    mounted.session.nodes.remove_name(number, directory, name);
    mounted.note(directory, touched);
    mounted.note(number, marked);
    Ok(())
}

/// Takes an empty directory away.
pub(crate) fn remove_directory<D: Device>(
    mounted: &mut Mounted<D>,
    parent: NodeId,
    name: &[u8],
) -> Result<(), Errno>
    ensures start { mounted.new.asking.start ≡ mounted.old.asking.start }
    ensures does { Does (removes mounted.old.asking.volume.kept mounted.old.session parent name.now Rmdir)
        mounted.old.asking mounted.old.session (said_done result) mounted.new.asking mounted.new.session }
{
    let directory = mounted.directory(parent)?;
    let number = number_at(mounted, directory, name)?;
    let path = path_in(mounted, directory, name)?;
    let touched = mounted.touched(directory);
    let marked = mounted.marked(number);
    mounted.ask_done(Command::Rmdir(path))?;
    mounted.session.nodes.remove_name(number, directory, name);
    mounted.note(directory, touched);
    mounted.note(number, marked);
    Ok(())
}
