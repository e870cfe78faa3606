//! Names that become others.
ghost use Rattle.std.specs.Prelude.{◌≡◌, ◌||◌, ◌++◌, not};
ghost use Rattle.model.specs.Layout.{Geometry};
ghost use Rattle.snapshot.specs.Asked.{asked};
ghost use Rattle.fuse_writer.specs.Ahead.{notes};
ghost use Rattle.fuse_writer.specs.Doings.{Does, Doing, go_on};
ghost use Rattle.fuse_writer.specs.Requests.{crosses, if_fits, is_directory, moves, renames, renames_at, renames_to, removes_as, replaces};
ghost use Rattle.fuse_writer.specs.Moves.{IsSoAfter, changes_of};
ghost use Rattle.fuse_writer.specs.Saying.{said_done};

use crate::granted::Rules;
use crate::mounted::Mounted;
use crate::naming::{leads_to, number_at};
use crate::paths::path_in;
use attributes::Attributes;
use device::Device;
use fuse_wire::{Errno, NodeId, flags};
use snapshot::Command;
use std::alloc::AllocError;

/// A name in a directory.
#[derive(Clone, Copy)]
pub(crate) struct Place<'a> {
    directory: u32,
    name: &'a [u8],
}

/// An inode, and which of its names is to become another one.
#[derive(Clone, Copy)]
pub(crate) struct Moved<'a> {
    number: u32,
    is_directory: bool,
    from: Place<'a>,
    to: Place<'a>,
    /// What the directories and the inode have once it is done.
    after: After,
}

/// The attributes of the directory that it leaves, of the one that it gets to, and of an inode, once that has moved.
#[derive(Clone, Copy)]
pub(crate) struct After {
    left: Attributes,
    reached: Attributes,
    own: Attributes,
}

/// Gives a name of an inode another one. A file that has the new name loses it, and an empty directory goes, if that is allowed;
/// users see one step. A directory moves to no other directory: programs copy it then.
pub(crate) fn rename<D: Device>(
    mounted: &mut Mounted<D>,
    parent: NodeId,
    old: &[u8],
    target: NodeId,
    new: &[u8],
    asked: u32,
) -> Result<(), Errno>
    ensures start { mounted.new.asking.start ≡ mounted.old.asking.start }
    ensures does { Does (renames mounted.old.asking.volume.kept mounted.old.session parent old.now target new.now asked)
        mounted.old.asking mounted.old.session (said_done result) mounted.new.asking mounted.new.session }
{
    if asked & !flags::NO_REPLACE != 0 {
        return Err(Errno::Invalid);
    }
    let from = Place {
        directory: mounted.directory(parent)?,
        name: old,
    };
    let to = Place {
        directory: mounted.directory(target)?,
        name: new,
    };
    rename_at(mounted, from, to, asked & flags::NO_REPLACE != 0)
}

/// The same of names in directories. A rename that spares replaces nothing.
fn rename_at<D: Device>(
    mounted: &mut Mounted<D>,
    from: Place<'_>,
    to: Place<'_>,
    spares: bool,
) -> Result<(), Errno>
    ensures start { mounted.new.asking.start ≡ mounted.old.asking.start }
    ensures does { Does (renames_at mounted.old.asking.volume.kept mounted.old.session spares
        from.entry.directory from.entry.name.now to.entry.directory to.entry.name.now)
        mounted.old.asking mounted.old.session (said_done result) mounted.new.asking mounted.new.session }
{
    let number = number_at(mounted, from.directory, from.name)?;
    let other = leads_to(mounted, to.directory, to.name)?;
    let is_directory = mounted.metadata().is_directory_at(number);
    let after = After {
        left: mounted.touched(from.directory),
        reached: mounted.touched(to.directory),
        own: mounted.marked(number),
    };
    let moved = Moved {
        number,
        is_directory,
        from,
        to,
        after,
    };
    rename_to(mounted, moved, other, spares)
}

/// The same where the new name leads to the other inode, if it does.
fn rename_to<D: Device>(
    mounted: &mut Mounted<D>,
    moved: Moved<'_>,
    other: Option<u32>,
    spares: bool,
) -> Result<(), Errno>
    requires { IsSoAfter mounted.old.asking.volume.kept mounted.old.session moved }
    ensures start { mounted.new.asking.start ≡ mounted.old.asking.start }
    ensures does { Does (renames_to mounted.old.asking.volume.kept mounted.old.session spares moved.entry.is_directory
        moved.entry.number moved.entry.from.directory moved.entry.from.name.now moved.entry.to.directory moved.entry.to.name.now other)
        mounted.old.asking mounted.old.session (said_done result) mounted.new.asking mounted.new.session }
{
    let Some(other) = other else {
        return move_name(mounted, moved);
    };
    if other == moved.number {
        return Ok(());
    }
    if is_spared(mounted.session.rules, spares) {
        return Err(Errno::Exists);
    }
    replace(mounted, moved, other)
}

/// Takes the new name from the inode that has it, and moves the old one there.
fn replace<D: Device>(mounted: &mut Mounted<D>, moved: Moved<'_>, other: u32) -> Result<(), Errno>
    ensures start { mounted.new.asking.start ≡ mounted.old.asking.start }
    ensures does { Does (replaces mounted.old.asking.volume.kept mounted.old.session (changes_of mounted.old.session moved.entry)
        moved.entry.is_directory (is_directory mounted.old.asking.volume.kept other)
        moved.entry.number moved.entry.from.directory moved.entry.from.name.now other moved.entry.to.directory moved.entry.to.name.now)
        mounted.old.asking mounted.old.session (said_done result) mounted.new.asking mounted.new.session }
{
    let to = moved.to;
    let is_other_directory = mounted.metadata().is_directory_at(other);
    check_fits(moved, is_other_directory)?;
    let path = path_in(mounted, to.directory, to.name)?;
    let marked = mounted.marked(other);
    mounted.ask_done(removal(moved.is_directory, path))?;
    mounted
        .session
        .nodes
        .remove_name(other, to.directory, to.name);
    mounted.note(other, marked);
    move_name(mounted, moved)
}

/// Whether the inode may take the name of another one, which is a directory or a file: a file that of a file, a directory that of a
/// directory, which is to be in the same one.
fn check_fits(moved: Moved<'_>, is_other_directory: bool) -> Result<(), Errno>
    ensures { (next : Doing) → if_fits moved.entry.is_directory is_other_directory moved.entry.from.directory moved.entry.to.directory next
        ≡ go_on result next }
{
    if is_other_directory && !moved.is_directory {
        return Err(Errno::IsDirectory);
    }
    if moved.is_directory && !is_other_directory {
        return Err(Errno::NotDirectory);
    }
    if crosses(moved) {
        return Err(Errno::CrossDevice);
    }
    Ok(())
}

/// Whether no name is replaced: by this rename, or by none.
fn is_spared(rules: Rules, spares: bool) -> bool
    ensures { result ≡ (spares || not rules.replaces) }
{
    spares || !rules.replaces
}

/// Whether a directory is to move to another one.
fn crosses(moved: Moved<'_>) -> bool
    ensures { result ≡ crosses moved.entry.is_directory moved.entry.from.directory moved.entry.to.directory }
{
    moved.is_directory && moved.from.directory != moved.to.directory
}

/// The command that takes this name from a file or a directory.
fn removal(is_directory: bool, path: Vec<u8>) -> Command
    ensures { (geo : Geometry) → asked geo result ≡ removes_as is_directory path.items }
{
    if is_directory {
        Command::Rmdir(path)
    } else {
        Command::Unlink(path)
    }
}

/// Moves a name of an inode to where none stands.
fn move_name<D: Device>(mounted: &mut Mounted<D>, moved: Moved<'_>) -> Result<(), Errno>
    ensures start { mounted.new.asking.start ≡ mounted.old.asking.start }
    ensures does { Does (moves mounted.old.session (changes_of mounted.old.session moved.entry) moved.entry.is_directory
        moved.entry.number moved.entry.from.directory moved.entry.from.name.now moved.entry.to.directory moved.entry.to.name.now)
        mounted.old.asking mounted.old.session (said_done result) mounted.new.asking mounted.new.session }
{
    let Moved {
        number,
        from,
        to,
        after,
        ..
    } = moved;
    if crosses(moved) {
        return Err(Errno::CrossDevice);
    }
    let old = path_in(mounted, from.directory, from.name)?;
    let new = path_in(mounted, to.directory, to.name)?;
    mounted.ask_done(Command::Rename(old, new))?;
    mounted
        .session
        .nodes
        .remove_name(number, from.directory, from.name);
    mounted.note(from.directory, after.left);
    mounted.note(to.directory, after.reached);
    mounted.note(number, after.own);
    match mounted
        .session
        .nodes
        .add_name(number, to.directory, to.name)
    {
        Ok(()) => Ok(()),
        Err(AllocError) => Err(Errno::NoMemory),
    }
}
