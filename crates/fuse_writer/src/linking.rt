//! Symbolic links: files whose attributes say so, with the target as their bytes.
ghost use Rattle.std.specs.Prelude.{◌≡◌, ◌≤◌, ◌^◌, IfOk, OnOk, length};
ghost use Rattle.fuse_wire.specs.declared.bodies.Body.TheVariants as bodies;
ghost use Rattle.fuse_wire.specs.declared.errors.Errno.{Errno as Number};
ghost use Rattle.model.specs.Uses.{blocks_of};
ghost use Rattle.fuse_writer.specs.Doings.{Does, Doing, LeadsOn, go_on, go_on_or, said_by};
ghost use Rattle.fuse_writer.specs.Requests.{if_target, kind_at, makes_link, opens_link, puts_blocks, puts_target, reads_link, reads_target};
ghost use Rattle.fuse_writer.specs.Saying.{said_bytes};

use crate::bytes::{read_between, write_piece};
use crate::making::{New, words_for};
use crate::mounted::Mounted;
use crate::naming::{bear, take_away};
use crate::paths::{path_in, path_of};
use crate::showing::tell_of;
use attributes::kind_of;
use device::Device;
use fuse_reader::{SYMBOLIC_LINK, TARGET_BYTES};
use fuse_wire::{Entry, Errno, NodeId};
use inode::blocks_of_size;
use layout::BLOCK_BYTES;
use reading::record_of;
use snapshot::Command;

/// The target of a link.
pub(crate) fn read_link<D: Device>(mounted: &mut Mounted<D>, node: NodeId) -> Result<Vec<u8>, Errno>
    ensures start { mounted.new.asking.start ≡ mounted.old.asking.start }
    ensures does { Does (reads_link mounted.old.asking.volume.kept mounted.old.session node)
        mounted.old.asking mounted.old.session (said_bytes (λ bytes. bytes.items) result) mounted.new.asking mounted.new.session }
    ensures few { IfOk result (λ bytes. length bytes.items ≤ 2 ^ 21) }
{
    let number = mounted.inode(node)?;
    let kind = kind_at(mounted, number);
    if kind != SYMBOLIC_LINK {
        return Err(Errno::Invalid);
    }
    read_target(mounted, number)
}

/// What an inode is, as a number.
fn kind_at<D: Device>(mounted: &Mounted<D>, number: u32) -> u16
    ensures { result ≡ kind_at mounted.now.asking.volume.kept mounted.now.session number }
{
    let own = mounted.attributes_of(number);
    kind_of(mounted.metadata().is_directory_at(number), own.mode)
}

/// The bytes of a link, which is opened for it, and closed in any case.
fn read_target<D: Device>(mounted: &mut Mounted<D>, number: u32) -> Result<Vec<u8>, Errno>
    ensures start { mounted.new.asking.start ≡ mounted.old.asking.start }
    ensures does { Does (reads_target mounted.old.asking.volume.kept mounted.old.session number)
        mounted.old.asking mounted.old.session (said_bytes (λ bytes. bytes.items) result) mounted.new.asking mounted.new.session }
    ensures few { IfOk result (λ bytes. length bytes.items ≤ 2 ^ 21) }
{
    let size = record_of(mounted.metadata(), number).size;
    let path = path_of(mounted, number)?;
    let handle = mounted.ask_number(Command::Open(path))?;
    let target = read_between(mounted, handle, 0, size.min(TARGET_BYTES));
    let closed = mounted.ask_done(Command::Close(handle));
    let bytes = target?;
    closed?;
    Ok(bytes)
}

/// Makes a link with a target of 1 to 4,095 bytes.
pub(crate) fn make_link<D: Device>(
    mounted: &mut Mounted<D>,
    parent: NodeId,
    name: &[u8],
    target: &[u8],
    new: New,
) -> Result<Entry, Errno>
    ensures start { mounted.new.asking.start ≡ mounted.old.asking.start }
    ensures does { Does (makes_link mounted.old.asking.volume.kept mounted.old.session parent name.now target.now new)
        mounted.old.asking mounted.old.session (said_by bodies.Entry result) mounted.new.asking mounted.new.session }
{
    if !mounted.session.rules.keeps_attributes {
        return Err(Errno::NotPermitted);
    }
    check_target(target)?;
    let directory = mounted.directory(parent)?;
    let path = path_in(mounted, directory, name)?;
    let Ok(again) = Vec::from_slice(mounted.alloc, path.as_slice()) else {
        return Err(Errno::NoMemory);
    };
    let attributes = words_for(mounted, directory, new);
    let touched = mounted.touched(directory);
    let number = mounted.ask_number(Command::Create { path, attributes })?;
    bear(mounted, number, directory, touched);
    open_link(mounted, directory, name, number, target, again)
}

/// Whether a target has 1 to 4,095 bytes.
fn check_target(target: &[u8]) -> Result<(), Errno>
    ensures target { (next : Doing) → if_target target.now next ≡ go_on result next }
    ensures few { OnOk result (length target.now ≤ 4095) }
{
    if target.is_empty() {
        return Err(Errno::Invalid);
    }
    if target.len() > TARGET_BYTES as usize {
        return Err(Errno::NameTooLong);
    }
    Ok(())
}

/// Opens a new link, by its path, and gives it its target. If that cannot be, its name is taken away again.
fn open_link<D: Device>(
    mounted: &mut Mounted<D>,
    directory: u32,
    name: &[u8],
    number: u32,
    target: &[u8],
    path: Vec<u8>,
) -> Result<Entry, Errno>
    requires { length target.now ≤ 4095 }
    ensures start { mounted.new.asking.start ≡ mounted.old.asking.start }
    ensures does { Does (opens_link mounted.old.session directory name.now number target.now path.items)
        mounted.old.asking mounted.old.session (said_by bodies.Entry result) mounted.new.asking mounted.new.session }
{
    match mounted.ask_number(Command::Open(path)) {
        Ok(handle) => put_target(mounted, directory, name, number, target, handle),
        Err(error) => Err(take_away(mounted, directory, name, error)),
    }
}

/// Gives an open link its target, and closes it. If one of both cannot be, its name is taken away again.
fn put_target<D: Device>(
    mounted: &mut Mounted<D>,
    directory: u32,
    name: &[u8],
    number: u32,
    target: &[u8],
    handle: u32,
) -> Result<Entry, Errno>
    requires { length target.now ≤ 4095 }
    ensures start { mounted.new.asking.start ≡ mounted.old.asking.start }
    ensures does { Does (puts_target mounted.old.session directory name.now number target.now handle)
        mounted.old.asking mounted.old.session (said_by bodies.Entry result) mounted.new.asking mounted.new.session }
{
    let written = put_blocks(mounted, handle, target);
    let closed = mounted.ask_done(Command::Close(handle));
    match written {
        Ok(()) => match closed {
            Ok(()) => tell_of(mounted, directory, name, number),
            Err(error) => Err(take_away(mounted, directory, name, error)),
        },
        Err(error) => Err(take_away(mounted, directory, name, error)),
    }
}

/// Writes bytes into an open file from its start on.
fn put_blocks<D: Device>(mounted: &mut Mounted<D>, handle: u32, bytes: &[u8]) -> Result<(), Errno>
    requires { length bytes.now ≤ 4095 }
    ensures start { mounted.new.asking.start ≡ mounted.old.asking.start }
    ensures session { mounted.new.session ≡ mounted.old.session }
    ensures does { (next : Doing) (refused : Number → Doing) → LeadsOn (puts_blocks handle 0 (blocks_of (length bytes.now)) bytes.now next refused)
        mounted.old.asking mounted.old.session (go_on_or result next refused) mounted.new.asking mounted.new.session }
{
    let last = blocks_of_size(bytes.len() as u32);
    let mut rest = bytes;
    for index in 0..last {
        let count = BLOCK_BYTES.min(rest.len());
        let Ok(piece) = Vec::from_slice(mounted.alloc, &rest[..count]) else {
            return Err(Errno::NoMemory);
        };
        write_piece(mounted, handle, index, piece)?;
        rest = &rest[count..];
    }
    Ok(())
}
