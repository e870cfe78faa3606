//! What is answered to a request.
ghost use Rattle.std.specs.Prelude.{◌≡◌, ◌≤◌, ◌^◌, [], IfOk, OnOk, length};
ghost use Rattle.fuse_wire.specs.declared.bodies.Body.TheVariants as bodies;
ghost use Rattle.fuse_wire.specs.declared.errors.Errno.{Errno as Number};
ghost use Rattle.fuse_wire.specs.Requests.{seen};
ghost use Rattle.fuse_nodes.specs.Table.{known};
ghost use Rattle.softdep.specs.Queued.{unsynced_of};
ghost use Rattle.fuse_writer.specs.declared.session.Session.{Session};
ghost use Rattle.fuse_writer.specs.Answers.{IsTurn};
ghost use Rattle.fuse_writer.specs.Doings.{Does, Doing, LeadsOn, go_on_or, said_by};
ghost use Rattle.fuse_writer.specs.Requests.{closes_all, closes_often, ends, kept_for, lists, opened_often, shows_attributes};
ghost use Rattle.fuse_writer.specs.Saying.{said_bytes, said_done};

use crate::allocating::allocate;
use crate::bytes::{MOST_BYTES, read, write};
use crate::linking::{make_link, read_link};
use crate::listing::list_plus;
use crate::making::New;
use crate::mounted::Mounted;
use crate::naming::{create, link, look_up, make_directory, make_node, remove_directory, unlink};
use crate::opening::{close, open, open_directory, release};
use crate::renaming::rename;
use crate::saying::{
    say_attributes, say_bytes, say_created, say_done, say_entry, say_found, say_opened, say_written,
};
use crate::setting::set_attributes;
use crate::settling::{settle_all, sync_all, sync_node};
use crate::showing::{kept_for, shown_of};
use device::Device;
use fuse_reader::{TAKEN, agree, forget_all, listing_from, refuse, room_of, tell};
use fuse_wire::{Attributes, Body, Errno, Head, NodeId, Request, flags};
use snapshot::Command;
use std::alloc::AllocError;

/// What is taken of what the kernel offers.
const SERVED: u32 = TAKEN | flags::DO_READDIRPLUS;

/// Answers a request. The reply is empty where none is asked for.
pub(crate) fn answer<D: Device>(
    mounted: &mut Mounted<D>,
    head: Head,
    request: Request<'_>,
    reply: &mut Vec<u8>,
) -> Result<(), AllocError>
    ensures start { mounted.new.asking.start ≡ mounted.old.asking.start }
    ensures turn { IsTurn head (seen request.entry) mounted.old.asking mounted.old.session result reply.new.items
        mounted.new.asking mounted.new.session }
{
    let Head { unique, node, .. } = head;
    match request {
        Request::Init(offer) => agree(reply, unique, &offer, SERVED),
        Request::Lookup { name } => say_found(reply, unique, look_up(mounted, node, name)),
        Request::Forget { lookups } => {
            mounted.session.nodes.forget(node, lookups);
            reply.clear();
            Ok(())
        }
        Request::BatchForget(forgets) => {
            forget_all(&mut mounted.session.nodes, forgets);
            reply.clear();
            Ok(())
        }
        Request::GetAttributes { .. } => {
            let kept = kept_for(&mounted.session);
            say_attributes(reply, unique, kept, attributes_at(mounted, node))
        }
        Request::SetAttributes(changes) => {
            let outcome = set_attributes(mounted, node, &changes);
            let kept = kept_for(&mounted.session);
            say_attributes(reply, unique, kept, outcome)
        }
        Request::ReadSymbolicLink => say_bytes(reply, unique, read_link(mounted, node)),
        Request::MakeSymbolicLink { name, target } => say_entry(
            reply,
            unique,
            make_link(mounted, node, name, target, New::link(head)),
        ),
        Request::MakeNode {
            mode,
            device,
            name,
            ..
        } => say_entry(
            reply,
            unique,
            make_node(mounted, node, name, New::node(head, mode, device)),
        ),
        Request::MakeDirectory { mode, name, .. } => say_entry(
            reply,
            unique,
            make_directory(mounted, node, name, New::directory(head, mode)),
        ),
        Request::Unlink { name } => say_done(reply, unique, unlink(mounted, node, name)),
        Request::RemoveDirectory { name } => {
            say_done(reply, unique, remove_directory(mounted, node, name))
        }
        Request::Rename {
            directory,
            flags,
            old,
            new,
        } => say_done(
            reply,
            unique,
            rename(mounted, node, old, directory, new, flags),
        ),
        Request::Link { node: file, name } => {
            say_entry(reply, unique, link(mounted, node, file, name))
        }
        Request::Open { .. } => say_opened(reply, unique, open(mounted, node)),
        Request::Create { mode, name, .. } => say_created(
            reply,
            unique,
            create(mounted, node, name, New::file(head, mode)),
        ),
        Request::Read { offset, size, .. } => {
            say_bytes(reply, unique, read(mounted, node, offset, size))
        }
        Request::Write { offset, bytes, .. } => {
            say_written(reply, unique, write(mounted, node, offset, bytes))
        }
        Request::Release { handle } => say_done(reply, unique, release(mounted, handle)),
        Request::OpenDirectory { .. } => say_opened(reply, unique, open_directory(mounted, node)),
        Request::ReadDirectory { offset, size, .. } => {
            say_bytes(reply, unique, list(mounted, node, offset, size))
        }
        Request::Sync { data_only, .. } | Request::SyncDirectory { data_only, .. } => {
            say_done(reply, unique, sync_node(mounted, node, data_only))
        }
        Request::SyncVolume => say_done(reply, unique, sync_all(mounted)),
        Request::Statistics => {
            let room = room_of(mounted.metadata());
            tell(reply, unique, Body::Statistics(room))
        }
        Request::Destroy => say_done(reply, unique, end(mounted)),
        Request::Interrupt { .. } => {
            reply.clear();
            Ok(())
        }
        Request::ReleaseDirectory { .. } => tell(reply, unique, Body::Empty),
        Request::ReadDirectoryPlus { offset, size, .. } => {
            say_bytes(reply, unique, list_plus(mounted, node, offset, size))
        }
        Request::Allocate {
            offset,
            bytes,
            mode,
            ..
        } => say_done(reply, unique, allocate(mounted, node, offset, bytes, mode)),
        Request::Flush { .. } | Request::Other { .. } => {
            refuse(reply, unique, Errno::NotImplemented)
        }
    }
}

/// The attributes of a node.
fn attributes_at<D: Device>(mounted: &Mounted<D>, node: NodeId) -> Result<Attributes, Errno>
    ensures { Does (shows_attributes mounted.now.session node)
        mounted.now.asking mounted.now.session (said_by (bodies.Attributes (kept_for mounted.now.session)) result) mounted.now.asking mounted.now.session }
{
    let number = mounted.inode(node)?;
    Ok(shown_of(mounted, number))
}

/// Lists a directory from this slot on. A name keeps its slot, so what comes and goes meanwhile makes none be left out.
fn list<D: Device>(
    mounted: &Mounted<D>,
    node: NodeId,
    from: u64,
    size: u32,
) -> Result<Vec<u8>, Errno>
    ensures few { IfOk result (λ bytes. length bytes.items ≤ 2 ^ 20) }
    ensures does { Does (lists mounted.now.asking.volume.kept mounted.now.session node from size)
        mounted.now.asking mounted.now.session (said_bytes (λ bytes. bytes.items) result) mounted.now.asking mounted.now.session }
{
    let directory = mounted.directory(node)?;
    if size > MOST_BYTES {
        return Err(Errno::Invalid);
    }
    match listing_from(mounted.alloc, mounted.metadata(), directory, from, size) {
        Ok(listing) => Ok(listing),
        Err(AllocError) => Err(Errno::NoMemory),
    }
}

/// Settles what is ahead of records, closes all files, writes all, and waits for the medium. Where one is refused those behind it are left,
/// but all is written in any case; the first refusal is told. A second end goes on where the first stopped.
pub(crate) fn end<D: Device>(mounted: &mut Mounted<D>) -> Result<(), Errno>
    ensures start { mounted.new.asking.start ≡ mounted.old.asking.start }
    ensures synced { OnOk result (unsynced_of mounted.new.asking.volume.queue ≡ []) }
    ensures does { Does (ends mounted.old.asking.volume.kept mounted.old.session)
        mounted.old.asking mounted.old.session (said_done result) mounted.new.asking mounted.new.session }
{
    let inodes = mounted.inodes();
    let settled = settle_all(mounted, 0, inodes);
    let closed = close_all(mounted, inodes);
    let synced = mounted.ask_done(Command::Sync);
    settled?;
    closed?;
    synced
}

/// Closes each file of so many inodes as often as it was opened.
fn close_all<D: Device>(mounted: &mut Mounted<D>, inodes: u32) -> Result<(), Errno>
    ensures start { mounted.new.asking.start ≡ mounted.old.asking.start }
    ensures does { (next : Doing) (refused : Number → Doing)
        → LeadsOn (closes_all mounted.old.session 0 inodes next refused)
        mounted.old.asking mounted.old.session (go_on_or result next refused) mounted.new.asking mounted.new.session }
{
    for number in 0..inodes {
        let count = count_of(mounted, number);
        close_often(mounted, number, count)?;
    }
    Ok(())
}

/// How often a file is open.
fn count_of<D: Device>(mounted: &Mounted<D>, number: u32) -> u64
    ensures { result ≡ opened_often (known mounted.now.session.nodes number).open_by }
{
    match mounted.session.nodes.open_by(number) {
        Some(open) => open.count,
        None => 0,
    }
}

/// Closes a file so many times.
fn close_often<D: Device>(mounted: &mut Mounted<D>, number: u32, count: u64) -> Result<(), Errno>
    ensures start { mounted.new.asking.start ≡ mounted.old.asking.start }
    ensures does { (next : Session → Doing) (refused : Number → Doing) → LeadsOn (closes_often mounted.old.session number count next refused)
        mounted.old.asking mounted.old.session (go_on_or result (next mounted.new.session) refused) mounted.new.asking mounted.new.session }
{
    for _closed in 0..count {
        close(mounted, number)?;
    }
    Ok(())
}
