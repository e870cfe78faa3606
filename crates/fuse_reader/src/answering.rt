//! What is answered to a request.
ghost use Rattle.std.specs.Prelude.{◌≡◌, ◌⊎◌, OnErr, OnOk, length};
ghost use Rattle.device.specs.Reading.{ReadsOnly};
ghost use Rattle.device.specs.Writes.{HasFailed};
ghost use Rattle.frozen.specs.Kept.{IsKeptOf, frozen_view};
ghost use Rattle.fuse_wire.specs.Requests.{seen};
ghost use Rattle.model.specs.Layout.{block_count, inode_count};
ghost use Rattle.fuse_reader.specs.Desks.{IsTurn, KnowsAfter};
ghost use Rattle.fuse_reader.specs.Shown.{room_of};

use crate::agreeing::{TAKEN, agree};
use crate::forgetting::forget_all;
use crate::looking::{list, look_up, open, open_directory, read, read_link, tell_attributes};
use crate::owner::Owner;
use crate::saying::{refuse, tell};
use device::Device;
use frozen::Frozen;
use fuse_nodes::Nodes;
use fuse_wire::{Body, Errno, Head, Request, Statistics};
use std::alloc::{AllocError, Global};

/// What is loaded of an image, whose all is, and how much room there is.
#[derive(Drop)]
pub(crate) struct Volume {
    pub(crate) alloc: Global,
    pub(crate) frozen: Frozen,
    pub(crate) owner: Owner,
    pub(crate) room: Statistics,
}

/// Answers a request; that there is no memory, where there was too little for another reply.
pub(crate) fn reply_to<D: Device>(
    volume: &Volume,
    device: &mut D,
    nodes: &mut Nodes,
    head: Head,
    request: Request<'_>,
    reply: &mut Vec<u8>,
) -> Result<(), AllocError>
    requires device { length (D.image device.old) ≡ block_count volume.now.frozen.geometry }
    requires nodes { length nodes.old ≡ inode_count volume.now.frozen.geometry }
    requires room { volume.now.room ≡ room_of volume.now.frozen.geometry (frozen_view volume.now.frozen) }
    ensures turn { OnOk result (D.honest device.new → IsKeptOf volume.now.frozen (D.image device.old)
        → IsTurn volume.now.frozen (D.image device.old) volume.now.owner nodes.old head (seen request.entry)
        (HasFailed (D.failures device.old) (D.failures device.new)) reply.new.items nodes.new) }
    ensures known { OnErr result (IsKeptOf volume.now.frozen (D.image device.old)
        → KnowsAfter volume.now.frozen (D.image device.old) nodes.old head.node (seen request.entry) nodes.new) }
    ensures length { length nodes.new ≡ length nodes.old }
    ensures failures { (D.failures device.new ≡ D.failures device.old) ⊎ HasFailed (D.failures device.old) (D.failures device.new) }
    ensures reads { ReadsOnly D.honest D.image D.held device.old device.new }
{
    match answer(volume, device, nodes, head, request, reply) {
        Ok(()) => Ok(()),
        Err(AllocError) => refuse(reply, head.unique, Errno::NoMemory),
    }
}

/// Answers a request.
fn answer<D: Device>(
    volume: &Volume,
    device: &mut D,
    nodes: &mut Nodes,
    head: Head,
    request: Request<'_>,
    reply: &mut Vec<u8>,
) -> Result<(), AllocError>
    requires device { length (D.image device.old) ≡ block_count volume.now.frozen.geometry }
    requires nodes { length nodes.old ≡ inode_count volume.now.frozen.geometry }
    requires room { volume.now.room ≡ room_of volume.now.frozen.geometry (frozen_view volume.now.frozen) }
    ensures turn { OnOk result (D.honest device.new → IsKeptOf volume.now.frozen (D.image device.old)
        → IsTurn volume.now.frozen (D.image device.old) volume.now.owner nodes.old head (seen request.entry)
        (HasFailed (D.failures device.old) (D.failures device.new)) reply.new.items nodes.new) }
    ensures known { OnErr result (IsKeptOf volume.now.frozen (D.image device.old)
        → KnowsAfter volume.now.frozen (D.image device.old) nodes.old head.node (seen request.entry) nodes.new) }
    ensures length { length nodes.new ≡ length nodes.old }
    ensures failures { (D.failures device.new ≡ D.failures device.old) ⊎ HasFailed (D.failures device.old) (D.failures device.new) }
    ensures reads { ReadsOnly D.honest D.image D.held device.old device.new }
{
    let unique = head.unique;
    let frozen = &volume.frozen;
    let number = nodes.find(head.node);
    match request {
        Request::Init(offer) => agree(reply, unique, &offer, TAKEN),
        Request::Lookup { name } => {
            look_up(reply, unique, frozen, volume.owner, nodes, number, name)
        }
        Request::Forget { lookups } => {
            nodes.forget(head.node, lookups);
            reply.clear();
            Ok(())
        }
        Request::BatchForget(forgets) => {
            forget_all(nodes, forgets);
            reply.clear();
            Ok(())
        }
        Request::GetAttributes { .. } => {
            tell_attributes(reply, unique, frozen, volume.owner, number)
        }
        Request::ReadSymbolicLink => {
            read_link(volume.alloc, reply, unique, frozen, device, number)
        }
        Request::Open { flags } => open(reply, unique, frozen, number, flags),
        Request::OpenDirectory { .. } => open_directory(reply, unique, frozen, number),
        Request::Read { offset, size, .. } => read(
            volume.alloc,
            reply,
            unique,
            frozen,
            device,
            number,
            offset,
            size,
        ),
        Request::ReadDirectory { offset, size, .. } => {
            list(volume.alloc, reply, unique, frozen, number, offset, size)
        }
        Request::Statistics => tell(reply, unique, Body::Statistics(volume.room)),
        Request::Interrupt { .. } => {
            reply.clear();
            Ok(())
        }
        Request::Release { .. }
        | Request::ReleaseDirectory { .. }
        | Request::Sync { .. }
        | Request::SyncDirectory { .. }
        | Request::SyncVolume
        | Request::Destroy => tell(reply, unique, Body::Empty),
        Request::Flush { .. } | Request::ReadDirectoryPlus { .. } | Request::Other { .. } => {
            refuse(reply, unique, Errno::NotImplemented)
        }
        Request::SetAttributes(_)
        | Request::MakeSymbolicLink { .. }
        | Request::MakeNode { .. }
        | Request::MakeDirectory { .. }
        | Request::Unlink { .. }
        | Request::RemoveDirectory { .. }
        | Request::Rename { .. }
        | Request::Link { .. }
        | Request::Write { .. }
        | Request::Allocate { .. }
        | Request::Create { .. } => refuse(reply, unique, Errno::ReadOnly),
    }
}
