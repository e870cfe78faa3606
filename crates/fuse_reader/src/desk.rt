//! One request after another.
ghost use Rattle.std.specs.Prelude.{◌≡◌, ◌≢◌, ◌↔◌, ◌⊎◌, None, Some, IfOk, OnErr, OnOk, length};
ghost use Rattle.device.specs.Reading.{ReadsOnly};
ghost use Rattle.device.specs.Writes.{HasFailed};
ghost use Rattle.frozen.specs.Kept.{IsKeptOf};
ghost use Rattle.fuse_wire.specs.declared.requests.Head.{Head as Front};
ghost use Rattle.fuse_wire.specs.Requests.{Asked, decode, seen};
ghost use Rattle.model.specs.Layout.{block_count, inode_count};
ghost use Rattle.fuse_nodes.specs.Table.{new_table};
ghost use Rattle.fuse_reader.specs.Desks.{IsTurn, KnowsAfter, turned_of};

use crate::answering::{Volume, reply_to};
use crate::owner::Owner;
use crate::showing::room_of;
use device::Device;
use frozen::Frozen;
use fuse_nodes::Nodes;
use fuse_wire::Request;
use std::alloc::{AllocError, Global};
use std::marker::Model;

/// What became of a message.
#[derive(Clone, Copy, Debug, PartialEq, Eq)]
pub enum Turned {
    /// It is no request.
    Unread,
    /// It asks for no reply.
    Silent,
    /// There is a reply to it.
    Replied,
    /// There is a reply to it, and no request follows: the volume is unmounted.
    Ended,
}

/// An image that is read alone, and what the kernel was told of it.
pub struct Desk<D: Device> {
    volume: Volume,
    device: D,
    nodes: Nodes,
}

/// By hand, so that who drops it goes one step and not one for each field.
impl<D: Device> Drop for Desk<D> {
    fn drop(self) {
        let Desk {
            volume: _,
            device: _,
            nodes: _,
        } = self;
    }
}

impl<D: Device> Model for Desk<D> {
    ghost use Rattle.std.specs.Prelude.{◌≡◌, length};
    ghost use Rattle.frozen.specs.Kept.{frozen_view};
    ghost use Rattle.model.specs.Layout.{block_count, inode_count};
    ghost use Rattle.fuse_reader.specs.Desks.{AtDesk};
    ghost use Rattle.fuse_reader.specs.Shown.{room_of};

    ghost Value = { AtDesk D };

    ghost view = { λ d. record { device = d.device; kept = d.volume.frozen; owner = d.volume.owner; nodes = d.nodes } };

    ghost invariant = { λ d. (length (D.image d.device) ≡ block_count d.volume.frozen.geometry) × (length d.nodes ≡ inode_count d.volume.frozen.geometry)
        × (d.volume.room ≡ room_of d.volume.frozen.geometry (frozen_view d.volume.frozen)) };
}

impl<D: Device + Drop> Desk<D> {
    /// The image of a device, of which this is loaded, whose all is. The kernel was told nothing of it.
    pub fn new(
        alloc: Global,
        device: D,
        frozen: Frozen,
        owner: Owner,
    ) -> Result<Desk<D>, AllocError>
        requires { length (D.image device) ≡ block_count frozen.geometry }
        ensures { IfOk result (λ desk. desk ≡ record { device = device; kept = frozen; owner = owner; nodes = new_table (inode_count frozen.geometry) }) }
    {
        let nodes = Nodes::new(alloc, frozen.geometry().inodes())?;
        let room = room_of(&frozen);
        let volume = Volume {
            alloc,
            frozen,
            owner,
            room,
        };
        Ok(Desk {
            volume,
            device,
            nodes,
        })
    }

    /// Answers a message by one turn. The reply is written over what stands there, and is empty if none is asked for. After an
    /// error, which is that there was no memory to say so, part of a reply may stand there.
    pub fn turn(&mut self, message: &[u8], reply: &mut Vec<u8>) -> Result<Turned, AllocError>
        ensures unread { IfOk result (λ turned. (turned ≡ Turned.Unread) ↔ (decode message.now ≡ None)) }
        ensures turned { IfOk result (λ turned. (head : Front) (asked : Asked) → decode message.now ≡ Some (head, asked) → turned ≡ turned_of asked) }
        ensures turn { OnOk result ((head : Front) (asked : Asked) → decode message.now ≡ Some (head, asked) → D.honest self.new.device
            → IsKeptOf self.old.kept (D.image self.old.device)
            → IsTurn self.old.kept (D.image self.old.device) self.old.owner self.old.nodes head asked
            (HasFailed (D.failures self.old.device) (D.failures self.new.device)) reply.new.items self.new.nodes) }
        ensures known { OnErr result ((head : Front) (asked : Asked) → decode message.now ≡ Some (head, asked)
            → IsKeptOf self.old.kept (D.image self.old.device)
            → KnowsAfter self.old.kept (D.image self.old.device) self.old.nodes head.node asked self.new.nodes) }
        ensures idle { decode message.now ≡ None → self.new.nodes ≡ self.old.nodes }
        ensures same { (self.new.kept ≡ self.old.kept) × (self.new.owner ≡ self.old.owner) }
        ensures failures { (D.failures self.new.device ≡ D.failures self.old.device) ⊎ HasFailed (D.failures self.old.device) (D.failures self.new.device) }
        ensures reads { ReadsOnly D.honest D.image D.held self.old.device self.new.device }
    {
        let Some((head, request)) = fuse_wire::read(message) else {
            return Ok(Turned::Unread);
        };
        reply_to(
            &self.volume,
            &mut self.device,
            &mut self.nodes,
            head,
            request,
            reply,
        )?;
        Ok(turned_of(request))
    }
}

/// What becomes of the message of a request.
pub fn turned_of(request: Request<'_>) -> Turned
    ensures turned { result ≡ turned_of (seen request.entry) }
    ensures read { result ≢ Turned.Unread }
{
    match request {
        Request::Forget { .. } | Request::BatchForget(_) | Request::Interrupt { .. } => {
            Turned::Silent
        }
        Request::Destroy => Turned::Ended,
        _ => Turned::Replied,
    }
}
