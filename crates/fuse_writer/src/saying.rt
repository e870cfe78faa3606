//! What is said to requests, as replies.
ghost use Rattle.std.specs.Prelude.{◌≡◌, ◌≤◌, ◌^◌, IfOk, OnOk, length};
ghost use Rattle.fuse_wire.specs.declared.bodies.Body.TheVariants as bodies;
ghost use Rattle.fuse_reader.specs.Said.{spelled};
ghost use Rattle.fuse_writer.specs.Doings.{said_by};
ghost use Rattle.fuse_writer.specs.Saying.{said_bytes, said_created, said_done, said_found};

use crate::showing::NAME_KEPT;
use fuse_reader::{refuse, tell, tell_bytes};
use fuse_wire::{Attributes, Body, Entry, Errno, Opened, Time, Unique};
use std::alloc::AllocError;

/// That a call was done of which there is nothing to tell.
pub(crate) fn say_done(
    reply: &mut Vec<u8>,
    unique: Unique,
    outcome: Result<(), Errno>,
) -> Result<(), AllocError>
    ensures { OnOk result (reply.new.items ≡ spelled unique (said_done outcome)) }
{
    match outcome {
        Ok(()) => tell(reply, unique, Body::Empty),
        Err(error) => refuse(reply, unique, error),
    }
}

/// What a name leads to, or that it leads nowhere.
#[tactic(auto, unfolding(fuse_wire::specs::Replies::entry_bytes, fuse_wire::specs::Replies::attributes_bytes))]
pub(crate) fn say_found(
    reply: &mut Vec<u8>,
    unique: Unique,
    outcome: Result<Option<Entry>, Errno>,
) -> Result<(), AllocError>
    ensures { OnOk result (reply.new.items ≡ spelled unique (said_found outcome)) }
{
    match outcome {
        Ok(Some(entry)) => tell(reply, unique, Body::Entry(entry)),
        Ok(None) => tell(reply, unique, Body::Absent { kept: NAME_KEPT }),
        Err(error) => refuse(reply, unique, error),
    }
}

/// What a new name leads to.
#[tactic(auto, unfolding(fuse_wire::specs::Replies::entry_bytes, fuse_wire::specs::Replies::attributes_bytes))]
pub(crate) fn say_entry(
    reply: &mut Vec<u8>,
    unique: Unique,
    outcome: Result<Entry, Errno>,
) -> Result<(), AllocError>
    ensures { OnOk result (reply.new.items ≡ spelled unique (said_by bodies.Entry outcome)) }
{
    match outcome {
        Ok(entry) => tell(reply, unique, Body::Entry(entry)),
        Err(error) => refuse(reply, unique, error),
    }
}

/// What a new name leads to, which is open.
#[tactic(auto, unfolding(fuse_wire::specs::Replies::entry_bytes, fuse_wire::specs::Replies::opened_bytes, fuse_wire::specs::Replies::attributes_bytes))]
pub(crate) fn say_created(
    reply: &mut Vec<u8>,
    unique: Unique,
    outcome: Result<(Entry, Opened), Errno>,
) -> Result<(), AllocError>
    ensures { OnOk result (reply.new.items ≡ spelled unique (said_created outcome)) }
{
    match outcome {
        Ok((entry, opened)) => tell(reply, unique, Body::Created(entry, opened)),
        Err(error) => refuse(reply, unique, error),
    }
}

/// The attributes of an inode, and how long the kernel may keep them.
#[tactic(auto, unfolding(fuse_wire::specs::Replies::told_bytes, fuse_wire::specs::Replies::attributes_bytes))]
pub(crate) fn say_attributes(
    reply: &mut Vec<u8>,
    unique: Unique,
    kept: Time,
    outcome: Result<Attributes, Errno>,
) -> Result<(), AllocError>
    ensures { OnOk result (reply.new.items ≡ spelled unique (said_by (bodies.Attributes kept) outcome)) }
{
    match outcome {
        Ok(attributes) => tell(reply, unique, Body::Attributes { kept, attributes }),
        Err(error) => refuse(reply, unique, error),
    }
}

/// What is open.
#[tactic(auto, unfolding(fuse_wire::specs::Replies::opened_bytes))]
pub(crate) fn say_opened(
    reply: &mut Vec<u8>,
    unique: Unique,
    outcome: Result<Opened, Errno>,
) -> Result<(), AllocError>
    ensures { OnOk result (reply.new.items ≡ spelled unique (said_by bodies.Opened outcome)) }
{
    match outcome {
        Ok(opened) => tell(reply, unique, Body::Opened(opened)),
        Err(error) => refuse(reply, unique, error),
    }
}

/// How many bytes were written.
pub(crate) fn say_written(
    reply: &mut Vec<u8>,
    unique: Unique,
    outcome: Result<u32, Errno>,
) -> Result<(), AllocError>
    ensures { OnOk result (reply.new.items ≡ spelled unique (said_by bodies.Written outcome)) }
{
    match outcome {
        Ok(count) => tell(reply, unique, Body::Written(count)),
        Err(error) => refuse(reply, unique, error),
    }
}

/// The bytes that were read, or a listing.
pub(crate) fn say_bytes(
    reply: &mut Vec<u8>,
    unique: Unique,
    outcome: Result<Vec<u8>, Errno>,
) -> Result<(), AllocError>
    requires { IfOk outcome (λ bytes. length bytes.items ≤ 2 ^ 21) }
    ensures { OnOk result (reply.new.items ≡ spelled unique (said_bytes (λ bytes. bytes.items) outcome)) }
{
    match outcome {
        Ok(bytes) => tell_bytes(reply, unique, bytes.as_slice()),
        Err(error) => refuse(reply, unique, error),
    }
}
