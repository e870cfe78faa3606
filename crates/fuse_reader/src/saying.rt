//! Replies as they are said.
ghost use Rattle.std.specs.Prelude.{◌≡◌, ◌+◌, ◌<◌, ◌^◌, OnOk, length};
ghost use Rattle.fuse_wire.specs.Replies.{HasSpelling};
ghost use Rattle.fuse_reader.specs.Said.{Refused, Told, spelled, told};

use fuse_wire::{Body, Errno, Unique, write};
use std::alloc::AllocError;

/// Says that a call was done, with this body.
pub fn tell(reply: &mut Vec<u8>, unique: Unique, body: Body<'_>) -> Result<(), AllocError>
    requires { HasSpelling (Ok body) }
    ensures { OnOk result (reply.new.items ≡ spelled unique (told body.entry)) }
{
    write(reply, unique, Ok(body))
}

/// Says that a call was done, with these bytes.
pub fn tell_bytes(reply: &mut Vec<u8>, unique: Unique, bytes: &[u8]) -> Result<(), AllocError>
    requires { 16 + length bytes.now < 2 ^ 32 }
    ensures { OnOk result (reply.new.items ≡ spelled unique (Told bytes.now)) }
{
    write(reply, unique, Ok(Body::Bytes(bytes)))
}

/// Says why a call is refused.
pub fn refuse(reply: &mut Vec<u8>, unique: Unique, error: Errno) -> Result<(), AllocError>
    ensures { OnOk result (reply.new.items ≡ spelled unique (Refused error)) }
{
    write(reply, unique, Err(error))
}
