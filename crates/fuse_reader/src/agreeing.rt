//! What is agreed on with the kernel.
ghost use Rattle.std.specs.Prelude.{◌≡◌, OnOk};
ghost use Rattle.fuse_reader.specs.Said.{spelled};
ghost use Rattle.fuse_reader.specs.Turns.{agreed};

use crate::saying::{refuse, tell};
use fuse_wire::{Agreement, Body, Errno, Offer, Unique, flags};
use std::alloc::AllocError;

/// The version of the protocol, and the oldest one that a kernel may speak.
const MAJOR: u32 = 7;

const MINOR: u32 = 31;

/// What is taken of what the kernel offers, where an image is read alone.
pub const TAKEN: u32 = flags::ASYNC_READ
    | flags::BIG_WRITES
    | flags::PARALLEL_DIROPS
    | flags::MAX_PAGES;

/// The most bytes of one write, and so how much room a request may need.
const MOST_WRITTEN: u32 = 131_072;

/// The most pages of 4 KiB of one request.
const PAGES: u16 = 256;

/// Answers the first request: of what the kernel offers this is taken.
pub fn agree(
    reply: &mut Vec<u8>,
    unique: Unique,
    offer: &Offer,
    taken: u32,
) -> Result<(), AllocError>
    ensures { OnOk result (reply.new.items ≡ spelled unique (agreed taken offer.now)) }
{
    if offer.major != MAJOR || offer.minor < MINOR {
        return refuse(reply, unique, Errno::NotSupported);
    }
    let agreement = Agreement {
        major: MAJOR,
        minor: MINOR,
        readahead: offer.readahead,
        flags: offer.flags & taken,
        background: 12,
        congestion: 9,
        most_written: MOST_WRITTEN,
        time_step: 1,
        pages: PAGES,
    };
    tell(reply, unique, Body::Agreement(agreement))
}
