//! Replies are written.
ghost use Rattle.std.specs.Prelude.{◌≡◌, ◌+◌, ◌<◌, ◌^◌, ◌++◌, OnOk, length};
ghost use Rattle.fuse_wire.specs.Replies.{HasSpelling, absent_bytes, agreement_bytes, attributes_bytes, body_bytes, entry_bytes, head_bytes, opened_bytes, spell_reply, statistics_bytes, told_bytes};

use crate::bodies::{Agreement, Attributes, Body, Entry, Opened, Statistics};
use crate::errors::Errno;
use crate::fields::{put_longs, put_shorts, put_words};
use crate::numbers::{Time, Unique};
use std::alloc::AllocError;

/// How many bytes stand before the body of a reply.
const HEAD_BYTES: u32 = 16;

/// Writes a whole reply over what is there: what a call that was done says, or why it was refused. After an error, part of the
/// reply may stand there.
pub fn write(
    out: &mut Vec<u8>,
    unique: Unique,
    reply: Result<Body<'_>, Errno>,
) -> Result<(), AllocError>
    requires { HasSpelling reply }
    ensures { OnOk result (out.new.items ≡ spell_reply unique reply.entry) }
{
    out.clear();
    match reply {
        Ok(body) => {
            put_head(out, body_length(&body), 0, unique)?;
            put_body(out, &body)
        }
        // In two's complement the number of a refusal is below 0.
        Err(error) => put_head(out, 0, u32::MAX - error.number() + 1, unique),
    }
}

/// Writes the head of a reply of which the body has so many bytes.
fn put_head(out: &mut Vec<u8>, bytes: u32, error: u32, unique: Unique) -> Result<(), AllocError>
    requires { 16 + bytes < 2 ^ 32 }
    ensures { OnOk result (out.new.items ≡ out.old.items ++ head_bytes bytes error unique) }
{
    put_words(out, &[HEAD_BYTES + bytes, error])?;
    put_longs(out, &[unique.0])
}

/// How many bytes a body has.
#[tactic(auto, unfolding(crate::specs::Replies::attributes_bytes, crate::specs::Replies::entry_bytes, crate::specs::Replies::opened_bytes, crate::specs::Replies::told_bytes))]
fn body_length(body: &Body<'_>) -> u32
    requires { 16 + length (body_bytes body.now) < 2 ^ 32 }
    ensures { result ≡ length (body_bytes body.now) }
{
    match body {
        Body::Empty => 0,
        Body::Agreement(_) => 64,
        Body::Entry(_) | Body::Absent { .. } => 128,
        Body::Attributes { .. } => 104,
        Body::Opened(_) => 16,
        Body::Created(..) => 144,
        Body::Bytes(bytes) => bytes.len() as u32,
        Body::Written(_) => 8,
        Body::Statistics(_) => 80,
    }
}

/// Writes a body.
fn put_body(out: &mut Vec<u8>, body: &Body<'_>) -> Result<(), AllocError>
    ensures { OnOk result (out.new.items ≡ out.old.items ++ body_bytes body.now) }
{
    match body {
        Body::Empty => Ok(()),
        Body::Agreement(agreement) => put_agreement(out, agreement),
        Body::Entry(entry) => put_entry(out, entry),
        Body::Absent { kept } => put_absent(out, kept),
        Body::Attributes { kept, attributes } => put_told(out, kept, attributes),
        Body::Opened(opened) => put_opened(out, opened),
        Body::Created(entry, opened) => {
            put_entry(out, entry)?;
            put_opened(out, opened)
        }
        Body::Bytes(bytes) => out.extend_from_slice(bytes),
        Body::Written(bytes) => put_words(out, &[*bytes, 0]),
        Body::Statistics(statistics) => put_statistics(out, statistics),
    }
}

fn put_agreement(out: &mut Vec<u8>, agreement: &Agreement) -> Result<(), AllocError>
    ensures { OnOk result (out.new.items ≡ out.old.items ++ agreement_bytes agreement.now) }
{
    put_words(
        out,
        &[
            agreement.major,
            agreement.minor,
            agreement.readahead,
            agreement.flags,
        ],
    )?;
    put_shorts(out, &[agreement.background, agreement.congestion])?;
    put_words(out, &[agreement.most_written, agreement.time_step])?;
    put_shorts(out, &[agreement.pages, 0])?;
    put_words(out, &[0; 8])
}

/// Writes what a name leads to.
#[tactic(auto, unfolding(crate::specs::Replies::entry_bytes))]
pub fn put_entry(out: &mut Vec<u8>, entry: &Entry) -> Result<(), AllocError>
    ensures { OnOk result (out.new.items ≡ out.old.items ++ entry_bytes entry.now) }
{
    put_longs(
        out,
        &[
            entry.node.0,
            entry.generation,
            entry.name_kept.seconds,
            entry.attributes_kept.seconds,
        ],
    )?;
    put_words(
        out,
        &[
            entry.name_kept.nanoseconds,
            entry.attributes_kept.nanoseconds,
        ],
    )?;
    put_attributes(out, &entry.attributes)
}

/// Writes that a name leads nowhere.
fn put_absent(out: &mut Vec<u8>, kept: &Time) -> Result<(), AllocError>
    ensures { OnOk result (out.new.items ≡ out.old.items ++ absent_bytes kept.now) }
{
    put_longs(out, &[0, 0, kept.seconds, 0])?;
    put_words(out, &[kept.nanoseconds, 0])?;
    out.extend_from_slice(&[0; 88])
}

/// Writes attributes, and how long they may be kept.
#[tactic(auto, unfolding(crate::specs::Replies::told_bytes))]
fn put_told(out: &mut Vec<u8>, kept: &Time, attributes: &Attributes) -> Result<(), AllocError>
    ensures { OnOk result (out.new.items ≡ out.old.items ++ told_bytes kept.now attributes.now) }
{
    put_longs(out, &[kept.seconds])?;
    put_words(out, &[kept.nanoseconds, 0])?;
    put_attributes(out, attributes)
}

#[tactic(auto, unfolding(crate::specs::Replies::attributes_bytes))]
fn put_attributes(out: &mut Vec<u8>, attributes: &Attributes) -> Result<(), AllocError>
    ensures { OnOk result (out.new.items ≡ out.old.items ++ attributes_bytes attributes.now) }
{
    put_longs(
        out,
        &[
            attributes.inode,
            attributes.size,
            attributes.blocks,
            attributes.accessed.seconds,
            attributes.modified.seconds,
            attributes.changed.seconds,
        ],
    )?;
    put_words(
        out,
        &[
            attributes.accessed.nanoseconds,
            attributes.modified.nanoseconds,
            attributes.changed.nanoseconds,
            attributes.mode,
            attributes.links,
            attributes.user,
            attributes.group,
            attributes.device,
            attributes.block_bytes,
            0,
        ],
    )
}

#[tactic(auto, unfolding(crate::specs::Replies::opened_bytes))]
fn put_opened(out: &mut Vec<u8>, opened: &Opened) -> Result<(), AllocError>
    ensures { OnOk result (out.new.items ≡ out.old.items ++ opened_bytes opened.now) }
{
    put_longs(out, &[opened.handle.0])?;
    put_words(out, &[opened.flags, 0])
}

fn put_statistics(out: &mut Vec<u8>, statistics: &Statistics) -> Result<(), AllocError>
    ensures { OnOk result (out.new.items ≡ out.old.items ++ statistics_bytes statistics.now) }
{
    put_longs(
        out,
        &[
            statistics.blocks,
            statistics.free_blocks,
            statistics.available_blocks,
            statistics.inodes,
            statistics.free_inodes,
        ],
    )?;
    put_words(
        out,
        &[
            statistics.block_bytes,
            statistics.name_bytes,
            statistics.block_bytes,
            0,
            0,
            0,
            0,
            0,
            0,
            0,
        ],
    )
}
