//! What is pending is written while the volume is served, a part of it each second.
ghost use Rattle.std.specs.Prelude.{◌≡◌, ◌↔◌, ◌<◌, ◌+◌, ◌-◌, min, IsTrue, None, IfOk, IfSome};
ghost use Rattle.model.specs.Layout.{inode_count};
ghost use Rattle.fuse_daemon.specs.Services.{SettlesSome};
ghost use Rattle.fuse_writer.specs.Turns.{GoesBy};

use crate::beginning::Beginning;
use crate::going::Going;
use crate::locked::{Locked, Right};
use device::Device;
use fuse_writer::Desk;
use layout::Refusal;
use snapshot::Command;
use std::fs::OpenFile;
use std::sync::{OnceToken, Wait};
use std::time::{Clock, Duration};

/// How many blocks are flushed for each taking of the lock.
const BLOCKS_AT_ONCE: u32 = 16;

/// Of how many numbers of inodes the records are settled for each taking of the lock.
const NUMBERS_AT_ONCE: u32 = 4096;

/// How often one part goes over all blocks, at the most. What waits for many writes, one behind the other, is written in later
/// ones.
const PASSES: u32 = 16;

/// Flushes a part of what is pending each second, until the service is at its end: the first of so many seconds of as many a
/// share of it, and the last all. It gives what shows the end; there is nothing to show if nothing is to be flushed.
pub(crate) fn flush_until_end<'a, D: Device + Drop, B: Beginning, F: OpenFile, R: Wait + Clock>(
    rt: &R,
    locked: &'a Locked<D, B>,
    right: &Right,
    medium: &F,
    seconds: u32,
) -> Result<Option<OnceToken<'a, ()>>, Refusal>
    ensures ended { IfOk result (λ shown. IfSome shown (λ token. token.of ≡ locked.entry.now.ended.id)) }
    ensures none { IfOk result (λ shown. shown ≡ None → seconds ≡ 0) }
{
    if seconds == 0 {
        return Ok(None);
    }
    let mut left = seconds;
    let mut from = 0;
    for _ in rt.forever() {
        if let Some(token) = locked.rest(rt, Duration::from_secs(1)) {
            return Ok(Some(token));
        }
        settle_all(rt, locked, right);
        if left > 1 {
            from = flush_share(rt, locked, right, medium, from, left)?;
            left -= 1;
        } else {
            flush_all(rt, locked, right, medium)?;
            left = seconds;
        }
    }
    unreachable!()
}

/// Gives the records of all inodes what is ahead of them. What is refused is tried again the next time.
fn settle_all<D: Device + Drop, B: Beginning, R: Wait>(
    rt: &R,
    locked: &Locked<D, B>,
    right: &Right,
) {
    for part in 0..u32::MAX / NUMBERS_AT_ONCE {
        let from = part * NUMBERS_AT_ONCE;
        if !locked.settle_some(rt, right, from, NUMBERS_AT_ONCE) {
            return;
        }
    }
}

/// Gives the records of so many inodes from this number on what is ahead of them, up to the first that is refused. Tells whether there
/// are more behind.
pub(crate) fn settle_some<D: Device + Drop, B: Beginning>(
    going: &mut Going<D, B>,
    from: u32,
    count: u32,
) -> bool
    ensures more { IsTrue result ↔ (from + count < inode_count going.old.volume.kept.geometry) }
    ensures does { SettlesSome going.old from (min (inode_count going.old.volume.kept.geometry - from) count) going.new }
    ensures goes { GoesBy D.honest D.held D.image going.old.volume going.new.calls going.new.volume }
{
    let inodes = going.desk().volume().live().metadata().geometry().inodes();
    let behind = inodes.saturating_sub(from);
    let _ = going.settle(from, behind.min(count));
    count < behind
}

/// Flushes a share of the blocks that may be written, those from this one on first, and gives the one to go on with.
fn flush_share<D: Device + Drop, B: Beginning, F: OpenFile, R: Wait>(
    rt: &R,
    locked: &Locked<D, B>,
    right: &Right,
    medium: &F,
    from: u32,
    shares: u32,
) -> Result<u32, Refusal> {
    let count = share_of(locked.ready_blocks(rt), shares);
    if count == 0 {
        return Ok(from);
    }
    let next = flush_blocks(rt, locked, right, from, count)?;
    wait_for_medium(rt, locked, right, medium)?;
    Ok(next)
}

/// One of so many shares of a number of blocks, rounded up; all of them, where they are not shared.
fn share_of(blocks: u32, shares: u32) -> u32 {
    if shares == 0 {
        return blocks;
    }
    blocks.div_ceil(shares)
}

/// Flushes what is pending, until nothing is, or the service is at its end.
fn flush_all<D: Device + Drop, B: Beginning, F: OpenFile, R: Wait>(
    rt: &R,
    locked: &Locked<D, B>,
    right: &Right,
    medium: &F,
) -> Result<(), Refusal> {
    for _pass in 0..PASSES {
        let count = locked.ready_blocks(rt);
        if count == 0 || locked.ends() {
            return Ok(());
        }
        flush_blocks(rt, locked, right, 0, count)?;
        wait_for_medium(rt, locked, right, medium)?;
    }
    Ok(())
}

/// Flushes so many blocks, those from this one on first, and gives the one to go on with.
fn flush_blocks<D: Device + Drop, B: Beginning, R: Wait>(
    rt: &R,
    locked: &Locked<D, B>,
    right: &Right,
    from: u32,
    count: u32,
) -> Result<u32, Refusal> {
    let mut next = from;
    let mut left = count;
    for _part in 0..count {
        if left == 0 {
            break;
        }
        let most = left.min(BLOCKS_AT_ONCE);
        next = locked.flush_some(rt, right, next, most)?;
        left = left.saturating_sub(BLOCKS_AT_ONCE);
    }
    Ok(next)
}

/// Flushes so many blocks that may be written, those from this one on first, and gives the one to go on with.
pub(crate) fn flush_some<D: Device + Drop, B: Beginning>(
    going: &mut Going<D, B>,
    from: u32,
    count: u32,
) -> Result<u32, Refusal> {
    let mut next = from;
    for _block in 0..count {
        match ready_from(going.desk(), next) {
            Some(address) => {
                going.ask(&Command::Flush(address))?;
                next = address.saturating_add(1);
            }
            None => return Ok(0),
        }
    }
    Ok(next)
}

/// The least block that may be written, of this one and those above it, or else of all.
fn ready_from<D: Device + Drop>(desk: &Desk<D>, from: u32) -> Option<u32> {
    let live = desk.volume().live();
    match live.next_ready(from) {
        Some(address) => Some(address),
        None => live.least_ready(),
    }
}

/// How many blocks may be written.
pub(crate) fn ready_blocks<D: Device + Drop>(desk: &Desk<D>) -> u32 {
    let live = desk.volume().live();
    let mut from = 0;
    for count in 0..u32::MAX {
        match live.next_ready(from) {
            Some(address) => from = address.saturating_add(1),
            None => return count,
        }
    }
    u32::MAX
}

/// Waits until what was written is on the medium: first without the lock, for most of it, then for the rest under it, so that the
/// volume knows.
fn wait_for_medium<D: Device + Drop, B: Beginning, F: OpenFile, R: Wait>(
    rt: &R,
    locked: &Locked<D, B>,
    right: &Right,
    medium: &F,
) -> Result<(), Refusal> {
    // A medium that refuses will refuse the volume too.
    let _ = medium.sync_data();
    locked.ask(rt, right, &Command::Flush(0))?;
    Ok(())
}
