ghost use Rattle.std.specs.Prelude.{◌≡◌, ◌∷◌, [], false, true, IfOk, IsFalse, OnOk};
ghost use Rattle.machine.specs.Command.{Flush};
ghost use Rattle.softdep.specs.Queued.{NothingNext};
ghost use Rattle.image_changes.specs.Asking.{Adds, AddsFlushes, AddsFlushesBehind};

use crate::asking::ask;
use device::Device;
use layout::Refusal;
use snapshot::{Command, Volume};
use std::alloc::Global;

/// Flushes blocks in passes until none is ready. A sync would do too, but on a device that keeps order it flushes the least block
/// that may be written each time, and so a block of inodes, which stands before the blocks of their files, again after each of
/// these; a pass writes it once. A device that does not keep order is waited for before the passes, so that what waited for the
/// writes of the passes before may go in these: the medium has had the time between the two calls for those. Each image that the
/// device holds on the way is one that a stop may leave.
pub fn flush_in_passes<D: Device>(alloc: Global, volume: &mut Volume<D>) -> Result<(), Refusal>
    ensures flushed { OnOk result (D.honest volume.new.device
        → AddsFlushes (D.held volume.old.device) (D.image volume.old.device) volume.old (D.held volume.new.device) (D.image volume.new.device) volume.new) }
    // No block has an update that may go to the device.
    ensures ready { OnOk result (NothingNext volume.new.queue) }
    // A device that does not keep order was waited for first.
    ensures waits { OnOk result (D.KEEPS_ORDER ≡ false → D.honest volume.new.device
        → AddsFlushesBehind 0 (D.held volume.old.device) (D.image volume.old.device) volume.old (D.held volume.new.device) (D.image volume.new.device) volume.new) }
    ensures honest { D.honest volume.new.device → D.honest volume.old.device }
{
    wait_for_writes(alloc, volume)?;
    flush_ready(alloc, volume)
}

/// Flushes blocks in passes until none is ready, and waits for nothing: what waits for writes that are not known to be durable is
/// left.
pub fn flush_ready<D: Device>(alloc: Global, volume: &mut Volume<D>) -> Result<(), Refusal>
    ensures flushed { OnOk result (D.honest volume.new.device
        → AddsFlushes (D.held volume.old.device) (D.image volume.old.device) volume.old (D.held volume.new.device) (D.image volume.new.device) volume.new) }
    // No block has an update that may go to the device.
    ensures ready { OnOk result (NothingNext volume.new.queue) }
    ensures honest { D.honest volume.new.device → D.honest volume.old.device }
{
    // Each pass writes an update, and no queue has more of them; one that had would be refused as one that finds no memory.
    for _pass in 0..u32::MAX {
        if !has_ready(volume) {
            return Ok(());
        }
        flush_pass(alloc, volume)?;
    }
    Err(Refusal::NoMemory)
}

/// Where the device does not keep order, waits until what was written is durable: no flush of the superblock has anything to
/// write.
fn wait_for_writes<D: Device>(alloc: Global, volume: &mut Volume<D>) -> Result<(), Refusal>
    ensures flushed { OnOk result (D.honest volume.new.device
        → AddsFlushes (D.held volume.old.device) (D.image volume.old.device) volume.old (D.held volume.new.device) (D.image volume.new.device) volume.new) }
    ensures waits { OnOk result (D.KEEPS_ORDER ≡ false → D.honest volume.new.device
        → Adds (D.held volume.old.device) (D.image volume.old.device) volume.old (Flush 0 ∷ []) (D.held volume.new.device) (D.image volume.new.device) volume.new) }
    ensures untouched { D.KEEPS_ORDER ≡ true → volume.new ≡ volume.old }
    ensures honest { D.honest volume.new.device → D.honest volume.old.device }
{
    if !D::KEEPS_ORDER {
        ask(alloc, volume, &Command::Flush(0))?;
    }
    Ok(())
}

/// Whether some block has an update that may go to the device.
fn has_ready<D: Device>(volume: &Volume<D>) -> bool
    ensures { IsFalse result → NothingNext volume.now.queue }
{
    volume.live().least_ready().is_some()
}

/// Flushes each block with an update that may go to the device once its turn comes, in the order of their addresses.
fn flush_pass<D: Device>(alloc: Global, volume: &mut Volume<D>) -> Result<(), Refusal>
    ensures flushed { OnOk result (D.honest volume.new.device
        → AddsFlushes (D.held volume.old.device) (D.image volume.old.device) volume.old (D.held volume.new.device) (D.image volume.new.device) volume.new) }
    ensures honest { D.honest volume.new.device → D.honest volume.old.device }
{
    let mut from = 0;
    // No volume has more blocks.
    for _turn in 0..u32::MAX {
        match flush_next(alloc, volume, from)? {
            Some(next) => from = next,
            None => break,
        }
    }
    Ok(())
}

/// Flushes the least block with an update that may go to the device, of this one and those above it, and gives the address
/// behind it; none where there is no such block.
fn flush_next<D: Device>(
    alloc: Global,
    volume: &mut Volume<D>,
    from: u32,
) -> Result<Option<u32>, Refusal>
    ensures flushed { IfOk result (λ _. D.honest volume.new.device
        → AddsFlushes (D.held volume.old.device) (D.image volume.old.device) volume.old (D.held volume.new.device) (D.image volume.new.device) volume.new) }
    ensures honest { D.honest volume.new.device → D.honest volume.old.device }
{
    let Some(address) = volume.live().next_ready(from) else {
        return Ok(None);
    };
    ask(alloc, volume, &Command::Flush(address))?;
    Ok(address.checked_add(1))
}
