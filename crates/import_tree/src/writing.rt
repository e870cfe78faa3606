//! How what waits in a volume's queue is written while items go into it.
ghost use Rattle.std.specs.Prelude.{◌≡◌, [], ◌∷◌, OnOk};
ghost use Rattle.image_changes.specs.Asking.{Adds, AddsFlushes};
ghost use Rattle.machine.specs.Command.{Sync as AsksSync};

use device::Device;
use image_changes::{flush_in_passes, flush_ready, write_all};
use layout::Refusal;
use snapshot::Volume;
use std::alloc::Global;
use write_behind::Pusher;

/// After how many bytes what waits is flushed, so that what is looked at again once it is durable is still in the processor's cache.
const BYTES_A_TURN: usize = 1 << 16;

/// After how many bytes a device that does not keep order is waited for, if they are not on the medium before: so the queue of updates
/// stays short.
const MOST_LOOSE_BYTES: usize = 1 << 19;

/// What is written while items go into a volume, a turn of bytes after the other.
#[derive(Drop)]
pub(crate) struct Turns<'a> {
    /// Who brings what the device is given to the medium.
    pusher: &'a Pusher,
    /// How many bytes went into the volume since what waits was flushed last.
    waiting: usize,
    /// How many bytes were flushed since the medium was waited for last.
    loose: usize,
}

impl<'a> Turns<'a> {
    /// Nothing went into the volume yet.
    pub(crate) fn new(pusher: &'a Pusher) -> Turns<'a> {
        Turns {
            pusher,
            waiting: 0,
            loose: 0,
        }
    }

    /// Counts so many bytes that went into the volume, and flushes what waits at the end of a turn. Each image that the device holds on
    /// the way is one that a stop may leave.
    pub(crate) fn count<D: Device>(
        &mut self,
        alloc: Global,
        volume: &mut Volume<D>,
        bytes: usize,
    ) -> Result<(), Refusal>
        ensures written { OnOk result (D.honest volume.new.device
            → AddsFlushes (D.held volume.old.device) (D.image volume.old.device) volume.old (D.held volume.new.device) (D.image volume.new.device) volume.new) }
        ensures honest { D.honest volume.new.device → D.honest volume.old.device }
    {
        self.waiting = self.waiting.saturating_add(bytes);
        if self.waiting < BYTES_A_TURN {
            return Ok(());
        }
        self.loose = self.loose.saturating_add(self.waiting);
        self.waiting = 0;
        self.flush(alloc, volume)?;
        self.pusher.ask();
        Ok(())
    }

    /// Flushes what waits. The medium is waited for where all that it was given is there, which takes no time, or much is not.
    fn flush<D: Device>(&mut self, alloc: Global, volume: &mut Volume<D>) -> Result<(), Refusal>
        ensures written { OnOk result (D.honest volume.new.device
            → AddsFlushes (D.held volume.old.device) (D.image volume.old.device) volume.old (D.held volume.new.device) (D.image volume.new.device) volume.new) }
        ensures honest { D.honest volume.new.device → D.honest volume.old.device }
    {
        if self.loose < MOST_LOOSE_BYTES && !self.pusher.has_all() {
            return flush_ready(alloc, volume);
        }
        self.loose = 0;
        flush_in_passes(alloc, volume)
    }
}

/// Writes all that waits, and waits for the medium.
pub(crate) fn write_rest<D: Device>(alloc: Global, volume: &mut Volume<D>) -> Result<(), Refusal>
    ensures written { OnOk result (D.honest volume.new.device
        → Adds (D.held volume.old.device) (D.image volume.old.device) volume.old (AsksSync ∷ []) (D.held volume.new.device) (D.image volume.new.device) volume.new) }
    ensures honest { D.honest volume.new.device → D.honest volume.old.device }
{
    write_all(alloc, volume)
}
