//! Devices in memory that keep what they are given.
use device::{CacheDevice, MemDevice};
use layout::Refusal;
use recording::Recording;
use std::alloc::Global;
use test_trials::is_loose;

/// A device in memory that keeps what it is given.
pub trait Keeps {
    /// One that begins with what a device in memory holds.
    fn over(alloc: Global, image: MemDevice) -> Result<Self, Refusal>;

    /// Whether it was given the same as another one.
    fn is_same(&self, other: &Self) -> bool;

    /// Whether another one was given the same at first.
    fn is_start_of(&self, other: &Self) -> bool;

    /// Whether a loss of power may take back what it was given.
    fn may_lose(&self) -> bool;
}

/// It keeps order: no write of it is lost.
impl Keeps for Recording<MemDevice> {
    fn over(alloc: Global, image: MemDevice) -> Result<Recording<MemDevice>, Refusal> {
        Ok(Recording::new(alloc, image))
    }

    fn is_same(&self, other: &Recording<MemDevice>) -> bool {
        self.writes() == other.writes()
    }

    fn is_start_of(&self, other: &Recording<MemDevice>) -> bool {
        other.writes().starts_with(self.writes())
    }

    fn may_lose(&self) -> bool {
        false
    }
}

/// What it is given are writes and syncs. What a loss of power may leave of it at each moment they tell alone.
impl Keeps for CacheDevice {
    fn over(alloc: Global, image: MemDevice) -> Result<CacheDevice, Refusal> {
        CacheDevice::over(alloc, image)
    }

    fn is_same(&self, other: &CacheDevice) -> bool {
        self.steps() == other.steps()
    }

    fn is_start_of(&self, other: &CacheDevice) -> bool {
        other.steps().starts_with(self.steps())
    }

    fn may_lose(&self) -> bool {
        is_loose(self)
    }
}
