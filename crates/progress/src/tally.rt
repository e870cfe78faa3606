ghost use Rattle.std.specs.Prelude.{◌≡◌, ◌+◌, ◌-◌, ◌^◌, min};

use crate::step::Step;
use crate::watcher::Watcher;

/// How many files and directories went from one place to another so far, and how many bytes in them.
#[derive(Clone, Copy, PartialEq, Eq, Debug)]
pub struct Tally {
    pub files: u64,
    pub bytes: u64,
}

impl Tally {
    /// None so far.
    pub fn new() -> Tally
        ensures { (result.files ≡ 0) × (result.bytes ≡ 0) }
    {
        Tally { files: 0, bytes: 0 }
    }

    /// Counts one more, with so many bytes, and tells it. Neither number gets larger than a `u64` may be.
    pub fn count(&mut self, bytes: usize, watcher: &impl Watcher)
        ensures files { self.new.files ≡ min (self.old.files + 1) (2 ^ 64 - 1) }
        ensures bytes { self.new.bytes ≡ min (self.old.bytes + bytes) (2 ^ 64 - 1) }
    {
        self.files = self.files.saturating_add(1);
        self.bytes = self.bytes.saturating_add(bytes as u64);
        watcher.sees(Step::Moved(*self));
    }
}
