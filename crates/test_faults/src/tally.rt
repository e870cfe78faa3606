//! How much was tried, and how much was wrong.

/// How much was tried, and how much was wrong.
#[derive(Clone, Copy)]
pub struct Tally {
    pub tried: u64,
    pub wrong: u64,
}

impl Tally {
    /// Before the first try.
    pub fn new() -> Tally {
        Tally { tried: 0, wrong: 0 }
    }

    /// Counts a try.
    pub fn count(&mut self, is_wrong: bool) {
        self.tried = self.tried.saturating_add(1);
        if is_wrong {
            self.wrong = self.wrong.saturating_add(1);
        }
    }
}
