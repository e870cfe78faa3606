//! What was tried of a kind.
use test_trials::PowerCuts;

/// What was tried of a kind, and how much was wrong.
#[derive(Clone, Copy)]
pub struct Total {
    pub lists: u64,
    pub steps: u64,
    pub answered: u64,
    pub moments: u64,
    pub images: u64,
    pub soft: u64,
    pub names: u64,
    pub bytes: u64,
    pub wrong: u64,
}

impl Total {
    /// Before the first list.
    pub fn new() -> Total {
        Total {
            lists: 0,
            steps: 0,
            answered: 0,
            moments: 0,
            images: 0,
            soft: 0,
            names: 0,
            bytes: 0,
            wrong: 0,
        }
    }

    /// Adds a list of so many steps.
    pub fn add(&mut self, steps: usize, cuts: &PowerCuts) {
        self.lists = self.lists.saturating_add(1);
        self.steps = self.steps.saturating_add(steps as u64);
        self.answered = self.answered.saturating_add(cuts.answered);
        self.moments = self.moments.saturating_add(cuts.moments);
        self.images = self.images.saturating_add(cuts.images);
        self.soft = self.soft.saturating_add(cuts.soft);
        self.names = self.names.saturating_add(cuts.names);
        self.bytes = self.bytes.saturating_add(cuts.bytes);
        self.wrong = self.wrong.saturating_add(cuts.wrong);
    }
}
