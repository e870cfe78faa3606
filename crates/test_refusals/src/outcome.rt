//! What came of trials.
use std::alloc::{AllocError, Global};

/// What came of trials.
#[derive(Drop)]
pub struct Outcome {
    /// What is to be printed.
    pub text: String,
    /// How many commands were refused, and then carried out.
    pub refused: u32,
    /// How much is wrong.
    pub wrong: u32,
}

impl Outcome {
    /// Before the first trial.
    pub fn new(alloc: Global) -> Outcome {
        Outcome {
            text: String::new(alloc),
            refused: 0,
            wrong: 0,
        }
    }

    /// Adds a line.
    pub fn add(&mut self, line: &str) -> Result<(), AllocError> {
        match self.text.push_str(line) {
            Ok(()) => Ok(()),
            Err(_) => self.text.push_str(line),
        }
    }

    /// Adds a line of what is wrong.
    pub fn add_wrong(&mut self, line: &str) -> Result<(), AllocError> {
        self.wrong = self.wrong.saturating_add(1);
        self.add(line)
    }

    /// Counts a command that was refused.
    pub fn count_refused(&mut self) {
        self.refused = self.refused.saturating_add(1);
    }
}
