ghost use Rattle.std.specs.Prelude.{Some};
ghost use Rattle.progress.specs.Texts.{step_text};

use crate::tally::Tally;
use std::fmt;

/// How far long work has come.
#[derive(Clone, Copy, PartialEq, Eq, Debug)]
pub enum Step {
    /// A check comes to this group, in this phase.
    Group { phase: u8, group: u32 },
    /// So much went from one place to another.
    Moved(Tally),
}

impl fmt::Display for Step {
    ghost output = { λ step. Some (step_text step) };

    fn fmt<W: fmt::Write>(&self, f: &mut fmt::Formatter<W>) -> fmt::Result {
        match *self {
            Step::Group { phase, group } => write!(f, "phase {phase} group {group}"),
            Step::Moved(Tally { files, bytes }) => write!(f, "files {files} bytes {bytes}"),
        }
    }
}
