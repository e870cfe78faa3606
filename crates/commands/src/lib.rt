//! All lines of `fsvol`: what their words ask for, and how they are carried out.
#![tactic(auto)]

mod line;
mod performing;
mod program;
mod words;

pub use line::Line;
pub use performing::{carry_out, perform};
pub use words::{parse, words_given};
