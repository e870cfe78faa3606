//! What the everyday lines of `fsvol` tell and do: the numbers of an image, the names in its directories, what a path
//! leads to, the bytes of a file, and the commands that words of a line stand for. All of it is of any device.
#![tactic(auto)]

mod looking;
mod texts;
mod words;

pub use looking::{Style, cat, info, ls, stat};
pub use words::{Aim, Deed, Naming, aim_at, deeds, namings};
