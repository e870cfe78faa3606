//! What the lines of `fsvol` have in common: the words that several of them take, the files that they read whole, the devices
//! that their workers read, who watches them, what they print, why they are refused, and the statuses that the program then ends
//! with.
#![tactic(auto)]

mod answer;
pub mod arguments;
mod files;
mod handles;
mod misreading;
mod watching;
pub mod words;

pub use answer::Answer;
pub use failures::{DAMAGED, Failure, GAVE_OUT, REFUSED, SOFT};
pub use files::bytes_of_file;
pub use handles::{others_of, workers_here};
pub use misreading::misread;
pub use watching::{Screen, Watched};
