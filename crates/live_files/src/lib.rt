//! What is settled before a file is opened or read: which file and block it is, and why it is refused. A file is opened by
//! a path, and read block by block by its handle.
//!
//! The answers are taken from the metadata that is held in memory and from the open handles. Nothing is changed, and no
//! memory is taken.
#![tactic(auto)]

mod opening;
mod reading;

pub use opening::{Opening, opening_of};
pub use reading::{Reading, reading_of};
