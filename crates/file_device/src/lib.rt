//! A file as a device of blocks, of which some are kept in memory.
#![tactic(auto)]

mod file;
mod opening;
mod run;
#[cfg(test)]
mod tests;

pub use file::{Call, FileDevice, Start};
pub use opening::OpenError;
