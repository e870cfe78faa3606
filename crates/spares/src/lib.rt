//! Blocks in memory that nothing needs any more: their memory serves for the next ones, so that a block which is changed by a
//! copy is not paid for with memory that is asked for and given back each time.
#![tactic(auto)]

mod spares;
#[cfg(test)]
mod tests;

pub use spares::Spares;
