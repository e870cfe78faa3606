//! The metadata of an image, loaded by workers: each reads the blocks of groups through a device of its own over the same image.
#![tactic(auto)]

mod ahead;
mod by_workers;
mod looking;
mod placing;
mod reader;
mod room;

pub use by_workers::load_by;
