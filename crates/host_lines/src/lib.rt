//! The lines of `fsvol` that move files and folders between the host and an image, and the one that makes an image.
#![tactic(auto)]

mod ends;
mod geometry;
pub mod get;
mod input;
pub mod mkfs;
pub mod put;
mod words;

pub use ends::silent;
