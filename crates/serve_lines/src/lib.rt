//! The line `serve`: the volume of an image, which Linux has mounted.
#![tactic(auto)]

mod holding;
mod owner;
pub mod serve;
mod telling;
mod viewed;
mod written;

pub use holding::Holdable;
pub use owner::{Numbers, numbers_of};
