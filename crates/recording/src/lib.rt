//! A device that keeps what is written to it, so that another one can be brought from image to image as it was.
#![tactic(auto)]

mod recording;
mod written;

pub use recording::Recording;
pub use written::Written;
