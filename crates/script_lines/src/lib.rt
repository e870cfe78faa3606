//! The lines of `fsvol` that carry out a script of users on an image, what they do on any device, and the line that shows them.
#![tactic(auto)]

pub mod cuts;
pub mod demo;
pub mod run;
mod scripts;
pub mod stops;

pub use scripts::refusal_of_script;
