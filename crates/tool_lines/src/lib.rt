//! The everyday lines of `fsvol` on an image alone: those that look into it, and those that change the names in it.
#![tactic(auto)]

pub mod cat;
pub mod change;
mod fault;
pub mod info;
pub mod ls;
pub mod map;
pub mod stat;
