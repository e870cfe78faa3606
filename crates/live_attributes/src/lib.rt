//! The plan of `set_attributes`: the update by which an inode gets other attributes.
#![tactic(auto)]

mod setting;

pub use setting::set_attributes;
