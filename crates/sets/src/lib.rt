//! Sets that are built once and then read: lists in order, and marks of numbers.
#![tactic(auto)]

mod members;
mod ordered;

pub use members::Members;
pub use ordered::in_order;
