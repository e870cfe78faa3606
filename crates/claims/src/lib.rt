//! Numbers that workers claim, each for one of them alone, and units that they draw, each for one of them.
//!
//! Threads share the `Claims` by reference, and each has a `Seat` of its own. A claim and a draw are one atomic step
//! each: they wait for nobody, try nothing again, and take no memory.
#![tactic(auto)]

mod claims;
mod gathering;
mod history;
mod rule;
mod seats;

pub use claims::Claims;
pub use seats::Seat;
