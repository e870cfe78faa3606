//! Lists of numbers that share tables, so that one more number takes no memory: stacks, each number in at most one of them; chains, of which
//! several may end alike; and what is ready, a stack for each block.
#![tactic(auto)]

mod chains;
mod ready;
mod stacks;

pub use chains::{Chain, Chains, Link};
pub use ready::Ready;
pub use stacks::Stacks;
