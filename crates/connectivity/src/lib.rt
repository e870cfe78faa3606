//! Phase 3 of a check, which looks for what nothing reaches. `rounds` goes over the entries of directories from the root
//! on, by many workers. By one, `part` reads the entries of the directories of a piece, `merge` joins what was read, in any
//! order and any grouping, and `walk` goes over the entries of all pieces. `findings` tells the sound inodes that were not
//! reached.
#![tactic(auto)]

mod alone;
mod asking;
mod entries;
mod lone_round;
mod lost;
mod shared_rounds;
mod shared_walk;
mod walkers;

pub use alone::walk;
pub use directories::{Named as Part, merge};
pub use entries::part;
pub use lost::findings;
pub use shared_rounds::rounds;
