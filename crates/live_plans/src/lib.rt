//! The plans of the commands that change names: the updates of cells by which a command is carried out, in the order of
//! their issue, each with the cells that have to reach the device before it. Here is what the plans of several commands
//! have in common: the list in the making, the entry that a path leads to, and how a name is entered into a directory.
//!
//! A plan is made on the metadata of the volume that is held in memory, and changes nothing.
#![tactic(auto)]

mod entering;
mod entries;
mod growing;
mod linking;
mod locating;
mod plan;

pub use entering::{NewEntry, enter, enter_at};
pub use entries::{Slot, add_blocks, bytes_of, empty_slot, entry, put_slot};
pub use growing::fill;
pub use linking::{Linked, NewBlock, link, pointer_after};
pub use locating::{Found, locate};
pub use plan::{Plan, Planned};
