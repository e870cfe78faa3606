//! The updates of soft updates: each writes one cell, which is the record of an inode, the bit of an inode number or of
//! a data block, or a whole data block, and has to reach the device after the last updates of some other cells. A cell
//! stands in one block, and a change puts its new value there and leaves every other byte as it is; but of a record that
//! is freed no byte stays. A change has its record in memory of its own, which its making takes; no other call takes any.
#![tactic(auto)]

mod cell;
mod change;

pub use cell::{Cell, cells_have_places_of_their_own, places};
pub use change::{Cells, Change, Update};
