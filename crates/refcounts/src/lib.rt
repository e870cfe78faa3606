//! Phase 4 of a check, which compares the links of each reachable inode with the entries that name it: the good slots
//! of reachable directories, the dots among them.
//!
//! The work is split twice, in pieces and by cylinder group: `part` reads what the reachable directories of one piece name, and
//! once the parts of all pieces are made, `counts` tells how many entries each inode of a group has, and `findings` what is
//! found of these inodes' links.
#![tactic(auto)]

mod counting;
mod links;
mod parts;
mod reading;

pub use counting::{EntryCounts, counts};
pub use links::findings;
pub use parts::Part;
pub use reading::part;
