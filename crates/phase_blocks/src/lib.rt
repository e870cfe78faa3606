//! Phase 1 of a check, which looks at the records of inodes and at the blocks that they use: records that are neither
//! free nor sound, uses of addresses where no data block stands, and claims of blocks that an earlier claim owns.
//!
//! The work is split by cylinder group, twice: `part` looks at the inodes of one group, and once the parts of all groups
//! are made, `owners` says of one group who owns its blocks, and what is found of it.
#![tactic(auto)]

mod filling;
mod owning;
mod parts;
mod scan;

pub use owning::{BlockOwners, owners};
pub use parts::{Claim, Part};
pub use scan::part;
