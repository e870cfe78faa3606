//! Phase 5 of a check: the maps of the cylinder groups against what is used. The work is split by cylinder group: the
//! bits of a group's data blocks are compared with the owners of these blocks, and those of its numbers with the records
//! of its inodes.
#![tactic(auto)]

mod blocks;
mod numbers;
mod units;

pub use numbers::number_findings;
pub use units::findings;
