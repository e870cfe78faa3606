//! What the kernel was told of a mounted volume: by which numbers it knows inodes, under which names, and which are open. No
//! volume is read or changed here.
//!
//! The number of a node is the inode's number and, above its 32 bits, how often that number was given to a new inode. So a
//! number that the kernel was told leads to the inode that it was told for, or to none, whatever became of the inode's number.
#![tactic(auto)]

mod known;
mod names;
mod table;

pub use known::Open;
pub use table::{
    Nodes, ToldError, a_node_is_found_until_it_is_forgotten, a_node_leads_to_its_inode,
};
