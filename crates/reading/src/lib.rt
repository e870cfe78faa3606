//! What stands in an image that is only read: where a path leads, the names in a directory, and the bytes of a file. All of it
//! is what the machine would answer to a user of the volume just mounted, and it is told of every image that can be
//! loaded: a soft one, and a damaged one too, of which a mounted volume would tell nothing.
#![tactic(auto)]

mod bytes;
mod looking;
mod trees;

pub use bytes::{length_in, read};
pub use looking::{Found, list, record_of, stat};
pub use trees::{Listing, joined, tree};
