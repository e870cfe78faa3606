//! The metadata of a mounted volume in memory, as its users see it: what is kept of an image for a check, with changes of
//! single cells, and with what may be given out. The blocks are shared, so that a snapshot of them is a copy of a table;
//! a block that changes is replaced, and the snapshot keeps the one before. A change comes in two steps: the first takes
//! all the memory that it needs, and the second cannot fail.
#![tactic(auto)]

mod free_space;
mod metadata;
mod staged;
#[cfg(test)]
mod tests;

pub use metadata::{
    Metadata, what_is_kept_is_the_metadata_of_what_it_shows, what_is_kept_of_an_image_shows_it,
};
pub use staged::{Bit, Staged};
