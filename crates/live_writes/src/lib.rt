//! The plan of `write`: a block of an open file gets a piece of up to 1,024 bytes at its start. A plan is the updates of
//! cells by which the command is carried out, in the order of their issue, each with the cells that have to reach the
//! device before it.
//!
//! First it is settled where the block goes, which takes no memory. A block of the file that no snapshot keeps
//! gets its bytes in place; one that it keeps is left alone, and held for it: the file gets a free block instead. Behind
//! the last block the file gets a free one, too, and others for the new tables that come with it. Then the updates are
//! made: a new block's bit, its bytes, the pointer to it, and the record last, where it changes.
//!
//! A plan is made on the metadata of the volume that is held in memory and on the bytes that the block has, and changes
//! nothing.
#![tactic(auto)]

mod aiming;
mod writing;

pub use aiming::{Place, Target, aim, place_behind};
pub use writing::{Piece, held_blocks, overwritten, write};
