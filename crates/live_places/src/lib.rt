//! Where a new entry of a directory goes, and which free blocks that takes: chosen on the metadata of the volume that is
//! held in memory, before anything is changed.
//!
//! An entry goes into the first empty slot of the directory. Where no slot is empty, the directory gets a block more,
//! and the pointer to it stands in the directory's record or in a table; where new tables come with that block, the
//! directory gets them besides. A directory that has as many blocks as it may gets no more, and is refused with `TooBig`.
//! A command that makes a directory asks for a block for it, too. Where fewer blocks are unmarked than all of that
//! takes, the answer is `NoBlock`; a directory that is full is refused as such whether or not there are blocks.
//!
//! The blocks that are taken are the least ones that may be given out, in ascending order: the one for a new directory,
//! the one for the entry, the ones for new tables, the nearest first. Each answer holds for every view that has the metadata
//! that is held.
//!
//! No call takes memory.
#![tactic(auto)]

mod choosing;
mod rooms;
mod tables;
mod taking;

pub use choosing::{Place, Places, choose};
pub use rooms::new_tables;
pub use tables::Tables;
pub use taking::{take, take_tables};
