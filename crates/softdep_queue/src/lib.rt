//! The table of the updates that are not durable: which wait for which, and which wait for none.
//!
//! A file gets its first block, 9: the bit of 9, the bytes of 9 after it, and the record of inode 7 after the bytes. Blocks 1 and 2 of
//! the image have the bitmaps and the record:
//!
//! ```text
//!   nodes      0: bit of 9      1: bytes of 9      2: record of 7       each update, in the order of issue
//!     home     block 1          block 9            block 2
//!     waiting  0                1                  1                    for how many it waits
//!     waiters  1                2                  none                 who waits for it (a `Chain`)
//!   ready      block 1: 0       block 9: none      block 2: none        of each block the updates that wait for none, not taken yet
//!   latest     bit of 9: 0      bytes of 9: 1      record of 7: 2       of each cell its last pending update
//!   taken      none                                                     what flushes wrote and no sync confirmed, the first first
//! ```
//!
//! - `adding`: a new node joins the waiters of the last pending update of its own cell, and of each cell that it comes after.
//! - `taking`: a flush of block 1 takes node 0 from `ready`, and lowers `waiting` of its waiters in block 1: such may go with it.
//! - `retiring`: once node 0 is durable, `waiting` of its waiters in other blocks is lowered: node 1 gets ready. Then node 0 is struck out.
//! - `returning`: if the write is refused, the nodes that were taken for it are put back.
//! - `moving`: if room for nodes is short, those that are not struck out move to the front.
#![tactic(auto)]

mod adding;
mod asking;
mod moving;
mod retiring;
mod returning;
mod table;
mod taking;

pub use table::Table;
