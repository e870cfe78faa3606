//! Soft updates: the queue of the updates that were issued and are not durable yet, and in which order their blocks are written.
//!
//! After McKusick and Ganger (1999) and Ganger et al. (2000), but for one thing: no update is rolled back in a block before a write, and
//! put back after it. A flush begins with the block as the device has it, and puts the ready updates into it.
//!
//! ```text
//!   a command's plan                 Queue                                       Device
//!   ---------------- issue ---->  table    which update waits for which
//!                                          (crate softdep_queue)
//!                                 block    room for the block of a flush  <----  read
//!                                                                         ---->  write, sync
//!                                 events   what was issued, written and settled; clauses alone read it
//! ```
//!
//! An update goes from left to right, and a write that is refused leads it back to pending:
//!
//! ```text
//!            issue            flush of its block           sync of the device
//!            ---->  pending  ------------------->  loose  ------------------->  durable, and forgotten
//! ```
//!
//! A pending update is ready if everything that it waits for is durable, or stands in the same block and is loose or goes with it. On a
//! device that keeps order each write is durable at once. One flush of a block:
//!
//! 1. If no update of the block is ready, nothing is read or written. A device that does not keep order is waited for, if a write is loose.
//! 2. The block is read from the device. A data block is not: each update of it has all its bytes.
//! 3. `Table::take` puts each ready update into the block. That may make others of the same block ready, which go too.
//! 4. The block is written. If the device refuses, `Table::give_back` makes the updates pending again.
//! 5. On a device that keeps order, `Table::settle` forgets them, and updates of other blocks that waited for them may be ready.
#![tactic(auto)]

mod flushing;
mod issuing;
mod laws;
mod queue;

pub use laws::{a_flush_clears_a_freed_record, what_a_power_cut_leaves_is_safe};
pub use queue::Queue;
pub use updates::{Cell, Cells, Change, Update};
