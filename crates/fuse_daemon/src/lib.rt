//! A mounted volume that is served by one thread, while another one mends what leaked, settles what is ahead of records and flushes
//! what is pending.
//!
//! Both stand behind one lock, which is taken for a whole request, and for each part of what is done beside:
//!
//! ```text
//!   the thread that serves                     the thread beside
//!   takes a message                            freezes                                  under the lock
//!   answers it by a turn    under the lock     checks the snapshot by its workers       without the lock
//!   gives the reply                            installs, repairs one by one, releases   under the lock each time
//!   takes a message ..                         each second: settles 4,096 inodes        under the lock each time
//!                                              flushes a share, 16 blocks               under the lock each time
//!                                              waits for the medium                     without the lock
//!                                              tells the queue by a flush of block 0    under the lock
//! ```
//!
//! Who asks between turns has the right to, which is one value. The thread beside takes it from under the lock when it begins, and puts
//! it back when it leaves. At the end, before the turn of DESTROY, the first thread sets `ends`, wakes the other, and waits until the
//! right lies under the lock, and takes it for good. The other sees `ends` where it rests and between its parts, and leaves. So nothing
//! is asked behind the turn of DESTROY, which settles all, closes all files and syncs. A channel that fails ends the service in the
//! same way.
#![tactic(auto)]

mod beginning;
mod behind;
mod clocked;
mod flushing;
mod going;
mod locked;
mod mending;
mod running;
mod telling;

pub use mending::Mended;
pub use running::{Ended, Plan, run};
pub use telling::{News, Teller};
