//! A script of several users, carried out on one volume: a thread for each user carries out its lines in order, while
//! another one freezes the volume, checks the snapshot and mends what leaked, and one flushes what is pending.
#![tactic(auto)]

mod calling;
mod checking;
mod copies;
mod flushing;
mod lines;
mod running;

pub use calling::call;
pub use checking::mend;
pub use flushing::flush_until;
pub use lines::Answered;
pub use running::{Ran, run};
pub use upkeep::Mended;
