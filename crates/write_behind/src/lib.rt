//! A file whose writes a second thread carries out, and brings to the medium, while the first one goes on.
//!
//! Who waits for the medium right behind each run of writes waits as long as the medium takes, and the medium waits as long as the next
//! run takes to make. A thread of its own takes the writes over, so that both work at once: they wait in memory that was asked for before
//! the first of them, are carried out in their order, and are brought to the medium as soon as the first thread tells it to. A sync that
//! the first thread asks for is answered at once, if one of the second thread's that began behind the last write was, and else by the
//! next one of its. Who reads bytes of a write that still waits, waits for it. A write or a sync that the system refuses to the second
//! thread is told to the first one by its next write or sync, and by each later one; what waits then is lost, as what the system took and
//! did not bring to the medium. Without a second thread the first one does all itself.
#![tactic(auto)]

mod beside;
mod file;
mod pusher;
mod rooms;

pub use beside::push_beside;
pub use file::Pushed;
pub use pusher::Pusher;
pub use rooms::{Room, Rooms};
