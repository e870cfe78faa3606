//! One request after another of Linux's FUSE, carried out on a mounted volume by its commands alone.
//!
//! ```text
//!   message -> Desk::turn -> answering::answer -> a module for each kind of request -> reply
//!                                                  naming  renaming  linking  opening  bytes  setting  settling  showing
//!                                                     | commands, replies       | what users see
//!   Mounted   asking    the volume, and the calls of this turn: each command with its reply
//!             session   nodes: which inodes Linux was told of    ahead: attributes that the records get later
//!                       owner    rules: which requests are refused (the strict words)    time: of this turn
//! ```
//!
//! A request is a *doing* (`specs/Doings`): it asks the volume a command, goes on by the reply, and says something at its end. `specs/Requests`
//! has the doing of each request, and `Desk::turn` is proved to do it: so a reply is nothing but what the replies of commands make of it. The
//! doing says where memory is needed. If there is none there, the calls so far stay done, and that is said; it is said nowhere else.
#![tactic(auto)]

mod ahead;
mod allocating;
mod answering;
mod asking;
mod bytes;
mod desk;
mod granted;
mod laws;
mod linking;
mod listing;
mod making;
mod mounted;
mod naming;
mod opening;
mod paths;
mod renaming;
mod replied;
mod saying;
mod session;
mod setting;
mod settling;
mod showing;

pub use desk::Desk;
pub use granted::Rules;
pub use laws::{
    a_request_acts_on_the_inode_that_was_told, settling_shows_the_same,
    what_a_sync_answered_is_settled, what_fsync_answered_outlives_power_cuts,
};
pub use making::New;
pub use session::Session;
