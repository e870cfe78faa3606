//! One request after another of Linux's FUSE, answered from an image that is read alone: a soft one too, and a damaged one as far
//! as it can be loaded.
//!
//! Nothing of the image changes, so the kernel may keep names, attributes, contents and listings for an hour, listings go on from
//! the slot of a directory that the kernel names, and no handle is needed: each open file or directory has the handle 0. A request
//! that would change something is refused with EROFS.
#![tactic(auto)]

mod agreeing;
mod answering;
mod desk;
mod forgetting;
mod laws;
mod listing;
mod looking;
mod owner;
mod piece;
mod saying;
mod showing;

pub use agreeing::{TAKEN, agree};
pub use desk::{Desk, Turned, turned_of};
pub use forgetting::forget_all;
pub use laws::a_request_acts_on_the_inode_that_was_told;
pub use listing::{entry_in, listing_from};
pub use looking::{SYMBOLIC_LINK, TARGET_BYTES, end_of, number_of};
pub use owner::Owner;
pub use piece::cut;
pub use saying::{refuse, tell, tell_bytes};
pub use showing::{attributes_of, kind_at, own_attributes, room_of, shown_by, time_in};
