//! The mounted volume: an image that obeys the rules of soft updates is mounted, which tests the rules on one thread, and commands
//! change what its users see. No command writes to the device: it issues updates, which reach the device when a block is
//! flushed or the volume is synced, in an order in which the device obeys the rules at each stop.
//!
//! A command is refused with the first cause in the order that its documentation gives, and changes nothing then. Any
//! command may be refused with `NoMemory`, and one that reaches the device with `Device`.
#![tactic(auto)]

mod bytes;
mod creating;
mod ending;
mod flushing;
mod handling;
mod live;
mod looking;
mod mending;
mod removing;
mod renaming;
mod runs;
mod setting;
mod snapshots;

pub use bytes::first_bytes;
pub use live::{Live, NotMounted};
pub use looking::{Kind, Status};
pub use runs::{
    each_stop_of_a_run_is_safe, mountable_images_mount, mounted_volumes_begin,
    sound_volumes_outlive_power_cuts,
};
pub use upgrading::upgrade;
