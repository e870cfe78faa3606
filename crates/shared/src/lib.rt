//! One volume for many threads: a lock round it, a trace of what was called under the lock, and seats for those who call.
//!
//! The trace tells in which order the calls came, and is a run of the volume. No contract can name the value under a lock: a
//! clause says of each call that it was one of some volume of this sharing, and `close` that all calls led to the volume from
//! the one that was shared.
#![tactic(auto)]

mod booked;
mod counts;
mod entry;
mod laws;
mod limits;
mod progress;
mod seat;
mod shared;
mod sharing;

pub use booked::{Booked, Closed};
pub use counts::Counts;
pub use entry::Entry;
pub use laws::{
    each_image_of_a_trace_is_mountable, each_power_cut_of_a_trace_is_safe,
    each_stop_of_a_trace_is_safe, histories_are_calls, repairs_of_a_history_end_exact,
    traces_lead_to_balance, what_a_sync_of_a_trace_has_seen_outlives_power_cuts,
};
pub use limits::{MOST_CALLS, MOST_SEATS};
pub use progress::Progress;
pub use seat::Seat;
pub use shared::Shared;
pub use sharing::{Rotating, Sharing};
