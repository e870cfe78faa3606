//! The great promises of the file system, each as one law, without code. The contracts of the calls give what they
//! presume: `fsck::check` that an image was checked, and each call of a volume what it went through.
#![tactic(auto)]

mod laws;

pub use laws::{
    every_power_cut_is_only_leaky, every_stop_is_only_leaky, repairs_end_exact, the_check_is_right,
};
