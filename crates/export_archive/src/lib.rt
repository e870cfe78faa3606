//! What stands in an image, as a tar archive: so names of any bytes come out of it, also those that no path of the host can have.
#![tactic(auto)]

mod packing;

pub use packing::{pack, pack_from_file};
