//! The frozen metadata of an image, which a check reads: what is kept of it, and how it is loaded from a device.
#![tactic(auto)]

mod frozen;
mod held;
mod kinds;
mod loading;

pub use frozen::{Frozen, Placed};
pub use held::Held;
pub use kinds::{Kind, kinds_of};
pub use loading::{add_group, fill, load, read_first, read_header};
