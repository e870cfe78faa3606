//! A device whose image others have read too, as one device.
#![tactic(auto)]

mod joint;

pub use joint::Joint;
