//! The lines of `fsvol` that check an image, mend it or upgrade it, and what they do on any device.
#![tactic(auto)]

pub mod bits;
pub mod check;
pub mod make;
pub mod mounting;
pub mod repair;
pub mod sample;
pub mod upgrade;
