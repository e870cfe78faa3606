//! Why a line of `fsvol` was not carried out, as it is told on standard error: the cause, which decides the status, and in the
//! lines below it where, why, and how far the line came.
#![tactic(auto)]

mod failure;
mod hosted;
mod image;
mod paths;
mod reason;
mod status;
mod telling;

pub use failure::{Failure, Steps};
pub use paths::path_given;
pub use reason::Reason;
pub use status::{DAMAGED, GAVE_OUT, REFUSED, SOFT};
