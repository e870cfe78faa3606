//! How what stands in an image goes to the host. All names are looked at before anything is made, since a path of the host is
//! text, and a name in an image any bytes: what the host cannot have is refused by its path. What was there is not replaced.
#![tactic(auto)]

mod getting;
mod making;

pub use getting::{Contents, Copies, get, get_from_file};
