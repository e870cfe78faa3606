//! Mounted volumes of small images for tests, and commands and replies as the tables of tests tell them.
#![tactic(auto)]

mod asked;
mod volumes;

pub use asked::{Asked, Wanted, command_of, commands_of, is_as};
pub use volumes::{VERSIONS, found_on, mounted, mounted_of};
