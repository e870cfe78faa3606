//! The plans of the commands that give names: `create`, `link` and `mkdir`. A plan is the updates of cells by which the
//! command is carried out, in the order of their issue, each with the cells that have to reach the device before it.
//!
//! What the new entry names comes first: for a new file its number's bit and its record, for a link the file's record with
//! a link more, for a new directory its number's bit, its block's bit, its parent's record with a link more, the block of
//! its dots, and its record. Then the name is entered into its directory, which grows before where it has to.
//!
//! A plan is made on the metadata of the volume that is held in memory, and changes nothing.
#![tactic(auto)]

mod creating;
mod linking;
mod making;
mod placing;

pub use creating::create;
pub use linking::{file_at, link};
pub use making::{dots, mkdir, new_directory};
pub use placing::directory_for;
