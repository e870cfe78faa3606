//! How a volume is mended while it is used: it is frozen, the snapshot is checked, the check is installed, each of its repairs is carried
//! out, and the snapshot ends. This stands once, over whoever carries out the commands of a volume: `Asked`.
//!
//! ```text
//!   Freeze   -> number, snapshot            users wait
//!   check of the snapshot by workers        users go on
//!   Install  -> done, or foreign            users wait
//!   Repair 0, Repair 1, ..                  users go on between them
//!   Release number                          in any case
//! ```
#![tactic(auto)]

mod asked;
mod mending;

pub use asked::Asked;
pub use mending::{Mended, mend};
