//! The plan of `rename`: the updates of cells by which an entry gets another name, in its directory or in another one, in
//! the order of their issue.
//!
//! Within its directory the entry of any file or directory gets its other name in its slot. Into another directory only a
//! file's goes: the file gets a link more, then the new entry comes, for which the directory may have to grow; then the old
//! slot is emptied, and last the file gets its record as it was. The old slot is emptied after the new entry and after
//! the grounds of its directory, which are what leads there from the root: of each directory on the way its record, its
//! tables and the block in which the next name stands. So no stop finds the file without a name.
//!
//! A plan is made on the metadata of the volume that is held in memory, and changes nothing.
#![tactic(auto)]

mod grounds;
mod moving;
mod renaming;

pub use moving::refuse_taken;
pub use renaming::{Ends, find_ends, rename, rename_in_slot};
