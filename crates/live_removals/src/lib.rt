//! The plans of the commands that give blocks back: `unlink` and `rmdir`, which take names away, and `close` and
//! `truncate`. A plan is the updates of cells by which the command is carried out, in the order of their issue, each with
//! the cells that have to reach the device before it.
//!
//! The slot of a name is emptied first, for a directory after the directory's own blocks. After the block of the slot
//! a record loses its links: one of a file, two of a directory. Where a link is left, or a handle is open on the file,
//! that is all that becomes of it. Else the record is freed, and after it the number's bit and those of all blocks that it
//! claims are cleared, those of its tables among them. The parent of a directory loses a link at last, after the block of
//! the slot too. A file without links goes with its last handle. A file that is truncated gets its record first, and after
//! it the bits of the blocks behind its end are cleared.
//!
//! A block that a snapshot keeps is not cleared: it is held, until no snapshot that stands keeps it.
//!
//! A plan is made on the metadata of the volume that is held in memory, and changes nothing.
#![tactic(auto)]

mod freeing;
mod removing;
mod shortening;
mod unlinking;

pub use freeing::free;
pub use removing::{directory_at, removed, rmdir};
pub use shortening::{close, let_go, shortened, truncate};
pub use unlinking::{file_at, unlink, unlinked, unnamed};
