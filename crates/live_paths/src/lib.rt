//! Paths of the mounted volume, and where they lead: read on the metadata of the volume that is held in memory, so that
//! no command reads the device to find its way.
//!
//! A path is `/` alone, which is the root of the volume, or one or more parts with a `/` before each. It has 4,096 bytes
//! at most. A part is a name that may stand in a directory behind its dots: 1 to 56 bytes, none of them 0 or `/`, and
//! neither `.` nor `..`. So a path has no `/` at its end, no two of them in a row, and no way up. What is no path is
//! refused with `BadName`.
//!
//! A path is walked from the root, part after part. Each part but the last has to be a name in the directory that was
//! reached before, and stands for the next one. The walk to the directory that holds the last part is refused with
//! `IsRoot` where the path is `/`, which no directory holds; with `NotDirectory` where what was reached is no sound
//! directory, whether or not it would have the name; and with `NotFound` where the directory has no such name. Whatever
//! comes first on the way is what is answered. What the path leads to is what its last part stands for in that directory,
//! or `NotFound`; of `/` it is the root.
//!
//! A number that is no sound directory's has no slots, so nothing is found in it, and it has no room. Where a name stands
//! in several slots, the first of them is meant. Each answer holds for every image that has the metadata that is held,
//! and so for what the users of the volume see.
//!
//! No call but `names` takes memory.
#![tactic(auto)]

mod listing;
mod lookup;
mod path;
mod scan;
mod walking;

pub use listing::{Named, names};
pub use lookup::{empty_slot, find, has_names};
pub use path::Path;
pub use scan::Entry;
pub use walking::{target, walk};
