//! How a file of the host, or a whole tree of them, or what stands in a tar archive goes into an image. All names are looked at
//! before anything is written, since a name in an image has at most 56 bytes: what an image cannot have is refused by its path, and
//! so is a file that is longer than the version of its layout allows. What was there is not replaced. Modes, owners and times go with
//! it, and so do symbolic links, devices and FIFOs.
#![tactic(auto)]

mod archived;
mod copying;
mod filling;
mod given;
mod hosted;
mod items;
mod limits;
mod lines;
mod making;
mod writing;

pub use archived::items_in_archive;
pub use copying::read_part;
pub use filling::{Filled, Holding, Readings, put, put_on_device};
pub use given::Given;
pub use items::{Item, Source, allow_items, items_of};
pub use limits::{Destination, MOST_BYTES, SHORT_BYTES, file_bytes};
pub use lines::{
    items_of_archive, items_of_folder, put_archive_into_file, put_into_file, put_items,
};
