//! The commands that change names, as lists of updates with what each is issued after: what users see once they are
//! issued, and that each may be issued in its turn, so that every cut of them is safe.
#![tactic(auto)]

mod accepted;
mod carried;
mod create;
mod link;
mod make;
mod remove;
mod rename;
mod unlink;

pub use accepted::{
    accepted_commands_find_what_they_need, accepted_creations, accepted_links,
    accepted_new_directories, accepted_removals, accepted_renames, accepted_unlinks,
    held_blocks_are_marked,
};
pub use carried::{
    creations_are_carried_out, links_are_carried_out, new_directories_are_carried_out,
    removals_are_carried_out, renames_are_carried_out, unlinks_are_carried_out,
};
pub use create::{create_in_a_new_block, create_in_a_slot};
pub use link::{link_in_a_new_block, link_in_a_slot};
pub use make::{make_in_a_new_block, make_in_a_slot};
pub use remove::{remove_an_empty_directory, remove_the_entry_of_a_directory_with_other_links};
pub use rename::{
    grounds_are_gathered_from_the_root, rename_in_its_slot,
    rename_to_a_new_block_of_another_directory, rename_to_a_slot_of_another_directory,
};
pub use unlink::{unlink_one_of_several, unlink_the_last_of_a_closed_file};
