//! A mounted volume of which snapshots are taken: an image of it is frozen for a check while users go on, what the check
//! finds is mended by repairs, and the marks and links of the volume are then exact.
//!
//! Up to four snapshots may stand, each with the number of its freeze since the mount; only the one of the latest freeze
//! takes the repairs of a check. No snapshot is kept over a stop: the blocks that were held are then marked and in no use,
//! which the next check finds. Snapshots that a file system takes of itself for its check are after McKusick and Ganger
//! (1999) and McKusick (2002).
#![tactic(auto)]

mod answer;
mod applying;
mod checking;
mod command;
mod laws;
mod pieces;
mod snapshots;
mod users;
mod volume;

pub use answer::{Answer, Reply};
pub use checking::tells_its_image;
pub use command::{Command, NO_ATTRIBUTES};
pub use laws::{
    calls_join, clean_volumes_stay_exact, each_image_held_is_mountable,
    each_power_cut_of_a_run_is_safe, each_stop_of_a_run_is_safe, files_show_their_own_bytes,
    no_call_makes_a_debt, volumes_are_in_balance, volumes_begin,
    what_a_sync_has_seen_outlives_power_cuts, whole_cycles_end_exact,
};
pub use live::{Kind, Live, NotMounted, Status, mountable_images_mount, mounted_volumes_begin};
pub use volume::Volume;
