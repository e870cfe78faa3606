//! What volumes are tried with that break at every place: images, lists of commands with their answers, a device that counts
//! its calls, and a look at what a stop leaves, and a loss of power.
#![tactic(auto)]

mod beginning;
mod carrying;
mod files;
mod images;
mod long_rows;
mod power_cuts;
mod rows;
mod seen;
mod stays;
mod stops;
mod trial;
mod watched;

pub use beginning::beginning_of;
pub use carrying::{Told, carry_out, write_told};
pub use files::Files;
pub use images::{Put, bytes_of, mount};
pub use long_rows::{FULL, FULL_OF_ONE_FILE, PAST_268_BLOCKS, PAST_524_BLOCKS, UNDER_A_SNAPSHOT};
pub use power_cuts::{PowerCuts, is_loose, is_synced, power_cuts_of, power_cuts_of_steps};
pub use rows::{
    COUNT_TOO_HIGH, FOUR_SNAPSHOTS, INTO_NEW_DIRECTORY, LOST_FILE, NUMBER_OF_ANOTHER, SECOND_BLOCK,
    TWO_USERS, UNLINKED_AND_OPEN,
};
pub use seen::Seen;
pub use stays::Stays;
pub use stops::{Fault, Looked, fault_of, look_at};
pub use trial::{Action, Step, Trial, behind_name, is_asked, steps_in, steps_of};
pub use watched::Watched;
