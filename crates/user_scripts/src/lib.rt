//! The scripts of a volume's users. Each line is `USER COMMAND ARGS` and a line feed, its parts parted by one blank: the
//! user's number, 1 to 8, and a command as `command_text` reads it. A handle counts the user's own `open` lines, from 0, and
//! the number of a snapshot the user's own `freeze` lines. The commands are `create`, `mkdir`, `link`, `unlink`, `rmdir`,
//! `rename`, `open`, `close`, `read`, `write`, `truncate`, `list` and `stat`; `attr PATH DIGITS`, by which the inode of a
//! path gets attributes, and `attrs PATH`, which shows them, each with the reply of `stat` where that is no inode; and in
//! some scripts `flush` and `sync`, or `freeze`, `snapread` and `release`.
#![tactic(auto)]

mod handles;
mod lines;
mod scripts;
mod then;

pub use handles::Handles;
pub use lines::{BadScript, Commands, UserLine};
pub use scripts::{MOST_USERS, parse};
pub use then::Then;
