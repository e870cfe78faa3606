//! The sentences of the story, and the scripts in it.

/// Before the verdict of a fresh volume.
pub(crate) const FRESH: &str =
    "The demo makes a volume in memory: one group with 16 blocks of 1,024 bytes and\n16 inodes. A check of the fresh volume gives this verdict:\n";

/// Before the script that is stopped.
pub(crate) const SCRIPT_GIVEN: &str =
    "User 1 runs this script on it. Each line has the number of its user and a\ncommand; `sync` writes all that the lines before it changed.\n";

/// The script that is stopped. When it has ended all is written.
pub(crate) const SCRIPT: &str =
    "1 mkdir /old\n1 create /old/a\n1 create /old/b\n1 sync\n1 mkdir /new\n1 create /new/c\n1 open /new/c\n1 write 0 0 hello\n";

/// The number of writes after which it is stopped, as `STOPPED` says.
pub(crate) const STOP: usize = 9;

/// Before the report of what this stop leaves.
pub(crate) const STOPPED: &str =
    "This is a check of the image that the device held after write 9, as if the\nprogram had been stopped there. A soft verdict means leaks alone: blocks, inodes\nor links that are counted and not used.\n";

/// Before the script of two users.
pub(crate) const USERS_GIVEN: &str =
    "Two users run this script on that image, each in a thread of its own:\n";

/// The script of two users. No answer depends on which of them comes first: user 1 alone opens a file, and user 2 names others.
pub(crate) const USERS_SCRIPT: &str =
    "1 open /old/a\n1 write 0 0 hello\n1 read 0 0\n1 close 0\n2 rename /old/b /old/d\n2 list /old\n2 stat /old/d\n";

/// How many workers check, as `ANSWERED` says.
pub(crate) const WORKERS: usize = 2;

/// Before the answers of the users, the report and the repairs.
pub(crate) const ANSWERED: &str =
    "Meanwhile the program freezes the volume, checks the snapshot with 2 workers and\nrepairs its leaks. It prints the answers, the report and the repairs:\n";

/// Before the verdict of the image that was repaired.
pub(crate) const REPAIRED: &str = "A check of the image after that gives this verdict:\n";

/// Before the stops of the first script.
pub(crate) const STOPS: &str =
    "The first script runs once more on a fresh volume. This table shows what a check\nfinds if the program is stopped after that number of writes:\n";

/// After stops of which none leaves damage.
pub(crate) const LEAKS_ALONE: &str =
    "A stop after any of these writes leaves a clean image or leaks, and no damage.\n";

/// After stops of which one leaves damage.
pub(crate) const DAMAGE: &str = "A stop after one of these writes leaves damage.\n";

/// At the end.
pub(crate) const HELP: &str = "`fsvol --help` lists the subcommands.\n";
