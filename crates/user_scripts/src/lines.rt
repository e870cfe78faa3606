ghost use Rattle.std.specs.Prelude.{◌≡◌, ◌≤◌};
ghost use Rattle.user_scripts.specs.declared.lines.BadScript.TheVariants as bad;

use crate::Then;
use command_text::Command;
use std::alloc::{AllocError, AllocFailed};
use thiserror::Error;

/// Which commands a script may have.
#[derive(Clone, Copy, Debug, PartialEq, Eq)]
pub enum Commands {
    /// Those of users.
    OfUsers,
    /// These, and `flush` and `sync`.
    OfUsersAndFlushes,
    /// Those of users, and `freeze`, `snapread` and `release`.
    OfUsersAndSnapshots,
}

/// A line of a script.
#[derive(Drop)]
pub struct UserLine {
    /// The user's number, 1 to 8.
    pub user: u8,
    /// The bytes of the line, without its line feed.
    pub text: Vec<u8>,
    /// What the user asks for, with a handle or the number of a snapshot as it stands in the line.
    pub command: Command,
    /// What is asked for behind it.
    pub then: Then,
    ghost from_one: { 1 ≤ user },
    ghost to_eight: { user ≤ 8 },
}

/// Why a script is refused.
#[derive(Clone, Copy, Debug, PartialEq, Eq, Error)]
pub enum BadScript {
    /// The line of this number is the first of another form. Lines count from 1.
    #[error("script line {0}")]
    Line(usize),
    /// A growth was refused.
    #[error("no memory")]
    NoMemory,
}

impl From<AllocError> for BadScript {
    ghost from_gives = { λ _ refused. refused ≡ bad.NoMemory };

    fn from(_error: AllocError) -> BadScript {
        BadScript::NoMemory
    }
}

impl<T: Drop> From<AllocFailed<T>> for BadScript {
    ghost from_gives = { λ _ refused. refused ≡ bad.NoMemory };

    fn from(_error: AllocFailed<T>) -> BadScript {
        BadScript::NoMemory
    }
}
