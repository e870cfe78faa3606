//! The handles and snapshots of a user.
use command_text::{Answer, Command, Reply};
use layout::Refusal;
use std::alloc::{AllocError, Global};

/// What a user's `open` and `freeze` lines were answered, so that the handle of a line and its number of a snapshot, which
/// count them, lead to the volume's.
#[derive(Drop)]
pub struct Handles {
    /// The handle that each `open` line was given; `None` where it was refused, and once the handle was closed.
    opened: Vec<Option<u32>>,
    /// The number that each `freeze` line was given; `None` where it was refused, and once the snapshot was released.
    frozen: Vec<Option<u64>>,
}

impl Handles {
    /// Before the user's first line.
    pub fn new(alloc: Global) -> Handles {
        Handles {
            opened: Vec::new(alloc),
            frozen: Vec::new(alloc),
        }
    }

    /// A line's command with the volume's handle or number of a snapshot in place of the line's. Refused with `BadHandle`
    /// where this `open` line has not come yet or was refused, or its handle was closed, and with `NoSnapshot` where that
    /// is so of the `freeze` line and its snapshot: then the volume is not asked.
    pub fn command_for(&self, command: Command) -> Result<Command, Refusal> {
        Ok(match command {
            Command::Close(handle) => Command::Close(self.opened_by(handle)?),
            Command::Read { handle, index } => Command::Read {
                handle: self.opened_by(handle)?,
                index,
            },
            Command::Write {
                handle,
                index,
                piece,
            } => Command::Write {
                handle: self.opened_by(handle)?,
                index,
                piece,
            },
            Command::Truncate { handle, size } => Command::Truncate {
                handle: self.opened_by(handle)?,
                size,
            },
            Command::SnapRead {
                snapshot,
                inode,
                index,
            } => Command::SnapRead {
                snapshot: self.frozen_by(snapshot)?,
                inode,
                index,
            },
            Command::Release(snapshot) => Command::Release(self.frozen_by(snapshot)?),
            other => other,
        })
    }

    /// Notes what the volume replied to a command of this user, in which handles and numbers are the volume's: an `open` that
    /// was carried out gives a handle, one that was refused gives none, and a `close` that was carried out closes its
    /// handle; so does a `freeze` with a snapshot, and a `release` ends it. Where memory runs out nothing is noted.
    pub fn note(&mut self, command: &Command, reply: &Reply) -> Result<(), AllocError> {
        match (command, reply) {
            (Command::Open(_), Ok(Answer::Number(handle))) => {
                self.opened.push(u32::try_from(*handle).ok())?;
            }
            (Command::Open(_), _) => self.opened.push(None)?,
            (Command::Close(handle), Ok(_)) => forget(&mut self.opened, *handle),
            (Command::Freeze, Ok(Answer::Image(number, _))) => self.frozen.push(Some(*number))?,
            (Command::Freeze, _) => self.frozen.push(None)?,
            (Command::Release(number), Ok(_)) => forget(&mut self.frozen, *number),
            _ => {}
        }
        Ok(())
    }

    /// The volume's handle that the `open` line of this number was given, if it is open.
    fn opened_by(&self, line: u32) -> Result<u32, Refusal> {
        let handle = self.opened.get(line as usize).copied().flatten();
        handle.ok_or(Refusal::BadHandle)
    }

    /// The number that the `freeze` line of this number was given, if the snapshot stands.
    fn frozen_by(&self, line: u64) -> Result<u64, Refusal> {
        let line = usize::try_from(line).map_err(|_| Refusal::NoSnapshot)?;
        let number = self.frozen.get(line).copied().flatten();
        number.ok_or(Refusal::NoSnapshot)
    }
}

/// Notes that what was given is gone.
fn forget<T: Copy + PartialEq>(given: &mut Vec<Option<T>>, gone: T) {
    for one in given.iter_mut() {
        if *one == Some(gone) {
            *one = None;
        }
    }
}
