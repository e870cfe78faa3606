//! Commands and replies as tables tell them.
use layout::Refusal;
use snapshot::{Answer, Command, Reply};
use std::alloc::{AllocError, Global};

/// A command, whose bytes are constants.
#[derive(Clone, Copy)]
pub enum Asked {
    Create(&'static [u8]),
    Mkdir(&'static [u8]),
    Unlink(&'static [u8]),
    Rmdir(&'static [u8]),
    Rename(&'static [u8], &'static [u8]),
    Open(&'static [u8]),
    Close(u32),
    Read(u32, u32),
    Write(u32, u32, &'static [u8]),
    Stat(&'static [u8]),
    Repair(u32),
    Freeze,
    SnapRead(u64, u32, u32),
    Release(u64),
    Sync,
}

/// The command that is asked.
pub fn command_of(alloc: Global, asked: Asked) -> Result<Command, AllocError> {
    match asked {
        Asked::Close(handle) => Ok(Command::Close(handle)),
        Asked::Read(handle, index) => Ok(Command::Read { handle, index }),
        Asked::Write(handle, index, piece) => written(alloc, handle, index, piece),
        Asked::Rename(from, to) => renamed(alloc, from, to),
        Asked::Repair(place) => Ok(Command::Repair(place)),
        Asked::Freeze => Ok(Command::Freeze),
        Asked::SnapRead(snapshot, inode, index) => Ok(Command::SnapRead {
            snapshot,
            inode,
            index,
        }),
        Asked::Release(number) => Ok(Command::Release(number)),
        Asked::Sync => Ok(Command::Sync),
        Asked::Create(path) => Ok(Command::create(path.to_vec(alloc)?)),
        Asked::Mkdir(path) => Ok(Command::mkdir(path.to_vec(alloc)?)),
        Asked::Unlink(path) => Ok(Command::Unlink(path.to_vec(alloc)?)),
        Asked::Rmdir(path) => Ok(Command::Rmdir(path.to_vec(alloc)?)),
        Asked::Open(path) => Ok(Command::Open(path.to_vec(alloc)?)),
        Asked::Stat(path) => Ok(Command::Stat(path.to_vec(alloc)?)),
    }
}

/// A piece is written.
fn written(alloc: Global, handle: u32, index: u32, piece: &[u8]) -> Result<Command, AllocError> {
    let piece = piece.to_vec(alloc)?;
    Ok(Command::Write {
        handle,
        index,
        piece,
    })
}

/// An entry gets another name.
fn renamed(alloc: Global, from: &[u8], to: &[u8]) -> Result<Command, AllocError> {
    let from = from.to_vec(alloc)?;
    Ok(Command::Rename(from, to.to_vec(alloc)?))
}

/// The commands that are asked, in their order.
pub fn commands_of(alloc: Global, asked: &[Asked]) -> Result<Vec<Command>, AllocError> {
    let mut commands = Vec::new(alloc);
    for asked in asked {
        commands.push(command_of(alloc, *asked)?)?;
    }
    Ok(commands)
}

/// What is expected of a reply.
#[derive(Clone, Copy, Debug)]
pub enum Wanted {
    /// There is nothing to tell.
    Done,
    /// A number.
    Number(u64),
    /// A snapshot of this number.
    Snapshot(u64),
    /// These bytes.
    Bytes(&'static [u8]),
    /// A file with so many links.
    Links(u16),
    /// This refusal.
    Refused(Refusal),
}

/// Whether a reply is as expected.
pub fn is_as(reply: Option<&Reply>, wanted: Wanted) -> bool {
    match (reply, wanted) {
        (Some(Ok(Answer::Done)), Wanted::Done) => true,
        (Some(Ok(Answer::Number(number))), Wanted::Number(wanted)) => *number == wanted,
        (Some(Ok(Answer::Image(number, _))), Wanted::Snapshot(wanted)) => *number == wanted,
        (Some(Ok(Answer::Bytes(bytes))), Wanted::Bytes(wanted)) => bytes.as_slice() == wanted,
        (Some(Ok(Answer::Status(status))), Wanted::Links(wanted)) => status.links == wanted,
        (Some(Err(refusal)), Wanted::Refused(wanted)) => *refusal == wanted,
        _ => false,
    }
}
