//! Copies of commands.
ghost use Rattle.std.specs.Prelude.{◌≡◌, IfOk};
ghost use Rattle.model.specs.Layout.{Geometry};
ghost use Rattle.snapshot.specs.Asked.{asked};

use snapshot::Command;
use std::alloc::{AllocError, Global};
use std::sync::Arc;

/// A command that asks for the same.
pub(crate) fn copy_of(alloc: Global, command: &Command) -> Result<Command, AllocError>
    ensures { IfOk result (λ copy. (geo : Geometry) → asked geo copy ≡ asked geo command.now) }
{
    Ok(match command {
        Command::Create { path, attributes } => Command::Create {
            path: path.to_vec(alloc)?,
            attributes: *attributes,
        },
        Command::Mkdir { path, attributes } => Command::Mkdir {
            path: path.to_vec(alloc)?,
            attributes: *attributes,
        },
        Command::Link(path, other) => Command::Link(path.to_vec(alloc)?, other.to_vec(alloc)?),
        Command::Unlink(path) => Command::Unlink(path.to_vec(alloc)?),
        Command::Rmdir(path) => Command::Rmdir(path.to_vec(alloc)?),
        Command::Rename(path, other) => {
            Command::Rename(path.to_vec(alloc)?, other.to_vec(alloc)?)
        }
        Command::Open(path) => Command::Open(path.to_vec(alloc)?),
        Command::Close(handle) => Command::Close(*handle),
        Command::Read { handle, index } => Command::Read {
            handle: *handle,
            index: *index,
        },
        Command::Write {
            handle,
            index,
            piece,
        } => Command::Write {
            handle: *handle,
            index: *index,
            piece: piece.to_vec(alloc)?,
        },
        Command::Truncate { handle, size } => Command::Truncate {
            handle: *handle,
            size: *size,
        },
        Command::SetAttributes { inode, attributes } => Command::SetAttributes {
            inode: *inode,
            attributes: *attributes,
        },
        Command::ReadAttributes(inode) => Command::ReadAttributes(*inode),
        Command::List(path) => Command::List(path.to_vec(alloc)?),
        Command::Stat(path) => Command::Stat(path.to_vec(alloc)?),
        Command::Freeze => Command::Freeze,
        Command::SnapRead {
            snapshot,
            inode,
            index,
        } => Command::SnapRead {
            snapshot: *snapshot,
            inode: *inode,
            index: *index,
        },
        Command::Release(number) => Command::Release(*number),
        Command::Install(checked) => Command::Install(Arc::try_clone(checked)?),
        Command::Repair(place) => Command::Repair(*place),
        Command::Flush(address) => Command::Flush(*address),
        Command::Sync => Command::Sync,
    })
}
