//! What a volume is asked for.
ghost use Rattle.std.specs.Prelude.{◌≡◌};
ghost use Rattle.machine.specs.Command.{no_attributes};
ghost use Rattle.snapshot.specs.declared.command.Command.TheVariants.{Create, Mkdir};

use fsck::Checked;
use inode::ATTRIBUTES;
use std::sync::Arc;

/// The attributes of what is made without any.
pub const NO_ATTRIBUTES: [u32; ATTRIBUTES] = [0; ATTRIBUTES];

/// A command to a volume. Paths and names are bytes, in no encoding.
#[derive(Drop)]
pub enum Command {
    /// A file without bytes, with these attributes; its answer is the file's number.
    Create {
        path: Vec<u8>,
        attributes: [u32; ATTRIBUTES],
    },
    /// An empty directory, with these attributes; its answer is the directory's number.
    Mkdir {
        path: Vec<u8>,
        attributes: [u32; ATTRIBUTES],
    },
    /// The file of the first path gets the second one as another name.
    Link(Vec<u8>, Vec<u8>),
    /// A name is taken from a file.
    Unlink(Vec<u8>),
    /// An empty directory goes.
    Rmdir(Vec<u8>),
    /// The entry of the first path gets the second one as its name.
    Rename(Vec<u8>, Vec<u8>),
    /// A handle is opened on a file; it is the answer.
    Open(Vec<u8>),
    /// A handle is closed.
    Close(u32),
    /// The bytes that the file of a handle has in its block of this index.
    Read {
        handle: u32,
        index: u32,
    },
    /// The block of this index begins with these bytes, 1 to 1,024.
    Write {
        handle: u32,
        index: u32,
        piece: Vec<u8>,
    },
    /// The file of a handle has this size in bytes, which is no larger than its own.
    Truncate {
        handle: u32,
        size: u32,
    },
    /// The inode of this number gets these attributes, 16 numbers that the volume keeps for its users.
    SetAttributes {
        inode: u32,
        attributes: [u32; ATTRIBUTES],
    },
    /// The attributes that the inode of this number has.
    ReadAttributes(u32),
    /// The names in a directory.
    List(Vec<u8>),
    /// What a path leads to.
    Stat(Vec<u8>),
    /// A snapshot begins; the answer is its number and its metadata.
    Freeze,
    /// The bytes that a file had in its block of this index when the snapshot of this number began.
    SnapRead {
        snapshot: u64,
        inode: u32,
        index: u32,
    },
    /// The snapshot of this number ends.
    Release(u64),
    /// The repairs of a check of the snapshot of the latest freeze are to be carried out.
    Install(Arc<Checked>),
    /// The repair of this place in the list of the check is carried out.
    Repair(u32),
    /// What is pending of the block of this address goes to the device, as far as it may; the answer counts the updates.
    Flush(u32),
    /// All that is pending goes to the device.
    Sync,
}

impl Command {
    /// A file without bytes and without attributes.
    pub fn create(path: Vec<u8>) -> Command
        ensures { result ≡ Create path no_attributes }
    {
        let attributes = NO_ATTRIBUTES;
        Command::Create { path, attributes }
    }

    /// An empty directory without attributes.
    pub fn mkdir(path: Vec<u8>) -> Command
        ensures { result ≡ Mkdir path no_attributes }
    {
        let attributes = NO_ATTRIBUTES;
        Command::Mkdir { path, attributes }
    }
}
