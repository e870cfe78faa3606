//! Requests, as the kernel sends them.
ghost use Rattle.std.specs.Prelude.{◌≡◌, ◌<◌, ◌↔◌, IsTrue, Some, length, slice_get};
ghost use Rattle.fuse_wire.specs.Forgets.{forgets_of};

use crate::fields::long_at;
use crate::numbers::{Handle, NodeId, Time, Unique};

/// What stands before the fields of each request.
#[derive(Clone, Copy, Debug, PartialEq, Eq)]
pub struct Head {
    pub unique: Unique,
    /// The inode that the request is about. The first request and the last are about none.
    pub node: NodeId,
    /// Whose process asks, and the group in which it makes what is new.
    pub user: u32,
    pub group: u32,
    pub process: u32,
}

/// What the kernel offers in the first request.
#[derive(Clone, Copy, Debug, PartialEq, Eq)]
pub struct Offer {
    pub major: u32,
    pub minor: u32,
    /// The most bytes that it reads before they are asked for.
    pub readahead: u32,
    pub flags: u32,
}

/// A time that is to be set.
#[derive(Clone, Copy, Debug, PartialEq, Eq)]
pub enum Moment {
    Now,
    At(Time),
}

/// Which attributes are to be set. The others stay.
#[derive(Clone, Copy, Debug, PartialEq, Eq)]
pub struct Changes {
    /// The open file through which they are set.
    pub handle: Option<Handle>,
    pub size: Option<u64>,
    pub mode: Option<u32>,
    pub user: Option<u32>,
    pub group: Option<u32>,
    pub accessed: Option<Moment>,
    pub modified: Option<Moment>,
    pub changed: Option<Time>,
}

/// A node that the kernel forgets, and how many lookups of it.
#[derive(Clone, Copy, Debug, PartialEq, Eq)]
pub struct Forget {
    pub node: NodeId,
    pub lookups: u64,
}

/// The nodes that one request forgets.
#[derive(Clone, Copy, Debug, PartialEq, Eq)]
pub struct Forgets<'a> {
    pub(crate) bytes: &'a [u8],
}

impl Forgets<'_> {
    /// How many there are.
    pub fn len(&self) -> usize
        ensures { result ≡ length (forgets_of self.now) }
    {
        self.bytes.len() / 16
    }

    /// Whether there is none.
    pub fn is_empty(&self) -> bool
        ensures { IsTrue result ↔ (length (forgets_of self.now) ≡ 0) }
    {
        self.len() == 0
    }

    /// That of this place.
    pub fn get(&self, place: usize) -> Forget
        requires { place < length (forgets_of self.now) }
        ensures { slice_get (forgets_of self.now) place ≡ Some result }
    {
        Forget {
            node: NodeId(long_at(self.bytes, 16 * place)),
            lookups: long_at(self.bytes, 16 * place + 8),
        }
    }
}

/// What is asked for. Names have no byte 0, and may be empty.
#[derive(Clone, Copy, Debug, PartialEq, Eq)]
pub enum Request<'a> {
    /// The first request: which version the kernel speaks, and what it can do.
    Init(Offer),
    /// What a name in a directory leads to.
    Lookup {
        name: &'a [u8],
    },
    /// The kernel forgets lookups of the node. No reply.
    Forget {
        lookups: u64,
    },
    /// The same for many nodes. No reply.
    BatchForget(Forgets<'a>),
    /// The attributes of a node.
    GetAttributes {
        handle: Option<Handle>,
    },
    SetAttributes(Changes),
    /// The target of a symbolic link.
    ReadSymbolicLink,
    /// A new symbolic link, with its target.
    MakeSymbolicLink {
        name: &'a [u8],
        target: &'a [u8],
    },
    /// A new file, or a node of another kind. The umask is taken from the mode already.
    MakeNode {
        mode: u32,
        device: u32,
        umask: u32,
        name: &'a [u8],
    },
    MakeDirectory {
        mode: u32,
        umask: u32,
        name: &'a [u8],
    },
    Unlink {
        name: &'a [u8],
    },
    RemoveDirectory {
        name: &'a [u8],
    },
    /// A name of the head's node gets another name in a directory.
    Rename {
        directory: NodeId,
        flags: u32,
        old: &'a [u8],
        new: &'a [u8],
    },
    /// Another name, in the head's node, of this node.
    Link {
        node: NodeId,
        name: &'a [u8],
    },
    Open {
        flags: u32,
    },
    Read {
        handle: Handle,
        offset: u64,
        size: u32,
    },
    Write {
        handle: Handle,
        offset: u64,
        bytes: &'a [u8],
    },
    /// How much room the volume has.
    Statistics,
    /// The open file is used no more. The kernel does not wait for the reply.
    Release {
        handle: Handle,
    },
    Sync {
        handle: Handle,
        data_only: bool,
    },
    /// A descriptor of the open file was closed.
    Flush {
        handle: Handle,
    },
    OpenDirectory {
        flags: u32,
    },
    ReadDirectory {
        handle: Handle,
        offset: u64,
        size: u32,
    },
    /// A listing that also tells what each name leads to.
    ReadDirectoryPlus {
        handle: Handle,
        offset: u64,
        size: u32,
    },
    ReleaseDirectory {
        handle: Handle,
    },
    SyncDirectory {
        handle: Handle,
        data_only: bool,
    },
    /// A new file, which is opened.
    Create {
        flags: u32,
        mode: u32,
        umask: u32,
        name: &'a [u8],
    },
    /// The call of this request was interrupted. No reply is needed.
    Interrupt {
        unique: Unique,
    },
    /// The volume is unmounted. The kernel waits for the reply.
    Destroy,
    SyncVolume,
    /// Room for so many bytes of an open file from this place on.
    Allocate {
        handle: Handle,
        offset: u64,
        bytes: u64,
        mode: u32,
    },
    /// A request of another kind.
    Other {
        opcode: u32,
    },
}
