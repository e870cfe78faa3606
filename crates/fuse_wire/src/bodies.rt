//! What replies say.

use crate::numbers::{Handle, NodeId, Time};

/// What the server agrees to in the reply to the first request.
#[derive(Clone, Copy, Debug, PartialEq, Eq)]
pub struct Agreement {
    pub major: u32,
    pub minor: u32,
    /// The most bytes that the kernel reads before they are asked for.
    pub readahead: u32,
    pub flags: u32,
    /// How many requests for which no call waits may come at once.
    pub background: u16,
    /// From how many of them on the kernel holds back.
    pub congestion: u16,
    /// The most bytes of one write.
    pub most_written: u32,
    /// How many nanoseconds the times that are kept are apart.
    pub time_step: u32,
    /// The most pages of one request.
    pub pages: u16,
}

/// The attributes of a node.
#[derive(Clone, Copy, Debug, PartialEq, Eq)]
pub struct Attributes {
    /// The number that users see.
    pub inode: u64,
    pub size: u64,
    /// How many pieces of 512 bytes its contents take.
    pub blocks: u64,
    pub accessed: Time,
    pub modified: Time,
    pub changed: Time,
    /// Its kind and who may use it.
    pub mode: u32,
    pub links: u32,
    pub user: u32,
    pub group: u32,
    /// The number of a device, if it is one.
    pub device: u32,
    /// How many bytes are best read at once.
    pub block_bytes: u32,
}

/// What a name leads to.
#[derive(Clone, Copy, Debug, PartialEq, Eq)]
pub struct Entry {
    pub node: NodeId,
    /// A node's number and its generation together never name two inodes.
    pub generation: u64,
    /// How long the kernel may keep the name.
    pub name_kept: Time,
    /// How long the kernel may keep the attributes.
    pub attributes_kept: Time,
    pub attributes: Attributes,
}

/// An open file or directory.
#[derive(Clone, Copy, Debug, PartialEq, Eq)]
pub struct Opened {
    pub handle: Handle,
    pub flags: u32,
}

/// How much room the volume has.
#[derive(Clone, Copy, Debug, PartialEq, Eq)]
pub struct Statistics {
    pub blocks: u64,
    pub free_blocks: u64,
    /// How many blocks are free to users that have no special rights.
    pub available_blocks: u64,
    pub inodes: u64,
    pub free_inodes: u64,
    pub block_bytes: u32,
    pub name_bytes: u32,
}

/// What stands behind the head of a reply to a call that was done.
#[derive(Clone, Copy, Debug, PartialEq, Eq)]
pub enum Body<'a> {
    Empty,
    Agreement(Agreement),
    Entry(Entry),
    /// There is no such name, which the kernel may keep so long.
    Absent { kept: Time },
    /// Attributes, which the kernel may keep so long.
    Attributes { kept: Time, attributes: Attributes },
    Opened(Opened),
    /// A new file, which is open.
    Created(Entry, Opened),
    /// What was read, or a listing.
    Bytes(&'a [u8]),
    /// How many bytes were written.
    Written(u32),
    Statistics(Statistics),
}
