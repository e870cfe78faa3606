//! Numbers that stand for something.

/// The number by which the kernel knows an inode of the mount. That of the root is 1.
#[derive(Clone, Copy, Debug, PartialEq, Eq, PartialOrd, Ord)]
pub struct NodeId(pub u64);

impl NodeId {
    /// The directory that is mounted.
    pub const ROOT: NodeId = NodeId(1);
}

/// The number by which a reply names its request.
#[derive(Clone, Copy, Debug, PartialEq, Eq)]
pub struct Unique(pub u64);

/// The number by which the server knows an open file or directory.
#[derive(Clone, Copy, Debug, PartialEq, Eq, PartialOrd, Ord)]
pub struct Handle(pub u64);

/// A time since the start of 1970, or how long something holds. Seconds before 1970 are two's complement in 64 bits.
#[derive(Clone, Copy, Debug, PartialEq, Eq)]
pub struct Time {
    pub seconds: u64,
    pub nanoseconds: u32,
}
