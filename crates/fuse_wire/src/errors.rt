//! Why a request is refused.
ghost use Rattle.std.specs.Prelude.{◌≡◌};
ghost use Rattle.fuse_wire.specs.Refusals.{number_of};

/// Linux's number for a refusal.
#[derive(Clone, Copy, Debug, PartialEq, Eq)]
pub enum Errno {
    /// EPERM: the call is not permitted.
    NotPermitted,
    /// ENOENT: no such name.
    NotFound,
    /// EIO: the device failed.
    Device,
    /// ENOMEM: no memory.
    NoMemory,
    /// EBUSY: it is in use.
    Busy,
    /// EEXIST: the name is there already.
    Exists,
    /// EXDEV: it cannot be moved there.
    CrossDevice,
    /// ENOTDIR: no directory.
    NotDirectory,
    /// EISDIR: a directory.
    IsDirectory,
    /// EINVAL: a wrong argument.
    Invalid,
    /// ENFILE: too many open files.
    TooManyFiles,
    /// EFBIG: the file would be too long.
    TooBig,
    /// ENOSPC: no room is left.
    NoSpace,
    /// EROFS: the volume is read alone.
    ReadOnly,
    /// EMLINK: too many links.
    TooManyLinks,
    /// ENAMETOOLONG: the name is too long.
    NameTooLong,
    /// ENOSYS: the server has no such call, and the kernel need not ask again.
    NotImplemented,
    /// ENOTEMPTY: the directory has entries.
    NotEmpty,
    /// EOPNOTSUPP: the volume has no such thing.
    NotSupported,
    /// ESTALE: the node is none that the server knows.
    Stale,
}

impl Errno {
    /// The number, above 0.
    pub fn number(self) -> u32
        ensures { result ≡ number_of self }
    {
        match self {
            Errno::NotPermitted => 1,
            Errno::NotFound => 2,
            Errno::Device => 5,
            Errno::NoMemory => 12,
            Errno::Busy => 16,
            Errno::Exists => 17,
            Errno::CrossDevice => 18,
            Errno::NotDirectory => 20,
            Errno::IsDirectory => 21,
            Errno::Invalid => 22,
            Errno::TooManyFiles => 23,
            Errno::TooBig => 27,
            Errno::NoSpace => 28,
            Errno::ReadOnly => 30,
            Errno::TooManyLinks => 31,
            Errno::NameTooLong => 36,
            Errno::NotImplemented => 38,
            Errno::NotEmpty => 39,
            Errno::NotSupported => 95,
            Errno::Stale => 116,
        }
    }
}
