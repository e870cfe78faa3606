//! Reasons, in plain words.
ghost use Rattle.std.specs.Prelude.{◌≡◌};
ghost use Rattle.failures.specs.Status as spec;

use layout::Refusal;
use std::fmt;

/// Why a line was refused, where more is known than the cause.
#[derive(Clone, Copy, Debug)]
pub enum Reason {
    // The host refused a call.
    NoFile,
    FileExists,
    IsDirectory,
    NotDirectory,
    NotAllowed,
    ReadOnly,
    NoSpace,
    LongName,
    LinkLoop,
    BadArgument,
    Busy,
    InputOutput,
    /// For another reason.
    HostRefused,
    // The image is refused as a whole.
    DeviceFailed,
    NotImage,
    /// Its file has this length, and its superblock asks for that one.
    OtherLength { length: u64, wanted: u64 },
    /// Its file has this length and no superblock, and ends within a block.
    PartOfBlock(u64),
    /// Its file has this length and no superblock.
    NoSuperblock(u64),
    // A number breaks a limit.
    WorkerCount,
    GroupCount,
    BlockCount,
    InodeCount,
    /// The inodes leave no data block.
    NoDataBlock,
    // A path is none.
    NoSlash,
    LongPath,
    BadPart,
    /// A byte is written otherwise than as `%` and two digits.
    NoDigits,
}

impl fmt::Display for Reason {
    fn fmt<W: fmt::Write>(&self, f: &mut fmt::Formatter<W>) -> fmt::Result {
        match *self {
            Reason::OtherLength { length, wanted } => {
                write!(f, "{length} bytes, its superblock asks for {wanted}")
            }
            Reason::PartOfBlock(length) => write!(f, "{length} bytes, not a multiple of 1024"),
            Reason::NoSuperblock(length) => write!(f, "{length} bytes, without a superblock"),
            reason => f.write_str(reason.words()),
        }
    }
}

impl Reason {
    /// Its words; of a length, without the numbers.
    fn words(self) -> &'static str {
        match self {
            Reason::NoFile => "no such file",
            Reason::FileExists => "file exists",
            Reason::IsDirectory => "is a directory",
            Reason::NotDirectory => "not a directory",
            Reason::NotAllowed => "permission denied",
            Reason::ReadOnly => "read-only file system",
            Reason::NoSpace => "no space left",
            Reason::LongName => "file name too long",
            Reason::LinkLoop => "too many symbolic links",
            Reason::BadArgument => "invalid argument",
            Reason::Busy => "busy",
            Reason::InputOutput => "input/output error",
            Reason::HostRefused => "the host refused a call",
            Reason::DeviceFailed => "the device failed",
            Reason::NotImage => "not an image of fsvol",
            Reason::OtherLength { .. } | Reason::PartOfBlock(_) | Reason::NoSuperblock(_) => {
                "another length"
            }
            Reason::WorkerCount => "workers: 1 to 64",
            Reason::GroupCount => "groups: 1 to 64",
            Reason::BlockCount => "blocks: 8 to 4096",
            Reason::InodeCount => "inodes: 8 to 1024, a multiple of 8",
            Reason::NoDataBlock => "inodes: 1 + inodes / 8 must be below blocks",
            Reason::NoSlash => "a path begins with /",
            Reason::LongPath => "a path has at most 4096 bytes",
            Reason::BadPart => {
                "each part of a path has 1 to 56 bytes, no NUL among them, and is not . or .."
            }
            Reason::NoDigits => "% is followed by two hexadecimal digits",
        }
    }

    /// The reason that goes with a cause, whatever was asked for.
    pub(crate) fn of_refusal(refusal: Refusal) -> Option<Reason>
        ensures { result ≡ spec.reason_of refusal }
    {
        match refusal {
            Refusal::Device => Some(Reason::DeviceFailed),
            Refusal::BadSuper => Some(Reason::NotImage),
            Refusal::BadWorkers => Some(Reason::WorkerCount),
            _ => None,
        }
    }
}
