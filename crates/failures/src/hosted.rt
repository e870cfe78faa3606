//! What the host refused.
ghost use Rattle.std.specs.Prelude.{◌≡◌, Some};
ghost use Rattle.failures.specs.Status as spec;

use crate::failure::Failure;
use crate::reason::Reason;
use file_device::OpenError;
use layout::Refusal;
use std::alloc::Global;
use std::io;

/// The number by which the system tells that a device failed, which is of no kind.
const INPUT_OUTPUT: i32 = 5;

impl From<OpenError> for Failure {
    ghost from_gives = { λ error failed. spec.cause_of failed ≡ Some error.cause };

    fn from(error: OpenError) -> Failure {
        let OpenError { cause, why } = error;
        Failure::Refused {
            cause,
            place: None,
            reason: match why {
                Some(why) => Reason::of_call(&why),
                None => None,
            },
            steps: None,
        }
    }
}

impl Failure {
    /// The host refused a call about this path.
    pub fn of_call(alloc: Global, error: &io::Error, path: &str) -> Failure {
        let refused = Failure::Refused {
            cause: cause_of(error.kind()),
            place: None,
            reason: Reason::of_call(error),
            steps: None,
        };
        refused.at(alloc, path)
    }
}

/// The cause where the host refused a call for this.
fn cause_of(kind: io::ErrorKind) -> Refusal {
    match kind {
        io::ErrorKind::OutOfMemory => Refusal::NoMemory,
        io::ErrorKind::InvalidFilename => Refusal::BadName,
        io::ErrorKind::AlreadyExists => Refusal::Exists,
        io::ErrorKind::NotFound => Refusal::NotFound,
        _ => Refusal::Device,
    }
}

impl Reason {
    /// Why the host refused a call. Of want of memory there is no more to tell.
    fn of_call(error: &io::Error) -> Option<Reason> {
        if error.raw_os_error() == Some(INPUT_OUTPUT) {
            return Some(Reason::InputOutput);
        }
        match error.kind() {
            io::ErrorKind::OutOfMemory => None,
            kind => Some(Reason::of_kind(kind)),
        }
    }

    /// Why the host refused a call, unless it had no memory.
    fn of_kind(kind: io::ErrorKind) -> Reason {
        match kind {
            io::ErrorKind::NotFound => Reason::NoFile,
            io::ErrorKind::AlreadyExists => Reason::FileExists,
            io::ErrorKind::IsADirectory => Reason::IsDirectory,
            io::ErrorKind::NotADirectory => Reason::NotDirectory,
            io::ErrorKind::PermissionDenied => Reason::NotAllowed,
            io::ErrorKind::ReadOnlyFilesystem => Reason::ReadOnly,
            io::ErrorKind::StorageFull | io::ErrorKind::QuotaExceeded => Reason::NoSpace,
            io::ErrorKind::InvalidFilename => Reason::LongName,
            io::ErrorKind::FilesystemLoop => Reason::LinkLoop,
            io::ErrorKind::InvalidInput => Reason::BadArgument,
            io::ErrorKind::ResourceBusy | io::ErrorKind::ExecutableFileBusy => Reason::Busy,
            _ => Reason::HostRefused,
        }
    }
}
