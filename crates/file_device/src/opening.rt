//! Why a file is not opened or made as a device.
ghost use Rattle.std.specs.Prelude.{◌≡◌, None};
ghost use Rattle.layout.specs.declared.refusal.Refusal.TheVariants.{BadLength, NoMemory};
ghost use Rattle.file_device.specs.Opening.{IsOfCall};

use layout::Refusal;
use std::alloc::AllocError;
use std::io;

/// Why a file is not opened or made.
#[derive(Clone, Copy, Debug)]
pub struct OpenError {
    pub cause: Refusal,
    /// What the host answered, if it refused a call.
    pub why: Option<io::Error>,
}

impl OpenError {
    /// The host refused a call. If it had no memory, the cause is `NoMemory`; anything else is a device that failed.
    pub fn of_call(error: io::Error) -> OpenError
        ensures { IsOfCall result }
    {
        let cause = match error.kind() {
            io::ErrorKind::OutOfMemory => Refusal::NoMemory,
            _ => Refusal::Device,
        };
        OpenError {
            cause,
            why: Some(error),
        }
    }

    /// The file has the length of no device.
    pub(crate) fn of_length() -> OpenError
        ensures { result ≡ record { cause = BadLength; why = None } }
    {
        OpenError {
            cause: Refusal::BadLength,
            why: None,
        }
    }
}

impl From<AllocError> for OpenError {
    ghost from_gives = { λ error refused. (refused.cause ≡ NoMemory) × IsOfCall refused };

    fn from(_error: AllocError) -> OpenError {
        OpenError {
            cause: Refusal::NoMemory,
            why: Some(io::Error::from(io::ErrorKind::OutOfMemory)),
        }
    }
}

impl From<OpenError> for Refusal {
    ghost from_gives = { λ error refusal. refusal ≡ error.cause };

    fn from(error: OpenError) -> Refusal {
        error.cause
    }
}
