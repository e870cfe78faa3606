//! What a reply of the volume is to Linux.
ghost use Rattle.std.specs.Prelude.{◌≡◌, is_ok};
ghost use Rattle.fuse_writer.specs.Doings.{IsBytes, IsDone, IsSettled};
ghost use Rattle.fuse_writer.specs.Replied.{errno_of, number_in};

use fuse_wire::Errno;
use layout::Refusal;
use snapshot::{Answer, Reply};

/// Linux's number for why a command was refused. What no request can lead to, since the desk asks for nothing of that kind, counts
/// as a failure of the device.
pub(crate) fn errno_of(refusal: Refusal) -> Errno
    ensures { result ≡ errno_of refusal }
{
    match refusal {
        Refusal::NoMemory => Errno::NoMemory,
        Refusal::NotFound => Errno::NotFound,
        Refusal::Exists => Errno::Exists,
        Refusal::NotDirectory => Errno::NotDirectory,
        Refusal::IsDirectory => Errno::IsDirectory,
        Refusal::NotEmpty => Errno::NotEmpty,
        Refusal::BadName => Errno::Invalid,
        Refusal::NoInode | Refusal::NoBlock => Errno::NoSpace,
        Refusal::TooManyLinks => Errno::TooManyLinks,
        Refusal::TooBig => Errno::TooBig,
        Refusal::TooManyOpen => Errno::TooManyFiles,
        Refusal::IsRoot => Errno::Busy,
        _ => Errno::Device,
    }
}

/// Whether a command was carried out of which there is nothing to tell.
pub(crate) fn done_in(reply: Reply) -> Result<(), Errno>
    ensures done { IsDone result reply }
    ensures ok { is_ok result ≡ is_ok reply }
{
    match reply {
        Ok(_) => Ok(()),
        Err(refusal) => Err(errno_of(refusal)),
    }
}

/// Whether an inode got its attributes, or is gone.
pub(crate) fn settled_in(reply: Reply) -> Result<(), Errno>
    ensures { IsSettled result reply }
{
    match reply {
        Ok(_) | Err(Refusal::NotFound) => Ok(()),
        Err(refusal) => Err(errno_of(refusal)),
    }
}

/// The number of 32 bits, as each number of an inode and each handle is, that a command was answered.
pub(crate) fn number_in(reply: Reply) -> Result<u32, Errno>
    ensures { result ≡ number_in reply }
{
    match reply {
        Ok(Answer::Number(number)) if number <= u64::from(u32::MAX) => Ok(number as u32),
        Ok(_) => Err(Errno::Device),
        Err(refusal) => Err(errno_of(refusal)),
    }
}

/// The bytes that a command was answered.
pub(crate) fn bytes_in(reply: Reply) -> Result<Vec<u8>, Errno>
    ensures { IsBytes (λ bytes. bytes.items) result reply }
{
    match reply {
        Ok(Answer::Bytes(bytes)) => Ok(bytes),
        Ok(_) => Err(Errno::Device),
        Err(refusal) => Err(errno_of(refusal)),
    }
}
