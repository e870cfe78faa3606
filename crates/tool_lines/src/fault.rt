//! Which path a command on a file's image was refused for.
use command_line::Failure;
use device::Device;
use file_device::FileDevice;
use frozen::load;
use layout::Refusal;
use reading::stat;
use snapshot::Command;
use std::alloc::Global;
use std::marker::Brand;
use std::os::unix::fs::FileExt;
use std::rt::Files;

/// A command on a file's image was refused for this cause. Told is the file where that is the image's, and else the path.
pub(crate) fn refusal_of<R: Files + AllocGlobal>(
    rt: &R,
    image: &str,
    command: Option<&Command>,
    cause: Refusal,
) -> Failure
where
    R::File: FileExt,
{
    let failure = Failure::from(cause).on_image(rt, image);
    match command {
        Some(Command::Mkdir { path, .. } | Command::Unlink(path) | Command::Rmdir(path)) => {
            failure.on_path(rt.alloc(), path)
        }
        Some(Command::Rename(old, new) | Command::Link(old, new)) => {
            failure.on_path(rt.alloc(), path_at_fault(rt, image, old, new, cause))
        }
        _ => failure,
    }
}

/// Which path a file or directory does not get its new name for.
fn path_at_fault<'a, R: Files + AllocGlobal>(
    rt: &R,
    image: &str,
    old: &'a [u8],
    new: &'a [u8],
    cause: Refusal,
) -> &'a [u8]
where
    R::File: FileExt,
{
    let is_old = match is_directory_in_file(rt, image, old) {
        Ok(is_directory) => is_of_kind(is_directory, cause),
        // It leads nowhere.
        Err(_) => true,
    };
    if is_old { old } else { new }
}

/// Whether a file or directory is refused a new name for what it is.
fn is_of_kind(is_directory: bool, cause: Refusal) -> bool {
    match cause {
        Refusal::TooManyLinks => true,
        Refusal::IsDirectory | Refusal::IsRoot => is_directory,
        _ => false,
    }
}

/// Whether a path in a file's image leads to a directory. Refused where it leads nowhere.
fn is_directory_in_file<R: Files + AllocGlobal>(
    rt: &R,
    image: &str,
    path: &[u8],
) -> Result<bool, Refusal>
where
    R::File: FileExt,
{
    let mut device: FileDevice<R::File, Brand> = FileDevice::open(rt, image)?;
    is_directory(rt.alloc(), &mut device, path)
}

/// Whether a path in a device's image leads to a directory.
fn is_directory<D: Device>(alloc: Global, device: &mut D, path: &[u8]) -> Result<bool, Refusal> {
    let frozen = load(alloc, device)?;
    let found = stat(&frozen, path)?;
    Ok(frozen.is_directory_at(found.number))
}
