//! Whose the files of a volume are of which no owner is kept.
use command_line::Failure;
use file_device::OpenError;
use fuse_reader::Owner;
use fuse_wire::Time;
use std::alloc::Global;
use std::fs;
use std::os::unix::fs::MetadataExt;
use std::rt::Files;

/// A user and a group, by their numbers.
#[derive(Clone, Copy, Debug, PartialEq, Eq)]
pub struct Numbers {
    pub user: u32,
    pub group: u32,
}

/// The numbers that `--owner` gives. It is refused with a text if they are not two with a colon between them.
pub(crate) fn numbers_given(alloc: Global, word: &str) -> Result<Numbers, Failure> {
    match numbers_of(word) {
        Some(numbers) => Ok(numbers),
        None => Err(Failure::Line(format!(in alloc;
            "error: invalid value '{word}' for '--owner <USER:GROUP>': two numbers, as 1000:1000\n"
        )?)),
    }
}

/// The numbers that a word gives.
pub fn numbers_of(word: &str) -> Option<Numbers> {
    let (user, group) = word.split_once(':')?;
    Some(Numbers {
        user: user.parse().ok()?,
        group: group.parse().ok()?,
    })
}

/// The owner of files of which none is kept: the one whose numbers are given, and else that of the image's file. They were changed when
/// it was.
pub(crate) fn owner_of<R: Files>(
    rt: &R,
    image: &str,
    given: Option<Numbers>,
) -> Result<Owner, Failure> {
    match fs::metadata(rt, image) {
        Ok(metadata) => {
            let Numbers { user, group } = given.unwrap_or(Numbers {
                user: metadata.uid(),
                group: metadata.gid(),
            });
            Ok(Owner {
                user,
                group,
                changed: Time {
                    seconds: metadata.mtime().cast_unsigned(),
                    nanoseconds: u32::try_from(metadata.mtime_nsec()).unwrap_or(0),
                },
            })
        }
        Err(error) => Err(Failure::from(OpenError::of_call(error))),
    }
}
