//! How a file, a symbolic link or a directory is made on the host, and given rights, an owner and times.
use crate::getting::{Contents, HOST_PATH_BYTES};
use attributes::{Attributes, Time, kind_of};
use std::fs::{DirBuilder, File, FileTimes, OpenFile, OpenOptions, Permissions};
use std::os::unix::fs::{DirBuilderExt, FileExt, OpenOptionsExt, PermissionsExt, lchown, symlink};
use std::rt::Files;
use std::str::from_utf8;
use std::time::{Duration, SystemTime, UNIX_EPOCH};
use std::{fs, io};

/// The kinds of what is made here, as Linux has them in the upper four bits of a mode.
const FILE: u16 = 8;

const SYMBOLIC_LINK: u16 = 10;

/// How many values the bits of a mode have that say who may use an inode.
const RIGHTS: u16 = 4096;

/// How many values they have without those by which a program runs as its owner or its group.
const PLAIN_RIGHTS: u16 = 1024;

/// Who may use what has attributes, until it gets its rights: a file and a directory.
const PRIVATE_FILE: u32 = 0o600;

const PRIVATE_FOLDER: u32 = 0o700;

/// What says in the host's calls that an owner stays as it is.
const SAME: u32 = u32::MAX;

/// The most nanoseconds that a time has beside its seconds.
const NANOSECONDS: u32 = 999_999_999;

/// Whether the host can have what is made of this: a file, or a link to a path of it. No call here makes others.
pub(crate) fn is_possible(contents: &Contents) -> bool {
    match kind_in(contents) {
        FILE => true,
        SYMBOLIC_LINK => target_in(contents.bytes.as_slice()).is_some(),
        _ => false,
    }
}

/// The kind of a file; a plain one where no attributes were kept.
fn kind_in(contents: &Contents) -> u16 {
    match contents.attributes {
        Some(attributes) => kind_of(false, attributes.mode),
        None => FILE,
    }
}

/// The target of a link, if it is a path that the host can have.
fn target_in(bytes: &[u8]) -> Option<&str> {
    if bytes.is_empty() || bytes.len() > HOST_PATH_BYTES || bytes.contains(&0) {
        return None;
    }
    from_utf8(bytes).ok()
}

/// Makes a file, or a symbolic link, where nothing stands.
pub(crate) fn make<R: Files>(rt: &R, host: &str, contents: &Contents) -> io::Result<()>
where
    R::File: FileExt,
{
    let bytes = contents.bytes.as_slice();
    let Some(attributes) = contents.attributes else {
        return File::create_new(rt, host)?.write_all_at(bytes, 0);
    };
    if kind_of(false, attributes.mode) == SYMBOLIC_LINK {
        return make_link(rt, host, bytes, &attributes);
    }
    let file = create_private(rt, host)?;
    file.write_all_at(bytes, 0)?;
    give(rt, &file, host, &attributes)
}

/// Makes a symbolic link, and gives it its owner, if the host allows that. It has no rights, and no call here sets its times.
fn make_link<R: Files>(
    rt: &R,
    host: &str,
    bytes: &[u8],
    attributes: &Attributes,
) -> io::Result<()> {
    let Some(target) = target_in(bytes) else {
        return Err(io::Error::from(io::ErrorKind::InvalidFilename));
    };
    symlink(rt, target, host)?;
    give_owner(rt, host, attributes);
    Ok(())
}

/// Makes a file that nobody else may use yet.
fn create_private<R: Files>(rt: &R, host: &str) -> io::Result<R::File> {
    let mut how = OpenOptions::new();
    how.write(true).create_new(true).mode(PRIVATE_FILE);
    how.open(rt, host)
}

/// Makes a directory, which nobody else may use yet if it is private.
pub(crate) fn make_folder<R: Files>(rt: &R, host: &str, is_private: bool) -> io::Result<()> {
    if !is_private {
        return fs::create_dir(rt, host);
    }
    let mut how = DirBuilder::new();
    how.mode(PRIVATE_FOLDER);
    how.create(rt, host)
}

/// Gives a directory its attributes.
pub(crate) fn settle<R: Files>(rt: &R, host: &str, attributes: &Attributes) -> io::Result<()> {
    let folder = fs::open(rt, host)?;
    give(rt, &folder, host, attributes)
}

/// Gives what is open, and stands at a path, its owner, if the host allows that, then its rights, which a change of the owner may
/// take away, and then its times. With another owner no program is to run as that one.
fn give<R: Files>(rt: &R, file: &R::File, host: &str, attributes: &Attributes) -> io::Result<()> {
    let rights = if give_owner(rt, host, attributes) {
        attributes.mode % RIGHTS
    } else {
        attributes.mode % PLAIN_RIGHTS
    };
    file.set_permissions(Permissions::from_mode(u32::from(rights)))?;
    file.set_times(times_of(attributes))
}

/// Gives what stands at a path its owner and its group, and tells whether it has them.
fn give_owner<R: Files>(rt: &R, host: &str, attributes: &Attributes) -> bool {
    let Attributes { user, group, .. } = *attributes;
    user != SAME && group != SAME && lchown(rt, host, Some(user), Some(group)).is_ok()
}

/// The times that a file or a directory gets.
fn times_of(attributes: &Attributes) -> FileTimes {
    FileTimes::new()
        .set_accessed(time_of(attributes.accessed))
        .set_modified(time_of(attributes.modified))
}

/// A time of the host; the start of 1970 for one before it, which the host's calls here do not take.
fn time_of(time: Time) -> SystemTime {
    if time.seconds.cast_signed() < 0 {
        return UNIX_EPOCH;
    }
    let nanoseconds = u64::from(time.nanoseconds.min(NANOSECONDS));
    let since = Duration::from_secs(time.seconds).saturating_add(Duration::from_nanos(nanoseconds));
    UNIX_EPOCH.checked_add(since).unwrap_or(UNIX_EPOCH)
}
