//! What the host tells of what stands at a path of it.
use archives::Kind;
use attributes::{Attributes, Time};
use inode::ATTRIBUTES;
use std::fs::Metadata;
use std::os::unix::fs::MetadataExt;

/// How many values the bits of a mode have that say who may use a file.
const RIGHTS: u32 = 4096;

/// How many values a mode has.
const MODES: u32 = 65_536;

/// The kind of what stands there; none of a socket.
pub(crate) fn kind_of(metadata: &Metadata) -> Option<Kind> {
    match metadata.mode() % MODES / RIGHTS {
        1 => Some(Kind::Fifo),
        2 => Some(Kind::CharacterDevice),
        4 => Some(Kind::Folder),
        6 => Some(Kind::BlockDevice),
        8 => Some(Kind::File),
        10 => Some(Kind::SymbolicLink),
        _ => None,
    }
}

/// The numbers that an image keeps of what stands there; none of a device for whose number it has no room.
pub(crate) fn words_of(kind: Kind, metadata: &Metadata) -> Option<[u32; ATTRIBUTES]> {
    let device = match kind {
        Kind::CharacterDevice | Kind::BlockDevice => u32::try_from(metadata.rdev()).ok()?,
        _ => 0,
    };
    let attributes = Attributes {
        mode: (metadata.mode() % MODES) as u16,
        user: metadata.uid(),
        group: metadata.gid(),
        device,
        generation: 0,
        accessed: time_of(metadata.atime(), metadata.atime_nsec()),
        modified: time_of(metadata.mtime(), metadata.mtime_nsec()),
        changed: time_of(metadata.ctime(), metadata.ctime_nsec()),
    };
    Some(attributes.write())
}

/// A time of the host. Seconds before 1970 are below 0 there.
fn time_of(seconds: i64, nanoseconds: i64) -> Time {
    Time {
        seconds: seconds.cast_unsigned(),
        nanoseconds: u32::try_from(nanoseconds).unwrap_or(0),
    }
}
