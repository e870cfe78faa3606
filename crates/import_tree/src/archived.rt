//! What stands in an archive, and where it goes in an image.
ghost use Rattle.std.specs.Prelude.{◌≡◌, ◌++◌, [], IfOk, None, Ok, OnOk, Some, map};
ghost use Rattle.archives.specs.Entries.{view, views};
ghost use Rattle.archived_attributes.specs.Links.{dangling_behind};
ghost use Rattle.archives.specs.Reading.{entries_of};
ghost use Rattle.import_tree.specs.Placing.{ArePlaced, bytes_below, first, kept_words, placed, shown};

use crate::items::{Item, PATH_BYTES, Source};
use crate::limits::allow_length;
use archived_attributes::{dangling, words_of};
use archives::{Attributes, Broken, Entry, Fault, Kind, orphan, read};
use dirent::NAME_BYTES;
use failures::Failure;
use inode::ATTRIBUTES;
use layout::Refusal;
use reading::joined;
use snapshot::NO_ATTRIBUTES;
use std::alloc::{AllocError, Global};

/// How many bytes the target of a symbolic link may have.
const TARGET_BYTES: usize = 4_095;

/// The items of an archive, in its order, below a directory of an image, and before them this directory, unless it is the root.
/// Refused is what `entries_in` and `items_of_entries` refuse.
pub fn items_in_archive(
    alloc: Global,
    archive: &[u8],
    path: &[u8],
    most: u64,
) -> Result<Vec<Item>, Failure>
    ensures { IfOk result (λ items. ArePlaced archive.now path.now items.items) }
{
    let entries = entries_in(alloc, archive)?;
    items_of_entries(alloc, path, most, entries)
}

/// The entries of an archive. Refused is one that cannot be read, by the byte where the header of the first such member begins,
/// an entry of which the folder does not come before it, and a hard link that leads to no file before it.
pub(crate) fn entries_in(alloc: Global, archive: &[u8]) -> Result<Vec<Entry>, Failure>
    ensures read { IfOk result (λ entries. entries_of archive.now ≡ Ok (views entries.items)) }
    ensures linked { IfOk result (λ entries. dangling_behind [] (views entries.items) ≡ None) }
{
    let entries = match read(alloc, archive) {
        Ok(entries) => entries,
        Err(broken) => return Err(refused(alloc, broken)),
    };
    allow_folders(alloc, entries.as_slice())?;
    allow_links(alloc, entries.as_slice())?;
    Ok(entries)
}

/// The items of entries, in their order, below a directory of an image, and before them this directory, unless it is the root.
/// Refused is a name, a path or the target of a symbolic link that no image can have, a device for whose number it has no room, and a
/// file of more than so many bytes.
pub(crate) fn items_of_entries(
    alloc: Global,
    path: &[u8],
    most: u64,
    entries: Vec<Entry>,
) -> Result<Vec<Item>, Failure>
    ensures { IfOk result (λ items. map shown items.items ≡ first path.now ++ map (placed path.now) (views entries.items)) }
{
    let mut items = first_item(alloc, path)?;
    add_entries(alloc, path, most, entries, &mut items)?;
    Ok(items)
}

/// How many bytes the longest of these entries has.
pub(crate) fn longest(entries: &[Entry]) -> u64 {
    let lengths = entries.iter().map(|entry| entry.bytes.len() as u64);
    lengths.max().unwrap_or(0)
}

/// That an archive is not read.
fn refused(alloc: Global, broken: Broken) -> Failure {
    let (cause, at, fault) = match broken {
        Broken::NoMemory => return Failure::from(Refusal::NoMemory),
        Broken::Refused(at, Fault::CutOff) => (Refusal::BadLength, at, Fault::CutOff),
        Broken::Refused(at, fault) => (Refusal::BadName, at, fault),
    };
    match format!(in alloc; "byte {at} of the archive: {fault}") {
        Ok(place) => Failure::Refused {
            cause,
            place: Some(place),
            reason: None,
            steps: None,
        },
        Err(error) => Failure::from(error),
    }
}

/// Refuses the first entry of which the folder does not come before it.
fn allow_folders(alloc: Global, entries: &[Entry]) -> Result<(), Failure> {
    match orphan(alloc, entries)? {
        Some(place) => match entries.get(place) {
            Some(entry) => Err(Failure::from(Refusal::NotFound).in_image(
                alloc,
                entry.path.as_slice(),
            )),
            None => Ok(()),
        },
        None => Ok(()),
    }
}

/// Refuses the first hard link that leads to no file before it.
fn allow_links(alloc: Global, entries: &[Entry]) -> Result<(), Failure>
    ensures { OnOk result (dangling_behind [] (views entries.now) ≡ None) }
{
    match dangling(alloc, entries)? {
        Some(place) => Err(no_file(alloc, entries, place)),
        None => Ok(()),
    }
}

/// That the hard link at this place leads to no file before it.
fn no_file(alloc: Global, entries: &[Entry], place: usize) -> Failure {
    let cause = Failure::from(Refusal::NotFound);
    match entries.get(place) {
        Some(entry) => cause.in_image(alloc, entry.path.as_slice()),
        None => cause,
    }
}

/// The item of the directory below which an archive goes; none of the root.
fn first_item(alloc: Global, path: &[u8]) -> Result<Vec<Item>, Failure>
    ensures { IfOk result (λ items. map shown items.items ≡ first path.now) }
{
    let mut items = Vec::new(alloc);
    if path != b"/".as_slice() {
        items.push(Item {
            source: Source::Held(Vec::new(alloc)),
            path: path.to_vec(alloc)?,
            kind: Kind::Folder,
            attributes: NO_ATTRIBUTES,
        })?;
    }
    Ok(items)
}

/// Adds the items of entries.
fn add_entries(
    alloc: Global,
    path: &[u8],
    most: u64,
    entries: Vec<Entry>,
    items: &mut Vec<Item>,
) -> Result<(), Failure>
    ensures { OnOk result (map shown items.new.items ≡ map shown items.old.items ++ map (placed path.now) (views entries.items)) }
{
    for entry in entries {
        items.push(item_of_entry(alloc, path, most, entry)?)?;
    }
    Ok(())
}

/// The item of an entry, where a file may have so many bytes.
fn item_of_entry(alloc: Global, above: &[u8], most: u64, entry: Entry) -> Result<Item, Failure>
    ensures { IfOk result (λ item. shown item ≡ placed above.now (view entry)) }
{
    let Entry {
        path: below,
        kind,
        bytes,
        attributes: told,
    } = entry;
    let path = joined(alloc, above, below.as_slice())?;
    let attributes = match kept_words(
        kind,
        &told,
        below.as_slice(),
        path.len(),
        bytes.len(),
        most,
    ) {
        Ok(attributes) => attributes,
        Err(cause) => return Err(Failure::from(cause).in_image(alloc, path.as_slice())),
    };
    Ok(Item {
        source: Source::Held(bytes_below(alloc, above, kind, bytes)?),
        path,
        kind,
        attributes,
    })
}

/// The numbers that an image keeps of an entry with this path, which has so many bytes there, and so many bytes itself. Refused is
/// what no image can have.
fn kept_words(
    kind: Kind,
    told: &Attributes,
    path: &[u8],
    whole: usize,
    length: usize,
    most: u64,
) -> Result<[u32; ATTRIBUTES], Refusal>
    ensures { IfOk result (λ words. kept_words kind told.now ≡ Some words) }
{
    if name_bytes(path) > NAME_BYTES || whole > PATH_BYTES {
        return Err(Refusal::BadName);
    }
    allow_contents(kind, length, most)?;
    match words_of(kind, told) {
        Some(words) => Ok(words),
        None => Err(Refusal::BadName),
    }
}

/// Refuses a file of more than so many bytes, and a symbolic link that leads farther than one may.
fn allow_contents(kind: Kind, length: usize, most: u64) -> Result<(), Refusal> {
    match kind {
        Kind::File => allow_length(length as u64, most),
        Kind::SymbolicLink if length > TARGET_BYTES => Err(Refusal::BadName),
        _ => Ok(()),
    }
}

/// What an entry of this kind has below a directory: a hard link leads to a path there.
fn bytes_below(
    alloc: Global,
    above: &[u8],
    kind: Kind,
    bytes: Vec<u8>,
) -> Result<Vec<u8>, AllocError>
    ensures { IfOk result (λ below. below.items ≡ bytes_below above.now kind bytes.items) }
{
    match kind {
        Kind::HardLink => joined(alloc, above, bytes.as_slice()),
        _ => Ok(bytes),
    }
}

/// How many bytes the last name of a path has.
fn name_bytes(path: &[u8]) -> usize {
    match path.rsplit(|byte| *byte == b'/').next() {
        Some(name) => name.len(),
        None => 0,
    }
}
