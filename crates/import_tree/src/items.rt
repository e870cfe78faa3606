//! What stands on the host, and where it goes in an image.
ghost use Rattle.std.specs.Prelude.{OnOk};
ghost use Rattle.std.specs.List.{All};
ghost use Rattle.import_tree.specs.Placing.{IsNew};

use crate::hosted;
use crate::limits::{Destination, allow_length};
use archives::Kind;
use dirent::NAME_BYTES;
use failures::Failure;
use frozen::Frozen;
use inode::ATTRIBUTES;
use layout::Refusal;
use reading::{joined, stat};
use std::alloc::Global;
use std::fs;
use std::fs::Metadata;
use std::os::unix::fs::FileExt;
use std::rt::Files;

/// How many bytes a path in an image may have.
pub(crate) const PATH_BYTES: usize = 4_096;

/// Where the bytes of an item come from.
#[derive(Debug, Drop)]
pub enum Source {
    /// From the file at this path of the host, once the item's turn comes; none, where no file stands there.
    Host(String),
    /// They are here: of a symbolic link where it leads, of a hard link the path in the image that it is one more name of.
    Held(Vec<u8>),
}

/// What goes into an image, and the path that it is to have there.
#[derive(Debug, Drop)]
pub struct Item {
    pub source: Source,
    pub path: Vec<u8>,
    pub kind: Kind,
    /// Its attributes in the image. A hard link has those of its file.
    pub attributes: [u32; ATTRIBUTES],
}

/// What stands at a path of the host, and all below it, each folder before what it holds, and the names in a folder in the
/// order of their bytes. The first one gets this path in the image, and is left out where that is `/`. Links are not
/// followed, but for the first one. Refused is a name or a path that no image can have, a file that is too long for the image that
/// they go to, a socket, and a device for whose number an image has no room.
pub fn items_of<R: Files + AllocGlobal + Clone + Drop>(
    rt: &R,
    host: &str,
    path: &[u8],
    to: Destination<'_>,
) -> Result<Vec<Item>, Failure>
where
    R::File: FileExt,
{
    let alloc = rt.alloc();
    let metadata = match fs::metadata(rt, host) {
        Ok(metadata) => metadata,
        Err(error) => return Err(Failure::of_call(alloc, &error, host)),
    };
    let host = String::from_str(alloc, host)?;
    let first = item_of(rt, host, path.to_vec(alloc)?, &metadata, to)?;
    if path != b"/".as_slice() {
        return with_all_below(rt, first, to);
    }
    if first.kind != Kind::Folder {
        return Err(Failure::from(Refusal::IsRoot).in_image(alloc, path));
    }
    let mut items = with_all_below(rt, first, to)?;
    if !items.is_empty() {
        items.remove(0);
    }
    Ok(items)
}

/// An item and all below it, in their order.
fn with_all_below<R: Files + AllocGlobal + Clone + Drop>(
    rt: &R,
    first: Item,
    to: Destination<'_>,
) -> Result<Vec<Item>, Failure>
where
    R::File: FileExt,
{
    let mut waiting = Vec::new(rt.alloc());
    waiting.push(first)?;
    let mut items = Vec::new(rt.alloc());
    for _turn in 0..u64::MAX {
        let Some(item) = waiting.pop() else {
            break;
        };
        if item.kind == Kind::Folder {
            add_below(rt, &item, to, &mut waiting)?;
        }
        items.push(item)?;
    }
    Ok(items)
}

/// Adds what a folder holds, the last name first.
fn add_below<R: Files + AllocGlobal + Clone + Drop>(
    rt: &R,
    folder: &Item,
    to: Destination<'_>,
    waiting: &mut Vec<Item>,
) -> Result<(), Failure>
where
    R::File: FileExt,
{
    let Source::Host(host) = &folder.source else {
        return Ok(());
    };
    let mut names = names_in(rt, host.as_str())?;
    names.sort()?;
    let path = folder.path.as_slice();
    for name in names.iter().rev() {
        waiting.push(item_in(rt, host.as_str(), path, name.as_str(), to)?)?;
    }
    Ok(())
}

/// The item of a name in a folder of the host, of which the folder in the image has this path.
fn item_in<R: Files + AllocGlobal + Clone + Drop>(
    rt: &R,
    folder: &str,
    path: &[u8],
    name: &str,
    to: Destination<'_>,
) -> Result<Item, Failure>
where
    R::File: FileExt,
{
    let alloc = rt.alloc();
    let host = format!(in alloc; "{folder}/{name}")?;
    let path = joined(alloc, path, name.as_bytes())?;
    if name.len() > NAME_BYTES || path.len() > PATH_BYTES {
        return Err(Failure::from(Refusal::BadName).at(alloc, host.as_str()));
    }
    let metadata = match fs::symlink_metadata(rt, host.as_str()) {
        Ok(metadata) => metadata,
        Err(error) => return Err(Failure::of_call(alloc, &error, host.as_str())),
    };
    item_of(rt, host, path, &metadata, to)
}

/// The item of what stands at a path of the host, and gets this path in the image.
fn item_of<R: Files + AllocGlobal>(
    rt: &R,
    host: String,
    path: Vec<u8>,
    metadata: &Metadata,
    to: Destination<'_>,
) -> Result<Item, Failure>
where
    R::File: FileExt,
{
    let (kind, attributes) = told_of(rt, metadata, host.as_str(), to)?;
    Ok(Item {
        source: source_of(rt, kind, host)?,
        path,
        kind,
        attributes,
    })
}

/// The kind and the attributes of what stands at a path of the host, and is to go there.
fn told_of<R: Files + AllocGlobal>(
    rt: &R,
    metadata: &Metadata,
    host: &str,
    to: Destination<'_>,
) -> Result<(Kind, [u32; ATTRIBUTES]), Failure>
where
    R::File: FileExt,
{
    let kind = hosted::kind_of(metadata);
    if kind == Some(Kind::File) {
        allow_file(rt, metadata.len(), host, to)?;
    }
    let told = kind.and_then(|kind| Some((kind, hosted::words_of(kind, metadata)?)));
    match told {
        Some(told) => Ok(told),
        None => Err(Failure::from(Refusal::BadName).at(rt.alloc(), host)),
    }
}

/// Refuses a file of the host of so many bytes, if it is too long for where it goes.
fn allow_file<R: Files + AllocGlobal>(
    rt: &R,
    length: u64,
    host: &str,
    to: Destination<'_>,
) -> Result<(), Failure>
where
    R::File: FileExt,
{
    match allow_length(length, to.most_bytes(rt, length)?) {
        Ok(()) => Ok(()),
        Err(cause) => Err(Failure::from(cause).at(rt.alloc(), host)),
    }
}

/// Where the bytes of what stands at a path of the host come from.
fn source_of<R: Files + AllocGlobal>(rt: &R, kind: Kind, host: String) -> Result<Source, Failure> {
    if kind != Kind::SymbolicLink {
        return Ok(Source::Host(host));
    }
    match fs::read_link(rt, host.as_str()) {
        Ok(target) => Ok(Source::Held(target.as_str().as_bytes().to_vec(rt.alloc())?)),
        Err(error) => Err(Failure::of_call(rt.alloc(), &error, host.as_str())),
    }
}

/// The names in a folder of the host. One that is no text is refused by the folder's path.
fn names_in<R: Files + AllocGlobal + Clone + Drop>(
    rt: &R,
    folder: &str,
) -> Result<Vec<String>, Failure> {
    let alloc = rt.alloc();
    let entries = match fs::read_dir(rt, folder) {
        Ok(entries) => entries,
        Err(error) => return Err(Failure::of_call(alloc, &error, folder)),
    };
    let mut names = Vec::new(alloc);
    for entry in entries {
        match entry {
            Ok(entry) => names.push(String::from_str(alloc, entry.file_name())?)?,
            Err(error) => return Err(Failure::of_call(alloc, &error, folder)),
        }
    }
    Ok(names)
}

/// Refuses the first item of which the path leads somewhere in an image already, or can lead nowhere.
pub fn allow_items(alloc: Global, frozen: &Frozen, items: &[Item]) -> Result<(), Failure>
    // Where none is refused, a user of the image is told of each that nothing stands there.
    ensures { OnOk result (All (IsNew frozen.now) items.now) }
{
    for item in items {
        allow_item(alloc, frozen, item)?;
    }
    Ok(())
}

/// Refuses an item of which the path leads somewhere in an image already, or can lead nowhere.
fn allow_item(alloc: Global, frozen: &Frozen, item: &Item) -> Result<(), Failure>
    ensures { OnOk result (IsNew frozen.now item.now) }
{
    let path = item.path.as_slice();
    match stat(frozen, path) {
        Err(Refusal::NotFound) => Ok(()),
        Err(cause) => Err(Failure::from(cause).in_image(alloc, path)),
        Ok(_) => Err(Failure::from(Refusal::Exists).in_image(alloc, path)),
    }
}
