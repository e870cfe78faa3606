//! What is printed of names and inodes.
ghost use Rattle.std.specs.Prelude.{◌≡◌, ◌++◌, OnOk, map};
ghost use Rattle.live_paths.specs.Listed.{name_of};
ghost use Rattle.tool_answers.specs.Told.{name_line, name_lines};

use frozen::Frozen;
use inode::{DIRECTORY, FILE, Record};
use live_paths::Named;
use printed_names::write_name;
use reading::{Found, Listing, record_of};
use std::alloc::{AllocError, Global};

/// Writes a line for each name.
pub(crate) fn write_names(text: &mut Vec<u8>, names: &[Named]) -> Result<(), AllocError>
    ensures { OnOk result (text.new.items ≡ text.old.items ++ name_lines (map name_of names.now)) }
{
    for named in names {
        write_line(text, named)?;
    }
    Ok(())
}

/// Writes a name and a line feed.
fn write_line(text: &mut Vec<u8>, named: &Named) -> Result<(), AllocError>
    ensures { OnOk result (text.new.items ≡ text.old.items ++ name_line (name_of named.now)) }
{
    write_name(text, named.name.as_slice())?;
    text.push(b'\n')?;
    Ok(())
}

/// Writes a line for each name, with what it stands for: the number, the kind, the links, the size and the name.
pub(crate) fn write_long_names(
    alloc: Global,
    text: &mut Vec<u8>,
    frozen: &Frozen,
    names: &[Named],
) -> Result<(), AllocError> {
    for named in names {
        let number = named.number;
        let record = record_of(frozen, number);
        let kind = kind_of(&record);
        let head = format!(in alloc; "{number} {kind} {} {} ", record.links, record.size)?;
        text.extend_from_slice(head.as_bytes())?;
        write_line(text, named)?;
    }
    Ok(())
}

/// Writes the path of a listing, as the line above its names.
pub(crate) fn write_head(text: &mut Vec<u8>, listing: &Listing) -> Result<(), AllocError> {
    if !text.is_empty() {
        text.push(b'\n')?;
    }
    write_name(text, listing.path.as_slice())?;
    text.extend_from_slice(b":\n")
}

/// What is printed of what a path leads to: a line for each of its number, kind, links, size and blocks.
pub(crate) fn status_text(alloc: Global, found: &Found) -> Result<String, AllocError> {
    let Found { number, record } = *found;
    let kind = kind_of(&record);
    let Record { links, size, .. } = record;
    let blocks = record.blocks();
    format!(in alloc; "number {number}\nkind {kind}\nlinks {links}\nsize {size}\nblocks {blocks}\n")
}

/// The kind of an inode.
fn kind_of(record: &Record) -> &'static str {
    if record.mode == FILE {
        "file"
    } else if record.mode == DIRECTORY {
        "directory"
    } else {
        "none"
    }
}
