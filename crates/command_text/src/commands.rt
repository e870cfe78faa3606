//! The commands to a volume, as they stand in a line. A path has any bytes but blanks and line feeds, and need be none that
//! the volume takes.
//!
//! - `create PATH`: a file without bytes. Its answer is the file's number.
//! - `mkdir PATH`: an empty directory. Its answer is the directory's number.
//! - `link PATH PATH`: a file gets another name.
//! - `unlink PATH`: a name is taken from a file.
//! - `rmdir PATH`: an empty directory goes.
//! - `rename PATH PATH`: an entry gets another name.
//! - `open PATH`: a handle is opened on a file. Its answer is the handle.
//! - `close HANDLE`: the handle is closed.
//! - `read HANDLE INDEX`: the bytes that the file has in its block of this index.
//! - `write HANDLE INDEX TEXT`: the block of this index begins with these bytes.
//! - `truncate HANDLE SIZE`: the file has this size, which is no larger.
//! - `list PATH`: the names in a directory.
//! - `stat PATH`: what a path leads to.
//! - `freeze`: a snapshot begins. Its answer is the snapshot's number.
//! - `snapread SNAPSHOT INODE INDEX`: the bytes that a file had in its block of this index when the snapshot of this number
//!   began.
//! - `release SNAPSHOT`: the snapshot of this number ends.
//! - `repair PLACE`: the repair of this place in the check that is installed is carried out.
//! - `flush ADDRESS`: what is pending of a block goes to the device, as far as it may. Its answer counts the updates.
//! - `sync`: all that is pending goes to the device.
use crate::words::{first_word, is_one_word, leading_numbers, number};
use snapshot::Command;
use std::alloc::{AllocError, Global};

/// The command that a line is, if it is one. A number is in decimal digits, below 2^32 and without a sign; an empty word
/// may stand for a path or bytes.
pub fn parse_command(alloc: Global, line: &[u8]) -> Result<Option<Command>, AllocError> {
    let (name, words) = first_word(line);
    let Some(words) = words else {
        return Ok(of_no_word(name));
    };
    match first_word(words) {
        (word, None) => of_a_word(alloc, name, word),
        (word, Some(other)) if is_one_word(other) => of_two_words(alloc, name, word, other),
        _ => of_three_words(alloc, name, words),
    }
}

/// The command of this name that has no word, if there is one.
fn of_no_word(name: &[u8]) -> Option<Command> {
    match name {
        b"freeze" => Some(Command::Freeze),
        b"sync" => Some(Command::Sync),
        _ => None,
    }
}

/// The command of this name that has one word, if there is one and this is a word for it.
fn of_a_word(alloc: Global, name: &[u8], word: &[u8]) -> Result<Option<Command>, AllocError> {
    Ok(match name {
        b"create" => Some(Command::create(word.to_vec(alloc)?)),
        b"mkdir" => Some(Command::mkdir(word.to_vec(alloc)?)),
        b"unlink" => Some(Command::Unlink(word.to_vec(alloc)?)),
        b"rmdir" => Some(Command::Rmdir(word.to_vec(alloc)?)),
        b"list" => Some(Command::List(word.to_vec(alloc)?)),
        b"stat" => Some(Command::Stat(word.to_vec(alloc)?)),
        b"open" => Some(Command::Open(word.to_vec(alloc)?)),
        _ => number(word).and_then(|number| of_a_number(name, number)),
    })
}

/// The command of this name that has a number, if there is one.
fn of_a_number(name: &[u8], number: u32) -> Option<Command> {
    match name {
        b"close" => Some(Command::Close(number)),
        b"release" => Some(Command::Release(u64::from(number))),
        b"repair" => Some(Command::Repair(number)),
        b"flush" => Some(Command::Flush(number)),
        _ => None,
    }
}

/// The command of this name that has two words, if there is one and these are words for it.
fn of_two_words(
    alloc: Global,
    name: &[u8],
    word: &[u8],
    other: &[u8],
) -> Result<Option<Command>, AllocError> {
    Ok(match name {
        b"link" => Some(Command::Link(word.to_vec(alloc)?, other.to_vec(alloc)?)),
        b"rename" => Some(Command::Rename(word.to_vec(alloc)?, other.to_vec(alloc)?)),
        _ => number(word)
            .zip(number(other))
            .and_then(|(first, second)| of_two_numbers(name, first, second)),
    })
}

/// The command of this name that has two numbers, if there is one.
fn of_two_numbers(name: &[u8], first: u32, second: u32) -> Option<Command> {
    match name {
        b"read" => Some(Command::Read {
            handle: first,
            index: second,
        }),
        b"truncate" => Some(Command::Truncate {
            handle: first,
            size: second,
        }),
        _ => None,
    }
}

/// The command of this name that has three words, if there is one and these are words for it.
fn of_three_words(alloc: Global, name: &[u8], words: &[u8]) -> Result<Option<Command>, AllocError> {
    match (name, leading_numbers(words)) {
        (b"write", Some((handle, index, piece))) if is_one_word(piece) => Ok(Some(
            Command::Write {
                handle,
                index,
                piece: piece.to_vec(alloc)?,
            },
        )),
        (b"snapread", Some((snapshot, inode, word))) => Ok(number(word).map(|index| {
            Command::SnapRead {
                snapshot: u64::from(snapshot),
                inode,
                index,
            }
        })),
        _ => Ok(None),
    }
}
