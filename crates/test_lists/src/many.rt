//! Lines that ask a mounted volume for many things in a row:
//!
//! - `grow HANDLE INDEX COUNT`: so many whole blocks are written from this index on. Each byte of a block is the lowest one of
//!   its index.
//! - `links PATH STEM FIRST COUNT`: a file gets so many names more, each of them the stem and a number of four digits, from the
//!   first number on.
//! - `unlinks STEM FIRST COUNT`: so many of these names are taken away.
//!
//! The answer tells how many there were; where one is refused it is that one's, and those behind it are not carried out.
use crate::request::Request;
use command_text::{first_word, parse_command, three_numbers, two_numbers};
use layout::BLOCK_BYTES;
use snapshot::Command;
use std::alloc::{AllocError, Global};

/// What a line asks for in a row, if it does.
pub fn many_of(alloc: Global, line: &[u8]) -> Result<Option<Vec<Request>>, AllocError> {
    match first_word(line) {
        (b"grow", Some(words)) => grow(alloc, words),
        (b"links", Some(words)) => links(alloc, words),
        (b"unlinks", Some(words)) => unlinks(alloc, words),
        _ => Ok(None),
    }
}

/// The writes that these words ask for.
fn grow(alloc: Global, words: &[u8]) -> Result<Option<Vec<Request>>, AllocError> {
    let Some((handle, first, count)) = three_numbers(words) else {
        return Ok(None);
    };
    let mut requests = Vec::new(alloc);
    for index in first..first.saturating_add(count) {
        let [byte, ..] = index.to_le_bytes();
        requests.push(Request::Command(Command::Write {
            handle,
            index,
            piece: vec![in alloc; byte; BLOCK_BYTES]?,
        }))?;
    }
    Ok(Some(requests))
}

/// The names that these words ask for.
fn links(alloc: Global, words: &[u8]) -> Result<Option<Vec<Request>>, AllocError> {
    match first_word(words) {
        (path, Some(words)) => named(alloc, &[b"link ", path, b" "], words),
        (_, None) => Ok(None),
    }
}

/// The names that these words ask to take away.
fn unlinks(alloc: Global, words: &[u8]) -> Result<Option<Vec<Request>>, AllocError> {
    named(alloc, &[b"unlink "], words)
}

/// The commands that begin so and end with the stem and a number, for each number that these words name.
fn named(alloc: Global, begin: &[&[u8]], words: &[u8]) -> Result<Option<Vec<Request>>, AllocError> {
    let (stem, numbers) = first_word(words);
    let Some((first, count)) = numbers.and_then(two_numbers) else {
        return Ok(None);
    };
    let mut requests = Vec::new(alloc);
    for number in first..first.saturating_add(count) {
        let mut line = Vec::new(alloc);
        for part in begin {
            line.extend_from_slice(part)?;
        }
        line.extend_from_slice(stem)?;
        let digits = format!(in alloc; "{number:04}")?;
        line.extend_from_slice(digits.as_bytes())?;
        if let Some(command) = parse_command(alloc, line.as_slice())? {
            requests.push(Request::Command(command))?;
        }
    }
    Ok(Some(requests))
}
