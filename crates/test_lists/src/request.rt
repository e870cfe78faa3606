//! The requests to a mounted volume, as they stand in a line: the commands that `command_text` reads, and
//!
//! - `fill HANDLE INDEX COUNT BYTE`: the block of this index begins with so many bytes of this value, of which more than
//!   1,025 are as many.
//! - `inspect`: what a check finds on the image that was frozen last. The check is kept for `install`.
//! - `install`: the repairs of the check that was inspected last are to be carried out.
//! - `plan`: how many repairs the check has that is installed.
//! - `unmarked`: how many data blocks are not marked.
//! - `ready`: the least block with an update that may go to the device.
use command_text::{first_word, leading_numbers, parse_command, two_numbers};
use snapshot::Command;
use std::alloc::{AllocError, Global};

/// How many bytes `fill` gives to a write at most: one more than a write takes.
const MOST_FILLED: u32 = 1025;

/// What a line asks of a mounted volume.
#[derive(Drop)]
pub enum Request {
    /// To carry out a command.
    Command(Command),
    /// `inspect`
    Inspect,
    /// `install`
    Install,
    /// `plan`
    Plan,
    /// `unmarked`
    Unmarked,
    /// `ready`
    Ready,
}

impl Request {
    /// What a line without its answer asks for, if it does.
    pub fn parse(alloc: Global, line: &[u8]) -> Result<Option<Request>, AllocError> {
        if let Some(request) = Request::of_no_word(line) {
            return Ok(Some(request));
        }
        let command = match first_word(line) {
            (b"fill", Some(words)) => fill(alloc, words)?,
            _ => parse_command(alloc, line)?,
        };
        Ok(command.map(|command| Request::Command(command)))
    }

    /// What a line of one word asks for, if it is no command.
    fn of_no_word(line: &[u8]) -> Option<Request> {
        match line {
            b"inspect" => Some(Request::Inspect),
            b"install" => Some(Request::Install),
            b"plan" => Some(Request::Plan),
            b"unmarked" => Some(Request::Unmarked),
            b"ready" => Some(Request::Ready),
            _ => None,
        }
    }
}

/// The write of the bytes that these words ask for, if they do.
fn fill(alloc: Global, words: &[u8]) -> Result<Option<Command>, AllocError> {
    match filling(words) {
        Some((handle, index, count, byte)) => Ok(Some(Command::Write {
            handle,
            index,
            piece: vec![in alloc; byte; count.min(MOST_FILLED) as usize]?,
        })),
        None => Ok(None),
    }
}

/// The handle and the index that these words name, how many bytes they ask for, and their value.
fn filling(words: &[u8]) -> Option<(u32, u32, u32, u8)> {
    let (handle, index, words) = leading_numbers(words)?;
    let (count, byte) = two_numbers(words)?;
    Some((handle, index, count, u8::try_from(byte).ok()?))
}
