//! Which answers users may be given.
use command_text::first_word;
use layout::Refusal;
use snapshot::{Answer, Reply};
use users::Answered;

/// Whether a random line of a user may be answered so: memory is there, the device does not fail, and the paths are paths.
pub fn is_possible(reply: &Reply) -> bool {
    match reply {
        Ok(_) => true,
        Err(refusal) => matches!(
            refusal,
            Refusal::NotFound
                | Refusal::Exists
                | Refusal::NotDirectory
                | Refusal::IsDirectory
                | Refusal::NotEmpty
                | Refusal::NoInode
                | Refusal::NoBlock
                | Refusal::TooManyLinks
                | Refusal::TooBig
                | Refusal::BadHandle
                | Refusal::BadIndex
                | Refusal::BadPiece
                | Refusal::TooManyOpen
                | Refusal::TooManySnapshots
                | Refusal::NoSnapshot
        ),
    }
}

/// Whether a line opens the user's own file, which has the handle 0 where that is answered.
pub fn opens_own(text: &[u8]) -> bool {
    let (_user, text) = first_word(text);
    match text.map(first_word) {
        Some((b"open", Some(path))) => path.starts_with(b"/own"),
        _ => false,
    }
}

/// What a line does to a block of the user's own file, which has the handle 0.
#[derive(Clone, Copy)]
struct Own<'a> {
    user: &'a [u8],
    command: &'a [u8],
    index: &'a [u8],
    piece: &'a [u8],
}

/// Whether a read of a block of a user's own file gives what the line before has written there.
pub fn reads_back(before: Option<&Answered>, line: &Answered) -> bool {
    match (before, &line.reply) {
        (Some(before), Ok(Answer::Bytes(bytes))) if before.reply.is_ok() => begins_with_written(
            before.text.as_slice(),
            line.text.as_slice(),
            bytes.as_slice(),
        ),
        _ => true,
    }
}

/// Whether these bytes begin with what was written, where one line is a write to a user's own file, and the next one is a read of
/// the same block.
fn begins_with_written(write: &[u8], read: &[u8], bytes: &[u8]) -> bool {
    match (own_of(write), own_of(read)) {
        (Some(write), Some(read))
            if write.command == b"write".as_slice()
                && read.command == b"read".as_slice()
                && write.user == read.user
                && write.index == read.index => bytes.starts_with(write.piece),
        _ => true,
    }
}

/// What a line does to a user's own file, if it does anything to it.
fn own_of(text: &[u8]) -> Option<Own<'_>> {
    let (user, text) = first_word(text);
    let (command, text) = first_word(text?);
    let (handle, text) = first_word(text?);
    let (index, piece) = first_word(text?);
    if handle != b"0".as_slice() {
        return None;
    }
    Some(Own {
        user,
        command,
        index,
        piece: piece.unwrap_or(b""),
    })
}
