//! What a volume answers, as it is written.
use crate::digits::write_attributes;
use live_paths::Named;
use snapshot::{Answer, Kind, Reply, Status};
use std::alloc::AllocError;

/// Writes a reply behind a text: an answer, or `refused` with the number of the cause and its name.
pub fn write_reply(text: &mut String, reply: &Reply) -> Result<(), AllocError> {
    match reply {
        Ok(answer) => write_answer(text, answer),
        Err(refusal) => write!(text, "refused {refusal}"),
    }
}

/// Writes an answer behind a text: `ok` alone where there is nothing to tell; else
/// - `ok NUMBER`; of a snapshot that began, its number
/// - `ok HEX`: bytes, each in two digits
/// - `ok NAME=NUMBER NAME=NUMBER`: the names in a directory, and the numbers that they stand for; in a name a byte that is
///   not from 33 to 126, or is `%`, stands as `%` and two digits
/// - `ok HEX`: attributes, the 64 bytes that stand for them in a record
/// - `ok number NUMBER KIND links LINKS size SIZE`, where the kind is `file` or `directory`
pub fn write_answer(text: &mut String, answer: &Answer) -> Result<(), AllocError> {
    match answer {
        Answer::Done => write!(text, "ok"),
        Answer::Number(number) | Answer::Image(number, _) => write!(text, "ok {number}"),
        Answer::Bytes(bytes) => write_bytes(text, bytes.as_slice()),
        Answer::Names(names) => write_names(text, names.as_slice()),
        Answer::Status(status) => write_status(text, status),
        Answer::Attributes(attributes) => {
            write!(text, "ok ")?;
            write_attributes(text, attributes)
        }
    }
}

/// Writes bytes.
fn write_bytes(text: &mut String, bytes: &[u8]) -> Result<(), AllocError> {
    write!(text, "ok ")?;
    for byte in bytes {
        write!(text, "{byte:02x}")?;
    }
    Ok(())
}

/// Writes the names in a directory.
fn write_names(text: &mut String, names: &[Named]) -> Result<(), AllocError> {
    write!(text, "ok")?;
    for named in names {
        let number = named.number;
        write!(text, " ")?;
        write_name(text, named.name.as_slice())?;
        write!(text, "={number}")?;
    }
    Ok(())
}

/// Writes a name. Its bytes from 33 to 126 are written as they are, but for `%`; each other one as `%` and two digits.
fn write_name(text: &mut String, name: &[u8]) -> Result<(), AllocError> {
    for byte in name {
        match *byte {
            b'%' => write!(text, "%25")?,
            33..=126 => text.push(char::from(*byte))?,
            _ => write!(text, "%{byte:02x}")?,
        }
    }
    Ok(())
}

/// Writes what an inode is.
fn write_status(text: &mut String, status: &Status) -> Result<(), AllocError> {
    let Status {
        number,
        kind,
        links,
        size,
    } = *status;
    let kind = match kind {
        Kind::File => "file",
        Kind::Directory => "directory",
    };
    write!(text, "ok number {number} {kind} links {links} size {size}")
}
