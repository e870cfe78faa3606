//! The lines of a file.
use crate::many::many_of;
use crate::request::Request;
use command_text::{first_word, leading_numbers, number, three_numbers, two_numbers};
use std::alloc::{AllocError, Global};

/// What stands between a command and its answer.
const ARROW: &[u8] = b" -> ";

/// What a line of a list asks for.
#[derive(Drop)]
pub enum Line {
    /// `volume GROUPS BLOCKS INODES`: a list begins, on a fresh volume of so many groups, and blocks and inodes in each. One
    /// number more is the version of the layout that the list is for; without it the list is for both.
    Volume {
        numbers: [u32; 3],
        version: Option<u32>,
    },
    /// `byte ADDRESS PLACE VALUE`: a byte of a block is set before the volume is mounted.
    Byte {
        address: u32,
        place: u32,
        value: u8,
    },
    /// `check`: what a check finds on what the device holds.
    Check,
    /// `stop`: what is pending is lost, and what the device holds is mounted.
    Stop,
    /// `stops`: what a stop would have left after each write since the volume was mounted is mounted, checked, and the
    /// bytes of its files are compared with what they had. It counts these stops, or tells the first that is not safe.
    Stops,
    /// `writes`: how many writes the device got since the volume was made.
    Writes,
    /// A request to the mounted volume.
    Request(Request),
    /// Many requests in a row.
    Many(Vec<Request>),
    /// A line of another form.
    Other,
}

impl Line {
    /// What a line without its answer asks for.
    pub fn parse(alloc: Global, line: &[u8]) -> Result<Line, AllocError> {
        if let Some(line) = Line::of_the_list(line) {
            return Ok(line);
        }
        if let Some(requests) = many_of(alloc, line)? {
            return Ok(Line::Many(requests));
        }
        Ok(match Request::parse(alloc, line)? {
            Some(request) => Line::Request(request),
            None => Line::Other,
        })
    }

    /// What a line asks for of the list, if it does.
    fn of_the_list(line: &[u8]) -> Option<Line> {
        match line {
            b"check" => Some(Line::Check),
            b"stop" => Some(Line::Stop),
            b"stops" => Some(Line::Stops),
            b"writes" => Some(Line::Writes),
            _ => Line::of_numbers(line),
        }
    }

    /// What a line of a name and numbers asks for.
    fn of_numbers(line: &[u8]) -> Option<Line> {
        let (name, words) = first_word(line);
        match name {
            b"volume" => Line::volume(words?),
            b"byte" => Line::byte(words?),
            _ => None,
        }
    }

    /// The volume of these numbers.
    fn volume(words: &[u8]) -> Option<Line> {
        let (groups, blocks, behind) = leading_numbers(words)?;
        let (inodes, version) = match two_numbers(behind) {
            Some((inodes, version)) => (inodes, Some(version)),
            None => (number(behind)?, None),
        };
        let numbers = [groups, blocks, inodes];
        Some(Line::Volume { numbers, version })
    }

    /// The byte of these numbers.
    fn byte(words: &[u8]) -> Option<Line> {
        let (address, place, value) = three_numbers(words)?;
        Some(Line::Byte {
            address,
            place,
            value: u8::try_from(value).ok()?,
        })
    }
}

/// Whether nothing is asked by a line: it is empty, or a remark.
pub fn is_skipped(line: &[u8]) -> bool {
    matches!(line, [] | [b'#', ..])
}

/// A line without its answer, and its answer, if it has one.
pub fn parted(line: &[u8]) -> (&[u8], Option<&[u8]>) {
    match line.windows(ARROW.len()).position(|part| part == ARROW) {
        Some(end) => (&line[..end], line.get(end + ARROW.len()..)),
        None => (line, None),
    }
}
