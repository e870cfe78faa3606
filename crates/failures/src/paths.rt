//! Paths of an image: as arguments give them, as they are printed, and which rule one breaks.
use crate::failure::Failure;
use crate::reason::Reason;
use layout::Refusal;
use live_paths::Path;
use printed_names::{path_of, write_name};
use std::alloc::{AllocError, Global};
use std::str::from_utf8;

/// How many bytes the longest path has.
const PATH_BYTES: usize = 4_096;

/// The path that an argument stands for. If a `%` in it is not followed by two hexadecimal digits, it is refused with `BadName`.
pub fn path_given(alloc: Global, word: &str) -> Result<Vec<u8>, Failure> {
    match path_of(alloc, word) {
        Ok(path) => Ok(path),
        Err(cause) => Err(coded_wrongly(alloc, cause, word)),
    }
}

/// An argument stands for no path, for this cause.
fn coded_wrongly(alloc: Global, cause: Refusal, word: &str) -> Failure {
    match cause {
        Refusal::BadName => Failure::from(cause)
            .at(alloc, word)
            .because(Reason::NoDigits),
        _ => Failure::from(cause),
    }
}

/// A path as it is printed.
pub(crate) fn printed(alloc: Global, path: &[u8]) -> Result<String, AllocError> {
    let mut text = Vec::new(alloc);
    write_name(&mut text, path)?;
    String::from_str(alloc, from_utf8(text.as_slice()).unwrap_or(""))
}

/// The rule that a path breaks, if it breaks one.
pub(crate) fn rule_broken(path: &[u8]) -> Option<Reason> {
    if !path.starts_with(b"/") {
        return Some(Reason::NoSlash);
    }
    if path.len() > PATH_BYTES {
        return Some(Reason::LongPath);
    }
    match Path::parse(path) {
        Ok(_) => None,
        Err(_) => Some(Reason::BadPart),
    }
}
