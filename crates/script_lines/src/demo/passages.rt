//! The passages of a text: sentences, and what the program prints.
use std::alloc::AllocError;

/// Adds sentences to a text, and an empty line.
pub(crate) fn say(text: &mut Vec<u8>, sentences: &str) -> Result<(), AllocError> {
    text.extend_from_slice(sentences.as_bytes())?;
    text.push(b'\n')?;
    Ok(())
}

/// Adds lines to a text, each after four spaces, and an empty line.
pub(crate) fn show(text: &mut Vec<u8>, lines: &[u8]) -> Result<(), AllocError> {
    for line in lines.split_inclusive(|byte| *byte == b'\n') {
        text.extend_from_slice(b"    ")?;
        text.extend_from_slice(line)?;
    }
    text.push(b'\n')?;
    Ok(())
}
