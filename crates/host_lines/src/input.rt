//! The archive on standard input.
use command_line::{Failure, bytes_of_file};
use std::rt::Files;

/// The argument that stands for a tar archive, on standard input or output, in place of a path of the host.
pub(crate) const ARCHIVE: &str = "-";

/// The file of standard input.
const STANDARD_INPUT: &str = "/dev/stdin";

/// The bytes of the archive on standard input.
pub(crate) fn archive_given<R: Files + AllocGlobal>(rt: &R) -> Result<Vec<u8>, Failure> {
    bytes_of_file(rt, STANDARD_INPUT)
}
