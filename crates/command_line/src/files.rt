//! Files that a line reads whole.
use failures::Failure;
use file_device::OpenError;
use std::fs;
use std::rt::Files;

/// The bytes of a file. Refused with `NoMemory`, and with `Device` where it cannot be read, which tells the file.
pub fn bytes_of_file<R: Files + AllocGlobal>(rt: &R, path: &str) -> Result<Vec<u8>, Failure> {
    match fs::read(rt, path) {
        Ok(bytes) => Ok(bytes),
        Err(error) => Err(Failure::from(OpenError::of_call(error)).at(rt.alloc(), path)),
    }
}
