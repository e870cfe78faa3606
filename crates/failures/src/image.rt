//! Images in files, as a whole.
ghost use Rattle.failures.specs.Status as spec;

use crate::failure::{Failure, is_of_image};
use crate::reason::Reason;
use layout::{BLOCK_BYTES, Refusal, read_super};
use std::fs;
use std::io::Read;
use std::rt::Files;

impl Failure {
    /// The same failure of a line on an image in this file. If no path is told and the cause is the image as a whole, the file is
    /// told; and if it has the length of another image, both lengths.
    pub fn on_image<R: Files + AllocGlobal>(self, rt: &R, image: &str) -> Failure
        ensures { spec.IsTold self result }
    {
        match self {
            Failure::Refused {
                cause,
                place: None,
                reason,
                steps,
            } if is_of_image(cause) => {
                let refused = Failure::Refused {
                    cause,
                    place: None,
                    reason: reason.or(lengths(rt, image, cause)),
                    steps,
                };
                refused.at(rt.alloc(), image)
            }
            told => told,
        }
    }
}

/// How many bytes a file has that is refused for its length, and how many its superblock asks for.
fn lengths<R: Files>(rt: &R, image: &str, cause: Refusal) -> Option<Reason> {
    if cause != Refusal::BadLength {
        return None;
    }
    let metadata = fs::metadata(rt, image).ok()?;
    let length = metadata.len();
    // What is no file, as a pipe, may wait where it is opened again.
    if !metadata.is_file() {
        return Some(Reason::NoSuperblock(length));
    }
    Some(reason_of_length(length, length_wanted(rt, image)))
}

/// What is told of a length, where the superblock asks for this one.
fn reason_of_length(length: u64, wanted: Option<u64>) -> Reason {
    match wanted {
        Some(wanted) => Reason::OtherLength { length, wanted },
        None if length % BLOCK_BYTES as u64 == 0 => Reason::NoSuperblock(length),
        None => Reason::PartOfBlock(length),
    }
}

/// How many bytes the superblock of a file asks for, if the file begins with one.
fn length_wanted<R: Files>(rt: &R, image: &str) -> Option<u64> {
    let mut file = fs::open(rt, image).ok()?;
    let mut block = [0; BLOCK_BYTES];
    file.read_exact(&mut block).ok()?;
    let geometry = read_super(&block).ok()?;
    Some(u64::from(geometry.blocks()) * BLOCK_BYTES as u64)
}
