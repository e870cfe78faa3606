//! An image that one program at a time may serve.
use command_line::Failure;
use file_device::OpenError;
use std::fs::{File, TryLockError};
use std::rt::Files;
use std::thread::sleep;
use std::time::{Clock, Duration};
use std::{fs, io};

/// A file of the host that one program at a time may hold.
pub trait Holdable {
    /// Holds the file until it is closed, and tells whether nobody else holds it.
    fn try_hold(&self) -> io::Result<bool>;
}

impl Holdable for File {
    fn try_hold(&self) -> io::Result<bool> {
        match self.try_lock() {
            Ok(()) => Ok(true),
            Err(TryLockError::WouldBlock) => Ok(false),
            Err(TryLockError::Error(error)) => Err(error),
        }
    }
}

/// How often it is tried to hold a file, and how many milliseconds are waited between: the one that served before may write still.
const TRIES: u32 = 10;

const PAUSE_MILLIS: u64 = 100;

/// Opens the file of an image, and holds it. Refused with a text where another program does.
pub(crate) fn held<R: Files + AllocGlobal + Clock>(rt: &R, image: &str) -> Result<R::File, Failure>
where
    R::File: Holdable,
{
    match open_held(rt, image) {
        Ok(Some(file)) => Ok(file),
        Ok(None) => Err(Failure::Line(format!(in rt.alloc();
            "error: {image} is served by another program\n"
        )?)),
        Err(error) => Err(Failure::from(OpenError::of_call(error))),
    }
}

/// Opens a file and holds it, if nobody else does after some tries.
fn open_held<R: Files + Clock>(rt: &R, image: &str) -> io::Result<Option<R::File>>
where
    R::File: Holdable,
{
    let file = fs::open(rt, image)?;
    for _try in 0..TRIES {
        if file.try_hold()? {
            return Ok(Some(file));
        }
        sleep(rt, Duration::from_millis(PAUSE_MILLIS));
    }
    Ok(None)
}
