//! The words that begin most lines.
use crate::arguments::{image, path};
use clap::Command;
use std::alloc::{AllocError, Global};

/// A line that takes an image.
pub fn of_image<'a>(
    alloc: Global,
    name: &'a str,
    about: &'a str,
) -> Result<Command<'a>, AllocError> {
    Command::new(alloc, name).about(about).arg(image(alloc))
}

/// A line that takes an image and a path in it.
pub fn of_path<'a>(
    alloc: Global,
    name: &'a str,
    about: &'a str,
) -> Result<Command<'a>, AllocError> {
    of_image(alloc, name, about)?.arg(path(alloc))
}
