//! The words of the lines between host and image.
use clap::Command;
use command_line::{arguments, words};
use std::alloc::{AllocError, Global};

/// A line that takes an image, a path in it and a path of the host, and may show how far it has come.
pub(crate) fn of_host<'a>(
    alloc: Global,
    name: &'a str,
    about: &'a str,
) -> Result<Command<'a>, AllocError> {
    words::of_path(alloc, name, about)?
        .arg(arguments::host(alloc))?
        .arg(arguments::progress(alloc))
}
