//! The words that several lines take.
use clap::{Arg, ArgAction, value_parser};
use std::alloc::Global;

/// The file of an image.
pub fn image<'a>(alloc: Global) -> Arg<'a> {
    Arg::new(alloc, "image")
        .value_name("IMAGE")
        .required(true)
        .help("The file of the image")
}

/// A path in an image.
pub fn path<'a>(alloc: Global) -> Arg<'a> {
    Arg::new(alloc, "path")
        .value_name("PATH")
        .required(true)
        .help("The path in the image; % and two digits stand for a byte")
}

/// A file or folder of the host.
pub fn host<'a>(alloc: Global) -> Arg<'a> {
    Arg::new(alloc, "host")
        .value_name("HOST")
        .required(true)
        .help(
            "The file or folder of the host; - stands for a tar archive, on standard input or output",
        )
}

/// The file of a script.
pub fn script<'a>(alloc: Global) -> Arg<'a> {
    Arg::new(alloc, "script")
        .value_name("SCRIPT")
        .required(true)
        .help("The file of the script")
}

/// How many workers check the image.
pub fn workers<'a>(alloc: Global) -> Arg<'a> {
    number(alloc, "workers").help("How many workers, 1 to 64")
}

/// A required option with a number.
pub fn number<'a>(alloc: Global, name: &'a str) -> Arg<'a> {
    Arg::new(alloc, name)
        .long(name)
        .value_name("NUMBER")
        .required(true)
        .value_parser(value_parser!(u32))
}

/// Whether a line shows how far it has come.
pub fn progress<'a>(alloc: Global) -> Arg<'a> {
    Arg::new(alloc, "progress")
        .long("progress")
        .action(ArgAction::SetTrue)
        .help("Shows on standard error how far the line has come")
}
