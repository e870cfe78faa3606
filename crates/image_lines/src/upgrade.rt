//! The line `upgrade`: an image of the first version of the layout becomes one of the second.
ghost use Rattle.std.specs.Prelude.{◌≡◌, IfOk};

use clap::{ArgMatches, Command};
use command_line::{Answer, Failure, words};
use file_device::FileDevice;
use std::alloc::{AllocError, Global};
use std::marker::Brand;
use std::os::unix::fs::FileExt;
use std::rt::Files;
use upgrading::upgrade;

/// What the line asks for: this image in the second version of the layout.
#[derive(Clone, Copy)]
pub struct UpgradeLine<'a> {
    pub image: &'a str,
}

/// The words of the line.
pub fn command<'a>(alloc: Global) -> Result<Command<'a>, AllocError> {
    words::of_image(
        alloc,
        "upgrade",
        "Makes an image of format 1 one of format 2, in its place",
    )
}

/// What these words ask for.
pub fn line_of<'a>(options: &ArgMatches<'a>) -> Option<UpgradeLine<'a>> {
    Some(UpgradeLine {
        image: options.get_str("image")?,
    })
}

/// Upgrades a file's image, and prints nothing.
pub fn answer<R: Files + AllocGlobal>(rt: &R, line: &UpgradeLine<'_>) -> Result<Answer, Failure>
where
    R::File: FileExt,
    ensures { IfOk result (λ answer. answer.status ≡ 0) }
{
    match upgrade_file(rt, line.image) {
        Ok(_writes) => Ok(Answer::nothing(rt.alloc())),
        Err(failure) => Err(failure.on_image(rt, line.image)),
    }
}

/// Upgrades a file's image, and tells how many blocks were written.
fn upgrade_file<R: Files + AllocGlobal>(rt: &R, image: &str) -> Result<u32, Failure>
where
    R::File: FileExt,
{
    let mut device: FileDevice<R::File, Brand> = FileDevice::open_to_write(rt, image)?;
    Ok(upgrade(rt.alloc(), &mut device)?)
}
