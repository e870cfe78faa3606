//! The lines `mkdir`, `rm`, `rmdir`, `mv` and `ln`: what is done with paths in an image.
ghost use Rattle.std.specs.Prelude.{◌≡◌, IfOk};

use crate::fault::refusal_of;
use clap::{Arg, ArgMatches, Command as Words};
use command_line::{Answer, Failure, words};
use device::Device;
use failures::path_given;
use file_device::FileDevice;
use image_changes::{Outcome, change, change_device, mount, outcome_of};
use layout::Refusal;
use snapshot::{Command, Volume};
use std::alloc::{AllocError, Global};
use std::marker::Brand;
use std::os::unix::fs::FileExt;
use std::rt::Files;
use tool_answers::{Aim, Deed, Naming, aim_at, deeds, namings};

/// What becomes of the paths of a line.
#[derive(Clone, Copy)]
pub enum Change {
    /// This is done with each of them.
    Do(Deed),
    /// They are given names in this way; the last one is the target.
    Name(Naming),
}

/// What a line asks for: what becomes of paths in this image.
#[derive(Drop)]
pub struct ChangeLine<'a> {
    pub image: &'a str,
    pub change: Change,
    pub paths: Vec<&'a str>,
}

/// The words of the line `mkdir`.
pub fn mkdir<'a>(alloc: Global) -> Result<Words<'a>, AllocError> {
    of_paths(alloc, "mkdir", "Makes directories in an image", 1)
}

/// The words of the line `rm`.
pub fn rm<'a>(alloc: Global) -> Result<Words<'a>, AllocError> {
    of_paths(
        alloc,
        "rm",
        "Takes names from files in an image; a file without a name goes",
        1,
    )
}

/// The words of the line `rmdir`.
pub fn rmdir<'a>(alloc: Global) -> Result<Words<'a>, AllocError> {
    of_paths(alloc, "rmdir", "Removes empty directories from an image", 1)
}

/// The words of the line `mv`.
pub fn mv<'a>(alloc: Global) -> Result<Words<'a>, AllocError> {
    of_paths(
        alloc,
        "mv",
        "Gives what stands in an image another name; the last path is the name, or a directory for all",
        2,
    )
}

/// The words of the line `ln`.
pub fn ln<'a>(alloc: Global) -> Result<Words<'a>, AllocError> {
    of_paths(
        alloc,
        "ln",
        "Gives files in an image one more name; the last path is the name, or a directory for all",
        2,
    )
}

/// A line that takes an image and so many paths in it, or more.
fn of_paths<'a>(
    alloc: Global,
    name: &'a str,
    about: &'a str,
    least: usize,
) -> Result<Words<'a>, AllocError> {
    words::of_image(alloc, name, about)?.arg(paths(alloc).num_args(least..))
}

/// Paths in an image.
fn paths<'a>(alloc: Global) -> Arg<'a> {
    Arg::new(alloc, "paths")
        .value_name("PATH")
        .required(true)
        .help("The paths in the image; % and two digits stand for a byte")
}

/// What the line of this name does with its paths, if it is one of these lines.
pub fn change_of(name: &str) -> Option<Change> {
    match name {
        "mkdir" => Some(Change::Do(Deed::MakeDirectory)),
        "rm" => Some(Change::Do(Deed::Remove)),
        "rmdir" => Some(Change::Do(Deed::RemoveDirectory)),
        "mv" => Some(Change::Name(Naming::Move)),
        "ln" => Some(Change::Name(Naming::Link)),
        _ => None,
    }
}

/// What these words ask for.
pub fn line_of<'a>(
    alloc: Global,
    change: Change,
    options: &ArgMatches<'a>,
) -> Result<Option<ChangeLine<'a>>, AllocError> {
    let (Some(image), Some(paths)) = (options.get_str("image"), options.get_strs("paths")) else {
        return Ok(None);
    };
    let paths = paths.to_vec(alloc)?;
    Ok(Some(ChangeLine {
        image,
        change,
        paths,
    }))
}

/// Changes a file's image.
pub fn answer<R: Files + AllocGlobal>(rt: &R, line: &ChangeLine<'_>) -> Result<Answer, Failure>
where
    R::File: FileExt,
    ensures { IfOk result (λ answer. answer.status ≡ 0) }
{
    let paths = paths_given(rt.alloc(), line.paths.as_slice())?;
    match line.change {
        Change::Do(deed) => do_in_file(rt, line.image, deed, paths.as_slice()),
        Change::Name(naming) => name_in_file(rt, line.image, naming, paths.as_slice()),
    }
}

/// The paths that arguments stand for.
fn paths_given(alloc: Global, words: &[&str]) -> Result<Vec<Vec<u8>>, Failure> {
    let mut paths = Vec::new(alloc);
    for word in words {
        paths.push(path_given(alloc, word)?)?;
    }
    Ok(paths)
}

/// Does this with each of these paths in a file's image.
fn do_in_file<R: Files + AllocGlobal>(
    rt: &R,
    image: &str,
    deed: Deed,
    paths: &[Vec<u8>],
) -> Result<Answer, Failure>
where
    R::File: FileExt,
    ensures { IfOk result (λ answer. answer.status ≡ 0) }
{
    let commands = deeds(rt.alloc(), deed, paths)?;
    carry_out(rt, image, commands.as_slice())
}

/// Gives names in a file's image; the last path is the target. The file is opened and its volume mounted once.
fn name_in_file<R: Files + AllocGlobal>(
    rt: &R,
    image: &str,
    naming: Naming,
    paths: &[Vec<u8>],
) -> Result<Answer, Failure>
where
    R::File: FileExt,
    ensures { IfOk result (λ answer. answer.status ≡ 0) }
{
    let Some((target, named)) = paths.split_last() else {
        return Err(Failure::from(Refusal::BadName));
    };
    let mut volume = mount_file(rt, image).map_err(|failure| failure.on_image(rt, image))?;
    name_in_volume(rt, image, &mut volume, naming, target, named)
}

/// Opens a file to be written, and mounts the volume of its image.
fn mount_file<R: Files + AllocGlobal>(
    rt: &R,
    image: &str,
) -> Result<Volume<FileDevice<R::File, Brand>>, Failure>
where
    R::File: FileExt,
{
    let device: FileDevice<R::File, Brand> = FileDevice::open_to_write(rt, image)?;
    Ok(mount(rt.alloc(), device).map_err(|refused| refused.cause)?)
}

/// Gives names in the volume of a file's image, and writes all.
fn name_in_volume<R: Files + AllocGlobal, D: Device>(
    rt: &R,
    image: &str,
    volume: &mut Volume<D>,
    naming: Naming,
    target: &[u8],
    named: &[Vec<u8>],
) -> Result<Answer, Failure>
where
    R::File: FileExt,
    ensures { IfOk result (λ answer. answer.status ≡ 0) }
{
    let aim = aim_in_volume(rt, image, volume, target, named.len())?;
    let commands = namings(rt.alloc(), naming, aim, named, target)?;
    match change(rt.alloc(), volume, commands.as_slice()) {
        Ok(replies) => told(
            rt,
            image,
            commands.as_slice(),
            outcome_of(replies.as_slice()),
        ),
        Err(cause) => Err(Failure::from(cause).on_image(rt, image)),
    }
}

/// Where so many names are given at a target in the volume of a file's image.
fn aim_in_volume<R: Files + AllocGlobal, D: Device>(
    rt: &R,
    image: &str,
    volume: &Volume<D>,
    target: &[u8],
    count: usize,
) -> Result<Aim, Failure> {
    match aim_at(volume.live().metadata(), target, count) {
        Ok(aim) => Ok(aim),
        Err(cause) => Err(
            Failure::from(cause)
                .on_image(rt, image)
                .on_path(rt.alloc(), target),
        ),
    }
}

/// Carries out commands on the volume of a file's image up to the first one that is refused, and writes all.
fn carry_out<R: Files + AllocGlobal>(
    rt: &R,
    image: &str,
    commands: &[Command],
) -> Result<Answer, Failure>
where
    R::File: FileExt,
    ensures { IfOk result (λ answer. answer.status ≡ 0) }
{
    match change_file(rt, image, commands) {
        Ok(outcome) => told(rt, image, commands, outcome),
        Err(failure) => Err(failure.on_image(rt, image)),
    }
}

/// What is answered where so many of these commands were carried out on the volume of a file's image.
fn told<R: Files + AllocGlobal>(
    rt: &R,
    image: &str,
    commands: &[Command],
    outcome: Outcome,
) -> Result<Answer, Failure>
where
    R::File: FileExt,
    ensures { IfOk result (λ answer. answer.status ≡ 0) }
{
    let Outcome { done, refused } = outcome;
    match refused {
        None => Ok(Answer::nothing(rt.alloc())),
        Some(cause) => {
            Err(refusal_of(rt, image, commands.get(done), cause).after(done, commands.len()))
        }
    }
}

/// Carries out commands on the volume of a file's image up to the first one that is refused, writes all, and tells how far it came.
fn change_file<R: Files + AllocGlobal>(
    rt: &R,
    image: &str,
    commands: &[Command],
) -> Result<Outcome, Failure>
where
    R::File: FileExt,
{
    let device: FileDevice<R::File, Brand> = FileDevice::open_to_write(rt, image)?;
    let changed = change_device(rt.alloc(), device, commands).map_err(Refusal::from)?;
    Ok(outcome_of(changed.replies.as_slice()))
}
