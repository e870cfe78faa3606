//! The line `mkfs`: a fresh image, and what a folder of the host holds in it.
ghost use Rattle.std.specs.Prelude.{◌≡◌, [], IfOk, OnOk};
ghost use Rattle.file_device.specs.Calls.{held_so_far, image_now};
ghost use Rattle.layout.specs.Fresh.{fresh_image, zero_block};

use crate::ends::silent;
use crate::geometry::geometry_of;
use crate::input::{ARCHIVE, archive_given};
use clap::{Arg, ArgMatches, Command, value_parser};
use command_line::{Answer, Failure, arguments, words};
use device::{Before, Device};
use file_device::FileDevice;
use image_lines::make::make;
use import_tree::{Item, items_of_archive, items_of_folder, put_items};
use layout::{Geometry, Refusal};
use progress::Watcher;
use std::alloc::{AllocError, Global};
use std::marker::Brand;
use std::os::unix::fs::FileExt;
use std::rt::Files;
use std::sync::Wait;
use std::thread::Threads;

/// What the line asks for: a fresh image of this geometry, in this version of the layout, with what a folder of the host holds, if
/// one is named.
#[derive(Clone, Copy)]
pub struct MkfsLine<'a> {
    pub image: &'a str,
    pub groups: u32,
    pub blocks: u32,
    pub inodes: u32,
    /// The version of the layout.
    pub format: u32,
    pub from: Option<&'a str>,
    pub progress: bool,
}

/// The words of the line.
pub fn command<'a>(alloc: Global) -> Result<Command<'a>, AllocError> {
    with_geometry(alloc)?
        .arg(version(alloc))?
        .arg(from(alloc))?
        .arg(arguments::progress(alloc))
}

/// The line, its image and its geometry.
fn with_geometry<'a>(alloc: Global) -> Result<Command<'a>, AllocError> {
    words::of_image(alloc, "mkfs", "Writes a fresh image")?
        .arg(arguments::number(alloc, "groups").help("How many cylinder groups"))?
        .arg(arguments::number(alloc, "blocks").help("How many blocks a group"))?
        .arg(arguments::number(alloc, "inodes").help("How many inodes a group"))
}

/// The version of the layout: the first, unless another one is asked for.
fn version<'a>(alloc: Global) -> Arg<'a> {
    Arg::new(alloc, "format")
        .long("format")
        .value_name("NUMBER")
        .default_value("1")
        .value_parser(value_parser!(u32).range(1..=2))
        .help("The version of the layout: 1, or 2 for files of more than 268 KiB")
}

/// The folder of which an image is made.
fn from<'a>(alloc: Global) -> Arg<'a> {
    Arg::new(alloc, "from").long("from").value_name("HOST").help(
        "A folder of the host, of which all goes into the image; - stands for a tar archive on standard input",
    )
}

/// What these words ask for.
pub fn line_of<'a>(options: &ArgMatches<'a>) -> Option<MkfsLine<'a>> {
    Some(MkfsLine {
        image: options.get_str("image")?,
        groups: options.get_one("groups")?,
        blocks: options.get_one("blocks")?,
        inodes: options.get_one("inodes")?,
        format: options.get_one("format")?,
        from: options.get_str("from"),
        progress: options.get_flag("progress"),
    })
}

/// Makes a file with a fresh image, in place of what was there, and of what a folder of the host holds, if one is named. The watcher
/// is told what goes into it.
pub fn answer<R: Files + AllocGlobal + Threads + Wait + Sync + Clone + Drop>(
    rt: &R,
    line: &MkfsLine<'_>,
    watcher: &impl Watcher,
) -> Result<Answer, Failure>
where
    R::File: FileExt + Send,
    ensures status { IfOk result (λ answer. answer.status ≡ 0) }
    ensures silent { IfOk result (λ answer. answer.text.items ≡ []) }
{
    let geometry = geometry_of(line.groups, line.blocks, line.inodes, line.format)?;
    match line.from {
        Some(folder) => make_from_folder(rt, line.image, &geometry, folder, watcher),
        None => {
            make_empty(rt, line.image, &geometry)?;
            Ok(Answer::nothing(rt.alloc()))
        }
    }
}

/// Makes a file with a fresh image, in place of what was there, waits until all of it is durable, and gives the file as it was opened. A
/// failure tells the file.
pub fn make_empty<R: Files + AllocGlobal>(
    rt: &R,
    image: &str,
    geometry: &Geometry,
) -> Result<FileDevice<R::File, Brand>, Failure>
where
    R::File: FileExt,
    ensures image { IfOk result (λ device. image_now (λ _. zero_block) device ≡ fresh_image geometry.now) }
    ensures durable { IfOk result (λ device. (held_so_far (λ _. zero_block) (λ _. zero_block) device).now.loose ≡ []) }
{
    let mut device = make_image(rt, image, geometry)?;
    match settle(&mut device) {
        Ok(()) => Ok(device),
        Err(refusal) => Err(Failure::from(refusal).on_image(rt, image)),
    }
}

/// Waits until all that was written to a device is durable.
fn settle<D: Device>(device: &mut D) -> Result<(), Refusal>
    ensures durable { OnOk result ((D.held device.new).now.loose ≡ []) }
    ensures same { D.image device.new ≡ D.image device.old }
{
    device.sync()?;
    Ok(())
}

/// Makes a file with a fresh image, in place of what was there, and gives it as it was opened. A failure tells the file.
fn make_image<R: Files + AllocGlobal>(
    rt: &R,
    image: &str,
    geometry: &Geometry,
) -> Result<FileDevice<R::File, Brand>, Failure>
where
    R::File: FileExt,
    ensures image { IfOk result (λ device. image_now (λ _. zero_block) device ≡ fresh_image geometry.now) }
    ensures given { IfOk result (λ device. device.waiting ≡ []) }
{
    make_file(rt, image, geometry).map_err(|failure| failure.on_image(rt, image))
}

/// Makes a file with a fresh image, of which the file was given all.
fn make_file<R: Files + AllocGlobal>(
    rt: &R,
    image: &str,
    geometry: &Geometry,
) -> Result<FileDevice<R::File, Brand>, Failure>
where
    R::File: FileExt,
    ensures image { IfOk result (λ device. image_now (λ _. zero_block) device ≡ fresh_image geometry.now) }
    ensures given { IfOk result (λ device. device.waiting ≡ []) }
{
    let mut device: FileDevice<R::File, Brand> = FileDevice::create(rt, image, geometry.blocks())?;
    match make(&mut device, geometry, Before::Zeroes) {
        Ok(()) => given(device),
        Err(refusal) => Err(Failure::from(refusal)),
    }
}

/// The same device, whose file was given what waited.
fn given<F: FileExt + Drop>(
    mut device: FileDevice<F, Brand>,
) -> Result<FileDevice<F, Brand>, Failure>
    ensures image { IfOk result (λ same. image_now (λ _. zero_block) same ≡ image_now (λ _. zero_block) device) }
    ensures given { IfOk result (λ same. same.waiting ≡ []) }
{
    match device.give() {
        Ok(()) => Ok(device),
        Err(fault) => Err(Failure::from(Refusal::from(fault))),
    }
}

/// Makes a file with an image of what a folder of the host holds. All names in the folder are looked at before the file is made.
fn make_from_folder<R: Files + AllocGlobal + Threads + Wait + Sync + Clone + Drop>(
    rt: &R,
    image: &str,
    geometry: &Geometry,
    folder: &str,
    watcher: &impl Watcher,
) -> Result<Answer, Failure>
where
    R::File: FileExt + Send,
    ensures status { IfOk result (λ answer. answer.status ≡ 0) }
    ensures silent { IfOk result (λ answer. answer.text.items ≡ []) }
{
    let items = items_of(rt, folder, geometry)?;
    make_of_items(rt, image, geometry, items.as_slice(), watcher)
}

/// Makes a file with an image that has these items. The file is opened once.
fn make_of_items<R: Files + AllocGlobal + Threads + Wait + Sync>(
    rt: &R,
    image: &str,
    geometry: &Geometry,
    items: &[Item],
    watcher: &impl Watcher,
) -> Result<Answer, Failure>
where
    R::File: FileExt + Send,
    ensures status { IfOk result (λ answer. answer.status ≡ 0) }
    ensures silent { IfOk result (λ answer. answer.text.items ≡ []) }
{
    let device = make_image(rt, image, geometry)?;
    silent(rt.alloc(), put_items(rt, image, device, items, watcher))
}

/// The items of a folder of the host, or of an archive on standard input, for an image of this geometry.
fn items_of<R: Files + AllocGlobal + Clone + Drop>(
    rt: &R,
    folder: &str,
    geometry: &Geometry,
) -> Result<Vec<Item>, Failure>
where
    R::File: FileExt,
{
    if folder == ARCHIVE {
        return items_given(rt, geometry);
    }
    items_of_folder(rt, folder, geometry)
}

/// The items of the archive on standard input, for an image of this geometry.
fn items_given<R: Files + AllocGlobal>(rt: &R, geometry: &Geometry) -> Result<Vec<Item>, Failure> {
    let archive = archive_given(rt)?;
    items_of_archive(rt.alloc(), archive.as_slice(), geometry)
}
