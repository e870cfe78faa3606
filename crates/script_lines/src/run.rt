//! The line `run`: what the users of a script are answered, while an image is checked and mended.
ghost use Rattle.std.specs.Prelude.{◌≡◌, Err, IfOk, IsFalse};
ghost use Rattle.failures.specs.Status.{plain};
ghost use Rattle.layout.specs.declared.refusal.Refusal.TheVariants.{BadWorkers};
ghost use Rattle.loaders.specs.Readers.{Show};
ghost use Rattle.worker_counts.specs.Workers.{may_work};

use crate::scripts::{lines_of_file, of_script};
use clap::{ArgMatches, Command};
use command_line::{Answer, Failure, arguments, others_of};
use command_text::write_reply;
use device::Device;
use file_device::FileDevice;
use image_lines::mounting::mount;
use image_lines::repair::write_repairs;
use layout::Refusal;
use snapshot::Volume;
use std::alloc::{AllocError, Global};
use std::marker::Brand;
use std::os::unix::fs::FileExt;
use std::rt::Files;
use std::sync::Wait;
use std::thread::Threads;
use user_scripts::{Commands, UserLine};
use users::{Answered, Mended, Ran};
use workers::{OpenGate, Workers};

/// What the line asks for: what the users of a script are answered, while the image is checked by this many workers and mended.
#[derive(Clone, Copy)]
pub struct RunLine<'a> {
    pub image: &'a str,
    pub script: &'a str,
    pub workers: u32,
}

/// The words of the line.
pub fn command<'a>(alloc: Global) -> Result<Command<'a>, AllocError> {
    of_script(
        alloc,
        "run",
        "Carries out a script of users while an image is checked and mended, and prints their answers",
    )?
    .arg(arguments::workers(alloc))
}

/// What these words ask for.
pub fn line_of<'a>(options: &ArgMatches<'a>) -> Option<RunLine<'a>> {
    Some(RunLine {
        image: options.get_str("image")?,
        script: options.get_str("script")?,
        workers: options.get_one("workers")?,
    })
}

/// Carries out a script on the volume of a file's image. The number of workers is looked at before the script, and that before
/// the image.
pub fn answer<R: Files + AllocGlobal + Threads + Wait + Sync>(
    rt: &R,
    line: &RunLine<'_>,
) -> Result<Answer, Failure>
where
    R::File: FileExt + Send,
    ensures status { IfOk result (λ answer. answer.status ≡ 0) }
    ensures workers { IsFalse (may_work line.now.workers) → result ≡ Err (plain BadWorkers) }
{
    let workers = Workers::new(line.workers)?;
    let lines = lines_of_file(rt, line.script, Commands::OfUsers)?;
    run_on_file(rt, line.image, lines, workers).map_err(|failure| failure.on_image(rt, line.image))
}

/// Carries out the lines of a script on the volume of a file's image.
fn run_on_file<R: Files + AllocGlobal + Threads + Wait + Sync>(
    rt: &R,
    image: &str,
    script: Vec<UserLine>,
    workers: Workers,
) -> Result<Answer, Failure>
where
    R::File: FileExt + Send,
    ensures { IfOk result (λ answer. answer.status ≡ 0) }
{
    let alloc = rt.alloc();
    let device: FileDevice<R::File, Brand> = FileDevice::open_to_write(rt, image)?;
    let others = others_of(alloc, &device, workers)?;
    Ok(run(rt, alloc, device, others, script, workers)?)
}

/// Mounts the volume of a device, whose image as many workers check first, and carries out the lines of a script, those of each
/// user by a thread of its own, while the volume is frozen, checked by this many workers and mended once, and flushed; then all
/// is written. What is printed has each user's lines with their answers, the report of the check, its repairs, and how many of
/// them were carried out. The image is loaded by as many workers as there are other devices, which show the same.
pub fn run<D: Device + Drop + Send>(
    rt: &(impl Threads + Wait + Sync),
    alloc: Global,
    device: D,
    others: Vec<D>,
    script: Vec<UserLine>,
    workers: Workers,
) -> Result<Answer, Refusal>
    requires { Show D.image (D.image device) others.items }
    ensures { IfOk result (λ answer. answer.status ≡ 0) }
{
    let volume = Volume::new(mount(rt, alloc, device, others, workers, &OpenGate)?);
    let Ran {
        answered,
        mended,
        volume: _,
    } = users::run(rt, alloc, volume, script, workers)?;
    text_of(alloc, answered.as_slice(), &mended)
}

/// What is printed of what users are answered, and of what was mended.
pub(crate) fn text_of(
    alloc: Global,
    answered: &[Answered],
    mended: &Mended,
) -> Result<Answer, Refusal>
    ensures { IfOk result (λ answer. answer.status ≡ 0) }
{
    let mut text = lines_of(alloc, answered)?;
    add_mended(alloc, &mut text, mended)?;
    Ok(Answer { text, status: 0 })
}

/// The lines of the users, each with its answer.
fn lines_of(alloc: Global, answered: &[Answered]) -> Result<Vec<u8>, AllocError> {
    let mut lines = Vec::new(alloc);
    for line in answered {
        let mut answer = String::from_str(alloc, " -> ")?;
        write_reply(&mut answer, &line.reply)?;
        answer.push('\n')?;
        lines.extend_from_slice(line.text.as_slice())?;
        lines.extend_from_slice(answer.as_bytes())?;
    }
    Ok(lines)
}

/// Adds the report of a check, a line for each repair, and how many of them were carried out.
fn add_mended(alloc: Global, text: &mut Vec<u8>, mended: &Mended) -> Result<(), AllocError> {
    let mut repairs = String::new(alloc);
    write_repairs(&mut repairs, mended.checked.repairs())?;
    let repaired = mended.repaired;
    writeln!(repairs, "repaired {repaired}")?;
    text.extend_from_slice(mended.checked.report())?;
    text.extend_from_slice(repairs.as_bytes())?;
    Ok(())
}
