//! The line `cuts`: what a loss of power at each moment of a script may leave of an image.
ghost use Rattle.std.specs.Prelude.{◌≡◌, ◌<◌, List, IfOk, OnOk};
ghost use Rattle.device.specs.Cached.{Cache};
ghost use Rattle.left_images.specs.Judged.{AreCuts};
ghost use Rattle.left_images.specs.declared.judging.Cut.{Cut};
ghost use Rattle.script_lines.specs.Carried.{RunsOn};
ghost use Rattle.script_lines.specs.Cuts.{IsSaid, TellsCuts, TellsMoments, held_in, image_in};

use crate::scripts::{lines_of_file, of_script};
use crate::stops::carry_out;
use clap::{Arg, ArgMatches, Command as Words, value_parser};
use command_line::{Answer, DAMAGED, Failure, bytes_of_file};
use device::{CacheDevice, MemDevice};
use findings::Verdict;
use image_changes::mount;
use image_lines::check::check;
use layout::Refusal;
use left_images::{Judge, may_damage, report};
use snapshot::{Command, Volume};
use std::alloc::{AllocError, Global};
use std::rt::Files;
use std::thread::Threads;
use user_scripts::{Commands, UserLine};
use workers::{OpenGate, Workers};

/// What the line asks for: what a loss of power at each moment of a script on an image may leave, and which of it is looked at.
#[derive(Clone, Copy)]
pub struct CutsLine<'a> {
    pub image: &'a str,
    pub script: &'a str,
    pub tries: Tries,
}

/// Which of the images that may be left at a moment are looked at.
#[derive(Clone, Copy)]
pub struct Tries {
    /// How many at most.
    pub most: u32,
    /// By which some of them are chosen, if there are more.
    pub seed: u64,
}

/// The words of the line.
pub fn command<'a>(alloc: Global) -> Result<Words<'a>, AllocError> {
    of_script(
        alloc,
        "cuts",
        "Prints what a check finds where the power fails after each write and sync of a script; writes no file",
    )?
    .arg(most(alloc))?
    .arg(seed(alloc))
}

/// How many images are looked at at each moment.
fn most<'a>(alloc: Global) -> Arg<'a> {
    Arg::new(alloc, "most")
        .long("most")
        .value_name("NUMBER")
        .default_value("64")
        .value_parser(value_parser!(u32).range(2..=65_536))
        .help("How many images are looked at after each step at most, 2 to 65536")
}

/// The seed by which some of the images are chosen.
fn seed<'a>(alloc: Global) -> Arg<'a> {
    Arg::new(alloc, "seed")
        .long("seed")
        .value_name("NUMBER")
        .default_value("0")
        .value_parser(value_parser!(u64))
        .help("By which images are chosen where there are more")
}

/// What these words ask for.
pub fn line_of<'a>(options: &ArgMatches<'a>) -> Option<CutsLine<'a>> {
    Some(CutsLine {
        image: options.get_str("image")?,
        script: options.get_str("script")?,
        tries: Tries {
            most: options.get_one("most")?,
            seed: options.get_one("seed")?,
        },
    })
}

/// Tells what losses of power leave of a file's image, which is read alone. The script is looked at before the image.
pub fn answer<R: Files + AllocGlobal + Threads + Sync>(
    rt: &R,
    line: &CutsLine<'_>,
) -> Result<Answer, Failure>
    ensures { IfOk result (λ answer. answer.status < 3) }
{
    let lines = lines_of_file(rt, line.script, Commands::OfUsersAndFlushes)?;
    cuts_of_file(rt, line.image, lines, line.tries).map_err(|failure| failure.on_image(
        rt, line.image,
    ))
}

/// Tells what losses of power leave of a file's image.
fn cuts_of_file<R: Files + AllocGlobal + Threads + Sync>(
    rt: &R,
    image: &str,
    script: Vec<UserLine>,
    tries: Tries,
) -> Result<Answer, Failure>
    ensures { IfOk result (λ answer. answer.status < 3) }
{
    let bytes = bytes_of_file(rt, image)?;
    Ok(cuts(rt, rt.alloc(), bytes.as_slice(), script, tries)?)
}

/// Mounts the volume of an image in memory, on a device with a write cache, carries out the lines of a script one by one, and
/// syncs. What is printed has a line for each number of the device's writes and syncs, from none on: how many writes were loose
/// after so many, how many of the images that a loss of power may leave then were checked, and the worst verdict.
pub fn cuts(
    rt: &(impl Threads + Sync),
    alloc: Global,
    image: &[u8],
    script: Vec<UserLine>,
    tries: Tries,
) -> Result<Answer, Refusal>
    ensures status { IfOk result (λ answer. answer.status < 3) }
    ensures told { IfOk result (λ answer. TellsCuts image.now tries.most answer) }
{
    let device = CacheDevice::over(alloc, MemDevice::from_bytes(alloc, image)?)?;
    let mut volume = mount(alloc, device)?;
    cuts_of_script(rt, alloc, &mut volume, script, tries)
}

/// Carries out the lines of a script on a mounted volume, syncs it, and tells what losses of power leave.
fn cuts_of_script(
    rt: &(impl Threads + Sync),
    alloc: Global,
    volume: &mut Volume<CacheDevice>,
    script: Vec<UserLine>,
    tries: Tries,
) -> Result<Answer, Refusal>
    ensures told { IfOk result (λ answer. TellsMoments volume.new.device tries.most answer) }
    ensures ran { OnOk result (RunsOn (held_in volume.old.device) (image_in volume.old.device) volume.old (held_in volume.new.device) (image_in volume.new.device) volume.new) }
{
    carry_out(alloc, volume, script)?;
    volume.apply(alloc, &Command::Sync)?;
    told(rt, alloc, volume.live().device(), tries)
}

/// What is told of each moment that a device had.
fn told(
    rt: &(impl Threads + Sync),
    alloc: Global,
    device: &CacheDevice,
    tries: Tries,
) -> Result<Answer, Refusal>
    ensures { IfOk result (λ answer. TellsMoments device.entry.now tries.most answer) }
{
    let mut checks = Checks { alloc };
    let cuts = left_images::cuts(rt, alloc, device, tries.most, tries.seed, &mut checks)?;
    Ok(Answer {
        text: report(alloc, cuts.as_slice())?,
        status: if may_damage(cuts.as_slice()) {
            DAMAGED
        } else {
            0
        },
    })
}

/// Who judges an image by a check.
#[derive(Drop)]
struct Checks {
    alloc: Global,
}

impl Judge for Checks {
    ghost tells = { IsSaid };

    fn judge<R: Threads + Sync>(&mut self, rt: &R, device: MemDevice) -> Result<Verdict, Refusal> {
        let mut device = device;
        Ok(check(rt, self.alloc, &mut device, Workers::ONE, &OpenGate)?.verdict())
    }
}
