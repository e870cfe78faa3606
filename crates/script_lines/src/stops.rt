//! The line `stops`: what a stop after each write of a script leaves of an image.
ghost use Rattle.std.specs.Prelude.{◌<◌, IfOk, OnOk};
ghost use Rattle.script_lines.specs.Carried.{RunsOn};

use crate::scripts::{lines_of_file, of_script};
use clap::{ArgMatches, Command as Words};
use command_line::{Answer, DAMAGED, Failure, bytes_of_file};
use device::{Device, MemDevice};
use findings::Verdict;
use image_changes::mount;
use image_lines::check::check;
use layout::Refusal;
use recording::{Recording, Written};
use snapshot::{Command, Reply, Volume};
use std::alloc::{AllocError, Global};
use std::rt::Files;
use std::thread::Threads;
use user_scripts::{Commands, Handles, MOST_USERS, Then, UserLine};
use workers::{OpenGate, Workers};

/// What the line asks for: the stops of a script on an image.
#[derive(Clone, Copy)]
pub struct StopsLine<'a> {
    pub image: &'a str,
    pub script: &'a str,
}

/// The words of the line.
pub fn command<'a>(alloc: Global) -> Result<Words<'a>, AllocError> {
    of_script(
        alloc,
        "stops",
        "Prints what a check finds where a script stops after each of its writes; writes no file",
    )
}

/// What these words ask for.
pub fn line_of<'a>(options: &ArgMatches<'a>) -> Option<StopsLine<'a>> {
    Some(StopsLine {
        image: options.get_str("image")?,
        script: options.get_str("script")?,
    })
}

/// Tells the stops of a script on a file's image, which is read alone. The script is looked at before the image.
pub fn answer<R: Files + AllocGlobal + Threads + Sync>(
    rt: &R,
    line: &StopsLine<'_>,
) -> Result<Answer, Failure>
    ensures { IfOk result (λ answer. answer.status < 3) }
{
    let lines = lines_of_file(rt, line.script, Commands::OfUsersAndFlushes)?;
    stops_of_file(rt, line.image, lines).map_err(|failure| failure.on_image(rt, line.image))
}

/// Tells the stops of a script on a file's image.
fn stops_of_file<R: Files + AllocGlobal + Threads + Sync>(
    rt: &R,
    image: &str,
    script: Vec<UserLine>,
) -> Result<Answer, Failure>
    ensures { IfOk result (λ answer. answer.status < 3) }
{
    let bytes = bytes_of_file(rt, image)?;
    Ok(stops(rt, rt.alloc(), bytes.as_slice(), script)?)
}

/// Mounts the volume of an image in memory, carries out the lines of a script one by one, and syncs. What is printed has a line
/// for each number of writes, from none on: the verdict of a check on what the device held after so many, and how much it
/// found. Where memory runs out for a line, all is refused with `NoMemory`.
pub fn stops(
    rt: &(impl Threads + Sync),
    alloc: Global,
    image: &[u8],
    script: Vec<UserLine>,
) -> Result<Answer, Refusal>
    ensures status { IfOk result (λ answer. answer.status < 3) }
{
    let device = Recording::new(alloc, MemDevice::from_bytes(alloc, image)?);
    let mut volume = mount(alloc, device)?;
    stops_of_script(rt, alloc, image, &mut volume, script)
}

/// Carries out the lines of a script on the mounted volume of this image, and tells its stops.
fn stops_of_script(
    rt: &(impl Threads + Sync),
    alloc: Global,
    image: &[u8],
    volume: &mut Volume<Recording<MemDevice>>,
    script: Vec<UserLine>,
) -> Result<Answer, Refusal>
    ensures { IfOk result (λ answer. answer.status < 3) }
{
    carry_out(alloc, volume, script)?;
    volume.apply(alloc, &Command::Sync)?;
    let mut held = MemDevice::from_bytes(alloc, image)?;
    stops_of(rt, alloc, &mut held, volume.live().device().writes())
}

/// Carries out the lines of a script one by one. What the volume refuses is passed over, but for `NoMemory` and `Device`.
pub(crate) fn carry_out<D: Device>(
    alloc: Global,
    volume: &mut Volume<D>,
    script: Vec<UserLine>,
) -> Result<(), Refusal>
    ensures ran { OnOk result (D.honest volume.new.device
        → RunsOn (D.held volume.old.device) (D.image volume.old.device) volume.old (D.held volume.new.device) (D.image volume.new.device) volume.new) }
    ensures honest { D.honest volume.new.device → D.honest volume.old.device }
{
    let mut handles = no_handles(alloc)?;
    for line in script {
        let user = usize::from(line.user) - 1;
        if let Some(handles) = handles.get_mut(user) {
            carry_out_line(alloc, volume, handles, line.command, line.then)?;
        }
    }
    Ok(())
}

/// The handles of each user before its first line.
fn no_handles(alloc: Global) -> Result<Vec<Handles>, AllocError> {
    let mut handles = Vec::new(alloc);
    for _user in 0..MOST_USERS {
        handles.push(Handles::new(alloc))?;
    }
    Ok(handles)
}

/// Carries out a line of a user with these handles. One of a handle that the user has not open is passed over.
fn carry_out_line<D: Device>(
    alloc: Global,
    volume: &mut Volume<D>,
    handles: &mut Handles,
    command: Command,
    then: Then,
) -> Result<(), Refusal>
    ensures ran { OnOk result (D.honest volume.new.device
        → RunsOn (D.held volume.old.device) (D.image volume.old.device) volume.old (D.held volume.new.device) (D.image volume.new.device) volume.new) }
    ensures honest { D.honest volume.new.device → D.honest volume.old.device }
{
    let Ok(command) = handles.command_for(command) else {
        return Ok(());
    };
    let reply = volume.apply(alloc, &command);
    handles.note(&command, &reply)?;
    carry_out_then(alloc, volume, then, &reply)
}

/// Carries out what a line asks for behind the command that had this reply.
fn carry_out_then<D: Device>(
    alloc: Global,
    volume: &mut Volume<D>,
    then: Then,
    reply: &Reply,
) -> Result<(), Refusal>
    ensures ran { OnOk result (D.honest volume.new.device
        → RunsOn (D.held volume.old.device) (D.image volume.old.device) volume.old (D.held volume.new.device) (D.image volume.new.device) volume.new) }
    ensures honest { D.honest volume.new.device → D.honest volume.old.device }
{
    match then.command(reply) {
        Some(next) => passed_over(&volume.apply(alloc, &next)),
        None => passed_over(reply),
    }
}

/// What a volume refuses is passed over, but for `NoMemory` and `Device`.
fn passed_over(reply: &Reply) -> Result<(), Refusal> {
    match reply {
        Err(refusal @ (Refusal::NoMemory | Refusal::Device)) => Err(*refusal),
        _ => Ok(()),
    }
}

/// A line for each number of writes on a device, and the status of all.
fn stops_of(
    rt: &(impl Threads + Sync),
    alloc: Global,
    device: &mut MemDevice,
    writes: &[Written],
) -> Result<Answer, Refusal>
    ensures { IfOk result (λ answer. answer.status < 3) }
{
    let mut text = String::new(alloc);
    let mut damaged = write_stop(rt, alloc, &mut text, device, 0)?;
    for (before, written) in writes.iter().enumerate() {
        written.repeat_on(device)?;
        damaged |= write_stop(rt, alloc, &mut text, device, before + 1)?;
    }
    Ok(Answer {
        text: text.into_bytes(),
        status: if damaged { DAMAGED } else { 0 },
    })
}

/// Writes the line of what a device holds after so many writes, and tells whether it is damaged.
fn write_stop(
    rt: &(impl Threads + Sync),
    alloc: Global,
    text: &mut String,
    device: &mut MemDevice,
    writes: usize,
) -> Result<bool, Refusal> {
    let checked = check(rt, alloc, device, Workers::ONE, &OpenGate)?;
    let verdict = checked.verdict();
    let findings = checked.findings().len();
    writeln!(text, "stop {writes} verdict {verdict} findings {findings}")?;
    Ok(verdict == Verdict::Damaged)
}
