//! The story, part by part.
use crate::demo::passages::{say, show};
use crate::demo::texts::{
    ANSWERED, DAMAGE, FRESH, HELP, LEAKS_ALONE, REPAIRED, SCRIPT, SCRIPT_GIVEN, STOPPED, STOPS,
    USERS_GIVEN, USERS_SCRIPT, WORKERS,
};
use crate::demo::volumes::{fresh_bytes, held_by, run_of_users, script, stopped};
use crate::run::text_of;
use crate::stops::stops;
use command_line::DAMAGED;
use device::MemDevice;
use findings::Verdict;
use image_lines::check::check;
use joint_devices::Joint;
use layout::Refusal;
use std::alloc::{AllocError, Global};
use std::sync::Wait;
use std::thread::Threads;
use users::Ran;
use workers::{OpenGate, Workers};

/// All parts of the story.
pub(crate) fn story(rt: &(impl Threads + Wait + Sync), alloc: Global) -> Result<Vec<u8>, Refusal> {
    let image = fresh_bytes(alloc)?;
    let mut text = Vec::new(alloc);
    tell(rt, alloc, &mut text, image.as_slice())?;
    Ok(text)
}

/// Tells the story of a fresh image.
fn tell(
    rt: &(impl Threads + Wait + Sync),
    alloc: Global,
    text: &mut Vec<u8>,
    image: &[u8],
) -> Result<(), Refusal> {
    tell_fresh(rt, alloc, text, image)?;
    tell_stop(rt, alloc, text, image)?;
    tell_stops(rt, alloc, text, image)
}

/// Tells what a check finds on a fresh image.
fn tell_fresh(
    rt: &(impl Threads + Sync),
    alloc: Global,
    text: &mut Vec<u8>,
    image: &[u8],
) -> Result<(), Refusal> {
    say(text, FRESH)?;
    let mut device = MemDevice::from_bytes(alloc, image)?;
    tell_verdict(rt, alloc, text, &mut device)
}

/// Tells the verdict of a check on what a device holds.
fn tell_verdict(
    rt: &(impl Threads + Sync),
    alloc: Global,
    text: &mut Vec<u8>,
    device: &mut MemDevice,
) -> Result<(), Refusal> {
    let verdict = verdict_of(rt, alloc, device)?;
    let line = format!(in alloc; "verdict {verdict}\n")?;
    show(text, line.as_bytes())?;
    Ok(())
}

/// The verdict of a check on what a device holds.
fn verdict_of(
    rt: &(impl Threads + Sync),
    alloc: Global,
    device: &mut MemDevice,
) -> Result<Verdict, Refusal> {
    let checked = check(rt, alloc, device, Workers::nearest(WORKERS), &OpenGate)?;
    Ok(checked.verdict())
}

/// Tells of the script on a fresh image, of what one stop of it leaves, and of two users who work on that.
fn tell_stop(
    rt: &(impl Threads + Wait + Sync),
    alloc: Global,
    text: &mut Vec<u8>,
    image: &[u8],
) -> Result<(), Refusal> {
    tell_script(text)?;
    let mut device = stopped(alloc, image)?;
    tell_report(rt, alloc, text, &mut device)?;
    tell_users(rt, alloc, text, device)
}

/// Tells the script, and where it is stopped.
fn tell_script(text: &mut Vec<u8>) -> Result<(), AllocError> {
    say(text, SCRIPT_GIVEN)?;
    show(text, SCRIPT.as_bytes())?;
    say(text, STOPPED)
}

/// Tells the report of a check on what a device holds.
fn tell_report(
    rt: &(impl Threads + Sync),
    alloc: Global,
    text: &mut Vec<u8>,
    device: &mut MemDevice,
) -> Result<(), Refusal> {
    let checked = check(rt, alloc, device, Workers::nearest(WORKERS), &OpenGate)?;
    show(text, checked.report())?;
    Ok(())
}

/// Tells of two users on what a device holds, which is checked and repaired meanwhile.
fn tell_users(
    rt: &(impl Threads + Wait + Sync),
    alloc: Global,
    text: &mut Vec<u8>,
    device: MemDevice,
) -> Result<(), Refusal> {
    let ran = run_of_users(rt, alloc, device)?;
    tell_ran(rt, alloc, text, &ran)
}

/// Tells what came of the users, and of the image.
fn tell_ran(
    rt: &(impl Threads + Sync),
    alloc: Global,
    text: &mut Vec<u8>,
    ran: &Ran<Joint<MemDevice>>,
) -> Result<(), Refusal> {
    tell_answers(alloc, text, ran)?;
    tell_repaired(rt, alloc, text, ran)
}

/// Tells the script of the users, and what came of it.
fn tell_answers(
    alloc: Global,
    text: &mut Vec<u8>,
    ran: &Ran<Joint<MemDevice>>,
) -> Result<(), Refusal> {
    say(text, USERS_GIVEN)?;
    show(text, USERS_SCRIPT.as_bytes())?;
    say(text, ANSWERED)?;
    let answer = text_of(alloc, ran.answered.as_slice(), &ran.mended)?;
    show(text, answer.text.as_slice())?;
    Ok(())
}

/// Tells the verdict of a check on what is held once the users have ended and all is written.
fn tell_repaired(
    rt: &(impl Threads + Sync),
    alloc: Global,
    text: &mut Vec<u8>,
    ran: &Ran<Joint<MemDevice>>,
) -> Result<(), Refusal> {
    say(text, REPAIRED)?;
    let mut device = held_by(alloc, &ran.volume)?;
    tell_verdict(rt, alloc, text, &mut device)
}

/// Tells what each stop of the script leaves of a fresh image.
fn tell_stops(
    rt: &(impl Threads + Sync),
    alloc: Global,
    text: &mut Vec<u8>,
    image: &[u8],
) -> Result<(), Refusal> {
    say(text, STOPS)?;
    let answer = stops(rt, alloc, image, script(alloc)?)?;
    show(text, answer.text.as_slice())?;
    end(text, answer.status)?;
    Ok(())
}

/// Tells what was seen of the stops, whose status is this.
fn end(text: &mut Vec<u8>, status: u8) -> Result<(), AllocError> {
    let seen = if status == DAMAGED {
        DAMAGE
    } else {
        LEAKS_ALONE
    };
    text.extend_from_slice(seen.as_bytes())?;
    text.extend_from_slice(HELP.as_bytes())
}
