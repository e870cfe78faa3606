//! Actions carried out on a mounted volume.
use crate::trial::Action;
use command_text::write_answer;
use device::Device;
use fsck::{Checked, check_one};
use layout::Refusal;
use snapshot::{Answer, Volume};
use std::alloc::{AllocError, Global};
use std::sync::Arc;
use std::thread::Threads;

/// What an action is answered.
#[derive(Drop)]
pub enum Told {
    /// The answer to a command.
    Answer(Answer),
    /// The check that was installed.
    Checked(Checked),
    /// A number.
    Count(u32),
}

/// Carries out an action. One that is refused changes nothing of what users see; `check` is refused with `NoSnapshot` where the
/// snapshot of the latest freeze stands no more.
pub fn carry_out<D: Device>(
    rt: &(impl Threads + Sync),
    alloc: Global,
    volume: &mut Volume<D>,
    action: &Action,
) -> Result<Told, Refusal> {
    match action {
        Action::Command(command) => Ok(Told::Answer(volume.apply(alloc, command)?)),
        Action::Check => Ok(Told::Checked(check_and_install(rt, alloc, volume)?)),
        Action::Unmarked => Ok(Told::Count(volume.live().unmarked_blocks())),
    }
}

/// Checks the snapshot of the latest freeze, and installs the check.
fn check_and_install<D: Device>(
    rt: &(impl Threads + Sync),
    alloc: Global,
    volume: &mut Volume<D>,
) -> Result<Checked, Refusal> {
    let Some(snapshot) = volume.live().latest() else {
        return Err(Refusal::NoSnapshot);
    };
    let snapshot = Arc::try_clone(snapshot)?;
    let checked = check_one(rt, alloc, &snapshot)?;
    volume.install(alloc, &checked)?;
    Ok(checked)
}

/// Writes behind a text how an action came out: as a command's answer is written, `clean` or each finding with `; ` between
/// them, a number, or `refused` with the number of the cause and its name.
pub fn write_told(text: &mut String, told: &Result<Told, Refusal>) -> Result<(), AllocError> {
    match told {
        Ok(Told::Answer(answer)) => write_answer(text, answer),
        Ok(Told::Checked(checked)) => write_findings(text, checked),
        Ok(Told::Count(count)) => write!(text, "{count}"),
        Err(refusal) => write!(text, "refused {refusal}"),
    }
}

/// Writes what a check found.
fn write_findings(text: &mut String, checked: &Checked) -> Result<(), AllocError> {
    if checked.findings().is_empty() {
        return write!(text, "clean");
    }
    for (place, finding) in checked.findings().iter().enumerate() {
        if place > 0 {
            write!(text, "; ")?;
        }
        write!(text, "{finding}")?;
    }
    Ok(())
}
