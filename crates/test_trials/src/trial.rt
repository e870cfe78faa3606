//! Lists of steps with their answers.
use crate::images::Put;
use command_text::{first_word, number, parse_command, three_numbers};
use layout::{BLOCK_BYTES, Refusal, SINGLE};
use snapshot::Command;
use std::alloc::Global;

/// A volume, and what is done with it.
#[derive(Clone, Copy)]
pub struct Trial {
    /// What it is called.
    pub name: &'static str,
    /// The versions of the layout with which it is carried out. It comes out the same with each.
    pub versions: &'static [u32],
    /// How many groups it has, and how many blocks and inodes each has.
    pub numbers: [u32; 3],
    /// What its image has in place of a fresh one's bytes.
    pub puts: &'static [Put],
    /// What is done on a volume of this image, and synced, before the trial begins: lines, each of which is answered `ok` and so
    /// on.
    pub before: &'static [&'static str],
    /// What is asked of it, each with its answer:
    ///
    /// - a command in text, and its answer or `refused` with the number of the cause and its name
    /// - `fill HANDLE INDEX COUNT`: as many writes, each of a whole block, from this index on; the answer is that of each
    /// - `check`: the snapshot of the latest freeze is checked, and the check is installed; the answer has what it finds
    /// - `unmarked`: how many data blocks are not marked
    pub lines: &'static [(&'static str, &'static str)],
}

/// What is asked of a mounted volume.
#[derive(Drop)]
pub enum Action {
    /// A command is carried out.
    Command(Command),
    /// The snapshot of the latest freeze is checked, and the check is installed.
    Check,
    /// The data blocks are counted that are not marked.
    Unmarked,
}

/// What is asked of a mounted volume, and the answer that it is to give.
#[derive(Drop)]
pub struct Step {
    pub action: Action,
    pub wanted: &'static str,
}

/// What stands behind the name of a trial that is carried out with this version of the layout: nothing for version 1.
pub fn behind_name(version: u32) -> &'static str {
    if version == SINGLE { "" } else { ", version 2" }
}

/// Whether the words of a line, the program's name first, ask for the trial of this name with this version of the layout: no
/// words ask for each, and a name alone for that with version 1.
pub fn is_asked(words: &[String], name: &str, version: u32) -> bool {
    match words {
        [_, asked, of_version, ..] => asked.as_str() == name
            && number(of_version.as_bytes()) == Some(version),
        [_, asked] => asked.as_str() == name && version == SINGLE,
        _ => true,
    }
}

/// What is done before a trial begins. Refused with `NoMemory`, and with `BadName` where a line is of another form.
pub fn steps_before(alloc: Global, trial: &Trial) -> Result<Vec<Step>, Refusal> {
    let mut steps = Vec::new(alloc);
    for line in trial.before {
        add_steps(alloc, &mut steps, line.as_bytes(), "ok")?;
    }
    Ok(steps)
}

/// The steps of a trial. Refused with `NoMemory`, and with `BadName` where a line is of another form.
pub fn steps_of(alloc: Global, trial: &Trial) -> Result<Vec<Step>, Refusal> {
    let mut steps = Vec::new(alloc);
    for (line, wanted) in trial.lines {
        add_steps(alloc, &mut steps, line.as_bytes(), *wanted)?;
    }
    Ok(steps)
}

/// The steps of the lines of a text, each of which may have any answer: commands, and the other lines that a trial may have.
/// Refused with `NoMemory`, and with `BadName` where a line is of another form.
pub fn steps_in(alloc: Global, text: &[u8]) -> Result<Vec<Step>, Refusal> {
    let mut steps = Vec::new(alloc);
    for line in text.split(|byte| *byte == b'\n') {
        if !line.is_empty() {
            add_steps(alloc, &mut steps, line, "")?;
        }
    }
    Ok(steps)
}

/// Adds the steps of a line.
fn add_steps(
    alloc: Global,
    steps: &mut Vec<Step>,
    line: &[u8],
    wanted: &'static str,
) -> Result<(), Refusal> {
    let action = match first_word(line) {
        (b"check", None) => Action::Check,
        (b"unmarked", None) => Action::Unmarked,
        (b"fill", Some(words)) => return add_writes(alloc, steps, words, wanted),
        _ => Action::Command(parse_command(alloc, line)?.ok_or(Refusal::BadName)?),
    };
    steps.push(Step { action, wanted })?;
    Ok(())
}

/// Adds the writes of a line with these words.
fn add_writes(
    alloc: Global,
    steps: &mut Vec<Step>,
    words: &[u8],
    wanted: &'static str,
) -> Result<(), Refusal> {
    let (handle, first, count) = three_numbers(words).ok_or(Refusal::BadName)?;
    for index in first..first.saturating_add(count) {
        let [byte, ..] = index.to_le_bytes();
        let action = Action::Command(Command::Write {
            handle,
            index,
            piece: vec![in alloc; byte; BLOCK_BYTES]?,
        });
        steps.push(Step { action, wanted })?;
    }
    Ok(())
}
