//! Lists of commands, carried out on volumes in memory.
use crate::answer::Answer;
use crate::line::{Line, is_skipped, parted};
use crate::pass::Pass;
use crate::session::Session;
use std::alloc::{AllocError, Global};
use std::thread::Threads;

/// Which answers are shown.
#[derive(Clone, Copy, PartialEq, Eq)]
pub enum Show {
    /// Those that are not what the line says, with the line's number.
    Wrong,
    /// Each one, alone in a line.
    Each,
}

/// What came of lists.
#[derive(Drop)]
pub struct Outcome {
    show: Show,
    /// The answers that are shown.
    pub text: String,
    /// How many lists there were.
    pub lists: usize,
    /// How many lines had an answer.
    pub lines: usize,
    /// How many of them say another one.
    pub wrong: usize,
}

impl Outcome {
    /// Before the first line.
    fn new(alloc: Global, show: Show) -> Outcome {
        Outcome {
            show,
            text: String::new(alloc),
            lists: 0,
            lines: 0,
            wrong: 0,
        }
    }

    /// Counts a line's answer, and shows it if it is to be shown.
    fn add(
        &mut self,
        alloc: Global,
        number: usize,
        answer: &Answer,
        wanted: Option<&[u8]>,
    ) -> Result<(), AllocError> {
        let mut given = String::new(alloc);
        answer.write_to(&mut given)?;
        let is_wrong = wanted.is_some_and(|wanted| wanted != given.as_bytes());
        self.lines = self.lines.saturating_add(1);
        if is_wrong {
            self.wrong = self.wrong.saturating_add(1);
        }
        match self.show {
            Show::Each => writeln!(self.text, "{given}"),
            Show::Wrong if is_wrong => writeln!(self.text, "line {number}: gives {given}"),
            Show::Wrong => Ok(()),
        }
    }
}

/// Carries out those lists of a file with these bytes that are for this pass.
pub fn carry_out_lists(
    rt: &(impl Threads + Sync),
    alloc: Global,
    bytes: &[u8],
    pass: Pass,
    show: Show,
) -> Result<Outcome, AllocError> {
    let mut outcome = Outcome::new(alloc, show);
    let mut session = Session::new(pass);
    let done = carry_out_all(rt, alloc, &mut session, &mut outcome, bytes);
    drop(session);
    done.and(Ok(outcome))
}

/// Carries out the lines of a file with these bytes.
fn carry_out_all(
    rt: &(impl Threads + Sync),
    alloc: Global,
    session: &mut Session,
    outcome: &mut Outcome,
    bytes: &[u8],
) -> Result<(), AllocError> {
    let mut number = 0usize;
    for line in bytes.split(|byte| *byte == b'\n') {
        number = number.saturating_add(1);
        carry_out_line(rt, alloc, session, outcome, number, line)?;
    }
    Ok(())
}

/// Carries out a line of a list.
fn carry_out_line(
    rt: &(impl Threads + Sync),
    alloc: Global,
    session: &mut Session,
    outcome: &mut Outcome,
    number: usize,
    line: &[u8],
) -> Result<(), AllocError> {
    if is_skipped(line) {
        return Ok(());
    }
    let (asked, wanted) = parted(line);
    let asked = Line::parse(alloc, asked)?;
    let begins = matches!(asked, Line::Volume { .. });
    let answer = session.carry_out(rt, alloc, asked)?;
    if begins && !session.skips() {
        outcome.lists = outcome.lists.saturating_add(1);
    }
    match answer {
        Some(answer) => outcome.add(alloc, number, &answer, wanted),
        None => Ok(()),
    }
}
