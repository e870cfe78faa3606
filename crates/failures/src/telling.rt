//! What is told of a failure on standard error.
ghost use Rattle.std.specs.Prelude.{◌≡◌};
ghost use Rattle.failures.specs.Status as spec;

use crate::failure::{Failure, Steps};
use crate::reason::Reason;
use layout::Refusal;
use std::fmt;
use std::io::Write;

/// The text, each of its lines with its line feed.
impl fmt::Display for Failure {
    fn fmt<W: fmt::Write>(&self, f: &mut fmt::Formatter<W>) -> fmt::Result {
        match self {
            Failure::Line(text) => f.write_str(text.as_str()),
            Failure::Refused {
                cause,
                place,
                reason,
                steps,
            } => {
                writeln!(f, "refused {cause}")?;
                write_place(f, *cause, place, *reason)?;
                write_steps(f, *steps)
            }
        }
    }
}

/// Writes the line that tells where and why, as far as that is known. Of a damaged image it names the line that tells the damage.
fn write_place<W: fmt::Write>(
    f: &mut fmt::Formatter<W>,
    cause: Refusal,
    place: &Option<String>,
    reason: Option<Reason>,
) -> fmt::Result {
    match (place, reason) {
        (Some(image), _) if cause == Refusal::Damaged => { writeln!(f, "see: fsvol check {image}") }
        (Some(place), Some(reason)) => writeln!(f, "at {place}: {reason}"),
        (Some(place), None) => writeln!(f, "at {place}"),
        (None, Some(reason)) => writeln!(f, "{reason}"),
        (None, None) => Ok(()),
    }
}

/// Writes the line that tells how far the line came, if it began.
fn write_steps<W: fmt::Write>(f: &mut fmt::Formatter<W>, steps: Option<Steps>) -> fmt::Result {
    match steps {
        Some(Steps { done, count }) => writeln!(f, "done {done} of {count}"),
        None => Ok(()),
    }
}

impl Failure {
    /// Prints why, and gives the status, also where it cannot be printed.
    pub fn report<W: Write>(&self, err: &mut W) -> u8
        ensures { result ≡ spec.status_of self.now }
    {
        let _ = write!(err, "{self}");
        self.status()
    }
}
