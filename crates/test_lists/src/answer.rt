//! What a line is answered with, and how that is written.
ghost use Rattle.std.specs.Prelude.{◌≡◌};

use crate::stops::BadStop;
use command_text::write_answer;
use findings::Finding;
use layout::Refusal;
use snapshot::Answer as VolumeAnswer;
use std::alloc::AllocError;

/// What a line is answered with.
#[derive(Drop)]
pub enum Answer {
    /// What the volume answers, as `command_text` writes it, but for bytes: `ok HEX` has two digits for each, and of more
    /// than three equal ones in a row `(HEX*COUNT)`.
    Given(VolumeAnswer),
    /// `ok COUNT`: so many blocks, repairs, writes or stops.
    Count(usize),
    /// `stop WRITES` and what is wrong with the stop after so many writes: `refused` and the cause, `damaged` and the
    /// finding, or `other bytes inode INODE index INDEX`.
    BadStop(BadStop),
    /// `ok ADDRESS`, or `ok none`
    Least(Option<u32>),
    /// `ok FINDING; FINDING`: each as its line in a report.
    Findings(Vec<Finding>),
    /// `refused` with the number of the cause and its name.
    Refused(Refusal),
    /// `no command`: the line has another form, or is out of place.
    NoCommand,
}

impl Answer {
    ghost use Rattle.test_lists.specs.Refusals.{is_refusal};

    /// Whether it tells that the line was not carried out.
    pub fn is_refusal(&self) -> bool
        ensures { result ≡ is_refusal self.now }
    {
        matches!(self, Answer::Refused(_) | Answer::NoCommand)
    }

    /// Writes the answer behind a text.
    pub fn write_to(&self, text: &mut String) -> Result<(), AllocError> {
        match self {
            Answer::Given(answer) => write_given(text, answer),
            Answer::Count(count) => write!(text, "ok {count}"),
            Answer::BadStop(stop) => stop.write_to(text),
            Answer::Least(Some(address)) => write!(text, "ok {address}"),
            Answer::Least(None) => write!(text, "ok none"),
            Answer::Findings(findings) => write_findings(text, findings.as_slice()),
            Answer::Refused(refusal) => write!(text, "refused {refusal}"),
            Answer::NoCommand => write!(text, "no command"),
        }
    }
}

/// Writes what the volume answers.
fn write_given(text: &mut String, answer: &VolumeAnswer) -> Result<(), AllocError> {
    match answer {
        VolumeAnswer::Bytes(bytes) => write_bytes(text, bytes.as_slice()),
        _ => write_answer(text, answer),
    }
}

/// Writes bytes.
fn write_bytes(text: &mut String, bytes: &[u8]) -> Result<(), AllocError> {
    write!(text, "ok ")?;
    for run in bytes.chunk_by(|byte, next| *byte == *next) {
        write_run(text, run)?;
    }
    Ok(())
}

/// Writes equal bytes.
fn write_run(text: &mut String, run: &[u8]) -> Result<(), AllocError> {
    let count = run.len();
    match run {
        [byte, _, _, _, ..] => write!(text, "({byte:02x}*{count})"),
        _ => {
            for byte in run {
                write!(text, "{byte:02x}")?;
            }
            Ok(())
        }
    }
}

/// Writes what a check found.
fn write_findings(text: &mut String, findings: &[Finding]) -> Result<(), AllocError> {
    write!(text, "ok")?;
    let mut before = " ";
    for finding in findings {
        write!(text, "{before}{finding}")?;
        before = "; ";
    }
    Ok(())
}
