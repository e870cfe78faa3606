ghost use Rattle.std.specs.Prelude.{Some};
ghost use Rattle.findings.specs.Report.{verdict_text};

use std::fmt;

/// What a check says of an image as a whole.
#[derive(Clone, Copy, PartialEq, Eq, Debug)]
pub enum Verdict {
    /// Nothing was found.
    Clean,
    /// Each finding is of a soft kind, so the repairs mend the image.
    Soft,
    /// A finding is of no soft kind, so the image has no repairs.
    Damaged,
}

impl fmt::Display for Verdict {
    ghost output = { λ verdict. Some (verdict_text verdict) };

    fn fmt<W: fmt::Write>(&self, f: &mut fmt::Formatter<W>) -> fmt::Result {
        match *self {
            Verdict::Clean => write!(f, "clean"),
            Verdict::Soft => write!(f, "soft"),
            Verdict::Damaged => write!(f, "damaged"),
        }
    }
}
