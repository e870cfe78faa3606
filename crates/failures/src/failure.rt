ghost use Rattle.std.specs.Prelude.{◌≡◌};
ghost use Rattle.layout.specs.declared.refusal.Refusal.TheVariants.{NoMemory};
ghost use Rattle.failures.specs.Status as spec;

use crate::paths::{printed, rule_broken};
use crate::reason::Reason;
use layout::Refusal;
use std::alloc::{AllocError, AllocFailed, Global};

/// Why a line was not carried out.
#[derive(Debug, Drop)]
pub enum Failure {
    /// The arguments are no line of the program, or ask for its help or version, or a script has a line of another form. This is
    /// the text to print.
    Line(String),
    /// What the line asks for was refused.
    Refused {
        cause: Refusal,
        /// Where: a path of the host as it stands, or a path of an image as it is printed.
        place: Option<String>,
        /// Why, where more is known than the cause.
        reason: Option<Reason>,
        /// How far the line came, if it began.
        steps: Option<Steps>,
    },
}

/// How many steps of a line were carried out and written, of how many.
#[derive(Clone, Copy, Debug)]
pub struct Steps {
    pub done: usize,
    pub count: usize,
}

impl From<Refusal> for Failure {
    ghost from_gives = { λ refusal failed. failed ≡ spec.plain refusal };

    fn from(cause: Refusal) -> Failure {
        Failure::Refused {
            cause,
            place: None,
            reason: Reason::of_refusal(cause),
            steps: None,
        }
    }
}

impl From<AllocError> for Failure {
    ghost from_gives = { λ _ failed. failed ≡ spec.plain NoMemory };

    fn from(_error: AllocError) -> Failure {
        Failure::from(Refusal::NoMemory)
    }
}

impl<T: Drop> From<AllocFailed<T>> for Failure {
    ghost from_gives = { λ _ failed. failed ≡ spec.plain NoMemory };

    fn from(_error: AllocFailed<T>) -> Failure {
        Failure::from(Refusal::NoMemory)
    }
}

impl Failure {
    /// The cause, if something was refused.
    pub fn cause(&self) -> Option<Refusal>
        ensures { result ≡ spec.cause_of self.now }
    {
        match self {
            Failure::Line(_) => None,
            Failure::Refused { cause, .. } => Some(*cause),
        }
    }

    /// The same failure, at this path of the host.
    pub fn at(self, alloc: Global, path: &str) -> Failure
        ensures { spec.IsTold self result }
    {
        match String::from_str(alloc, path) {
            Ok(place) => self.with_place(place),
            Err(AllocError) => Failure::from(Refusal::NoMemory),
        }
    }

    /// The same failure, at this path of an image. If the path is no path, the rule is told that it breaks.
    pub fn in_image(self, alloc: Global, path: &[u8]) -> Failure
        ensures { spec.IsTold self result }
    {
        match printed(alloc, path) {
            Ok(place) => self.with_place(place).by_rule(path),
            Err(AllocError) => Failure::from(Refusal::NoMemory),
        }
    }

    /// The same failure, at this path of an image, unless a path is told already or the cause is the image as a whole.
    pub fn on_path(self, alloc: Global, path: &[u8]) -> Failure
        ensures { spec.IsTold self result }
    {
        if self.lacks_path() {
            return self.in_image(alloc, path);
        }
        self
    }

    /// Whether no path is told, and the cause may be one.
    fn lacks_path(&self) -> bool {
        match self {
            Failure::Refused {
                cause,
                place: None,
                ..
            } => !is_of_image(*cause),
            _ => false,
        }
    }

    /// The same failure, in this place. Want of memory is told without a place.
    fn with_place(self, place: String) -> Failure
        ensures { spec.cause_of result ≡ spec.cause_of self }
    {
        match self {
            Failure::Refused {
                cause,
                reason,
                steps,
                ..
            } if cause != Refusal::NoMemory => Failure::Refused {
                cause,
                place: Some(place),
                reason,
                steps,
            },
            told => told,
        }
    }

    /// The same failure; of a path that is none with the rule that it breaks.
    fn by_rule(self, path: &[u8]) -> Failure
        ensures { spec.cause_of result ≡ spec.cause_of self }
    {
        match self {
            Failure::Refused {
                cause: Refusal::BadName,
                place,
                steps,
                ..
            } => Failure::Refused {
                cause: Refusal::BadName,
                place,
                reason: rule_broken(path),
                steps,
            },
            told => told,
        }
    }

    /// The same failure, for this reason.
    pub fn because(self, reason: Reason) -> Failure
        ensures { spec.cause_of result ≡ spec.cause_of self }
    {
        match self {
            Failure::Refused {
                cause,
                place,
                steps,
                ..
            } => Failure::Refused {
                cause,
                place,
                reason: Some(reason),
                steps,
            },
            told => told,
        }
    }

    /// The same failure, after so many of so many steps were carried out and written.
    pub fn after(self, done: usize, count: usize) -> Failure
        ensures { spec.cause_of result ≡ spec.cause_of self }
    {
        match self {
            Failure::Refused {
                cause,
                place,
                reason,
                ..
            } => Failure::Refused {
                cause,
                place,
                reason,
                steps: Some(Steps { done, count }),
            },
            told => told,
        }
    }
}

/// Whether this is a cause for which an image as a whole is refused.
pub(crate) fn is_of_image(cause: Refusal) -> bool {
    matches!(
        cause,
        Refusal::Device
            | Refusal::BadLength
            | Refusal::BadSuper
            | Refusal::BadGroup(_)
            | Refusal::Damaged
    )
}
