//! The statuses that the program ends with; 0 where it is done and found nothing.
ghost use Rattle.std.specs.Prelude.{◌≡◌};
ghost use Rattle.failures.specs.Status as spec;

use crate::failure::Failure;
use layout::Refusal;

/// The image has what soft updates may leave.
pub const SOFT: u8 = 1;

/// The image is damaged.
pub const DAMAGED: u8 = 2;

/// The line, or what it asks for, was refused.
pub const REFUSED: u8 = 3;

/// Memory ran out, the device failed, or the output could not be written.
pub const GAVE_OUT: u8 = 4;

impl Failure {
    /// The status that the program ends with.
    pub fn status(&self) -> u8
        ensures { result ≡ spec.status_of self.now }
    {
        match self {
            Failure::Line(_) => REFUSED,
            Failure::Refused { cause, .. } => status_of_refusal(*cause),
        }
    }
}

/// The status that the program ends with where a call of its own was refused.
fn status_of_refusal(refusal: Refusal) -> u8
    ensures { result ≡ spec.status_of_refusal refusal }
{
    match refusal {
        Refusal::NoMemory | Refusal::Device => GAVE_OUT,
        Refusal::Damaged => DAMAGED,
        _ => REFUSED,
    }
}
