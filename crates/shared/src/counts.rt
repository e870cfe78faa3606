//! How many calls there were.
ghost use Rattle.std.specs.Prelude.{◌≡◌, ◌+◌, ◌<◌, ◌^◌, IfSome, IsSome, ◌↔◌};
ghost use Rattle.shared.specs.Repairing.{of_others, of_repairs};

use snapshot::Command;

/// How many calls were repairs, and how many were others.
#[derive(Clone, Copy, PartialEq, Eq, Debug)]
pub struct Counts {
    pub repairs: u64,
    pub others: u64,
}

impl Counts {
    /// Before the first call.
    pub const NONE: Counts = Counts {
        repairs: 0,
        others: 0,
    };

    /// Both together, unless one of the sums is 2^64 or more.
    pub(crate) fn checked_add(self, more: Counts) -> Option<Counts>
        ensures sum { IfSome result (λ sum. (sum.repairs ≡ self.repairs + more.repairs) × (sum.others ≡ self.others + more.others)) }
        ensures fits { IsSome result ↔ ((self.repairs + more.repairs < 2 ^ 64) × (self.others + more.others < 2 ^ 64)) }
    {
        Some(Counts {
            repairs: self.repairs.checked_add(more.repairs)?,
            others: self.others.checked_add(more.others)?,
        })
    }
}
