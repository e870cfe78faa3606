//! How long a trace may be, and how many may have a seat.
ghost use Rattle.std.specs.Prelude.{◌≡◌, ◌↔◌, true};
ghost use Rattle.shared.specs.Limits.{Within};

/// The most calls that a trace may have room for.
pub const MOST_CALLS: u32 = 1_000_000;

/// The most seats that a shared volume may have.
pub const MOST_SEATS: u32 = 64;

/// Whether a trace may have room for so many calls, and so many may have a seat.
pub(crate) fn are_within(limit: u32, seats: u32) -> bool
    ensures { (result ≡ true) ↔ Within limit seats }
{
    (1..=MOST_CALLS).contains(&limit) && (1..=MOST_SEATS).contains(&seats)
}
