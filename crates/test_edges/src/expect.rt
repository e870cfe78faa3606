//! What is expected of values. Each is a function of its own, so that a test has few ends.
ghost use Rattle.std.specs.Prelude.{◌≡◌, true};

use std::fmt::Debug;
use std::process::Abort;

/// Expects what is found at a place of a test or a table to be the same as what is wanted.
pub(crate) fn same<P: Debug + Copy, T: PartialEq + Debug + Copy>(
    rt: &impl Abort,
    place: P,
    found: T,
    wanted: T,
) {
    assert_eq!(rt; found, wanted, "{place:?}");
}

/// Expects that something holds at a place of a test or a table.
pub(crate) fn holds<P: Debug + Copy>(rt: &impl Abort, place: P, is_so: bool)
    ensures { is_so ≡ true }
{
    assert!(rt; is_so, "{place:?}");
}
