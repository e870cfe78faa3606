//! Phase 2 of a check, which looks at names: the slots of the reachable directories, what they name, and their dots.
//!
//! The work is split in pieces: `part` reads the slots of the directories of one piece, `merge` joins two parts, in any order
//! and any grouping, and `finish` compares the reachable directories with one another once the parts of all pieces are joined.
#![tactic(auto)]

ghost use Rattle.std.specs.Prelude.{◌≡◌, ℕ, List, IsTrue};
ghost use Rattle.model.specs.Layout.{Geometry, IsGeometry, is_number};
ghost use Rattle.model.specs.View.{View};
ghost use Rattle.directories.specs.Pieces.{Numbers};
ghost use Rattle.phase_names.specs.Told.{IsPart, Told};

mod entries;
mod look;
mod parts;
mod slots;
mod units;
mod whole;

pub use parts::{Part, merge};
pub use units::part;
pub use whole::finish;

/// Two parts of the same numbers of an image are equal, and so a part knows nothing of the order and the grouping in which it
/// was merged, or of the pieces.
pub fn parts_are_told_by_their_numbers()
    ensures { (geo : Geometry) → IsGeometry geo → (view : View) (numbers others : Numbers) (left right : List (ℕ × Told))
        → ((i : ℕ) → IsTrue (is_number geo i) → numbers i ≡ others i)
        → IsPart geo view numbers left → IsPart geo view others right → left ≡ right }
{}
