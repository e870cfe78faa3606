//! What the slots of directories name, by directory. The work is split in pieces, each a run of inode numbers of a cylinder
//! group: `pieces` cuts the numbers of a volume, `named` reads the directories of one piece, and `merge` joins what was read,
//! in any order and any grouping. `numbers_named` reads one directory.
#![tactic(auto)]

ghost use Rattle.std.specs.Prelude.{◌≡◌, ◌<◌, ℕ, List, [], IsTrue, IsFalse};
ghost use Rattle.model.specs.Layout.{Geometry, IsGeometry, is_number};
ghost use Rattle.model.specs.View.{View};
ghost use Rattle.model.specs.Named.{named_from};
ghost use Rattle.model.specs.Uses.{is_directory_at};
ghost use Rattle.directories.specs.Named.{IsNamed, numbers_in};
ghost use Rattle.directories.specs.Pieces.{HasEveryNumber, Numbers};

mod cutting;
mod reading;
mod table;

pub use cutting::{Piece, groups_of, pieces};
pub use reading::{named, numbers_named};
pub use table::{Named, merge};

/// Two tables of the same numbers of an image are equal, and so a table knows nothing of the order and the grouping in
/// which it was merged, or of the pieces.
pub fn tables_are_told_by_their_numbers()
    ensures { (geo : Geometry) → IsGeometry geo → (view : View) (first : ℕ) (numbers others : Numbers) (left right : List (ℕ × List ℕ))
        → ((i : ℕ) → IsTrue (is_number geo i) → numbers i ≡ others i)
        → IsNamed geo view first numbers left → IsNamed geo view first others right → left ≡ right }
{}

/// A table of every number has at each sound directory what its slots name, and at any other number nothing.
pub fn whole_tables_have_every_directory()
    ensures directory { (geo : Geometry) (view : View) (first : ℕ) (numbers : Numbers) (table : List (ℕ × List ℕ))
        → IsNamed geo view first numbers table → HasEveryNumber geo numbers
        → (d : ℕ) → IsTrue (is_directory_at geo view d) → numbers_in table d ≡ named_from geo view first d }
    ensures other { (geo : Geometry) (view : View) (first : ℕ) (numbers : Numbers) (table : List (ℕ × List ℕ)) → IsNamed geo view first numbers table
        → (d : ℕ) → IsFalse (is_directory_at geo view d) → numbers_in table d ≡ [] }
{}
