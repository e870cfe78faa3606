//! A directory is made.

ghost use Rattle.std.specs.Prelude.{◌≡◌, ℕ, Bool, List};
ghost use Rattle.model.specs.Layout.{Geometry};
ghost use Rattle.model.specs.View.{View};
ghost use Rattle.model.specs.Rules.{ObeysRules};
ghost use Rattle.ordering.specs.Cuts.{Cell, Pending, users_view};
ghost use Rattle.ordering.specs.Ghosts.{at_rest};
ghost use Rattle.ordering.specs.Agrees.{AllAgree};
ghost use Rattle.machine.specs.State.{State};
ghost use Rattle.machine.specs.Paths.{holder, name_in};
ghost use Rattle.machine.specs.Effects.{MakesDirectory};
ghost use Rattle.plans_data.specs.Issues.{Issues};
ghost use Rattle.plans_data.specs.Append.{Holder};
ghost use Rattle.plans_naming.specs.Entries.{UnmarkedAreNotHeld};
ghost use Rattle.plans_naming.specs.Make.{CanMakeIn, CanMakeGrown, making, making_grown};

/// Where the parent has an empty slot: users see what the command is to do, and its updates may be issued in their
/// order, from rest to rest.
pub fn make_in_a_slot()
    ensures seen { (geo : Geometry) (old : State) (path words : List ℕ) (i b : ℕ) (dots : List ℕ) (s block : ℕ) (entry : List ℕ) (after : List Cell)
        → ObeysRules geo old.view → CanMakeIn geo old.view i b dots (holder geo old.view path) s block (name_in path) entry after
        → (disk : View) (q : List Pending) → users_view disk q ≡ old.view
        → MakesDirectory geo old path words i (record old {
          view = users_view disk
              (making i b words dots (holder geo old.view path) (old.view.inode (holder geo old.view path)) block (old.view.bytes block) s entry after q);
        }) }
    ensures ordered { (geo : Geometry) (disk : View) (q : List Pending) (held safe : ℕ → Bool)
        (i b : ℕ) (words dots : List ℕ) (d s block : ℕ) (name entry : List ℕ) (after : List Cell)
        → CanMakeIn geo (users_view disk q) i b dots d s block name entry after → UnmarkedAreNotHeld (users_view disk q) held
        → AllAgree geo disk q (at_rest held safe)
        → Issues geo disk q (at_rest held safe)
        (making i b words dots d ((users_view disk q).inode d) block ((users_view disk q).bytes block) s entry after q) (at_rest held safe) }
{}

/// Where it has none, and gets a block for the entry: the same.
pub fn make_in_a_new_block()
    ensures seen { (geo : Geometry) (old : State) (path words : List ℕ) (i a : ℕ) (dots : List ℕ) (b : ℕ) (kept : Holder) (s : ℕ) (entry : List ℕ) (after : List Cell)
        → CanMakeGrown geo old.view i a dots (holder geo old.view path) b kept s (name_in path) entry after
        → (disk : View) (q : List Pending) → users_view disk q ≡ old.view
        → (safe : ℕ → Bool) → UnmarkedAreNotHeld old.view old.held
        → AllAgree geo disk q (at_rest old.held safe)
        → MakesDirectory geo old path words i (record old {
          view = users_view disk
              (making_grown geo i a words dots (holder geo old.view path) (old.view.inode (holder geo old.view path)) b kept s entry after q);
        }) }
    ensures ordered { (geo : Geometry) (disk : View) (q : List Pending) (held safe : ℕ → Bool)
        → UnmarkedAreNotHeld (users_view disk q) held
        → (i a : ℕ) (words dots : List ℕ) (d b : ℕ) (kept : Holder) (s : ℕ) (name entry : List ℕ) (after : List Cell)
        → CanMakeGrown geo (users_view disk q) i a dots d b kept s name entry after → AllAgree geo disk q (at_rest held safe)
        → Issues geo disk q (at_rest held safe)
        (making_grown geo i a words dots d ((users_view disk q).inode d) b kept s entry after q) (at_rest held safe) }
{}
