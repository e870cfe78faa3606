//! A file is created.

ghost use Rattle.std.specs.Prelude.{◌≡◌, ℕ, Bool, List};
ghost use Rattle.model.specs.Layout.{Geometry};
ghost use Rattle.model.specs.View.{View};
ghost use Rattle.model.specs.Rules.{ObeysRules};
ghost use Rattle.ordering.specs.Cuts.{Cell, Pending, users_view};
ghost use Rattle.ordering.specs.Ghosts.{at_rest};
ghost use Rattle.ordering.specs.Agrees.{AllAgree};
ghost use Rattle.machine.specs.State.{State};
ghost use Rattle.machine.specs.Paths.{holder, name_in};
ghost use Rattle.machine.specs.Effects.{Creates};
ghost use Rattle.plans_data.specs.Issues.{Issues};
ghost use Rattle.plans_data.specs.Append.{Holder};
ghost use Rattle.plans_naming.specs.Entries.{UnmarkedAreNotHeld};
ghost use Rattle.plans_naming.specs.Create.{CanCreate, CanCreateGrown, creating, creating_grown};

/// Where the directory has an empty slot: users see what the command is to do, and its updates may be issued in their
/// order, from rest to rest.
pub fn create_in_a_slot()
    ensures seen { (geo : Geometry) (old : State) (path words : List ℕ) (n s block : ℕ) (entry : List ℕ) (after : List Cell)
        → ObeysRules geo old.view → CanCreate geo old.view n (holder geo old.view path) s block (name_in path) entry after
        → (disk : View) (q : List Pending) → users_view disk q ≡ old.view
        → Creates geo old path words n (record old { view = users_view disk (creating n words block (old.view.bytes block) s entry after q) }) }
    ensures ordered { (geo : Geometry) (disk : View) (q : List Pending) (held safe : ℕ → Bool)
        (n : ℕ) (words : List ℕ) (d s block : ℕ) (name entry : List ℕ) (after : List Cell)
        → CanCreate geo (users_view disk q) n d s block name entry after → AllAgree geo disk q (at_rest held safe)
        → Issues geo disk q (at_rest held safe)
        (creating n words block ((users_view disk q).bytes block) s entry after q) (at_rest held safe) }
{}

/// Where it has none, and gets a block for the entry: the same.
pub fn create_in_a_new_block()
    ensures seen { (geo : Geometry) (old : State) (path words : List ℕ) (n b : ℕ) (kept : Holder) (s : ℕ) (entry : List ℕ) (after : List Cell)
        → CanCreateGrown geo old.view n (holder geo old.view path) b kept s (name_in path) entry after
        → (disk : View) (q : List Pending) → users_view disk q ≡ old.view
        → (safe : ℕ → Bool) → UnmarkedAreNotHeld old.view old.held
        → AllAgree geo disk q (at_rest old.held safe)
        → Creates geo old path words n (record old {
          view = users_view disk
              (creating_grown geo n words (holder geo old.view path) (old.view.inode (holder geo old.view path)) b kept s entry after q);
        }) }
    ensures ordered { (geo : Geometry) (disk : View) (q : List Pending) (held safe : ℕ → Bool)
        → UnmarkedAreNotHeld (users_view disk q) held
        → (n : ℕ) (words : List ℕ) (d b : ℕ) (kept : Holder) (s : ℕ) (name entry : List ℕ) (after : List Cell)
        → CanCreateGrown geo (users_view disk q) n d b kept s name entry after → AllAgree geo disk q (at_rest held safe)
        → Issues geo disk q (at_rest held safe)
        (creating_grown geo n words d ((users_view disk q).inode d) b kept s entry after q) (at_rest held safe) }
{}
