//! A file gets one more name.

ghost use Rattle.std.specs.Prelude.{◌≡◌, ℕ, Bool, List};
ghost use Rattle.model.specs.Layout.{Geometry};
ghost use Rattle.model.specs.View.{View};
ghost use Rattle.ordering.specs.Cuts.{Cell, Pending, users_view};
ghost use Rattle.ordering.specs.Ghosts.{at_rest};
ghost use Rattle.ordering.specs.Agrees.{AllAgree};
ghost use Rattle.machine.specs.State.{State};
ghost use Rattle.machine.specs.Paths.{holder, name_in, number_at};
ghost use Rattle.machine.specs.Effects.{Links};
ghost use Rattle.plans_data.specs.Issues.{Issues};
ghost use Rattle.plans_data.specs.Append.{Holder};
ghost use Rattle.plans_naming.specs.Entries.{UnmarkedAreNotHeld};
ghost use Rattle.plans_naming.specs.Link.{CanLink, CanLinkGrown, linking, linking_grown};

/// Where the directory has an empty slot: users see what the command is to do, and its updates may be issued in their
/// order, from rest to rest.
pub fn link_in_a_slot()
    ensures seen { (geo : Geometry) (old : State) (path other : List ℕ) (s block : ℕ) (entry : List ℕ) (after : List Cell)
        → CanLink geo old.view (number_at geo old.view path) (holder geo old.view other) s block (name_in other) entry after
        → (disk : View) (q : List Pending) → users_view disk q ≡ old.view
        → Links geo old path other (record old {
          view = users_view disk
              (linking (number_at geo old.view path) (old.view.inode (number_at geo old.view path)) block (old.view.bytes block) s entry after q);
        }) }
    ensures ordered { (geo : Geometry) (disk : View) (q : List Pending) (held safe : ℕ → Bool)
        (i d s block : ℕ) (name entry : List ℕ) (after : List Cell)
        → CanLink geo (users_view disk q) i d s block name entry after → AllAgree geo disk q (at_rest held safe)
        → Issues geo disk q (at_rest held safe)
        (linking i ((users_view disk q).inode i) block ((users_view disk q).bytes block) s entry after q) (at_rest held safe) }
{}

/// Where it has none, and gets a block for the entry: the same.
pub fn link_in_a_new_block()
    ensures seen { (geo : Geometry) (old : State) (path other : List ℕ) (b : ℕ) (kept : Holder) (s : ℕ) (entry : List ℕ) (after : List Cell)
        → CanLinkGrown geo old.view (number_at geo old.view path) (holder geo old.view other) b kept s (name_in other) entry after
        → (disk : View) (q : List Pending) → users_view disk q ≡ old.view
        → (safe : ℕ → Bool) → UnmarkedAreNotHeld old.view old.held
        → AllAgree geo disk q (at_rest old.held safe)
        → Links geo old path other (record old {
          view = users_view disk
              (linking_grown geo (number_at geo old.view path) (old.view.inode (number_at geo old.view path))
              (holder geo old.view other) (old.view.inode (holder geo old.view other)) b kept s entry after q);
        }) }
    ensures ordered { (geo : Geometry) (disk : View) (q : List Pending) (held safe : ℕ → Bool)
        → UnmarkedAreNotHeld (users_view disk q) held
        → (i d b : ℕ) (kept : Holder) (s : ℕ) (name entry : List ℕ) (after : List Cell)
        → CanLinkGrown geo (users_view disk q) i d b kept s name entry after → AllAgree geo disk q (at_rest held safe)
        → Issues geo disk q (at_rest held safe)
        (linking_grown geo i ((users_view disk q).inode i) d ((users_view disk q).inode d) b kept s entry after q) (at_rest held safe) }
{}
