//! An empty directory is removed.

ghost use Rattle.std.specs.Prelude.{◌≡◌, ℕ, ◌-◌, Bool, List, IsFalse};
ghost use Rattle.model.specs.Layout.{Geometry};
ghost use Rattle.model.specs.View.{View, free_inode};
ghost use Rattle.ordering.specs.Cuts.{Cell, Pending, users_view};
ghost use Rattle.ordering.specs.Ghosts.{at_rest};
ghost use Rattle.ordering.specs.Agrees.{AllAgree};
ghost use Rattle.machine.specs.State.{State};
ghost use Rattle.machine.specs.Paths.{holder, number_at, slot_at};
ghost use Rattle.machine.specs.Effects.{removed};
ghost use Rattle.plans_data.specs.Issues.{Issues};
ghost use Rattle.plans_data.specs.Now.{becomes};
ghost use Rattle.plans_data.specs.Freeing.{held_with};
ghost use Rattle.plans_naming.specs.Unlink.{CanFree, StaysWith};
ghost use Rattle.plans_naming.specs.RemoveDirectory.{CanRemove, removing, removing_name};

/// Where the directory has the links of its two names alone, it goes with its entry.
pub fn remove_an_empty_directory()
    ensures seen { (geo : Geometry) (old : State) (path : List ℕ) (b block : ℕ) (name : List ℕ) (after : List Cell) (blocks : List ℕ)
        → CanRemove geo old.view (number_at geo old.view path) b (holder geo old.view path) (slot_at geo old.view path) block name after
        → CanFree geo old (number_at geo old.view path) blocks → (old.view.inode (number_at geo old.view path)).links ≡ 2
        → (disk : View) (q : List Pending) → users_view disk q ≡ old.view
        → (safe : ℕ → Bool) → IsFalse (safe (number_at geo old.view path))
        → AllAgree geo disk q (at_rest old.held safe)
        → becomes disk (removing (number_at geo old.view path) blocks (holder geo old.view path) (old.view.inode (holder geo old.view path)) block (old.view.bytes block)
        (slot_at geo old.view path) after q) (held_with geo old (number_at geo old.view path) free_inode) old
        ≡ removed geo old path }
    ensures ordered { (geo : Geometry) (old : State) (i b d s block : ℕ) (name : List ℕ) (after : List Cell) (blocks : List ℕ)
        → CanRemove geo old.view i b d s block name after → CanFree geo old i blocks → (old.view.inode i).links ≡ 2
        → (disk : View) (q : List Pending) → users_view disk q ≡ old.view
        → (safe : ℕ → Bool) → IsFalse (safe i)
        → AllAgree geo disk q (at_rest old.held safe)
        → Issues geo disk q (at_rest old.held safe)
        (removing i blocks d (old.view.inode d) block (old.view.bytes block) s after q) (at_rest (held_with geo old i free_inode) safe) }
{}

/// Where it had more links, its inode stays.
pub fn remove_the_entry_of_a_directory_with_other_links()
    ensures seen { (geo : Geometry) (old : State) (path : List ℕ) (b block : ℕ) (name : List ℕ) (after : List Cell)
        → CanRemove geo old.view (number_at geo old.view path) b (holder geo old.view path) (slot_at geo old.view path) block name after
        → (disk : View) (q : List Pending) → users_view disk q ≡ old.view
        → (safe : ℕ → Bool) → IsFalse (safe (number_at geo old.view path))
        → AllAgree geo disk q (at_rest old.held safe)
        → StaysWith old (number_at geo old.view path) ((old.view.inode (number_at geo old.view path)).links - 2)
        → record old {
          view = users_view disk
              (removing_name (number_at geo old.view path) (old.view.inode (number_at geo old.view path)) (holder geo old.view path) (old.view.inode (holder geo old.view path))
              block (old.view.bytes block) (slot_at geo old.view path) after q);
        }
        ≡ removed geo old path }
    ensures ordered { (geo : Geometry) (disk : View) (q : List Pending) (held safe : ℕ → Bool)
        (i b d s block : ℕ) (name : List ℕ) (after : List Cell)
        → CanRemove geo (users_view disk q) i b d s block name after → IsFalse (safe i) → AllAgree geo disk q (at_rest held safe)
        → Issues geo disk q (at_rest held safe)
        (removing_name i ((users_view disk q).inode i) d ((users_view disk q).inode d) block ((users_view disk q).bytes block) s after q) (at_rest held safe) }
{}
