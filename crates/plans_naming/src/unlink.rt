//! A name of a file goes.

ghost use Rattle.std.specs.Prelude.{◌≡◌, ℕ, ◌-◌, Bool, List};
ghost use Rattle.model.specs.Layout.{Geometry};
ghost use Rattle.model.specs.View.{View, free_inode};
ghost use Rattle.ordering.specs.Cuts.{Pending, users_view};
ghost use Rattle.ordering.specs.Ghosts.{at_rest};
ghost use Rattle.ordering.specs.Agrees.{AllAgree};
ghost use Rattle.machine.specs.State.{State};
ghost use Rattle.machine.specs.Paths.{holder, number_at, slot_at};
ghost use Rattle.machine.specs.Effects.{unlinked};
ghost use Rattle.plans_data.specs.Issues.{Issues};
ghost use Rattle.plans_data.specs.Now.{becomes};
ghost use Rattle.plans_data.specs.Freeing.{held_with};
ghost use Rattle.plans_naming.specs.Unlink.{CanUnlink, CanFree, StaysWith, unlinking, unlinking_last, safe_but};

/// Where a link is left, or the file is open: users see what the command is to do, and its updates may be issued in
/// their order, from rest to rest; only this file may be lost then.
pub fn unlink_one_of_several()
    ensures seen { (geo : Geometry) (old : State) (path : List ℕ) (block : ℕ) (name : List ℕ)
        → CanUnlink geo old.view (number_at geo old.view path) (holder geo old.view path) (slot_at geo old.view path) block name
        → StaysWith old (number_at geo old.view path) ((old.view.inode (number_at geo old.view path)).links - 1)
        → (disk : View) (q : List Pending) → users_view disk q ≡ old.view
        → record old {
          view = users_view disk
              (unlinking (number_at geo old.view path) (old.view.inode (number_at geo old.view path)) block (old.view.bytes block) (slot_at geo old.view path) q);
        }
        ≡ unlinked geo old path }
    ensures ordered { (geo : Geometry) (disk : View) (q : List Pending) (held safe : ℕ → Bool)
        (i d s block : ℕ) (name : List ℕ)
        → CanUnlink geo (users_view disk q) i d s block name → AllAgree geo disk q (at_rest held safe)
        → Issues geo disk q (at_rest held safe)
        (unlinking i ((users_view disk q).inode i) block ((users_view disk q).bytes block) s q) (at_rest held (safe_but i safe)) }
{}

/// Where the last link goes and the file is not open, the file goes too, with its blocks; those that a snapshot keeps
/// are held.
pub fn unlink_the_last_of_a_closed_file()
    ensures seen { (geo : Geometry) (old : State) (path : List ℕ) (block : ℕ) (name : List ℕ) (blocks : List ℕ)
        → CanUnlink geo old.view (number_at geo old.view path) (holder geo old.view path) (slot_at geo old.view path) block name
        → CanFree geo old (number_at geo old.view path) blocks → (old.view.inode (number_at geo old.view path)).links ≡ 1
        → (disk : View) (q : List Pending) → users_view disk q ≡ old.view
        → (safe : ℕ → Bool) → AllAgree geo disk q (at_rest old.held safe)
        → becomes disk (unlinking_last (number_at geo old.view path) blocks block (old.view.bytes block) (slot_at geo old.view path) q)
        (held_with geo old (number_at geo old.view path) free_inode) old
        ≡ unlinked geo old path }
    ensures ordered { (geo : Geometry) (old : State) (i d s block : ℕ) (name : List ℕ) (blocks : List ℕ)
        → CanUnlink geo old.view i d s block name → CanFree geo old i blocks → (old.view.inode i).links ≡ 1
        → (disk : View) (q : List Pending) → users_view disk q ≡ old.view
        → (safe : ℕ → Bool) → AllAgree geo disk q (at_rest old.held safe)
        → Issues geo disk q (at_rest old.held safe)
        (unlinking_last i blocks block (old.view.bytes block) s q) (at_rest (held_with geo old i free_inode) (safe_but i safe)) }
{}
