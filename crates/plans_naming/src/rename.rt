//! An entry gets another name, or goes to another directory.

ghost use Rattle.std.specs.Prelude.{◌≡◌, ◌≤◌, ◌/◌, ℕ, Bool, List, IsTrue};
ghost use Rattle.model.specs.Layout.{Geometry, root};
ghost use Rattle.model.specs.View.{View};
ghost use Rattle.model.specs.Rules.{ObeysRules};
ghost use Rattle.model.specs.Slots.{Names};
ghost use Rattle.model.specs.Uses.{is_directory_at, IsClaim};
ghost use Rattle.ordering.specs.Cuts.{Cell, Record, Block, Pending, users_view};
ghost use Rattle.ordering.specs.Ghosts.{Ghost, at_rest};
ghost use Rattle.ordering.specs.Agrees.{AllAgree};
ghost use Rattle.ordering.specs.OneSlot.{IsKnown, ArePointersKnown};
ghost use Rattle.machine.specs.State.{State};
ghost use Rattle.machine.specs.Paths.{holder, name_in, number_at, slot_at};
ghost use Rattle.machine.specs.Effects.{Renames};
ghost use Rattle.plans_data.specs.Issues.{Issues};
ghost use Rattle.plans_data.specs.Append.{Holder};
ghost use Rattle.plans_naming.specs.Entries.{UnmarkedAreNotHeld};
ghost use Rattle.plans_naming.specs.Move.{CanMove, CanMoveGrown, HasGrounds, moving, moving_grown};
ghost use Rattle.plans_naming.specs.Rename.{CanRename, renaming};

/// Within its directory: users see what the command is to do, and its update may be issued at any time.
pub fn rename_in_its_slot()
    ensures seen { (geo : Geometry) (old : State) (path other : List ℕ) (block : ℕ) (name entry : List ℕ) (after : List Cell)
        → CanRename geo old.view (number_at geo old.view path) (holder geo old.view path) (slot_at geo old.view path) block name (name_in other) entry after
        → holder geo old.view path ≡ holder geo old.view other → (disk : View) (q : List Pending) → users_view disk q ≡ old.view
        → Renames geo old path other (record old { view = users_view disk (renaming block (old.view.bytes block) (slot_at geo old.view path) entry after q) }) }
    ensures ordered { (geo : Geometry) (disk : View) (q : List Pending) (ghost : Ghost) (i d s block : ℕ) (name other entry : List ℕ) (after : List Cell)
        → CanRename geo (users_view disk q) i d s block name other entry after
        → Issues geo disk q ghost (renaming block ((users_view disk q).bytes block) s entry after q) ghost }
{}

/// To an empty slot of another directory: users see what the command is to do, and its updates may be issued in their
/// order, from rest to rest, and no stop loses the file.
pub fn rename_to_a_slot_of_another_directory()
    ensures seen { (geo : Geometry) (old : State) (path other : List ℕ) (s' block' : ℕ) (entry : List ℕ) (after' : List Cell) (block : ℕ)
        (name : List ℕ) (after : List Cell)
        → ObeysRules geo old.view
        → CanMove geo old.view (number_at geo old.view path) (holder geo old.view other) s' block' (name_in other) entry after'
        (holder geo old.view path) (slot_at geo old.view path) block name after
        → (disk : View) (q : List Pending) → users_view disk q ≡ old.view
        → Renames geo old path other (record old {
          view = users_view disk
              (moving (number_at geo old.view path) (old.view.inode (number_at geo old.view path)) block' (old.view.bytes block') s' entry after'
              block (old.view.bytes block) (slot_at geo old.view path) after q);
        }) }
    ensures ordered { (geo : Geometry) (disk : View) (q : List Pending) (held safe : ℕ → Bool)
        (i d' s' block' : ℕ) (name' entry : List ℕ) (after' : List Cell) (d s block : ℕ) (name : List ℕ) (after : List Cell)
        → CanMove geo (users_view disk q) i d' s' block' name' entry after' d s block name after → AllAgree geo disk q (at_rest held safe)
        → Issues geo disk q (at_rest held safe)
        (moving i ((users_view disk q).inode i) block' ((users_view disk q).bytes block') s' entry after' block ((users_view disk q).bytes block) s after q)
        (at_rest held safe) }
{}

/// To another directory that has no empty slot and gets a block for the entry: the same.
pub fn rename_to_a_new_block_of_another_directory()
    ensures seen { (geo : Geometry) (old : State) (path other : List ℕ) (b : ℕ) (kept : Holder) (s' : ℕ) (entry : List ℕ) (after' : List Cell)
        (block : ℕ) (name : List ℕ) (after : List Cell)
        → CanMoveGrown geo old.view (number_at geo old.view path) (holder geo old.view other) b kept s' (name_in other) entry after'
        (holder geo old.view path) (slot_at geo old.view path) block name after
        → (disk : View) (q : List Pending) → users_view disk q ≡ old.view
        → (safe : ℕ → Bool) → UnmarkedAreNotHeld old.view old.held
        → AllAgree geo disk q (at_rest old.held safe)
        → Renames geo old path other (record old {
          view = users_view disk
              (moving_grown geo (number_at geo old.view path) (old.view.inode (number_at geo old.view path)) (holder geo old.view other) (old.view.inode (holder geo old.view other))
              b kept s' entry after' block (old.view.bytes block) (slot_at geo old.view path) after q);
        }) }
    ensures ordered { (geo : Geometry) (disk : View) (q : List Pending) (held safe : ℕ → Bool)
        (i d' b : ℕ) (kept : Holder) (s' : ℕ) (name' entry : List ℕ) (after' : List Cell) (d s block : ℕ) (name : List ℕ) (after : List Cell)
        → UnmarkedAreNotHeld (users_view disk q) held
        → CanMoveGrown geo (users_view disk q) i d' b kept s' name' entry after' d s block name after → AllAgree geo disk q (at_rest held safe)
        → Issues geo disk q (at_rest held safe)
        (moving_grown geo i ((users_view disk q).inode i) d' ((users_view disk q).inode d') b kept s' entry after' block ((users_view disk q).bytes block) s after q)
        (at_rest held safe) }
{}

/// The grounds of a directory are gathered from the root down: the root's are its own record and pointers, and each
/// further directory adds the block that names it, its record and its pointers.
pub fn grounds_are_gathered_from_the_root()
    ensures root_has { (geo : Geometry) (users : View) (block : ℕ) (after : List Cell)
        → IsTrue (is_directory_at geo users root) → IsKnown after block (Record root) → ArePointersKnown geo users after block root
        → HasGrounds geo users root block after }
    ensures next_has { (geo : Geometry) (users : View) (block : ℕ) (after : List Cell) (d s e : ℕ)
        → HasGrounds geo users d block after → 2 ≤ s → Names geo users d s e → IsTrue (is_directory_at geo users e)
        → IsKnown after block (Record e) → ArePointersKnown geo users after block e → ((b : ℕ) → IsClaim geo users d (s / 16) b → IsKnown after block (Block b))
        → HasGrounds geo users e block after }
{}
