//! Each command that changes names and that no cause refuses is carried out by its updates, whatever is chosen where
//! there is a choice; users see what the machine says, every cut of the updates is safe, and the volume stands as before.

ghost use Rattle.std.specs.Prelude.{◌≡◌, ◌≤◌, ◌-◌, ◌/◌, ℕ, Bool, List, ◌∷◌, IsFalse};
ghost use Rattle.std.specs.List.{Contains};
ghost use Rattle.model.specs.Layout.{Geometry};
ghost use Rattle.model.specs.View.{View, free_inode};
ghost use Rattle.model.specs.Uses.{blocks_of};
ghost use Rattle.model.specs.Slots.{Empty, slot};
ghost use Rattle.ordering.specs.Cuts.{Cell, Record, Block, Pending};
ghost use Rattle.ordering.specs.OneSlot.{IsKnown};
ghost use Rattle.machine.specs.State.{State, is_open};
ghost use Rattle.machine.specs.Command.{Create, Mkdir, Link, Unlink, Rmdir, Rename, Number, Done};
ghost use Rattle.machine.specs.Paths.{holder, name_in, number_at};
ghost use Rattle.machine.specs.Room.{IsFreeNumber, IsFreeBlock, has_room};
ghost use Rattle.machine.specs.Cells.{IsEntryFor};
ghost use Rattle.machine.specs.Causes.{Accepts};
ghost use Rattle.machine.specs.Effects.{AreDots};
ghost use Rattle.plans_data.specs.Append.{Holder, AreApart, IsKeptIn, blocks_on_way, new_blocks};
ghost use Rattle.plans_data.specs.Freeing.{AreGivenUp, held_with};
ghost use Rattle.plans_data.specs.Now.{now, becomes};
ghost use Rattle.plans_naming.specs.Entries.{HasBlocks, HasOtherBlocks};
ghost use Rattle.plans_naming.specs.Grow.{AreOther};
ghost use Rattle.plans_naming.specs.Move.{HasGrounds};
ghost use Rattle.plans_naming.specs.Unlink.{StaysWith, safe_but};
ghost use Rattle.plans_data.specs.Carried.{Stands, IsCarriedOut};
ghost use Rattle.plans_naming.specs.Plans.{slot_block, entry_block, create_plan, create_plan_grown, make_plan, make_plan_grown, link_plan, link_plan_grown, rename_plan, move_plan, move_plan_grown, unlink_plan, unlink_plan_last, remove_plan, remove_plan_last};

/// A file is created: in an empty slot of its directory, or in a new block of it.
pub fn creations_are_carried_out()
    ensures in_a_slot { (geo : Geometry) (disk : View) (q : List Pending) (old : State) (safe : ℕ → Bool)
        → Stands geo disk q old safe → (p words : List ℕ) → Accepts geo old (Create p words) → (n s : ℕ) (entry : List ℕ) (after : List Cell)
        → IsFreeNumber geo old.view n → slot geo old.view (holder geo old.view p) s ≡ Empty → IsEntryFor n (name_in p) entry
        → Contains after (Record n) → HasOtherBlocks geo old.view (holder geo old.view p) (slot_block geo old.view p s) after
        → IsCarriedOut geo disk q old (Create p words) (Number n)
        (create_plan geo old.view p words n s entry after q)
        (now disk (create_plan geo old.view p words n s entry after q) old) safe safe }
    ensures in_a_new_block { (geo : Geometry) (disk : View) (q : List Pending) (old : State) (safe : ℕ → Bool)
        → Stands geo disk q old safe → (p words : List ℕ) → Accepts geo old (Create p words) → (n b : ℕ) (kept : Holder) (s : ℕ) (entry : List ℕ) (after : List Cell)
        → IsFreeNumber geo old.view n → IsFalse (has_room geo old.view (holder geo old.view p)) → IsFreeBlock geo old.view b
        → IsKeptIn geo old.view (holder geo old.view p) (blocks_of (old.view.inode (holder geo old.view p)).size) b kept → AreApart (b ∷ new_blocks kept)
        → s / 16 ≡ blocks_of (old.view.inode (holder geo old.view p)).size
        → IsEntryFor n (name_in p) entry → Contains after (Record n) → HasBlocks geo old.view (holder geo old.view p) after
        → IsCarriedOut geo disk q old (Create p words) (Number n)
        (create_plan_grown geo old.view p words n b kept s entry after q)
        (now disk (create_plan_grown geo old.view p words n b kept s entry after q) old) safe safe }
{}

/// A directory is made, in the same two ways.
pub fn new_directories_are_carried_out()
    ensures in_a_slot { (geo : Geometry) (disk : View) (q : List Pending) (old : State) (safe : ℕ → Bool)
        → Stands geo disk q old safe → (p words : List ℕ) → Accepts geo old (Mkdir p words) → (i a : ℕ) (dots : List ℕ) (s : ℕ) (entry : List ℕ) (after : List Cell)
        → IsFreeNumber geo old.view i → IsFreeBlock geo old.view a → AreDots i (holder geo old.view p) dots → slot geo old.view (holder geo old.view p) s ≡ Empty
        → IsEntryFor i (name_in p) entry → Contains after (Record i) → HasOtherBlocks geo old.view (holder geo old.view p) (slot_block geo old.view p s) after
        → IsCarriedOut geo disk q old (Mkdir p words) (Number i)
        (make_plan geo old.view p words i a dots s entry after q)
        (now disk (make_plan geo old.view p words i a dots s entry after q) old) safe safe }
    ensures in_a_new_block { (geo : Geometry) (disk : View) (q : List Pending) (old : State) (safe : ℕ → Bool)
        → Stands geo disk q old safe → (p words : List ℕ) → Accepts geo old (Mkdir p words)
        → (i a : ℕ) (dots : List ℕ) (b : ℕ) (kept : Holder) (s : ℕ) (entry : List ℕ) (after : List Cell)
        → IsFreeNumber geo old.view i → IsFreeBlock geo old.view a → AreDots i (holder geo old.view p) dots
        → IsFalse (has_room geo old.view (holder geo old.view p)) → IsFreeBlock geo old.view b → AreOther a b kept
        → IsKeptIn geo old.view (holder geo old.view p) (blocks_of (old.view.inode (holder geo old.view p)).size) b kept → AreApart (b ∷ new_blocks kept)
        → s / 16 ≡ blocks_of (old.view.inode (holder geo old.view p)).size
        → IsEntryFor i (name_in p) entry → Contains after (Record i) → HasBlocks geo old.view (holder geo old.view p) after
        → IsCarriedOut geo disk q old (Mkdir p words) (Number i)
        (make_plan_grown geo old.view p words i a dots b kept s entry after q)
        (now disk (make_plan_grown geo old.view p words i a dots b kept s entry after q) old) safe safe }
{}

/// A file gets one more name, in the same two ways.
pub fn links_are_carried_out()
    ensures in_a_slot { (geo : Geometry) (disk : View) (q : List Pending) (old : State) (safe : ℕ → Bool)
        → Stands geo disk q old safe → (p r : List ℕ) → Accepts geo old (Link p r) → (s : ℕ) (entry : List ℕ) (after : List Cell)
        → slot geo old.view (holder geo old.view r) s ≡ Empty → IsEntryFor (number_at geo old.view p) (name_in r) entry
        → Contains after (Record (number_at geo old.view p)) → HasOtherBlocks geo old.view (holder geo old.view r) (slot_block geo old.view r s) after
        → IsCarriedOut geo disk q old (Link p r) Done
        (link_plan geo old.view p r s entry after q)
        (now disk (link_plan geo old.view p r s entry after q) old) safe safe }
    ensures in_a_new_block { (geo : Geometry) (disk : View) (q : List Pending) (old : State) (safe : ℕ → Bool)
        → Stands geo disk q old safe → (p r : List ℕ) → Accepts geo old (Link p r) → (b : ℕ) (kept : Holder) (s : ℕ) (entry : List ℕ) (after : List Cell)
        → IsFalse (has_room geo old.view (holder geo old.view r)) → IsFreeBlock geo old.view b
        → IsKeptIn geo old.view (holder geo old.view r) (blocks_of (old.view.inode (holder geo old.view r)).size) b kept → AreApart (b ∷ new_blocks kept)
        → s / 16 ≡ blocks_of (old.view.inode (holder geo old.view r)).size
        → IsEntryFor (number_at geo old.view p) (name_in r) entry → Contains after (Record (number_at geo old.view p))
        → HasBlocks geo old.view (holder geo old.view r) after
        → IsCarriedOut geo disk q old (Link p r) Done
        (link_plan_grown geo old.view p r b kept s entry after q)
        (now disk (link_plan_grown geo old.view p r b kept s entry after q) old) safe safe }
{}

/// An entry gets another name in its directory, or its file gets one in another directory, in the same two ways.
pub fn renames_are_carried_out()
    ensures within { (geo : Geometry) (disk : View) (q : List Pending) (old : State) (safe : ℕ → Bool)
        → Stands geo disk q old safe → (p r : List ℕ) → Accepts geo old (Rename p r) → holder geo old.view p ≡ holder geo old.view r
        → (entry : List ℕ) (after : List Cell)
        → IsEntryFor (number_at geo old.view p) (name_in r) entry → HasOtherBlocks geo old.view (holder geo old.view p) (entry_block geo old.view p) after
        → IsCarriedOut geo disk q old (Rename p r) Done
        (rename_plan geo old.view p entry after q)
        (now disk (rename_plan geo old.view p entry after q) old) safe safe }
    ensures to_a_slot { (geo : Geometry) (disk : View) (q : List Pending) (old : State) (safe : ℕ → Bool)
        → Stands geo disk q old safe → (p r : List ℕ) → Accepts geo old (Rename p r) → (holder geo old.view p ≡ holder geo old.view r → ⊥)
        → (s : ℕ) (entry : List ℕ) (after' after : List Cell) → slot geo old.view (holder geo old.view r) s ≡ Empty
        → IsEntryFor (number_at geo old.view p) (name_in r) entry
        → Contains after' (Record (number_at geo old.view p)) → HasOtherBlocks geo old.view (holder geo old.view r) (slot_block geo old.view r s) after'
        → Contains after (Block (slot_block geo old.view r s)) → HasGrounds geo old.view (holder geo old.view r) (entry_block geo old.view p) after
        → IsCarriedOut geo disk q old (Rename p r) Done
        (move_plan geo old.view p r s entry after' after q)
        (now disk (move_plan geo old.view p r s entry after' after q) old) safe safe }
    ensures to_a_new_block { (geo : Geometry) (disk : View) (q : List Pending) (old : State) (safe : ℕ → Bool)
        → Stands geo disk q old safe → (p r : List ℕ) → Accepts geo old (Rename p r) → (holder geo old.view p ≡ holder geo old.view r → ⊥)
        → (b : ℕ) (kept : Holder) (s : ℕ) (entry : List ℕ) (after' after : List Cell)
        → IsFalse (has_room geo old.view (holder geo old.view r)) → IsFreeBlock geo old.view b
        → IsKeptIn geo old.view (holder geo old.view r) (blocks_of (old.view.inode (holder geo old.view r)).size) b kept → AreApart (b ∷ new_blocks kept)
        → s / 16 ≡ blocks_of (old.view.inode (holder geo old.view r)).size
        → IsEntryFor (number_at geo old.view p) (name_in r) entry → Contains after' (Record (number_at geo old.view p))
        → HasBlocks geo old.view (holder geo old.view r) after'
        → Contains after (Block b) → HasGrounds geo old.view (holder geo old.view r) (entry_block geo old.view p) after
        → ((x : ℕ) → Contains (blocks_on_way kept) x
        → IsKnown after (entry_block geo old.view p) (Block x))
        → IsCarriedOut geo disk q old (Rename p r) Done
        (move_plan_grown geo old.view p r b kept s entry after' after q)
        (now disk (move_plan_grown geo old.view p r b kept s entry after' after q) old) safe safe }
{}

/// A name of a file goes, and the file stays, or goes with its blocks.
pub fn unlinks_are_carried_out()
    ensures stays { (geo : Geometry) (disk : View) (q : List Pending) (old : State) (safe : ℕ → Bool)
        → Stands geo disk q old safe → (p : List ℕ) → Accepts geo old (Unlink p)
        → StaysWith old (number_at geo old.view p) ((old.view.inode (number_at geo old.view p)).links - 1)
        → IsCarriedOut geo disk q old (Unlink p) Done
        (unlink_plan geo old.view p q)
        (now disk (unlink_plan geo old.view p q) old) safe (safe_but (number_at geo old.view p) safe) }
    ensures goes { (geo : Geometry) (disk : View) (q : List Pending) (old : State) (safe : ℕ → Bool)
        → Stands geo disk q old safe → (p : List ℕ) → Accepts geo old (Unlink p) → (old.view.inode (number_at geo old.view p)).links ≡ 1
        → IsFalse (is_open old (number_at geo old.view p))
        → (blocks : List ℕ) → AreGivenUp geo old (number_at geo old.view p) free_inode blocks
        → IsCarriedOut geo disk q old (Unlink p) Done
        (unlink_plan_last geo old.view p blocks q)
        (becomes disk (unlink_plan_last geo old.view p blocks q) (held_with geo old (number_at geo old.view p) free_inode) old) safe (safe_but (number_at geo old.view p) safe) }
{}

/// And so with an empty directory.
pub fn removals_are_carried_out()
    ensures stays { (geo : Geometry) (disk : View) (q : List Pending) (old : State) (safe : ℕ → Bool)
        → Stands geo disk q old safe → (p : List ℕ) → Accepts geo old (Rmdir p) → (after : List Cell) → HasBlocks geo old.view (number_at geo old.view p) after
        → StaysWith old (number_at geo old.view p) ((old.view.inode (number_at geo old.view p)).links - 2)
        → IsCarriedOut geo disk q old (Rmdir p) Done
        (remove_plan geo old.view p after q)
        (now disk (remove_plan geo old.view p after q) old) safe safe }
    ensures goes { (geo : Geometry) (disk : View) (q : List Pending) (old : State) (safe : ℕ → Bool)
        → Stands geo disk q old safe → (p : List ℕ) → Accepts geo old (Rmdir p) → (after : List Cell) → HasBlocks geo old.view (number_at geo old.view p) after
        → (old.view.inode (number_at geo old.view p)).links ≡ 2 → IsFalse (is_open old (number_at geo old.view p))
        → (blocks : List ℕ) → AreGivenUp geo old (number_at geo old.view p) free_inode blocks
        → IsCarriedOut geo disk q old (Rmdir p) Done
        (remove_plan_last geo old.view p blocks after q)
        (becomes disk (remove_plan_last geo old.view p blocks after q) (held_with geo old (number_at geo old.view p) free_inode) old) safe safe }
{}
