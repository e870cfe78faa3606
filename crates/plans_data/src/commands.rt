//! The commands that change data: what no cause refuses is carried out by its updates, and the volume stands as before.

ghost use Rattle.std.specs.Prelude.{◌≡◌, ℕ, Bool, List, [], Ok, Some, ◌<◌, ◌≤◌, true, slice_get, IsTrue, IsFalse};
ghost use Rattle.model.specs.Layout.{Geometry};
ghost use Rattle.model.specs.View.{View, free_inode};
ghost use Rattle.model.specs.Cells.{put_at};
ghost use Rattle.model.specs.Uses.{blocks_of};
ghost use Rattle.findings.specs.declared.repair.Repair.{Repair};
ghost use Rattle.machine.specs.Command.{Write, Truncate, SetAttributes, Close, RepairAt, Release, Done};
ghost use Rattle.machine.specs.Step.{Step};
ghost use Rattle.machine.specs.Standing.{ended};
ghost use Rattle.machine.specs.State.{State, Plan, is_open, is_kept};
ghost use Rattle.machine.specs.Cells.{block_of, seen};
ghost use Rattle.machine.specs.Room.{IsFreeBlock};
ghost use Rattle.machine.specs.Causes.{Accepts, file_of};
ghost use Rattle.machine.specs.Snapshot.{held_still};
ghost use Rattle.machine.specs.Effects.{IsOverwritten, size_after};
ghost use Rattle.ordering.specs.Cuts.{Pending};
ghost use Rattle.ordering.specs.Ghosts.{at_rest};
ghost use Rattle.ordering.specs.Histories.{Comes_to};
ghost use Rattle.plans_data.specs.Now.{becomes};
ghost use Rattle.plans_data.specs.Carried.{Stands, IsCarriedOut};
ghost use Rattle.plans_data.specs.Append.{sized, appended};
ghost use Rattle.plans_data.specs.Freeing.{held_with};
ghost use Rattle.plans_data.specs.Write.{written, relocated, held_besides};
ghost use Rattle.plans_data.specs.Truncate.{truncation};
ghost use Rattle.plans_data.specs.Attributes.{attributing};
ghost use Rattle.plans_data.specs.Relink.{closing, repairing, goes_away, held_if, held_after, inode_of, open_of, without_handle};
ghost use Rattle.plans_data.specs.Release.{releasing};
ghost use Rattle.plans_data.specs.Plans.{IsChoice, holder_of, named_by};
ghost use Rattle.plans_data.specs.Lists.{given_up_with, let_go_below};

/// A write that no cause refuses is carried out: in place, after the last block, or elsewhere where a snapshot keeps the
/// block.
pub fn writes_are_carried_out()
    ensures in_place { (geo : Geometry) (disk : View) (q : List Pending) (old : State) (safe : ℕ → Bool) → Stands geo disk q old safe
        → (h k : ℕ) (piece : List ℕ) → Accepts geo old (Write h k piece) → (bytes : List ℕ) → IsOverwritten piece (seen geo old.view (file_of old h) k) bytes
        → k < blocks_of (old.view.inode (file_of old h)).size → IsFalse (is_kept old (block_of geo old.view (file_of old h) k))
        → let n = file_of old h in let p = written n (old.view.inode n) (block_of geo old.view n k) bytes (size_after old.view n k piece) q in
        IsCarriedOut geo disk q old (Write h k piece) Done p (becomes disk p old.held old) safe safe }
    ensures extended { (geo : Geometry) (disk : View) (q : List Pending) (old : State) (safe : ℕ → Bool) → Stands geo disk q old safe
        → (h k : ℕ) (piece : List ℕ) → Accepts geo old (Write h k piece) → (bytes : List ℕ) → IsOverwritten piece (seen geo old.view (file_of old h) k) bytes
        → (b : ℕ) (news : List ℕ) → IsChoice geo old.view k b news → blocks_of (old.view.inode (file_of old h)).size ≤ k
        → let n = file_of old h in let p = appended geo n (old.view.inode n) k b bytes (size_after old.view n k piece) (holder_of geo old.view n k b news) q in
        IsCarriedOut geo disk q old (Write h k piece) Done p (becomes disk p old.held old) safe safe }
    ensures moved { (geo : Geometry) (disk : View) (q : List Pending) (old : State) (safe : ℕ → Bool) → Stands geo disk q old safe
        → (h k : ℕ) (piece : List ℕ) → Accepts geo old (Write h k piece) → (bytes : List ℕ) → IsOverwritten piece (seen geo old.view (file_of old h) k) bytes
        → (b : ℕ) → IsFreeBlock geo old.view b → k < blocks_of (old.view.inode (file_of old h)).size → IsTrue (is_kept old (block_of geo old.view (file_of old h) k))
        → let n = file_of old h in let p = relocated geo n (old.view.inode n) k b bytes (size_after old.view n k piece) (holder_of geo old.view n k b []) q in
        IsCarriedOut geo disk q old (Write h k piece) Done p (becomes disk p (held_besides geo old n k) old) safe safe }
{}

/// A truncation that no cause refuses is carried out.
pub fn truncations_are_carried_out()
    ensures { (geo : Geometry) (disk : View) (q : List Pending) (old : State) (safe : ℕ → Bool) → Stands geo disk q old safe
        → (h size : ℕ) → Accepts geo old (Truncate h size)
        → let n = file_of old h in let new = sized (old.view.inode n) size in let p = truncation n (old.view.inode n) size (given_up_with geo old n new) q in
        IsCarriedOut geo disk q old (Truncate h size) Done p (becomes disk p (held_with geo old n new) old) safe safe }
{}

/// Attributes that no cause refuses to set are set by one update, which comes after no other.
pub fn attributes_are_carried_out()
    ensures { (geo : Geometry) (disk : View) (q : List Pending) (old : State) (safe : ℕ → Bool) → Stands geo disk q old safe
        → (n : ℕ) (words : List ℕ) → Accepts geo old (SetAttributes n words)
        → let p = attributing n (old.view.inode n) words q in
        IsCarriedOut geo disk q old (SetAttributes n words) Done p (becomes disk p old.held old) safe safe }
{}

/// A close that no cause refuses is carried out.
pub fn closes_are_carried_out()
    ensures { (geo : Geometry) (disk : View) (q : List Pending) (old : State) (safe : ℕ → Bool) → Stands geo disk q old safe
        → (h : ℕ) → Accepts geo old (Close h)
        → let n = file_of old h in let left = without_handle h old in let p = closing n (old.view.inode n) (is_open left n) (given_up_with geo old n free_inode) q in
        IsCarriedOut geo disk q old (Close h) Done p (becomes disk p (held_if (goes_away (old.view.inode n).links (is_open left n)) geo old n) left) safe safe }
{}

/// A repair that no cause refuses is carried out.
pub fn repairs_are_carried_out()
    ensures { (geo : Geometry) (disk : View) (q : List Pending) (old : State) (safe : ℕ → Bool) → Stands geo disk q old safe
        → (k : ℕ) (plan : Plan) (r : Repair) → Accepts geo old (RepairAt k) → old.plan ≡ Some plan → slice_get plan.repairs k ≡ Some r
        → let p = repairing r (inode_of old.view r) (open_of old r) (given_up_with geo old (named_by r) free_inode) q in
        IsCarriedOut geo disk q old (RepairAt k) Done p (record (becomes disk p (held_after geo old r) old) { plan = Some (record plan { done = put_at plan.done k true }) }) safe safe }
{}

/// With nothing pending a release that no cause refuses is carried out too: what no other snapshot has marked is let go,
/// which is no update, and then its blocks are unmarked.
pub fn a_release_is_carried_out()
    ensures step { (geo : Geometry) (disk : View) (old : State) (safe : ℕ → Bool) → Stands geo disk [] old safe
        → (s : ℕ) → Accepts geo old (Release s) → (n : ℕ) → ((a : ℕ) → IsTrue (old.held a) → a < n)
        → Step geo old (Release s) (Ok Done)
        (becomes disk (releasing (let_go_below old s n) []) (held_still old s) (record old { snapshots = ended old.snapshots s })) }
    ensures comes { (geo : Geometry) (disk : View) (old : State) (safe : ℕ → Bool) → Stands geo disk [] old safe
        → (s : ℕ) → Accepts geo old (Release s) → (n : ℕ) → ((a : ℕ) → IsTrue (old.held a) → a < n)
        → Comes_to geo disk [] (at_rest old.held safe) → Comes_to geo disk (releasing (let_go_below old s n) []) (at_rest (held_still old s) safe) }
    ensures stands { (geo : Geometry) (disk : View) (old : State) (safe : ℕ → Bool) → Stands geo disk [] old safe
        → (s : ℕ) → Accepts geo old (Release s) → (n : ℕ) → ((a : ℕ) → IsTrue (old.held a) → a < n)
        → Stands geo disk (releasing (let_go_below old s n) [])
        (becomes disk (releasing (let_go_below old s n) []) (held_still old s) (record old { snapshots = ended old.snapshots s })) safe }
{}
