//! What a volume keeps between commands, whatever is issued.

ghost use Rattle.std.specs.Prelude.{◌≡◌, ℕ, Bool, List, [], Ok, IsTrue};
ghost use Rattle.model.specs.Layout.{Geometry, IsGeometry};
ghost use Rattle.model.specs.View.{View};
ghost use Rattle.model.specs.Reach.{IsReachable};
ghost use Rattle.model.specs.Rules.{ObeysRules};
ghost use Rattle.machine.specs.Balance.{Balance};
ghost use Rattle.machine.specs.Command.{Command, Answer};
ghost use Rattle.machine.specs.State.{State, mounted};
ghost use Rattle.machine.specs.Step.{Step};
ghost use Rattle.machine.specs.Whole.{HasWholeBlocks, HasWholeRecords};
ghost use Rattle.ordering.specs.Cuts.{Pending, IsClosed, users_view, seen, rest};
ghost use Rattle.ordering.specs.Ghosts.{Ghost, at_rest};
ghost use Rattle.ordering.specs.Agrees.{AllAgree};
ghost use Rattle.ordering.specs.Histories.{IsSafeCut};
ghost use Rattle.plans_data.specs.Carried.{Stands, IsCarriedOut};
ghost use Rattle.plans_data.specs.Issues.{Issues};

/// What no stop loses was safe before, and is still the file or the directory that it was.
pub fn safe_files_keep_their_modes()
    ensures fewer { (geo : Geometry) (disk : View) (q : List Pending) (ghost : Ghost) (p : List Pending) (g : Ghost) → Issues geo disk q ghost p g
        → (f : ℕ) → IsTrue (g.safe f) → IsTrue (ghost.safe f) }
    ensures modes { (geo : Geometry) (disk : View) (q : List Pending) (ghost : Ghost) (p : List Pending) (g : Ghost) → Issues geo disk q ghost p g
        → AllAgree geo disk q ghost → (f : ℕ) → IsTrue (g.safe f) → ((users_view disk p).inode f).mode ≡ ((users_view disk q).inode f).mode }
{}

/// A volume stands when it is mounted, and after each flush; also with fewer safe files, and in another state with the
/// same view and the same held blocks that is in balance. Then each closed cut obeys the rules, and has each safe file.
pub fn a_volume_stands()
    ensures mounted { (geo : Geometry) (disk : View) (safe : ℕ → Bool)
        → IsGeometry geo → ObeysRules geo disk → HasWholeBlocks geo disk → HasWholeRecords disk
        → ((f : ℕ) → IsTrue (safe f) → IsReachable geo disk f × ((disk.inode f).mode ≡ 1))
        → Stands geo disk [] (mounted disk) safe }
    ensures flushed { (geo : Geometry) (disk : View) (safe : ℕ → Bool) (q : List Pending) (old : State)
        → Stands geo disk q old safe → (cut : List Bool) → IsClosed q cut → Stands geo (seen disk q cut) (rest q cut) old safe }
    ensures fewer_safe { (geo : Geometry) (disk : View) (q : List Pending) (old : State) (safe : ℕ → Bool)
        → Stands geo disk q old safe → (fewer : ℕ → Bool) → ((f : ℕ) → IsTrue (fewer f) → IsTrue (safe f)) → Stands geo disk q old fewer }
    ensures other { (geo : Geometry) (disk : View) (q : List Pending) (old : State) (safe : ℕ → Bool)
        → Stands geo disk q old safe → (new : State) → old.view ≡ new.view → old.held ≡ new.held → Balance geo new → Stands geo disk q new safe }
    ensures safe { (geo : Geometry) (disk : View) (safe : ℕ → Bool) (q : List Pending) (old : State)
        → Stands geo disk q old safe → (cut : List Bool) → IsClosed q cut → IsSafeCut geo (seen disk q cut) (at_rest old.held safe) }
{}

/// A command is carried out by any chain of updates after which users see its new state.
pub fn a_chain_carries_out_its_command()
    ensures { (geo : Geometry) (disk : View) (q : List Pending) (old : State) (safe : ℕ → Bool) → Stands geo disk q old safe
        → (command : Command) (answer : Answer) (plan : List Pending) (new : State) (safe' : ℕ → Bool) → Step geo old command (Ok answer) new
        → users_view disk plan ≡ new.view
        → Issues geo disk q (at_rest old.held safe) plan (at_rest new.held safe') → IsCarriedOut geo disk q old command answer plan new safe safe' }
{}
