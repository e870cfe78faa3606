//! Whoever knows the balance and that a command is not refused has what its updates ask for.

ghost use Rattle.std.specs.Prelude.{◌≡◌, ℕ, List, [], ◌<◌, ◌≤◌, ◌-◌, ◌↔◌, replicate, IsTrue, IsFalse};
ghost use Rattle.std.specs.List.{Contains};
ghost use Rattle.model.specs.Layout.{Geometry, IsGeometry};
ghost use Rattle.model.specs.View.{View, Inode, free_inode};
ghost use Rattle.model.specs.Uses.{IsClaimed, blocks_of};
ghost use Rattle.findings.specs.declared.repair.Repair.TheVariants.{DropInode, LowerCount, FreeBlock, FreeNumber};
ghost use Rattle.machine.specs.Balance.{Balance, Owes};
ghost use Rattle.machine.specs.Command.{Write, Truncate, Close};
ghost use Rattle.machine.specs.State.{State, is_kept};
ghost use Rattle.machine.specs.Cells.{block_of, seen, with_pointer};
ghost use Rattle.machine.specs.Room.{IsFreeBlock};
ghost use Rattle.machine.specs.Causes.{Accepts, file_of};
ghost use Rattle.machine.specs.Effects.{IsOverwritten, truncated, closed};
ghost use Rattle.machine.specs.Snapshot.{held_still, let_go_of};
ghost use Rattle.plans_data.specs.Append.{IsWhole, IsNewTable, sized};
ghost use Rattle.plans_data.specs.Freeing.{AreGivenUp, HeldAreUnclaimed};
ghost use Rattle.plans_data.specs.Grounds.{IsFile, IsWritable, HasFew};
ghost use Rattle.plans_data.specs.Write.{MayWriteInPlace, MayWriteAppended, MayWriteMoved, HeldAreMarked};
ghost use Rattle.plans_data.specs.Truncate.{MayTruncate};
ghost use Rattle.plans_data.specs.Relink.{MayClose, MayRepair};
ghost use Rattle.plans_data.specs.Release.{MayRelease};
ghost use Rattle.plans_data.specs.Plans.{IsChoice, holder_of};
ghost use Rattle.plans_data.specs.Lists.{given_up_with, let_go_below};

/// Where the volume is in balance, the commands that no cause refuses, and the repairs that are owed, find what their
/// updates ask for of the inode.
pub fn accepted_commands_find_their_grounds()
    ensures held { (geo : Geometry) (old : State) → Balance geo old → HeldAreMarked old × HeldAreUnclaimed geo old }
    ensures whole { (geo : Geometry) (old : State) → IsGeometry geo → Balance geo old → IsWhole geo old.view }
    ensures write { (geo : Geometry) (old : State) → Balance geo old → (h k : ℕ) (piece : List ℕ) → Accepts geo old (Write h k piece)
        → IsWritable geo old.view (file_of old h) k piece }
    ensures truncate { (geo : Geometry) (old : State) → Balance geo old → (h n : ℕ) → Accepts geo old (Truncate h n)
        → IsFile geo old.view (file_of old h) × (n ≤ (old.view.inode (file_of old h)).size) }
    ensures close { (geo : Geometry) (old : State) → Balance geo old → (h : ℕ) → Accepts geo old (Close h) → IsFile geo old.view (file_of old h) }
    ensures drop { (geo : Geometry) (old : State) → Balance geo old → (n : ℕ) → Owes geo old (DropInode n) → HasFew geo old.view n 0 }
    ensures lower { (geo : Geometry) (old : State) → Balance geo old → (n x : ℕ) → Owes geo old (LowerCount n x)
        → HasFew geo old.view n ((old.view.inode n).links - x) }
    ensures block { (geo : Geometry) (old : State) → Balance geo old → (a : ℕ) → Owes geo old (FreeBlock a)
        → (IsClaimed geo old.view a → ⊥) × IsFalse (old.held a) }
    ensures number { (geo : Geometry) (old : State) → Balance geo old → (n : ℕ) → Owes geo old (FreeNumber n) → (old.view.inode n).mode ≡ 0 }
{}

/// A command that no cause refuses has a plan, and so does each repair that is owed, and the end of a snapshot.
pub fn accepted_commands_have_plans()
    ensures in_place { (geo : Geometry) → IsGeometry geo → (old : State) → Balance geo old → (h k : ℕ) (piece : List ℕ) → Accepts geo old (Write h k piece)
        → (bytes : List ℕ) → IsOverwritten piece (seen geo old.view (file_of old h) k) bytes
        → k < blocks_of (old.view.inode (file_of old h)).size → IsFalse (is_kept old (block_of geo old.view (file_of old h) k))
        → MayWriteInPlace geo old (file_of old h) k piece bytes }
    ensures extended { (geo : Geometry) → IsGeometry geo → (old : State) → Balance geo old → (h k : ℕ) (piece : List ℕ) → Accepts geo old (Write h k piece)
        → (bytes : List ℕ) → IsOverwritten piece (seen geo old.view (file_of old h) k) bytes
        → (b : ℕ) (news : List ℕ) → IsChoice geo old.view k b news
        → blocks_of (old.view.inode (file_of old h)).size ≤ k
        → MayWriteAppended geo old (file_of old h) k b piece bytes (holder_of geo old.view (file_of old h) k b news) }
    ensures moved { (geo : Geometry) → IsGeometry geo → (old : State) → Balance geo old → (h k : ℕ) (piece : List ℕ) → Accepts geo old (Write h k piece)
        → (bytes : List ℕ) → IsOverwritten piece (seen geo old.view (file_of old h) k) bytes
        → (b : ℕ) → IsFreeBlock geo old.view b
        → k < blocks_of (old.view.inode (file_of old h)).size → IsTrue (is_kept old (block_of geo old.view (file_of old h) k))
        → MayWriteMoved geo old (file_of old h) k b piece bytes (holder_of geo old.view (file_of old h) k b []) }
    ensures truncated { (geo : Geometry) → IsGeometry geo → (old : State) → Balance geo old → (h size : ℕ) → Accepts geo old (Truncate h size)
        → MayTruncate geo old (file_of old h) size (given_up_with geo old (file_of old h) (sized (old.view.inode (file_of old h)) size)) }
    ensures closed { (geo : Geometry) → IsGeometry geo → (old : State) → Balance geo old → (h : ℕ) → Accepts geo old (Close h)
        → MayClose geo old h (file_of old h) (given_up_with geo old (file_of old h) free_inode) }
    ensures dropped { (geo : Geometry) → IsGeometry geo → (old : State) → Balance geo old → (n : ℕ) → Owes geo old (DropInode n)
        → MayRepair geo old (DropInode n) (given_up_with geo old n free_inode) }
    ensures lowered { (geo : Geometry) → IsGeometry geo → (old : State) → Balance geo old → (n x : ℕ) → Owes geo old (LowerCount n x)
        → MayRepair geo old (LowerCount n x) (given_up_with geo old n free_inode) }
    ensures block { (geo : Geometry) → IsGeometry geo → (old : State) → Balance geo old → (a : ℕ) (blocks : List ℕ) → Owes geo old (FreeBlock a)
        → MayRepair geo old (FreeBlock a) blocks }
    ensures number { (geo : Geometry) → IsGeometry geo → (old : State) → Balance geo old → (n : ℕ) (blocks : List ℕ)
        → Owes geo old (FreeNumber n) → MayRepair geo old (FreeNumber n) blocks }
    ensures released { (geo : Geometry) → IsGeometry geo → (old : State) → Balance geo old → (s n : ℕ) → ((a : ℕ) → IsTrue (old.held a) → a < n)
        → MayRelease geo old (held_still old s) (let_go_below old s n) }
{}

/// A write that no cause refuses finds the unmarked blocks that it needs, one for each table that comes with its block, and
/// zeroes with the pointer will do as a new table.
pub fn accepted_writes_have_room()
    ensures moved { (geo : Geometry) (old : State) (h k : ℕ) (piece : List ℕ) → Accepts geo old (Write h k piece)
        → k < blocks_of (old.view.inode (file_of old h)).size
        → IsTrue (is_kept old (block_of geo old.view (file_of old h) k)) → (b : ℕ) × IsFreeBlock geo old.view b }
    ensures extended { (geo : Geometry) (old : State) (h k : ℕ) (piece : List ℕ) → Accepts geo old (Write h k piece)
        → blocks_of (old.view.inode (file_of old h)).size ≤ k → (b : ℕ) × (news : List ℕ) × IsChoice geo old.view k b news }
    ensures zeroes { (geo : Geometry) → IsGeometry geo → (view : View) (b x : ℕ) → IsFreeBlock geo view b → IsFreeBlock geo view x → (x ≡ b → ⊥)
        → IsNewTable geo view b x (with_pointer (replicate 1024 0) 0 b) }
{}

/// The blocks that an inode gives up are found by a loop over its positions, and those that the end of a snapshot lets go by a loop
/// over addresses.
pub fn given_up_blocks_are_found()
    ensures given_up { (geo : Geometry) (old : State) (n : ℕ) (new : Inode) → AreGivenUp geo old n new (given_up_with geo old n new) }
    ensures let_go { (old : State) (s n : ℕ) → ((a : ℕ) → IsTrue (old.held a) → a < n) → (a : ℕ)
        → Contains (let_go_below old s n) a ↔ IsTrue (let_go_of old s a) }
{}
