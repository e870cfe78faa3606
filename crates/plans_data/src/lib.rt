//! Which updates carry out the commands that change data, and in which order: each list is a chain of updates of their
//! kinds, after which users see what the command is to show them.
#![tactic(auto)]

ghost use Rattle.std.specs.Prelude.{◌≡◌, ℕ, Bool, false, not, ◌&&◌, List, [], ◌∷◌, IsTrue, IsFalse};
ghost use Rattle.model.specs.Layout.{Geometry};
ghost use Rattle.model.specs.View.{View, free_inode};
ghost use Rattle.model.specs.Cells.{SetInode, SetNumber, updated_all};
ghost use Rattle.model.specs.Rules.{ObeysRules};
ghost use Rattle.model.specs.Uses.{IsClaim, is_sound_at};
ghost use Rattle.findings.specs.declared.repair.Repair.{Repair};
ghost use Rattle.machine.specs.Standing.{ended};
ghost use Rattle.machine.specs.State.{State, is_open};
ghost use Rattle.machine.specs.Cells.{Places, block_of};
ghost use Rattle.machine.specs.Causes.{file_of};
ghost use Rattle.machine.specs.Effects.{Writes, lets_go, relinked, truncated, attributed, closed, size_after};
ghost use Rattle.machine.specs.Repairs.{repaired};
ghost use Rattle.machine.specs.Snapshot.{released, held_still};
ghost use Rattle.ordering.specs.Cuts.{Cell, Record, Block, Pending, EachCut, users_view};
ghost use Rattle.ordering.specs.Ghosts.{Ghost, Gone, at_rest};
ghost use Rattle.ordering.specs.Agrees.{AllAgree};
ghost use Rattle.ordering.specs.Histories.{Comes_to};
ghost use Rattle.plans_data.specs.Issues.{Issues};
ghost use Rattle.plans_data.specs.Now.{now, becomes};
ghost use Rattle.plans_data.specs.Append.{Holder, MayAppend, appended, sized};
ghost use Rattle.plans_data.specs.Freeing.{AreGivenUp, MayFreeing, held_with, within, but_of, freeing};
ghost use Rattle.plans_data.specs.Held.{HeldAreRight};
ghost use Rattle.plans_data.specs.Write.{MayWriteInPlace, MayWriteAppended, MayWriteMoved, written, relocated, held_besides};
ghost use Rattle.plans_data.specs.Truncate.{MayTruncate, truncation};
ghost use Rattle.plans_data.specs.Attributes.{attributing};
ghost use Rattle.plans_data.specs.Relink.{MayRelink, MayClose, MayRepair, relinking, closing, repairing, goes_away, held_if, held_after, inode_of, open_of, without_handle};
ghost use Rattle.plans_data.specs.Release.{MayRelease, releasing};

mod commands;
mod grounds;
mod standing;

pub use commands::{
    a_release_is_carried_out, attributes_are_carried_out, closes_are_carried_out,
    repairs_are_carried_out, truncations_are_carried_out, writes_are_carried_out,
};
pub use grounds::{
    accepted_commands_find_their_grounds, accepted_commands_have_plans, accepted_writes_have_room,
    given_up_blocks_are_found,
};
pub use standing::{a_chain_carries_out_its_command, a_volume_stands, safe_files_keep_their_modes};

/// Updates that are issued one after the other keep the invariant, and are what a volume may come to.
pub fn chains_are_histories()
    ensures agree { (geo : Geometry) (disk : View) (q : List Pending) (ghost : Ghost) (p : List Pending) (g : Ghost)
        → Issues geo disk q ghost p g → AllAgree geo disk q ghost → AllAgree geo disk p g }
    ensures come { (geo : Geometry) (disk : View) (q : List Pending) (ghost : Ghost) (p : List Pending) (g : Ghost)
        → Issues geo disk q ghost p g → Comes_to geo disk q ghost → Comes_to geo disk p g }
    ensures join { (geo : Geometry) (disk : View) (q : List Pending) (ghost : Ghost) (p : List Pending) (g : Ghost) (r : List Pending) (h : Ghost)
        → Issues geo disk q ghost p g → Issues geo disk p g r h → Issues geo disk q ghost r h }
{}

/// Between commands fewer files may be called safe.
pub fn fewer_files_may_be_safe()
    ensures { (geo : Geometry) (disk : View) (q : List Pending) (held safe fewer : ℕ → Bool) → ((f : ℕ) → IsTrue (fewer f) → IsTrue (safe f))
        → AllAgree geo disk q (at_rest held safe) → AllAgree geo disk q (at_rest held fewer) }
{}

/// An inode gets one more block, as the machine says, by updates of their kinds, within any command.
pub fn a_block_is_appended()
    ensures places { (geo : Geometry) (disk : View) (q : List Pending) (ghost : Ghost) (n k b : ℕ) (bytes : List ℕ) (size : ℕ) (holder : Holder)
        → MayAppend geo (users_view disk q) ghost n k b bytes size holder
        → Places geo (users_view disk q) n k bytes size (users_view disk (appended geo n ((users_view disk q).inode n) k b bytes size holder q)) }
    ensures issues { (geo : Geometry) (disk : View) (q : List Pending) (ghost : Ghost) (n k b : ℕ) (bytes : List ℕ) (size : ℕ) (holder : Holder)
        → MayAppend geo (users_view disk q) ghost n k b bytes size holder
        → AllAgree geo disk q ghost → Issues geo disk q ghost (appended geo n ((users_view disk q).inode n) k b bytes size holder q) ghost }
    ensures held { (geo : Geometry) (disk : View) (q : List Pending) (ghost : Ghost) (n k b : ℕ) (bytes : List ℕ) (size : ℕ) (holder : Holder)
        → MayAppend geo (users_view disk q) ghost n k b bytes size holder
        → AllAgree geo disk q ghost → (old : State) → HeldAreRight geo (becomes disk q ghost.held old)
        → HeldAreRight geo (becomes disk (appended geo n ((users_view disk q).inode n) k b bytes size holder q) ghost.held old) }
{}

/// Once a block was appended, a cut with its contents claims it only with the new record.
pub fn an_appended_block_gives_credit()
    ensures { (geo : Geometry) (disk : View) (q : List Pending) (ghost : Ghost) (n k b : ℕ) (bytes : List ℕ) (size : ℕ) (holder : Holder)
        → MayAppend geo (users_view disk q) ghost n k b bytes size holder
        → AllAgree geo disk q ghost
        → EachCut disk (appended geo n ((users_view disk q).inode n) k b bytes size holder q) (λ set view. IsTrue (set (Block b)) → (m j : ℕ)
        → IsClaim geo view m j b → IsTrue (set (Record n))) }
{}

/// A number is freed with its blocks, as the machine says, by updates of their kinds; what a snapshot keeps is held.
pub fn a_number_is_freed()
    ensures issues { (geo : Geometry) (disk : View) (q : List Pending) (old : State) (gone : Gone → Bool) (safe : ℕ → Bool) (n : ℕ)
        (blocks : List ℕ) (after : List Cell)
        → MayFreeing geo (now disk q old) gone n blocks after → AllAgree geo disk q (within old.held gone safe)
        → Issues geo disk q (within old.held gone safe) (freeing n blocks after q) (within (held_with geo (now disk q old) n free_inode) (but_of n gone) safe) }
    ensures lets_go { (geo : Geometry) (disk : View) (q : List Pending) (old : State) (gone : Gone → Bool) (safe : ℕ → Bool) (n : ℕ)
        (blocks : List ℕ) (after : List Cell)
        → MayFreeing geo (now disk q old) gone n blocks after → AllAgree geo disk q (within old.held gone safe)
        → becomes disk (freeing n blocks after q) (held_with geo (now disk q old) n free_inode) old ≡ lets_go geo (now disk q old) n (updated_all (users_view disk q) (SetInode n free_inode ∷ SetNumber n false ∷ [])) }
    ensures relinked { (geo : Geometry) (disk : View) (q : List Pending) (old : State) (gone : Gone → Bool) (safe : ℕ → Bool) (n : ℕ)
        (blocks : List ℕ) (after : List Cell)
        → MayFreeing geo (now disk q old) gone n blocks after → AllAgree geo disk q (within old.held gone safe) → IsFalse (is_open old n)
        → becomes disk (freeing n blocks after q) (held_with geo (now disk q old) n free_inode) old ≡ relinked geo (now disk q old) n 0 }
    ensures held { (geo : Geometry) (disk : View) (q : List Pending) (old : State) → ObeysRules geo (users_view disk q)
        → HeldAreRight geo (now disk q old) → (n : ℕ) (blocks : List ℕ) (after : List Cell) → AreGivenUp geo (now disk q old) n free_inode blocks
        → HeldAreRight geo (becomes disk (freeing n blocks after q) (held_with geo (now disk q old) n free_inode) old) }
{}

/// A block of a file is written in place, as the machine says, by updates of their kinds.
pub fn a_block_is_written_in_place()
    ensures writes { (geo : Geometry) (disk : View) (q : List Pending) (old : State) (safe : ℕ → Bool) (n k : ℕ) (piece bytes : List ℕ)
        → MayWriteInPlace geo (now disk q old) n k piece bytes
        → Writes geo (now disk q old) n k piece (becomes disk (written n ((users_view disk q).inode n) (block_of geo (users_view disk q) n k) bytes (size_after (users_view disk q) n k piece) q) old.held old) }
    ensures issues { (geo : Geometry) (disk : View) (q : List Pending) (old : State) (safe : ℕ → Bool) (n k : ℕ) (piece bytes : List ℕ)
        → MayWriteInPlace geo (now disk q old) n k piece bytes
        → AllAgree geo disk q (at_rest old.held safe)
        → Issues geo disk q (at_rest old.held safe) (written n ((users_view disk q).inode n) (block_of geo (users_view disk q) n k) bytes (size_after (users_view disk q) n k piece) q) (at_rest old.held safe) }
{}

/// A file gets one more block, as the machine says, by updates of their kinds.
pub fn a_file_is_extended()
    ensures writes { (geo : Geometry) (disk : View) (q : List Pending) (old : State) (safe : ℕ → Bool) (n k b : ℕ) (piece bytes : List ℕ) (holder : Holder)
        → MayWriteAppended geo (now disk q old) n k b piece bytes holder
        → Writes geo (now disk q old) n k piece (becomes disk (appended geo n ((users_view disk q).inode n) k b bytes (size_after (users_view disk q) n k piece) holder q) old.held old) }
    ensures issues { (geo : Geometry) (disk : View) (q : List Pending) (old : State) (safe : ℕ → Bool) (n k b : ℕ) (piece bytes : List ℕ) (holder : Holder)
        → MayWriteAppended geo (now disk q old) n k b piece bytes holder
        → AllAgree geo disk q (at_rest old.held safe)
        → Issues geo disk q (at_rest old.held safe) (appended geo n ((users_view disk q).inode n) k b bytes (size_after (users_view disk q) n k piece) holder q) (at_rest old.held safe) }
{}

/// A block of a file that a snapshot keeps is written elsewhere, as the machine says, by updates of their kinds; the
/// old block is held.
pub fn a_kept_block_moves()
    ensures writes { (geo : Geometry) (disk : View) (q : List Pending) (old : State) (safe : ℕ → Bool) (n k b : ℕ) (piece bytes : List ℕ)
        → AllAgree geo disk q (at_rest old.held safe)
        → (holder : Holder) → MayWriteMoved geo (now disk q old) n k b piece bytes holder
        → Writes geo (now disk q old) n k piece (becomes disk (relocated geo n ((users_view disk q).inode n) k b bytes (size_after (users_view disk q) n k piece) holder q) (held_besides geo (now disk q old) n k) old) }
    ensures issues { (geo : Geometry) (disk : View) (q : List Pending) (old : State) (safe : ℕ → Bool) (n k b : ℕ) (piece bytes : List ℕ)
        → AllAgree geo disk q (at_rest old.held safe)
        → (holder : Holder) → MayWriteMoved geo (now disk q old) n k b piece bytes holder
        → Issues geo disk q (at_rest old.held safe) (relocated geo n ((users_view disk q).inode n) k b bytes (size_after (users_view disk q) n k piece) holder q) (at_rest (held_besides geo (now disk q old) n k) safe) }
{}

/// An inode gets other attributes, as the machine says, by an update of its kind.
pub fn attributes_are_set()
    ensures sets { (geo : Geometry) (disk : View) (q : List Pending) (old : State) (safe : ℕ → Bool) (n : ℕ) (words : List ℕ)
        → becomes disk (attributing n ((users_view disk q).inode n) words q) old.held old ≡ attributed (now disk q old) n words }
    ensures issues { (geo : Geometry) (disk : View) (q : List Pending) (old : State) (safe : ℕ → Bool) (n : ℕ) (words : List ℕ)
        → IsTrue (is_sound_at geo (users_view disk q) n) → AllAgree geo disk q (at_rest old.held safe)
        → Issues geo disk q (at_rest old.held safe) (attributing n ((users_view disk q).inode n) words q) (at_rest old.held safe) }
{}

/// A file is truncated, as the machine says, by updates of their kinds; what a snapshot keeps is held.
pub fn a_file_is_truncated()
    ensures truncates { (geo : Geometry) (disk : View) (q : List Pending) (old : State) (safe : ℕ → Bool) (n size : ℕ) (blocks : List ℕ)
        → MayTruncate geo (now disk q old) n size blocks → AllAgree geo disk q (at_rest old.held safe)
        → becomes disk (truncation n ((users_view disk q).inode n) size blocks q) (held_with geo (now disk q old) n (sized ((users_view disk q).inode n) size)) old ≡ truncated geo (now disk q old) n size }
    ensures issues { (geo : Geometry) (disk : View) (q : List Pending) (old : State) (safe : ℕ → Bool) (n size : ℕ) (blocks : List ℕ)
        → MayTruncate geo (now disk q old) n size blocks → AllAgree geo disk q (at_rest old.held safe)
        → Issues geo disk q (at_rest old.held safe) (truncation n ((users_view disk q).inode n) size blocks q) (at_rest (held_with geo (now disk q old) n (sized ((users_view disk q).inode n) size)) safe) }
{}

/// An inode gets another number of links, or goes, as the machine says, by updates of their kinds.
pub fn an_inode_is_relinked()
    ensures relinks { (geo : Geometry) (disk : View) (q : List Pending) (old : State) (safe : ℕ → Bool) (n : ℕ) (blocks : List ℕ)
        → AllAgree geo disk q (at_rest old.held safe) → (links : ℕ) → MayRelink geo (now disk q old) n links blocks
        → becomes disk (relinking n ((users_view disk q).inode n) links (is_open old n) blocks q) (held_if (goes_away links (is_open old n)) geo (now disk q old) n) old ≡ relinked geo (now disk q old) n links }
    ensures issues { (geo : Geometry) (disk : View) (q : List Pending) (old : State) (safe : ℕ → Bool) (n : ℕ) (blocks : List ℕ)
        → AllAgree geo disk q (at_rest old.held safe) → (links : ℕ) → MayRelink geo (now disk q old) n links blocks
        → Issues geo disk q (at_rest old.held safe) (relinking n ((users_view disk q).inode n) links (is_open old n) blocks q) (at_rest (held_if (goes_away links (is_open old n)) geo (now disk q old) n) safe) }
{}

/// A handle is closed, and a file without links goes with its last one, as the machine says, by updates of their kinds.
pub fn a_handle_is_closed()
    ensures closes { (geo : Geometry) (disk : View) (q : List Pending) (old : State) (safe : ℕ → Bool) (n : ℕ) (blocks : List ℕ)
        → AllAgree geo disk q (at_rest old.held safe) → (h : ℕ) → MayClose geo (now disk q old) h n blocks → n ≡ file_of old h
        → becomes disk (closing n ((users_view disk q).inode n) (is_open (without_handle h old) n) blocks q) (held_if (goes_away ((users_view disk q).inode n).links (is_open (without_handle h old) n)) geo (now disk q old) n) (without_handle h old) ≡ closed geo (now disk q old) h }
    ensures issues { (geo : Geometry) (disk : View) (q : List Pending) (old : State) (safe : ℕ → Bool) (n : ℕ) (blocks : List ℕ)
        → AllAgree geo disk q (at_rest old.held safe) → (h : ℕ) → MayClose geo (now disk q old) h n blocks
        → Issues geo disk q (at_rest old.held safe) (closing n ((users_view disk q).inode n) (is_open (without_handle h old) n) blocks q) (at_rest (held_if (goes_away ((users_view disk q).inode n).links (is_open (without_handle h old) n)) geo (now disk q old) n) safe) }
{}

/// A repair is carried out, as the machine says, by updates of their kinds.
pub fn a_repair_is_made()
    ensures repairs { (geo : Geometry) (disk : View) (q : List Pending) (old : State) (safe : ℕ → Bool) (blocks : List ℕ)
        → AllAgree geo disk q (at_rest old.held safe) → (r : Repair) → MayRepair geo (now disk q old) r blocks
        → becomes disk (repairing r (inode_of (users_view disk q) r) (open_of old r) blocks q) (held_after geo (now disk q old) r) old ≡ repaired geo (now disk q old) r }
    ensures issues { (geo : Geometry) (disk : View) (q : List Pending) (old : State) (safe : ℕ → Bool) (blocks : List ℕ)
        → AllAgree geo disk q (at_rest old.held safe) → (r : Repair) → MayRepair geo (now disk q old) r blocks
        → Issues geo disk q (at_rest old.held safe) (repairing r (inode_of (users_view disk q) r) (open_of old r) blocks q) (at_rest (held_after geo (now disk q old) r) safe) }
{}

/// With nothing pending a snapshot ends, as the machine says: what is held for it alone is forgotten, and then unmarked by
/// updates of their kind. Any part of what is held may be let go so.
pub fn the_snapshot_ends()
    ensures unmarks { (geo : Geometry) (disk : View) (old : State) (held : ℕ → Bool) (blocks : List ℕ) → MayRelease geo (now disk [] old) held blocks
        → users_view disk (releasing blocks []) ≡ record disk { block_marked = λ a. disk.block_marked a && not (old.held a && not (held a)) } }
    ensures releases { (geo : Geometry) (disk : View) (old : State) (s : ℕ) (blocks : List ℕ) → MayRelease geo (now disk [] old) (held_still old s) blocks
        → becomes disk (releasing blocks []) (held_still old s) (record old { snapshots = ended old.snapshots s }) ≡ released (now disk [] old) s }
    ensures forgets { (geo : Geometry) (disk : View) (old : State) (safe held : ℕ → Bool) (blocks : List ℕ) → MayRelease geo (now disk [] old) held blocks
        → AllAgree geo disk [] (at_rest old.held safe) → AllAgree geo disk [] (at_rest held safe) }
    ensures issues { (geo : Geometry) (disk : View) (old : State) (safe held : ℕ → Bool) (blocks : List ℕ) → MayRelease geo (now disk [] old) held blocks
        → AllAgree geo disk [] (at_rest old.held safe) → Issues geo disk [] (at_rest held safe) (releasing blocks []) (at_rest held safe) }
    ensures comes { (geo : Geometry) (disk : View) (old : State) (safe held : ℕ → Bool) (blocks : List ℕ) → MayRelease geo (now disk [] old) held blocks
        → Comes_to geo disk [] (at_rest old.held safe) → Comes_to geo disk (releasing blocks []) (at_rest held safe) }
{}

/// Each of these lists leaves what is held right, as it was: claimed by nobody, and marked.
pub fn held_blocks_stay_right()
    ensures in_place { (geo : Geometry) (disk : View) (q : List Pending) (old : State) (safe : ℕ → Bool)
        → AllAgree geo disk q (at_rest old.held safe) → HeldAreRight geo (now disk q old)
        → (n k : ℕ) (piece bytes : List ℕ) → MayWriteInPlace geo (now disk q old) n k piece bytes
        → HeldAreRight geo (becomes disk (written n ((users_view disk q).inode n) (block_of geo (users_view disk q) n k) bytes (size_after (users_view disk q) n k piece) q) old.held old) }
    ensures extended { (geo : Geometry) (disk : View) (q : List Pending) (old : State) (safe : ℕ → Bool)
        → AllAgree geo disk q (at_rest old.held safe) → HeldAreRight geo (now disk q old)
        → (n k b : ℕ) (piece bytes : List ℕ) (holder : Holder) → MayWriteAppended geo (now disk q old) n k b piece bytes holder
        → HeldAreRight geo (becomes disk (appended geo n ((users_view disk q).inode n) k b bytes (size_after (users_view disk q) n k piece) holder q) old.held old) }
    ensures moved { (geo : Geometry) (disk : View) (q : List Pending) (old : State) (safe : ℕ → Bool)
        → AllAgree geo disk q (at_rest old.held safe) → HeldAreRight geo (now disk q old)
        → (n k b : ℕ) (piece bytes : List ℕ) (holder : Holder) → MayWriteMoved geo (now disk q old) n k b piece bytes holder
        → HeldAreRight geo (becomes disk (relocated geo n ((users_view disk q).inode n) k b bytes (size_after (users_view disk q) n k piece) holder q) (held_besides geo (now disk q old) n k) old) }
    ensures truncated { (geo : Geometry) (disk : View) (q : List Pending) (old : State) (safe : ℕ → Bool)
        → AllAgree geo disk q (at_rest old.held safe) → HeldAreRight geo (now disk q old)
        → (n size : ℕ) (blocks : List ℕ) → MayTruncate geo (now disk q old) n size blocks
        → HeldAreRight geo (becomes disk (truncation n ((users_view disk q).inode n) size blocks q) (held_with geo (now disk q old) n (sized ((users_view disk q).inode n) size)) old) }
    ensures relinked { (geo : Geometry) (disk : View) (q : List Pending) (old : State) (safe : ℕ → Bool)
        → AllAgree geo disk q (at_rest old.held safe) → HeldAreRight geo (now disk q old)
        → (n links : ℕ) (blocks : List ℕ) → MayRelink geo (now disk q old) n links blocks
        → HeldAreRight geo (becomes disk (relinking n ((users_view disk q).inode n) links (is_open old n) blocks q) (held_if (goes_away links (is_open old n)) geo (now disk q old) n) old) }
    ensures closed { (geo : Geometry) (disk : View) (q : List Pending) (old : State) (safe : ℕ → Bool)
        → AllAgree geo disk q (at_rest old.held safe) → HeldAreRight geo (now disk q old)
        → (h n : ℕ) (blocks : List ℕ) → MayClose geo (now disk q old) h n blocks
        → HeldAreRight geo (becomes disk (closing n ((users_view disk q).inode n) (is_open (without_handle h old) n) blocks q) (held_if (goes_away ((users_view disk q).inode n).links (is_open (without_handle h old) n)) geo (now disk q old) n) (without_handle h old)) }
    ensures repaired { (geo : Geometry) (disk : View) (q : List Pending) (old : State) (safe : ℕ → Bool)
        → AllAgree geo disk q (at_rest old.held safe) → HeldAreRight geo (now disk q old)
        → (r : Repair) (blocks : List ℕ) → MayRepair geo (now disk q old) r blocks
        → HeldAreRight geo (becomes disk (repairing r (inode_of (users_view disk q) r) (open_of old r) blocks q) (held_after geo (now disk q old) r) old) }
    ensures released { (geo : Geometry) (disk : View) (old : State) (safe held : ℕ → Bool) (blocks : List ℕ)
        → MayRelease geo (now disk [] old) held blocks → HeldAreRight geo (now disk [] old)
        → HeldAreRight geo (becomes disk (releasing blocks []) held old) }
{}
