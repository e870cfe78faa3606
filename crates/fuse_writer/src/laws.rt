//! Laws of turns.
ghost use Rattle.std.specs.Prelude.{◌≡◌, ◌⊎◌, ◌<◌, ◌≤◌, ◌-◌, ◌^◌, ℕ, Bool, false, IsTrue, List, [], None, Some, length, map, slice_index_or};
ghost use Rattle.machine.specs.Command.{Reply};
ghost use Rattle.softdep.specs.Queued.{unsynced_of};
ghost use Rattle.snapshot.specs.Alive.{Alive};
ghost use Rattle.snapshot.specs.Asked.{AreReplies, asked};
ghost use Rattle.snapshot.specs.Durable.{IsSoundOn, LeavesSafe};
ghost use Rattle.snapshot.specs.Goes.{HasBeside};
ghost use Rattle.snapshot.specs.Stages.{Stage};
ghost use Rattle.snapshot.specs.Synced.{HasFile, KeepsFiles};
ghost use Rattle.fuse_wire.specs.declared.errors.Errno.TheVariants.{Stale};
ghost use Rattle.fuse_nodes.specs.Table.{id_of, known};
ghost use Rattle.fuse_writer.specs.declared.session.Session.{Session};
ghost use Rattle.fuse_writer.specs.Answers.{ByTurns, Settles, doing_of};
ghost use Rattle.fuse_writer.specs.Doings.{Doing, Leads, noted, refuses};
ghost use Rattle.fuse_writer.specs.Requests.{at_node, shown_of};
ghost use Rattle.attributes.specs.Words.{Fits, words_of};
ghost use Rattle.attributes.specs.declared.Attributes.{Attributes};
ghost use Rattle.frozen.specs.Kept.{Kept, frozen_view};
ghost use Rattle.fuse_reader.specs.Said.{told};
ghost use Rattle.fuse_wire.specs.Requests.{Asked};
ghost use Rattle.fuse_wire.specs.declared.bodies.Body.TheVariants.{Empty};
ghost use Rattle.fuse_wire.specs.declared.requests.Head.{Head};
ghost use Rattle.fuse_writer.specs.Ahead.{settled};
ghost use Rattle.fuse_writer.specs.Turns.{Call, GoesBy, IsStageOf};
ghost use Rattle.model.specs.Layout.{inode_count};
ghost use Rattle.model.specs.View.{with_attributes};

use device::Device;

/// A request on a node acts on the inode that the kernel was told of by this node, or is refused with ESTALE, whatever turns came
/// since, and whatever became of the inode's number.
pub fn a_request_acts_on_the_inode_that_was_told()
    ensures { (s u : Session) (i : ℕ) (next : ℕ → Doing) → 2 < i → i < length s.nodes → length s.nodes ≤ 2 ^ 32
        → (known s.nodes i).generation < 2 ^ 32 - 1 → ByTurns s u
        → (at_node u (record { 0 = id_of s.nodes i }) next ≡ next i) ⊎ (at_node u (record { 0 = id_of s.nodes i }) next ≡ refuses Stale) }
{}

/// What FSYNC has answered outlives each loss of power. Of a volume that was sound on the medium of its device, let calls lead to one of
/// which nothing is left that is not durable, as each turn of FSYNC does that is answered without an error, and more calls from there to
/// another one. Then whatever a loss of power leaves at the first has the files of then with the bytes that users saw, and whatever it
/// leaves of each medium up to the second has those of which no unlink took a name, with these bytes or those of a later write to them,
/// and with sizes that users saw.
pub fn what_fsync_answered_outlives_power_cuts<D: Device>()
    ensures { (first then now : Alive D) (calls more : List Call) → HasBeside (D.image first.device) first
        → GoesBy D.honest D.held D.image first calls then → GoesBy D.honest D.held D.image then more now → D.honest now.device
        → IsSoundOn (D.held first.device).now first (λ f. false) → unsynced_of then.queue ≡ []
        → (t u : Stage D) × IsStageOf D.held D.image then t × IsStageOf D.held D.image now u
        × ((files : ℕ → Bool) → ((f : ℕ) → IsTrue (files f) → HasFile t f)
        → LeavesSafe then.kept.geometry files t.held.now
        × (replies : List Reply) × AreReplies (map (λ (c : Call). c.1) more) replies
        × KeepsFiles t files (map (asked then.kept.geometry) (map (λ (c : Call). c.0) more)) replies u) }
{
    snapshot::what_a_sync_has_seen_outlives_power_cuts::<D>();
}

/// Where a sync is answered without an error nothing is ahead of the record of the inode that it is about, and where that of a volume is,
/// of none: their records have got what users saw.
pub fn what_a_sync_answered_is_settled()
    ensures { (kept last : Kept) (s t : Session) (head : Head) (request : Asked) (calls : List Call)
        → Leads (doing_of kept s head request) last s calls (told Empty) t → Settles (inode_count kept.geometry) s head request t }
{}

/// What users see of an inode is the same once its record has got what is ahead of it.
pub fn settling_shows_the_same()
    ensures { (kept then : Kept) (s : Session) (i : ℕ) (own : Attributes) → slice_index_or s.ahead i None ≡ Some own → Fits own → then.geometry ≡ kept.geometry
        → (frozen_view then).inode i ≡ with_attributes ((frozen_view kept).inode i) (words_of own)
        → shown_of then (noted [] (settled i) s) i ≡ shown_of kept s i }
{}
