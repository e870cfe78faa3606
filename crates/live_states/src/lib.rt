//! What a mounted volume is between two calls, and what keeps it so: laws, without code. The device obeys the rules of
//! soft updates at each stop, whichever closed part of what is pending has reached it, and the metadata in memory is what
//! its users see.
#![tactic(auto)]

ghost use Rattle.std.specs.Prelude.{◌≡◌, ◌<◌, ℕ, Bool, false, List, [], Ok, IsFalse, IsSome, IsTrue, length};
ghost use Rattle.model.specs.Image.{IsImage, image_view};
ghost use Rattle.model.specs.Layout.{block_count};
ghost use Rattle.model.specs.Rules.{ObeysRules};
ghost use Rattle.model.specs.Shape.{most_blocks};
ghost use Rattle.model.specs.Uses.{IsClaim, is_directory_at};
ghost use Rattle.model.specs.View.{View};
ghost use Rattle.ordering.specs.Cuts.{IsClosed, Pending, rest, seen, users_view};
ghost use Rattle.machine.specs.Command.{Answer, Check, Command, Done, Install};
ghost use Rattle.findings.specs.declared.repair.Repair.{Repair};
ghost use Rattle.machine.specs.Standing.{image_at, too_many};
ghost use Rattle.machine.specs.Step.{Step};
ghost use Rattle.courses.specs.Serves.{Serves};
ghost use Rattle.plans_data.specs.Carried.{Stands};
ghost use Rattle.plans_data.specs.Release.{releasing};
ghost use Rattle.updates.specs.declared.change.Update.{Update};
ghost use Rattle.frozen.specs.Installed.{IsPlain, without_block};
ghost use Rattle.frozen.specs.Kept.{IsKeptOf, Kept, KeepsMetadata, frozen_view};
ghost use Rattle.metadata.specs.declared.staged.Staged.{Staged};
ghost use Rattle.metadata.specs.Staged.{IsStaged, after, changes};
ghost use Rattle.live_states.specs.Drafts.{Draft, over};
ghost use Rattle.live_states.specs.Holdings.{AreImagesOf, Beside, Holdings, IsIdle};
ghost use Rattle.live_states.specs.Planned.{AreSeen, IsOfVolume, IsOfVolumeWith, IsPlanned, IsPlannedFor, IsPlannedWith, IsQuietlyDone, Seen, safe_after};
ghost use Rattle.live_states.specs.Snapshots.{IsInstallable, IsSettled, installing, keeping, let_go, let_go_blocks};
ghost use Rattle.live_states.specs.Volume.{IsVolume, state_over};

/// The metadata of an image that obeys the rules is that of a volume over it, with nothing open, held or pending.
pub fn loaded_images_are_volumes()
    ensures { (kept : Kept) (image : List (List ℕ)) (holdings : Holdings) → KeepsMetadata kept → IsKeptOf kept image
        → ObeysRules kept.geometry (frozen_view kept) → IsIdle holdings
        → ObeysRules kept.geometry (image_view kept.geometry image) × IsVolume kept holdings [] (image_view kept.geometry image) }
{}

/// All metadata that is kept is that of some image.
pub fn what_is_kept_is_of_an_image()
    ensures { (kept : Kept) → KeepsMetadata kept → (image : List (List ℕ)) × IsKeptOf kept image }
{}

/// What is planned for a volume is planned on the metadata of a volume that stands.
pub fn volumes_stand()
    ensures { (kept : Kept) (holdings : Holdings) (q : List Pending) (disk : View) → IsVolume kept holdings q disk
        → IsOfVolume kept × IsOfVolumeWith kept holdings }
{}

/// A plan that leaves alone what is open and held is one where this is.
pub fn plans_that_leave_holdings_alone()
    ensures { (kept : Kept) (command : Command) (answer : Answer) (draft : Draft) → IsPlanned kept command answer draft → (holdings : Holdings)
        → IsPlannedWith kept holdings [] command answer draft holdings }
{}

/// The updates by which a command is planned to be carried out lead from a volume to a volume, whose metadata they are
/// made from as they are staged.
pub fn planned_commands_keep_volumes()
    ensures { (kept : Kept) (holdings : Holdings) (q : List Pending) (disk : View) → KeepsMetadata kept → IsVolume kept holdings q disk
        → (seen : List Seen) (command : Command) (answer : Answer) (draft : Draft) (holdings' : Holdings)
        → IsPlannedWith kept holdings seen command answer draft holdings' → AreSeen seen (users_view disk q)
        → (staged : Staged) → IsStaged kept (changes draft.updates) staged
        → IsVolume (after kept staged) holdings' (over q draft.updates) disk × KeepsMetadata (after kept staged) }
{}

/// It is a step of the machine from what users saw to what they see then, whatever stands beside the volume, and for each
/// choice of files that no stop loses the command is carried out by a plan, of a write by one that leaves what stands
/// behind its piece.
pub fn planned_commands_are_steps()
    ensures { (kept : Kept) (holdings : Holdings) (q : List Pending) (disk : View) → IsVolume kept holdings q disk
        → (seen : List Seen) (command : Command) (answer : Answer) (draft : Draft) (holdings' : Holdings)
        → IsPlannedFor kept holdings seen command answer draft holdings' → AreSeen seen (users_view disk q)
        → (beside : Beside) → AreImagesOf holdings.snapshots beside.snapshots
        → (Stands kept.geometry disk q (state_over disk q holdings beside) (λ f. false)
        → Step kept.geometry (state_over disk q holdings beside) command (Ok answer) (state_over disk (over q draft.updates) holdings' beside))
        × ((safe : ℕ → Bool) → Stands kept.geometry disk q (state_over disk q holdings beside) safe
        → Serves kept.geometry disk q (state_over disk q holdings beside) safe command answer disk (over q draft.updates) (state_over disk (over q draft.updates) holdings' beside)
        (safe_after kept.geometry (users_view disk q) command safe) []) }
{}

/// A block that a file holds data in may be let go of in memory: no metadata stands in it, and a volume stays one without it.
pub fn data_may_be_let_go()
    ensures { (kept : Kept) (holdings : Holdings) (q : List Pending) (disk : View) → KeepsMetadata kept → IsVolume kept holdings q disk
        → (f k a : ℕ) → IsClaim kept.geometry (frozen_view kept) f k a → k < most_blocks kept.geometry → IsFalse (is_directory_at kept.geometry (frozen_view kept) f)
        → IsPlain kept a × IsVolume (without_block kept a) holdings q disk }
{}

/// A volume stays one where a closed part of what is pending is written; its users see what they saw.
pub fn closed_cuts_keep_volumes()
    ensures { (kept : Kept) (holdings : Holdings) (q : List Pending) (disk : View) → IsVolume kept holdings q disk → (cut : List Bool) → IsClosed q cut
        → IsVolume kept holdings (rest q cut) (seen disk q cut) × (users_view (seen disk q cut) (rest q cut) ≡ users_view disk q) }
{}

/// Each image of a closed part of what is pending obeys the rules, that of the device among them.
pub fn each_stop_of_a_volume_is_safe()
    ensures { (kept : Kept) (holdings : Holdings) (q : List Pending) (disk : View) → IsVolume kept holdings q disk
        → ObeysRules kept.geometry disk × ((cut : List Bool) → IsClosed q cut → ObeysRules kept.geometry (seen disk q cut)) }
{}

/// A command that leaves the image and what is held alone leads from a volume to a volume.
pub fn quiet_commands_keep_volumes()
    ensures { (kept : Kept) (holdings : Holdings) (q : List Pending) (disk : View) → IsVolume kept holdings q disk
        → (seen : List Seen) (command : Command) (answer : Answer) (holdings' : Holdings)
        → IsQuietlyDone kept holdings seen command answer holdings' → AreSeen seen (users_view disk q)
        → IsVolume kept holdings' q disk }
{}

/// It is a step of the machine, whatever stands beside the volume, and served without a plan.
pub fn quiet_commands_are_steps()
    ensures { (kept : Kept) (holdings : Holdings) (q : List Pending) (disk : View) → IsVolume kept holdings q disk
        → (seen : List Seen) (command : Command) (answer : Answer) (holdings' : Holdings)
        → IsQuietlyDone kept holdings seen command answer holdings' → AreSeen seen (users_view disk q)
        → (beside : Beside) → AreImagesOf holdings.snapshots beside.snapshots
        → Step kept.geometry (state_over disk q holdings beside) command (Ok answer) (state_over disk q holdings' beside)
        × ((safe : ℕ → Bool) → Serves kept.geometry disk q (state_over disk q holdings beside) safe command answer disk q (state_over disk q holdings' beside)
        (safe_after kept.geometry (users_view disk q) command safe) []) }
{}

/// A volume of which nothing is pending stays one where one more snapshot may be kept, of what a check is to see.
pub fn snapshots_keep_volumes()
    ensures { (kept : Kept) (holdings : Holdings) (disk : View) → IsVolume kept holdings [] disk
        → too_many holdings.snapshots ≡ false
        → (snapshot : Kept) → IsSettled kept holdings snapshot → IsVolume kept (keeping holdings snapshot) [] disk }
{}

/// And where a snapshot ends: the bits of the held blocks that no other one keeps are cleared.
pub fn ends_of_snapshots_keep_volumes()
    ensures { (kept : Kept) (holdings : Holdings) (disk : View) → KeepsMetadata kept → IsVolume kept holdings [] disk
        → (s : ℕ) → IsSome (image_at holdings.snapshots.standing s)
        → (updates : List Update) → over [] updates ≡ releasing (let_go_blocks holdings s) [] → (staged : Staged) → IsStaged kept (changes updates) staged
        → IsVolume (after kept staged) (let_go holdings s) (over [] updates) disk × KeepsMetadata (after kept staged) }
{}

/// A check of the snapshot of the latest freeze, with nothing in it but what repairs mend, is installed, which leaves the
/// image and what is held alone.
pub fn checks_are_installed_quietly()
    ensures { (kept : Kept) (holdings : Holdings) (check : Check) (list : List Repair) → IsInstallable kept holdings check list
        → IsQuietlyDone kept holdings [] (Install check) Done (installing holdings list) }
{}
