//! What the mounted volume does: its state as users see it, the commands, when each is refused and what each changes.
#![tactic(auto)]

ghost use Rattle.std.specs.Prelude.{slice_get, length, take, drop, ◌++◌, min, ◌-◌, ◌*◌, ◌<◌, ◌≤◌, suc, ◌≡◌, ◌⊎◌, ◌↔◌, ℕ, List, [], ◌∷◌, Some, None, Ok, Err, codes, IsTrue, IsFalse};
ghost use Rattle.machine.specs.Paths.{IsPath, parts_of};
ghost use Rattle.machine.specs.Rows.{small_of, small, fresh, with_empty_file};
ghost use Rattle.machine.specs.Command.{Freeze, Release, Install, Image, RepairAt, SnapRead, Create, no_attributes, Open, Write, Truncate, Read, Unlink, Number, Done, Bytes};
ghost use Rattle.model.specs.Layout.{Geometry, IsGeometry};
ghost use Rattle.model.specs.View.{View, new_file, with_attributes};
ghost use Rattle.model.specs.Image.{IsImage, image_view};
ghost use Rattle.model.specs.Rules.{ObeysRules};
ghost use Rattle.layout.specs.declared.refusal.Refusal.{Refusal};
ghost use Rattle.layout.specs.declared.refusal.Refusal.TheVariants.{TooBig, BadIndex};
ghost use Rattle.machine.specs.Standing.{AreNumbered};
ghost use Rattle.machine.specs.State.{Plan, State, mounted, open_at, snapshot_at, latest};
ghost use Rattle.machine.specs.Command.{Check, Command, Mkdir, Reply, SetAttributes};
ghost use Rattle.machine.specs.Attributes.{IsSettingOf};
ghost use Rattle.machine.specs.Causes.{FirstRefusal, Accepts, Belongs, file_of, refusal_of};
ghost use Rattle.machine.specs.Room.{blocks_to_append};
ghost use Rattle.machine.specs.Step.{Step, Run};
ghost use Rattle.machine.specs.Runs.{IsTaken};
ghost use Rattle.machine.specs.Files.{IsFile, IsWritten, RunBeside, RunUnder};
ghost use Rattle.machine.specs.Snapshot.{is_orphan};
ghost use Rattle.findings.specs.Findings.{AreFindings};
ghost use Rattle.findings.specs.declared.finding.Finding.{Finding};
ghost use Rattle.findings.specs.declared.repair.Repair.{Repair};
ghost use Rattle.findings.specs.Report.{repairs_of};
ghost use Rattle.machine.specs.Debts.{MakesNoDebt};
ghost use Rattle.machine.specs.Balance.{Owes, Balance, Exact, IsLive, OwesNothing};
ghost use Rattle.model.specs.Reach.{IsReachable};
ghost use Rattle.machine.specs.Cells.{seen};
ghost use Rattle.machine.specs.Whole.{HasWholeBlocks, HasWholeRecords};

/// A command has at most one refusal, and none where it is accepted; and one or the other where it is known whether
/// the check that it brings belongs to the snapshot of the latest freeze.
pub fn refusals_are_decided()
    ensures unique { (geo : Geometry) (old : State) (command : Command) (r q : Refusal)
        → FirstRefusal geo old command r → FirstRefusal geo old command q → r ≡ q }
    ensures exclusive { (geo : Geometry) (old : State) (command : Command) (r : Refusal)
        → FirstRefusal geo old command r → Accepts geo old command → ⊥ }
    ensures decided { (geo : Geometry) (old : State) (command : Command) → Belongs geo old command ⊎ (Belongs geo old command → ⊥)
        → ((r : Refusal) × FirstRefusal geo old command r) ⊎ Accepts geo old command }
{}

/// A refused command changes nothing.
pub fn refusals_change_nothing()
    ensures { (geo : Geometry) (old new : State) (command : Command) (r : Refusal) → Step geo old command (Err r) new → new ≡ old }
{}

/// Where nothing is owed, the marks and links are exact.
pub fn balance_is_exact_where_nothing_is_owed()
    ensures { (geo : Geometry) (state : State) → Balance geo state → OwesNothing geo state → Exact geo state }
{}

/// A volume as it is mounted, whose image obeys the rules and has whole blocks and records, is in
/// balance.
pub fn mounted_volumes_are_in_balance()
    ensures { (geo : Geometry) (view : View) → ObeysRules geo view → HasWholeBlocks geo view → HasWholeRecords view → Balance geo (mounted view) }
{}

/// On a volume of a permitted geometry each step, by whatever command and with whatever reply, keeps the balance.
pub fn each_step_keeps_the_balance()
    ensures { (geo : Geometry) → IsGeometry geo → (old new : State) (command : Command) (reply : Reply)
        → Balance geo old → Step geo old command reply new → Balance geo new }
{}

/// So does each run. What a mounted image that obeys the rules comes to, by any commands, is in balance, and its marks
/// and links are exact where nothing is owed. (The states on the way are those that shorter runs come to.)
pub fn runs_keep_the_balance()
    ensures balanced { (geo : Geometry) → IsGeometry geo → (old new : State) (commands : List Command) (replies : List Reply)
        → Balance geo old → Run geo old commands replies new → Balance geo new }
    ensures mounted { (geo : Geometry) (image : List (List ℕ)) (new : State) (commands : List Command) (replies : List Reply)
        → IsImage geo image → ObeysRules geo (image_view geo image) → Run geo (mounted (image_view geo image)) commands replies new
        → Balance geo new × (OwesNothing geo new → Exact geo new) }
{}

/// No step makes a debt: what is owed after it was owed before, but that an inode with too many links that lost its
/// last name is to be dropped.
pub fn no_step_makes_a_debt()
    ensures { (geo : Geometry) → IsGeometry geo → (old new : State) (command : Command) (reply : Reply)
        → Balance geo old → Step geo old command reply new → MakesNoDebt geo old new }
{}

/// Where a check of the image finds nothing, nothing is owed whatever is done with the mounted volume, and its marks and
/// links are exact.
pub fn clean_volumes_stay_exact()
    ensures { (geo : Geometry) (image : List (List ℕ)) (new : State) (commands : List Command) (replies : List Reply)
        → IsImage geo image → AreFindings geo (image_view geo image) [] → Run geo (mounted (image_view geo image)) commands replies new
        → OwesNothing geo new × Exact geo new }
{}

/// A repair of the plan was owed, and is not any more; and a plan of which all is done leaves nothing owed.
pub fn repairs_pay_the_debt()
    ensures each { (geo : Geometry) (old new : State) (k : ℕ) (plan : Plan) (r : Repair) → Balance geo old → old.plan ≡ Some plan
        → slice_get plan.repairs k ≡ Some r
        → Step geo old (RepairAt k) (Ok Done) new → Owes geo old r × (Owes geo new r → ⊥) }
    ensures all { (geo : Geometry) (state : State) (plan : Plan) → state.plan ≡ Some plan
        → ((k : ℕ) (r : Repair) → slice_get plan.repairs k ≡ Some r → IsTrue (plan.done k))
        → OwesNothing geo state }
{}

/// The whole cycle is exact: where a plan stands, and each repair of it is done or is carried out in the run, nothing is
/// owed at the end of the run, whatever else is done in it but a freeze, which drops the plan. From then on nothing is
/// owed whatever is done, freezes and all.
pub fn whole_cycles_end_exact()
    ensures cycle { (geo : Geometry) → IsGeometry geo → (old new : State) (commands : List Command) (replies : List Reply) (plan : Plan)
        → Balance geo old → old.plan ≡ Some plan → Run geo old commands replies new → (IsTaken Freeze commands replies → ⊥)
        → ((k : ℕ) (r : Repair) → slice_get plan.repairs k ≡ Some r → IsTrue (plan.done k) ⊎ IsTaken (RepairAt k) commands replies)
        → OwesNothing geo new × Exact geo new }
    ensures after { (geo : Geometry) → IsGeometry geo → (old new : State) (commands : List Command) (replies : List Reply)
        → Balance geo old → OwesNothing geo old → Run geo old commands replies new → OwesNothing geo new × Exact geo new }
{}

/// The whole cycle is exact from the freeze on: nothing is owed after a snapshot, any commands, a check of that snapshot,
/// and any commands among which each repair of its findings is carried out, whatever else is done in it but another
/// freeze. It is so from any state in balance, from whatever a mounted image that obeys the rules comes to, and as one run.
pub fn checks_carried_out_end_exact()
    ensures cycle { (geo : Geometry) → IsGeometry geo
        → (old frozen ready planned new : State) (s : ℕ) (image : View) (check : Check) (findings : List Finding)
        (first second : List Command) (replies answers : List Reply)
        → Balance geo old → Step geo old Freeze (Ok (Image s image)) frozen → Run geo frozen first replies ready → (IsTaken Freeze first replies → ⊥)
        → Step geo ready (Install check) (Ok Done) planned → Run geo planned second answers new → (IsTaken Freeze second answers → ⊥)
        → AreFindings geo image findings → ((k : ℕ) (r : Repair) → slice_get (repairs_of findings) k ≡ Some r → IsTaken (RepairAt k) second answers)
        → OwesNothing geo new × Exact geo new }
    ensures mounted { (geo : Geometry) (volume : List (List ℕ)) (old frozen ready planned new : State) (s : ℕ) (image : View) (check : Check)
        (findings : List Finding) (before first second : List Command) (earlier replies answers : List Reply)
        → IsImage geo volume → ObeysRules geo (image_view geo volume) → Run geo (mounted (image_view geo volume)) before earlier old
        → Step geo old Freeze (Ok (Image s image)) frozen → Run geo frozen first replies ready → (IsTaken Freeze first replies → ⊥)
        → Step geo ready (Install check) (Ok Done) planned → Run geo planned second answers new → (IsTaken Freeze second answers → ⊥)
        → AreFindings geo image findings → ((k : ℕ) (r : Repair) → slice_get (repairs_of findings) k ≡ Some r → IsTaken (RepairAt k) second answers)
        → OwesNothing geo new × Exact geo new }
    ensures in_one_run { (geo : Geometry) (volume : List (List ℕ)) (new : State) (s : ℕ) (image : View) (check : Check) (findings : List Finding)
        (before first second : List Command) (earlier replies answers : List Reply)
        → IsImage geo volume → ObeysRules geo (image_view geo volume) → length earlier ≡ length before → length replies ≡ length first
        → Run geo (mounted (image_view geo volume)) (before ++ (Freeze ∷ (first ++ (Install check ∷ second))))
        (earlier ++ (Ok (Image s image) ∷ (replies ++ (Ok Done ∷ answers)))) new
        → (IsTaken Freeze first replies → ⊥) → (IsTaken Freeze second answers → ⊥)
        → AreFindings geo image findings → ((k : ℕ) (r : Repair) → slice_get (repairs_of findings) k ≡ Some r → IsTaken (RepairAt k) second answers)
        → OwesNothing geo new × Exact geo new }
{}

/// A freeze answers with the image that it keeps, under its number; the image stays, over later freezes and the ends of
/// other snapshots too, until this one is released, and a read of it shows the bytes of that image.
pub fn snapshots_show_the_frozen_image()
    ensures begins { (geo : Geometry) (old new : State) (s : ℕ) (image : View) → Step geo old Freeze (Ok (Image s image)) new
        → (snapshot_at new s ≡ Some image) × (latest new ≡ Some image) }
    ensures stays { (geo : Geometry) (old new : State) (commands : List Command) (replies : List Reply) (s : ℕ) → s < old.snapshots.freezes
        → Run geo old commands replies new → (IsTaken (Release s) commands replies → ⊥) → snapshot_at new s ≡ snapshot_at old s }
    ensures read { (geo : Geometry) (old mid new : State) (commands : List Command) (replies : List Reply) (s : ℕ) (image : View) (i k : ℕ) (bytes : List ℕ)
        → s < old.snapshots.freezes → snapshot_at old s ≡ Some image → Run geo old commands replies mid → (IsTaken (Release s) commands replies → ⊥)
        → Step geo mid (SnapRead s i k) (Ok (Bytes bytes)) new → bytes ≡ seen geo image i k }
{}

/// Each freeze has a number of its own: the number of freezes before it. So a number that stands no more does not stand
/// again, and the numbers of those that stand fall from the newest on.
pub fn snapshots_are_numbered()
    ensures answer { (geo : Geometry) (old new : State) (s : ℕ) (image : View) → Step geo old Freeze (Ok (Image s image)) new
        → (s ≡ old.snapshots.freezes) × (new.snapshots.freezes ≡ suc s) }
    ensures grows { (geo : Geometry) (old new : State) (commands : List Command) (replies : List Reply) → Run geo old commands replies new
        → old.snapshots.freezes ≤ new.snapshots.freezes }
    ensures gone { (geo : Geometry) (old new : State) (commands : List Command) (replies : List Reply) (s : ℕ) → s < old.snapshots.freezes
        → snapshot_at old s ≡ None → Run geo old commands replies new → snapshot_at new s ≡ None }
    ensures kept { (geo : Geometry) (old new : State) (commands : List Command) (replies : List Reply) → AreNumbered old.snapshots
        → Run geo old commands replies new → AreNumbered new.snapshots }
{}

/// A snapshot shows each inode and its bytes as users saw them when it began, in its image and in whatever is read of it
/// later; but for an inode that was open without links, which no name leads to.
pub fn snapshots_show_what_users_saw()
    ensures image { (geo : Geometry) (old new : State) (s : ℕ) (image : View) (i : ℕ) → Step geo old Freeze (Ok (Image s image)) new → IsFalse (is_orphan old i)
        → (image.inode i ≡ old.view.inode i) × ((k : ℕ) → seen geo image i k ≡ seen geo old.view i k) }
    ensures read { (geo : Geometry) (old frozen mid new : State) (commands : List Command) (replies : List Reply)
        (s : ℕ) (image : View) (i k : ℕ) (bytes : List ℕ)
        → Step geo old Freeze (Ok (Image s image)) frozen → IsFalse (is_orphan old i)
        → Run geo frozen commands replies mid → (IsTaken (Release s) commands replies → ⊥)
        → Step geo mid (SnapRead s i k) (Ok (Bytes bytes)) new → bytes ≡ seen geo old.view i k }
    ensures named { (geo : Geometry) (state : State) (i : ℕ) → Balance geo state → IsReachable geo state.view i → IsFalse (is_orphan state i) }
{}

/// In balance, a read gives as many bytes as the file has in that block, and a read of a snapshot as many as the
/// file had there.
pub fn reads_give_what_the_file_has()
    ensures file { (geo : Geometry) (old new : State) (h k : ℕ) (bytes : List ℕ) → Balance geo old → Step geo old (Read h k) (Ok (Bytes bytes)) new
        → length bytes ≡ min ((old.view.inode (file_of old h)).size - 1024 * k) 1024 }
    ensures snapshot { (geo : Geometry) (old new : State) (s : ℕ) (image : View) (i k : ℕ) (bytes : List ℕ) → Balance geo old → snapshot_at old s ≡ Some image
        → Step geo old (SnapRead s i k) (Ok (Bytes bytes)) new → length bytes ≡ min ((image.inode i).size - 1024 * k) 1024 }
{}

/// A write changes what is seen of its own file alone, and of that only its own block, where the piece is seen, and
/// behind it what was seen there before.
pub fn writes_change_their_own_block()
    ensures others { (geo : Geometry) → IsGeometry geo → (old new : State) (h k : ℕ) (piece : List ℕ) → Balance geo old
        → Step geo old (Write h k piece) (Ok Done) new
        → (j q : ℕ) → (j ≡ file_of old h → ⊥) → seen geo new.view j q ≡ seen geo old.view j q }
    ensures elsewhere { (geo : Geometry) → IsGeometry geo → (old new : State) (h k : ℕ) (piece : List ℕ) → Balance geo old
        → Step geo old (Write h k piece) (Ok Done) new
        → (q : ℕ) → (q ≡ k → ⊥) → seen geo new.view (file_of old h) q ≡ seen geo old.view (file_of old h) q }
    ensures here { (geo : Geometry) → IsGeometry geo → (old new : State) (h k : ℕ) (piece : List ℕ) → Balance geo old → Step geo old (Write h k piece) (Ok Done) new
        → seen geo new.view (file_of old h) k ≡ piece ++ drop (length piece) (seen geo old.view (file_of old h) k) }
{}

/// The attributes of an inode that is in use, and stays in use, are as they were, unless a command sets them; and then they are
/// those that it sets, and of the record nothing else changes. What is made has those that it is made with.
pub fn attributes_last()
    ensures last { (geo : Geometry) → IsGeometry geo → (old new : State) (command : Command) (reply : Reply) (i : ℕ) → Balance geo old
        → Step geo old command reply new → (IsSettingOf i command → ⊥) → ((old.view.inode i).mode ≡ 0 → ⊥) → ((new.view.inode i).mode ≡ 0 → ⊥)
        → (new.view.inode i).attributes ≡ (old.view.inode i).attributes }
    ensures set { (geo : Geometry) (old new : State) (i : ℕ) (words : List ℕ) → Step geo old (SetAttributes i words) (Ok Done) new
        → new.view.inode i ≡ with_attributes (old.view.inode i) words }
    ensures created { (geo : Geometry) (old new : State) (path words : List ℕ) (i : ℕ) → Step geo old (Create path words) (Ok (Number i)) new
        → ((new.view.inode i).mode ≡ 1) × ((new.view.inode i).attributes ≡ words) }
    ensures made { (geo : Geometry) (old new : State) (path words : List ℕ) (i : ℕ) → Step geo old (Mkdir path words) (Ok (Number i)) new
        → ((new.view.inode i).mode ≡ 2) × ((new.view.inode i).attributes ≡ words) }
{}

/// A file's size and bytes are changed by writes and truncations through its own handles alone, whatever else is done:
/// a step that is none of these leaves both as they were, where it does not free the file, and it frees none that is
/// still reachable or open. So does a run in which the file stays reachable or open, as it does where one of its handles
/// is not closed. A truncation leaves what stood below the new size.
pub fn files_are_changed_by_their_own_writes()
    ensures kept { (geo : Geometry) → IsGeometry geo → (old new : State) (command : Command) (reply : Reply) (i : ℕ) → Balance geo old
        → Step geo old command reply new
        → IsFile geo old.view i → (IsWritten old i command reply → ⊥) → ((new.view.inode i).mode ≡ 0 → ⊥)
        → ((new.view.inode i).size ≡ (old.view.inode i).size) × ((k : ℕ) → seen geo new.view i k ≡ seen geo old.view i k) }
    ensures freed { (geo : Geometry) → IsGeometry geo → (old new : State) (command : Command) (reply : Reply) (i : ℕ) → Balance geo old
        → Step geo old command reply new
        → IsFile geo old.view i → (new.view.inode i).mode ≡ 0 → IsLive geo new i → ⊥ }
    ensures truncated { (geo : Geometry) → IsGeometry geo → (old new : State) (h n : ℕ) → Balance geo old → Step geo old (Truncate h n) (Ok Done) new
        → ((new.view.inode (file_of old h)).size ≡ n) × ((k : ℕ) → seen geo new.view (file_of old h) k ≡ take (n - 1024 * k) (seen geo old.view (file_of old h) k)) }
    ensures run { (geo : Geometry) → IsGeometry geo → (old new : State) (commands : List Command) (replies : List Reply) (i : ℕ) → Balance geo old
        → IsFile geo old.view i → RunBeside geo i old commands replies new
        → ((new.view.inode i).size ≡ (old.view.inode i).size) × ((k : ℕ) → seen geo new.view i k ≡ seen geo old.view i k) }
    ensures open_run { (geo : Geometry) → IsGeometry geo → (old new : State) (commands : List Command) (replies : List Reply) (i h : ℕ) → Balance geo old
        → open_at old h ≡ Some i → RunUnder geo i h old commands replies new
        → (open_at new h ≡ Some i) × (((new.view.inode i).size ≡ (old.view.inode i).size) × ((k : ℕ) → seen geo new.view i k ≡ seen geo old.view i k)) }
{}

/// The data blocks of an image are whole, and so are its records.
pub fn images_are_whole()
    ensures records { (geo : Geometry) (image : List (List ℕ)) → HasWholeRecords (image_view geo image) }
    ensures blocks { (geo : Geometry) (image : List (List ℕ)) → IsImage geo image → HasWholeBlocks geo (image_view geo image) }
{}

/// The parts that are read from a path are those that spell it.
pub fn paths_are_their_parts()
    ensures { (path : List ℕ) (parts : List (List ℕ)) → (parts_of path ≡ Some parts) ↔ IsPath path parts }
{}

/// On the small fresh image a file is created as number 3, opened, written, read and removed.
pub fn first_commands_on_the_fresh_image()
    ensures { (new : State) × Run small fresh
        (Create (codes "/a") no_attributes ∷ Open (codes "/a") ∷ Write 0 0 (codes "abc") ∷ Read 0 0 ∷ Unlink (codes "/a") ∷ [])
        (Ok (Number 3) ∷ Ok (Number 0) ∷ Ok Done ∷ Ok (Bytes (codes "abc")) ∷ Ok Done ∷ []) new }
{}

/// How far a file reaches is of the layout's version: index 268 of an empty file is too big in version 1, and past the end
/// in version 2; index 65,804 is too big in each. In version 2 block 268 takes three blocks, of which two are tables.
pub fn files_reach_as_far_as_their_version()
    ensures first { (refusal_of (small_of 1) with_empty_file (Write 0 268 (codes "abc")) ≡ Some TooBig)
        × (refusal_of (small_of 2) with_empty_file (Write 0 268 (codes "abc")) ≡ Some BadIndex) }
    ensures last { (version : ℕ) → refusal_of (small_of version) with_empty_file (Write 0 65804 (codes "abc")) ≡ Some TooBig }
    ensures tables { (blocks_to_append (small_of 2) (record new_file { size = 274432 }) ≡ 3)
        × (blocks_to_append (small_of 2) (record new_file { size = 536576 }) ≡ 2) }
{}
