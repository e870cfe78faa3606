//! The bytes of a snapshot's files stay where they are while it stands: a block that has them keeps them in the image
//! that users see, and is not given out, so a read of a snapshot may read the users' block.
#![tactic(auto)]

ghost use Rattle.std.specs.Prelude.{◌≡◌, ◌-◌, ◌*◌, ℕ, List, [], Some, take};
ghost use Rattle.model.specs.Layout.{Geometry, IsGeometry};
ghost use Rattle.model.specs.View.{View};
ghost use Rattle.machine.specs.State.{State, snapshot_at};
ghost use Rattle.machine.specs.Command.{Command, Reply};
ghost use Rattle.machine.specs.Cells.{seen};
ghost use Rattle.machine.specs.Step.{Step, Run};
ghost use Rattle.machine.specs.Balance.{Balance};
ghost use Rattle.frozen_files.specs.Standing.{IsFileClaim, KeepsFiles};

/// On a volume of a permitted geometry each step, by whatever command and with whatever reply, keeps the blocks of the
/// files of snapshots: they have their bytes, and each is held or a file's. So does each run.
pub fn each_step_keeps_the_files_of_snapshots()
    ensures step { (geo : Geometry) → IsGeometry geo → (old new : State) (command : Command) (reply : Reply)
        → Balance geo old → KeepsFiles geo old → Step geo old command reply new → KeepsFiles geo new }
    ensures runs { (geo : Geometry) → IsGeometry geo → (old new : State) (commands : List Command) (replies : List Reply)
        → Balance geo old → KeepsFiles geo old → Run geo old commands replies new → KeepsFiles geo new }
{}

/// A volume without a snapshot, as each is that is mounted, has no such blocks to keep.
pub fn volumes_without_a_snapshot_keep_its_files()
    ensures { (geo : Geometry) (state : State) → state.snapshots.standing ≡ [] → KeepsFiles geo state }
{}

/// What a snapshot shows of a file's block stands in the users' block.
pub fn snapshots_are_read_from_the_users_blocks()
    ensures { (geo : Geometry) (state : State) (s : ℕ) (image : View) → Balance geo state → KeepsFiles geo state
        → snapshot_at state s ≡ Some image → (i k a : ℕ) → IsFileClaim geo image i k a → seen geo image i k ≡ take ((image.inode i).size - 1024 * k) (state.view.bytes a) }
{}
