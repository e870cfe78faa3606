//! What holds of a volume that is mended: a law, without code.

ghost use Rattle.std.specs.Prelude.{◌≡◌, ℕ, List, [], ◌∷◌, ◌++◌, Ok, length};
ghost use Rattle.findings.specs.Findings.{AreFindings};
ghost use Rattle.findings.specs.Report.{repairs_of};
ghost use Rattle.findings.specs.declared.finding.Finding.{Finding};
ghost use Rattle.machine.specs.Command.{Answer, Check, Done, Freeze, Image, Install, Release, Sync};
ghost use Rattle.model.specs.View.{View};
ghost use Rattle.device.specs.Media.{Held};
ghost use Rattle.softdep.specs.Queued.{pending_of};
ghost use Rattle.live_states.specs.Holdings.{Beside, IsIdle, nothing_beside};
ghost use Rattle.snapshot.specs.Alive.{Alive, disk_of};
ghost use Rattle.snapshot.specs.Mounting.{IsMountable};
ghost use Rattle.snapshot.specs.Goes.{Goes, IsBeside};
ghost use Rattle.mending.specs.Repairs.{all_done, repairs_below};

use device::Device;

/// From a volume that was just mounted: a snapshot, its check, each of the repairs, the snapshot's end and a sync, and nothing
/// else, leave a device on whose image a check finds nothing.
pub fn mended_images_are_clean<D: Device>()
    ensures { (beside' : Beside) (held held' : Held) (image image' : List (List ℕ)) (old new : Alive D)
        → (number : ℕ) (frozen : View) (check : Check) (findings : List Finding) (n : ℕ) (answer : Answer)
        → IsMountable old.kept.geometry image → pending_of old.queue ≡ [] → IsIdle old.holdings → IsBeside image old nothing_beside
        → AreFindings old.kept.geometry frozen findings → length (repairs_of findings) ≡ n
        → Goes nothing_beside held image old
        (Freeze ∷ Install check ∷ ((repairs_below n ++ Release number ∷ []) ++ Sync ∷ []))
        (Ok (Image number frozen) ∷ Ok Done ∷ ((all_done n ++ Ok Done ∷ []) ++ Ok answer ∷ [])) beside' held' image' new
        → AreFindings new.kept.geometry (disk_of image' new) [] }
{
    snapshot::mounted_volumes_begin::<D>();
    snapshot::whole_cycles_end_exact::<D>();
    exact_images::nothing_is_found_on_exact_images();
}
