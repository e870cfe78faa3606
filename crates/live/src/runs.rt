//! What holds of a mounted volume over a whole run of calls: laws, without code.

ghost use Rattle.std.specs.Prelude.{◌≡◌, ◌⊎◌, ◌++◌, ℕ, Bool, false, List, [], IsTrue};
ghost use Rattle.layout.specs.declared.refusal.Refusal.{Refusal};
ghost use Rattle.layout.specs.declared.refusal.Refusal.TheVariants.{Device as DeviceRefusal, NoMemory};
ghost use Rattle.model.specs.Image.{image_view};
ghost use Rattle.model.specs.Layout.{Geometry};
ghost use Rattle.model.specs.Reach.{IsReachable};
ghost use Rattle.model.specs.View.{View};
ghost use Rattle.machine.specs.Command.{Command, Reply};
ghost use Rattle.queue_model.specs.Files.{Written};
ghost use Rattle.courses.specs.Serves.{IsBeginning, IsSafeService, Service};
ghost use Rattle.softdep.specs.Queued.{fresh_queue, pending_of, unsynced_of};
ghost use Rattle.live_states.specs.Holdings.{AreImagesOf, Beside, IsIdle, nothing_beside};
ghost use Rattle.live_states.specs.Volume.{state_over};
ghost use Rattle.device.specs.Media.{Held, Medium, image_of};
ghost use Rattle.live.specs.Durable.{GoesSoundly, IsSoundOn, LeavesSafe, Piece};
ghost use Rattle.live.specs.Alive.{Alive, disk_of, state_of};
ghost use Rattle.live.specs.Mounting.{IsMountable};
ghost use Rattle.rules.specs.Loading.{LoadSoundRefuses};
ghost use Rattle.live.specs.Runs.{Lives};

use device::Device;

/// A volume that was just mounted is at a beginning, with any reachable files as those that no stop is to lose.
pub fn mounted_volumes_begin<D: Device>()
    ensures { (image : List (List ℕ)) (live : Alive D) → IsMountable live.kept.geometry image → pending_of live.queue ≡ [] → IsIdle live.holdings
        → (safe : ℕ → Bool) → ((f : ℕ) → IsTrue (safe f) → IsReachable live.kept.geometry (disk_of image live) f × (((disk_of image live).inode f).mode ≡ 1))
        → IsBeginning live.kept.geometry (disk_of image live) [] [] (disk_of image live) (pending_of live.queue) (state_of image live nothing_beside) safe }
{}

/// An image of a volume that obeys the rules is mounted: it is refused for want of memory and for a fault of the device alone.
pub fn mountable_images_mount<D: Device>()
    ensures { (geo : Geometry) (image : List (List ℕ)) (device : D) (r : Refusal) → IsMountable geo image → LoadSoundRefuses (D.honest device) image r → D.honest device
        → (r ≡ NoMemory) ⊎ (r ≡ DeviceRefusal) }
{}

/// From a beginning on, what a volume goes through by its calls is a service, whatever files no stop is to lose. So its
/// users see a run of the machine; each image that the device held is that of a closed cut of what was written, the cuts
/// grow, each obeys the rules and holds in each block of a file what that very file wrote, or had at first; and a file
/// that no stop was to lose, and of which no unlink took a name, is reachable in each.
pub fn each_stop_of_a_run_is_safe<D: Device>()
    ensures { (beside : Beside) (image0 : List (List ℕ)) (live0 : Alive D) → AreImagesOf live0.holdings.snapshots beside.snapshots
        → (mount : View) (h : List Written) (cut : List Bool) (safe0 : ℕ → Bool)
        → IsBeginning live0.kept.geometry mount h cut (disk_of image0 live0) (pending_of live0.queue) (state_of image0 live0 beside) (λ f. false)
        → IsBeginning live0.kept.geometry mount h cut (disk_of image0 live0) (pending_of live0.queue) (state_of image0 live0 beside) safe0
        → (image : List (List ℕ)) (live : Alive D) (commands : List Command) (replies : List Reply) (images : List View)
        → Lives beside image0 live0 image live commands replies images
        → (safe : ℕ → Bool)
        × Service live0.kept.geometry (disk_of image0 live0) (pending_of live0.queue) (state_of image0 live0 beside) safe0
        (image_view live0.kept.geometry image) (pending_of live.queue) (state_over (image_view live0.kept.geometry image) (pending_of live.queue) live.holdings beside) safe commands replies images
        × IsSafeService live0.kept.geometry mount h cut (disk_of image0 live0) (pending_of live0.queue) (state_of image0 live0 beside) safe0
        (image_view live0.kept.geometry image) (pending_of live.queue) (state_over (image_view live0.kept.geometry image) (pending_of live.queue) live.holdings beside) safe commands replies images }
{}

/// A volume that was just mounted from a device of which nothing is loose is sound on its medium, with any reachable files as those
/// that no loss of power is to lose. Whatever a loss of power leaves of a medium on which a volume is sound can be mounted, and has
/// these files. Calls after which a volume stays sound may follow each other. Where all is durable, as after a sync, any files that
/// are reachable then may be those that no loss of power is to lose.
pub fn sound_volumes_outlive_power_cuts<D: Device>()
    ensures mounted { (m : Medium) (live : Alive D) → live.queue ≡ fresh_queue live.kept.geometry → IsMountable live.kept.geometry (image_of m) → m.loose ≡ []
        → (safe : ℕ → Bool) → ((f : ℕ) → IsTrue (safe f) → IsReachable live.kept.geometry (disk_of (image_of m) live) f × (((disk_of (image_of m) live).inode f).mode ≡ 1))
        → IsSoundOn m live safe }
    ensures left { (m : Medium) (live : Alive D) (safe : ℕ → Bool) → IsSoundOn m live safe → LeavesSafe live.kept.geometry safe m }
    ensures along { (held held1 held2 : Held) (old mid new : Alive D) (safe safe1 safe2 : ℕ → Bool) (asked more : List Piece) (views others : List View)
        → GoesSoundly held old held1 mid safe safe1 asked views → GoesSoundly held1 mid held2 new safe1 safe2 more others → GoesSoundly held old held2 new safe safe2 (more ++ asked) (others ++ views) }
    ensures anew { (m : Medium) (live : Alive D) (safe : ℕ → Bool) → IsSoundOn m live safe → unsynced_of live.queue ≡ []
        → (more : ℕ → Bool) → ((f : ℕ) → IsTrue (more f) → IsReachable live.kept.geometry (disk_of (image_of m) live) f × (((disk_of (image_of m) live).inode f).mode ≡ 1))
        → IsSoundOn m live more }
{}
