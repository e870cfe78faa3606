//! What holds of a volume over a whole run of calls: laws, without code. They are told by `Goes`, in which the contracts of
//! the calls are stated, of stages: a volume with what stands beside it, and with what its device had held and holds.

ghost use Rattle.std.specs.List.{All};
ghost use Rattle.std.specs.Prelude.{◌≡◌, ℕ, Bool, false, List, [], ◌∷◌, ◌++◌, ◌⊎◌, Ok, Some, IsTrue, length, slice_get};
ghost use Rattle.findings.specs.Findings.{AreFindings};
ghost use Rattle.findings.specs.Report.{repairs_of};
ghost use Rattle.findings.specs.declared.finding.Finding.{Finding};
ghost use Rattle.findings.specs.declared.repair.Repair.{Repair};
ghost use Rattle.model.specs.View.{View};
ghost use Rattle.courses.specs.Bytes.{IsOwnService};
ghost use Rattle.device.specs.Media.{images_held};
ghost use Rattle.machine.specs.Balance.{Balance, Exact, OwesNothing};
ghost use Rattle.machine.specs.Command.{Check, Command, Done, Freeze, Image, Install, RepairAt, Reply};
ghost use Rattle.machine.specs.Debts.{MakesNoDebt};
ghost use Rattle.machine.specs.Runs.{IsTaken};
ghost use Rattle.machine.specs.State.{Plan};
ghost use Rattle.queue_model.specs.Files.{Written};
ghost use Rattle.softdep.specs.Queued.{pending_of};
ghost use Rattle.live_states.specs.Holdings.{IsIdle, nothing_beside};
ghost use Rattle.live.specs.Alive.{disk_of};
ghost use Rattle.live.specs.Durable.{HeldSafely, IsSoundOn, LeavesSafe};
ghost use Rattle.live.specs.Held.{HeldMore};
ghost use Rattle.live.specs.Mounting.{IsMountable};
ghost use Rattle.snapshot.specs.Cycles.{HasCycle};
ghost use Rattle.snapshot.specs.Stages.{BeginsAt, IsSafeTo, LeadsTo, ServesTo, Stage, StandsAt, geometry_at, state_at};
ghost use Rattle.snapshot.specs.Synced.{HasFile, IsSynced, KeepsFiles};

use device::Device;

/// What a volume goes through by calls, and then by more, it goes through by all of them.
pub fn calls_join<D: Device>()
    ensures { (s t u : Stage D) (commands more : List Command) (replies others : List Reply)
        → LeadsTo s commands replies t → LeadsTo t more others u
        → LeadsTo s (commands ++ more) (replies ++ others) u }
{}

/// From wherever a volume may begin, as it may just mounted, what it goes through by calls is a service, whatever files no
/// stop is to lose: freezes, repairs and releases among them. So each image that the device held is that of a closed cut of
/// what was written, the cuts grow, each obeys the rules and holds in each block of a file what that very file wrote, or had
/// at first; and a file that no stop was to lose, and of which no unlink took a name, is reachable in each.
pub fn each_stop_of_a_run_is_safe<D: Device>()
    ensures { (s t : Stage D) (commands : List Command) (replies : List Reply) → LeadsTo s commands replies t
        → (mount : View) (h : List Written) (cut : List Bool) (safe : ℕ → Bool) → BeginsAt s mount h cut safe
        → (later : List View) × HeldMore (geometry_at s) s.held t.held later
        × (safe' : ℕ → Bool) × ServesTo s safe commands replies t safe' later
        × IsSafeTo s mount h cut safe commands replies t safe' later }
{}

/// Files show their own bytes, wherever a volume is stopped. In each image that the device held, each byte of a block of a file, below its
/// size and behind it, is a zero, or that byte of a piece that users wrote at this position of this very file, or the file had it there at
/// first. A number that was given out anew is another file.
pub fn files_show_their_own_bytes<D: Device>()
    ensures { (s t : Stage D) (commands : List Command) (replies : List Reply) → LeadsTo s commands replies t
        → (mount : View) (h : List Written) (cut : List Bool) (safe : ℕ → Bool) → BeginsAt s mount h cut safe
        → (later : List View) × HeldMore (geometry_at s) s.held t.held later
        × (safe' : ℕ → Bool) × (service : ServesTo s safe commands replies t safe' later) × IsOwnService mount h cut service }
{
    each_stop_of_a_run_is_safe::<D>();
    courses::files_show_their_own_bytes();
}

/// A volume that is sound on the medium of its device stays so, whatever it goes through by calls. So whatever a loss of power
/// leaves of its medium, and of each since, can be mounted, and reaches each file that no stop was to lose and of which no unlink took a
/// name.
pub fn each_power_cut_of_a_run_is_safe<D: Device>()
    ensures { (s t : Stage D) (commands : List Command) (replies : List Reply) → LeadsTo s commands replies t
        → (mount : View) (h : List Written) (cut : List Bool) (safe : ℕ → Bool) → BeginsAt s mount h cut safe
        → IsSoundOn s.held.now s.volume safe
        → LeavesSafe (geometry_at s) safe s.held.now × (later : List View) × (safe' : ℕ → Bool) × ServesTo s safe commands replies t safe' later
        × IsSoundOn t.held.now t.volume safe' × HeldSafely (geometry_at s) s.held t.held safe' }
{}

/// What a sync has seen outlives each loss of power. Where all is durable of a volume that was sound on its medium at first, as after
/// each sync that is answered, any files that are there then may be those that no loss of power is to lose: whatever is left of the
/// medium has them, and whatever calls come then, whatever is left of each later one has those of them of which no unlink took a name.
pub fn what_a_sync_has_seen_outlives_power_cuts<D: Device>()
    ensures { (s t u : Stage D) (commands more : List Command) (replies others : List Reply)
        → StandsAt s → LeadsTo s commands replies t → IsSoundOn s.held.now s.volume (λ f. false) → IsSynced t
        → (files : ℕ → Bool) → ((f : ℕ) → IsTrue (files f) → HasFile t f) → LeadsTo t more others u
        → LeavesSafe (geometry_at t) files t.held.now × KeepsFiles t files more others u }
{
    courses::services_begin_anew_with_nothing_pending();
    courses::files_that_lose_no_name_stay_safe();
}

/// A volume was mounted once, whatever was done with it since: it is where one may begin, with no file that no stop is to lose.
pub fn volumes_begin<D: Device>()
    ensures { (s : Stage D) → StandsAt s
        → (mount : View) × (h : List Written) × (cut : List Bool) × BeginsAt s mount h cut (λ f. false) }
{}

/// Each image that the device held during any calls is mountable: an image of this geometry that obeys the rules.
pub fn each_image_held_is_mountable<D: Device>()
    ensures { (s t : Stage D) (commands : List Command) (replies : List Reply) → StandsAt s → LeadsTo s commands replies t
        → (more : List (List (List ℕ))) × (images_held t.held ≡ images_held s.held ++ more) × All (IsMountable (geometry_at s)) more }
{}

/// A volume is in balance: everything that is marked or counted is in use, held for a snapshot, or owed a repair. Where
/// nothing is owed, the maps mark exactly what is reachable, open or held, and each link count equals its entries.
pub fn volumes_are_in_balance<D: Device>()
    ensures { (s : Stage D) → StandsAt s → Balance (geometry_at s) (state_at s)
        × (OwesNothing (geometry_at s) (state_at s) → Exact (geometry_at s) (state_at s)) }
{
    machine::balance_is_exact_where_nothing_is_owed();
}

/// No call makes a debt: what is owed after it was owed before, but that an inode with too many links that lost its last
/// name is to be dropped.
pub fn no_call_makes_a_debt<D: Device>()
    ensures { (s t : Stage D) (command : Command) (reply : Reply) → StandsAt s → LeadsTo s (command ∷ []) (reply ∷ []) t
        → MakesNoDebt (geometry_at s) (state_at s) (state_at t) }
{
    machine::no_step_makes_a_debt();
}

/// A volume on which a check found nothing when it was mounted is exact, whatever is done with it.
pub fn clean_volumes_stay_exact<D: Device>()
    ensures { (s t : Stage D) (commands : List Command) (replies : List Reply)
        → IsMountable (geometry_at s) s.image → pending_of s.volume.queue ≡ [] → IsIdle s.volume.holdings
        → s.beside ≡ nothing_beside → AreFindings (geometry_at s) (disk_of s.image s.volume) []
        → LeadsTo s commands replies t
        → OwesNothing (geometry_at s) (state_at t) × Exact (geometry_at s) (state_at t) }
{
    machine::clean_volumes_stay_exact();
}

/// The whole cycle ends exact: a snapshot, a check of it that is installed, and each of its repairs carried out, with any
/// other commands before, between and after, but for another freeze. Then the maps mark exactly what is reachable, open or
/// held, and each link count equals its entries; and from then on nothing is owed whatever is done, freezes and all. A part of a
/// longer history that is such a cycle (`within`) ends it exact, too.
pub fn whole_cycles_end_exact<D: Device>()
    ensures cycle { (s t : Stage D) (number : ℕ) (frozen : View) (check : Check) (findings : List Finding)
        → (first second : List Command) (replies answers : List Reply) → StandsAt s → length replies ≡ length first
        → LeadsTo s (Freeze ∷ (first ++ (Install check ∷ second))) (Ok (Image number frozen) ∷ (replies ++ (Ok Done ∷ answers))) t
        → (IsTaken Freeze first replies → ⊥) → (IsTaken Freeze second answers → ⊥)
        → AreFindings (geometry_at s) frozen findings
        → ((k : ℕ) (r : Repair) → slice_get (repairs_of findings) k ≡ Some r → IsTaken (RepairAt k) second answers)
        → OwesNothing (geometry_at s) (state_at t) × Exact (geometry_at s) (state_at t) }
    ensures within { (s t : Stage D) (commands : List Command) (replies : List Reply)
        → StandsAt s → LeadsTo s commands replies t → HasCycle (geometry_at s) commands replies
        → OwesNothing (geometry_at s) (state_at t) × Exact (geometry_at s) (state_at t) }
    ensures planned { (s t : Stage D) (commands : List Command) (replies : List Reply) (plan : Plan)
        → StandsAt s → (state_at s).plan ≡ Some plan
        → LeadsTo s commands replies t → (IsTaken Freeze commands replies → ⊥)
        → ((k : ℕ) (r : Repair) → slice_get plan.repairs k ≡ Some r → IsTrue (plan.done k) ⊎ IsTaken (RepairAt k) commands replies)
        → OwesNothing (geometry_at s) (state_at t) × Exact (geometry_at s) (state_at t) }
    ensures after { (s t : Stage D) (commands : List Command) (replies : List Reply)
        → StandsAt s → OwesNothing (geometry_at s) (state_at s) → LeadsTo s commands replies t
        → OwesNothing (geometry_at s) (state_at t) × Exact (geometry_at s) (state_at t) }
{
    machine::runs_keep_the_balance();
    machine::whole_cycles_end_exact();
    machine::checks_carried_out_end_exact();
}
