//! What holds of a volume with its trace: laws, without code.
ghost use Rattle.std.specs.List.{All};
ghost use Rattle.std.specs.Prelude.{◌≡◌, ◌++◌, ℕ, Bool, false, IsTrue, List};
ghost use Rattle.model.specs.View.{View};
ghost use Rattle.device.specs.Media.{Held, images_held};
ghost use Rattle.machine.specs.Balance.{Balance, Exact, OwesNothing};
ghost use Rattle.machine.specs.Command.{Command, Reply};
ghost use Rattle.machine.specs.Step.{Run};
ghost use Rattle.queue_model.specs.Files.{Written};
ghost use Rattle.snapshot.specs.Alive.{Alive};
ghost use Rattle.snapshot.specs.Durable.{HeldSafely, IsSoundOn, LeavesSafe};
ghost use Rattle.snapshot.specs.Mounting.{IsMountable};
ghost use Rattle.snapshot.specs.Cycles.{HasCycle};
ghost use Rattle.snapshot.specs.Stages.{BeginsAt, LeadsTo, ServesTo, Stage, geometry_at, state_at};
ghost use Rattle.snapshot.specs.Synced.{HasFile, KeepsFiles};
ghost use Rattle.shared.specs.Traces.{HasHistory, HasOpening, IsAfterSync, IsSafeTrace, asked_by, first_at, now_at, opening_at};
ghost use Rattle.shared.specs.declared.counts.Counts.{Counts};
ghost use Rattle.shared.specs.declared.entry.Entry.{Entry};

use crate::sharing::Sharing;
use device::Device;

/// A trace is a run of the machine from a state in balance, replies included, to the present one, which is in balance too.
/// So where nothing is owed, the maps mark exactly what is reachable, open or held, and each link count equals its entries.
pub fn traces_lead_to_balance<D: Device>()
    ensures run { (held : Held) (image : List (List ℕ)) (trace : List Entry) (now : Alive D) → (o : HasOpening held image trace now)
        → Run now.kept.geometry (state_at (opening_at o)) (asked_by now.kept.geometry trace) o.responses (state_at (now_at o))
        × Balance now.kept.geometry (state_at (opening_at o)) }
    ensures balance { (held : Held) (image : List (List ℕ)) (trace : List Entry) (now : Alive D) → (o : HasOpening held image trace now)
        → Balance now.kept.geometry (state_at (now_at o))
        × (OwesNothing now.kept.geometry (state_at (now_at o)) → Exact now.kept.geometry (state_at (now_at o))) }
{
    snapshot::volumes_are_in_balance::<D>();
}

/// The calls before a trace and those in it are what the volume went through from the one that was shared: as many repairs and
/// other calls as are counted, with their replies. So each law about the calls of a volume holds of all that threads did with it.
pub fn histories_are_calls<D: Device, L: Sharing>()
    ensures { (before : Counts) (trace : List Entry) (now : Alive D) → (h : HasHistory D.held D.image L.opens before trace now)
        → LeadsTo (first_at h) (h.past.commands ++ asked_by h.opening.opening.kept.geometry trace)
        (h.past.responses ++ h.opening.responses) (now_at h.opening) }
{
    snapshot::calls_join::<D>();
}

/// Whatever the threads did and in whatever order: if the history has a snapshot, a check of it that is installed, and each of the
/// check's repairs carried out, and no other snapshot from then on, the volume is exact. The maps mark exactly what is reachable,
/// open or held, and each link count equals its entries.
pub fn repairs_of_a_history_end_exact<D: Device, L: Sharing>()
    ensures { (before : Counts) (trace : List Entry) (now : Alive D) → (h : HasHistory D.held D.image L.opens before trace now)
        → (cycle : HasCycle now.kept.geometry (h.past.commands ++ asked_by now.kept.geometry trace) (h.past.responses ++ h.opening.responses))
        → OwesNothing now.kept.geometry (state_at (now_at h.opening)) × Exact now.kept.geometry (state_at (now_at h.opening)) }
{
    histories_are_calls::<D, L>();
    snapshot::whole_cycles_end_exact::<D>();
}

/// Whatever the threads did and in whatever order, each image that the device held since the trace began is mountable: an image of
/// this geometry that obeys the rules.
pub fn each_image_of_a_trace_is_mountable<D: Device>()
    ensures { (held : Held) (image : List (List ℕ)) (trace : List Entry) (now : Alive D) → (o : HasOpening held image trace now)
        → (more : List (List (List ℕ))) × (images_held held ≡ images_held o.opening_held ++ more) × All (IsMountable o.opening.kept.geometry) more }
{
    snapshot::each_image_held_is_mountable::<D>();
}

/// Whatever the threads did and in whatever order, each image that the device held since the trace began is that of a closed
/// cut of what was written, the cuts grow, each obeys the rules and holds in each block of a file what that very file wrote,
/// or had at first. And of a beginning that is known (`beginning`), a file that no stop was to lose, and of which no unlink among
/// the calls of the trace took a name, is reachable in each.
pub fn each_stop_of_a_trace_is_safe<D: Device>()
    ensures stops { (held : Held) (image : List (List ℕ)) (trace : List Entry) (now : Alive D) → (o : HasOpening held image trace now)
        → (mount : View) × (h : List Written) × (cut : List Bool) × IsSafeTrace o mount h cut (λ f. false) }
    ensures beginning { (held : Held) (image : List (List ℕ)) (trace : List Entry) (now : Alive D) → (o : HasOpening held image trace now)
        → (mount : View) (h : List Written) (cut : List Bool) (safe : ℕ → Bool) → BeginsAt (opening_at o) mount h cut safe
        → IsSafeTrace o mount h cut safe }
{
    snapshot::volumes_begin::<D>();
    snapshot::each_stop_of_a_run_is_safe::<D>();
}

/// Whatever the threads did and in whatever order, where the volume was sound on the medium of its device when the trace began it is
/// so now, and whatever a loss of power leaves of each medium since can be mounted, and reaches each file that no stop was to lose
/// and of which no unlink among the calls of the trace took a name.
pub fn each_power_cut_of_a_trace_is_safe<D: Device>()
    ensures { (held : Held) (image : List (List ℕ)) (trace : List Entry) (now : Alive D) → (o : HasOpening held image trace now)
        → (mount : View) (h : List Written) (cut : List Bool) (safe : ℕ → Bool) → BeginsAt (opening_at o) mount h cut safe
        → IsSoundOn o.opening_held.now o.opening safe
        → (later : List View) × (safe' : ℕ → Bool) × ServesTo (opening_at o) safe (asked_by o.opening.kept.geometry trace) o.responses (now_at o) safe' later
        × IsSoundOn held.now now safe' × HeldSafely o.opening.kept.geometry o.opening_held held safe' }
{
    snapshot::each_power_cut_of_a_run_is_safe::<D>();
}

/// What a sync has seen outlives each loss of power, whatever the threads did and in whatever order. Where the volume that was shared was
/// sound on the medium of its device, take any sync of the trace that was answered, and any files that were there then: whatever a loss
/// of power left of the medium has them, with the bytes that users saw; and whatever it leaves of each medium since has those of
/// which no unlink behind the sync took a name, with their bytes of then or those that a later command of the trace wrote to them, and
/// looking as users saw them.
pub fn what_a_sync_of_a_trace_has_seen_outlives_power_cuts<D: Device, L: Sharing>()
    ensures { (before : Counts) (trace : List Entry) (now : Alive D) → (h : HasHistory D.held D.image L.opens before trace now)
        → IsSoundOn (D.held h.past.first.device).now h.past.first (λ f. false)
        → (t : Stage D) → IsAfterSync t h.opening.through → (files : ℕ → Bool) → ((f : ℕ) → IsTrue (files f) → HasFile t f)
        → (earlier commands : List Command) × (earlier ++ commands ≡ asked_by h.opening.opening.kept.geometry trace) × (replies : List Reply)
        × LeavesSafe (geometry_at t) files t.held.now × KeepsFiles t files commands replies (now_at h.opening) }
{
    snapshot::calls_join::<D>();
    snapshot::what_a_sync_has_seen_outlives_power_cuts::<D>();
}
