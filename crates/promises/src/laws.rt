//! The three promises.
ghost use Rattle.std.specs.Prelude.{◌≡◌, ◌++◌, [], ℕ, Bool, false, List, IsTrue};
ghost use Rattle.std.specs.List.{All};
ghost use Rattle.findings.specs.Findings.{AreFindings};
ghost use Rattle.findings.specs.Report.{repairs_of, report_of};
ghost use Rattle.findings.specs.declared.finding.Finding.{Finding};
ghost use Rattle.fsck.specs.Checked.{CheckedImage, IsChecked};
ghost use Rattle.machine.specs.Balance.{Exact, OwesNothing};
ghost use Rattle.machine.specs.Command.{Command, Reply};
ghost use Rattle.model.specs.Layout.{Geometry};
ghost use Rattle.model.specs.View.{View};
ghost use Rattle.device.specs.Media.{Medium, images_held};
ghost use Rattle.snapshot.specs.Alive.{Alive};
ghost use Rattle.snapshot.specs.Cycles.{HasCycle};
ghost use Rattle.snapshot.specs.Goes.{pieces_in, views_in};
ghost use Rattle.snapshot.specs.Durable.{IsSoundOn, LeavesSafe};
ghost use Rattle.snapshot.specs.Alive.{disk_of};
ghost use Rattle.snapshot.specs.Stages.{LeadsTo, Stage, StandsAt, geometry_at, state_at};
ghost use Rattle.snapshot.specs.Synced.{HasFile, IsSynced, KeepsFiles};
ghost use Rattle.shared.specs.Traces.{HasHistory, asked_by, now_at};
ghost use Rattle.shared.specs.declared.counts.Counts.{Counts};
ghost use Rattle.shared.specs.declared.entry.Entry.{Entry};
ghost use Rattle.promises.specs.Known.{LeavesKnown, LeavesLooks, LeavesOwnBytes, ShowsLooks};
ghost use Rattle.promises.specs.Leaky.{IsOnlyLeaky, LeavesLeaky};

use device::Device;
use shared::Sharing;

/// The check is right: what a checked image found is the one list of findings that the definition gives for the image, whatever
/// workers looked for it, and its report and its repairs are those of this list.
pub fn the_check_is_right()
    ensures { (geo : Geometry) (view : View) (checked : CheckedImage) (findings : List Finding) → IsChecked geo view checked → AreFindings geo view findings
        → (checked.findings ≡ findings) × (checked.report ≡ report_of findings) × (checked.repairs ≡ repairs_of findings) }
{
    findings::findings_are_unique();
}

/// Every image that the device held is only leaky, whatever calls were made and wherever they stopped: it can be mounted, a
/// check finds only what repairs give back, and they leave an exact volume (`leaky`). And each image that it held since a sync shows each
/// number with the mode, the size and the attributes that users saw of it at the sync, or those that they saw of it before or behind a
/// later command: all three of one moment (`looks`).
pub fn every_stop_is_only_leaky<D: Device>()
    ensures leaky { (s t : Stage D) (commands : List Command) (replies : List Reply) → StandsAt s → LeadsTo s commands replies t
        → (more : List (List (List ℕ))) × (images_held t.held ≡ images_held s.held ++ more) × All (IsOnlyLeaky (geometry_at s)) more }
    ensures looks { (t u : Stage D) (files : ℕ → Bool) (more : List Command) (others : List Reply) → (keeps : KeepsFiles t files more others u)
        → (held : List (List (List ℕ))) × (images_held u.held ≡ images_held t.held ++ held)
        × All (ShowsLooks (geometry_at t) (disk_of t.image t.volume) (views_in (geometry_at t) (state_at t) more others (state_at u) keeps.run)) held }
{
    snapshot::each_image_held_is_mountable::<D>();
    findings::rules_hold_where_findings_are_soft();
    machine::checks_carried_out_end_exact();
}

/// Whatever a loss of power leaves is only leaky, on a device whose writes are not durable at once too (`leaky`): of the medium on which
/// a volume is sound, as it is just mounted, and of each medium that the device had since, whatever calls were made. And what a
/// sync has seen outlives it (`synced`): the files that are there where all is durable, as after each sync that is answered, are
/// in whatever is left then; and, but for those of which an unlink took a name since, in whatever is left of each later medium. In that
/// each record is as it was at the sync, or as an update since made it; and each block of a file has the bytes that this file had there at
/// the sync, or those that an update since gave it in the name of this very file (`known`). Such updates are what users asked for: each
/// byte of each block of a file is a zero, one that the file had at this position at the sync, or one of a piece that a later command
/// wrote at this position through a handle on this number, which counts for the file that the number was when it was put, in the order of
/// the commands (`own`). And each number has the mode, the size and the attributes that users saw of it at the sync, or those that they
/// saw of it before or behind a later command: all three of one moment (`looks`).
pub fn every_power_cut_is_only_leaky<D: Device>()
    ensures leaky { (s t : Stage D) (commands : List Command) (replies : List Reply) → StandsAt s → LeadsTo s commands replies t
        → IsSoundOn s.held.now s.volume (λ f. false)
        → LeavesLeaky (geometry_at s) s.held.now
        × (more : List Medium) × (t.held.media ≡ s.held.media ++ more) × All (LeavesLeaky (geometry_at s)) more }
    ensures synced { (s t u : Stage D) (commands more : List Command) (replies others : List Reply)
        → StandsAt s → LeadsTo s commands replies t → IsSoundOn s.held.now s.volume (λ f. false) → IsSynced t
        → (files : ℕ → Bool) → ((f : ℕ) → IsTrue (files f) → HasFile t f) → LeadsTo t more others u
        → LeavesSafe (geometry_at t) files t.held.now × KeepsFiles t files more others u }
    ensures known { (t u : Stage D) (files : ℕ → Bool) (more : List Command) (others : List Reply) → (keeps : KeepsFiles t files more others u)
        → LeavesKnown (geometry_at t) (disk_of t.image t.volume) [] t.held.now
        × All (LeavesKnown (geometry_at t) (disk_of t.image t.volume) keeps.written) keeps.more }
    ensures looks { (t u : Stage D) (files : ℕ → Bool) (more : List Command) (others : List Reply) → (keeps : KeepsFiles t files more others u)
        → LeavesLooks (geometry_at t) (disk_of t.image t.volume) [] t.held.now
        × All (LeavesLooks (geometry_at t) (disk_of t.image t.volume) (views_in (geometry_at t) (state_at t) more others (state_at u) keeps.run)) keeps.more }
    ensures own { (t u : Stage D) (files : ℕ → Bool) (more : List Command) (others : List Reply) → (keeps : KeepsFiles t files more others u)
        → LeavesOwnBytes (geometry_at t) (disk_of t.image t.volume) [] [] t.held.now
        × All (LeavesOwnBytes (geometry_at t) (disk_of t.image t.volume) keeps.written
        (pieces_in (geometry_at t) (state_at t) more others (state_at u) keeps.run)) keeps.more }
{
    snapshot::volumes_begin::<D>();
    snapshot::each_power_cut_of_a_run_is_safe::<D>();
    snapshot::what_a_sync_has_seen_outlives_power_cuts::<D>();
    findings::rules_hold_where_findings_are_soft();
    machine::checks_carried_out_end_exact();
}

/// Repairs that are carried out leave an exact volume, under one thread (`alone`) and under many (`shared`), whatever else was
/// done: the maps mark exactly what is reachable, open or held for a snapshot, and each link count equals its entries.
pub fn repairs_end_exact<D: Device, L: Sharing>()
    ensures alone { (s t : Stage D) (commands : List Command) (replies : List Reply)
        → StandsAt s → LeadsTo s commands replies t → HasCycle (geometry_at s) commands replies
        → OwesNothing (geometry_at s) (state_at t) × Exact (geometry_at s) (state_at t) }
    ensures shared { (before : Counts) (trace : List Entry) (now : Alive D) → (h : HasHistory D.held D.image L.opens before trace now)
        → HasCycle now.kept.geometry (h.past.commands ++ asked_by now.kept.geometry trace) (h.past.responses ++ h.opening.responses)
        → OwesNothing now.kept.geometry (state_at (now_at h.opening)) × Exact now.kept.geometry (state_at (now_at h.opening)) }
{
    snapshot::whole_cycles_end_exact::<D>();
    shared::repairs_of_a_history_end_exact::<D, L>();
}
