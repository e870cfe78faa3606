//! What a volume goes through, over what is durable: plans are of what users see, which a cache does not change, so what is
//! durable goes through a course too, and whatever a loss of power leaves is safe.
#![tactic(auto)]

ghost use Rattle.std.specs.Prelude.{◌≡◌, ◌++◌, ℕ, Bool, List, [], IsTrue, length};
ghost use Rattle.model.specs.Image.{image_view};
ghost use Rattle.model.specs.Layout.{Geometry};
ghost use Rattle.model.specs.Reach.{IsReachable};
ghost use Rattle.model.specs.View.{View};
ghost use Rattle.ordering.specs.Cuts.{Pending, IsClosed, rest, seen, users_view};
ghost use Rattle.ordering.specs.Ghosts.{at_rest};
ghost use Rattle.machine.specs.State.{State};
ghost use Rattle.plans_data.specs.Now.{now};
ghost use Rattle.plans_data.specs.Release.{MayRelease, releasing};
ghost use Rattle.queue_model.specs.Files.{Written};
ghost use Rattle.device.specs.Media.{MayBeLeft, Medium};
ghost use Rattle.power_cut.specs.Epochs.{IsEpoch, Put};
ghost use Rattle.power_cut.specs.Standing.{AreWithin, writes_of};
ghost use Rattle.courses.specs.Leads.{IsMoment};
ghost use Rattle.courses.specs.Plans.{IsPlan};
ghost use Rattle.cut_courses.specs.Durably.{IsDurably, IsSafelyShown};

/// A plan puts updates on top of what is pending, and asks for nothing but what users see: so it is one over any other device with
/// other updates pending over which users see the same, by the same updates.
pub fn plans_are_of_what_users_see()
    ensures { (geo : Geometry) (disk : View) (q : List Pending) (old : State) (safe : ℕ → Bool) (file : ℕ) (p : List Pending) (held' safe' : ℕ → Bool)
        → IsPlan geo disk q old safe file p held' safe'
        → (durable : View) (unsynced : List Pending) → users_view durable unsynced ≡ users_view disk q
        → (us : List Pending) × (p ≡ us ++ q) × IsPlan geo durable unsynced old safe file (us ++ unsynced) held' safe' }
{}

/// Where nothing is loose, what the device answers is durable.
pub fn what_is_answered_may_be_durable()
    ensures { (geo : Geometry) (mount : View) (h : List Written) (cut : List Bool) (disk : View) (q : List Pending) (held safe : ℕ → Bool)
        → IsMoment geo mount h cut (at_rest held safe) disk q → IsDurably geo disk q disk q held safe }
{}

/// What is durable goes along with what a volume does: a plan adds to what is not durable, the write of a closed cut of what is
/// pending leaves it, the word of the device makes it what the device answers, and with nothing left a snapshot may end, or
/// any files that are reachable then be safe.
pub fn what_is_durable_goes_along()
    ensures plans { (geo : Geometry) (durable : View) (unsynced : List Pending) (disk : View) (q : List Pending) (old : State) (safe : ℕ → Bool)
        → IsDurably geo durable unsynced disk q old.held safe
        → (file : ℕ) (p : List Pending) (held' safe' : ℕ → Bool) → IsPlan geo disk q old safe file p held' safe'
        → (us : List Pending) × (p ≡ us ++ q) × IsDurably geo durable (us ++ unsynced) disk p held' safe' }
    ensures writes { (geo : Geometry) (durable : View) (unsynced : List Pending) (disk : View) (q : List Pending) (held safe : ℕ → Bool)
        → IsDurably geo durable unsynced disk q held safe
        → (cut : List Bool) → IsClosed q cut → IsDurably geo durable unsynced (seen disk q cut) (rest q cut) held safe }
    ensures syncs { (geo : Geometry) (durable : View) (unsynced : List Pending) (disk : View) (q : List Pending) (held safe : ℕ → Bool)
        → IsDurably geo durable unsynced disk q held safe → IsDurably geo disk q disk q held safe }
    ensures releases { (geo : Geometry) (disk : View) (old : State) (safe held' : ℕ → Bool) (blocks : List ℕ)
        → IsDurably geo disk [] disk [] old.held safe → MayRelease geo (now disk [] old) held' blocks
        → IsDurably geo disk (releasing blocks []) disk (releasing blocks []) held' safe }
    ensures anew { (geo : Geometry) (disk : View) (held safe more : ℕ → Bool) → IsDurably geo disk [] disk [] held safe
        → ((f : ℕ) → IsTrue (more f) → IsReachable geo disk f) → IsDurably geo disk [] disk [] held more }
{}

/// Each closed cut of what is not durable shows a safe image.
pub fn each_cut_of_what_is_not_durable_is_safe()
    ensures { (geo : Geometry) (durable : View) (unsynced : List Pending) (disk : View) (q : List Pending) (held safe : ℕ → Bool)
        → (d : IsDurably geo durable unsynced disk q held safe) → (cut : List Bool) → IsClosed unsynced cut
        → IsSafelyShown geo durable unsynced d.mount d.history d.cut safe (seen durable unsynced cut) }
{}

/// So is whatever a loss of power leaves of a medium on which this is durable, and whose loose writes are an epoch over it.
pub fn each_image_that_a_power_cut_leaves_is_safe()
    ensures { (geo : Geometry) (m : Medium) (unsynced : List Pending) (disk : View) (q : List Pending) (held safe : ℕ → Bool)
        → (d : IsDurably geo (image_view geo m.durable) unsynced disk q held safe)
        → (puts : List Put) → IsEpoch geo (image_view geo m.durable) unsynced puts → m.loose ≡ writes_of puts → AreWithin (length m.durable) puts
        → (image : List (List ℕ)) → MayBeLeft m image
        → IsSafelyShown geo (image_view geo m.durable) unsynced d.mount d.history d.cut safe (image_view geo image) }
{}
