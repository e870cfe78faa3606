//! What a volume goes through, and what it holds on the way.

ghost use Rattle.std.specs.Prelude.{◌≡◌, ℕ, Bool, List, [], IsTrue, length};
ghost use Rattle.std.specs.List.{Contains};
ghost use Rattle.model.specs.Layout.{Geometry};
ghost use Rattle.model.specs.View.{View};
ghost use Rattle.model.specs.Reach.{IsReachable};
ghost use Rattle.model.specs.Rules.{ObeysRules};
ghost use Rattle.ordering.specs.Cuts.{Cell, Pending, seen, users_view};
ghost use Rattle.ordering.specs.Ghosts.{at_rest};
ghost use Rattle.machine.specs.State.{State};
ghost use Rattle.machine.specs.Command.{Command, Reply};
ghost use Rattle.queue_model.specs.Files.{Written, updates};
ghost use Rattle.queue_model.specs.Sync.{Flushes};
ghost use Rattle.queue_model.specs.Course.{IsSafeImage, AreSafeImages};
ghost use Rattle.courses.specs.Leads.{IsMoment};
ghost use Rattle.courses.specs.Life.{Life, IsLived, Spares, IsLater};
ghost use Rattle.courses.specs.Session.{Session, IsServed};

/// A mounted image that obeys the rules is a good moment.
pub fn a_mounted_image_is_a_good_moment()
    ensures { (geo : Geometry) (mounted : View) (held safe : ℕ → Bool) → ObeysRules geo mounted
        → ((f : ℕ) → IsTrue (safe f) → IsReachable geo mounted f) → IsMoment geo mounted [] [] (at_rest held safe) mounted [] }
{}

/// With nothing pending any files that are reachable then are safe from then on.
pub fn reachable_files_are_safe_with_nothing_pending()
    ensures { (geo : Geometry) (mounted : View) (h : List Written) (cut : List Bool) (held safe : ℕ → Bool) (disk : View)
        → IsMoment geo mounted h cut (at_rest held safe) disk []
        → (more : ℕ → Bool) → ((f : ℕ) → IsTrue (more f) → IsReachable geo disk f) → IsMoment geo mounted h cut (at_rest held more) disk [] }
{}

/// Plans of commands and writes, in any order, are a course from a good moment to a good moment, and each image on the
/// way is safe.
pub fn each_life_is_a_course()
    ensures { (geo : Geometry) (mounted : View) (h : List Written) (cut : List Bool) (disk0 : View) (q0 : List Pending) (held0 safe0 : ℕ → Bool)
        → IsMoment geo mounted h cut (at_rest held0 safe0) disk0 q0
        → (disk : View) (q : List Pending) (held safe : ℕ → Bool) (images : List View) (life : Life geo disk0 q0 held0 safe0 disk q held safe images)
        → IsLived geo mounted h cut disk0 q0 held0 safe0 disk q held safe images life }
{}

/// A file stays safe while no plan takes a name of it.
pub fn spared_files_stay_safe()
    ensures { (geo : Geometry) (disk0 : View) (q0 : List Pending) (held0 safe0 : ℕ → Bool) (disk : View) (q : List Pending)
        (held safe : ℕ → Bool) (images : List View) (life : Life geo disk0 q0 held0 safe0 disk q held safe images)
        → (f : ℕ) → Spares f life → IsTrue (safe0 f) → IsTrue (safe f) }
{}

/// Each of the images is safe by itself.
pub fn each_image_is_safe()
    ensures { (geo : Geometry) (mounted : View) (h : List Written) (cut : List Bool) (safe : ℕ → Bool) (images : List View)
        → AreSafeImages geo mounted h cut safe images
        → (image : View) → Contains images image → (less : List Bool) × (image ≡ seen mounted (updates h) less) × IsSafeImage geo mounted h less safe }
{}

/// So each file that is safe at the beginning, and of which no plan takes a name, is reachable in each image since, which
/// obeys the rules.
pub fn spared_files_are_in_each_image()
    ensures { (geo : Geometry) (mounted : View) (h : List Written) (cut : List Bool) (disk0 : View) (q0 : List Pending) (held0 safe0 : ℕ → Bool)
        → IsMoment geo mounted h cut (at_rest held0 safe0) disk0 q0
        → (disk : View) (q : List Pending) (held safe : ℕ → Bool) (images : List View) (life : Life geo disk0 q0 held0 safe0 disk q held safe images)
        → (image : View) → Contains images image → ObeysRules geo image × ((f : ℕ) → Spares f life → IsTrue (safe0 f) → IsReachable geo image f) }
{}

/// Flushes go on with what a volume goes through, by as many writes.
pub fn flushes_go_on()
    ensures { (geo : Geometry) (disk0 : View) (q0 : List Pending) (held0 safe0 held safe : ℕ → Bool) (home : Cell → ℕ) (disk : View)
        (q : List Pending) (blocks : List ℕ) (disk' : View) (q' : List Pending) → Flushes home disk q blocks disk' q'
        → (images : List View) → Life geo disk0 q0 held0 safe0 disk q held safe images → IsLater geo disk0 q0 held0 safe0 disk' q' held safe images (length blocks) }
{}

/// What users ask and are answered is a run of the machine, and what the device holds meanwhile is such a life.
pub fn each_session_is_a_run_and_a_life()
    ensures { (geo : Geometry) (disk0 : View) (q0 : List Pending) (old0 : State) (safe0 : ℕ → Bool) → users_view disk0 q0 ≡ old0.view
        → (disk : View) (q : List Pending) (new : State) (safe : ℕ → Bool) (commands : List Command) (replies : List Reply) (images : List View)
        → Session geo disk0 q0 old0 safe0 disk q new safe commands replies images
        → IsServed geo disk0 q0 old0 safe0 disk q new safe commands replies images }
{}

/// What no stop loses is a file at each moment, if it was one at the beginning; so a directory that is removed is none of
/// them.
pub fn safe_files_are_files()
    ensures { (geo : Geometry) (mounted : View) (h : List Written) (cut : List Bool) (disk0 : View) (q0 : List Pending) (held0 safe0 : ℕ → Bool)
        → IsMoment geo mounted h cut (at_rest held0 safe0) disk0 q0
        → ((f : ℕ) → IsTrue (safe0 f) → ((users_view disk0 q0).inode f).mode ≡ 1)
        → (disk : View) (q : List Pending) (held safe : ℕ → Bool) (images : List View) → Life geo disk0 q0 held0 safe0 disk q held safe images
        → (f : ℕ) → IsTrue (safe f) → ((users_view disk q).inode f).mode ≡ 1 }
{}
