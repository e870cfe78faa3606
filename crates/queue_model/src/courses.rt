//! What a volume does, and what it holds on the way.

ghost use Rattle.std.specs.Prelude.{◌≡◌, ℕ, Bool, List, [], ◌++◌, IsTrue, length};
ghost use Rattle.model.specs.Layout.{Geometry};
ghost use Rattle.model.specs.View.{View};
ghost use Rattle.model.specs.Reach.{IsReachable};
ghost use Rattle.model.specs.Rules.{ObeysRules};
ghost use Rattle.ordering.specs.Cuts.{Cell, Pending, IsClosed, seen, rest};
ghost use Rattle.queue_model.specs.Sync.{Flushes};
ghost use Rattle.ordering.specs.Ghosts.{Ghost, at_rest};
ghost use Rattle.ordering.specs.Agrees.{AllAgree};
ghost use Rattle.ordering.specs.Histories.{IsSafeCut};
ghost use Rattle.queue_model.specs.Files.{Written, updates};
ghost use Rattle.queue_model.specs.Course.{IsGood, Course, IsByItself, IsPut, IsSafeImage, AreSafeImages};

/// The device is safe.
pub fn the_device_is_safe()
    ensures { (geo : Geometry) (disk : View) (q : List Pending) (ghost : Ghost) → AllAgree geo disk q ghost → IsSafeCut geo disk ghost }
{}

/// A mounted image that obeys the rules is a good beginning.
pub fn a_mounted_image_is_good()
    ensures { (geo : Geometry) (mounted : View) (held safe : ℕ → Bool) → ObeysRules geo mounted
        → ((f : ℕ) → IsTrue (safe f) → IsReachable geo mounted f) → IsGood geo mounted [] [] (at_rest held safe) }
{}

/// With nothing pending any files that are reachable then are safe from then on.
pub fn reachable_files_are_safe_from_now()
    ensures { (geo : Geometry) (mounted : View) (h : List Written) (cut : List Bool) (ghost : Ghost) (safe : ℕ → Bool)
        → IsGood geo mounted h cut ghost → rest (updates h) cut ≡ []
        → ((f : ℕ) → IsTrue (safe f) → IsReachable geo (seen mounted (updates h) cut) f) → IsGood geo mounted h cut (at_rest ghost.held safe) }
{}

/// A good moment's image is safe.
pub fn a_good_moment_has_a_safe_image()
    ensures { (geo : Geometry) (mounted : View) (h : List Written) (cut : List Bool) (ghost : Ghost) → IsGood geo mounted h cut ghost
        → IsSafeImage geo mounted h cut ghost.safe }
{}

/// A course from a good moment leads to one, and each image on the way is safe.
pub fn each_image_of_a_course_is_safe()
    ensures { (geo : Geometry) (mounted : View) (h : List Written) (cut : List Bool) (ghost : Ghost) (h' : List Written) (cut' : List Bool)
        (images : List View) (ghost' : Ghost) → Course geo mounted h cut ghost h' cut' images ghost'
        → IsGood geo mounted h cut ghost → IsGood geo mounted h' cut' ghost' × AreSafeImages geo mounted h' cut' ghost'.safe images }
{}

/// What a course writes is by itself a history over the device at its beginning and what was pending then.
pub fn a_course_is_a_history()
    ensures { (geo : Geometry) (mounted : View) (h : List Written) (cut : List Bool) (ghost : Ghost) (h' : List Written) (cut' : List Bool)
        (images : List View) (ghost' : Ghost) → Course geo mounted h cut ghost h' cut' images ghost'
        → IsClosed (updates h) cut → IsByItself mounted h cut h' cut' images }
{}

/// Flushes are a course of as many writes.
pub fn flushes_are_a_course()
    ensures { (geo : Geometry) (mounted : View) (h : List Written) (ghost : Ghost) (home : Cell → ℕ) (disk disk' : View) (q q' : List Pending) (blocks : List ℕ)
        → Flushes home disk q blocks disk' q'
        → (cut : List Bool) → IsClosed (updates h) cut → seen mounted (updates h) cut ≡ disk → rest (updates h) cut ≡ q
        → IsPut geo mounted h cut ghost disk' q' (length blocks) }
{}

/// Courses join.
pub fn courses_join()
    ensures { (geo : Geometry) (mounted : View) (h : List Written) (cut : List Bool) (ghost : Ghost) (h' : List Written) (cut' : List Bool)
        (images : List View) (ghost' : Ghost) → Course geo mounted h cut ghost h' cut' images ghost'
        → (h'' : List Written) (cut'' : List Bool) (later : List View) (ghost'' : Ghost) → Course geo mounted h' cut' ghost' h'' cut'' later ghost''
        → Course geo mounted h cut ghost h'' cut'' (later ++ images) ghost'' }
{}
