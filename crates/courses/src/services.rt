//! What a volume goes through that carries out the commands of its users by their plans, and what each stop of it
//! leaves.

ghost use Rattle.std.specs.Prelude.{◌≡◌, ℕ, Bool, List, [], ◌∷◌, ◌++◌, Ok, IsTrue};
ghost use Rattle.model.specs.Image.{IsImage, image_view};
ghost use Rattle.model.specs.Layout.{Geometry};
ghost use Rattle.model.specs.Reach.{IsReachable};
ghost use Rattle.model.specs.Rules.{ObeysRules};
ghost use Rattle.model.specs.View.{View};
ghost use Rattle.ordering.specs.Cuts.{Pending};
ghost use Rattle.machine.specs.Causes.{Accepts};
ghost use Rattle.machine.specs.Command.{Answer, Command, Reply};
ghost use Rattle.machine.specs.State.{State, mounted};
ghost use Rattle.queue_model.specs.Files.{Written};
ghost use Rattle.courses.specs.Bytes.{IsOwnService};
ghost use Rattle.courses.specs.Serves.{IsBeginning, IsSafeService, IsSpared, Serves, Service};
ghost use Rattle.courses.specs.Session.{Session};

/// A mounted image that obeys the rules is a beginning, with any reachable files as those that no stop is to lose.
pub fn mounted_images_are_beginnings()
    ensures { (geo : Geometry) (image : List (List ℕ)) (safe : ℕ → Bool) → IsImage geo image → ObeysRules geo (image_view geo image)
        → ((f : ℕ) → IsTrue (safe f) → IsReachable geo (image_view geo image) f × (((image_view geo image).inode f).mode ≡ 1))
        → IsBeginning geo (image_view geo image) [] [] (image_view geo image) [] (mounted (image_view geo image)) safe }
{}

/// A command that no cause refuses, carried out by its plan or by flushes, extends a session, whatever is chosen where there
/// is a choice.
pub fn accepted_commands_extend_a_session()
    ensures { (geo : Geometry) (mount : View) (h : List Written) (cut : List Bool) (disk0 : View) (q0 : List Pending) (old0 : State) (safe0 : ℕ → Bool)
        → IsBeginning geo mount h cut disk0 q0 old0 safe0
        → (disk : View) (q : List Pending) (old : State) (safe : ℕ → Bool) (commands : List Command) (replies : List Reply) (images : List View)
        → Session geo disk0 q0 old0 safe0 disk q old safe commands replies images
        → (command : Command) (answer : Answer) (disk' : View) (q' : List Pending) (new : State) (safe' : ℕ → Bool) (later : List View)
        → Accepts geo old command → Serves geo disk q old safe command answer disk' q' new safe' later
        → Session geo disk0 q0 old0 safe0 disk' q' new safe' (commands ++ command ∷ []) (replies ++ Ok answer ∷ []) (later ++ images) }
{}

/// So what a volume goes through is a session.
pub fn each_service_is_a_session()
    ensures { (geo : Geometry) (mount : View) (h : List Written) (cut : List Bool) (disk0 : View) (q0 : List Pending) (old0 : State) (safe0 : ℕ → Bool)
        → IsBeginning geo mount h cut disk0 q0 old0 safe0
        → (disk : View) (q : List Pending) (new : State) (safe : ℕ → Bool) (commands : List Command) (replies : List Reply) (images : List View)
        → Service geo disk0 q0 old0 safe0 disk q new safe commands replies images
        → Session geo disk0 q0 old0 safe0 disk q new safe commands replies images }
{}

/// Its users see a run of the machine, and each image that the device held is safe.
pub fn each_stop_of_a_service_is_safe()
    ensures { (geo : Geometry) (mount : View) (h : List Written) (cut : List Bool) (disk0 : View) (q0 : List Pending) (old0 : State) (safe0 : ℕ → Bool)
        → IsBeginning geo mount h cut disk0 q0 old0 safe0
        → (disk : View) (q : List Pending) (new : State) (safe : ℕ → Bool) (commands : List Command) (replies : List Reply) (images : List View)
        → Service geo disk0 q0 old0 safe0 disk q new safe commands replies images
        → IsSafeService geo mount h cut disk0 q0 old0 safe0 disk q new safe commands replies images }
{}

/// A file that is safe at the beginning, and of which no unlink that was carried out took a name, is safe at the end, so it
/// is in each image.
pub fn files_that_lose_no_name_stay_safe()
    ensures { (geo : Geometry) (mount : View) (h : List Written) (cut : List Bool) (disk0 : View) (q0 : List Pending) (old0 : State) (safe0 : ℕ → Bool)
        → IsBeginning geo mount h cut disk0 q0 old0 safe0
        → (disk : View) (q : List Pending) (new : State) (safe : ℕ → Bool) (commands : List Command) (replies : List Reply) (images : List View)
        → (service : Service geo disk0 q0 old0 safe0 disk q new safe commands replies images)
        → (f : ℕ) → IsSpared f service → IsTrue (safe0 f) → IsTrue (safe f) }
{}

/// Where nothing is pending a volume may begin anew, with any files that are reachable then.
pub fn services_begin_anew_with_nothing_pending()
    ensures { (geo : Geometry) (mount : View) (h : List Written) (cut : List Bool) (disk0 : View) (q0 : List Pending) (old0 : State) (safe0 : ℕ → Bool)
        → IsBeginning geo mount h cut disk0 q0 old0 safe0
        → (disk : View) (q : List Pending) (new : State) (safe : ℕ → Bool) (commands : List Command) (replies : List Reply) (images : List View)
        → Service geo disk0 q0 old0 safe0 disk q new safe commands replies images → q ≡ []
        → (more : ℕ → Bool) → ((f : ℕ) → IsTrue (more f) → IsReachable geo disk f × ((disk.inode f).mode ≡ 1))
        → (h' : List Written) × (cut' : List Bool) × IsBeginning geo mount h' cut' disk q new more }
{}

/// Below a file's size and behind it each image shows the file's own bytes: each byte of a block of a file is a zero, or
/// that byte of a piece which users wrote at this position of this very file, or the file had it there at the beginning.
pub fn files_show_their_own_bytes()
    ensures { (geo : Geometry) (mount : View) (h : List Written) (cut : List Bool) (disk0 : View) (q0 : List Pending) (old0 : State) (safe0 : ℕ → Bool)
        → IsBeginning geo mount h cut disk0 q0 old0 safe0
        → (disk : View) (q : List Pending) (new : State) (safe : ℕ → Bool) (commands : List Command) (replies : List Reply) (images : List View)
        → (service : Service geo disk0 q0 old0 safe0 disk q new safe commands replies images)
        → IsOwnService mount h cut service }
{}
