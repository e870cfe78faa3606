//! What a power cut leaves on a device with a write cache: any of the writes since its last sync.
#![tactic(auto)]

ghost use Rattle.std.specs.Prelude.{◌≡◌, ◌+◌, ◌++◌, ℕ, Bool, List, [], ◌∷◌, IsTrue, ◌<◌, ◌≤◌, length};
ghost use Rattle.std.specs.List.{Contains};
ghost use Rattle.model.specs.Layout.{Geometry};
ghost use Rattle.model.specs.View.{View, view_of};
ghost use Rattle.model.specs.Image.{block_at, image_view};
ghost use Rattle.device.specs.Media.{Held, MayBeLeft, Medium, cached, chosen, image_of, settled, settled_on};
ghost use Rattle.ordering.specs.Cuts.{Cell, Pending, IsClosed, SameAt, cell_of, seen, rest, joined, users_view};
ghost use Rattle.ordering.specs.ClosedSets.{pending_at, takes};
ghost use Rattle.ordering.specs.Ghosts.{Ghost, at_rest};
ghost use Rattle.model.specs.Rules.{ObeysRules};
ghost use Rattle.model.specs.Reach.{IsReachable};
ghost use Rattle.ordering.specs.Histories.{Comes_to, IsSafeCut};
ghost use Rattle.queue_model.specs.History.{Holds};
ghost use Rattle.queue_model.specs.Flush.{ready, taken};
ghost use Rattle.queue_model.specs.Entries.{Entry, Queue, Represents, AreTaken, NoOtherMayGo, view_after, issued};
ghost use Rattle.queue_model.specs.Blocks.{home_of};
ghost use Rattle.queue_model.specs.Files.{Written, updates};
ghost use Rattle.power_cut.specs.Going.{GoWith, HeldSince};
ghost use Rattle.power_cut.specs.Standing.{StandsOn};
ghost use Rattle.power_cut.specs.Epochs.{Put, Shows, IsEpoch, blocks_with, union, together, all_behind, ready_put};
ghost use Rattle.power_cut.specs.Volumes.{Moment, IsSound, Goes_on, IsSafelyLeft, IsLater, adds, left, syncs, writes};
ghost use Rattle.power_cut.specs.Sweeps.{AreRanks, AreBelow, left_by, swept};
ghost use Rattle.power_cut.specs.Taking.{Turns, IsSweep};
ghost use Rattle.power_cut.specs.Courses.{IsOnCourse};
ghost use Rattle.power_cut.specs.Syncs.{AreSweeps};

/// What two closed cuts take together is closed, and holds both.
pub fn unions_are_closed()
    ensures { (q : List Pending) (cut more : List Bool) → IsClosed q cut → IsClosed q more
        → IsClosed q (union cut more) × Holds (union cut more) cut × Holds (union cut more) more }
{}

/// With nothing issued and nothing written an epoch begins; an issue, and the write of a block with what may go there, keep it
/// one.
pub fn epochs_go_on()
    ensures issued { (geo : Geometry) (durable : View) (q : List Pending) (u : Pending) (puts : List Put) → IsEpoch geo durable q puts
        → IsEpoch geo durable (u ∷ q) (all_behind puts) }
    ensures written { (geo : Geometry) (durable : View) (q : List Pending) (puts : List Put) (a : ℕ) (bytes : List ℕ) → IsEpoch geo durable q puts
        → Shows geo a bytes (seen durable q (ready (home_of geo) a q)) → IsEpoch geo durable q (ready_put geo a bytes q ∷ puts) }
{}

/// Whichever of an epoch's writes reached the medium, it shows a closed cut of what was not durable.
pub fn any_of_an_epochs_writes_leave_a_closed_cut()
    ensures { (geo : Geometry) (blocks : ℕ → List ℕ) (q : List Pending) (puts : List Put) (picks : List Bool) → IsEpoch geo (view_of geo blocks) q puts
        → IsClosed q (together q (chosen puts picks))
        × (view_of geo (blocks_with blocks (chosen puts picks)) ≡ seen (view_of geo blocks) q (together q (chosen puts picks))) }
{}

/// So it obeys the rules and has the safe files.
pub fn any_of_an_epochs_writes_are_safe()
    ensures { (geo : Geometry) (blocks : ℕ → List ℕ) (q : List Pending) (ghost : Ghost) (puts : List Put) (picks : List Bool)
        → Comes_to geo (view_of geo blocks) q ghost → IsEpoch geo (view_of geo blocks) q puts
        → IsSafeCut geo (view_of geo (blocks_with blocks (chosen puts picks))) ghost }
{}

/// A volume whose image obeys the rules and was on the medium for good when it was mounted is sound, with any reachable files
/// as those that no power cut is to lose.
pub fn mounted_volumes_are_sound()
    ensures { (geo : Geometry) (blocks : ℕ → List ℕ) (held safe : ℕ → Bool) → ObeysRules geo (view_of geo blocks)
        → ((f : ℕ) → IsTrue (safe f) → IsReachable geo (view_of geo blocks) f)
        → IsSound geo (view_of geo blocks) (record { written = []; cut = []; durable = blocks; loose = []; ghost = at_rest held safe }) }
{}

/// A volume that goes on from a sound moment comes to one, and what was durable stays so.
pub fn volumes_stay_sound()
    ensures { (geo : Geometry) (mounted : View) (m n : Moment) → IsSound geo mounted m → Goes_on geo mounted m n → IsSound geo mounted n × IsLater m n }
{}

/// Whatever a power cut leaves at a sound moment is safe, and holds what is durable.
pub fn each_power_cut_is_safe()
    ensures { (geo : Geometry) (mounted : View) (m : Moment) → IsSound geo mounted m → (picks : List Bool)
        → IsSafelyLeft geo mounted m (view_of geo (left m picks)) }
{}

/// So it is at each moment of a volume, and once nothing was pending, each update that was issued before is in whatever a later
/// power cut leaves.
pub fn synced_updates_stay()
    ensures { (geo : Geometry) (mounted : View) (m n : Moment) → IsSound geo mounted m → rest (updates m.written) m.cut ≡ []
        → Goes_on geo mounted m n → (picks : List Bool)
        → (safely : IsSafelyLeft geo mounted n (view_of geo (left n picks))) × (later : IsLater m n)
        × ((k : ℕ) → k < length m.written → IsTrue (takes safely.cut (length later.added + k))) }
{}

/// As many sweeps as the longest chain of waits from block to block leave nothing.
pub fn sweeps_are_few()
    ensures { (home : Cell → ℕ) (n : ℕ) (q : List Pending) (ranks : List ℕ) → AreRanks home q ranks → AreBelow n ranks → left_by home n q ≡ [] }
{}

/// A block that is written again in an epoch, with what may go there then beside what its earlier writes took, holds all that
/// may go there over what is durable.
pub fn a_later_write_holds_the_ready_cut()
    ensures first { (geo : Geometry) (durable : ℕ → List ℕ) (a : ℕ) → Shows geo a (durable a) (view_after (view_of geo durable) []) }
    ensures later { (geo : Geometry) (durable : View) (queue : Queue) (q : List Pending) (a : ℕ) (ws es : List Entry) (old new : List ℕ)
        → Represents (home_of geo) queue q
        → AreTaken queue a (es ++ ws) → NoOtherMayGo queue a (es ++ ws) → Shows geo a old (view_after durable ws) → Turns geo a old new (λ v. view_after v es)
        → Shows geo a new (seen durable q (ready (home_of geo) a q)) × (length es + length ws ≡ taken (ready (home_of geo) a q)) }
    ensures issued { (home : Cell → ℕ) (u : Pending) (queue : Queue) (q : List Pending) → Represents home queue q → (a : ℕ) (ws : List Entry)
        → AreTaken queue a ws → AreTaken (issued home u queue) a ws }
{}

/// A sweep that is synced leaves what it did not take.
pub fn a_sweep_is_what_it_takes()
    ensures { (geo : Geometry) (mounted : View) (m : Moment) → IsSound geo mounted m → IsSweep (home_of geo) (rest (updates m.written) m.cut) m.loose
        → rest (updates (syncs m).written) (syncs m).cut ≡ rest (rest (updates m.written) m.cut) (swept (home_of geo) (rest (updates m.written) m.cut)) }
{}

/// What a volume goes through on a device with a cache is a course, in which each sync writes a closed cut.
pub fn volumes_are_on_course()
    ensures { (geo : Geometry) (mounted : View) (m n : Moment) → IsSound geo mounted m → Goes_on geo mounted m n → IsOnCourse geo mounted m n }
{}

/// A sync adds no image to those that might have been left before it, nor does the end of a write take one away; what the device
/// answers is one of them, and the only one where nothing is loose.
pub fn media_leave()
    ensures settled { (m : Medium) (image : List (List ℕ)) → MayBeLeft (settled m) image → MayBeLeft m image }
    ensures earlier { (m : Medium) (a : ℕ) (block : List ℕ) (image : List (List ℕ)) → MayBeLeft m image → MayBeLeft (cached m a block) image }
    ensures answered { (m : Medium) → MayBeLeft m (image_of m) }
    ensures in_order { (m : Medium) (image : List (List ℕ)) → m.loose ≡ [] → MayBeLeft m image → image ≡ image_of m }
{}

/// A medium on which a moment of a volume stands goes along with it: an issue leaves it, and a write and a sync change both.
pub fn media_go_along()
    ensures begins { (image : List (List ℕ)) (ghost : Ghost)
        → StandsOn (settled_on image) (record { written = []; cut = []; durable = block_at image; loose = []; ghost = ghost }) }
    ensures issued { (m : Medium) (n : Moment) (w : Written) (next : Ghost) → StandsOn m n → StandsOn m (adds w next n) }
    ensures written { (geo : Geometry) (m : Medium) (n : Moment) (a : ℕ) (bytes : List ℕ) → a < length m.durable → StandsOn m n
        → StandsOn (cached m a bytes) (writes geo a bytes n) }
    ensures synced { (m : Medium) (n : Moment) → StandsOn m n → StandsOn (settled m) (syncs n) }
{}

/// What may be left of a medium is what may be left block by block of the moment that stands on it, and so it is safe.
pub fn each_image_that_may_be_left_is_safe()
    ensures blocks { (geo : Geometry) (m : Medium) (n : Moment) (image : List (List ℕ)) → StandsOn m n → MayBeLeft m image
        → (picks : List Bool) × (image_view geo image ≡ view_of geo (left n picks)) }
    ensures safe { (geo : Geometry) (mounted : View) (m : Medium) (n : Moment) (image : List (List ℕ)) → IsSound geo mounted n → StandsOn m n
        → MayBeLeft m image → IsSafelyLeft geo mounted n (image_view geo image) }
{}

/// Users see the same over what is durable and over what the device answers now, and a cell with nothing loose is durable.
pub fn users_see_no_cache()
    ensures users { (durable : View) (q : List Pending) (cut : List Bool) → users_view (seen durable q cut) q ≡ users_view durable q }
    ensures cells { (durable : View) (q : List Pending) (cut : List Bool) (c : Cell) → IsClosed q cut
        → ((k : ℕ) → k < length q → cell_of (pending_at q k).change ≡ c → ⊥) → SameAt (seen durable q cut) durable c }
{}

/// A whole sync ends after as many sweeps as the longest chain of waits from block to block, by no more writes than updates
/// were pending.
pub fn whole_syncs_are_short()
    ensures { (geo : Geometry) (mounted : View) (count writes : ℕ) (m k : Moment) (ranks : List ℕ) → AreSweeps geo mounted count writes m k
        → AreRanks (home_of geo) (rest (updates m.written) m.cut) ranks → AreBelow count ranks
        → (rest (updates k.written) k.cut ≡ []) × (writes ≤ length (rest (updates m.written) m.cut)) }
{}

/// On a device that keeps order, so that each write is durable at once, a flush puts the ready cut of its block there.
pub fn a_device_that_keeps_order_syncs_each_write()
    ensures { (geo : Geometry) (a : ℕ) (bytes : List ℕ) (m : Moment) → m.loose ≡ []
        → (syncs (writes geo a bytes m)).cut ≡ joined (updates m.written) m.cut (ready (home_of geo) a (rest (updates m.written) m.cut)) }
{}

/// Writes of which nothing is known, as those before a sync that failed, matter no more once each of their blocks was written
/// again and that was synced.
pub fn blocks_in_doubt_are_written_again()
    ensures { (blocks : ℕ → List ℕ) (old new : List Put) (picks : List Bool)
        → ((p : Put) → Contains old p → (e : Put) × Contains new e × (e.address ≡ p.address))
        → blocks_with (blocks_with blocks (chosen old picks)) new ≡ blocks_with (blocks_with blocks old) new }
{}

/// A volume and its device go on together, on a device that keeps order or not: on the medium that the device has then stands the
/// moment of the volume then, and on each that it had since a moment to which the volume went on.
pub fn volumes_go_on_with_their_devices()
    ensures { (geo : Geometry) (mounted : View) (keeps_order : Bool) (h : Held) (m : Moment) (h' : Held) (n : Moment) → StandsOn h.now m
        → GoWith geo mounted keeps_order h m h' n → Goes_on geo mounted m n × StandsOn h'.now n × HeldSince geo mounted h m h' }
{}
