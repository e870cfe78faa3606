//! Records and the attributes in them: when attributes may be set, and what a closed cut shows of a record. Laws, without code.
#![tactic(auto)]

ghost use Rattle.std.specs.Prelude.{◌≡◌, ◌≤◌, ℕ, Bool, List, ◌++◌, length, drop, IsTrue};
ghost use Rattle.model.specs.Layout.{Geometry};
ghost use Rattle.model.specs.View.{View};
ghost use Rattle.model.specs.Uses.{is_sound_at};
ghost use Rattle.ordering.specs.Cuts.{Pending, seen, users_view};
ghost use Rattle.ordering.specs.Ghosts.{Ghost};
ghost use Rattle.ordering.specs.Histories.{Step};
ghost use Rattle.whole_records.specs.Setting.{setting};

/// The attributes of a sound inode may be set at any time: it is an update of a kind that keeps the order of updates.
pub fn attributes_may_be_set()
    ensures { (geo : Geometry) (disk : View) (q : List Pending) (ghost : Ghost) (n : ℕ) (words : List ℕ)
        → IsTrue (is_sound_at geo (users_view disk q) n) → Step geo disk q ghost (setting n ((users_view disk q).inode n) words) ghost }
{}

/// Each record on the image of a cut, with the attributes in it, is one that users saw when some of the updates were issued, the newest
/// ones left out.
pub fn each_record_was_seen_whole()
    ensures { (disk : View) (q : List Pending) (cut : List Bool) (n : ℕ)
        → (k : ℕ) × ((seen disk q cut).inode n ≡ (users_view disk (drop k q)).inode n) }
{}

/// Where a cut takes all updates up to some moment, it is one that users saw then or later.
pub fn what_was_synced_is_no_older()
    ensures { (disk : View) (added q : List Pending) (cut : List Bool) (n : ℕ) → seen disk q (drop (length added) cut) ≡ users_view disk q
        → (k : ℕ) × (k ≤ length added) × ((seen disk (added ++ q) cut).inode n ≡ (users_view disk (drop k (added ++ q))).inode n) }
{}
