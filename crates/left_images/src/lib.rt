//! What a power cut may leave of what a device with a write cache was given: some of the images, or all of them, each judged.
#![tactic(auto)]

ghost use Rattle.std.specs.Prelude.{ℕ, ◌≤◌, ◌^◌, List, take};
ghost use Rattle.device.specs.Cached.{Cache, held_by};
ghost use Rattle.device.specs.Media.{MayBeLeft};
ghost use Rattle.left_images.specs.Judged.{IsCut, IsNoWorse};
ghost use Rattle.left_images.specs.declared.judging.Cut.{Cut};

mod choosing;
mod judging;
mod reports;

pub use judging::{Cut, Judge, cuts};
pub use reports::{may_damage, report};

/// Where no more ways to lose loose writes were there than were tried, each image that a power cut may leave at that moment was
/// judged, and what is told is no better than what was said of it.
pub fn each_image_that_may_be_left_is_judged<J: Judge>()
    ensures { (cache : Cache) (steps most : ℕ) (cut : Cut) → IsCut J.tells cache steps most cut → 2 ^ cut.loose ≤ most
        → (image : List (List ℕ)) → MayBeLeft (held_by cache.first (take steps cache.steps)).now image → IsNoWorse J.tells image cut.worst }
{}
