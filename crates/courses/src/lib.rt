//! From the plans of commands to the course of a volume: what it goes through, and what each stop leaves.
#![tactic(auto)]

mod lives;
mod services;

ghost use Rattle.std.specs.Prelude.{◌≡◌, ℕ, Bool, List};
ghost use Rattle.model.specs.Layout.{Geometry};
ghost use Rattle.model.specs.View.{View};
ghost use Rattle.ordering.specs.Cuts.{Pending};
ghost use Rattle.ordering.specs.Ghosts.{Ghost, at_rest};
ghost use Rattle.queue_model.specs.Files.{Written};
ghost use Rattle.plans_data.specs.Issues.{Issues};
ghost use Rattle.machine.specs.State.{State};
ghost use Rattle.courses.specs.Leads.{IsMoment, Named, Leads};
ghost use Rattle.courses.specs.Plans.{IsPlan};

pub use lives::{
    a_mounted_image_is_a_good_moment, each_image_is_safe, each_life_is_a_course,
    each_session_is_a_run_and_a_life, flushes_go_on, reachable_files_are_safe_with_nothing_pending,
    safe_files_are_files, spared_files_are_in_each_image, spared_files_stay_safe,
};
pub use services::{
    accepted_commands_extend_a_session, each_service_is_a_session, each_stop_of_a_service_is_safe,
    files_show_their_own_bytes, files_that_lose_no_name_stay_safe, mounted_images_are_beginnings,
    services_begin_anew_with_nothing_pending,
};

/// A chain of updates that each name their file is a course, which writes these updates.
pub fn a_chain_is_a_course()
    ensures { (geo : Geometry) (mounted : View) (h : List Written) (cut : List Bool) (ghost : Ghost) (disk : View) (q : List Pending) (file : ℕ)
        (h' : List Written) (p : List Pending) (ghost' : Ghost) → IsMoment geo mounted h cut ghost disk q
        → Issues geo disk q ghost p ghost' → Named geo mounted file h q h' p → (l : Leads geo mounted h cut ghost disk q file p ghost') × (l.h' ≡ h') }
{}

/// Each plan leads by a course from a good moment at rest to a good moment at rest.
pub fn each_plan_is_a_course()
    ensures { (geo : Geometry) (mounted : View) (h : List Written) (cut : List Bool) (disk : View) (q : List Pending) (old : State) (safe : ℕ → Bool)
        → IsMoment geo mounted h cut (at_rest old.held safe) disk q
        → (file : ℕ) (p : List Pending) (held' safe' : ℕ → Bool) → IsPlan geo disk q old safe file p held' safe'
        → Leads geo mounted h cut (at_rest old.held safe) disk q file p (at_rest held' safe') }
{}
