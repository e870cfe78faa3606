//! What the commands of the live volume claim as metadata after them: tables, and the blocks of directories.
//! Each command's plan gives bytes to each such block that was not one before, so that a volume that keeps in memory
//! what is metadata, and what its plans write, keeps all metadata after each command.
#![tactic(auto)]

ghost use Rattle.std.specs.Prelude.{◌≡◌, ◌++◌, ◌⊎◌, ℕ, Bool, List};
ghost use Rattle.model.specs.Layout.{Geometry};
ghost use Rattle.model.specs.View.{View};
ghost use Rattle.ordering.specs.Cuts.{Pending, users_view};
ghost use Rattle.machine.specs.State.{State};
ghost use Rattle.machine.specs.Command.{Command, Answer};
ghost use Rattle.machine.specs.Causes.{Accepts};
ghost use Rattle.plans_data.specs.Carried.{Stands};
ghost use Rattle.courses.specs.Done.{IsDoneBy};
ghost use Rattle.kept_claims.specs.Claims.{IsMetadataClaim, GivesBytes};

/// A block that an inode claims as metadata after a command it claimed before it, or an update of the command's plan
/// gives it bytes.
pub fn plans_give_new_metadata_its_bytes()
    ensures { (geo : Geometry) (disk : View) (q : List Pending) (old : State) (safe : ℕ → Bool) → Stands geo disk q old safe
        → (command : Command) (answer : Answer) (file : ℕ) (plan : List Pending) (new : State) (safe' : ℕ → Bool)
        → Accepts geo old command → IsDoneBy geo disk q old safe command answer file plan new safe'
        → (us : List Pending) → plan ≡ us ++ q
        → (i k a : ℕ) → IsMetadataClaim geo (users_view disk plan) i k a → IsMetadataClaim geo (users_view disk q) i k a ⊎ GivesBytes us a }
{}
