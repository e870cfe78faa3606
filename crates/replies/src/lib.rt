//! Which replies a step of the machine may give, and which of them may be refused instead: no step answers that a trace is
//! full, `NoMemory` and `Device` are no cause of the machine's, and a reply of bytes or names may be refused for want of
//! memory in its place, since nothing changed by it.
#![tactic(auto)]

ghost use Rattle.std.specs.Prelude.{◌≡◌, ◌≢◌, ℕ, Bool, List, [], ◌∷◌, Err};
ghost use Rattle.layout.specs.declared.refusal.Refusal.{Refusal};
ghost use Rattle.layout.specs.declared.refusal.Refusal.TheVariants.{Device, NoMemory, TraceFull};
ghost use Rattle.model.specs.Layout.{Geometry};
ghost use Rattle.model.specs.View.{View};
ghost use Rattle.ordering.specs.Cuts.{Pending};
ghost use Rattle.machine.specs.Causes.{FirstRefusal};
ghost use Rattle.machine.specs.Command.{Command, Reply};
ghost use Rattle.machine.specs.State.{State};
ghost use Rattle.machine.specs.Step.{Run, Step};
ghost use Rattle.courses.specs.Serves.{Service};
ghost use Rattle.replies.specs.Replies.{IsCopied};

/// The first cause that refuses a command is never the device, a full trace, or a want of memory.
pub fn no_cause_is_the_device_or_a_trace()
    ensures device { (geo : Geometry) (old : State) (command : Command) (r : Refusal) → FirstRefusal geo old command r → r ≢ Device }
    ensures trace { (geo : Geometry) (old : State) (command : Command) (r : Refusal) → FirstRefusal geo old command r → r ≢ TraceFull }
    ensures memory { (geo : Geometry) (old : State) (command : Command) (r : Refusal) → FirstRefusal geo old command r → r ≢ NoMemory }
{}

/// No step is refused because a trace is full.
pub fn no_step_refuses_for_a_full_trace()
    ensures { (geo : Geometry) (old new : State) (command : Command) → Step geo old command (Err TraceFull) new → ⊥ }
{}

/// A step that answers with bytes or names changes nothing.
pub fn bytes_and_names_change_nothing()
    ensures { (geo : Geometry) (old new : State) (command : Command) (reply : Reply) → IsCopied reply → Step geo old command reply new → new ≡ old }
{}

/// So where one command got bytes or names, it may have been refused for want of memory instead: to its users, and as
/// what the volume goes through.
pub fn bytes_and_names_may_be_refused()
    ensures run { (geo : Geometry) (old new : State) (command : Command) (reply : Reply) → IsCopied reply
        → Run geo old (command ∷ []) (reply ∷ []) new → Run geo old (command ∷ []) (Err NoMemory ∷ []) new }
    ensures service { (geo : Geometry) (disk0 : View) (q0 : List Pending) (old0 : State) (safe0 : ℕ → Bool) (disk : View) (q : List Pending)
        (new : State) (safe : ℕ → Bool)
        → (command : Command) (reply : Reply) (images : List View) → IsCopied reply
        → Service geo disk0 q0 old0 safe0 disk q new safe (command ∷ []) (reply ∷ []) images
        → Service geo disk0 q0 old0 safe0 disk q new safe (command ∷ []) (Err NoMemory ∷ []) images }
{}
