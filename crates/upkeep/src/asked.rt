//! Who carries out the commands of a volume.
ghost use Rattle.std.specs.Prelude.{◌≡◌, ◌∷◌, ◌++◌, [], List};
ghost use Rattle.upkeep.specs.Calls.{Call};

use snapshot::{Command, Reply};

/// Carries out the commands of a volume, one after another.
pub trait Asked {
    /// The commands so far, each with its reply.
    ghost calls: { Self → List Call };

    /// Carries out a command, and answers it.
    fn ask(&mut self, command: &Command) -> Reply
        ensures asked { calls self.new ≡ calls self.old ++ (command.now, result) ∷ [] };
}
