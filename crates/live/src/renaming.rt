ghost use Rattle.std.specs.Prelude.{◌≡◌, IfErr, OnErr, OnOk};
ghost use Rattle.machine.specs.Command.{Done, Rename};
ghost use Rattle.live_states.specs.Planned.{IsRefused};
ghost use Rattle.live.specs.Durable.{StaysSoundAfter};
ghost use Rattle.live.specs.Alive.{MayRefuse};
ghost use Rattle.live.specs.Seen.{Answered};

use crate::Live;
use crate::ending::Ending;
use device::Device;
use layout::Refusal;
use std::alloc::Global;

impl<D: Device> Live<D> {
    /// Gives an entry another name; a file's may go to another directory. Refused with `BadName` of the path and then of the
    /// other one, with `IsRoot` of the one and then of the other, with `NotFound` or `NotDirectory` where the path leads
    /// nowhere, with the same where the walk to the other name's directory ends before, with `IsDirectory` where a directory
    /// would go to another one, and with `Exists`; and where the two directories differ with `TooManyLinks`, `TooBig` and
    /// `NoBlock` as `link`.
    pub fn rename(&mut self, alloc: Global, path: &[u8], other: &[u8]) -> Result<(), Refusal>
        ensures done { OnOk result (D.honest self.old.device → Answered D.image self.old (Rename path.now other.now) Done self.new) }
        ensures sound { OnOk result (D.honest self.old.device → StaysSoundAfter D.held D.image self.old (Rename path.now other.now) self.new) }
        ensures refused { IfErr result (λ r. D.honest self.old.device → MayRefuse (D.image self.old.device) self.old (Rename path.now other.now) r) }
        ensures cause { IfErr result (IsRefused self.old.kept (Rename path.now other.now)) }
        ensures untouched { OnErr result (self.new ≡ self.old) }
        ensures device { self.new.device ≡ self.old.device }
    {
        let plan = live_renames::rename(alloc, &self.metadata, path, other)?;
        self.carry_out(alloc, plan.without_holds(alloc), Ending::Nothing)?;
        Ok(())
    }
}
