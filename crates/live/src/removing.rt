ghost use Rattle.std.specs.Prelude.{◌≡◌, IfErr, OnErr, OnOk};
ghost use Rattle.machine.specs.Command.{Done, Rmdir, Unlink};
ghost use Rattle.live_states.specs.Planned.{IsRefused};
ghost use Rattle.live.specs.Durable.{StaysSoundAfter};
ghost use Rattle.live.specs.Alive.{MayRefuse};
ghost use Rattle.live.specs.Seen.{Answered};

use crate::Live;
use crate::ending::Ending;
use device::Device;
use layout::Refusal;
use std::alloc::Global;

impl<D: Device> Live<D> {
    /// Takes a name from a file; with its last one a file that is not open goes, and its blocks are free. Refused with
    /// `BadName` where this is no path, with `IsRoot`, with `NotFound` or `NotDirectory` where it leads nowhere, and with
    /// `IsDirectory` where it leads to a directory.
    pub fn unlink(&mut self, alloc: Global, path: &[u8]) -> Result<(), Refusal>
        ensures done { OnOk result (D.honest self.old.device → Answered D.image self.old (Unlink path.now) Done self.new) }
        ensures sound { OnOk result (D.honest self.old.device → StaysSoundAfter D.held D.image self.old (Unlink path.now) self.new) }
        ensures refused { IfErr result (λ r. D.honest self.old.device → MayRefuse (D.image self.old.device) self.old (Unlink path.now) r) }
        ensures cause { IfErr result (IsRefused self.old.kept (Unlink path.now)) }
        ensures untouched { OnErr result (self.new ≡ self.old) }
        ensures device { self.new.device ≡ self.old.device }
    {
        let planned = live_removals::unlink(alloc, &self.metadata, &self.holdings, path)?;
        self.carry_out(alloc, planned, Ending::Nothing)?;
        Ok(())
    }

    /// Removes a directory that has no names. Refused with `BadName` where this is no path, with `IsRoot`, with `NotFound`
    /// or `NotDirectory` where it leads nowhere, with `NotDirectory` where it leads to a file, and with `NotEmpty`.
    pub fn rmdir(&mut self, alloc: Global, path: &[u8]) -> Result<(), Refusal>
        ensures done { OnOk result (D.honest self.old.device → Answered D.image self.old (Rmdir path.now) Done self.new) }
        ensures sound { OnOk result (D.honest self.old.device → StaysSoundAfter D.held D.image self.old (Rmdir path.now) self.new) }
        ensures refused { IfErr result (λ r. D.honest self.old.device → MayRefuse (D.image self.old.device) self.old (Rmdir path.now) r) }
        ensures cause { IfErr result (IsRefused self.old.kept (Rmdir path.now)) }
        ensures untouched { OnErr result (self.new ≡ self.old) }
        ensures device { self.new.device ≡ self.old.device }
    {
        let planned = live_removals::rmdir(alloc, &self.metadata, &self.holdings, path)?;
        self.carry_out(alloc, planned, Ending::Nothing)?;
        Ok(())
    }
}
