ghost use Rattle.std.specs.Prelude.{◌≡◌, IfErr, OnErr, OnOk};
ghost use Rattle.machine.specs.Command.{Done, RepairAt};
ghost use Rattle.live_states.specs.Planned.{IsRefusedWith};
ghost use Rattle.live.specs.Durable.{StaysSoundAfter};
ghost use Rattle.live.specs.Alive.{MayRefuse};
ghost use Rattle.live.specs.Seen.{Answered};

use crate::Live;
use crate::ending::Ending;
use device::Device;
use layout::Refusal;
use std::alloc::Global;

impl<D: Device> Live<D> {
    /// Carries out a repair of the check that is installed, by its place in its list: an inode that nothing
    /// reaches loses its links, one that counts too many loses those, and goes where none is left and no handle is open on it; a block or a
    /// number that nothing uses is unmarked. Refused with `NoPlan` where no check is installed, with `BadIndex` where it
    /// has no such repair, and with `AlreadyDone`.
    pub fn repair(&mut self, alloc: Global, place: u32) -> Result<(), Refusal>
        ensures done { OnOk result (D.honest self.old.device → Answered D.image self.old (RepairAt place) Done self.new) }
        ensures sound { OnOk result (D.honest self.old.device → StaysSoundAfter D.held D.image self.old (RepairAt place) self.new) }
        ensures refused { IfErr result (λ r. D.honest self.old.device → MayRefuse (D.image self.old.device) self.old (RepairAt place) r) }
        ensures cause { IfErr result (IsRefusedWith self.old.kept self.old.holdings (RepairAt place)) }
        ensures untouched { OnErr result (self.new ≡ self.old) }
        ensures device { self.new.device ≡ self.old.device }
    {
        let planned = live_repairs::repair(alloc, &self.metadata, &self.holdings, place)?;
        self.carry_out(alloc, planned, Ending::Repair(place))?;
        Ok(())
    }
}
