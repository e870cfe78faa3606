ghost use Rattle.std.specs.Prelude.{◌≡◌, IfErr, IfOk, OnErr, OnOk};
ghost use Rattle.machine.specs.Command.{Attributes, Done, ReadAttributes, SetAttributes};
ghost use Rattle.live_states.specs.Planned.{IsRefused};
ghost use Rattle.live.specs.Durable.{StaysSoundAfter};
ghost use Rattle.live.specs.Alive.{IsFirstCause, MayRefuse};
ghost use Rattle.live.specs.Seen.{Answered, Tells};

use crate::Live;
use crate::ending::Ending;
use device::Device;
use inode::ATTRIBUTES;
use layout::Refusal;
use std::alloc::Global;

impl<D: Device> Live<D> {
    /// Gives the inode of this number these attributes. Refused with `NotFound` where no sound inode has the number.
    pub fn set_attributes(
        &mut self,
        alloc: Global,
        number: u32,
        attributes: &[u32; ATTRIBUTES],
    ) -> Result<(), Refusal>
        ensures done { OnOk result (D.honest self.old.device → Answered D.image self.old (SetAttributes number attributes.now) Done self.new) }
        ensures sound { OnOk result (D.honest self.old.device → StaysSoundAfter D.held D.image self.old (SetAttributes number attributes.now) self.new) }
        ensures refused { IfErr result (λ r. D.honest self.old.device → MayRefuse (D.image self.old.device) self.old (SetAttributes number attributes.now) r) }
        ensures cause { IfErr result (IsRefused self.old.kept (SetAttributes number attributes.now)) }
        ensures untouched { OnErr result (self.new ≡ self.old) }
        ensures device { self.new.device ≡ self.old.device }
    {
        let plan = live_attributes::set_attributes(alloc, &self.metadata, number, attributes)?;
        self.carry_out(alloc, plan.without_holds(alloc), Ending::Nothing)?;
        Ok(())
    }

    /// The attributes that the inode of this number has. Refused with `NotFound` where no sound inode has the number.
    pub fn attributes(&self, number: u32) -> Result<[u32; ATTRIBUTES], Refusal>
        ensures attributes { IfOk result (λ attributes. D.honest self.now.device → Tells D.image self.now (ReadAttributes number) (Attributes attributes)) }
        ensures refused { IfErr result (λ r. D.honest self.now.device → MayRefuse (D.image self.now.device) self.now (ReadAttributes number) r) }
        ensures cause { IfErr result (IsFirstCause self.now.kept (ReadAttributes number)) }
    {
        let frozen = self.metadata.frozen();
        if !frozen.is_sound_at(number) {
            return Err(Refusal::NotFound);
        }
        let record = frozen.record(number);
        let attributes = record.attributes;
        Ok(attributes)
    }
}
