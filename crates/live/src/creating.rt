ghost use Rattle.std.specs.Prelude.{◌≡◌, IfErr, IfOk, OnErr, OnOk};
ghost use Rattle.machine.specs.Command.{Create, Done, Link, Mkdir, Number};
ghost use Rattle.live_states.specs.Planned.{IsRefused};
ghost use Rattle.live.specs.Durable.{StaysSoundAfter};
ghost use Rattle.live.specs.Alive.{MayRefuse};
ghost use Rattle.live.specs.Seen.{Answered};

use crate::Live;
use crate::ending::Ending;
use device::Device;
use inode::ATTRIBUTES;
use layout::Refusal;
use std::alloc::Global;

impl<D: Device> Live<D> {
    /// Creates a file with these attributes and without bytes, and gives its number. Refused with `BadName` where this is no
    /// path, with `IsRoot`, with `NotFound` or `NotDirectory` where the walk to the last part ends before, with `Exists`,
    /// with `NoInode` where each number is marked, with `TooBig` where the directory is full, and with `NoBlock` where it
    /// needs more blocks than are unmarked.
    pub fn create(
        &mut self,
        alloc: Global,
        path: &[u8],
        attributes: &[u32; ATTRIBUTES],
    ) -> Result<u32, Refusal>
        ensures done { IfOk result (λ number. D.honest self.old.device → Answered D.image self.old (Create path.now attributes.now) (Number number) self.new) }
        ensures sound { OnOk result (D.honest self.old.device → StaysSoundAfter D.held D.image self.old (Create path.now attributes.now) self.new) }
        ensures refused { IfErr result (λ r. D.honest self.old.device → MayRefuse (D.image self.old.device) self.old (Create path.now attributes.now) r) }
        ensures cause { IfErr result (IsRefused self.old.kept (Create path.now attributes.now)) }
        ensures untouched { OnErr result (self.new ≡ self.old) }
        ensures device { self.new.device ≡ self.old.device }
    {
        let plan = live_creations::create(alloc, &self.metadata, path, attributes)?;
        let number = plan.file();
        self.carry_out(alloc, plan.without_holds(alloc), Ending::Nothing)?;
        Ok(number)
    }

    /// Makes an empty directory with these attributes, and gives its number. Refused as `create`, and, after `Exists`, with `TooManyLinks` where
    /// its parent has 32,767 links; it needs a block for its dots too.
    pub fn mkdir(
        &mut self,
        alloc: Global,
        path: &[u8],
        attributes: &[u32; ATTRIBUTES],
    ) -> Result<u32, Refusal>
        ensures done { IfOk result (λ number. D.honest self.old.device → Answered D.image self.old (Mkdir path.now attributes.now) (Number number) self.new) }
        ensures sound { OnOk result (D.honest self.old.device → StaysSoundAfter D.held D.image self.old (Mkdir path.now attributes.now) self.new) }
        ensures refused { IfErr result (λ r. D.honest self.old.device → MayRefuse (D.image self.old.device) self.old (Mkdir path.now attributes.now) r) }
        ensures cause { IfErr result (IsRefused self.old.kept (Mkdir path.now attributes.now)) }
        ensures untouched { OnErr result (self.new ≡ self.old) }
        ensures device { self.new.device ≡ self.old.device }
    {
        let plan = live_creations::mkdir(alloc, &self.metadata, path, attributes)?;
        let number = plan.file();
        self.carry_out(alloc, plan.without_holds(alloc), Ending::Nothing)?;
        Ok(number)
    }

    /// Gives the file of a path another name too. Refused with `BadName` of the path and then of the other one, with
    /// `IsRoot` of the other one, with `NotFound` or `NotDirectory` where the path leads nowhere, with `IsDirectory`
    /// where it leads to a directory, with `NotFound` or `NotDirectory` where the walk to the other name's directory ends
    /// before, with `Exists`, with `TooManyLinks` where the file has 32,767 links, with `TooBig`, and with `NoBlock`.
    pub fn link(&mut self, alloc: Global, path: &[u8], other: &[u8]) -> Result<(), Refusal>
        ensures done { OnOk result (D.honest self.old.device → Answered D.image self.old (Link path.now other.now) Done self.new) }
        ensures sound { OnOk result (D.honest self.old.device → StaysSoundAfter D.held D.image self.old (Link path.now other.now) self.new) }
        ensures refused { IfErr result (λ r. D.honest self.old.device → MayRefuse (D.image self.old.device) self.old (Link path.now other.now) r) }
        ensures cause { IfErr result (IsRefused self.old.kept (Link path.now other.now)) }
        ensures untouched { OnErr result (self.new ≡ self.old) }
        ensures device { self.new.device ≡ self.old.device }
    {
        let plan = live_creations::link(alloc, &self.metadata, path, other)?;
        self.carry_out(alloc, plan.without_holds(alloc), Ending::Nothing)?;
        Ok(())
    }
}
