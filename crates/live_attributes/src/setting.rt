ghost use Rattle.std.specs.Prelude.{◌≡◌, IfErr, IfOk, IsTrue};
ghost use Rattle.machine.specs.Command.{Done, SetAttributes};
ghost use Rattle.metadata.specs.Shown.{Shows};
ghost use Rattle.model.specs.Layout.{is_number};
ghost use Rattle.model.specs.View.{View};
ghost use Rattle.live_states.specs.Planned.{IsOfVolume, IsPlanned, IsRefused};
ghost use Rattle.live_attributes.specs.Attributed.{Attributed};

use inode::ATTRIBUTES;
use layout::Refusal;
use live_plans::Plan;
use metadata::Metadata;
use std::alloc::{AllocError, Global};
use updates::Cells;

/// The plan by which the inode of this number gets these attributes, and nothing else of it changes. Refused with `NotFound`
/// where no sound inode has the number. `NoMemory` comes at any time.
pub fn set_attributes(
    alloc: Global,
    metadata: &Metadata,
    number: u32,
    attributes: &[u32; ATTRIBUTES],
) -> Result<Plan, Refusal>
    requires { IsOfVolume metadata.now }
    ensures planned { IfOk result (λ plan. IsPlanned metadata.now (SetAttributes number attributes.now) Done plan) }
    ensures refused { IfErr result (IsRefused metadata.now (SetAttributes number attributes.now)) }
{
    if !metadata.frozen().is_sound_at(number) {
        return Err(Refusal::NotFound);
    }
    Ok(attributed(alloc, metadata, number, attributes)?)
}

/// The update by which a number's record gets these attributes.
fn attributed(
    alloc: Global,
    metadata: &Metadata,
    number: u32,
    attributes: &[u32; ATTRIBUTES],
) -> Result<Plan, AllocError>
    requires { IsTrue (is_number metadata.now.geometry number) }
    ensures { IfOk result (λ plan. (view : View) → Shows metadata.now view → Attributed metadata.now.geometry view number attributes.now plan) }
{
    let frozen = metadata.frozen();
    let mut plan = Plan::new(alloc, frozen.geometry(), number);
    let mut record = frozen.record(number);
    let given = *attributes;
    record.attributes = given;
    plan.set_record(alloc, number, record, Cells::new(alloc))?;
    Ok(plan)
}
