ghost use Rattle.std.specs.Prelude.{◌≡◌, IfErr, IfOk};
ghost use Rattle.machine.specs.Command.{Create, Number};
ghost use Rattle.metadata.specs.Shown.{Shows};
ghost use Rattle.model.specs.View.{View};
ghost use Rattle.live_states.specs.Planned.{IsOfVolume, IsPlanned, IsRefused};
ghost use Rattle.live_creations.specs.Named.{MayEnter};
ghost use Rattle.live_creations.specs.Made.{Created};

use crate::placing::directory_for;
use inode::{ATTRIBUTES, DIRECT_POINTERS, FILE, Record};
use layout::Refusal;
use live_paths::Path;
use live_places::choose;
use live_plans::{NewEntry, Plan, enter};
use metadata::Metadata;
use smallvec::smallvec;
use std::alloc::{AllocError, Global};
use updates::{Cell, Cells, Change};

/// The plan by which a file is created with these attributes; its number is the plan's file.
///
/// Refused in this order: with `BadName` where the bytes are no path; with `IsRoot` for `/`; with `NotDirectory` or
/// `NotFound` where the walk to the directory ends before; with `Exists` where the name is there; with `NoInode` where
/// each number is marked; with `TooBig` where the directory is full; with `NoBlock` where fewer data blocks are unmarked
/// than the new entry takes. `NoMemory` comes at any time.
pub fn create(
    alloc: Global,
    metadata: &Metadata,
    path: &[u8],
    attributes: &[u32; ATTRIBUTES],
) -> Result<Plan, Refusal>
    requires { IsOfVolume metadata.now }
    ensures planned { IfOk result (λ plan. IsPlanned metadata.now (Create path.now attributes.now) (Number plan.file) plan) }
    ensures refused { IfErr result (IsRefused metadata.now (Create path.now attributes.now)) }
{
    let parsed = Path::parse(path)?;
    let directory = directory_for(metadata.frozen(), &parsed)?;
    let Some(number) = metadata.least_number() else {
        return Err(Refusal::NoInode);
    };
    let places = choose(metadata, directory, false)?;
    let new = NewEntry {
        directory,
        parent: metadata.frozen().record(directory),
        number,
        name: parsed.name(),
        place: places.place,
    };
    Ok(created(alloc, metadata, &new, attributes)?)
}

/// The updates by which the number of an entry becomes a new file with these attributes, and the entry is made.
fn created(
    alloc: Global,
    metadata: &Metadata,
    new: &NewEntry,
    attributes: &[u32; ATTRIBUTES],
) -> Result<Plan, AllocError>
    requires volume { IsOfVolume metadata.now }
    requires entry { MayEnter metadata.now new.now }
    ensures { IfOk result (λ plan. (view : View) → Shows metadata.now view → Created metadata.now.geometry view new.now attributes.now plan) }
{
    let mut plan = Plan::new(alloc, metadata.frozen().geometry(), new.number);
    plan.push(Change::SetNumber(new.number, true), Cells::new(alloc))?;
    let given = *attributes;
    let file = Record {
        mode: FILE,
        links: 1,
        size: 0,
        direct: [0; DIRECT_POINTERS],
        indirect: 0,
        double: 0,
        attributes: given,
    };
    let after = smallvec![in alloc; Cell::NumberBit(new.number)]?;
    plan.set_record(alloc, new.number, file, after)?;
    enter(alloc, metadata, &mut plan, new)?;
    Ok(plan)
}
