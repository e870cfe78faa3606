ghost use Rattle.std.specs.Prelude.{◌≡◌, ◌<◌, IfErr, IfOk, Some};
ghost use Rattle.frozen.specs.Kept.{frozen_view};
ghost use Rattle.machine.specs.Below.{first_of};
ghost use Rattle.machine.specs.Command.{Done, Link};
ghost use Rattle.metadata.specs.Shown.{Shows};
ghost use Rattle.model.specs.View.{View};
ghost use Rattle.live_paths.specs.Shown.{IsShownBy};
ghost use Rattle.live_states.specs.Planned.{IsOfVolume, IsPlanned, IsRefused};
ghost use Rattle.live_creations.specs.Named.{IsFile, MayEnter, leading};
ghost use Rattle.live_creations.specs.Made.{Linked};

use crate::placing::{MOST_LINKS, directory_for};
use frozen::Frozen;
use layout::Refusal;
use live_paths::{Path, target};
use live_places::choose;
use live_plans::{NewEntry, Plan, enter};
use metadata::Metadata;
use std::alloc::{AllocError, Global};
use updates::Cells;

/// The plan by which the file that a path leads to gets another name.
///
/// Refused in this order: with `BadName` where `path` or `other` is no path; with `IsRoot` where `other` is `/`; with
/// `NotDirectory` or `NotFound` where `path` leads nowhere; with `IsDirectory` where it leads to a directory; with
/// `NotDirectory` or `NotFound` where the walk to the directory of `other` ends before; with `Exists` where that name is
/// there; with `TooManyLinks` where the file has 32,767 links or more; with `TooBig` where the directory is full; with
/// `NoBlock` where fewer data blocks are unmarked than the new entry takes. `NoMemory` comes at any time.
pub fn link(alloc: Global, metadata: &Metadata, path: &[u8], other: &[u8]) -> Result<Plan, Refusal>
    requires { IsOfVolume metadata.now }
    ensures planned { IfOk result (IsPlanned metadata.now (Link path.now other.now) Done) }
    ensures refused { IfErr result (IsRefused metadata.now (Link path.now other.now)) }
{
    let from = Path::parse(path)?;
    let to = Path::parse(other)?;
    if to.is_root() {
        return Err(Refusal::IsRoot);
    }
    let number = file_at(metadata.frozen(), &from)?;
    let directory = directory_for(metadata.frozen(), &to)?;
    if metadata.frozen().record(number).links >= MOST_LINKS {
        return Err(Refusal::TooManyLinks);
    }
    let places = choose(metadata, directory, false)?;
    let new = NewEntry {
        directory,
        parent: metadata.frozen().record(directory),
        number,
        name: to.name(),
        place: places.place,
    };
    Ok(linked(alloc, metadata, &new)?)
}

/// The file that a path leads to. Refused with why the path leads nowhere, and with `IsDirectory`.
pub fn file_at(frozen: &Frozen, path: &Path) -> Result<u32, Refusal>
    ensures found { IfOk result (λ i. (view : View) → IsShownBy frozen.now view → IsFile frozen.now.geometry view path.now i) }
    ensures refused { IfErr result (λ r. (view : View) → IsShownBy frozen.now view → first_of (leading frozen.now.geometry view path.now) ≡ Some r) }
{
    let number = target(frozen, path)?;
    if frozen.is_directory_at(number) {
        return Err(Refusal::IsDirectory);
    }
    Ok(number)
}

/// The updates by which the number of an entry gets a link more, and the entry is made.
fn linked(alloc: Global, metadata: &Metadata, new: &NewEntry) -> Result<Plan, AllocError>
    requires volume { IsOfVolume metadata.now }
    requires entry { MayEnter metadata.now new.now }
    requires links { ((frozen_view metadata.now).inode new.now.number).links < 32767 }
    ensures { IfOk result (λ plan. (view : View) → Shows metadata.now view → Linked metadata.now.geometry view new.now plan) }
{
    let frozen = metadata.frozen();
    let mut plan = Plan::new(alloc, frozen.geometry(), new.number);
    let mut raised = frozen.record(new.number);
    raised.links += 1;
    plan.set_record(alloc, new.number, raised, Cells::new(alloc))?;
    enter(alloc, metadata, &mut plan, new)?;
    Ok(plan)
}
