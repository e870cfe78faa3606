ghost use Rattle.std.specs.Prelude.{◌≡◌, ◌<◌, ◌≤◌, ◌++◌, ℕ, IfErr, IfOk, IsFalse, IsTrue, List, None, Ok, OnOk, Some, length, map, true};
ghost use Rattle.std.specs.List.{All};
ghost use Rattle.std.specs.Result.{result_err};
ghost use Rattle.frozen.specs.Kept.{frozen_view};
ghost use Rattle.model.specs.Layout.{is_number, root};
ghost use Rattle.model.specs.View.{View};
ghost use Rattle.machine.specs.Below.{first_of};
ghost use Rattle.machine.specs.Paths.{last_part, walk as machine_walk};
ghost use Rattle.metadata.specs.Shown.{Shows};
ghost use Rattle.ordering.specs.Cuts.{Block as BlockCell};
ghost use Rattle.plans_naming.specs.Link.{raised};
ghost use Rattle.plans_naming.specs.Move.{left};
ghost use Rattle.updates.specs.Places.{IsCell};
ghost use Rattle.updates.specs.Values.{cell};
ghost use Rattle.live_paths.specs.Shown.{IsShownBy};
ghost use Rattle.live_places.specs.Chosen.{IsPlace};
ghost use Rattle.live_states.specs.Drafts.{GoesOn};
ghost use Rattle.live_plans.specs.Found.{IsFoundAt};
ghost use Rattle.live_states.specs.Planned.{IsOfVolume};
ghost use Rattle.live_renames.specs.Refused.{AreEnds, late, taken};
ghost use Rattle.live_renames.specs.Moved.{AreFirst, IsMoved, MayEnter};

use crate::grounds::add_grounds;
use crate::renaming::Ends;
use frozen::Frozen;
use layout::Refusal;
use live_paths::{Path, find};
use live_places::{Place, Tables, choose};
use live_plans::{Found, NewEntry, Plan, empty_slot, enter};
use metadata::Metadata;
use std::alloc::{AllocError, Global};
use updates::{Cell, Cells};

/// How many links an inode has at most.
const MOST_LINKS: u16 = 32767;

/// Where the entry goes that gives a file of another directory a new name in this one; or the first cause by which it
/// gets none: `IsDirectory`, `Exists`, `TooManyLinks`, `TooBig` or `NoBlock`.
pub(crate) fn permit(
    metadata: &Metadata,
    number: u32,
    directory: u32,
    to: &Path,
) -> Result<Place, Refusal>
    requires number { IsTrue (is_number metadata.now.geometry number) }
    requires directory { machine_walk metadata.now.geometry (frozen_view metadata.now) root to.now ≡ Ok directory }
    ensures refused { IfErr result (λ r. (view : View) → IsShownBy metadata.now view
        → first_of (late metadata.now.geometry view to.now number directory true) ≡ Some r) }
    ensures permitted { IfOk result (λ place. (view : View) → IsShownBy metadata.now view
        → first_of (late metadata.now.geometry view to.now number directory true) ≡ None) }
    ensures place { IfOk result (MayEnter metadata.now number directory) }
{
    let frozen = metadata.frozen();
    if frozen.is_directory_at(number) {
        return Err(Refusal::IsDirectory);
    }
    refuse_taken(frozen, directory, to)?;
    if frozen.record(number).links >= MOST_LINKS {
        return Err(Refusal::TooManyLinks);
    }
    let places = choose(metadata, directory, false)?;
    Ok(places.place)
}

/// Refuses with `Exists` a name that stands in its directory already.
pub fn refuse_taken(frozen: &Frozen, directory: u32, to: &Path) -> Result<(), Refusal>
    ensures { (view : View) → IsShownBy frozen.now view → machine_walk frozen.now.geometry view root to.now ≡ Ok directory
        → result_err result ≡ taken frozen.now.geometry view to.now }
{
    match find(frozen, directory, to.name()) {
        Some(_) => Err(Refusal::Exists),
        None => Ok(()),
    }
}

/// The plan that gives a file a name in another directory, in this place, in place of the one that it has.
pub(crate) fn move_to(
    alloc: Global,
    metadata: &Metadata,
    ends: &Ends,
    to: &Path,
    place: Place,
) -> Result<Plan, AllocError>
    requires volume { IsOfVolume metadata.now }
    requires ends { (ps : List (List ℕ)) × AreEnds metadata.now.geometry (frozen_view metadata.now) ps to.now ends.now }
    requires place { MayEnter metadata.now ends.now.found.number ends.now.directory place }
    ensures { IfOk result (IsMoved metadata.now ends.now to.now place) }
{
    let frozen = metadata.frozen();
    let number = ends.found.number;
    let mut plan = Plan::new(alloc, frozen.geometry(), number);
    raise(alloc, metadata, &mut plan, number)?;
    let new = NewEntry {
        directory: ends.directory,
        parent: frozen.record(ends.directory),
        number,
        name: to.name(),
        place,
    };
    enter(alloc, metadata, &mut plan, &new)?;
    let after = first_cells(alloc, frozen, to, &new.place)?;
    leave(alloc, metadata, &mut plan, &ends.found, after)?;
    Ok(plan)
}

/// Adds the update that gives a number a link more, after nothing.
fn raise(alloc: Global, metadata: &Metadata, plan: &mut Plan, number: u32) -> Result<(), AllocError>
    requires geometry { plan.old.geometry ≡ metadata.now.geometry }
    requires number { IsTrue (is_number metadata.now.geometry number) }
    requires links { ((frozen_view metadata.now).inode number).links < 32767 }
    ensures { OnOk result (GoesOn plan.old plan.new (raised number ((frozen_view metadata.now).inode number))) }
{
    let mut record = metadata.frozen().record(number);
    record.links += 1;
    plan.set_record(alloc, number, record, Cells::new(alloc))
}

/// The cells that come before an old name goes: the block of the new entry in this place, and the grounds of its
/// directory, with the new tables that it is to get.
fn first_cells(
    alloc: Global,
    frozen: &Frozen,
    to: &Path,
    place: &Place,
) -> Result<Cells, AllocError>
    requires walk { (d : ℕ) × (machine_walk frozen.now.geometry (frozen_view frozen.now) root to.now ≡ Ok d) }
    requires place { (d : ℕ) × IsPlace frozen.now.geometry (frozen_view frozen.now) d place.now }
    ensures cells { IfOk result (λ cells. All (IsCell frozen.now.geometry) (map cell cells.items)) }
    ensures first { IfOk result (λ cells. AreFirst frozen.now.geometry (frozen_view frozen.now) to.now place.now (map cell cells.items)) }
{
    let mut cells = Cells::new(alloc);
    match *place {
        Place::Slot { block, .. } => cells.push(Cell::Block(block))?,
        Place::NewBlock { block, tables } => {
            cells.push(Cell::Block(block))?;
            add_tables(tables, &mut cells)?;
        }
    }
    add_grounds(frozen, to, &mut cells)?;
    Ok(cells)
}

/// Adds the block of each of these tables, behind these cells.
fn add_tables(tables: Tables, cells: &mut Cells) -> Result<(), AllocError>
    ensures { OnOk result (map cell cells.new.items ≡ map cell cells.old.items ++ map BlockCell tables) }
{
    let Some(table) = tables.first() else {
        return Ok(());
    };
    cells.push(Cell::Block(table))?;
    add_tables(tables.rest(), cells)
}

/// Adds the updates by which a file loses the name that was found, after these cells: the slot is emptied, and then the
/// file gets its record as it was.
fn leave(
    alloc: Global,
    metadata: &Metadata,
    plan: &mut Plan,
    found: &Found,
    after: Cells,
) -> Result<(), AllocError>
    requires geometry { plan.old.geometry ≡ metadata.now.geometry }
    requires found { (ps : List (List ℕ)) × IsFoundAt metadata.now.geometry (frozen_view metadata.now) ps found.now }
    requires after { All (IsCell plan.old.geometry) (map cell after.items) }
    ensures { OnOk result ((view : View) → Shows metadata.now view
        → GoesOn plan.old plan.new (left found.now.number (view.inode found.now.number) found.now.block (view.bytes found.now.block) found.now.slot (map cell after.items))) }
{
    empty_slot(alloc, metadata, plan, found, after)?;
    let mut emptied = Cells::new(alloc);
    emptied.push(Cell::Block(found.block))?;
    let record = metadata.frozen().record(found.number);
    plan.set_record(alloc, found.number, record, emptied)?;
    Ok(())
}
