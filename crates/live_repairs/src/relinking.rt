ghost use Rattle.std.specs.Prelude.{◌≡◌, ◌-◌, IfOk, IsTrue};
ghost use Rattle.metadata.specs.Shown.{Shows};
ghost use Rattle.model.specs.Layout.{is_number};
ghost use Rattle.model.specs.View.{View};
ghost use Rattle.live_repairs.specs.Repaired.{Relinks};

use live_holdings::Holdings;
use live_plans::{Plan, Planned};
use live_removals::free;
use metadata::Metadata;
use std::alloc::{AllocError, Global};
use updates::Cells;

/// The plan by which an inode that nothing reaches loses all its links: it is freed, unless it is open.
pub fn drop_inode(
    alloc: Global,
    metadata: &Metadata,
    holdings: &Holdings,
    number: u32,
) -> Result<Planned, AllocError>
    requires { IsTrue (is_number metadata.now.geometry number) }
    ensures { IfOk result (λ planned. (view : View) → Shows metadata.now view
        → Relinks metadata.now.geometry view holdings.now number 0 planned.plan planned.holds.items) }
{
    relink(alloc, metadata, holdings, number, 0)
}

/// The plan by which an inode has so many links less, or none where it has no more: then it is freed, unless it is open.
pub fn lower_count(
    alloc: Global,
    metadata: &Metadata,
    holdings: &Holdings,
    number: u32,
    fewer: u32,
) -> Result<Planned, AllocError>
    requires { IsTrue (is_number metadata.now.geometry number) }
    ensures { IfOk result (λ planned. (view : View) → Shows metadata.now view
        → Relinks metadata.now.geometry view holdings.now number ((view.inode number).links - fewer) planned.plan planned.holds.items) }
{
    let record = metadata.frozen().record(number);
    let links = u32::from(record.links).saturating_sub(fewer);
    relink(alloc, metadata, holdings, number, links as u16)
}

/// The plan by which an inode has this number of links. Where that is 0 and no handle is open on it, it is freed with its
/// number and its blocks, of which those are held that a snapshot keeps.
fn relink(
    alloc: Global,
    metadata: &Metadata,
    holdings: &Holdings,
    number: u32,
    links: u16,
) -> Result<Planned, AllocError>
    requires { IsTrue (is_number metadata.now.geometry number) }
    ensures { IfOk result (λ planned. (view : View) → Shows metadata.now view
        → Relinks metadata.now.geometry view holdings.now number links planned.plan planned.holds.items) }
{
    let frozen = metadata.frozen();
    let mut plan = Plan::new(alloc, frozen.geometry(), number);
    let after = Cells::new(alloc);
    if links == 0 && !holdings.is_open(number) {
        let holds = free(alloc, frozen, holdings, &mut plan, number, after)?;
        return Ok(Planned { plan, holds });
    }
    let mut record = frozen.record(number);
    record.links = links;
    plan.set_record(alloc, number, record, after)?;
    Ok(plan.without_holds(alloc))
}
