ghost use Rattle.std.specs.Prelude.{◌≡◌, ◌<◌, ◌≤◌, [], IfErr, IfOk, IsTrue, length};
ghost use Rattle.std.specs.List.{All};
ghost use Rattle.frozen.specs.Kept.{frozen_view};
ghost use Rattle.machine.specs.Command.{Close, Done, Truncate};
ghost use Rattle.metadata.specs.Shown.{Shows};
ghost use Rattle.model.specs.Layout.{block_count, is_number};
ghost use Rattle.model.specs.View.{View};
ghost use Rattle.live_holdings.specs.Handles.{closed};
ghost use Rattle.live_states.specs.Holdings.{with_held};
ghost use Rattle.live_states.specs.Planned.{IsOfVolumeWith, IsPlannedWith, IsRefusedWith};
ghost use Rattle.live_removals.specs.Shortened.{LetsGo, Shortens};

use crate::freeing::{free, give_up};
use inode::{Record, blocks_of_size};
use layout::Refusal;
use live_holdings::Holdings;
use live_plans::{Plan, Planned};
use metadata::Metadata;
use std::alloc::{AllocError, Global};
use updates::Cells;

/// The plan by which a handle is closed, and with its last one a file that has no names goes; of its blocks those are held
/// that a snapshot keeps. A file that stays needs no updates. Refused with `BadHandle` where the handle is not open. At
/// any time it may be refused with `NoMemory`.
pub fn close(
    alloc: Global,
    metadata: &Metadata,
    holdings: &Holdings,
    handle: u32,
) -> Result<Planned, Refusal>
    requires volume { IsOfVolumeWith metadata.now holdings.now }
    requires wide { block_count metadata.now.geometry ≤ length holdings.now.held }
    ensures planned { IfOk result (λ planned. IsPlannedWith metadata.now holdings.now [] (Close handle) Done planned.plan (with_held (closed holdings.now handle) planned.holds.items)) }
    ensures holds { IfOk result (λ planned. All (λ a. a < block_count metadata.now.geometry) planned.holds.items) }
    ensures refused { IfErr result (IsRefusedWith metadata.now holdings.now (Close handle)) }
{
    match holdings.file_of(handle) {
        Some(number) => Ok(let_go(alloc, metadata, holdings, handle, number)?),
        None => Err(Refusal::BadHandle),
    }
}

/// The plan by which an open file gets a size that is no larger than its own; of the blocks behind it those are held that
/// a snapshot keeps. Refused with `BadHandle` where the handle is not open, and then with `BadIndex` where the size is
/// larger. At any time it may be refused with `NoMemory`.
pub fn truncate(
    alloc: Global,
    metadata: &Metadata,
    holdings: &Holdings,
    handle: u32,
    size: u32,
) -> Result<Planned, Refusal>
    requires volume { IsOfVolumeWith metadata.now holdings.now }
    requires wide { block_count metadata.now.geometry ≤ length holdings.now.held }
    ensures planned { IfOk result (λ planned. IsPlannedWith metadata.now holdings.now [] (Truncate handle size) Done planned.plan (with_held holdings.now planned.holds.items)) }
    ensures holds { IfOk result (λ planned. All (λ a. a < block_count metadata.now.geometry) planned.holds.items) }
    ensures refused { IfErr result (IsRefusedWith metadata.now holdings.now (Truncate handle size)) }
{
    match holdings.file_of(handle) {
        Some(number) if size <= metadata.frozen().record(number).size => {
            Ok(shortened(alloc, metadata, holdings, number, size)?)
        }
        Some(_) => Err(Refusal::BadIndex),
        None => Err(Refusal::BadHandle),
    }
}

/// The updates by which a file goes with this handle, and the blocks that are held then; none where the file has links, or
/// is open by another handle.
pub fn let_go(
    alloc: Global,
    metadata: &Metadata,
    holdings: &Holdings,
    handle: u32,
    number: u32,
) -> Result<Planned, AllocError>
    requires { IsTrue (is_number metadata.now.geometry number) }
    ensures { IfOk result (λ planned. (view : View) → Shows metadata.now view
        → LetsGo metadata.now.geometry view holdings.now handle number planned.plan planned.holds.items) }
{
    let frozen = metadata.frozen();
    let mut plan = Plan::new(alloc, frozen.geometry(), number);
    if frozen.record(number).links > 0 || holdings.is_open_besides(number, handle) {
        return Ok(plan.without_holds(alloc));
    }
    let after = Cells::new(alloc);
    let holds = free(alloc, frozen, holdings, &mut plan, number, after)?;
    Ok(Planned { plan, holds })
}

/// The updates by which a file gets this size, and the blocks that are held then.
pub fn shortened(
    alloc: Global,
    metadata: &Metadata,
    holdings: &Holdings,
    number: u32,
    size: u32,
) -> Result<Planned, AllocError>
    requires { IsTrue (is_number metadata.now.geometry number) }
    ensures { IfOk result (λ planned. (view : View) → Shows metadata.now view
        → Shortens metadata.now.geometry view holdings.now number size planned.plan planned.holds.items) }
{
    let frozen = metadata.frozen();
    let mut plan = Plan::new(alloc, frozen.geometry(), number);
    let mut record = frozen.record(number);
    record.size = size;
    plan.set_record(alloc, number, record, Cells::new(alloc))?;
    let left = blocks_of_size(size);
    let holds = give_up(alloc, frozen, holdings, &mut plan, number, left)?;
    Ok(Planned { plan, holds })
}
