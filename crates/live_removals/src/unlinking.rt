ghost use Rattle.std.specs.Prelude.{◌≡◌, ◌<◌, ◌≤◌, [], IfErr, IfOk, Some, length};
ghost use Rattle.std.specs.List.{All};
ghost use Rattle.frozen.specs.Kept.{frozen_view};
ghost use Rattle.machine.specs.Command.{Done, Unlink};
ghost use Rattle.metadata.specs.Shown.{Shows};
ghost use Rattle.model.specs.Layout.{block_count};
ghost use Rattle.model.specs.View.{View};
ghost use Rattle.live_paths.specs.Shown.{IsShownBy};
ghost use Rattle.live_states.specs.Holdings.{with_held};
ghost use Rattle.live_states.specs.Planned.{IsOfVolumeWith, IsPlannedWith, IsRefused};
ghost use Rattle.live_removals.specs.Entries.{IsEntry, IsFileAt, file_refusal};
ghost use Rattle.live_removals.specs.Removed.{Unlinked, Unnamed};

use crate::freeing::{lose_links, lower};
use frozen::Frozen;
use layout::Refusal;
use live_holdings::Holdings;
use live_paths::Path;
use live_plans::{Found, Plan, Planned, empty_slot, locate};
use metadata::Metadata;
use plans_naming::accepted_unlinks;
use std::alloc::{AllocError, Global};
use updates::Cells;

/// The plan by which the name of a file goes, and with its last one a file that is not open; of its blocks those are held
/// that a snapshot keeps. Refused in this order with `BadName` where the bytes are no path, with `IsRoot` for `/`, with
/// why the path leads nowhere, and with `IsDirectory` where it leads to a directory. At any time it may be refused with
/// `NoMemory`.
pub fn unlink(
    alloc: Global,
    metadata: &Metadata,
    holdings: &Holdings,
    path: &[u8],
) -> Result<Planned, Refusal>
    requires volume { IsOfVolumeWith metadata.now holdings.now }
    requires wide { block_count metadata.now.geometry ≤ length holdings.now.held }
    ensures planned { IfOk result (λ planned. IsPlannedWith metadata.now holdings.now [] (Unlink path.now) Done planned.plan (with_held holdings.now planned.holds.items)) }
    ensures holds { IfOk result (λ planned. All (λ a. a < block_count metadata.now.geometry) planned.holds.items) }
    ensures refused { IfErr result (IsRefused metadata.now (Unlink path.now)) }
{
    let parsed = Path::parse(path)?;
    let found = file_at(metadata.frozen(), &parsed)?;
    accepted_unlinks();
    if holdings.is_open(found.number) {
        Ok(unnamed(alloc, metadata, &found)?.without_holds(alloc))
    } else {
        Ok(unlinked(alloc, metadata, holdings, &found)?)
    }
}

/// The file that a path leads to. Refused with `IsRoot` for `/`, with why the path leads nowhere, and with `IsDirectory`.
pub fn file_at(frozen: &Frozen, path: &Path) -> Result<Found, Refusal>
    ensures found { IfOk result (λ found. (view : View) → IsShownBy frozen.now view → IsFileAt frozen.now.geometry view path.now found) }
    ensures refused { IfErr result (λ r. (view : View) → IsShownBy frozen.now view → file_refusal frozen.now.geometry view path.now ≡ Some r) }
{
    if path.is_root() {
        return Err(Refusal::IsRoot);
    }
    let found = locate(frozen, path)?;
    if frozen.is_directory_at(found.number) {
        return Err(Refusal::IsDirectory);
    }
    Ok(found)
}

/// The updates by which an entry goes, and a link of what it names.
pub fn unlinked(
    alloc: Global,
    metadata: &Metadata,
    holdings: &Holdings,
    found: &Found,
) -> Result<Planned, AllocError>
    requires { IsEntry metadata.now.geometry (frozen_view metadata.now) found.now }
    ensures { IfOk result (λ planned. (view : View) → Shows metadata.now view
        → Unlinked metadata.now.geometry view holdings.now found.now planned.plan planned.holds.items) }
{
    let mut plan = Plan::new(alloc, metadata.frozen().geometry(), found.number);
    let after = Cells::new(alloc);
    empty_slot(alloc, metadata, &mut plan, found, after)?;
    let holds = lose_links(
        alloc,
        metadata,
        holdings,
        &mut plan,
        found.number,
        1,
        found.block,
    )?;
    Ok(Planned { plan, holds })
}

/// The updates by which an entry goes, and a link of the open file that it names, which stays.
pub fn unnamed(alloc: Global, metadata: &Metadata, found: &Found) -> Result<Plan, AllocError>
    requires entry { IsEntry metadata.now.geometry (frozen_view metadata.now) found.now }
    requires linked { 1 ≤ ((frozen_view metadata.now).inode found.now.number).links }
    ensures { IfOk result (λ plan. (view : View) → Shows metadata.now view → Unnamed metadata.now.geometry view found.now plan) }
{
    let mut plan = Plan::new(alloc, metadata.frozen().geometry(), found.number);
    let after = Cells::new(alloc);
    empty_slot(alloc, metadata, &mut plan, found, after)?;
    lower(alloc, metadata, &mut plan, found.number, 1, found.block)?;
    Ok(plan)
}
