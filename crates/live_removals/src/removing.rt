ghost use Rattle.std.specs.Prelude.{◌≡◌, ◌<◌, ◌≤◌, [], IfErr, IfOk, Some, length};
ghost use Rattle.std.specs.List.{All};
ghost use Rattle.frozen.specs.Kept.{frozen_view};
ghost use Rattle.machine.specs.Command.{Done, Rmdir};
ghost use Rattle.metadata.specs.Shown.{Shows};
ghost use Rattle.model.specs.Layout.{block_count};
ghost use Rattle.model.specs.View.{View};
ghost use Rattle.live_paths.specs.Shown.{IsShownBy};
ghost use Rattle.live_states.specs.Holdings.{with_held};
ghost use Rattle.live_states.specs.Planned.{IsOfVolumeWith, IsPlannedWith, IsRefused};
ghost use Rattle.live_removals.specs.Entries.{IsDirectoryAt, IsEntry, directory_refusal};
ghost use Rattle.live_removals.specs.Removed.{Removed};

use crate::freeing::{lose_links, lower};
use frozen::Frozen;
use layout::Refusal;
use live_holdings::Holdings;
use live_paths::{Path, has_names};
use live_plans::{Found, Plan, Planned, add_blocks, empty_slot, locate};
use metadata::Metadata;
use plans_naming::accepted_removals;
use std::alloc::{AllocError, Global};
use updates::Cells;

/// The plan by which a directory without names goes, with its name; of its blocks those are held that a snapshot keeps.
/// Refused in this order with `BadName` where the bytes are no path, with `IsRoot` for `/`, with why the path leads
/// nowhere, with `NotDirectory` where it leads to a file, and with `NotEmpty` where the directory has a name besides its
/// dots. At any time it may be refused with `NoMemory`.
pub fn rmdir(
    alloc: Global,
    metadata: &Metadata,
    holdings: &Holdings,
    path: &[u8],
) -> Result<Planned, Refusal>
    requires volume { IsOfVolumeWith metadata.now holdings.now }
    requires wide { block_count metadata.now.geometry ≤ length holdings.now.held }
    ensures planned { IfOk result (λ planned. IsPlannedWith metadata.now holdings.now [] (Rmdir path.now) Done planned.plan (with_held holdings.now planned.holds.items)) }
    ensures holds { IfOk result (λ planned. All (λ a. a < block_count metadata.now.geometry) planned.holds.items) }
    ensures refused { IfErr result (IsRefused metadata.now (Rmdir path.now)) }
{
    let parsed = Path::parse(path)?;
    let found = directory_at(metadata.frozen(), &parsed)?;
    accepted_removals();
    Ok(removed(alloc, metadata, holdings, &found)?)
}

/// The directory without names that a path leads to. Refused with `IsRoot` for `/`, with why the path leads nowhere, with
/// `NotDirectory`, and with `NotEmpty`.
pub fn directory_at(frozen: &Frozen, path: &Path) -> Result<Found, Refusal>
    ensures found { IfOk result (λ found. (view : View) → IsShownBy frozen.now view → IsDirectoryAt frozen.now.geometry view path.now found) }
    ensures refused { IfErr result (λ r. (view : View) → IsShownBy frozen.now view → directory_refusal frozen.now.geometry view path.now ≡ Some r) }
{
    if path.is_root() {
        return Err(Refusal::IsRoot);
    }
    let found = locate(frozen, path)?;
    if !frozen.is_directory_at(found.number) {
        return Err(Refusal::NotDirectory);
    }
    if has_names(frozen, found.number) {
        return Err(Refusal::NotEmpty);
    }
    Ok(found)
}

/// The updates by which an entry goes, two links of the directory that it names, and one of the directory that it
/// stands in.
pub fn removed(
    alloc: Global,
    metadata: &Metadata,
    holdings: &Holdings,
    found: &Found,
) -> Result<Planned, AllocError>
    requires entry { IsEntry metadata.now.geometry (frozen_view metadata.now) found.now }
    requires parent { 1 ≤ ((frozen_view metadata.now).inode found.now.directory).links }
    ensures { IfOk result (λ planned. (view : View) → Shows metadata.now view
        → Removed metadata.now.geometry view holdings.now found.now planned.plan planned.holds.items) }
{
    let frozen = metadata.frozen();
    let mut plan = Plan::new(alloc, frozen.geometry(), found.number);
    let mut after = Cells::new(alloc);
    add_blocks(metadata, found.number, &mut after)?;
    empty_slot(alloc, metadata, &mut plan, found, after)?;
    let holds = lose_links(
        alloc,
        metadata,
        holdings,
        &mut plan,
        found.number,
        2,
        found.block,
    )?;
    lower(alloc, metadata, &mut plan, found.directory, 1, found.block)?;
    Ok(Planned { plan, holds })
}
