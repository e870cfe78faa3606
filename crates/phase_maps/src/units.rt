ghost use Rattle.std.specs.Prelude.{◌≡◌, ◌<◌, ◌≤◌, IfOk, IsOkUnless, []};
ghost use Rattle.findings.specs.Findings.{is_of_maps};
ghost use Rattle.frozen.specs.Kept.{frozen_view};
ghost use Rattle.findings.specs.Groups.{AreFoundIn};
ghost use Rattle.phase_blocks.specs.Owners.{AreOwners};

use crate::blocks::add_blocks;
use crate::numbers::add_numbers;
use findings::Finding;
use frozen::Frozen;
use layout::Refusal;
use phase_blocks::BlockOwners;
use std::alloc::Global;

/// What is found of the maps of a cylinder group, the data blocks of which have these owners. A unit that is no group has
/// no maps.
pub fn findings(
    alloc: Global,
    frozen: &Frozen,
    unit: u32,
    owners: &BlockOwners,
) -> Result<Vec<Finding>, Refusal>
    ensures found { IfOk result (λ found. AreOwners frozen.now.geometry (frozen_view frozen.now) unit owners.now → unit < frozen.now.geometry.groups
        → AreFoundIn is_of_maps frozen.now.geometry (frozen_view frozen.now) unit found.items) }
    ensures no_group { IfOk result (λ found. frozen.now.geometry.groups ≤ unit → found.items ≡ []) }
    ensures error { IsOkUnless result Refusal.NoMemory }
{
    let mut found = Vec::new(alloc);
    if unit >= frozen.geometry().groups() {
        return Ok(found);
    }
    add_blocks(frozen, unit, owners, &mut found)?;
    add_numbers(frozen, unit, &mut found)?;
    Ok(found)
}
