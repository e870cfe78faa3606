//! Which claim owns each data block of a cylinder group, from the parts of all groups.
ghost use Rattle.std.specs.Prelude.{◌≡◌, ◌<◌, ◌≤◌, ◌+◌, ◌++◌, ◌∷◌, [], ◌↔◌, None, Some, List, IfOk, OnOk, IsOkUnless, length, slice_get};
ghost use Rattle.std.specs.List.{Contains};
ghost use Rattle.std.specs.List.Sorted.{IsPartitionPoint, IsStrictlySortedBy};
ghost use Rattle.frozen.specs.Kept.{frozen_view};
ghost use Rattle.model.specs.Layout.{header_blocks};
ghost use Rattle.model.specs.View.{View};
ghost use Rattle.model.specs.Uses.{Before};
ghost use Rattle.findings.specs.Groups.{AreFoundIn};
ghost use Rattle.findings.specs.Findings.{is_of_blocks};
ghost use Rattle.phase_blocks.specs.Parts.{Gathered};
ghost use Rattle.phase_blocks.specs.Owners.{AreGathered, AreOwners, owner_at};

use crate::filling::{Filling, filled};
use crate::parts::{Claim, Part};
use findings::{Finding, OfGroup};
use frozen::Frozen;
use layout::Refusal;
use std::alloc::{AllocError, Global};
use std::marker::Model;

/// Which claim owns each data block of a cylinder group, by the block's bit: its first claim, if it is claimed.
#[derive(Drop)]
pub struct BlockOwners {
    owners: Vec<Option<Claim>>,
}

impl Model for BlockOwners {
    ghost use Rattle.std.specs.Prelude.{List, Option};
    ghost use Rattle.phase_blocks.specs.declared.parts.Claim.{Claim};

    ghost Value = { List (Option Claim) };

    ghost view = { λ o. o.owners.items };
}

impl BlockOwners {
    /// The claim that owns the data block of this bit; none where it is not claimed, or past the last block.
    pub fn of(&self, bit: u32) -> Option<Claim>
        ensures { result ≡ owner_at self.now bit }
    {
        match self.owners.get(bit as usize) {
            Some(owner) => *owner,
            None => None,
        }
    }
}

/// The owners of the data blocks of a cylinder group, and what phase 1 finds of the group: what is wrong with the
/// records of its inodes and with what they use, and the claims of its blocks that an earlier claim owns. `parts` are
/// those of all groups, in order. A unit that is no group has no blocks.
pub fn owners(
    alloc: Global,
    frozen: &Frozen,
    parts: &[Part],
    unit: u32,
) -> Result<OfGroup<BlockOwners>, Refusal>
    ensures owners { IfOk result (λ made. AreGathered frozen.now.geometry (frozen_view frozen.now) parts.now → unit < frozen.now.geometry.groups
        → AreOwners frozen.now.geometry (frozen_view frozen.now) unit made.kept) }
    ensures found { IfOk result (λ made. AreGathered frozen.now.geometry (frozen_view frozen.now) parts.now → unit < frozen.now.geometry.groups
        → AreFoundIn is_of_blocks frozen.now.geometry (frozen_view frozen.now) unit made.found.items) }
    ensures no_group { IfOk result (λ made. frozen.now.geometry.groups ≤ unit → (made.kept ≡ []) × (made.found.items ≡ [])) }
    ensures error { IsOkUnless result Refusal.NoMemory }
{
    let geometry = frozen.geometry();
    if unit >= geometry.groups() {
        return Ok(nothing(alloc));
    }
    let table = filled(alloc, geometry, unit, parts)?;
    let Filling {
        owners,
        mut found,
        ..
    } = table;
    add_own(parts, unit, &mut found)?;
    Ok(OfGroup {
        kept: BlockOwners { owners },
        found,
    })
}

/// Adds what is wrong with the inodes of a group alone, which its part has.
fn add_own(parts: &[Part], group: u32, found: &mut Vec<Finding>) -> Result<(), AllocError>
    ensures { OnOk result ((own : Gathered) → slice_get parts.now group ≡ Some own → found.new.items ≡ found.old.items ++ own.found) }
{
    match parts.get(group as usize) {
        Some(own) => own.add_found(found),
        None => Ok(()),
    }
}

/// What is made of a unit that is no group.
fn nothing(alloc: Global) -> OfGroup<BlockOwners>
    ensures { (result.kept ≡ []) × (result.found.items ≡ []) }
{
    let owners = Vec::new(alloc);
    OfGroup {
        kept: BlockOwners { owners },
        found: Vec::new(alloc),
    }
}
