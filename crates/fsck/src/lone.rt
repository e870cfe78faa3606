//! The phases that go over the groups by one worker, on the calling thread.
ghost use Rattle.std.specs.Prelude.{◌≡◌};
ghost use Rattle.frozen.specs.Kept.{KeepsFrame};
ghost use Rattle.fsck.specs.Parts.{MakesParts, MakesPieces, Reaches, are_links_if, are_maps_of, is_counts_part, is_names_part, is_owned};

use crate::hands::parts_of_one;
use crate::phases::walk_of;
use crate::works::{Blocks, Counts, Entries, Links, Maps, Names, Owners};
use directories::pieces;
use findings::{Finding, OfGroup};
use frozen::Frozen;
use layout::Refusal;
use phase_blocks::BlockOwners;
use sets::Members;
use std::alloc::Global;

/// Who owns the blocks of each group, and what phase 1 finds of it.
pub(crate) fn owners_by_one(
    alloc: Global,
    frozen: &Frozen,
) -> Result<Vec<OfGroup<BlockOwners>>, Refusal>
    ensures frame { KeepsFrame frozen.now }
    ensures made { MakesParts (λ unit made. is_owned frozen.now unit made.kept made.found.items) frozen.now.geometry.groups result }
{
    let groups = frozen.geometry().groups();
    let parts = parts_of_one(alloc, groups, Blocks { alloc, frozen })?;
    let parts = parts.as_slice();
    parts_of_one(
        alloc,
        groups,
        Owners {
            alloc,
            frozen,
            parts,
        },
    )
}

/// What the slots of the directories of each piece tell.
pub(crate) fn names_by_one(
    alloc: Global,
    frozen: &Frozen,
) -> Result<Vec<phase_names::Part>, Refusal>
    ensures { MakesPieces (is_names_part frozen.now) frozen.now.geometry result }
{
    let pieces = pieces(alloc, frozen)?;
    let pieces = pieces.as_slice();
    let names = Names {
        alloc,
        frozen,
        pieces,
    };
    parts_of_one(alloc, pieces.len() as u32, names)
}

/// The reachable inodes.
pub(crate) fn reach(alloc: Global, frozen: &Frozen) -> Result<Members, Refusal>
    ensures { Reaches frozen.now result }
{
    let pieces = pieces(alloc, frozen)?;
    let pieces = pieces.as_slice();
    let entries = Entries {
        alloc,
        frozen,
        pieces,
    };
    let parts = parts_of_one(alloc, pieces.len() as u32, entries)?;
    walk_of(alloc, frozen, parts)
}

/// What the reachable directories of each piece name.
fn counts_by_one(
    alloc: Global,
    frozen: &Frozen,
    reached: &Members,
) -> Result<Vec<refcounts::Part>, Refusal>
    ensures { MakesPieces (is_counts_part frozen.now reached.now) frozen.now.geometry result }
{
    let pieces = pieces(alloc, frozen)?;
    let pieces = pieces.as_slice();
    let counts = Counts {
        alloc,
        frozen,
        pieces,
        reached,
    };
    parts_of_one(alloc, pieces.len() as u32, counts)
}

/// What phase 4 finds of each group, where these are the reachable inodes.
pub(crate) fn links_by_one(
    alloc: Global,
    frozen: &Frozen,
    reached: &Members,
) -> Result<Vec<Vec<Finding>>, Refusal>
    ensures { MakesParts (λ unit found. are_links_if frozen.now reached.now unit found.items) frozen.now.geometry.groups result }
{
    let parts = counts_by_one(alloc, frozen, reached)?;
    let parts = parts.as_slice();
    parts_of_one(
        alloc,
        frozen.geometry().groups(),
        Links {
            alloc,
            frozen,
            reached,
            parts,
        },
    )
}

/// What phase 5 finds of each group, where these are the owners of its blocks.
pub(crate) fn maps_by_one(
    alloc: Global,
    frozen: &Frozen,
    owners: &[BlockOwners],
) -> Result<Vec<Vec<Finding>>, Refusal>
    ensures { MakesParts (λ unit found. are_maps_of frozen.now owners.now unit found.items) frozen.now.geometry.groups result }
{
    parts_of_one(
        alloc,
        frozen.geometry().groups(),
        Maps {
            alloc,
            frozen,
            owners,
        },
    )
}
