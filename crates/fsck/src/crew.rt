//! The phases that go over the groups by several workers.
ghost use Rattle.std.specs.Prelude.{◌≡◌};
ghost use Rattle.frozen.specs.Kept.{KeepsFrame};
ghost use Rattle.fsck.specs.Parts.{ArePiecesOf, MakesParts, MakesPieces, are_links_if, are_maps_of, is_counts_part, is_names_part, is_owned};

use crate::hands::parts_of_crew;
use crate::works::{Blocks, Counts, Links, Maps, Names, Owners};
use directories::Piece;
use findings::{Finding, OfGroup};
use frozen::Frozen;
use layout::Refusal;
use phase_blocks::BlockOwners;
use sets::Members;
use std::alloc::Global;
use std::thread::Threads;
use workers::{Gate, Workers};

/// Who owns the blocks of each group, and what phase 1 finds of it. The workers pass the gate in both passes.
pub(crate) fn owners_by_crew<R: Threads + Sync, G: Gate>(
    rt: &R,
    workers: Workers,
    gate: &G,
    alloc: Global,
    frozen: &Frozen,
) -> Result<Vec<OfGroup<BlockOwners>>, Refusal>
    ensures frame { KeepsFrame frozen.now }
    ensures made { MakesParts (λ unit made. is_owned frozen.now unit made.kept made.found.items) frozen.now.geometry.groups result }
{
    let groups = frozen.geometry().groups();
    let parts = parts_of_crew(rt, workers, gate, alloc, groups, Blocks { alloc, frozen })?;
    let parts = parts.as_slice();
    parts_of_crew(
        rt,
        workers,
        gate,
        alloc,
        groups,
        Owners {
            alloc,
            frozen,
            parts,
        },
    )
}

/// What the slots of the directories of each of these pieces tell. The workers pass the gate before each piece.
pub(crate) fn names_by_crew<R: Threads + Sync, G: Gate>(
    rt: &R,
    workers: Workers,
    gate: &G,
    alloc: Global,
    frozen: &Frozen,
    pieces: &[Piece],
) -> Result<Vec<phase_names::Part>, Refusal>
    requires pieces { ArePiecesOf frozen.now pieces.now }
    ensures { MakesPieces (is_names_part frozen.now) frozen.now.geometry result }
{
    parts_of_crew(
        rt,
        workers,
        gate,
        alloc,
        pieces.len() as u32,
        Names {
            alloc,
            frozen,
            pieces,
        },
    )
}

/// What the reachable directories of each of these pieces name. The workers pass the gate before each piece.
fn counts_by_crew<R: Threads + Sync, G: Gate>(
    rt: &R,
    workers: Workers,
    gate: &G,
    alloc: Global,
    frozen: &Frozen,
    pieces: &[Piece],
    reached: &Members,
) -> Result<Vec<refcounts::Part>, Refusal>
    requires pieces { ArePiecesOf frozen.now pieces.now }
    ensures { MakesPieces (is_counts_part frozen.now reached.now) frozen.now.geometry result }
{
    parts_of_crew(
        rt,
        workers,
        gate,
        alloc,
        pieces.len() as u32,
        Counts {
            alloc,
            frozen,
            pieces,
            reached,
        },
    )
}

/// What phase 4 finds of each group, where these are the reachable inodes. In the first pass the workers pass the gate of the
/// pieces, and in the second that of the groups.
pub(crate) fn links_by_crew<R: Threads + Sync, G: Gate, P: Gate>(
    rt: &R,
    workers: Workers,
    gate: &G,
    gate_of_pieces: &P,
    alloc: Global,
    frozen: &Frozen,
    pieces: &[Piece],
    reached: &Members,
) -> Result<Vec<Vec<Finding>>, Refusal>
    requires pieces { ArePiecesOf frozen.now pieces.now }
    ensures { MakesParts (λ unit found. are_links_if frozen.now reached.now unit found.items) frozen.now.geometry.groups result }
{
    let parts = counts_by_crew(rt, workers, gate_of_pieces, alloc, frozen, pieces, reached)?;
    let parts = parts.as_slice();
    parts_of_crew(
        rt,
        workers,
        gate,
        alloc,
        frozen.geometry().groups(),
        Links {
            alloc,
            frozen,
            reached,
            parts,
        },
    )
}

/// What phase 5 finds of each group, where these are the owners of its blocks.
pub(crate) fn maps_by_crew<R: Threads + Sync, G: Gate>(
    rt: &R,
    workers: Workers,
    gate: &G,
    alloc: Global,
    frozen: &Frozen,
    owners: &[BlockOwners],
) -> Result<Vec<Vec<Finding>>, Refusal>
    ensures { MakesParts (λ unit found. are_maps_of frozen.now owners.now unit found.items) frozen.now.geometry.groups result }
{
    parts_of_crew(
        rt,
        workers,
        gate,
        alloc,
        frozen.geometry().groups(),
        Maps {
            alloc,
            frozen,
            owners,
        },
    )
}
