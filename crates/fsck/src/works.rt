//! The work of each pass over the groups of an image, or over the pieces of the groups, for whoever makes the parts of all.
ghost use Rattle.std.specs.Prelude.{◌≡◌, ◌<◌, ℕ, IfOk, IsOkUnless, List, Option, Some, slice_get};
ghost use Rattle.frozen.specs.Kept.{frozen_view};
ghost use Rattle.phase_blocks.specs.declared.parts.Claim.{Claim};
ghost use Rattle.phase_blocks.specs.Owners.{AreOwners};
ghost use Rattle.fsck.specs.Parts.{IsOfPiece, are_links_of, are_maps, are_maps_of, is_blocks_part, is_counts_part, is_entries_part, is_names_part, is_owned_of};

use directories::Piece;
use findings::{Finding, OfGroup};
use frozen::Frozen;
use layout::Refusal;
use phase_blocks::BlockOwners;
use sets::Members;
use std::alloc::Global;
use workers::Work;

/// The work of a pass.
pub(crate) trait Look: Work + Copy {
    /// What the part of a unit is.
    ghost is_of: { Self → ℕ → Self.Part → Type 0 };

    /// The number of the phase that the pass is of.
    fn phase(&self) -> u8;
}

/// Phase 1: what the inodes of a group claim.
#[derive(Clone, Copy)]
pub(crate) struct Blocks<'a> {
    pub(crate) alloc: Global,
    pub(crate) frozen: &'a Frozen,
}

impl Work for Blocks<'_> {
    type Part = phase_blocks::Part;

    ghost gives = { λ before unit part after. is_blocks_part before.frozen.now unit part × (after ≡ before) };

    fn part(&mut self, unit: u32) -> Result<phase_blocks::Part, Refusal> {
        phase_blocks::part(self.alloc, self.frozen, unit)
    }
}

impl Look for Blocks<'_> {
    ghost is_of = { λ work. is_blocks_part work.frozen.now };

    fn phase(&self) -> u8 {
        1
    }
}

/// Phase 1, once more: who owns the blocks of a group, from the parts of all groups.
#[derive(Clone, Copy)]
pub(crate) struct Owners<'a> {
    pub(crate) alloc: Global,
    pub(crate) frozen: &'a Frozen,
    pub(crate) parts: &'a [phase_blocks::Part],
}

impl Work for Owners<'_> {
    type Part = OfGroup<BlockOwners>;

    ghost gives = { λ before unit made after. is_owned_of before.frozen.now before.parts.now unit made.kept made.found.items × (after ≡ before) };

    fn part(&mut self, unit: u32) -> Result<OfGroup<BlockOwners>, Refusal> {
        phase_blocks::owners(self.alloc, self.frozen, self.parts, unit)
    }
}

impl Look for Owners<'_> {
    ghost is_of = { λ work unit made. is_owned_of work.frozen.now work.parts.now unit made.kept made.found.items };

    fn phase(&self) -> u8 {
        1
    }
}

/// Phase 2: the slots of a piece's directories.
#[derive(Clone, Copy)]
pub(crate) struct Names<'a> {
    pub(crate) alloc: Global,
    pub(crate) frozen: &'a Frozen,
    pub(crate) pieces: &'a [Piece],
}

impl Work for Names<'_> {
    type Part = phase_names::Part;

    ghost gives = { λ before unit part after. IsOfPiece (is_names_part before.frozen.now) before.pieces.now unit part × (after ≡ before) };

    fn part(&mut self, unit: u32) -> Result<phase_names::Part, Refusal> {
        names_of(self.alloc, self.frozen, self.pieces, unit)
    }
}

impl Look for Names<'_> {
    ghost is_of = { λ work. IsOfPiece (is_names_part work.frozen.now) work.pieces.now };

    fn phase(&self) -> u8 {
        2
    }
}

/// Phase 3, by one worker: what a piece's directories name.
#[derive(Clone, Copy)]
pub(crate) struct Entries<'a> {
    pub(crate) alloc: Global,
    pub(crate) frozen: &'a Frozen,
    pub(crate) pieces: &'a [Piece],
}

impl Work for Entries<'_> {
    type Part = connectivity::Part;

    ghost gives = { λ before unit part after. IsOfPiece (is_entries_part before.frozen.now) before.pieces.now unit part × (after ≡ before) };

    fn part(&mut self, unit: u32) -> Result<connectivity::Part, Refusal> {
        entries_of(self.alloc, self.frozen, self.pieces, unit)
    }
}

impl Look for Entries<'_> {
    ghost is_of = { λ work. IsOfPiece (is_entries_part work.frozen.now) work.pieces.now };

    fn phase(&self) -> u8 {
        3
    }
}

/// Phase 4: what a piece's reachable directories name.
#[derive(Clone, Copy)]
pub(crate) struct Counts<'a> {
    pub(crate) alloc: Global,
    pub(crate) frozen: &'a Frozen,
    pub(crate) pieces: &'a [Piece],
    pub(crate) reached: &'a Members,
}

impl Work for Counts<'_> {
    type Part = refcounts::Part;

    ghost gives = { λ before unit part after. IsOfPiece (is_counts_part before.frozen.now before.reached.now) before.pieces.now unit part × (after ≡ before) };

    fn part(&mut self, unit: u32) -> Result<refcounts::Part, Refusal> {
        counts_of(self.alloc, self.frozen, self.pieces, unit, self.reached)
    }
}

impl Look for Counts<'_> {
    ghost is_of = { λ work. IsOfPiece (is_counts_part work.frozen.now work.reached.now) work.pieces.now };

    fn phase(&self) -> u8 {
        4
    }
}

/// Phase 4, once more: what is found of the links of a group's inodes, from the parts of all pieces.
#[derive(Clone, Copy)]
pub(crate) struct Links<'a> {
    pub(crate) alloc: Global,
    pub(crate) frozen: &'a Frozen,
    pub(crate) reached: &'a Members,
    pub(crate) parts: &'a [refcounts::Part],
}

impl Work for Links<'_> {
    type Part = Vec<Finding>;

    ghost gives = { λ before unit found after. are_links_of before.frozen.now before.reached.now before.parts.now unit found.items × (after ≡ before) };

    fn part(&mut self, unit: u32) -> Result<Vec<Finding>, Refusal> {
        let counts = refcounts::counts(self.alloc, self.frozen, self.parts, unit)?;
        refcounts::findings(self.alloc, self.frozen, unit, &counts, self.reached)
    }
}

impl Look for Links<'_> {
    ghost is_of = { λ work unit found. are_links_of work.frozen.now work.reached.now work.parts.now unit found.items };

    fn phase(&self) -> u8 {
        4
    }
}

/// Phase 5: what is found of a group's maps, from the owners of its blocks.
#[derive(Clone, Copy)]
pub(crate) struct Maps<'a> {
    pub(crate) alloc: Global,
    pub(crate) frozen: &'a Frozen,
    pub(crate) owners: &'a [BlockOwners],
}

impl Work for Maps<'_> {
    type Part = Vec<Finding>;

    ghost gives = { λ before unit found after. are_maps_of before.frozen.now before.owners.now unit found.items × (after ≡ before) };

    fn part(&mut self, unit: u32) -> Result<Vec<Finding>, Refusal> {
        maps_of(self.alloc, self.frozen, self.owners, unit)
    }
}

impl Look for Maps<'_> {
    ghost is_of = { λ work unit found. are_maps_of work.frozen.now work.owners.now unit found.items };

    fn phase(&self) -> u8 {
        5
    }
}

/// What is found of the maps of a group, where these are the owners of the blocks of all groups; nothing where it is
/// not one of them.
fn maps_of(
    alloc: Global,
    frozen: &Frozen,
    owners: &[BlockOwners],
    unit: u32,
) -> Result<Vec<Finding>, Refusal>
    ensures found { IfOk result (λ found. (own : List (Option Claim)) → slice_get owners.now unit ≡ Some own
        → AreOwners frozen.now.geometry (frozen_view frozen.now) unit own → unit < frozen.now.geometry.groups → are_maps frozen.now unit found.items) }
    ensures error { IsOkUnless result Refusal.NoMemory }
{
    match owners.get(unit as usize) {
        Some(owners) => phase_maps::findings(alloc, frozen, unit, owners),
        None => Ok(Vec::new(alloc)),
    }
}

/// What the slots of the directories of the piece of this unit tell; nothing where there is no such piece.
fn names_of(
    alloc: Global,
    frozen: &Frozen,
    pieces: &[Piece],
    unit: u32,
) -> Result<phase_names::Part, Refusal>
    ensures part { IfOk result (IsOfPiece (is_names_part frozen.now) pieces.now unit) }
    ensures error { IsOkUnless result Refusal.NoMemory }
{
    match pieces.get(unit as usize) {
        Some(piece) => phase_names::part(alloc, frozen, piece),
        None => Ok(phase_names::Part::new(alloc)),
    }
}

/// What the directories of the piece of this unit name; nothing where there is no such piece.
fn entries_of(
    alloc: Global,
    frozen: &Frozen,
    pieces: &[Piece],
    unit: u32,
) -> Result<connectivity::Part, Refusal>
    ensures part { IfOk result (IsOfPiece (is_entries_part frozen.now) pieces.now unit) }
    ensures error { IsOkUnless result Refusal.NoMemory }
{
    match pieces.get(unit as usize) {
        Some(piece) => connectivity::part(alloc, frozen, piece),
        None => Ok(connectivity::Part::new(alloc)),
    }
}

/// What the reachable directories of the piece of this unit name; nothing where there is no such piece.
fn counts_of(
    alloc: Global,
    frozen: &Frozen,
    pieces: &[Piece],
    unit: u32,
    reached: &Members,
) -> Result<refcounts::Part, Refusal>
    ensures part { IfOk result (IsOfPiece (is_counts_part frozen.now reached.now) pieces.now unit) }
    ensures error { IsOkUnless result Refusal.NoMemory }
{
    match pieces.get(unit as usize) {
        Some(piece) => refcounts::part(alloc, frozen, piece, reached),
        None => Ok(refcounts::Part::none(alloc, 0)?),
    }
}
