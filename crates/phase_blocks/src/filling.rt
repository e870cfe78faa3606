//! A table of owners that is filled, claim after claim.
ghost use Rattle.std.specs.Prelude.{◌≡◌, ◌<◌, ◌≤◌, ◌+◌, ◌++◌, ◌∷◌, [], ◌↔◌, All, List, IfOk, IsTrue, OnOk, length, nat_lt};
ghost use Rattle.std.specs.List.{Contains, flat_map};
ghost use Rattle.std.specs.List.Sorted.{IsPartitionPoint, IsStrictlySortedBy};
ghost use Rattle.findings.specs.declared.finding.Finding.TheVariants.{Duplicate};
ghost use Rattle.model.specs.Layout.{data_address, header_blocks};
ghost use Rattle.model.specs.Uses.{Before};
ghost use Rattle.phase_blocks.specs.Parts.{claim_cmp};
ghost use Rattle.phase_blocks.specs.Owners.{HoldsOf};

use crate::parts::{Claim, Part};
use findings::Finding;
use layout::Geometry;
use std::alloc::{AllocError, Global};
use std::marker::Model;

/// A table of the owners of the data blocks of a cylinder group, as far as it is filled: in each place the first claim of
/// the block that was met, and beside them those that were not the first.
#[derive(Drop)]
pub(crate) struct Filling {
    geometry: Geometry,
    group: u32,
    pub(crate) owners: Vec<Option<Claim>>,
    pub(crate) found: Vec<Finding>,
}

impl Model for Filling {
    ghost use Rattle.std.specs.Prelude.{◌≡◌, ◌<◌, ◌+◌, length};
    ghost use Rattle.model.specs.Layout.{IsGeometry, header_blocks};
    ghost use Rattle.phase_blocks.specs.Owners.{Filled};

    ghost Value = { Filled };

    ghost view = { λ f. record { geometry = f.geometry; group = f.group; owners = f.owners.items; found = f.found.items } };

    ghost invariant = { λ f. IsGeometry f.geometry × (f.group < f.geometry.groups) × (header_blocks f.geometry + length f.owners.items ≡ f.geometry.blocks) };
}

impl Filling {
    /// The table of a group in which no claim was met.
    fn new(alloc: Global, geometry: Geometry, group: u32) -> Result<Filling, AllocError>
        requires { group < geometry.groups }
        ensures of { IfOk result (λ table. (table.geometry ≡ geometry) × (table.group ≡ group)) }
        ensures nothing { IfOk result (λ table. HoldsOf [] table) }
    {
        let blocks = geometry.blocks_a_group() - geometry.header_blocks();
        let owners = vec![in alloc; None; blocks as usize]?;
        Ok(Filling {
            geometry,
            group,
            owners,
            found: Vec::new(alloc),
        })
    }

    /// Puts a claim in the place of its block, or beside the table.
    fn put(&mut self, bit: u32, claim: Claim) -> Result<(), AllocError>
        requires bit { header_blocks self.old.geometry + bit < self.old.geometry.blocks }
        requires block { claim.block ≡ data_address self.old.geometry self.old.group bit }
        ensures of { (self.new.geometry ≡ self.old.geometry) × (self.new.group ≡ self.old.group) }
        ensures put { OnOk result ((seen : List Claim) → HoldsOf seen self.old → HoldsOf (seen ++ claim ∷ []) self.new) }
    {
        let index = bit as usize;
        match self.owners[index] {
            None => self.owners[index] = Some(claim),
            Some(owner) if is_before(&claim, &owner) => {
                self.owners[index] = Some(claim);
                self.found.push(duplicate(&owner))?;
            }
            Some(owner) if is_before(&owner, &claim) => self.found.push(duplicate(&claim))?,
            Some(_) => {}
        }
        Ok(())
    }

    /// Meets a claim, of whatever block.
    fn meet(&mut self, claim: Claim) -> Result<(), AllocError>
        ensures of { (self.new.geometry ≡ self.old.geometry) × (self.new.group ≡ self.old.group) }
        ensures met { OnOk result ((seen : List Claim) → HoldsOf seen self.old → HoldsOf (seen ++ claim ∷ []) self.new) }
    {
        match self.geometry.place_of(claim.block) {
            Some(place) if place.group == self.group => self.put(place.bit, claim),
            _ => Ok(()),
        }
    }

    /// Meets claims.
    fn meet_all(&mut self, claims: &[Claim]) -> Result<(), AllocError>
        ensures of { (self.new.geometry ≡ self.old.geometry) × (self.new.group ≡ self.old.group) }
        ensures met { OnOk result ((seen : List Claim) → HoldsOf seen self.old → HoldsOf (seen ++ claims.now) self.new) }
    {
        for claim in claims {
            self.meet(*claim)?;
        }
        Ok(())
    }

    /// Meets the claims of a part. They are in order, so those of the table's group stand together.
    fn meet_part(&mut self, part: &Part) -> Result<(), AllocError>
        ensures of { (self.new.geometry ≡ self.old.geometry) × (self.new.group ≡ self.old.group) }
        ensures met { OnOk result (IsStrictlySortedBy claim_cmp part.now.claims → (seen : List Claim) → HoldsOf seen self.old
            → HoldsOf (seen ++ part.now.claims) self.new) }
    {
        let first = self.geometry.group_block(self.group);
        let past = first + self.geometry.blocks_a_group();
        self.meet_all(between(part.claims(), first, past))
    }
}

/// The table of a group in which the claims of all these parts were met.
pub(crate) fn filled(
    alloc: Global,
    geometry: Geometry,
    group: u32,
    parts: &[Part],
) -> Result<Filling, AllocError>
    requires { group < geometry.groups }
    ensures of { IfOk result (λ table. (table.geometry ≡ geometry) × (table.group ≡ group)) }
    ensures filled { IfOk result (λ table. All (λ part. IsStrictlySortedBy claim_cmp part.claims) parts.now
        → HoldsOf (flat_map (λ part. part.claims) parts.now) table) }
{
    let mut table = Filling::new(alloc, geometry, group)?;
    for part in parts {
        table.meet_part(part)?;
    }
    Ok(table)
}

/// Whether a claim comes before another one of the same block.
fn is_before(claim: &Claim, other: &Claim) -> bool
    ensures { IsTrue result ↔ Before claim.now.inode claim.now.position other.now.inode other.now.position }
{
    claim.inode < other.inode || claim.inode == other.inode && claim.position < other.position
}

/// The finding that a claim is not the first of its block.
fn duplicate(claim: &Claim) -> Finding
    ensures { result ≡ Duplicate claim.now.inode claim.now.position claim.now.block }
{
    Finding::Duplicate(claim.inode, claim.position, claim.block)
}

/// Of claims in order those of the blocks from the first one on, and below the one past the last.
fn between(claims: &[Claim], first: u32, past: u32) -> &[Claim]
    ensures all { IsStrictlySortedBy claim_cmp claims.now → (c : Claim) → first ≤ c.block → c.block < past → Contains claims.now c → Contains result.now c }
    ensures only { (c : Claim) → Contains result.now c → Contains claims.now c }
{
    let from = count_below(claims, first);
    let to = count_below(claims, past).max(from);
    &claims[from..to]
}

/// How many of these claims, which are in order, are of blocks below this one.
fn count_below(claims: &[Claim], block: u32) -> usize
    ensures bound { result ≤ length claims.now }
    ensures below { IsStrictlySortedBy claim_cmp claims.now → IsPartitionPoint (λ c. c.block < block) (λ c. block ≤ c.block) claims.now result }
{
    claims.partition_point(
        |claim: &Claim| -> bool
            ensures { result ≡ nat_lt claim.now.block block }
        { claim.block < block },
    )
}
