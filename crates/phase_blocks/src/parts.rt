ghost use Rattle.std.specs.Prelude.{◌≡◌, ◌↔◌, ◌++◌, IfOk, OnOk, IsOkUnless};
ghost use Rattle.std.specs.List.{Contains};
ghost use Rattle.std.specs.List.Sorted.{IsStrictlySortedBy};
ghost use Rattle.model.specs.Layout.{Geometry};
ghost use Rattle.model.specs.View.{View};
ghost use Rattle.model.specs.Units.{no_unit};
ghost use Rattle.findings.specs.declared.finding.Finding.{Finding};
ghost use Rattle.phase_blocks.specs.Parts.{AddsClaim, AddsFinding, IsPart, claim_cmp, nothing_gathered};

use findings::Finding;
use layout::Refusal;
use std::alloc::{AllocError, Global};
use std::collections::BTreeSet;
use std::marker::Model;

/// A claim of a block: the block, the inode, and the position at which the inode uses the block. Claims are in order of
/// their blocks, then of their inodes, and then of their positions.
#[derive(Clone, Copy, Debug, PartialEq, Eq, PartialOrd, Ord)]
pub struct Claim {
    pub block: u32,
    pub inode: u32,
    pub position: u32,
}

/// What was found in some groups: all claims of their inodes, each once and in order, and the findings that need one
/// inode alone.
#[derive(Drop)]
pub struct Part {
    claims: Vec<Claim>,
    found: BTreeSet<Finding>,
}

impl Model for Part {
    ghost use Rattle.phase_blocks.specs.Parts.{Gathered};

    ghost Value = { Gathered };

    ghost view = { λ p. record { claims = p.claims.items; found = p.found.keys } };
}

impl Part {
    /// The part of no group.
    pub fn new(alloc: Global) -> Part
        ensures part { (geo : Geometry) (view : View) → IsPart geo view no_unit result }
        ensures empty { result ≡ nothing_gathered }
    {
        Part {
            claims: Vec::new(alloc),
            found: BTreeSet::new(alloc),
        }
    }

    /// Adds a claim behind the others, whatever its order.
    pub(crate) fn add_claim(&mut self, claim: Claim) -> Result<(), Refusal>
        ensures added { OnOk result (AddsClaim self.old self.new claim) }
        ensures error { IsOkUnless result Refusal.NoMemory }
    {
        self.claims.push(claim)?;
        Ok(())
    }

    /// Adds a finding.
    pub(crate) fn add_finding(&mut self, finding: Finding) -> Result<(), Refusal>
        ensures added { OnOk result (AddsFinding self.old self.new finding) }
        ensures error { IsOkUnless result Refusal.NoMemory }
    {
        self.found.insert(finding)?;
        Ok(())
    }

    /// The claims.
    pub(crate) fn claims(&self) -> &[Claim]
        ensures { result.now ≡ self.now.claims }
    {
        &self.claims
    }

    /// Adds the findings that need one inode alone to others.
    pub(crate) fn add_found(&self, found: &mut Vec<Finding>) -> Result<(), AllocError>
        ensures { OnOk result (found.new.items ≡ found.old.items ++ self.now.found) }
    {
        found.extend(self.found.iter().copied())
    }

    /// The same with the claims in order, each once.
    pub(crate) fn in_order(self) -> Result<Part, Refusal>
        ensures order { IfOk result (λ part. IsStrictlySortedBy claim_cmp part.claims) }
        ensures same { IfOk result (λ part. (c : Claim) → Contains part.claims c ↔ Contains self.claims c) }
        ensures found { IfOk result (λ part. part.found ≡ self.found) }
        ensures error { IsOkUnless result Refusal.NoMemory }
    {
        let Part { claims, found } = self;
        let claims = sets::in_order(claims)?;
        Ok(Part { claims, found })
    }
}
