//! The phases that join the parts of all pieces of a volume.
ghost use Rattle.std.specs.Prelude.{◌≡◌, IfOk, IsOkUnless};
ghost use Rattle.findings.specs.Findings.{AreFindingsOf, is_of_names};
ghost use Rattle.directories.specs.Pieces.{AreOfPieces};
ghost use Rattle.model.specs.Layout.{inode_count};
ghost use Rattle.model.specs.Reached.{AreReached};
ghost use Rattle.frozen.specs.Kept.{frozen_view};
ghost use Rattle.fsck.specs.Parts.{is_entries_part, is_names_part};

use findings::Finding;
use frozen::Frozen;
use layout::Refusal;
use sets::Members;
use std::alloc::Global;

/// Phase 2: what is found of the slots of reachable directories.
pub(crate) fn check_names(
    alloc: Global,
    frozen: &Frozen,
    parts: Vec<phase_names::Part>,
    reached: &Members,
) -> Result<Vec<Finding>, Refusal>
    requires { AreOfPieces (is_names_part frozen.now) (inode_count frozen.now.geometry) parts.items }
    ensures findings { IfOk result (λ found. AreReached frozen.now.geometry (frozen_view frozen.now) reached.now
        → AreFindingsOf is_of_names frozen.now.geometry (frozen_view frozen.now) found.items) }
    ensures error { IsOkUnless result Refusal.NoMemory }
{
    let mut whole = phase_names::Part::new(alloc);
    for part in parts {
        whole = phase_names::merge(whole, part)?;
    }
    phase_names::finish(alloc, frozen, &whole, reached)
}

/// The first half of phase 3, by one worker: the reachable inodes.
pub(crate) fn walk_of(
    alloc: Global,
    frozen: &Frozen,
    parts: Vec<connectivity::Part>,
) -> Result<Members, Refusal>
    requires { AreOfPieces (is_entries_part frozen.now) (inode_count frozen.now.geometry) parts.items }
    ensures reached { IfOk result (λ reached. AreReached frozen.now.geometry (frozen_view frozen.now) reached) }
    ensures error { IsOkUnless result Refusal.NoMemory }
{
    let mut whole = connectivity::Part::new(alloc);
    for part in parts {
        whole = connectivity::merge(whole, part)?;
    }
    connectivity::walk(alloc, frozen, &whole)
}
