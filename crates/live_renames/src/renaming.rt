ghost use Rattle.std.specs.Prelude.{◌≡◌, ◌≤◌, ℕ, IfErr, IfOk, List, MatchResult, Some, length};
ghost use Rattle.frozen.specs.Kept.{frozen_view};
ghost use Rattle.model.specs.View.{View};
ghost use Rattle.machine.specs.Below.{first_of};
ghost use Rattle.machine.specs.Command.{Done, Rename};
ghost use Rattle.live_paths.specs.Shown.{IsShownBy};
ghost use Rattle.live_plans.specs.Found.{IsFoundAt};
ghost use Rattle.live_states.specs.Planned.{IsOfVolume, IsPlanned, IsRefused};
ghost use Rattle.live_renames.specs.Refused.{AreEnds, early};
ghost use Rattle.live_renames.specs.Renamed.{IsRenamed};

use crate::moving::{move_to, permit, refuse_taken};
use dirent::SLOTS;
use frozen::Frozen;
use layout::Refusal;
use live_paths::{Path, walk};
use live_plans::{Found, Plan, Slot, add_blocks, bytes_of, entry, locate, put_slot};
use metadata::Metadata;
use std::alloc::{AllocError, Global};
use updates::Cells;

/// Between what a rename goes on.
#[derive(Clone, Copy)]
pub struct Ends {
    /// The entry that is there.
    pub found: Found,
    /// The directory in which the new name is to stand.
    pub directory: u32,
}

/// The plan by which an entry gets another name, in its directory or in another one.
///
/// Refused in this order: with `BadName` where `path` or `other` is no path; with `IsRoot` where one of them is `/`; with
/// `NotFound` or `NotDirectory` where `path` leads nowhere, or else where the walk to the directory of `other` ends before;
/// where that is another directory than that of `path`, with `IsDirectory` where `path` leads to a directory; with
/// `Exists` where `other` leads somewhere; and between two directories with `TooManyLinks` where the file has 32,767
/// links, with `TooBig` where the directory is full, and with `NoBlock` where fewer data blocks are unmarked than the
/// new entry takes. `NoMemory` comes at any time.
pub fn rename(
    alloc: Global,
    metadata: &Metadata,
    path: &[u8],
    other: &[u8],
) -> Result<Plan, Refusal>
    requires { IsOfVolume metadata.now }
    ensures planned { IfOk result (IsPlanned metadata.now (Rename path.now other.now) Done) }
    ensures refused { IfErr result (IsRefused metadata.now (Rename path.now other.now)) }
{
    let from = Path::parse(path)?;
    let to = Path::parse(other)?;
    let ends = find_ends(metadata.frozen(), &from, &to)?;
    if ends.found.directory == ends.directory {
        refuse_taken(metadata.frozen(), ends.directory, &to)?;
        Ok(rename_in_slot(alloc, metadata, &ends.found, to.name())?)
    } else {
        let place = permit(metadata, ends.found.number, ends.directory, &to)?;
        Ok(move_to(alloc, metadata, &ends, &to, place)?)
    }
}

/// What these paths lead to; or why one of them is `/`, the first one leads nowhere, or the walk to the directory of the
/// second one ends before.
pub fn find_ends(frozen: &Frozen, from: &Path, to: &Path) -> Result<Ends, Refusal>
    ensures { (view : View) → IsShownBy frozen.now view → MatchResult result (AreEnds frozen.now.geometry view from.now to.now)
        (λ r. first_of (early frozen.now.geometry view from.now to.now) ≡ Some r) }
{
    if from.is_root() || to.is_root() {
        return Err(Refusal::IsRoot);
    }
    let found = locate(frozen, from)?;
    let directory = walk(frozen, to)?;
    Ok(Ends { found, directory })
}

/// The plan that gives an entry this name in its slot, after the directory's blocks.
pub fn rename_in_slot(
    alloc: Global,
    metadata: &Metadata,
    found: &Found,
    name: &[u8],
) -> Result<Plan, AllocError>
    requires found { (ps : List (List ℕ)) × IsFoundAt metadata.now.geometry (frozen_view metadata.now) ps found.now }
    requires name { length name.now ≤ 56 }
    ensures { IfOk result (IsRenamed metadata.now found.now name.now) }
{
    let frozen = metadata.frozen();
    let mut plan = Plan::new(alloc, frozen.geometry(), found.number);
    let mut after = Cells::new(alloc);
    add_blocks(metadata, found.directory, &mut after)?;
    let position = found.slot / SLOTS as u32;
    let slot = Slot {
        index: found.slot,
        block: found.block,
        bytes: bytes_of(metadata, found.directory, position, found.block),
    };
    let entry = entry(found.number, name);
    put_slot(alloc, &mut plan, &slot, &entry, after)?;
    Ok(plan)
}
