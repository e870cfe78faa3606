ghost use Rattle.std.specs.Prelude.{◌≡◌, ℕ, IfOk, OnOk, IsOkUnless};
ghost use Rattle.std.specs.List.{Contains};
ghost use Rattle.model.specs.Growth.{Adds};
ghost use Rattle.directories.specs.Pieces.{HasEveryNumber, Numbers};
ghost use Rattle.model.specs.Reached.{AreReached};
ghost use Rattle.findings.specs.Findings.{AreFindingsOf, is_of_names};
ghost use Rattle.frozen.specs.Kept.{frozen_view};
ghost use Rattle.phase_names.specs.Entries.{AtBelow, IsFoundAlone, IsRootBad, IsWithoutParent, has_parent, told_by};
ghost use Rattle.phase_names.specs.Told.{IsPart};

use crate::entries::{add_extra_names, held_by_parents, reached_entries};
use crate::parts::Part;
use findings::{Finding, in_order};
use frozen::Frozen;
use layout::{ROOT, Refusal};
use sets::Members;
use std::alloc::{AllocError, Global};
use std::collections::BTreeSet;

/// The findings of phase 2, of the reachable directories. Only `NoMemory` is refused.
pub fn finish(
    alloc: Global,
    frozen: &Frozen,
    whole: &Part,
    reached: &Members,
) -> Result<Vec<Finding>, Refusal>
    ensures found { IfOk result (λ found. (numbers : Numbers) → IsPart frozen.now.geometry (frozen_view frozen.now) numbers whole.now
        → HasEveryNumber frozen.now.geometry numbers
        → AreReached frozen.now.geometry (frozen_view frozen.now) reached.now
        → AreFindingsOf is_of_names frozen.now.geometry (frozen_view frozen.now) found.items) }
    ensures error { IsOkUnless result Refusal.NoMemory }
{
    let inodes = frozen.geometry().inodes();
    let members = directories_of(alloc, whole, reached)?;
    let entries = reached_entries(alloc, whole, &members, inodes)?;
    let held = held_by_parents(alloc, whole, &entries)?;
    let mut found = Vec::new(alloc);
    add_root(frozen, &mut found)?;
    add_alone(whole, &members, inodes, &mut found)?;
    add_extra_names(alloc, &entries, &mut found)?;
    add_without_parent(whole, &members, inodes, &held, &mut found)?;
    in_order(found)
}

/// The directories of a table that are reached. Of each number they tell what all that is reached tells; to ask whether a
/// number is one of them takes no search, and a search of the table is left out for each file.
fn directories_of(alloc: Global, whole: &Part, reached: &Members) -> Result<Members, AllocError>
    ensures { IfOk result (λ directories. (d : ℕ) → told_by whole.now directories d ≡ told_by whole.now reached.now d) }
{
    let mut directories = whole.numbers(alloc)?;
    directories.retain(|directory| reached.has(*directory));
    Members::new(alloc, directories)
}

/// Adds that the root is no sound directory, where it is none.
fn add_root(frozen: &Frozen, found: &mut Vec<Finding>) -> Result<(), AllocError>
    ensures { OnOk result (Adds (IsRootBad frozen.now.geometry (frozen_view frozen.now)) found.old.items found.new.items) }
{
    if !frozen.is_directory_at(ROOT) {
        found.push(Finding::RootBad)?;
    }
    Ok(())
}

/// Adds what is found of the slots of each reached directory alone.
fn add_alone(
    whole: &Part,
    reached: &Members,
    inodes: u32,
    found: &mut Vec<Finding>,
) -> Result<(), AllocError>
    ensures { OnOk result (Adds (AtBelow (IsFoundAlone whole.now reached.now) inodes) found.old.items found.new.items) }
{
    for directory in 0..inodes {
        if let Some(look) = whole.reached(reached, directory) {
            add_all(look.findings(), found)?;
        }
    }
    Ok(())
}

/// Adds these findings.
fn add_all(findings: &BTreeSet<Finding>, found: &mut Vec<Finding>) -> Result<(), AllocError>
    ensures { OnOk result (Adds (Contains findings.now.keys) found.old.items found.new.items) }
{
    found.extend(findings.iter().copied())
}

/// Adds the reached directories that do not have their parents. The directories in `held` have an entry in the
/// directory that their slot 1 names.
fn add_without_parent(
    whole: &Part,
    reached: &Members,
    inodes: u32,
    held: &BTreeSet<u32>,
    found: &mut Vec<Finding>,
) -> Result<(), AllocError>
    ensures { OnOk result (Adds (AtBelow (IsWithoutParent whole.now reached.now held.now.keys) inodes) found.old.items found.new.items) }
{
    for directory in 0..inodes {
        if let Some(look) = whole.reached(reached, directory) {
            if !has_parent(held, directory, look.parent()) {
                found.push(Finding::BadDotDot(directory))?;
            }
        }
    }
    Ok(())
}

/// Whether a reached directory whose slot 1 names `parent` has its parent: the root names itself, and any other
/// directory one that holds it.
fn has_parent(held: &BTreeSet<u32>, directory: u32, parent: u32) -> bool
    ensures { result ≡ has_parent held.now.keys directory parent }
{
    if directory == ROOT {
        parent == ROOT
    } else {
        held.contains(&directory)
    }
}
