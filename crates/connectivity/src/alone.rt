ghost use Rattle.std.specs.Prelude.{◌≡◌, ℕ, List, [], ◌∷◌, IfOk, OnOk, IsOkUnless};
ghost use Rattle.frozen.specs.Kept.{frozen_view};
ghost use Rattle.directories.specs.Named.{IsNamed};
ghost use Rattle.directories.specs.Pieces.{HasEveryNumber, Numbers};
ghost use Rattle.model.specs.Reached.{AreReached};
ghost use Rattle.connectivity.specs.Walk.{Visits, numbers_of};

use crate::Part;
use directories::whole_tables_have_every_directory;
use frozen::Frozen;
use layout::{ROOT, Refusal};
use sets::Members;
use std::alloc::Global;
use std::collections::BTreeSet;

/// The reachable inodes: the root, if it is a sound directory, and each sound inode that an entry of a reachable
/// directory names.
///
/// The walk goes in rounds, from the root on: each round follows the entries of the directories that the one before
/// reached first. So each directory is followed once, and the work is that of the entries, whatever they name.
pub fn walk(alloc: Global, frozen: &Frozen, whole: &Part) -> Result<Members, Refusal>
    ensures reached { IfOk result (λ reached. (numbers : Numbers) → IsNamed frozen.now.geometry (frozen_view frozen.now) 2 numbers whole.now
        → HasEveryNumber frozen.now.geometry numbers
        → AreReached frozen.now.geometry (frozen_view frozen.now) reached) }
    ensures error { IsOkUnless result Refusal.NoMemory }
{
    whole_tables_have_every_directory();
    let mut reached = BTreeSet::new(alloc);
    let mut round = Vec::new(alloc);
    if frozen.is_directory_at(ROOT) {
        visit(frozen, ROOT, &mut reached, &mut round)?;
    }
    while !round.is_empty() {
        round = next_round(alloc, frozen, whole, round.as_slice(), &mut reached)?;
    }
    Ok(Members::of_set(alloc, &reached)?)
}

/// Follows the entries of the directories of a round. The result has the directories that they reach first.
fn next_round(
    alloc: Global,
    frozen: &Frozen,
    whole: &Part,
    round: &[u32],
    reached: &mut BTreeSet<u32>,
) -> Result<Vec<u32>, Refusal>
    ensures visited { IfOk result (λ next. Visits frozen.now.geometry (frozen_view frozen.now) (numbers_of whole.now round.now) reached.old.keys [] reached.new.keys next.items) }
    ensures error { IsOkUnless result Refusal.NoMemory }
{
    let mut next = Vec::new(alloc);
    for directory in round {
        visit_all(frozen, whole.of(*directory), reached, &mut next)?;
    }
    Ok(next)
}

/// Visits the inodes of these numbers.
fn visit_all(
    frozen: &Frozen,
    numbers: &[u32],
    reached: &mut BTreeSet<u32>,
    next: &mut Vec<u32>,
) -> Result<(), Refusal>
    ensures visited { OnOk result (Visits frozen.now.geometry (frozen_view frozen.now) numbers.now reached.old.keys next.old.items reached.new.keys next.new.items) }
    ensures error { IsOkUnless result Refusal.NoMemory }
{
    for number in numbers {
        visit(frozen, *number, reached, next)?;
    }
    Ok(())
}

/// Visits the inode of a number: a sound one is reached, and a directory that was not reached before is for the next
/// round.
fn visit(
    frozen: &Frozen,
    number: u32,
    reached: &mut BTreeSet<u32>,
    next: &mut Vec<u32>,
) -> Result<(), Refusal>
    ensures visited { OnOk result (Visits frozen.now.geometry (frozen_view frozen.now) (number ∷ []) reached.old.keys next.old.items reached.new.keys next.new.items) }
    ensures error { IsOkUnless result Refusal.NoMemory }
{
    if !frozen.is_sound_at(number) {
        return Ok(());
    }
    let is_new = reached.insert(number)?;
    if is_new && frozen.is_directory_at(number) {
        next.push(number)?;
    }
    Ok(())
}
