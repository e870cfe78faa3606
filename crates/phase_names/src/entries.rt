ghost use Rattle.std.specs.Prelude.{◌≡◌, ◌++◌, [], IfOk, OnOk, IsOkUnless, length};
ghost use Rattle.model.specs.Growth.{Adds};
ghost use Rattle.phase_names.specs.Entries.{AtBelow, IsExtraAt, IsHeldAt, entries_below, entries_from};

use crate::look::Naming;
use crate::parts::Part;
use findings::Finding;
use layout::{ROOT, Refusal};
use sets::Members;
use std::alloc::{AllocError, Global};
use std::collections::BTreeSet;

/// An entry of a reachable directory that names the root or a sound directory: the directory, the slot, and the number
/// that it names.
#[derive(Clone, Copy, Debug, PartialEq, Eq)]
pub(crate) struct Entry {
    pub(crate) directory: u32,
    pub(crate) slot: u32,
    pub(crate) inode: u32,
}

/// The entries of the reached directories below a number, in order of the directories and then of the slots.
pub(crate) fn reached_entries(
    alloc: Global,
    whole: &Part,
    reached: &Members,
    inodes: u32,
) -> Result<Vec<Entry>, AllocError>
    ensures { IfOk result (λ entries. entries.items ≡ entries_below whole.now reached.now inodes) }
{
    let mut entries = Vec::new(alloc);
    for directory in 0..inodes {
        if let Some(look) = whole.reached(reached, directory) {
            add_entries(&mut entries, directory, look.directories())?;
        }
    }
    Ok(entries)
}

/// Adds these slots of a directory.
fn add_entries(
    entries: &mut Vec<Entry>,
    directory: u32,
    namings: &[Naming],
) -> Result<(), AllocError>
    ensures { OnOk result (entries.new.items ≡ entries.old.items ++ entries_from directory namings.now) }
{
    for naming in namings {
        entries.push(Entry {
            directory,
            slot: naming.slot,
            inode: naming.inode,
        })?;
    }
    Ok(())
}

/// Adds the entries that name the root, or what an earlier entry names.
pub(crate) fn add_extra_names(
    alloc: Global,
    entries: &[Entry],
    found: &mut Vec<Finding>,
) -> Result<(), Refusal>
    ensures found { OnOk result (Adds (AtBelow (IsExtraAt entries.now) (length entries.now)) found.old.items found.new.items) }
    ensures error { IsOkUnless result Refusal.NoMemory }
{
    let mut seen = BTreeSet::new(alloc);
    for entry in entries {
        let is_first = seen.insert(entry.inode)?;
        if entry.inode == ROOT || !is_first {
            found.push(Finding::ExtraName(entry.directory, entry.slot))?;
        }
    }
    Ok(())
}

/// The directories with an entry in the directory that their slot 1 names.
pub(crate) fn held_by_parents(
    alloc: Global,
    whole: &Part,
    entries: &[Entry],
) -> Result<BTreeSet<u32>, Refusal>
    ensures held { IfOk result (λ held. Adds (AtBelow (IsHeldAt whole.now entries.now) (length entries.now)) [] held.keys) }
    ensures error { IsOkUnless result Refusal.NoMemory }
{
    let mut held = BTreeSet::new(alloc);
    for entry in entries {
        if whole.parent_of(entry.inode) == entry.directory {
            held.insert(entry.inode)?;
        }
    }
    Ok(held)
}
