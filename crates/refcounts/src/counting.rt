//! How many entries name each inode of a group.
ghost use Rattle.std.specs.Prelude.{◌≡◌, ◌<◌, ◌≤◌, ℕ, List, IfOk, IsOkUnless, [], length};
ghost use Rattle.frozen.specs.Kept.{frozen_view};
ghost use Rattle.model.specs.Reached.{AreReached};
ghost use Rattle.model.specs.Layout.{inode_count};
ghost use Rattle.directories.specs.Pieces.{AreOfPieces};
ghost use Rattle.refcounts.specs.Counts.{AreCounts, AreEntries, Counted, CountsOne, count_at};
ghost use Rattle.refcounts.specs.Parts.{IsPart};

use crate::parts::Part;
use frozen::Frozen;
use layout::{Geometry, Refusal};
use std::alloc::{AllocError, Global};
use std::marker::Model;

/// How many entries of reachable directories name each inode of a cylinder group, the dots among them, by its place in
/// the group. They may be more than 32 bits count: directories that share their blocks name an inode as often as each.
#[derive(Drop)]
pub struct EntryCounts {
    entries: Vec<u64>,
}

impl Model for EntryCounts {
    ghost use Rattle.std.specs.Prelude.{List, ℕ};
    ghost use Rattle.refcounts.specs.Counts.{AreCounts};

    ghost Value = { List ℕ };

    ghost view = { λ c. c.entries.items };

    ghost invariant = { λ c. AreCounts c.entries.items };
}

impl EntryCounts {
    /// No entries for each of so many inodes.
    fn none(alloc: Global, inodes: u32) -> Result<EntryCounts, AllocError>
        ensures length { IfOk result (λ counts. length counts ≡ inodes) }
        ensures none { IfOk result (λ counts. (k : ℕ) → count_at counts k ≡ 0) }
    {
        let entries = vec![in alloc; 0; inodes as usize]?;
        Ok(EntryCounts { entries })
    }

    /// How many entries name the inode at this place; none past the last place.
    pub fn of(&self, place: u32) -> u64
        ensures { result ≡ count_at self.now place }
    {
        match self.entries.get(place as usize) {
            Some(entries) => *entries,
            None => 0,
        }
    }

    /// Adds one to the count of each of these numbers that is of the group, for each time that it stands there.
    fn add_all(&mut self, geometry: &Geometry, group: u32, numbers: &[u32])
        ensures length { length self.new ≡ length self.old }
        ensures counted { length self.old ≡ geometry.now.inodes → Counted geometry.now group numbers.now self.old self.new }
        ensures counts { AreCounts self.old → AreCounts self.new }
    {
        for number in numbers {
            self.add(geometry, group, *number);
        }
    }

    /// Adds one to the count of this number, if it is of the group and as far as there is room.
    fn add(&mut self, geometry: &Geometry, group: u32, number: u32)
        ensures length { length self.new ≡ length self.old }
        ensures counted { length self.old ≡ geometry.now.inodes → CountsOne geometry.now group number self.old self.new }
        ensures counts { AreCounts self.new }
    {
        let inodes = geometry.inodes_a_group();
        let index = (number % inodes) as usize;
        if number / inodes == group && index < self.entries.len() {
            self.entries[index] = self.entries[index].saturating_add(1);
        }
    }
}

/// How many entries the inodes of this group have, where the parts are those of all pieces, in order. A unit that is no group has
/// no inodes. Only `NoMemory` is refused.
pub fn counts(
    alloc: Global,
    frozen: &Frozen,
    parts: &[Part],
    unit: u32,
) -> Result<EntryCounts, Refusal>
    ensures counts { IfOk result (λ counts. (reached : List ℕ) → AreReached frozen.now.geometry (frozen_view frozen.now) reached
        → AreOfPieces (IsPart frozen.now.geometry (frozen_view frozen.now) reached) (inode_count frozen.now.geometry) parts.now
        → unit < frozen.now.geometry.groups
        → AreEntries frozen.now.geometry (frozen_view frozen.now) unit counts) }
    ensures no_group { IfOk result (λ counts. frozen.now.geometry.groups ≤ unit → counts ≡ []) }
    ensures error { IsOkUnless result Refusal.NoMemory }
{
    let geometry = frozen.geometry();
    if unit >= geometry.groups() {
        return Ok(EntryCounts::none(alloc, 0)?);
    }
    let mut counts = EntryCounts::none(alloc, geometry.inodes_a_group())?;
    for part in parts {
        counts.add_all(&geometry, unit, part.of(unit));
    }
    Ok(counts)
}
