//! Which files a workload makes, where they stand on the volume, and what becomes of them.
use crate::command::Command;
use crate::update_lists::{creation, growth, removal};
use inode::DIRECT_POINTERS;
use layout::{Geometry, Refusal};
use std::alloc::Global;

/// In how many blocks the cells of the updates stand.
#[derive(Clone, Copy, PartialEq, Eq)]
pub enum Spread {
    /// In 1,000: one group. Files have four blocks, and grow by one at a time.
    Few,
    /// In 80,000 where there are updates enough: 20 groups, with the same files.
    Medium,
    /// In 200,000 where there are updates enough: the largest volume. Files have 64 blocks, which they get at once.
    Many,
}

impl Spread {
    /// The spread of this name.
    pub fn of_name(name: &str) -> Option<Spread> {
        match name {
            "few" => Some(Spread::Few),
            "medium" => Some(Spread::Medium),
            "many" => Some(Spread::Many),
            _ => None,
        }
    }

    /// The volume.
    pub fn geometry(self) -> Result<Geometry, Refusal> {
        match self {
            Spread::Few => Geometry::new(1, 1_000, 256),
            Spread::Medium => Geometry::new(20, 4_000, 1_024),
            Spread::Many => Geometry::new(64, 4_096, 1_024),
        }
    }

    /// How often a file grows, and by how many blocks each time.
    fn growths(self) -> (u32, u32) {
        match self {
            Spread::Few | Spread::Medium => (4, 1),
            Spread::Many => (1, 64),
        }
    }

    /// How many blocks a file has at last, its indirect one among them.
    fn blocks_a_file(self) -> u32 {
        let (times, blocks) = self.growths();
        let data = times.saturating_mul(blocks);
        if data > DIRECT_POINTERS as u32 {
            data.saturating_add(1)
        } else {
            data
        }
    }
}

/// How many entries a block of a directory has.
const ENTRIES: u32 = 16;

/// How many numbers of a group no file gets: 0, 1 and the directory's.
const OTHER_NUMBERS: u32 = 3;

/// A file, and where it stands.
#[derive(Clone, Copy, PartialEq, Eq)]
pub struct File {
    /// Its number.
    pub number: u32,
    /// The block of the directory that has its entry, by its address.
    pub entries: u32,
    /// The group of its blocks.
    group: u32,
    /// The bit that its first block has in the group's map. The others follow.
    bit: u32,
}

impl File {
    /// The address of its block at this position; its indirect block comes after the others.
    pub fn address(&self, geometry: &Geometry, position: u32) -> Result<u32, Refusal> {
        let bit = self.bit.checked_add(position).ok_or(Refusal::NoBlock)?;
        address_of(geometry, self.group, bit).ok_or(Refusal::NoBlock)
    }
}

/// The address of the data block with this bit of a group's map, if the group has so many.
fn address_of(geometry: &Geometry, group: u32, bit: u32) -> Option<u32> {
    let room = geometry.blocks_a_group() - geometry.header_blocks();
    if group < geometry.groups() && bit < room {
        Some(geometry.data_address(group, bit))
    } else {
        None
    }
}

/// The lives of one file after the other.
#[derive(Clone, Copy, PartialEq, Eq)]
pub struct Lives {
    spread: Spread,
    geometry: Geometry,
    /// How many files a group has where it is full.
    files_a_group: u32,
    /// How many lives there were.
    next: u32,
}

impl Lives {
    /// On a fresh volume.
    pub fn new(spread: Spread) -> Result<Lives, Refusal> {
        let geometry = spread.geometry()?;
        Ok(Lives {
            spread,
            geometry,
            files_a_group: files_a_group(&geometry, spread.blocks_a_file()).ok_or(
                Refusal::NoBlock,
            )?,
            next: 0,
        })
    }

    /// The volume.
    pub fn geometry(&self) -> Geometry {
        self.geometry
    }

    /// The commands of the next file's life. Where the volume is full, the file that has its place goes first.
    pub fn next(&mut self, alloc: Global) -> Result<Vec<Command>, Refusal> {
        let files = self.files_a_group.saturating_mul(self.geometry.groups());
        let slot = self.next.checked_rem(files).ok_or(Refusal::NoInode)?;
        let file = self.file_at(slot).ok_or(Refusal::NoInode)?;
        let mut commands = Vec::new(alloc);
        if self.next >= files {
            let blocks = self.spread.blocks_a_file();
            commands.push(removal(alloc, &self.geometry, &file, blocks)?)?;
        }
        self.next = self.next.saturating_add(1);
        commands.push(creation(alloc, &self.geometry, &file)?)?;
        let (times, more) = self.spread.growths();
        let mut blocks = 0u32;
        for _ in 0..times {
            let grown = blocks.saturating_add(more);
            commands.push(growth(alloc, &self.geometry, &file, blocks, grown)?)?;
            blocks = grown;
        }
        Ok(commands)
    }

    /// The file of this place: one group after the other, and in each the numbers and the blocks in order.
    fn file_at(&self, slot: u32) -> Option<File> {
        let group = slot.checked_rem(self.geometry.groups())?;
        let place = slot.checked_div(self.geometry.groups())?;
        let first = group.checked_mul(self.geometry.inodes_a_group())?;
        let blocks = self.spread.blocks_a_file();
        let entries = self
            .files_a_group
            .checked_mul(blocks)?
            .checked_add(place / ENTRIES)?;
        Some(File {
            number: first.checked_add(OTHER_NUMBERS)?.checked_add(place)?,
            entries: address_of(&self.geometry, group, entries)?,
            group,
            bit: place.checked_mul(blocks)?,
        })
    }
}

/// How many files a group has where it is full: as many as it has numbers for, and blocks for them and their entries.
fn files_a_group(geometry: &Geometry, blocks_a_file: u32) -> Option<u32> {
    let room = geometry.blocks_a_group() - geometry.header_blocks() - 1;
    let blocks = blocks_a_file.checked_mul(ENTRIES)?.checked_add(1)?;
    let by_blocks = room.checked_mul(ENTRIES)?.checked_div(blocks)?;
    let by_numbers = geometry.inodes_a_group() - OTHER_NUMBERS;
    Some(by_blocks.min(by_numbers))
}
