ghost use Rattle.std.specs.Prelude.{◌≡◌, ◌≢◌, ℕ, ◌<◌, ◌≤◌, ◌+◌, ◌/◌, is_some, IsOkUnless, MatchResult, IsTrue, IfSome, ◌⊎◌};
ghost use Rattle.std.specs.Option.{option_map};
ghost use Rattle.std.specs.Result.{OkIff};
ghost use Rattle.model.specs.Layout.{Geometry as Numbers, IsGeometry, block_count, inode_count, header_blocks, group_block, data_address, is_data_address, data_bit, group_of_address, inode_block, inode_byte};
ghost use Rattle.model.specs.Shape.{first_block, most_blocks, place_in_table, position_count, reaches, table_of, tables};
ghost use Rattle.model.specs.Image.{IsSuper};
ghost use Rattle.model.specs.Units.{AreNumbers};

use crate::{Block, Refusal, u32_at};
use std::marker::Model;
use std::ops::Range;

/// The first four bytes of a superblock, as a number.
pub const SUPER_MAGIC: u32 = 0x5355_5631;

/// The version of the layout in which records have no double indirect pointer.
pub const SINGLE: u32 = 1;

/// The version of the layout in which records have one.
pub const DOUBLE: u32 = 2;

/// The number of the root, the least inode number that is given out.
pub const ROOT: u32 = 2;

/// How many records of inodes a block holds.
pub const INODES_PER_BLOCK: u32 = 8;

/// How many bytes the record of an inode has.
pub const INODE_BYTES: u32 = 128;

/// How many pointers to blocks stand in a record; the others stand in blocks of pointers, which are a file's tables.
pub const DIRECT_POINTERS: usize = 12;

/// How many pointers a table holds.
const TABLE_POINTERS: u32 = 256;

/// How many blocks have their pointers in the record or in its first table, the indirect block.
const SINGLE_BLOCKS: u32 = 268;

/// How many blocks a file may have, whatever volume it is in: no volume allows more. The positions of its tables come behind
/// those of its blocks.
pub const MOST_BLOCKS: u32 = 65_804;

/// How many cylinder groups a volume has, how many blocks a group and how many inodes a group, and the version of its layout.
#[derive(Clone, Copy, Debug, PartialEq, Eq)]
pub struct Geometry {
    groups: u32,
    blocks: u32,
    inodes: u32,
    version: u32,
}

impl Model for Geometry {
    ghost use Rattle.model.specs.Layout.{Geometry as Numbers, IsGeometry};

    ghost Value = { Numbers };

    ghost view = { λ g. record { groups = g.groups; blocks = g.blocks; inodes = g.inodes; version = g.version } };

    ghost invariant = { λ g. IsGeometry (record { groups = g.groups; blocks = g.blocks; inodes = g.inodes; version = g.version }) };

    ghost inverse = { λ n. record { groups = n.groups; blocks = n.blocks; inodes = n.inodes; version = n.version } };
}

/// Where a data block stands: its group, and its bit in the group's map of data blocks.
#[derive(Clone, Copy, Debug, PartialEq, Eq)]
pub struct DataPlace {
    pub group: u32,
    pub bit: u32,
}

/// Where the record of an inode stands: its block's address, and the byte of the block where it begins.
#[derive(Clone, Copy, Debug, PartialEq, Eq)]
pub struct InodePlace {
    pub address: u32,
    pub byte: usize,
}

/// Where the pointer of a position stands that a table holds: the position of the table, and which of the pointers there
/// it is.
#[derive(Clone, Copy, Debug, PartialEq, Eq)]
pub struct TablePlace {
    pub table: u32,
    pub place: usize,
}

impl Geometry {
    /// The geometry of these numbers, in version 1: 1 to 64 groups, 8 to 4,096 blocks a group, and 8 to 1,024 inodes a
    /// group, a multiple of 8, whose blocks and the block of maps leave a data block in each group.
    pub fn new(groups: u32, blocks: u32, inodes: u32) -> Result<Geometry, Refusal>
        ensures ok { OkIff result (IsGeometry (record { groups = groups; blocks = blocks; inodes = inodes; version = 1 }))
            (record { groups = groups; blocks = blocks; inodes = inodes; version = 1 }) }
        ensures error { IsOkUnless result Refusal.BadGeometry }
    {
        let few_groups = 1 <= groups && groups <= 64;
        let few_blocks = 8 <= blocks && blocks <= 4096;
        let few_inodes = 8 <= inodes && inodes <= 1024;
        if !(few_groups && few_blocks && few_inodes) {
            return Err(Refusal::BadGeometry);
        }
        if inodes % INODES_PER_BLOCK != 0 || 1 + inodes / INODES_PER_BLOCK >= blocks {
            return Err(Refusal::BadGeometry);
        }
        Ok(Geometry {
            groups,
            blocks,
            inodes,
            version: SINGLE,
        })
    }

    /// The same numbers in this version of the layout, 1 or 2.
    pub fn with_version(&self, version: u32) -> Result<Geometry, Refusal>
        ensures ok { OkIff result ((version ≡ 1) ⊎ (version ≡ 2)) (record self.now { version = version }) }
        ensures error { IsOkUnless result Refusal.BadSuper }
    {
        if version != SINGLE && version != DOUBLE {
            return Err(Refusal::BadSuper);
        }
        Ok(Geometry { version, ..*self })
    }

    /// The version of the layout: 1 or 2.
    pub fn version(&self) -> u32
        ensures version { result ≡ self.now.version }
        ensures known { (result ≡ 1) ⊎ (result ≡ 2) }
    {
        self.version
    }

    /// How many cylinder groups there are.
    pub fn groups(&self) -> u32
        ensures count { result ≡ self.now.groups }
        ensures geometry { IsGeometry self.now }
    {
        self.groups
    }

    /// How many blocks a group has.
    pub fn blocks_a_group(&self) -> u32
        ensures count { result ≡ self.now.blocks }
        ensures geometry { IsGeometry self.now }
    {
        self.blocks
    }

    /// How many inodes a group has.
    pub fn inodes_a_group(&self) -> u32
        ensures count { result ≡ self.now.inodes }
        ensures geometry { IsGeometry self.now }
    {
        self.inodes
    }

    /// How many blocks the volume has.
    pub fn blocks(&self) -> u32
        ensures count { result ≡ block_count self.now }
        ensures few { result ≤ 262_145 }
        ensures geometry { IsGeometry self.now }
    {
        1 + self.groups * self.blocks
    }

    /// How many inode numbers there are; 0 and 1 are among them, and are never given out.
    pub fn inodes(&self) -> u32
        ensures count { result ≡ inode_count self.now }
        ensures few { result ≤ 65_536 }
        ensures geometry { IsGeometry self.now }
    {
        self.groups * self.inodes
    }

    /// How many blocks of a group come before its data blocks: its block of maps, and its blocks of inodes.
    pub fn header_blocks(&self) -> u32
        ensures count { result ≡ header_blocks self.now }
        ensures room_for_data { result < self.now.blocks }
    {
        1 + self.inodes / INODES_PER_BLOCK
    }

    /// The address of a group's block of maps.
    pub fn group_block(&self, group: u32) -> u32
        requires { group < self.now.groups }
        ensures address { result ≡ group_block self.now group }
        ensures on_volume { result + self.now.blocks ≤ block_count self.now }
        ensures few { block_count self.now ≤ 262_145 }
        ensures geometry { IsGeometry self.now }
    {
        1 + group * self.blocks
    }

    /// The address of the group's first data block.
    pub fn data_start(&self, group: u32) -> u32
        requires { group < self.now.groups }
        ensures address { result ≡ data_address self.now group 0 }
        ensures on_volume { result < block_count self.now }
    {
        self.group_block(group) + self.header_blocks()
    }

    /// The address of the data block that has this bit in its group's map.
    pub fn data_address(&self, group: u32, bit: u32) -> u32
        requires group { group < self.now.groups }
        requires bit { header_blocks self.now + bit < self.now.blocks }
        ensures address { result ≡ data_address self.now group bit }
        ensures is_data { IsTrue (is_data_address self.now result) }
    {
        self.group_block(group) + self.header_blocks() + bit
    }

    /// Which data block has this address: `None` where no data block has it.
    pub fn place_of(&self, address: u32) -> Option<DataPlace>
        ensures exactly { is_some result ≡ is_data_address self.now address }
        ensures group { IfSome result (λ place. (place.group ≡ group_of_address self.now address) × (place.group < self.now.groups)) }
        ensures bit { IfSome result (λ place. (place.bit ≡ data_bit self.now address) × (header_blocks self.now + place.bit < self.now.blocks)) }
        ensures place { IfSome result (λ place. data_address self.now place.group place.bit ≡ address) }
    {
        if address == 0 || address >= self.blocks() {
            return None;
        }
        let group = (address - 1) / self.blocks;
        let place = (address - 1) % self.blocks;
        if place < self.header_blocks() {
            return None;
        }
        Some(DataPlace {
            group,
            bit: place - self.header_blocks(),
        })
    }

    /// How many blocks a file may have, which is the position of its first table.
    pub fn most_blocks(&self) -> u32
        ensures count { result ≡ most_blocks self.now }
        ensures few { result ≤ 65_804 }
    {
        if self.version == DOUBLE {
            MOST_BLOCKS
        } else {
            SINGLE_BLOCKS
        }
    }

    /// How many positions there are.
    fn position_count(&self) -> u32
        ensures count { result ≡ position_count self.now }
        ensures few { result ≤ 66_062 }
    {
        if self.version == DOUBLE {
            MOST_BLOCKS + 2 + TABLE_POINTERS
        } else {
            SINGLE_BLOCKS + 1
        }
    }

    /// The block with which a file begins to have a position.
    fn first_block(&self, position: u32) -> u32
        requires { position < position_count self.now }
        ensures { result ≡ first_block self.now position }
    {
        let most = self.most_blocks();
        if position < most {
            return position;
        }
        if position == most {
            return DIRECT_POINTERS as u32;
        }
        SINGLE_BLOCKS + TABLE_POINTERS * position.saturating_sub(most + 2)
    }

    /// Whether a file of so many blocks has a position: that of one of its blocks, or of a table that they need.
    pub fn reaches(&self, blocks: u32, position: u32) -> bool
        ensures { result ≡ reaches self.now blocks position }
    {
        position < self.position_count() && self.first_block(position) < blocks
    }

    /// The position behind that of the last table of a file of so many blocks: its tables stand at those from
    /// `most_blocks` on.
    pub fn tables_end(&self, blocks: u32) -> u32
        requires { blocks ≤ most_blocks self.now }
        ensures end { result ≡ most_blocks self.now + tables blocks }
        ensures inside { result ≤ position_count self.now }
        ensures few { result ≤ 66_062 }
    {
        self.most_blocks() + tables(blocks)
    }

    /// Where the pointer of a position stands if a table holds it; `None` where the record holds it.
    pub fn pointer_place(&self, position: u32) -> Option<TablePlace>
        requires { position < position_count self.now }
        ensures table { option_map (λ place. place.table) result ≡ table_of self.now position }
        ensures place { IfSome result (λ place. place.place ≡ place_in_table self.now position) }
        ensures inside { IfSome result (λ place. (place.table < position_count self.now) × (place.place < 256)) }
    {
        let most = self.most_blocks();
        if position < DIRECT_POINTERS as u32 {
            None
        } else if position < SINGLE_BLOCKS {
            let place = position as usize - DIRECT_POINTERS;
            Some(TablePlace { table: most, place })
        } else if position < most {
            let behind = position - SINGLE_BLOCKS;
            Some(TablePlace {
                table: most + 2 + behind / TABLE_POINTERS,
                place: (behind % TABLE_POINTERS) as usize,
            })
        } else if position < most + 2 {
            None
        } else {
            let place = (position - (most + 2)) as usize;
            let table = most + 1;
            Some(TablePlace { table, place })
        }
    }

    /// Where the record of an inode stands.
    pub fn inode_place(&self, number: u32) -> InodePlace
        requires { number < inode_count self.now }
        ensures address { result.address ≡ inode_block self.now number }
        ensures byte { result.byte ≡ inode_byte number }
        ensures on_volume { result.address < block_count self.now }
        ensures in_block { result.byte + 128 ≤ 1024 }
    {
        let group = number / self.inodes;
        let place = number % self.inodes;
        InodePlace {
            address: self.group_block(group) + 1 + place / INODES_PER_BLOCK,
            byte: (INODE_BYTES * (number % INODES_PER_BLOCK)) as usize,
        }
    }

    /// The group that an inode stands in.
    pub fn group_of(&self, number: u32) -> u32
        requires { number < inode_count self.now }
        ensures group { result ≡ number / self.now.inodes }
        ensures in_volume { result < self.now.groups }
    {
        number / self.inodes
    }

    /// The numbers of a group's inodes, without those that are never given out.
    pub fn numbers_of(&self, group: u32) -> Range<u32>
        requires { group < self.now.groups }
        ensures { AreNumbers self.now group result }
    {
        let first = group * self.inodes;
        first.max(ROOT)..first + self.inodes
    }
}

/// How many tables a file of so many blocks has.
fn tables(blocks: u32) -> u32
    ensures { result ≡ tables blocks }
{
    if blocks <= DIRECT_POINTERS as u32 {
        0
    } else if blocks <= SINGLE_BLOCKS {
        1
    } else {
        2 + (blocks - SINGLE_BLOCKS).div_ceil(TABLE_POINTERS)
    }
}

/// The geometry that a superblock tells.
pub fn read_super(block: &Block) -> Result<Geometry, Refusal>
    ensures ok { MatchResult result (λ geo. IsGeometry geo × IsSuper geo block.now) (λ _. (geo : Numbers) → IsGeometry geo → IsSuper geo block.now → ⊥) }
    ensures error { IsOkUnless result Refusal.BadSuper }
{
    if u32_at(block, 0) != SUPER_MAGIC {
        return Err(Refusal::BadSuper);
    }
    match Geometry::new(u32_at(block, 8), u32_at(block, 12), u32_at(block, 16)) {
        Ok(geometry) => geometry.with_version(u32_at(block, 4)),
        Err(_) => Err(Refusal::BadSuper),
    }
}

/// No two data blocks have one address, and no two inodes one place; and blocks of maps, blocks of inodes and data
/// blocks are different blocks.
pub fn places_are_one_to_one()
    ensures data_blocks { (geo : Numbers) → IsGeometry geo → (g bit h other : ℕ) → header_blocks geo + bit < geo.blocks → header_blocks geo + other < geo.blocks
        → data_address geo g bit ≡ data_address geo h other → (g ≡ h) × (bit ≡ other) }
    ensures inodes { (geo : Numbers) → IsGeometry geo → (m n : ℕ) → inode_block geo m ≡ inode_block geo n → inode_byte m ≡ inode_byte n → m ≡ n }
    ensures maps_and_inodes { (geo : Numbers) → IsGeometry geo → (g n : ℕ) → group_block geo g ≢ inode_block geo n }
    ensures maps_and_data { (geo : Numbers) → IsGeometry geo → (g a : ℕ) → IsTrue (is_data_address geo a) → group_block geo g ≢ a }
    ensures inodes_and_data { (geo : Numbers) → IsGeometry geo → (n a : ℕ) → IsTrue (is_data_address geo a) → inode_block geo n ≢ a }
{}
