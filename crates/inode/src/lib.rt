//! The record of an inode: its mode, links, size and block pointers, as they stand in its 128 bytes of a block of
//! inodes. Numbers stand the least byte first: the mode in bytes 0 and 1, the links in 2 and 3, the size in 4 to 7, the
//! twelve direct pointers in 8 to 55, the indirect pointer in 56 to 59 and, in version 2 of the layout, the double
//! indirect pointer in 60 to 63; in bytes 64 to 127 the attributes, sixteen numbers that are kept for users. No call takes memory.
#![tactic(auto)]

ghost use Rattle.std.specs.Prelude.{◌≡◌, ◌≢◌, ℕ, ◌+◌, ◌*◌, ◌≤◌, ◌<◌, ◌⊎◌, List, None, length, take, drop, slice_index, slice_index_or};
ghost use Rattle.std.specs.Simd.{first_chunks};
ghost use Rattle.layout.specs.Fresh.{put};
ghost use Rattle.model.specs.Shape.{field_at, position_count, table_of, with_field};
ghost use Rattle.model.specs.View.{Fits, Inode, IsSpare, free_inode, inode_at, u32s_at};
ghost use Rattle.model.specs.Uses as uses;
ghost use Rattle.inode.specs.Parts.{without_attributes};

use byteorder::{ByteOrder, LittleEndian};
use layout::{DOUBLE, Geometry};
use std::marker::Model;

/// How many bytes a record has.
pub const RECORD_BYTES: usize = 128;

/// How many pointers to blocks stand in the record itself.
pub const DIRECT_POINTERS: usize = layout::DIRECT_POINTERS;

/// How many numbers the attributes are.
pub const ATTRIBUTES: usize = 16;

/// The mode of a free record.
pub const FREE: u16 = 0;

/// The mode of a file.
pub const FILE: u16 = 1;

/// The mode of a directory.
pub const DIRECTORY: u16 = 2;

/// How many bytes a block has.
const BLOCK_BYTES: u32 = 1024;

/// The record of an inode.
#[derive(Clone, Copy, Debug, PartialEq, Eq)]
pub struct Record {
    /// `FREE`, `FILE` or `DIRECTORY`; a record of any other mode is not sound.
    pub mode: u16,
    /// How many entries name the inode.
    pub links: u16,
    /// How many bytes the file or directory has.
    pub size: u32,
    /// The addresses of the first blocks.
    pub direct: [u32; DIRECT_POINTERS],
    /// The address of the block that holds the addresses of the blocks after those.
    pub indirect: u32,
    /// The address of the block that holds those of further such blocks; 0 in version 1 of the layout.
    pub double: u32,
    /// What is kept of the inode for users.
    pub attributes: [u32; ATTRIBUTES],
}

impl Model for Record {
    ghost use Rattle.model.specs.View.{Inode};

    ghost Value = { Inode };

    ghost view = { λ r. record { mode = r.mode; links = r.links; size = r.size; direct = r.direct; indirect = r.indirect; double = r.double; attributes = r.attributes } };

    ghost inverse = { λ n. record { mode = n.mode; links = n.links; size = n.size; direct = n.direct; indirect = n.indirect; double = n.double; attributes = n.attributes } };
}

impl Record {
    /// Reads a record from its bytes, as this version of the layout has it.
    pub fn read(version: u32, bytes: &[u8; RECORD_BYTES]) -> Record
        ensures { result ≡ inode_at version bytes.now 0 }
    {
        let mut record = Record::read_without_attributes(version, bytes);
        record.attributes = attributes_of(bytes);
        record
    }

    /// Reads a record but for its attributes, which it leaves at 0. They are half of the bytes, and nothing that is found or
    /// planned for an inode's blocks is told by them.
    pub fn read_without_attributes(version: u32, bytes: &[u8; RECORD_BYTES]) -> Record
        ensures { result ≡ without_attributes (inode_at version bytes.now 0) }
    {
        let mut direct = [0; DIRECT_POINTERS];
        LittleEndian::read_u32_into(&bytes[8..56], &mut direct);
        Record {
            mode: mode_of(bytes),
            links: LittleEndian::read_u16(&bytes[2..]),
            size: LittleEndian::read_u32(&bytes[4..]),
            direct,
            indirect: LittleEndian::read_u32(&bytes[56..]),
            double: double_of(version, bytes),
            attributes: [0; ATTRIBUTES],
        }
    }

    /// Reads what stands before the pointers of a record, from its bytes, and leaves all else at 0. That is enough to tell
    /// whether the record is sound, and much quicker.
    pub fn read_head(bytes: &[u8; RECORD_BYTES]) -> Record
        ensures { (version : ℕ) → let inode = inode_at version bytes.now 0 in
            result ≡ record free_inode { mode = inode.mode; links = inode.links; size = inode.size } }
    {
        Record {
            mode: mode_of(bytes),
            links: LittleEndian::read_u16(&bytes[2..]),
            size: LittleEndian::read_u32(&bytes[4..]),
            direct: [0; DIRECT_POINTERS],
            indirect: 0,
            double: 0,
            attributes: [0; ATTRIBUTES],
        }
    }

    /// Writes the record over its bytes, as this version of the layout has it: in version 1 bytes 60 to 63 stay as they were.
    pub fn write(&self, version: u32, bytes: &mut [u8; RECORD_BYTES])
        ensures read { Fits version self.now → inode_at version bytes.new 0 ≡ self.now }
        ensures rest { (k : ℕ) → IsSpare version k → slice_index bytes.new k ≡ slice_index bytes.old k }
    {
        self.write_single(bytes);
        if version == DOUBLE {
            write_double(self.double, bytes);
        }
    }

    /// Writes the record over its bytes, but for its double indirect pointer.
    fn write_single(&self, bytes: &mut [u8; RECORD_BYTES])
        ensures read { inode_at 1 bytes.new 0 ≡ record self.now { double = 0 } }
        ensures rest { (k : ℕ) → 60 ≤ k → k < 64 → slice_index bytes.new k ≡ slice_index bytes.old k }
    {
        self.write_front(bytes);
        write_attributes(&self.attributes, bytes);
    }

    /// Writes the record over bytes 0 to 59.
    fn write_front(&self, bytes: &mut [u8; RECORD_BYTES])
        ensures read { (words : List ℕ) → u32s_at bytes.old 64 16 ≡ words → inode_at 1 bytes.new 0 ≡ record self.now { double = 0; attributes = words } }
        ensures rest { drop 60 bytes.new ≡ drop 60 bytes.old }
    {
        let Record {
            mode,
            links,
            size,
            direct,
            indirect,
            ..
        } = *self;
        LittleEndian::write_u16(&mut bytes[0..2], mode);
        LittleEndian::write_u16(&mut bytes[2..4], links);
        LittleEndian::write_u32(&mut bytes[4..8], size);
        write_direct(&direct, bytes);
        LittleEndian::write_u32(&mut bytes[56..60], indirect);
    }

    /// Whether the record is a file's, or a directory's with a size of one or more whole blocks, and its blocks are
    /// few enough for the layout.
    pub fn is_sound(&self, geometry: &Geometry) -> bool
        ensures { result ≡ uses.is_sound geometry.now self.now }
    {
        let is_whole = self.size > 0 && self.size % BLOCK_BYTES == 0;
        let is_few = self.blocks() <= geometry.most_blocks();
        (self.mode == FILE || self.is_directory() && is_whole) && is_few
    }

    /// The pointer of a position that no table holds: to a block, or to a table.
    pub fn field(&self, geometry: &Geometry, position: u32) -> u32
        requires position { position < position_count geometry.now }
        requires of_record { table_of geometry.now position ≡ None }
        ensures { result ≡ field_at geometry.now self.now position }
    {
        match self.direct.get(position as usize) {
            Some(pointer) => *pointer,
            None if position == geometry.most_blocks() => self.indirect,
            None => self.double,
        }
    }

    /// The record with another pointer for a position that no table holds.
    pub fn with_field(&self, geometry: &Geometry, position: u32, address: u32) -> Record
        requires position { position < position_count geometry.now }
        requires of_record { table_of geometry.now position ≡ None }
        ensures { result ≡ with_field geometry.now self.now position address }
    {
        let mut record = *self;
        let place = position as usize;
        if place < DIRECT_POINTERS {
            record.direct[place] = address;
        } else if position == geometry.most_blocks() {
            record.indirect = address;
        } else {
            record.double = address;
        }
        record
    }

    /// Whether the record has the mode of a directory.
    pub fn is_directory(&self) -> bool
        ensures { result ≡ uses.is_directory self.now }
    {
        self.mode == DIRECTORY
    }

    /// How many blocks the record's size takes.
    pub fn blocks(&self) -> u32
        ensures { result ≡ uses.blocks_of self.now.size }
    {
        blocks_of_size(self.size)
    }
}

/// The mode of a record, of which nothing else is read.
pub fn mode_of(bytes: &[u8; RECORD_BYTES]) -> u16
    ensures { (version : ℕ) → result ≡ (inode_at version bytes.now 0).mode }
{
    LittleEndian::read_u16(&bytes[0..])
}

/// The double indirect pointer; 0 in version 1 of the layout, whose records have none.
fn double_of(version: u32, bytes: &[u8; RECORD_BYTES]) -> u32
    ensures { result ≡ (inode_at version bytes.now 0).double }
{
    if version == DOUBLE {
        LittleEndian::read_u32(&bytes[60..])
    } else {
        0
    }
}

/// The attributes. They are read one by one: `read_u32_into` stands once in this crate, so that it is compiled in its place.
fn attributes_of(bytes: &[u8; RECORD_BYTES]) -> [u32; ATTRIBUTES]
    ensures { (version : ℕ) → result ≡ (inode_at version bytes.now 0).attributes }
{
    let mut attributes = [0; ATTRIBUTES];
    for place in 0..ATTRIBUTES {
        attributes[place] = LittleEndian::read_u32(&bytes[64 + 4 * place..]);
    }
    attributes
}

/// How many blocks a size in bytes takes: it is rounded up.
pub fn blocks_of_size(size: u32) -> u32
    ensures { result ≡ uses.blocks_of size }
{
    size.div_ceil(BLOCK_BYTES)
}

/// Writes the direct pointers over bytes 8 to 55.
fn write_direct(pointers: &[u32; DIRECT_POINTERS], bytes: &mut [u8; RECORD_BYTES])
    ensures read { u32s_at bytes.new 8 12 ≡ pointers.now }
    ensures rest { (k : ℕ) → (k < 8) ⊎ (56 ≤ k) → slice_index bytes.new k ≡ slice_index bytes.old k }
{
    LittleEndian::write_u32_into(pointers, &mut bytes[8..56]);
}

/// Writes the attributes over bytes 64 to 127.
fn write_attributes(words: &[u32; ATTRIBUTES], bytes: &mut [u8; RECORD_BYTES])
    ensures read { (version : ℕ) (inode : Inode) → inode_at version bytes.old 0 ≡ inode → inode_at version bytes.new 0 ≡ record inode { attributes = words.now } }
    ensures rest { (k : ℕ) → k < 64 → slice_index bytes.new k ≡ slice_index bytes.old k }
{
    LittleEndian::write_u32_into(words, &mut bytes[64..128]);
}

/// Writes the double indirect pointer over bytes 60 to 63, where the rest of the record is written.
fn write_double(pointer: u32, bytes: &mut [u8; RECORD_BYTES])
    ensures { (inode : Inode) → inode_at 1 bytes.old 0 ≡ record inode { double = 0 } → inode_at 2 bytes.new 0 ≡ record inode { double = pointer } }
{
    LittleEndian::write_u32(&mut bytes[60..64], pointer);
}

/// A record's bytes say the same in their block as alone, also where the block is seen as its chunks.
pub fn a_record_is_read_from_its_bytes()
    ensures bytes { (version : ℕ) (block : List ℕ) (byte : ℕ) → byte + 128 ≤ length block
        → inode_at version (take 128 (drop byte block)) 0 ≡ inode_at version block byte }
    ensures chunks { (version : ℕ) (block : List ℕ) (count j : ℕ) (d : List ℕ) → j < count
        → inode_at version (slice_index_or (first_chunks 128 count block) j d) 0 ≡ inode_at version block (128 * j) }
{}

/// A record's bytes that are put into its block say there what they say alone, and no other record and no other byte
/// changes. Where the bytes from some one on are those that stood there, they stay too.
pub fn a_record_is_written_into_its_block()
    ensures length { (block bytes : List ℕ) (byte : ℕ) → length bytes ≡ 128 → byte + 128 ≤ length block → length (put byte bytes block) ≡ length block }
    ensures written { (version : ℕ) (block bytes : List ℕ) (byte : ℕ) → length bytes ≡ 128 → byte + 128 ≤ length block
        → inode_at version (put byte bytes block) byte ≡ inode_at version bytes 0 }
    ensures others { (version : ℕ) (block bytes : List ℕ) (j k : ℕ) → length bytes ≡ 128 → 128 * j + 128 ≤ length block → j ≢ k
        → inode_at version (put (128 * j) bytes block) (128 * k) ≡ inode_at version block (128 * k) }
    ensures rest { (from : ℕ) (block bytes : List ℕ) (byte : ℕ) → length bytes ≡ 128 → byte + 128 ≤ length block
        → drop from bytes ≡ drop from (take 128 (drop byte block))
        → (k : ℕ) → (k < byte) ⊎ (byte + from ≤ k) → slice_index (put byte bytes block) k ≡ slice_index block k }
{}
