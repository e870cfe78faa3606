//! Pieces of the groups, for those who share the work on directories.
ghost use Rattle.std.specs.Prelude.{◌≡◌, ◌≤◌, ◌+◌, ◌/◌, IfOk, OnOk, map, vec_len};
ghost use Rattle.model.specs.Layout.{inode_count};
ghost use Rattle.directories.specs.Pieces.{AreCut, in_piece};

use frozen::Frozen;
use std::alloc::{AllocError, Global};

/// The inode numbers from the first one on and below another.
#[derive(Clone, Copy, Debug, PartialEq, Eq)]
pub struct Piece {
    pub first: u32,
    pub past: u32,
}

impl Piece {
    /// Whether the number is one of the piece's.
    pub fn has(&self, number: u32) -> bool
        ensures { result ≡ in_piece self.now number }
    {
        self.first <= number && number < self.past
    }
}

/// How many blocks the directories of a piece have that is not cut further, on a volume with few of them.
const FEW_BLOCKS: u32 = 32;

/// In how many pieces the directories of a volume with many blocks of them are cut, if they can be.
const MANY_PIECES: u32 = 64;

/// The pieces so far, the first number of the next one, and how many blocks the directories of that have so far.
#[derive(Drop)]
struct Cutting {
    pieces: Vec<Piece>,
    first: u32,
    blocks: u32,
}

impl Cutting {
    /// Goes on to this number, whose directory has so many blocks: it begins a piece, if it begins a group, or if the piece would
    /// have more than so many blocks with it.
    fn reach(
        &mut self,
        number: u32,
        blocks: u32,
        begins_group: bool,
        most: u32,
    ) -> Result<(), AllocError>
        requires { self.old.first ≤ number }
        ensures cut { OnOk result (AreCut 0 self.old.pieces.items self.old.first → AreCut 0 self.new.pieces.items self.new.first) }
        ensures first { OnOk result (self.new.first ≤ number) }
        ensures few { OnOk result (vec_len self.new.pieces ≤ vec_len self.old.pieces + 1) }
    {
        let all = self.blocks.saturating_add(blocks);
        if !begins_group && (self.blocks == 0 || all <= most) {
            self.blocks = all;
            return Ok(());
        }
        self.pieces.push(Piece {
            first: self.first,
            past: number,
        })?;
        self.first = number;
        self.blocks = blocks;
        Ok(())
    }
}

/// The numbers of a volume in pieces, in order. A group whose directories have few blocks is one piece; one where they have
/// many is cut, before a directory with which a piece would have too many. So a piece that is cut has at most so many blocks of
/// directories, or one directory alone.
pub fn pieces(alloc: Global, frozen: &Frozen) -> Result<Vec<Piece>, AllocError>
    ensures cut { IfOk result (λ pieces. AreCut 0 pieces.items (inode_count frozen.now.geometry)) }
    ensures few { IfOk result (λ pieces. vec_len pieces ≤ 65_537) }
{
    let inodes = frozen.geometry().inodes();
    let DirectoryBlocks { by_number, all } = DirectoryBlocks::of(alloc, frozen)?;
    let most = (all / MANY_PIECES).max(FEW_BLOCKS);
    let mut cutting = Cutting {
        pieces: Vec::new(alloc),
        first: 0,
        blocks: 0,
    };
    let of_group = frozen.geometry().inodes_a_group();
    let mut next = of_group;
    for number in 0..inodes {
        let begins = number == next;
        if begins {
            next = next.saturating_add(of_group);
        }
        let blocks = by_number.get(number as usize).copied().unwrap_or(0);
        cutting.reach(number, blocks, begins, most)?;
    }
    let Cutting {
        mut pieces,
        first,
        ..
    } = cutting;
    pieces.push(Piece {
        first,
        past: inodes,
    })?;
    Ok(pieces)
}

/// The group that each of these pieces begins in.
pub fn groups_of(alloc: Global, frozen: &Frozen, pieces: &[Piece]) -> Result<Vec<u32>, AllocError>
    ensures { IfOk result (λ groups. groups.items ≡ map (λ piece. piece.first / frozen.now.geometry.inodes) pieces.now) }
{
    let inodes = frozen.geometry().inodes_a_group();
    pieces
        .iter()
        .map(|piece| piece.first / inodes)
        .collect(alloc)
}

/// How many blocks each number's directory has, and all of them together, as far as they are counted. Each record is looked at
/// once for both.
#[derive(Drop)]
struct DirectoryBlocks {
    by_number: Vec<u32>,
    all: u32,
}

impl DirectoryBlocks {
    fn of(alloc: Global, frozen: &Frozen) -> Result<DirectoryBlocks, AllocError> {
        let inodes = frozen.geometry().inodes();
        let mut by_number = Vec::with_capacity(alloc, inodes as usize)?;
        let mut all = 0u32;
        for number in 0..inodes {
            let blocks = blocks_of(frozen, number);
            by_number.push(blocks)?;
            all = all.saturating_add(blocks);
        }
        Ok(DirectoryBlocks { by_number, all })
    }
}

/// How many blocks a directory has, and none where the number is no sound directory's.
fn blocks_of(frozen: &Frozen, number: u32) -> u32 {
    if frozen.is_directory_at(number) {
        frozen.blocks(number)
    } else {
        0
    }
}
