ghost use Rattle.std.specs.Prelude.{◌≡◌, ◌⊎◌, ◌≤◌, IfErr, IfOk, IsTrue, MatchOption, Some, false};
ghost use Rattle.frozen.specs.Kept.{frozen_view};
ghost use Rattle.machine.specs.Causes.{is_used_number};
ghost use Rattle.snapshot.specs.Pieces.{IsPieceOf, LacksPiece, why_no_piece};

use frozen::Frozen;
use inode::{FREE, Record};
use layout::{BLOCK_BYTES, ROOT, Refusal};

/// A block of a file, and how many of its bytes are the file's.
#[derive(Clone, Copy, Debug, PartialEq, Eq)]
pub(crate) struct Piece {
    /// The address of the block.
    pub block: u32,
    /// How many of its bytes are below the file's size, from the first one on.
    pub length: usize,
}

/// Where the block of this index of a file stands. Refused with `NotFound` where the number is in no use, with
/// `IsDirectory`, and with `BadIndex` where the file ends before the block, or where the image breaks the rules and lacks it.
pub(crate) fn piece_of(frozen: &Frozen, inode: u32, index: u32) -> Result<Piece, Refusal>
    ensures piece { IfOk result (IsPieceOf frozen.now inode index) }
    ensures refused { IfErr result (λ r. (why_no_piece frozen.now.geometry (frozen_view frozen.now) inode index ≡ Some r)
        ⊎ ((r ≡ Refusal.BadIndex) × LacksPiece frozen.now inode index)) }
{
    let Some(record) = record_of(frozen, inode) else {
        return Err(Refusal::NotFound);
    };
    if frozen.is_directory_at(inode) {
        return Err(Refusal::IsDirectory);
    }
    if index >= record.blocks() {
        return Err(Refusal::BadIndex);
    }
    let Some(block) = frozen.claim_at(inode, index) else {
        return Err(Refusal::BadIndex);
    };
    let behind = (record.size as usize).saturating_sub(BLOCK_BYTES * index as usize);
    Ok(Piece {
        block,
        length: behind.min(BLOCK_BYTES),
    })
}

/// The record of a number that is in use.
fn record_of(frozen: &Frozen, inode: u32) -> Option<Record>
    ensures { MatchOption result (is_used_number frozen.now.geometry (frozen_view frozen.now) inode ≡ false)
        (λ there. IsTrue (is_used_number frozen.now.geometry (frozen_view frozen.now) inode) × (there ≡ (frozen_view frozen.now).inode inode)) }
{
    if inode < ROOT || inode >= frozen.geometry().inodes() {
        return None;
    }
    let record = frozen.record(inode);
    if record.mode == FREE {
        return None;
    }
    Some(record)
}
