ghost use Rattle.std.specs.Prelude.{◌≡◌, ◌≤◌, ◌<◌, ℕ, IfErr, IfOk, IfSome, IsErrOf, IsTrue, Some};
ghost use Rattle.frozen.specs.Kept.{frozen_view};
ghost use Rattle.layout.specs.declared.refusal.Refusal.TheVariants.{NoBlock};
ghost use Rattle.machine.specs.Causes.{FirstRefusal};
ghost use Rattle.machine.specs.Command.{Write};
ghost use Rattle.machine.specs.Room.{unmarked_blocks};
ghost use Rattle.machine.specs.State.{State};
ghost use Rattle.metadata.specs.Shown.{Shows};
ghost use Rattle.model.specs.Layout.{is_data_address};
ghost use Rattle.model.specs.Shape.{most_blocks};
ghost use Rattle.model.specs.Uses.{blocks_of, claim_at};
ghost use Rattle.live_states.specs.Holdings.{Has, Holdings as Held};
ghost use Rattle.live_states.specs.Planned.{IsOfVolumeWith};
ghost use Rattle.live_writes.specs.Aimed.{IsAimed, IsPlaced, blocks_behind, blocks_needed, seen_at};

use layout::{BLOCK_BYTES, Refusal};
use live_holdings::Holdings;
use live_places::{Tables, new_tables, take, take_tables};
use metadata::Metadata;

/// Where the block of a write goes.
#[derive(Clone, Copy, Debug, PartialEq, Eq)]
pub enum Place {
    /// Into this block of the file, which no snapshot keeps.
    InPlace { block: u32 },
    /// Into a new block behind the last one, with the new tables that come with it.
    Behind { block: u32, tables: Tables },
    /// Into a new block in the place of this old one, which a snapshot keeps.
    Elsewhere { old: u32, block: u32 },
}

/// What a write changes.
#[derive(Clone, Copy, Debug, PartialEq, Eq)]
pub struct Target {
    /// The file.
    pub file: u32,
    /// The position of the block in it.
    pub index: u32,
    /// Where the block goes.
    pub place: Place,
}

impl Target {
    /// The block whose bytes the piece is put over, where there is one.
    pub fn seen(&self) -> Option<u32>
        ensures { result ≡ seen_at self.now.place }
    {
        match self.place {
            Place::InPlace { block } => Some(block),
            Place::Behind { .. } => None,
            Place::Elsewhere { old, .. } => Some(old),
        }
    }
}

/// Where a piece goes that is to be written at the start of a block of the file that a handle is open on. Takes no memory.
///
/// Refused in this order: with `BadHandle` where the handle is not open; with `BadPiece` where the piece is empty or
/// longer than a block; with `TooBig` where no file has a block at this position; with `BadIndex` where the file ends
/// before the block; with `NoBlock` where fewer data blocks are unmarked than the write takes.
pub fn aim(
    metadata: &Metadata,
    holdings: &Holdings,
    handle: u32,
    index: u32,
    piece: &[u8],
) -> Result<Target, Refusal>
    requires volume { IsOfVolumeWith metadata.now holdings.now }
    ensures aimed { IfOk result (λ target. IsAimed metadata.now holdings.now handle index piece.now target) }
    ensures seen { IfOk result (λ target. IfSome (seen_at target.place) (λ a. IsTrue (is_data_address metadata.now.geometry a))) }
    ensures refused { IfErr result (λ r. (old : State) → Shows metadata.now old.view → Has holdings.now old
        → FirstRefusal metadata.now.geometry old (Write handle index piece.now) r) }
    ensures error { IsErrOf result Refusal.Device → ⊥ }
{
    let Some(file) = holdings.file_of(handle) else {
        return Err(Refusal::BadHandle);
    };
    if piece.is_empty() || piece.len() > BLOCK_BYTES {
        return Err(Refusal::BadPiece);
    }
    if index >= metadata.frozen().geometry().most_blocks() {
        return Err(Refusal::TooBig);
    }
    let inode = metadata.frozen().record(file);
    if inode.size / (BLOCK_BYTES as u32) < index {
        return Err(Refusal::BadIndex);
    }
    let place = if index < inode.blocks() {
        place_over(metadata, holdings, file, index)?
    } else {
        place_behind(metadata, index)?
    };
    Ok(Target { file, index, place })
}

/// Where the bytes of a block go that a file has: in place, or into the least free block where a snapshot keeps it.
/// Refused with `NoBlock`.
fn place_over(
    metadata: &Metadata,
    holdings: &Holdings,
    file: u32,
    index: u32,
) -> Result<Place, Refusal>
    requires inside { index < blocks_of ((frozen_view metadata.now).inode file).size }
    requires claimed { (a : ℕ) × (claim_at metadata.now.geometry (frozen_view metadata.now) file index ≡ Some a) }
    ensures placed { IfOk result (λ place. IsPlaced metadata.now holdings.now file index place) }
    ensures enough { IfOk result (λ place. blocks_needed metadata.now holdings.now file index ≤ unmarked_blocks metadata.now.geometry (frozen_view metadata.now)) }
    ensures refused { IfErr result (λ r. (r ≡ NoBlock)
        × (unmarked_blocks metadata.now.geometry (frozen_view metadata.now) < blocks_needed metadata.now holdings.now file index)) }
{
    let Some(old) = metadata.frozen().claim_at(file, index) else {
        unreachable!()
    };
    if !holdings.keeps(old) {
        return Ok(Place::InPlace { block: old });
    }
    let block = take(metadata, 0)?;
    Ok(Place::Elsewhere { old, block })
}

/// Where the bytes of a block go that a file does not have yet: into the least free block, with the next ones for the new
/// tables that come with it. Refused with `NoBlock`.
pub fn place_behind(metadata: &Metadata, index: u32) -> Result<Place, Refusal>
    requires { index < most_blocks metadata.now.geometry }
    ensures placed { IfOk result (λ place. (holdings : Held) (file : ℕ) → index ≡ blocks_of ((frozen_view metadata.now).inode file).size
        → IsPlaced metadata.now holdings file index place) }
    ensures enough { IfOk result (λ place. blocks_behind metadata.now.geometry index ≤ unmarked_blocks metadata.now.geometry (frozen_view metadata.now)) }
    ensures refused { IfErr result (λ r. (r ≡ NoBlock)
        × (unmarked_blocks metadata.now.geometry (frozen_view metadata.now) < blocks_behind metadata.now.geometry index)) }
{
    let block = take(metadata, 0)?;
    let count = new_tables(&metadata.frozen().geometry(), index);
    let tables = take_tables(metadata, block + 1, count)?;
    Ok(Place::Behind { block, tables })
}
