ghost use Rattle.std.specs.Prelude.{◌≡◌, ◌≤◌, ◌⊎◌, ◌∷◌, [], List, ℕ, IfErr, IfOk, IsTrue, length, take};
ghost use Rattle.layout.specs.declared.refusal.Refusal.TheVariants.{BadHandle, BadIndex};
ghost use Rattle.machine.specs.Command.{Bytes, Read};
ghost use Rattle.model.specs.Layout.{is_data_address};
ghost use Rattle.live_states.specs.Planned.{IsFirstCauseWith, IsOfVolumeWith, IsQuietlyDone};

use layout::{BLOCK_BYTES, Refusal};
use live_holdings::Holdings;
use metadata::Metadata;

/// What a read of a file shows.
#[derive(Clone, Copy, Debug, PartialEq, Eq)]
pub struct Reading {
    /// The address of the block.
    pub block: u32,
    /// How many of its bytes are shown, from the first one on: those that the file has.
    pub length: usize,
}

/// The block that an open file has at an index. Refused with `BadHandle` where the handle is not open, and then with
/// `BadIndex` where the file ends before the block.
pub fn reading_of(
    metadata: &Metadata,
    holdings: &Holdings,
    handle: u32,
    index: u32,
) -> Result<Reading, Refusal>
    requires { IsOfVolumeWith metadata.now holdings.now }
    ensures block { IfOk result (λ reading. IsTrue (is_data_address metadata.now.geometry reading.block) × (reading.length ≤ 1024)) }
    ensures reads { IfOk result (λ reading. (bytes : List ℕ) → length bytes ≡ 1024
        → IsQuietlyDone metadata.now holdings.now (record { address = reading.block; bytes = bytes } ∷ []) (Read handle index) (Bytes (take reading.length bytes)) holdings.now) }
    ensures error { IfErr result (λ r. (r ≡ BadHandle) ⊎ (r ≡ BadIndex)) }
    ensures refused { IfErr result (IsFirstCauseWith metadata.now holdings.now (Read handle index)) }
{
    let Some(file) = holdings.file_of(handle) else {
        return Err(Refusal::BadHandle);
    };
    let frozen = metadata.frozen();
    let record = frozen.record(file);
    if index >= record.blocks() {
        return Err(Refusal::BadIndex);
    }
    let Some(block) = frozen.claim_at(file, index) else {
        unreachable!()
    };
    let behind = record.size as usize - BLOCK_BYTES * index as usize;
    Ok(Reading {
        block,
        length: behind.min(BLOCK_BYTES),
    })
}
