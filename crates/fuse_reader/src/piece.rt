//! Pieces of files.
ghost use Rattle.std.specs.Prelude.{is_some, ◌≡◌, ◌-◌, ◌*◌, ◌+◌, ◌++◌, ◌⊎◌, ◌≤◌, ◌<◌, ◌^◌, None, true, false, IfErr, IfOk, IsErrOf, OnOk, drop, length, min, take};
ghost use Rattle.device.specs.Reading.{ReadsOnly};
ghost use Rattle.device.specs.Writes.{HasFailed};
ghost use Rattle.frozen.specs.Kept.{IsKeptOf, frozen_view};
ghost use Rattle.machine.specs.Cells.{seen};
ghost use Rattle.model.specs.Image.{image_view};
ghost use Rattle.model.specs.Layout.{block_count};
ghost use Rattle.model.specs.Uses.{claim_at};
ghost use Rattle.fuse_reader.specs.Pieces.{lacks_block, seen_from};

use device::Device;
use frozen::Frozen;
use layout::{BLOCK_BYTES, Refusal};
use reading::{length_in, record_of};
use std::alloc::Global;

/// What a file has in so many of its blocks from this one on. Refused with `Device`, with `Damaged` where a block is not there, and
/// with `NoMemory`.
pub(crate) fn blocks_from<D: Device>(
    alloc: Global,
    frozen: &Frozen,
    device: &mut D,
    number: u32,
    first: u32,
    count: u32,
) -> Result<Vec<u8>, Refusal>
    requires device { length (D.image device.old) ≡ block_count frozen.now.geometry }
    requires few { first + count < 2 ^ 32 }
    ensures read { IfOk result (λ bytes. D.honest device.new → IsKeptOf frozen.now (D.image device.old)
        → bytes.items ≡ seen_from frozen.now.geometry (image_view frozen.now.geometry (D.image device.old)) number first count) }
    ensures whole { OnOk result (lacks_block frozen.now.geometry (frozen_view frozen.now) number first count ≡ false) }
    ensures refused { IfErr result (λ r. (r ≡ Refusal.Device) ⊎ (r ≡ Refusal.NoMemory) ⊎ (r ≡ Refusal.Damaged)) }
    ensures damaged { IsErrOf result Refusal.Damaged → lacks_block frozen.now.geometry (frozen_view frozen.now) number first count ≡ true }
    ensures cause { IsErrOf result Refusal.Device → HasFailed (D.failures device.old) (D.failures device.new) }
    ensures counted { (D.failures device.new ≡ D.failures device.old) ⊎ HasFailed (D.failures device.old) (D.failures device.new) }

    ensures reads { ReadsOnly D.honest D.image D.held device.old device.new }
{
    let mut bytes = Vec::new(alloc);
    for index in 0..count {
        match add_block(&mut bytes, frozen, device, number, first + index) {
            Ok(()) => {}
            Err(refusal) => return Err(refusal),
        }
    }
    Ok(bytes)
}

/// Adds what a file has in its block of this index.
fn add_block<D: Device>(
    bytes: &mut Vec<u8>,
    frozen: &Frozen,
    device: &mut D,
    number: u32,
    index: u32,
) -> Result<(), Refusal>
    requires count { length (D.image device.old) ≡ block_count frozen.now.geometry }
    ensures added { OnOk result (D.honest device.new → IsKeptOf frozen.now (D.image device.old)
        → bytes.new.items ≡ bytes.old.items ++ seen frozen.now.geometry (image_view frozen.now.geometry (D.image device.old)) number index) }
    ensures there { OnOk result (is_some (claim_at frozen.now.geometry (frozen_view frozen.now) number index) ≡ true) }
    ensures refused { IfErr result (λ r. (r ≡ Refusal.Device) ⊎ (r ≡ Refusal.NoMemory) ⊎ (r ≡ Refusal.Damaged)) }
    ensures damaged { IsErrOf result Refusal.Damaged → claim_at frozen.now.geometry (frozen_view frozen.now) number index ≡ None }
    ensures failures { OnOk result (D.failures device.new ≡ D.failures device.old) }
    ensures same { IsErrOf result Refusal.Damaged → D.failures device.new ≡ D.failures device.old }
    ensures cause { IsErrOf result Refusal.Device → HasFailed (D.failures device.old) (D.failures device.new) }
    ensures counted { (D.failures device.new ≡ D.failures device.old) ⊎ HasFailed (D.failures device.old) (D.failures device.new) }

    ensures reads { ReadsOnly D.honest D.image D.held device.old device.new }
{
    let Some(address) = frozen.claim_at(number, index) else {
        return Err(Refusal::Damaged);
    };
    let mut block = [0; BLOCK_BYTES];
    device.read(address, &mut block)?;
    let length = length_in(record_of(frozen, number).size, index);
    bytes.extend_from_slice(&block[..length])?;
    Ok(())
}

/// So many of these bytes behind the first ones, as far as there are any.
pub fn cut(bytes: &[u8], from: usize, count: usize) -> &[u8]
    ensures cut { result.now ≡ take count (drop from bytes.now) }
    ensures few { length result.now ≤ count }
{
    if from >= bytes.len() {
        return &[];
    }
    let rest = &bytes[from..];
    if rest.len() <= count {
        return rest;
    }
    &rest[..count]
}
