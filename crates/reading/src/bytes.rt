ghost use Rattle.std.specs.Prelude.{◌≡◌, ◌-◌, ◌*◌, ◌++◌, ◌⊎◌, Err, IfErr, IfOk, IsErrOf, OnOk, length, min};
ghost use Rattle.device.specs.Reading.{ReadsOnly};
ghost use Rattle.device.specs.Writes.{HasFailed};
ghost use Rattle.frozen.specs.Kept.{IsKeptOf};
ghost use Rattle.layout.specs.declared.refusal.Refusal.TheVariants.{Device as DeviceRefusal};
ghost use Rattle.machine.specs.Cells.{seen};
ghost use Rattle.machine.specs.Command.{Open};
ghost use Rattle.model.specs.Image.{image_view};
ghost use Rattle.model.specs.Layout.{block_count};
ghost use Rattle.reading.specs.Bytes.{AreBytesAt};
ghost use Rattle.reading.specs.Replies.{Replies};

use crate::looking::{find, record_of};
use device::Device;
use frozen::Frozen;
use layout::{BLOCK_BYTES, Refusal};
use std::alloc::Global;

/// The bytes of a file, from a device whose image was frozen. Refused as `stat` is, with `IsDirectory` where the path leads to
/// a directory, with `NoMemory`, and with `Device`.
pub fn read<D: Device>(
    alloc: Global,
    frozen: &Frozen,
    device: &mut D,
    path: &[u8],
) -> Result<Vec<u8>, Refusal>
    requires count { length (D.image device.old) ≡ block_count frozen.now.geometry }
    ensures read { IfOk result (λ bytes. D.honest device.new → IsKeptOf frozen.now (D.image device.old)
        → AreBytesAt frozen.now.geometry (image_view frozen.now.geometry (D.image device.old)) path.now bytes.items) }
    ensures refused { IfErr result (λ r. (r ≡ DeviceRefusal) ⊎ Replies frozen.now (Open path.now) (Err r)) }
    ensures cause { IsErrOf result Refusal.Device → HasFailed (D.failures device.old) (D.failures device.new) }

    ensures reads { ReadsOnly D.honest D.image D.held device.old device.new }
{
    let number = find(frozen, path)?;
    if frozen.is_directory_at(number) {
        return Err(Refusal::IsDirectory);
    }
    let mut bytes = Vec::new(alloc);
    for index in 0..record_of(frozen, number).blocks() {
        add_block(&mut bytes, frozen, device, number, index)?;
    }
    Ok(bytes)
}

/// Adds what a file has in its block of this index.
fn add_block<D: Device>(
    bytes: &mut Vec<u8>,
    frozen: &Frozen,
    device: &mut D,
    number: u32,
    index: u32,
) -> Result<(), Refusal>
    requires count { length (D.image device.old) ≡ block_count frozen.now.geometry }
    ensures added { OnOk result (D.honest device.new → IsKeptOf frozen.now (D.image device.old)
        → bytes.new.items ≡ bytes.old.items ++ seen frozen.now.geometry (image_view frozen.now.geometry (D.image device.old)) number index) }
    ensures error { IfErr result (λ r. (r ≡ Refusal.Device) ⊎ (r ≡ Refusal.NoMemory)) }
    ensures failures { OnOk result (D.failures device.new ≡ D.failures device.old) }
    ensures cause { IsErrOf result Refusal.Device → HasFailed (D.failures device.old) (D.failures device.new) }

    ensures reads { ReadsOnly D.honest D.image D.held device.old device.new }
{
    let Some(address) = frozen.claim_at(number, index) else {
        return Ok(());
    };
    let mut block = [0; BLOCK_BYTES];
    device.read(address, &mut block)?;
    let length = length_in(record_of(frozen, number).size, index);
    bytes.extend_from_slice(&block[..length])?;
    Ok(())
}

/// How many bytes a file of this size has in its block of this index.
pub fn length_in(size: u32, index: u32) -> usize
    ensures { result ≡ min (size - 1024 * index) 1024 }
{
    let before = u64::from(index) * BLOCK_BYTES as u64;
    let size = u64::from(size);
    if size <= before {
        return 0;
    }
    if size - before < BLOCK_BYTES as u64 {
        (size - before) as usize
    } else {
        BLOCK_BYTES
    }
}
