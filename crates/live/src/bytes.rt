ghost use Rattle.std.specs.Prelude.{◌≡◌, ◌≤◌, IfOk, IsErrOf, IsOkUnless, IsTrue, OnOk, length, take};
ghost use Rattle.device.specs.Writes.{HasFailed};
ghost use Rattle.model.specs.Image.{image_view};
ghost use Rattle.model.specs.Layout.{block_count, is_data_address};
ghost use Rattle.ordering.specs.Cuts.{users_view};
ghost use Rattle.softdep.specs.Queued.{pending_of};

use device::Device;
use layout::{Block, Refusal};
use softdep::Queue;
use std::alloc::{AllocError, Global};

/// Reads a data block as users see it: the bytes that the last pending update of it gives, and else those that the device
/// holds.
pub(crate) fn read_seen<D: Device>(
    device: &mut D,
    queue: &Queue,
    address: u32,
    block: &mut Block,
) -> Result<(), Refusal>
    requires address { IsTrue (is_data_address queue.now.geometry address) }
    requires count { length (D.image device.old) ≡ block_count queue.now.geometry }
    ensures bytes { OnOk result (D.honest device.new
        → (users_view (image_view queue.now.geometry (D.image device.old)) (pending_of queue.now)).bytes address ≡ block.new) }
    ensures image { D.image device.new ≡ D.image device.old }
    ensures held { D.held device.new ≡ D.held device.old }
    ensures honest { D.honest device.new → D.honest device.old }
    ensures error { IsOkUnless result Refusal.Device }
    ensures cause { IsErrOf result Refusal.Device → HasFailed (D.failures device.old) (D.failures device.new) }
{
    if let Some(bytes) = queue.contents(address) {
        *block = *bytes;
        return Ok(());
    }
    device.read(address, block)?;
    Ok(())
}

/// The first bytes of a block, so many.
pub fn first_bytes(alloc: Global, bytes: &Block, count: usize) -> Result<Vec<u8>, AllocError>
    requires { count ≤ 1024 }
    ensures first { IfOk result (λ first. first.items ≡ take count bytes.now) }
    ensures whole { length bytes.now ≡ 1024 }
{
    let mut first = Vec::new(alloc);
    first.extend_from_slice(&bytes[..count])?;
    Ok(first)
}
