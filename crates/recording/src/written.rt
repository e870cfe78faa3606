ghost use Rattle.std.specs.Prelude.{◌≡◌, OnErr, OnOk, slice_set};

use device::Device;
use layout::{Block, Refusal};

/// A write that a device made.
#[derive(Clone, Copy, Debug, PartialEq, Eq)]
pub struct Written {
    /// Where the block stands.
    pub address: u32,
    /// What it has since.
    pub block: Block,
}

impl Written {
    /// Makes the write on another device. Refused with `BadIndex` where that has no block of this address, and with
    /// `Device` where it fails.
    pub fn repeat_on<D: Device>(&self, device: &mut D) -> Result<(), Refusal>
        ensures written { OnOk result (D.image device.new ≡ slice_set (D.image device.old) self.now.address self.now.block) }
        ensures refused { OnErr result (D.image device.new ≡ D.image device.old) }
    {
        if self.address >= device.blocks() {
            return Err(Refusal::BadIndex);
        }
        device.write(self.address, &self.block)?;
        Ok(())
    }
}
