//! Images with single bytes changed, as tests want them.
ghost use Rattle.std.specs.Prelude.{◌≡◌, ◌⊎◌, All, length, IfErr, IfOk, IsErrOf, OnOk};
ghost use Rattle.layout.specs.declared.refusal.Refusal.TheVariants.{BadIndex, Device as DeviceRefusal, NoMemory};
ghost use Rattle.layout.specs.Fresh.{fresh_image};
ghost use Rattle.device.specs.Bytes.{IsByteOf, with_byte, with_bytes};
ghost use Rattle.device.specs.Writes.{HasFailed, image_after};

use crate::{Before, Device, MemDevice, format};
use layout::{BLOCK_BYTES, Geometry, Refusal};
use std::alloc::Global;

/// The address of a block, a place in it, and the byte that is put there.
pub type Byte = (u32, usize, u8);

/// Puts one byte into a block of a device. `BadIndex` where there is no such byte, and `Device` where the device failed.
pub fn set_byte<D: Device>(device: &mut D, byte: Byte) -> Result<(), Refusal>
    ensures put { OnOk result (D.honest device.new → D.image device.new ≡ with_byte (D.image device.old) byte) }
    ensures error { IfErr result (λ r. (r ≡ DeviceRefusal) ⊎ ((r ≡ BadIndex) × (IsByteOf (D.image device.old) byte → ⊥))) }
    ensures cause { IsErrOf result Refusal.Device → HasFailed (D.failures device.old) (D.failures device.new) }
    ensures quiet { OnOk result (D.failures device.new ≡ D.failures device.old) }
    ensures count { length (D.image device.new) ≡ length (D.image device.old) }
    ensures honest { D.honest device.new → D.honest device.old }
{
    let (address, place, value) = byte;
    if address >= device.blocks() || place >= BLOCK_BYTES {
        return Err(Refusal::BadIndex);
    }
    let mut block = [0; BLOCK_BYTES];
    device.read(address, &mut block)?;
    block[place] = value;
    device.write(address, &block)?;
    Ok(())
}

/// Puts bytes into a device, the first first. `BadIndex` where there is none of them, and `Device` where the device failed;
/// those before are put then.
pub fn set_bytes<D: Device>(device: &mut D, bytes: &[Byte]) -> Result<(), Refusal>
    ensures put { OnOk result (D.honest device.new → D.image device.new ≡ with_bytes (D.image device.old) bytes.now) }
    ensures error { IfErr result (λ r. (r ≡ DeviceRefusal)
        ⊎ ((r ≡ BadIndex) × (All (IsByteOf (D.image device.old)) bytes.now → ⊥))) }
    ensures cause { IsErrOf result Refusal.Device → HasFailed (D.failures device.old) (D.failures device.new) }
    ensures count { length (D.image device.new) ≡ length (D.image device.old) }
    ensures honest { D.honest device.new → D.honest device.old }
{
    for byte in bytes {
        set_byte(device, *byte)?;
    }
    Ok(())
}

impl MemDevice {
    /// A device with the fresh image of this geometry, in which these bytes are put, the first first. Refused with `NoMemory`,
    /// with `BadIndex` where the image has no such byte, and with `Device` where there was no memory for a write.
    pub fn formatted(
        alloc: Global,
        geometry: &Geometry,
        bytes: &[Byte],
    ) -> Result<MemDevice, Refusal>
        ensures image { IfOk result (λ device. image_after device.first device.writes ≡ with_bytes (fresh_image geometry.now) bytes.now) }
        ensures error { IfErr result (λ r. (r ≡ NoMemory) ⊎ ((r ≡ DeviceRefusal)
            ⊎ ((r ≡ BadIndex) × (All (IsByteOf (fresh_image geometry.now)) bytes.now → ⊥)))) }
    {
        let zeroes = vec![in alloc; 0; geometry.blocks() as usize * BLOCK_BYTES]?;
        let mut device = MemDevice::from_bytes(alloc, zeroes.as_slice())?;
        format(&mut device, geometry, Before::Anything)?;
        set_bytes(&mut device, bytes)?;
        Ok(device)
    }
}
