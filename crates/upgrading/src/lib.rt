//! The upgrade of a volume from version 1 of the layout to version 2, in its place: whatever write it stops at, the image is one
//! of the same volume.
#![tactic(auto)]

ghost use Rattle.std.specs.Prelude.{◌≡◌, ◌⊎◌, ◌<◌, length, IfErr, IfOk, IsErrOf, OnErr, OnOk};
ghost use Rattle.layout.specs.declared.refusal.Refusal.TheVariants.{Device as DeviceRefusal};
ghost use Rattle.device.specs.Media.{images_held, settled_on};
ghost use Rattle.device.specs.Writes.{CountsFaults, HasFailed};
ghost use Rattle.upgrading.specs.Steps.{GoesToVersion, TellsVersion};
ghost use Rattle.rules.specs.Loading.{LoadSoundRefuses};
ghost use Rattle.upgrading.specs.Upgraded.{IsUpgraded, KeepsVolume, Upgrades};

use byteorder::{ByteOrder, LittleEndian};
use device::{Device, DeviceFault};
use layout::{Block, DOUBLE, Refusal};
use rules::load_sound;
use std::alloc::Global;

mod clearing;

use clearing::clear_records;

/// Makes a volume of version 1 of the layout one of version 2, in its place: bytes 60 to 63 of every record become 0, and then,
/// last, the superblock gets version 2. Only blocks that change are written, and their number is answered: of a volume of
/// version 2 it is 0. Whatever write fails, and whatever write the device stops at, the image is one of the same volume, and so is
/// whatever a loss of power leaves. What was written has reached the medium before the superblock is written, and all of it at the
/// end, as has what was written before the call.
///
/// It is refused with `BadLength`, `BadSuper`, `BadGroup`, `Device` or `NoMemory` as an image that cannot be loaded, and with
/// `Damaged`, in either version, where the image breaks a rule that holds at each stop of a volume. Then nothing was written.
/// It is refused with `Device` too where the device fails later: then it may have written some blocks, or all.
pub fn upgrade<D: Device>(alloc: Global, device: &mut D) -> Result<u32, Refusal>
    // Each image that was held since the first one is of the same volume, whatever comes of it.
    ensures held { Upgrades (D.honest device.new) (D.image device.old) (D.held device.old) (D.image device.new) (D.held device.new) }
    // Whenever the power is lost, what it leaves is of the same volume too, whatever comes of it; and once it is done, the image.
    ensures left { KeepsVolume (D.honest device.new) (D.image device.old) (D.held device.old) (D.held device.new) }
    ensures settled { OnOk result ((D.held device.new).now ≡ settled_on (D.image device.new)) }
    ensures done { IfOk result (λ writes. D.honest device.new
        → IsUpgraded (D.image device.old) (D.held device.old) (D.image device.new) (D.held device.new) writes) }
    ensures refused { IfErr result (LoadSoundRefuses (D.honest device.new) (D.image device.old)) }
    ensures quiet { IfErr result (λ refusal. (refusal ≡ DeviceRefusal)
        ⊎ ((D.image device.new ≡ D.image device.old) × (D.held device.new ≡ D.held device.old))) }
    ensures cause { IsErrOf result Refusal.Device → HasFailed (D.failures device.old) (D.failures device.new) }
    ensures honest { D.honest device.new → D.honest device.old }
{
    let frozen = load_sound(alloc, device)?;
    if frozen.geometry().version() == DOUBLE {
        device.sync()?;
        return Ok(0);
    }
    let writes = clear_records(device, &frozen)?;
    set_version(device, frozen.block(0).unwrap())?;
    Ok(writes + 1)
}

/// Writes this superblock with version 2. Before that it waits until all that was written has reached the medium, so that no loss
/// of power leaves a version 2 whose records are not clear; and then until this has reached it too.
fn set_version<D: Device>(device: &mut D, superblock: &Block) -> Result<(), DeviceFault>
    requires { 0 < length (D.image device.old) }
    ensures told { OnOk result (TellsVersion superblock.now (D.image device.old) (D.held device.old) (D.image device.new) (D.held device.new)) }
    ensures stopped { OnErr result (((D.image device.new ≡ D.image device.old) × (images_held (D.held device.new) ≡ images_held (D.held device.old)))
        ⊎ TellsVersion superblock.now (D.image device.old) (D.held device.old) (D.image device.new) (D.held device.new)) }
    ensures goes { GoesToVersion D.KEEPS_ORDER superblock.now (D.held device.old) (D.held device.new) }
    ensures settled { OnOk result ((D.held device.new).now ≡ settled_on (D.image device.new)) }
    ensures honest { D.honest device.new → D.honest device.old }
    ensures cause { CountsFaults result (D.failures device.old) (D.failures device.new) }
{
    let mut block = *superblock;
    LittleEndian::write_u32(&mut block[4..8], DOUBLE);
    device.sync()?;
    device.write(0, &block)?;
    device.sync()
}
