//! A fresh image, on any device.
ghost use Rattle.std.specs.Prelude.{◌≡◌, length, OnOk, IsErrOf, IsOkUnless, []};
ghost use Rattle.model.specs.Layout.{block_count};
ghost use Rattle.model.specs.Image.{IsImage, image_view};
ghost use Rattle.findings.specs.Findings.{AreFindings};
ghost use Rattle.device.specs.Writes.{HasFailed};
ghost use Rattle.device.specs.Zeroes.{AreZeroes};
ghost use Rattle.layout.specs.Fresh.{fresh_image};

use device::{Before, Device, format};
use findings::nothing_is_found_on_the_fresh_image;
use layout::{Geometry, Refusal};

/// Makes a fresh image of all blocks of a device. Nothing is found on it.
pub fn make<D: Device>(device: &mut D, geometry: &Geometry, before: Before) -> Result<(), Refusal>
    requires count { length (D.image device.old) ≡ block_count geometry.now }
    requires zeroes { before ≡ Before.Zeroes → AreZeroes (D.image device.old) }

    ensures image { OnOk result (D.image device.new ≡ fresh_image geometry.now) }
    ensures is_image { OnOk result (IsImage geometry.now (D.image device.new)) }
    ensures clean { OnOk result (AreFindings geometry.now (image_view geometry.now (D.image device.new)) []) }

    ensures error { IsOkUnless result Refusal.Device }
    ensures cause { IsErrOf result Refusal.Device → HasFailed (D.failures device.old) (D.failures device.new) }
{
    nothing_is_found_on_the_fresh_image();
    format(device, geometry, before)?;
    Ok(())
}
