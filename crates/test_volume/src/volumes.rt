//! Mounted volumes of small images.
ghost use Rattle.std.specs.Prelude.{◌≡◌};

use device::{Byte, MemDevice};
use layout::Refusal;
use snapshot::Volume;
use std::alloc::Global;
use test_mounted::mounted_of;

/// Hands over the mounted volume, of this version of the layout, of the image of one group and so many inodes that is fresh but for
/// these bytes. What lets a volume go is dear to prove, so this function alone owns one.
pub(crate) fn on_mounted<F: FnOnce(&mut Volume<MemDevice>) -> Result<(), Refusal>>(
    alloc: Global,
    version: u32,
    inodes: u32,
    bytes: &[Byte],
    expect: F,
) -> Result<(), Refusal>
    requires { F.IsAlwaysCallable expect }
{
    let mut volume = mounted_of(alloc, version, 1, inodes, bytes)?;
    expect(&mut volume)
}
