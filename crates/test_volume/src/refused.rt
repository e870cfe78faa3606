use crate::expect::same;
use crate::smaller_volumes::volume;
use device::Byte;
use layout::Refusal;
use std::test::Fail;
use upgrading::upgrade;

/// Bytes of a volume, and why it is not upgraded.
const ROWS: &[(&[Byte], Refusal)] = &[
    // Number 2 is not marked.
    (&[(1, 32, 0)], Refusal::Damaged),
    // The record of number 5 has a mode that there is not.
    (&[(2, 640, 3)], Refusal::Damaged),
    // The superblock has another magic, tells version 3, or another number of blocks.
    (&[(0, 0, 0)], Refusal::BadSuper),
    (&[(0, 4, 3)], Refusal::BadSuper),
    (&[(0, 12, 17)], Refusal::BadLength),
    // The first group's block of maps has another magic.
    (&[(1, 0, 0)], Refusal::BadGroup(0)),
];

#[test]
fn a_volume_that_is_refused_is_not_written(rt: HostRuntime) -> Result<(), Fail> {
    for version in 1..3 {
        for (bytes, refusal) in ROWS {
            let mut device = volume(rt.alloc(), version, bytes)?;
            let refused = upgrade(rt.alloc(), &mut device);
            same(&rt, (version, *refusal), refused, Err(*refusal));
            same(&rt, (version, *refusal), device.writes(), 0);
        }
    }
    Ok(())
}
