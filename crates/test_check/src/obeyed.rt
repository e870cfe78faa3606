use crate::expect::same;
use device::Byte;
use layout::{Geometry, Refusal};
use rules::obeys;
use std::alloc::Global;
use std::test::Fail;
use test_images::frozen_with;

/// Bytes of the first inodes of a fresh image that differ, and the rule that is broken then.
const CASES: &[(&[Byte], Option<u8>)] = &[
    (&[], None),
    // The root has 1 link and 2 entries.
    (&[(2, 258, 1)], Some(8)),
    // Inode 5 has the mode 3, and is not marked.
    (&[(2, 640, 3)], Some(2)),
];

/// The least rule that is broken by an image of one group of 16 blocks and 16 inodes, fresh but for these bytes.
fn broken_by(alloc: Global, bytes: &[Byte]) -> Result<Option<u8>, Refusal> {
    let frozen = frozen_with(alloc, &Geometry::new(1, 16, 16)?, bytes)?;
    obeys(alloc, &frozen)
}

#[test]
fn the_least_broken_rule_is_told(rt: HostRuntime) -> Result<(), Fail> {
    for (bytes, wanted) in CASES {
        same(&rt, *bytes, broken_by(rt.alloc(), bytes)?, *wanted);
    }
    Ok(())
}
