//! An image that workers of any number check, and find the same.
use crate::expect::same;
use crate::image::{Change, VERSIONS, changed};
use fsck::check;
use layout::Geometry;
use std::test::Fail;
use workers::{OpenGate, Workers};

/// Changes of a fresh image of two groups of 16 blocks and 16 inodes: a file of each group has block 25, which is one of
/// the second group.
const ONE_BLOCK_OF_TWO_FILES: &[Change] = &[
    Change::Number(5),
    Change::Number(20),
    Change::Marked(25, 25),
    Change::File(5, 1_024, &[25]),
    Change::File(20, 1_024, &[25]),
    Change::Entry(4, 2, 5, b"a"),
    Change::Entry(4, 3, 20, b"b"),
];

const REPORT: &str =
    "phase 1 blocks and sizes\n  duplicate 20 position 0 block 25\nphase 2 names\nphase 3 connectivity\nphase 4 reference counts\nphase 5 maps\nfindings 1\nrepairs 0\nverdict damaged\n";

#[test]
fn a_claim_of_another_group_is_a_duplicate(rt: HostRuntime) -> Result<(), Fail> {
    let alloc = rt.alloc();
    for version in VERSIONS {
        let geometry = Geometry::new(2, 16, 16)?.with_version(version)?;
        let frozen = changed(alloc, &geometry, ONE_BLOCK_OF_TWO_FILES)?;
        for count in [1, 2, 3, 64] {
            let workers = Workers::new(count)?;
            let checked = check(&rt, alloc, &frozen, workers, &OpenGate)?;
            same(&rt, workers, checked.report(), REPORT.as_bytes());
            same(&rt, workers, checked.report().len(), 170);
        }
    }
    Ok(())
}
