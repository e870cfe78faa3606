use crate::expect::same;
use crate::smaller_volumes::{SOFT, expect_shown, full_of_bytes};
use device::Fuse;
use layout::Refusal;
use std::process::Abort;
use std::test::Fail;
use upgrading::upgrade;

/// After how many calls of the device one fails, how many blocks were written then, and of which version the volume is: five
/// blocks are read, two are written, the medium is waited for, the superblock is written, and the medium is waited for again.
const ROWS: &[(u64, usize, u32)] = &[
    (0, 0, 1),
    (1, 0, 1),
    (2, 0, 1),
    (3, 0, 1),
    (4, 0, 1),
    (5, 0, 1),
    (6, 1, 1),
    (7, 2, 1),
    (8, 2, 1),
    (9, 3, 2),
];

/// Expects the upgrade of a device that lets so many calls through to be refused, and the volume to show the same.
fn expect_stopped<R: AllocGlobal + Abort>(
    rt: &R,
    row: &(u64, usize, u32),
    once: bool,
) -> Result<(), Refusal> {
    let (calls, writes, version) = *row;
    let mut fuse = Fuse::new(full_of_bytes(rt.alloc())?, calls, once);
    let refused = upgrade(rt.alloc(), &mut fuse);
    same(rt, (calls, once), refused, Err(Refusal::Device));
    same(rt, (calls, once), fuse.device().writes(), writes);
    expect_shown(rt, fuse.device(), writes, version, SOFT)
}

#[test]
fn a_volume_shows_the_same_whatever_call_fails(rt: HostRuntime) -> Result<(), Fail> {
    for row in ROWS {
        expect_stopped(&rt, row, false)?;
        expect_stopped(&rt, row, true)?;
    }
    Ok(())
}

#[test]
fn an_upgrade_that_was_stopped_is_made_again(rt: HostRuntime) -> Result<(), Fail> {
    let mut fuse = Fuse::new(full_of_bytes(rt.alloc())?, 8, true);
    let refused = upgrade(rt.alloc(), &mut fuse);
    same(&rt, "first", refused, Err(Refusal::Device));
    same(&rt, "again", upgrade(rt.alloc(), &mut fuse), Ok(1));
    expect_shown(&rt, fuse.device(), 3, 2, SOFT)?;
    Ok(())
}
