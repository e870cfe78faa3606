use crate::expect::same;
use crate::smaller_volumes::{CLEAN, SOFT, expect_bytes, expect_shown, full_of_bytes, volume};
use std::test::Fail;
use upgrading::upgrade;

#[test]
fn a_fresh_volume_is_upgraded_by_one_write(rt: HostRuntime) -> Result<(), Fail> {
    let mut device = volume(rt.alloc(), 1, &[])?;
    same(&rt, "first", upgrade(rt.alloc(), &mut device), Ok(1));
    same(&rt, "again", upgrade(rt.alloc(), &mut device), Ok(0));
    same(&rt, "writes", device.writes(), 1);
    expect_shown(&rt, &device, 0, 1, CLEAN)?;
    expect_shown(&rt, &device, 1, 2, CLEAN)?;
    Ok(())
}

#[test]
fn each_image_that_is_held_shows_the_same(rt: HostRuntime) -> Result<(), Fail> {
    let mut device = full_of_bytes(rt.alloc())?;
    expect_bytes(&rt, &mut device, [255; 5])?;
    same(&rt, "first", upgrade(rt.alloc(), &mut device), Ok(3));
    for (writes, version) in [(0, 1), (1, 1), (2, 1), (3, 2)] {
        expect_shown(&rt, &device, writes, version, SOFT)?;
    }
    expect_bytes(&rt, &mut device, [0, 0, 0, 0, 255])?;
    same(&rt, "again", upgrade(rt.alloc(), &mut device), Ok(0));
    same(&rt, "writes", device.writes(), 3);
    Ok(())
}
