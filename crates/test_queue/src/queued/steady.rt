use super::cases::{Put, Told};
use super::{AFTER_5, Bed, MANY, NONE, updates_of};
use crate::expect::same;
use layout::Refusal;
use std::process::Abort;
use std::test::Fail;

/// Updates that wait all the time: the bytes of block 6 for record 5.
const WAITING: &[Told] = &[
    Told(Put::Record(5, 1), &[]),
    Told(Put::Bytes(6, 1), AFTER_5),
];

/// Expects an update of record 9 to go to the device, and the bytes of block 6 to wait still.
fn expect_one_goes<R: AllocGlobal + Abort>(
    rt: &R,
    bed: &mut Bed,
    links: u16,
) -> Result<(), Refusal> {
    bed.issue(updates_of(rt.alloc(), &[Told(Put::Record(9, links), &[])])?)?;
    same(rt, links, bed.flush(6), Ok(0));
    same(rt, links, bed.flush(3), Ok(1));
    bed.expect(rt.alloc(), 3, 1, &[Put::Record(9, links)])?;
    Ok(())
}

/// Expects a sync to write record 5, and then the bytes of block 6.
fn expect_both<R: AllocGlobal + Abort>(rt: &R, bed: &mut Bed) -> Result<(), Refusal> {
    same(rt, "sync", bed.sync(), Ok(()));
    bed.expect(rt.alloc(), 2, 1, &[Put::Record(5, 1)])?;
    let seen = bed.seen(rt.alloc(), bed.writes)?;
    same(rt, "record", seen.wrong, None);
    bed.expect(rt.alloc(), 6, 1, &[Put::Bytes(6, 1)])?;
    let seen = bed.seen(rt.alloc(), bed.writes)?;
    same(rt, "seen", seen, bed.told(None));
    Ok(())
}

/// Expects two updates to wait while many come and go, so that places are used again, and to go at last.
fn expect_waiting<R: AllocGlobal + Abort>(rt: &R, bed: &mut Bed) -> Result<(), Refusal> {
    bed.issue(updates_of(rt.alloc(), WAITING)?)?;
    for links in 1..=MANY {
        expect_one_goes(rt, bed, links)?;
    }
    expect_both(rt, bed)
}

#[test]
fn what_waits_is_kept_while_many_come_and_go(rt: HostRuntime) -> Result<(), Fail> {
    let mut bed = Bed::new(rt.alloc(), NONE)?;
    expect_waiting(&rt, &mut bed)?;
    Ok(())
}
