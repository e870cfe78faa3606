use crate::expect::same;
use crate::volumes::on_mounted;
use device::MemDevice;
use image_changes::{Outcome, change, outcome_of};
use layout::Refusal;
use snapshot::Volume;
use std::alloc::Global;
use std::process::Abort;
use std::test::Fail;
use test_mounted::{Asked, VERSIONS, commands_of};

/// What came of commands on a volume.
fn outcome_on(
    alloc: Global,
    volume: &mut Volume<MemDevice>,
    asked: &[Asked],
) -> Result<Outcome, Refusal> {
    let commands = commands_of(alloc, asked)?;
    let replies = change(alloc, volume, commands.as_slice())?;
    Ok(outcome_of(replies.as_slice()))
}

/// Commands, how many of them are carried out, and why the next one is not.
const ROWS: &[(&[Asked], usize, Option<Refusal>)] = &[
    (&[Asked::Mkdir(b"/a"), Asked::Mkdir(b"/a/b")], 2, None),
    (
        &[
            Asked::Mkdir(b"/c"),
            Asked::Mkdir(b"/a"),
            Asked::Mkdir(b"/d"),
        ],
        1,
        Some(Refusal::Exists),
    ),
    (&[], 0, None),
    (
        &[
            Asked::Mkdir(b"/d"),
            Asked::Mkdir(b"/e"),
            Asked::Mkdir(b"/f"),
        ],
        2,
        Some(Refusal::NoInode),
    ),
];

/// Expects the outcome of each row on a volume.
fn expect_rows<R: AllocGlobal + Abort>(
    rt: &R,
    volume: &mut Volume<MemDevice>,
) -> Result<(), Refusal> {
    for (asked, done, refused) in ROWS {
        let found = outcome_on(rt.alloc(), volume, asked)?;
        let wanted = Outcome {
            done: *done,
            refused: *refused,
        };
        same(rt, *done, found, wanted);
    }
    let names = volume.live().list(rt.alloc(), b"/")?;
    same(rt, "names", names.len(), 4);
    Ok(())
}

/// The volume has 6 free numbers.
#[test]
fn commands_stop_at_the_first_refusal(rt: HostRuntime) -> Result<(), Fail> {
    for version in VERSIONS {
        on_mounted(
            rt.alloc(),
            version,
            8,
            &[],
            |volume| expect_rows(&rt, volume),
        )?;
    }
    Ok(())
}
