use crate::expect::same;
use findings::{Finding, Repair, Verdict, in_order, repairs, report, verdict};
use layout::Refusal;
use std::process::Abort;
use std::test::Fail;

const CLEAN: &str = "phase 1 blocks and sizes
phase 2 names
phase 3 connectivity
phase 4 reference counts
phase 5 maps
findings 0
repairs 0
verdict clean
";

const ONE_LOST_BLOCK: &str = "phase 1 blocks and sizes
phase 2 names
phase 3 connectivity
phase 4 reference counts
phase 5 maps
  lost block 9
findings 1
repairs 1
verdict soft
";

const LOST_TREE: &str = "phase 1 blocks and sizes
phase 2 names
phase 3 connectivity
  lost inode 6
  lost inode 7
phase 4 reference counts
  count high 2 links 3 entries 2
phase 5 maps
findings 3
repairs 3
verdict soft
";

const DAMAGED: &str = "phase 1 blocks and sizes
  bad pointer 3 position 268 value 70000
phase 2 names
  bad root
phase 3 connectivity
phase 4 reference counts
phase 5 maps
  lost block 9
findings 3
repairs 0
verdict damaged
";

/// What is found, the report of it, and how many bytes that has. Findings may stand in any order.
const REPORTS: &[(&[Finding], &str, usize)] = &[
    (&[], CLEAN, 133),
    (&[Finding::LostBlock(9)], ONE_LOST_BLOCK, 147),
    (
        &[
            Finding::LostInode(6),
            Finding::LostInode(7),
            Finding::CountHigh(2, 3, 2),
        ],
        LOST_TREE,
        195,
    ),
    (
        &[
            Finding::LostBlock(9),
            Finding::RootBad,
            Finding::BadPointer(3, 268, 70000),
        ],
        DAMAGED,
        202,
    ),
];

#[test]
fn reports_are_these_texts(rt: HostRuntime) -> Result<(), Fail> {
    for (found, text, length) in REPORTS {
        let written = report(rt.alloc(), found)?;
        same(&rt, *text, written.as_slice(), text.as_bytes());
        same(&rt, *text, written.len(), *length);
    }
    Ok(())
}

/// Soft findings.
const SOFT: &[Finding] = &[
    Finding::LostInode(6),
    Finding::CountHigh(2, 5, 2),
    Finding::LostBlock(9),
    Finding::LostNumber(8),
];

/// The repairs that mend them, and their lines.
const MENDED: &[(Repair, &str)] = &[
    (Repair::DropInode(6), "drop inode 6"),
    (Repair::LowerCount(2, 3), "lower count 2 by 3"),
    (Repair::FreeBlock(9), "free block 9"),
    (Repair::FreeNumber(8), "free number 8"),
];

/// Expects this line of a repair.
fn expect_line<R: AllocGlobal + Abort>(rt: &R, repair: Repair, text: &str) -> Result<(), Refusal> {
    let line = repair.line(rt.alloc())?;
    same(rt, repair, line.as_slice(), text.as_bytes());
    Ok(())
}

#[test]
fn repairs_mend_soft_findings(rt: HostRuntime) -> Result<(), Fail> {
    let mended = repairs(rt.alloc(), SOFT)?;
    same(&rt, "repairs", mended.len(), MENDED.len());
    for (repair, (want, text)) in mended.iter().zip(MENDED.iter()) {
        same(&rt, *text, *repair, *want);
        expect_line(&rt, *repair, text)?;
    }
    Ok(())
}

#[test]
fn damaged_images_have_no_repairs(rt: HostRuntime) -> Result<(), Fail> {
    let damaged = [Finding::RootBad, Finding::LostInode(6)];
    same(&rt, "repairs", repairs(rt.alloc(), &damaged)?.len(), 0);
    same(&rt, "verdict", verdict(&damaged), Verdict::Damaged);
    Ok(())
}

#[test]
fn a_finding_has_a_line(rt: HostRuntime) -> Result<(), Fail> {
    let line = Finding::ToUnsound(2, 5).line(rt.alloc())?;
    let wanted = "name of no sound inode 2 slot 5";
    same(&rt, "line", line.as_slice(), wanted.as_bytes());
    Ok(())
}

#[test]
fn findings_stand_in_order_once(rt: HostRuntime) -> Result<(), Fail> {
    let found = vec![in rt.alloc();
        Finding::LostBlock(9),
        Finding::LostInode(7),
        Finding::LostInode(6),
        Finding::RootBad,
        Finding::LostInode(7),
    ]?;
    let sorted = in_order(found)?;
    let wanted = [
        Finding::RootBad,
        Finding::LostInode(6),
        Finding::LostInode(7),
        Finding::LostBlock(9),
    ];
    same(&rt, "in order", sorted.as_slice(), &wanted[..]);
    Ok(())
}
