//! Whole reports, repairs and rules. Where nothing else is said an image has one group of 16 blocks and 16 inodes: blocks
//! 4 to 16 are data blocks, the root is inode 2 and has block 4 with its dots, and its other slots are empty.
use crate::expect::same;
use crate::image::{Change, VERSIONS, checked};
use fsck::Checked;
use layout::Geometry;
use rules::obeys;
use std::alloc::Global;
use std::process::Abort;
use std::test::Fail;
use std::thread::Threads;

/// An example.
struct Example {
    /// What it shows.
    name: &'static str,
    /// The changes of a fresh image.
    changes: &'static [Change],
    /// The report of a check, byte for byte.
    report: &'static str,
    /// How many bytes the report has.
    length: usize,
    /// The lines of the repairs.
    repairs: &'static str,
    /// The least rule that is broken.
    broken: Option<u8>,
}

/// The repairs of an image, a line each.
fn repair_lines(alloc: Global, checked: &Checked) -> Result<String, Fail> {
    let mut lines = String::new(alloc);
    for repair in checked.repairs() {
        writeln!(lines, "{repair}")?;
    }
    Ok(lines)
}

/// Expects what an example has.
fn expect_example<R: Threads + AllocGlobal + Abort + Sync>(
    rt: &R,
    geometry: &Geometry,
    example: &Example,
) -> Result<(), Fail> {
    let checked = checked(rt, geometry, example.changes)?;
    same(
        rt,
        example.name,
        checked.report(),
        example.report.as_bytes(),
    );
    same(rt, example.name, checked.report().len(), example.length);
    let repairs = repair_lines(rt.alloc(), &checked)?;
    same(rt, example.name, repairs.as_str(), example.repairs);
    let broken = obeys(rt.alloc(), checked.frozen())?;
    same(rt, example.name, broken, example.broken);
    Ok(())
}

/// Checks each example, on images of both versions of the layout.
fn check_all<R: Threads + AllocGlobal + Abort + Sync>(
    rt: &R,
    examples: &[Example],
) -> Result<(), Fail> {
    for version in VERSIONS {
        let geometry = Geometry::new(1, 16, 16)?.with_version(version)?;
        for example in examples {
            expect_example(rt, &geometry, example)?;
        }
    }
    Ok(())
}

const WHAT_REPAIRS_MEND: &[Example] = &[
    Example {
        name: "a fresh image",
        changes: &[],
        report: "phase 1 blocks and sizes\nphase 2 names\nphase 3 connectivity\nphase 4 reference counts\nphase 5 maps\nfindings 0\nrepairs 0\nverdict clean\n",
        length: 133,
        repairs: "",
        broken: None,
    },
    Example {
        name: "a marked block that nothing claims",
        changes: &[Change::Marked(9, 9)],
        report: "phase 1 blocks and sizes\nphase 2 names\nphase 3 connectivity\nphase 4 reference counts\nphase 5 maps\n  lost block 9\nfindings 1\nrepairs 1\nverdict soft\n",
        length: 147,
        repairs: "free block 9\n",
        broken: None,
    },
    Example {
        name: "a marked number whose record is free",
        changes: &[Change::Number(5)],
        report: "phase 1 blocks and sizes\nphase 2 names\nphase 3 connectivity\nphase 4 reference counts\nphase 5 maps\n  lost number 5\nfindings 1\nrepairs 1\nverdict soft\n",
        length: 148,
        repairs: "free number 5\n",
        broken: None,
    },
    Example {
        name: "all bits of both maps",
        changes: &[
            Change::Marked(4, 16),
            Change::Byte(1_056, 255),
            Change::Byte(1_057, 255),
        ],
        report: "phase 1 blocks and sizes\nphase 2 names\nphase 3 connectivity\nphase 4 reference counts\nphase 5 maps\n  lost block 5\n  lost block 6\n  lost block 7\n  lost block 8\n  lost block 9\n  lost block 10\n  lost block 11\n  lost block 12\n  lost block 13\n  lost block 14\n  lost block 15\n  lost block 16\n  lost number 3\n  lost number 4\n  lost number 5\n  lost number 6\n  lost number 7\n  lost number 8\n  lost number 9\n  lost number 10\n  lost number 11\n  lost number 12\n  lost number 13\n  lost number 14\n  lost number 15\nfindings 25\nrepairs 25\nverdict soft\n",
        length: 535,
        repairs: "free block 5\nfree block 6\nfree block 7\nfree block 8\nfree block 9\nfree block 10\nfree block 11\nfree block 12\nfree block 13\nfree block 14\nfree block 15\nfree block 16\nfree number 3\nfree number 4\nfree number 5\nfree number 6\nfree number 7\nfree number 8\nfree number 9\nfree number 10\nfree number 11\nfree number 12\nfree number 13\nfree number 14\nfree number 15\n",
        broken: None,
    },
    Example {
        name: "a directory with a file that nothing names, and a link of its in the root",
        changes: &[
            Change::Number(6),
            Change::Number(7),
            Change::Marked(5, 5),
            Change::Directory(6, 2, &[5]),
            Change::Dots(5, 6, 2),
            Change::File(7, 0, &[]),
            Change::Entry(5, 2, 7, b"f"),
            Change::Links(2, 3),
        ],
        report: "phase 1 blocks and sizes\nphase 2 names\nphase 3 connectivity\n  lost inode 6\n  lost inode 7\nphase 4 reference counts\n  count high 2 links 3 entries 2\nphase 5 maps\nfindings 3\nrepairs 3\nverdict soft\n",
        length: 195,
        repairs: "drop inode 6\ndrop inode 7\nlower count 2 by 1\n",
        broken: None,
    },
    Example {
        name: "two directories that name each other, and nothing else does",
        changes: &[
            Change::Number(6),
            Change::Number(7),
            Change::Marked(5, 6),
            Change::Directory(6, 3, &[5]),
            Change::Dots(5, 6, 7),
            Change::Entry(5, 2, 7, b"b"),
            Change::Directory(7, 3, &[6]),
            Change::Dots(6, 7, 6),
            Change::Entry(6, 2, 6, b"a"),
        ],
        report: "phase 1 blocks and sizes\nphase 2 names\nphase 3 connectivity\n  lost inode 6\n  lost inode 7\nphase 4 reference counts\nphase 5 maps\nfindings 2\nrepairs 2\nverdict soft\n",
        length: 162,
        repairs: "drop inode 6\ndrop inode 7\n",
        broken: None,
    },
    Example {
        name: "a file that is not named, with a block",
        changes: &[
            Change::Number(5),
            Change::Marked(6, 6),
            Change::File(5, 1_024, &[6]),
        ],
        report: "phase 1 blocks and sizes\nphase 2 names\nphase 3 connectivity\n  lost inode 5\nphase 4 reference counts\nphase 5 maps\nfindings 1\nrepairs 1\nverdict soft\n",
        length: 147,
        repairs: "drop inode 5\n",
        broken: None,
    },
    Example {
        name: "a count that is too high by two",
        changes: &[Change::Links(2, 4)],
        report: "phase 1 blocks and sizes\nphase 2 names\nphase 3 connectivity\nphase 4 reference counts\n  count high 2 links 4 entries 2\nphase 5 maps\nfindings 1\nrepairs 1\nverdict soft\n",
        length: 165,
        repairs: "lower count 2 by 2\n",
        broken: None,
    },
];

#[test]
fn what_repairs_mend_breaks_no_rule(rt: HostRuntime) -> Result<(), Fail> {
    check_all(&rt, WHAT_REPAIRS_MEND)
}

const WHAT_BREAKS_A_RULE: &[Example] = &[
    Example {
        name: "two files with the same block",
        changes: &[
            Change::Number(5),
            Change::Number(6),
            Change::Marked(8, 8),
            Change::File(5, 1_024, &[8]),
            Change::File(6, 1_024, &[8]),
            Change::Entry(4, 2, 5, b"a"),
            Change::Entry(4, 3, 6, b"b"),
        ],
        report: "phase 1 blocks and sizes\n  duplicate 6 position 0 block 8\nphase 2 names\nphase 3 connectivity\nphase 4 reference counts\nphase 5 maps\nfindings 1\nrepairs 0\nverdict damaged\n",
        length: 168,
        repairs: "",
        broken: Some(3),
    },
    Example {
        name: "an entry that names a free inode",
        changes: &[Change::Entry(4, 2, 5, b"a")],
        report: "phase 1 blocks and sizes\nphase 2 names\n  name of no sound inode 2 slot 2\nphase 3 connectivity\nphase 4 reference counts\nphase 5 maps\nfindings 1\nrepairs 0\nverdict damaged\n",
        length: 169,
        repairs: "",
        broken: Some(6),
    },
    Example {
        name: "a directory that has its one block twice",
        changes: &[Change::Directory(2, 2, &[4, 4])],
        report: "phase 1 blocks and sizes\n  duplicate 2 position 1 block 4\nphase 2 names\n  bad slot 2 slot 16\n  bad slot 2 slot 17\nphase 3 connectivity\nphase 4 reference counts\nphase 5 maps\nfindings 3\nrepairs 0\nverdict damaged\n",
        length: 210,
        repairs: "",
        broken: Some(3),
    },
    Example {
        name: "a record of no kind, which is not marked",
        changes: &[Change::Inode {
            number: 5,
            mode: 3,
            size: 0,
            direct: &[],
            indirect: 0,
        }],
        report: "phase 1 blocks and sizes\n  bad inode 5\nphase 2 names\nphase 3 connectivity\nphase 4 reference counts\nphase 5 maps\n  unmarked inode 5\nfindings 2\nrepairs 0\nverdict damaged\n",
        length: 168,
        repairs: "",
        broken: Some(2),
    },
    Example {
        name: "a root that is a file",
        changes: &[Change::File(2, 1_024, &[4])],
        report: "phase 1 blocks and sizes\nphase 2 names\n  bad root\nphase 3 connectivity\n  lost inode 2\nphase 4 reference counts\nphase 5 maps\nfindings 2\nrepairs 0\nverdict damaged\n",
        length: 161,
        repairs: "",
        broken: Some(1),
    },
    Example {
        name: "a count that is too low, and a lost block",
        changes: &[Change::Links(2, 1), Change::Marked(9, 9)],
        report: "phase 1 blocks and sizes\nphase 2 names\nphase 3 connectivity\nphase 4 reference counts\n  count low 2 links 1 entries 2\nphase 5 maps\n  lost block 9\nfindings 2\nrepairs 0\nverdict damaged\n",
        length: 182,
        repairs: "",
        broken: Some(8),
    },
];

#[test]
fn what_breaks_a_rule_has_no_repairs(rt: HostRuntime) -> Result<(), Fail> {
    check_all(&rt, WHAT_BREAKS_A_RULE)
}
