//! The lines `bits`, `check` and `repair`.
use crate::reports::{
    CLEAN_REPORT, DAMAGED_REPORT, LOST_DIRECTORY, LOST_MENDED, LOST_REPORT, SHARED_BLOCK,
    SHARED_REPORT, SOFT_MENDED, SOFT_REPORT,
};
use crate::trying::Wanted::{Printed, Refused};
use crate::trying::{
    Changes, SMALL, Wanted, changed, gives, gives_of_bytes, gives_of_each, made, made_small,
    refuses_lengths, removes, writes,
};
use serve_lines::Holdable;
use std::fs;
use std::io::Eprint;
use std::os::unix::fs::FileExt;
use std::process::Abort;
use std::rt::Files;
use std::sync::Wait;
use std::thread::Threads;
use std::time::Clock;

/// Changes of a small fresh image, and what `bits` tells of each.
const SMALL_NUMBERS: &[(Changes<'static>, Wanted<'static>)] = &[
    (&[], Printed("verdict clean\n", 0)),
    (&[(1_056, 36)], Printed("lost number 5\nverdict soft\n", 1)),
    (
        &[(1_056, 32)],
        Printed("lost number 5\nunmarked inode 2\nverdict damaged\n", 2),
    ),
    (
        &[(1_056, 0)],
        Printed("unmarked inode 2\nverdict damaged\n", 2),
    ),
    // The second byte of record 3's mode.
    (
        &[(2_433, 1)],
        Printed("unmarked inode 3\nverdict damaged\n", 2),
    ),
    // Numbers 0 and 1 are not given out, and there is no number 16.
    (&[(1_056, 7)], Printed("verdict clean\n", 0)),
    (&[(2_048, 1)], Printed("verdict clean\n", 0)),
    (&[(2_176, 1)], Printed("verdict clean\n", 0)),
    (&[(1_058, 1)], Printed("verdict clean\n", 0)),
];

#[test]
fn bits_tells_the_numbers_of_a_small_image(rt: HostRuntime) {
    let image = "rows_small.img";
    let fresh = made_small(&rt, image);
    has_length(&rt, fresh.as_slice(), SMALL);
    gives_of_each(&rt, "bits", image, fresh.as_slice(), SMALL_NUMBERS);
    removes(&rt, image);
}

/// These bytes are so many.
fn has_length(rt: &impl Abort, bytes: &[u8], length: usize) {
    assert_eq!(rt; bytes.len(), length);
}

/// Changes of a small fresh image that make it none, and how each is refused.
const NO_IMAGES: &[(Changes<'static>, Wanted<'static>)] = &[
    (
        &[(0, 0)],
        Refused(
            "refused 4 BadSuper\nat rows_no_image.img: not an image of fsvol\n",
            3,
        ),
    ),
    (
        &[(4, 0)],
        Refused(
            "refused 4 BadSuper\nat rows_no_image.img: not an image of fsvol\n",
            3,
        ),
    ),
    (
        &[(4, 3)],
        Refused(
            "refused 4 BadSuper\nat rows_no_image.img: not an image of fsvol\n",
            3,
        ),
    ),
    (
        &[(1_024, 0)],
        Refused("refused 5 BadGroup 0\nat rows_no_image.img\n", 3),
    ),
    (
        &[(1_028, 1)],
        Refused("refused 5 BadGroup 0\nat rows_no_image.img\n", 3),
    ),
];

/// Lengths that are not those of a small image, and what is told of each: no bytes, less than a block, a byte and a block too few,
/// a byte and a block too many.
const NO_LENGTHS: &[(usize, &str)] = &[
    (0, "0 bytes, without a superblock"),
    (100, "100 bytes, not a multiple of 1024"),
    (SMALL - 1, "17407 bytes, its superblock asks for 17408"),
    (SMALL - 1_024, "16384 bytes, its superblock asks for 17408"),
    (SMALL + 1, "17409 bytes, its superblock asks for 17408"),
    (SMALL + 1_024, "18432 bytes, its superblock asks for 17408"),
];

#[test]
fn bits_refuses_what_is_no_image(rt: HostRuntime) {
    let image = "rows_no_image.img";
    let fresh = made_small(&rt, image);
    gives_of_each(&rt, "bits", image, fresh.as_slice(), NO_IMAGES);
    refuses_lengths(&rt, "bits", image, fresh.as_slice(), NO_LENGTHS);
    removes(&rt, image);
}

/// How many bytes an image of 2 groups, 16 blocks and 16 inodes has.
const TWO_GROUPS: usize = 33_792;

/// Changes of a fresh image of two groups, and what `bits` tells of each.
const NUMBERS_OF_TWO: &[(Changes<'static>, Wanted<'static>)] = &[
    (&[], Printed("verdict clean\n", 0)),
    (&[(17_440, 1)], Printed("lost number 16\nverdict soft\n", 1)),
    (
        &[(17_441, 128)],
        Printed("lost number 31\nverdict soft\n", 1),
    ),
    (
        &[(20_352, 1)],
        Printed("unmarked inode 31\nverdict damaged\n", 2),
    ),
    // Number 31 is marked, and its record is not free.
    (&[(17_441, 128), (20_352, 1)], Printed("verdict clean\n", 0)),
    (
        &[
            (1_056, 36),
            (17_440, 1),
            (17_441, 128),
            (2_432, 1),
            (20_224, 1),
        ],
        Printed(
            "lost number 5\nlost number 16\nlost number 31\nunmarked inode 3\nunmarked inode 30\nverdict damaged\n",
            2,
        ),
    ),
    (
        &[(17_408, 0)],
        Refused("refused 5 BadGroup 1\nat rows_two_groups.img\n", 3),
    ),
    (
        &[(1_024, 0), (17_408, 0)],
        Refused("refused 5 BadGroup 0\nat rows_two_groups.img\n", 3),
    ),
];

#[test]
fn bits_tells_the_numbers_of_two_groups(rt: HostRuntime) {
    let image = "rows_two_groups.img";
    let fresh = made(&rt, "--groups 2 --blocks 16 --inodes 16", image);
    has_length(&rt, fresh.as_slice(), TWO_GROUPS);
    gives_of_each(&rt, "bits", image, fresh.as_slice(), NUMBERS_OF_TWO);
    removes(&rt, image);
}

/// Changes of a small fresh image, and what `check` tells of each.
const CHECKED: &[(Changes<'static>, Wanted<'static>)] = &[
    (&[], Printed(CLEAN_REPORT, 0)),
    (&[(1_184, 33)], Printed(SOFT_REPORT, 1)),
    (&[(1_056, 0)], Printed(DAMAGED_REPORT, 2)),
    (LOST_DIRECTORY, Printed(LOST_REPORT, 1)),
    (SHARED_BLOCK, Printed(SHARED_REPORT, 2)),
];

#[test]
fn check_prints_the_report_of_an_image(rt: HostRuntime) {
    let image = "rows_check.img";
    let fresh = made_small(&rt, image);
    has_length(&rt, CLEAN_REPORT.as_bytes(), 133);
    has_length(&rt, SOFT_REPORT.as_bytes(), 147);
    has_length(&rt, LOST_REPORT.as_bytes(), 195);
    for start in [
        "check --workers 1",
        "check --workers 2",
        "check --progress --workers 3",
        "check --workers 64",
    ] {
        gives_of_each(&rt, start, image, fresh.as_slice(), CHECKED);
    }
    removes(&rt, image);
}

/// Changes of a small fresh image, the report of each, and what is mended.
const MENDED: &[(Changes<'static>, &str, &str)] = &[
    (LOST_DIRECTORY, LOST_REPORT, LOST_MENDED),
    (&[(1_184, 33)], SOFT_REPORT, SOFT_MENDED),
];

#[test]
fn repair_gives_a_lost_directory_back(rt: HostRuntime) {
    let image = "rows_repair.img";
    let fresh = made_small(&rt, image);
    for start in ["repair --workers 1", "repair --progress --workers 4"] {
        for &(changes, report, mended) in MENDED {
            let bytes = changed(&rt, fresh.as_slice(), changes);
            mends(&rt, start, image, bytes.as_slice(), report, mended);
        }
    }
    removes(&rt, image);
}

/// An image of these bytes is mended, and is clean then.
fn mends<R: Files + AllocGlobal + Clock + Eprint + Threads + Wait + Sync + Abort + Clone + Drop>(
    rt: &R,
    start: &str,
    image: &str,
    bytes: &[u8],
    report: &str,
    mended: &str,
)
where
    R::File: FileExt + Holdable + Send,
{
    let out = format!(in rt.alloc(); "{report}{mended}").expect(rt, "memory");
    writes(rt, image, bytes);
    gives(rt, start, image, Printed(out.as_str(), 1));
    gives(rt, "check --workers 1", image, Printed(CLEAN_REPORT, 0));
    gives(rt, start, image, Printed(CLEAN_REPORT, 0));
}

/// Changes of a small fresh image that are not mended, and what `repair` tells of each.
const LEFT: &[(Changes<'static>, Wanted<'static>)] = &[
    (&[], Printed(CLEAN_REPORT, 0)),
    (&[(1_056, 0)], Printed(DAMAGED_REPORT, 2)),
    (SHARED_BLOCK, Printed(SHARED_REPORT, 2)),
    (
        &[(0, 0)],
        Refused(
            "refused 4 BadSuper\nat rows_repair_nothing.img: not an image of fsvol\n",
            3,
        ),
    ),
    (
        &[(1_028, 1)],
        Refused("refused 5 BadGroup 0\nat rows_repair_nothing.img\n", 3),
    ),
];

#[test]
fn repair_writes_no_clean_or_damaged_image(rt: HostRuntime) {
    let image = "rows_repair_nothing.img";
    let start = "repair --workers 2";
    let fresh = made_small(&rt, image);
    gives_of_each(&rt, start, image, fresh.as_slice(), LEFT);
    removes(&rt, image);
    gives(
        &rt,
        start,
        image,
        Refused(
            "refused 2 Device\nat rows_repair_nothing.img: no such file\n",
            4,
        ),
    );
}

#[test]
fn check_and_repair_refuse_other_than_1_to_64_workers(rt: HostRuntime) {
    let image = "rows_workers.img";
    let fresh = made_small(&rt, image);
    for start in [
        "check --workers 0",
        "check --workers 65",
        "check --workers 4294967295",
        "repair --workers 0",
        "repair --workers 65",
    ] {
        refuses_workers(&rt, start, image, fresh.as_slice());
    }
    removes(&rt, image);
}

/// The line is refused for its workers, also where no file stands.
fn refuses_workers<
    R: Files + AllocGlobal + Clock + Eprint + Threads + Wait + Sync + Abort + Clone + Drop,
>(rt: &R, start: &str, image: &str, fresh: &[u8])
where
    R::File: FileExt + Holdable + Send,
{
    let wanted = Refused("refused 6 BadWorkers\nworkers: 1 to 64\n", 3);
    gives_of_bytes(rt, start, image, fresh, wanted);
    gives(rt, start, "rows_no_such_file.img", wanted);
}

/// How a check refuses a group that is none.
const NO_GROUP: &[(Changes<'static>, Wanted<'static>)] = &[(
    &[(1_028, 1)],
    Refused("refused 5 BadGroup 0\nat rows_check_no_image.img\n", 3),
)];

#[test]
fn check_refuses_what_is_no_image(rt: HostRuntime) {
    let image = "rows_check_no_image.img";
    let start = "check --workers 4";
    let fresh = made_small(&rt, image);
    refuses_lengths(&rt, start, image, fresh.as_slice(), NO_LENGTHS);
    gives_of_each(&rt, start, image, fresh.as_slice(), NO_GROUP);
    removes(&rt, image);
    gives(
        &rt,
        start,
        "rows_no_such_file.img",
        Refused(
            "refused 2 Device\nat rows_no_such_file.img: no such file\n",
            4,
        ),
    );
}
