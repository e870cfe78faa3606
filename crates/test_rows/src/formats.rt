//! The versions of the layout, and how long a file may be in each.
use crate::reports::CLEAN_REPORT;
use crate::trying::Wanted::{Printed, Refused};
use crate::trying::{
    Changes, Wanted, changed, give, gives, gives_of_each, holds, is_missing, made, made_small,
    removes, same, writes,
};
use serve_lines::Holdable;
use std::alloc::{AllocError, Global};
use std::fs;
use std::fs::OpenFile;
use std::io::Eprint;
use std::os::unix::fs::FileExt;
use std::process::Abort;
use std::rt::Files;
use std::sync::Wait;
use std::thread::Threads;
use std::time::Clock;

/// The words that make a small image in the second version.
const SMALL_IN_TWO: &str = "--groups 1 --blocks 16 --inodes 16 --format 2";

/// What the numbers of a small fresh image in the second version are.
const NUMBERS: &str =
    "format 2\ngroups 1\nblocks-a-group 16\ninodes-a-group 16\nblocks 17\nblock-bytes 1024\nnumbers-used 1\nnumbers-free 13\ndata-blocks-used 1\ndata-blocks-free 12\nfiles 0\ndirectories 1\nlongest-free-run 12\n";

/// How a line is refused on an image whose version no layout has.
const NO_VERSION: Wanted<'static> = Refused(
    "refused 4 BadSuper\nat rows_formats_fresh.img: not an image of fsvol\n",
    3,
);

/// The version of a small fresh image, and what `info` tells of each.
const VERSIONS: &[(Changes<'static>, Wanted<'static>)] = &[
    (&[(4, 0)], NO_VERSION),
    (&[(4, 2)], Printed(NUMBERS, 0)),
    (&[(4, 3)], NO_VERSION),
    (&[(4, 2), (7, 1)], NO_VERSION),
];

#[test]
fn a_fresh_image_tells_its_version_alone(rt: HostRuntime) {
    let image = "rows_formats_fresh.img";
    let fresh = made_small(&rt, image);
    let in_one = made(&rt, "--groups 1 --blocks 16 --inodes 16 --format 1", image);
    same(&rt, &["--format 1"], in_one.as_slice(), fresh.as_slice());
    let in_two = made(&rt, SMALL_IN_TWO, image);
    let wanted = changed(&rt, fresh.as_slice(), &[(4, 2)]);
    same(&rt, &["--format 2"], in_two.as_slice(), wanted.as_slice());
    gives(&rt, "check --workers 1", image, Printed(CLEAN_REPORT, 0));
    gives_of_each(&rt, "info", image, fresh.as_slice(), VERSIONS);
    removes(&rt, image);
}

/// Bytes 60 to 63 of the records of the numbers 0, 2 and 15 of a small image, which its first version does not look at.
const BEHIND: Changes<'static> = &[
    (2_108, 255),
    (2_364, 1),
    (2_365, 255),
    (2_366, 255),
    (2_367, 255),
    (4_028, 7),
];

/// How a line is refused on an image that breaks a rule.
const DAMAGED: Wanted<'static> = Refused(
    "refused 24 Damaged\nsee: fsvol check rows_formats_upgraded.img\n",
    2,
);

/// And on one whose version no layout has.
const NO_LAYOUT: Wanted<'static> = Refused(
    "refused 4 BadSuper\nat rows_formats_upgraded.img: not an image of fsvol\n",
    3,
);

/// Changes of a small image that an upgrade leaves as it is: it is in the second version, or number 2 is not marked.
const LEFT: &[(Changes<'static>, Wanted<'static>)] = &[
    (&[(4, 2)], Printed("", 0)),
    (&[(1_056, 0)], DAMAGED),
    (&[(4, 2), (1_056, 0)], DAMAGED),
    (&[(4, 3)], NO_LAYOUT),
];

#[test]
fn an_image_is_upgraded_in_its_place(rt: HostRuntime) {
    let image = "rows_formats_upgraded.img";
    let fresh = made_small(&rt, image);
    let full = changed(&rt, fresh.as_slice(), BEHIND);
    writes(&rt, image, full.as_slice());
    gives(&rt, "check --workers 1", image, Printed(CLEAN_REPORT, 0));
    gives(&rt, "upgrade", image, Printed("", 0));
    let wanted = changed(&rt, fresh.as_slice(), &[(4, 2)]);
    holds(&rt, "upgrade", image, wanted.as_slice());
    gives(&rt, "check --workers 1", image, Printed(CLEAN_REPORT, 0));
    gives(&rt, "info", image, Printed(NUMBERS, 0));
    gives_of_each(&rt, "upgrade", image, fresh.as_slice(), LEFT);
    removes(&rt, image);
}

/// The text of a file of so many bytes, in which each block tells its index.
fn numbered(alloc: Global, length: usize) -> Result<String, AllocError> {
    let filler = "x".repeat(alloc, 1_015)?;
    let mut text = String::with_capacity(alloc, length)?;
    for index in 0..length / 1_024 {
        writeln!(text, "{index:08}{filler}")?;
    }
    for _byte in 0..length % 1_024 {
        text.push('x')?;
    }
    Ok(text)
}

/// Files that go into an image of the second version: the words of its geometry, how many bytes each has, and what a path to it leads
/// to.
const LONG: &[(&str, usize, &str)] = &[
    (
        "--groups 1 --blocks 512 --inodes 16",
        274_433,
        "number 3\nkind file\nlinks 1\nsize 274433\nblocks 269\n",
    ),
    (
        "--groups 1 --blocks 1024 --inodes 16",
        537_600,
        "number 3\nkind file\nlinks 1\nsize 537600\nblocks 525\n",
    ),
];

#[test]
fn a_long_file_goes_in_and_comes_out(rt: HostRuntime) {
    for &(geometry, length, stat) in LONG {
        goes_through(&rt, "rows_formats_long", geometry, length, stat);
    }
}

#[test]
fn a_file_of_10_mib_goes_in_and_comes_out(rt: HostRuntime) {
    goes_through(
        &rt,
        "rows_formats_10_mib",
        "--groups 3 --blocks 4096 --inodes 16",
        10_485_760,
        "number 3\nkind file\nlinks 1\nsize 10485760\nblocks 10240\n",
    );
}

/// A file of this name and of so many bytes goes into an image of the second version, comes out of it as it was, and leaves nothing
/// there once it is removed.
fn goes_through<
    R: Files + AllocGlobal + Clock + Eprint + Threads + Wait + Sync + Abort + Clone + Drop,
>(rt: &R, file: &str, geometry: &str, length: usize, stat: &str)
where
    R::File: FileExt + Holdable + Send,
{
    let alloc = rt.alloc();
    let image = format!(in alloc; "{file}.img").expect(rt, "memory");
    let copy = format!(in alloc; "{file}.copy").expect(rt, "memory");
    let words = format!(in alloc; "{geometry} --format 2").expect(rt, "memory");
    let text = numbered(alloc, length).expect(rt, "memory");
    let _ = fs::remove_file(rt, copy.as_str());
    writes(rt, file, text.as_bytes());
    made(rt, words.as_str(), image.as_str());
    puts_and_gets(rt, image.as_str(), file, copy.as_str(), text.as_str(), stat);
    removes(rt, image.as_str());
    removes(rt, file);
    removes(rt, copy.as_str());
}

/// A file with this text goes into an image, is told of by `stat` as this, and comes out as the copy.
fn puts_and_gets<
    'a,
    R: Files + AllocGlobal + Clock + Eprint + Threads + Wait + Sync + Abort + Clone + Drop,
>(rt: &R, image: &'a str, file: &'a str, copy: &'a str, text: &'a str, stat: &'a str)
where
    R::File: FileExt + Holdable + Send,
{
    let lines = [
        ("put", " /a", file, Printed("", 0)),
        ("stat", "", "/a", Printed(stat, 0)),
        ("cat", "", "/a", Printed(text, 0)),
        ("get", " /a", copy, Printed("", 0)),
        ("repair", " --workers", "2", Printed(CLEAN_REPORT, 0)),
        ("rm", "", "/a", Printed("", 0)),
        ("ls", "", "/", Printed("", 0)),
        ("check", " --workers", "2", Printed(CLEAN_REPORT, 0)),
    ];
    give(rt, image, &lines);
    holds(rt, "get", copy, text.as_bytes());
}

#[test]
fn an_image_is_made_of_a_long_file(rt: HostRuntime) {
    let (image, folder, file) = (
        "rows_formats_from.img",
        "rows_formats_from",
        "rows_formats_from/a",
    );
    let text = numbered(rt.alloc(), 275_456).expect(&rt, "memory");
    made_folder(&rt, folder, file, 0);
    writes(&rt, file, text.as_bytes());
    let lines = [
        (
            "mkfs",
            " --groups 1 --blocks 512 --inodes 16 --format 2 --from",
            folder,
            Printed("", 0),
        ),
        ("ls -l", "", "/", Printed("3 file 1 275456 a\n", 0)),
        ("check", " --workers", "1", Printed(CLEAN_REPORT, 0)),
    ];
    give(&rt, image, &lines);
}

/// Makes a folder of the host with a file of so many bytes in it, all 0.
fn made_folder<R: Files + AllocGlobal + Abort>(rt: &R, folder: &str, file: &str, length: u64) {
    let _ = fs::remove_dir_all(rt, folder);
    fs::create_dir(rt, folder).expect(rt, folder);
    made_file(rt, file, length);
}

/// Makes a file of the host with so many bytes, all 0.
fn made_file<R: Files + Abort>(rt: &R, file: &str, length: u64) {
    let made = fs::create(rt, file).expect(rt, file);
    made.set_len(length).expect(rt, file);
}

/// How a line ends where `/a` stands, with a file that the version allows.
const EXISTS: Wanted<'static> = Refused("refused 8 Exists\nat /a\n", 3);

/// And with one that is too long.
const TOO_BIG: Wanted<'static> = Refused("refused 16 TooBig\nat rows_formats_limits/a\n", 3);

/// Versions of the layout, how many bytes a file has, and how a line ends that puts it where `/a` stands.
const LIMITS: &[(&str, u64, Wanted<'static>)] = &[
    ("1", 274_432, EXISTS),
    ("1", 274_433, TOO_BIG),
    ("1", 67_383_297, TOO_BIG),
    ("2", 274_433, EXISTS),
    ("2", 67_383_296, EXISTS),
    ("2", 67_383_297, TOO_BIG),
];

#[test]
fn a_file_is_too_big_by_the_version(rt: HostRuntime) {
    let image = "rows_formats_limits.img";
    for &(version, length, wanted) in LIMITS {
        let words = format!(in rt.alloc();
            "--groups 1 --blocks 16 --inodes 16 --format {version}"
        ).expect(&rt, "memory");
        made(&rt, words.as_str(), image);
        made_folder(&rt, "rows_formats_limits", "rows_formats_limits/a", length);
        let lines = [
            ("mkdir", "", "/a", Printed("", 0)),
            ("put", " /", "rows_formats_limits", wanted),
            ("put", " /a", "rows_formats_limits/a", wanted),
            ("check", " --workers", "1", Printed(CLEAN_REPORT, 0)),
        ];
        give(&rt, image, &lines);
    }
    removes(&rt, image);
}

/// Versions of the layout, and how many bytes are too many for a file.
const TOO_LONG: &[(&str, u64)] = &[("1", 274_433), ("2", 67_383_297)];

#[test]
fn no_image_is_made_of_a_file_that_is_too_big(rt: HostRuntime) {
    let (image, folder, file) = (
        "rows_formats_too_big.img",
        "rows_formats_too_big",
        "rows_formats_too_big/a",
    );
    let _ = fs::remove_file(&rt, image);
    let refused = Refused("refused 16 TooBig\nat rows_formats_too_big/a\n", 3);
    for &(version, length) in TOO_LONG {
        let words = format!(in rt.alloc();
            " --groups 1 --blocks 512 --inodes 16 --format {version} --from"
        ).expect(&rt, "memory");
        made_folder(&rt, folder, file, length);
        give(&rt, image, &[("mkfs", words.as_str(), folder, refused)]);
        is_missing(&rt, words.as_str(), image);
    }
    fs::remove_dir_all(&rt, folder).expect(&rt, folder);
}

/// A script that gives a file of 268 blocks one more, and what users are told of it in each version.
const GROWN: &[(&str, &str, &str)] = &[
    (
        "1",
        "1 open /a -> ok 0\n1 write 0 268 x -> refused 16 TooBig\n",
        "stop 0 verdict clean findings 0\n",
    ),
    (
        "2",
        "1 open /a -> ok 0\n1 write 0 268 x -> ok\n",
        "stop 0 verdict clean findings 0\nstop 1 verdict soft findings 3\nstop 2 verdict soft findings 3\nstop 3 verdict soft findings 3\nstop 4 verdict soft findings 3\nstop 5 verdict clean findings 0\n",
    ),
];

#[test]
fn a_script_lets_a_file_grow_by_the_version(rt: HostRuntime) {
    let (image, file, script) = (
        "rows_formats_grown.img",
        "rows_formats_grown",
        "rows_formats_grown.txt",
    );
    made_file(&rt, file, 274_432);
    writes(&rt, script, b"1 open /a\n1 write 0 268 x\n");
    for &(version, told, stops) in GROWN {
        let geometry = format!(in rt.alloc();
            "--groups 1 --blocks 512 --inodes 16 --format {version}"
        ).expect(&rt, "memory");
        let ran = format!(in rt.alloc(); "{told}{CLEAN_REPORT}repaired 0\n").expect(&rt, "memory");
        made(&rt, geometry.as_str(), image);
        let lines = [
            ("put", " /a", file, Printed("", 0)),
            ("stops", "", script, Printed(stops, 0)),
            ("run --workers 2", "", script, Printed(ran.as_str(), 0)),
            ("check", " --workers", "1", Printed(CLEAN_REPORT, 0)),
        ];
        give(&rt, image, &lines);
    }
    for name in [image, file, script] {
        removes(&rt, name);
    }
}
