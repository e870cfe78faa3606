//! The lines that look into an image, and those that change the names in it.
use crate::reports::{CLEAN_REPORT, SHARED_BLOCK};
use crate::trying::Wanted::{Printed, Refused};
use crate::trying::{
    Changes, Row, Wanted, changed, give, gives, gives_of_each, holds, made, made_small, removes,
    writes,
};
use serve_lines::Holdable;
use std::fs;
use std::io::Eprint;
use std::os::unix::fs::FileExt;
use std::process::Abort;
use std::rt::Files;
use std::sync::Wait;
use std::thread::Threads;
use std::time::Clock;

/// What the numbers of the image are at the end of the next row.
const NUMBERS: &str =
    "format 1\ngroups 1\nblocks-a-group 16\ninodes-a-group 16\nblocks 17\nblock-bytes 1024\nnumbers-used 5\nnumbers-free 9\ndata-blocks-used 5\ndata-blocks-free 8\nfiles 1\ndirectories 4\nlongest-free-run 8\n";

/// What the users of a script are told that writes the file `/f`, and the report behind it.
const WRITTEN: &str =
    "1 create /f -> ok 6\n1 open /f -> ok 0\n1 write 0 0 abc -> ok\n1 close 0 -> ok\n";

/// The script that writes it.
const SCRIPT: &str = "1 create /f\n1 open /f\n1 write 0 0 abc\n1 close 0\n";

/// Lines on an image with the directories `/a`, `/a/b` and `/c`, and the file `/f`, one after another.
const LINKED: &[Row<'static>] = &[
    ("ls", "", "/", Printed("a\nc\nf\n", 0)),
    ("cat", "", "/f", Printed("abc", 0)),
    ("ln", " /f", "/%20", Printed("", 0)),
    ("ln", " /f", "/a", Printed("", 0)),
    (
        "stat",
        "",
        "/f",
        Printed("number 6\nkind file\nlinks 3\nsize 3\nblocks 1\n", 0),
    ),
    (
        "stat",
        "",
        "/",
        Printed(
            "number 2\nkind directory\nlinks 4\nsize 1024\nblocks 1\n",
            0,
        ),
    ),
];

/// And then these.
const MOVED: &[Row<'static>] = &[
    (
        "ls -l",
        "",
        "/",
        Printed(
            "3 directory 3 1024 a\n5 directory 2 1024 c\n6 file 3 3 f\n6 file 3 3 %20\n",
            0,
        ),
    ),
    (
        "ls -R",
        "",
        "/",
        Printed("/:\na\nc\nf\n%20\n\n/a:\nb\nf\n\n/a/b:\n\n/c:\n", 0),
    ),
    ("mv", " /%20", "/g", Printed("", 0)),
    ("mv", " /f /g", "/c", Printed("", 0)),
    (
        "ls -lR",
        "",
        "/c",
        Printed("/c:\n6 file 3 3 f\n6 file 3 3 g\n", 0),
    ),
];

/// And at last these.
const REMOVED: &[Row<'static>] = &[
    ("rm", " /a/f", "/c/f", Printed("", 0)),
    ("rmdir", "", "/a/b", Printed("", 0)),
    ("mkdir", "", "/d", Printed("", 0)),
    ("cat", "", "/c/g", Printed("abc", 0)),
    ("ln", " /c/g", "/c/h", Printed("", 0)),
    (
        "rm",
        " /c/h",
        "/c/h",
        Refused("refused 7 NotFound\nat /c/h\ndone 1 of 2\n", 3),
    ),
    (
        "ln",
        " /c/g",
        "/c/g",
        Refused("refused 8 Exists\nat /c/g\ndone 0 of 1\n", 3),
    ),
];

#[test]
fn an_image_is_changed_and_looked_into(rt: HostRuntime) {
    let image = "rows_everyday.img";
    made_small(&rt, image);
    give(&rt, image, &[("mkdir", " /a /a/b", "/c", Printed("", 0))]);
    writes_a_file(&rt, image, "rows_everyday.script");
    give(&rt, image, LINKED);
    give(&rt, image, MOVED);
    give(&rt, image, REMOVED);
    gives(&rt, "info", image, Printed(NUMBERS, 0));
    gives(&rt, "check --workers 1", image, Printed(CLEAN_REPORT, 0));
    removes(&rt, image);
}

/// A script writes the file `/f`.
fn writes_a_file<
    R: Files + AllocGlobal + Clock + Eprint + Threads + Wait + Sync + Abort + Clone + Drop,
>(rt: &R, image: &str, script: &str)
where
    R::File: FileExt + Holdable + Send,
{
    let ran = format!(in rt.alloc(); "{WRITTEN}{CLEAN_REPORT}repaired 0\n").expect(rt, "memory");
    writes(rt, script, SCRIPT.as_bytes());
    give(
        rt,
        image,
        &[("run --workers 1", "", script, Printed(ran.as_str(), 0))],
    );
    removes(rt, script);
}

/// Lines that are refused on a fresh image, as `give` takes them, and with which text: the status of each is 3.
const REFUSED: &[(&str, &str, &str, &str)] = &[
    (
        "mkdir",
        " /a /b /a",
        "/c",
        "refused 8 Exists\nat /a\ndone 2 of 4\n",
    ),
    ("mkdir", "", "/", "refused 30 IsRoot\nat /\ndone 0 of 1\n"),
    (
        "mkdir",
        " /c",
        "/x/y",
        "refused 7 NotFound\nat /x/y\ndone 1 of 2\n",
    ),
    (
        "rmdir",
        " /c",
        "/",
        "refused 30 IsRoot\nat /\ndone 1 of 2\n",
    ),
    (
        "rm",
        "",
        "/a",
        "refused 10 IsDirectory\nat /a\ndone 0 of 1\n",
    ),
    ("ls", "", "/x", "refused 7 NotFound\nat /x\n"),
    ("cat", "", "/a", "refused 10 IsDirectory\nat /a\n"),
    ("stat", "", "/a/%01", "refused 7 NotFound\nat /a/%01\n"),
];

/// Those that give other names: told is the path that is at fault.
const NOT_NAMED: &[(&str, &str, &str, &str)] = &[
    ("mv", " /a /b", "/x", "refused 7 NotFound\nat /x\n"),
    (
        "mv",
        " /x",
        "/y",
        "refused 7 NotFound\nat /x\ndone 0 of 1\n",
    ),
    (
        "mv",
        " /a",
        "/x/y",
        "refused 7 NotFound\nat /x/y\ndone 0 of 1\n",
    ),
    (
        "mv",
        " /a",
        "/b",
        "refused 10 IsDirectory\nat /a\ndone 0 of 1\n",
    ),
    (
        "ln",
        " /a",
        "/x",
        "refused 10 IsDirectory\nat /a\ndone 0 of 1\n",
    ),
    (
        "ln",
        " /",
        "/x",
        "refused 10 IsDirectory\nat /\ndone 0 of 1\n",
    ),
];

/// Those with what is no path: told is the rule that it breaks.
const NO_PATHS: &[(&str, &str, &str, &str)] = &[
    (
        "ls",
        "",
        "a",
        "refused 12 BadName\nat a: a path begins with /\n",
    ),
    (
        "mkdir",
        "",
        "d",
        "refused 12 BadName\nat d: a path begins with /\ndone 0 of 1\n",
    ),
    (
        "mv",
        " a",
        "/b",
        "refused 12 BadName\nat a: a path begins with /\ndone 0 of 1\n",
    ),
    (
        "stat",
        "",
        "/a//b",
        "refused 12 BadName\nat /a//b: each part of a path has 1 to 56 bytes, no NUL among them, and is not . or ..\n",
    ),
    (
        "mkdir",
        " /d",
        "/%2",
        "refused 12 BadName\nat /%2: % is followed by two hexadecimal digits\n",
    ),
];

#[test]
fn a_refused_change_tells_how_far_it_came(rt: HostRuntime) {
    let image = "rows_everyday_refused.img";
    made_small(&rt, image);
    for rows in [REFUSED, NOT_NAMED, NO_PATHS] {
        refuses_each(&rt, image, rows);
    }
    give(&rt, image, &[("ls", "", "/", Printed("a\nb\n", 0))]);
    gives(&rt, "check --workers 1", image, Printed(CLEAN_REPORT, 0));
    removes(&rt, image);
    give(&rt, image, MISSING);
}

/// Carries out lines on an image, as `give` takes them, each of which is refused with this text and the status 3.
fn refuses_each<
    R: Files + AllocGlobal + Clock + Eprint + Threads + Wait + Sync + Abort + Clone + Drop,
>(rt: &R, image: &str, rows: &[(&str, &str, &str, &str)])
where
    R::File: FileExt + Holdable + Send,
{
    for &(name, words, last, err) in rows {
        give(rt, image, &[(name, words, last, Refused(err, 3))]);
    }
}

/// How a line is refused on an image that is missing.
const NO_FILE: Wanted<'static> = Refused(
    "refused 2 Device\nat rows_everyday_refused.img: no such file\n",
    4,
);

/// Lines on an image that is missing.
const MISSING: &[Row<'static>] = &[
    ("ls", "", "/b", NO_FILE),
    ("mkdir", "", "/b", NO_FILE),
    ("mv", " /a", "/b", NO_FILE),
];

/// How a line is refused on a directory of the host.
const A_DIRECTORY: Wanted<'static> = Refused(
    "refused 2 Device\nat rows_directory.img: is a directory\n",
    4,
);

/// Lines on a directory of the host in place of an image.
const ON_DIRECTORY: &[Row<'static>] = &[
    ("ls", "", "/", A_DIRECTORY),
    ("check", " --workers", "1", A_DIRECTORY),
    ("mkdir", "", "/b", A_DIRECTORY),
    (
        "mkfs",
        " --groups 1 --blocks 16 --inodes",
        "16",
        A_DIRECTORY,
    ),
];

#[test]
fn a_directory_is_no_image(rt: HostRuntime) {
    let image = "rows_directory.img";
    let _ = fs::remove_dir(&rt, image);
    fs::create_dir(&rt, image).expect(&rt, image);
    give(&rt, image, ON_DIRECTORY);
    fs::remove_dir(&rt, image).expect(&rt, image);
}

/// Lines on a fresh image of 16 blocks, one after another.
const FULL_OF_BLOCKS: &[Row<'static>] = &[
    (
        "mkdir",
        " /1 /2 /3 /4 /5 /6 /7 /8 /9 /10 /11 /12",
        "/13",
        Refused("refused 14 NoBlock\nat /13\ndone 12 of 13\n", 3),
    ),
    (
        "rmdir",
        " /1 /2 /3 /4 /5 /6 /7 /8 /9 /10 /11 /12",
        "/13",
        Refused("refused 7 NotFound\nat /13\ndone 12 of 13\n", 3),
    ),
    ("ls", "", "/", Printed("", 0)),
];

/// And on one of 8 inodes.
const FULL_OF_INODES: &[Row<'static>] = &[
    (
        "mkdir",
        " /1 /2 /3 /4 /5 /6 /7 /8 /9 /10 /11 /12",
        "/13",
        Refused("refused 13 NoInode\nat /6\ndone 5 of 13\n", 3),
    ),
    ("ls", "", "/", Printed("1\n2\n3\n4\n5\n", 0)),
];

#[test]
fn a_full_image_keeps_what_went_before(rt: HostRuntime) {
    let image = "rows_everyday_full.img";
    made_small(&rt, image);
    give(&rt, image, FULL_OF_BLOCKS);
    made(&rt, "--groups 1 --blocks 16 --inodes 8", image);
    give(&rt, image, FULL_OF_INODES);
    gives(&rt, "check --workers 1", image, Printed(CLEAN_REPORT, 0));
    removes(&rt, image);
}

/// How a line is refused that would change an image of which two files have one block.
const SEE_CHECK: Wanted<'static> = Refused(
    "refused 24 Damaged\nsee: fsvol check rows_everyday_damaged.img\n",
    2,
);

/// Lines on such an image.
const DAMAGED: &[Row<'static>] = &[
    ("ls", "", "/", Printed("a\nb\n", 0)),
    ("mkdir", "", "/c", SEE_CHECK),
    ("rm", "", "/a", SEE_CHECK),
    ("mv", " /a", "/c", SEE_CHECK),
];

#[test]
fn a_damaged_image_is_looked_into_and_not_written(rt: HostRuntime) {
    let image = "rows_everyday_damaged.img";
    let fresh = made_small(&rt, image);
    let damaged = changed(&rt, fresh.as_slice(), SHARED_BLOCK);
    for &row in DAMAGED {
        writes(&rt, image, damaged.as_slice());
        give(&rt, image, &[row]);
        holds(&rt, row.0, image, damaged.as_slice());
    }
    gives_of_each(&rt, "info", image, fresh.as_slice(), SOFT);
    removes(&rt, image);
}

/// The change of a fresh image that marks block 9, and what `info` tells of it.
const SOFT: &[(Changes<'static>, Wanted<'static>)] = &[(&[(1_184, 33)], Printed(SOFT_NUMBERS, 0))];

/// What the numbers of a fresh image are whose block 9 is marked.
const SOFT_NUMBERS: &str =
    "format 1\ngroups 1\nblocks-a-group 16\ninodes-a-group 16\nblocks 17\nblock-bytes 1024\nnumbers-used 1\nnumbers-free 13\ndata-blocks-used 2\ndata-blocks-free 11\nfiles 0\ndirectories 1\nlongest-free-run 7\n";

/// The picture of a fresh image of 8 blocks.
const PICTURE: &str =
    "<svg xmlns=\"http://www.w3.org/2000/svg\" width=\"792\" height=\"184\" viewBox=\"0 0 792 184\" font-family=\"sans-serif\" font-size=\"12\" stroke-width=\".9\" stroke-dasharray=\".9 .1\">\n\
     <title>What the blocks of a volume are used for</title>\n\
     <rect width=\"792\" height=\"184\" fill=\"#FFFFFF\"/>\n\
     <text x=\"16\" y=\"30\" font-size=\"16\">9 blocks: the superblock, and 1 group of 8</text>\n\
     <text x=\"152\" y=\"120\" text-anchor=\"end\">from block</text><text x=\"160\" y=\"120\">64 blocks a row</text>\n\
     <g transform=\"translate(16 46)\"><rect width=\"14\" height=\"14\" fill=\"#000000\"/><text x=\"20\" y=\"12\">superblock and maps 2</text></g>\n\
     <g transform=\"translate(206 46)\"><rect width=\"14\" height=\"14\" fill=\"#0072B2\"/><text x=\"20\" y=\"12\">inodes 1</text></g>\n\
     <g transform=\"translate(396 46)\"><rect width=\"14\" height=\"14\" fill=\"#009E73\"/><text x=\"20\" y=\"12\">directory 1</text></g>\n\
     <g transform=\"translate(586 46)\"><rect width=\"14\" height=\"14\" fill=\"#CC79A7\"/><text x=\"20\" y=\"12\">indirect 0</text></g>\n\
     <g transform=\"translate(16 68)\"><rect width=\"14\" height=\"14\" fill=\"#56B4E9\"/><text x=\"20\" y=\"12\">file 0</text></g>\n\
     <g transform=\"translate(206 68)\"><rect width=\"14\" height=\"14\" fill=\"#E6E6E6\"/><text x=\"20\" y=\"12\">free 5</text></g>\n\
     <g transform=\"translate(396 68)\"><rect width=\"14\" height=\"14\" fill=\"#E69F00\"/><text x=\"20\" y=\"12\">lost 0</text></g>\n\
     <g transform=\"translate(586 68)\"><rect width=\"14\" height=\"14\" fill=\"#D55E00\"/><text x=\"20\" y=\"12\">duplicate 0</text></g>\n\
     <text x=\"16\" y=\"140\">superblock</text><text x=\"152\" y=\"140\" text-anchor=\"end\">0</text>\n\
     <g transform=\"translate(160 136) scale(16)\">\n\
     <path stroke=\"#000000\" d=\"M0 0h1\"/>\n\
     </g>\n\
     <text x=\"16\" y=\"164\">group 0</text><text x=\"152\" y=\"164\" text-anchor=\"end\">1</text>\n\
     <g transform=\"translate(160 160) scale(16)\">\n\
     <path stroke=\"#000000\" d=\"M0 0h1\"/>\n\
     <path stroke=\"#0072B2\" d=\"M1 0h1\"/>\n\
     <path stroke=\"#009E73\" d=\"M2 0h1\"/>\n\
     <path stroke=\"#E6E6E6\" d=\"M3 0h5\"/>\n\
     </g>\n\
     </svg>\n";

#[test]
fn a_picture_is_printed(rt: HostRuntime) {
    let image = "rows_everyday_picture.img";
    made(&rt, "--groups 1 --blocks 8 --inodes 8", image);
    gives(&rt, "map", image, Printed(PICTURE, 0));
    removes(&rt, image);
    gives(
        &rt,
        "map",
        image,
        Refused(
            "refused 2 Device\nat rows_everyday_picture.img: no such file\n",
            4,
        ),
    );
}
