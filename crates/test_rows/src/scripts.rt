//! The lines `run`, `stops` and `cuts`.
use crate::reports::{CLEAN_REPORT, SOFT_MENDED, SOFT_REPORT};
use crate::trying::Wanted::{Printed, Refused};
use crate::trying::{Changes, Wanted, changed, gives, holds, made_small, removes, writes};
use serve_lines::Holdable;
use std::fs;
use std::io::Eprint;
use std::os::unix::fs::FileExt;
use std::process::Abort;
use std::rt::Files;
use std::sync::Wait;
use std::thread::Threads;
use std::time::Clock;

/// How often a row with threads is carried out.
const TIMES: u32 = 20;

/// Carries out a line that starts with these words, and ends with the names of an image of these bytes, which are written to
/// its file first, and of a file with this script.
fn gives_of_script<
    R: Files + AllocGlobal + Clock + Eprint + Threads + Wait + Sync + Abort + Clone + Drop,
>(rt: &R, start: &str, (image, bytes): (&str, &[u8]), script: &str, wanted: Wanted<'_>)
where
    R::File: FileExt + Holdable + Send,
{
    let file = format!(in rt.alloc(); "{image}.script").expect(rt, "memory");
    let start = format!(in rt.alloc(); "{start} {image}").expect(rt, "memory");
    writes(rt, image, bytes);
    writes(rt, file.as_str(), script.as_bytes());
    gives(rt, start.as_str(), file.as_str(), wanted);
    removes(rt, file.as_str());
}

/// The lines of one user, and behind them what is printed.
const ONE_USER: &[&str; 2] = &[
    "1 create /x\n1 open /x\n1 write 0 0 abc\n1 read 0 0\n1 stat /x\n",
    "1 create /x -> ok 3\n1 open /x -> ok 0\n1 write 0 0 abc -> ok\n1 read 0 0 -> ok 616263\n1 stat /x -> ok number 3 file links 1 size 3\n",
];

/// Those of two users.
const TWO_USERS: &[&str; 2] = &[
    "1 mkdir /d\n2 stat /q\n",
    "1 mkdir /d -> ok 3\n2 stat /q -> refused 7 NotFound\n",
];

#[test]
fn run_tells_what_users_are_answered(rt: HostRuntime) {
    let image = "rows_run.img";
    let fresh = made_small(&rt, image);
    let leaked = changed(&rt, fresh.as_slice(), &[(1_184, 33)]);
    let [one, one_told] = *ONE_USER;
    let [two, two_told] = *TWO_USERS;
    for _time in 0..TIMES {
        runs(
            &rt,
            (image, fresh.as_slice()),
            one,
            [one_told, CLEAN_REPORT, "repaired 0\n"],
        );
        runs(
            &rt,
            (image, leaked.as_slice()),
            two,
            [two_told, SOFT_REPORT, SOFT_MENDED],
        );
        runs(
            &rt,
            (image, fresh.as_slice()),
            "",
            ["", CLEAN_REPORT, "repaired 0\n"],
        );
    }
    removes(&rt, image);
}

/// A script is carried out on an image of these bytes, and tells these parts; a check finds nothing on it then.
fn runs<R: Files + AllocGlobal + Clock + Eprint + Threads + Wait + Sync + Abort + Clone + Drop>(
    rt: &R,
    (image, bytes): (&str, &[u8]),
    script: &str,
    [answers, report, mended]: [&str; 3],
)
where
    R::File: FileExt + Holdable + Send,
{
    let told = format!(in rt.alloc(); "{answers}{report}{mended}").expect(rt, "memory");
    gives_of_script(
        rt,
        "run --workers 2",
        (image, bytes),
        script,
        Printed(told.as_str(), 0),
    );
    gives(rt, "check --workers 1", image, Printed(CLEAN_REPORT, 0));
}

/// Lines on changes of a fresh image, their scripts, and how each is refused.
const RUNS_REFUSED: &[(&str, Changes<'static>, &str, Wanted<'static>)] = &[
    (
        "run --workers 2",
        &[],
        "1 create /x\n9 create /x\n",
        Refused("script line 2\n9 create /x\n", 3),
    ),
    (
        "run --workers 2",
        &[(0, 0)],
        "1 create /x\n1 create /y",
        Refused("script line 2\n1 create /y\n", 3),
    ),
    (
        "run --workers 2",
        &[],
        "1 sync\n",
        Refused("script line 1\n1 sync\n", 3),
    ),
    (
        "run --workers 0",
        &[],
        "1 sync\n",
        Refused("refused 6 BadWorkers\nworkers: 1 to 64\n", 3),
    ),
    (
        "run --workers 65",
        &[],
        "1 sync\n",
        Refused("refused 6 BadWorkers\nworkers: 1 to 64\n", 3),
    ),
    (
        "run --workers 2",
        &[(1_056, 0)],
        "1 create /x\n",
        Refused(
            "refused 24 Damaged\nsee: fsvol check rows_run_refused.img\n",
            2,
        ),
    ),
    (
        "run --workers 2",
        &[(0, 0)],
        "1 create /x\n",
        Refused(
            "refused 4 BadSuper\nat rows_run_refused.img: not an image of fsvol\n",
            3,
        ),
    ),
];

#[test]
fn run_writes_no_image_that_it_refuses(rt: HostRuntime) {
    let image = "rows_run_refused.img";
    let fresh = made_small(&rt, image);
    for &(start, changes, script, wanted) in RUNS_REFUSED {
        let bytes = changed(&rt, fresh.as_slice(), changes);
        leaves(&rt, start, (image, bytes.as_slice()), script, wanted);
    }
    removes(&rt, image);
}

/// Carries out a line with a script on an image of these bytes, which stand there still then.
fn leaves<R: Files + AllocGlobal + Clock + Eprint + Threads + Wait + Sync + Abort + Clone + Drop>(
    rt: &R,
    start: &str,
    (image, bytes): (&str, &[u8]),
    script: &str,
    wanted: Wanted<'_>,
)
where
    R::File: FileExt + Holdable + Send,
{
    gives_of_script(rt, start, (image, bytes), script, wanted);
    holds(rt, start, image, bytes);
}

#[test]
fn scripts_and_images_that_cannot_be_read_are_failed_devices(rt: HostRuntime) {
    let image = "rows_no_script.img";
    let fresh = made_small(&rt, image);
    fails_without_files(&rt, "run --workers 1", image);
    fails_without_files(&rt, "stops", image);
    fails_without_files(&rt, "cuts", image);
    holds(&rt, "run, stops, cuts", image, fresh.as_slice());
    removes(&rt, image);
}

/// How a line is refused whose script is missing.
const NO_SCRIPT: Wanted<'static> = Refused(
    "refused 2 Device\nat rows_no_such_script: no such file\n",
    4,
);

/// And one whose image is.
const NO_IMAGE: Wanted<'static> = Refused(
    "refused 2 Device\nat rows_no_such_image.img: no such file\n",
    4,
);

/// The line is refused where its script is missing, and where its image is.
fn fails_without_files<
    R: Files + AllocGlobal + Clock + Eprint + Threads + Wait + Sync + Abort + Clone + Drop,
>(rt: &R, line: &str, image: &str)
where
    R::File: FileExt + Holdable + Send,
{
    let script = "rows_a_script";
    let start = format!(in rt.alloc(); "{line} {image}").expect(rt, "memory");
    gives(rt, start.as_str(), "rows_no_such_script", NO_SCRIPT);
    writes(rt, script, b"1 create /x\n");
    let start = format!(in rt.alloc(); "{line} rows_no_such_image.img").expect(rt, "memory");
    gives(rt, start.as_str(), script, NO_IMAGE);
    removes(rt, script);
}

/// Scripts, and what is told of their stops on a fresh image.
const STOPS: &[[&str; 2]] = &[
    [
        "1 create /b\n1 sync\n1 create /a\n1 unlink /b\n1 flush 4\n1 flush 2\n1 flush 1\n1 flush 2\n1 flush 4\n1 flush 2\n1 flush 1\n",
        "stop 0 verdict clean findings 0\nstop 1 verdict soft findings 1\nstop 2 verdict soft findings 1\nstop 3 verdict clean findings 0\nstop 4 verdict soft findings 1\nstop 5 verdict soft findings 1\nstop 6 verdict soft findings 1\nstop 7 verdict soft findings 1\nstop 8 verdict clean findings 0\n",
    ],
    ["", "stop 0 verdict clean findings 0\n"],
    [
        "2 create /a\n2 open /a\n2 write 0 0 abc\n1 read 0 0\n1 close 0\n2 read 0 0\n",
        // Both bits, the record without bytes, the entry, the bytes, and the record with them.
        "stop 0 verdict clean findings 0\nstop 1 verdict soft findings 2\nstop 2 verdict soft findings 2\nstop 3 verdict soft findings 1\nstop 4 verdict soft findings 1\nstop 5 verdict clean findings 0\n",
    ],
    [
        "1 create /a\n1 sync\n1 attr /a 46534131a4810000e803000064000000050000000600000000000000feffffffffffffff0a0000000b0000000c0000000d0000000e0000000f00000000000080\n1 attrs /a\n1 attr /b 46534131a4810000e803000064000000050000000600000000000000feffffffffffffff0a0000000b0000000c0000000d0000000e0000000f00000000000080\n",
        // The bit, the record, the entry, and the record with its attributes.
        "stop 0 verdict clean findings 0\nstop 1 verdict soft findings 1\nstop 2 verdict soft findings 1\nstop 3 verdict clean findings 0\nstop 4 verdict clean findings 0\n",
    ],
];

#[test]
fn stops_tells_what_each_write_leaves(rt: HostRuntime) {
    let image = "rows_stops.img";
    let fresh = made_small(&rt, image);
    for [script, told] in STOPS {
        leaves(
            &rt,
            "stops",
            (image, fresh.as_slice()),
            script,
            Printed(told, 0),
        );
    }
    removes(&rt, image);
}

/// Changes of a fresh image, scripts, and how the stops of each are refused.
const STOPS_REFUSED: &[(Changes<'static>, &str, Wanted<'static>)] = &[
    (&[], "1 freeze\n", Refused("script line 1\n1 freeze\n", 3)),
    (
        &[(1_056, 0)],
        "1 sync\n1  sync\n",
        Refused("script line 2\n1  sync\n", 3),
    ),
    (
        &[],
        "9 create /%\t\u{e4}\n",
        Refused("script line 1\n9 create /%25%09%c3%a4\n", 3),
    ),
    (&[], "\n", Refused("script line 1\n\n", 3)),
    (
        &[(1_056, 0)],
        "1 sync\n",
        Refused(
            "refused 24 Damaged\nsee: fsvol check rows_stops_refused.img\n",
            2,
        ),
    ),
];

#[test]
fn of_a_long_line_its_first_200_bytes_are_told(rt: HostRuntime) {
    let image = "rows_stops_long.img";
    let fresh = made_small(&rt, image);
    let script = "x".repeat(rt.alloc(), 201).expect(&rt, "memory");
    let told = "x".repeat(rt.alloc(), 200).expect(&rt, "memory");
    let refused = format!(in rt.alloc(); "script line 1\n{told}\n").expect(&rt, "memory");
    let wanted = Refused(refused.as_str(), 3);
    leaves(
        &rt,
        "stops",
        (image, fresh.as_slice()),
        script.as_str(),
        wanted,
    );
    removes(&rt, image);
}

#[test]
fn stops_refuses_what_cannot_be_mounted(rt: HostRuntime) {
    let image = "rows_stops_refused.img";
    let fresh = made_small(&rt, image);
    for &(changes, script, wanted) in STOPS_REFUSED {
        let bytes = changed(&rt, fresh.as_slice(), changes);
        leaves(&rt, "stops", (image, bytes.as_slice()), script, wanted);
    }
    removes(&rt, image);
}

/// The words of a line, a script, and what is told of losses of power on a fresh image.
const CUTS: &[(&str, &str, &str)] = &[
    (
        "cuts",
        "",
        "cut 0 loose 0 images 1 verdict clean\ncut 1 loose 0 images 1 verdict clean\n",
    ),
    ("cuts", "1 create /a\n", CREATED),
    ("cuts --most 2 --seed 7", "1 create /a\n", CREATED),
    (
        "cuts",
        "1 attr / 46534131a4810000e803000064000000050000000600000000000000feffffffffffffff0a0000000b0000000c0000000d0000000e0000000f00000000000080\n",
        "cut 0 loose 0 images 1 verdict clean\ncut 1 loose 1 images 2 verdict clean\ncut 2 loose 0 images 1 verdict clean\n",
    ),
];

/// A bit, a record and an entry, each of which waits until the one before it is on the medium.
const CREATED: &str =
    "cut 0 loose 0 images 1 verdict clean\ncut 1 loose 1 images 2 verdict soft\ncut 2 loose 0 images 1 verdict soft\ncut 3 loose 1 images 2 verdict soft\ncut 4 loose 0 images 1 verdict soft\ncut 5 loose 1 images 2 verdict soft\ncut 6 loose 0 images 1 verdict clean\n";

#[test]
fn cuts_tells_what_each_loss_of_power_may_leave(rt: HostRuntime) {
    let image = "rows_cuts.img";
    let fresh = made_small(&rt, image);
    for &(start, script, told) in CUTS {
        leaves(
            &rt,
            start,
            (image, fresh.as_slice()),
            script,
            Printed(told, 0),
        );
    }
    removes(&rt, image);
}
