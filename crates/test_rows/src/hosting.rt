//! The lines that move files and folders between the host and an image.
use crate::reports::CLEAN_REPORT;
use crate::trying::Wanted::{Printed, Refused};
use crate::trying::{Row, changed, give, gives, holds, is_missing, made_small, writes};
use export_host::get_from_file;
use layout::Refusal;
use progress::{Step, Watcher};
use std::fs;
use std::fs::{FileTimes, OpenFile, Permissions};
use std::os::unix::fs::{MetadataExt, PermissionsExt, symlink};
use std::process::Abort;
use std::rt::Files;
use std::time::{Duration, UNIX_EPOCH};

/// Makes a folder of the host with a file of three bytes in it.
pub(crate) fn made_folder<R: Files + AllocGlobal + Abort>(rt: &R, folder: &str, file: &str) {
    let _ = fs::remove_dir_all(rt, folder);
    fs::create_dir(rt, folder).expect(rt, folder);
    writes(rt, file, b"abc");
}

/// Lines on a fresh image, one after another.
const PUT: &[Row<'static>] = &[
    ("put --progress", " /d", "rows_hosts_put", Printed("", 0)),
    ("cat", "", "/d/a", Printed("abc", 0)),
    (
        "put",
        " /d",
        "rows_hosts_put",
        Refused("refused 8 Exists\nat /d\n", 3),
    ),
    (
        "put",
        " /e",
        "rows_hosts_missing",
        Refused(
            "refused 7 NotFound\nat rows_hosts_missing: no such file\n",
            3,
        ),
    ),
    (
        "put",
        " e",
        "rows_hosts_put",
        Refused("refused 12 BadName\nat e: a path begins with /\n", 3),
    ),
];

#[test]
fn a_folder_goes_in_and_is_not_put_over_another(rt: HostRuntime) {
    let image = "rows_hosts_put.img";
    made_small(&rt, image);
    made_folder(&rt, "rows_hosts_put", "rows_hosts_put/a");
    give(&rt, image, PUT);
}

/// Lines on a fresh image, one after another.
const GOT: &[Row<'static>] = &[
    ("put", " /d", "rows_hosts_get", Printed("", 0)),
    ("get --progress", " /", "rows_hosts_got", Printed("", 0)),
    (
        "get",
        " /",
        "rows_hosts_got",
        Refused("refused 8 Exists\nat rows_hosts_got\n", 3),
    ),
    (
        "get",
        " /x",
        "rows_hosts_none",
        Refused("refused 7 NotFound\nat /x\n", 3),
    ),
    // As an archive on standard output.
    ("get", " /x", "-", Refused("refused 7 NotFound\nat /x\n", 3)),
];

#[test]
fn a_tree_comes_out_and_is_not_got_over_another(rt: HostRuntime) {
    let image = "rows_hosts_get.img";
    made_small(&rt, image);
    made_folder(&rt, "rows_hosts_get", "rows_hosts_get/a");
    let _ = fs::remove_dir_all(&rt, "rows_hosts_got");
    give(&rt, image, GOT);
    holds(&rt, "get", "rows_hosts_got/d/a", b"abc");
}

/// Lines, one after another, the first of which makes the image.
const FROM: &[Row<'static>] = &[
    (
        "mkfs",
        " --groups 1 --blocks 16 --inodes 16 --progress --from",
        "rows_hosts_from",
        Printed("", 0),
    ),
    ("cat", "", "/a", Printed("abc", 0)),
];

#[test]
fn an_image_is_made_of_a_folder(rt: HostRuntime) {
    made_folder(&rt, "rows_hosts_from", "rows_hosts_from/a");
    give(&rt, "rows_hosts_from.img", FROM);
}

/// Lines on a fresh image, and a folder that is too large for it.
const FULL: &[Row<'static>] = &[
    (
        "put",
        " /e",
        "rows_hosts_full",
        Refused("refused 14 NoBlock\nat /e/b\ndone 2 of 3\n", 3),
    ),
    ("ls", "", "/e", Printed("a\n", 0)),
];

#[test]
fn what_is_too_large_is_not_left_in_part(rt: HostRuntime) {
    let image = "rows_hosts_full.img";
    let bytes = vec![in rt.alloc(); b'b'; 12_000].expect(&rt, "memory");
    made_small(&rt, image);
    made_folder(&rt, "rows_hosts_full", "rows_hosts_full/a");
    writes(&rt, "rows_hosts_full/b", bytes.as_slice());
    give(&rt, image, FULL);
    gives(&rt, "check --workers 1", image, Printed(CLEAN_REPORT, 0));
}

/// Lines on a fresh image, and a folder with a link to a file outside of it.
const LINKED: &[Row<'static>] = &[
    ("put", " /d", "rows_hosts_linked", Printed("", 0)),
    ("cat", "", "/d/b", Printed("../rows_hosts_outside", 0)),
];

#[test]
fn a_link_in_a_folder_goes_in_and_is_not_followed(rt: HostRuntime) {
    let image = "rows_hosts_linked.img";
    made_small(&rt, image);
    writes(&rt, "rows_hosts_outside", b"not to be read");
    made_folder(&rt, "rows_hosts_linked", "rows_hosts_linked/a");
    symlink(&rt, "../rows_hosts_outside", "rows_hosts_linked/b").expect(&rt, "a link");
    give(&rt, image, LINKED);
}

/// Lines on a fresh image: a file comes out where one stands, and where a link stands that leads to none.
const STAYS: &[Row<'static>] = &[
    ("put", " /d", "rows_hosts_stay", Printed("", 0)),
    (
        "get",
        " /d/a",
        "rows_hosts_stays",
        Refused("refused 8 Exists\nat rows_hosts_stays\n", 3),
    ),
    (
        "get",
        " /d/a",
        "rows_hosts_leads",
        Refused("refused 8 Exists\nat rows_hosts_leads\n", 3),
    ),
];

#[test]
fn what_stands_on_the_host_stays(rt: HostRuntime) {
    let image = "rows_hosts_stay.img";
    made_small(&rt, image);
    made_folder(&rt, "rows_hosts_stay", "rows_hosts_stay/a");
    writes(&rt, "rows_hosts_stays", b"theirs");
    let _ = fs::remove_file(&rt, "rows_hosts_leads");
    symlink(&rt, "rows_hosts_nowhere", "rows_hosts_leads").expect(&rt, "a link");
    give(&rt, image, STAYS);
    holds(&rt, "get", "rows_hosts_stays", b"theirs");
    let is_made = fs::metadata(&rt, "rows_hosts_nowhere").is_ok();
    assert!(&rt; !is_made);
}

/// Sets who may use what stands at a path of the host, and when it was changed, in seconds since 1970.
fn settles<R: Files + Abort>(rt: &R, path: &str, mode: u32, seconds: u64) {
    let file = fs::open(rt, path).expect(rt, path);
    let time = UNIX_EPOCH
        .checked_add(Duration::from_secs(seconds))
        .expect(rt, "a time");
    file.set_permissions(Permissions::from_mode(mode))
        .expect(rt, path);
    file.set_times(FileTimes::new().set_modified(time))
        .expect(rt, path);
}

/// What stands at a path of the host has this mode, and was changed then.
fn is_settled<R: Files + Abort>(rt: &R, path: &str, mode: u32, seconds: i64) {
    let metadata = fs::symlink_metadata(rt, path).expect(rt, path);
    assert_eq!(rt; metadata.mode(), mode, "{path}");
    assert_eq!(rt; metadata.mtime(), seconds, "{path}");
}

/// Lines on a fresh image: a tree goes in, and comes out, and what came out goes in.
const KEPT: &[Row<'static>] = &[
    ("put", " /d", "rows_hosts_kept", Printed("", 0)),
    ("get", " /d", "rows_hosts_again", Printed("", 0)),
    ("put", " /e", "rows_hosts_again", Printed("", 0)),
    ("cat", "", "/e/b", Printed("../nowhere", 0)),
];

#[test]
fn rights_times_and_links_come_out_as_they_went_in(rt: HostRuntime) {
    let image = "rows_hosts_kept.img";
    made_small(&rt, image);
    made_folder(&rt, "rows_hosts_kept", "rows_hosts_kept/a");
    symlink(&rt, "../nowhere", "rows_hosts_kept/b").expect(&rt, "a link");
    settles(&rt, "rows_hosts_kept/a", 0o4640, 1_000_000_000);
    settles(&rt, "rows_hosts_kept", 0o1750, 2_000_000_000);
    let _ = fs::remove_dir_all(&rt, "rows_hosts_again");
    give(&rt, image, KEPT);
    is_settled(&rt, "rows_hosts_again/a", 0o104_640, 1_000_000_000);
    is_settled(&rt, "rows_hosts_again", 0o041_750, 2_000_000_000);
    holds(&rt, "get", "rows_hosts_again/a", b"abc");
}

/// Where the record of the first file in the first directory of a small image has the upper half of its mode, and that of a FIFO.
const FIFO: (usize, u8) = (2_629, 17);

/// Lines on an image with a FIFO.
const LEFT_OUT: &[Row<'static>] = &[(
    "get",
    " /d",
    "rows_hosts_but",
    Refused("refused 12 BadName\nat /d/a\ndone 2 of 3\n", 3),
)];

#[test]
fn a_fifo_is_left_out_and_all_else_comes_out(rt: HostRuntime) {
    let image = "rows_hosts_fifo.img";
    made_small(&rt, image);
    made_folder(&rt, "rows_hosts_fifo", "rows_hosts_fifo/a");
    writes(&rt, "rows_hosts_fifo/b", b"def");
    gives(
        &rt,
        "put rows_hosts_fifo.img /d",
        "rows_hosts_fifo",
        Printed("", 0),
    );
    let bytes = fs::read(&rt, image).expect(&rt, image);
    writes(
        &rt,
        image,
        changed(&rt, bytes.as_slice(), &[FIFO]).as_slice(),
    );
    let _ = fs::remove_dir_all(&rt, "rows_hosts_but");
    give(&rt, image, LEFT_OUT);
    holds(&rt, "get", "rows_hosts_but/b", b"def");
    is_missing(&rt, "get", "rows_hosts_but/a");
}

/// Another program, which makes a file on the host as soon as something was made there.
#[derive(Drop)]
struct Another<'a, R> {
    rt: &'a R,
    file: &'a str,
}

impl<R: Files> Watcher for Another<'_, R> {
    fn sees(&self, _step: Step) {
        let _ = fs::write(self.rt, self.file, b"theirs");
    }
}

#[test]
fn a_file_that_another_program_makes_meanwhile_stays(rt: HostRuntime) {
    let image = "rows_hosts_raced.img";
    made_small(&rt, image);
    made_folder(&rt, "rows_hosts_race", "rows_hosts_race/a");
    gives(
        &rt,
        "put rows_hosts_raced.img /d",
        "rows_hosts_race",
        Printed("", 0),
    );
    let _ = fs::remove_dir_all(&rt, "rows_hosts_raced");
    let another = Another {
        rt: &rt,
        file: "rows_hosts_raced/a",
    };
    let cause = match get_from_file(&rt, image, "/d", "rows_hosts_raced", &another) {
        Ok(()) => None,
        Err(failure) => failure.cause(),
    };
    assert!(&rt; cause == Some(Refusal::Exists));
    holds(&rt, "get", "rows_hosts_raced/a", b"theirs");
}
