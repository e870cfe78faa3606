//! The line `mkfs`.
use crate::trying::Wanted::{Printed, Refused};
use crate::trying::{
    SMALL, Wanted, gives, holds, is_missing, made_small, removes, same, set, writes,
};
use serve_lines::Holdable;
use std::alloc::{AllocError, Global};
use std::fs;
use std::io::Eprint;
use std::os::unix::fs::FileExt;
use std::process::Abort;
use std::rt::Files;
use std::sync::Wait;
use std::thread::Threads;
use std::time::Clock;

/// All that is not 0 on a fresh image of 1 group, 16 blocks and 16 inodes.
const SMALL_IMAGE: &[(usize, &[u8])] = &[
    (0, b"1VUS\x01\0\0\0\x01\0\0\0\x10\0\0\0\x10\0\0\0"),
    (1_024, b"GCUS\0\0\0\0"),
    (1_056, b"\x04"),
    (1_184, b"\x01"),
    (2_304, b"\x02\0\x02\0\0\x04\0\0\x04\0\0\0"),
    (4_096, b"\x02\0\0\0\x01\0\0\0."),
    (4_160, b"\x02\0\0\0\x02\0\0\0.."),
];

#[test]
fn mkfs_writes_these_bytes(rt: HostRuntime) {
    let image = "rows_these_bytes.img";
    let wanted = small_image(rt.alloc()).expect(&rt, "memory");
    let bytes = made_small(&rt, image);
    same(&rt, &[image], bytes.as_slice(), wanted.as_slice());
    removes(&rt, image);
}

/// A fresh image of 1 group, 16 blocks and 16 inodes.
fn small_image(alloc: Global) -> Result<Vec<u8>, AllocError> {
    let mut bytes = vec![in alloc; 0u8; SMALL]?;
    for &(place, values) in SMALL_IMAGE {
        for (index, &value) in values.iter().enumerate() {
            set(bytes.as_mut_slice(), place.saturating_add(index), value);
        }
    }
    Ok(bytes)
}

#[test]
fn mkfs_replaces_an_older_file(rt: HostRuntime) {
    let image = "rows_older_file.img";
    let fresh = made_small(&rt, image);
    for length in [0, 100, SMALL, 40_000] {
        replaces(&rt, image, length, fresh.as_slice());
    }
    removes(&rt, image);
}

/// An image of these bytes is made in place of an older file of this length.
fn replaces<R: Files + AllocGlobal + Clock + Eprint + Threads + Wait + Sync + Abort + Clone + Drop>(
    rt: &R,
    image: &str,
    length: usize,
    fresh: &[u8],
)
where
    R::File: FileExt + Holdable + Send,
{
    let older = vec![in rt.alloc(); 0xffu8; length].expect(rt, "memory");
    writes(rt, image, older.as_slice());
    let bytes = made_small(rt, image);
    same(rt, &[image], bytes.as_slice(), fresh);
}

/// The words of numbers that no geometry has, and the limit that is told of each.
const NO_GEOMETRIES: &[[&str; 2]] = &[
    ["mkfs --groups 0 --blocks 16 --inodes 16", "groups: 1 to 64"],
    [
        "mkfs --groups 65 --blocks 16 --inodes 16",
        "groups: 1 to 64",
    ],
    [
        "mkfs --groups 1 --blocks 7 --inodes 16",
        "blocks: 8 to 4096",
    ],
    [
        "mkfs --groups 1 --blocks 9000 --inodes 16",
        "blocks: 8 to 4096",
    ],
    [
        "mkfs --groups 1 --blocks 16 --inodes 12",
        "inodes: 8 to 1024, a multiple of 8",
    ],
    [
        "mkfs --groups 1 --blocks 8 --inodes 56",
        "inodes: 1 + inodes / 8 must be below blocks",
    ],
];

#[test]
fn mkfs_refuses_numbers_of_no_geometry(rt: HostRuntime) {
    let image = "rows_no_geometry.img";
    let _ = fs::remove_file(&rt, image);
    for [start, limit] in NO_GEOMETRIES {
        refuses_geometry(&rt, start, limit, image);
    }
}

/// The line is refused where no file stands, and makes none, and where one stands, and leaves that.
fn refuses_geometry<
    R: Files + AllocGlobal + Clock + Eprint + Threads + Wait + Sync + Abort + Clone + Drop,
>(rt: &R, start: &str, limit: &str, image: &str)
where
    R::File: FileExt + Holdable + Send,
{
    let refused = format!(in rt.alloc(); "refused 29 BadGeometry\n{limit}\n").expect(rt, "memory");
    let wanted = Refused(refused.as_str(), 3);
    gives(rt, start, image, wanted);
    is_missing(rt, start, image);
    writes(rt, image, b"as it was");
    gives(rt, start, image, wanted);
    holds(rt, start, image, b"as it was");
    removes(rt, image);
}

/// Lines, their last words, and why the host refused a call about these.
const FAILED: &[[&str; 3]] = &[
    ["bits", "rows_no_such_file.img", "no such file"],
    ["bits", "", "no such file"],
    [
        "mkfs --groups 1 --blocks 16 --inodes 16",
        "rows_no_such_folder/a.img",
        "no such file",
    ],
    [
        "mkfs --groups 1 --blocks 16 --inodes 16",
        ".",
        "is a directory",
    ],
];

#[test]
fn an_image_that_cannot_be_opened_is_a_failed_device(rt: HostRuntime) {
    for [start, image, why] in FAILED {
        let refused = format!(in rt.alloc(); "refused 2 Device\nat {image}: {why}\n").expect(
            &rt, "memory",
        );
        gives(&rt, start, image, Refused(refused.as_str(), 4));
    }
}
