//! Numbers at each limit and one past it. An image has one group of 32 blocks and 16 inodes, where nothing else is said: blocks
//! 4 to 32 are data blocks, the root is inode 2 and has block 4 with its dots. File 5 is marked and has the name `a` in the root.
use crate::expect::same;
use crate::image::{Put, changed_bytes, found};
use layout::{Geometry, Refusal};
use std::process::Abort;
use std::test::Fail;
use std::thread::Threads;

/// An example: what it shows, what the image has in place of a fresh one's bytes, and the lines of its findings.
pub(crate) type Example = (&'static str, &'static [Put], &'static str);

/// Number 5 is marked.
pub(crate) const MARKED: Put = (1_056, b"\x24");

/// The root has the name `a` for it.
pub(crate) const NAMED: Put = (4_224, b"\x05\0\0\0\x01\0\0\0a");

/// The file has no block.
const EMPTY_FILE: Put = (2_688, b"\x01\0\x01\0");

/// Expects an example's findings on an image of this geometry.
pub(crate) fn expect_found<R: Threads + AllocGlobal + Abort + Sync>(
    rt: &R,
    geometry: &Geometry,
    example: &Example,
) -> Result<(), Refusal> {
    let (name, puts, wanted) = *example;
    let bytes = changed_bytes(rt.alloc(), geometry, puts)?;
    let lines = found(rt, bytes.as_slice())?;
    same(rt, name, lines.as_str(), wanted);
    Ok(())
}

/// Checks each example on an image of so many groups.
fn check_all<R: Threads + AllocGlobal + Abort + Sync>(
    rt: &R,
    groups: u32,
    examples: &[Example],
) -> Result<(), Fail> {
    let geometry = Geometry::new(groups, 32, 16)?;
    for example in examples {
        expect_found(rt, &geometry, example)?;
    }
    Ok(())
}

const POINTERS: &[Example] = &[
    (
        "the second data block",
        &[
            MARKED,
            NAMED,
            (1_184, b"\x03"),
            (2_688, b"\x01\0\x01\0\0\x04\0\0\x05"),
        ],
        "",
    ),
    (
        "the last data block",
        &[
            MARKED,
            NAMED,
            (1_187, b"\x10"),
            (2_688, b"\x01\0\x01\0\0\x04\0\0\x20"),
        ],
        "",
    ),
    (
        "one past the last data block",
        &[MARKED, NAMED, (2_688, b"\x01\0\x01\0\0\x04\0\0\x21")],
        "bad pointer 5 position 0 value 33\n",
    ),
    (
        "the first data block, which the root has",
        &[MARKED, NAMED, (2_688, b"\x01\0\x01\0\0\x04\0\0\x04")],
        "duplicate 5 position 0 block 4\n",
    ),
    (
        "the last block of inodes",
        &[MARKED, NAMED, (2_688, b"\x01\0\x01\0\0\x04\0\0\x03")],
        "bad pointer 5 position 0 value 3\n",
    ),
    (
        "the superblock",
        &[MARKED, NAMED, (2_688, b"\x01\0\x01\0\0\x04\0\0\0")],
        "bad pointer 5 position 0 value 0\n",
    ),
    (
        "the greatest number there is",
        &[
            MARKED,
            NAMED,
            (2_688, b"\x01\0\x01\0\0\x04\0\0\xff\xff\xff\xff"),
        ],
        "bad pointer 5 position 0 value 4294967295\n",
    ),
    (
        "past the size nothing is looked at",
        &[
            MARKED,
            NAMED,
            (1_184, b"\x03"),
            (
                2_688,
                b"\x01\0\x01\0\0\x04\0\0\x05\0\0\0\xff\xff\xff\xff\x04",
            ),
            (2_744, b"\xff\xff\xff\xff"),
        ],
        "",
    ),
];

#[test]
fn pointers_are_data_blocks_or_bad(rt: HostRuntime) -> Result<(), Fail> {
    check_all(&rt, 1, POINTERS)
}

/// Two groups: the second one's maps are block 33, its inodes blocks 34 and 35, and its data blocks 36 to 64.
const POINTERS_OF_TWO_GROUPS: &[Example] = &[
    (
        "the last data block of the first group",
        &[
            MARKED,
            NAMED,
            (1_187, b"\x10"),
            (2_688, b"\x01\0\x01\0\0\x04\0\0\x20"),
        ],
        "",
    ),
    (
        "the maps of the second group",
        &[MARKED, NAMED, (2_688, b"\x01\0\x01\0\0\x04\0\0\x21")],
        "bad pointer 5 position 0 value 33\n",
    ),
    (
        "the last inodes of the second group",
        &[MARKED, NAMED, (2_688, b"\x01\0\x01\0\0\x04\0\0\x23")],
        "bad pointer 5 position 0 value 35\n",
    ),
    (
        "the first data block of the second group",
        &[
            MARKED,
            NAMED,
            (33_952, b"\x01"),
            (2_688, b"\x01\0\x01\0\0\x04\0\0\x24"),
        ],
        "",
    ),
    (
        "the last data block of all",
        &[
            MARKED,
            NAMED,
            (33_955, b"\x10"),
            (2_688, b"\x01\0\x01\0\0\x04\0\0\x40"),
        ],
        "",
    ),
    (
        "one past it",
        &[MARKED, NAMED, (2_688, b"\x01\0\x01\0\0\x04\0\0\x41")],
        "bad pointer 5 position 0 value 65\n",
    ),
    (
        "the last number has a name",
        &[
            (33_825, b"\x80"),
            (36_736, b"\x01\0\x01\0"),
            (4_224, b"\x1f\0\0\0\x01\0\0\0a"),
        ],
        "",
    ),
    (
        "one past the last number has one",
        &[(4_224, b"\x20\0\0\0\x01\0\0\0a")],
        "bad slot 2 slot 2\n",
    ),
];

#[test]
fn pointers_stay_within_the_groups(rt: HostRuntime) -> Result<(), Fail> {
    check_all(&rt, 2, POINTERS_OF_TWO_GROUPS)
}

/// The direct pointers name blocks 5 to 16, which are marked.
pub(crate) const TWELVE: Put = (
    2_696,
    b"\x05\0\0\0\x06\0\0\0\x07\0\0\0\x08\0\0\0\x09\0\0\0\x0a\0\0\0\x0b\0\0\0\x0c\0\0\0\x0d\0\0\0\x0e\0\0\0\x0f\0\0\0\x10\0\0\0",
);

const SIZES: &[Example] = &[
    ("no byte", &[MARKED, NAMED, EMPTY_FILE], ""),
    (
        "a byte",
        &[
            MARKED,
            NAMED,
            (1_184, b"\x03"),
            (2_688, b"\x01\0\x01\0\x01\0\0\0\x05"),
        ],
        "",
    ),
    (
        "a byte more than a block",
        &[
            MARKED,
            NAMED,
            (1_184, b"\x03"),
            (2_688, b"\x01\0\x01\0\x01\x04\0\0\x05"),
        ],
        "bad pointer 5 position 1 value 0\n",
    ),
    (
        "twelve blocks, without an indirect one",
        &[
            MARKED,
            NAMED,
            (1_184, b"\xff\x1f"),
            (2_688, b"\x01\0\x01\0\0\x30\0\0"),
            TWELVE,
            (2_744, b"\xff\xff\xff\xff"),
        ],
        "",
    ),
    (
        "a byte more, with a bad pointer to the indirect one",
        &[
            MARKED,
            NAMED,
            (1_184, b"\xff\x1f"),
            (2_688, b"\x01\0\x01\0\x01\x30\0\0"),
            TWELVE,
            (2_744, b"\x21"),
        ],
        "bad pointer 5 position 268 value 33\n",
    ),
    (
        "a byte more, with an indirect block and a block",
        &[
            MARKED,
            NAMED,
            (1_184, b"\xff\x7f"),
            (2_688, b"\x01\0\x01\0\x01\x30\0\0"),
            TWELVE,
            (2_744, b"\x11"),
            (17_408, b"\x12\0\0\0\xff"),
        ],
        "",
    ),
    (
        "the indirect block names itself",
        &[
            MARKED,
            NAMED,
            (1_184, b"\xff\x3f"),
            (2_688, b"\x01\0\x01\0\x01\x30\0\0"),
            TWELVE,
            (2_744, b"\x11"),
            (17_408, b"\x11"),
        ],
        "duplicate 5 position 268 block 17\n",
    ),
    (
        "268 blocks, all pointers of which are 0",
        &[MARKED, NAMED, (2_688, b"\x01\0\x01\0\0\x30\x04\0")],
        "bad pointer 5 position 0 value 0\nbad pointer 5 position 1 value 0\nbad pointer 5 position 2 value 0\nbad pointer 5 position 3 value 0\nbad pointer 5 position 4 value 0\nbad pointer 5 position 5 value 0\nbad pointer 5 position 6 value 0\nbad pointer 5 position 7 value 0\nbad pointer 5 position 8 value 0\nbad pointer 5 position 9 value 0\nbad pointer 5 position 10 value 0\nbad pointer 5 position 11 value 0\nbad pointer 5 position 268 value 0\n",
    ),
    (
        "a byte more than 268 blocks",
        &[MARKED, NAMED, (2_688, b"\x01\0\x01\0\x01\x30\x04\0")],
        "bad inode 5\nname of no sound inode 2 slot 2\n",
    ),
    (
        "the greatest size there is",
        &[MARKED, NAMED, (2_688, b"\x01\0\x01\0\xff\xff\xff\xff")],
        "bad inode 5\nname of no sound inode 2 slot 2\n",
    ),
];

#[test]
fn sizes_of_files_are_sound_up_to_268_blocks(rt: HostRuntime) -> Result<(), Fail> {
    check_all(&rt, 1, SIZES)
}

/// The root has a link for directory 5, which has block 5 with its dots.
const ROOT_LINKS: Put = (2_306, b"\x03");

const DOT: Put = (5_120, b"\x05\0\0\0\x01\0\0\0.");

const DOT_DOT: Put = (5_184, b"\x02\0\0\0\x02\0\0\0..");

const DIRECTORIES: &[Example] = &[
    (
        "one block",
        &[
            MARKED,
            NAMED,
            ROOT_LINKS,
            DOT,
            DOT_DOT,
            (1_184, b"\x03"),
            (2_688, b"\x02\0\x02\0\0\x04\0\0\x05"),
        ],
        "",
    ),
    (
        "no block",
        &[
            MARKED,
            NAMED,
            ROOT_LINKS,
            DOT,
            DOT_DOT,
            (1_184, b"\x03"),
            (2_688, b"\x02\0\x02\0\0\0\0\0\x05"),
        ],
        "bad inode 5\nname of no sound inode 2 slot 2\ncount high 2 links 3 entries 2\nlost block 5\n",
    ),
    (
        "a byte less than a block",
        &[
            MARKED,
            NAMED,
            ROOT_LINKS,
            DOT,
            DOT_DOT,
            (1_184, b"\x03"),
            (2_688, b"\x02\0\x02\0\xff\x03\0\0\x05"),
        ],
        "bad inode 5\nname of no sound inode 2 slot 2\ncount high 2 links 3 entries 2\nlost block 5\n",
    ),
    (
        "a byte more than a block",
        &[
            MARKED,
            NAMED,
            ROOT_LINKS,
            DOT,
            DOT_DOT,
            (1_184, b"\x03"),
            (2_688, b"\x02\0\x02\0\x01\x04\0\0\x05"),
        ],
        "bad inode 5\nname of no sound inode 2 slot 2\ncount high 2 links 3 entries 2\nlost block 5\n",
    ),
    (
        "two blocks, one of which is none",
        &[
            MARKED,
            NAMED,
            ROOT_LINKS,
            DOT,
            DOT_DOT,
            (1_184, b"\x03"),
            (2_688, b"\x02\0\x02\0\0\x08\0\0\x05\0\0\0\x21"),
        ],
        "bad pointer 5 position 1 value 33\n",
    ),
    (
        "a block more than 268",
        &[
            MARKED,
            NAMED,
            ROOT_LINKS,
            DOT,
            DOT_DOT,
            (1_184, b"\x03"),
            (2_688, b"\x02\0\x02\0\0\x34\x04\0\x05"),
        ],
        "bad inode 5\nname of no sound inode 2 slot 2\ncount high 2 links 3 entries 2\nlost block 5\n",
    ),
    (
        "its first block is none, so it has no dots",
        &[
            MARKED,
            NAMED,
            ROOT_LINKS,
            (2_688, b"\x02\0\x02\0\0\x04\0\0\x21"),
        ],
        "bad pointer 5 position 0 value 33\nbad dot 5\nbad dot dot 5\ncount high 2 links 3 entries 2\ncount high 5 links 2 entries 1\n",
    ),
];

#[test]
fn sizes_of_directories_are_whole_blocks(rt: HostRuntime) -> Result<(), Fail> {
    check_all(&rt, 1, DIRECTORIES)
}

const MODES_AND_LINKS: &[Example] = &[
    (
        "mode 0, and all else as it may be",
        &[MARKED, (2_690, b"\xff\xff\xff\xff\xff\xff\xff\xff")],
        "lost number 5\n",
    ),
    (
        "mode 3",
        &[MARKED, NAMED, (2_688, b"\x03\0\x01\0")],
        "bad inode 5\nname of no sound inode 2 slot 2\n",
    ),
    (
        "mode 257",
        &[MARKED, NAMED, (2_688, b"\x01\x01\x01\0")],
        "bad inode 5\nname of no sound inode 2 slot 2\n",
    ),
    (
        "mode 65,535, not marked",
        &[NAMED, (2_688, b"\xff\xff\x01\0")],
        "bad inode 5\nname of no sound inode 2 slot 2\nunmarked inode 5\n",
    ),
    (
        "no link",
        &[MARKED, NAMED, (2_688, b"\x01\0\0\0")],
        "count low 5 links 0 entries 1\n",
    ),
    (
        "as many links as there may be",
        &[MARKED, NAMED, (2_688, b"\x01\0\xff\xff")],
        "count high 5 links 65535 entries 1\n",
    ),
    (
        "numbers 0 and 1 are not looked at",
        &[
            (1_056, b"\x07"),
            (2_048, b"\xff\xff"),
            (2_176, b"\x01\0\x01\0"),
        ],
        "",
    ),
    (
        "the last number, and the bits behind it",
        &[(1_056, b"\x04\x80\xff\xff"), (1_188, b"\xff")],
        "lost number 15\n",
    ),
    (
        "the last block, and the bits behind it",
        &[(1_184, b"\x01\0\0\xf0\xff")],
        "lost block 32\n",
    ),
];

#[test]
fn modes_and_links_are_told_at_their_limits(rt: HostRuntime) -> Result<(), Fail> {
    check_all(&rt, 1, MODES_AND_LINKS)
}

const SLOTS: &[Example] = &[
    (
        "number 0, and all else as it may be",
        &[(4_224, b"\0\0\0\0\xff\xff\xff\xff/")],
        "",
    ),
    (
        "number 1",
        &[(4_224, b"\x01\0\0\0\x01\0\0\0a")],
        "bad slot 2 slot 2\n",
    ),
    (
        "the root",
        &[(4_224, b"\x02\0\0\0\x01\0\0\0a")],
        "second name 2 slot 2\ncount low 2 links 2 entries 3\n",
    ),
    (
        "the last number",
        &[
            (1_057, b"\x80"),
            (3_968, b"\x01\0\x01\0"),
            (4_224, b"\x0f\0\0\0\x01\0\0\0a"),
        ],
        "",
    ),
    (
        "the last number, which is free",
        &[(4_224, b"\x0f\0\0\0\x01\0\0\0a")],
        "name of no sound inode 2 slot 2\n",
    ),
    (
        "one past the last number",
        &[(4_224, b"\x10\0\0\0\x01\0\0\0a")],
        "bad slot 2 slot 2\n",
    ),
    (
        "the greatest number there is",
        &[(4_224, b"\xff\xff\xff\xff\x01\0\0\0a")],
        "bad slot 2 slot 2\n",
    ),
    (
        "a name of no byte",
        &[MARKED, EMPTY_FILE, (4_224, b"\x05\0\0\0\0\0\0\0a")],
        "bad slot 2 slot 2\nlost inode 5\n",
    ),
    (
        "a name of 56 bytes",
        &[
            MARKED,
            EMPTY_FILE,
            (4_224, b"\x05\0\0\0\x38\0\0\0"),
            (4_232, &[b'a'; 56]),
        ],
        "",
    ),
    (
        "a name of 57 bytes, which the slot has no room for",
        &[
            MARKED,
            EMPTY_FILE,
            (4_224, b"\x05\0\0\0\x39\0\0\0"),
            (4_232, &[b'a'; 56]),
        ],
        "bad slot 2 slot 2\nlost inode 5\n",
    ),
    (
        "a name of 255 bytes",
        &[
            MARKED,
            EMPTY_FILE,
            (4_224, b"\x05\0\0\0\xff\0\0\0"),
            (4_232, &[b'a'; 56]),
        ],
        "bad slot 2 slot 2\nlost inode 5\n",
    ),
    (
        "a name with a byte 0 as its last",
        &[MARKED, EMPTY_FILE, (4_224, b"\x05\0\0\0\x02\0\0\0a\0")],
        "bad slot 2 slot 2\nlost inode 5\n",
    ),
    (
        "a name with a blank and a byte 255",
        &[MARKED, EMPTY_FILE, (4_224, b"\x05\0\0\0\x02\0\0\0 \xff")],
        "",
    ),
    (
        "the last slot of a block",
        &[MARKED, EMPTY_FILE, (5_056, b"\x05\0\0\0\x01\0\0\0a")],
        "",
    ),
    (
        "a dot behind the dots",
        &[MARKED, EMPTY_FILE, (4_224, b"\x05\0\0\0\x01\0\0\0.")],
        "bad slot 2 slot 2\nlost inode 5\n",
    ),
    (
        "three dots behind the dots",
        &[MARKED, EMPTY_FILE, (4_224, b"\x05\0\0\0\x03\0\0\0...")],
        "",
    ),
];

#[test]
fn slots_are_good_up_to_their_limits(rt: HostRuntime) -> Result<(), Fail> {
    check_all(&rt, 1, SLOTS)
}
