//! Names, paths and links. Where nothing else is said an image has one group of 32 blocks and 16 inodes: blocks 4 to 32
//! are data blocks, the root is inode 2 and has block 4 with its dots, and its other slots are empty.
use crate::expect::same;
use crate::image::{Change, VERSIONS, Wanted, found};
use layout::Geometry;
use std::process::Abort;
use std::test::Fail;
use std::thread::Threads;

/// An example: what it shows, the changes of a fresh image, and the lines of its findings.
type Example = (&'static str, &'static [Change], &'static str);

const TWELVE: &[u32] = &[5, 6, 7, 8, 9, 10, 11, 12, 13, 14, 15, 16];

/// A name of 56 bytes, the longest there is.
const LONGEST: &[u8] = b"aaaaaaaaaaaaaaaaaaaaaaaaaaaaaaaaaaaaaaaaaaaaaaaaaaaaaaaa";

/// Checks each example on images of this many groups, of both versions of the layout.
fn check_all<R: Threads + AllocGlobal + Abort + Sync>(
    rt: &R,
    groups: u32,
    examples: &[Example],
) -> Result<(), Fail> {
    for version in VERSIONS {
        let geometry = Geometry::new(groups, 32, 16)?.with_version(version)?;
        for (name, changes, wanted) in examples {
            let lines = found(rt, &geometry, changes, Wanted::All)?;
            same(rt, (version, *name), lines.as_str(), *wanted);
        }
    }
    Ok(())
}

const PATHS_ARE_FOLLOWED_FROM_THE_ROOT: &[Example] = &[
    (
        "a file in the root",
        &[
            Change::Number(5),
            Change::File(5, 0, &[]),
            Change::Entry(4, 2, 5, b"a"),
        ],
        "",
    ),
    (
        "a directory in the root",
        &[
            Change::Number(6),
            Change::Marked(5, 5),
            Change::Directory(6, 2, &[5]),
            Change::Dots(5, 6, 2),
            Change::Entry(4, 2, 6, b"d"),
            Change::Links(2, 3),
        ],
        "",
    ),
    (
        "a directory that nothing names, with a file",
        &[
            Change::Number(6),
            Change::Number(7),
            Change::Marked(5, 5),
            Change::Directory(6, 2, &[5]),
            Change::Dots(5, 6, 2),
            Change::File(7, 0, &[]),
            Change::Entry(5, 2, 7, b"f"),
            Change::Links(2, 3),
        ],
        "lost inode 6\nlost inode 7\ncount high 2 links 3 entries 2\n",
    ),
    (
        "two directories that name each other, and nothing else does",
        &[
            Change::Number(6),
            Change::Number(7),
            Change::Marked(5, 6),
            Change::Directory(6, 3, &[5]),
            Change::Dots(5, 6, 7),
            Change::Entry(5, 2, 7, b"b"),
            Change::Directory(7, 3, &[6]),
            Change::Dots(6, 7, 6),
            Change::Entry(6, 2, 6, b"a"),
        ],
        "lost inode 6\nlost inode 7\n",
    ),
    (
        "a cycle that the root leads into",
        &[
            Change::Number(6),
            Change::Number(7),
            Change::Marked(5, 6),
            Change::Links(2, 3),
            Change::Entry(4, 2, 6, b"d"),
            Change::Directory(6, 4, &[5]),
            Change::Dots(5, 6, 2),
            Change::Entry(5, 2, 7, b"e"),
            Change::Directory(7, 2, &[6]),
            Change::Dots(6, 7, 6),
            Change::Entry(6, 2, 6, b"f"),
        ],
        "second name 7 slot 2\n",
    ),
    (
        "a directory that names itself",
        &[
            Change::Number(6),
            Change::Marked(5, 5),
            Change::Links(2, 3),
            Change::Entry(4, 2, 6, b"d"),
            Change::Directory(6, 3, &[5]),
            Change::Dots(5, 6, 2),
            Change::Entry(5, 2, 6, b"me"),
        ],
        "second name 6 slot 2\n",
    ),
    (
        "names of an unreachable directory reach nothing and count nothing",
        &[
            Change::Number(5),
            Change::Number(6),
            Change::Number(7),
            Change::Marked(5, 5),
            Change::File(5, 0, &[]),
            Change::Links(5, 2),
            Change::Entry(4, 2, 5, b"a"),
            Change::File(7, 0, &[]),
            Change::Directory(6, 2, &[5]),
            Change::Dots(5, 6, 2),
            Change::Entry(5, 2, 5, b"a"),
            Change::Entry(5, 3, 7, b"b"),
            Change::Entry(5, 4, 1, b"bad"),
        ],
        "lost inode 6\nlost inode 7\ncount high 5 links 2 entries 1\n",
    ),
    (
        "the dots are no way to a directory",
        &[
            Change::Number(6),
            Change::Marked(5, 5),
            Change::Directory(6, 2, &[5]),
            Change::Dots(5, 6, 2),
            Change::Dots(4, 2, 6),
        ],
        "bad dot dot 2\nlost inode 6\ncount high 2 links 2 entries 1\n",
    ),
    (
        "a root that is a file",
        &[Change::File(2, 1024, &[4])],
        "bad root\nlost inode 2\n",
    ),
    (
        "a root that is free",
        &[Change::Inode {
            number: 2,
            mode: 0,
            size: 0,
            direct: &[],
            indirect: 0,
        }],
        "bad root\nlost block 4\nlost number 2\n",
    ),
];

#[test]
fn paths_are_followed_from_the_root(rt: HostRuntime) -> Result<(), Fail> {
    check_all(&rt, 1, PATHS_ARE_FOLLOWED_FROM_THE_ROOT)
}

const SLOTS_ARE_GOOD_EMPTY_OR_BAD: &[Example] = &[
    (
        "names of 1 and of 56 bytes",
        &[
            Change::Number(5),
            Change::File(5, 0, &[]),
            Change::Links(5, 2),
            Change::Entry(4, 2, 5, b"a"),
            Change::Entry(4, 3, 5, LONGEST),
        ],
        "",
    ),
    (
        "an entry in the last slot, of 56 bytes",
        &[
            Change::Number(5),
            Change::File(5, 0, &[]),
            Change::Entry(4, 15, 5, LONGEST),
        ],
        "",
    ),
    (
        "a length of 57 in the last slot",
        &[
            Change::Number(5),
            Change::File(5, 0, &[]),
            Change::Entry(4, 2, 5, b"a"),
            Change::Entry(4, 15, 5, LONGEST),
            Change::Byte(4 * 1024 + 15 * 64 + 4, 57),
        ],
        "bad slot 2 slot 15\n",
    ),
    (
        "a name without a byte",
        &[Change::Entry(4, 2, 2, b"")],
        "bad slot 2 slot 2\n",
    ),
    (
        "a name with a byte of 0, and one with a stroke",
        &[
            Change::Number(5),
            Change::File(5, 0, &[]),
            Change::Entry(4, 2, 5, b"a\0b"),
            Change::Entry(4, 3, 5, b"a/b"),
        ],
        "bad slot 2 slot 2\nbad slot 2 slot 3\nlost inode 5\n",
    ),
    (
        "numbers 1 and 16, which are never given out on this volume",
        &[
            Change::Entry(4, 2, 1, b"one"),
            Change::Entry(4, 3, 16, b"past"),
        ],
        "bad slot 2 slot 2\nbad slot 2 slot 3\n",
    ),
    (
        "dots out of their places",
        &[
            Change::Entry(4, 2, 2, b"."),
            Change::Entry(4, 3, 2, b".."),
            Change::Number(5),
            Change::File(5, 0, &[]),
            Change::Entry(4, 4, 5, b"..."),
        ],
        "bad slot 2 slot 2\nbad slot 2 slot 3\n",
    ),
    (
        "bytes that are not looked at",
        &[
            Change::Number(5),
            Change::File(5, 0, &[]),
            Change::Entry(4, 2, 5, b"a"),
            Change::Byte(4 * 1024 + 2 * 64 + 5, 255),
            Change::Byte(4 * 1024 + 2 * 64 + 9, b'/'),
            Change::Byte(4 * 1024 + 3 * 64 + 4, 200),
        ],
        "",
    ),
    (
        "a root with one block twice",
        &[Change::Directory(2, 2, &[4, 4])],
        "duplicate 2 position 1 block 4\nbad slot 2 slot 16\nbad slot 2 slot 17\n",
    ),
    (
        "names past the size",
        &[
            Change::Inode {
                number: 2,
                mode: 2,
                size: 1024,
                direct: &[4, 5],
                indirect: 0,
            },
            Change::Links(2, 2),
            Change::Entry(5, 2, 1, b"bad"),
            Change::Marked(5, 5),
        ],
        "lost block 5\n",
    ),
];

#[test]
fn slots_are_good_empty_or_bad(rt: HostRuntime) -> Result<(), Fail> {
    check_all(&rt, 1, SLOTS_ARE_GOOD_EMPTY_OR_BAD)
}

const NAMES_STAND_ONCE_AND_NAME_SOUND_INODES: &[Example] = &[
    (
        "a name of a free inode",
        &[Change::Entry(4, 2, 5, b"a")],
        "name of no sound inode 2 slot 2\n",
    ),
    (
        "a name of a directory of half a block",
        &[
            Change::Number(6),
            Change::Inode {
                number: 6,
                mode: 2,
                size: 512,
                direct: &[],
                indirect: 0,
            },
            Change::Entry(4, 2, 6, b"d"),
        ],
        "bad inode 6\nname of no sound inode 2 slot 2\n",
    ),
    (
        "a record of no mode, whose number is not marked",
        &[Change::Inode {
            number: 5,
            mode: 3,
            size: 0,
            direct: &[],
            indirect: 0,
        }],
        "bad inode 5\nunmarked inode 5\n",
    ),
    (
        "a name three times",
        &[
            Change::Number(5),
            Change::File(5, 0, &[]),
            Change::Links(5, 3),
            Change::Entry(4, 5, 5, b"a"),
            Change::Entry(4, 3, 5, b"a"),
            Change::Entry(4, 2, 5, b"a"),
        ],
        "repeated name 2 slot 3\nrepeated name 2 slot 5\n",
    ),
    (
        "a name in two blocks of a directory, and the same one in its parent",
        &[
            Change::Number(6),
            Change::Number(7),
            Change::Marked(5, 6),
            Change::Links(2, 3),
            Change::Entry(4, 2, 6, b"d"),
            Change::Entry(4, 3, 7, b"a"),
            Change::Directory(6, 2, &[5, 6]),
            Change::Dots(5, 6, 2),
            Change::File(7, 0, &[]),
            Change::Links(7, 3),
            Change::Entry(5, 2, 7, b"a"),
            Change::Entry(6, 3, 7, b"a"),
        ],
        "repeated name 6 slot 19\n",
    ),
    (
        "names that begin alike",
        &[
            Change::Number(5),
            Change::File(5, 0, &[]),
            Change::Links(5, 3),
            Change::Entry(4, 2, 5, b"a"),
            Change::Entry(4, 3, 5, b"aa"),
            Change::Entry(4, 4, 5, b"A"),
        ],
        "",
    ),
    (
        "an entry that names the root",
        &[Change::Entry(4, 2, 2, b"r"), Change::Links(2, 3)],
        "second name 2 slot 2\n",
    ),
    (
        "a directory in two directories",
        &[
            Change::Number(6),
            Change::Number(7),
            Change::Number(8),
            Change::Marked(5, 7),
            Change::Links(2, 4),
            Change::Entry(4, 2, 7, b"e"),
            Change::Entry(4, 3, 6, b"d"),
            Change::Directory(6, 2, &[5]),
            Change::Dots(5, 6, 2),
            Change::Entry(5, 2, 8, b"x"),
            Change::Directory(7, 3, &[6]),
            Change::Dots(6, 7, 2),
            Change::Entry(6, 2, 8, b"x"),
            Change::Directory(8, 3, &[7]),
            Change::Dots(7, 8, 7),
        ],
        "second name 7 slot 2\n",
    ),
    (
        "a directory of two names in one directory",
        &[
            Change::Number(6),
            Change::Marked(5, 5),
            Change::Links(2, 3),
            Change::Entry(4, 3, 6, b"d"),
            Change::Entry(4, 2, 6, b"e"),
            Change::Directory(6, 3, &[5]),
            Change::Dots(5, 6, 2),
        ],
        "second name 2 slot 3\n",
    ),
];

#[test]
fn names_stand_once_and_name_sound_inodes(rt: HostRuntime) -> Result<(), Fail> {
    check_all(&rt, 1, NAMES_STAND_ONCE_AND_NAME_SOUND_INODES)
}

const DOTS_NAME_THE_DIRECTORY_AND_ITS_PARENT: &[Example] = &[
    (
        "a parent that does not name the directory",
        &[
            Change::Number(6),
            Change::Number(7),
            Change::Marked(5, 6),
            Change::Links(2, 3),
            Change::Entry(4, 2, 6, b"d"),
            Change::Entry(4, 3, 7, b"e"),
            Change::Directory(6, 3, &[5]),
            Change::Dots(5, 6, 2),
            Change::Directory(7, 2, &[6]),
            Change::Dots(6, 7, 6),
        ],
        "bad dot dot 7\n",
    ),
    (
        "a parent that names the directory, and is not reachable",
        &[
            Change::Number(6),
            Change::Number(7),
            Change::Marked(5, 6),
            Change::Entry(4, 2, 7, b"e"),
            Change::Directory(7, 2, &[6]),
            Change::Dots(6, 7, 6),
            Change::Directory(6, 3, &[5]),
            Change::Dots(5, 6, 2),
            Change::Entry(5, 2, 7, b"e"),
        ],
        "bad dot dot 7\nlost inode 6\n",
    ),
    (
        "a parent that is a file",
        &[
            Change::Number(5),
            Change::Number(6),
            Change::Marked(5, 5),
            Change::File(5, 0, &[]),
            Change::Links(5, 2),
            Change::Entry(4, 2, 5, b"a"),
            Change::Entry(4, 3, 6, b"d"),
            Change::Directory(6, 2, &[5]),
            Change::Dots(5, 6, 5),
        ],
        "bad dot dot 6\n",
    ),
    (
        "the root's parent is another directory",
        &[
            Change::Number(6),
            Change::Marked(5, 5),
            Change::Dots(4, 2, 6),
            Change::Entry(4, 2, 6, b"d"),
            Change::Directory(6, 3, &[5]),
            Change::Dots(5, 6, 2),
        ],
        "bad dot dot 2\n",
    ),
    (
        "no dot",
        &[Change::Byte(4 * 1024, 0)],
        "bad dot 2\ncount high 2 links 2 entries 1\n",
    ),
    (
        "a dot that names a file",
        &[
            Change::Number(5),
            Change::File(5, 0, &[]),
            Change::Links(5, 2),
            Change::Entry(4, 2, 5, b"a"),
            Change::Byte(4 * 1024, 5),
        ],
        "bad dot 2\ncount high 2 links 2 entries 1\n",
    ),
    (
        "a directory whose block is no data block",
        &[
            Change::Number(6),
            Change::Entry(4, 2, 6, b"d"),
            Change::Directory(6, 2, &[1]),
        ],
        "bad pointer 6 position 0 value 1\nbad dot 6\nbad dot dot 6\ncount high 6 links 2 entries 1\n",
    ),
    (
        "two directories with one block",
        &[
            Change::Number(6),
            Change::Number(7),
            Change::Marked(5, 5),
            Change::Links(2, 4),
            Change::Entry(4, 2, 6, b"d"),
            Change::Entry(4, 3, 7, b"e"),
            Change::Directory(6, 3, &[5]),
            Change::Directory(7, 1, &[5]),
            Change::Dots(5, 6, 2),
        ],
        "duplicate 7 position 0 block 5\nbad dot 7\n",
    ),
];

#[test]
fn dots_name_the_directory_and_its_parent(rt: HostRuntime) -> Result<(), Fail> {
    check_all(&rt, 1, DOTS_NAME_THE_DIRECTORY_AND_ITS_PARENT)
}

const LINKS_ARE_COMPARED_WITH_ENTRIES: &[Example] = &[
    (
        "too many links and too few",
        &[
            Change::Number(5),
            Change::Number(6),
            Change::File(5, 0, &[]),
            Change::Entry(4, 2, 5, b"a"),
            Change::Entry(4, 3, 5, b"b"),
            Change::File(6, 0, &[]),
            Change::Links(6, 3),
            Change::Entry(4, 4, 6, b"c"),
        ],
        "count high 6 links 3 entries 1\ncount low 5 links 1 entries 2\n",
    ),
    (
        "no links at all",
        &[
            Change::Number(5),
            Change::File(5, 0, &[]),
            Change::Links(5, 0),
            Change::Entry(4, 2, 5, b"a"),
        ],
        "count low 5 links 0 entries 1\n",
    ),
    (
        "links of what nothing reaches",
        &[
            Change::Number(5),
            Change::File(5, 0, &[]),
            Change::Links(5, 9),
        ],
        "lost inode 5\n",
    ),
    (
        "the most links that a record can have",
        &[Change::Links(2, 65_535)],
        "count high 2 links 65535 entries 2\n",
    ),
];

#[test]
fn links_are_compared_with_entries(rt: HostRuntime) -> Result<(), Fail> {
    check_all(&rt, 1, LINKS_ARE_COMPARED_WITH_ENTRIES)
}

const DIRECTORIES_REACH_INTO_AN_INDIRECT_BLOCK: &[Example] = &[
    (
        "the last slot of a directory of 13 blocks",
        &[
            Change::Number(6),
            Change::Number(7),
            Change::Marked(5, 18),
            Change::Links(2, 3),
            Change::Entry(4, 2, 6, b"d"),
            Change::LargeDirectory(6, 2, TWELVE, 17),
            Change::Pointer(17, 0, 18),
            Change::Dots(5, 6, 2),
            Change::File(7, 0, &[]),
            Change::Entry(18, 15, 7, b"z"),
        ],
        "",
    ),
    (
        "bad, repeated and unsound in the thirteenth block",
        &[
            Change::Number(6),
            Change::Number(7),
            Change::Marked(5, 18),
            Change::Links(2, 3),
            Change::Entry(4, 2, 6, b"d"),
            Change::LargeDirectory(6, 2, TWELVE, 17),
            Change::Pointer(17, 0, 18),
            Change::Dots(5, 6, 2),
            Change::File(7, 0, &[]),
            Change::Links(7, 2),
            Change::Entry(5, 2, 7, b"z"),
            Change::Entry(18, 0, 7, b"."),
            Change::Entry(18, 1, 7, b"z"),
            Change::Entry(18, 15, 8, b"y"),
        ],
        "bad slot 6 slot 192\nrepeated name 6 slot 193\nname of no sound inode 6 slot 207\n",
    ),
    (
        "an indirect pointer to no data block",
        &[
            Change::Number(6),
            Change::Marked(5, 16),
            Change::Links(2, 3),
            Change::Entry(4, 2, 6, b"d"),
            Change::LargeDirectory(6, 2, TWELVE, 33),
            Change::Dots(5, 6, 2),
        ],
        "bad pointer 6 position 268 value 33\n",
    ),
];

#[test]
fn directories_reach_into_an_indirect_block(rt: HostRuntime) -> Result<(), Fail> {
    check_all(&rt, 1, DIRECTORIES_REACH_INTO_AN_INDIRECT_BLOCK)
}

/// On two groups: the second one has inodes 16 to 31 and data blocks 36 to 64.
const DIRECTORIES_STAND_IN_ANY_GROUP: &[Example] = &[
    (
        "a directory of the second group, with a file of the first and the last file of all",
        &[
            Change::Number(7),
            Change::Number(18),
            Change::Number(31),
            Change::Marked(36, 36),
            Change::Links(2, 3),
            Change::Entry(4, 2, 18, b"d"),
            Change::Directory(18, 2, &[36]),
            Change::Dots(36, 18, 2),
            Change::File(7, 0, &[]),
            Change::Entry(36, 2, 7, b"f"),
            Change::File(31, 0, &[]),
            Change::Entry(36, 15, 31, b"g"),
        ],
        "",
    ),
    (
        "a directory of the first group in two directories of the second",
        &[
            Change::Number(7),
            Change::Number(18),
            Change::Number(20),
            Change::Marked(5, 5),
            Change::Marked(36, 37),
            Change::Links(2, 4),
            Change::Entry(4, 2, 20, b"e"),
            Change::Entry(4, 3, 18, b"d"),
            Change::Directory(18, 3, &[36]),
            Change::Dots(36, 18, 2),
            Change::Entry(36, 15, 7, b"x"),
            Change::Directory(20, 2, &[37]),
            Change::Dots(37, 20, 2),
            Change::Entry(37, 2, 7, b"x"),
            Change::Directory(7, 3, &[5]),
            Change::Dots(5, 7, 18),
        ],
        "second name 20 slot 2\n",
    ),
    (
        "nothing names a directory of the second group, nor what it names in the first",
        &[
            Change::Number(7),
            Change::Number(18),
            Change::Marked(36, 36),
            Change::Directory(18, 2, &[36]),
            Change::Dots(36, 18, 2),
            Change::File(7, 0, &[]),
            Change::Entry(36, 2, 7, b"f"),
        ],
        "lost inode 7\nlost inode 18\n",
    ),
    (
        "the number past the last",
        &[Change::Entry(4, 2, 32, b"a")],
        "bad slot 2 slot 2\n",
    ),
];

#[test]
fn directories_stand_in_any_group(rt: HostRuntime) -> Result<(), Fail> {
    check_all(&rt, 2, DIRECTORIES_STAND_IN_ANY_GROUP)
}
