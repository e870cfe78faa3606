//! Records, the blocks that they use, and the maps; no entry names the files. Where nothing else is said an image has one
//! group of 32 blocks and 16 inodes: the maps stand in block 1, the records in blocks 2 and 3, and blocks 4 to 32 are data
//! blocks. The root is inode 2 and has block 4.
use crate::expect::same;
use crate::image::{Change, VERSIONS, Wanted, found};
use layout::{DOUBLE, Geometry, SINGLE};
use std::process::Abort;
use std::test::Fail;
use std::thread::Threads;

/// An example: what it shows, the changes of a fresh image, and the lines of its findings.
type Example = (&'static str, &'static [Change], &'static str);

const TWELVE: &[u32] = &[5, 6, 7, 8, 9, 10, 11, 12, 13, 14, 15, 16];

const NEXT_TWELVE: &[u32] = &[17, 18, 19, 20, 21, 22, 23, 24, 25, 26, 27, 28];

/// Checks each example on images of these numbers, of both versions of the layout.
fn check_all<R: Threads + AllocGlobal + Abort + Sync>(
    rt: &R,
    geometry: &Geometry,
    examples: &[Example],
) -> Result<(), Fail> {
    for version in VERSIONS {
        let geometry = geometry.with_version(version)?;
        for (name, changes, wanted) in examples {
            let lines = found(rt, &geometry, changes, Wanted::UsedBlocks)?;
            same(rt, (version, *name), lines.as_str(), *wanted);
        }
    }
    Ok(())
}

const AN_INDIRECT_BLOCK_IS_CLAIMED_AT_ITS_OWN_POSITION: &[Example] = &[
    (
        "a file of 13 blocks",
        &[
            Change::Number(5),
            Change::Marked(5, 18),
            Change::LargeFile(5, TWELVE, 17),
            Change::Pointer(17, 0, 18),
        ],
        "",
    ),
    (
        "an indirect block that names itself",
        &[
            Change::Number(5),
            Change::Marked(5, 17),
            Change::LargeFile(5, TWELVE, 17),
            Change::Pointer(17, 0, 17),
        ],
        "duplicate 5 position 268 block 17\n",
    ),
    (
        "an indirect pointer past the volume",
        &[
            Change::Number(5),
            Change::Marked(5, 17),
            Change::LargeFile(5, TWELVE, 33),
        ],
        "bad pointer 5 position 268 value 33\nlost block 17\n",
    ),
    (
        "an indirect pointer to a block of maps, whose bytes are not looked at",
        &[
            Change::Number(5),
            Change::Marked(5, 17),
            Change::LargeFile(5, TWELVE, 1),
        ],
        "bad pointer 5 position 268 value 1\nlost block 17\n",
    ),
    (
        "a slot of an indirect block that names a block of inodes",
        &[
            Change::Number(5),
            Change::Marked(5, 17),
            Change::LargeFile(5, TWELVE, 17),
            Change::Pointer(17, 0, 2),
        ],
        "bad pointer 5 position 12 value 2\n",
    ),
    (
        "a slot past the size",
        &[
            Change::Number(5),
            Change::Marked(5, 18),
            Change::LargeFile(5, TWELVE, 17),
            Change::Pointer(17, 0, 18),
            Change::Pointer(17, 1, 33),
        ],
        "",
    ),
    (
        "an unmarked indirect block",
        &[
            Change::Number(5),
            Change::Marked(5, 18),
            Change::Unmarked(17),
            Change::LargeFile(5, TWELVE, 17),
            Change::Pointer(17, 0, 18),
        ],
        "unmarked block 17\n",
    ),
];

#[test]
fn an_indirect_block_is_claimed_at_its_own_position(rt: HostRuntime) -> Result<(), Fail> {
    check_all(
        &rt,
        &Geometry::new(1, 32, 16)?,
        AN_INDIRECT_BLOCK_IS_CLAIMED_AT_ITS_OWN_POSITION,
    )
}

const THE_LEAST_CLAIM_OWNS_A_BLOCK: &[Example] = &[
    (
        "two files with one block",
        &[
            Change::Number(5),
            Change::Number(6),
            Change::Marked(8, 8),
            Change::File(5, 1024, &[8]),
            Change::File(6, 1024, &[8]),
        ],
        "duplicate 6 position 0 block 8\n",
    ),
    (
        "three files with one block",
        &[
            Change::Number(5),
            Change::Number(6),
            Change::Number(7),
            Change::Marked(5, 5),
            Change::File(7, 1, &[5]),
            Change::File(6, 1, &[5]),
            Change::File(5, 1, &[5]),
        ],
        "duplicate 6 position 0 block 5\nduplicate 7 position 0 block 5\n",
    ),
    (
        "a file with one block twice",
        &[
            Change::Number(5),
            Change::Marked(5, 5),
            Change::File(5, 2048, &[5, 5]),
        ],
        "duplicate 5 position 1 block 5\n",
    ),
    (
        "the lesser inode owns it, at a greater position",
        &[
            Change::Number(5),
            Change::Number(6),
            Change::Marked(5, 6),
            Change::File(5, 2048, &[5, 6]),
            Change::File(6, 1024, &[6]),
        ],
        "duplicate 6 position 0 block 6\n",
    ),
    (
        "a file with the root's block",
        &[Change::Number(5), Change::File(5, 1024, &[4])],
        "duplicate 5 position 0 block 4\n",
    ),
    (
        "two files that share an indirect block",
        &[
            Change::Number(5),
            Change::Number(6),
            Change::Marked(5, 30),
            Change::LargeFile(5, TWELVE, 29),
            Change::LargeFile(6, NEXT_TWELVE, 29),
            Change::Pointer(29, 0, 30),
        ],
        "duplicate 6 position 12 block 30\nduplicate 6 position 268 block 29\n",
    ),
    (
        "an indirect block that is a direct one too",
        &[
            Change::Number(5),
            Change::Marked(5, 17),
            Change::LargeFile(5, &[5, 6, 7, 8, 9, 10, 11, 12, 13, 14, 15, 17], 17),
            Change::Pointer(17, 0, 16),
        ],
        "duplicate 5 position 268 block 17\n",
    ),
];

#[test]
fn the_least_claim_owns_a_block(rt: HostRuntime) -> Result<(), Fail> {
    check_all(
        &rt,
        &Geometry::new(1, 32, 16)?,
        THE_LEAST_CLAIM_OWNS_A_BLOCK,
    )
}

const POINTERS_NAME_DATA_BLOCKS: &[Example] = &[
    (
        "pointer 0",
        &[Change::Number(5), Change::File(5, 1024, &[0])],
        "bad pointer 5 position 0 value 0\n",
    ),
    (
        "the superblock's neighbour",
        &[Change::Number(5), Change::File(5, 1024, &[1])],
        "bad pointer 5 position 0 value 1\n",
    ),
    (
        "the last block of inodes",
        &[Change::Number(5), Change::File(5, 1024, &[3])],
        "bad pointer 5 position 0 value 3\n",
    ),
    (
        "a pointer past the volume",
        &[Change::Number(5), Change::File(5, 1024, &[33])],
        "bad pointer 5 position 0 value 33\n",
    ),
    (
        "the greatest pointer",
        &[Change::Number(5), Change::File(5, 1024, &[u32::MAX])],
        "bad pointer 5 position 0 value 4294967295\n",
    ),
    (
        "a pointer past the size",
        &[
            Change::Number(5),
            Change::Marked(5, 5),
            Change::File(5, 1024, &[5, 40]),
        ],
        "",
    ),
    (
        "a file of no block",
        &[Change::Number(5), Change::File(5, 0, &[40])],
        "",
    ),
];

#[test]
fn pointers_name_data_blocks(rt: HostRuntime) -> Result<(), Fail> {
    check_all(&rt, &Geometry::new(1, 32, 16)?, POINTERS_NAME_DATA_BLOCKS)
}

const RECORDS_ARE_FREE_OR_SOUND: &[Example] = &[
    (
        "mode 3",
        &[
            Change::Number(5),
            Change::Inode {
                number: 5,
                mode: 3,
                size: 1024,
                direct: &[5, 6],
                indirect: 0,
            },
        ],
        "bad inode 5\n",
    ),
    (
        "a directory of no size",
        &[
            Change::Number(5),
            Change::Inode {
                number: 5,
                mode: 2,
                size: 0,
                direct: &[5, 6],
                indirect: 0,
            },
        ],
        "bad inode 5\n",
    ),
    (
        "a directory of a part of a block",
        &[
            Change::Number(5),
            Change::Marked(5, 5),
            Change::Inode {
                number: 5,
                mode: 2,
                size: 1000,
                direct: &[5, 6],
                indirect: 0,
            },
        ],
        "bad inode 5\nlost block 5\n",
    ),
    (
        "a directory of two blocks",
        &[
            Change::Number(5),
            Change::Marked(5, 5),
            Change::Inode {
                number: 5,
                mode: 2,
                size: 2048,
                direct: &[5, 6],
                indirect: 0,
            },
        ],
        "unmarked block 6\n",
    ),
    (
        "a free record with pointers",
        &[
            Change::Marked(5, 5),
            Change::Inode {
                number: 5,
                mode: 0,
                size: 1024,
                direct: &[5, 6],
                indirect: 0,
            },
        ],
        "lost block 5\n",
    ),
];

#[test]
fn records_are_free_or_sound(rt: HostRuntime) -> Result<(), Fail> {
    check_all(&rt, &Geometry::new(1, 32, 16)?, RECORDS_ARE_FREE_OR_SOUND)
}

const A_FILE_OF_269_BLOCKS: &[Change] = &[
    Change::Number(5),
    Change::Marked(5, 5),
    Change::Inode {
        number: 5,
        mode: 1,
        size: 274_433,
        direct: &[5, 6],
        indirect: 0,
    },
];

/// What is found on it in each version of the layout; the pointers of version 2 are those in the record, the last one the double
/// indirect one.
const FOUND_OF_269_BLOCKS: [(u32, &str); 2] = [
    (SINGLE, "bad inode 5\nlost block 5\n"),
    (
        DOUBLE,
        "bad pointer 5 position 2 value 0\nbad pointer 5 position 3 value 0\nbad pointer 5 position 4 value 0\nbad pointer 5 position 5 value 0\nbad pointer 5 position 6 value 0\nbad pointer 5 position 7 value 0\nbad pointer 5 position 8 value 0\nbad pointer 5 position 9 value 0\nbad pointer 5 position 10 value 0\nbad pointer 5 position 11 value 0\nbad pointer 5 position 268 value 0\nbad pointer 5 position 65805 value 0\nunmarked block 6\n",
    ),
];

#[test]
fn a_file_of_269_blocks_is_sound_in_version_2(rt: HostRuntime) -> Result<(), Fail> {
    for (version, wanted) in FOUND_OF_269_BLOCKS {
        let geometry = Geometry::new(1, 32, 16)?.with_version(version)?;
        let lines = found(&rt, &geometry, A_FILE_OF_269_BLOCKS, Wanted::UsedBlocks)?;
        same(&rt, version, lines.as_str(), wanted);
    }
    Ok(())
}

const MAPS_MARK_WHAT_IS_USED: &[Example] = &[
    ("the fresh image", &[], ""),
    (
        "a marked block without a claim",
        &[Change::Marked(9, 9)],
        "lost block 9\n",
    ),
    (
        "the last block",
        &[Change::Marked(32, 32)],
        "lost block 32\n",
    ),
    (
        "a marked number of a free record",
        &[Change::Number(5)],
        "lost number 5\n",
    ),
    (
        "a record whose number is not marked",
        &[Change::File(5, 0, &[])],
        "unmarked inode 5\n",
    ),
    (
        "the last inode with the last block",
        &[Change::File(15, 1, &[32])],
        "unmarked block 32\nunmarked inode 15\n",
    ),
    (
        "a root that is free",
        &[Change::Inode {
            number: 2,
            mode: 0,
            size: 0,
            direct: &[],
            indirect: 0,
        }],
        "lost block 4\nlost number 2\n",
    ),
    (
        "an unmarked root",
        &[Change::NoNumber(2), Change::Unmarked(4)],
        "unmarked block 4\nunmarked inode 2\n",
    ),
    (
        "bits past the end of both maps, and those of numbers 0 and 1",
        &[
            Change::Byte(1_187, 0xE0),
            Change::Byte(1_188, 0xFF),
            Change::Byte(1_058, 0xFF),
            Change::Byte(1_056, 0x07),
        ],
        "",
    ),
    (
        "record 1, which is not looked at",
        &[Change::Inode {
            number: 1,
            mode: 3,
            size: 1024,
            direct: &[4],
            indirect: 0,
        }],
        "",
    ),
];

#[test]
fn maps_mark_what_is_used(rt: HostRuntime) -> Result<(), Fail> {
    check_all(&rt, &Geometry::new(1, 32, 16)?, MAPS_MARK_WHAT_IS_USED)
}

/// Group 1 begins at block 17, with its data blocks at 20 to 32 and inodes 16 to 31.
const AN_INODE_USES_BLOCKS_OF_ANY_GROUP: &[Example] = &[
    (
        "blocks of the other group",
        &[
            Change::Number(5),
            Change::Number(21),
            Change::Marked(5, 5),
            Change::Marked(20, 20),
            Change::File(5, 1024, &[20]),
            Change::File(21, 1024, &[5]),
        ],
        "",
    ),
    (
        "a block of the later group that both groups' inodes claim",
        &[
            Change::Number(5),
            Change::Number(21),
            Change::Marked(5, 5),
            Change::Marked(20, 20),
            Change::File(5, 1024, &[20]),
            Change::File(21, 2048, &[20, 5]),
        ],
        "duplicate 21 position 0 block 20\n",
    ),
    (
        "the blocks of maps and inodes of the later group",
        &[Change::Number(21), Change::File(21, 3072, &[17, 18, 19])],
        "bad pointer 21 position 0 value 17\nbad pointer 21 position 1 value 18\nbad pointer 21 position 2 value 19\n",
    ),
    (
        "what both groups lost",
        &[
            Change::Marked(16, 16),
            Change::Marked(32, 32),
            Change::Number(31),
        ],
        "lost block 16\nlost block 32\nlost number 31\n",
    ),
];

#[test]
fn an_inode_uses_blocks_of_any_group(rt: HostRuntime) -> Result<(), Fail> {
    check_all(
        &rt,
        &Geometry::new(2, 16, 16)?,
        AN_INODE_USES_BLOCKS_OF_ANY_GROUP,
    )
}

const A_FILE_HAS_12_BLOCKS_OR_UP_TO_268_WITH_AN_INDIRECT_ONE: &[Example] = &[
    (
        "12 blocks, and an indirect pointer that is not looked at",
        &[
            Change::Number(5),
            Change::Marked(5, 17),
            Change::Inode {
                number: 5,
                mode: 1,
                size: 12_288,
                direct: TWELVE,
                indirect: 17,
            },
        ],
        "lost block 17\n",
    ),
    (
        "268 blocks",
        &[
            Change::Number(5),
            Change::Marked(5, 273),
            Change::Inode {
                number: 5,
                mode: 1,
                size: 274_432,
                direct: TWELVE,
                indirect: 17,
            },
            Change::Pointers {
                block: 17,
                slot: 0,
                first: 18,
                count: 256,
            },
        ],
        "",
    ),
    (
        "268 blocks, the last of which is not marked and the one before which is no block",
        &[
            Change::Number(5),
            Change::Marked(5, 271),
            Change::Inode {
                number: 5,
                mode: 1,
                size: 274_432,
                direct: TWELVE,
                indirect: 17,
            },
            Change::Pointers {
                block: 17,
                slot: 0,
                first: 18,
                count: 256,
            },
            Change::Pointer(17, 254, 3),
        ],
        "bad pointer 5 position 266 value 3\nunmarked block 273\n",
    ),
];

#[test]
fn a_file_has_12_blocks_or_up_to_268_with_an_indirect_one(rt: HostRuntime) -> Result<(), Fail> {
    check_all(
        &rt,
        &Geometry::new(1, 512, 16)?,
        A_FILE_HAS_12_BLOCKS_OR_UP_TO_268_WITH_AN_INDIRECT_ONE,
    )
}
