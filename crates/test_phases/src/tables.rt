//! Files of more than 268 blocks, in both versions of the layout. A small image has one group of 32 blocks and 16 inodes, as
//! those of `limits` have. File 5 is marked.
use crate::expect::same;
use crate::image::{Put, changed_bytes, found, put};
use crate::limits::{Example, MARKED, NAMED, TWELVE, expect_found};
use layout::{DOUBLE, Geometry, Refusal, SINGLE};
use std::alloc::Global;
use std::process::Abort;
use std::test::Fail;
use std::thread::Threads;

/// Checks each example on a small image in this version of the layout.
fn check_all<R: Threads + AllocGlobal + Abort + Sync>(
    rt: &R,
    version: u32,
    examples: &[Example],
) -> Result<(), Fail> {
    let geometry = Geometry::new(1, 32, 16)?.with_version(version)?;
    for example in examples {
        expect_found(rt, &geometry, example)?;
    }
    Ok(())
}

/// A file of one block, 5, whose record has other bytes where version 2 has the double indirect pointer.
const IN_BOTH: &[Example] = &[(
    "past the size nothing is looked at",
    &[
        MARKED,
        NAMED,
        (1_184, b"\x03"),
        (2_688, b"\x01\0\x01\0\0\x04\0\0\x05"),
        (2_744, b"\xff\xff\xff\xff\xff\xff\xff\xff"),
    ],
    "",
)];

#[test]
fn tables_that_a_file_has_not_are_not_looked_at(rt: HostRuntime) -> Result<(), Fail> {
    check_all(&rt, SINGLE, IN_BOTH)?;
    check_all(&rt, DOUBLE, IN_BOTH)
}

const SINGLE_SIZES: &[Example] = &[
    (
        "thirteen blocks, and the bytes behind the indirect pointer",
        &[
            MARKED,
            NAMED,
            (1_184, b"\xff\x7f"),
            (2_688, b"\x01\0\x01\0\x01\x30\0\0"),
            TWELVE,
            (2_744, b"\x11\0\0\0\xff\xff\xff\xff"),
            (17_408, b"\x12\0\0\0\xff"),
        ],
        "",
    ),
    (
        "268 blocks",
        &[MARKED, (2_688, b"\x01\0\x01\0\0\x30\x04\0")],
        "bad pointer 5 position 0 value 0\nbad pointer 5 position 1 value 0\nbad pointer 5 position 2 value 0\nbad pointer 5 position 3 value 0\nbad pointer 5 position 4 value 0\nbad pointer 5 position 5 value 0\nbad pointer 5 position 6 value 0\nbad pointer 5 position 7 value 0\nbad pointer 5 position 8 value 0\nbad pointer 5 position 9 value 0\nbad pointer 5 position 10 value 0\nbad pointer 5 position 11 value 0\nbad pointer 5 position 268 value 0\nlost inode 5\n",
    ),
    (
        "a byte more",
        &[MARKED, (2_688, b"\x01\0\x01\0\x01\x30\x04\0")],
        "bad inode 5\n",
    ),
    (
        "65,804 blocks",
        &[MARKED, (2_688, b"\x01\0\x01\0\0\x30\x04\x04")],
        "bad inode 5\n",
    ),
    (
        "a byte more than these",
        &[MARKED, (2_688, b"\x01\0\x01\0\x01\x30\x04\x04")],
        "bad inode 5\n",
    ),
];

#[test]
fn files_of_version_1_have_268_blocks_at_most(rt: HostRuntime) -> Result<(), Fail> {
    check_all(&rt, SINGLE, SINGLE_SIZES)
}

const DOUBLE_SIZES: &[Example] = &[
    (
        "268 blocks",
        &[MARKED, (2_688, b"\x01\0\x01\0\0\x30\x04\0")],
        "bad pointer 5 position 0 value 0\nbad pointer 5 position 1 value 0\nbad pointer 5 position 2 value 0\nbad pointer 5 position 3 value 0\nbad pointer 5 position 4 value 0\nbad pointer 5 position 5 value 0\nbad pointer 5 position 6 value 0\nbad pointer 5 position 7 value 0\nbad pointer 5 position 8 value 0\nbad pointer 5 position 9 value 0\nbad pointer 5 position 10 value 0\nbad pointer 5 position 11 value 0\nbad pointer 5 position 65804 value 0\nlost inode 5\n",
    ),
    (
        "a byte more",
        &[MARKED, (2_688, b"\x01\0\x01\0\x01\x30\x04\0")],
        "bad pointer 5 position 0 value 0\nbad pointer 5 position 1 value 0\nbad pointer 5 position 2 value 0\nbad pointer 5 position 3 value 0\nbad pointer 5 position 4 value 0\nbad pointer 5 position 5 value 0\nbad pointer 5 position 6 value 0\nbad pointer 5 position 7 value 0\nbad pointer 5 position 8 value 0\nbad pointer 5 position 9 value 0\nbad pointer 5 position 10 value 0\nbad pointer 5 position 11 value 0\nbad pointer 5 position 65804 value 0\nbad pointer 5 position 65805 value 0\nlost inode 5\n",
    ),
    (
        "65,804 blocks",
        &[MARKED, (2_688, b"\x01\0\x01\0\0\x30\x04\x04")],
        "bad pointer 5 position 0 value 0\nbad pointer 5 position 1 value 0\nbad pointer 5 position 2 value 0\nbad pointer 5 position 3 value 0\nbad pointer 5 position 4 value 0\nbad pointer 5 position 5 value 0\nbad pointer 5 position 6 value 0\nbad pointer 5 position 7 value 0\nbad pointer 5 position 8 value 0\nbad pointer 5 position 9 value 0\nbad pointer 5 position 10 value 0\nbad pointer 5 position 11 value 0\nbad pointer 5 position 65804 value 0\nbad pointer 5 position 65805 value 0\nlost inode 5\n",
    ),
    (
        "a byte more than these",
        &[MARKED, (2_688, b"\x01\0\x01\0\x01\x30\x04\x04")],
        "bad inode 5\n",
    ),
    (
        "a directory of 65,804 blocks, of which it has the first",
        &[
            MARKED,
            (1_184, b"\x03"),
            (2_688, b"\x02\0\x02\0\0\x30\x04\x04\x05"),
            (5_120, b"\x05\0\0\0\x01\0\0\0."),
            (5_184, b"\x05\0\0\0\x02\0\0\0.."),
        ],
        "bad pointer 5 position 1 value 0\nbad pointer 5 position 2 value 0\nbad pointer 5 position 3 value 0\nbad pointer 5 position 4 value 0\nbad pointer 5 position 5 value 0\nbad pointer 5 position 6 value 0\nbad pointer 5 position 7 value 0\nbad pointer 5 position 8 value 0\nbad pointer 5 position 9 value 0\nbad pointer 5 position 10 value 0\nbad pointer 5 position 11 value 0\nbad pointer 5 position 65804 value 0\nbad pointer 5 position 65805 value 0\nlost inode 5\n",
    ),
    (
        "a directory of a block more than 65,804",
        &[MARKED, (2_688, b"\x02\0\x02\0\0\x34\x04\x04")],
        "bad inode 5\n",
    ),
];

#[test]
fn files_of_version_2_have_65_804_blocks_at_most(rt: HostRuntime) -> Result<(), Fail> {
    check_all(&rt, DOUBLE, DOUBLE_SIZES)
}

/// A file of 269 blocks, of which the first twelve are blocks 5 to 16.
const OF_269: Put = (2_688, b"\x01\0\x01\0\x01\x30\x04\0");

const DOUBLE_TABLES: &[Example] = &[
    (
        "a block below both tables, beside no indirect block",
        &[
            MARKED,
            NAMED,
            OF_269,
            TWELVE,
            (1_184, b"\xff\xff"),
            (2_748, b"\x11"),
            (17_408, b"\x12"),
            (18_432, b"\x13\0\0\0\xff\xff\xff\xff"),
        ],
        "bad pointer 5 position 65804 value 0\n",
    ),
    (
        "a bad pointer to it",
        &[
            MARKED,
            NAMED,
            OF_269,
            TWELVE,
            (1_184, b"\xff\x7f"),
            (2_748, b"\x11"),
            (17_408, b"\x12"),
            (18_432, b"\x21"),
        ],
        "bad pointer 5 position 268 value 33\nbad pointer 5 position 65804 value 0\n",
    ),
    (
        "a bad second-level pointer, below which nothing is looked at",
        &[
            MARKED,
            NAMED,
            OF_269,
            TWELVE,
            (1_184, b"\xff\x3f"),
            (2_748, b"\x11"),
            (17_408, b"\x21\0\0\0\xff\xff\xff\xff"),
        ],
        "bad pointer 5 position 65804 value 0\nbad pointer 5 position 65806 value 33\n",
    ),
    (
        "a bad double pointer, below which nothing is looked at",
        &[
            MARKED,
            NAMED,
            OF_269,
            TWELVE,
            (1_184, b"\xff\x1f"),
            (2_748, b"\x03"),
        ],
        "bad pointer 5 position 65804 value 0\nbad pointer 5 position 65805 value 3\n",
    ),
    (
        "the double indirect block names itself",
        &[
            MARKED,
            NAMED,
            OF_269,
            TWELVE,
            (1_184, b"\xff\x3f"),
            (2_748, b"\x11"),
            (17_408, b"\x11"),
        ],
        "bad pointer 5 position 65804 value 0\nduplicate 5 position 65805 block 17\nduplicate 5 position 65806 block 17\n",
    ),
    (
        "the tables are not marked",
        &[
            MARKED,
            NAMED,
            OF_269,
            TWELVE,
            (1_184, b"\xff\x1f"),
            (2_748, b"\x11"),
            (17_408, b"\x12"),
            (18_432, b"\x13"),
        ],
        "bad pointer 5 position 65804 value 0\nunmarked block 17\nunmarked block 18\nunmarked block 19\n",
    ),
    (
        "its second-level block is a block of file 3",
        &[
            (1_056, b"\x2c"),
            NAMED,
            (4_288, b"\x03\0\0\0\x01\0\0\0b"),
            (2_432, b"\x01\0\x01\0\0\x04\0\0\x12"),
            OF_269,
            TWELVE,
            (1_184, b"\xff\xff"),
            (2_748, b"\x11"),
            (17_408, b"\x12"),
            (18_432, b"\x13"),
        ],
        "bad pointer 5 position 65804 value 0\nduplicate 5 position 65806 block 18\n",
    ),
    (
        "its second-level block is a block of file 6",
        &[
            (1_056, b"\x64"),
            NAMED,
            (4_288, b"\x06\0\0\0\x01\0\0\0b"),
            (2_816, b"\x01\0\x01\0\0\x04\0\0\x12"),
            OF_269,
            TWELVE,
            (1_184, b"\xff\xff"),
            (2_748, b"\x11"),
            (17_408, b"\x12"),
            (18_432, b"\x13"),
        ],
        "bad pointer 5 position 65804 value 0\nduplicate 6 position 0 block 18\n",
    ),
    (
        "of thirteen blocks the double indirect pointer is not looked at",
        &[
            MARKED,
            NAMED,
            (2_688, b"\x01\0\x01\0\x01\x30\0\0"),
            TWELVE,
            (1_184, b"\xff\x7f"),
            (2_744, b"\x11\0\0\0\x11"),
            (17_408, b"\x12"),
        ],
        "",
    ),
];

#[test]
fn tables_of_version_2_are_claimed_and_marked(rt: HostRuntime) -> Result<(), Fail> {
    check_all(&rt, DOUBLE, DOUBLE_TABLES)
}

/// The address of a data block by its number, on a volume of groups of 4,096 blocks and 16 inodes: the data blocks are 4 to 4,096
/// in the first group, and each further group has 4,093 too. Data block 0 is the root's. A full file has data block 1 as its indirect
/// block, 2 as its double indirect block, 3 to 258 as its second-level blocks, and those from 259 on as its blocks.
fn data_block(number: u32) -> u32 {
    (number / 4_093)
        .wrapping_mul(4_096)
        .wrapping_add(number % 4_093)
        .wrapping_add(4)
}

/// Where a data block begins in the bytes of the image.
fn start_of(number: u32) -> usize {
    (data_block(number) as usize).saturating_mul(1_024)
}

/// Where the pointer to block `index` of the file stands.
fn pointer_of(index: u32) -> usize {
    let (start, place) = if index < 12 {
        (2_696, index)
    } else if index < 268 {
        (start_of(1), index - 12)
    } else {
        (start_of(3 + (index - 268) / 256), (index - 268) % 256)
    };
    start.saturating_add(4 * place as usize)
}

/// Marks a data block, and points to it from here.
fn point_to(bytes: &mut [u8], at: usize, number: u32) {
    put(bytes, at, &data_block(number).to_le_bytes());
    let maps = ((number / 4_093) as usize)
        .saturating_mul(4_096 * 1_024)
        .saturating_add(1_024 + 160);
    let bit = number % 4_093;
    if let Some(byte) = bytes.get_mut(maps.saturating_add((bit / 8) as usize)) {
        *byte |= 1 << (bit % 8);
    }
}

/// The bytes of an image of version 2 whose file 5 has so many blocks and the tables that come with them.
fn full_file(alloc: Global, groups: u32, blocks: u32) -> Result<Vec<u8>, Refusal> {
    let geometry = Geometry::new(groups, 4_096, 16)?.with_version(DOUBLE)?;
    let puts: [Put; 4] = [MARKED, NAMED, (2_688, b"\x01\0\x01\0"), (1_184, b"\x01")];
    let mut bytes = changed_bytes(alloc, &geometry, &puts)?;
    for index in 0..blocks {
        let number = index.saturating_add(259);
        point_to(bytes.as_mut_slice(), pointer_of(index), number);
    }
    if blocks > 12 {
        point_to(bytes.as_mut_slice(), 2_744, 1);
    }
    if blocks > 268 {
        point_to(bytes.as_mut_slice(), 2_748, 2);
        for table in 0..(blocks - 268).div_ceil(256) {
            let at = start_of(2).saturating_add(4 * table as usize);
            point_to(bytes.as_mut_slice(), at, table.saturating_add(3));
        }
    }
    Ok(bytes)
}

/// How many groups an image has, for how many blocks file 5 is made, and the findings where the file has one block fewer.
const FULL: &[(u32, u32, &str)] = &[
    (1, 268, "lost block 530\n"),
    (1, 269, "lost block 6\nlost block 7\nlost block 531\n"),
    (1, 524, "lost block 786\n"),
    (1, 525, "lost block 8\nlost block 787\n"),
    (17, 65_804, "lost block 66114\n"),
];

/// Expects nothing on an image whose file has the blocks that it was made for, and these findings where it has one block fewer.
fn expect_of_file<R: Threads + AllocGlobal + Abort + Sync>(
    rt: &R,
    example: &(u32, u32, &str),
) -> Result<(), Refusal> {
    let (groups, made, wanted) = *example;
    let mut bytes = full_file(rt.alloc(), groups, made)?;
    for (blocks, wanted) in [(made, ""), (made.saturating_sub(1), wanted)] {
        let size = blocks.saturating_mul(1_024);
        put(bytes.as_mut_slice(), 2_692, &size.to_le_bytes());
        let lines = found(rt, bytes.as_slice())?;
        same(rt, (made, blocks), lines.as_str(), wanted);
    }
    Ok(())
}

#[test]
fn tables_come_with_the_blocks_of_a_file(rt: HostRuntime) -> Result<(), Fail> {
    for example in FULL {
        expect_of_file(&rt, example)?;
    }
    Ok(())
}

#[test]
fn a_second_level_block_that_stands_twice_is_a_duplicate(rt: HostRuntime) -> Result<(), Fail> {
    let mut bytes = full_file(rt.alloc(), 1, 525)?;
    let size = 525u32 * 1_024;
    put(bytes.as_mut_slice(), 2_692, &size.to_le_bytes());
    put(bytes.as_mut_slice(), start_of(2).saturating_add(4), b"\x07");
    let lines = found(&rt, bytes.as_slice())?;
    let wanted =
        "duplicate 5 position 524 block 531\nduplicate 5 position 65807 block 7\nlost block 8\nlost block 787\n";
    same(&rt, "found", lines.as_str(), wanted);
    Ok(())
}
