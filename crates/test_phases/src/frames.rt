//! Images whose frame is broken, and what each is refused with. A small image has one group of 16 blocks and 16 inodes: 17
//! blocks, the superblock is block 0, the group's maps are block 1, and blocks 4 to 16 are data blocks.
use crate::expect::same;
use crate::image::{Put, changed_bytes, checked_by, fresh_bytes, put};
use layout::{BLOCK_BYTES, Geometry, Refusal};
use std::alloc::{AllocError, Global};
use std::process::Abort;
use std::test::Fail;
use std::thread::Threads;
use workers::Workers;

/// How many bytes a small image has.
const SMALL: usize = 17_408;

/// A small image.
fn small() -> Result<Geometry, Refusal> {
    Geometry::new(1, 16, 16)
}

/// The report of a small image of which every block and number is marked: blocks 5 to 16 and numbers 3 to 15 are lost.
fn all_marked_report(alloc: Global) -> Result<String, AllocError> {
    let mut text = String::new(alloc);
    text.push_str(
        "phase 1 blocks and sizes\nphase 2 names\nphase 3 connectivity\nphase 4 reference counts\nphase 5 maps\n",
    )?;
    for block in 5..17 {
        writeln!(text, "  lost block {block}")?;
    }
    for number in 3..16 {
        writeln!(text, "  lost number {number}")?;
    }
    text.push_str("findings 25\nrepairs 25\nverdict soft\n")?;
    Ok(text)
}

/// Expects a check of these bytes to have this report, and 25 findings and repairs.
fn expect_report<R: Threads + AllocGlobal + Abort + Sync>(
    rt: &R,
    bytes: &[u8],
    workers: Workers,
    wanted: &str,
) -> Result<(), Refusal> {
    let checked = checked_by(rt, bytes, workers)?;
    let report = checked.report();
    same(rt, workers, report, wanted.as_bytes());
    same(rt, workers, report.len(), 535);
    same(rt, workers, checked.findings().len(), 25);
    same(rt, workers, checked.repairs().len(), 25);
    Ok(())
}

#[test]
fn an_image_with_all_bits_set_has_25_findings(rt: HostRuntime) -> Result<(), Fail> {
    let marks: &[Put] = &[(1_056, b"\xff\xff"), (1_184, b"\xff\x1f")];
    let bytes = changed_bytes(rt.alloc(), &small()?, marks)?;
    let wanted = all_marked_report(rt.alloc())?;
    for count in [1, 2, 3, 64] {
        expect_report(&rt, bytes.as_slice(), Workers::new(count)?, wanted.as_str())?;
    }
    Ok(())
}

/// Expects an image of these bytes to be refused.
fn expect_refused<R: Threads + AllocGlobal + Abort + Sync>(
    rt: &R,
    name: &str,
    bytes: &[u8],
    workers: Workers,
    wanted: Refusal,
) {
    let refusal = checked_by(rt, bytes, workers).err();
    same(rt, (name, workers), refusal, Some(wanted));
}

/// What a broken frame is refused with.
struct Broken {
    name: &'static str,
    /// What it has in place of a fresh small image's bytes.
    puts: &'static [Put],
    /// How many bytes are left of it, or put to it.
    length: usize,
    refusal: Refusal,
}

const BROKEN: &[Broken] = &[
    Broken {
        name: "the superblock alone",
        puts: &[],
        length: 1_024,
        refusal: Refusal::BadLength,
    },
    Broken {
        name: "a block of zeroes",
        puts: &[(0, &[0; 20])],
        length: 1_024,
        refusal: Refusal::BadSuper,
    },
    Broken {
        name: "no byte",
        puts: &[],
        length: 0,
        refusal: Refusal::BadLength,
    },
    Broken {
        name: "a byte fewer",
        puts: &[],
        length: SMALL - 1,
        refusal: Refusal::BadLength,
    },
    Broken {
        name: "a byte more",
        puts: &[],
        length: SMALL + 1,
        refusal: Refusal::BadLength,
    },
    Broken {
        name: "a block fewer",
        puts: &[],
        length: SMALL - 1_024,
        refusal: Refusal::BadLength,
    },
    Broken {
        name: "a block more",
        puts: &[],
        length: SMALL + 1_024,
        refusal: Refusal::BadLength,
    },
    Broken {
        name: "version 0",
        puts: &[(4, b"\0")],
        length: SMALL,
        refusal: Refusal::BadSuper,
    },
    Broken {
        name: "version 3",
        puts: &[(4, b"\x03")],
        length: SMALL,
        refusal: Refusal::BadSuper,
    },
    Broken {
        name: "another magic",
        puts: &[(3, b"\x54")],
        length: SMALL,
        refusal: Refusal::BadSuper,
    },
    Broken {
        name: "the largest geometry, on 17 blocks",
        puts: &[(8, b"\x40\0\0\0\0\x10\0\0")],
        length: SMALL,
        refusal: Refusal::BadLength,
    },
    Broken {
        name: "two groups, on the blocks of one",
        puts: &[(8, b"\x02")],
        length: SMALL,
        refusal: Refusal::BadLength,
    },
    Broken {
        name: "another magic of the group",
        puts: &[(1_024, b"\0")],
        length: SMALL,
        refusal: Refusal::BadGroup(0),
    },
    Broken {
        name: "another number of the group",
        puts: &[(1_031, b"\x80")],
        length: SMALL,
        refusal: Refusal::BadGroup(0),
    },
    Broken {
        name: "a bad superblock before a bad length",
        puts: &[(0, b"\0")],
        length: SMALL - 1_024,
        refusal: Refusal::BadSuper,
    },
    Broken {
        name: "a bad length before a bad group",
        puts: &[(1_024, b"\0")],
        length: SMALL - 1_024,
        refusal: Refusal::BadLength,
    },
];

/// The bytes of a small image that is broken so.
fn bytes_of(alloc: Global, broken: &Broken) -> Result<Vec<u8>, Refusal> {
    let mut bytes = changed_bytes(alloc, &small()?, broken.puts)?;
    bytes.resize(broken.length, 0)?;
    Ok(bytes)
}

#[test]
fn a_broken_frame_is_refused(rt: HostRuntime) -> Result<(), Fail> {
    for broken in BROKEN {
        let bytes = bytes_of(rt.alloc(), broken)?;
        for count in [1, 3] {
            let workers = Workers::new(count)?;
            expect_refused(&rt, broken.name, bytes.as_slice(), workers, broken.refusal);
        }
    }
    Ok(())
}

#[test]
fn the_least_broken_group_is_named(rt: HostRuntime) -> Result<(), Fail> {
    let geometry = Geometry::new(3, 16, 16)?;
    for (groups, least) in [([0, 1, 2], 0), ([1, 2, 2], 1), ([2, 2, 2], 2)] {
        let mut bytes = fresh_bytes(rt.alloc(), &geometry)?;
        for group in groups {
            put(bytes.as_mut_slice(), 1_024 + 16_384 * group, b"\0");
        }
        let wanted = Refusal::BadGroup(least);
        expect_refused(&rt, "a group", bytes.as_slice(), Workers::new(1)?, wanted);
    }
    Ok(())
}

/// Numbers of groups, blocks a group and inodes a group that no volume has.
const NO_GEOMETRIES: &[[u32; 3]] = &[
    [0, 16, 16],
    [65, 16, 16],
    [1, 4_097, 16],
    [1, 7, 8],
    [1, 16, 12],
    [1, 16, 0],
    [1, 4_096, 1_032],
    [1, 8, 56],
    [4_294_967_295, 16, 16],
    [1, 4_294_967_295, 16],
    [1, 16, 4_294_967_288],
];

/// Those at the limits.
const GEOMETRIES: &[[u32; 3]] = &[
    [64, 8, 8],
    [1, 4_096, 8],
    [1, 4_096, 1_024],
    [1, 8, 48],
    [2, 130, 1_024],
];

/// The bytes that a superblock has for these numbers.
fn numbers_of(geometry: &[u32; 3]) -> [u8; 12] {
    let mut bytes = [0; 12];
    for (to, number) in bytes.chunks_exact_mut(4).zip(geometry) {
        to.copy_from_slice(&number.to_le_bytes());
    }
    bytes
}

/// A small image with these numbers in its superblock.
fn numbered(alloc: Global, numbers: &[u32; 3]) -> Result<Vec<u8>, Refusal> {
    let mut bytes = fresh_bytes(alloc, &small()?)?;
    put(bytes.as_mut_slice(), 8, &numbers_of(numbers));
    Ok(bytes)
}

#[test]
fn numbers_past_a_limit_are_no_geometry(rt: HostRuntime) -> Result<(), Fail> {
    for numbers in NO_GEOMETRIES {
        let [groups, blocks, inodes] = *numbers;
        let refused = Geometry::new(groups, blocks, inodes).err();
        same(&rt, *numbers, refused, Some(Refusal::BadGeometry));
        let bytes = numbered(rt.alloc(), numbers)?;
        expect_refused(
            &rt,
            "no geometry",
            bytes.as_slice(),
            Workers::new(1)?,
            Refusal::BadSuper,
        );
    }
    Ok(())
}

/// Expects a check of these bytes to have a report of 133 bytes.
fn expect_clean<R: Threads + AllocGlobal + Abort + Sync>(
    rt: &R,
    bytes: &[u8],
    workers: Workers,
) -> Result<(), Refusal> {
    let checked = checked_by(rt, bytes, workers)?;
    same(rt, workers, checked.report().len(), 133);
    Ok(())
}

/// Expects an image of these numbers to be clean, and refused without its last block.
fn expect_whole<R: Threads + AllocGlobal + Abort + Sync>(
    rt: &R,
    numbers: &[u32; 3],
) -> Result<(), Refusal> {
    let [groups, blocks, inodes] = *numbers;
    let mut bytes = fresh_bytes(rt.alloc(), &Geometry::new(groups, blocks, inodes)?)?;
    let count = 1 + groups as usize * blocks as usize;
    same(rt, *numbers, bytes.len(), count * BLOCK_BYTES);
    for count in [1, 64] {
        expect_clean(rt, bytes.as_slice(), Workers::new(count)?)?;
    }
    bytes.truncate(bytes.len().saturating_sub(BLOCK_BYTES));
    expect_refused(
        rt,
        "a block fewer",
        bytes.as_slice(),
        Workers::new(1)?,
        Refusal::BadLength,
    );
    Ok(())
}

#[test]
fn numbers_at_a_limit_are_a_geometry(rt: HostRuntime) -> Result<(), Fail> {
    for numbers in GEOMETRIES {
        expect_whole(&rt, numbers)?;
    }
    Ok(())
}
