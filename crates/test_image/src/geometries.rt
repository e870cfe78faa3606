use crate::expect::{holds, same};
use layout::{
    BLOCK_BYTES, Block, DataPlace, Geometry, InodePlace, Refusal, fresh_block, read_super, u32_at,
};
use std::process::Abort;
use std::test::Fail;

/// Refusals, and how they print.
const REFUSALS: &[(Refusal, &str)] = &[
    (Refusal::NoMemory, "1 NoMemory"),
    (Refusal::Device, "2 Device"),
    (Refusal::BadLength, "3 BadLength"),
    (Refusal::BadSuper, "4 BadSuper"),
    (Refusal::BadGroup(0), "5 BadGroup 0"),
    (Refusal::BadGroup(63), "5 BadGroup 63"),
    (Refusal::BadWorkers, "6 BadWorkers"),
    (Refusal::NotFound, "7 NotFound"),
    (Refusal::Exists, "8 Exists"),
    (Refusal::NotDirectory, "9 NotDirectory"),
    (Refusal::IsDirectory, "10 IsDirectory"),
    (Refusal::NotEmpty, "11 NotEmpty"),
    (Refusal::BadName, "12 BadName"),
    (Refusal::NoInode, "13 NoInode"),
    (Refusal::NoBlock, "14 NoBlock"),
    (Refusal::TooManyLinks, "15 TooManyLinks"),
    (Refusal::TooBig, "16 TooBig"),
    (Refusal::BadHandle, "17 BadHandle"),
    (Refusal::BadIndex, "18 BadIndex"),
    (Refusal::BadPiece, "19 BadPiece"),
    (Refusal::SnapshotStands, "20 SnapshotStands"),
    (Refusal::NoSnapshot, "21 NoSnapshot"),
    (Refusal::ForeignPlan, "22 ForeignPlan"),
    (Refusal::AlreadyDone, "23 AlreadyDone"),
    (Refusal::Damaged, "24 Damaged"),
    (Refusal::PlanNotSoft, "25 PlanNotSoft"),
    (Refusal::PlanStands, "26 PlanStands"),
    (Refusal::TraceFull, "27 TraceFull"),
    (Refusal::NoPlan, "28 NoPlan"),
    (Refusal::BadGeometry, "29 BadGeometry"),
    (Refusal::IsRoot, "30 IsRoot"),
    (Refusal::TooManySnapshots, "31 TooManySnapshots"),
    (Refusal::TooManyOpen, "32 TooManyOpen"),
];

#[test]
fn refusals_print_their_number_and_name(rt: HostRuntime) -> Result<(), Fail> {
    for (refusal, text) in REFUSALS {
        let printed = refusal.to_string(rt.alloc())?;
        same(&rt, *refusal, printed.as_str(), *text);
    }
    Ok(())
}

/// How many groups a volume has, and how many blocks and inodes each of them, and why there is none.
const GEOMETRIES: &[(u32, u32, u32, Option<Refusal>)] = &[
    (0, 16, 16, Some(Refusal::BadGeometry)),
    (65, 16, 16, Some(Refusal::BadGeometry)),
    (1, 4097, 16, Some(Refusal::BadGeometry)),
    (1, 16, 12, Some(Refusal::BadGeometry)),
    (1, 8, 56, Some(Refusal::BadGeometry)),
    (1, 8, 8, None),
    (64, 4096, 1024, None),
];

#[test]
fn geometries_are_told_apart(rt: HostRuntime) {
    for (groups, blocks, inodes, refused) in GEOMETRIES {
        let made = Geometry::new(*groups, *blocks, *inodes);
        same(&rt, (*groups, *blocks, *inodes), made.err(), *refused);
    }
}

/// Versions of the layout, and why there is none.
const VERSIONS: &[(u32, Option<Refusal>)] = &[
    (0, Some(Refusal::BadSuper)),
    (1, None),
    (2, None),
    (3, Some(Refusal::BadSuper)),
    (u32::MAX, Some(Refusal::BadSuper)),
];

#[test]
fn versions_are_told_apart(rt: HostRuntime) -> Result<(), Fail> {
    let geometry = Geometry::new(1, 16, 16)?;
    same(&rt, "of a new geometry", geometry.version(), 1);
    for (version, refused) in VERSIONS {
        let made = geometry.with_version(*version);
        same(&rt, *version, made.err(), *refused);
    }
    Ok(())
}

/// For each version, how many blocks a file has, and the position behind its last table.
const TABLES: &[(u32, u32, u32)] = &[
    (1, 0, 268),
    (1, 12, 268),
    (1, 13, 269),
    (1, 268, 269),
    (2, 0, 65_804),
    (2, 12, 65_804),
    (2, 13, 65_805),
    (2, 268, 65_805),
    (2, 269, 65_807),
    (2, 524, 65_807),
    (2, 525, 65_808),
    (2, 65_804, 66_062),
];

#[test]
fn files_have_so_many_tables(rt: HostRuntime) -> Result<(), Fail> {
    for (version, blocks, end) in TABLES {
        let geometry = Geometry::new(1, 16, 16)?.with_version(*version)?;
        let most = geometry.most_blocks();
        if *blocks <= most {
            same(&rt, (*version, *blocks), geometry.tables_end(*blocks), *end);
        }
        holds(
            &rt,
            (*version, *blocks),
            *end == most || geometry.reaches(*blocks, *end - 1),
        );
        holds(&rt, (*version, *blocks), !geometry.reaches(*blocks, *end));
    }
    Ok(())
}

/// For each version, a position, and the table and the place there that hold its pointer, if a table does.
const POINTERS: &[(u32, u32, Option<(u32, usize)>)] = &[
    (1, 11, None),
    (1, 12, Some((268, 0))),
    (1, 267, Some((268, 255))),
    (1, 268, None),
    (2, 11, None),
    (2, 12, Some((65_804, 0))),
    (2, 267, Some((65_804, 255))),
    (2, 268, Some((65_806, 0))),
    (2, 523, Some((65_806, 255))),
    (2, 524, Some((65_807, 0))),
    (2, 65_803, Some((66_061, 255))),
    (2, 65_804, None),
    (2, 65_805, None),
    (2, 65_806, Some((65_805, 0))),
    (2, 66_061, Some((65_805, 255))),
];

#[test]
fn pointers_stand_in_tables(rt: HostRuntime) -> Result<(), Fail> {
    for (version, position, wanted) in POINTERS {
        let geometry = Geometry::new(1, 16, 16)?.with_version(*version)?;
        if geometry.reaches(geometry.most_blocks(), *position) {
            let found = geometry.pointer_place(*position);
            same(
                &rt,
                (*version, *position),
                found.map(|place| (place.table, place.place)),
                *wanted,
            );
        } else {
            holds(&rt, (*version, *position), false);
        }
    }
    Ok(())
}

/// Numbers of a volume of 1 group, 16 blocks and 16 inodes.
#[test]
fn a_small_volume_has_its_numbers(rt: HostRuntime) -> Result<(), Fail> {
    let geometry = Geometry::new(1, 16, 16)?;
    same(&rt, "groups", geometry.groups(), 1);
    same(&rt, "blocks a group", geometry.blocks_a_group(), 16);
    same(&rt, "inodes a group", geometry.inodes_a_group(), 16);
    same(&rt, "blocks", geometry.blocks(), 17);
    same(&rt, "inodes", geometry.inodes(), 16);
    same(&rt, "header", geometry.header_blocks(), 3);
    same(&rt, "maps", geometry.group_block(0), 1);
    same(&rt, "data", geometry.data_start(0), 4);
    Ok(())
}

/// Everything has its place on a volume of 1 group, 16 blocks and 16 inodes.
#[test]
fn a_small_volume_has_its_places(rt: HostRuntime) -> Result<(), Fail> {
    let geometry = Geometry::new(1, 16, 16)?;
    for bit in 0..13 {
        let place = Some(DataPlace { group: 0, bit });
        same(&rt, bit, geometry.data_address(0, bit), 4 + bit);
        same(&rt, bit, geometry.place_of(4 + bit), place);
    }
    for address in [0, 1, 2, 3, 17] {
        same(&rt, address, geometry.place_of(address), None);
    }
    Ok(())
}

/// Inodes have their places on such a volume.
#[test]
fn a_small_volume_has_its_inodes(rt: HostRuntime) -> Result<(), Fail> {
    let geometry = Geometry::new(1, 16, 16)?;
    for (number, address, byte) in [(0, 2, 0), (2, 2, 256), (5, 2, 640), (8, 3, 0), (15, 3, 896)] {
        let place = InodePlace { address, byte };
        same(&rt, number, geometry.inode_place(number), place);
        same(&rt, number, geometry.group_of(number), 0);
    }
    Ok(())
}

/// Expects these bytes in the block of this address on the fresh volume of 1 group, 16 blocks and 16 inodes, over bytes
/// that stood there.
fn expect_fresh(rt: &impl Abort, address: u32, wanted: &Block) -> Result<(), Refusal> {
    let geometry = Geometry::new(1, 16, 16)?;
    if address >= geometry.blocks() {
        return Err(Refusal::BadIndex);
    }
    let mut block = [0xee; BLOCK_BYTES];
    fresh_block(&geometry, address, &mut block);
    holds(rt, address, block == *wanted);
    Ok(())
}

#[test]
fn a_small_fresh_volume_has_its_frame(rt: HostRuntime) -> Result<(), Fail> {
    let mut superblock = [0; BLOCK_BYTES];
    superblock[..20].copy_from_slice(&[
        0x31, 0x56, 0x55, 0x53, 1, 0, 0, 0, 1, 0, 0, 0, 0x10, 0, 0, 0, 0x10, 0, 0, 0,
    ]);
    expect_fresh(&rt, 0, &superblock)?;
    same(
        &rt,
        "read",
        read_super(&superblock),
        Geometry::new(1, 16, 16),
    );
    same(&rt, "magic", u32_at(&superblock, 0), 0x5355_5631);
    superblock[4] = 2;
    same(
        &rt,
        "read in version 2",
        read_super(&superblock),
        Geometry::new(1, 16, 16)?.with_version(2),
    );
    for version in [0, 3, 255] {
        superblock[4] = version;
        let refused = Err(Refusal::BadSuper);
        same(&rt, version, read_super(&superblock), refused);
    }

    let mut maps = [0; BLOCK_BYTES];
    maps[..4].copy_from_slice(&[0x47, 0x43, 0x55, 0x53]);
    maps[32] = 4;
    maps[160] = 1;
    expect_fresh(&rt, 1, &maps)?;
    Ok(())
}

#[test]
fn a_small_fresh_volume_has_its_root(rt: HostRuntime) -> Result<(), Fail> {
    let zero = [0; BLOCK_BYTES];
    let mut inodes = zero;
    inodes[256..268].copy_from_slice(&[2, 0, 2, 0, 0, 4, 0, 0, 4, 0, 0, 0]);
    expect_fresh(&rt, 2, &inodes)?;

    let mut slots = zero;
    slots[..9].copy_from_slice(&[2, 0, 0, 0, 1, 0, 0, 0, 0x2e]);
    slots[64..74].copy_from_slice(&[2, 0, 0, 0, 2, 0, 0, 0, 0x2e, 0x2e]);
    expect_fresh(&rt, 4, &slots)?;

    for address in [3, 5, 16] {
        expect_fresh(&rt, address, &zero)?;
    }
    Ok(())
}
