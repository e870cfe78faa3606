//! Images with random bytes behind a good frame: whatever they are, they are checked, and by every number of workers alike.
use crate::expect::holds;
use crate::image::{checked_by, fresh_bytes, put};
use findings::Verdict;
use fsck::Checked;
use layout::{DOUBLE, Geometry, Refusal, SINGLE};
use rules::obeys;
use std::alloc::Global;
use std::process::Abort;
use std::test::Fail;
use std::thread::Threads;
use test_noise::Noise;
use workers::Workers;

/// The geometries that they have in turn.
const GEOMETRIES: &[[u32; 3]] = &[
    [1, 16, 16],
    [2, 16, 16],
    [3, 8, 8],
    [1, 64, 128],
    [4, 24, 32],
];

/// One of the geometries, in one of the versions.
fn some_geometry(noise: &mut Noise) -> Result<Geometry, Refusal> {
    let [groups, blocks, inodes] = noise.one_of(GEOMETRIES, [1, 16, 16]);
    let version = noise.one_of(&[SINGLE, DOUBLE], SINGLE);
    Geometry::new(groups, blocks, inodes)?.with_version(version)
}

/// Random bytes, but for the frame.
fn random_bytes(alloc: Global, noise: &mut Noise) -> Result<Vec<u8>, Refusal> {
    let geometry = some_geometry(noise)?;
    let fresh = fresh_bytes(alloc, &geometry)?;
    let mut bytes = fresh.clone()?;
    noise.fill(bytes.as_mut_slice());
    restore_frame(bytes.as_mut_slice(), fresh.as_slice(), &geometry);
    Ok(bytes)
}

/// Gives the numbers of a fresh superblock and the heads of the groups back.
fn restore_frame(bytes: &mut [u8], fresh: &[u8], geometry: &Geometry) {
    restore(bytes, fresh, 0, 20);
    for group in 0..geometry.groups() {
        restore(bytes, fresh, byte_of(geometry.group_block(group)), 8);
    }
}

/// The byte of an image where a block begins.
fn byte_of(block: u32) -> usize {
    block as usize * 1024
}

/// Gives this many bytes of a fresh image back, from this one on.
fn restore(bytes: &mut [u8], fresh: &[u8], at: usize, count: usize) {
    if let Some(values) = fresh.get(at..at.saturating_add(count)) {
        put(bytes, at, values);
    }
}

/// A fresh image with random records, slots and marks, which are near to good ones.
fn near_bytes(alloc: Global, noise: &mut Noise) -> Result<Vec<u8>, Refusal> {
    let geometry = some_geometry(noise)?;
    let fresh = fresh_bytes(alloc, &geometry)?;
    let mut bytes = fresh.clone()?;
    let changes = noise.one_of(&[2u32, 5, 20, 120], 5);
    for _change in 0..noise.below(changes) {
        match noise.below(8) {
            0..=2 => put_record(bytes.as_mut_slice(), &geometry, noise),
            3..=5 => put_slot(bytes.as_mut_slice(), &geometry, noise),
            6 => put_pointer(bytes.as_mut_slice(), &geometry, noise),
            _ => put_marks(bytes.as_mut_slice(), &geometry, noise),
        }
    }
    restore_frame(bytes.as_mut_slice(), fresh.as_slice(), &geometry);
    Ok(bytes)
}

/// A number that is below this one or not far from it.
fn near(noise: &mut Noise, limit: u32) -> u32 {
    match noise.below(16) {
        0 => noise.word(),
        1 => limit,
        2 => 0,
        _ => noise.below(limit),
    }
}

/// How many blocks an inode of this mode says that it has. The largest files are few, and no directory has as many: a check walks
/// over each position of a file, and over each slot of a directory.
fn some_blocks(noise: &mut Noise, mode: u16) -> u32 {
    if mode == 1 && noise.below(32) == 0 {
        return noise.one_of(&[65_804, 65_805], 65_804);
    }
    noise.one_of(&[0u32, 1, 1, 1, 2, 3, 12, 13, 14, 268, 269, 524, 525], 1)
}

/// Gives an inode a random record.
fn put_record(bytes: &mut [u8], geometry: &Geometry, noise: &mut Noise) {
    let number = noise.below(geometry.inodes());
    if number >= geometry.inodes() {
        return;
    }
    let place = geometry.inode_place(number);
    let at = byte_of(place.address).saturating_add(place.byte);
    let mode = noise.one_of(&[0u16, 1, 1, 1, 2, 2, 2, 2, 3], 1);
    let links = noise.one_of(&[0u16, 1, 1, 2, 2, 3, 32_767, 65_535], 1);
    let blocks = some_blocks(noise, mode);
    let odd = noise.one_of(&[0u32, 0, 0, 1, 1_023], 0);
    put(bytes, at, &mode.to_le_bytes());
    put(bytes, at.saturating_add(2), &links.to_le_bytes());
    put(
        bytes,
        at.saturating_add(4),
        &blocks
            .saturating_mul(1024)
            .saturating_add(odd)
            .to_le_bytes(),
    );
    for pointer in 0..14usize {
        let address = near(noise, geometry.blocks());
        put(
            bytes,
            at.saturating_add(8 + 4 * pointer),
            &address.to_le_bytes(),
        );
    }
}

/// Puts a random entry into a slot of a block, dots among them.
fn put_slot(bytes: &mut [u8], geometry: &Geometry, noise: &mut Noise) {
    let block = near(noise, geometry.blocks());
    let slot = noise.one_of(&[0usize, 0, 1, 1, 2, 2, 2, 3, 3, 4, 5, 15], 2);
    let at = byte_of(block).saturating_add(slot.saturating_mul(64));
    let number = near(noise, geometry.inodes());
    let name = match (slot, noise.below(8)) {
        (0, 1..) => b".".as_slice(),
        (1, 1..) => b"..",
        (_, 0) => b"/",
        (_, 1) => b".",
        (_, 2..=3) => b"a",
        (_, _) => b"bc",
    };
    put(bytes, at, &number.to_le_bytes());
    put(
        bytes,
        at.saturating_add(4),
        &[noise.one_of(&[1u8, 1, 1, 2, 2, 56, 57, 0, 255], 1)],
    );
    put(bytes, at.saturating_add(8), name);
}

/// Puts a random pointer anywhere into a block.
fn put_pointer(bytes: &mut [u8], geometry: &Geometry, noise: &mut Noise) {
    let block = noise.below(geometry.blocks());
    let at = byte_of(block).saturating_add(4 * noise.below(256) as usize);
    put(bytes, at, &near(noise, geometry.blocks()).to_le_bytes());
}

/// Marks random numbers and blocks of a group.
fn put_marks(bytes: &mut [u8], geometry: &Geometry, noise: &mut Noise) {
    let group = noise.below(geometry.groups());
    if group >= geometry.groups() {
        return;
    }
    let map = byte_of(geometry.group_block(group)).saturating_add(noise.one_of(
        &[32usize, 160],
        32,
    ));
    let place = noise.below(4) as usize;
    put(bytes, map.saturating_add(place), &[noise.byte()]);
}

/// How the checks of an image by 1, 2 and 64 workers came out.
#[derive(Clone, Copy, Debug, PartialEq, Eq)]
enum Checks {
    /// All with the same report and repairs, and with this verdict, which is that of the rules.
    Alike(Verdict),
    /// Not so: what differs.
    Differ(&'static str),
}

/// Checks an image of these bytes by 1, 2 and 64 workers.
fn check_by_all<R: Threads + AllocGlobal + Sync>(rt: &R, bytes: &[u8]) -> Result<Checks, Refusal> {
    let alone = checked_by(rt, bytes, Workers::new(1)?)?;
    for count in [2, 64] {
        if let Some(what) = difference(rt, bytes, Workers::new(count)?, &alone)? {
            return Ok(Checks::Differ(what));
        }
    }
    if agrees_with_rules(rt.alloc(), &alone)? {
        Ok(Checks::Alike(alone.verdict()))
    } else {
        Ok(Checks::Differ("the verdict from the rules'"))
    }
}

/// What differs between a check by this many workers and that by one.
fn difference<R: Threads + AllocGlobal + Sync>(
    rt: &R,
    bytes: &[u8],
    workers: Workers,
    alone: &Checked,
) -> Result<Option<&'static str>, Refusal> {
    let checked = checked_by(rt, bytes, workers)?;
    if checked.report() != alone.report() {
        Ok(Some("the report"))
    } else if checked.repairs() != alone.repairs() {
        Ok(Some("the repairs"))
    } else {
        Ok(None)
    }
}

/// Whether an image is damaged exactly where it breaks a rule, and has repairs only where it is soft.
fn agrees_with_rules(alloc: Global, checked: &Checked) -> Result<bool, Refusal> {
    let broken = obeys(alloc, checked.frozen())?;
    let verdict = checked.verdict();
    let repairs = checked.repairs().len();
    Ok(
        (verdict == Verdict::Damaged) == broken.is_some()
            && (verdict == Verdict::Soft) == (repairs > 0),
    )
}

/// The images of a test.
#[derive(Clone, Copy, PartialEq, Eq)]
enum Kind {
    /// All is random behind the frame.
    Random,
    /// They are near to good ones.
    Near,
}

/// The bytes of the next image of this kind.
fn bytes_of(alloc: Global, noise: &mut Noise, kind: Kind) -> Result<Vec<u8>, Refusal> {
    match kind {
        Kind::Random => random_bytes(alloc, noise),
        Kind::Near => near_bytes(alloc, noise),
    }
}

/// How the checks of the image of this kind and number came out, which is the seed of its bytes.
fn checks_of<R: Threads + AllocGlobal + Sync>(
    rt: &R,
    kind: Kind,
    image: u32,
) -> Result<Checks, Refusal> {
    let mut noise = Noise::new(u64::from(image));
    let bytes = bytes_of(rt.alloc(), &mut noise, kind)?;
    check_by_all(rt, bytes.as_slice())
}

/// Checks the images of this kind from one number to below another one. Counts those that are damaged.
fn damaged_of<R: Threads + AllocGlobal + Abort + Sync>(
    rt: &R,
    kind: Kind,
    first: u32,
    end: u32,
) -> Result<u32, Refusal> {
    let mut damaged = 0u32;
    for image in first..end {
        let checks = checks_of(rt, kind, image)?;
        holds(rt, (image, checks), matches!(checks, Checks::Alike(_)));
        if checks == Checks::Alike(Verdict::Damaged) {
            damaged = damaged.saturating_add(1);
        }
    }
    Ok(damaged)
}

#[test]
fn the_first_50_random_images_are_checked_alike(rt: HostRuntime) -> Result<(), Fail> {
    let damaged = damaged_of(&rt, Kind::Random, 0, 50)?;
    holds(&rt, damaged, damaged > 0);
    Ok(())
}

#[test]
fn the_second_50_random_images_are_checked_alike(rt: HostRuntime) -> Result<(), Fail> {
    let damaged = damaged_of(&rt, Kind::Random, 50, 100)?;
    holds(&rt, damaged, damaged > 0);
    Ok(())
}

#[test]
fn the_third_50_random_images_are_checked_alike(rt: HostRuntime) -> Result<(), Fail> {
    let damaged = damaged_of(&rt, Kind::Random, 100, 150)?;
    holds(&rt, damaged, damaged > 0);
    Ok(())
}

#[test]
fn the_last_50_random_images_are_checked_alike(rt: HostRuntime) -> Result<(), Fail> {
    let damaged = damaged_of(&rt, Kind::Random, 150, 200)?;
    holds(&rt, damaged, damaged > 0);
    Ok(())
}

#[test]
fn the_first_35_images_near_to_good_ones_are_checked_alike(rt: HostRuntime) -> Result<(), Fail> {
    let damaged = damaged_of(&rt, Kind::Near, 200, 235)?;
    holds(&rt, damaged, damaged > 0 && damaged < 35);
    Ok(())
}

#[test]
fn the_last_35_images_near_to_good_ones_are_checked_alike(rt: HostRuntime) -> Result<(), Fail> {
    let damaged = damaged_of(&rt, Kind::Near, 235, 270)?;
    holds(&rt, damaged, damaged > 0 && damaged < 35);
    Ok(())
}
