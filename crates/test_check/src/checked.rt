use crate::expect::same;
use device::Byte;
use findings::{Finding, Repair, Verdict};
use frozen::Frozen;
use fsck::{Checked, check, check_one};
use layout::{Geometry, Refusal};
use std::alloc::{AllocError, Global};
use std::process::Abort;
use std::sync::Arc;
use std::sync::atomic::{AtomicU64, Ordering};
use std::test::Fail;
use std::thread;
use std::thread::Threads;
use std::time::{Clock, Duration};
use test_images::frozen_with;
use workers::{Gate, OpenGate, Workers};

/// Blocks 9 and 10 are marked, and number 5.
const MARKED: &[Byte] = &[(1, 160, 0x61), (1, 32, 0x24)];

/// Number 2 is not marked, but number 5.
const ROOT_UNMARKED: &[Byte] = &[(1, 32, 0x20)];

/// What is kept of an image of so many groups of 16 blocks and 16 inodes, fresh but for these bytes.
fn image_of(alloc: Global, groups: u32, bytes: &[Byte]) -> Result<Arc<Frozen>, Refusal> {
    let geometry = Geometry::new(groups, 16, 16)?;
    Ok(Arc::new(alloc, frozen_with(alloc, &geometry, bytes)?)?)
}

/// The report of a fresh image.
const CLEAN: &str =
    "phase 1 blocks and sizes\nphase 2 names\nphase 3 connectivity\nphase 4 reference counts\nphase 5 maps\nfindings 0\nrepairs 0\nverdict clean\n";

/// That of one whose blocks 9 and 10 are marked, and number 5.
const SOFT: &str =
    "phase 1 blocks and sizes\nphase 2 names\nphase 3 connectivity\nphase 4 reference counts\nphase 5 maps\n  lost block 9\n  lost block 10\n  lost number 5\nfindings 3\nrepairs 3\nverdict soft\n";

/// And that of one whose number 2 is not marked, but number 5.
const DAMAGED: &str =
    "phase 1 blocks and sizes\nphase 2 names\nphase 3 connectivity\nphase 4 reference counts\nphase 5 maps\n  lost number 5\n  unmarked inode 2\nfindings 2\nrepairs 0\nverdict damaged\n";

/// What a check has to say.
#[derive(Clone, Copy)]
struct Wanted {
    findings: &'static [Finding],
    report: &'static str,
    verdict: Verdict,
    repairs: &'static [Repair],
}

/// Expects this of the check of an image of one group that is fresh but for these bytes.
fn expect_check<R: Threads + AllocGlobal + Abort + Sync>(
    rt: &R,
    bytes: &[Byte],
    wanted: &Wanted,
) -> Result<(), Refusal> {
    let frozen = image_of(rt.alloc(), 1, bytes)?;
    let checked = check_one(rt, rt.alloc(), &frozen)?;
    same(rt, "blocks", checked.frozen().geometry().blocks(), 17);
    same(rt, "findings", checked.findings(), wanted.findings);
    same(rt, "report", checked.report(), wanted.report.as_bytes());
    same(rt, "verdict", checked.verdict(), wanted.verdict);
    same(rt, "repairs", checked.repairs(), wanted.repairs);
    Ok(())
}

#[test]
fn a_fresh_image_is_clean(rt: HostRuntime) -> Result<(), Fail> {
    let wanted = Wanted {
        findings: &[],
        report: CLEAN,
        verdict: Verdict::Clean,
        repairs: &[],
    };
    expect_check(&rt, &[], &wanted)?;
    Ok(())
}

#[test]
fn marked_blocks_and_numbers_have_repairs(rt: HostRuntime) -> Result<(), Fail> {
    let wanted = Wanted {
        findings: &[
            Finding::LostBlock(9),
            Finding::LostBlock(10),
            Finding::LostNumber(5),
        ],
        report: SOFT,
        verdict: Verdict::Soft,
        repairs: &[
            Repair::FreeBlock(9),
            Repair::FreeBlock(10),
            Repair::FreeNumber(5),
        ],
    };
    expect_check(&rt, MARKED, &wanted)?;
    Ok(())
}

#[test]
fn a_damaged_image_has_no_repairs(rt: HostRuntime) -> Result<(), Fail> {
    let wanted = Wanted {
        findings: &[Finding::LostNumber(5), Finding::UnmarkedInode(2)],
        report: DAMAGED,
        verdict: Verdict::Damaged,
        repairs: &[],
    };
    expect_check(&rt, ROOT_UNMARKED, &wanted)?;
    Ok(())
}

/// Expects so many workers to find what one finds.
fn expect_same<R: Threads + AllocGlobal + Abort + Sync>(
    rt: &R,
    frozen: &Arc<Frozen>,
    workers: Workers,
    wanted: &Checked,
) -> Result<(), Refusal> {
    let checked = check(rt, rt.alloc(), frozen, workers, &OpenGate)?;
    same(rt, workers, checked.findings(), wanted.findings());
    same(rt, workers, checked.report(), wanted.report());
    same(rt, workers, checked.verdict(), wanted.verdict());
    same(rt, workers, checked.repairs(), wanted.repairs());
    Ok(())
}

#[test]
fn one_to_64_workers_check(rt: HostRuntime) -> Result<(), Fail> {
    let frozen = image_of(rt.alloc(), 5, MARKED)?;
    let wanted = check_one(&rt, rt.alloc(), &frozen)?;
    same(&rt, 1, wanted.verdict(), Verdict::Soft);
    for count in [1, 2, 3, 4, 5, 6, 64] {
        expect_same(&rt, &frozen, Workers::new(count)?, &wanted)?;
    }
    Ok(())
}

/// How often the first and the second group came to the gate in a phase, and how many of them saw both there.
#[derive(Drop)]
struct Place {
    first: AtomicU64,
    second: AtomicU64,
    met: AtomicU64,
}

/// How often each phase goes over the groups.
const PASSES: [u64; 5] = [2, 1, 1, 2, 1];

/// The places of five phases, to which nobody came.
fn five_places(alloc: Global) -> Result<Vec<Place>, AllocError> {
    let mut places = Vec::new(alloc);
    for _phase in 0..5 {
        places.push(Place {
            first: AtomicU64::new(0),
            second: AtomicU64::new(0),
            met: AtomicU64::new(0),
        })?;
    }
    Ok(places)
}

/// A gate that holds the first pass of each of two groups in a phase until both came to it in that phase, for at most
/// ten thousand turns of a millisecond.
#[derive(Drop)]
struct Meeting<'a, R> {
    clock: &'a R,
    places: &'a [Place],
}

impl<R: Clock + Sync> Gate for Meeting<'_, R> {
    fn pass(&self, phase: u8, unit: u32) {
        let Some(place) = self.places.get(usize::from(phase).wrapping_sub(1)) else {
            return;
        };
        let mine = if unit == 0 {
            &place.first
        } else {
            &place.second
        };
        if mine.fetch_add(1, Ordering::SeqCst) > 0 {
            return;
        }
        for _turn in 0..10_000 {
            if place.first.load(Ordering::SeqCst) > 0 && place.second.load(Ordering::SeqCst) > 0 {
                place.met.fetch_add(1, Ordering::SeqCst);
                return;
            }
            thread::sleep(self.clock, Duration::from_millis(1));
        }
    }
}

/// Expects both workers to have met in each phase.
fn expect_met(rt: &impl Abort, places: &[Place]) {
    for (place, passes) in places.iter().zip(PASSES) {
        same(rt, "first", place.first.load(Ordering::SeqCst), passes);
        same(rt, "second", place.second.load(Ordering::SeqCst), passes);
        same(rt, "met", place.met.load(Ordering::SeqCst), 2);
    }
}

/// The check of a fresh image of two groups by two workers, who meet at these places.
fn checked_by_two<R: Threads + AllocGlobal + Clock + Sync>(
    rt: &R,
    places: &[Place],
) -> Result<Checked, Refusal> {
    let frozen = image_of(rt.alloc(), 2, &[])?;
    let gate = Meeting { clock: rt, places };
    check(rt, rt.alloc(), &frozen, Workers::new(2)?, &gate)
}

#[test]
fn two_workers_are_at_work_at_once_in_each_phase(rt: HostRuntime) -> Result<(), Fail> {
    let places = five_places(rt.alloc())?;
    let checked = checked_by_two(&rt, places.as_slice())?;
    expect_met(&rt, places.as_slice());
    same(&rt, "report", checked.report(), CLEAN.as_bytes());
    Ok(())
}
