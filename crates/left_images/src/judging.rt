//! What is said of the images that a power cut may leave.
ghost use denote.Param.Send.{IsSync};
ghost use Rattle.std.specs.Prelude.{◌≡◌, ℕ, List, IfOk, length};
ghost use Rattle.device.specs.Cached.{held_by};
ghost use Rattle.device.specs.Writes.{image_after};
ghost use Rattle.findings.specs.declared.verdicts.Verdict.{Verdict};
ghost use Rattle.left_images.specs.Judged.{AreCuts, IsCut, worse};

use crate::choosing::{Noise, choice, ways};
use device::{CacheDevice, MemDevice, Step};
use findings::Verdict;
use layout::Refusal;
use std::alloc::Global;
use std::thread::Threads;

/// Who judges images.
pub trait Judge {
    /// What is said of an image.
    ghost tells: { List (List ℕ) → Verdict → Type 0 };

    /// Judges the image that a device in memory has. (That the bound `Sync` holds is said once more, for proofs.)
    fn judge<R: Threads + Sync>(&mut self, rt: &R, device: MemDevice) -> Result<Verdict, Refusal>
        requires { IsSync R.row }
        ensures { IfOk result (λ verdict. tells (image_after device.first device.writes) verdict) };
}

/// What a power cut may leave at a moment.
#[derive(Clone, Copy, Debug, PartialEq, Eq)]
pub struct Cut {
    /// How many writes were loose.
    pub loose: usize,
    /// How many of the images that it may leave were judged.
    pub images: u32,
    /// The worst that was said of one.
    pub worst: Verdict,
}

/// What a power cut may leave of a device at each moment: before its first step, and after each. All images are judged where
/// there are no more than that; otherwise so many, some of them chosen by the seed.
pub fn cuts<R: Threads + Sync, J: Judge>(
    rt: &R,
    alloc: Global,
    device: &CacheDevice,
    most: u32,
    seed: u64,
    judge: &mut J,
) -> Result<Vec<Cut>, Refusal>
    ensures { IfOk result (λ cuts. AreCuts J.tells device.entry.now most cuts.items) }
{
    let mut noise = Noise::new(seed);
    let mut cuts = Vec::new(alloc);
    cuts.push(cut_at(rt, alloc, device, 0, most, &mut noise, judge)?)?;
    for (at, _step) in device.steps().iter().enumerate() {
        cuts.push(cut_at(rt, alloc, device, at + 1, most, &mut noise, judge)?)?;
    }
    Ok(cuts)
}

/// What a power cut may leave after so many steps.
fn cut_at<R: Threads + Sync, J: Judge>(
    rt: &R,
    alloc: Global,
    device: &CacheDevice,
    steps: usize,
    most: u32,
    noise: &mut Noise,
    judge: &mut J,
) -> Result<Cut, Refusal>
    ensures { IfOk result (λ cut. IsCut J.tells device.entry.now steps most cut) }
{
    let loose = loose_after(device.steps().get(..steps).ok_or(Refusal::BadIndex)?);
    let images = ways(loose, most).unwrap_or(most);
    let mut worst = Verdict::Clean;
    for number in 0..images {
        let picks = choice(alloc, loose, most, number, noise)?;
        let left = device.left(alloc, steps, picks.as_slice())?;
        worst = worse(worst, judge.judge(rt, left)?);
    }
    Ok(Cut {
        loose,
        images,
        worst,
    })
}

/// How many writes there are behind the last sync.
fn loose_after(steps: &[Step]) -> usize
    ensures { (first : List (List ℕ)) → length (held_by first steps.now).now.loose ≡ result }
{
    let mut loose = 0;
    for (at, step) in steps.iter().enumerate() {
        match step {
            Step::Synced => loose = 0,
            Step::Wrote(..) => loose += 1,
        }
    }
    loose
}

/// The worse of two.
fn worse(first: Verdict, second: Verdict) -> Verdict
    ensures { result ≡ worse first second }
{
    match (first, second) {
        (Verdict::Damaged, _) | (_, Verdict::Damaged) => Verdict::Damaged,
        (Verdict::Soft, _) | (_, Verdict::Soft) => Verdict::Soft,
        _ => Verdict::Clean,
    }
}
