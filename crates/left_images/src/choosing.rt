//! Which of the loose writes a power cut leaves.
ghost use Rattle.std.specs.Prelude.{◌≡◌, ◌<◌, ◌≤◌, ◌^◌, None, IfOk, IfSome, length};
ghost use Rattle.left_images.specs.Choices.{IsChoice, IsOneOfMany, digits};

use std::alloc::{AllocError, Global};

/// Random choices from a seed: two of the same seed are the same, on every machine. Each is the highest digit of a number of a
/// linear congruential sequence, with the multiplier and the increment of Knuth's MMIX.
#[derive(Drop)]
pub struct Noise {
    state: u64,
}

impl Noise {
    /// The choices of this seed.
    pub fn new(seed: u64) -> Noise {
        Noise { state: seed }
    }

    /// The next choice.
    fn flip(&mut self) -> bool {
        self.state = self
            .state
            .wrapping_mul(6_364_136_223_846_793_005)
            .wrapping_add(1_442_695_040_888_963_407);
        self.state >= 1 << 63
    }

    /// Makes each of these a choice.
    fn fill(&mut self, picks: &mut [bool]) {
        for pick in picks.iter_mut() {
            *pick = self.flip();
        }
    }
}

/// How many ways there are to lose some of so many writes, or none, if they are no more than that.
pub fn ways(loose: usize, most: u32) -> Option<u32>
    ensures some { IfSome result (λ ways. (ways ≡ 2 ^ loose) × (ways ≤ most)) }
    ensures none { result ≡ None → most < 2 ^ loose }
{
    if most == 0 {
        return None;
    }
    let mut ways = 1;
    for at in 0..loose {
        if ways > most / 2 {
            return None;
        }
        ways *= 2;
    }
    Some(ways)
}

/// Which of so many loose writes are left, in the choice of this number. Where there are no more ways than that, each has its
/// number; otherwise none is left, all are, all but one in their order, and then whichever.
pub fn choice(
    alloc: Global,
    loose: usize,
    most: u32,
    number: u32,
    noise: &mut Noise,
) -> Result<Vec<bool>, AllocError>
    ensures { IfOk result (λ picks. IsChoice loose most number picks.items) }
{
    match ways(loose, most) {
        Some(_) => digits(alloc, loose, number),
        None => one_of_many(alloc, loose, number, noise),
    }
}

/// So many digits of a number to the base 2, the lowest first.
fn digits(alloc: Global, count: usize, number: u32) -> Result<Vec<bool>, AllocError>
    ensures { IfOk result (λ picks. picks.items ≡ digits count number) }
{
    let mut picks = Vec::new(alloc);
    let mut rest = number;
    for at in 0..count {
        picks.push(rest % 2 == 1)?;
        rest /= 2;
    }
    Ok(picks)
}

/// None of so many writes, all of them, all but one, or whichever, by the number.
fn one_of_many(
    alloc: Global,
    loose: usize,
    number: u32,
    noise: &mut Noise,
) -> Result<Vec<bool>, AllocError>
    ensures { IfOk result (λ picks. IsOneOfMany loose number picks.items) }
{
    let mut picks = vec![in alloc; number > 0; loose]?;
    if number < 2 {
        return Ok(picks);
    }
    let lost = (number - 2) as usize;
    if lost < loose {
        picks[lost] = false;
        return Ok(picks);
    }
    noise.fill(picks.as_mut_slice());
    Ok(picks)
}
