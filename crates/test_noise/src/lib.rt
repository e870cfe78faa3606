//! Random numbers from a fixed seed, for tests and trials: two of the same seed give the same ones, on every machine.
#![tactic(auto)]

ghost use Rattle.std.specs.Prelude.{◌≡◌, ◌<◌};

use rand_core::utils::NextWord;
use rand_pcg::Pcg32;

/// Random numbers.
#[derive(Drop)]
pub struct Noise {
    words: Pcg32,
}

impl Noise {
    /// The numbers of this seed.
    pub fn new(seed: u64) -> Noise {
        Noise {
            words: Pcg32::new(seed, 1),
        }
    }

    /// The next word of 32 bits.
    pub fn word(&mut self) -> u32 {
        self.words.next_word()
    }

    /// The next byte.
    pub fn byte(&mut self) -> u8 {
        let [first, ..] = self.word().to_le_bytes();
        first
    }

    /// A number below this one, and 0 below 0.
    pub fn below(&mut self, limit: u32) -> u32
        ensures below { 0 < limit → result < limit }
        ensures none { limit ≡ 0 → result ≡ 0 }
    {
        self.word().checked_rem(limit).unwrap_or(0)
    }

    /// One of these, and the other one where there are none.
    pub fn one_of<T: Copy>(&mut self, choices: &[T], default: T) -> T {
        let count = u32::try_from(choices.len()).unwrap_or(u32::MAX);
        choices
            .get(self.below(count) as usize)
            .copied()
            .unwrap_or(default)
    }

    /// Fills these bytes.
    pub fn fill(&mut self, bytes: &mut [u8]) {
        for chunk in bytes.chunks_mut(4) {
            let word = self.word().to_le_bytes();
            for (to, from) in chunk.iter_mut().zip(word) {
                *to = from;
            }
        }
    }
}
