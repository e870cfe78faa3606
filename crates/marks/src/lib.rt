//! Marks of the numbers below a bound, of which the least marked one is found at once. The marks are bits of words, and
//! above them stand bits that tell which of the words are not 0, and above these again: so a question looks at one word of
//! each level, and walks through the words of the top level alone, one for each 262,144 numbers.
#![tactic(auto)]

mod words;

ghost use Rattle.std.specs.Prelude.{◌≡◌, ◌<◌, true, false, length, replicate, slice_set, slice_index_or, IfOk, MatchOption};
ghost use Rattle.marks.specs.Marks.{IsLeastMarked, IsNextMarked, NothingMarked, NothingMarkedFrom};

use std::alloc::{AllocError, Global};
use std::marker::Model;
use words::{clear_bit, first_word, has_bit, least_bit, next_number, set_bit, zeroes};

/// Marks of the numbers below a bound: a list that has, for each of them, whether it is marked.
pub struct Marks {
    /// How many numbers there are.
    count: u32,
    /// A bit for each number: whether it is marked.
    numbers: Vec<u64>,
    /// A bit for each word of `numbers`: whether it is not 0.
    groups: Vec<u64>,
    /// A bit for each word of `groups`: whether it is not 0.
    tops: Vec<u64>,
}

/// By hand, so that who drops it goes one step and not one for each field.
impl Drop for Marks {
    fn drop(self) {
        let Marks {
            count: _,
            numbers: _,
            groups: _,
            tops: _,
        } = self;
    }
}

impl Model for Marks {
    ghost use Rattle.std.specs.Prelude.{List, Bool};
    ghost use Rattle.marks.specs.Words.{IsLadder, bits};

    ghost Value = { List Bool };

    ghost view = { λ m. bits m.numbers.items m.count };

    ghost invariant = { λ m. IsLadder m.count m.numbers.items m.groups.items m.tops.items };
}

impl Marks {
    /// Marks of so many numbers, of which none is marked. Takes memory once, an eighth of a byte for each number and
    /// little more.
    pub fn new(alloc: Global, count: u32) -> Result<Marks, AllocError>
        ensures { IfOk result (λ marks. marks ≡ replicate count false) }
    {
        let numbers = zeroes(alloc, count as usize)?;
        let groups = zeroes(alloc, numbers.len())?;
        let tops = zeroes(alloc, groups.len())?;
        Ok(Marks {
            count,
            numbers,
            groups,
            tops,
        })
    }

    /// How many numbers there are: the bound that they are below.
    pub fn count(&self) -> u32
        ensures { result ≡ length self.now }
    {
        self.count
    }

    /// Marks a number. One that is marked already stays so.
    pub fn mark(&mut self, number: u32)
        requires { number < length self.old }
        ensures { self.new ≡ slice_set self.old number true }
    {
        let number = number as usize;
        let group = number / 64;
        set_bit(&mut self.numbers, number);
        set_bit(&mut self.groups, group);
        set_bit(&mut self.tops, group / 64);
    }

    /// Takes the mark of a number away, if it has one.
    pub fn unmark(&mut self, number: u32)
        requires { number < length self.old }
        ensures { self.new ≡ slice_set self.old number false }
    {
        let number = number as usize;
        let group = number / 64;
        if clear_bit(&mut self.numbers, number) && clear_bit(&mut self.groups, group) {
            clear_bit(&mut self.tops, group / 64);
        }
    }

    /// Whether a number is marked.
    pub fn is_marked(&self, number: u32) -> bool
        requires { number < length self.now }
        ensures { result ≡ slice_index_or self.now number false }
    {
        has_bit(&self.numbers, number as usize)
    }

    /// The least marked number, or `None` where no number is marked.
    pub fn least(&self) -> Option<u32>
        ensures { MatchOption result (NothingMarked self.now) (λ number. IsLeastMarked self.now number) }
    {
        let top = first_word(&self.tops)?;
        let group = least_bit(&self.tops, top);
        let word = least_bit(&self.groups, group);
        let number = least_bit(&self.numbers, word);
        Some(number as u32)
    }

    /// The least marked number from this one on, or `None` where none is marked.
    pub fn next(&self, from: u32) -> Option<u32>
        ensures { MatchOption result (NothingMarkedFrom self.now from) (λ number. IsNextMarked self.now from number) }
    {
        let number = next_number(&self.numbers, &self.groups, &self.tops, from as usize)?;
        Some(number as u32)
    }
}
