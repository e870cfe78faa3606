ghost use Rattle.std.specs.Prelude.{◌≡◌, ◌<◌, ◌+◌, ◌/◌, ◌^◌, true, length, replicate, slice_index, IfOk, MatchOption};
ghost use Rattle.marks.specs.Words.{bit, ChangesBit, ClearsBit, IsLeastOfWord, IsFirstWord, NoWord, NoneInWord, IsNextInWord, NoWordFrom, IsNextWord, NoBitFrom, IsNextBit, Tells};

use std::alloc::{AllocError, Global};

/// Words of 0 that have so many bits, or up to 63 more.
pub fn zeroes(alloc: Global, bits: usize) -> Result<Vec<u64>, AllocError>
    requires { bits < 2 ^ 32 }
    ensures { IfOk result (λ words. words.items ≡ replicate ((bits + 63) / 64) 0) }
{
    vec![in alloc; 0; (bits + 63) / 64]
}

/// Whether the bit of this number is set.
pub fn has_bit(words: &[u64], number: usize) -> bool
    requires { number / 64 < length words.now }
    ensures { result ≡ bit words.now number }
{
    words[number / 64] >> (number % 64) & 1 == 1
}

/// Sets the bit of this number.
pub fn set_bit(words: &mut [u64], number: usize)
    requires { number / 64 < length words.old }
    ensures { ChangesBit words.old words.new number true }
{
    words[number / 64] |= 1 << (number % 64);
}

/// Clears the bit of this number. The result is whether its word is 0 now.
pub fn clear_bit(words: &mut [u64], number: usize) -> bool
    requires { number / 64 < length words.old }
    ensures { ClearsBit words.old words.new number result }
{
    let word = words[number / 64] & !(1 << (number % 64));
    words[number / 64] = word;
    word == 0
}

/// The least number whose bit is set in this word, which is not 0.
pub fn least_bit(words: &[u64], word: usize) -> usize
    requires small { word < 2 ^ 32 }
    requires some { 0 < slice_index words.now word }
    ensures { IsLeastOfWord words.now word result }
{
    64 * word + words[word].trailing_zeros() as usize
}

/// The first word that is not 0.
pub fn first_word(words: &[u64]) -> Option<usize>
    ensures { MatchOption result (NoWord words.now) (λ word. IsFirstWord words.now word) }
{
    words.iter().position(|word| *word != 0)
}

/// The least set bit from this one on, in the word that has this one.
pub fn next_in_word(words: &[u64], from: usize) -> Option<usize>
    requires { from < 2 ^ 32 }
    ensures { MatchOption result (NoneInWord words.now from) (λ number. IsNextInWord words.now from number) }
{
    if from / 64 >= words.len() {
        return None;
    }
    let left = words[from / 64] >> (from % 64);
    if left == 0 {
        return None;
    }
    Some(from + left.trailing_zeros() as usize)
}

/// The first word from this one on that is not 0.
pub fn next_word(words: &[u64], from: usize) -> Option<usize>
    ensures { MatchOption result (NoWordFrom words.now from) (λ word. IsNextWord words.now from word) }
{
    for word in from..words.len() {
        if words[word] != 0 {
            return Some(word);
        }
    }
    None
}

/// The least set bit from this one on, by way of all words.
pub fn next_top(tops: &[u64], from: usize) -> Option<usize>
    requires from { from < 2 ^ 32 }
    requires few { length tops.now < 2 ^ 32 }
    ensures { MatchOption result (NoBitFrom tops.now from) (λ number. IsNextBit tops.now from number) }
{
    if let Some(top) = next_in_word(tops, from) {
        return Some(top);
    }
    let word = next_word(tops, from / 64 + 1)?;
    Some(least_bit(tops, word))
}

/// The least set bit from this one on, where the words above tell which words have one.
pub fn next_group(groups: &[u64], tops: &[u64], from: usize) -> Option<usize>
    requires from { from < 2 ^ 32 }
    requires few { length groups.now < 2 ^ 32 }
    requires few_tops { length tops.now < 2 ^ 32 }
    requires tell { Tells tops.now groups.now }
    ensures { MatchOption result (NoBitFrom groups.now from) (λ number. IsNextBit groups.now from number) }
{
    if let Some(group) = next_in_word(groups, from) {
        return Some(group);
    }
    let word = next_top(tops, from / 64 + 1)?;
    Some(least_bit(groups, word))
}

/// And so where there are words above those, too.
pub fn next_number(numbers: &[u64], groups: &[u64], tops: &[u64], from: usize) -> Option<usize>
    requires from { from < 2 ^ 32 }
    requires few { length numbers.now < 2 ^ 32 }
    requires few_groups { length groups.now < 2 ^ 32 }
    requires few_tops { length tops.now < 2 ^ 32 }
    requires groups { Tells groups.now numbers.now }
    requires tops { Tells tops.now groups.now }
    ensures { MatchOption result (NoBitFrom numbers.now from) (λ number. IsNextBit numbers.now from number) }
{
    if let Some(number) = next_in_word(numbers, from) {
        return Some(number);
    }
    let word = next_group(groups, tops, from / 64 + 1)?;
    Some(least_bit(numbers, word))
}
