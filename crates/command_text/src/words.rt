//! The words of a line, and the numbers among them.
ghost use Rattle.std.specs.Prelude.{◌≡◌, ◌≢◌, ◌∷◌, ◌++◌, All, MatchOption};

use std::str::from_utf8;

/// What stands before the first byte of this value, and what comes behind it, if there is one.
pub fn first_part(text: &[u8], end: u8) -> (&[u8], Option<&[u8]>)
    ensures parted { MatchOption result.1 (result.0.now ≡ text.now) (λ behind. text.now ≡ result.0.now ++ end ∷ behind.now) }
    ensures first { All (λ byte. byte ≢ end) result.0.now }
{
    match text.iter().position(|byte| *byte == end) {
        Some(place) => (&text[..place], Some(&text[place + 1..])),
        None => (text, None),
    }
}

/// The first word of a text, and what comes behind the blank that ends it, if a blank does.
pub fn first_word(text: &[u8]) -> (&[u8], Option<&[u8]>) {
    first_part(text, b' ')
}

/// Whether a text is one word: no blank stands in it.
pub fn is_one_word(text: &[u8]) -> bool {
    !text.contains(&b' ')
}

/// The number that a word is in decimal digits, without a sign.
pub fn number(word: &[u8]) -> Option<u32> {
    if !word.iter().all(|byte| byte.is_ascii_digit()) {
        return None;
    }
    from_utf8(word).ok()?.parse::<u32>().ok()
}

/// The two numbers that a text begins with, and what comes behind the blank that ends the second.
pub fn leading_numbers(text: &[u8]) -> Option<(u32, u32, &[u8])> {
    let (first, behind) = first_word(text);
    let (second, behind) = first_word(behind?);
    Some((number(first)?, number(second)?, behind?))
}

/// The two numbers that a text is, with a blank between them.
pub fn two_numbers(text: &[u8]) -> Option<(u32, u32)> {
    let (first, second) = first_word(text);
    Some((number(first)?, number(second?)?))
}

/// The three numbers that a text is, with a blank between any two.
pub fn three_numbers(text: &[u8]) -> Option<(u32, u32, u32)> {
    let (first, second, third) = leading_numbers(text)?;
    Some((first, second, number(third)?))
}
