//! Attributes as they stand in text: the 64 bytes that stand for them in a record, each in two digits of a hexadecimal
//! number, so the least byte of each of the 16 numbers first.
use inode::ATTRIBUTES;
use std::alloc::AllocError;

/// How many digits a number has.
const DIGITS: usize = 8;

/// Writes attributes behind a text.
pub(crate) fn write_attributes(
    text: &mut String,
    attributes: &[u32; ATTRIBUTES],
) -> Result<(), AllocError> {
    for number in attributes {
        let swapped = number.swap_bytes();
        write!(text, "{swapped:08x}")?;
    }
    Ok(())
}

/// The attributes that a word is, if it is 128 digits.
pub fn attributes(word: &[u8]) -> Option<[u32; ATTRIBUTES]> {
    if word.len() != ATTRIBUTES * DIGITS {
        return None;
    }
    let mut attributes = [0; ATTRIBUTES];
    for (place, digits) in word.chunks(DIGITS).enumerate() {
        attributes[place] = number_of(digits)?.swap_bytes();
    }
    Some(attributes)
}

/// The number of these digits, the first of which counts most.
fn number_of(digits: &[u8]) -> Option<u32> {
    let mut number = 0_u32;
    for digit in digits {
        let value = char::from(*digit).to_digit(16)?;
        number = number.wrapping_mul(16).wrapping_add(value);
    }
    Some(number)
}
