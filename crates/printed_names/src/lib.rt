//! Names and paths as they stand in text. A byte from 33 to 126 stands as itself, but for `%`; each other one as `%` and two
//! hexadecimal digits. So what is printed of a name is one word, whatever its bytes are, and can be given back.
#![tactic(auto)]

ghost use Rattle.std.specs.Prelude.{◌≡◌, ◌++◌, ◌<◌, IfSome, OnOk};
ghost use Rattle.printed_names.specs.Names.{digit, is_plain, written, written_byte};

use layout::Refusal;
use std::alloc::{AllocError, Global};

/// Writes a name behind a text.
pub fn write_name(text: &mut Vec<u8>, name: &[u8]) -> Result<(), AllocError>
    ensures { OnOk result (text.new.items ≡ text.old.items ++ written name.now) }
{
    for byte in name {
        write_byte(text, *byte)?;
    }
    Ok(())
}

/// Writes a byte of a name behind a text.
fn write_byte(text: &mut Vec<u8>, byte: u8) -> Result<(), AllocError>
    ensures { OnOk result (text.new.items ≡ text.old.items ++ written_byte byte) }
{
    if is_plain(byte) {
        text.push(byte)?;
        return Ok(());
    }
    text.push(b'%')?;
    text.push(digit(byte / 16))?;
    text.push(digit(byte % 16))?;
    Ok(())
}

/// Whether a byte stands as itself.
fn is_plain(byte: u8) -> bool
    ensures { result ≡ is_plain byte }
{
    33 <= byte && byte <= 126 && byte != b'%'
}

/// The hexadecimal digit of a number below 16.
fn digit(value: u8) -> u8
    requires { value < 16 }
    ensures { result ≡ digit value }
{
    if value < 10 {
        b'0' + value
    } else {
        b'a' + (value - 10)
    }
}

/// The path that a word stands for. Refused with `BadName` where a `%` in it is not followed by two hexadecimal digits.
pub fn path_of(alloc: Global, word: &str) -> Result<Vec<u8>, Refusal> {
    let mut path = Vec::new(alloc);
    for (place, piece) in word.as_bytes().split(|byte| *byte == b'%').enumerate() {
        if place == 0 {
            path.extend_from_slice(piece)?;
        } else {
            add_coded(&mut path, piece)?;
        }
    }
    Ok(path)
}

/// Adds what stands behind a `%`: the byte of two digits, and the rest as it is.
fn add_coded(path: &mut Vec<u8>, piece: &[u8]) -> Result<(), Refusal> {
    let [high, low, rest @ ..] = piece else {
        return Err(Refusal::BadName);
    };
    let Some(high) = value_of(*high) else {
        return Err(Refusal::BadName);
    };
    let Some(low) = value_of(*low) else {
        return Err(Refusal::BadName);
    };
    path.push(16 * high + low)?;
    path.extend_from_slice(rest)?;
    Ok(())
}

/// The value of a hexadecimal digit.
fn value_of(digit: u8) -> Option<u8>
    ensures { IfSome result (λ value. value < 16) }
{
    if b'0' <= digit && digit <= b'9' {
        return Some(digit - b'0');
    }
    if b'a' <= digit && digit <= b'f' {
        return Some(digit - b'a' + 10);
    }
    if b'A' <= digit && digit <= b'F' {
        return Some(digit - b'A' + 10);
    }
    None
}
