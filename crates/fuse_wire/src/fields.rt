//! Numbers and names in a message.
ghost use Rattle.std.specs.Prelude.{◌≡◌, ◌==◌, ◌+◌, ◌<◌, ◌≤◌, ◌++◌, IfSome, OnOk, length, option_map, position};
ghost use Rattle.fuse_wire.specs.Fields.{long_at, name_at, numbers, word_at};

use byteorder::{ByteOrder, LittleEndian};
use std::alloc::AllocError;

/// The number of 32 bits that stands there.
pub fn word_at(bytes: &[u8], at: usize) -> u32
    requires { at + 4 ≤ length bytes.now }
    ensures { result ≡ word_at at bytes.now }
{
    LittleEndian::read_u32(&bytes[at..])
}

/// The number of 64 bits that stands there.
pub fn long_at(bytes: &[u8], at: usize) -> u64
    requires { at + 8 ≤ length bytes.now }
    ensures { result ≡ long_at at bytes.now }
{
    LittleEndian::read_u64(&bytes[at..])
}

/// The bytes before the first zero, and those behind it; `None` if no byte is zero.
pub fn name_at(bytes: &[u8]) -> Option<(&[u8], &[u8])>
    ensures { option_map (λ x. (x.0.now, x.1.now)) result ≡ name_at bytes.now }
{
    let end = end_of(bytes)?;
    Some((&bytes[..end], &bytes[end + 1..]))
}

/// Where the first zero stands.
fn end_of(bytes: &[u8]) -> Option<usize>
    ensures place { result ≡ position (λ byte. byte == 0) bytes.now }
    ensures within { IfSome result (λ end. end < length bytes.now) }
{
    bytes.iter().position(|byte| *byte == 0)
}

/// Writes numbers of 16 bits behind what is there.
pub fn put_shorts(out: &mut Vec<u8>, all: &[u16]) -> Result<(), AllocError>
    ensures { OnOk result (out.new.items ≡ out.old.items ++ numbers 2 all.now) }
{
    for number in all {
        out.extend_from_slice(&number.to_le_bytes())?;
    }
    Ok(())
}

/// Writes numbers of 32 bits behind what is there.
pub fn put_words(out: &mut Vec<u8>, all: &[u32]) -> Result<(), AllocError>
    ensures { OnOk result (out.new.items ≡ out.old.items ++ numbers 4 all.now) }
{
    for number in all {
        out.extend_from_slice(&number.to_le_bytes())?;
    }
    Ok(())
}

/// Writes numbers of 64 bits behind what is there.
pub fn put_longs(out: &mut Vec<u8>, all: &[u64]) -> Result<(), AllocError>
    ensures { OnOk result (out.new.items ≡ out.old.items ++ numbers 8 all.now) }
{
    for number in all {
        out.extend_from_slice(&number.to_le_bytes())?;
    }
    Ok(())
}
