//! Requests and replies as Linux's header `linux/fuse.h` spells them, for sessions in which they are many.
use std::alloc::{AllocError, Global};

/// Kinds of requests.
pub(crate) const LOOKUP: u32 = 1;

pub(crate) const FORGET: u32 = 2;

pub(crate) const GET_ATTRIBUTES: u32 = 3;

pub(crate) const SET_ATTRIBUTES: u32 = 4;

pub(crate) const READ_LINK: u32 = 5;

pub(crate) const MAKE_LINK: u32 = 6;

pub(crate) const MAKE_NODE: u32 = 8;

pub(crate) const MAKE_DIRECTORY: u32 = 9;

pub(crate) const UNLINK: u32 = 10;

pub(crate) const REMOVE_DIRECTORY: u32 = 11;

pub(crate) const RENAME: u32 = 12;

pub(crate) const LINK: u32 = 13;

pub(crate) const OPEN: u32 = 14;

pub(crate) const READ: u32 = 15;

pub(crate) const WRITE: u32 = 16;

pub(crate) const STATISTICS: u32 = 17;

pub(crate) const RELEASE: u32 = 18;

pub(crate) const SYNC: u32 = 20;

pub(crate) const FLUSH: u32 = 25;

pub(crate) const INIT: u32 = 26;

pub(crate) const OPEN_DIRECTORY: u32 = 27;

pub(crate) const READ_DIRECTORY: u32 = 28;

pub(crate) const SYNC_DIRECTORY: u32 = 30;

pub(crate) const CREATE: u32 = 35;

pub(crate) const DESTROY: u32 = 38;

pub(crate) const ALLOCATE: u32 = 43;

pub(crate) const READ_DIRECTORY_PLUS: u32 = 44;

pub(crate) const RENAME_2: u32 = 45;

pub(crate) const SYNC_VOLUME: u32 = 50;

/// Linux's numbers of errors.
pub(crate) const NOT_PERMITTED: u32 = 1;

pub(crate) const NOT_FOUND: u32 = 2;

pub(crate) const EXISTS: u32 = 17;

pub(crate) const CROSS_DEVICE: u32 = 18;

pub(crate) const NOT_DIRECTORY: u32 = 20;

pub(crate) const IS_DIRECTORY: u32 = 21;

pub(crate) const INVALID: u32 = 22;

pub(crate) const TOO_BIG: u32 = 27;

pub(crate) const NO_SPACE: u32 = 28;

pub(crate) const NAME_TOO_LONG: u32 = 36;

pub(crate) const NOT_IMPLEMENTED: u32 = 38;

pub(crate) const NOT_SUPPORTED: u32 = 95;

pub(crate) const NOT_EMPTY: u32 = 39;

pub(crate) const STALE: u32 = 116;

/// A field of a request or a reply.
#[derive(Clone, Copy)]
pub(crate) enum Field<'a> {
    /// Numbers of two, four and eight bytes.
    Short(u16),
    Word(u32),
    Long(u64),
    /// Bytes as they are.
    Bytes(&'a [u8]),
    /// A name, with its end.
    Name(&'a [u8]),
    /// So many zeroes.
    Zeroes(usize),
}

/// Adds the bytes of fields.
fn put(out: &mut Vec<u8>, fields: &[Field<'_>]) -> Result<(), AllocError> {
    for &field in fields {
        put_one(out, field)?;
    }
    Ok(())
}

fn put_one(out: &mut Vec<u8>, field: Field<'_>) -> Result<(), AllocError> {
    match field {
        Field::Short(number) => out.extend_from_slice(&number.to_le_bytes()),
        Field::Word(number) => out.extend_from_slice(&number.to_le_bytes()),
        Field::Long(number) => out.extend_from_slice(&number.to_le_bytes()),
        Field::Bytes(bytes) => out.extend_from_slice(bytes),
        Field::Name(name) => put_name(out, name),
        Field::Zeroes(count) => {
            let length = out.len().saturating_add(count);
            out.resize(length, 0)
        }
    }
}

fn put_name(out: &mut Vec<u8>, name: &[u8]) -> Result<(), AllocError> {
    out.extend_from_slice(name)?;
    out.push(0)?;
    Ok(())
}

/// The bytes behind a length, which counts itself.
fn with_length(alloc: Global, behind: &[u8]) -> Result<Vec<u8>, AllocError> {
    let length = u32::try_from(behind.len())
        .unwrap_or(u32::MAX)
        .saturating_add(4);
    let mut all = Vec::new(alloc);
    all.extend_from_slice(&length.to_le_bytes())?;
    all.extend_from_slice(behind)?;
    Ok(all)
}

/// A request of user 7 and group 8: its kind, its number, its node, and its fields.
pub(crate) fn request(
    alloc: Global,
    kind: u32,
    unique: u64,
    node: u64,
    fields: &[Field<'_>],
) -> Result<Vec<u8>, AllocError> {
    let mut behind = Vec::new(alloc);
    let head = [
        Field::Word(kind),
        Field::Long(unique),
        Field::Long(node),
        Field::Word(7),
        Field::Word(8),
        Field::Zeroes(8),
    ];
    put(&mut behind, &head)?;
    put(&mut behind, fields)?;
    with_length(alloc, behind.as_slice())
}

/// A reply: the number of the error, or 0; the number of the request, and the fields.
pub(crate) fn reply(
    alloc: Global,
    error: u32,
    unique: u64,
    fields: &[Field<'_>],
) -> Result<Vec<u8>, AllocError> {
    let mut behind = Vec::new(alloc);
    put(
        &mut behind,
        &[Field::Word(0u32.wrapping_sub(error)), Field::Long(unique)],
    )?;
    put(&mut behind, fields)?;
    with_length(alloc, behind.as_slice())
}
