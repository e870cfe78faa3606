//! A whole session of an image that is read alone, with replies worked out by hand.
use crate::served::{Messages, is_served};
use crate::spelling::{
    DESTROY, FLUSH, FORGET, Field, GET_ATTRIBUTES, INIT, LOOKUP, MAKE_DIRECTORY, OPEN,
    OPEN_DIRECTORY, READ, READ_DIRECTORY, STATISTICS, request,
};
use crate::volumes::desk;
use std::alloc::{AllocError, Global};
use std::test::*;

/// A request: its kind, its number, its node, and its fields; and the reply to it, if there is one. Bytes are told by hexadecimal digits.
#[derive(Clone, Copy)]
struct Row {
    kind: u32,
    unique: u64,
    node: u64,
    fields: &'static str,
    reply: &'static str,
}

const ROWS: &[Row] = &[
    Row {
        kind: INIT,
        unique: 2,
        node: 0,
        fields: "07000000 2d000000 00000200 fbffff73 00000000 00000000 00000000 00000000 00000000 00000000 00000000
            00000000 00000000 00000000 00000000 00000000",
        reply: "50000000 00000000 02000000 00000000 07000000 1f000000 00000200 21004400 0c000900 00000200 01000000
            00010000 00000000 00000000 00000000 00000000 00000000 00000000 00000000 00000000",
    },
    Row {
        kind: LOOKUP,
        unique: 4,
        node: 1,
        fields: "6100",
        reply: "90000000 00000000 04000000 00000000 03000000 00000000 00000000 00000000 100e0000 00000000 100e0000
            00000000 00000000 00000000 03000000 00000000 06000000 00000000 02000000 00000000 e8030000 00000000
            e8030000 00000000 e8030000 00000000 05000000 05000000 05000000 a4810000 01000000 07000000 08000000
            00000000 00040000 00000000",
    },
    Row {
        kind: LOOKUP,
        unique: 6,
        node: 1,
        fields: "7800",
        reply: "90000000 00000000 06000000 00000000 00000000 00000000 00000000 00000000 100e0000 00000000 00000000
            00000000 00000000 00000000 00000000 00000000 00000000 00000000 00000000 00000000 00000000 00000000
            00000000 00000000 00000000 00000000 00000000 00000000 00000000 00000000 00000000 00000000 00000000
            00000000 00000000 00000000",
    },
    Row {
        kind: LOOKUP,
        unique: 8,
        node: 3,
        fields: "7800",
        reply: "10000000 ecffffff 08000000 00000000",
    },
    Row {
        kind: LOOKUP,
        unique: 9,
        node: 1,
        fields: "78787878 78787878 78787878 78787878 78787878 78787878 78787878 78787878 78787878 78787878 78787878
            78787878 78787878 78787878 7800",
        reply: "10000000 dcffffff 09000000 00000000",
    },
    Row {
        kind: GET_ATTRIBUTES,
        unique: 10,
        node: 3,
        fields: "00000000 00000000 00000000 00000000",
        reply: "78000000 00000000 0a000000 00000000 100e0000 00000000 00000000 00000000 03000000 00000000 06000000
            00000000 02000000 00000000 e8030000 00000000 e8030000 00000000 e8030000 00000000 05000000 05000000
            05000000 a4810000 01000000 07000000 08000000 00000000 00040000 00000000",
    },
    Row {
        kind: GET_ATTRIBUTES,
        unique: 12,
        node: 1,
        fields: "00000000 00000000 00000000 00000000",
        reply: "78000000 00000000 0c000000 00000000 100e0000 00000000 00000000 00000000 02000000 00000000 00040000
            00000000 02000000 00000000 e8030000 00000000 e8030000 00000000 e8030000 00000000 05000000 05000000
            05000000 ed410000 03000000 07000000 08000000 00000000 00040000 00000000",
    },
    Row {
        kind: GET_ATTRIBUTES,
        unique: 14,
        node: 4,
        fields: "00000000 00000000 00000000 00000000",
        reply: "10000000 8cffffff 0e000000 00000000",
    },
    Row {
        kind: OPEN,
        unique: 16,
        node: 3,
        fields: "00800000 00000000",
        reply: "20000000 00000000 10000000 00000000 00000000 00000000 02000000 00000000",
    },
    Row {
        kind: OPEN,
        unique: 18,
        node: 3,
        fields: "02800000 00000000",
        reply: "10000000 e2ffffff 12000000 00000000",
    },
    Row {
        kind: OPEN,
        unique: 19,
        node: 1,
        fields: "00800000 00000000",
        reply: "10000000 ebffffff 13000000 00000000",
    },
    Row {
        kind: READ,
        unique: 20,
        node: 3,
        fields: "00000000 00000000 02000000 00000000 00100000 00000000 00000000 00000000 00000000 00000000",
        reply: "14000000 00000000 14000000 00000000 6c6c6f0a",
    },
    Row {
        kind: READ,
        unique: 22,
        node: 3,
        fields: "00000000 00000000 01000000 00000000 03000000 00000000 00000000 00000000 00000000 00000000",
        reply: "13000000 00000000 16000000 00000000 656c6c",
    },
    Row {
        kind: READ,
        unique: 24,
        node: 3,
        fields: "00000000 00000000 06000000 00000000 00100000 00000000 00000000 00000000 00000000 00000000",
        reply: "10000000 00000000 18000000 00000000",
    },
    Row {
        kind: OPEN_DIRECTORY,
        unique: 26,
        node: 1,
        fields: "00800100 00000000",
        reply: "20000000 00000000 1a000000 00000000 00000000 00000000 0a000000 00000000",
    },
    Row {
        kind: READ_DIRECTORY,
        unique: 28,
        node: 1,
        fields: "00000000 00000000 00000000 00000000 00100000 00000000 00000000 00000000 00000000 00000000",
        reply: "90000000 00000000 1c000000 00000000 02000000 00000000 01000000 00000000 01000000 04000000 2e000000
            00000000 02000000 00000000 02000000 00000000 02000000 04000000 2e2e0000 00000000 03000000 00000000
            03000000 00000000 01000000 08000000 61000000 00000000 04000000 00000000 04000000 00000000 01000000
            04000000 64000000 00000000",
    },
    Row {
        kind: READ_DIRECTORY,
        unique: 30,
        node: 1,
        fields: "00000000 00000000 03000000 00000000 00100000 00000000 00000000 00000000 00000000 00000000",
        reply: "30000000 00000000 1e000000 00000000 04000000 00000000 04000000 00000000 01000000 04000000 64000000
            00000000",
    },
    Row {
        kind: READ_DIRECTORY,
        unique: 32,
        node: 1,
        fields: "00000000 00000000 01000000 00000000 5f000000 00000000 00000000 00000000 00000000 00000000",
        reply: "50000000 00000000 20000000 00000000 02000000 00000000 02000000 00000000 02000000 04000000 2e2e0000
            00000000 03000000 00000000 03000000 00000000 01000000 08000000 61000000 00000000",
    },
    Row {
        kind: READ_DIRECTORY,
        unique: 34,
        node: 1,
        fields: "00000000 00000000 04000000 00000000 00100000 00000000 00000000 00000000 00000000 00000000",
        reply: "10000000 00000000 22000000 00000000",
    },
    Row {
        kind: READ_DIRECTORY,
        unique: 35,
        node: 3,
        fields: "00000000 00000000 00000000 00000000 00100000 00000000 00000000 00000000 00000000 00000000",
        reply: "10000000 ecffffff 23000000 00000000",
    },
    Row {
        kind: MAKE_DIRECTORY,
        unique: 36,
        node: 1,
        fields: "ff010000 12000000 6e00",
        reply: "10000000 e2ffffff 24000000 00000000",
    },
    Row {
        kind: STATISTICS,
        unique: 38,
        node: 1,
        fields: "",
        reply: "60000000 00000000 26000000 00000000 0d000000 00000000 0a000000 00000000 0a000000 00000000 0e000000
            00000000 0a000000 00000000 00040000 38000000 00040000 00000000 00000000 00000000 00000000 00000000
            00000000 00000000",
    },
    Row {
        kind: FLUSH,
        unique: 40,
        node: 3,
        fields: "00000000 00000000 00000000 00000000 00000000 00000000",
        reply: "10000000 daffffff 28000000 00000000",
    },
    Row {
        kind: FORGET,
        unique: 42,
        node: 3,
        fields: "01000000 00000000",
        reply: "",
    },
    Row {
        kind: GET_ATTRIBUTES,
        unique: 44,
        node: 3,
        fields: "00000000 00000000 00000000 00000000",
        reply: "10000000 8cffffff 2c000000 00000000",
    },
    Row {
        kind: DESTROY,
        unique: 46,
        node: 0,
        fields: "",
        reply: "10000000 00000000 2e000000 00000000",
    },
];

/// The bytes that digits tell. What is no digit stands between two bytes.
fn bytes_of(alloc: Global, text: &str) -> Result<Vec<u8>, AllocError> {
    let mut bytes = Vec::new(alloc);
    let mut high = None;
    for &byte in text.as_bytes() {
        match (high, digit_of(byte)) {
            (None, digit) => high = digit,
            (Some(_), None) => high = None,
            (Some(first), Some(second)) => {
                bytes.push((first << 4) | second)?;
                high = None;
            }
        }
    }
    Ok(bytes)
}

/// The value of a hexadecimal digit.
fn digit_of(byte: u8) -> Option<u8> {
    match byte {
        b'0'..=b'9' => Some(byte - b'0'),
        b'a'..=b'f' => Some(byte - b'a' + 10),
        _ => None,
    }
}

/// What is asked and what is wanted in all rows.
fn messages(alloc: Global) -> Result<Messages, AllocError> {
    let mut messages = Messages::new(alloc);
    for row in ROWS {
        add(alloc, &mut messages, row)?;
    }
    Ok(messages)
}

/// Adds those of a row.
fn add(alloc: Global, messages: &mut Messages, row: &Row) -> Result<(), AllocError> {
    let fields = bytes_of(alloc, row.fields)?;
    let asked = [Field::Bytes(fields.as_slice())];
    let request = request(alloc, row.kind, row.unique, row.node, &asked)?;
    messages.requests.push(request)?;
    if !row.reply.is_empty() {
        messages.replies.push(bytes_of(alloc, row.reply)?)?;
    }
    Ok(())
}

#[test]
fn a_session_is_answered(rt: HostRuntime) -> Result<(), Fail> {
    let alloc = rt.alloc();
    let messages = messages(alloc)?;
    match desk(alloc) {
        Ok(mut desk) => is_served(&rt, alloc, messages, &mut desk),
        Err(_) => Err(Fail::from("an image")),
    }
}
