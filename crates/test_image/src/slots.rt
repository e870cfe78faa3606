use crate::expect::{holds, same};
use dirent::{NAME_BYTES, SLOT_BYTES, Slot, Slots, fits_slot, name_ok, slot_in};
use layout::{BLOCK_BYTES, Block};

/// How many inode numbers the volume of these tests has.
const INODES: u32 = 16;

/// A name of 56 bytes.
const LONG_NAME: [u8; NAME_BYTES] = [b'n'; NAME_BYTES];

/// Slots by their numbers, with their bytes up to where only `n` follows, and the numbers and names of the entries.
const ENTRIES: &[(u32, &[u8], u32, &[u8])] = &[
    (0, b"\x02\0\0\0\x01\0\0\0.", 2, b"."),
    (1, b"\x02\0\0\0\x02\0\0\0..", 2, b".."),
    (2, b"\x0f\0\0\0\x01\xff\xff\xffa", 15, b"a"),
    (15, b"\x03\0\0\0\x38\0\0\0", 3, &LONG_NAME),
    (4287, b"\x03\0\0\0\x03\0\0\0...", 3, b"..."),
];

/// Bad slots.
const BAD: &[(u32, &[u8])] = &[
    (2, b"\x01\0\0\0\x01\0\0\0a"),
    (2, b"\x10\0\0\0\x01\0\0\0a"),
    (2, b"\x02\0\0\x01\x01\0\0\0a"),
    (2, b"\x02\0\0\0\0\0\0\0"),
    (15, b"\x02\0\0\0\x39\0\0\0"),
    (2, b"\x02\0\0\0\x03\0\0\0a/b"),
    (2, b"\x02\0\0\0\x03\0\0\0a\0b"),
    (2, b"\x02\0\0\0\x01\0\0\0."),
    (16, b"\x02\0\0\0\x01\0\0\0."),
    (17, b"\x02\0\0\0\x02\0\0\0.."),
    (0, b"\x02\0\0\0\x02\0\0\0.."),
    (1, b"\x02\0\0\0\x01\0\0\0."),
    (0, b"\x02\0\0\0\x01\0\0\0a"),
];

/// A block of nothing but `n`, with these bytes at the beginning of this slot.
fn block_with(slot: u32, bytes: &[u8]) -> Block {
    let mut block = [b'n'; BLOCK_BYTES];
    let start = SLOT_BYTES * (slot % 16) as usize;
    for (at, &byte) in bytes.iter().enumerate().take(SLOT_BYTES) {
        block[start + at] = byte;
    }
    block
}

/// The slot of the first entry that is read otherwise.
fn first_other_entry() -> Option<u32> {
    for &(slot, bytes, number, name) in ENTRIES {
        let block = block_with(slot, bytes);
        if slot_in(&block, slot, INODES) != (Slot::Good { number, name }) {
            return Some(slot);
        }
    }
    None
}

/// The bytes of the first bad slot that is read otherwise.
fn first_that_is_not_bad() -> Option<&'static [u8]> {
    for &(slot, bytes) in BAD {
        let block = block_with(slot, bytes);
        if slot_in(&block, slot, INODES) != Slot::Bad {
            return Some(bytes);
        }
    }
    None
}

#[test]
fn slots_are_told_apart(rt: HostRuntime) {
    same(&rt, "entries", first_other_entry(), None);
    same(&rt, "bad ones", first_that_is_not_bad(), None);
    let block = block_with(3, b"\0\0\0\0\xff");
    same(&rt, "an empty one", slot_in(&block, 3, INODES), Slot::Empty);
}

#[test]
fn names_are_told_apart(rt: HostRuntime) {
    for name in [b"a".as_slice(), b".", b"..", b"\xff\x01 ", &LONG_NAME] {
        holds(&rt, name, name_ok(name));
    }
    for name in [b"".as_slice(), b"/", b"a/b", b"a\0", &[b'n'; 57]] {
        holds(&rt, name, !name_ok(name));
    }
}

/// Whether a name fits the slots 0, 1, 2 and 16.
fn fits(name: &[u8]) -> [bool; 4] {
    [
        fits_slot(0, name),
        fits_slot(1, name),
        fits_slot(2, name),
        fits_slot(16, name),
    ]
}

#[test]
fn dots_fit_their_slots(rt: HostRuntime) {
    same(&rt, ".", fits(b"."), [true, false, false, false]);
    same(&rt, "..", fits(b".."), [false, true, false, false]);
    same(&rt, "...", fits(b"..."), [false, false, true, true]);
    same(&rt, "a", fits(b"a"), [false, false, true, true]);
}

#[test]
fn a_block_of_bad_slots_has_no_room(rt: HostRuntime) {
    let slots = Slots::read(&[0xee; BLOCK_BYTES], 1, INODES);
    same(&rt, "the last but one", slots.slot(14), Slot::Bad);
    same(&rt, "a name", slots.find(&LONG_NAME), None);
    same(&rt, "an empty one", slots.free_slot(), None);
}

#[test]
fn an_entry_is_put_and_found(rt: HostRuntime) {
    let mut block = [0xee; BLOCK_BYTES];
    let mut slots = Slots::read(&block, 1, INODES);
    slots.put(15, 5, &LONG_NAME);
    same(&rt, "the name", slots.find(&LONG_NAME), Some(15));
    slots.write(&mut block);
    let mut wanted = [0xee; BLOCK_BYTES];
    wanted[960..968].copy_from_slice(&[5, 0, 0, 0, 56, 0, 0, 0]);
    wanted[968..].copy_from_slice(&LONG_NAME);
    holds(&rt, "its bytes", block == wanted);
}

#[test]
fn an_entry_is_cleared(rt: HostRuntime) {
    let mut block = [0xee; BLOCK_BYTES];
    let mut slots = Slots::read(&block, 1, INODES);
    slots.put(15, 5, &LONG_NAME);
    slots.clear(15);
    same(&rt, "the slot", slots.free_slot(), Some(15));
    slots.write(&mut block);
    let mut wanted = [0xee; BLOCK_BYTES];
    wanted[960..].copy_from_slice(&[0; SLOT_BYTES]);
    holds(&rt, "its bytes", block == wanted);
}

/// The bytes after a short name are zeroes.
#[test]
fn a_short_name_is_put(rt: HostRuntime) {
    let mut block = [0xee; BLOCK_BYTES];
    let mut slots = Slots::read(&block, 0, INODES);
    slots.put(2, 0x0a, b"a");
    slots.write(&mut block);
    let mut wanted = [0xee; BLOCK_BYTES];
    wanted[128..192].copy_from_slice(&[0; SLOT_BYTES]);
    wanted[128] = 0x0a;
    wanted[132] = 1;
    wanted[136] = b'a';
    holds(&rt, "its bytes", block == wanted);
    same(&rt, "the name", slots.find(b"a"), Some(2));
}
