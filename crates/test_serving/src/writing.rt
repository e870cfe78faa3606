//! Sessions that change a volume, with replies worked out by hand.
use crate::asking::{ROOT, Session, Shown, directory, file, moded, plain};
use crate::served::{Messages, is_served};
use crate::spelling::Field::{Bytes, Long, Name, Word, Zeroes};
use crate::spelling::{
    CROSS_DEVICE, EXISTS, FLUSH, FORGET, INVALID, IS_DIRECTORY, LINK, LOOKUP, MAKE_NODE,
    NAME_TOO_LONG, NO_SPACE, NOT_DIRECTORY, NOT_EMPTY, NOT_FOUND, NOT_IMPLEMENTED, NOT_PERMITTED,
    OPEN, REMOVE_DIRECTORY, SET_ATTRIBUTES, STALE, SYNC, SYNC_VOLUME, TOO_BIG, UNLINK,
};
use device::MemDevice;
use fuse_reader::Owner;
use fuse_wire::Time;
use fuse_writer::{Desk, Rules};
use image_changes::mount;
use layout::{Refusal, SINGLE};
use std::alloc::Global;
use std::process::Abort;
use std::test::*;
use std::thread::Threads;
use test_mounted::{found_on, mounted_of};

/// All that is done beyond the volume's commands.
pub(crate) const FREE: Rules = Rules {
    keeps_attributes: true,
    fills: true,
    replaces: true,
};

/// Nothing of that.
pub(crate) const STRICT: Rules = Rules {
    keeps_attributes: false,
    fills: false,
    replaces: false,
};

/// Whose all is, and when it was changed.
const OWNER: Owner = Owner {
    user: 7,
    group: 8,
    changed: Time {
        seconds: 1000,
        nanoseconds: 5,
    },
};

/// How much higher the node of a number is each time that it is given again.
const AGAIN: u64 = 1 << 32;

/// The nodes of the first inodes that are made.
pub(crate) const A: u64 = AGAIN + 3;

pub(crate) const D: u64 = AGAIN + 4;

pub(crate) const C: u64 = AGAIN + 5;

/// That of the next one with the number of the first.
const E: u64 = 2 * AGAIN + 3;

/// A desk with a fresh volume of two groups of 16 blocks and 16 inodes.
pub(crate) fn desk(alloc: Global, rules: Rules) -> Result<Desk<MemDevice>, Refusal> {
    let volume = mounted_of(alloc, SINGLE, 2, 16, &[])?;
    Ok(Desk::new(alloc, volume, OWNER, rules)?)
}

/// A desk with the volume of what the device of another one holds.
pub(crate) fn mounted_again(
    alloc: Global,
    desk: &Desk<MemDevice>,
) -> Result<Desk<MemDevice>, Refusal> {
    let device = desk.volume().live().device();
    let volume = mount(alloc, device.image_after(alloc, device.writes())?)?;
    Ok(Desk::new(alloc, volume, OWNER, FREE)?)
}

/// What a check finds on the device of the desk's volume: nothing.
fn is_clean<R: Abort + Threads + Sync>(
    rt: &R,
    alloc: Global,
    desk: &Desk<MemDevice>,
) -> Result<(), Fail> {
    let Ok(found) = found_on(rt, alloc, desk.volume()) else {
        return Err(Fail::from("a check"));
    };
    assert!(rt; found.is_empty(), "{found:?}");
    Ok(())
}

/// The desk answers a session, and a check of its volume then finds nothing.
fn is_served_whole<R: Abort + Threads + Sync>(
    rt: &R,
    alloc: Global,
    messages: Messages,
    desk: &mut Desk<MemDevice>,
) -> Result<(), Fail> {
    is_served(rt, alloc, messages, desk)?;
    is_clean(rt, alloc, desk)
}

/// So does a desk with a fresh volume.
pub(crate) fn is_served_afresh<R: Abort + Threads + Sync>(
    rt: &R,
    alloc: Global,
    messages: Messages,
    rules: Rules,
) -> Result<(), Fail> {
    match desk(alloc, rules) {
        Ok(mut desk) => is_served_whole(rt, alloc, messages, &mut desk),
        Err(_) => Err(Fail::from("a volume")),
    }
}

#[test]
fn a_file_is_made_written_and_read(rt: HostRuntime) -> Result<(), Fail> {
    let mut session = Session::new(rt.alloc());
    is_written_and_read(&mut session);
    is_cut(&mut session);
    has_another_mode(&mut session);
    is_synced(&mut session);
    is_served_afresh(&rt, rt.alloc(), session.end()?, FREE)
}

fn is_written_and_read(session: &mut Session) {
    session.creates(ROOT, b"a", A, file(3, 0, 0));
    session.writes(A, 3, 0, b"hello", 5);
    session.reads(A, 3, 0, 4096, b"hello");
    // Zeroes are written before what lies behind the end, and a piece goes over the end of a block.
    session.writes(A, 3, 1020, b"abcdefgh", 8);
    session.has(A, file(3, 1028, 4));
    session.reads_fields(A, 3, 3, 8, &[Bytes(b"lo"), Zeroes(6)]);
    session.reads_fields(A, 3, 1018, 100, &[Zeroes(2), Bytes(b"abcdefgh")]);
    session.reads(A, 3, 1028, 100, b"");
    session.asks(SYNC, A, &[Long(3), Word(1), Word(0)], &[]);
}

/// A file is cut and lengthened.
fn is_cut(session: &mut Session) {
    session.cuts(A, 4, file(3, 4, 2));
    session.cuts(A, 1500, file(3, 1500, 4));
    session.reads_fields(A, 3, 0, 2000, &[Bytes(b"hell"), Zeroes(1496)]);
    session.writes(A, 3, 2, b"LLO", 3);
    session.reads_fields(A, 3, 0, 6, &[Bytes(b"heLLO"), Zeroes(1)]);
    session.releases(A, 3);
}

fn has_another_mode(session: &mut Session) {
    let shown = Shown {
        mode: 0o100_600,
        ..file(3, 1500, 4)
    };
    session.shows(SET_ATTRIBUTES, A, &moded(0o100_600), shown);
    session.opens(A, 0o2, 3);
    session.reads(A, 3, 0, 5, b"heLLO");
}

/// 24 of the 26 data blocks are left, as the root has one and the file two.
fn is_synced(session: &mut Session) {
    session.has_left(23, 28);
    session.is_refused(FLUSH, A, &[Long(3), Zeroes(16)], NOT_IMPLEMENTED);
    session.asks(SYNC_VOLUME, ROOT, &[Zeroes(8)], &[]);
}

#[test]
fn names_come_go_and_change(rt: HostRuntime) -> Result<(), Fail> {
    let mut session = Session::new(rt.alloc());
    goes_into_a_directory(&mut session);
    is_replaced(&mut session);
    gives_its_number_away(&mut session);
    has_another_name(&mut session);
    is_served_afresh(&rt, rt.alloc(), session.end()?, FREE)
}

fn goes_into_a_directory(session: &mut Session) {
    session.creates(ROOT, b"a", A, file(3, 0, 0));
    session.writes(A, 3, 0, b"hello", 5);
    session.makes_directory(ROOT, b"d", D, 4);
    session.moves_so(1, b"a", D, b"b", 0);
    session.finds(LOOKUP, D, &[Name(b"b")], A, file(3, 5, 2), &[]);
}

/// A name that is taken is replaced, unless that is not to be. The file that had it lives while it is open.
fn is_replaced(session: &mut Session) {
    session.creates(ROOT, b"c", C, file(5, 0, 0));
    session.writes(C, 5, 0, b"new", 3);
    session.moves_so(1, b"c", D, b"b", EXISTS);
    session.moves(ROOT, b"c", D, b"b");
    session.reads(A, 3, 0, 9, b"hello");
    session.writes(A, 3, 5, b" there", 6);
    session.reads(A, 3, 0, 20, b"hello there");
    session.releases(A, 3);
    session.passes(FORGET, A, &[Long(2)]);
    session.is_gone(A);
}

/// A file's number is given again, and is another node.
fn gives_its_number_away(session: &mut Session) {
    session.creates(ROOT, b"e", E, file(3, 0, 0));
    session.is_gone(A);
    session.writes(E, 3, 0, b"xyz", 3);
    session.unlinks(ROOT, b"e");
    session.writes(E, 3, 3, b"123", 3);
    session.reads(E, 3, 1, 9, b"yz123");
    session.releases(E, 3);
}

/// A file goes on by its other name.
fn has_another_name(session: &mut Session) {
    let two = Shown {
        links: 2,
        ..file(5, 3, 2)
    };
    session.links(C, b"l", two);
    session.unlinks(D, b"b");
    session.releases(C, 5);
    session.has(C, file(5, 3, 2));
    session.opens(C, 0, 5);
    session.reads(C, 5, 0, 9, b"new");
    session.asks(REMOVE_DIRECTORY, ROOT, &[Name(b"d")], &[]);
}

#[test]
fn what_cannot_be_is_refused(rt: HostRuntime) -> Result<(), Fail> {
    let mut session = Session::new(rt.alloc());
    is_not_made(&mut session);
    is_not_unlinked(&mut session);
    is_not_moved(&mut session);
    is_not_linked_and_not_open(&mut session);
    is_not_written(&mut session);
    has_no_room(&mut session);
    is_served_afresh(&rt, rt.alloc(), session.end()?, FREE)
}

fn is_not_made(session: &mut Session) {
    session.creates(ROOT, b"a", A, file(3, 0, 0));
    session.makes_directory(ROOT, b"d", D, 4);
    session.makes_directory(D, b"e", C, 5);
    session.creates_not(ROOT, b"a", EXISTS);
    session.creates_not(A, b"a", NOT_DIRECTORY);
    session.makes_no_directory(b"d", EXISTS);
    session.makes_no_directory(&[b'n'; 57], NAME_TOO_LONG);
    let none = [Word(0o30_644), Word(0), Word(0), Word(0), Name(b"p")];
    session.is_refused(MAKE_NODE, ROOT, &none, NOT_PERMITTED);
}

fn is_not_unlinked(session: &mut Session) {
    session.is_refused(UNLINK, ROOT, &[Name(b"x")], NOT_FOUND);
    session.is_refused(UNLINK, ROOT, &[Name(b"d")], IS_DIRECTORY);
    session.is_refused(REMOVE_DIRECTORY, ROOT, &[Name(b"a")], NOT_DIRECTORY);
    session.is_refused(REMOVE_DIRECTORY, ROOT, &[Name(b"d")], NOT_EMPTY);
}

fn is_not_moved(session: &mut Session) {
    session.moves_not(ROOT, b"x", ROOT, b"y", NOT_FOUND);
    session.moves_so(2, b"a", ROOT, b"d", INVALID);
    session.moves_not(D, b"e", ROOT, b"f", CROSS_DEVICE);
    session.moves_not(ROOT, b"a", ROOT, b"d", IS_DIRECTORY);
    session.moves_not(ROOT, b"d", ROOT, b"a", NOT_DIRECTORY);
}

fn is_not_linked_and_not_open(session: &mut Session) {
    session.is_refused(LINK, ROOT, &[Long(D), Name(b"l")], NOT_PERMITTED);
    session.is_refused(LINK, ROOT, &[Long(A), Name(b"d")], EXISTS);
    session.is_refused(OPEN, D, &[Word(0), Word(0)], IS_DIRECTORY);
}

fn is_not_written(session: &mut Session) {
    session.writes_not(9 * AGAIN + 3, 3, 0, b"x", STALE);
    session.writes_not(A, 3, 1 << 32, b"x", TOO_BIG);
    session.cuts_not(A, 1 << 32, TOO_BIG);
    session.cuts_not(D, 0, IS_DIRECTORY);
}

/// 23 data blocks are left; a large file has a block of pointers besides.
fn has_no_room(session: &mut Session) {
    session.writes(A, 3, 0, &[b'w'; 23 * 1024], 22 * 1024);
    session.writes_not(A, 3, 22 * 1024, b"x", NO_SPACE);
    session.makes_no_directory(b"n", NO_SPACE);
}

#[test]
fn a_size_without_room_is_refused_and_leaves_no_file_open(rt: HostRuntime) -> Result<(), Fail> {
    let mut session = Session::new(rt.alloc());
    has_no_room_for_a_size(&mut session);
    is_served_afresh(&rt, rt.alloc(), session.end()?, FREE)
}

fn has_no_room_for_a_size(session: &mut Session) {
    session.makes_file(b"a", A, file(3, 0, 0));
    // 25 data blocks are left, of which one becomes a block of pointers.
    session.cuts_not(A, 25 * 1024, NO_SPACE);
    // Only a file that is not open gives its blocks back with its last name.
    session.unlinks(ROOT, b"a");
    session.asks(SYNC_VOLUME, ROOT, &[Zeroes(8)], &[]);
    session.has_left(25, 29);
}

#[test]
fn strictly_no_more_is_done_than_the_volume_has_commands_for(rt: HostRuntime) -> Result<(), Fail> {
    let mut session = Session::new(rt.alloc());
    is_changed_by_commands(&mut session);
    has_names_by_commands(&mut session);
    is_served_afresh(&rt, rt.alloc(), session.end()?, STRICT)
}

fn is_changed_by_commands(session: &mut Session) {
    session.creates(ROOT, b"a", A, plain(3, 0, 0));
    session.writes(A, 3, 0, b"hello", 5);
    session.writes_not(A, 3, 6, b"x", INVALID);
    session.cuts_not(A, 6, INVALID);
    session.cuts(A, 4, plain(3, 4, 2));
    session.is_refused(SET_ATTRIBUTES, A, &moded(0o100_600), NOT_PERMITTED);
}

fn has_names_by_commands(session: &mut Session) {
    let two = Shown {
        links: 2,
        ..plain(3, 4, 2)
    };
    session.links(A, b"b", two);
    session.makes_file(b"c", D, plain(4, 0, 0));
    session.moves_not(ROOT, b"a", ROOT, b"c", EXISTS);
    session.moves(ROOT, b"a", ROOT, b"b");
}

#[test]
fn what_was_written_is_there_once_it_is_mounted_again(rt: HostRuntime) -> Result<(), Fail> {
    let mut session = Session::new(rt.alloc());
    is_moved(&mut session);
    let mut later = Session::new(rt.alloc());
    is_there(&mut later);
    is_served_twice(&rt, rt.alloc(), session.end()?, later.end()?)
}

/// A desk with a fresh volume, and then one with what its device holds, answer a session each.
pub(crate) fn is_served_twice<R: Abort + Threads + Sync>(
    rt: &R,
    alloc: Global,
    messages: Messages,
    later: Messages,
) -> Result<(), Fail> {
    match desk(alloc, FREE) {
        Ok(mut desk) => {
            is_served_whole(rt, alloc, messages, &mut desk)?;
            is_served_again(rt, alloc, later, &desk)
        }
        Err(_) => Err(Fail::from("a volume")),
    }
}

/// A desk with the volume of what another one's device holds answers a session.
fn is_served_again<R: Abort>(
    rt: &R,
    alloc: Global,
    messages: Messages,
    desk: &Desk<MemDevice>,
) -> Result<(), Fail> {
    match mounted_again(alloc, desk) {
        Ok(mut again) => is_served(rt, alloc, messages, &mut again),
        Err(_) => Err(Fail::from("a volume")),
    }
}

fn is_moved(session: &mut Session) {
    session.creates(ROOT, b"a", A, file(3, 0, 0));
    session.writes(A, 3, 0, b"hello", 5);
    session.makes_directory(ROOT, b"d", D, 4);
    session.moves(ROOT, b"a", D, b"b");
}

/// Nothing was born since, and attributes are as they were.
fn is_there(session: &mut Session) {
    session.finds(LOOKUP, ROOT, &[Name(b"d")], 4, directory(4, 2), &[]);
    session.finds(LOOKUP, 4, &[Name(b"b")], 3, file(3, 5, 2), &[]);
    session.opens(3, 0, 3);
    session.reads(3, 3, 0, 9, b"hello");
}
