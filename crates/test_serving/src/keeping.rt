//! Sessions of attributes that last, and of what files are beside plain ones.
use crate::asking::{
    ROOT, Session, Shown, directory, file, grouped, made, moded, symbolic_link, written,
};
use crate::spelling::Field::{Bytes, Long, Name, Word, Zeroes};
use crate::spelling::{
    ALLOCATE, CREATE, FORGET, Field, INVALID, LOOKUP, MAKE_DIRECTORY, MAKE_LINK, MAKE_NODE,
    NAME_TOO_LONG, NO_SPACE, NOT_PERMITTED, NOT_SUPPORTED, READ_DIRECTORY, READ_DIRECTORY_PLUS,
    READ_LINK, SET_ATTRIBUTES, STALE, SYNC_DIRECTORY, TOO_BIG, WRITE, request,
};
use crate::writing::{A, C, D, FREE, STRICT, desk, is_served_afresh, is_served_twice};
use attributes::{Attributes, Time};
use device::MemDevice;
use fuse_writer::Desk;
use reading::record_of;
use std::alloc::Global;
use std::process::Abort;
use std::test::*;

#[test]
fn links_lead_where_they_were_made_to(rt: HostRuntime) -> Result<(), Fail> {
    let mut session = Session::new(rt.alloc());
    session.makes_link(b"l", b"a/b", A, symbolic_link(3, 3));
    session.reads_link(A, b"a/b");
    session.makes_link(b"m", &[b'm'; 1025], D, symbolic_link(4, 1025));
    session.reads_link(D, &[b'm'; 1025]);
    session.makes_link(b"n", &[b'n'; 4095], C, symbolic_link(5, 4095));
    session.reads_link(C, &[b'n'; 4095]);
    let long = [Name(b"o".as_slice()), Name(&[b'o'; 4096])];
    session.is_refused(MAKE_LINK, ROOT, &long, NAME_TOO_LONG);
    session.is_refused(READ_LINK, ROOT, &[], INVALID);
    is_served_afresh(&rt, rt.alloc(), session.end()?, FREE)
}

#[test]
fn fifos_sockets_and_devices_are_made(rt: HostRuntime) -> Result<(), Fail> {
    let mut session = Session::new(rt.alloc());
    let node = |number, mode, device| Shown {
        mode,
        device,
        ..file(number, 0, 0)
    };
    session.makes_node(b"f", A, 0, node(3, 0o10_600, 0));
    session.makes_node(b"s", D, 0, node(4, 0o140_700, 0));
    session.makes_node(b"c", C, 0x103, node(5, 0o20_666, 0x103));
    // A file has no number of a device, whoever gives one.
    let plain = [Word(0o100_640), Word(0x103), Word(0), Word(0), Name(b"p")];
    session.finds(MAKE_NODE, ROOT, &plain, (1 << 32) + 6, file(6, 0, 0), &[]);
    lists(&mut session, 2, 3, 1, b"f");
    lists(&mut session, 3, 4, 12, b"s");
    lists(&mut session, 4, 5, 2, b"c");
    lists(&mut session, 5, 6, 8, b"p");
    is_served_afresh(&rt, rt.alloc(), session.end()?, FREE)
}

/// In this slot of the root a name of one byte stands for a node of this kind, which is all that there is room for.
fn lists(session: &mut Session, slot: u64, number: u64, kind: u32, name: &[u8]) {
    let fields = [Long(0), Long(slot), Word(32), Zeroes(20)];
    let told = listed(slot, number, kind, name);
    session.asks(READ_DIRECTORY, ROOT, &fields, &told);
}

/// The entry of a name of one byte that stands in a slot for a node of this kind.
fn listed(slot: u64, number: u64, kind: u32, name: &[u8]) -> [Field<'_>; 6] {
    [
        Long(number),
        Long(slot.saturating_add(1)),
        Word(1),
        Word(kind),
        Bytes(name),
        Zeroes(7),
    ]
}

#[test]
fn listings_tell_what_names_lead_to(rt: HostRuntime) -> Result<(), Fail> {
    let mut session = Session::new(rt.alloc());
    session.makes_link(b"l", b"a", A, symbolic_link(3, 1));
    // Of the dots nothing is told, and no third entry has room.
    let dots = [Long(0), Long(0), Word(400), Zeroes(20)];
    let told = [
        Zeroes(128),
        Long(2),
        Long(1),
        Word(1),
        Word(4),
        Bytes(b"."),
        Zeroes(135),
        Long(2),
        Long(2),
        Word(2),
        Word(4),
        Bytes(b".."),
        Zeroes(6),
    ];
    session.asks(READ_DIRECTORY_PLUS, ROOT, &dots, &told);
    let fields = [Long(0), Long(2), Word(4096), Zeroes(20)];
    let named = [Long(3), Long(3), Word(1), Word(10), Bytes(b"l"), Zeroes(7)];
    let shown = symbolic_link(3, 1);
    session.finds(READ_DIRECTORY_PLUS, ROOT, &fields, A, shown, &named);
    // Two lookups are forgotten, one of them that of the listing: the node is known no more.
    session.passes(FORGET, A, &[Long(2)]);
    session.is_gone(A);
    session.is_refused(READ_DIRECTORY_PLUS, A, &fields, STALE);
    is_served_afresh(&rt, rt.alloc(), session.end()?, FREE)
}

#[test]
fn room_is_made_for_a_file(rt: HostRuntime) -> Result<(), Fail> {
    let mut session = Session::new(rt.alloc());
    session.creates(ROOT, b"a", A, file(3, 0, 0));
    session.writes(A, 3, 0, b"hello", 5);
    session.asks(ALLOCATE, A, &room(1000, 500, 0), &[]);
    session.has(A, file(3, 1500, 4));
    session.reads_fields(A, 3, 3, 8, &[Bytes(b"lo"), Zeroes(6)]);
    session.asks(ALLOCATE, A, &room(0, 1500, 0), &[]);
    session.is_refused(ALLOCATE, A, &room(0, 5000, 1), NOT_SUPPORTED);
    session.is_refused(ALLOCATE, A, &room(1, 0xffff_ffff, 0), TOO_BIG);
    // What has no room leaves the file as it was.
    session.is_refused(ALLOCATE, A, &room(0, 40_000, 0), NO_SPACE);
    session.has(A, file(3, 1500, 4));
    // The root has a block and a number, too.
    session.has_left(23, 28);
    is_served_afresh(&rt, rt.alloc(), session.end()?, FREE)
}

/// The fields that ask for room for the file of number 3, in this mode.
fn room(offset: u64, bytes: u64, mode: u32) -> [Field<'static>; 5] {
    [Long(3), Long(offset), Long(bytes), Word(mode), Word(0)]
}

#[test]
fn a_directory_hands_its_group_on(rt: HostRuntime) -> Result<(), Fail> {
    let mut session = Session::new(rt.alloc());
    session.makes_directory(ROOT, b"d", A, 3);
    let handing = Shown {
        mode: 0o42_775,
        group: 20,
        ..directory(3, 2)
    };
    session.shows(SET_ATTRIBUTES, A, &grouped(0o42_775, 20), handing);
    let new = Shown {
        group: 20,
        ..file(4, 0, 0)
    };
    session.creates(A, b"f", D, new);
    let below = Shown {
        mode: 0o42_755,
        group: 20,
        ..directory(5, 2)
    };
    let fields = [Word(0o755), Word(0o22), Name(b"e")];
    session.finds(MAKE_DIRECTORY, A, &fields, C, below, &[]);
    is_served_afresh(&rt, rt.alloc(), session.end()?, FREE)
}

#[test]
fn attributes_last_until_they_are_set_again(rt: HostRuntime) -> Result<(), Fail> {
    let set = Shown {
        mode: 0o104_755,
        group: 20,
        ..file(3, 0, 0)
    };
    let mut session = Session::new(rt.alloc());
    session.creates(ROOT, b"a", A, file(3, 0, 0));
    session.shows(SET_ATTRIBUTES, A, &grouped(0o104_755, 20), set);
    session.makes_link(b"l", b"a", D, symbolic_link(4, 1));
    let mut later = Session::new(rt.alloc());
    later.finds(LOOKUP, ROOT, &[Name(b"a")], 3, set, &[]);
    later.finds(LOOKUP, ROOT, &[Name(b"l")], 4, symbolic_link(4, 1), &[]);
    later.reads_link(4, b"a");
    is_served_twice(&rt, rt.alloc(), session.end()?, later.end()?)
}

#[test]
fn strictly_no_attributes_are_kept(rt: HostRuntime) -> Result<(), Fail> {
    let mut session = Session::new(rt.alloc());
    let link = [Name(b"l".as_slice()), Name(b"a")];
    session.is_refused(MAKE_LINK, ROOT, &link, NOT_PERMITTED);
    let pipe = [Word(0o10_644), Word(0), Word(0), Word(0), Name(b"p")];
    session.is_refused(MAKE_NODE, ROOT, &pipe, NOT_PERMITTED);
    session.is_refused(SET_ATTRIBUTES, ROOT, &moded(0o40_700), NOT_PERMITTED);
    is_served_afresh(&rt, rt.alloc(), session.end()?, STRICT)
}

/// A desk takes a turn at this time.
fn turn(
    alloc: Global,
    desk: &mut Desk<MemDevice>,
    kind: u32,
    node: u64,
    fields: &[Field<'_>],
    seconds: u64,
) -> Result<(), Fail> {
    let time = Time {
        seconds,
        nanoseconds: 9,
    };
    let message = request(alloc, kind, 2, node, fields)?;
    let mut reply = Vec::new(alloc);
    let _ = desk.turn(&message, time, &mut reply)?;
    Ok(())
}

/// What asks for a sync of what has no handle, or of its bytes alone.
fn synced(data_only: u32) -> [Field<'static>; 3] {
    [Long(0), Word(data_only), Word(0)]
}

/// When the bytes of an inode were changed, as its record says, if any attributes are kept of it.
fn changed(desk: &Desk<MemDevice>, number: u32) -> Option<u64> {
    let record = record_of(desk.volume().live().metadata(), number);
    Some(Attributes::read(&record.attributes)?.modified.seconds)
}

fn is_changed<R: Abort>(rt: &R, desk: &Desk<MemDevice>, number: u32, wanted: Option<u64>) {
    assert_eq!(rt; changed(desk, number), wanted);
}

#[test]
fn what_is_noted_is_settled_by_a_sync(rt: HostRuntime) -> Result<(), Fail> {
    match desk(rt.alloc(), FREE) {
        Ok(mut desk) => is_settled(&rt, rt.alloc(), &mut desk),
        Err(_) => Err(Fail::from("a volume")),
    }
}

/// A directory of which nothing was kept is touched, and then synced; not where its bytes alone are meant.
fn is_settled<R: Abort>(rt: &R, alloc: Global, desk: &mut Desk<MemDevice>) -> Result<(), Fail> {
    let made = [Word(0o755), Word(0), Name(b"d")];
    turn(alloc, desk, MAKE_DIRECTORY, ROOT, &made, 2000)?;
    turn(alloc, desk, SYNC_DIRECTORY, ROOT, &synced(1), 2500)?;
    is_changed(rt, desk, 2, None);
    turn(alloc, desk, SYNC_DIRECTORY, ROOT, &synced(0), 3000)?;
    is_changed(rt, desk, 2, Some(2000));
    Ok(())
}

#[test]
fn a_write_moves_the_time(rt: HostRuntime) -> Result<(), Fail> {
    match desk(rt.alloc(), FREE) {
        Ok(mut desk) => is_moved(&rt, rt.alloc(), &mut desk),
        Err(_) => Err(Fail::from("a volume")),
    }
}

/// A file is made, written to and settled, each at its own time.
fn is_moved<R: Abort>(rt: &R, alloc: Global, desk: &mut Desk<MemDevice>) -> Result<(), Fail> {
    turn(alloc, desk, CREATE, ROOT, &made(b"a"), 2000)?;
    is_changed(rt, desk, 3, Some(2000));
    turn(alloc, desk, WRITE, A, &written(3, 0, b"x"), 3000)?;
    is_changed(rt, desk, 3, Some(2000));
    let _ = desk.settle(0, 32);
    is_changed(rt, desk, 3, Some(3000));
    is_changed(rt, desk, 2, Some(2000));
    Ok(())
}
