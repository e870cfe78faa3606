use crate::expect::{holds, same};
use fuse_wire::{
    Agreement, Attributes, Body, Changes, DirectoryEntry, Entry, Errno, Handle, Kind, Moment,
    NodeId, Offer, Request, Statistics, Time, Unique, flags, push_entry, push_entry_plus, read,
    write,
};
use std::test::*;

// Requests that a kernel of Linux 6.18 sent, and replies that it took.

const INIT: [u8; 104] = [
    104, 0, 0, 0, 26, 0, 0, 0, 2, 0, 0, 0, 0, 0, 0, 0, 0, 0, 0, 0, 0, 0, 0, 0, 0, 0, 0, 0, 0, 0, 0,
    0, 0, 0, 0, 0, 0, 0, 0, 0, 7, 0, 0, 0, 45, 0, 0, 0, 0, 0, 2, 0, 251, 255, 255, 115, 253, 5, 0,
    0, 0, 0, 0, 0, 0, 0, 0, 0, 0, 0, 0, 0, 0, 0, 0, 0, 0, 0, 0, 0, 0, 0, 0, 0, 0, 0, 0, 0, 0, 0, 0,
    0, 0, 0, 0, 0, 0, 0, 0, 0, 0, 0, 0, 0,
];

const LOOKUP: [u8; 42] = [
    42, 0, 0, 0, 1, 0, 0, 0, 52, 0, 0, 0, 0, 0, 0, 0, 1, 0, 0, 0, 0, 0, 0, 0, 0, 0, 0, 0, 0, 0, 0,
    0, 226, 83, 0, 0, 0, 0, 0, 0, 97, 0,
];

const CREATE: [u8; 58] = [
    58, 0, 0, 0, 35, 0, 0, 0, 54, 0, 0, 0, 0, 0, 0, 0, 1, 0, 0, 0, 0, 0, 0, 0, 0, 0, 0, 0, 0, 0, 0,
    0, 226, 83, 0, 0, 0, 0, 0, 0, 65, 130, 0, 0, 164, 129, 0, 0, 18, 0, 0, 0, 0, 0, 0, 0, 97, 0,
];

const WRITE: [u8; 86] = [
    86, 0, 0, 0, 16, 0, 0, 0, 60, 0, 0, 0, 0, 0, 0, 0, 2, 0, 0, 0, 0, 0, 0, 0, 0, 0, 0, 0, 0, 0, 0,
    0, 226, 83, 0, 0, 0, 0, 0, 0, 2, 0, 0, 0, 0, 0, 0, 0, 0, 0, 0, 0, 0, 0, 0, 0, 6, 0, 0, 0, 0, 0,
    0, 0, 0, 0, 0, 0, 0, 0, 0, 0, 1, 128, 0, 0, 0, 0, 0, 0, 104, 101, 108, 108, 111, 10,
];

const RENAME: [u8; 60] = [
    60, 0, 0, 0, 45, 0, 0, 0, 110, 0, 0, 0, 0, 0, 0, 0, 1, 0, 0, 0, 0, 0, 0, 0, 0, 0, 0, 0, 0, 0,
    0, 0, 245, 83, 0, 0, 0, 0, 0, 0, 3, 0, 0, 0, 0, 0, 0, 0, 1, 0, 0, 0, 0, 0, 0, 0, 97, 0, 98, 0,
];

const TRUNCATE: [u8; 128] = [
    128, 0, 0, 0, 4, 0, 0, 0, 146, 0, 0, 0, 0, 0, 0, 0, 2, 0, 0, 0, 0, 0, 0, 0, 0, 0, 0, 0, 0, 0,
    0, 0, 247, 83, 0, 0, 0, 0, 0, 0, 72, 2, 0, 0, 0, 0, 0, 0, 2, 0, 0, 0, 0, 0, 0, 0, 3, 0, 0, 0,
    0, 0, 0, 0, 236, 51, 92, 61, 202, 240, 205, 42, 0, 0, 0, 0, 0, 0, 0, 0, 0, 0, 0, 0, 0, 0, 0, 0,
    0, 0, 0, 0, 0, 0, 0, 0, 0, 0, 0, 0, 0, 0, 0, 0, 0, 0, 0, 0, 0, 0, 0, 0, 0, 0, 0, 0, 0, 0, 0, 0,
    0, 0, 0, 0, 0, 0, 0, 0,
];

const FORGET: [u8; 48] = [
    48, 0, 0, 0, 2, 0, 0, 0, 8, 1, 0, 0, 0, 0, 0, 0, 4, 0, 0, 0, 0, 0, 0, 0, 0, 0, 0, 0, 0, 0, 0,
    0, 0, 0, 0, 0, 0, 0, 0, 0, 2, 0, 0, 0, 0, 0, 0, 0,
];

const AGREED: [u8; 80] = [
    80, 0, 0, 0, 0, 0, 0, 0, 2, 0, 0, 0, 0, 0, 0, 0, 7, 0, 0, 0, 31, 0, 0, 0, 0, 0, 2, 0, 33, 96,
    68, 0, 12, 0, 9, 0, 0, 0, 2, 0, 1, 0, 0, 0, 32, 0, 0, 0, 0, 0, 0, 0, 0, 0, 0, 0, 0, 0, 0, 0, 0,
    0, 0, 0, 0, 0, 0, 0, 0, 0, 0, 0, 0, 0, 0, 0, 0, 0, 0, 0,
];

const ROOT: [u8; 120] = [
    120, 0, 0, 0, 0, 0, 0, 0, 4, 0, 0, 0, 0, 0, 0, 0, 0, 0, 0, 0, 0, 0, 0, 0, 0, 0, 0, 0, 0, 0, 0,
    0, 1, 0, 0, 0, 0, 0, 0, 0, 0, 0, 0, 0, 0, 0, 0, 0, 1, 0, 0, 0, 0, 0, 0, 0, 0, 0, 0, 0, 0, 0, 0,
    0, 0, 0, 0, 0, 0, 0, 0, 0, 0, 0, 0, 0, 0, 0, 0, 0, 0, 0, 0, 0, 0, 0, 0, 0, 0, 0, 0, 0, 237, 65,
    0, 0, 2, 0, 0, 0, 0, 0, 0, 0, 0, 0, 0, 0, 0, 0, 0, 0, 0, 4, 0, 0, 0, 0, 0, 0,
];

const ROOM: [u8; 96] = [
    96, 0, 0, 0, 0, 0, 0, 0, 228, 0, 0, 0, 0, 0, 0, 0, 100, 0, 0, 0, 0, 0, 0, 0, 50, 0, 0, 0, 0, 0,
    0, 0, 50, 0, 0, 0, 0, 0, 0, 0, 20, 0, 0, 0, 0, 0, 0, 0, 10, 0, 0, 0, 0, 0, 0, 0, 0, 4, 0, 0,
    56, 0, 0, 0, 0, 4, 0, 0, 0, 0, 0, 0, 0, 0, 0, 0, 0, 0, 0, 0, 0, 0, 0, 0, 0, 0, 0, 0, 0, 0, 0,
    0, 0, 0, 0, 0,
];

// A listing of a file, with what its name leads to.
const LISTED: [u8; 160] = [
    2, 0, 0, 0, 0, 0, 0, 0, 0, 0, 0, 0, 0, 0, 0, 0, 0, 0, 0, 0, 0, 0, 0, 0, 0, 0, 0, 0, 0, 0, 0, 0,
    0, 0, 0, 0, 0, 0, 0, 0, 2, 0, 0, 0, 0, 0, 0, 0, 4, 0, 0, 0, 0, 0, 0, 0, 1, 0, 0, 0, 0, 0, 0, 0,
    0, 0, 0, 0, 0, 0, 0, 0, 0, 0, 0, 0, 0, 0, 0, 0, 0, 0, 0, 0, 0, 0, 0, 0, 0, 0, 0, 0, 0, 0, 0, 0,
    0, 0, 0, 0, 128, 129, 0, 0, 1, 0, 0, 0, 0, 0, 0, 0, 0, 0, 0, 0, 0, 0, 0, 0, 0, 4, 0, 0, 0, 0,
    0, 0, 2, 0, 0, 0, 0, 0, 0, 0, 3, 0, 0, 0, 0, 0, 0, 0, 1, 0, 0, 0, 8, 0, 0, 0, 98, 0, 0, 0, 0,
    0, 0, 0,
];

// Requests of attributes and links, and the attributes of a device, as the header has them.

const READ_LINK: [u8; 40] = [
    40, 0, 0, 0, 5, 0, 0, 0, 70, 0, 0, 0, 0, 0, 0, 0, 9, 0, 0, 0, 0, 0, 0, 0, 232, 3, 0, 0, 100, 0,
    0, 0, 5, 0, 0, 0, 0, 0, 0, 0,
];

const MAKE_LINK: [u8; 46] = [
    46, 0, 0, 0, 6, 0, 0, 0, 72, 0, 0, 0, 0, 0, 0, 0, 1, 0, 0, 0, 0, 0, 0, 0, 232, 3, 0, 0, 100, 0,
    0, 0, 5, 0, 0, 0, 0, 0, 0, 0, 108, 0, 97, 47, 98, 0,
];

const MAKE_DEVICE: [u8; 58] = [
    58, 0, 0, 0, 8, 0, 0, 0, 74, 0, 0, 0, 0, 0, 0, 0, 1, 0, 0, 0, 0, 0, 0, 0, 232, 3, 0, 0, 100, 0,
    0, 0, 5, 0, 0, 0, 0, 0, 0, 0, 160, 97, 0, 0, 1, 8, 0, 0, 18, 0, 0, 0, 0, 0, 0, 0, 100, 0,
];

const SET_ALL: [u8; 128] = [
    128, 0, 0, 0, 4, 0, 0, 0, 76, 0, 0, 0, 0, 0, 0, 0, 2, 0, 0, 0, 0, 0, 0, 0, 232, 3, 0, 0, 100,
    0, 0, 0, 5, 0, 0, 0, 0, 0, 0, 0, 183, 0, 0, 0, 0, 0, 0, 0, 0, 0, 0, 0, 0, 0, 0, 0, 0, 0, 0, 0,
    0, 0, 0, 0, 0, 0, 0, 0, 0, 0, 0, 0, 0, 0, 0, 0, 0, 0, 0, 0, 255, 255, 255, 255, 255, 255, 255,
    255, 0, 0, 0, 0, 0, 0, 0, 0, 0, 0, 0, 0, 5, 0, 0, 0, 0, 0, 0, 0, 237, 137, 0, 0, 0, 0, 0, 0,
    232, 3, 0, 0, 100, 0, 0, 0, 0, 0, 0, 0,
];

const DEVICE: [u8; 120] = [
    120, 0, 0, 0, 0, 0, 0, 0, 78, 0, 0, 0, 0, 0, 0, 0, 1, 0, 0, 0, 0, 0, 0, 0, 0, 0, 0, 0, 0, 0, 0,
    0, 9, 0, 0, 0, 0, 0, 0, 0, 0, 0, 0, 0, 0, 0, 0, 0, 0, 0, 0, 0, 0, 0, 0, 0, 1, 0, 0, 0, 0, 0, 0,
    0, 255, 255, 255, 255, 255, 255, 255, 255, 3, 0, 0, 0, 0, 0, 0, 0, 4, 0, 0, 0, 5, 0, 0, 0, 6,
    0, 0, 0, 160, 97, 0, 0, 1, 0, 0, 0, 232, 3, 0, 0, 100, 0, 0, 0, 1, 8, 0, 0, 0, 4, 0, 0, 0, 0,
    0, 0,
];

const NEVER: Time = Time {
    seconds: 0,
    nanoseconds: 0,
};

/// The attributes of a file, or of a directory, of which nothing else is known.
fn attributes(inode: u64, mode: u32, links: u32) -> Attributes {
    Attributes {
        inode,
        size: 0,
        blocks: 1,
        accessed: NEVER,
        modified: NEVER,
        changed: NEVER,
        mode,
        links,
        user: 0,
        group: 0,
        device: 0,
        block_bytes: 1024,
    }
}

fn at(seconds: u64, nanoseconds: u32) -> Time {
    Time {
        seconds,
        nanoseconds,
    }
}

fn request(message: &[u8]) -> Option<Request<'_>> {
    let (_, request) = read(message)?;
    Some(request)
}

#[test]
fn the_first_request_is_answered(rt: HostRuntime) -> Result<(), Fail> {
    let (head, asked) = read(&INIT).ok_or("a request")?;
    same(&rt, "its number", head.unique, Unique(2));
    same(&rt, "its node", head.node, NodeId(0));
    let offer = Offer {
        major: 7,
        minor: 45,
        readahead: 131_072,
        flags: 0x73ff_fffb,
    };
    holds(&rt, "asked", asked == Request::Init(offer));
    let agreed = Agreement {
        major: 7,
        minor: 31,
        readahead: 131_072,
        flags: flags::ASYNC_READ
            | flags::BIG_WRITES
            | flags::PARALLEL_DIROPS
            | flags::DO_READDIRPLUS
            | flags::READDIRPLUS_AUTO
            | flags::MAX_PAGES,
        background: 12,
        congestion: 9,
        most_written: 131_072,
        time_step: 1,
        pages: 32,
    };
    let mut out = Vec::new(rt.alloc());
    write(&mut out, head.unique, Ok(Body::Agreement(agreed)))?;
    same(&rt, "agreed", out.as_slice(), AGREED.as_slice());
    Ok(())
}

#[test]
fn requests_are_read(rt: HostRuntime) {
    holds(
        &rt,
        "lookup",
        request(&LOOKUP)
            == Some(Request::Lookup {
                name: b"a".as_slice(),
            }),
    );
    let created = Request::Create {
        flags: 0x8241,
        mode: 0o100_644,
        umask: 0o22,
        name: b"a".as_slice(),
    };
    holds(&rt, "create", request(&CREATE) == Some(created));
    let written = Request::Write {
        handle: Handle(2),
        offset: 0,
        bytes: b"hello\n".as_slice(),
    };
    holds(&rt, "write", request(&WRITE) == Some(written));
    let renamed = Request::Rename {
        directory: NodeId(3),
        flags: flags::NO_REPLACE,
        old: b"a".as_slice(),
        new: b"b".as_slice(),
    };
    holds(&rt, "rename", request(&RENAME) == Some(renamed));
    holds(
        &rt,
        "forget",
        request(&FORGET) == Some(Request::Forget { lookups: 2 }),
    );
    holds(&rt, "cut off", request(&WRITE[..85]).is_none());
}

#[test]
fn links_and_devices_are_read(rt: HostRuntime) -> Result<(), Fail> {
    let (head, asked) = read(&READ_LINK).ok_or("a request")?;
    same(&rt, "its node", head.node, NodeId(9));
    same(&rt, "who asks", (head.user, head.group), (1000, 100));
    holds(&rt, "read", asked == Request::ReadSymbolicLink);
    let made = Request::MakeSymbolicLink {
        name: b"l".as_slice(),
        target: b"a/b".as_slice(),
    };
    holds(&rt, "made", request(&MAKE_LINK) == Some(made));
    // Without the end of its target it is none.
    holds(&rt, "cut off", request(&MAKE_LINK[..45]).is_none());
    let device = Request::MakeNode {
        mode: 0o60_640,
        device: 0x801,
        umask: 0o22,
        name: b"d".as_slice(),
    };
    holds(&rt, "a device", request(&MAKE_DEVICE) == Some(device));
    Ok(())
}

#[test]
fn attributes_are_read(rt: HostRuntime) {
    let changes = Changes {
        handle: Some(Handle(2)),
        size: Some(3),
        mode: None,
        user: None,
        group: None,
        accessed: None,
        modified: None,
        changed: None,
    };
    holds(
        &rt,
        "truncate",
        request(&TRUNCATE) == Some(Request::SetAttributes(changes)),
    );
    // The time of the call for one, and for the other a second before 1970 and 5 nanoseconds.
    let all = Changes {
        handle: None,
        size: None,
        mode: Some(0o104_755),
        user: Some(1000),
        group: Some(100),
        accessed: Some(Moment::Now),
        modified: Some(Moment::At(Time {
            seconds: u64::MAX,
            nanoseconds: 5,
        })),
        changed: None,
    };
    holds(
        &rt,
        "all but the size",
        request(&SET_ALL) == Some(Request::SetAttributes(all)),
    );
}

#[test]
fn replies_are_written(rt: HostRuntime) -> Result<(), Fail> {
    let mut out = Vec::new(rt.alloc());
    let root = Body::Attributes {
        kept: NEVER,
        attributes: attributes(1, 0o40_755, 2),
    };
    write(&mut out, Unique(4), Ok(root))?;
    same(&rt, "the root", out.as_slice(), ROOT.as_slice());
    let room = Statistics {
        blocks: 100,
        free_blocks: 50,
        available_blocks: 50,
        inodes: 20,
        free_inodes: 10,
        block_bytes: 1024,
        name_bytes: 56,
    };
    write(&mut out, Unique(228), Ok(Body::Statistics(room)))?;
    same(&rt, "room", out.as_slice(), ROOM.as_slice());
    write(&mut out, Unique(7), Err(Errno::NotFound))?;
    same(
        &rt,
        "a refusal",
        out.as_slice(),
        [16, 0, 0, 0, 254, 255, 255, 255, 7, 0, 0, 0, 0, 0, 0, 0].as_slice(),
    );
    Ok(())
}

#[test]
fn the_number_of_a_device_is_written(rt: HostRuntime) -> Result<(), Fail> {
    let mut out = Vec::new(rt.alloc());
    let device = Attributes {
        blocks: 0,
        accessed: at(1, 4),
        modified: at(u64::MAX, 5),
        changed: at(3, 6),
        user: 1000,
        group: 100,
        device: 0x801,
        ..attributes(9, 0o60_640, 1)
    };
    let told = Body::Attributes {
        kept: at(1, 0),
        attributes: device,
    };
    write(&mut out, Unique(78), Ok(told))?;
    same(&rt, "a device", out.as_slice(), DEVICE.as_slice());
    Ok(())
}

#[test]
fn a_listing_ends_where_no_room_is(rt: HostRuntime) -> Result<(), Fail> {
    let entry = Entry {
        node: NodeId(2),
        generation: 0,
        name_kept: NEVER,
        attributes_kept: NEVER,
        attributes: Attributes {
            size: 4,
            ..attributes(2, 0o100_600, 1)
        },
    };
    let listed = DirectoryEntry {
        inode: 2,
        next: 3,
        kind: Kind::File,
        name: b"b".as_slice(),
    };
    let mut listing = Vec::new(rt.alloc());
    holds(
        &rt,
        "room",
        push_entry_plus(&mut listing, 168, Some(&entry), &listed)?,
    );
    holds(&rt, "no room", !push_entry(&mut listing, 191, &listed)?);
    same(&rt, "listed", listing.as_slice(), LISTED.as_slice());
    holds(&rt, "room", push_entry(&mut listing, 192, &listed)?);
    same(&rt, "all", listing.len(), 192);
    Ok(())
}
