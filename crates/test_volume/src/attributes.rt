//! Attributes: what is made has those that are given, they stay until others are set, and each image that is held has whole ones.
use crate::expect::{holds, same};
use crate::volumes::on_mounted;
use device::MemDevice;
use frozen::{Frozen, load};
use inode::ATTRIBUTES;
use layout::{ROOT, Refusal};
use snapshot::{Command, NO_ATTRIBUTES, Volume};
use std::alloc::Global;
use std::process::Abort;
use std::test::Fail;
use test_mounted::VERSIONS;

/// Numbers of which no two are the same.
const FIRST: [u32; ATTRIBUTES] = [
    0x3141_5346,
    0x81a4,
    1000,
    100,
    5,
    6,
    7,
    8,
    9,
    10,
    11,
    12,
    13,
    14,
    15,
    0xffff_ffff,
];

/// Others, each other than the first ones.
const SECOND: [u32; ATTRIBUTES] = [
    0x8000_0000,
    0x41ed,
    1001,
    101,
    55,
    66,
    77,
    88,
    99,
    110,
    111,
    112,
    113,
    114,
    115,
    0x7fff_ffff,
];

/// The first file has this number, and the directory beside it the next.
const FILE: u32 = 3;

const DIRECTORY: u32 = 4;

/// A file with the first attributes.
fn create(alloc: Global, path: &[u8]) -> Result<Command, Refusal> {
    let path = path.to_vec(alloc)?;
    let attributes = FIRST;
    Ok(Command::Create { path, attributes })
}

/// A directory with the second ones.
fn mkdir(alloc: Global, path: &[u8]) -> Result<Command, Refusal> {
    let path = path.to_vec(alloc)?;
    let attributes = SECOND;
    Ok(Command::Mkdir { path, attributes })
}

/// A name that is taken away.
fn unlink(alloc: Global, path: &[u8]) -> Result<Command, Refusal> {
    Ok(Command::Unlink(path.to_vec(alloc)?))
}

/// A second name of a file.
fn link(alloc: Global, path: &[u8], other: &[u8]) -> Result<Command, Refusal> {
    let path = path.to_vec(alloc)?;
    Ok(Command::Link(path, other.to_vec(alloc)?))
}

/// A file without attributes.
fn create_bare(alloc: Global, path: &[u8]) -> Result<Command, Refusal> {
    Ok(Command::create(path.to_vec(alloc)?))
}

/// An inode gets the second ones.
fn set(inode: u32) -> Command {
    let attributes = SECOND;
    Command::SetAttributes { inode, attributes }
}

/// Expects a volume to do this.
fn expect_done<R: AllocGlobal + Abort>(
    rt: &R,
    volume: &mut Volume<MemDevice>,
    place: &'static str,
    command: Result<Command, Refusal>,
) -> Result<(), Refusal> {
    let command = command?;
    let reply = volume.apply(rt.alloc(), &command);
    holds(rt, place, reply.is_ok());
    Ok(())
}

/// The attributes in the record of an inode, where there is such a number.
fn attributes_of(frozen: &Frozen, inode: u32) -> Option<[u32; ATTRIBUTES]> {
    if inode < ROOT || frozen.geometry().inodes() <= inode {
        return None;
    }
    let record = frozen.record(inode);
    let attributes = record.attributes;
    Some(attributes)
}

/// Expects users to see these attributes of an inode.
fn expect_seen<R: Abort>(
    rt: &R,
    volume: &Volume<MemDevice>,
    place: &'static str,
    inode: u32,
    wanted: [u32; ATTRIBUTES],
) {
    let found = attributes_of(volume.live().metadata(), inode);
    same(rt, place, found, Some(wanted));
}

/// Makes a file and a directory, with a second name of the file.
fn make<R: AllocGlobal + Abort>(rt: &R, volume: &mut Volume<MemDevice>) -> Result<(), Refusal> {
    let alloc = rt.alloc();
    expect_done(rt, volume, "create", create(alloc, b"/f"))?;
    expect_done(rt, volume, "mkdir", mkdir(alloc, b"/d"))?;
    expect_done(rt, volume, "link", link(alloc, b"/f", b"/g"))?;
    Ok(())
}

/// Expects what is made to have its attributes, until others are set; a snapshot has those of its freeze.
fn expect_set<R: AllocGlobal + Abort>(
    rt: &R,
    volume: &mut Volume<MemDevice>,
) -> Result<(), Refusal> {
    make(rt, volume)?;
    expect_seen(rt, volume, "the file", FILE, FIRST);
    expect_seen(rt, volume, "the directory", DIRECTORY, SECOND);
    expect_seen(rt, volume, "the root", ROOT, NO_ATTRIBUTES);
    expect_frozen(rt, volume)
}

/// Expects a snapshot to have the attributes of its freeze, whatever is set then.
fn expect_frozen<R: AllocGlobal + Abort>(
    rt: &R,
    volume: &mut Volume<MemDevice>,
) -> Result<(), Refusal> {
    let (_, frozen) = volume.freeze(rt.alloc())?;
    let reply = volume.apply(rt.alloc(), &set(FILE));
    holds(rt, "set", reply.is_ok());
    expect_seen(rt, volume, "the file then", FILE, SECOND);
    let then = attributes_of(&frozen, FILE);
    same(rt, "the file that is frozen", then, Some(FIRST));
    Ok(())
}

/// Expects attributes of what is no sound inode to be refused.
fn expect_refused<R: AllocGlobal + Abort>(
    rt: &R,
    volume: &mut Volume<MemDevice>,
) -> Result<(), Refusal> {
    for inode in [0, 1, FILE, 16, 17, u32::MAX] {
        let reply = volume.apply(rt.alloc(), &set(inode));
        holds(rt, inode, matches!(reply, Err(Refusal::NotFound)));
    }
    Ok(())
}

/// Makes the file, takes both its names away, and makes one without attributes.
fn make_anew<R: AllocGlobal + Abort>(
    rt: &R,
    volume: &mut Volume<MemDevice>,
) -> Result<(), Refusal> {
    let alloc = rt.alloc();
    make(rt, volume)?;
    expect_done(rt, volume, "one name", unlink(alloc, b"/f"))?;
    expect_done(rt, volume, "both", unlink(alloc, b"/g"))?;
    expect_seen(rt, volume, "no file", FILE, NO_ATTRIBUTES);
    expect_done(rt, volume, "another", create_bare(alloc, b"/h"))?;
    expect_seen(rt, volume, "another file", FILE, NO_ATTRIBUTES);
    Ok(())
}

/// The attributes of the file in the image that the device of a volume held after so many of its writes.
fn held_after(
    alloc: Global,
    volume: &Volume<MemDevice>,
    writes: usize,
) -> Result<Option<[u32; ATTRIBUTES]>, Refusal> {
    let mut image = volume.live().device().image_after(alloc, writes)?;
    let frozen = load(alloc, &mut image)?;
    Ok(attributes_of(&frozen, FILE))
}

/// Whether these are attributes that the file was given at once, or none yet.
fn is_whole(found: Option<[u32; ATTRIBUTES]>) -> bool {
    match found {
        Some(found) => found == NO_ATTRIBUTES || found == FIRST || found == SECOND,
        None => false,
    }
}

/// Expects each image that was held to have whole attributes of the file, and the last one those that were set last.
fn expect_held<R: AllocGlobal + Abort>(
    rt: &R,
    volume: &mut Volume<MemDevice>,
) -> Result<(), Refusal> {
    let mounted = volume.live().device().writes();
    make(rt, volume)?;
    expect_done(rt, volume, "first sync", Ok(Command::Sync))?;
    expect_done(rt, volume, "set", Ok(set(FILE)))?;
    expect_done(rt, volume, "second sync", Ok(Command::Sync))?;
    let writes = volume.live().device().writes();
    for written in mounted..writes {
        let found = held_after(rt.alloc(), volume, written)?;
        holds(rt, written, is_whole(found));
    }
    let last = held_after(rt.alloc(), volume, writes)?;
    same(rt, "at the end", last, Some(SECOND));
    Ok(())
}

#[test]
fn attributes_are_those_that_were_set_last(rt: HostRuntime) -> Result<(), Fail> {
    for version in VERSIONS {
        on_mounted(
            rt.alloc(),
            version,
            16,
            &[],
            |volume| expect_set(&rt, volume),
        )?;
    }
    Ok(())
}

#[test]
fn attributes_of_no_inode_are_refused(rt: HostRuntime) -> Result<(), Fail> {
    for version in VERSIONS {
        on_mounted(rt.alloc(), version, 16, &[], |volume| {
            expect_refused(&rt, volume)
        })?;
    }
    Ok(())
}

#[test]
fn a_freed_inode_loses_its_attributes(rt: HostRuntime) -> Result<(), Fail> {
    for version in VERSIONS {
        on_mounted(rt.alloc(), version, 16, &[], |volume| {
            make_anew(&rt, volume)
        })?;
    }
    Ok(())
}

#[test]
fn each_image_held_has_whole_attributes(rt: HostRuntime) -> Result<(), Fail> {
    for version in VERSIONS {
        on_mounted(rt.alloc(), version, 16, &[], |volume| {
            expect_held(&rt, volume)
        })?;
    }
    Ok(())
}
