ghost use Rattle.std.specs.Prelude.{◌≡◌};
ghost use Rattle.model.specs.Cells.{SetInode};
ghost use Rattle.updates.specs.Values.{change};

use crate::expect::{holds, same};
use inode::{ATTRIBUTES, DIRECT_POINTERS, FILE, RECORD_BYTES, Record};
use layout::{BLOCK_BYTES, Block, DOUBLE, Geometry, SINGLE};
use smallvec::smallvec;
use std::alloc::{AllocError, Global};
use std::process::Abort;
use std::sync::Arc;
use updates::{Cell, Change, Update, places};

/// Two groups of 16 blocks and 16 inodes: maps at 1 and 17, data from 4 to 16 and from 20 to 32.
fn small<A: Abort>(rt: &A) -> Geometry
    ensures { result ≡ record { groups = 2; blocks = 16; inodes = 16; version = 1 } }
{
    Geometry::new(2, 16, 16).expect(rt, "a geometry")
}

#[test]
fn cells_stand_in_their_blocks(rt: HostRuntime) {
    let geometry = small(&rt);
    same(&rt, Cell::Record(2), Cell::Record(2).home(&geometry), 2);
    same(&rt, Cell::Record(8), Cell::Record(8).home(&geometry), 3);
    same(&rt, Cell::Record(31), Cell::Record(31).home(&geometry), 19);
    same(
        &rt,
        Cell::NumberBit(15),
        Cell::NumberBit(15).home(&geometry),
        1,
    );
    same(
        &rt,
        Cell::NumberBit(16),
        Cell::NumberBit(16).home(&geometry),
        17,
    );
    same(
        &rt,
        Cell::BlockBit(16),
        Cell::BlockBit(16).home(&geometry),
        1,
    );
    same(
        &rt,
        Cell::BlockBit(20),
        Cell::BlockBit(20).home(&geometry),
        17,
    );
    same(&rt, Cell::Block(20), Cell::Block(20).home(&geometry), 20);
}

#[test]
fn cells_have_places_in_one_table(rt: HostRuntime) {
    let geometry = small(&rt);
    same(&rt, "places", places(&geometry), 130);
    same(&rt, Cell::Record(31), Cell::Record(31).place(&geometry), 31);
    same(
        &rt,
        Cell::NumberBit(2),
        Cell::NumberBit(2).place(&geometry),
        34,
    );
    same(
        &rt,
        Cell::BlockBit(4),
        Cell::BlockBit(4).place(&geometry),
        68,
    );
    same(&rt, Cell::Block(32), Cell::Block(32).place(&geometry), 129);
}

/// A record of a file, without a double indirect pointer.
fn record() -> Record
    ensures { result.double ≡ 0 }
{
    Record {
        mode: FILE,
        links: 1,
        size: 0x0304,
        direct: [5; DIRECT_POINTERS],
        indirect: 6,
        double: 0,
        attributes: [7; ATTRIBUTES],
    }
}

/// A block of the byte 0xAA with that record in its second place.
fn block_with_record() -> Block {
    let mut block = [0xaa; BLOCK_BYTES];
    block[128..188].copy_from_slice(&[0; 60]);
    block[128] = 1;
    block[130] = 1;
    block[132] = 4;
    block[133] = 3;
    for place in 0..DIRECT_POINTERS {
        block[136 + 4 * place] = 5;
    }
    block[128 + 56] = 6;
    block[192..256].copy_from_slice(&[0; 64]);
    for place in 0..ATTRIBUTES {
        block[192 + 4 * place] = 7;
    }
    block
}

/// The change that gives number 9 this record.
fn of_record_9<R: AllocGlobal + Abort>(rt: &R, inode: Record) -> Change
    ensures { change result ≡ SetInode 9 inode }
{
    Change::of_record(rt.alloc(), 9, inode).expect(rt, "memory")
}

#[test]
fn a_record_is_put_among_its_neighbours(rt: HostRuntime) {
    let mut block = [0xaa; BLOCK_BYTES];
    of_record_9(&rt, record()).put(&small(&rt), &mut block);
    holds(
        &rt,
        "the block of inodes 8 to 15",
        block == block_with_record(),
    );
}

#[test]
fn a_record_is_read_where_it_was_put(rt: HostRuntime) {
    let block = block_with_record();
    let (records, _) = block.as_chunks::<RECORD_BYTES>();
    same(
        &rt,
        "the record",
        Record::read(SINGLE, &records[1]),
        record(),
    );
    same(
        &rt,
        "its cell",
        of_record_9(&rt, record()).cell(),
        Cell::Record(9),
    );
}

#[test]
fn a_record_of_version_2_is_put_with_its_double_pointer(rt: HostRuntime) {
    let geometry = small(&rt).with_version(DOUBLE).expect(&rt, "version 2");
    let mut block = [0xaa; BLOCK_BYTES];
    let record = Record {
        double: 7,
        ..record()
    };
    of_record_9(&rt, record).put(&geometry, &mut block);
    let mut wanted = block_with_record();
    wanted[128 + 60..128 + 64].copy_from_slice(&[7, 0, 0, 0]);
    holds(&rt, "the block of inodes 8 to 15", block == wanted);
}

#[test]
fn bits_are_put_among_their_neighbours(rt: HostRuntime) {
    let geometry = small(&rt);
    same(
        &rt,
        "of a number",
        Change::SetNumber(26, true).cell(),
        Cell::NumberBit(26),
    );
    same(
        &rt,
        "of a block",
        Change::SetBlock(31, true).cell(),
        Cell::BlockBit(31),
    );
    let mut block = [0; BLOCK_BYTES];
    Change::SetNumber(26, true).put(&geometry, &mut block);
    let mut wanted = [0; BLOCK_BYTES];
    wanted[33] = 0x04;
    holds(&rt, "number 26 is marked", block == wanted);
    Change::SetBlock(31, true).put(&geometry, &mut block);
    wanted[161] = 0x08;
    holds(&rt, "block 31 is marked", block == wanted);
}

#[test]
fn bits_are_cleared_among_their_neighbours(rt: HostRuntime) {
    let geometry = small(&rt);
    let mut block = [0xff; BLOCK_BYTES];
    Change::SetNumber(2, false).put(&geometry, &mut block);
    let mut wanted = [0xff; BLOCK_BYTES];
    wanted[32] = 0xfb;
    holds(&rt, "number 2 is not marked", block == wanted);
    Change::SetBlock(4, false).put(&geometry, &mut block);
    wanted[160] = 0xfe;
    holds(&rt, "block 4 is not marked", block == wanted);
}

/// A change that gives block 32 these bytes.
fn whole_block(alloc: Global, bytes: Block) -> Result<Change, AllocError> {
    Ok(Change::SetBytes(32, Arc::new(alloc, bytes)?))
}

#[test]
fn a_block_is_put_whole(rt: HostRuntime) -> Result<(), AllocError> {
    let bytes = [7; BLOCK_BYTES];
    let mut block = [0xaa; BLOCK_BYTES];
    let change = Change::SetBytes(32, Arc::new(rt.alloc(), bytes)?);
    change.put(&small(&rt), &mut block);
    holds(&rt, "the block's new bytes", block == bytes);
    Ok(())
}

/// An update by which block 32 gets other bytes, once it is marked.
fn update_of_a_block(alloc: Global) -> Result<Update, AllocError> {
    let after = smallvec![in alloc; Cell::BlockBit(32)]?;
    Ok(Update {
        change: whole_block(alloc, [7; BLOCK_BYTES])?,
        file: Some(9),
        after,
    })
}

#[test]
fn an_update_has_the_cell_of_its_change(rt: HostRuntime) -> Result<(), AllocError> {
    let update = update_of_a_block(rt.alloc())?;
    same(&rt, "its cell", update.change.cell(), Cell::Block(32));
    Ok(())
}
