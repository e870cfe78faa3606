use crate::expect::{holds, same};
use cgmaps::{Map, put_bit, read_group};
use layout::{BLOCK_BYTES, Block, Refusal};

/// The block of maps of group 3, with nothing marked.
fn empty_group() -> Block {
    let mut block = [0; BLOCK_BYTES];
    block[..4].copy_from_slice(b"GCUS");
    block[4] = 3;
    block
}

#[test]
fn reads_the_block_of_its_own_group(rt: HostRuntime) {
    holds(&rt, "its own", read_group(&empty_group(), 3).is_ok());
    same(
        &rt,
        "another",
        read_group(&empty_group(), 4).err(),
        Some(Refusal::BadGroup(4)),
    );
    same(
        &rt,
        "zeroes",
        read_group(&[0; BLOCK_BYTES], 0).err(),
        Some(Refusal::BadGroup(0)),
    );
}

#[test]
fn reads_the_least_bit_of_a_byte_first(rt: HostRuntime) {
    let mut block = empty_group();
    block[32] = 4;
    block[161] = 0x80;
    let maps = read_group(&block, 3).expect(&rt, "the maps of group 3");
    for bit in 0..1024 {
        same(&rt, bit, maps.inode_bit(bit), bit == 2);
    }
    for bit in 0..4096 {
        same(&rt, bit, maps.block_bit(bit), bit == 15);
    }
}

#[test]
fn sets_and_clears_one_bit(rt: HostRuntime) {
    let mut block = empty_group();
    block[161] = 1;
    let mut maps = read_group(&block, 3).expect(&rt, "the maps of group 3");
    let mut marked = block;
    marked[161] = 3;
    let mut written = [0; BLOCK_BYTES];
    maps.set(Map::Blocks, 9);
    maps.write(&mut written);
    holds(&rt, "set", written == marked);
    maps.clear(Map::Blocks, 9);
    maps.write(&mut written);
    holds(&rt, "cleared", written == block);
}

#[test]
fn puts_one_bit_where_the_block_stands(rt: HostRuntime) {
    let mut block = empty_group();
    let mut marked = block;
    marked[33] = 4;
    put_bit(&mut block, Map::Inodes, 10, true);
    holds(&rt, "set", block == marked);
    put_bit(&mut block, Map::Inodes, 10, false);
    holds(&rt, "cleared", block == empty_group());
}
