use crate::expect::same;
use device::{Device, Fuse, MemDevice, set_byte};
use layout::{BLOCK_BYTES, Block, Refusal};
use std::alloc::{AllocError, Global};
use std::test::Fail;
use test_images::zeroes;

/// The block of this address; `None` where there is none, or the device failed.
fn read_block<D: Device>(device: &mut D, address: u32) -> Option<Block> {
    if address >= device.blocks() {
        return None;
    }
    let mut block = [0; BLOCK_BYTES];
    match device.read(address, &mut block) {
        Ok(()) => Some(block),
        Err(_) => None,
    }
}

/// Writes a block of nines.
fn write_nines<D: Device>(device: &mut D, address: u32) -> Result<(), Refusal> {
    if address >= device.blocks() {
        return Err(Refusal::BadIndex);
    }
    device.write(address, &[9; BLOCK_BYTES])?;
    Ok(())
}

/// How many bytes are given, and how many blocks they make.
const LENGTHS: &[(usize, Result<u32, Refusal>)] = &[
    (17_408, Ok(17)),
    (1_024, Ok(1)),
    (0, Err(Refusal::BadLength)),
    (1_023, Err(Refusal::BadLength)),
    (17_407, Err(Refusal::BadLength)),
];

/// How many blocks a device of so many bytes has.
fn blocks_of(alloc: Global, length: usize) -> Result<Result<u32, Refusal>, AllocError> {
    let bytes = vec![in alloc; 0; length]?;
    Ok(MemDevice::from_bytes(alloc, bytes.as_slice()).map(|device| device.blocks()))
}

#[test]
fn bytes_are_taken_as_whole_blocks(rt: HostRuntime) -> Result<(), Fail> {
    for (length, want) in LENGTHS {
        same(&rt, *length, blocks_of(rt.alloc(), *length)?, *want);
    }
    Ok(())
}

/// A device in memory of three blocks, of which block 1 was written with 7 as its last byte.
fn written_once(alloc: Global) -> Result<MemDevice, Refusal> {
    let mut device = zeroes(alloc, 3)?;
    match set_byte(&mut device, (1, 1023, 7)) {
        Ok(()) => Ok(device),
        Err(refusal) => Err(refusal),
    }
}

#[test]
fn a_block_in_memory_is_read_back(rt: HostRuntime) -> Result<(), Fail> {
    let mut device = written_once(rt.alloc())?;
    let mut want = [0; BLOCK_BYTES];
    same(&rt, 0, read_block(&mut device, 0), Some(want));
    same(&rt, 2, read_block(&mut device, 2), Some(want));
    want[1023] = 7;
    same(&rt, 1, read_block(&mut device, 1), Some(want));
    Ok(())
}

/// Writes 7 and then 8 as the first byte of block 1.
fn write_twice(device: &mut MemDevice) -> Result<(), Refusal> {
    set_byte(device, (1, 0, 7))?;
    set_byte(device, (1, 0, 8))
}

/// A device in memory of three blocks, of which block 1 was written with 7 and then with 8 as its first byte.
fn written_twice(alloc: Global) -> Result<MemDevice, Refusal> {
    let mut device = zeroes(alloc, 3)?;
    match write_twice(&mut device) {
        Ok(()) => Ok(device),
        Err(refusal) => Err(refusal),
    }
}

/// How many writes the image that was held after so many has seen, and the first byte of its block 1.
fn held_after(alloc: Global, device: &MemDevice, writes: usize) -> Result<(usize, u8), Refusal> {
    let mut then = device.image_after(alloc, writes)?;
    match read_block(&mut then, 1) {
        Some(block) => Ok((then.writes(), block[0])),
        None => Err(Refusal::Device),
    }
}

#[test]
fn each_image_that_was_held_is_given(rt: HostRuntime) -> Result<(), Fail> {
    let device = written_twice(rt.alloc())?;
    same(&rt, "writes", device.writes(), 2);
    for (writes, want) in [
        (0, Ok((0, 0))),
        (1, Ok((0, 7))),
        (2, Ok((0, 8))),
        (3, Err(Refusal::BadIndex)),
    ] {
        same(&rt, writes, held_after(rt.alloc(), &device, writes), want);
    }
    Ok(())
}

/// Which of five calls the device lets through.
fn answers_of(fuse: &mut Fuse<MemDevice>) -> [bool; 5] {
    [
        read_block(fuse, 1).is_some(),
        fuse.sync().is_ok(),
        write_nines(fuse, 0).is_ok(),
        write_nines(fuse, 2).is_ok(),
        read_block(fuse, 2).is_some(),
    ]
}

#[test]
fn a_fuse_fails_once_or_from_then_on(rt: HostRuntime) -> Result<(), Fail> {
    for (once, want, writes) in [
        (false, [true, true, false, false, false], 2),
        (true, [true, true, false, true, true], 3),
    ] {
        let mut fuse = Fuse::new(written_twice(rt.alloc())?, 2, once);
        same(&rt, once, answers_of(&mut fuse), want);
        same(&rt, once, fuse.device().writes(), writes);
        same(&rt, once, fuse.blocks(), 3);
    }
    Ok(())
}
