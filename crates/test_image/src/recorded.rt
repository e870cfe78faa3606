use crate::expect::{holds, same};
use device::{Device, Fuse, MemDevice};
use layout::{BLOCK_BYTES, Block, Refusal};
use recording::{Recording, Written};
use std::test::Fail;

/// A block of this byte.
fn block_of(byte: u8) -> Block {
    [byte; BLOCK_BYTES]
}

/// A write of a block of this byte.
fn write_of(address: u32, byte: u8) -> Written {
    Written {
        address,
        block: block_of(byte),
    }
}

/// Whether a device has a block of this byte there.
fn has<D: Device>(device: &mut D, address: u32, byte: u8) -> bool {
    let mut block = block_of(0);
    address < device.blocks() && device.read(address, &mut block).is_ok() && block == block_of(byte)
}

#[test]
fn writes_are_kept_and_repeated(rt: HostRuntime) -> Result<(), Fail> {
    let zeroes = [0; 2 * BLOCK_BYTES];
    let below = MemDevice::from_bytes(rt.alloc(), zeroes.as_slice())?;
    let mut device = Recording::new(rt.alloc(), below);
    let mut copy = MemDevice::from_bytes(rt.alloc(), zeroes.as_slice())?;
    let writes = [write_of(1, 5), write_of(0, 6), write_of(1, 7)];
    for written in &writes {
        written.repeat_on(&mut device)?;
    }
    device.sync()?;
    holds(&rt, "kept", device.writes() == writes.as_slice());
    for written in device.writes() {
        written.repeat_on(&mut copy)?;
    }
    holds(
        &rt,
        "the first",
        has(&mut device, 0, 6) && has(&mut device, 1, 7),
    );
    holds(
        &rt,
        "the copy",
        has(&mut copy, 0, 6) && has(&mut copy, 1, 7),
    );
    Ok(())
}

#[test]
fn a_failed_write_is_not_kept(rt: HostRuntime) -> Result<(), Fail> {
    let zeroes = [0; BLOCK_BYTES];
    let below = MemDevice::from_bytes(rt.alloc(), zeroes.as_slice())?;
    let mut device = Recording::new(rt.alloc(), Fuse::new(below, 1, true));
    write_of(0, 1).repeat_on(&mut device)?;
    same(
        &rt,
        "a fault",
        write_of(0, 2).repeat_on(&mut device),
        Err(Refusal::Device),
    );
    write_of(0, 3).repeat_on(&mut device)?;
    same(
        &rt,
        "no such block",
        write_of(1, 4).repeat_on(&mut device),
        Err(Refusal::BadIndex),
    );
    holds(
        &rt,
        "kept",
        device.writes() == [write_of(0, 1), write_of(0, 3)].as_slice(),
    );
    Ok(())
}
