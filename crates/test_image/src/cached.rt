use crate::expect::same;
use device::{CacheDevice, Device, MemDevice};
use layout::{BLOCK_BYTES, Refusal};
use std::alloc::Global;
use std::test::Fail;

/// A device with a write cache over three blocks of zeroes, on which each of these steps was made: a block of one byte is
/// written, or all is synced.
fn after(alloc: Global, steps: &[Option<(u32, u8)>]) -> Result<CacheDevice, Refusal> {
    let zeroes = [0; 3 * BLOCK_BYTES];
    let memory = MemDevice::from_bytes(alloc, zeroes.as_slice())?;
    let mut device = CacheDevice::over(alloc, memory)?;
    for step in steps {
        make(&mut device, *step)?;
    }
    Ok(device)
}

/// Makes one step.
fn make(device: &mut CacheDevice, step: Option<(u32, u8)>) -> Result<(), Refusal> {
    match step {
        Some((address, byte)) => write(device, address, byte),
        None => Ok(device.sync()?),
    }
}

/// Writes a block of this byte.
fn write(device: &mut CacheDevice, address: u32, byte: u8) -> Result<(), Refusal> {
    if address >= device.blocks() {
        return Err(Refusal::BadIndex);
    }
    Ok(device.write(address, &[byte; BLOCK_BYTES])?)
}

/// The byte of each block of a device of three.
fn bytes_of<D: Device>(device: &mut D) -> [Option<u8>; 3] {
    [byte_of(device, 0), byte_of(device, 1), byte_of(device, 2)]
}

/// The byte of which a block is.
fn byte_of<D: Device>(device: &mut D, address: u32) -> Option<u8> {
    let mut block = [0; BLOCK_BYTES];
    if address >= device.blocks() || device.read(address, &mut block).is_err() {
        return None;
    }
    if block != [block[0]; BLOCK_BYTES] {
        return None;
    }
    Some(block[0])
}

/// What a power cut leaves after so many steps, with these picks.
fn left(
    device: &CacheDevice,
    alloc: Global,
    steps: usize,
    picks: &[bool],
) -> Result<[Option<u8>; 3], Refusal> {
    Ok(bytes_of(&mut device.left(alloc, steps, picks)?))
}

#[test]
fn a_power_cut_leaves_what_is_picked(rt: HostRuntime) -> Result<(), Fail> {
    let steps = [
        Some((0, 1)),
        Some((1, 2)),
        None,
        Some((1, 3)),
        Some((2, 4)),
        Some((1, 5)),
    ];
    let alloc = rt.alloc();
    let mut device = after(alloc, &steps)?;
    let seen = |a, b, c| Ok([Some(a), Some(b), Some(c)]);
    same(&rt, "steps", device.steps().len(), 6);
    same(
        &rt,
        "all",
        bytes_of(&mut device),
        [Some(1), Some(5), Some(4)],
    );
    same(&rt, (6, 0), left(&device, alloc, 6, &[]), seen(1, 2, 0));
    same(&rt, (6, 1), left(&device, alloc, 6, &[true]), seen(1, 3, 0));
    same(
        &rt,
        (6, 2),
        left(&device, alloc, 6, &[false, true]),
        seen(1, 2, 4),
    );
    same(
        &rt,
        (6, 3),
        left(&device, alloc, 6, &[true, false, true]),
        seen(1, 5, 0),
    );
    same(
        &rt,
        (6, 9),
        left(&device, alloc, 6, &[true; 9]),
        seen(1, 5, 4),
    );
    same(
        &rt,
        (4, 9),
        left(&device, alloc, 4, &[true; 9]),
        seen(1, 3, 0),
    );
    same(&rt, (3, 0), left(&device, alloc, 3, &[]), seen(1, 2, 0));
    same(
        &rt,
        (2, 2),
        left(&device, alloc, 2, &[false, true]),
        seen(0, 2, 0),
    );
    same(&rt, (0, 1), left(&device, alloc, 0, &[true]), seen(0, 0, 0));
    same(
        &rt,
        (7, 0),
        left(&device, alloc, 7, &[]),
        Err(Refusal::BadIndex),
    );
    Ok(())
}
