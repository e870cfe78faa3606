use super::FileDevice;
use crate::tests::{format_groups, read_block};
use device::{Before, Device, DeviceFault, format, set_byte};
use layout::{BLOCK_BYTES, Geometry, Refusal};
use std::alloc::{AllocError, Global};
use std::cell::{Cell, RefCell};
use std::fs::{Metadata, OpenFile};
use std::io;
use std::marker::Brand;
use std::os::unix::fs::FileExt;
use std::process::Abort;

/// A file in memory, whose calls fail from one on and up to another.
#[derive(Drop)]
struct FakeFile {
    bytes: RefCell<Vec<u8>>,
    calls: Cell<u64>,
    first_failing: Cell<u64>,
    last_failing: Cell<u64>,
}

impl FakeFile {
    fn new(bytes: Vec<u8>) -> FakeFile {
        FakeFile {
            bytes: RefCell::new(bytes),
            calls: Cell::new(0),
            first_failing: Cell::new(u64::MAX),
            last_failing: Cell::new(u64::MAX),
        }
    }

    /// From now on the calls of these numbers fail, the next being number 0.
    fn fail(&self, first: u64, last: u64) {
        self.calls.set(0);
        self.first_failing.set(first);
        self.last_failing.set(last);
    }

    /// Counts a call, and fails if it is one that has to.
    fn call(&self) -> io::Result<()> {
        let number = self.calls.get();
        self.calls.set(number.wrapping_add(1));
        if self.first_failing.get() <= number && number <= self.last_failing.get() {
            return Err(io::Error::from(io::ErrorKind::Other));
        }
        Ok(())
    }

    /// The byte that stands here.
    fn byte(&self, at: usize) -> Option<u8> {
        match self.bytes.try_borrow() {
            Ok(bytes) => bytes.get(at).copied(),
            Err(_) => None,
        }
    }
}

impl FileExt for FakeFile {
    fn read_at(&self, buf: &mut [u8], offset: u64) -> io::Result<usize> {
        self.call()?;
        match self.bytes.try_borrow() {
            Ok(bytes) => {
                let bytes = bytes.as_slice();
                let start = bytes.len().min(offset as usize);
                let count = buf.len().min(bytes.len() - start);
                buf[..count].copy_from_slice(&bytes[start..start + count]);
                Ok(count)
            }
            Err(_) => Err(io::Error::from(io::ErrorKind::Other)),
        }
    }

    fn write_at(&self, buf: &[u8], offset: u64) -> io::Result<usize> {
        self.call()?;
        match self.bytes.try_borrow_mut() {
            Ok(mut bytes) => {
                let bytes = &mut *bytes;
                let start = bytes.len().min(offset as usize);
                let count = buf.len().min(bytes.len() - start);
                bytes[start..start + count].copy_from_slice(&buf[..count]);
                Ok(count)
            }
            Err(_) => Err(io::Error::from(io::ErrorKind::Other)),
        }
    }
}

impl OpenFile for FakeFile {
    fn metadata(&self) -> io::Result<Metadata> {
        Err(io::Error::from(io::ErrorKind::Unsupported))
    }

    fn set_len(&self, _size: u64) -> io::Result<()> {
        Err(io::Error::from(io::ErrorKind::Unsupported))
    }

    fn sync_all(&self) -> io::Result<()> {
        self.call()
    }

    fn sync_data(&self) -> io::Result<()> {
        self.call()
    }
}

type FakeDevice = FileDevice<FakeFile, Brand>;

/// What is asked of a device, or looked at, and what has to be seen.
#[derive(Clone, Copy)]
enum Step {
    /// The file's calls of these numbers fail, the next being number 0.
    Fail(u64, u64),
    /// A block is read: it has this byte alone, or the read fails.
    Read(u32, Option<u8>),
    /// The blocks from one on up to another are read, each of this byte alone.
    ReadRun(u32, u32, u8),
    /// A block of this byte alone is written, and that goes well or not.
    Write(u32, u8, bool),
    /// The blocks from one on up to another are, and all goes well.
    WriteRun(u32, u32, u8),
    /// A byte of a block is changed.
    Change(u32, usize, u8),
    /// A byte of a block is read.
    ByteOf(u32, usize, u8),
    /// What waits is given to the file and synced, and that goes well or not.
    Sync(bool),
    /// What waits is given to the file, and that goes well.
    Give,
    /// The device has so many blocks.
    Blocks(u32),
    /// So many faults were counted.
    Failures(u64),
    /// So many calls were made of the file, since those that fail were named.
    Calls(u64),
    /// The file has this byte here.
    Byte(usize, u8),
}

/// Writes a block of this byte.
fn write_byte(device: &mut FakeDevice, address: u32, byte: u8) -> Result<(), DeviceFault> {
    if address >= device.blocks() {
        return Err(DeviceFault);
    }
    device.write(address, &[byte; BLOCK_BYTES])
}

/// Whether a block has this byte alone, or its read fails where none is named.
fn reads(device: &mut FakeDevice, address: u32, wanted: Option<u8>) -> bool {
    match (read_block(device, address), wanted) {
        (Some(block), Some(byte)) => block == [byte; BLOCK_BYTES],
        (None, None) => true,
        _ => false,
    }
}

/// Whether the blocks from one on up to another have this byte alone.
fn reads_run(device: &mut FakeDevice, from: u32, to: u32, byte: u8) -> bool {
    for address in from..to {
        if !reads(device, address, Some(byte)) {
            return false;
        }
    }
    true
}

/// Whether the blocks from one on up to another can be written.
fn writes_run(device: &mut FakeDevice, from: u32, to: u32, byte: u8) -> bool {
    for address in from..to {
        if write_byte(device, address, byte).is_err() {
            return false;
        }
    }
    true
}

/// Whether a byte of a block is this one.
fn has_byte(device: &mut FakeDevice, address: u32, at: usize, byte: u8) -> bool {
    match read_block(device, address) {
        Some(block) => block.get(at) == Some(&byte),
        None => false,
    }
}

/// Takes a step, and tells whether all was seen that has to be.
fn take(device: &mut FakeDevice, step: Step) -> bool {
    match step {
        Step::Fail(first, last) => {
            device.file.fail(first, last);
            true
        }
        Step::Read(address, wanted) => reads(device, address, wanted),
        Step::ReadRun(from, to, byte) => reads_run(device, from, to, byte),
        Step::Write(address, byte, is_well) => write_byte(device, address, byte).is_ok() == is_well,
        Step::WriteRun(from, to, byte) => writes_run(device, from, to, byte),
        Step::Change(address, at, byte) => set_byte(device, (address, at, byte)).is_ok(),
        Step::ByteOf(address, at, byte) => has_byte(device, address, at, byte),
        Step::Sync(is_well) => device.sync().is_ok() == is_well,
        Step::Give => device.give().is_ok(),
        Step::Blocks(count) => device.blocks() == count,
        Step::Failures(count) => device.failures == count,
        Step::Calls(count) => device.file.calls.get() == count,
        Step::Byte(at, byte) => device.file.byte(at) == Some(byte),
    }
}

/// The place of the first step at which something else is seen.
fn first_wrong(device: &mut FakeDevice, steps: &[Step]) -> Option<usize> {
    for (place, step) in steps.iter().enumerate() {
        if !take(device, *step) {
            return Some(place);
        }
    }
    None
}

/// A device over blocks of this byte.
fn over_blocks(alloc: Global, byte: u8, blocks: u8) -> Result<FakeDevice, AllocError> {
    over_bytes(
        alloc,
        vec![in alloc; byte; blocks as usize * BLOCK_BYTES]?,
        blocks,
    )
}

/// A device of so many blocks over these bytes.
fn over_bytes(alloc: Global, bytes: Vec<u8>, blocks: u8) -> Result<FakeDevice, AllocError> {
    FileDevice::over(alloc, FakeFile::new(bytes), u32::from(blocks)).map_err(|_| AllocError)
}

/// Aborts at the first step at which a device over blocks of the byte 0xAA shows something else.
fn expect(rt: &(impl AllocGlobal + Abort), blocks: u8, steps: &[Step]) -> Result<(), AllocError> {
    let mut device = over_blocks(rt.alloc(), 0xAA, blocks)?;
    assert_eq!(rt; first_wrong(&mut device, steps), None);
    Ok(())
}

#[test]
fn a_block_stands_at_its_byte(rt: HostRuntime) -> Result<(), AllocError> {
    let steps = [
        Step::Change(3, 0, 7),
        Step::Change(3, 1023, 8),
        Step::Give,
        Step::Byte(3071, 0xAA),
        Step::Byte(3072, 7),
        Step::Byte(3073, 0xAA),
        Step::Byte(4094, 0xAA),
        Step::Byte(4095, 8),
        Step::Byte(4096, 0xAA),
        Step::ByteOf(3, 0, 7),
        Step::ByteOf(3, 1, 0xAA),
        Step::ByteOf(3, 1023, 8),
        Step::Failures(0),
    ];
    expect(&rt, 17, &steps)
}

#[test]
fn a_read_that_fails_changes_nothing(rt: HostRuntime) -> Result<(), AllocError> {
    let steps = [
        Step::Blocks(3),
        Step::Fail(0, 0),
        Step::Read(2, None),
        Step::Failures(1),
        Step::Read(2, Some(0xAA)),
        Step::Write(2, 1, true),
        Step::Sync(true),
        Step::Failures(1),
        Step::Calls(4),
    ];
    expect(&rt, 3, &steps)
}

#[test]
fn a_write_that_fails_is_the_last(rt: HostRuntime) -> Result<(), AllocError> {
    let steps = [
        Step::Fail(0, 0),
        // It waits until another one is written.
        Step::Write(2, 1, true),
        Step::Write(0, 1, false),
        Step::Blocks(3),
        Step::Read(2, None),
        Step::Write(2, 1, false),
        Step::Sync(false),
        Step::Failures(4),
        // The file is asked nothing any more.
        Step::Calls(1),
        Step::Byte(2 * BLOCK_BYTES, 0xAA),
    ];
    expect(&rt, 3, &steps)
}

#[test]
fn a_sync_that_fails_is_the_last(rt: HostRuntime) -> Result<(), AllocError> {
    let steps = [
        Step::Write(2, 1, true),
        Step::Give,
        Step::Read(2, Some(1)),
        Step::Fail(0, 0),
        Step::Sync(false),
        Step::Sync(false),
        Step::Read(2, None),
        Step::Write(1, 1, false),
        Step::Failures(4),
        Step::Calls(1),
    ];
    expect(&rt, 3, &steps)
}

#[test]
fn a_short_file_is_a_fault(rt: HostRuntime) -> Result<(), AllocError> {
    let bytes = vec![in rt.alloc(); 0xAA; 3583]?;
    let mut device = over_bytes(rt.alloc(), bytes, 5)?;
    let steps = [
        Step::Read(2, Some(0xAA)),
        Step::Read(3, None),
        Step::Read(4, None),
        Step::Failures(2),
    ];
    assert_eq!(rt; first_wrong(&mut device, &steps), None);
    Ok(())
}

#[test]
fn blocks_that_follow_are_written_together(rt: HostRuntime) -> Result<(), AllocError> {
    let steps = [
        // A run has 32 blocks.
        Step::WriteRun(3, 40, 7),
        Step::Calls(1),
        Step::Read(39, Some(7)),
        Step::Read(40, Some(0xAA)),
        Step::Calls(2),
        Step::Byte(39 * BLOCK_BYTES, 0xAA),
        Step::Write(2, 8, true),
        Step::Calls(3),
        Step::Byte(40 * BLOCK_BYTES - 1, 7),
        Step::Byte(2 * BLOCK_BYTES, 0xAA),
        Step::Sync(true),
        Step::Byte(2 * BLOCK_BYTES, 8),
        Step::Give,
        Step::Calls(5),
    ];
    expect(&rt, 50, &steps)
}

#[test]
fn what_waits_is_not_given_after_a_fault(rt: HostRuntime) -> Result<(), AllocError> {
    let steps = [
        Step::Write(4, 7, true),
        Step::Fail(0, 0),
        Step::Write(6, 8, false),
        Step::Sync(false),
        Step::Write(5, 8, false),
        Step::Failures(3),
        Step::Calls(1),
        Step::Byte(4 * BLOCK_BYTES, 0xAA),
    ];
    expect(&rt, 9, &steps)
}

#[test]
fn blocks_written_in_turn_are_read_out_of_memory(rt: HostRuntime) -> Result<(), AllocError> {
    let steps = [
        Step::Read(2, Some(0xAA)),
        Step::Read(5, Some(0xAA)),
        Step::Write(2, 1, true),
        Step::Write(5, 2, true),
        Step::Write(2, 3, true),
        Step::Write(5, 4, true),
        // All but the last were given.
        Step::Byte(2 * BLOCK_BYTES, 3),
        Step::Byte(5 * BLOCK_BYTES, 2),
        Step::Read(2, Some(3)),
        Step::Read(5, Some(4)),
        Step::Calls(5),
        Step::Give,
        Step::Read(2, Some(3)),
        Step::Read(5, Some(4)),
        Step::Write(2, 5, true),
        Step::Read(2, Some(5)),
        Step::Read(5, Some(4)),
        // The sixth is what `give` gave.
        Step::Calls(6),
        Step::Byte(5 * BLOCK_BYTES, 4),
    ];
    expect(&rt, 9, &steps)
}

#[test]
fn two_blocks_share_a_slot(rt: HostRuntime) -> Result<(), AllocError> {
    let steps = [
        Step::Read(2, Some(0xAA)),
        Step::Read(33, Some(0xAA)),
        Step::Write(33, 7, true),
        Step::Write(2, 8, true),
        Step::Write(20, 9, true),
        // Two reads, and two writes that were given.
        Step::Read(33, Some(7)),
        Step::Calls(4),
        // The slot is the other's.
        Step::Read(2, Some(8)),
        Step::Calls(5),
        Step::Write(33, 6, true),
        Step::Read(2, Some(8)),
        Step::Read(33, Some(6)),
        Step::Calls(6),
    ];
    expect(&rt, 40, &steps)
}

#[test]
fn blocks_that_follow_are_read_together(rt: HostRuntime) -> Result<(), AllocError> {
    let steps = [
        // The first, a run of 32 behind it, and what is left.
        Step::ReadRun(10, 50, 0xAA),
        Step::Calls(3),
        Step::Write(48, 7, true),
        Step::Read(48, Some(7)),
        Step::Read(49, Some(0xAA)),
        Step::Calls(4),
    ];
    expect(&rt, 50, &steps)
}

/// Whether a format of three groups stops at the call of this number, which fails: the runs of 32 blocks before are written, and
/// this one is not.
fn stops_at(device: &mut FakeDevice, number: u8) -> bool {
    device.file.fail(number as u64, number as u64);
    let start = 32 * number as usize * BLOCK_BYTES;
    made(device) == Err(Refusal::Device)
        && device.file.byte(start) == Some(0xAA)
        && (number == 0 || device.file.byte(start - BLOCK_BYTES) != Some(0xAA))
        && device.file.calls.get() == number as u64 + 1
}

/// Writes a fresh image of three groups, and gives the file all of it.
fn made(device: &mut FakeDevice) -> Result<(), Refusal> {
    format_groups(device, 3)?;
    Ok(device.give()?)
}

/// Aborts unless a format stops at the call of this number, which fails.
fn expect_stop(rt: &(impl AllocGlobal + Abort), number: u8) -> Result<(), AllocError> {
    let mut device = over_blocks(rt.alloc(), 0xAA, 49)?;
    assert!(rt; stops_at(&mut device, number), "call {number}");
    Ok(())
}

#[test]
fn a_format_with_a_fault_stops_there(rt: HostRuntime) -> Result<(), AllocError> {
    for number in 0..2 {
        expect_stop(&rt, number)?;
    }
    Ok(())
}

/// Whether the blocks of two devices are the same, of which each has so many.
fn have_the_same_blocks(one: &mut FakeDevice, other: &mut FakeDevice, blocks: u32) -> bool {
    for address in 0..blocks {
        if read_block(one, address) != read_block(other, address) {
            return false;
        }
    }
    true
}

/// A device with a fresh image of two groups, over other bytes.
fn written(alloc: Global) -> Result<FakeDevice, Refusal> {
    let mut device = over_blocks(alloc, 0xAA, 33)?;
    format_groups(&mut device, 2)?;
    Ok(device)
}

/// The same over zeroes.
fn known(alloc: Global) -> Result<FakeDevice, Refusal> {
    let bytes = vec![in alloc; 0; 33 * BLOCK_BYTES]?;
    let mut device: FakeDevice = FileDevice::over(alloc, FakeFile::new(bytes), 33)?;
    format(&mut device, &Geometry::new(2, 16, 16)?, Before::Zeroes)?;
    device.give()?;
    Ok(device)
}

#[test]
fn zeroes_are_not_written_over_zeroes(rt: HostRuntime) -> Result<(), Refusal> {
    let mut known = known(rt.alloc())?;
    let mut written = written(rt.alloc())?;
    // Three runs: the superblock, the maps and the root's record; its block with the dots; the maps of the second group.
    let is_so = known.file.calls.get() == 3 && have_the_same_blocks(&mut known, &mut written, 33);
    assert!(rt; is_so);
    Ok(())
}
