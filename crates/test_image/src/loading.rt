ghost use Rattle.std.specs.Prelude.{◌≡◌, ◌+◌, ◌-◌, ◌^◌, min, true};
ghost use Rattle.device.specs.Cached.{held_in_memory, memory_answers, memory_in_order};
ghost use Rattle.device.specs.Writes.{CountsFaults, image_after};

use crate::expect::{holds, same};
use device::{Byte, Device, DeviceFault, MemDevice, set_byte, set_bytes};
use frozen::{Frozen, load};
use layout::{Block, Geometry, Refusal};
use std::alloc::Global;
use std::process::Abort;
use std::test::Fail;
use test_images::{frozen_with, zeroes};

/// The bytes of a superblock that are not zero, for one group of 16 blocks and 16 inodes.
const SUPERBLOCK: &[Byte] = &[
    (0, 0, 0x31),
    (0, 1, 0x56),
    (0, 2, 0x55),
    (0, 3, 0x53),
    (0, 4, 1),
    (0, 8, 1),
    (0, 12, 16),
    (0, 16, 16),
];

/// Bytes of an image of two groups, each of 16 blocks and 16 inodes, whose root has 13 blocks, 4 to 15 and 20, and whose
/// inode 3 is a directory with block 4, the root's first, and inode 4 a file with it: an address, a byte and its value.
const TWO_DIRECTORIES: &[Byte] = &[
    (2, 261, 52),
    (2, 268, 5),
    (2, 272, 6),
    (2, 276, 7),
    (2, 280, 8),
    (2, 284, 9),
    (2, 288, 10),
    (2, 292, 11),
    (2, 296, 12),
    (2, 300, 13),
    (2, 304, 14),
    (2, 308, 15),
    (2, 312, 16),
    (16, 0, 20),
    (20, 1023, 7),
    (15, 1023, 8),
    (2, 384, 2),
    (2, 389, 4),
    (2, 392, 4),
    (2, 512, 1),
    (2, 517, 4),
    (2, 520, 4),
];

/// A device in memory that counts its reads, which fail from one on and up to another.
#[derive(Drop)]
struct FakeDevice {
    memory: MemDevice,
    reads: u64,
    first_failing: u64,
    last_failing: u64,
    failures: u64,
}

impl FakeDevice {
    fn new(memory: MemDevice) -> FakeDevice {
        FakeDevice {
            memory,
            reads: 0,
            first_failing: u64::MAX,
            last_failing: u64::MAX,
            failures: 0,
        }
    }

    /// From now on the reads of these numbers fail, the next being number 0.
    fn fail(&mut self, first: u64, last: u64) {
        self.reads = 0;
        self.first_failing = first;
        self.last_failing = last;
    }

    /// A fault, which is counted.
    fn fault(&mut self) -> DeviceFault
        ensures { self.new ≡ record self.old { failures = min (self.old.failures + 1) (2 ^ 64 - 1) } }
    {
        self.failures = self.failures.saturating_add(1);
        DeviceFault
    }
}

impl Device for FakeDevice {
    ghost KEEPS_ORDER = { true };

    ghost honest = { λ _. Unit {0} };

    ghost image = { λ device. image_after device.memory.first device.memory.writes };

    ghost held = { λ device. held_in_memory device.memory };

    ghost failures = { λ device. device.failures };

    const KEEPS_ORDER: bool = true;

    fn blocks(&self) -> u32 {
        self.memory.blocks()
    }

    fn read(&mut self, address: u32, to: &mut Block) -> Result<(), DeviceFault> {
        let number = self.reads;
        self.reads = number.wrapping_add(1);
        if self.first_failing <= number && number <= self.last_failing {
            return Err(self.fault());
        }
        match self.memory.read(address, to) {
            Ok(()) => Ok(()),
            Err(_) => Err(self.fault()),
        }
    }

    fn write(&mut self, address: u32, from: &Block) -> Result<(), DeviceFault> {
        match self.memory.write(address, from) {
            Ok(()) => Ok(()),
            Err(_) => Err(self.fault()),
        }
    }

    fn sync(&mut self) -> Result<(), DeviceFault> {
        match self.memory.sync() {
            Ok(()) => Ok(()),
            Err(_) => Err(self.fault()),
        }
    }

    ghost answers = { λ device. memory_answers device.memory };

    ghost in_order = { λ _ device. memory_in_order device.memory };
}

/// A device in memory with a fresh image of so many groups, each of 16 blocks and 16 inodes.
fn fresh(alloc: Global, groups: u32) -> Result<MemDevice, Refusal> {
    MemDevice::formatted(alloc, &Geometry::new(groups, 16, 16)?, &[])
}

/// Expects a load to be refused so, or not to be.
fn expect_load<D: Device, R: AllocGlobal + Abort>(
    rt: &R,
    place: (u32, usize),
    device: &mut D,
    wanted: Option<Refusal>,
) {
    same(rt, place, load(rt.alloc(), device).err(), wanted);
}

/// The first bytes of the maps of group 0.
fn first_bytes(frozen: &Frozen) -> Option<&[u8]> {
    if frozen.geometry().groups() == 0 {
        return None;
    }
    Some(&frozen.maps_of(0)[..4])
}

#[test]
fn a_fresh_image_is_loaded(rt: HostRuntime) -> Result<(), Fail> {
    let geometry = Geometry::new(1, 16, 16)?;
    let frozen = frozen_with(rt.alloc(), &geometry, &[])?;
    same(&rt, "geometry", frozen.geometry(), geometry);
    for (address, is_kept) in [
        (0, true),
        (1, true),
        (2, true),
        (3, true),
        (4, true),
        (5, false),
        (16, false),
        (17, false),
    ] {
        same(&rt, address, frozen.block(address).is_some(), is_kept);
    }
    same(&rt, "groups", geometry.groups(), 1);
    same(&rt, "maps", first_bytes(&frozen), Some(b"GCUS".as_slice()));
    Ok(())
}

/// Directories and positions, and the last byte of the block there.
const LAST_BYTES: &[(u32, u32, Option<u8>)] = &[
    (2, 0, Some(0)),
    (2, 10, Some(0)),
    (2, 11, Some(8)),
    (2, 12, Some(7)),
    (2, 13, None),
    (2, 268, None),
    (3, 0, Some(0)),
    (3, 1, None),
    (4, 0, None),
    (5, 0, None),
];

#[test]
fn the_blocks_of_directories_are_loaded(rt: HostRuntime) -> Result<(), Fail> {
    let geometry = Geometry::new(2, 16, 16)?;
    let frozen = frozen_with(rt.alloc(), &geometry, TWO_DIRECTORIES)?;
    for (directory, position, wanted) in LAST_BYTES {
        let block = frozen.directory_block(*directory, *position);
        let last_byte = block.map(|block| block[1023]);
        same(&rt, (*directory, *position), last_byte, *wanted);
    }
    same(&rt, 3, frozen.is_directory_at(3), true);
    same(&rt, 4, frozen.is_directory_at(4), false);
    same(&rt, 4, frozen.is_sound_at(4), true);
    same(&rt, 5, frozen.is_sound_at(5), false);
    Ok(())
}

/// How many groups an image has, the block and the byte that become 3, and how it is refused then.
const CHANGED: &[(u32, u32, usize, Refusal)] = &[
    (1, 1, 0, Refusal::BadGroup(0)),
    (1, 0, 4, Refusal::BadSuper),
    (2, 17, 4, Refusal::BadGroup(1)),
    (2, 1, 0, Refusal::BadGroup(0)),
];

#[test]
fn a_changed_image_is_refused(rt: HostRuntime) -> Result<(), Fail> {
    for (groups, address, byte, wanted) in CHANGED {
        let mut device = fresh(rt.alloc(), *groups)?;
        expect_load(&rt, (*groups, 0), &mut device, None);
        set_byte(&mut device, (*address, *byte, 3))?;
        expect_load(&rt, (*address, *byte), &mut device, Some(*wanted));
    }
    Ok(())
}

#[test]
fn an_image_of_a_superblock_alone_is_refused(rt: HostRuntime) -> Result<(), Fail> {
    for (blocks, wanted) in [
        (1, Refusal::BadLength),
        (16, Refusal::BadLength),
        (17, Refusal::BadGroup(0)),
        (18, Refusal::BadLength),
    ] {
        let mut device = zeroes(rt.alloc(), blocks)?;
        expect_load(&rt, (blocks, 0), &mut device, Some(Refusal::BadSuper));
        set_bytes(&mut device, SUPERBLOCK)?;
        expect_load(&rt, (blocks, 1), &mut device, Some(wanted));
    }
    Ok(())
}

#[test]
fn a_load_with_a_fault_answers_device(rt: HostRuntime) -> Result<(), Fail> {
    let mut device = FakeDevice::new(fresh(rt.alloc(), 1)?);
    // Block 0, the block of maps, two blocks of inodes and the root's block are read.
    for number in 0..5 {
        device.fail(u64::from(number), u64::from(number));
        expect_load(&rt, (number, 1), &mut device, Some(Refusal::Device));
        device.fail(u64::from(number), u64::MAX);
        expect_load(&rt, (number, 2), &mut device, Some(Refusal::Device));
    }
    same(&rt, "failures", device.failures, 10);
    device.fail(5, u64::MAX);
    expect_load(&rt, (5, 0), &mut device, None);
    Ok(())
}

/// A device of one group, whose inode 3 is a directory of one block, which is the root's block 4.
fn shared(alloc: Global) -> Result<FakeDevice, Refusal> {
    let geometry = Geometry::new(1, 16, 16)?;
    let bytes = [(2, 384, 2), (2, 389, 4), (2, 392, 4)];
    Ok(FakeDevice::new(MemDevice::formatted(alloc, &geometry, &bytes)?))
}

#[test]
fn a_block_that_two_directories_share_is_read_once(rt: HostRuntime) -> Result<(), Fail> {
    let mut device = shared(rt.alloc())?;
    let frozen = load(rt.alloc(), &mut device)?;
    same(&rt, "reads", device.reads, 5);
    let of_root = frozen.directory_block(2, 0);
    holds(&rt, "of the root", of_root.is_some());
    same(&rt, "of the other", frozen.directory_block(3, 0), of_root);
    Ok(())
}
