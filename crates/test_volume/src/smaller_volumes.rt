//! Small volumes, and what is seen of them.
use crate::expect::same;
use device::{Byte, Device, MemDevice};
use findings::report;
use frozen::load;
use fsck::find;
use layout::{BLOCK_BYTES, Geometry, Refusal};
use std::alloc::Global;
use std::process::Abort;

/// How many numbers the volumes have, and at which address their records begin.
const NUMBERS: usize = 16;

const RECORDS: usize = 2;

/// Blocks 9 and 10 are marked, and number 5.
const MARKED: &[Byte] = &[(1, 160, 0x61), (1, 32, 0x24)];

/// The report of a fresh volume.
pub(crate) const CLEAN: &str =
    "phase 1 blocks and sizes\nphase 2 names\nphase 3 connectivity\nphase 4 reference counts\nphase 5 maps\nfindings 0\nrepairs 0\nverdict clean\n";

/// That of one whose blocks 9 and 10 are marked, and number 5.
pub(crate) const SOFT: &str =
    "phase 1 blocks and sizes\nphase 2 names\nphase 3 connectivity\nphase 4 reference counts\nphase 5 maps\n  lost block 9\n  lost block 10\n  lost number 5\nfindings 3\nrepairs 3\nverdict soft\n";

/// A volume of 16 blocks and 16 numbers in this version of the layout, fresh but for these bytes. It was not written since.
pub(crate) fn volume(alloc: Global, version: u32, bytes: &[Byte]) -> Result<MemDevice, Refusal> {
    let geometry = Geometry::new(1, 16, 16)?.with_version(version)?;
    let made = MemDevice::formatted(alloc, &geometry, bytes)?;
    made.image_after(alloc, made.writes())
}

/// Where byte `byte` of a number's record stands.
fn place_of(number: usize, byte: usize) -> (u32, usize) {
    let address = RECORDS + number / 8 % 2;
    (address as u32, 128 * (number % 8) + byte % 128)
}

/// Such a volume of version 1 with three findings, in which bytes 60 to 64 of each record are 255: the last of them is no byte
/// of the double indirect pointer.
pub(crate) fn full_of_bytes(alloc: Global) -> Result<MemDevice, Refusal> {
    let mut bytes = Vec::from_slice(alloc, MARKED)?;
    for number in 0..NUMBERS {
        for byte in 60..65 {
            let (address, place) = place_of(number, byte);
            bytes.push((address, place, 255))?;
        }
    }
    volume(alloc, 1, bytes.as_slice())
}

/// Expects the volume that the device held after so many writes to be of this version and to have this report.
pub(crate) fn expect_shown<R: AllocGlobal + Abort>(
    rt: &R,
    device: &MemDevice,
    writes: usize,
    version: u32,
    wanted: &str,
) -> Result<(), Refusal> {
    let mut image = device.image_after(rt.alloc(), writes)?;
    let frozen = load(rt.alloc(), &mut image)?;
    let found = find(rt.alloc(), &frozen)?;
    let text = report(rt.alloc(), found.as_slice())?;
    same(rt, writes, frozen.geometry().version(), version);
    same(rt, writes, text.as_slice(), wanted.as_bytes());
    Ok(())
}

/// Expects bytes 60 to 64 of each record.
pub(crate) fn expect_bytes<R: AllocGlobal + Abort>(
    rt: &R,
    device: &mut MemDevice,
    wanted: [u8; 5],
) -> Result<(), Refusal> {
    let mut block = [0; BLOCK_BYTES];
    for number in 0..NUMBERS {
        let (address, _) = place_of(number, 0);
        if address >= device.blocks() {
            return Err(Refusal::BadIndex);
        }
        device.read(address, &mut block)?;
        for byte in 60..65 {
            let (_, place) = place_of(number, byte);
            let found = block.get(place).copied();
            same(rt, (number, byte), found, wanted.get(byte - 60).copied());
        }
    }
    Ok(())
}
