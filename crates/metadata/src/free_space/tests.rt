use super::FreeSpace;
use device::{Before, Device, MemDevice, format};
use frozen::{Frozen, load};
use layout::{BLOCK_BYTES, Geometry, Refusal};
use std::alloc::Global;
use std::test::Fail;

/// The metadata of a fresh image of two groups of 16 blocks and 16 inodes: the maps stand in blocks 1 and 17, the
/// records in 2, 3, 18 and 19; number 2 and block 4 are marked.
fn fresh(alloc: Global) -> Result<Frozen, Refusal> {
    let geometry = Geometry::new(2, 16, 16)?;
    let bytes = vec![in alloc; 0; geometry.blocks() as usize * BLOCK_BYTES]?;
    let mut device = MemDevice::from_bytes(alloc, bytes.as_slice())?;
    if device.blocks() != geometry.blocks() {
        return Err(Refusal::BadLength);
    }
    format(&mut device, &geometry, Before::Anything)?;
    load(alloc, &mut device)
}

/// Notes it of a number of such a volume.
fn note_number(free: &mut FreeSpace, number: u32, marked: bool) {
    if number < free.numbers.count() {
        free.set_number(number, marked);
    }
}

/// Notes it of a block of such a volume.
fn note_block(free: &mut FreeSpace, address: u32, marked: bool) {
    if address < free.blocks.count() {
        free.set_block(address, marked);
    }
}

#[test]
fn numbers_are_given_out_from_the_least_on(rt: HostRuntime) -> Result<(), Fail> {
    let mut free = FreeSpace::of(rt.alloc(), &fresh(rt.alloc())?)?;
    for number in 3..32 {
        assert_eq!(rt; free.least_number(), Some(number));
        note_number(&mut free, number, true);
    }
    assert_eq!(rt; free.least_number(), None);
    note_number(&mut free, 31, false);
    note_number(&mut free, 2, false);
    assert_eq!(rt; free.least_number(), Some(2));
    Ok(())
}

#[test]
fn blocks_are_counted_and_found(rt: HostRuntime) -> Result<(), Fail> {
    let mut free = FreeSpace::of(rt.alloc(), &fresh(rt.alloc())?)?;
    assert_eq!(rt; free.unmarked_blocks(), 25);
    assert_eq!(rt;
        (free.next_block(0), free.next_block(6)),
        (Some(5), Some(6))
    );
    for address in 5..17 {
        note_block(&mut free, address, true);
        note_block(&mut free, address, true);
    }
    assert_eq!(rt;
        (free.unmarked_blocks(), free.next_block(0)),
        (13, Some(20))
    );
    note_block(&mut free, 16, false);
    note_block(&mut free, 32, false);
    assert_eq!(rt;
        (free.unmarked_blocks(), free.next_block(0)),
        (14, Some(16))
    );
    assert_eq!(rt;
        (free.next_block(32), free.next_block(33)),
        (Some(32), None)
    );
    Ok(())
}
