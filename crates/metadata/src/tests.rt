ghost use Rattle.std.specs.Prelude.{IfOk};
ghost use Rattle.updates.specs.Places.{IsUpdate};

use crate::{Bit, Metadata};
use device::{Before, Device, MemDevice, format};
use frozen::{Frozen, load};
use layout::{BLOCK_BYTES, Geometry, ROOT, Refusal};
use spares::Spares;
use std::alloc::Global;
use std::test::Fail;
use updates::{Cells, Change, Update};

/// The metadata of a fresh image of one group of 16 blocks and 16 inodes.
fn fresh(alloc: Global) -> Result<Frozen, Refusal> {
    let geometry = Geometry::new(1, 16, 16)?;
    let bytes = vec![in alloc; 0; geometry.blocks() as usize * BLOCK_BYTES]?;
    let mut device = MemDevice::from_bytes(alloc, bytes.as_slice())?;
    if device.blocks() != geometry.blocks() {
        return Err(Refusal::BadLength);
    }
    format(&mut device, &geometry, Before::Anything)?;
    load(alloc, &mut device)
}

/// The update that marks an inode number.
fn marked(alloc: Global, geometry: &Geometry, number: u32) -> Result<Update, Refusal>
    ensures { IfOk result (IsUpdate geometry.now) }
{
    if number < ROOT || number >= geometry.inodes() {
        return Err(Refusal::BadIndex);
    }
    Ok(Update {
        change: Change::SetNumber(number, true),
        file: None,
        after: Cells::new(alloc),
    })
}

#[test]
fn changes_of_one_block_add_up(rt: HostRuntime) -> Result<(), Fail> {
    let alloc = rt.alloc();
    let metadata = Metadata::new(alloc, fresh(alloc)?)?;
    let geometry = metadata.frozen().geometry();
    let updates = [marked(alloc, &geometry, 5)?, marked(alloc, &geometry, 15)?];
    let staged = metadata.stage(alloc, &updates, &mut Spares::none(alloc))?;
    let bits = [Bit::Number(5, true), Bit::Number(15, true)];
    assert_eq!(rt; staged.bits.as_slice(), bits.as_slice());
    assert_eq!(rt; staged.blocks.len(), 1);
    let last = staged.blocks.last().ok_or("no block")?;
    assert_eq!(rt;
        (last.address, last.block[32], last.block[33]),
        (1, 0x24, 0x80)
    );
    assert_eq!(rt; metadata.frozen().maps_of(0)[32], 4);
    Ok(())
}
