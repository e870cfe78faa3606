ghost use Rattle.std.specs.Prelude.{◌≡◌, ℕ, ◌+◌, ◌*◌, ◌/◌, ◌<◌, ◌≤◌, length, IfOk, OnErr};
ghost use Rattle.model.specs.Layout.{block_count, inode_count};
ghost use Rattle.layout.specs.Fresh as fresh;
ghost use Rattle.device.specs.Writes.{CountsFaults};
ghost use Rattle.upgrading.specs.Steps.{Clears, HasCleared, HasLeft, cleared};

use byteorder::{ByteOrder, LittleEndian};
use device::{Device, DeviceFault};
use frozen::Frozen;
use inode::RECORD_BYTES;
use layout::{Block, INODES_PER_BLOCK};

/// The byte of a record at which the double indirect pointer begins.
const DOUBLE_BYTE: usize = 60;

/// Takes the double indirect pointers out of all records, those that are free and those of the numbers 0 and 1 too, in order of
/// their blocks. Answers how many blocks were written. Where a write failed, the blocks before it were written.
pub(crate) fn clear_records<D: Device>(device: &mut D, frozen: &Frozen) -> Result<u32, DeviceFault>
    requires { length (D.image device.old) ≡ block_count frozen.now.geometry }
    ensures cleared { IfOk result (HasCleared frozen.now (D.image device.old) (D.held device.old) (inode_count frozen.now.geometry / 8)
        (D.image device.new) (D.held device.new)) }
    ensures stopped { OnErr result ((n writes : ℕ)
        × HasCleared frozen.now (D.image device.old) (D.held device.old) n (D.image device.new) (D.held device.new) writes) }
    ensures left { HasLeft frozen.now (D.image device.old) (D.held device.old) (D.held device.new) }
    ensures few { IfOk result (λ writes. writes ≤ 8192) }
    ensures count { length (D.image device.new) ≡ length (D.image device.old) }
    ensures honest { D.honest device.new → D.honest device.old }
    ensures cause { CountsFaults result (D.failures device.old) (D.failures device.new) }
{
    let geometry = frozen.geometry();
    let mut writes = 0;
    for block in 0..geometry.inodes() / INODES_PER_BLOCK {
        let number = block * INODES_PER_BLOCK;
        let address = geometry.inode_place(number).address;
        writes += clear_block(device, address, frozen.records_of(number))?;
    }
    Ok(writes)
}

/// Writes a block of records without their double indirect pointers, unless none of them has one. Answers how many blocks were
/// written: 1 or 0.
fn clear_block<D: Device>(device: &mut D, address: u32, records: &Block) -> Result<u32, DeviceFault>
    requires { address < length (D.image device.old) }
    ensures clears { IfOk result (Clears D.KEEPS_ORDER address records.now (D.image device.old) (D.held device.old) (D.image device.new) (D.held device.new)) }
    ensures few { IfOk result (λ writes. writes ≤ 1) }
    ensures fault { OnErr result ((D.image device.new ≡ D.image device.old) × (D.held device.new ≡ D.held device.old)) }
    ensures count { length (D.image device.new) ≡ length (D.image device.old) }
    ensures honest { D.honest device.new → D.honest device.old }
    ensures cause { CountsFaults result (D.failures device.old) (D.failures device.new) }
{
    let block = without_pointers(records);
    if block == *records {
        return Ok(0);
    }
    device.write(address, &block)?;
    Ok(1)
}

/// A block of records without their double indirect pointers.
fn without_pointers(records: &Block) -> Block
    ensures { result ≡ cleared records.now }
{
    let mut block = *records;
    for place in 0..INODES_PER_BLOCK as usize {
        clear_pointer(&mut block, place);
    }
    block
}

/// Takes the double indirect pointer out of the record that stands at this place of its block.
fn clear_pointer(block: &mut Block, place: usize)
    requires { place < 8 }
    ensures { block.new ≡ fresh.put_u32 (128 * place + 60) 0 block.old }
{
    let byte = RECORD_BYTES * place + DOUBLE_BYTE;
    LittleEndian::write_u32(&mut block[byte..byte + 4], 0);
}
