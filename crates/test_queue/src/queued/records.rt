//! What a record is on the device, in each version of the layout.
use super::{Bed, NONE, block_of, read_block, record_of};
use crate::expect::{holds, same};
use inode::{ATTRIBUTES, Record};
use layout::{Block, DOUBLE, Refusal, SINGLE};
use softdep::{Cells, Change, Update};
use std::alloc::Global;
use std::process::Abort;
use std::test::Fail;

/// The update that makes this record 9.
fn of_record_9(alloc: Global, record: Record) -> Result<Vec<Update>, Refusal> {
    let mut updates = Vec::new(alloc);
    updates.push(Update {
        change: Change::of_record(alloc, 9, record)?,
        file: None,
        after: Cells::new(alloc),
    })?;
    Ok(updates)
}

/// The bytes of block 3 on the device of a volume of this version of the layout, once this is record 9, which begins at byte 128.
fn with_record_9<R: AllocGlobal + Abort>(
    rt: &R,
    version: u32,
    record: Record,
) -> Result<Block, Fail> {
    let mut bed = Bed::of(rt.alloc(), version, NONE)?;
    bed.issue(of_record_9(rt.alloc(), record)?)?;
    same(rt, "flush", bed.flush(3), Ok(1));
    let mut image = bed.device.device().image_after(rt.alloc(), 1)?;
    let block = read_block(&mut image, 3).ok_or("block 3 is not read")?;
    Ok(block)
}

#[test]
fn no_byte_of_a_freed_record_stays(rt: HostRuntime) -> Result<(), Fail> {
    for version in [SINGLE, DOUBLE] {
        let block = with_record_9(&rt, version, record_of(0))?;
        let mut wanted = block_of(3);
        wanted[128..256].copy_from_slice(&[0; 128]);
        holds(&rt, ("record 9 is freed", version), block == wanted);
    }
    Ok(())
}

#[test]
fn a_changed_record_keeps_what_stands_for_nothing(rt: HostRuntime) -> Result<(), Fail> {
    for version in [SINGLE, DOUBLE] {
        let block = with_record_9(&rt, version, record_of(7))?;
        let mut record = [0; 128];
        record[0] = 1; // the mode of a file
        record[2] = 7;
        let mut wanted = block_of(3);
        if version == SINGLE {
            record[60..64].copy_from_slice(&wanted[188..192]);
        }
        wanted[128..256].copy_from_slice(&record);
        holds(&rt, ("record 9 has 7 links", version), block == wanted);
    }
    Ok(())
}

/// A file's record with a double indirect pointer and attributes.
fn with_double_pointer() -> Record {
    Record {
        double: 0x0403_0201,
        attributes: [0x0807_0605; ATTRIBUTES],
        ..record_of(7)
    }
}

#[test]
fn a_double_indirect_pointer_stands_behind_the_others(rt: HostRuntime) -> Result<(), Fail> {
    let block = with_record_9(&rt, DOUBLE, with_double_pointer())?;
    let mut record = [0; 128];
    record[0] = 1; // the mode of a file
    record[2] = 7;
    record[60..64].copy_from_slice(&[1, 2, 3, 4]);
    for place in 0..ATTRIBUTES {
        let byte = 64 + 4 * place;
        record[byte..byte + 4].copy_from_slice(&[5, 6, 7, 8]);
    }
    let mut wanted = block_of(3);
    wanted[128..256].copy_from_slice(&record);
    holds(&rt, "record 9 has a pointer more", block == wanted);
    Ok(())
}

#[test]
fn no_record_of_version_1_has_a_double_indirect_pointer(rt: HostRuntime) -> Result<(), Fail> {
    let mut bed = Bed::of(rt.alloc(), SINGLE, NONE)?;
    let updates = of_record_9(rt.alloc(), with_double_pointer())?;
    same(&rt, "issue", bed.issue(updates), Err(Refusal::BadIndex));
    Ok(())
}
