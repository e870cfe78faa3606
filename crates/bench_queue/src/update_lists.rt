//! The updates of the commands, in the order in which soft updates issue them.
use crate::command::Command;
use crate::files::File;
use inode::{ATTRIBUTES, DIRECT_POINTERS, FILE, FREE, Record};
use layout::{BLOCK_BYTES, Geometry, Refusal};
use softdep::{Cell, Cells, Change, Update};
use std::alloc::{AllocError, Global};
use std::sync::Arc;

/// The updates of a command, as they are added.
#[derive(Drop)]
struct List {
    alloc: Global,
    updates: Vec<Update>,
}

impl List {
    fn new(alloc: Global) -> List {
        List {
            alloc,
            updates: Vec::new(alloc),
        }
    }

    /// Adds an update of no file's contents, which comes after these cells.
    fn add(&mut self, change: Change, after: &[Cell]) -> Result<(), AllocError> {
        self.updates.push(Update {
            change,
            file: None,
            after: Cells::from_slice(self.alloc, after)?,
        })?;
        Ok(())
    }

    /// Adds the update by which a number gets a record.
    fn set_record(
        &mut self,
        number: u32,
        record: Record,
        after: &[Cell],
    ) -> Result<(), AllocError> {
        self.add(Change::of_record(self.alloc, number, record)?, after)
    }

    /// Adds a block's bytes, which begin with this number and are else zeroes.
    fn put(
        &mut self,
        address: u32,
        number: u32,
        file: Option<u32>,
        after: &[Cell],
    ) -> Result<(), AllocError> {
        let mut bytes = [0; BLOCK_BYTES];
        bytes[0..4].copy_from_slice(&number.to_le_bytes());
        self.updates.push(Update {
            change: Change::SetBytes(address, Arc::new(self.alloc, bytes)?),
            file,
            after: Cells::from_slice(self.alloc, after)?,
        })?;
        Ok(())
    }
}

/// A file is created: its number is marked, then it gets a record, and then an entry.
pub fn creation(alloc: Global, geometry: &Geometry, file: &File) -> Result<Command, Refusal> {
    let number = file.number;
    let mut list = List::new(alloc);
    list.add(Change::SetNumber(number, true), &[])?;
    let record = record_of(geometry, file, 0)?;
    list.set_record(number, record, &[Cell::NumberBit(number)])?;
    let before = &[Cell::Record(number), Cell::BlockBit(file.entries)];
    list.put(file.entries, number, None, before)?;
    Command::new(geometry, list.updates)
}

/// A file of so many blocks grows to so many: each new block is marked and then filled, then its indirect block if it
/// needs one, and then the record has them.
pub fn growth(
    alloc: Global,
    geometry: &Geometry,
    file: &File,
    from: u32,
    to: u32,
) -> Result<Command, Refusal> {
    let mut list = List::new(alloc);
    let mut before_record = Vec::new(alloc);
    let mut before_table = Vec::new(alloc);
    for position in from..to {
        let address = file.address(geometry, position)?;
        let marked = Cell::BlockBit(address);
        list.add(Change::SetBlock(address, true), &[])?;
        list.put(address, position, Some(file.number), &[marked])?;
        let before = if position < DIRECT_POINTERS as u32 {
            &mut before_record
        } else {
            &mut before_table
        };
        before.push(Cell::Block(address))?;
        before.push(marked)?;
    }
    if to > DIRECT_POINTERS as u32 {
        let table = file.address(geometry, to)?;
        list.add(Change::SetBlock(table, true), &[])?;
        before_table.push(Cell::BlockBit(table))?;
        list.put(table, file.number, None, before_table.as_slice())?;
        before_record.push(Cell::Block(table))?;
        before_record.push(Cell::BlockBit(table))?;
    }
    let record = record_of(geometry, file, to)?;
    list.set_record(file.number, record, before_record.as_slice())?;
    Command::new(geometry, list.updates)
}

/// A file of so many blocks goes: its entry, then its record, and then the marks of its number and its blocks.
pub fn removal(
    alloc: Global,
    geometry: &Geometry,
    file: &File,
    blocks: u32,
) -> Result<Command, Refusal> {
    let number = file.number;
    let gone = &[Cell::Record(number)];
    let mut list = List::new(alloc);
    list.put(file.entries, number, None, &[Cell::BlockBit(file.entries)])?;
    let record = empty_record(FREE, 0);
    list.set_record(number, record, &[Cell::Block(file.entries)])?;
    list.add(Change::SetNumber(number, false), gone)?;
    for position in 0..blocks {
        let address = file.address(geometry, position)?;
        list.add(Change::SetBlock(address, false), gone)?;
    }
    Command::new(geometry, list.updates)
}

/// The record of a file that has so many blocks.
fn record_of(geometry: &Geometry, file: &File, blocks: u32) -> Result<Record, Refusal> {
    let mut record = empty_record(FILE, blocks.saturating_mul(BLOCK_BYTES as u32));
    for position in 0..DIRECT_POINTERS {
        if position < blocks as usize {
            record.direct[position] = file.address(geometry, position as u32)?;
        }
    }
    if blocks > DIRECT_POINTERS as u32 {
        record.indirect = file.address(geometry, blocks)?;
    }
    Ok(record)
}

/// A record with no pointers.
fn empty_record(mode: u16, size: u32) -> Record {
    Record {
        mode,
        links: if mode == FREE { 0 } else { 1 },
        size,
        direct: [0; DIRECT_POINTERS],
        indirect: 0,
        double: 0,
        attributes: [0; ATTRIBUTES],
    }
}
