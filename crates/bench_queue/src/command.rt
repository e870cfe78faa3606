//! The updates of a command, which are tested once and then issued.
ghost use Rattle.std.specs.Prelude.{◌≡◌, true, map, All};
ghost use Rattle.updates.specs.Values.{cell, change as value_of};
ghost use Rattle.updates.specs.Places.{FitsVolume, IsCell, IsUpdate};

use layout::{DOUBLE, Geometry, ROOT, Refusal};
use softdep::{Cell, Change, Queue, Update};
use std::marker::Model;

/// The updates that carry out a command on a volume, the first first.
#[derive(Drop)]
pub struct Command {
    geometry: Geometry,
    updates: Vec<Update>,
}

impl Model for Command {
    ghost use Rattle.std.specs.Prelude.{List, All};
    ghost use Rattle.updates.specs.Places.{IsUpdate};
    ghost use Rattle.updates.specs.declared.change.Update.{Update as OneUpdate};

    ghost Value = { List OneUpdate };

    ghost view = { λ command. command.updates.items };

    ghost invariant = { λ command. All (IsUpdate command.geometry) command.updates.items };
}

impl Command {
    /// These updates as a command, unless one is of no cell of the volume.
    pub fn new(geometry: &Geometry, updates: Vec<Update>) -> Result<Command, Refusal> {
        if !are_updates(geometry, updates.as_slice()) {
            return Err(Refusal::BadIndex);
        }
        Ok(Command {
            geometry: *geometry,
            updates,
        })
    }

    /// Issues the updates to a queue, unless it is another volume's.
    pub fn issue(self, queue: &mut Queue) -> Result<(), Refusal> {
        if queue.geometry() != self.geometry {
            return Err(Refusal::BadIndex);
        }
        queue.issue(self.updates)
    }

    /// Its updates.
    pub fn updates(&self) -> &[Update] {
        self.updates.as_slice()
    }

    /// Its updates, taken out of it.
    pub fn into_updates(self) -> Vec<Update> {
        self.updates
    }
}

/// Whether each update is of a cell of the volume, and comes after such cells alone.
fn are_updates(geometry: &Geometry, updates: &[Update]) -> bool
    ensures { result ≡ true → All (IsUpdate geometry.now) updates.now }
{
    for update in updates {
        if !is_update(geometry, update) {
            return false;
        }
    }
    true
}

/// Whether the update is of a cell of the volume, and comes after such cells alone.
fn is_update(geometry: &Geometry, update: &Update) -> bool
    ensures { result ≡ true → IsUpdate geometry.now update.now }
{
    is_cell(geometry, update.change.cell())
        && fits(geometry, &update.change)
        && are_cells(geometry, update.after.as_slice())
}

/// Whether what a change writes fits the volume: no record of version 1 has a double indirect pointer.
fn fits(geometry: &Geometry, change: &Change) -> bool
    ensures { result ≡ true → FitsVolume geometry.now (value_of change.now) }
{
    match change {
        Change::SetInode(_, record) => geometry.version() == DOUBLE || record.double == 0,
        _ => true,
    }
}

/// Whether these are cells of the volume.
fn are_cells(geometry: &Geometry, cells: &[Cell]) -> bool
    ensures { result ≡ true → All (IsCell geometry.now) (map cell cells.now) }
{
    for named in cells {
        if !is_cell(geometry, *named) {
            return false;
        }
    }
    true
}

/// Whether this is a cell of the volume.
fn is_cell(geometry: &Geometry, named: Cell) -> bool
    ensures { result ≡ true → IsCell geometry.now (cell named) }
{
    match named {
        Cell::Record(number) | Cell::NumberBit(number) => {
            ROOT <= number && number < geometry.inodes()
        }
        Cell::BlockBit(address) | Cell::Block(address) => geometry.place_of(address).is_some(),
    }
}

/// The block in which the cell of an update stands, if it is one of the volume.
pub fn home_of(geometry: &Geometry, update: &Update) -> Option<u32> {
    let changed = update.change.cell();
    if is_cell(geometry, changed) {
        Some(changed.home(geometry))
    } else {
        None
    }
}
