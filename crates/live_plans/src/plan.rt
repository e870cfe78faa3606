ghost use Rattle.std.specs.Prelude.{◌≡◌, ◌∷◌, [], IsTrue, OnOk, map};
ghost use Rattle.std.specs.List.{All};
ghost use Rattle.model.specs.Cells.{SetInode};
ghost use Rattle.model.specs.Layout.{is_number};
ghost use Rattle.model.specs.View.{Fits};
ghost use Rattle.ordering.specs.Cuts.{cell_of};
ghost use Rattle.updates.specs.Places.{FitsVolume, IsCell};
ghost use Rattle.updates.specs.Values.{cell, change as change_of};
ghost use Rattle.live_states.specs.Drafts.{AreOf, GoesOn};

use inode::Record;
use layout::Geometry;
use std::alloc::{AllocError, Global};
use std::marker::Model;
use updates::{Cell, Cells, Change, Update};

/// The updates of a command in the making, in the order of their issue, each in the name of one file.
#[derive(Drop)]
pub struct Plan {
    geometry: Geometry,
    file: u32,
    updates: Vec<Update>,
}

impl Model for Plan {
    ghost use Rattle.live_states.specs.Drafts.{AreOf, Draft};

    ghost Value = { Draft };

    ghost view = { λ plan. record { geometry = plan.geometry; file = plan.file; updates = plan.updates.items } };

    ghost invariant = { λ plan. AreOf plan.geometry plan.file plan.updates.items };
}

/// What carries out a command: its updates, and the blocks that are held for a snapshot once they are issued.
#[derive(Drop)]
pub struct Planned {
    pub plan: Plan,
    pub holds: Vec<u32>,
}

impl Plan {
    /// No updates yet, in the name of a file.
    pub fn new(alloc: Global, geometry: Geometry, file: u32) -> Plan
        ensures { result ≡ record { geometry = geometry; file = file; updates = [] } }
    {
        Plan {
            geometry,
            file,
            updates: Vec::new(alloc),
        }
    }

    /// Adds one more update, which has to reach the device after the last updates of these cells.
    pub fn push(&mut self, change: Change, after: Cells) -> Result<(), AllocError>
        requires changed { IsCell self.old.geometry (cell_of (change_of change)) }
        requires fits { FitsVolume self.old.geometry (change_of change) }
        requires after { All (IsCell self.old.geometry) (map cell after.items) }
        ensures { OnOk result (GoesOn self.old self.new (λ q. record { change = change_of change; after = map cell after.items } ∷ q)) }
    {
        let file = Some(self.file);
        self.updates.push(Update {
            change,
            file,
            after,
        })?;
        Ok(())
    }

    /// Adds one more update, which gives an inode this record, and has to reach the device after the last updates of these
    /// cells.
    pub fn set_record(
        &mut self,
        alloc: Global,
        number: u32,
        inode: Record,
        after: Cells,
    ) -> Result<(), AllocError>
        requires number { IsTrue (is_number self.old.geometry number) }
        requires fits { Fits self.old.geometry.version inode }
        requires after { All (IsCell self.old.geometry) (map cell after.items) }
        ensures { OnOk result (GoesOn self.old self.new (λ q. record { change = SetInode number inode; after = map cell after.items } ∷ q)) }
    {
        self.push(Change::of_record(alloc, number, inode)?, after)
    }

    /// These updates, with no block that is held.
    pub fn without_holds(self, alloc: Global) -> Planned
        ensures plan { result.plan ≡ self }
        ensures holds { result.holds.items ≡ [] }
    {
        Planned {
            plan: self,
            holds: Vec::new(alloc),
        }
    }

    /// The file in whose name they are.
    pub fn file(&self) -> u32
        ensures { result ≡ self.now.file }
    {
        self.file
    }

    /// The updates.
    pub fn into_updates(self) -> Vec<Update>
        ensures updates { result.items ≡ self.updates }
        ensures of_volume { AreOf self.geometry self.file result.items }
    {
        self.updates
    }
}
