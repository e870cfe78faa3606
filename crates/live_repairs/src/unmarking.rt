ghost use Rattle.std.specs.Prelude.{◌≡◌, IfOk, IsTrue, false};
ghost use Rattle.model.specs.Cells.{SetBlock, SetNumber};
ghost use Rattle.model.specs.Layout.{is_data_address, is_number};
ghost use Rattle.ordering.specs.Cuts.{cell_of};
ghost use Rattle.updates.specs.Places.{FitsVolume, IsCell};
ghost use Rattle.updates.specs.Values.{change as change_of};
ghost use Rattle.live_repairs.specs.Repaired.{Unmarks};

use live_plans::{Plan, Planned};
use metadata::Metadata;
use std::alloc::{AllocError, Global};
use updates::{Cells, Change};

/// The plan by which a block is unmarked that nothing uses.
pub fn free_block(alloc: Global, metadata: &Metadata, address: u32) -> Result<Planned, AllocError>
    requires { IsTrue (is_data_address metadata.now.geometry address) }
    ensures { IfOk result (λ planned. Unmarks metadata.now.geometry address (SetBlock address false) planned.plan planned.holds.items) }
{
    unmark(alloc, metadata, address, Change::SetBlock(address, false))
}

/// The plan by which an inode number is unmarked that nothing uses.
pub fn free_number(alloc: Global, metadata: &Metadata, number: u32) -> Result<Planned, AllocError>
    requires { IsTrue (is_number metadata.now.geometry number) }
    ensures { IfOk result (λ planned. Unmarks metadata.now.geometry number (SetNumber number false) planned.plan planned.holds.items) }
{
    unmark(alloc, metadata, number, Change::SetNumber(number, false))
}

/// The plan of one update, in the name of a file.
fn unmark(
    alloc: Global,
    metadata: &Metadata,
    file: u32,
    change: Change,
) -> Result<Planned, AllocError>
    requires cell { IsCell metadata.now.geometry (cell_of (change_of change)) }
    requires fits { FitsVolume metadata.now.geometry (change_of change) }
    ensures { IfOk result (λ planned. Unmarks metadata.now.geometry file (change_of change) planned.plan planned.holds.items) }
{
    let mut plan = Plan::new(alloc, metadata.frozen().geometry(), file);
    plan.push(change, Cells::new(alloc))?;
    Ok(plan.without_holds(alloc))
}
