//! The plan of a repair: the updates by which space that leaked is given back.
//!
//! An inode that nothing reaches loses its links, and one that is named less often than it counts loses those that are too
//! many. Where none is left and no handle is open on it, it is freed with its number and its blocks, of which those that
//! a snapshot keeps are held. A block or a number that is marked and used by nothing is unmarked.
#![tactic(auto)]

mod relinking;
mod unmarking;

ghost use Rattle.std.specs.Prelude.{◌≡◌, ◌<◌, ◌≤◌, [], IfErr, IfOk, length};
ghost use Rattle.std.specs.List.{All};
ghost use Rattle.machine.specs.Command.{Done, RepairAt};
ghost use Rattle.metadata.specs.Shown.{Shows};
ghost use Rattle.model.specs.Layout.{block_count};
ghost use Rattle.model.specs.View.{View};
ghost use Rattle.live_states.specs.Holdings.{with_done, with_held};
ghost use Rattle.live_states.specs.Planned.{IsOfVolumeWith, IsPlannedWith, IsRefusedWith};
ghost use Rattle.live_states.specs.Snapshots.{AreRepairsOf, IsRepairOf};
ghost use Rattle.live_repairs.specs.Repaired.{IsRepaired};

use findings::Repair;
use layout::Refusal;
use live_holdings::Holdings;
use live_plans::Planned;
use metadata::Metadata;
pub use relinking::{drop_inode, lower_count};
use std::alloc::{AllocError, Global};
pub use unmarking::{free_block, free_number};

/// The plan by which a repair of the check that is installed is carried out, by its place. Refused with `NoPlan` where no
/// check is installed, with `BadIndex` where it has no such repair, and with `AlreadyDone`. At any time it may be refused
/// with `NoMemory`.
pub fn repair(
    alloc: Global,
    metadata: &Metadata,
    holdings: &Holdings,
    place: u32,
) -> Result<Planned, Refusal>
    requires volume { IsOfVolumeWith metadata.now holdings.now }
    requires wide { block_count metadata.now.geometry ≤ length holdings.now.held }
    requires repairs { AreRepairsOf metadata.now.geometry holdings.now.repairs }
    ensures planned { IfOk result (λ planned. IsPlannedWith metadata.now holdings.now [] (RepairAt place) Done planned.plan (with_done (with_held holdings.now planned.holds.items) place)) }
    ensures holds { IfOk result (λ planned. All (λ a. a < block_count metadata.now.geometry) planned.holds.items) }
    ensures refused { IfErr result (IsRefusedWith metadata.now holdings.now (RepairAt place)) }
{
    let repair = holdings.to_do(place)?;
    Ok(repaired(alloc, metadata, holdings, repair)?)
}

/// The updates of a repair, and the blocks that are held then.
pub(crate) fn repaired(
    alloc: Global,
    metadata: &Metadata,
    holdings: &Holdings,
    repair: Repair,
) -> Result<Planned, AllocError>
    requires { IsRepairOf metadata.now.geometry repair }
    ensures { IfOk result (λ planned. (view : View) → Shows metadata.now view
        → IsRepaired metadata.now.geometry view holdings.now repair planned.plan planned.holds.items) }
{
    match repair {
        Repair::DropInode(number) => drop_inode(alloc, metadata, holdings, number),
        Repair::LowerCount(number, fewer) => {
            lower_count(alloc, metadata, holdings, number, fewer)
        }
        Repair::FreeBlock(address) => free_block(alloc, metadata, address),
        Repair::FreeNumber(number) => free_number(alloc, metadata, number),
    }
}
