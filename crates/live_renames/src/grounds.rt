ghost use Rattle.std.specs.Prelude.{◌≡◌, ◌⊎◌, ℕ, IsTrue, List, OnOk, IfOk, Ok, Some, map};
ghost use Rattle.std.specs.List.{All, Contains};
ghost use Rattle.frozen.specs.Kept.{frozen_view};
ghost use Rattle.model.specs.Layout.{root};
ghost use Rattle.model.specs.Uses.{is_directory_at};
ghost use Rattle.machine.specs.Paths.{is_part, lookup, walk as machine_walk};
ghost use Rattle.ordering.specs.Cuts.{Cell as OrderedCell};
ghost use Rattle.courses.specs.After.{IsOfDirectory};
ghost use Rattle.updates.specs.Values.{cell};
ghost use Rattle.live_renames.specs.Gathered.{Gathers, HasDirectory, IsGrounded};

use dirent::SLOTS;
use frozen::Frozen;
use layout::ROOT;
use live_paths::{Path, find};
use std::alloc::AllocError;
use updates::{Cell, Cells};

/// Adds the grounds of the directory that holds the last part of a path, behind these cells: for each directory from the
/// root to it its record, its tables, and the block in which its name stands. Nothing else is added.
pub(crate) fn add_grounds(frozen: &Frozen, path: &Path, cells: &mut Cells) -> Result<(), AllocError>
    requires { (d : ℕ) × (machine_walk frozen.now.geometry (frozen_view frozen.now) root path.now ≡ Ok d) }
    ensures gathers { OnOk result (Gathers frozen.now.geometry (map cell cells.old.items) (map cell cells.new.items)) }
    ensures grounds { OnOk result ((d : ℕ) → machine_walk frozen.now.geometry (frozen_view frozen.now) root path.now ≡ Ok d
        → IsGrounded frozen.now.geometry (frozen_view frozen.now) d (map cell cells.old.items) (map cell cells.new.items)) }
{
    let Some((mut name, mut rest)) = path.split_first() else {
        unreachable!()
    };
    let mut directory = ROOT;
    add_directory(frozen, directory, cells)?;
    'parts: loop {
        let Some((next, behind)) = rest.split_first() else {
            return Ok(());
        };
        directory = add_name(frozen, directory, name, cells)?;
        name = next;
        rest = behind;
    }
}

/// Adds the block of a directory in which a name stands, and the cells of the directory that it names, which is given back.
fn add_name(
    frozen: &Frozen,
    directory: u32,
    name: &[u8],
    cells: &mut Cells,
) -> Result<u32, AllocError>
    requires named { (i : ℕ) × (lookup frozen.now.geometry (frozen_view frozen.now) directory name.now ≡ Some i)
        × IsTrue (is_directory_at frozen.now.geometry (frozen_view frozen.now) i) }
    requires part { IsTrue (is_part name.now) }
    ensures names { IfOk result (λ i. lookup frozen.now.geometry (frozen_view frozen.now) directory name.now ≡ Some i) }
    ensures gathers { OnOk result (Gathers frozen.now.geometry (map cell cells.old.items) (map cell cells.new.items)) }
    ensures grounds { IfOk result (λ i. (first : List OrderedCell)
        → IsGrounded frozen.now.geometry (frozen_view frozen.now) directory first (map cell cells.old.items)
        → IsGrounded frozen.now.geometry (frozen_view frozen.now) i first (map cell cells.new.items)) }
{
    let Some(entry) = find(frozen, directory, name) else {
        unreachable!()
    };
    let Some(block) = frozen.claim_at(directory, entry.slot / SLOTS as u32) else {
        unreachable!()
    };
    cells.push(Cell::Block(block))?;
    add_directory(frozen, entry.number, cells)?;
    Ok(entry.number)
}

/// Adds the record of a directory, and each of its tables, and nothing else.
fn add_directory(frozen: &Frozen, directory: u32, cells: &mut Cells) -> Result<(), AllocError>
    requires { IsTrue (is_directory_at frozen.now.geometry (frozen_view frozen.now) directory) }
    ensures gathers { OnOk result (Gathers frozen.now.geometry (map cell cells.old.items) (map cell cells.new.items)) }
    ensures directory { OnOk result (HasDirectory frozen.now.geometry (frozen_view frozen.now) directory (map cell cells.new.items)) }
    ensures only { OnOk result (All (λ c. Contains (map cell cells.old.items) c
        ⊎ IsOfDirectory frozen.now.geometry (frozen_view frozen.now) directory c) (map cell cells.new.items)) }
{
    cells.push(Cell::Record(directory))?;
    let geometry = frozen.geometry();
    let end = geometry.tables_end(frozen.blocks(directory));
    for table in geometry.most_blocks()..end {
        if let Some(block) = frozen.claim_at(directory, table) {
            cells.push(Cell::Block(block))?;
        }
    }
    Ok(())
}
