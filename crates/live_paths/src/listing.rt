ghost use Rattle.std.specs.Prelude.{◌≡◌, ℕ, ◌+◌, ◌*◌, ◌<◌, ◌++◌, IfOk, OnOk, map};
ghost use Rattle.frozen.specs.Kept.{frozen_view};
ghost use Rattle.dirent.specs.Seen.{seen};
ghost use Rattle.machine.specs.Effects as machine;
ghost use Rattle.model.specs.Reach.{slot_count};
ghost use Rattle.model.specs.Shape.{most_blocks};
ghost use Rattle.model.specs.View.{View};
ghost use Rattle.live_paths.specs.Listed.{name_of};
ghost use Rattle.live_paths.specs.Shown.{IsShownBy};

use crate::scan::{FIRST_NAME, block_count};
use dirent::{SLOTS, Slot, slot_in};
use frozen::Frozen;
use std::alloc::{AllocError, Global};

/// A name in a directory, and the number that it stands for.
#[derive(Debug, Drop)]
pub struct Named {
    /// The bytes of the name, in no encoding.
    pub name: Vec<u8>,
    /// The number of an inode.
    pub number: u32,
}

/// The names in a directory behind its dots, in the order of the slots; none where the number is no sound directory's.
pub fn names(alloc: Global, frozen: &Frozen, directory: u32) -> Result<Vec<Named>, AllocError>
    ensures { IfOk result (λ names. (view : View) → IsShownBy frozen.now view
        → map name_of names.items ≡ machine.names_below frozen.now.geometry view directory (slot_count frozen.now.geometry)) }
{
    let mut names = Vec::new(alloc);
    for position in 0..block_count(frozen, directory) {
        add_block(alloc, &mut names, frozen, directory, position)?;
    }
    Ok(names)
}

/// Adds the names in a directory's block at this position.
fn add_block(
    alloc: Global,
    names: &mut Vec<Named>,
    frozen: &Frozen,
    directory: u32,
    position: u32,
) -> Result<(), AllocError>
    requires { position < most_blocks frozen.now.geometry }
    ensures { OnOk result (map name_of names.old.items ≡ machine.names_below frozen.now.geometry (frozen_view frozen.now) directory (16 * position)
        → map name_of names.new.items ≡ machine.names_below frozen.now.geometry (frozen_view frozen.now) directory (16 * (position + 1))) }
{
    let Some(block) = frozen.directory_block(directory, position) else {
        return Ok(());
    };
    let start = position * SLOTS as u32;
    let inodes = frozen.geometry().inodes();
    for slot in start..start + SLOTS as u32 {
        if slot >= FIRST_NAME {
            add_name(alloc, names, &slot_in(block, slot, inodes))?;
        }
    }
    Ok(())
}

/// Adds the name in a slot, if it is an entry.
fn add_name(alloc: Global, names: &mut Vec<Named>, slot: &Slot) -> Result<(), AllocError>
    ensures { OnOk result (map name_of names.new.items ≡ map name_of names.old.items ++ machine.named (seen slot.now)) }
{
    if let Slot::Good { number, name } = slot {
        let name = name.to_vec(alloc)?;
        let number = *number;
        names.push(Named { name, number })?;
    }
    Ok(())
}
