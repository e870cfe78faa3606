ghost use Rattle.std.specs.Prelude.{◌≡◌, ◌<◌, ◌≤◌, ◌+◌, ◌*◌, ◌++◌, ℕ, [], IfOk, OnOk, IsOkUnless, IsTrue, IsFalse};
ghost use Rattle.frozen.specs.Kept.{frozen_view};
ghost use Rattle.dirent.specs.Seen.{seen};
ghost use Rattle.model.specs.Named.{named_below, named_from, number_of};
ghost use Rattle.model.specs.Slots.{Absent, slot};
ghost use Rattle.model.specs.Tables.{Puts};
ghost use Rattle.model.specs.Shape.{most_blocks};
ghost use Rattle.model.specs.Uses.{is_directory_at};
ghost use Rattle.directories.specs.Named.{IsNamed};
ghost use Rattle.directories.specs.Pieces.{in_piece};

use crate::cutting::Piece;
use crate::table::Named;
use dirent::{SLOTS, Slot, slot_in};
use frozen::Frozen;
use layout::Refusal;
use std::alloc::Global;

/// What the slots of the sound directories of a piece name, from slot `first` on: 0 where the dots are among them, 2 where
/// not.
pub fn named(alloc: Global, frozen: &Frozen, piece: &Piece, first: u32) -> Result<Named, Refusal>
    ensures named { IfOk result (IsNamed frozen.now.geometry (frozen_view frozen.now) first (in_piece piece.now)) }
    ensures error { IsOkUnless result Refusal.NoMemory }
{
    let mut named = Named::new(alloc);
    for number in piece.first..piece.past {
        add_inode(alloc, &mut named, frozen, number, first)?;
    }
    Ok(named)
}

/// Enters what the slots of the inode name from slot `first` on, if it is a sound directory.
fn add_inode(
    alloc: Global,
    named: &mut Named,
    frozen: &Frozen,
    number: u32,
    first: u32,
) -> Result<(), Refusal>
    ensures directory { OnOk result (IsTrue (is_directory_at frozen.now.geometry (frozen_view frozen.now) number)
        → Puts number (named_from frozen.now.geometry (frozen_view frozen.now) first number) named.old named.new) }
    ensures other { OnOk result (IsFalse (is_directory_at frozen.now.geometry (frozen_view frozen.now) number) → named.new ≡ named.old) }
    ensures error { IsOkUnless result Refusal.NoMemory }
{
    if !frozen.is_directory_at(number) {
        return Ok(());
    }
    let numbers = numbers_named(alloc, frozen, number, first)?;
    named.enter(number, numbers)
}

/// The numbers that the good slots of a directory name, in order of the slots from slot `first` on; none where the
/// number is no sound directory's. Only `NoMemory` is refused.
pub fn numbers_named(
    alloc: Global,
    frozen: &Frozen,
    directory: u32,
    first: u32,
) -> Result<Vec<u32>, Refusal>
    ensures numbers { IfOk result (λ numbers. numbers.items ≡ named_from frozen.now.geometry (frozen_view frozen.now) first directory) }
    ensures error { IsOkUnless result Refusal.NoMemory }
{
    let mut numbers = Vec::new(alloc);
    for position in 0..block_count(frozen, directory) {
        add_block(&mut numbers, frozen, directory, position, first)?;
    }
    Ok(numbers)
}

/// How many blocks of slots a directory has, and none where the number is no sound directory's.
fn block_count(frozen: &Frozen, directory: u32) -> u32
    ensures few { result ≤ most_blocks frozen.now.geometry }
    ensures past { (s : ℕ) → 16 * result ≤ s → slot frozen.now.geometry (frozen_view frozen.now) directory s ≡ Absent }
{
    if !frozen.is_directory_at(directory) {
        return 0;
    }
    frozen.blocks(directory)
}

/// Adds what the slots of a directory's block at this position name, from slot `first` on.
fn add_block(
    numbers: &mut Vec<u32>,
    frozen: &Frozen,
    directory: u32,
    position: u32,
    first: u32,
) -> Result<(), Refusal>
    requires { position < most_blocks frozen.now.geometry }
    ensures added { OnOk result (numbers.old.items ≡ named_below frozen.now.geometry (frozen_view frozen.now) first directory (16 * position)
        → numbers.new.items ≡ named_below frozen.now.geometry (frozen_view frozen.now) first directory (16 * (position + 1))) }
    ensures error { IsOkUnless result Refusal.NoMemory }
{
    let Some(block) = frozen.directory_block(directory, position) else {
        return Ok(());
    };
    let start = position * SLOTS as u32;
    let inodes = frozen.geometry().inodes();
    for slot in start..start + SLOTS as u32 {
        if slot >= first {
            add_number(numbers, &slot_in(block, slot, inodes))?;
        }
    }
    Ok(())
}

/// Adds the number that a slot names, if it is good.
fn add_number(numbers: &mut Vec<u32>, slot: &Slot) -> Result<(), Refusal>
    ensures added { OnOk result (numbers.new.items ≡ numbers.old.items ++ number_of (seen slot.now)) }
    ensures error { IsOkUnless result Refusal.NoMemory }
{
    if let Slot::Good { number, .. } = slot {
        numbers.push(*number)?;
    }
    Ok(())
}
