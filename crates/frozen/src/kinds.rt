//! What is known of the inode numbers of an image beside their records.
ghost use Rattle.std.specs.Prelude.{IfOk, IsFalse};
ghost use Rattle.frozen.specs.Kept.{KeepsFrame, frozen_view};
ghost use Rattle.frozen.specs.Kinds.{AreKinds, has_tables_at};
ghost use Rattle.model.specs.Layout.{Geometry};
ghost use Rattle.model.specs.Uses.{is_directory_at};
ghost use Rattle.model.specs.View.{View};

use crate::Held;
use std::alloc::{AllocError, Global};

/// Whether an inode number is that of a sound inode, whether that one has tables, and whether it is a directory.
#[derive(Clone, Copy)]
pub struct Kind {
    pub is_sound: bool,
    pub has_tables: bool,
    pub is_directory: bool,
}

/// What the records tell of all inode numbers.
pub fn kinds_of(alloc: Global, held: &Held) -> Result<Vec<Kind>, AllocError>
    ensures known { IfOk result (λ kinds. AreKinds held.now.geometry (frozen_view held.now) kinds.items) }
    ensures frame { KeepsFrame held.now }
{
    let inodes = held.geometry().inodes();
    let mut kinds = Vec::with_capacity(alloc, inodes as usize)?;
    for number in 0..inodes {
        kinds.push(held.kind(number))?;
    }
    Ok(kinds)
}

/// Whether an inode may have tables, by what is known of it.
pub(crate) fn may_have_tables(kinds: &[Kind], number: u32) -> bool
    ensures { (geo : Geometry) (view : View) → AreKinds geo view kinds.now → IsFalse result → IsFalse (has_tables_at geo view number) }
{
    match kinds.get(number as usize) {
        Some(kind) => kind.has_tables,
        None => true,
    }
}

/// Whether a number may be that of a sound directory, by what is known of it.
pub(crate) fn may_be_directory(kinds: &[Kind], number: u32) -> bool
    ensures { (geo : Geometry) (view : View) → AreKinds geo view kinds.now → IsFalse result → IsFalse (is_directory_at geo view number) }
{
    match kinds.get(number as usize) {
        Some(kind) => kind.is_directory,
        None => true,
    }
}
