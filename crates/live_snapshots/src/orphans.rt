ghost use Rattle.std.specs.Prelude.{◌≡◌, ◌==◌, false, IfOk, IsTrue, OnOk};
ghost use Rattle.frozen.specs.Kept.{KeepsMetadata, frozen_view};
ghost use Rattle.machine.specs.Cells.{claims};
ghost use Rattle.model.specs.Layout.{inode_count, is_number};
ghost use Rattle.model.specs.View.{free_inode};
ghost use Rattle.updates.specs.Values.{change as change_of};
ghost use Rattle.live_snapshots.specs.Orphans.{Adds, Frees, FreesToo, LacksOrphans, is_claimed_at, is_of_orphan_below, is_open_below, is_orphan_of, orphan_by};

use frozen::Frozen;
use inode::{ATTRIBUTES, DIRECT_POINTERS, FREE, Record};
use live_holdings::Holdings;
use metadata::Metadata;
use spares::Spares;
use std::alloc::{AllocError, Global};
use updates::{Cells, Change, Update};

/// The metadata without the open inodes that have no links: each is freed, with its number and its blocks. Takes memory
/// for the table of blocks, and for each update that this needs.
pub fn without_orphans(
    alloc: Global,
    metadata: &Metadata,
    holdings: &Holdings,
) -> Result<Frozen, AllocError>
    ensures shows { IfOk result (LacksOrphans metadata.now holdings.now) }
    ensures metadata { IfOk result KeepsMetadata }
    ensures geometry { IfOk result (λ left. left.geometry ≡ metadata.now.geometry) }
{
    let updates = free_orphans(alloc, metadata.frozen(), holdings)?;
    let staged = metadata.stage(alloc, updates.as_slice(), &mut Spares::none(alloc))?;
    metadata.copy_with(alloc, staged)
}

/// How many handles may be open at once.
const HANDLES: u32 = 1024;

/// The updates that free each open inode without links, once each.
fn free_orphans(
    alloc: Global,
    frozen: &Frozen,
    holdings: &Holdings,
) -> Result<Vec<Update>, AllocError>
    ensures { IfOk result (λ updates. Frees frozen.now.geometry (is_orphan_of frozen.now holdings.now)
        (is_of_orphan_below frozen.now holdings.now (inode_count frozen.now.geometry)) updates.items) }
{
    let mut updates = Vec::new(alloc);
    for handle in 0..HANDLES {
        if let Some(number) = orphan_at(frozen, holdings, handle) {
            free(alloc, frozen, number, &mut updates)?;
        }
    }
    Ok(updates)
}

/// The inode that a handle is open on, if it has no links and no handle before is open on it.
fn orphan_at(frozen: &Frozen, holdings: &Holdings, handle: u32) -> Option<u32>
    ensures { result ≡ orphan_by frozen.now holdings.now handle }
{
    let number = holdings.file_of(handle)?;
    let is_orphan = frozen.is_sound_at(number)
        && frozen.links(number) == 0
        && !is_open_before(holdings, number, handle);
    is_orphan.then_some(number)
}

/// Whether a handle before this one is open on an inode.
fn is_open_before(holdings: &Holdings, number: u32, handle: u32) -> bool
    ensures { result ≡ is_open_below holdings.now handle number }
{
    for earlier in 0..handle {
        if holdings.file_of(earlier) == Some(number) {
            return true;
        }
    }
    false
}

/// Adds the updates that free a number, with its record and all blocks that it claims.
fn free(
    alloc: Global,
    frozen: &Frozen,
    number: u32,
    updates: &mut Vec<Update>,
) -> Result<(), AllocError>
    requires { IsTrue (is_number frozen.now.geometry number) }
    ensures { OnOk result (FreesToo frozen.now.geometry (λ i. i == number) (claims frozen.now.geometry (frozen_view frozen.now) number) updates.old.items updates.new.items) }
{
    push(
        alloc,
        updates,
        Change::of_record(alloc, number, free_record())?,
    )?;
    push(alloc, updates, Change::SetNumber(number, false))?;
    let geometry = frozen.geometry();
    let end = frozen.blocks(number).min(geometry.most_blocks());
    for position in 0..end {
        free_at(alloc, frozen, number, position, updates)?;
    }
    let last = geometry.tables_end(end);
    for table in geometry.most_blocks()..last {
        free_at(alloc, frozen, number, table, updates)?;
    }
    Ok(())
}

/// Adds the update that clears the bit of the block that a number claims at a position, if it claims one.
fn free_at(
    alloc: Global,
    frozen: &Frozen,
    number: u32,
    position: u32,
    updates: &mut Vec<Update>,
) -> Result<(), AllocError>
    ensures { OnOk result (FreesToo frozen.now.geometry (λ i. false) (is_claimed_at frozen.now.geometry (frozen_view frozen.now) number position) updates.old.items updates.new.items) }
{
    if let Some(block) = frozen.claim_at(number, position) {
        push(alloc, updates, Change::SetBlock(block, false))?;
    }
    Ok(())
}

/// A record that is free.
fn free_record() -> Record
    ensures { result ≡ free_inode }
{
    Record {
        mode: FREE,
        links: 0,
        size: 0,
        direct: [0; DIRECT_POINTERS],
        indirect: 0,
        double: 0,
        attributes: [0; ATTRIBUTES],
    }
}

/// Adds the update that makes this change. The device is not to see it, so it comes after nothing.
fn push(alloc: Global, updates: &mut Vec<Update>, change: Change) -> Result<(), AllocError>
    ensures { OnOk result (Adds (change_of change) updates.old.items updates.new.items) }
{
    let update = Update {
        change,
        file: None,
        after: Cells::new(alloc),
    };
    updates.push(update)?;
    Ok(())
}
