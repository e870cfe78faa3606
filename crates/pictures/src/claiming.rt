ghost use Rattle.std.specs.Prelude.{◌≡◌, ◌<◌, ◌+◌, length, IfOk, IsTrue};
ghost use Rattle.frozen.specs.Kept.{frozen_view};
ghost use Rattle.model.specs.Layout.{block_count, is_number};
ghost use Rattle.pictures.specs.Uses.{IsUsedAs, IsUsedBy, ShowEach, is_maps, purpose};
ghost use Rattle.pictures.specs.Walk.{ShowBefore, claimed_again, claims_before};

use crate::uses::Use;
use cgmaps::{Map, bit_of};
use frozen::Frozen;
use layout::Geometry;
use std::alloc::{AllocError, Global};

/// What each block is used for, a cell for each.
pub(crate) fn cells_of(alloc: Global, frozen: &Frozen) -> Result<Vec<Use>, AllocError>
    ensures { IfOk result (λ cells. ShowEach frozen.now.geometry (IsUsedAs frozen.now.geometry (frozen_view frozen.now)) cells.items) }
{
    let mut cells = unclaimed_cells(alloc, frozen)?;
    for number in 0..frozen.geometry().inodes() {
        claim_all(&mut cells, frozen, number);
    }
    Ok(cells)
}

/// What each block is used for where no claim is looked at.
fn unclaimed_cells(alloc: Global, frozen: &Frozen) -> Result<Vec<Use>, AllocError>
    ensures { IfOk result (λ cells. ShowBefore frozen.now.geometry (frozen_view frozen.now) 0 0 cells.items) }
{
    let mut cells = Vec::new(alloc);
    for address in 0..frozen.geometry().blocks() {
        cells.push(unclaimed(frozen, address))?;
    }
    Ok(cells)
}

/// What a block is used for where no claim is looked at.
fn unclaimed(frozen: &Frozen, address: u32) -> Use
    requires { address < block_count frozen.now.geometry }
    ensures { IsUsedBy frozen.now.geometry (frozen_view frozen.now) (claims_before frozen.now.geometry (frozen_view frozen.now) 0 0 address) address result }
{
    let geometry = frozen.geometry();
    match geometry.place_of(address) {
        Some(place) if bit_of(frozen.maps_of(place.group), Map::Blocks, place.bit) => Use::Lost,
        Some(_) => Use::Free,
        None if is_maps(&geometry, address) => Use::Maps,
        None => Use::Inodes,
    }
}

/// Whether this is the address of the superblock or of a group's block of maps.
fn is_maps(geometry: &Geometry, address: u32) -> bool
    ensures { result ≡ is_maps geometry.now address }
{
    address == 0 || (address - 1) % geometry.blocks_a_group() == 0
}

/// Adds all claims of an inode to the cells, behind those of the inodes before it.
fn claim_all(cells: &mut Vec<Use>, frozen: &Frozen, number: u32)
    requires { ShowBefore frozen.now.geometry (frozen_view frozen.now) number 0 cells.old.items }
    ensures { ShowBefore frozen.now.geometry (frozen_view frozen.now) (number + 1) 0 cells.new.items }
{
    if !frozen.is_sound_at(number) {
        return;
    }
    let blocks = frozen.blocks(number);
    for position in 0..blocks {
        claim(cells, frozen, number, position);
    }
    let geometry = frozen.geometry();
    for table in geometry.most_blocks()..geometry.tables_end(blocks) {
        claim(cells, frozen, number, table);
    }
}

/// Adds the claim of an inode at a position, if there is one.
fn claim(cells: &mut Vec<Use>, frozen: &Frozen, number: u32, position: u32)
    requires { ShowBefore frozen.now.geometry (frozen_view frozen.now) number position cells.old.items }
    ensures { ShowBefore frozen.now.geometry (frozen_view frozen.now) number (position + 1) cells.new.items }
{
    if let Some(address) = frozen.claim_at(number, position) {
        let place = address as usize;
        cells[place] = claimed_again(cells[place], purpose(frozen, number, position));
    }
}

/// What an inode uses the block for that it claims at a position.
fn purpose(frozen: &Frozen, number: u32, position: u32) -> Use
    ensures { result ≡ purpose frozen.now.geometry (frozen_view frozen.now) number position }
{
    if position >= frozen.geometry().most_blocks() {
        Use::Indirect
    } else if frozen.is_directory_at(number) {
        Use::Directory
    } else {
        Use::File
    }
}

/// What a data block is used for that is claimed once more, for this purpose.
fn claimed_again(cell: Use, purpose: Use) -> Use
    ensures { result ≡ claimed_again cell purpose }
{
    match cell {
        Use::Free | Use::Lost => purpose,
        _ => Use::Duplicate,
    }
}
