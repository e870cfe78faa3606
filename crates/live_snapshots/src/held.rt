ghost use Rattle.std.specs.Prelude.{◌≡◌, ◌<◌, ◌≤◌, ℕ, Bool, IfOk, IfSome, IsTrue, OnOk, length};
ghost use Rattle.frozen.specs.Kept.{KeepsMetadata, kept_bytes};
ghost use Rattle.marks.specs.Marks.{IsNextMarked};
ghost use Rattle.model.specs.Image.{IsBlock};
ghost use Rattle.model.specs.Layout.{group_block, group_of_address, is_data_address};
ghost use Rattle.live_states.specs.Holdings.{held_by};
ghost use Rattle.live_snapshots.specs.Unmarked.{IsUnmarked, Unmarks, held_between};

use frozen::{Frozen, Placed};
use layout::{Block, Geometry};
use live_holdings::Holdings;
use spares::Spares;
use std::alloc::{AllocError, Global};
use std::sync::Arc;
use updates::Change;

/// Unmarks the blocks that are held. Takes memory for one block of maps of each group that has one.
pub fn unmark_held(
    alloc: Global,
    frozen: &mut Frozen,
    holdings: &Holdings,
) -> Result<(), AllocError>
    requires { KeepsMetadata frozen.old }
    ensures { OnOk result (Unmarks frozen.old (held_by holdings.now) frozen.new) }
{
    let mut from = 0;
    while let Some(address) = holdings.next_held(from) {
        from = unmark_from(alloc, frozen, holdings, address)?;
    }
    Ok(())
}

/// Unmarks the blocks that are held from this one on, up to the next one that stands in another group. Gives the address
/// below which none is left.
fn unmark_from(
    alloc: Global,
    frozen: &mut Frozen,
    holdings: &Holdings,
    address: u32,
) -> Result<u32, AllocError>
    requires held { IsNextMarked holdings.now.held address address }
    requires few { length holdings.now.held < 4294967296 }
    requires metadata { KeepsMetadata frozen.old }
    ensures { IfOk result (λ end. (address < end) × (end ≤ length holdings.now.held)
        × Unmarks frozen.old (held_between holdings.now address end) frozen.new) }
{
    let geometry = frozen.geometry();
    let Some(place) = geometry.place_of(address) else {
        return Ok(address + 1);
    };
    let mut maps = *frozen.maps_of(place.group);
    let end = clear_bits(&geometry, holdings, place.group, address, &mut maps);
    install(alloc, frozen, place.group, maps)?;
    Ok(end)
}

/// Clears the bits of the blocks that are held, from this one on, in its group's block of maps, up to the next one that
/// stands in another group. Gives the address below which none is left.
fn clear_bits(
    geometry: &Geometry,
    holdings: &Holdings,
    group: u32,
    address: u32,
    maps: &mut Block,
) -> u32
    requires held { IsNextMarked holdings.now.held address address }
    requires few { length holdings.now.held < 4294967296 }
    requires place { IsTrue (is_data_address geometry.now address) × (group_of_address geometry.now address ≡ group) }
    ensures cleared { IsUnmarked geometry.now (group_block geometry.now group) (held_between holdings.now address result) maps.old maps.new }
    ensures end { (address < result) × (result ≤ length holdings.now.held) }
{
    Change::SetBlock(address, false).put(geometry, maps);
    let mut end = address + 1;
    while let Some(next) = next_in(geometry, holdings, group, end) {
        Change::SetBlock(next, false).put(geometry, maps);
        end = next + 1;
    }
    end
}

/// The next block from this address on that is held, if it stands in this group.
fn next_in(geometry: &Geometry, holdings: &Holdings, group: u32, from: u32) -> Option<u32>
    ensures { IfSome result (λ a. IsNextMarked holdings.now.held from a × IsTrue (is_data_address geometry.now a)
        × (group_of_address geometry.now a ≡ group)) }
{
    let address = holdings.next_held(from)?;
    let place = geometry.place_of(address)?;
    (place.group == group).then_some(address)
}

/// Puts a block of maps in place of a group's, from which it differs in bits of data blocks alone.
fn install(alloc: Global, frozen: &mut Frozen, group: u32, maps: Block) -> Result<(), AllocError>
    requires metadata { KeepsMetadata frozen.old }
    requires group { group < frozen.old.geometry.groups }
    requires unmarked { (gone : ℕ → Bool) × IsUnmarked frozen.old.geometry (group_block frozen.old.geometry group) gone
        (kept_bytes frozen.old.blocks (group_block frozen.old.geometry group)) maps }
    ensures { OnOk result ((gone : ℕ → Bool) → IsUnmarked frozen.old.geometry (group_block frozen.old.geometry group) gone
        (kept_bytes frozen.old.blocks (group_block frozen.old.geometry group)) maps → Unmarks frozen.old gone frozen.new) }
{
    is_whole(&maps);
    frozen.maps_of(group);
    let address = frozen.geometry().group_block(group);
    let block = Arc::new(alloc, maps)?;
    let mut blocks = Vec::new(alloc);
    blocks.push(Placed { address, block })?;
    frozen.install(blocks, &mut Spares::none(alloc));
    Ok(())
}

/// A block has all of its bytes, and each is one.
fn is_whole(block: &Block)
    ensures { IsBlock block.now }
{
    block.iter(); // for the proof: the length of the array
}
