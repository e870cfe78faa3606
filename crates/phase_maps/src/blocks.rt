//! What is found of the maps of data blocks.
ghost use Rattle.std.specs.Prelude.{◌≡◌, ◌<◌, ◌+◌, OnOk};
ghost use Rattle.model.specs.Layout.{header_blocks};
ghost use Rattle.frozen.specs.Kept.{frozen_view};
ghost use Rattle.model.specs.Growth.{Adds};
ghost use Rattle.phase_maps.specs.Walks.{IsFoundInGroup, block_finding, is_owned};

use cgmaps::{Map, bit_of};
use findings::Finding;
use frozen::Frozen;
use layout::Geometry;
use phase_blocks::BlockOwners;
use std::alloc::AllocError;

/// Adds what is found of the data blocks of a group, where these are their owners.
pub(crate) fn add_blocks(
    frozen: &Frozen,
    group: u32,
    owners: &BlockOwners,
    found: &mut Vec<Finding>,
) -> Result<(), AllocError>
    requires { group < frozen.now.geometry.groups }
    ensures { OnOk result (Adds (IsFoundInGroup frozen.now.geometry (frozen_view frozen.now) (is_owned owners.now) group) found.old.items found.new.items) }
{
    let geometry = frozen.geometry();
    let maps = frozen.maps_of(group);
    for bit in 0..data_blocks(&geometry) {
        let address = geometry.data_address(group, bit);
        let is_marked = bit_of(maps, Map::Blocks, bit);
        if let Some(finding) = block_finding(is_marked, has_owner(owners, bit), address) {
            found.push(finding)?;
        }
    }
    Ok(())
}

/// Whether a claim owns the data block of this bit.
fn has_owner(owners: &BlockOwners, bit: u32) -> bool
    ensures { result ≡ is_owned owners.now bit }
{
    owners.of(bit).is_some()
}

/// How many data blocks a group has.
fn data_blocks(geometry: &Geometry) -> u32
    ensures { header_blocks geometry.now + result ≡ geometry.now.blocks }
{
    geometry.blocks_a_group() - geometry.header_blocks()
}

/// What is found of a data block.
fn block_finding(is_marked: bool, is_owned: bool, address: u32) -> Option<Finding>
    ensures { result ≡ block_finding is_marked is_owned address }
{
    match (is_marked, is_owned) {
        (true, false) => Some(Finding::LostBlock(address)),
        (false, true) => Some(Finding::UnmarkedBlock(address)),
        _ => None,
    }
}
