ghost use Rattle.std.specs.Prelude.{◌≡◌, ◌<◌, ◌+◌, ℕ, All, List, length, IfOk, IfErr, OnOk, IsErrOf, Some};
ghost use Rattle.std.specs.Option.{option_map};
ghost use Rattle.std.specs.Arc.{arc_value};
ghost use Rattle.model.specs.Layout.{block_count, data_address, group_block};
ghost use Rattle.model.specs.Image.{IsBlock, IsSuper, IsGroupBlock, block_at};
ghost use Rattle.frozen.specs.Kept.{KeepsFrame, KeepsClaim, KeepsTables, KeepsTablesOf, KeepsDirectory, KeepsMetadata, KeepsMore, IsKeptOf};
ghost use Rattle.frozen.specs.Kept.{frozen_view};
ghost use Rattle.frozen.specs.Kinds.{AreKinds};
ghost use Rattle.frozen.specs.Shared.{shared_blocks};
ghost use Rattle.device.specs.Reading.{ReadsOnly};
ghost use Rattle.device.specs.Writes.{HasFailed};
ghost use Rattle.frozen.specs.Loading.{AreBlocksOf, AreReadFrom, BlockRefuses, FirstRefuses, FrameRefuses, GivesOut, HeaderRefuses, IsHeader, IsHeaderOf, IsKeptBlock, KeepsOn, LoadRefuses, MapsRefuse, TellsGeometry};

use crate::kinds::{Kind, kinds_of, may_be_directory, may_have_tables};
use crate::{Frozen, Held};
use cgmaps::read_group;
use device::Device;
use layout::{BLOCK_BYTES, Block, Geometry, Refusal, read_super};
use std::alloc::{AllocError, Global};
use std::sync::Arc;

/// Reads the metadata of a device's image: the blocks that each volume has, then the tables that sound inodes
/// claim, then the blocks that sound directories claim. A block that is there already is not read again. It is refused
/// with `BadLength` where the device has no block, or not as many as its superblock tells; with `BadSuper` where block 0
/// is no superblock; with `BadGroup` where the block of maps of this group is not its own, and of no group before it;
/// with `Device` where the device failed, and with `NoMemory`. It writes nothing.
pub fn load<D: Device>(alloc: Global, device: &mut D) -> Result<Frozen, Refusal>
    // Where each read gave what stood there, the blocks are an image, and this is what it holds.
    ensures ok { IfOk result (λ frozen. D.honest device.new → IsKeptOf frozen (D.image device.old)) }
    // The device has as many blocks as the volume, honest or not.
    ensures count { IfOk result (λ frozen. length (D.image device.old) ≡ block_count frozen.geometry) }
    ensures refused { IfErr result (λ refusal. LoadRefuses (D.honest device.new) (D.image device.old) refusal) }
    ensures cause { IsErrOf result Refusal.Device → HasFailed (D.failures device.old) (D.failures device.new) }
    ensures failures { OnOk result (D.failures device.new ≡ D.failures device.old) }

    ensures reads { ReadsOnly D.honest D.image D.held device.old device.new }
{
    let (geometry, first) = read_first(device)?;
    let held = Held::new(geometry, read_frame(alloc, device, &geometry, &first)?);
    let kinds = kinds_of(alloc, &held)?;
    Ok(fill(alloc, device, held, kinds)?)
}

/// Reads the superblock of a device's image, and the geometry that it tells. It is refused with `BadLength` where the device has
/// no block, or not as many as that; with `BadSuper` where block 0 is no superblock; and with `Device` where the device failed.
pub fn read_first<D: Device>(device: &mut D) -> Result<(Geometry, Block), Refusal>
    ensures count { IfOk result (λ first. length (D.image device.old) ≡ block_count first.0) }
    ensures is_super { IfOk result (λ first. IsSuper first.0 first.1) }
    ensures whole { IfOk result (λ first. All IsBlock (D.image device.old)) }
    ensures block { IfOk result (λ first. D.honest device.new → first.1 ≡ block_at (D.image device.old) 0) }
    ensures told { IfOk result (λ first. D.honest device.new → TellsGeometry (D.image device.old) first.0) }
    ensures refused { IfErr result (λ refusal. FirstRefuses (D.honest device.new) (D.image device.old) refusal) }
    ensures cause { IsErrOf result Refusal.Device → HasFailed (D.failures device.old) (D.failures device.new) }
    ensures failures { OnOk result (D.failures device.new ≡ D.failures device.old) }

    ensures reads { ReadsOnly D.honest D.image D.held device.old device.new }
{
    let count = device.blocks();
    if count == 0 {
        return Err(Refusal::BadLength);
    }
    let mut first = [0; BLOCK_BYTES];
    device.read(0, &mut first)?;
    let geometry = read_super(&first)?;
    if count != geometry.blocks() {
        return Err(Refusal::BadLength);
    }
    Ok((geometry, first))
}

/// Reads what else is kept of the image whose frame is held: the tables that sound inodes claim, then the blocks that sound
/// directories claim. What the records tell of their numbers is known by then, so few of them are looked at again. It is refused
/// with `Device` where the device failed, and with `NoMemory`.
pub fn fill<D: Device>(
    alloc: Global,
    device: &mut D,
    held: Held,
    kinds: Vec<Kind>,
) -> Result<Frozen, Refusal>
    requires count { length (D.image device.old) ≡ block_count held.geometry }
    requires frame { KeepsFrame held }
    requires known { AreKinds held.geometry (frozen_view held) kinds.items }

    ensures metadata { IfOk result (λ frozen. KeepsMetadata frozen) }
    ensures more { IfOk result (λ frozen. KeepsMore held frozen) }
    ensures blocks { IfOk result (λ frozen. D.honest device.new → AreBlocksOf held.blocks (D.image device.old)
        → AreBlocksOf frozen.blocks (D.image device.old)) }
    ensures refused { IfErr result GivesOut }
    ensures cause { IsErrOf result Refusal.Device → HasFailed (D.failures device.old) (D.failures device.new) }
    ensures failures { OnOk result (D.failures device.new ≡ D.failures device.old) }

    ensures reads { ReadsOnly D.honest D.image D.held device.old device.new }
{
    let mut held = held;
    read_tables(alloc, device, &mut held, kinds.as_slice())?;
    read_directories(alloc, device, &mut held, kinds.as_slice())?;
    Ok(Frozen::new(held, kinds))
}

/// Reads the tables that sound inodes claim, each once.
fn read_tables<D: Device>(
    alloc: Global,
    device: &mut D,
    held: &mut Held,
    kinds: &[Kind],
) -> Result<(), Refusal>
    requires count { length (D.image device.old) ≡ block_count held.old.geometry }
    requires known { AreKinds held.old.geometry (frozen_view held.old) kinds.now }

    ensures frame { OnOk result (KeepsFrame held.new) }
    ensures more { OnOk result (KeepsMore held.old held.new) }
    ensures tables { OnOk result (KeepsTables held.new) }
    ensures blocks { OnOk result (D.honest device.new → AreBlocksOf held.old.blocks (D.image device.old)
        → AreBlocksOf held.new.blocks (D.image device.old)) }
    ensures refused { IfErr result GivesOut }
    ensures cause { IsErrOf result Refusal.Device → HasFailed (D.failures device.old) (D.failures device.new) }
    ensures failures { OnOk result (D.failures device.new ≡ D.failures device.old) }

    ensures reads { ReadsOnly D.honest D.image D.held device.old device.new }
{
    for number in 0..held.geometry().inodes() {
        read_tables_of(alloc, device, held, kinds, number)?;
    }
    Ok(())
}

/// Reads the tables that an inode claims, if it is sound, in order of their positions: the one that holds the pointer to
/// another comes before it.
fn read_tables_of<D: Device>(
    alloc: Global,
    device: &mut D,
    held: &mut Held,
    kinds: &[Kind],
    number: u32,
) -> Result<(), Refusal>
    requires count { length (D.image device.old) ≡ block_count held.old.geometry }
    requires frame { KeepsFrame held.old }
    requires known { AreKinds held.old.geometry (frozen_view held.old) kinds.now }

    ensures frame { OnOk result (KeepsFrame held.new) }
    ensures more { OnOk result (KeepsMore held.old held.new) }
    ensures tables { OnOk result (KeepsTablesOf held.new number) }
    ensures blocks { OnOk result (D.honest device.new → AreBlocksOf held.old.blocks (D.image device.old)
        → AreBlocksOf held.new.blocks (D.image device.old)) }
    ensures refused { IfErr result GivesOut }
    ensures cause { IsErrOf result Refusal.Device → HasFailed (D.failures device.old) (D.failures device.new) }
    ensures failures { OnOk result (D.failures device.new ≡ D.failures device.old) }

    ensures reads { ReadsOnly D.honest D.image D.held device.old device.new }
{
    if !may_have_tables(kinds, number) {
        return Ok(());
    }
    if !held.is_sound_at(number) {
        return Ok(());
    }
    let geometry = held.geometry();
    for position in geometry.most_blocks()..geometry.tables_end(held.blocks(number)) {
        keep_claimed(alloc, device, held, number, position)?;
    }
    Ok(())
}

/// Reads the blocks that sound directories claim, each once.
fn read_directories<D: Device>(
    alloc: Global,
    device: &mut D,
    held: &mut Held,
    kinds: &[Kind],
) -> Result<(), Refusal>
    requires count { length (D.image device.old) ≡ block_count held.old.geometry }
    requires tables { KeepsTables held.old }
    requires known { AreKinds held.old.geometry (frozen_view held.old) kinds.now }

    ensures metadata { OnOk result (KeepsMetadata held.new) }
    ensures more { OnOk result (KeepsMore held.old held.new) }
    ensures blocks { OnOk result (D.honest device.new → AreBlocksOf held.old.blocks (D.image device.old)
        → AreBlocksOf held.new.blocks (D.image device.old)) }
    ensures refused { IfErr result GivesOut }
    ensures cause { IsErrOf result Refusal.Device → HasFailed (D.failures device.old) (D.failures device.new) }
    ensures failures { OnOk result (D.failures device.new ≡ D.failures device.old) }

    ensures reads { ReadsOnly D.honest D.image D.held device.old device.new }
{
    for number in 0..held.geometry().inodes() {
        read_directory(alloc, device, held, kinds, number)?;
    }
    Ok(())
}

/// Reads the blocks that an inode claims, if it is a sound directory, but for its tables, which are there.
fn read_directory<D: Device>(
    alloc: Global,
    device: &mut D,
    held: &mut Held,
    kinds: &[Kind],
    number: u32,
) -> Result<(), Refusal>
    requires count { length (D.image device.old) ≡ block_count held.old.geometry }
    requires frame { KeepsFrame held.old }
    requires tables { KeepsTables held.old }
    requires known { AreKinds held.old.geometry (frozen_view held.old) kinds.now }

    ensures frame { OnOk result (KeepsFrame held.new) }
    ensures more { OnOk result (KeepsMore held.old held.new) }
    ensures directory { OnOk result (KeepsDirectory held.new number) }
    ensures blocks { OnOk result (D.honest device.new → AreBlocksOf held.old.blocks (D.image device.old)
        → AreBlocksOf held.new.blocks (D.image device.old)) }
    ensures refused { IfErr result GivesOut }
    ensures cause { IsErrOf result Refusal.Device → HasFailed (D.failures device.old) (D.failures device.new) }
    ensures failures { OnOk result (D.failures device.new ≡ D.failures device.old) }

    ensures reads { ReadsOnly D.honest D.image D.held device.old device.new }
{
    if !may_be_directory(kinds, number) {
        return Ok(());
    }
    if !held.is_directory_at(number) {
        return Ok(());
    }
    for position in 0..held.blocks(number) {
        keep_claimed(alloc, device, held, number, position)?;
    }
    Ok(())
}

/// Reads the block that an inode claims at a position, unless it is there already. Where a table holds the pointer of
/// the position, that table has to be there, or nothing is claimed.
fn keep_claimed<D: Device>(
    alloc: Global,
    device: &mut D,
    held: &mut Held,
    number: u32,
    position: u32,
) -> Result<(), Refusal>
    requires { length (D.image device.old) ≡ block_count held.old.geometry }

    ensures frame { OnOk result (KeepsFrame held.old → KeepsFrame held.new) }
    ensures more { OnOk result (KeepsMore held.old held.new) }
    ensures claim { OnOk result (KeepsClaim held.new number position) }
    ensures blocks { OnOk result (D.honest device.new → AreBlocksOf held.old.blocks (D.image device.old)
        → AreBlocksOf held.new.blocks (D.image device.old)) }
    ensures refused { IfErr result GivesOut }
    ensures cause { IsErrOf result Refusal.Device → HasFailed (D.failures device.old) (D.failures device.new) }
    ensures failures { OnOk result (D.failures device.new ≡ D.failures device.old) }

    ensures reads { ReadsOnly D.honest D.image D.held device.old device.new }
{
    match held.claim_at(number, position) {
        Some(address) if held.block(address).is_none() => {
            let mut claimed = [0; BLOCK_BYTES];
            device.read(address, &mut claimed)?;
            held.keep(alloc, address, &claimed)?;
            Ok(())
        }
        _ => Ok(()),
    }
}

/// Reads the blocks that each volume has, behind its superblock, which was read before.
fn read_frame<D: Device>(
    alloc: Global,
    device: &mut D,
    geometry: &Geometry,
    first: &Block,
) -> Result<Vec<Option<Arc<Block>>>, Refusal>
    requires count { length (D.image device.old) ≡ block_count geometry.now }
    requires first { IsSuper geometry.now first.now }

    ensures kept { IfOk result (λ blocks. KeepsFrame (record { geometry = geometry.now; blocks = shared_blocks blocks.items })) }
    ensures blocks { IfOk result (λ blocks. D.honest device.new → first.now ≡ block_at (D.image device.old) 0
        → AreBlocksOf (shared_blocks blocks.items) (D.image device.old)) }
    ensures refused { IfErr result (λ refusal. FrameRefuses (D.honest device.new) geometry.now (D.image device.old) refusal) }
    ensures cause { IsErrOf result Refusal.Device → HasFailed (D.failures device.old) (D.failures device.new) }
    ensures failures { OnOk result (D.failures device.new ≡ D.failures device.old) }

    ensures reads { ReadsOnly D.honest D.image D.held device.old device.new }
{
    let mut blocks = Vec::with_capacity(alloc, geometry.blocks() as usize)?;
    blocks.push(Some(Arc::new(alloc, *first)?))?;
    for group in 0..geometry.groups() {
        let header = read_header(alloc, device, geometry, group)?;
        add_group(geometry, group, header, &mut blocks)?;
    }
    Ok(blocks)
}

/// Reads the blocks of a group that come before its data blocks. It is refused with `BadGroup` where its block of maps is not its
/// own, with `Device` where the device failed, and with `NoMemory`.
pub fn read_header<D: Device>(
    alloc: Global,
    device: &mut D,
    geometry: &Geometry,
    group: u32,
) -> Result<Vec<Option<Arc<Block>>>, Refusal>
    requires count { length (D.image device.old) ≡ block_count geometry.now }
    requires in_volume { group < geometry.now.groups }

    ensures header { IfOk result (λ header. IsHeader geometry.now group (shared_blocks header.items)) }
    ensures blocks { IfOk result (λ header. D.honest device.new
        → IsHeaderOf geometry.now (D.image device.old) group (shared_blocks header.items)) }
    ensures refused { IfErr result (λ refusal. HeaderRefuses (D.honest device.new) geometry.now (D.image device.old) group refusal) }
    ensures cause { IsErrOf result Refusal.Device → HasFailed (D.failures device.old) (D.failures device.new) }
    ensures failures { OnOk result (D.failures device.new ≡ D.failures device.old) }

    ensures reads { ReadsOnly D.honest D.image D.held device.old device.new }
{
    let start = geometry.group_block(group);
    let header = geometry.header_blocks();
    let mut blocks = Vec::with_capacity(alloc, header as usize)?;
    for address in start..start + header {
        let kept = keep_block(alloc, device, geometry, address)?;
        blocks.push(kept)?;
    }
    Ok(blocks)
}

/// Adds the blocks of a group behind those of the groups before: these, which come before its data blocks, and the empty places
/// of its data blocks.
pub fn add_group(
    geometry: &Geometry,
    group: u32,
    header: Vec<Option<Arc<Block>>>,
    blocks: &mut Vec<Option<Arc<Block>>>,
) -> Result<(), AllocError>
    requires in_volume { group < geometry.now.groups }
    requires header { IsHeader geometry.now group (shared_blocks header.items) }

    ensures kept { OnOk result (KeepsOn geometry.now (shared_blocks blocks.old.items) (group_block geometry.now group)
        (shared_blocks blocks.new.items) (group_block geometry.now (group + 1))) }
    ensures told { OnOk result ((image : List (List ℕ)) → length (shared_blocks blocks.old.items) ≡ group_block geometry.now group
        → IsHeaderOf geometry.now image group (shared_blocks header.items)
        → AreReadFrom (shared_blocks blocks.old.items) image → AreReadFrom (shared_blocks blocks.new.items) image) }
{
    let mut header = header;
    blocks.append(&mut header)?;
    leave_data(geometry, group, blocks)?;
    Ok(())
}

/// Leaves the places of a group's data blocks empty.
fn leave_data(
    geometry: &Geometry,
    group: u32,
    blocks: &mut Vec<Option<Arc<Block>>>,
) -> Result<(), AllocError>
    requires { group < geometry.now.groups }
    ensures kept { OnOk result (KeepsOn geometry.now (shared_blocks blocks.old.items) (data_address geometry.now group 0)
        (shared_blocks blocks.new.items) (group_block geometry.now (group + 1))) }
    ensures told { OnOk result ((image : List (List ℕ)) → AreReadFrom (shared_blocks blocks.old.items) image
        → AreReadFrom (shared_blocks blocks.new.items) image) }
{
    let header = geometry.header_blocks();
    let past = geometry.blocks_a_group();
    for _place in header..past {
        blocks.push(None)?;
    }
    Ok(())
}

/// Reads a block behind the superblock, if each volume has it.
fn keep_block<D: Device>(
    alloc: Global,
    device: &mut D,
    geometry: &Geometry,
    address: u32,
) -> Result<Option<Arc<Block>>, Refusal>
    requires count { length (D.image device.old) ≡ block_count geometry.now }
    requires behind { 0 < address }
    requires on_volume { address < block_count geometry.now }

    ensures kept { IfOk result (λ kept. IsKeptBlock geometry.now address (option_map arc_value kept)) }
    ensures block { IfOk result (λ kept. D.honest device.new → (b : List ℕ) → option_map arc_value kept ≡ Some b
        → b ≡ block_at (D.image device.old) address) }
    ensures refused { IfErr result (λ refusal. BlockRefuses (D.honest device.new) geometry.now (D.image device.old) address refusal) }
    ensures cause { IsErrOf result Refusal.Device → HasFailed (D.failures device.old) (D.failures device.new) }
    ensures failures { OnOk result (D.failures device.new ≡ D.failures device.old) }

    ensures reads { ReadsOnly D.honest D.image D.held device.old device.new }
{
    if geometry.place_of(address).is_some() {
        return Ok(None);
    }
    let mut block = [0; BLOCK_BYTES];
    device.read(address, &mut block)?;
    check_maps(geometry, address, &block)?;
    Ok(Some(Arc::new(alloc, block)?))
}

/// Tests a group's block of maps; any other block passes.
fn check_maps(geometry: &Geometry, address: u32, block: &Block) -> Result<(), Refusal>
    requires behind { 0 < address }
    requires on_volume { address < block_count geometry.now }
    ensures ok { OnOk result ((g : ℕ) → group_block geometry.now g ≡ address → IsGroupBlock g block.now) }
    ensures whole { IsBlock block.now }
    ensures refused { IfErr result (λ refusal. MapsRefuse geometry.now address block.now refusal) }
{
    let place = address - 1;
    if place % geometry.blocks_a_group() == 0 {
        read_group(block, place / geometry.blocks_a_group())?;
    }
    Ok(())
}
