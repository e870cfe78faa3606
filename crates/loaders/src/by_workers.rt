//! How an image is loaded by workers.
ghost use Rattle.std.specs.Prelude.{◌≡◌, ◌⊎◌, ℕ, List, [], All, IfErr, IfOk, IsErrOf, IsTrue, Ok, OnOk, Some, length, slice_get, vec_len};
ghost use Rattle.device.specs.Reading.{ReadsOnly};
ghost use Rattle.device.specs.Writes.{HasFailed};
ghost use Rattle.frozen.specs.Kept.{IsKeptOf, KeepsFrame};
ghost use Rattle.frozen.specs.Loading.{AreBlocksOf, FrameRefuses, IsHeader, IsHeaderOf, LoadRefuses};
ghost use Rattle.frozen.specs.Shared.{shared_blocks};
ghost use Rattle.layout.specs.declared.refusal.Refusal.TheVariants.{NoMemory};
ghost use Rattle.model.specs.Image.{IsSuper, block_at};
ghost use Rattle.model.specs.Layout.{block_count};
ghost use Rattle.loaders.specs.Readers.{AreRead, IsFirstRefusal, Show};
ghost use Rattle.worker_counts.specs.Workers.{may_work};

use crate::looking::kinds_by;
use crate::placing::place_all;
use crate::reader::{Header, apart, readers};
use device::Device;
use frozen::{Frozen, Held, add_group, fill, load, read_first};
use layout::{Block, Geometry, Refusal};
use std::alloc::Global;
use std::mem;
use std::sync::Arc;
use std::thread::Threads;
use workers::{OpenGate, Workers, each_group};

/// Reads the metadata of a device's image as `load` does, by as many workers as there are other devices, which show the same
/// image: each reads the blocks that each volume has of the groups that it draws, and those of the directories whose records stand
/// there, through its own device, and `device` the superblock, the tables of files and what they left out. Without other devices,
/// and with more than 64 of them, all is read through `device`.
///
/// It is refused as `load` refuses, whichever worker met a refusal first: of several groups the first one's is told. Where it was
/// another device that failed, all is read through `device`. Where memory runs out the other devices may be lost, all of them;
/// whatever it answers, those that are left were only read.
pub fn load_by<D: Device + Send + Drop>(
    rt: &(impl Threads + Sync),
    alloc: Global,
    device: &mut D,
    others: &mut Vec<D>,
) -> Result<Frozen, Refusal>
    requires { Show D.image (D.image device.old) others.old.items }

    // Where each read of each device gave what stood there, the blocks are an image, and this is what it holds.
    ensures ok { IfOk result (λ frozen. D.honest device.new → All D.honest others.new.items → IsKeptOf frozen (D.image device.old)) }
    ensures count { IfOk result (λ frozen. length (D.image device.old) ≡ block_count frozen.geometry) }
    ensures refused { IfErr result (λ refusal.
        LoadRefuses (D.honest device.new × All D.honest others.new.items) (D.image device.old) refusal) }

    ensures cause { IsErrOf result Refusal.Device → HasFailed (D.failures device.old) (D.failures device.new) }
    ensures reads { ReadsOnly D.honest D.image D.held device.old device.new }
    ensures others { OnOk result (AreRead D.honest D.image D.held others.old.items others.new.items) }
    ensures lost { IfErr result (λ refusal. ((refusal ≡ NoMemory) × (others.new.items ≡ [])) ⊎ AreRead D.honest D.image D.held others.old.items others.new.items) }
{
    let Ok(workers) = Workers::for_each(others.as_slice()) else {
        return Ok(load(alloc, device)?);
    };
    let (geometry, first) = read_first(device)?;
    let blocks = match read_frame(rt, alloc, &geometry, &first, others) {
        Ok(blocks) => blocks,
        Err(refusal) => return read_alone(alloc, device, refusal),
    };
    let held = Held::new(geometry, blocks);
    let kinds = kinds_by(rt, alloc, &held, workers)?;
    Ok(fill(alloc, device, held, kinds)?)
}

/// Reads all through one device where it was another one that failed; any other refusal stands.
fn read_alone<D: Device>(alloc: Global, device: &mut D, refusal: Refusal) -> Result<Frozen, Refusal>
    ensures ok { IfOk result (λ frozen. D.honest device.new → IsKeptOf frozen (D.image device.old)) }
    ensures count { IfOk result (λ frozen. length (D.image device.old) ≡ block_count frozen.geometry) }
    ensures again { OnOk result (refusal ≡ Refusal.Device) }
    ensures stands { IfErr result (λ told. (refusal ≡ Refusal.Device) ⊎ (told ≡ refusal)) }
    ensures refused { IfErr result (λ told. (told ≡ refusal) ⊎ LoadRefuses (D.honest device.new) (D.image device.old) told) }
    ensures cause { IsErrOf result Refusal.Device → HasFailed (D.failures device.old) (D.failures device.new) }
    ensures reads { ReadsOnly D.honest D.image D.held device.old device.new }
{
    match refusal {
        Refusal::Device => Ok(load(alloc, device)?),
        other => Err(other),
    }
}

/// Reads the blocks that each volume has, behind its superblock, which was read before, and blocks of directories, by as many
/// workers as there are devices.
fn read_frame<D: Device + Send + Drop>(
    rt: &(impl Threads + Sync),
    alloc: Global,
    geometry: &Geometry,
    first: &Block,
    devices: &mut Vec<D>,
) -> Result<Vec<Option<Arc<Block>>>, Refusal>
    requires some { IsTrue (may_work (vec_len devices.old)) }
    requires count { All (λ device. length (D.image device) ≡ block_count geometry.now) devices.old.items }
    requires first { IsSuper geometry.now first.now }

    ensures kept { IfOk result (λ blocks. KeepsFrame (record { geometry = geometry.now; blocks = shared_blocks blocks.items })) }
    ensures blocks { IfOk result (λ blocks. (image : List (List ℕ)) → Show D.image image devices.old.items
        → All D.honest devices.new.items → first.now ≡ block_at image 0 → AreBlocksOf (shared_blocks blocks.items) image) }
    ensures refused { IfErr result (λ refusal. (image : List (List ℕ)) → Show D.image image devices.old.items
        → FrameRefuses (All D.honest devices.new.items) geometry.now image refusal) }
    ensures read { OnOk result (AreRead D.honest D.image D.held devices.old.items devices.new.items) }
    ensures lost { IfErr result (λ refusal. ((refusal ≡ NoMemory) × (devices.new.items ≡ [])) ⊎ AreRead D.honest D.image D.held devices.old.items devices.new.items) }
{
    let works = readers(alloc, geometry, mem::replace(devices, Vec::new(alloc)))?;
    let (headers, works) = each_group(rt, alloc, 0, geometry.groups(), works, &OpenGate)?;
    let (back, ahead) = apart(alloc, works)?;
    *devices = back;
    let mut blocks = joined(alloc, geometry, first, headers)?;
    place_all(geometry, ahead, &mut blocks);
    Ok(blocks)
}

/// The superblock, and behind it the blocks of all groups, in their order. The refusal of the first group that is refused is told.
fn joined(
    alloc: Global,
    geometry: &Geometry,
    first: &Block,
    headers: Vec<Header>,
) -> Result<Vec<Option<Arc<Block>>>, Refusal>
    requires count { length headers.items ≡ geometry.now.groups }
    requires read { (g : ℕ) (header : _) → slice_get headers.items g ≡ Some (Ok header)
        → IsHeader geometry.now g (shared_blocks header.items) }
    requires first { IsSuper geometry.now first.now }

    ensures kept { IfOk result (λ blocks. KeepsFrame (record { geometry = geometry.now; blocks = shared_blocks blocks.items })) }
    ensures blocks { IfOk result (λ blocks. (image : List (List ℕ))
        → ((g : ℕ) (header : _) → slice_get headers.items g ≡ Some (Ok header)
        → IsHeaderOf geometry.now image g (shared_blocks header.items))
        → first.now ≡ block_at image 0 → AreBlocksOf (shared_blocks blocks.items) image) }
    ensures refused { IfErr result (λ refusal. (refusal ≡ NoMemory) ⊎ IsFirstRefusal headers.items refusal) }
{
    let mut blocks = Vec::with_capacity(alloc, geometry.blocks() as usize)?;
    blocks.push(Some(Arc::new(alloc, *first)?))?;
    let mut group = 0;
    for header in headers {
        add_group(geometry, group, header?, &mut blocks)?;
        group += 1;
    }
    Ok(blocks)
}
