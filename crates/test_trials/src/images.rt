//! Small images, and the volumes that are mounted of them.
ghost use Rattle.std.specs.Prelude.{◌≡◌, [], IfOk};
ghost use Rattle.live_states.specs.Holdings.{IsIdle};
ghost use Rattle.snapshot.specs.Mounting.{IsMountable};
ghost use Rattle.softdep.specs.Queued.{pending_of};

use device::Device;
use layout::{BLOCK_BYTES, Block, Geometry, Refusal, fresh_block};
use snapshot::{Live, NotMounted};
use std::alloc::Global;

/// Bytes that an image has in place of a fresh one's: where the first one stands, and what they are.
pub type Put = (usize, &'static [u8]);

/// The bytes of a fresh image of so many groups, of so many blocks and inodes each, and of this version of the layout, with these
/// bytes in it. What would stand behind its end is left out. Refused with `BadGeometry`, `BadSuper` and `NoMemory`.
pub fn bytes_of(
    alloc: Global,
    numbers: [u32; 3],
    version: u32,
    puts: &[Put],
) -> Result<Vec<u8>, Refusal> {
    let [groups, blocks, inodes] = numbers;
    let geometry = Geometry::new(groups, blocks, inodes)?.with_version(version)?;
    let mut bytes = fresh_bytes(alloc, &geometry)?;
    for (at, values) in puts {
        put(bytes.as_mut_slice(), *at, values);
    }
    Ok(bytes)
}

/// The bytes of a fresh image.
fn fresh_bytes(alloc: Global, geometry: &Geometry) -> Result<Vec<u8>, Refusal> {
    let mut bytes = Vec::new(alloc);
    let mut block: Block = [0; BLOCK_BYTES];
    for address in 0..geometry.blocks() {
        fresh_block(geometry, address, &mut block);
        bytes.extend_from_slice(&block)?;
    }
    Ok(bytes)
}

/// Puts bytes into an image.
fn put(bytes: &mut [u8], at: usize, values: &[u8]) {
    for (index, value) in values.iter().enumerate() {
        if let Some(byte) = bytes.get_mut(at.saturating_add(index)) {
            *byte = *value;
        }
    }
}

/// Mounts the volume of a device, which is let go where it cannot be mounted.
pub fn mount<D: Device + Drop>(alloc: Global, device: D) -> Result<Live<D>, Refusal>
    ensures image { IfOk result (λ live. D.image live.device ≡ D.image device) }
    ensures pending { IfOk result (λ live. pending_of live.queue ≡ []) }
    ensures idle { IfOk result (λ live. IsIdle live.holdings) }
    ensures mounted { IfOk result (λ live. D.honest live.device → IsMountable live.kept.geometry (D.image device)) }
{
    match Live::mount(alloc, device) {
        Ok(live) => Ok(live),
        Err(NotMounted { device: _, cause }) => Err(cause),
    }
}
