ghost use Rattle.std.specs.Prelude.{◌≡◌, ◌≢◌, ◌⊎◌, ℕ, ◌+◌, ◌-◌, ◌<◌, ◌≤◌, ◌^◌, ◌%◌, ◌/◌, min, true, [], ◌∷◌, ◌++◌, List, length, All, IfOk, OnOk, OnErr, MatchResult, IsErrOf, slice_set, take};
ghost use Rattle.std.specs.List.{flat_map};
ghost use Rattle.layout.specs.declared.refusal.Refusal.TheVariants.{NoMemory, BadLength, BadIndex};
ghost use Rattle.model.specs.Image.{IsBlock};
ghost use Rattle.device.specs.Memory.{IsWholeBlocks, IsWriteTo};
ghost use Rattle.device.specs.Cached.{held_in_memory, memory_answers, memory_in_order};
ghost use Rattle.device.specs.Writes.{image_after};

use crate::{Device, DeviceFault};
use layout::{BLOCK_BYTES, Block, Refusal};
use std::alloc::{AllocError, Global};
use std::marker::Model;

/// The most blocks that have an address each.
const MOST_BLOCKS: usize = u32::MAX as usize;

/// A device in memory. It keeps the blocks that it began with and each write since, so that every image that it held
/// is there.
pub struct MemDevice {
    first: Vec<Block>,
    now: Vec<Block>,
    writes: Vec<(u32, Block)>,
    failures: u64,
}

/// By hand, so that who drops it goes one step and not one for each field.
impl Drop for MemDevice {
    fn drop(self) {
        let MemDevice {
            first: _,
            now: _,
            writes: _,
            failures: _,
        } = self;
    }
}

impl Model for MemDevice {
    ghost use Rattle.device.specs.Memory.{Memory, IsMemory};

    ghost Value = { Memory };

    ghost view = { λ d. record { first = d.first.items; writes = d.writes.items; failures = d.failures } };

    ghost invariant = { λ d. IsMemory d.first.items d.now.items d.writes.items };
}

impl MemDevice {
    /// The device whose blocks are these bytes.
    pub fn from_bytes(alloc: Global, bytes: &[u8]) -> Result<MemDevice, Refusal>
        ensures blocks { IfOk result (λ device. flat_map (λ block. block) device.first ≡ bytes.now) }
        ensures fresh { IfOk result (λ device. (device.writes ≡ []) × (device.failures ≡ 0)) }
        ensures whole { IfOk result (λ device. All IsBlock device.first) }
        ensures count { IfOk result (λ device. length device.first ≡ length bytes.now / 1024) }
        ensures length { MatchResult result (λ _. IsWholeBlocks (length bytes.now))
            (λ refusal. (refusal ≡ NoMemory) ⊎ ((refusal ≡ BadLength) × (IsWholeBlocks (length bytes.now) → ⊥))) }
    {
        let count = bytes.len() / BLOCK_BYTES;
        if count == 0 || bytes.len() % BLOCK_BYTES != 0 || count > MOST_BLOCKS {
            return Err(Refusal::BadLength);
        }
        MemDevice::of_blocks(alloc, blocks_of(alloc, bytes)?)
    }

    /// The device with these blocks.
    pub(crate) fn of_blocks(alloc: Global, blocks: Vec<Block>) -> Result<MemDevice, Refusal>
        requires whole { All IsBlock blocks.items }
        requires few { length blocks.items < 2 ^ 32 }
        ensures { MatchResult result (λ device. device ≡ record { first = blocks.items; writes = []; failures = 0 }) (λ refusal. refusal ≡ NoMemory) }
    {
        let now = Vec::from_slice(alloc, blocks.as_slice())?;
        Ok(MemDevice {
            first: blocks,
            now,
            writes: Vec::new(alloc),
            failures: 0,
        })
    }

    /// How many writes were made.
    pub fn writes(&self) -> usize
        ensures { result ≡ length self.entry.now.writes }
    {
        self.writes.len()
    }

    /// The blocks now.
    pub(crate) fn into_blocks(self) -> Vec<Block>
        ensures blocks { result.items ≡ image_after self.first self.writes }
        ensures whole { All IsBlock result.items }
        ensures few { length result.items < 2 ^ 32 }
    {
        let MemDevice {
            first: _,
            now,
            writes: _,
            failures: _,
        } = self;
        now
    }

    /// A device that begins with what this one held after so many of its writes. `BadIndex` where fewer were made.
    pub fn image_after(&self, alloc: Global, writes: usize) -> Result<MemDevice, Refusal>
        ensures image { IfOk result (λ device. device ≡ record { first = image_after self.entry.now.first (take writes self.entry.now.writes); writes = []; failures = 0 }) }
        ensures made { MatchResult result (λ _. writes ≤ length self.entry.now.writes)
            (λ refusal. (refusal ≡ NoMemory) ⊎ ((refusal ≡ BadIndex) × (length self.entry.now.writes < writes))) }
    {
        let made = self.writes.get(..writes).ok_or(Refusal::BadIndex)?;
        let mut first = Vec::from_slice(alloc, self.first.as_slice())?;
        write_all(&mut first, made);
        MemDevice::of_blocks(alloc, first)
    }
}

impl Device for MemDevice {
    ghost KEEPS_ORDER = { true };

    ghost honest = { λ _. Unit {0} };

    ghost image = { λ device. image_after device.first device.writes };

    ghost held = { λ device. held_in_memory device };

    ghost failures = { λ device. device.failures };

    const KEEPS_ORDER: bool = true;

    fn blocks(&self) -> u32 {
        self.now.len() as u32
    }

    fn read(&mut self, address: u32, to: &mut Block) -> Result<(), DeviceFault> {
        *to = self.now[address as usize];
        Ok(())
    }

    fn write(&mut self, address: u32, from: &Block) -> Result<(), DeviceFault> {
        match self.writes.push((address, *from)) {
            Ok(()) => {
                self.now[address as usize] = *from;
                Ok(())
            }
            Err(_) => {
                self.failures = self.failures.saturating_add(1);
                Err(DeviceFault)
            }
        }
    }

    fn sync(&mut self) -> Result<(), DeviceFault> {
        Ok(())
    }

    ghost answers = { memory_answers };

    ghost in_order = { λ _ device. memory_in_order device };
}

/// Makes these writes, the first first.
fn write_all(blocks: &mut Vec<Block>, writes: &[(u32, Block)])
    requires { All (IsWriteTo (length blocks.old.items)) writes.now }
    ensures { blocks.new.items ≡ image_after blocks.old.items writes.now }
{
    for (address, block) in writes {
        blocks[*address as usize] = *block;
    }
}

/// The bytes as blocks.
fn blocks_of(alloc: Global, bytes: &[u8]) -> Result<Vec<Block>, AllocError>
    requires { length bytes.now % 1024 ≡ 0 }
    ensures bytes { IfOk result (λ blocks. flat_map (λ block. block) blocks.items ≡ bytes.now) }
    ensures whole { IfOk result (λ blocks. All IsBlock blocks.items) }
    ensures count { IfOk result (λ blocks. length blocks.items ≡ length bytes.now / 1024) }
{
    let count = bytes.len() / BLOCK_BYTES;
    let mut blocks = Vec::with_capacity(alloc, count)?;
    for i in 0..count {
        let mut block = [0; BLOCK_BYTES];
        block.copy_from_slice(&bytes[i * BLOCK_BYTES..(i + 1) * BLOCK_BYTES]);
        blocks.push(block)?;
    }
    Ok(blocks)
}
