ghost use Rattle.std.specs.Prelude.{◌≡◌, ◌⊎◌, ◌+◌, ◌-◌, ◌<◌, ◌≤◌, ◌^◌, min, if◌then◌else◌, false, true, [], ◌∷◌, length, All, IfOk, MatchResult, drop, slice_index_or};
ghost use Rattle.layout.specs.declared.refusal.Refusal.TheVariants.{NoMemory, BadIndex};
ghost use Rattle.device.specs.Cached.{AreWrites, IsSince, cache_answers, held_by, left_of};
ghost use Rattle.device.specs.Media.{chosen, writes_in};
ghost use Rattle.std.proofs.lemmas.Bool.{false≢true};
ghost use Rattle.device.specs.Memory.{IsWriteTo};
ghost use Rattle.device.specs.Writes.{image_after};

use crate::{Device, DeviceFault, MemDevice};
use layout::{Block, Refusal};
use std::alloc::Global;
use std::marker::Model;

/// A step of a device with a write cache.
#[derive(Clone, Copy, Debug, PartialEq, Eq)]
pub enum Step {
    /// The block of this address was written.
    Wrote(u32, Block),
    /// All that was written before is on the medium.
    Synced,
}

/// A device in memory with a write cache: a loss of power may take back any of the writes since the last sync. It keeps the
/// blocks that it began with and each step since, so that whatever a power cut might have left at any moment can be made.
pub struct CacheDevice {
    first: Vec<Block>,
    now: Vec<Block>,
    steps: Vec<Step>,
    failures: u64,
}

/// By hand, so that who drops it goes one step and not one for each field.
impl Drop for CacheDevice {
    fn drop(self) {
        let CacheDevice {
            first: _,
            now: _,
            steps: _,
            failures: _,
        } = self;
    }
}

impl Model for CacheDevice {
    ghost use Rattle.device.specs.Cached.{Cache};
    ghost use Rattle.device.specs.Media.{writes_in};
    ghost use Rattle.device.specs.Memory.{IsMemory};

    ghost Value = { Cache };

    ghost view = { λ d. record { first = d.first.items; steps = d.steps.items; failures = d.failures } };

    ghost invariant = { λ d. IsMemory d.first.items d.now.items (writes_in d.steps.items) };
}

impl CacheDevice {
    /// A cache over what a device in memory holds now, all of which is on the medium.
    pub fn over(alloc: Global, memory: MemDevice) -> Result<CacheDevice, Refusal>
        ensures made { MatchResult result
            (λ device. device ≡ record { first = image_after memory.first memory.writes; steps = []; failures = 0 }) (λ refusal. refusal ≡ NoMemory) }
    {
        let now = memory.into_blocks();
        let first = Vec::from_slice(alloc, now.as_slice())?;
        Ok(CacheDevice {
            first,
            now,
            steps: Vec::new(alloc),
            failures: 0,
        })
    }

    /// The writes and the syncs that were answered, the first first.
    pub fn steps(&self) -> &[Step]
        ensures { result.now ≡ self.entry.now.steps }
    {
        self.steps.as_slice()
    }

    /// A device that begins with what a power cut might have left after so many steps: of the writes since the last sync before
    /// those that are picked, in their order, and no other. A write that has no pick is lost. `BadIndex` where fewer steps were
    /// made.
    pub fn left(&self, alloc: Global, steps: usize, picks: &[bool]) -> Result<MemDevice, Refusal>
        ensures left { IfOk result (λ device. device ≡ record { first = left_of self.entry.now steps picks.now; writes = []; failures = 0 }) }
        ensures made { MatchResult result (λ _. steps ≤ length self.entry.now.steps)
            (λ refusal. (refusal ≡ NoMemory) ⊎ ((refusal ≡ BadIndex) × (length self.entry.now.steps < steps))) }
    {
        let made = self.steps.get(..steps).ok_or(Refusal::BadIndex)?;
        let synced = last_sync(made);
        let mut blocks = Vec::from_slice(alloc, self.first.as_slice())?;
        make_all(&mut blocks, &made[..synced]);
        make_picked(&mut blocks, &made[synced..], picks);
        MemDevice::of_blocks(alloc, blocks)
    }
}

impl Device for CacheDevice {
    ghost KEEPS_ORDER = { false };

    ghost honest = { λ _. Unit {0} };

    ghost image = { λ device. image_after device.first (writes_in device.steps) };

    ghost held = { λ device. held_by device.first device.steps };

    ghost failures = { λ device. device.failures };

    const KEEPS_ORDER: bool = false;

    fn blocks(&self) -> u32 {
        self.now.len() as u32
    }

    fn read(&mut self, address: u32, to: &mut Block) -> Result<(), DeviceFault> {
        *to = self.now[address as usize];
        Ok(())
    }

    fn write(&mut self, address: u32, from: &Block) -> Result<(), DeviceFault> {
        match self.steps.push(Step::Wrote(address, *from)) {
            Ok(()) => {
                self.now[address as usize] = *from;
                Ok(())
            }
            Err(_) => {
                self.failures = self.failures.saturating_add(1);
                Err(DeviceFault)
            }
        }
    }

    fn sync(&mut self) -> Result<(), DeviceFault> {
        match self.steps.push(Step::Synced) {
            Ok(()) => Ok(()),
            Err(_) => {
                self.failures = self.failures.saturating_add(1);
                Err(DeviceFault)
            }
        }
    }

    ghost answers = { cache_answers };

    ghost in_order = { λ keeps. absurd (false≢true keeps) };
}

/// How many steps there are up to the last sync, and with it: what comes behind are writes.
fn last_sync(steps: &[Step]) -> usize
    ensures within { result ≤ length steps.now }
    ensures medium { IsSince steps.now result (length steps.now) }
    ensures writes { AreWrites (drop result steps.now) }
{
    let mut synced = 0;
    for (at, step) in steps.iter().enumerate() {
        match step {
            Step::Synced => synced = at + 1,
            Step::Wrote(..) => {}
        }
    }
    synced
}

/// Makes the writes among these steps, the first first.
fn make_all(blocks: &mut Vec<Block>, steps: &[Step])
    requires { All (IsWriteTo (length blocks.old.items)) (writes_in steps.now) }
    ensures { blocks.new.items ≡ image_after blocks.old.items (writes_in steps.now) }
{
    for step in steps {
        make(blocks, step, true);
    }
}

/// Makes those of the writes among these steps that are picked, the first first.
fn make_picked(blocks: &mut Vec<Block>, steps: &[Step], picks: &[bool])
    requires { All (IsWriteTo (length blocks.old.items)) (writes_in steps.now) }
    ensures { blocks.new.items ≡ image_after blocks.old.items (writes_in (chosen steps.now picks.now)) }
{
    for (at, step) in steps.iter().enumerate() {
        make(blocks, step, is_picked(picks, at));
    }
}

/// Whether there is such a pick, and it is one.
fn is_picked(picks: &[bool], at: usize) -> bool
    ensures { result ≡ slice_index_or picks.now at false }
{
    at < picks.len() && picks[at]
}

/// Makes the write of this step, if it is one and is picked.
fn make(blocks: &mut Vec<Block>, step: &Step, picked: bool)
    requires { All (IsWriteTo (length blocks.old.items)) (writes_in (step.now ∷ [])) }
    ensures { blocks.new.items ≡ image_after blocks.old.items (writes_in (if picked then step.now ∷ [] else [])) }
{
    if let Step::Wrote(address, block) = step {
        if picked {
            blocks[*address as usize] = *block;
        }
    }
}
