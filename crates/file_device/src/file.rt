ghost use Rattle.std.specs.Prelude.{◌≡◌, ℕ, ◌<◌, ◌*◌, ◌+◌, ◌-◌, ◌^◌, min, true, false, None, List, [], ◌∷◌, ◌++◌, IfOk, IfErr, IfSome, OnErr, OnOk, replicate};
ghost use Rattle.std.proofs.lemmas.Bool.{false≢true};
ghost use Rattle.layout.specs.declared.refusal.Refusal.TheVariants.{BadLength};
ghost use Rattle.model.specs.Image.{IsBlock, block_at};
ghost use Rattle.device.specs.declared.cache.Step.TheVariants.{Wrote, Synced};
ghost use Rattle.device.specs.Media.{settled_on};
ghost use Rattle.device.specs.Writes.{CountsFaults};
ghost use Rattle.device.specs.Memory.{IsWholeBlocks};
ghost use Rattle.device.specs.Zeroes.{zeroes_are_whole};
ghost use Rattle.file_device.specs.Calls.{GoesOn, IsHonestFile, all_writes, call_at, calls_of, has_refused, held_so_far, image_now, no_block};
ghost use Rattle.file_device.specs.CallLaws.{file_answers};
ghost use Rattle.file_device.specs.Opening.{IsOfCall, MayNotOpen};
ghost use Rattle.file_device.specs.Runs.{IsUntouched, writes_of_run};
ghost use Rattle.file_device.specs.declared.file.Call.TheVariants.{ReadBlock, Refuse, Sync};

use crate::opening::OpenError;
use crate::run::{Earlier, RUN_BLOCKS, Run};
use device::{Device, DeviceFault};
use http_server::Log;
use layout::{BLOCK_BYTES, Block};
use std::alloc::Global;
use std::fs::{OpenFile, OpenOptions};
use std::marker::{Brand, Model, PhantomData};
use std::os::unix::fs::FileExt;
use std::rt::Files;
use std::{fs, io};

/// What a file held before its first call, block by block. Only clauses read it.
pub trait Start {
    /// What it would have given.
    ghost first: { ℕ → List ℕ };

    /// What was on the medium: a power cut may have left any of the blocks there as they were before.
    ghost below: { ℕ → List ℕ };

    ghost whole: { (a : ℕ) → IsBlock (first a) };

    ghost whole_below: { (a : ℕ) → IsBlock (below a) };
}

impl Start for Brand {
    ghost first = { λ _. replicate 1024 0 };

    ghost below = { λ _. replicate 1024 0 };

    ghost whole = { λ _. zeroes_are_whole };

    ghost whole_below = { λ _. zeroes_are_whole };
}

/// A call that a file answered, and the address of its block.
#[derive(Clone, Copy, Debug, PartialEq, Eq)]
pub enum Call {
    ReadBlock(u32),
    WriteBlock(u32),
    /// All that the file was given before is on the medium.
    Sync,
    /// A write or a sync was refused. Of what the file was given and what is not on the medium nothing is known any more,
    /// whatever it answers later: a system may report a failed write once, and forget it.
    Refuse,
}

/// The block that is noted with a call that has none.
const NO_BLOCK: Block = [0; BLOCK_BYTES];

/// A file as a device. It keeps a history of what the file was asked and answered, which only clauses read: no contract can
/// say what a file gives back, so what is proved of the blocks of a file has as its premise that each block that the file
/// gave is what it held at first or what it was given there since. A block that is read out of memory needs no premise of
/// its own: that it is the one that stands there is proved.
///
/// Nor can a contract say what is on the medium. What is said of it has as its premises that a sync that the file answers has
/// brought all there that the file was given before, that a block is there whole or not at all, and that nobody else writes. A
/// file that refused a write or a sync is asked nothing any more; of what it refused to write any block may be there.
///
/// Blocks that are read one after another come from the file in runs, and those that are read alone are kept, each until
/// another needs its place: so what others write to the file meanwhile may stay unseen. Blocks that are written one after
/// another are given to the file in runs, too: the last ones wait in memory until another block is written, or `sync` or `give`
/// is called. The file is given all writes in their order, so that after each call of the system it holds what some of the
/// writes left, the first first; the medium may have any of those since the last sync.
pub struct FileDevice<F: Drop, S: Start> {
    file: F,
    count: u32,
    failures: u64,
    /// What the file was asked and answered.
    answered: Log<Call, Block>,
    /// The blocks that were read or written last.
    kept: Run,
    /// Whether what is kept was written, and the file was not given it yet.
    waits: bool,
    /// Blocks that were read alone, each as it was written last.
    earlier: Earlier,
    /// Whether the file refused a write or a sync.
    broken: bool,
    start: PhantomData<S>,
}

/// By hand, so that who drops it goes one step and not one for each field.
impl<F: Drop, S: Start> Drop for FileDevice<F, S> {
    fn drop(self) {
        let FileDevice {
            file: _,
            count: _,
            failures: _,
            answered: _,
            kept: _,
            waits: _,
            earlier: _,
            broken: _,
            start: _,
        } = self;
    }
}

impl<F: Drop, S: Start> Model for FileDevice<F, S> {
    ghost use Rattle.file_device.specs.Calls.{Calls, image_of};
    ghost use Rattle.file_device.specs.Runs.{IsOfFile, waiting, writes_of_run, writes_of_earlier};

    ghost Value = { Calls };

    ghost view = { λ device. record { count = device.count; answered = device.answered.items; waiting = waiting device.waits device.kept; failures = device.failures } };

    ghost invariant = { λ device. IsOfFile (image_of S.first device.count) device.answered.items (waiting device.waits device.kept) (writes_of_run device.kept) (writes_of_earlier device.earlier) device.broken };
}

impl<F: Drop, S: Start> FileDevice<F, S> {
    /// The device over a file of this many blocks, with no call made yet.
    fn over(alloc: Global, file: F, count: u32) -> Result<FileDevice<F, S>, OpenError>
        ensures new { IfOk result (λ device. device ≡ record { count = count; answered = []; waiting = []; failures = 0 }) }
        ensures error { IfErr result IsOfCall }
    {
        Ok(FileDevice {
            file,
            count,
            failures: 0,
            answered: Log::new(),
            kept: Run::before(alloc, 0)?,
            waits: false,
            earlier: Earlier::none(alloc)?,
            broken: false,
            start: PhantomData,
        })
    }

    /// The same device, whose file is asked through another value, which asks it the same.
    pub fn through<G: Drop, W: FnOnce(F) -> G>(self, wrap: W) -> FileDevice<G, S>
        requires { W.IsAlwaysCallable wrap }
        ensures { result ≡ self }
    {
        let FileDevice {
            file,
            count,
            failures,
            answered,
            kept,
            waits,
            earlier,
            broken,
            start,
        } = self;
        FileDevice {
            file: wrap(file),
            count,
            failures,
            answered,
            kept,
            waits,
            earlier,
            broken,
            start,
        }
    }

    /// A fault, which is counted.
    fn fault(&mut self) -> DeviceFault
        ensures { self.new ≡ record self.old { failures = min (self.old.failures + 1) (2 ^ 64 - 1) } }
    {
        self.failures = self.failures.saturating_add(1);
        DeviceFault
    }

    /// Refuses a call where the file refused a write or a sync before.
    fn check(&self) -> io::Result<()>
        ensures sound { OnOk result (has_refused false self.now.answered ≡ false) }
        ensures broken { OnErr result (has_refused false self.now.answered ≡ true) }
    {
        if self.broken {
            return Err(io::Error::from(io::ErrorKind::Other));
        }
        Ok(())
    }

    /// Notes that the file refused a write or a sync: it is asked nothing any more.
    fn refuse(&mut self)
        ensures { self.new ≡ record self.old { answered = self.old.answered ++ (Refuse, no_block) ∷ [] } }
    {
        self.answered = self.answered.and(&Call::Refuse, &NO_BLOCK);
        self.broken = true;
    }

    /// The block of this address, where a copy of it is kept. Where none is, no block waits for this address.
    fn find(&self, address: u32) -> Option<&Block>
        ensures copy { IfSome result (λ block. IsHonestFile S.first self.now → address < self.now.count → block.now ≡ block_at (image_now S.first self.now) address) }
        ensures none { result ≡ None → IsUntouched self.now.waiting address }
    {
        match self.kept.block(address) {
            Some(block) => Some(block),
            None => self.earlier.block(address),
        }
    }

    /// Lets go of the blocks that are kept, where none of them waits; the next ones are read from behind this address on.
    fn let_go(&mut self, address: u32)
        ensures { self.new ≡ self.old }
    {
        if self.waits {
            return;
        }
        self.kept.clear(address.saturating_add(1));
    }
}

impl<F: FileExt + Drop, S: Start> FileDevice<F, S> {
    /// Gives the file what waits; then it was given each write that was answered. After a fault it still waits.
    pub fn give(&mut self) -> Result<(), DeviceFault>
        ensures given { OnOk result (self.new ≡ record self.old { answered = self.old.answered ++ calls_of true self.old.waiting; waiting = [] }) }
        ensures fault { OnErr result (GoesOn self.old self.new []) }
        ensures waits { OnErr result (self.new.waiting ≡ self.old.waiting) }
        ensures sound { OnOk result (has_refused false self.old.answered ≡ false) }
        ensures unasked { has_refused false self.old.answered ≡ true → self.new.answered ≡ self.old.answered }
        ensures ends { OnErr result (has_refused false self.new.answered ≡ true) }
        ensures cause { CountsFaults result self.old.failures self.new.failures }
    {
        match self.give_waiting() {
            Ok(()) => Ok(()),
            Err(_) => Err(self.fault()),
        }
    }

    /// Gives the file what waits, and counts no fault. The file has refused nothing then.
    fn give_waiting(&mut self) -> io::Result<()>
        ensures given { OnOk result (self.new ≡ record self.old { answered = self.old.answered ++ calls_of true self.old.waiting; waiting = [] }) }
        ensures sound { OnOk result (has_refused false self.old.answered ≡ false) }
        ensures refused { OnErr result (GoesOn self.old self.new []) }
        ensures waits { OnErr result (self.new.waiting ≡ self.old.waiting) }
        ensures unasked { has_refused false self.old.answered ≡ true → self.new.answered ≡ self.old.answered }
        ensures ends { OnErr result (has_refused false self.new.answered ≡ true) }
        ensures failures { self.new.failures ≡ self.old.failures }
    {
        self.check()?;
        if !self.waits {
            return Ok(());
        }
        match self.file.write_all_at(self.kept.blocks().as_flattened(), offset(self.kept.first())) {
            Ok(()) => {
                add_run(&mut self.answered, &self.kept, true);
                self.waits = false;
                Ok(())
            }
            Err(error) => {
                self.refuse();
                Err(error)
            }
        }
    }

    /// Gets a block from what is kept, or else from the file.
    fn get(&mut self, address: u32, to: &mut Block) -> io::Result<()>
        ensures read { GoesOn self.old self.new [] }
        ensures sound { OnOk result (has_refused false self.old.answered ≡ false) }
        ensures unasked { has_refused false self.old.answered ≡ true → self.new.answered ≡ self.old.answered }
        ensures failures { self.new.failures ≡ self.old.failures }
        ensures block { OnOk result (IsHonestFile S.first self.new → address < self.new.count → to.new ≡ block_at (image_now S.first self.new) address) }
    {
        self.check()?;
        self.read_ahead(address);
        if let Some(block) = self.find(address) {
            *to = *block;
            return Ok(());
        }
        self.let_go(address);
        self.fetch(address, to)
    }

    /// Reads a run of blocks from this one on, where nothing waits and the one before it was read last; none is kept where the
    /// file does not give them all.
    fn read_ahead(&mut self, address: u32)
        ensures read { GoesOn self.old self.new [] }
        ensures failures { self.new.failures ≡ self.old.failures }
    {
        if self.waits || !self.kept.ends_before(address) {
            return;
        }
        let left = self.count.saturating_sub(address) as usize;
        let count = left.min(RUN_BLOCKS);
        self.kept.read(&self.file, address, count);
        add_run(&mut self.answered, &self.kept, false);
    }

    /// Reads a block from the file, and keeps a copy of it. No block may wait for this address.
    fn fetch(&mut self, address: u32, to: &mut Block) -> io::Result<()>
        requires { IsUntouched self.old.waiting address }
        ensures read { OnOk result (self.new ≡ record self.old { answered = self.old.answered ++ (ReadBlock address, to.new) ∷ [] }) }
        ensures refused { OnErr result (self.new ≡ self.old) }
    {
        self.file.read_exact_at(to, offset(address))?;
        self.answered = self.answered.and(&Call::ReadBlock(address), to);
        self.earlier.keep(address, to);
        Ok(())
    }

    /// Keeps a block that is written, and gives the file those before it, if they are no run with it. Counts no fault.
    fn take(&mut self, address: u32, from: &Block) -> io::Result<()>
        requires { address < self.old.count }
        ensures taken { OnOk result (GoesOn self.old self.new (Wrote address from.now ∷ [])) }
        ensures refused { OnErr result (GoesOn self.old self.new []) }
        ensures sound { OnOk result (has_refused false self.old.answered ≡ false) }
        ensures unasked { has_refused false self.old.answered ≡ true → self.new.answered ≡ self.old.answered }
        ensures ends { OnErr result (has_refused false self.new.answered ≡ true) }
        ensures failures { self.new.failures ≡ self.old.failures }
    {
        self.check()?;
        if self.waits && self.kept.goes_on(address) {
            self.kept.push(from);
            self.earlier.replace(address, from);
            return Ok(());
        }
        self.give_waiting()?;
        self.earlier.replace(address, from);
        self.kept.start(address, from);
        self.waits = true;
        Ok(())
    }
}

impl<F: FileExt + OpenFile + Drop, S: Start> FileDevice<F, S> {
    /// Gives the file what waits, and then waits until what it was given has reached the medium.
    fn settle(&mut self) -> io::Result<()>
        ensures settled { OnOk result (GoesOn self.old self.new (Synced ∷ [])) }
        ensures refused { OnErr result (GoesOn self.old self.new []) }
        ensures sound { OnOk result (has_refused false self.old.answered ≡ false) }
        ensures unasked { has_refused false self.old.answered ≡ true → self.new.answered ≡ self.old.answered }
        ensures ends { OnErr result (has_refused false self.new.answered ≡ true) }
        ensures failures { self.new.failures ≡ self.old.failures }
    {
        self.give_waiting()?;
        self.sync_file()
    }
}

impl<F: OpenFile + Drop, S: Start> FileDevice<F, S> {
    /// Waits until what the file was given has reached the medium.
    fn sync_file(&mut self) -> io::Result<()>
        ensures synced { OnOk result (self.new ≡ record self.old { answered = self.old.answered ++ (Sync, no_block) ∷ [] }) }
        ensures refused { OnErr result (self.new ≡ record self.old { answered = self.old.answered ++ (Refuse, no_block) ∷ [] }) }
    {
        match self.file.sync_data() {
            Ok(()) => {
                self.answered = self.answered.and(&Call::Sync, &NO_BLOCK);
                Ok(())
            }
            Err(error) => {
                self.refuse();
                Err(error)
            }
        }
    }
}

/// Adds to what a file answered that it was given the blocks of a run, or gave them.
fn add_run(answered: &mut Log<Call, Block>, run: &Run, is_write: bool)
    ensures { answered.new.items ≡ answered.old.items ++ calls_of is_write (writes_of_run run.now) }
{
    for (at, block) in run.blocks().iter().enumerate() {
        *answered = answered.and(&call_at(is_write, run.first() + at as u32), block);
    }
}

/// The call that writes the block of this address, or reads it.
fn call_at(is_write: bool, address: u32) -> Call
    ensures { result ≡ call_at is_write address }
{
    if is_write {
        return Call::WriteBlock(address);
    }
    Call::ReadBlock(address)
}

impl<F: OpenFile + Drop, S: Start> FileDevice<F, S> {
    /// Opens a file for reading alone. It is refused where it cannot be opened or measured, where it is a directory, where its
    /// length is no whole number of blocks, or none, and for want of memory.
    pub fn open<R: Files<File = F> + AllocGlobal>(
        rt: &R,
        path: &str,
    ) -> Result<FileDevice<F, S>, OpenError>
        ensures new { IfOk result (λ device. (device.answered ≡ []) × (device.waiting ≡ []) × (device.failures ≡ 0) × (0 < device.count)) }
        ensures error { IfErr result MayNotOpen }
    {
        match fs::open(rt, path) {
            Ok(file) => {
                let count = blocks_in(&file)?;
                FileDevice::over(rt.alloc(), file, count)
            }
            Err(error) => Err(OpenError::of_call(error)),
        }
    }

    /// Another device over the same open file, with no call made yet. Nothing may have been written through this one, so both show
    /// the same. It is refused where the host gives no further handle of the file, and for want of memory.
    pub fn again(&self, alloc: Global) -> Result<FileDevice<F, S>, OpenError>
        requires { all_writes self.now ≡ [] }
        ensures new { IfOk result (λ device. (device.answered ≡ []) × (device.waiting ≡ []) × (device.failures ≡ 0)) }
        ensures image { IfOk result (λ device. image_now S.first device ≡ image_now S.first self.now) }
        ensures error { IfErr result IsOfCall }
    {
        match self.file.try_clone() {
            Ok(file) => FileDevice::over(alloc, file, self.count),
            Err(error) => Err(OpenError::of_call(error)),
        }
    }

    /// Makes a file of this many blocks, all zero, for reading and writing. A file that was there is replaced. It is refused where
    /// the host does not make it, and for want of memory.
    pub fn create<R: Files<File = F> + AllocGlobal>(
        rt: &R,
        path: &str,
        blocks: u32,
    ) -> Result<FileDevice<F, S>, OpenError>
        ensures new { IfOk result (λ device. device ≡ record { count = blocks; answered = []; waiting = []; failures = 0 }) }
        ensures error { IfErr result IsOfCall }
    {
        match created(rt, path, blocks) {
            Ok(file) => FileDevice::over(rt.alloc(), file, blocks),
            Err(error) => Err(OpenError::of_call(error)),
        }
    }
}

impl<F: OpenFile + Drop, S: Start> FileDevice<F, S> {
    /// Opens a file for reading and writing, and waits until all that others wrote to it has reached the medium. It is refused
    /// as by `open`, and where that fails.
    pub fn open_to_write<R: Files<File = F> + AllocGlobal>(
        rt: &R,
        path: &str,
    ) -> Result<FileDevice<F, S>, OpenError>
        ensures durable { IfOk result (λ device. (held_so_far S.first S.below device).now ≡ settled_on (image_now S.first device)) }
        ensures new { IfOk result (λ device. (device.answered ≡ (Sync, no_block) ∷ []) × (device.waiting ≡ []) × (device.failures ≡ 0) × (0 < device.count)) }
        ensures error { IfErr result MayNotOpen }
    {
        match OpenOptions::new().read(true).write(true).open(rt, path) {
            Ok(file) => {
                let count = blocks_in(&file)?;
                FileDevice::over(rt.alloc(), file, count)?.synced()
            }
            Err(error) => Err(OpenError::of_call(error)),
        }
    }

    /// The same device, once all that its file holds is on the medium.
    fn synced(mut self) -> Result<FileDevice<F, S>, OpenError>
        ensures synced { IfOk result (λ device. device ≡ record self { answered = self.answered ++ (Sync, no_block) ∷ [] }) }
        ensures error { IfErr result IsOfCall }
    {
        match self.sync_file() {
            Ok(()) => Ok(self),
            Err(error) => Err(OpenError::of_call(error)),
        }
    }
}

/// A file of this many blocks, all zero.
fn created<R: Files>(rt: &R, path: &str, blocks: u32) -> io::Result<R::File> {
    let file = OpenOptions::new()
        .read(true)
        .write(true)
        .create(true)
        .truncate(true)
        .open(rt, path)?;
    file.set_len(offset(blocks))?;
    Ok(file)
}

/// How many blocks an open file has.
fn blocks_in<F: OpenFile>(file: &F) -> Result<u32, OpenError>
    ensures some { IfOk result (λ count. 0 < count) }
    ensures error { IfErr result MayNotOpen }
{
    match length_of(file) {
        Ok(length) => count_of(length),
        Err(error) => Err(OpenError::of_call(error)),
    }
}

/// How many bytes an open file has. A directory has none, though it may be opened to be read.
fn length_of<F: OpenFile>(file: &F) -> io::Result<u64> {
    let metadata = file.metadata()?;
    if metadata.is_dir() {
        return Err(io::Error::from(io::ErrorKind::IsADirectory));
    }
    Ok(metadata.len())
}

/// How many blocks a file of this many bytes has.
fn count_of(bytes: u64) -> Result<u32, OpenError>
    ensures count { IfOk result (λ count. (1024 * count ≡ bytes) × (0 < count)) }
    ensures refused { IfErr result (λ error. (error.cause ≡ BadLength) × (IsWholeBlocks bytes → ⊥)) }
{
    let count = bytes / BLOCK_BYTES as u64;
    if count == 0 || bytes % BLOCK_BYTES as u64 != 0 || count > u64::from(u32::MAX) {
        return Err(OpenError::of_length());
    }
    Ok(count as u32)
}

/// The byte where the block of this address begins, and so the length of the blocks before it.
pub(crate) fn offset(address: u32) -> u64
    ensures { result ≡ 1024 * address }
{
    u64::from(address) * BLOCK_BYTES as u64
}

impl<F: FileExt + OpenFile + Drop, S: Start> Device for FileDevice<F, S> {
    ghost KEEPS_ORDER = { false };

    ghost honest = { λ device. IsHonestFile S.first device };

    ghost image = { λ device. image_now S.first device };

    ghost held = { λ device. held_so_far S.first S.below device };

    ghost failures = { λ device. device.failures };

    const KEEPS_ORDER: bool = false;

    fn blocks(&self) -> u32 {
        self.count
    }

    fn read(&mut self, address: u32, to: &mut Block) -> Result<(), DeviceFault> {
        match self.get(address, to) {
            Ok(()) => Ok(()),
            Err(_) => Err(self.fault()),
        }
    }

    fn write(&mut self, address: u32, from: &Block) -> Result<(), DeviceFault> {
        match self.take(address, from) {
            Ok(()) => Ok(()),
            Err(_) => Err(self.fault()),
        }
    }

    fn sync(&mut self) -> Result<(), DeviceFault> {
        match self.settle() {
            Ok(()) => Ok(()),
            Err(_) => Err(self.fault()),
        }
    }

    ghost answers = { file_answers S.first S.below };

    ghost in_order = { λ keeps. absurd (false≢true keeps) };
}

#[cfg(test)]
mod tests;
