//! The queue over a device in memory that fails on purpose, against cases that were worked out by hand.
ghost use Rattle.std.specs.Prelude.{◌≡◌, true, All, map};
ghost use Rattle.model.specs.Layout.{is_number};
ghost use Rattle.updates.specs.Places.{FitsVolume, IsCell, IsUpdate};
ghost use Rattle.updates.specs.Values.{cell, change as value_of};

use crate::expect::{holds, same};
use device::{Device, Fuse, MemDevice};
use inode::{ATTRIBUTES, DIRECT_POINTERS, FILE, FREE, Record};
use layout::{BLOCK_BYTES, Block, DOUBLE, Geometry, ROOT, Refusal, SINGLE};
use softdep::{Cell, Cells, Change, Queue, Update};
use spares::Spares;
use std::alloc::Global;
use std::process::Abort;
use std::sync::Arc;
use std::test::Fail;

mod cases;
mod cuts;
mod records;
mod steady;

use cases::{
    Case, Left, Put, Step, Told, Written, chains, commands, cycles, places, waits, writes,
};

/// How many blocks the volume has.
const BLOCKS: u8 = 33;

/// How many updates a long list has.
const MANY: u16 = 300;

// What the queue asks for is tested here when it runs, and not proved of the cases.

/// Whether this is a cell of the volume.
fn is_cell(candidate: Cell, geometry: &Geometry) -> bool
    ensures { result ≡ true → IsCell geometry.now (cell candidate) }
{
    match candidate {
        Cell::Record(number) => is_inode(number, geometry),
        Cell::NumberBit(number) => is_inode(number, geometry),
        Cell::BlockBit(address) => geometry.place_of(address).is_some(),
        Cell::Block(address) => geometry.place_of(address).is_some(),
    }
}

/// Whether this is the number of an inode that is looked at.
fn is_inode(number: u32, geometry: &Geometry) -> bool
    ensures { result ≡ is_number geometry.now number }
{
    ROOT <= number && number < geometry.inodes()
}

/// Whether all these are cells of the volume.
fn are_cells(cells: &[Cell], geometry: &Geometry) -> bool
    ensures { result ≡ true → All (IsCell geometry.now) (map cell cells.now) }
{
    for candidate in cells {
        if !is_cell(*candidate, geometry) {
            return false;
        }
    }
    true
}

/// Whether an update changes a cell of the volume, after cells of the volume.
fn is_update(update: &Update, geometry: &Geometry) -> bool
    ensures { result ≡ true → IsUpdate geometry.now update.now }
{
    is_cell(update.change.cell(), geometry)
        && fits(&update.change, geometry)
        && are_cells(update.after.as_slice(), geometry)
}

/// Whether what a change writes fits the volume: no record of version 1 has a double indirect pointer.
fn fits(change: &Change, geometry: &Geometry) -> bool
    ensures { result ≡ true → FitsVolume geometry.now (value_of change.now) }
{
    match change {
        Change::SetInode(_, record) => geometry.version() == DOUBLE || record.double == 0,
        _ => true,
    }
}

/// Whether all these are updates of the volume.
fn are_updates(updates: &[Update], geometry: &Geometry) -> bool
    ensures { result ≡ true → All (IsUpdate geometry.now) updates.now }
{
    for update in updates {
        if !is_update(update, geometry) {
            return false;
        }
    }
    true
}

/// The bytes of a data block that are pending; `None` where none are, or the address is no data block's.
fn contents(queue: &Queue, address: u32) -> Option<Block> {
    queue.geometry().place_of(address)?;
    queue.contents(address).copied()
}

// Values.

/// A file's record with so many links; a free one where there are none.
fn record_of(links: u16) -> Record {
    Record {
        mode: if links == 0 { FREE } else { FILE },
        links,
        size: 0,
        direct: [0; DIRECT_POINTERS],
        indirect: 0,
        double: 0,
        attributes: [0; ATTRIBUTES],
    }
}

/// A block of which each byte is this one.
fn block_of(byte: u8) -> Block {
    [byte; BLOCK_BYTES]
}

/// The change that puts a value.
fn change_of(alloc: Global, put: Put) -> Result<Change, Refusal> {
    Ok(match put {
        Put::Record(number, links) => Change::of_record(alloc, number, record_of(links))?,
        Put::Number(number, marked) => Change::SetNumber(number, marked),
        Put::Bit(address, marked) => Change::SetBlock(address, marked),
        Put::Bytes(address, byte) => { Change::SetBytes(address, Arc::new(alloc, block_of(byte))?) }
    })
}

/// The updates of a list.
fn updates_of(alloc: Global, list: &[Told]) -> Result<Vec<Update>, Refusal> {
    let mut updates = Vec::new(alloc);
    for Told(put, after) in list {
        updates.push(Update {
            change: change_of(alloc, *put)?,
            file: None,
            after: Cells::from_slice(alloc, after)?,
        })?;
    }
    Ok(updates)
}

/// Puts values into a block, the first first.
fn put_all(
    alloc: Global,
    geometry: &Geometry,
    puts: &[Put],
    block: &mut Block,
) -> Result<(), Refusal> {
    for put in puts {
        let change = change_of(alloc, *put)?;
        if !is_cell(change.cell(), geometry) || !fits(&change, geometry) {
            return Err(Refusal::BadIndex);
        }
        change.put(geometry, block);
    }
    Ok(())
}

/// The block of this address; `None` where there is none, or the device failed.
fn read_block<D: Device>(device: &mut D, address: u32) -> Option<Block> {
    if address >= device.blocks() {
        return None;
    }
    let mut block = [0; BLOCK_BYTES];
    match device.read(address, &mut block) {
        Ok(()) => Some(block),
        Err(_) => None,
    }
}

/// The least address whose block is not as expected.
fn first_difference(mut image: MemDevice, expected: &[Block]) -> Option<u32> {
    for address in 0..u32::from(BLOCKS) {
        if read_block(&mut image, address) != expected.get(address as usize).copied() {
            return Some(address);
        }
    }
    None
}

// A queue, its device, and what is expected of them.

/// When a device fails.
#[derive(Clone, Copy, Debug, PartialEq, Eq)]
struct Faults {
    /// How many calls it lets through.
    after: u64,
    /// Whether one call alone fails.
    once: bool,
}

/// No call fails.
const NONE: Faults = Faults {
    after: u64::MAX,
    once: false,
};

/// What is seen of a queue and its device.
#[derive(Clone, Copy, Debug, PartialEq, Eq)]
struct Seen {
    /// How many writes were made.
    writes: usize,
    /// The least address whose block is not as expected.
    wrong: Option<u32>,
    /// How many updates are pending.
    pending: usize,
    /// The least ready block.
    least: Option<u32>,
}

/// The blocks of the volume, where each byte of a block is the block's address.
fn addresses(alloc: Global) -> Result<Vec<Block>, Refusal> {
    let mut blocks = Vec::new(alloc);
    for address in 0..BLOCKS {
        blocks.push(block_of(address))?;
    }
    Ok(blocks)
}

/// A device in memory of these blocks.
fn device_of(alloc: Global, blocks: &[Block]) -> Result<MemDevice, Refusal> {
    let mut bytes = Vec::new(alloc);
    for block in blocks {
        bytes.extend_from_slice(block)?;
    }
    MemDevice::from_bytes(alloc, bytes.as_slice())
}

/// A queue and its device, and what is expected of them.
#[derive(Drop)]
struct Bed {
    queue: Queue,
    device: Fuse<MemDevice>,
    spares: Spares,
    /// The blocks that the device is to hold.
    expected: Vec<Block>,
    /// How many writes it is to have made.
    writes: usize,
    /// How many updates are to be pending.
    pending: usize,
}

impl Bed {
    /// A queue with nothing issued, over a device where each byte of a block is the block's address. The volume is of version 1
    /// of the layout.
    fn new(alloc: Global, faults: Faults) -> Result<Bed, Refusal> {
        Bed::of(alloc, SINGLE, faults)
    }

    /// The same for a volume of this version of the layout.
    fn of(alloc: Global, version: u32, faults: Faults) -> Result<Bed, Refusal> {
        let geometry = Geometry::new(2, 16, 16)?.with_version(version)?;
        let expected = addresses(alloc)?;
        let device = device_of(alloc, expected.as_slice())?;
        Ok(Bed {
            queue: Queue::new(alloc, geometry)?,
            device: Fuse::new(device, faults.after, faults.once),
            spares: Spares::new(alloc)?,
            expected,
            writes: 0,
            pending: 0,
        })
    }

    /// Issues updates; `BadIndex` where one is not of the volume.
    fn issue(&mut self, updates: Vec<Update>) -> Result<(), Refusal> {
        let count = updates.len();
        if !are_updates(updates.as_slice(), &self.queue.geometry()) {
            return Err(Refusal::BadIndex);
        }
        self.queue.issue(updates)?;
        self.pending = self.pending.saturating_add(count);
        Ok(())
    }

    /// Flushes a block; `BadIndex` where there is none.
    fn flush(&mut self, address: u32) -> Result<usize, Refusal> {
        let blocks = self.queue.geometry().blocks();
        if address >= blocks || self.device.blocks() != blocks {
            return Err(Refusal::BadIndex);
        }
        self.queue
            .flush(&mut self.device, address, &mut self.spares)
    }

    /// Flushes all blocks; `BadIndex` where the device is not of the volume.
    fn sync(&mut self) -> Result<(), Refusal> {
        if self.device.blocks() != self.queue.geometry().blocks() {
            return Err(Refusal::BadIndex);
        }
        self.queue.sync(&mut self.device, &mut self.spares)
    }

    /// What is seen of the queue, and of the device after so many writes.
    fn seen(&self, alloc: Global, writes: usize) -> Result<Seen, Refusal> {
        let device = self.device.device();
        let image = device.image_after(alloc, writes)?;
        Ok(Seen {
            writes: device.writes(),
            wrong: first_difference(image, self.expected.as_slice()),
            pending: self.queue.pending(),
            least: self.queue.least_ready(),
        })
    }

    /// What is to be seen where this is the least ready block.
    fn told(&self, least: Option<u32>) -> Seen {
        Seen {
            writes: self.writes,
            wrong: None,
            pending: self.pending,
            least,
        }
    }

    /// Expects a write of these values with so many updates.
    fn expect(
        &mut self,
        alloc: Global,
        address: u32,
        count: usize,
        puts: &[Put],
    ) -> Result<(), Refusal> {
        let geometry = self.queue.geometry();
        let Some(block) = self.expected.get_mut(address as usize) else {
            return Err(Refusal::BadIndex);
        };
        put_all(alloc, &geometry, puts, block)?;
        self.writes = self.writes.saturating_add(1);
        self.pending = self.pending.saturating_sub(count);
        Ok(())
    }
}

// Cases, with and without faults.

/// Where a run of a case is.
#[derive(Clone, Copy, Debug)]
struct Moment {
    case: &'static str,
    faults: Faults,
    /// The number of the step, from 0 on; the sync has the one after the last.
    step: usize,
}

/// A run of a case with these faults is at this step.
fn at_step(case: &Case, faults: Faults, step: usize) -> Moment {
    Moment {
        case: case.name,
        faults,
        step,
    }
}

/// Goes through a case. Answers whether the device failed; where it fails for good, the run ends there.
fn run<R: AllocGlobal + Abort>(rt: &R, case: &Case, faults: Faults) -> Result<bool, Fail> {
    let mut bed = Bed::new(rt.alloc(), faults)?;
    run_on(rt, &mut bed, case, faults)
}

/// Goes through a case on this queue.
fn run_on<R: AllocGlobal + Abort>(
    rt: &R,
    bed: &mut Bed,
    case: &Case,
    faults: Faults,
) -> Result<bool, Fail> {
    let mut failed = false;
    for (number, step) in case.steps.iter().enumerate() {
        let fails = take_step(rt, bed, step, at_step(case, faults, number))?;
        if fails && !faults.once {
            return Ok(true);
        }
        failed = failed || fails;
    }
    let at = at_step(case, faults, case.steps.len());
    let fails = sync(rt, bed, case.synced, at)?;
    Ok(failed || fails)
}

/// Expects this of the queue and its device.
fn expect_seen<R: AllocGlobal + Abort>(
    rt: &R,
    bed: &Bed,
    wanted: Seen,
    at: Moment,
) -> Result<(), Fail> {
    let seen = bed.seen(rt.alloc(), bed.writes)?;
    same(rt, at, seen, wanted);
    Ok(())
}

/// Expects the device to hold what it is to hold.
fn expect_blocks<R: AllocGlobal + Abort>(rt: &R, bed: &Bed, at: Moment) -> Result<(), Fail> {
    let seen = bed.seen(rt.alloc(), bed.writes)?;
    same(rt, at, seen.wrong, None);
    Ok(())
}

/// Takes a step. Answers whether the device failed.
fn take_step<R: AllocGlobal + Abort>(
    rt: &R,
    bed: &mut Bed,
    step: &Step,
    at: Moment,
) -> Result<bool, Fail> {
    match step {
        Step::Issue(list) => {
            bed.issue(updates_of(rt.alloc(), list)?)?;
            same(rt, at, bed.queue.pending(), bed.pending);
            Ok(false)
        }
        Step::Flush(write, left) => flush(rt, bed, write, left, at),
    }
}

/// Flushes a block, which does what is told. Where the device fails nothing changes, and the next flush does what is told,
/// or fails too where the device fails for good. Answers whether the device failed.
fn flush<R: AllocGlobal + Abort>(
    rt: &R,
    bed: &mut Bed,
    write: &Written,
    left: &Left,
    at: Moment,
) -> Result<bool, Fail> {
    let (address, count, puts) = *write;
    let Left(pending, least) = *left;
    let before = bed.told(bed.queue.least_ready());
    let mut answer = bed.flush(address);
    let fails = answer == Err(Refusal::Device);
    if fails {
        expect_seen(rt, bed, before, at)?;
        answer = bed.flush(address);
    }
    if fails && !at.faults.once {
        same(rt, at, answer, Err(Refusal::Device));
        stays_refused(rt, bed, at)?;
        return Ok(true);
    }
    same(rt, at, answer, Ok(count));
    if count > 0 {
        bed.expect(rt.alloc(), address, count, puts)?;
    }
    bed.pending = pending;
    expect_seen(rt, bed, bed.told(least), at)?;
    Ok(fails)
}

/// Syncs, by these writes. Where the device fails, what is on it is there after some of them, and the next sync makes the
/// others, or fails too where the device fails for good. Answers whether the device failed.
fn sync<R: AllocGlobal + Abort>(
    rt: &R,
    bed: &mut Bed,
    told: &[Written],
    at: Moment,
) -> Result<bool, Fail> {
    let answer = bed.sync();
    if answer == Ok(()) {
        follow(rt, bed, told, None, at)?;
        return Ok(false);
    }
    same(rt, at, answer, Err(Refusal::Device));
    let count = bed.device.device().writes().saturating_sub(bed.writes);
    let made = told.get(..count).ok_or("more writes than told")?;
    let left = told.get(count..).ok_or("more writes than told")?;
    let least = left.first().map(|written| written.0);
    follow(rt, bed, made, least, at)?;
    if at.faults.once {
        same(rt, at, bed.sync(), Ok(()));
        follow(rt, bed, left, None, at)?;
    } else {
        stays_refused(rt, bed, at)?;
    }
    Ok(true)
}

/// Compares each image that the device held since with the one after so many of these writes, and then what is seen.
fn follow<R: AllocGlobal + Abort>(
    rt: &R,
    bed: &mut Bed,
    made: &[Written],
    least: Option<u32>,
    at: Moment,
) -> Result<(), Fail> {
    let writes = bed.writes.saturating_add(made.len());
    same(rt, at, bed.device.device().writes(), writes);
    for (address, count, puts) in made {
        bed.expect(rt.alloc(), *address, *count, puts)?;
        expect_blocks(rt, bed, at)?;
    }
    expect_seen(rt, bed, bed.told(least), at)
}

/// On a device that has failed for good a flush of a block with an update that may go fails, and one of another block
/// takes none; a sync fails; and nothing changes.
fn stays_refused<R: AllocGlobal + Abort>(rt: &R, bed: &mut Bed, at: Moment) -> Result<(), Fail> {
    let before = bed.told(bed.queue.least_ready());
    for address in 0..u32::from(BLOCKS) {
        let answer = bed.flush(address);
        holds(rt, at, is_refused(answer, address, before.least));
    }
    same(rt, at, bed.sync(), Err(Refusal::Device));
    expect_seen(rt, bed, before, at)
}

/// Whether a flush of a block is answered so on a device that has failed for good, where this is the least ready block.
fn is_refused(answer: Result<usize, Refusal>, address: u32, least: Option<u32>) -> bool {
    match answer {
        Ok(count) => count == 0 && least != Some(address),
        Err(Refusal::Device) => least.is_some_and(|least| least <= address),
        Err(_) => false,
    }
}

/// How many calls of the device a write makes: its own, and a read before it, but for a data block.
fn calls_of_write(write: &Written) -> u64 {
    let (_, _, puts) = *write;
    match puts.first() {
        Some(Put::Bytes(_, _)) => 1,
        _ => 2,
    }
}

/// How many calls of the device a case makes: those of each flush that takes updates and of each write of the sync, and
/// one for the medium.
fn calls_of(case: &Case) -> u64 {
    let mut calls: u64 = 1;
    for write in case.synced {
        calls = calls.saturating_add(calls_of_write(write));
    }
    for step in case.steps {
        if let Step::Flush(write, _) = step
            && write.1 > 0
        {
            calls = calls.saturating_add(calls_of_write(write));
        }
    }
    calls
}

/// Goes through a case once for each call that the device may fail at, and once without a fault.
fn run_with_each_fault<R: AllocGlobal + Abort>(
    rt: &R,
    case: &Case,
    once: bool,
) -> Result<(), Fail> {
    let calls = calls_of(case);
    for after in 0..calls {
        let failed = run(rt, case, Faults { after, once })?;
        same(rt, (case.name, after), failed, true);
    }
    let failed = run(rt, case, Faults { after: calls, once })?;
    same(rt, (case.name, calls), failed, false);
    Ok(())
}

/// Goes through these cases without a fault.
fn run_all<R: AllocGlobal + Abort>(rt: &R, cases: &[Case]) -> Result<(), Fail> {
    for case in cases {
        let failed = run(rt, case, NONE)?;
        same(rt, case.name, failed, false);
    }
    Ok(())
}

/// Goes through these cases with each fault.
fn run_all_with_faults<R: AllocGlobal + Abort>(
    rt: &R,
    cases: &[Case],
    once: bool,
) -> Result<(), Fail> {
    for case in cases {
        run_with_each_fault(rt, case, once)?;
    }
    Ok(())
}

/// All cases, by what they show. One constant with all of them takes the prover too many steps.
fn tables() -> [&'static [Case]; 6] {
    [commands(), chains(), cycles(), writes(), waits(), places()]
}

#[test]
fn queues_do_what_was_worked_out(rt: HostRuntime) -> Result<(), Fail> {
    for cases in tables() {
        run_all(&rt, cases)?;
    }
    Ok(())
}

#[test]
fn a_fault_changes_nothing(rt: HostRuntime) -> Result<(), Fail> {
    for cases in tables() {
        run_all_with_faults(&rt, cases, true)?;
    }
    Ok(())
}

#[test]
fn a_device_that_failed_for_good_is_written_no_more(rt: HostRuntime) -> Result<(), Fail> {
    for cases in tables() {
        run_all_with_faults(&rt, cases, false)?;
    }
    Ok(())
}

/// Updates of block 6, of the record that the second of them comes after, and of the bits of both blocks.
const OF_TWO_BLOCKS: &[Told] = &[
    Told(Put::Bytes(6, 1), &[]),
    Told(Put::Record(9, 1), &[]),
    Told(Put::Bytes(6, 2), &[Cell::Record(9)]),
    Told(Put::Bit(6, true), &[]),
    Told(Put::Bit(7, true), &[]),
];

/// Blocks that are flushed, how many updates each takes, and the byte of block 6 that is pending then. A block of which
/// nothing may go is flushed first.
const FLUSHES: &[(u32, usize, Option<u8>)] = &[
    (2, 0, Some(2)),
    (6, 1, Some(2)),
    (3, 1, Some(2)),
    (6, 1, None),
];

/// Whether these bytes are pending, each of them the same one.
fn is_pending(queue: &Queue, address: u32, byte: Option<u8>) -> bool {
    match (contents(queue, address), byte) {
        (Some(block), Some(byte)) => block == block_of(byte),
        (None, None) => true,
        _ => false,
    }
}

/// Expects these bytes of a block to be pending, each of them the same one.
fn expect_contents(rt: &impl Abort, place: u32, bed: &Bed, address: u32, byte: Option<u8>) {
    holds(rt, (place, address), is_pending(&bed.queue, address, byte));
}

/// Expects the contents of blocks 6 and 7 after each flush.
fn expect_flushes(rt: &impl Abort, bed: &mut Bed) {
    for (address, count, byte) in FLUSHES {
        same(rt, *address, bed.flush(*address), Ok(*count));
        expect_contents(rt, *address, bed, 6, *byte);
        expect_contents(rt, *address, bed, 7, None);
    }
}

/// Issues updates and flushes blocks, and expects the contents of blocks 6 and 7 to follow.
fn follow_contents<R: AllocGlobal + Abort>(rt: &R, bed: &mut Bed) -> Result<(), Refusal> {
    expect_contents(rt, 0, bed, 6, None);
    bed.issue(updates_of(rt.alloc(), OF_TWO_BLOCKS)?)?;
    expect_flushes(rt, bed);
    bed.issue(updates_of(rt.alloc(), &[Told(Put::Bytes(7, 3), &[])])?)?;
    expect_contents(rt, 1, bed, 7, Some(3));
    expect_contents(rt, 1, bed, 6, None);
    Ok(())
}

#[test]
fn contents_are_those_of_the_last_pending_update(rt: HostRuntime) -> Result<(), Fail> {
    let mut bed = Bed::new(rt.alloc(), NONE)?;
    follow_contents(&rt, &mut bed)?;
    Ok(())
}

/// Many updates of one record.
fn of_one_record(alloc: Global) -> Result<Vec<Update>, Refusal> {
    let mut list = Vec::new(alloc);
    for links in 1..=MANY {
        list.push(Told(Put::Record(5, links), &[]))?;
    }
    updates_of(alloc, list.as_slice())
}

/// Expects many updates of one record to go in one write.
fn expect_one_write<R: AllocGlobal + Abort>(rt: &R, bed: &mut Bed) -> Result<(), Refusal> {
    bed.issue(of_one_record(rt.alloc())?)?;
    let count = usize::from(MANY);
    same(rt, "flush", bed.flush(2), Ok(count));
    bed.expect(rt.alloc(), 2, count, &[Put::Record(5, MANY)])?;
    same(rt, "seen", bed.seen(rt.alloc(), 1)?, bed.told(None));
    Ok(())
}

#[test]
fn many_updates_of_one_cell_go_at_once(rt: HostRuntime) -> Result<(), Fail> {
    let mut bed = Bed::new(rt.alloc(), NONE)?;
    expect_one_write(&rt, &mut bed)?;
    Ok(())
}

/// Adds an update of each of two records, each after the other record.
fn push_both(list: &mut Vec<Told>, links: u16) -> Result<(), Refusal> {
    list.push(Told(Put::Record(5, links), AFTER_8))?;
    list.push(Told(Put::Record(8, links), AFTER_5))?;
    Ok(())
}

/// What comes after record 5, and what after record 8.
const AFTER_5: &[Cell] = &[Cell::Record(5)];

const AFTER_8: &[Cell] = &[Cell::Record(8)];

/// Updates of two records in turn, each after the other record.
fn to_and_fro(alloc: Global) -> Result<Vec<Told>, Refusal> {
    let mut list = Vec::new(alloc);
    for links in 1..=MANY {
        push_both(&mut list, links)?;
    }
    Ok(list)
}

/// Expects a write for each of these updates of two records, one after the other.
fn expect_each<R: AllocGlobal + Abort>(
    rt: &R,
    bed: &mut Bed,
    list: &[Told],
) -> Result<(), Refusal> {
    for told in list {
        let address = if matches!(told.0, Put::Record(5, _)) {
            2
        } else {
            3
        };
        bed.expect(rt.alloc(), address, 1, &[told.0])?;
        let seen = bed.seen(rt.alloc(), bed.writes)?;
        same(rt, bed.writes, seen.wrong, None);
    }
    Ok(())
}

/// Expects a sync to write both records in turn.
fn expect_turns<R: AllocGlobal + Abort>(rt: &R, bed: &mut Bed) -> Result<(), Refusal> {
    let list = to_and_fro(rt.alloc())?;
    bed.issue(updates_of(rt.alloc(), list.as_slice())?)?;
    same(rt, "sync", bed.sync(), Ok(()));
    expect_each(rt, bed, list.as_slice())?;
    let seen = bed.seen(rt.alloc(), bed.writes)?;
    same(rt, "seen", seen, bed.told(None));
    Ok(())
}

#[test]
fn a_long_chain_goes_to_and_fro(rt: HostRuntime) -> Result<(), Fail> {
    let mut bed = Bed::new(rt.alloc(), NONE)?;
    expect_turns(&rt, &mut bed)?;
    Ok(())
}
