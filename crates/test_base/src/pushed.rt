use crate::expect::{holds, same};
use std::alloc::Global;
use std::fs::{Metadata, OpenFile};
use std::io;
use std::os::unix::fs::FileExt;
use std::sync::Wait;
use std::sync::atomic::{AtomicU8, AtomicU64, Ordering};
use std::test::*;
use std::thread::{self, Threads};
use write_behind::{Pushed, Pusher, Rooms, push_beside};

/// How many blocks the file of a test has, and how many bytes each.
const BLOCKS: u32 = 61;

const BLOCK: usize = 64;

/// How many writes a test makes, more than the rooms of a pusher hold at once.
const WRITES: u32 = 1500;

/// A file in memory that counts its writes and its syncs, and those of the writes that a sync brought to the medium, and refuses writes
/// and syncs behind so many.
#[derive(Drop)]
struct Memory {
    bytes: Vec<AtomicU8>,
    writes: AtomicU64,
    syncs: AtomicU64,
    durable: AtomicU64,
    most: u64,
}

impl Memory {
    fn new(alloc: Global, most: u64) -> Result<Memory, Fail> {
        let mut bytes = Vec::new(alloc);
        for _byte in 0..BLOCKS as usize * BLOCK {
            bytes.push(AtomicU8::new(0))?;
        }
        Ok(Memory {
            bytes,
            writes: AtomicU64::new(0),
            syncs: AtomicU64::new(0),
            durable: AtomicU64::new(0),
            most,
        })
    }

    /// Counts a call, which is refused if it is one too many.
    fn count(&self, calls: &AtomicU64) -> io::Result<()> {
        if calls.fetch_add(1, Ordering::SeqCst) >= self.most {
            return Err(io::Error::from(io::ErrorKind::StorageFull));
        }
        Ok(())
    }
}

impl FileExt for &Memory {
    fn read_at(&self, bytes: &mut [u8], offset: u64) -> io::Result<usize> {
        let kept = self.bytes.iter().skip(offset as usize);
        for (byte, kept) in bytes.iter_mut().zip(kept) {
            *byte = kept.load(Ordering::SeqCst);
        }
        Ok(bytes.len())
    }

    fn write_at(&self, bytes: &[u8], offset: u64) -> io::Result<usize> {
        self.count(&self.writes)?;
        let kept = self.bytes.iter().skip(offset as usize);
        for (byte, kept) in bytes.iter().zip(kept) {
            kept.store(*byte, Ordering::SeqCst);
        }
        Ok(bytes.len())
    }
}

impl OpenFile for &Memory {
    fn metadata(&self) -> io::Result<Metadata> {
        Err(io::Error::from(io::ErrorKind::Unsupported))
    }

    fn set_len(&self, _size: u64) -> io::Result<()> {
        Ok(())
    }

    fn sync_all(&self) -> io::Result<()> {
        self.sync_data()
    }

    fn sync_data(&self) -> io::Result<()> {
        let written = self.writes.load(Ordering::SeqCst);
        self.count(&self.syncs)?;
        self.durable.store(written, Ordering::SeqCst);
        Ok(())
    }
}

/// What each byte of a write is.
fn byte_of(write: u32) -> u8 {
    (write % 251) as u8
}

/// Where the block of a write begins.
fn offset_of(write: u32) -> u64 {
    u64::from(write % BLOCKS) * BLOCK as u64
}

/// Writes the blocks over and over, reads some back at once, and asks and waits for the medium now and then. Tells whether each that was
/// read is the one that was written last, and all writes were on the medium behind each wait.
fn write_and_read<R: Wait>(
    memory: &Memory,
    file: &Pushed<'_, R, &Memory>,
    pusher: &Pusher,
) -> io::Result<bool> {
    let mut same = true;
    for write in 0..WRITES {
        file.write_all_at(&[byte_of(write); BLOCK], offset_of(write))?;
        if write % 7 == 0 {
            let mut read = [0; BLOCK];
            file.read_exact_at(&mut read, offset_of(write))?;
            same = same && read == [byte_of(write); BLOCK];
        }
        if write % 100 == 0 {
            pusher.ask();
        }
        if write % 300 == 299 {
            file.sync_data()?;
            same = same && memory.durable.load(Ordering::SeqCst) > u64::from(write);
        }
    }
    Ok(same)
}

/// What comes of that with a second thread, or without one.
fn carried_out<R: Threads + Wait + Sync>(
    rt: &R,
    memory: &Memory,
    pusher: &Pusher,
    beside: bool,
) -> io::Result<bool> {
    let twin = if beside { Some(memory) } else { None };
    push_beside(rt, pusher, twin, move || {
        write_and_read(memory, &Pushed::new(rt, memory, pusher), pusher)
    })
}

/// Whether each block of the file is the one that was written last.
fn holds_the_last(memory: &Memory) -> bool {
    let mut same = true;
    for write in WRITES - BLOCKS..WRITES {
        let block = memory.bytes.iter().skip(offset_of(write) as usize);
        for byte in block.take(BLOCK) {
            same = same && byte.load(Ordering::SeqCst) == byte_of(write);
        }
    }
    same
}

#[test]
fn what_is_left_to_a_second_thread_is_written_in_order(rt: HostRuntime) -> Result<(), Fail> {
    let memory = &Memory::new(rt.alloc(), u64::MAX)?;
    let pusher = &Pusher::new(rt.alloc());
    holds(
        &rt,
        "carried out",
        matches!(carried_out(&rt, memory, pusher, true), Ok(true)),
    );
    holds(&rt, "the last", holds_the_last(memory) && pusher.has_all());
    same(
        &rt,
        "writes",
        memory.writes.load(Ordering::SeqCst),
        u64::from(WRITES),
    );
    Ok(())
}

#[test]
fn one_thread_does_all_itself(rt: HostRuntime) -> Result<(), Fail> {
    let memory = &Memory::new(rt.alloc(), u64::MAX)?;
    let pusher = &Pusher::new(rt.alloc());
    holds(
        &rt,
        "carried out",
        matches!(carried_out(&rt, memory, pusher, false), Ok(true)),
    );
    holds(&rt, "the last", holds_the_last(memory) && !pusher.has_all());
    same(
        &rt,
        "syncs",
        memory.syncs.load(Ordering::SeqCst),
        u64::from(WRITES / 300),
    );
    Ok(())
}

/// Waits until the second thread is there.
fn wait_for_second(pusher: &Pusher) {
    for _turn in 0..u64::MAX {
        if pusher.works() {
            return;
        }
        thread::yield_now();
    }
}

/// Whether a file of so many calls at most refuses one of the writes that are left to a second thread, and whatever comes later.
fn is_told<R: Threads + Wait + Sync>(rt: &R, memory: &Memory, pusher: &Pusher) -> bool {
    push_beside(rt, pusher, Some(memory), move || {
        wait_for_second(pusher);
        let file = Pushed::new(rt, memory, pusher);
        write_and_read(memory, &file, pusher).is_err()
            && file.write_at(&[1], 0).is_err()
            && file.sync_data().is_err()
    })
}

#[test]
fn what_is_refused_to_the_second_thread_is_told(rt: HostRuntime) -> Result<(), Fail> {
    for most in [0, 1, 20, 100] {
        let memory = &Memory::new(rt.alloc(), most)?;
        holds(&rt, most, is_told(&rt, memory, &Pusher::new(rt.alloc())));
    }
    Ok(())
}

#[test]
fn rooms_are_carried_out_in_order(rt: HostRuntime) -> Result<(), Fail> {
    let memory = &Memory::new(rt.alloc(), u64::MAX)?;
    let mut rooms = Rooms::new(rt.alloc())?;
    for write in 0..300 {
        holds(&rt, write, rooms.take(&[byte_of(write)], 0)?);
    }
    for _room in 0..8 {
        if let Some(room) = rooms.begin()? {
            holds(&rt, "a room", room.write_to(&memory).is_ok());
            rooms.end(room)?;
        }
    }
    same(&rt, "writes", memory.writes.load(Ordering::SeqCst), 300);
    let first = memory.bytes.first().map(|byte| byte.load(Ordering::SeqCst));
    same(&rt, "the first byte", first, Some(byte_of(299)));
    Ok(())
}
