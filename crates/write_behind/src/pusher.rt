use crate::rooms::{ROOM_BYTES, Rooms, Span};
use std::alloc::Global;
use std::fs::OpenFile;
use std::io;
use std::os::unix::fs::FileExt;
use std::sync::atomic::{AtomicBool, AtomicU64, Ordering};
use std::sync::{Mutex, Wait};
use std::thread::Parker;

/// What a file is given by one thread, and brought to the medium by another; how many bytes it was given, and how many of these are
/// written and how many are on the medium.
#[derive(Drop)]
pub struct Pusher {
    /// The writes that wait; none where there was no memory for them.
    rooms: Option<Mutex<Rooms>>,
    given: AtomicU64,
    written: AtomicU64,
    pushed: AtomicU64,
    /// How many bytes are to be on the medium at once, and how many are to be written.
    asked: AtomicU64,
    wanted: AtomicU64,
    /// Whether the second thread is there, whether the file refused a write or a sync of its, and whether no more come.
    works: AtomicBool,
    refused: AtomicBool,
    ended: AtomicBool,
    /// Whether the first thread waits until what it gave is written, and until it is on the medium.
    waits_for_writes: AtomicBool,
    waits_for_medium: AtomicBool,
    second: Parker,
    first: Parker,
}

impl Pusher {
    /// Nothing is known to be on the medium. What the file holds already counts as a byte. Where there is no memory for what is to
    /// wait, nothing waits.
    pub fn new(alloc: Global) -> Pusher {
        Pusher {
            rooms: Rooms::new(alloc).ok().map(Mutex::new),
            given: AtomicU64::new(1),
            written: AtomicU64::new(1),
            pushed: AtomicU64::new(0),
            asked: AtomicU64::new(0),
            wanted: AtomicU64::new(0),
            works: AtomicBool::new(false),
            refused: AtomicBool::new(false),
            ended: AtomicBool::new(false),
            waits_for_writes: AtomicBool::new(false),
            waits_for_medium: AtomicBool::new(false),
            second: Parker::new(),
            first: Parker::new(),
        }
    }

    /// Whether a sync that began once all was given has been answered.
    pub fn has_all(&self) -> bool {
        self.pushed.load(Ordering::SeqCst) == self.given.load(Ordering::SeqCst)
    }

    /// What was given so far is to be brought to the medium at once.
    pub fn ask(&self) {
        let given = self.given.load(Ordering::SeqCst);
        self.asked.store(given, Ordering::SeqCst);
        self.second.unpark();
    }

    /// No more come.
    pub(crate) fn end(&self) {
        self.ended.store(true, Ordering::SeqCst);
        self.second.unpark();
    }

    /// So many bytes were given by the first thread itself.
    pub(crate) fn count(&self, bytes: usize) {
        self.given.fetch_add(bytes as u64, Ordering::SeqCst);
        self.written.fetch_add(bytes as u64, Ordering::SeqCst);
    }

    /// Whether the second thread is there.
    pub fn works(&self) -> bool {
        self.works.load(Ordering::SeqCst)
    }

    /// Leaves a write to the second thread, and tells whether it did: not where that is not there, and not a write that has more
    /// bytes than a room. Where there is no room for it yet, it waits. Refused once a write or a sync was.
    pub(crate) fn leave<R: Wait>(&self, rt: &R, bytes: &[u8], offset: u64) -> io::Result<bool> {
        let rooms = match &self.rooms {
            Some(rooms) if self.works() && bytes.len() <= ROOM_BYTES => rooms,
            _ => return Ok(false),
        };
        for _turn in 0..u64::MAX {
            if rooms.lock(rt).take(bytes, offset)? {
                self.given.fetch_add(bytes.len() as u64, Ordering::SeqCst);
                self.sound()?;
                return Ok(true);
            }
            self.wait_for_writes(rt)?;
        }
        Ok(false)
    }

    /// Waits until no write waits that has a byte of these. Refused once a write or a sync was.
    pub(crate) fn wait_for_span<R: Wait>(&self, rt: &R, span: &Span) -> io::Result<()> {
        if self.meets(rt, span) {
            return self.wait_for_writes(rt);
        }
        Ok(())
    }

    /// Whether a write that waits has a byte of these.
    fn meets<R: Wait>(&self, rt: &R, span: &Span) -> bool {
        match &self.rooms {
            Some(rooms) => rooms.lock(rt).meets(span),
            None => false,
        }
    }

    /// Waits until all that was given is written. Refused once a write or a sync was.
    pub(crate) fn wait_for_writes<R: Wait>(&self, rt: &R) -> io::Result<()> {
        let given = self.given.load(Ordering::SeqCst);
        self.wanted.store(given, Ordering::SeqCst);
        self.second.unpark();
        self.wait(rt, &self.waits_for_writes, &self.written, given)
    }

    /// Waits until all that was given is on the medium. Refused once a write or a sync was.
    pub(crate) fn wait_for_medium<R: Wait>(&self, rt: &R) -> io::Result<()> {
        let given = self.given.load(Ordering::SeqCst);
        self.ask();
        self.wait(rt, &self.waits_for_medium, &self.pushed, given)
    }

    /// Waits until so many bytes are counted.
    fn wait<R: Wait>(
        &self,
        rt: &R,
        waits: &AtomicBool,
        counted: &AtomicU64,
        bytes: u64,
    ) -> io::Result<()> {
        waits.store(true, Ordering::SeqCst);
        for _turn in 0..u64::MAX {
            if self.refused.load(Ordering::SeqCst) || counted.load(Ordering::SeqCst) >= bytes {
                break;
            }
            self.first.park(rt);
        }
        waits.store(false, Ordering::SeqCst);
        self.sound()
    }

    /// Refused once a write or a sync was.
    fn sound(&self) -> io::Result<()> {
        if self.refused.load(Ordering::SeqCst) {
            return Err(io::Error::from(io::ErrorKind::Other));
        }
        Ok(())
    }

    /// Writes what the file is given, and brings it to the medium, each time it is asked for, until no more comes or a write or a
    /// sync is refused. What is left when no more comes is written.
    pub(crate) fn push<R: Wait, F: FileExt + OpenFile>(&self, rt: &R, file: &F) {
        self.works.store(true, Ordering::SeqCst);
        for _turn in 0..u64::MAX {
            let ended = self.ended.load(Ordering::SeqCst);
            if !ended && !self.has_work() {
                self.second.park(rt);
                continue;
            }
            let done = self.turn(rt, file);
            if done.is_err() {
                self.refused.store(true, Ordering::SeqCst);
                self.first.unpark();
            }
            if ended || done.is_err() {
                break;
            }
        }
        self.works.store(false, Ordering::SeqCst);
    }

    /// Whether something is to be written, or brought to the medium.
    fn has_work(&self) -> bool {
        self.asked.load(Ordering::SeqCst) > self.pushed.load(Ordering::SeqCst)
            || self.wanted.load(Ordering::SeqCst) > self.written.load(Ordering::SeqCst)
    }

    /// Writes what waits, and brings all that is written to the medium, if that is asked for.
    fn turn<R: Wait, F: FileExt + OpenFile>(&self, rt: &R, file: &F) -> io::Result<()> {
        let asked = self.asked.load(Ordering::SeqCst);
        self.write_waiting(rt, file)?;
        self.tell(&self.waits_for_writes);
        if asked > self.pushed.load(Ordering::SeqCst) {
            let written = self.written.load(Ordering::SeqCst);
            file.sync_data()?;
            self.pushed.store(written, Ordering::SeqCst);
            self.tell(&self.waits_for_medium);
        }
        Ok(())
    }

    /// Writes what waits, the first first.
    fn write_waiting<R: Wait, F: FileExt>(&self, rt: &R, file: &F) -> io::Result<()> {
        let Some(rooms) = &self.rooms else {
            return Ok(());
        };
        for _room in 0..u64::MAX {
            let Some(room) = rooms.lock(rt).begin()? else {
                break;
            };
            room.write_to(file)?;
            self.written
                .fetch_add(room.count() as u64, Ordering::SeqCst);
            rooms.lock(rt).end(room)?;
        }
        Ok(())
    }

    /// Has the first thread look again, if it waits for this.
    fn tell(&self, waits: &AtomicBool) {
        if waits.load(Ordering::SeqCst) {
            self.first.unpark();
        }
    }
}
