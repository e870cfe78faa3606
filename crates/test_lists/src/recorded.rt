//! A mounted volume in memory, and what its files had.
use crate::answer::Answer;
use crate::carrying::{Mounted, mount};
use crate::history::{History, Place};
use crate::request::Request;
use crate::stops::look_at_stops;
use device::MemDevice;
use layout::{BLOCK_BYTES, Block, Refusal};
use outcomes::with;
use snapshot::{Answer as VolumeAnswer, Command};
use std::alloc::{AllocError, Global};
use std::thread::Threads;

/// A mounted volume in memory, and what its files had since it was mounted.
#[derive(Drop)]
pub struct Recorded {
    mounted: Mounted<MemDevice>,
    history: History,
}

/// What a request does to a file, unless it is refused.
#[derive(Drop)]
enum Event {
    /// Nothing that is recorded.
    Other,
    /// A handle is opened on the file of this number.
    Opens(u32),
    /// A block has these bytes.
    Writes(Place, Block),
}

impl Recorded {
    /// What a device holds, mounted on a device of its own that was never written.
    pub fn mount(alloc: Global, device: &MemDevice) -> Result<Recorded, Refusal> {
        let history = history_of(alloc, device)?;
        let (copy, history) = with(copy_of(alloc, device), history)?;
        let (mounted, history) = with(mount(alloc, copy), history)?;
        Ok(Recorded { mounted, history })
    }

    /// The device.
    pub fn device(&self) -> &MemDevice {
        self.mounted.device()
    }

    /// Carries out a request, and records what a block of a file has then.
    pub fn carry_out(
        &mut self,
        rt: &(impl Threads + Sync),
        alloc: Global,
        request: Request,
    ) -> Result<Answer, AllocError> {
        let event = self.event_of(alloc, &request);
        let answer = self.mounted.carry_out(rt, alloc, request);
        self.record(event, &answer)?;
        Ok(answer)
    }

    /// Carries out requests in a row, and tells how many there were; where one is refused its answer is given, and those behind
    /// it are not carried out.
    pub fn carry_out_all(
        &mut self,
        rt: &(impl Threads + Sync),
        alloc: Global,
        requests: Vec<Request>,
    ) -> Result<Answer, AllocError> {
        let count = requests.len();
        for request in requests {
            let answer = self.carry_out(rt, alloc, request)?;
            if answer.is_refusal() {
                return Ok(answer);
            }
        }
        Ok(Answer::Count(count))
    }

    /// What a request is about to do to a file.
    fn event_of(&mut self, alloc: Global, request: &Request) -> Event {
        match request {
            Request::Command(Command::Open(path)) => match self.mounted.number_of(path) {
                Some(inode) => Event::Opens(inode),
                None => Event::Other,
            },
            Request::Command(
                Command::Write {
                    handle,
                    index,
                    piece,
                },
            ) => self.write_of(alloc, *handle, *index, piece),
            _ => Event::Other,
        }
    }

    /// What a write of a piece is about to do.
    fn write_of(&mut self, alloc: Global, handle: u32, index: u32, piece: &[u8]) -> Event {
        let Some(inode) = self.history.file_of(handle) else {
            return Event::Other;
        };
        let place = Place { inode, index };
        let mut bytes = if self.mounted.has_block(alloc, handle, index) {
            self.history.latest(place)
        } else {
            [0; BLOCK_BYTES]
        };
        for (byte, value) in bytes.iter_mut().zip(piece) {
            *byte = *value;
        }
        Event::Writes(place, bytes)
    }

    /// Records what was done, unless it was refused.
    fn record(&mut self, event: Event, answer: &Answer) -> Result<(), AllocError> {
        match (event, answer) {
            (Event::Opens(inode), Answer::Given(VolumeAnswer::Number(handle))) => {
                self.history.add_handle(*handle, inode)
            }
            (Event::Writes(place, bytes), Answer::Given(VolumeAnswer::Done)) => {
                self.history.add_bytes(place, bytes)
            }
            _ => Ok(()),
        }
    }

    /// Looks at what a stop would have left after each write since the volume was mounted.
    pub fn stops(&self, rt: &(impl Threads + Sync), alloc: Global) -> Answer {
        match look_at_stops(rt, alloc, self.device(), &self.history) {
            Ok(count) => Answer::Count(count),
            Err(stop) => Answer::BadStop(stop),
        }
    }
}

/// What the files of a device have before it is written.
fn history_of(alloc: Global, device: &MemDevice) -> Result<History, Refusal> {
    let mut copy = copy_of(alloc, device)?;
    History::at_mount(alloc, &mut copy)
}

/// A device that holds what this one holds, and was never written.
pub fn copy_of(alloc: Global, device: &MemDevice) -> Result<MemDevice, Refusal> {
    device.image_after(alloc, device.writes())
}
