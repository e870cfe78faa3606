//! A volume in memory, and what the lines of a list do to it.
use crate::answer::Answer;
use crate::line::Line;
use crate::pass::Pass;
use crate::recorded::{Recorded, copy_of};
use device::{MemDevice, set_byte};
use findings::Finding;
use frozen::load;
use fsck::check_one;
use layout::{Geometry, Refusal};
use snapshot::Answer as VolumeAnswer;
use std::alloc::{AllocError, Global};
use std::mem::replace;
use std::sync::Arc;
use std::thread::Threads;

/// A volume in memory.
#[derive(Drop)]
enum Stage {
    /// There is none yet.
    Absent,
    /// It was made, and is not mounted yet.
    Made(MemDevice),
    /// It is mounted.
    Mounted(Recorded),
    /// It could not be made or mounted.
    Refused(Refusal),
    /// The list is for a version of the layout with which it is not carried out now.
    Skipped,
}

/// The volume of a list.
#[derive(Drop)]
pub struct Session {
    pass: Pass,
    volume: Stage,
    /// How many writes were made before the volume was mounted for the last time.
    earlier_writes: usize,
}

impl Session {
    /// Before the first list.
    pub fn new(pass: Pass) -> Session {
        Session {
            pass,
            volume: Stage::Absent,
            earlier_writes: 0,
        }
    }

    /// Carries out a line, and gives its answer if it has one: it is a command, or out of place.
    pub fn carry_out(
        &mut self,
        rt: &(impl Threads + Sync),
        alloc: Global,
        line: Line,
    ) -> Result<Option<Answer>, AllocError> {
        Ok(match line {
            Line::Volume { numbers, version } => {
                self.make(alloc, numbers, version);
                None
            }
            Line::Byte {
                address,
                place,
                value,
            } => self.put_byte(address, place, value),
            _ if self.skips() => None,
            Line::Other => Some(Answer::NoCommand),
            Line::Check
            | Line::Stop
            | Line::Stops
            | Line::Writes
            | Line::Request(_)
            | Line::Many(_) => {
                self.mount(alloc);
                Some(self.answer(rt, alloc, line)?)
            }
        })
    }

    /// Whether the list is not carried out.
    pub fn skips(&self) -> bool {
        matches!(&self.volume, Stage::Skipped)
    }

    /// Makes a fresh volume of these numbers for a list that names this version or none, in place of the one that was there.
    fn make(&mut self, alloc: Global, numbers: [u32; 3], named: Option<u32>) {
        self.earlier_writes = 0;
        self.put(match self.pass.version_for(named) {
            Some(version) => made(alloc, numbers, version),
            None => Stage::Skipped,
        });
    }

    /// Puts a volume in place of the one that was there.
    fn put(&mut self, volume: Stage) {
        drop(replace(&mut self.volume, volume));
    }

    /// Sets a byte of a block before the volume is mounted; it cannot be mounted where it has no such byte.
    fn put_byte(&mut self, address: u32, place: u32, value: u8) -> Option<Answer> {
        let done = match &mut self.volume {
            Stage::Made(device) => set_byte(device, (address, place as usize, value)),
            Stage::Refused(_) | Stage::Skipped => Ok(()),
            Stage::Absent | Stage::Mounted(_) => return Some(Answer::NoCommand),
        };
        if let Err(refusal) = done {
            self.put(Stage::Refused(refusal));
        }
        None
    }

    /// Mounts a volume that was made.
    fn mount(&mut self, alloc: Global) {
        let mounted = match &self.volume {
            Stage::Made(device) => mounted_copy(alloc, device),
            Stage::Absent | Stage::Mounted(_) | Stage::Refused(_) | Stage::Skipped => return,
        };
        self.put(mounted);
    }

    /// The answer of a line that is a command.
    fn answer(
        &mut self,
        rt: &(impl Threads + Sync),
        alloc: Global,
        line: Line,
    ) -> Result<Answer, AllocError> {
        Ok(match &mut self.volume {
            Stage::Absent | Stage::Made(_) | Stage::Skipped => Answer::NoCommand,
            Stage::Refused(refusal) => Answer::Refused(*refusal),
            Stage::Mounted(recorded) => match line {
                Line::Request(request) => recorded.carry_out(rt, alloc, request)?,
                Line::Many(requests) => recorded.carry_out_all(rt, alloc, requests)?,
                Line::Check => found(rt, alloc, recorded.device()),
                Line::Writes => Answer::Count(
                    self.earlier_writes
                        .saturating_add(recorded.device().writes()),
                ),
                Line::Stop => self.stop(alloc),
                Line::Stops => recorded.stops(rt, alloc),
                Line::Volume { .. } | Line::Byte { .. } | Line::Other => Answer::NoCommand,
            },
        })
    }

    /// Mounts what the device of a mounted volume holds.
    fn stop(&mut self, alloc: Global) -> Answer {
        let Stage::Mounted(recorded) = &self.volume else {
            return Answer::NoCommand;
        };
        let device = recorded.device();
        self.earlier_writes = self.earlier_writes.saturating_add(device.writes());
        let mounted = mounted_copy(alloc, device);
        self.put(mounted);
        match &self.volume {
            Stage::Refused(refusal) => Answer::Refused(*refusal),
            Stage::Absent | Stage::Made(_) | Stage::Mounted(_) | Stage::Skipped => Answer::Given(
                VolumeAnswer::Done,
            ),
        }
    }
}

/// A fresh volume of these numbers and this version, or why there is none.
fn made(alloc: Global, numbers: [u32; 3], version: u32) -> Stage {
    match fresh_of(alloc, numbers, version) {
        Ok(device) => Stage::Made(device),
        Err(refusal) => Stage::Refused(refusal),
    }
}

/// A device in memory with a fresh volume of these numbers and this version.
fn fresh_of(alloc: Global, numbers: [u32; 3], version: u32) -> Result<MemDevice, Refusal> {
    let [groups, blocks, inodes] = numbers;
    let geometry = Geometry::new(groups, blocks, inodes)?.with_version(version)?;
    MemDevice::formatted(alloc, &geometry, &[])
}

/// What a device holds, mounted on a device of its own that was never written.
fn mounted_copy(alloc: Global, device: &MemDevice) -> Stage {
    match Recorded::mount(alloc, device) {
        Ok(recorded) => Stage::Mounted(recorded),
        Err(refusal) => Stage::Refused(refusal),
    }
}

/// The answer of a check of what a device holds.
fn found(rt: &(impl Threads + Sync), alloc: Global, device: &MemDevice) -> Answer {
    match findings_of(rt, alloc, device) {
        Ok(findings) => Answer::Findings(findings),
        Err(refusal) => Answer::Refused(refusal),
    }
}

/// What a check finds on what a device holds.
fn findings_of(
    rt: &(impl Threads + Sync),
    alloc: Global,
    device: &MemDevice,
) -> Result<Vec<Finding>, Refusal> {
    let mut copy = copy_of(alloc, device)?;
    let frozen = Arc::new(alloc, load(alloc, &mut copy)?)?;
    let checked = check_one(rt, alloc, &frozen)?;
    Ok(checked.findings().to_vec(alloc)?)
}
