//! Requests carried out on a mounted volume, whatever its device.
ghost use Rattle.std.specs.Prelude.{◌≡◌, true};
ghost use Rattle.test_lists.specs.Refusals.{asks_only, is_refusal};

use crate::answer::Answer;
use crate::request::Request;
use device::Device;
use findings::Finding;
use frozen::Frozen;
use fsck::{Checked, check_one};
use layout::Refusal;
use snapshot::{Answer as VolumeAnswer, Command, Volume};
use std::alloc::Global;
use std::sync::Arc;
use std::thread::Threads;

/// A mounted volume, and what was seen of it.
#[derive(Drop)]
pub struct Mounted<D: Device> {
    volume: Volume<D>,
    /// The image that was frozen last.
    frozen: Option<Arc<Frozen>>,
    /// The check that was inspected last.
    checked: Option<Arc<Checked>>,
}

/// Mounts the volume of a device, or tells why it cannot be.
pub fn mount<D: Device + Drop>(alloc: Global, device: D) -> Result<Mounted<D>, Refusal> {
    Ok(Mounted {
        volume: image_changes::mount(alloc, device)?,
        frozen: None,
        checked: None,
    })
}

impl<D: Device> Mounted<D> {
    /// The device.
    pub fn device(&self) -> &D {
        self.volume.live().device()
    }

    /// The number that a path leads to.
    pub fn number_of(&self, path: &[u8]) -> Option<u32> {
        let status = self.volume.live().stat(path).ok()?;
        Some(status.number)
    }

    /// Whether the file of a handle has a block of this index.
    pub fn has_block(&mut self, alloc: Global, handle: u32, index: u32) -> bool {
        self.volume
            .apply(alloc, &Command::Read { handle, index })
            .is_ok()
    }

    /// Flushes what waits.
    pub fn flush(&mut self, alloc: Global) -> Result<(), Refusal> {
        image_changes::flush_in_passes(alloc, &mut self.volume)
    }

    /// Carries out a request. One that is refused leaves what users see, what is open and held, the repairs, and what was
    /// frozen and inspected last, as they were: the writes of `flush`, `sync`, `freeze` and `release` before a fault stay,
    /// and a device need not be the same once it was read.
    pub fn carry_out(
        &mut self,
        rt: &(impl Threads + Sync),
        alloc: Global,
        request: Request,
    ) -> Answer
        ensures untouched { is_refusal result ≡ true → (self.new.volume.kept ≡ self.old.volume.kept) × (self.new.volume.holdings ≡ self.old.volume.holdings) }
        ensures remembered { is_refusal result ≡ true → (self.new.frozen ≡ self.old.frozen) × (self.new.checked ≡ self.old.checked) }
        ensures asked { asks_only request ≡ true → self.new.volume ≡ self.old.volume }
    {
        match request {
            Request::Command(command) => self.apply(alloc, &command),
            Request::Inspect => self.inspect(rt, alloc),
            Request::Install => self.install(alloc),
            Request::Plan => Answer::Count(self.volume.plan_len()),
            Request::Unmarked => Answer::Count(self.volume.live().unmarked_blocks() as usize),
            Request::Ready => Answer::Least(self.volume.live().least_ready()),
        }
    }

    /// Carries out a command, and keeps an image that it froze.
    fn apply(&mut self, alloc: Global, command: &Command) -> Answer
        ensures untouched { is_refusal result ≡ true → (self.new.volume.kept ≡ self.old.volume.kept) × (self.new.volume.holdings ≡ self.old.volume.holdings) }
        ensures frozen { is_refusal result ≡ true → self.new.frozen ≡ self.old.frozen }
        ensures checked { self.new.checked ≡ self.old.checked }
    {
        match self.volume.apply(alloc, command) {
            Ok(VolumeAnswer::Image(number, frozen)) => {
                self.frozen = Some(frozen);
                Answer::Given(VolumeAnswer::Number(number))
            }
            Ok(answer) => Answer::Given(answer),
            Err(refusal) => Answer::Refused(refusal),
        }
    }

    /// Checks the image that was frozen last, and keeps the check; tells what it found.
    fn inspect(&mut self, rt: &(impl Threads + Sync), alloc: Global) -> Answer
        ensures volume { self.new.volume ≡ self.old.volume }
        ensures frozen { self.new.frozen ≡ self.old.frozen }
        ensures checked { is_refusal result ≡ true → self.new.checked ≡ self.old.checked }
    {
        let Some(frozen) = &self.frozen else {
            return Answer::NoCommand;
        };
        match inspection(rt, alloc, frozen) {
            Ok((checked, findings)) => {
                self.checked = Some(checked);
                Answer::Findings(findings)
            }
            Err(refusal) => Answer::Refused(refusal),
        }
    }

    /// Installs the check that was inspected last.
    fn install(&mut self, alloc: Global) -> Answer
        ensures untouched { is_refusal result ≡ true → (self.new.volume.kept ≡ self.old.volume.kept) × (self.new.volume.holdings ≡ self.old.volume.holdings) }
        ensures frozen { is_refusal result ≡ true → self.new.frozen ≡ self.old.frozen }
        ensures checked { self.new.checked ≡ self.old.checked }
    {
        let Some(checked) = &self.checked else {
            return Answer::NoCommand;
        };
        match checked.clone() {
            Ok(checked) => self.apply(alloc, &Command::Install(checked)),
            Err(_) => Answer::Refused(Refusal::NoMemory),
        }
    }
}

/// The check of an image, and what it found.
fn inspection(
    rt: &(impl Threads + Sync),
    alloc: Global,
    frozen: &Arc<Frozen>,
) -> Result<(Arc<Checked>, Vec<Finding>), Refusal> {
    let checked = check_one(rt, alloc, frozen)?;
    let findings = checked.findings().to_vec(alloc)?;
    Ok((Arc::new(alloc, checked)?, findings))
}
