//! What a loss of power may leave of a trial, at each moment.
use crate::beginning::beginning_of;
use crate::carrying::{Told, carry_out};
use crate::files::Files;
use crate::images::mount;
use crate::stays::Stays;
use crate::stops::{Fault, Looked, look_at};
use crate::trial::{Action, Step, Trial, steps_of};
use device::{CacheDevice, Device, MemDevice};
use findings::Verdict;
use layout::Refusal;
use left_images::{Judge, cuts};
use recording::Written;
use snapshot::{Command, Volume};
use std::alloc::Global;
use std::thread::Threads;

/// What was looked at of what losses of power may leave, and what was wrong.
#[derive(Clone, Copy, Debug, PartialEq, Eq)]
pub struct PowerCuts {
    /// How many steps were not refused.
    pub answered: u64,
    /// At how many moments.
    pub moments: u64,
    /// How many images.
    pub images: u64,
    /// How many of them a check finds soft.
    pub soft: u64,
    /// How many files had to have a name, in all of them together.
    pub names: u64,
    /// How many bytes of files had to be there, in all of them together.
    pub bytes: u64,
    /// How much was wrong.
    pub wrong: u64,
    /// The first of what was wrong.
    pub fault: Option<Fault>,
}

impl PowerCuts {
    /// Before the first look.
    fn new() -> PowerCuts {
        PowerCuts {
            answered: 0,
            moments: 0,
            images: 0,
            soft: 0,
            names: 0,
            bytes: 0,
            wrong: 0,
            fault: None,
        }
    }

    /// The worst verdict of all: what is wrong counts as damaged.
    pub fn worst(&self) -> Verdict {
        if self.wrong > 0 {
            Verdict::Damaged
        } else if self.soft > 0 {
            Verdict::Soft
        } else {
            Verdict::Clean
        }
    }

    /// Counts an image of which this is said and that had to have this, and gives the verdict: what is wrong is damaged.
    fn count(&mut self, looked: &Looked, stays: &Stays) -> Verdict {
        let (names, bytes) = stays.files().count();
        self.images = self.images.saturating_add(1);
        self.names = self.names.saturating_add(names);
        self.bytes = self.bytes.saturating_add(bytes);
        if let Some(fault) = looked.fault {
            self.count_fault(fault);
            return Verdict::Damaged;
        }
        if looked.verdict == Verdict::Soft {
            self.soft = self.soft.saturating_add(1);
        }
        looked.verdict
    }

    /// Counts a step that was refused or not.
    fn count_answer(&mut self, is_answered: bool) {
        self.answered = self.answered.saturating_add(u64::from(is_answered));
    }

    /// Counts what is wrong.
    fn count_fault(&mut self, fault: Fault) {
        self.wrong = self.wrong.saturating_add(1);
        self.fault = self.fault.or(Some(fault));
    }
}

/// What is looked at between a sync that was answered and the next one.
#[derive(Drop)]
struct Looks {
    alloc: Global,
    /// How many images are looked at at each moment at most.
    most: u32,
    /// What users saw when the sync was answered, and at each step since.
    stays: Stays,
    cuts: PowerCuts,
}

impl Judge for Looks {
    ghost tells = { λ _ _. Unit {0} };

    fn judge<R: Threads + Sync>(&mut self, rt: &R, device: MemDevice) -> Result<Verdict, Refusal> {
        let looked = look_at(rt, self.alloc, device, &self.stays)?;
        Ok(self.cuts.count(&looked, &self.stays))
    }
}

/// What a device was given since a sync of its volume was answered.
#[derive(Drop)]
struct Since {
    /// How many steps it had made then.
    from: u64,
    /// How many of its steps were taken over.
    taken: usize,
    /// The last of so many steps is not; each is where this is 0.
    losing: usize,
    /// A device that began with what was on the medium when the sync was answered, and has made the steps that were taken over.
    copy: CacheDevice,
}

impl Since {
    /// Nothing, over an image.
    fn over(alloc: Global, image: &MemDevice, losing: usize) -> Result<Since, Refusal> {
        let copy = image.image_after(alloc, image.writes())?;
        Ok(Since {
            from: 0,
            taken: 0,
            losing,
            copy: CacheDevice::over(alloc, copy)?,
        })
    }

    /// Takes over what the device was given.
    fn take(&mut self, device: &CacheDevice) -> Result<(), Refusal> {
        for step in device.steps().get(self.taken..).ok_or(Refusal::BadIndex)? {
            self.taken = self.taken.saturating_add(1);
            if self.taken.checked_rem(self.losing) != Some(0) {
                repeat(&mut self.copy, step)?;
            }
        }
        Ok(())
    }

    /// Begins with what is on the medium now.
    fn begin(&mut self, alloc: Global) -> Result<(), Refusal> {
        let steps = self.copy.steps().len();
        self.from = self.taken as u64;
        self.copy = CacheDevice::over(alloc, self.copy.left(alloc, steps, &[])?)?;
        Ok(())
    }
}

/// Carries a trial out with a version of the layout on a device with a write cache, and looks at what a loss of power may leave at
/// each moment: before its first write, and after each of its writes and syncs. All choices of the writes since its last sync are
/// looked at where they are no more than that, and otherwise so many: none of them is left, all are, all but one in their order,
/// and then whichever. Each image has to be as one that a stop leaves (`fault_of`), and to have all that users saw when the last
/// sync of the volume was answered, and at each step since; and then nothing may be loose.
pub fn power_cuts_of(
    rt: &(impl Threads + Sync),
    alloc: Global,
    trial: &Trial,
    version: u32,
    most: u32,
) -> Result<PowerCuts, Refusal> {
    let image = beginning_of(rt, alloc, trial, version)?;
    let steps = steps_of(alloc, trial)?;
    power_cuts_of_steps(rt, alloc, image, steps.as_slice(), most, 0)
}

/// Carries steps out on the volume of an image, whatever they are answered, and looks at what a loss of power may leave, as
/// `power_cuts_of` does. Where `losing` is not 0, the medium is a faulty one: of so many writes and syncs of the device the last one
/// does not reach it, and the looks are to find that.
pub fn power_cuts_of_steps(
    rt: &(impl Threads + Sync),
    alloc: Global,
    image: MemDevice,
    steps: &[Step],
    most: u32,
    losing: usize,
) -> Result<PowerCuts, Refusal> {
    let mut since = Since::over(alloc, &image, losing)?;
    let mut volume = Volume::new(mount(alloc, CacheDevice::over(alloc, image)?)?);
    power_cuts_since(rt, alloc, &mut volume, steps, most, &mut since)
}

/// Carries steps out on a volume that is mounted, and looks at what a loss of power may leave.
fn power_cuts_since(
    rt: &(impl Threads + Sync),
    alloc: Global,
    volume: &mut Volume<CacheDevice>,
    steps: &[Step],
    most: u32,
    since: &mut Since,
) -> Result<PowerCuts, Refusal> {
    let mut looks = Looks {
        alloc,
        most,
        stays: stays_of(alloc, volume)?,
        cuts: PowerCuts::new(),
    };
    let done = carry_out_all(rt, volume, steps, since, &mut looks);
    done.and(Ok(looks.cuts))
}

/// Carries steps out, and looks at what comes behind the last sync too.
fn carry_out_all(
    rt: &(impl Threads + Sync),
    volume: &mut Volume<CacheDevice>,
    steps: &[Step],
    since: &mut Since,
    looks: &mut Looks,
) -> Result<(), Refusal> {
    for step in steps {
        carry_out_step(rt, volume, step, since, looks)?;
    }
    look(rt, volume.live().device(), since, looks)
}

/// All that users see of a volume.
fn stays_of(alloc: Global, volume: &mut Volume<CacheDevice>) -> Result<Stays, Refusal> {
    let files = Files::of(alloc, volume)?;
    let view = volume.live().view(alloc)?;
    Ok(Stays::of(alloc, &view, files)?)
}

/// Carries a step out. What comes behind a sync that was answered is looked at by itself.
fn carry_out_step(
    rt: &(impl Threads + Sync),
    volume: &mut Volume<CacheDevice>,
    step: &Step,
    since: &mut Since,
    looks: &mut Looks,
) -> Result<(), Refusal> {
    let is_synced = carry_out_action(rt, volume, &step.action, looks)?;
    leave_out(volume, looks)?;
    if is_synced {
        look_behind_sync(rt, volume, since, looks)?;
    }
    Ok(())
}

/// Carries an action out, and tells whether it is a sync that was answered: that changes nothing of what users see of files.
fn carry_out_action(
    rt: &(impl Threads + Sync),
    volume: &mut Volume<CacheDevice>,
    action: &Action,
    looks: &mut Looks,
) -> Result<bool, Refusal> {
    let before = Files::of(looks.alloc, volume)?;
    let told = carry_out(rt, looks.alloc, volume, action);
    looks.cuts.count_answer(told.is_ok());
    let is_synced = is_synced(action, &told);
    if is_synced && !stay(looks.alloc, volume, before)? {
        looks.cuts.count_fault(Fault::LosesSynced);
    }
    Ok(is_synced)
}

/// Whether users see of these files what they saw.
fn stay(
    alloc: Global,
    volume: &mut Volume<CacheDevice>,
    mut before: Files,
) -> Result<bool, Refusal> {
    let now = Files::of(alloc, volume)?;
    let count = before.count();
    before.leave_out(&now);
    Ok(before.count() == count)
}

/// Leaves out what users do not see now as they did.
fn leave_out(volume: &mut Volume<CacheDevice>, looks: &mut Looks) -> Result<(), Refusal> {
    let files = Files::of(looks.alloc, volume)?;
    let view = volume.live().view(looks.alloc)?;
    looks.stays.leave_out(looks.alloc, &view, &files)?;
    Ok(())
}

/// Looks at what comes before a sync that was answered, and begins behind it.
fn look_behind_sync(
    rt: &(impl Threads + Sync),
    volume: &mut Volume<CacheDevice>,
    since: &mut Since,
    looks: &mut Looks,
) -> Result<(), Refusal> {
    look(rt, volume.live().device(), since, looks)?;
    since.begin(looks.alloc)?;
    looks.stays = stays_of(looks.alloc, volume)?;
    if is_loose(volume.live().device()) {
        looks.cuts.count_fault(Fault::IsLoose);
    }
    Ok(())
}

/// Looks at what a loss of power may leave from the last sync of the volume on.
fn look(
    rt: &(impl Threads + Sync),
    device: &CacheDevice,
    since: &mut Since,
    looks: &mut Looks,
) -> Result<(), Refusal> {
    since.take(device)?;
    let told = cuts(rt, looks.alloc, &since.copy, looks.most, since.from, looks)?;
    looks.cuts.moments = looks.cuts.moments.saturating_add(told.len() as u64);
    Ok(())
}

/// Whether an action is a sync that was answered.
pub fn is_synced(action: &Action, told: &Result<Told, Refusal>) -> bool {
    matches!(action, Action::Command(Command::Sync)) && told.is_ok()
}

/// Whether a device has writes that a loss of power may take back.
pub fn is_loose(device: &CacheDevice) -> bool {
    matches!(device.steps().last(), Some(device::Step::Wrote(..)))
}

/// Makes a step once more.
fn repeat(device: &mut CacheDevice, step: &device::Step) -> Result<(), Refusal> {
    match step {
        device::Step::Wrote(address, block) => {
            let written = Written {
                address: *address,
                block: *block,
            };
            written.repeat_on(device)
        }
        device::Step::Synced => Ok(device.sync()?),
    }
}
