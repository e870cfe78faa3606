//! The line `repair`: the report of an image, and what is mended of it.
ghost use Rattle.std.specs.Prelude.{◌≡◌, ◌⊎◌, ◌++◌, ◌<◌, [], Err, IfErr, IfOk, IsErrOf, IsFalse, IsOkUnless, OnOk, length};
ghost use Rattle.std.specs.String.{string_bytes};
ghost use Rattle.failures.specs.Status.{plain};
ghost use Rattle.file_device.specs.Calls.{all_writes};
ghost use Rattle.findings.specs.declared.verdicts.Verdict.TheVariants.{Clean, Damaged, Soft};
ghost use Rattle.frozen.specs.Kept.{IsKeptOf};
ghost use Rattle.frozen.specs.Loading.{GivesOut};
ghost use Rattle.layout.specs.declared.refusal.Refusal.TheVariants.{BadWorkers};
ghost use Rattle.joint_devices.specs.Joined.{AllHonest, of_device};
ghost use Rattle.live_states.specs.Holdings.{IsIdle};
ghost use Rattle.loaders.specs.Readers.{Show};
ghost use Rattle.model.specs.Layout.{block_count};
ghost use Rattle.snapshot.specs.Mounting.{IsMountable};
ghost use Rattle.softdep.specs.Queued.{pending_of};
ghost use Rattle.worker_counts.specs.Workers.{may_work};
ghost use Rattle.image_lines.specs.Status.{status_of_verdict};
ghost use Rattle.image_lines.specs.declared.repair.Outcome.TheVariants.{Left, Mended};
ghost use Rattle.image_lines.specs.Checks.{IsCheckOf};
ghost use Rattle.image_lines.specs.Repaired.{ComesTo, IsMended, IsNotRepaired, IsRepaired, device_of, done_text, outcome_in, repair_lines, repair_text_of};
ghost use Rattle.mending.specs.Went.{FailedOnTheWay, Went};

use crate::check::{by_workers, check_by, check_file, told};
use crate::mounting::mount_checked;
use clap::{ArgMatches, Command};
use command_line::{Answer, Failure, SOFT, Watched, others_of};
use device::Device;
use file_device::{FileDevice, OpenError, Start};
use findings::{Repair, Verdict};
use fsck::Checked;
use image_changes::Refused;
use joint_devices::Joint;
use layout::Refusal;
use mending::mend_checked;
use progress::Watcher;
use snapshot::{Volume, tells_its_image};
use std::alloc::{AllocError, Global};
use std::fs::OpenFile;
use std::marker::Brand;
use std::mem;
use std::os::unix::fs::FileExt;
use std::rt::Files;
use std::thread::Threads;
use workers::{Gate, Workers};

/// What the line asks for: an image without what soft updates may leave, by this many workers.
#[derive(Clone, Copy)]
pub struct RepairLine<'a> {
    pub image: &'a str,
    pub workers: u32,
    pub progress: bool,
}

/// The words of the line.
pub fn command<'a>(alloc: Global) -> Result<Command<'a>, AllocError> {
    by_workers(
        alloc,
        "repair",
        "Prints the report of an image, and mends what soft updates may leave",
    )
}

/// What these words ask for.
pub fn line_of<'a>(options: &ArgMatches<'a>) -> Option<RepairLine<'a>> {
    Some(RepairLine {
        image: options.get_str("image")?,
        workers: options.get_one("workers")?,
        progress: options.get_flag("progress"),
    })
}

/// Checks a file's image, mends it where it is soft, and tells the watcher how far that has come. The number of workers is
/// looked at before the file.
pub fn answer<R: Files + AllocGlobal + Threads + Sync, T: Watcher + Sync>(
    rt: &R,
    line: &RepairLine<'_>,
    watcher: &T,
) -> Result<Answer, Failure>
where
    R::File: FileExt + Send,
    ensures status { IfOk result (λ answer. answer.status < 3) }
    ensures workers { IsFalse (may_work line.now.workers) → result ≡ Err (plain BadWorkers) }
{
    let workers = Workers::new(line.workers)?;
    repair_file(rt, line.image, workers, &Watched { watcher }).map_err(|failure| failure.on_image(
        rt, line.image,
    ))
}

/// Checks a file's image, and mends it where it is soft. A file that may not be written is checked too: only where its image
/// is soft, it is refused.
fn repair_file<R: Files + AllocGlobal + Threads + Sync, G: Gate>(
    rt: &R,
    image: &str,
    workers: Workers,
    gate: &G,
) -> Result<Answer, Failure>
where
    R::File: FileExt + Send,
    ensures { IfOk result (λ answer. answer.status < 3) }
{
    let opened: Result<FileDevice<R::File, Brand>, OpenError> = FileDevice::open_to_write(
        rt, image,
    );
    match opened {
        Ok(device) => repair_device(rt, rt.alloc(), device, workers, gate),
        Err(refused) => check_unwritable(rt, image, workers, gate, refused),
    }
}

/// Checks the image of a device over a file, and mends it where it is soft. What was kept of the image is not given back, as the
/// line `check` does not.
fn repair_device<F: FileExt + OpenFile + Send + Drop, S: Start + Send, G: Gate>(
    rt: &(impl Threads + Sync),
    alloc: Global,
    device: FileDevice<F, S>,
    workers: Workers,
    gate: &G,
) -> Result<Answer, Failure>
    requires { all_writes device ≡ [] }
    ensures { IfOk result (λ answer. answer.status < 3) }
{
    let others = others_of(alloc, &device, workers)?;
    let Repaired { answer, outcome } = repair(rt, alloc, device, others, workers, gate).map_err(
        |refused| refused.cause,
    )?;
    mem::forget(outcome);
    Ok(answer)
}

/// Checks the image of a file that was refused to be written, and refuses it so where there is something to be mended.
fn check_unwritable<R: Files + AllocGlobal + Threads + Sync, G: Gate>(
    rt: &R,
    image: &str,
    workers: Workers,
    gate: &G,
    refused: OpenError,
) -> Result<Answer, Failure>
where
    R::File: FileExt + Send,
    ensures { IfOk result (λ answer. answer.status < 3) }
{
    let answer = check_file(rt, image, workers, gate)?;
    if answer.status == SOFT {
        return Err(Failure::from(refused));
    }
    Ok(answer)
}

/// What came of a device whose image was to be mended.
#[derive(Drop)]
pub enum Outcome<D: Device> {
    /// The image was not written.
    Left(D),
    /// The image was soft; its volume was mounted and mended, as far as it was not refused.
    Mended(Volume<D>),
}

/// What the line prints, and what came of the device.
#[derive(Drop)]
pub struct Repaired<D: Device> {
    pub answer: Answer,
    pub outcome: Outcome<D>,
}

/// Why an image was not repaired, and what came of the device.
#[derive(Drop)]
pub struct NotRepaired<D: Device> {
    pub cause: Refusal,
    pub outcome: Outcome<D>,
}

/// Checks a device's image with this many workers, which pass the gate as in `fsck::check`. Where it is soft, the volume is
/// mounted and mended by this check: the image is read once, and checked once. Refused as an image that cannot be
/// loaded, with `NoMemory` and with `Device`; then the device is given back, or its volume as far as it was mended.
///
/// The image is loaded by as many workers as there are other devices, which show the same. These are read alone, and let go
/// before the first write.
pub fn repair<D: Device + Send + Drop, G: Gate>(
    rt: &(impl Threads + Sync),
    alloc: Global,
    mut device: D,
    mut others: Vec<D>,
    workers: Workers,
    gate: &G,
) -> Result<Repaired<Joint<D>>, NotRepaired<Joint<D>>>
    requires { Show D.image (D.image device) others.items }

    // Where each device was honest, they showed an image, and what is printed is this image's. Where it is soft, a check finds
    // nothing on what the device holds now; else it was not written.
    ensures repaired { IfOk result (λ repaired. AllHonest D.honest (device_of repaired.outcome)
        → IsRepaired (D.image device) repaired.answer.text.items repaired.answer.status repaired.outcome (D.image (device_of repaired.outcome).device)) }
    ensures status { IfOk result (λ repaired. repaired.answer.status < 3) }
    // Whatever came of it, the device was not written, or its volume was mounted and mended, and nothing else was done to it.
    ensures went { ComesTo (AllHonest D.honest) (of_device D.image) (of_device D.held) (record { device = device; readers = others.items }) (outcome_in result) }
    ensures refused { IfErr result (IsNotRepaired (AllHonest D.honest) (of_device D.image) (of_device D.held) (of_device D.failures)
        (record { device = device; readers = others.items })) }
{
    let checked = check_by(rt, alloc, &mut device, &mut others, workers, gate);
    let device = Joint::new(device, others);
    match checked {
        Ok(checked) => repair_checked(alloc, device, &checked),
        Err(cause) => Err(NotRepaired {
            cause,
            outcome: Outcome::Left(device),
        }),
    }
}

/// Mends a device whose image was checked where it is soft, and leaves it else.
fn repair_checked<D: Device + Drop>(
    alloc: Global,
    device: D,
    checked: &Checked,
) -> Result<Repaired<D>, NotRepaired<D>>
    requires checked { D.honest device → IsCheckOf (D.image device) checked.now }
    requires loaded { D.honest device → IsKeptOf checked.now.frozen (D.image device) }
    requires count { length (D.image device) ≡ block_count checked.now.frozen.geometry }
    ensures repaired { IfOk result (λ repaired. D.honest (device_of repaired.outcome)
        → IsRepaired (D.image device) repaired.answer.text.items repaired.answer.status repaired.outcome (D.image (device_of repaired.outcome))) }
    ensures status { IfOk result (λ repaired. repaired.answer.status < 3) }
    ensures went { ComesTo D.honest D.image D.held device (outcome_in result) }
    ensures refused { IfErr result (IsNotRepaired D.honest D.image D.held D.failures device) }
    ensures left { IfErr result (λ refused. refused.cause ≡ Refusal.Device → IsMended refused.outcome) }
{
    match checked.verdict() {
        Verdict::Soft => mend_device(alloc, device, checked),
        Verdict::Clean | Verdict::Damaged => leave_device(alloc, device, checked),
    }
}

/// Leaves a device whose image was checked and is not soft, and tells what was found.
fn leave_device<D: Device + Drop>(
    alloc: Global,
    device: D,
    checked: &Checked,
) -> Result<Repaired<D>, NotRepaired<D>>
    requires checked { D.honest device → IsCheckOf (D.image device) checked.now }
    requires other { (checked.now.verdict ≡ Clean) ⊎ (checked.now.verdict ≡ Damaged) }
    ensures repaired { IfOk result (λ repaired. D.honest (device_of repaired.outcome)
        → IsRepaired (D.image device) repaired.answer.text.items repaired.answer.status repaired.outcome (D.image (device_of repaired.outcome))) }
    ensures status { IfOk result (λ repaired. repaired.answer.status < 3) }
    ensures went { ComesTo D.honest D.image D.held device (outcome_in result) }
    ensures refused { IfErr result (IsNotRepaired D.honest D.image D.held D.failures device) }
    ensures left { IfErr result (λ refused. refused.cause ≡ Refusal.Device → IsMended refused.outcome) }
{
    match told(alloc, checked) {
        Ok(answer) => Ok(Repaired {
            answer,
            outcome: Outcome::Left(device),
        }),
        Err(cause) => Err(NotRepaired {
            cause,
            outcome: Outcome::Left(device),
        }),
    }
}

/// Mounts the volume of a device whose image was checked and is soft, and mends it by that check.
fn mend_device<D: Device + Drop>(
    alloc: Global,
    device: D,
    checked: &Checked,
) -> Result<Repaired<D>, NotRepaired<D>>
    requires loaded { D.honest device → IsKeptOf checked.now.frozen (D.image device) }
    requires count { length (D.image device) ≡ block_count checked.now.frozen.geometry }
    requires soft { checked.now.verdict ≡ Soft }
    ensures repaired { IfOk result (λ repaired. D.honest (device_of repaired.outcome)
        → IsRepaired (D.image device) repaired.answer.text.items repaired.answer.status repaired.outcome (D.image (device_of repaired.outcome))) }
    ensures status { IfOk result (λ repaired. repaired.answer.status < 3) }
    ensures went { ComesTo D.honest D.image D.held device (outcome_in result) }
    ensures refused { IfErr result (IsNotRepaired D.honest D.image D.held D.failures device) }
    ensures left { IfErr result (λ refused. refused.cause ≡ Refusal.Device → IsMended refused.outcome) }
{
    let mut volume = match mount_checked(alloc, device, checked) {
        Ok(live) => Volume::new(live),
        Err(Refused { device, cause }) => {
            return Err(NotRepaired {
                cause,
                outcome: Outcome::Left(device),
            });
        }
    };
    match mend_volume(alloc, &mut volume, checked) {
        Ok(answer) => Ok(Repaired {
            answer,
            outcome: Outcome::Mended(volume),
        }),
        Err(cause) => Err(NotRepaired {
            cause,
            outcome: Outcome::Mended(volume),
        }),
    }
}

/// Mends a volume that was just mounted by the check of its image, and tells what was mended.
fn mend_volume<D: Device>(
    alloc: Global,
    volume: &mut Volume<D>,
    checked: &Checked,
) -> Result<Answer, Refusal>
    requires pending { pending_of volume.old.queue ≡ [] }
    requires idle { IsIdle volume.old.holdings }
    requires mounted { D.honest volume.old.device → IsMountable volume.old.kept.geometry (D.image volume.old.device) }
    requires kept { volume.old.kept ≡ checked.now.frozen }
    requires loaded { D.honest volume.old.device → IsKeptOf checked.now.frozen (D.image volume.old.device) }
    ensures repaired { IfOk result (λ answer. D.honest volume.new.device
        → IsRepaired (D.image volume.old.device) answer.text.items answer.status (Mended volume.new) (D.image volume.new.device)) }
    ensures status { IfOk result (λ answer. answer.status < 3) }
    ensures went { D.honest volume.new.device → Went D.held D.image volume.old volume.new }
    ensures error { IfErr result (λ r. D.honest volume.new.device → GivesOut r) }
    ensures cause { IsErrOf result Refusal.Device → FailedOnTheWay D.honest D.held D.image D.failures volume.old volume.new }
    ensures honest { D.honest volume.new.device → D.honest volume.old.device }
{
    fsck::damaged_where_a_rule_is_broken();
    fsck::a_checked_image_is_the_images();
    tells_its_image(checked);
    mend_checked(alloc, volume, checked)?;
    told_of_repairs(alloc, checked)
}

/// What is printed of an image that was mended by this check, where it was soft.
fn told_of_repairs(alloc: Global, checked: &Checked) -> Result<Answer, Refusal>
    ensures text { IfOk result (λ answer. answer.text.items ≡ repair_text_of checked.now.verdict checked.now) }
    ensures status { IfOk result (λ answer. answer.status ≡ status_of_verdict checked.now.verdict) }
    ensures error { IsOkUnless result Refusal.NoMemory }
{
    match checked.verdict() {
        Verdict::Soft => told_with_repairs(alloc, checked),
        Verdict::Clean | Verdict::Damaged => told(alloc, checked),
    }
}

/// The report of a checked image, and behind it its repairs.
fn told_with_repairs(alloc: Global, checked: &Checked) -> Result<Answer, Refusal>
    ensures text { IfOk result (λ answer. answer.text.items ≡ checked.now.report ++ done_text checked.now.repairs) }
    ensures status { IfOk result (λ answer. answer.status ≡ status_of_verdict checked.now.verdict) }
    ensures error { IsOkUnless result Refusal.NoMemory }
{
    let Answer { mut text, status } = told(alloc, checked)?;
    let done = done_lines(alloc, checked.repairs())?;
    text.extend_from_slice(done.as_bytes())?;
    Ok(Answer { text, status })
}

/// A line for each repair, and one that counts them.
fn done_lines(alloc: Global, repairs: &[Repair]) -> Result<String, AllocError>
    ensures { IfOk result (λ text. string_bytes text ≡ done_text repairs.now) }
{
    let mut text = String::new(alloc);
    write_repairs(&mut text, repairs)?;
    let count = repairs.len();
    writeln!(text, "repaired {count}")?;
    Ok(text)
}

/// Writes a line for each repair.
pub fn write_repairs(text: &mut String, repairs: &[Repair]) -> Result<(), AllocError>
    ensures { OnOk result (string_bytes text.new ≡ string_bytes text.old ++ repair_lines repairs.now) }
{
    for repair in repairs {
        writeln!(text, "{repair}")?;
    }
    Ok(())
}
