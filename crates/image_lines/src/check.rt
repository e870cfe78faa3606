//! The line `check`: the report of an image.
ghost use Rattle.std.specs.Prelude.{◌≡◌, ◌⊎◌, ◌<◌, ℕ, All, Err, IfOk, IfErr, IsFalse, IsErrOf, IsOkUnless, List, [], OnOk, length};
ghost use Rattle.layout.specs.declared.refusal.Refusal.TheVariants.{BadWorkers, NoMemory};
ghost use Rattle.frozen.specs.Kept.{IsKeptOf};
ghost use Rattle.model.specs.Layout.{block_count};
ghost use Rattle.device.specs.Reading.{ReadsOnly};
ghost use Rattle.device.specs.Writes.{HasFailed};
ghost use Rattle.failures.specs.Status.{plain};
ghost use Rattle.frozen.specs.Loading.{LoadRefuses};
ghost use Rattle.worker_counts.specs.Workers.{may_work};
ghost use Rattle.loaders.specs.Readers.{AreRead, Show};
ghost use Rattle.image_lines.specs.Checks.{IsCheckOf};
ghost use Rattle.image_lines.specs.Status.{status_of_verdict};

use clap::{ArgMatches, Command};
use command_line::{Answer, DAMAGED, Failure, SOFT, Watched, arguments, others_of, words};
use device::Device;
use file_device::FileDevice;
use findings::Verdict;
use frozen::{Frozen, load};
use fsck::Checked;
use layout::Refusal;
use loaders::load_by;
use progress::Watcher;
use std::alloc::{AllocError, Global};
use std::marker::Brand;
use std::mem;
use std::os::unix::fs::FileExt;
use std::rt::Files;
use std::sync::Arc;
use std::thread::Threads;
use workers::{Gate, Workers};

/// What the line asks for: the findings of an image, by this many workers.
#[derive(Clone, Copy)]
pub struct CheckLine<'a> {
    pub image: &'a str,
    pub workers: u32,
    pub progress: bool,
}

/// The words of the line.
pub fn command<'a>(alloc: Global) -> Result<Command<'a>, AllocError> {
    by_workers(alloc, "check", "Prints the report of an image")
}

/// A line that takes an image and a number of workers, and may show how far it has come.
pub(crate) fn by_workers<'a>(
    alloc: Global,
    name: &'a str,
    about: &'a str,
) -> Result<Command<'a>, AllocError> {
    words::of_image(alloc, name, about)?
        .arg(arguments::workers(alloc))?
        .arg(arguments::progress(alloc))
}

/// What these words ask for.
pub fn line_of<'a>(options: &ArgMatches<'a>) -> Option<CheckLine<'a>> {
    Some(CheckLine {
        image: options.get_str("image")?,
        workers: options.get_one("workers")?,
        progress: options.get_flag("progress"),
    })
}

/// Checks a file's image, and tells the watcher how far that has come. The number of workers is looked at before the file.
pub fn answer<R: Files + AllocGlobal + Threads + Sync, T: Watcher + Sync>(
    rt: &R,
    line: &CheckLine<'_>,
    watcher: &T,
) -> Result<Answer, Failure>
where
    R::File: FileExt + Send,
    ensures status { IfOk result (λ answer. answer.status < 3) }
    ensures workers { IsFalse (may_work line.now.workers) → result ≡ Err (plain BadWorkers) }
{
    let workers = Workers::new(line.workers)?;
    check_file(rt, line.image, workers, &Watched { watcher }).map_err(|failure| failure.on_image(
        rt, line.image,
    ))
}

/// Checks a file's image.
pub(crate) fn check_file<R: Files + AllocGlobal + Threads + Sync, G: Gate>(
    rt: &R,
    image: &str,
    workers: Workers,
    gate: &G,
) -> Result<Answer, Failure>
where
    R::File: FileExt + Send,
    ensures { IfOk result (λ answer. answer.status < 3) }
{
    let alloc = rt.alloc();
    let mut device: FileDevice<R::File, Brand> = FileDevice::open(rt, image)?;
    let mut others = others_of(alloc, &device, workers)?;
    check_devices(rt, alloc, &mut device, &mut others, workers, gate)
}

/// Checks the image of devices, and tells what is found. What was kept of the image is not given back block by block: the program
/// ends soon, and then the system takes all of it at once.
fn check_devices<D: Device + Send + Drop, G: Gate>(
    rt: &(impl Threads + Sync),
    alloc: Global,
    device: &mut D,
    others: &mut Vec<D>,
    workers: Workers,
    gate: &G,
) -> Result<Answer, Failure>
    requires { Show D.image (D.image device.old) others.old.items }
    ensures { IfOk result (λ answer. answer.status < 3) }
{
    let checked = check_by(rt, alloc, device, others, workers, gate)?;
    let answer = told(alloc, &checked)?;
    mem::forget(checked);
    Ok(answer)
}

/// Checks a device's image with this many workers, which pass the gate as in `fsck::check`. It writes nothing.
pub fn check<D: Device, G: Gate>(
    rt: &(impl Threads + Sync),
    alloc: Global,
    device: &mut D,
    workers: Workers,
    gate: &G,
) -> Result<Checked, Refusal>
    // Where each read gave what stood there, the blocks are an image, and the findings, the report, the verdict and the
    // repairs are those of this image.
    ensures checked { IfOk result (λ checked. D.honest device.new → IsCheckOf (D.image device.old) checked) }
    // The metadata that were checked are those of the image; the device has as many blocks as its volume, honest or not.
    ensures loaded { IfOk result (λ checked. D.honest device.new → IsKeptOf checked.frozen (D.image device.old)) }
    ensures count { IfOk result (λ checked. length (D.image device.old) ≡ block_count checked.frozen.geometry) }
    ensures refused { IfErr result (λ refusal. LoadRefuses (D.honest device.new) (D.image device.old) refusal) }
    ensures cause { IsErrOf result Refusal.Device → HasFailed (D.failures device.old) (D.failures device.new) }
    ensures reads { ReadsOnly D.honest D.image D.held device.old device.new }
{
    let frozen = load(alloc, device)?;
    check_loaded(rt, alloc, frozen, workers, gate)
}

/// Checks a device's image as `check` does, and refuses as it does. The image is loaded by as many workers as there are other
/// devices, which show the same: as `loaders::load_by` does it. No device is written; where memory runs out the others may be lost.
pub fn check_by<D: Device + Send + Drop, G: Gate>(
    rt: &(impl Threads + Sync),
    alloc: Global,
    device: &mut D,
    others: &mut Vec<D>,
    workers: Workers,
    gate: &G,
) -> Result<Checked, Refusal>
    requires { Show D.image (D.image device.old) others.old.items }

    // As of `check`, where each read of each device gave what stood there.
    ensures checked { IfOk result (λ checked. D.honest device.new → All D.honest others.new.items → IsCheckOf (D.image device.old) checked) }
    ensures loaded { IfOk result (λ checked. D.honest device.new → All D.honest others.new.items → IsKeptOf checked.frozen (D.image device.old)) }
    ensures count { IfOk result (λ checked. length (D.image device.old) ≡ block_count checked.frozen.geometry) }
    ensures refused { IfErr result (λ refusal.
        LoadRefuses (D.honest device.new × All D.honest others.new.items) (D.image device.old) refusal) }
    ensures cause { IsErrOf result Refusal.Device → HasFailed (D.failures device.old) (D.failures device.new) }
    ensures reads { ReadsOnly D.honest D.image D.held device.old device.new }
    ensures others { OnOk result (AreRead D.honest D.image D.held others.old.items others.new.items) }
    ensures lost { IfErr result (λ refusal. ((refusal ≡ NoMemory) × (others.new.items ≡ [])) ⊎ AreRead D.honest D.image D.held others.old.items others.new.items) }
{
    let frozen = load_by(rt, alloc, device, others)?;
    check_loaded(rt, alloc, frozen, workers, gate)
}

/// Checks what was loaded of an image.
fn check_loaded<G: Gate>(
    rt: &(impl Threads + Sync),
    alloc: Global,
    frozen: Frozen,
    workers: Workers,
    gate: &G,
) -> Result<Checked, Refusal>
    ensures checked { IfOk result (λ checked. (image : List (List ℕ)) → IsKeptOf frozen image → IsCheckOf image checked) }
    ensures frozen { IfOk result (λ checked. checked.frozen ≡ frozen) }
    ensures error { IsOkUnless result Refusal.NoMemory }
{
    let frozen = Arc::new(alloc, frozen)?;
    fsck::check(rt, alloc, &frozen, workers, gate)
}

/// What is printed of a checked image: its report.
pub fn told(alloc: Global, checked: &Checked) -> Result<Answer, Refusal>
    ensures text { IfOk result (λ answer. answer.text.items ≡ checked.now.report) }
    ensures status { IfOk result (λ answer. answer.status ≡ status_of_verdict checked.now.verdict) }
    ensures error { IsOkUnless result Refusal.NoMemory }
{
    Ok(Answer {
        text: checked.report().to_vec(alloc)?,
        status: status_of_verdict(checked.verdict()),
    })
}

/// The status that the program ends with where an image was checked.
pub(crate) fn status_of_verdict(verdict: Verdict) -> u8
    ensures { result ≡ status_of_verdict verdict }
{
    match verdict {
        Verdict::Clean => 0,
        Verdict::Soft => SOFT,
        Verdict::Damaged => DAMAGED,
    }
}
