//! What stands in the image of a device, which is read alone.
ghost use Rattle.std.specs.Prelude.{◌≡◌, ◌++◌, ◌⊎◌, ℕ, All, Err, false, true, IfErr, IfOk, IsErrOf, List, OnOk, map};
ghost use Rattle.device.specs.Reading.{ReadsOnly};
ghost use Rattle.device.specs.Writes.{HasFailed};
ghost use Rattle.frozen.specs.Kept.{IsKeptOf};
ghost use Rattle.frozen.specs.Loading.{LoadRefuses};
ghost use Rattle.live_paths.specs.Listed.{name_of};
ghost use Rattle.loaders.specs.Readers.{Show};
ghost use Rattle.machine.specs.Command.{ListNames, Open, Stat};
ghost use Rattle.model.specs.Image.{IsImage, image_view};
ghost use Rattle.model.specs.Layout.{Geometry as Numbers};
ghost use Rattle.reading.specs.Bytes.{AreBytesAt};
ghost use Rattle.reading.specs.Replies.{Replies};
ghost use Rattle.tool_answers.specs.Told.{IsListed, Refuses, name_lines};

use crate::texts::{status_text, write_head, write_long_names, write_names};
use census::take_census;
use device::Device;
use frozen::{Frozen, load};
use layout::Refusal;
use live_paths::Named;
use loaders::load_by;
use reading::{Listing, list, tree};
use std::alloc::{AllocError, Global};
use std::thread::Threads;

/// How names are listed.
#[derive(Clone, Copy, Debug, PartialEq, Eq)]
pub struct Style {
    /// With what each stands for.
    pub long: bool,
    /// With each directory below.
    pub recursive: bool,
}

/// The numbers of a device's image, a line for each. The image is loaded by as many workers as there are other devices, which
/// show the same. Refused as an image that cannot be loaded.
pub fn info<D: Device + Send + Drop>(
    rt: &(impl Threads + Sync),
    alloc: Global,
    device: &mut D,
    others: &mut Vec<D>,
) -> Result<Vec<u8>, Refusal>
    requires { Show D.image (D.image device.old) others.old.items }
    ensures refused { IfErr result (λ refusal. LoadRefuses (D.honest device.new × All D.honest others.new.items) (D.image device.old) refusal) }
    ensures cause { IsErrOf result Refusal.Device → HasFailed (D.failures device.old) (D.failures device.new) }

    ensures reads { ReadsOnly D.honest D.image D.held device.old device.new }
{
    let frozen = load_by(rt, alloc, device, others)?;
    let mut text = String::new(alloc);
    take_census(&frozen).write(&mut text)?;
    Ok(text.into_bytes())
}

/// What a path leads to, a line for each of its number, kind, links, size and blocks. Refused as an image that cannot be
/// loaded, and then as `reading::stat` is.
pub fn stat<D: Device>(alloc: Global, device: &mut D, path: &[u8]) -> Result<Vec<u8>, Refusal>
    ensures refused { IfErr result (λ refusal. Refuses (D.honest device.new) (D.image device.old) (Stat path.now) refusal) }
    ensures cause { IsErrOf result Refusal.Device → HasFailed (D.failures device.old) (D.failures device.new) }

    ensures reads { ReadsOnly D.honest D.image D.held device.old device.new }
{
    let frozen = load(alloc, device)?;
    let found = reading::stat(&frozen, path)?;
    Ok(status_text(alloc, &found)?.into_bytes())
}

/// The bytes of a file. Refused as an image that cannot be loaded, and then as `reading::read` is.
pub fn cat<D: Device>(alloc: Global, device: &mut D, path: &[u8]) -> Result<Vec<u8>, Refusal>
    // Where the device was honest it holds an image, and these are the bytes that users see of the file.
    ensures bytes { IfOk result (λ bytes. D.honest device.new → (geo : Numbers) × IsImage geo (D.image device.old)
        × AreBytesAt geo (image_view geo (D.image device.old)) path.now bytes.items) }
    ensures refused { IfErr result (λ refusal. Refuses (D.honest device.new) (D.image device.old) (Open path.now) refusal) }

    ensures reads { ReadsOnly D.honest D.image D.held device.old device.new }
{
    let frozen = load(alloc, device)?;
    reading::read(alloc, &frozen, device, path)
}

/// The names in a directory, a line for each, in the order of its slots. Refused as an image that cannot be loaded, then as
/// `reading::list` is, and where each directory below is listed as `reading::tree` is.
pub fn ls<D: Device>(
    alloc: Global,
    device: &mut D,
    path: &[u8],
    style: Style,
) -> Result<Vec<u8>, Refusal>
    // Where the device was honest it holds an image, and the lines are the names that the machine lists.
    ensures listed { (style.long ≡ false) → (style.recursive ≡ false)
        → IfOk result (λ text. D.honest device.new → IsListed (D.image device.old) path.now text.items) }
    ensures refused { IfErr result (λ refusal. (style.recursive ≡ true × refusal ≡ Refusal.Damaged)
        ⊎ Refuses (D.honest device.new) (D.image device.old) (ListNames path.now) refusal) }
    ensures cause { IsErrOf result Refusal.Device → HasFailed (D.failures device.old) (D.failures device.new) }

    ensures reads { ReadsOnly D.honest D.image D.held device.old device.new }
{
    let frozen = load(alloc, device)?;
    if style.recursive {
        return listings_text(alloc, &frozen, path, style.long);
    }
    names_text(alloc, &frozen, path, style.long)
}

/// The names in a directory, a line for each.
fn names_text(alloc: Global, frozen: &Frozen, path: &[u8], long: bool) -> Result<Vec<u8>, Refusal>
    ensures listed { long ≡ false → IfOk result (λ text. (image : List (List ℕ)) → IsKeptOf frozen.now image → IsListed image path.now text.items) }
    ensures refused { IfErr result (λ r. Replies frozen.now (ListNames path.now) (Err r)) }
    ensures device { IsErrOf result Refusal.Device → ⊥ }
{
    let names = list(alloc, frozen, path)?;
    let mut text = Vec::new(alloc);
    add_names(alloc, &mut text, frozen, names.as_slice(), long)?;
    Ok(text)
}

/// The names in a directory and in each one below it, each behind a line with its path.
fn listings_text(
    alloc: Global,
    frozen: &Frozen,
    path: &[u8],
    long: bool,
) -> Result<Vec<u8>, Refusal>
    ensures refused { IfErr result (λ r. (r ≡ Refusal.Damaged) ⊎ Replies frozen.now (ListNames path.now) (Err r)) }
    ensures device { IsErrOf result Refusal.Device → ⊥ }
{
    let listings = tree(alloc, frozen, path)?;
    let mut text = Vec::new(alloc);
    for listing in &listings {
        add_listing(alloc, &mut text, frozen, listing, long)?;
    }
    Ok(text)
}

/// Adds the names in a directory, behind a line with its path.
fn add_listing(
    alloc: Global,
    text: &mut Vec<u8>,
    frozen: &Frozen,
    listing: &Listing,
    long: bool,
) -> Result<(), AllocError> {
    write_head(text, listing)?;
    add_names(alloc, text, frozen, listing.names.as_slice(), long)
}

/// Adds a line for each name.
fn add_names(
    alloc: Global,
    text: &mut Vec<u8>,
    frozen: &Frozen,
    names: &[Named],
    long: bool,
) -> Result<(), AllocError>
    ensures { long ≡ false → OnOk result (text.new.items ≡ text.old.items ++ name_lines (map name_of names.now)) }
{
    if long {
        return write_long_names(alloc, text, frozen, names);
    }
    write_names(text, names)
}
