ghost use Rattle.std.specs.Prelude.{◌≡◌, ℕ, Err, IfErr, IfOk, IsErrOf, List, Ok, map};
ghost use Rattle.frozen.specs.Kept.{IsKeptOf, frozen_view};
ghost use Rattle.live_paths.specs.Listed.{name_of};
ghost use Rattle.machine.specs.Command.{ListNames, Listed, Stat, Status};
ghost use Rattle.model.specs.Image.{image_view};
ghost use Rattle.reading.specs.Replies.{Leads, Replies, WhyNot};

use frozen::Frozen;
use inode::{ATTRIBUTES, DIRECT_POINTERS, FREE, Record};
use layout::{ROOT, Refusal};
use live_paths::{Named, Path, names, target};
use std::alloc::Global;

/// What a path leads to.
#[derive(Clone, Copy, Debug, PartialEq, Eq)]
pub struct Found {
    /// The number of the inode.
    pub number: u32,
    /// Its record.
    pub record: Record,
}

/// What a path leads to. Refused with `BadName` where this is no path, and with `NotFound` or `NotDirectory` where it
/// leads nowhere.
pub fn stat(frozen: &Frozen, path: &[u8]) -> Result<Found, Refusal>
    ensures found { IfOk result (λ found. Replies frozen.now (Stat path.now) (Ok (Status found.number found.record.mode found.record.links found.record.size))) }
    ensures refused { IfErr result (λ r. Replies frozen.now (Stat path.now) (Err r)) }
    ensures device { IsErrOf result Refusal.Device → ⊥ }
{
    let number = find(frozen, path)?;
    Ok(Found {
        number,
        record: record_of(frozen, number),
    })
}

/// The names in a directory, but for its dots, in the order of its slots. Refused as `stat` is, and with `NotDirectory` where
/// the path leads to no directory.
pub fn list(alloc: Global, frozen: &Frozen, path: &[u8]) -> Result<Vec<Named>, Refusal>
    ensures listed { IfOk result (λ names. Replies frozen.now (ListNames path.now) (Ok (Listed (map name_of names.items)))) }
    ensures refused { IfErr result (λ r. Replies frozen.now (ListNames path.now) (Err r)) }
    ensures device { IsErrOf result Refusal.Device → ⊥ }
{
    let directory = find(frozen, path)?;
    if !frozen.is_directory_at(directory) {
        return Err(Refusal::NotDirectory);
    }
    Ok(names(alloc, frozen, directory)?)
}

/// The number that a path leads to.
pub(crate) fn find(frozen: &Frozen, path: &[u8]) -> Result<u32, Refusal>
    ensures found { IfOk result (λ number. (image : List (List ℕ)) → IsKeptOf frozen.now image
        → Leads frozen.now.geometry (image_view frozen.now.geometry image) path.now number) }
    ensures refused { IfErr result (λ r. (image : List (List ℕ)) → IsKeptOf frozen.now image
        → WhyNot frozen.now.geometry (image_view frozen.now.geometry image) path.now r) }
    ensures device { IsErrOf result Refusal.Device → ⊥ }
{
    let path = Path::parse(path)?;
    target(frozen, &path)
}

/// The record of a number; a free one where the volume has no such number.
pub fn record_of(frozen: &Frozen, number: u32) -> Record
    ensures { result ≡ (frozen_view frozen.now).inode number }
{
    if number < ROOT || number >= frozen.geometry().inodes() {
        return Record {
            mode: FREE,
            links: 0,
            size: 0,
            direct: [0; DIRECT_POINTERS],
            indirect: 0,
            double: 0,
            attributes: [0; ATTRIBUTES],
        };
    }
    frozen.record(number)
}
