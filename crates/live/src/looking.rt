ghost use Rattle.std.specs.Prelude.{◌≡◌, IfErr, IfOk, Ok, map};
ghost use Rattle.live_paths.specs.Listed.{name_of};
ghost use Rattle.machine.specs.Command.{ListNames, Listed, Stat, Status as StatusOf};
ghost use Rattle.live_states.specs.Planned.{IsRefused};
ghost use Rattle.live.specs.Alive.{IsFirstCause, MayRefuse};
ghost use Rattle.live.specs.Kinds.{kind_of, mode_of};
ghost use Rattle.live.specs.Seen.{Tells};

use crate::Live;
use device::Device;
use inode::Record;
use layout::Refusal;
use live_paths::{Named, Path, names, target};
use std::alloc::Global;

/// What an inode can be.
#[derive(Clone, Copy, Debug, PartialEq, Eq)]
pub enum Kind {
    File,
    Directory,
}

/// What an inode is.
#[derive(Clone, Copy, Debug, PartialEq, Eq)]
pub struct Status {
    /// Its number.
    pub number: u32,
    pub kind: Kind,
    /// How many entries name it.
    pub links: u16,
    /// How many bytes it has.
    pub size: u32,
}

impl<D: Device> Live<D> {
    /// The names in a directory, but for its dots, in the order of its slots. Refused with `BadName` where this is no path,
    /// with `NotFound` or `NotDirectory` where it leads nowhere, and with `NotDirectory` where it leads to no directory.
    pub fn list(&self, alloc: Global, path: &[u8]) -> Result<Vec<Named>, Refusal>
        ensures listed { IfOk result (λ names. D.honest self.now.device → Tells D.image self.now (ListNames path.now) (Listed (map name_of names.items))) }
        ensures refused { IfErr result (λ r. D.honest self.now.device → MayRefuse (D.image self.now.device) self.now (ListNames path.now) r) }
        ensures cause { IfErr result (IsRefused self.now.kept (ListNames path.now)) }
    {
        let frozen = self.metadata.frozen();
        let path = Path::parse(path)?;
        let directory = target(frozen, &path)?;
        if !frozen.is_directory_at(directory) {
            return Err(Refusal::NotDirectory);
        }
        Ok(names(alloc, frozen, directory)?)
    }

    /// What a path leads to. Refused with `BadName` where this is no path, and with `NotFound` or `NotDirectory` where it
    /// leads nowhere.
    pub fn stat(&self, path: &[u8]) -> Result<Status, Refusal>
        ensures status { IfOk result (λ status. D.honest self.now.device
            → Tells D.image self.now (Stat path.now) (StatusOf status.number (mode_of status.kind) status.links status.size)) }
        ensures refused { IfErr result (λ r. D.honest self.now.device → MayRefuse (D.image self.now.device) self.now (Stat path.now) r) }
        ensures cause { IfErr result (IsFirstCause self.now.kept (Stat path.now)) }
    {
        let frozen = self.metadata.frozen();
        let path = Path::parse(path)?;
        let number = target(frozen, &path)?;
        let record = frozen.record(number);
        Ok(Status {
            number,
            kind: kind_of(&record),
            links: record.links,
            size: record.size,
        })
    }
}

/// The kind of a sound record.
fn kind_of(inode: &Record) -> Kind
    ensures { result ≡ kind_of inode.now }
{
    if inode.is_directory() {
        Kind::Directory
    } else {
        Kind::File
    }
}
