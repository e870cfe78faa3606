ghost use Rattle.std.specs.Prelude.{◌≡◌, [], Err, IfErr, IfOk};
ghost use Rattle.model.specs.Layout.{root};
ghost use Rattle.model.specs.View.{View};
ghost use Rattle.machine.specs.Paths.{target};
ghost use Rattle.live_paths.specs.Shown.{IsShownBy};
ghost use Rattle.live_plans.specs.Found.{IsFoundAt};

use dirent::SLOTS;
use frozen::Frozen;
use layout::Refusal;
use live_paths::{Path, find, walk};

/// The entry that a path leads to.
#[derive(Clone, Copy, Debug, PartialEq, Eq)]
pub struct Found {
    /// The directory in which it stands.
    pub directory: u32,
    /// Its slot, counted through the whole directory.
    pub slot: u32,
    /// The address of the directory's block in which the slot stands.
    pub block: u32,
    /// The number that it names.
    pub number: u32,
}

/// The entry that a path leads to which is not `/`, or why it leads nowhere.
pub fn locate(frozen: &Frozen, path: &Path) -> Result<Found, Refusal>
    requires { path.now ≡ [] → ⊥ }
    ensures found { IfOk result (λ found. (view : View) → IsShownBy frozen.now view → IsFoundAt frozen.now.geometry view path.now found) }
    ensures refused { IfErr result (λ r. (view : View) → IsShownBy frozen.now view → target frozen.now.geometry view path.now ≡ Err r) }
{
    let directory = walk(frozen, path)?;
    let Some(entry) = find(frozen, directory, path.name()) else {
        return Err(Refusal::NotFound);
    };
    match frozen.claim_at(directory, entry.slot / SLOTS as u32) {
        Some(block) => Ok(Found {
            directory,
            slot: entry.slot,
            block,
            number: entry.number,
        }),
        None => unreachable!(),
    }
}
