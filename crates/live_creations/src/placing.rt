ghost use Rattle.std.specs.Prelude.{◌≡◌, IfErr, IfOk, IsTrue, Some};
ghost use Rattle.frozen.specs.Kept.{frozen_view};
ghost use Rattle.machine.specs.Below.{first_of};
ghost use Rattle.model.specs.Uses.{is_directory_at};
ghost use Rattle.model.specs.View.{View};
ghost use Rattle.live_paths.specs.Shown.{IsShownBy};
ghost use Rattle.live_creations.specs.Named.{IsNewIn, naming};

use frozen::Frozen;
use layout::Refusal;
use live_paths::{Path, find, walk};

/// How many links an inode has at most.
pub(crate) const MOST_LINKS: u16 = 32767;

/// The directory in which the last part of a path may be entered as a new name. Refused with `IsRoot` for `/`, with why
/// the walk to the directory ends before, and with `Exists` where the name is there.
pub fn directory_for(frozen: &Frozen, path: &Path) -> Result<u32, Refusal>
    ensures directory { IfOk result (λ d. IsTrue (is_directory_at frozen.now.geometry (frozen_view frozen.now) d)) }
    ensures named { IfOk result (λ d. (view : View) → IsShownBy frozen.now view → IsNewIn frozen.now.geometry view path.now d) }
    ensures refused { IfErr result (λ r. (view : View) → IsShownBy frozen.now view → first_of (naming frozen.now.geometry view path.now) ≡ Some r) }
{
    let directory = walk(frozen, path)?;
    match find(frozen, directory, path.name()) {
        Some(_) => Err(Refusal::Exists),
        None => Ok(directory),
    }
}
