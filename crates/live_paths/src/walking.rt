ghost use Rattle.std.specs.Prelude.{◌≡◌};
ghost use Rattle.frozen.specs.Kept.{frozen_view};
ghost use Rattle.machine.specs.Paths as machine;
ghost use Rattle.model.specs.Layout.{root};
ghost use Rattle.model.specs.View.{View};
ghost use Rattle.live_paths.specs.Parts.{pieces};
ghost use Rattle.live_paths.specs.Shown.{IsShownBy};
ghost use Rattle.live_paths.specs.Walks.{last_of, named_of, next_of};

use crate::lookup::find;
use crate::path::{Path, split_first_piece};
use frozen::Frozen;
use layout::{ROOT, Refusal};

/// The directory that holds the last part of a path, or why the walk to it ends before.
pub fn walk(frozen: &Frozen, path: &Path) -> Result<u32, Refusal>
    ensures { (view : View) → IsShownBy frozen.now view → result ≡ machine.walk frozen.now.geometry view root path.now }
{
    if path.is_root() {
        return Err(Refusal::IsRoot);
    }
    holder(frozen, path.tail())
}

/// What a path leads to, or why it leads nowhere.
pub fn target(frozen: &Frozen, path: &Path) -> Result<u32, Refusal>
    ensures { (view : View) → IsShownBy frozen.now view → result ≡ machine.target frozen.now.geometry view path.now }
{
    if path.is_root() {
        return Ok(ROOT);
    }
    let directory = walk(frozen, path)?;
    named(frozen, directory, path.name())
}

/// The directory that holds the last of the parts between the `/` of these bytes.
fn holder(frozen: &Frozen, bytes: &[u8]) -> Result<u32, Refusal>
    ensures { result ≡ machine.walk frozen.now.geometry (frozen_view frozen.now) root (pieces bytes.now) }
{
    let mut directory = ROOT;
    let mut rest = bytes;
    'pieces: loop {
        let (name, behind) = split_first_piece(rest);
        let Some(after) = behind else {
            return last(frozen, directory);
        };
        directory = next(frozen, directory, name)?;
        rest = after;
    }
}

/// What the walk has reached before the last part, which has to be a directory.
fn last(frozen: &Frozen, reached: u32) -> Result<u32, Refusal>
    ensures { result ≡ last_of frozen.now.geometry (frozen_view frozen.now) reached }
{
    if frozen.is_directory_at(reached) {
        Ok(reached)
    } else {
        Err(Refusal::NotDirectory)
    }
}

/// What a name stands for in what the walk has reached, which has to be a directory.
fn next(frozen: &Frozen, reached: u32, name: &[u8]) -> Result<u32, Refusal>
    ensures { result ≡ next_of frozen.now.geometry (frozen_view frozen.now) reached name.now }
{
    if !frozen.is_directory_at(reached) {
        return Err(Refusal::NotDirectory);
    }
    named(frozen, reached, name)
}

/// What a name stands for in a directory.
fn named(frozen: &Frozen, directory: u32, name: &[u8]) -> Result<u32, Refusal>
    ensures { (view : View) → IsShownBy frozen.now view → result ≡ named_of frozen.now.geometry view directory name.now }
{
    match find(frozen, directory, name) {
        Some(entry) => Ok(entry.number),
        None => Err(Refusal::NotFound),
    }
}
