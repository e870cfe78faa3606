ghost use Rattle.std.specs.Prelude.{◌≡◌, ◌≢◌, ℕ, ◌<◌, IfSome, IsFalse, IsTrue, MatchOption, Some, None};
ghost use Rattle.machine.specs.Causes as causes;
ghost use Rattle.machine.specs.Paths.{slot_of};
ghost use Rattle.machine.specs.Room.{has_room};
ghost use Rattle.model.specs.Reach.{slot_count};
ghost use Rattle.model.specs.Slots.{Empty, Good, number_in, slot};
ghost use Rattle.model.specs.View.{View};
ghost use Rattle.live_paths.specs.Shown.{IsShownBy};

use crate::scan::{Entry, Sought, first};
use frozen::Frozen;

/// The first entry of this name in a directory; `None` where there is none, or the number is no sound directory's.
pub fn find(frozen: &Frozen, directory: u32, name: &[u8]) -> Option<Entry>
    ensures found { (view : View) → IsShownBy frozen.now view → MatchOption result (slot_of frozen.now.geometry view directory name.now ≡ None)
        (λ e. (slot_of frozen.now.geometry view directory name.now ≡ Some e.slot) × (number_in (slot frozen.now.geometry view directory e.slot) ≡ e.number)) }
    ensures entry { (view : View) → IsShownBy frozen.now view → IfSome result (λ e. slot frozen.now.geometry view directory e.slot ≡ Good e.number name.now) }
    ensures within { IfSome result (λ e. e.slot < slot_count frozen.now.geometry) }
{
    first(frozen, directory, &Sought::Name(name))
}

/// The first empty slot of a directory; `None` where no slot is empty. Past the blocks that a directory has there are no
/// slots, so a full directory may still have room for one more block.
pub fn empty_slot(frozen: &Frozen, directory: u32) -> Option<u32>
    ensures found { (view : View) → IsShownBy frozen.now view → MatchOption result (IsFalse (has_room frozen.now.geometry view directory))
        (λ s. (s < slot_count frozen.now.geometry) × (slot frozen.now.geometry view directory s ≡ Empty) × ((t : ℕ) → t < s → slot frozen.now.geometry view directory t ≢ Empty)) }
    ensures room { (view : View) → IsShownBy frozen.now view → IfSome result (λ s. IsTrue (has_room frozen.now.geometry view directory)) }
{
    let found = first(frozen, directory, &Sought::Room)?;
    Some(found.slot)
}

/// Whether a directory has a name besides the dots.
pub fn has_names(frozen: &Frozen, directory: u32) -> bool
    ensures { (view : View) → IsShownBy frozen.now view → result ≡ causes.has_names frozen.now.geometry view directory }
{
    first(frozen, directory, &Sought::AnyName).is_some()
}
