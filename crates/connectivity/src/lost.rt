ghost use Rattle.std.specs.Prelude.{◌≡◌, IfOk, IsOkUnless};
ghost use Rattle.frozen.specs.Kept.{frozen_view};
ghost use Rattle.findings.specs.Findings.{AreFindingsOf, is_of_connectivity};
ghost use Rattle.model.specs.Reached.{AreReached};
ghost use Rattle.connectivity.specs.Walk.{is_lost_among};

use findings::Finding;
use frozen::Frozen;
use layout::Refusal;
use sets::Members;
use std::alloc::Global;

/// The sound inodes that are not reachable, in order of their numbers.
pub fn findings(alloc: Global, frozen: &Frozen, reached: &Members) -> Result<Vec<Finding>, Refusal>
    ensures found { IfOk result (λ found. AreReached frozen.now.geometry (frozen_view frozen.now) reached.now
        → AreFindingsOf is_of_connectivity frozen.now.geometry (frozen_view frozen.now) found.items) }
    ensures error { IsOkUnless result Refusal.NoMemory }
{
    let inodes = frozen.geometry().inodes();
    let mut found = Vec::new(alloc);
    for number in 0..inodes {
        if is_lost(frozen, number, reached) {
            found.push(Finding::LostInode(number))?;
        }
    }
    Ok(found)
}

/// Whether the number is that of a sound inode which is not among those that are reached.
fn is_lost(frozen: &Frozen, number: u32, reached: &Members) -> bool
    ensures { result ≡ is_lost_among frozen.now.geometry (frozen_view frozen.now) reached.now number }
{
    frozen.is_sound_at(number) && !reached.has(number)
}
