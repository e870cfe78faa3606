//! Metadata that were loaded and obey the rules.
ghost use Rattle.std.specs.Prelude.{◌≡◌, length, IfErr, IfOk, IsErrOf, OnOk};
ghost use Rattle.model.specs.Layout.{block_count};
ghost use Rattle.model.specs.Rules.{ObeysRules};
ghost use Rattle.device.specs.Reading.{ReadsOnly};
ghost use Rattle.device.specs.Writes.{HasFailed};
ghost use Rattle.frozen.specs.Kept.{IsKeptOf, frozen_view};
ghost use Rattle.rules.specs.Loading.{LoadSoundRefuses};

use crate::obeys;
use device::Device;
use frozen::{Frozen, load};
use layout::Refusal;
use std::alloc::Global;

/// Loads a device's metadata, and refuses those that break a rule: with `BadLength`, `BadSuper`, `BadGroup`, `Device` or
/// `NoMemory` as an image that cannot be loaded, and then with `Damaged`. It writes nothing.
pub fn load_sound<D: Device>(alloc: Global, device: &mut D) -> Result<Frozen, Refusal>
    ensures reads { ReadsOnly D.honest D.image D.held device.old device.new }
    ensures ok { IfOk result (λ frozen. D.honest device.new → IsKeptOf frozen (D.image device.old)) }
    ensures count { IfOk result (λ frozen. length (D.image device.old) ≡ block_count frozen.geometry) }
    ensures obeys { IfOk result (λ frozen. ObeysRules frozen.geometry (frozen_view frozen)) }
    ensures refused { IfErr result (LoadSoundRefuses (D.honest device.new) (D.image device.old)) }
    ensures cause { IsErrOf result Refusal.Device → HasFailed (D.failures device.old) (D.failures device.new) }
    ensures failures { OnOk result (D.failures device.new ≡ D.failures device.old) }
{
    let frozen = load(alloc, device)?;
    if obeys(alloc, &frozen)?.is_some() {
        return Err(Refusal::Damaged);
    }
    Ok(frozen)
}
