//! Which of the rules that soft updates leave is broken on an image.
#![tactic(auto)]

ghost use Rattle.std.specs.Prelude.{◌≡◌, min, IfOk, IsOkUnless, MatchOption};
ghost use Rattle.std.specs.List.{filter_map, reduce};
ghost use Rattle.model.specs.Rules.{IsLeastBroken, ObeysRules};
ghost use Rattle.frozen.specs.Kept.{frozen_view};
ghost use Rattle.rules.specs.Broken.{rule_broken};

use findings::Finding;
use frozen::Frozen;
use layout::Refusal;
use std::alloc::Global;

mod loading;

pub use loading::load_sound;

/// The least number of a rule that the image breaks, from 1 to 8; `None` where it obeys all of them. Only `NoMemory` is
/// refused.
pub fn obeys(alloc: Global, frozen: &Frozen) -> Result<Option<u8>, Refusal>
    ensures obeys { IfOk result (λ least. MatchOption least (ObeysRules frozen.now.geometry (frozen_view frozen.now))
        (λ rule. IsLeastBroken frozen.now.geometry (frozen_view frozen.now) rule)) }
    ensures error { IsOkUnless result Refusal.NoMemory }
{
    let found = fsck::find(alloc, frozen)?;
    Ok(least_rule(found.as_slice()))
}

/// The least of the rules that these findings show broken.
fn least_rule(findings: &[Finding]) -> Option<u8>
    ensures { result ≡ reduce min (filter_map rule_broken findings.now) }
{
    findings
        .iter()
        .filter_map(|finding| rule_broken(finding))
        .min()
}

/// The rule that a finding shows broken; one of a soft kind shows none.
fn rule_broken(finding: &Finding) -> Option<u8>
    ensures { result ≡ rule_broken finding.now }
{
    match finding {
        Finding::RootBad => Some(1),
        Finding::BadInode(_) => Some(2),
        Finding::BadPointer(..) | Finding::Duplicate(..) | Finding::UnmarkedBlock(_) => Some(3),
        Finding::UnmarkedInode(_) => Some(4),
        Finding::BadDot(_) | Finding::BadDotDot(_) => Some(5),
        Finding::BadSlot(..) | Finding::DupName(..) | Finding::ToUnsound(..) => Some(6),
        Finding::ExtraName(..) => Some(7),
        Finding::CountLow(..) => Some(8),
        Finding::LostInode(_)
        | Finding::CountHigh(..)
        | Finding::LostBlock(_)
        | Finding::LostNumber(_) => None,
    }
}
