ghost use Rattle.std.specs.Prelude.{◌↔◌, IfOk, IsOkUnless};
ghost use Rattle.std.specs.List.{Contains};
ghost use Rattle.std.specs.List.Sorted.{IsStrictlySortedBy};
ghost use Rattle.findings.specs.Findings.{finding_cmp};

use crate::finding::Finding;
use layout::Refusal;

/// The findings in order, each once.
pub fn in_order(found: Vec<Finding>) -> Result<Vec<Finding>, Refusal>
    ensures order { IfOk result (λ sorted. IsStrictlySortedBy finding_cmp sorted.items) }
    ensures same { IfOk result (λ sorted. (f : Finding) → Contains sorted.items f ↔ Contains found.items f) }
    ensures error { IsOkUnless result Refusal.NoMemory }
{
    Ok(sets::in_order(found)?)
}
