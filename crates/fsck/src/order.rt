ghost use Rattle.std.specs.Prelude.{◌↔◌, IfOk, IsOkUnless};
ghost use Rattle.std.specs.List.{Contains};
ghost use Rattle.std.specs.List.Sorted.{IsStrictlySortedBy};
ghost use Rattle.findings.specs.Findings.{finding_cmp};

use findings::Finding;
use layout::Refusal;
use rayon::prelude::*;
use std::alloc::Global;
use std::thread::Threads;

/// The findings in order, each once. A long list is sorted by several threads.
pub(crate) fn in_order(
    rt: &(impl Threads + Sync),
    alloc: Global,
    mut found: Vec<Finding>,
) -> Result<Vec<Finding>, Refusal>
    ensures order { IfOk result (λ sorted. IsStrictlySortedBy finding_cmp sorted.items) }
    ensures same { IfOk result (λ sorted. (f : Finding) → Contains sorted.items f ↔ Contains found.items f) }
    ensures error { IsOkUnless result Refusal.NoMemory }
{
    par_sort(rt, alloc, found.as_mut_slice())?;
    found.dedup();
    Ok(found)
}
