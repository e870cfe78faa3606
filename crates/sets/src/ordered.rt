ghost use Rattle.std.specs.Prelude.{◌↔◌, IfOk};
ghost use Rattle.std.specs.List.{Contains};
ghost use Rattle.std.specs.List.Sorted.{IsStrictlySortedBy};
ghost use Rattle.sets.specs.Ordered.{IsExact};

use std::alloc::AllocError;

/// The elements in order, each once.
pub fn in_order<T: Ord + Drop>(mut items: Vec<T>) -> Result<Vec<T>, AllocError>
    ensures order { IfOk result (λ sorted. IsStrictlySortedBy T.cmp sorted.items) }
    ensures same { IsExact T.cmp → IfOk result (λ sorted. (x : T) → Contains sorted.items x ↔ Contains items.items x) }
{
    items.sort()?;
    items.dedup();
    Ok(items)
}
