//! Which sharing of a volume it is.
ghost use Rattle.std.specs.Prelude.{ℕ};
ghost use Rattle.shared.specs.Opened.{Opened};

use std::marker::Brand;
use std::sync::ledger::Ledger;

/// Which sharing of a volume it is, beside the ledger of its repairs. A lock lets nothing be known of a value but what its type
/// says; so a type says what each call of one sharing may rely on. It exists in proofs alone, and whoever shares a volume
/// picks it.
pub trait Sharing: Ledger {
    /// How many calls the trace has room for.
    ghost limit: { ℕ };
    /// What is known of the volume that was shared.
    ghost opens: { Opened → Type 0 };
}

impl Sharing for Brand {
    ghost limit = { 0 };

    ghost opens = { λ opened. ⊥ };
}

/// A sharing of which the trace may be emptied. What is not bound to be one, as `Shared::close` and `Shared::flush_some`, cannot
/// empty it.
pub trait Rotating: Sharing {}

impl Rotating for Brand {}
