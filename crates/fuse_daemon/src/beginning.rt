//! Which service of a volume it is.
ghost use Rattle.shared.specs.Opened.{Opened};

use std::marker::Brand;

/// Which service of a volume it is. A lock lets nothing be known of a value but what its type says; so a type says what is known of
/// the volume with which the service began. It exists in proofs alone, and whoever serves a volume picks it.
pub trait Beginning {
    /// What is known of that volume.
    ghost begins: { Opened → Type 0 };
}

impl Beginning for Brand {
    ghost begins = { λ opened. ⊥ };
}
