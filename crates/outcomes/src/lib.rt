//! Outcomes of calls that are made while a large value is at hand.
#![tactic(auto)]

ghost use Rattle.std.specs.Prelude.{◌≡◌, Err, IfErr, IfOk, Ok};

/// The value of an outcome together with another value, which is let go where the outcome has none.
///
/// A `?` behind it has nothing to let go: the prover writes out how a value goes at each `?` that it stands over, and here
/// it does so once.
pub fn with<T: Drop, V: Drop, E>(outcome: Result<T, E>, other: V) -> Result<(T, V), E>
    ensures ok { IfOk result (λ both. (outcome ≡ Ok both.0) × (both.1 ≡ other)) }
    ensures err { IfErr result (λ error. outcome ≡ Err error) }
{
    match outcome {
        Ok(value) => Ok((value, other)),
        Err(error) => Err(error),
    }
}
