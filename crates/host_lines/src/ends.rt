//! How lines end that move files between the host and an image.
ghost use Rattle.std.specs.Prelude.{◌≡◌, [], IfErr, IfOk, IsErrOf};

use command_line::{Answer, Failure};
use std::alloc::Global;

/// What a line comes to that prints nothing.
pub fn silent(alloc: Global, done: Result<(), Failure>) -> Result<Answer, Failure>
    ensures status { IfOk result (λ answer. answer.status ≡ 0) }
    ensures silent { IfOk result (λ answer. answer.text.items ≡ []) }
    ensures refused { IfErr done (λ failure. IsErrOf result failure) }
{
    match done {
        Ok(()) => Ok(Answer::nothing(alloc)),
        Err(failure) => Err(failure),
    }
}

/// What a line comes to that prints this.
pub(crate) fn printed(text: Result<Vec<u8>, Failure>) -> Result<Answer, Failure>
    ensures { IfOk result (λ answer. answer.status ≡ 0) }
{
    match text {
        Ok(text) => Ok(Answer::of_text(text)),
        Err(failure) => Err(failure),
    }
}
