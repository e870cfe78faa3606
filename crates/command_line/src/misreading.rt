ghost use Rattle.std.specs.Prelude.{◌≡◌};
ghost use Rattle.clap.specs.Values.{kind_of};
ghost use Rattle.clap.specs.declared.error.kind.ErrorKind.TheVariants.{OutOfMemory};
ghost use Rattle.failures.specs.Status.{plain};
ghost use Rattle.layout.specs.declared.refusal.Refusal.TheVariants.{NoMemory};

use clap::error::ErrorKind;
use failures::Failure;
use layout::Refusal;
use std::alloc::{AllocError, Global};

/// What `clap` says of arguments that are no line of the program, or that ask for its help or version.
pub fn misread(alloc: Global, error: &clap::Error) -> Failure
    ensures { kind_of error.now ≡ OutOfMemory → result ≡ plain NoMemory }
{
    if error.kind() == ErrorKind::OutOfMemory {
        return Failure::from(Refusal::NoMemory);
    }
    match error.to_string(alloc) {
        Ok(text) => Failure::Line(text),
        Err(AllocError) => Failure::from(Refusal::NoMemory),
    }
}
