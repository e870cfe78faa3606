ghost use Rattle.std.specs.Prelude.{◌≡◌, [], IfErr, IfOk};
ghost use Rattle.machine.specs.Command.{Number, Open};
ghost use Rattle.live_states.specs.Holdings.{Holdings as Held};
ghost use Rattle.live_states.specs.Planned.{IsFirstCauseWith, IsQuietlyDone};
ghost use Rattle.live_holdings.specs.Handles.{IsFreeHandle, IsOpened};

use layout::Refusal;
use live_holdings::Holdings;
use live_paths::{Path, target};
use metadata::Metadata;

/// A file that is to be opened.
#[derive(Clone, Copy, Debug, PartialEq, Eq)]
pub struct Opening {
    /// The handle.
    pub handle: u32,
    /// The file's number.
    pub number: u32,
}

/// The file of a path, and the least handle that is not open. Refused in this order with `BadName` where the bytes are no
/// path, with why the path leads nowhere, with `IsDirectory` where it leads to a directory, and with `TooManyOpen` where
/// 1,024 handles are open.
pub fn opening_of(metadata: &Metadata, holdings: &Holdings, path: &[u8]) -> Result<Opening, Refusal>
    ensures handle { IfOk result (λ opening. IsFreeHandle holdings.now opening.handle) }
    ensures opens { IfOk result (λ opening. (after : Held) → IsOpened holdings.now opening.handle opening.number after
        → IsQuietlyDone metadata.now holdings.now [] (Open path.now) (Number opening.handle) after) }
    ensures refused { IfErr result (IsFirstCauseWith metadata.now holdings.now (Open path.now)) }
{
    let frozen = metadata.frozen();
    let path = Path::parse(path)?;
    let number = target(frozen, &path)?;
    if frozen.is_directory_at(number) {
        return Err(Refusal::IsDirectory);
    }
    match holdings.free_handle() {
        Some(handle) => Ok(Opening { handle, number }),
        None => Err(Refusal::TooManyOpen),
    }
}
