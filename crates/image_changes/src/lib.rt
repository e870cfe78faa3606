//! Commands that are carried out on a mounted volume, one after another, until one is refused; then all is written, or blocks are
//! flushed.
#![tactic(auto)]

ghost use Rattle.std.specs.Prelude.{◌≡◌, ◌⊎◌, Err, IfErr, IfOk, IsErrOf, IsOkUnless, OnErr, OnOk, length, map, take};
ghost use Rattle.device.specs.Writes.{HasFailed};
ghost use Rattle.frozen.specs.Loading.{GivesOut};
ghost use Rattle.image_changes.specs.Changes.{Changes, Writes};
ghost use Rattle.image_changes.specs.Refused.{BlamesBeforeSync, BlamesRightly, FailedToWrite, IsNotWritten};
ghost use Rattle.image_changes.specs.Stops.{IsOutcome, StopsAtRefusal};
ghost use Rattle.snapshot.specs.Asked.{asked};
ghost use Rattle.snapshot.specs.Between.{Applied};
ghost use Rattle.snapshot.specs.Goes.{Runs};
ghost use Rattle.snapshot.specs.declared.command.Command.TheVariants.{Sync};

mod asking;
mod flushing;
mod mounted;

pub use asking::{answer_to, ask};
use device::Device;
pub use flushing::{flush_in_passes, flush_ready};
use layout::Refusal;
pub use mounted::{Changed, NotChanged, Refused, change_device, mount, mount_by};
use snapshot::{Command, Reply, Volume};
use std::alloc::Global;

/// Carries out commands up to the first one that is refused, and gives the replies; then all is written. Refused with `NoMemory`
/// before anything is carried out, and with `Device` or `NoMemory` where not all could be written: what was written
/// before stays written.
pub fn change<D: Device>(
    alloc: Global,
    volume: &mut Volume<D>,
    commands: &[Command],
) -> Result<Vec<Reply>, Refusal>
    // The volume went through these commands with these replies, and then through a sync.
    ensures changed { IfOk result (λ replies. D.honest volume.new.device → Changes (D.held volume.old.device) (D.image volume.old.device) volume.old
        (take (length replies.items) commands.now) replies.items (D.held volume.new.device) (D.image volume.new.device) volume.new) }
    // Each was carried out, or each but the last, which was refused.
    ensures stopped { IfOk result (λ replies. StopsAtRefusal (length commands.now) replies.items) }
    // If the last reply blames the device, it failed in that command.
    ensures blames { IfOk result (λ replies. BlamesBeforeSync D.honest D.held D.image D.failures volume.old commands.now replies.items volume.new) }
    // Refused, nothing was done; or so it went as far as the sync, which was refused.
    ensures went { IfErr result (λ r. D.honest volume.new.device → (volume.new ≡ volume.old) ⊎ IsNotWritten D.held D.image volume.old commands.now r volume.new) }
    ensures error { IfErr result (λ r. D.honest volume.new.device → GivesOut r) }
    ensures cause { IsErrOf result Refusal.Device → FailedToWrite D.honest D.held D.image D.failures volume.old commands.now volume.new }
    ensures honest { D.honest volume.new.device → D.honest volume.old.device }
{
    let replies = carry_out(alloc, volume, commands)?;
    write_all(alloc, volume)?;
    Ok(replies)
}

/// Carries out commands up to the first one that is refused, and gives the replies. Refused with `NoMemory` alone, and then
/// none was carried out.
pub fn carry_out<D: Device>(
    alloc: Global,
    volume: &mut Volume<D>,
    commands: &[Command],
) -> Result<Vec<Reply>, Refusal>
    ensures ran { IfOk result (λ replies. D.honest volume.new.device
        → Runs (D.held volume.old.device) (D.image volume.old.device) volume.old (map (asked volume.old.kept.geometry) (take (length replies.items) commands.now)) replies.items
        (D.held volume.new.device) (D.image volume.new.device) volume.new) }
    ensures stopped { IfOk result (λ replies. StopsAtRefusal (length commands.now) replies.items) }
    // If the last reply blames the device, it failed in that command.
    ensures blames { IfOk result (λ replies. BlamesRightly D.honest D.held D.image D.failures volume.old commands.now replies.items volume.new) }
    ensures untouched { OnErr result (volume.new ≡ volume.old) }
    ensures error { IsOkUnless result Refusal.NoMemory }
    ensures honest { D.honest volume.new.device → D.honest volume.old.device }
{
    let mut replies = Vec::with_capacity(alloc, commands.len())?;
    for command in commands {
        match volume.apply(alloc, command) {
            Ok(answer) => replies.push(Ok(answer))?,
            Err(refusal) => {
                replies.push(Err(refusal))?;
                return Ok(replies);
            }
        }
    }
    Ok(replies)
}

/// Writes all that is pending. Refused with `Device` and `NoMemory`; what was written before stays written.
pub fn write_all<D: Device>(alloc: Global, volume: &mut Volume<D>) -> Result<(), Refusal>
    ensures written { OnOk result (D.honest volume.new.device
        → Writes (D.held volume.old.device) (D.image volume.old.device) volume.old (D.held volume.new.device) (D.image volume.new.device) volume.new) }
    ensures went { IfErr result (λ r. D.honest volume.new.device → Applied D.held D.image volume.old Sync (Err r) volume.new) }
    ensures error { IfErr result (λ r. D.honest volume.new.device → GivesOut r) }
    ensures cause { IsErrOf result Refusal.Device → HasFailed (D.failures volume.old.device) (D.failures volume.new.device) }
    ensures honest { D.honest volume.new.device → D.honest volume.old.device }
{
    volume.live(); // for the proof: its clause `balance`
    volume.apply(alloc, &Command::Sync)?;
    Ok(())
}

/// How many commands were carried out, and why the next one was refused, if it was.
#[derive(Clone, Copy, Debug, PartialEq, Eq)]
pub struct Outcome {
    pub done: usize,
    pub refused: Option<Refusal>,
}

/// What these replies to commands say.
pub fn outcome_of(replies: &[Reply]) -> Outcome
    ensures { IsOutcome replies.now result.done result.refused }
{
    let Some((last, before)) = replies.split_last() else {
        return Outcome {
            done: 0,
            refused: None,
        };
    };
    match last {
        Ok(_answer) => Outcome {
            done: replies.len(),
            refused: None,
        },
        Err(refusal) => Outcome {
            done: before.len(),
            refused: Some(*refusal),
        },
    }
}
