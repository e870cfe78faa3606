ghost use Rattle.std.specs.Prelude.{◌≡◌, [], ◌∷◌, Err, IfErr, IfOk, IsErrOf, OnOk};
ghost use Rattle.device.specs.Writes.{HasFailed};
ghost use Rattle.machine.specs.Command.{Command as Request};
ghost use Rattle.model.specs.Layout.{Geometry};
ghost use Rattle.image_changes.specs.Asking.{Adds};
ghost use Rattle.snapshot.specs.Asked.{asked};
ghost use Rattle.snapshot.specs.Between.{Applied};

use device::Device;
use layout::Refusal;
use snapshot::{Answer, Command, Volume};
use std::alloc::Global;

/// Carries out a command.
pub fn ask<D: Device>(
    alloc: Global,
    volume: &mut Volume<D>,
    command: &Command,
) -> Result<(), Refusal>
    ensures asked { OnOk result (D.honest volume.new.device → (request : Request) → ((geo : Geometry) → asked geo command.now ≡ request)
        → Adds (D.held volume.old.device) (D.image volume.old.device) volume.old (request ∷ []) (D.held volume.new.device) (D.image volume.new.device) volume.new) }
    ensures refused { IfErr result (λ r. D.honest volume.new.device → Applied D.held D.image volume.old command.now (Err r) volume.new) }
    ensures cause { IsErrOf result Refusal.Device → HasFailed (D.failures volume.old.device) (D.failures volume.new.device) }
    ensures honest { D.honest volume.new.device → D.honest volume.old.device }
{
    answer_to(alloc, volume, command)?;
    Ok(())
}

/// Carries out a command, and gives the answer.
pub fn answer_to<D: Device>(
    alloc: Global,
    volume: &mut Volume<D>,
    command: &Command,
) -> Result<Answer, Refusal>
    ensures asked { IfOk result (λ _. D.honest volume.new.device → (request : Request) → ((geo : Geometry) → asked geo command.now ≡ request)
        → Adds (D.held volume.old.device) (D.image volume.old.device) volume.old (request ∷ []) (D.held volume.new.device) (D.image volume.new.device) volume.new) }
    // What it gives is the reply to the command.
    ensures replied { D.honest volume.new.device → Applied D.held D.image volume.old command.now result volume.new }
    ensures cause { IsErrOf result Refusal.Device → HasFailed (D.failures volume.old.device) (D.failures volume.new.device) }
    ensures honest { D.honest volume.new.device → D.honest volume.old.device }
{
    volume.apply(alloc, command)
}
