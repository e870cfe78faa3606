ghost use Rattle.std.specs.Prelude.{◌≡◌};
ghost use Rattle.live.specs.Ended.{ended};

use live_holdings::Holdings;

/// What a command ends besides its updates.
#[derive(Clone, Copy, Debug, PartialEq, Eq)]
pub(crate) enum Ending {
    /// Nothing.
    Nothing,
    /// This handle is closed.
    Handle(u32),
    /// The repair of this place is done.
    Repair(u32),
}

/// Ends it in what is open and held.
pub(crate) fn end(holdings: &mut Holdings, ending: Ending)
    ensures { holdings.new ≡ ended holdings.old ending }
{
    match ending {
        Ending::Nothing => {}
        Ending::Handle(handle) => holdings.close(Some(handle)),
        Ending::Repair(place) => holdings.finish(place),
    }
}
