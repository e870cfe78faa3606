ghost use Rattle.std.specs.Prelude.{◌≡◌, [], length};
ghost use Rattle.std.specs.Option.{option_map_or};
ghost use Rattle.live_states.specs.Holdings.{Repairs};
ghost use Rattle.live_states.specs.Snapshots.{places};
ghost use Rattle.live.specs.Places.{Ascend};
ghost use Rattle.snapshot.specs.Goes.{HasBeside};

use device::Device;
use live::Live;
use std::marker::Model;

/// A mounted volume of which snapshots are taken. Where its device was honest so far, it is in balance: everything that is
/// marked or counted in it is in use, held for a snapshot, or owed a repair.
#[derive(Drop)]
pub struct Volume<D: Device> {
    pub(crate) live: Live<D>,
}

impl<D: Device> Model for Volume<D> {
    ghost use Rattle.live.specs.Alive.{Alive};
    ghost use Rattle.snapshot.specs.Goes.{HasBeside};

    ghost Value = { Alive D };

    ghost view = { λ volume. volume.live };

    ghost invariant = { λ volume. D.honest volume.live.device → HasBeside (D.image volume.live.device) volume.live };
}

impl<D: Device> Volume<D> {
    /// A mounted volume of which no snapshot stands. A check that is installed in it stays, and its repairs can be carried out.
    pub fn new(live: Live<D>) -> Volume<D>
        requires none { live.holdings.snapshots.standing ≡ [] }
        ensures { result ≡ live }
    {
        live.device(); // for the proof: its clause `stands`
        Volume { live }
    }

    /// The mounted volume.
    pub fn live(&self) -> &Live<D>
        ensures live { result.now ≡ self.now }
        ensures balance { D.honest self.now.device → HasBeside (D.image self.now.device) self.now }
    {
        &self.live
    }

    /// The numbers of the snapshots that stand, in ascending order, and then empty places.
    pub fn standing(&self) -> [Option<u64>; 4]
        ensures numbers { result ≡ places self.now.holdings.snapshots.standing }
        ensures ascending { Ascend result }
    {
        self.live.standing()
    }

    /// How many repairs the check has that is installed: 0 where none is.
    pub fn plan_len(&self) -> usize
        ensures { result ≡ option_map_or (λ (repairs : Repairs). length repairs.list) self.now.holdings.repairs 0 }
    {
        self.live.repair_count().unwrap_or(0)
    }
}
