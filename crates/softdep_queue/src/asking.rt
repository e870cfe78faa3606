ghost use Rattle.std.specs.Prelude.{◌≡◌, ℕ, ◌<◌, Bool, List, true, false, IfSome, MatchOption};
ghost use Rattle.model.specs.Layout.{Geometry as Numbers, block_count};
ghost use Rattle.ordering.specs.Cuts.{Pending, rest};
ghost use Rattle.queue_model.specs.Blocks.{home_of};
ghost use Rattle.queue_model.specs.Flush.{taken};
ghost use Rattle.queue_model.specs.Entries.{Queue};
ghost use Rattle.lists.specs.Stacks.{count_of};
ghost use Rattle.softdep_queue.specs.Ties.{Holds};
ghost use Rattle.std.specs.Prelude.{IsTrue, Some};
ghost use Rattle.model.specs.Cells.{SetBytes};
ghost use Rattle.softdep_queue.specs.Ties.{Shows};
ghost use Rattle.std.specs.Option.{option_copied};
ghost use Rattle.model.specs.Layout.{is_data_address};
ghost use Rattle.softdep_queue.specs.Rooms.{IsTable};
ghost use Rattle.softdep_queue.specs.Contents.{last_bytes};
ghost use Rattle.softdep_queue.specs.Next.{to_write, HasToWrite, IsLeastToWrite, IsNextToWrite, NothingToWrite, NothingToWriteFrom};

use crate::Table;
use layout::{Block, Geometry};
use updates::{Cell, Change, Update};

impl Table {
    /// How many updates are pending.
    pub fn pending(&self) -> usize
        ensures { result ≡ self.now.pending }
    {
        self.pending
    }

    /// How many of them were taken: they are written, and not known to be on the medium.
    pub fn loose(&self) -> usize
        ensures { (geo : Numbers) (queue : Queue) (q : List Pending) (loose : List Bool) → Holds geo self.now queue q loose → result ≡ taken loose }
    {
        self.taken.len()
    }

    /// Whether an update of a block may go there and was not written.
    pub fn has_ready(&self, address: u32) -> bool
        requires { address < count_of self.now.ready }
        ensures some { (geo : Numbers) (queue : Queue) (q : List Pending) (loose : List Bool) → Holds geo self.now queue q loose → result ≡ true
            → HasToWrite (home_of geo) q loose address }
        ensures none { (geo : Numbers) (queue : Queue) (q : List Pending) (loose : List Bool) → Holds geo self.now queue q loose → result ≡ false
            → taken (to_write (home_of geo) address q loose) ≡ 0 }
    {
        !self.ready.is_empty(address)
    }

    /// The least block with an update that may go there and was not written.
    pub fn least_ready(&self) -> Option<u32>
        ensures least { (geo : Numbers) (queue : Queue) (q : List Pending) (loose : List Bool) → Holds geo self.now queue q loose
            → MatchOption result (NothingToWrite (home_of geo) q loose) (λ address. IsLeastToWrite (home_of geo) q loose address) }
        ensures on_volume { IfSome result (λ address. address < count_of self.now.ready) }
    {
        self.ready.least()
    }

    /// The least block with an update that may go there and was not written, of this one and those above it.
    pub fn next_ready(&self, from: u32) -> Option<u32>
        ensures next { (geo : Numbers) (queue : Queue) (q : List Pending) (loose : List Bool) → Holds geo self.now queue q loose
            → MatchOption result (NothingToWriteFrom (home_of geo) q loose from) (λ address. IsNextToWrite (home_of geo) q loose from address) }
        ensures on_volume { IfSome result (λ address. address < count_of self.now.ready) }
    {
        self.ready.next(from)
    }

    /// The bytes that the last pending update of a data block gives it, if it was not taken; `None` where none is pending but
    /// what was taken: the device has that.
    pub fn contents(&self, geometry: &Geometry, address: u32) -> Option<&Block>
        requires address { IsTrue (is_data_address geometry.now address) }
        requires held { IsTable geometry.now self.now }
        ensures { (queue : Queue) (q : List Pending) (loose : List Bool) → Holds geometry.now self.now queue q loose
            → option_copied result ≡ last_bytes (rest q loose) address }
    {
        let last = self.latest[Cell::Block(address).place(geometry)];
        if last == 0 {
            return None;
        }
        let node = &self.nodes[(last - 1) as usize];
        if node.taken {
            return None;
        }
        bytes_in(&node.update)
    }
}

/// The bytes of an update of a whole block.
fn bytes_in(update: &Option<Update>) -> Option<&Block>
    ensures { (a : ℕ) (bytes : List ℕ) → Shows update.now (SetBytes a bytes) → option_copied result ≡ Some bytes }
{
    let Some(update) = update else {
        return None;
    };
    match &update.change {
        Change::SetBytes(_, bytes) => Some(bytes),
        _ => None,
    }
}
