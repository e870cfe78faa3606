ghost use Rattle.std.specs.Prelude.{◌≡◌, ℕ, Bool, List, All, OnOk, OnErr, IsOkUnless, IfSome, length, map};
ghost use Rattle.ordering.specs.Cuts.{Pending};
ghost use Rattle.queue_model.specs.Entries.{Queue as Entries};
ghost use Rattle.softdep_queue.specs.Ties.{Holds};
ghost use Rattle.softdep_queue.specs.Rooms.{IsTable, HasRoom};
ghost use Rattle.layout.specs.declared.refusal.Refusal.TheVariants.{NoMemory};
ghost use Rattle.updates.specs.Places.{IsUpdate};
ghost use Rattle.updates.specs.Values.{written};
ghost use Rattle.softdep.specs.Queued.{issued, added, unmarked, pending_of, cells_of};

use crate::Queue;
use crate::queue::Kind;
use layout::{Geometry, Refusal};
use softdep_queue::Table;
use updates::Update;

impl Queue {
    /// Issues a command's updates, the first first, all or none. Each comes after the last pending update of its own cell
    /// and of each cell that it names, those earlier in the list among them. The memory is bounded by what is pending at
    /// once and by the volume's places, however much was issued: `Table::make_room` has the bound.
    pub fn issue(&mut self, updates: Vec<Update>) -> Result<(), Refusal>
        requires { All (IsUpdate self.old.geometry) updates.items }
        ensures issued { OnOk result (self.new ≡ issued self.old (map written updates.items)) }
        ensures pending { OnOk result (pending_of self.new ≡ added (pending_of self.old) (map written updates.items)) }
        ensures refused { OnErr result (self.new ≡ self.old) }
        ensures error { IsOkUnless result Refusal.NoMemory }
    {
        let cells = cells_in(updates.as_slice()).ok_or(Refusal::NoMemory)?;
        self.table.begin_anew();
        self.table.make_room(&self.geometry, updates.len(), cells)?;
        self.events = self.events.and(&updates, &Kind::Issued);
        add_all(&mut self.table, &self.geometry, updates);
        Ok(())
    }
}

/// Adds these updates, the first first.
fn add_all(table: &mut Table, geometry: &Geometry, updates: Vec<Update>)
    requires held { IsTable geometry.now table.old }
    requires cells { All (IsUpdate geometry.now) updates.items }
    requires room { HasRoom table.old (length updates.items) (cells_of updates.items) }
    ensures { (entries : Entries) (q : List Pending) (loose : List Bool) → Holds geometry.now table.old entries q loose
        → (entries' : Entries) × Holds geometry.now table.new entries' (added q (map written updates.items)) (unmarked loose (map written updates.items)) }
{
    for update in updates {
        table.add(geometry, update);
    }
}

/// How many cells these updates change or come after; `None` where there are too many to count.
fn cells_in(updates: &[Update]) -> Option<usize>
    ensures { IfSome result (λ cells. cells ≡ cells_of updates.now) }
{
    let mut cells: usize = 0;
    for update in updates {
        cells = cells.checked_add(update.after.len())?.checked_add(1)?;
    }
    Some(cells)
}
