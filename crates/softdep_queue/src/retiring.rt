ghost use Rattle.std.specs.Prelude.{◌≡◌, ℕ, ◌<◌, Bool, List, length};
ghost use Rattle.model.specs.Layout.{Geometry as Numbers};
ghost use Rattle.model.specs.Cells.{Update};
ghost use Rattle.updates.specs.Places.{place_of, place_count};
ghost use Rattle.ordering.specs.Cuts.{Pending, cell_of, rest};
ghost use Rattle.queue_model.specs.Entries.{Entry, Queue};
ghost use Rattle.queue_model.specs.History.{none_of};
ghost use Rattle.softdep_queue.specs.Rooms.{IsTable};
ghost use Rattle.softdep_queue.specs.Ties.{Holds, Takes, IsTaking, Shows, node_at};
ghost use Rattle.softdep_queue.specs.Retiring.{IsReleased, IsStruck, AreStruck, HasReleased};
ghost use Rattle.softdep_queue.specs.Taking.{ShowsCell};

use crate::Table;
use layout::Geometry;
use spares::Spares;
use updates::{Change, cells_have_places_of_their_own};

impl Table {
    /// Strikes out what was taken, once all that was written is on the medium: what waited for it may go now. The bytes'
    /// memory is spare then.
    pub fn settle(&mut self, geometry: &Geometry, spares: &mut Spares)
        requires { IsTable geometry.now self.old }
        ensures { (queue : Queue) (q : List Pending) (loose : List Bool) → Holds geometry.now self.old queue q loose
            → (queue' : Queue) × Holds geometry.now self.new queue' (rest q loose) (none_of (rest q loose)) }
    {
        self.release();
        self.strike_all(geometry, spares);
        self.pending -= self.taken.len();
        self.taken.clear();
    }

    /// Lets those go on that wait for what was taken of another block.
    fn release(&mut self)
        requires { (geo : Numbers) × IsTaking geo self.old }
        ensures { (geo : Numbers) (queue : Queue) (q : List Pending) (ws : List Entry) → Takes geo self.old queue q ws → IsReleased geo self.new queue q ws }
    {
        let mut left = self.taken.len();
        while left > 0 {
            left -= 1;
            let number = self.taken[left];
            let home = self.nodes[number as usize].home;
            self.lower(number, home, false);
        }
    }

    /// Strikes out what was taken: it is on the medium. The bytes' memory is spare then.
    fn strike_all(&mut self, geometry: &Geometry, spares: &mut Spares)
        requires { HasReleased geometry.now self.old }
        ensures { (queue : Queue) (q : List Pending) (ws : List Entry) → IsReleased geometry.now self.old queue q ws
            → AreStruck geometry.now self.old self.new queue ws }
    {
        geometry.blocks(); // for the proof: its clause `geometry`
        cells_have_places_of_their_own();
        let mut left = self.taken.len();
        while left > 0 {
            left -= 1;
            let number = self.taken[left];
            self.strike(geometry, number, spares);
        }
    }

    /// Strikes out an update. The memory of the bytes that it gives is spare then.
    fn strike(&mut self, geometry: &Geometry, number: u32, spares: &mut Spares)
        requires shows { ShowsCell geometry.now self.old number }
        requires places { length self.old.latest.items ≡ place_count geometry.now }
        ensures struck { (u : Update) → Shows (node_at self.old.nodes.items number).update u → IsStruck geometry.now self.old self.new number (cell_of u) }
        ensures in_table { (u : Update) → Shows (node_at self.old.nodes.items number).update u → place_of geometry.now (cell_of u) < place_count geometry.now }
        ensures taken { self.new.taken ≡ self.old.taken }
    {
        let place = self.place_of(geometry, number);
        if u64::from(self.latest[place]) == u64::from(number) + 1 {
            self.latest[place] = 0;
        }
        if let Some(update) = self.nodes[number as usize].update.take() {
            spare_bytes(update.change, spares);
        }
    }

    /// The place of the cell that an update changes.
    fn place_of(&self, geometry: &Geometry, number: u32) -> usize
        requires { ShowsCell geometry.now self.now number }
        ensures place { (u : Update) → Shows (node_at self.now.nodes.items number).update u → result ≡ place_of geometry.now (cell_of u) }
        ensures in_table { result < place_count geometry.now }
    {
        match &self.nodes[number as usize].update {
            Some(update) => update.change.cell().place(geometry),
            None => unreachable!(),
        }
    }
}

/// The memory of the bytes that a change gives is spare.
fn spare_bytes(change: Change, spares: &mut Spares) {
    if let Change::SetBytes(_, block) = change {
        spares.add(block);
    }
}
