ghost use Rattle.std.specs.Prelude.{◌≡◌, ℕ, ◌+◌, ◌≤◌, Bool, List, [], ◌∷◌, length, OnOk, IfOk, IfSome, false};
ghost use Rattle.ordering.specs.Cuts.{Pending};
ghost use Rattle.queue_model.specs.Entries.{Queue};
ghost use Rattle.softdep_queue.specs.Ties.{Holds, shown_by};
ghost use Rattle.softdep_queue.specs.Rooms.{HasRoom, IsTable};
ghost use Rattle.softdep_queue.specs.Moving.{cells_of, taken_by, most_places, IsCompact, IsClosedByBlocks, HoldsAlone, AreUpdates};
ghost use Rattle.softdep_queue.specs.Adding.{update_of};
ghost use Rattle.queue_model.specs.Blocks.{home_of};
ghost use Rattle.updates.specs.Places.{IsUpdate};

use crate::table::{Node, Table};
use layout::Geometry;
use std::alloc::AllocError;
use std::mem;
use updates::Update;

/// A table has a place for each 16 of the volume's cells, whether as many updates are pending or not.
const CELLS_A_PLACE: usize = 16;

/// So many places each table may have besides.
const FEW_PLACES: usize = 64;

impl Table {
    /// Makes room for so many updates more, which come after so many cells in all, their own counted. Where more than half
    /// of the places, and more than a part of the volume's cells, are of updates that are on the device, the pending ones
    /// move together into a table of their own, in the order of their issue: so the memory is bounded by what is pending at
    /// once. A move takes time for each place and each cell; since the last one at least half as many updates as there are
    /// places, and a 32nd of as many as there are cells, went to the device, so it is a constant for each.
    pub fn make_room(
        &mut self,
        geometry: &Geometry,
        updates: usize,
        cells: usize,
    ) -> Result<(), AllocError>
        requires { IsTable geometry.now self.old }
        ensures room { OnOk result (HasRoom self.new updates cells) }
        ensures few { OnOk result (IsCompact self.new) }
        ensures held { (queue : Queue) (q : List Pending) (loose : List Bool) → Holds geometry.now self.old queue q loose
            → (queue' : Queue) × Holds geometry.now self.new queue' q loose }
    {
        if self.is_sparse() {
            self.move_together(geometry)?;
        }
        self.reserve(updates, cells)
    }

    /// Whether too many places are of updates that are on the device.
    fn is_sparse(&self) -> bool
        ensures { result ≡ false → IsCompact self.now }
    {
        self.nodes.len() > self.most_places()
    }

    /// How many places the table may have.
    fn most_places(&self) -> usize
        ensures { result ≤ most_places self.now }
    {
        let own = self.latest.len() / CELLS_A_PLACE;
        self.pending
            .saturating_mul(2)
            .saturating_add(own)
            .saturating_add(FEW_PLACES)
    }

    /// Moves the pending updates into a table that has no other places.
    fn move_together(&mut self, geometry: &Geometry) -> Result<(), AllocError>
        requires { IsTable geometry.now self.old }
        ensures few { OnOk result (IsCompact self.new) }
        ensures held { (queue : Queue) (q : List Pending) (loose : List Bool) → Holds geometry.now self.old queue q loose
            → (queue' : Queue) × Holds geometry.now self.new queue' q loose }
    {
        let fresh = self.fresh(geometry)?;
        let Table { nodes, .. } = mem::replace(self, fresh);
        self.add_all(geometry, nodes);
        Ok(())
    }

    /// A table in which nothing is pending, with room for what is pending in this one.
    fn fresh(&self, geometry: &Geometry) -> Result<Table, AllocError>
        ensures alone { IfOk result (λ table. HoldsAlone geometry.now table [] []) }
        ensures room { IfOk result (λ table. HasRoom table self.now.pending (cells_of self.now.nodes.items)) }
    {
        let cells = self.cells().ok_or(AllocError)?;
        let mut table = Table::new(*self.nodes.allocator(), geometry)?;
        table.reserve(self.pending, cells)?;
        Ok(table)
    }

    /// How many cells the pending updates change or come after; `None` where there are too many to count.
    fn cells(&self) -> Option<usize>
        ensures { IfSome result (λ cells. cells ≡ cells_of self.now.nodes.items) }
    {
        let mut cells: usize = 0;
        for node in &self.nodes {
            if let Some(update) = &node.update {
                cells = cells.checked_add(update.after.len())?.checked_add(1)?;
            }
        }
        Some(cells)
    }

    /// Adds the updates of these nodes, the first first, and takes those again that were taken.
    fn add_all(&mut self, geometry: &Geometry, nodes: Vec<Node>)
        requires alone { HoldsAlone geometry.now self.old [] [] }
        requires cells { AreUpdates geometry.now nodes.items }
        requires closed { IsClosedByBlocks (home_of geometry.now) (shown_by nodes.items (length nodes.items)) (taken_by nodes.items (length nodes.items)) }
        requires room { HasRoom self.old (length (shown_by nodes.items (length nodes.items))) (cells_of nodes.items) }
        ensures { HoldsAlone geometry.now self.new (shown_by nodes.items (length nodes.items)) (taken_by nodes.items (length nodes.items)) }
    {
        for node in nodes {
            let taken = node.taken;
            if let Some(update) = node.update {
                self.add_again(geometry, update, taken);
            }
        }
    }

    /// Adds an update, and takes it if it was taken: then it waits for nothing but what was taken of its block, and stands
    /// ready behind no other.
    fn add_again(&mut self, geometry: &Geometry, update: Update, taken: bool)
        requires cells { IsUpdate geometry.now update }
        requires alone { (q : List Pending) × (loose : List Bool) × HoldsAlone geometry.now self.old q loose }
        requires room { HasRoom self.old 1 (1 + length update.after.items) }
        ensures held { (q : List Pending) (loose : List Bool) → HoldsAlone geometry.now self.old q loose
            → IsClosedByBlocks (home_of geometry.now) (update_of update ∷ q) (taken ∷ loose) → HoldsAlone geometry.now self.new (update_of update ∷ q) (taken ∷ loose) }
        ensures room { (updates cells : ℕ) → HasRoom self.old (updates + 1) (cells + (1 + length update.after.items)) → HasRoom self.new updates cells }
    {
        let home = update.change.cell().home(geometry);
        self.add(geometry, update);
        if taken {
            self.take_next(home);
        }
    }
}
