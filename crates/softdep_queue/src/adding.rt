ghost use Rattle.std.specs.Prelude.{◌≡◌, ℕ, ◌+◌, ◌<◌, ◌≤◌, ◌^◌, Bool, false, List, [], ◌∷◌, length, map, OnOk, IfOk};
ghost use Rattle.std.specs.List.{All};
ghost use Rattle.model.specs.Layout.{Geometry as Numbers};
ghost use Rattle.ordering.specs.Cuts.{Pending, cell_of};
ghost use Rattle.queue_model.specs.Blocks.{home_of};
ghost use Rattle.queue_model.specs.Entries.{Queue, empty_queue, issued};
ghost use Rattle.updates.specs.Values.{cell};
ghost use Rattle.updates.specs.Places.{IsCell, IsUpdate};
ghost use Rattle.softdep_queue.specs.Ties.{Holds};
ghost use Rattle.softdep_queue.specs.Rooms.{HasRoom, IsTable};
ghost use Rattle.softdep_queue.specs.Moving.{IsCompact};
ghost use Rattle.softdep_queue.specs.Adding.{update_of, lasts, is_own, counted, MayStand, MayWait, IsBehind};

use crate::table::{Node, Table};
use layout::Geometry;
use lists::{Chain, Chains, Ready};
use std::alloc::{AllocError, Global};
use updates::{Cell, Update, places};

impl Table {
    /// The table in which nothing is pending.
    pub fn new(alloc: Global, geometry: &Geometry) -> Result<Table, AllocError>
        ensures { IfOk result (λ table. Holds geometry.now table empty_queue [] []) }
    {
        Ok(Table {
            nodes: Vec::new(alloc),
            chains: Chains::new(alloc),
            ready: Ready::new(alloc, geometry.blocks())?,
            latest: vec![in alloc; 0; places(geometry)]?,
            taken: Vec::new(alloc),
            pending: 0,
        })
    }

    /// Takes memory for so many updates more, which come after so many cells in all, their own counted.
    pub(crate) fn reserve(&mut self, updates: usize, cells: usize) -> Result<(), AllocError>
        ensures room { OnOk result (HasRoom self.new updates cells) }
        ensures few { OnOk result (IsCompact self.old → IsCompact self.new) }
        ensures held { (geo : Numbers) (queue : Queue) (q : List Pending) (loose : List Bool) → Holds geo self.old queue q loose → Holds geo self.new queue q loose }
    {
        self.nodes.reserve(updates)?;
        let numbers = self.nodes.len().saturating_add(updates);
        self.taken.reserve(numbers)?;
        self.ready.make_room(numbers)?;
        self.chains.reserve(cells)
    }

    /// Where nothing is pending, forgets what was: the numbers begin anew. The memory is kept.
    pub fn begin_anew(&mut self)
        ensures { (geo : Numbers) (queue : Queue) (q : List Pending) (loose : List Bool) → Holds geo self.old queue q loose
            → (queue' : Queue) × Holds geo self.new queue' q loose }
    {
        if self.pending == 0 {
            self.nodes.clear();
            self.chains.clear();
        }
    }

    /// Adds an update, which waits for the last pending one of its own cell and of each that it comes after, but not for
    /// one of its own block that is written: this block's next write holds both.
    pub fn add(&mut self, geometry: &Geometry, update: Update)
        requires held { IsTable geometry.now self.old }
        requires cells { IsUpdate geometry.now update }
        requires room { HasRoom self.old 1 (1 + length update.after.items) }
        ensures held { (queue : Queue) (q : List Pending) (loose : List Bool) → Holds geometry.now self.old queue q loose
            → Holds geometry.now self.new (issued (home_of geometry.now) (update_of update) queue) (update_of update ∷ q) (false ∷ loose) }
        ensures room { (updates cells : ℕ) → HasRoom self.old (updates + 1) (cells + (1 + length update.after.items)) → HasRoom self.new updates cells }
        ensures stack { MayStand self.old self.new (home_of geometry.now (cell_of (update_of update).change)) }
    {
        let number = self.nodes.len() as u32;
        let own = update.change.cell();
        let home = own.home(geometry);
        let waiting = self.wait(geometry, home, own, update.after.as_slice(), number);
        self.latest[own.place(geometry)] = number + 1;
        if waiting == 0 {
            self.ready.push(home, number);
        }
        self.nodes.push_reserved(Node {
            home,
            update: Some(update),
            waiting,
            taken: false,
            waiters: Chain::empty(),
        });
        self.pending += 1;
    }

    /// Puts an update of a block behind the last pending one of its own cell and of each of these, and says for how many
    /// of them it waits.
    fn wait(
        &mut self,
        geometry: &Geometry,
        home: u32,
        own: Cell,
        after: &[Cell],
        number: u32,
    ) -> usize
        requires held { IsTable geometry.now self.old }
        requires own { IsCell geometry.now (cell own) }
        requires after { All (IsCell geometry.now) (map cell after.now) }
        requires room { 1 + length after.now ≤ self.old.chains.room }
        ensures behind { IsBehind self.old self.new number (lasts geometry.now self.old (cell own ∷ map cell after.now)) }
        ensures count { result ≡ counted self.old home (lasts geometry.now self.old (cell own ∷ map cell after.now)) }
        ensures few { 1 + length after.now < 2 ^ 64 }
    {
        let mut waiting = self.wait_for(geometry, home, own, number);
        for earlier in after {
            waiting += self.wait_for(geometry, home, *earlier, number);
        }
        waiting
    }

    /// Puts an update of a block behind the last pending one of a cell, if there is one, and says for how many it waits.
    fn wait_for(&mut self, geometry: &Geometry, home: u32, earlier: Cell, number: u32) -> usize
        requires cell { IsCell geometry.now (cell earlier) }
        requires last { MayWait geometry.now self.old (cell earlier) }
        ensures behind { IsBehind self.old self.new number (lasts geometry.now self.old (cell earlier ∷ [])) }
        ensures count { result ≡ counted self.old home (lasts geometry.now self.old (cell earlier ∷ [])) }
    {
        let last = self.latest[earlier.place(geometry)];
        if last == 0 {
            return 0;
        }
        let place = (last - 1) as usize;
        let own = self.is_own(place, home);
        let waiters = self.nodes[place].waiters;
        self.nodes[place].waiters = self.chains.put(number, waiters);
        if own { 0 } else { 1 }
    }

    /// Whether an update was taken, and is of this block.
    fn is_own(&self, place: usize, home: u32) -> bool
        requires { place < length self.now.nodes.items }
        ensures { result ≡ is_own self.now home place }
    {
        let node = &self.nodes[place];
        node.taken && node.home == home
    }
}
