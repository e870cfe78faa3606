ghost use Rattle.std.specs.Prelude.{◌≡◌, ℕ, ◌<◌, ◌==◌, Bool, List, IsTrue, length};
ghost use Rattle.std.specs.List.{Contains};
ghost use Rattle.model.specs.Layout.{Geometry as Numbers};
ghost use Rattle.ordering.specs.Cuts.{Pending};
ghost use Rattle.queue_model.specs.Entries.{Entry, Queue};
ghost use Rattle.softdep_queue.specs.Ties.{Holds, node_at};
ghost use Rattle.softdep_queue.specs.Taking.{HasTaken};
ghost use Rattle.softdep_queue.specs.Returning.{ShowsAll, more, held, AreFree, MayBeRaised, MayBeHeld, MayBeGivenBack};

use crate::table::Table;

impl Table {
    /// Puts back so many updates, which were taken last, from this block: the block could not be written. What was taken
    /// before is written, and stays so.
    pub fn give_back(&mut self, address: u32, count: usize)
        requires { MayBeGivenBack self.old address count }
        ensures { (geo : Numbers) (queue : Queue) (q : List Pending) (loose : List Bool) → HasTaken geo self.old queue q loose address count
            → Holds geo self.new queue q loose }
    {
        let first = self.taken.len() - count;
        for k in first..self.taken.len() {
            let number = self.taken[k];
            if self.nodes[number as usize].waiting == 0 {
                self.ready.push(address, number);
            }
            self.raise(number, address);
            self.nodes[number as usize].taken = false;
        }
        self.taken.truncate(first);
    }

    /// Lets those of a block that were issued after an update wait for it again.
    fn raise(&mut self, number: u32, address: u32)
        requires { MayBeHeld self.old number address }
        ensures raised { (geo : Numbers) (queue : Queue) (q : List Pending) (due : ℕ → Entry → ℕ) (b : ℕ) (e : Entry) → ShowsAll geo self.old queue q due
            → Contains (queue.lists b) e → e.id ≡ number
            → AreFree queue due address number → ShowsAll geo self.new queue q (held address number due) }
        ensures ready { self.new.ready ≡ self.old.ready }
        ensures taken { self.new.taken ≡ self.old.taken }
        ensures flags { (i : ℕ) → (node_at self.new.nodes.items i).taken ≡ (node_at self.old.nodes.items i).taken }
    {
        let mut chain = self.nodes[number as usize].waiters;
        while let Some(link) = self.chains.first(chain) {
            chain = link.rest;
            self.raise_one(link.number, address);
        }
    }

    /// Lets an update wait for one more, if it is of this block.
    fn raise_one(&mut self, waiter: u32, address: u32)
        requires { MayBeRaised self.old waiter address }
        ensures raised { (geo : Numbers) (queue : Queue) (q : List Pending) (due : ℕ → Entry → ℕ) (b : ℕ) (f : Entry) → ShowsAll geo self.old queue q due
            → Contains (queue.lists b) f → f.id ≡ waiter
            → (IsTrue (b == address) → due b f < length f.waits) → ShowsAll geo self.new queue q (more address waiter due) }
        ensures chains { self.new.chains ≡ self.old.chains }
        ensures ready { self.new.ready ≡ self.old.ready }
        ensures taken { self.new.taken ≡ self.old.taken }
        ensures flags { (i : ℕ) → (node_at self.new.nodes.items i).taken ≡ (node_at self.old.nodes.items i).taken }
    {
        if self.nodes[waiter as usize].home == address {
            self.nodes[waiter as usize].waiting += 1;
        }
    }
}
