ghost use Rattle.std.specs.Prelude.{◌≡◌, ℕ, ◌<◌, Bool, IfSome, IsTrue, List, [], ◌∷◌, length, MatchOption};
ghost use Rattle.model.specs.Layout.{Geometry as Numbers, block_count, is_data_address};
ghost use Rattle.model.specs.Cells.{Update};
ghost use Rattle.ordering.specs.Cuts.{Pending};
ghost use Rattle.queue_model.specs.Entries.{Entry, Queue};
ghost use Rattle.lists.specs.Stacks.{stack_at, count_of};
ghost use Rattle.updates.specs.Alone.{IsPutInto};
ghost use Rattle.softdep_queue.specs.Ties.{Holds, Takes, IsTaking, Shows, node_at};
ghost use Rattle.softdep_queue.specs.Rooms.{HasRoom, IsTable};
ghost use Rattle.softdep_queue.specs.Taking.{TakesNext, TakesOne, TakesAll, ShowsCell};

use crate::Table;
use layout::{Block, Geometry};

impl Table {
    /// Takes each update of a block that may go there over what is on the medium and was not taken, puts them into the
    /// block, and counts them. Those that were taken from this block before do not hold others back: its next write holds
    /// them, too. Those that wait for another block's wait until these are on the medium.
    pub fn take(&mut self, geometry: &Geometry, address: u32, block: &mut Block) -> usize
        requires held { IsTable geometry.now self.old }
        requires address { address < block_count geometry.now }
        ensures { (queue : Queue) (q : List Pending) (loose : List Bool) → Holds geometry.now self.old queue q loose
            → TakesAll geometry.now queue q loose address self.new block.old block.new result }
    {
        if geometry.place_of(address).is_some() {
            return self.take_whole(geometry, address, block);
        }
        self.take_parts(geometry, address, block)
    }

    /// The same for any block: each update is put into it.
    fn take_parts(&mut self, geometry: &Geometry, address: u32, block: &mut Block) -> usize
        requires held { IsTable geometry.now self.old }
        requires address { address < block_count geometry.now }
        ensures { (queue : Queue) (q : List Pending) (loose : List Bool) → Holds geometry.now self.old queue q loose
            → TakesAll geometry.now queue q loose address self.new block.old block.new result }
    {
        let mut count = 0;
        while self.take_one(geometry, address, block) {
            count += 1;
        }
        count
    }

    /// The same for a data block. Each update gives all of its bytes, so only the last one that is taken is put into it.
    fn take_whole(&mut self, geometry: &Geometry, address: u32, block: &mut Block) -> usize
        requires held { IsTable geometry.now self.old }
        requires address { address < block_count geometry.now }
        requires data_block { IsTrue (is_data_address geometry.now address) }
        ensures { (queue : Queue) (q : List Pending) (loose : List Bool) → Holds geometry.now self.old queue q loose
            → TakesAll geometry.now queue q loose address self.new block.old block.new result }
    {
        geometry.blocks(); // for the proof: its clause `geometry`
        let mut last = None;
        let mut count = 0;
        while let Some(number) = self.take_next(address) {
            last = Some(number);
            count += 1;
        }
        self.put_last(geometry, last, block);
        count
    }

    /// Puts the change of an update, where there is one, into the block in which its cell stands.
    fn put_last(&self, geometry: &Geometry, last: Option<u32>, block: &mut Block)
        requires { IfSome last (λ number. ShowsCell geometry.now self.now number) }
        ensures { MatchOption last (block.new ≡ block.old)
            (λ number. (u : Update) → Shows (node_at self.now.nodes.items number).update u → IsPutInto geometry.now u block.old block.new) }
    {
        if let Some(number) = last {
            self.put(geometry, number, block);
        }
    }

    /// Takes an update of a block that waits for nothing but what was taken, and puts it into the block. Answers whether
    /// there was one.
    fn take_one(&mut self, geometry: &Geometry, address: u32, block: &mut Block) -> bool
        requires held { IsTaking geometry.now self.old }
        requires address { address < count_of self.old.ready }
        ensures { (queue : Queue) (q : List Pending) (es : List Entry) → Takes geometry.now self.old queue q es
            → TakesOne geometry.now queue q address es self.new block.old block.new result }
    {
        let Some(number) = self.take_next(address) else {
            return false;
        };
        self.put(geometry, number, block);
        true
    }

    /// Takes an update of a block that waits for nothing but what was taken, and says which one: the last that became
    /// ready.
    pub(crate) fn take_next(&mut self, address: u32) -> Option<u32>
        requires held { (geo : Numbers) × IsTaking geo self.old }
        requires address { address < count_of self.old.ready }
        ensures next { (geo : Numbers) (queue : Queue) (q : List Pending) (es : List Entry) → Takes geo self.old queue q es
            → TakesNext geo queue q address es self.old self.new result }
        ensures top { MatchOption result (stack_at self.old.ready address ≡ [])
            (λ number. (rest : List ℕ) × (stack_at self.old.ready address ≡ number ∷ rest)) }
        ensures room { (updates cells : ℕ) → HasRoom self.old updates cells → HasRoom self.new updates cells }
    {
        let Some(number) = self.ready.pop(address) else {
            return None;
        };
        self.taken.push_reserved(number);
        self.nodes[number as usize].taken = true;
        self.lower(number, address, true);
        Some(number)
    }

    /// Puts the change of an update into the block in which its cell stands.
    fn put(&self, geometry: &Geometry, number: u32, block: &mut Block)
        requires { ShowsCell geometry.now self.now number }
        ensures { (u : Update) → Shows (node_at self.now.nodes.items number).update u → IsPutInto geometry.now u block.old block.new }
    {
        if let Some(update) = &self.nodes[number as usize].update {
            update.change.put(geometry, block);
        }
    }
}
