ghost use Rattle.std.specs.Prelude.{◌≡◌, ℕ, [], IfOk, IfSome, IsOkUnless, MatchOption, ◌<◌, length};
ghost use Rattle.model.specs.Layout.{block_count};
ghost use Rattle.layout.specs.declared.refusal.Refusal.TheVariants.{NoMemory};
ghost use Rattle.std.specs.Prelude.{IsTrue};
ghost use Rattle.std.specs.Option.{option_copied};
ghost use Rattle.model.specs.Layout.{is_data_address};
ghost use Rattle.softdep_queue.specs.Contents.{last_bytes};
ghost use Rattle.queue_model.specs.Flush.{taken};
ghost use Rattle.softdep.specs.Queued.{fresh_queue, pending_of, AreClosed, IsLeastNext, IsNext, NothingNext, NothingNextFrom};

use http_server::Log;
use layout::{BLOCK_BYTES, Block, Geometry, Refusal};
use softdep_queue::Table;
use std::alloc::Global;
use std::marker::Model;
use updates::Update;

/// What a history tells besides a command's updates.
#[derive(Drop)]
pub(crate) enum Kind {
    /// The updates were issued.
    Issued,
    /// A block was written with all that may go there over what is durable.
    Wrote(u32),
    /// The device has told that all that was written is durable.
    Settled,
}

/// The updates that were issued and are not known to be durable: those that are pending, and those that were written since the
/// device last told that all had reached its medium. It keeps a history of what was issued, written and settled, which only
/// clauses read.
pub struct Queue {
    pub(crate) geometry: Geometry,
    pub(crate) table: Table,
    pub(crate) events: Log<Vec<Update>, Kind>,
    /// No updates, for the history.
    pub(crate) none: Vec<Update>,
    /// Room for the block that a flush writes.
    pub(crate) block: Block,
}

/// By hand, so that who drops it goes one step and not one for each field.
impl Drop for Queue {
    fn drop(self) {
        let Queue {
            geometry: _,
            table: _,
            events: _,
            none: _,
            block: _,
        } = self;
    }
}

impl Model for Queue {
    ghost use Rattle.softdep.specs.Queued.{Queued, IsQueue, after, fresh_queue};

    ghost Value = { Queued };

    ghost view = { λ queue. after (fresh_queue queue.geometry) queue.events.items };

    ghost invariant = { λ queue. IsQueue queue.geometry queue.table (after (fresh_queue queue.geometry) queue.events.items) };
}

impl Queue {
    /// A queue of a volume, with nothing issued. Takes memory for the places of the volume's cells and blocks.
    pub fn new(alloc: Global, geometry: Geometry) -> Result<Queue, Refusal>
        ensures fresh { IfOk result (λ queue. queue ≡ fresh_queue geometry) }
        ensures error { IsOkUnless result Refusal.NoMemory }
    {
        Ok(Queue {
            geometry,
            table: Table::new(alloc, &geometry)?,
            events: Log::new(),
            none: Vec::new(alloc),
            block: [0; BLOCK_BYTES],
        })
    }

    /// The geometry of the volume.
    pub fn geometry(&self) -> Geometry
        ensures { result ≡ self.now.geometry }
    {
        self.geometry
    }

    /// How many updates are pending: those that are not written.
    pub fn pending(&self) -> usize
        ensures count { result ≡ length (pending_of self.now) }
        ensures closed { AreClosed self.now }
    {
        self.table.pending() - self.table.loose()
    }

    /// How many updates are written, and not known to be durable.
    pub(crate) fn loose(&self) -> usize
        ensures { result ≡ taken self.now.loose }
    {
        self.table.loose()
    }

    /// The least block of which a flush writes something; `None` where there is none: then nothing is pending, or what is
    /// waits until what is written of other blocks is durable.
    pub fn least_ready(&self) -> Option<u32>
        ensures least { MatchOption result (NothingNext self.now) (λ address. IsLeastNext self.now address) }
        ensures on_volume { IfSome result (λ address. address < block_count self.now.geometry) }
        ensures closed { AreClosed self.now }
    {
        self.table.least_ready()
    }

    /// The least block of which a flush writes something, of this one and those above it.
    pub fn next_ready(&self, from: u32) -> Option<u32>
        ensures next { MatchOption result (NothingNextFrom self.now from) (λ address. IsNext self.now from address) }
        ensures on_volume { IfSome result (λ address. address < block_count self.now.geometry) }
        ensures closed { AreClosed self.now }
    {
        self.table.next_ready(from)
    }

    /// The bytes that the last pending update of a data block gives it; `None` where no update of it is pending.
    pub fn contents(&self, address: u32) -> Option<&Block>
        requires { IsTrue (is_data_address self.now.geometry address) }
        ensures { option_copied result ≡ last_bytes (pending_of self.now) address }
    {
        self.table.contents(&self.geometry, address)
    }
}
