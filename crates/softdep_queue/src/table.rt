ghost use Rattle.std.specs.Prelude.{◌≡◌, ℕ, ◌+◌, ◌<◌, ◌≤◌, List, [], ◌∷◌, Bool, IsTrue, OnOk, IfOk, MatchOption};
ghost use Rattle.std.specs.List.{Contains};
ghost use Rattle.model.specs.Layout.{Geometry as Numbers};
ghost use Rattle.ordering.specs.Cuts.{Pending};
ghost use Rattle.queue_model.specs.Entries.{Entry, Queue};
ghost use Rattle.softdep_queue.specs.Ties.{Ties, node_at};
ghost use Rattle.softdep_queue.specs.Rooms.{HasRoom};
ghost use Rattle.softdep_queue.specs.Lowering.{is_chosen, less, released, AreWaiting, MayBeLowered, MayBeReleased};

use lists::{Chain, Chains, Ready};
use updates::Update;

/// A place for an update that is pending, or was: then nothing of it is left.
#[derive(Drop)]
pub(crate) struct Node {
    /// The block in which its cell stands.
    pub(crate) home: u32,
    /// The cells that it comes after are kept, too: they are needed where the pending updates get new places.
    pub(crate) update: Option<Update>,
    /// How many pending updates it waits for. One that it was issued after twice counts twice; those of its own block that
    /// were taken do not count.
    pub(crate) waiting: usize,
    /// Whether it was taken: it is written, or about to be, and not known to be on the medium.
    pub(crate) taken: bool,
    /// The updates that wait for it, each as often as it counts it.
    pub(crate) waiters: Chain,
}

/// The updates that are pending.
#[derive(Drop)]
pub struct Table {
    /// Each update, in the order of issue. Its place is its number.
    pub(crate) nodes: Vec<Node>,
    pub(crate) chains: Chains,
    /// For each block its updates that wait for nothing and were not taken.
    pub(crate) ready: Ready,
    /// For each cell one more than the number of its last pending update, or 0.
    pub(crate) latest: Vec<u32>,
    /// What flushes took and wrote, and what is not known to be on the medium, the first taken first.
    pub(crate) taken: Vec<u32>,
    pub(crate) pending: usize,
}

impl Table {
    /// Lets those go on that wait for an update: those of this block, or those of all others.
    pub(crate) fn lower(&mut self, number: u32, address: u32, here: bool)
        requires { MayBeReleased self.old number address here }
        ensures lowered { (geo : Numbers) (queue : Queue) (q : List Pending) (due : ℕ → Entry → ℕ) (b : ℕ) (e : Entry) → Ties geo self.old queue q due
            → Contains (queue.lists b) e → e.id ≡ number
            → AreWaiting queue due address here number → Ties geo self.new queue q (released address here number due) }
        ensures room { (updates cells : ℕ) → HasRoom self.old updates cells → HasRoom self.new updates cells }
        ensures taken { self.new.taken ≡ self.old.taken }
        ensures changes { (i : ℕ) → (node_at self.new.nodes.items i).update ≡ (node_at self.old.nodes.items i).update }
    {
        let mut chain = self.nodes[number as usize].waiters;
        while let Some(link) = self.chains.first(chain) {
            chain = link.rest;
            self.lower_one(link.number, address, here);
        }
    }

    /// Lets an update wait for one less, if it is of this block, or if it is of another one.
    fn lower_one(&mut self, waiter: u32, address: u32, here: bool)
        requires { MayBeLowered self.old waiter address here }
        ensures lowered { (geo : Numbers) (queue : Queue) (q : List Pending) (due : ℕ → Entry → ℕ) (b : ℕ) (f : Entry) → Ties geo self.old queue q due
            → Contains (queue.lists b) f → f.id ≡ waiter
            → (IsTrue (is_chosen address here b) → 0 < due b f) → Ties geo self.new queue q (less address here waiter due) }
        ensures chains { self.new.chains ≡ self.old.chains }
        ensures room { (updates cells : ℕ) → HasRoom self.old updates cells → HasRoom self.new updates cells }
        ensures taken { self.new.taken ≡ self.old.taken }
        ensures nodes { (i : ℕ)
            → ((node_at self.new.nodes.items i).waiters ≡ (node_at self.old.nodes.items i).waiters)
            × ((node_at self.new.nodes.items i).update ≡ (node_at self.old.nodes.items i).update) }
    {
        let home = self.nodes[waiter as usize].home;
        if (home == address) != here {
            return;
        }
        let waiting = self.nodes[waiter as usize].waiting - 1;
        self.nodes[waiter as usize].waiting = waiting;
        if waiting == 0 {
            self.ready.push(home, waiter);
        }
    }
}
