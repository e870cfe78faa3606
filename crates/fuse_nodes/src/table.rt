//! The table, by the numbers of inodes.
ghost use Rattle.std.specs.Prelude.{◌≡◌, ℕ, ◌<◌, ◌≤◌, ◌-◌, ◌^◌, ◌++◌, ◌↔◌, IfOk, IfSome, OnErr, OnOk, IsSome, IsTrue, Ok, Err, List, None, Some, length, nat_lt, option_map};
ghost use Rattle.fuse_nodes.specs.Known.{Named, named, released_by};
ghost use Rattle.fuse_nodes.specs.Table.{Born, Closed, Event, Forgot, Got, Lost, Opened, Table, Told, after, found, found_known, id_of, known, new_table, path_of};
ghost use Rattle.fuse_nodes.specs.Runs.{StaysItself, StaysKnown, after_all};
ghost use Rattle.fuse_nodes.specs.declared.table.ToldError.TheVariants.{NoMemory, NoMoreNumbers};

use crate::known::{Node, Open};
use fuse_wire::NodeId;
use std::alloc::{AllocError, Global};
use std::marker::Model;

/// The number of the inode that is the root of a volume.
const ROOT: u32 = 2;

/// How far the numbers of two nodes are apart of which the second is the inode that was given the number of the first.
const NUMBERS: u64 = 1 << 32;

/// How many names the longest path has.
pub const PATH_NAMES: u32 = 2048;

/// Why the kernel cannot be told of an inode.
#[derive(Clone, Copy, Debug, PartialEq, Eq)]
pub enum ToldError {
    NoMemory,
    /// The inode's number was given to new inodes so often that no number of a node is left for it.
    NoMoreNumbers,
}

impl From<AllocError> for ToldError {
    ghost from_gives = { λ _ error. error ≡ NoMemory };

    fn from(_error: AllocError) -> ToldError {
        ToldError::NoMemory
    }
}

/// What the kernel was told of the inodes of a volume.
#[derive(Drop)]
pub struct Nodes {
    nodes: Vec<Node>,
}

impl Model for Nodes {
    ghost use Rattle.fuse_nodes.specs.Table.{Table};

    ghost Value = { Table };

    ghost view = { λ n. n.nodes.items };
}

impl Nodes {
    /// Nothing was told of a volume that has so many numbers of inodes.
    pub fn new(alloc: Global, inodes: u32) -> Result<Nodes, AllocError>
        ensures { IfOk result (λ nodes. nodes ≡ new_table inodes) }
    {
        let mut nodes = Vec::new(alloc);
        for _number in 0..inodes {
            nodes.push(Node::fresh(alloc))?;
        }
        Ok(Nodes { nodes })
    }

    /// The number of the inode that the kernel means by this node; `None` if it was told of no such node, has forgotten it, or the
    /// number was given to a new inode since.
    pub fn find(&self, node: NodeId) -> Option<u32>
        ensures { result ≡ found self.now node.0 }
    {
        if node == NodeId::ROOT {
            return Some(ROOT);
        }
        self.find_known(node)
    }

    /// The same for a node that is not the root.
    fn find_known(&self, node: NodeId) -> Option<u32>
        ensures { result ≡ found_known self.now node.0 }
    {
        let number = (node.0 % NUMBERS) as u32;
        let known = self.nodes.get(number as usize)?;
        if u64::from(known.generation()) == node.0 / NUMBERS && known.lookups() > 0 {
            return Some(number);
        }
        None
    }

    /// The number of the node that the inode with this number is now, whether the kernel was told of it or not; `None` if the
    /// inode's number was given to new inodes so often that none is left. Nothing is told.
    pub fn node_of(&self, number: u32) -> Option<NodeId>
        ensures node { IfSome result (λ node. node.0 ≡ id_of self.now number) }
        ensures used_up { (result ≡ None) ↔ ((known self.now number).generation ≡ 2 ^ 32 - 1) }
    {
        let generation = self.generation_of(number);
        if generation == u32::MAX {
            return None;
        }
        Some(NodeId(u64::from(generation) * NUMBERS + u64::from(number)))
    }

    /// How often this number was given to a new inode.
    fn generation_of(&self, number: u32) -> u32
        ensures { result ≡ (known self.now number).generation }
    {
        if !self.has(number) {
            return 0;
        }
        self.nodes[number as usize].generation()
    }

    /// Whether the volume has this number. Of another one nothing is known, whatever is told.
    pub fn has(&self, number: u32) -> bool
        ensures { result ≡ nat_lt number (length self.now) }
    {
        (number as usize) < self.nodes.len()
    }

    /// Tells the kernel of the inode that has this number, under a name.
    pub fn tell(&mut self, number: u32, directory: u32, name: &[u8]) -> Result<NodeId, ToldError>
        requires { 2 < number }
        ensures told { OnOk result (self.new ≡ after (Told number (named directory name.now)) self.old) }
        ensures node { IfOk result (λ node. node.0 ≡ id_of self.old number) }
        ensures left { OnOk result ((known self.old number).generation < 2 ^ 32 - 1) }
        ensures refused { OnErr result (self.new ≡ self.old) }
        ensures used_up { (result ≡ Err NoMoreNumbers) → (known self.old number).generation ≡ 2 ^ 32 - 1 }
    {
        let Some(node) = self.node_of(number) else {
            return Err(ToldError::NoMoreNumbers);
        };
        if self.has(number) {
            self.nodes[number as usize].tell(directory, name)?;
        }
        Ok(node)
    }

    /// This number is given to a new inode.
    pub fn bear(&mut self, number: u32)
        ensures { self.new ≡ after (Born number) self.old }
    {
        if self.has(number) {
            self.nodes[number as usize].bear();
        }
    }

    /// The kernel forgets so many lookups of a node.
    pub fn forget(&mut self, node: NodeId, lookups: u64)
        ensures { self.new ≡ after (Forgot node.0 lookups) self.old }
    {
        if let Some(number) = self.find_known(node) {
            self.nodes[number as usize].forget(lookups);
        }
    }

    /// The inode that has this number gets a name.
    pub fn add_name(&mut self, number: u32, directory: u32, name: &[u8]) -> Result<(), AllocError>
        ensures added { OnOk result (self.new ≡ after (Got number (named directory name.now)) self.old) }
        ensures refused { OnErr result (self.new ≡ self.old) }
    {
        if !self.has(number) {
            return Ok(());
        }
        self.nodes[number as usize].add_name(directory, name)
    }

    /// The inode that has this number loses a name.
    pub fn remove_name(&mut self, number: u32, directory: u32, name: &[u8])
        ensures { self.new ≡ after (Lost number (named directory name.now)) self.old }
    {
        if self.has(number) {
            self.nodes[number as usize].remove_name(directory, name);
        }
    }

    /// By which handle of the volume the inode that has this number is open.
    pub fn open_by(&self, number: u32) -> Option<Open>
        ensures { result ≡ (known self.now number).open_by }
    {
        if !self.has(number) {
            return None;
        }
        self.nodes[number as usize].open_by()
    }

    /// The inode that has this number is opened once more, by this handle if it was not open.
    pub fn open(&mut self, number: u32, handle: u32)
        ensures { self.new ≡ after (Opened number handle) self.old }
    {
        if self.has(number) {
            self.nodes[number as usize].open(handle);
        }
    }

    /// One of those who opened the inode that has this number is done; tells the handle that is then used no more.
    pub fn close(&mut self, number: u32) -> Option<u32>
        ensures changed { self.new ≡ after (Closed number) self.old }
        ensures released { result ≡ released_by (known self.old number).open_by }
    {
        if !self.has(number) {
            return None;
        }
        self.nodes[number as usize].close()
    }

    /// Writes the path of the inode that has this number, from the root, behind what is there, and tells whether it has one. If it
    /// has none, or after an error, part of a path may stand there.
    pub fn put_path(&self, number: u32, out: &mut Vec<u8>) -> Result<bool, AllocError>
        ensures found { IfOk result (λ found. IsTrue found ↔ IsSome (path_of 2048 self.now number)) }
        ensures path { OnOk result (IfSome (path_of 2048 self.now number) (λ path. out.new.items ≡ out.old.items ++ path)) }
    {
        self.put_path_within(PATH_NAMES, number, out)
    }

    /// The same for a path of fewer names than this.
    fn put_path_within(
        &self,
        names: u32,
        number: u32,
        out: &mut Vec<u8>,
    ) -> Result<bool, AllocError>
        ensures found { IfOk result (λ found. IsTrue found ↔ IsSome (path_of names self.now number)) }
        ensures path { OnOk result (IfSome (path_of names self.now number) (λ path. out.new.items ≡ out.old.items ++ path)) }
    {
        if names == 0 {
            return Ok(false);
        }
        if number == ROOT {
            return Ok(true);
        }
        let Some(node) = self.nodes.get(number as usize) else {
            return Ok(false);
        };
        let Some(place) = node.names().first() else {
            return Ok(false);
        };
        if !self.put_path_within(names - 1, place.directory(), out)? {
            return Ok(false);
        }
        out.push(b'/')?;
        out.extend_from_slice(place.name())?;
        Ok(true)
    }
}

/// A node that the kernel is told is found, and stays found until the kernel forgets lookups of it or its number is given to a
/// new inode.
pub fn a_node_is_found_until_it_is_forgotten()
    ensures told { (t : Table) (number : ℕ) (name : Named) → 2 < number → number < length t → length t ≤ 2 ^ 32
        → found (after (Told number name) t) (id_of t number) ≡ Some number }
    ensures stays { (t : Table) (id number : ℕ) (events : List Event) → 2 < number → found t id ≡ Some number → StaysKnown id number events
        → found (after_all events t) id ≡ Some number }
{}

/// A number of a node that the kernel was told leads to the inode that it was told for, or to none, whatever came since.
pub fn a_node_leads_to_its_inode()
    ensures { (t : Table) (number m : ℕ) (events : List Event) → 2 < number → number < length t → length t ≤ 2 ^ 32
        → (known t number).generation < 2 ^ 32 - 1 → found (after_all events t) (id_of t number) ≡ Some m
        → (m ≡ number) × StaysItself number events }
{}
