//! What is known of an inode that the kernel was told of.
ghost use Rattle.std.specs.Prelude.{◌≡◌, OnErr, OnOk, Some};
ghost use Rattle.fuse_nodes.specs.Known.{born_again, closed_by, closed_once, forgot, fresh, named, one_more, opened_by, opened_once, released_by, told_once, with_its_name, without_its_name};

use crate::names::Names;
use std::alloc::{AllocError, Global};
use std::marker::Model;

/// By which handle of the volume an inode is open, and how often the kernel opened it.
#[derive(Clone, Copy, Debug, PartialEq, Eq)]
pub struct Open {
    pub handle: u32,
    pub count: u64,
}

#[derive(Drop)]
pub struct Node {
    generation: u32,
    lookups: u64,
    names: Names,
    open_by: Option<Open>,
}

impl Model for Node {
    ghost use Rattle.fuse_nodes.specs.Known.{Known};

    ghost Value = { Known };

    ghost view = { λ n. record { generation = n.generation; lookups = n.lookups; names = n.names; open_by = n.open_by } };
}

impl Node {
    /// Nothing is known.
    pub fn fresh(alloc: Global) -> Node
        ensures { result ≡ fresh }
    {
        Node {
            generation: 0,
            lookups: 0,
            names: Names::new(alloc),
            open_by: None,
        }
    }

    /// How often its number was given to a new inode.
    pub fn generation(&self) -> u32
        ensures { result ≡ self.now.generation }
    {
        self.generation
    }

    /// How many lookups of it the kernel has not forgotten.
    pub fn lookups(&self) -> u64
        ensures { result ≡ self.now.lookups }
    {
        self.lookups
    }

    /// The names that the kernel was told.
    pub fn names(&self) -> &Names
        ensures { result.now ≡ self.now.names }
    {
        &self.names
    }

    /// By which handle it is open.
    pub fn open_by(&self) -> Option<Open>
        ensures { result ≡ self.now.open_by }
    {
        self.open_by
    }

    /// The kernel is told of it under a name.
    pub fn tell(&mut self, directory: u32, name: &[u8]) -> Result<(), AllocError>
        ensures told { OnOk result (self.new ≡ told_once (named directory name.now) self.old) }
        ensures refused { OnErr result (self.new ≡ self.old) }
    {
        self.names.add(directory, name)?;
        self.lookups = one_more(self.lookups);
        Ok(())
    }

    /// Its number is given to a new inode.
    pub fn bear(&mut self)
        ensures { self.new ≡ born_again self.old }
    {
        self.generation = self.generation.saturating_add(1);
        self.lookups = 0;
        self.names.clear();
        self.open_by = None;
    }

    /// The kernel forgets so many lookups.
    pub fn forget(&mut self, lookups: u64)
        ensures { self.new ≡ forgot lookups self.old }
    {
        if self.lookups <= lookups {
            self.lookups = 0;
            self.names.clear();
            return;
        }
        self.lookups -= lookups;
    }

    /// It gets a name.
    pub fn add_name(&mut self, directory: u32, name: &[u8]) -> Result<(), AllocError>
        ensures added { OnOk result (self.new ≡ with_its_name (named directory name.now) self.old) }
        ensures refused { OnErr result (self.new ≡ self.old) }
    {
        self.names.add(directory, name)
    }

    /// It loses a name.
    pub fn remove_name(&mut self, directory: u32, name: &[u8])
        ensures { self.new ≡ without_its_name (named directory name.now) self.old }
    {
        self.names.remove(directory, name);
    }

    /// It is opened once more, by this handle if it was not open.
    pub fn open(&mut self, handle: u32)
        ensures { self.new ≡ opened_once handle self.old }
    {
        self.open_by = Some(opened_by(handle, self.open_by));
    }

    /// One of those who opened it is done; tells the handle that is then used no more.
    pub fn close(&mut self) -> Option<u32>
        ensures changed { self.new ≡ closed_once self.old }
        ensures released { result ≡ released_by self.old.open_by }
    {
        let released = released_by(self.open_by);
        self.open_by = closed_by(self.open_by);
        released
    }
}

/// One more, up to what the number holds.
fn one_more(count: u64) -> u64
    ensures { result ≡ one_more count }
{
    count.saturating_add(1)
}

/// By which handle an inode is open once it is opened again, by this handle if it was not open.
fn opened_by(handle: u32, open_by: Option<Open>) -> Open
    ensures { Some result ≡ opened_by handle open_by }
{
    match open_by {
        None => Open { handle, count: 1 },
        Some(open) => Open {
            handle: open.handle,
            count: one_more(open.count),
        },
    }
}

/// By which handle an inode is open once one of those who opened it is done.
fn closed_by(open_by: Option<Open>) -> Option<Open>
    ensures { result ≡ closed_by open_by }
{
    let open = open_by?;
    if open.count <= 1 {
        return None;
    }
    Some(Open {
        handle: open.handle,
        count: open.count - 1,
    })
}

/// The handle that is used no more once one of those who opened the inode is done.
fn released_by(open_by: Option<Open>) -> Option<u32>
    ensures { result ≡ released_by open_by }
{
    let open = open_by?;
    if open.count <= 1 {
        return Some(open.handle);
    }
    None
}
