//! The names of an inode that the kernel was told.
ghost use Rattle.std.specs.Prelude.{◌≡◌, ◌<◌, [], IfOk, IfSome, OnErr, OnOk, length, option_copied, position, slice_get};
ghost use Rattle.std.specs.List.{list_any};
ghost use Rattle.fuse_nodes.specs.Known.{named, same, with_name, without_name};

use std::alloc::{AllocError, Global};
use std::marker::Model;

/// A name, and the number of the directory that it stands in.
#[derive(Drop)]
pub struct Place {
    directory: u32,
    name: Vec<u8>,
}

impl Model for Place {
    ghost use Rattle.fuse_nodes.specs.Known.{Named, named};

    ghost Value = { Named };

    ghost view = { λ p. named p.directory p.name.items };
}

impl Place {
    /// The name in this directory.
    fn new(alloc: Global, directory: u32, name: &[u8]) -> Result<Place, AllocError>
        ensures { IfOk result (λ place. place ≡ named directory name.now) }
    {
        Ok(Place {
            directory,
            name: Vec::from_slice(alloc, name)?,
        })
    }

    /// The number of the directory.
    pub fn directory(&self) -> u32
        ensures { result ≡ self.now.directory }
    {
        self.directory
    }

    /// The name.
    pub fn name(&self) -> &[u8]
        ensures { result.now ≡ self.now.name }
    {
        &self.name
    }

    /// Whether it is this name in this directory.
    fn is(&self, directory: u32, name: &[u8]) -> bool
        ensures { result ≡ same (named directory name.now) self.now }
    {
        directory == self.directory && name == self.name.as_slice()
    }
}

/// Names, each of them once.
#[derive(Drop)]
pub struct Names {
    places: Vec<Place>,
}

impl Model for Names {
    ghost use Rattle.std.specs.Prelude.{List};
    ghost use Rattle.fuse_nodes.specs.Known.{Named};

    ghost Value = { List Named };

    ghost view = { λ n. n.places.items };
}

impl Names {
    /// No name.
    pub fn new(alloc: Global) -> Names
        ensures { result ≡ [] }
    {
        Names {
            places: Vec::new(alloc),
        }
    }

    /// The name that was told first.
    pub fn first(&self) -> Option<&Place>
        ensures { option_copied result ≡ slice_get self.now 0 }
    {
        self.places.first()
    }

    /// Adds a name, if it is not there.
    pub fn add(&mut self, directory: u32, name: &[u8]) -> Result<(), AllocError>
        ensures added { OnOk result (self.new ≡ with_name (named directory name.now) self.old) }
        ensures refused { OnErr result (self.new ≡ self.old) }
    {
        if self.has(directory, name) {
            return Ok(());
        }
        let place = Place::new(*self.places.allocator(), directory, name)?;
        self.places.push(place)?;
        Ok(())
    }

    /// Takes a name away, if it is there.
    pub fn remove(&mut self, directory: u32, name: &[u8])
        ensures { self.new ≡ without_name (named directory name.now) self.old }
    {
        if let Some(at) = self.place_of(directory, name) {
            self.places.remove(at);
        }
    }

    /// Takes all names away.
    pub fn clear(&mut self)
        ensures { self.new ≡ [] }
    {
        self.places.clear();
    }

    /// Where this name stands.
    fn place_of(&self, directory: u32, name: &[u8]) -> Option<usize>
        ensures place { result ≡ position (same (named directory name.now)) self.now }
        ensures within { IfSome result (λ at. at < length self.now) }
    {
        self.places
            .iter()
            .position(|place| place.is(directory, name))
    }

    /// Whether this name is there.
    fn has(&self, directory: u32, name: &[u8]) -> bool
        ensures { result ≡ list_any (same (named directory name.now)) self.now }
    {
        self.places.iter().any(|place| place.is(directory, name))
    }
}
