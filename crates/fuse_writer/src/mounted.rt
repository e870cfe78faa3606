//! A mounted volume, and what the kernel was told of it.
ghost use Rattle.std.specs.Prelude.{◌≡◌, ◌∷◌, [], OnOk};
ghost use Rattle.model.specs.Layout.{inode_count};
ghost use Rattle.softdep.specs.Queued.{unsynced_of};
ghost use Rattle.fuse_writer.specs.Ahead.{attributes_of, marked, notes, settled, touched};
ghost use Rattle.fuse_writer.specs.Doings.{Gives, IsBytes, IsDone, IsNumber, IsSettled, WasAsked, noted};
ghost use Rattle.fuse_writer.specs.Requests.{at_directory, at_node};

use crate::ahead;
use crate::asking::Asking;
use crate::replied::{bytes_in, done_in, number_in, settled_in};
use crate::session::Session;
use attributes::Attributes;
use device::Device;
use frozen::Frozen;
use fuse_wire::{Errno, NodeId};
use snapshot::Command;
use std::alloc::Global;

/// A mounted volume, and what lasts until it is unmounted.
pub(crate) struct Mounted<D: Device> {
    pub(crate) alloc: Global,
    pub(crate) asking: Asking<D>,
    pub(crate) session: Session,
}

/// By hand, so that who drops it goes one step and not one for each field.
impl<D: Device> Drop for Mounted<D> {
    fn drop(self) {
        let Mounted {
            alloc: _,
            asking: _,
            session: _,
        } = self;
    }
}

impl<D: Device> Mounted<D> {
    /// The metadata that users see.
    pub(crate) fn metadata(&self) -> &Frozen
        ensures { result.now ≡ self.now.asking.volume.kept }
    {
        self.asking.metadata()
    }

    /// How many numbers of inodes the volume has.
    pub(crate) fn inodes(&self) -> u32
        ensures { result ≡ inode_count self.now.asking.volume.kept.geometry }
    {
        self.metadata().geometry().inodes()
    }

    /// The inode that the kernel means by a node.
    pub(crate) fn inode(&self, node: NodeId) -> Result<u32, Errno>
        ensures { Gives result (at_node self.now.session node) }
    {
        match self.session.nodes.find(node) {
            Some(number) => Ok(number),
            None => Err(Errno::Stale),
        }
    }

    /// The directory that the kernel means by a node.
    pub(crate) fn directory(&self, node: NodeId) -> Result<u32, Errno>
        ensures { Gives result (at_directory self.now.asking.volume.kept self.now.session node) }
    {
        let number = self.inode(node)?;
        if !self.metadata().is_directory_at(number) {
            return Err(Errno::NotDirectory);
        }
        Ok(number)
    }

    /// What an inode has: what is ahead of its record, or what that says.
    pub(crate) fn attributes_of(&self, number: u32) -> Attributes
        ensures { result ≡ attributes_of self.now.asking.volume.kept self.now.session number }
    {
        self.session.attributes_of(self.metadata(), number)
    }

    /// What it has if its bytes, or the names in it, are changed now.
    pub(crate) fn touched(&self, number: u32) -> Attributes
        ensures { result ≡ touched self.now.session.time (attributes_of self.now.asking.volume.kept self.now.session number) }
    {
        ahead::touched(self.session.time, self.attributes_of(number))
    }

    /// What it has if something else of it is.
    pub(crate) fn marked(&self, number: u32) -> Attributes
        ensures { result ≡ marked self.now.session.time (attributes_of self.now.asking.volume.kept self.now.session number) }
    {
        ahead::marked(self.session.time, self.attributes_of(number))
    }

    /// An inode has these from now on, if attributes are kept: users see them, and the record gets them later.
    pub(crate) fn note(&mut self, number: u32, attributes: Attributes)
        ensures asking { self.new.asking ≡ self.old.asking }
        ensures session { self.new.session ≡ noted [] (notes self.old.session number attributes) self.old.session }
    {
        if self.session.rules.keeps_attributes {
            self.session.ahead.set(number, Some(attributes));
        }
    }

    /// Nothing is ahead of the record of an inode any more.
    pub(crate) fn clear(&mut self, number: u32)
        ensures asking { self.new.asking ≡ self.old.asking }
        ensures session { self.new.session ≡ noted [] (settled number) self.old.session }
    {
        self.session.ahead.set(number, None);
    }

    /// Gives the record of an inode its attributes. An inode that is gone has nothing to get.
    pub(crate) fn ask_settled(&mut self, command: Command) -> Result<(), Errno>
        ensures start { self.new.asking.start ≡ self.old.asking.start }
        ensures session { self.new.session ≡ self.old.session }
        ensures asked { WasAsked self.old.asking.calls self.new.asking.calls command (IsSettled result) }
    {
        let reply = self.asking.ask(self.alloc, &command);
        settled_in(reply)
    }

    /// Carries out a command of which there is nothing to tell.
    pub(crate) fn ask_done(&mut self, command: Command) -> Result<(), Errno>
        ensures start { self.new.asking.start ≡ self.old.asking.start }
        ensures session { self.new.session ≡ self.old.session }
        ensures asked { WasAsked self.old.asking.calls self.new.asking.calls command (IsDone result) }
        // After a sync that is done all is durable.
        ensures synced { command ≡ Command.Sync → OnOk result (unsynced_of self.new.asking.volume.queue ≡ []) }
    {
        let reply = self.asking.ask(self.alloc, &command);
        done_in(reply)
    }

    /// Carries out a command that is answered with a number of 32 bits: that of an inode, or a handle.
    pub(crate) fn ask_number(&mut self, command: Command) -> Result<u32, Errno>
        ensures start { self.new.asking.start ≡ self.old.asking.start }
        ensures session { self.new.session ≡ self.old.session }
        ensures asked { WasAsked self.old.asking.calls self.new.asking.calls command (IsNumber result) }
    {
        let reply = self.asking.ask(self.alloc, &command);
        number_in(reply)
    }

    /// Carries out a command that is answered with bytes.
    pub(crate) fn ask_bytes(&mut self, command: Command) -> Result<Vec<u8>, Errno>
        ensures start { self.new.asking.start ≡ self.old.asking.start }
        ensures session { self.new.session ≡ self.old.session }
        ensures asked { WasAsked self.old.asking.calls self.new.asking.calls command (IsBytes (λ bytes. bytes.items) result) }
    {
        let reply = self.asking.ask(self.alloc, &command);
        bytes_in(reply)
    }
}
