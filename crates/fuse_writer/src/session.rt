//! What lasts until a volume is unmounted.
ghost use Rattle.std.specs.Prelude.{◌≡◌, IfOk};

use crate::ahead::Ahead;
use crate::granted::Rules;
use attributes::{Attributes, Time};
use frozen::Frozen;
use fuse_nodes::Nodes;
use fuse_reader::{Owner, own_attributes, time_in};
use std::alloc::{AllocError, Global};

/// Whose all of a volume is that keeps no owner, what it may be asked for, what the kernel was told, which attributes are ahead of the
/// records, which time it is, and whether links stay.
pub struct Session {
    pub(crate) owner: Owner,
    pub(crate) rules: Rules,
    pub(crate) nodes: Nodes,
    pub(crate) ahead: Ahead,
    pub(crate) time: Time,
    /// Whether no repair changes links any more, so that the kernel may keep attributes.
    pub(crate) links_stay: bool,
}

/// By hand, so that who drops it goes one step and not one for each field.
impl Drop for Session {
    fn drop(self) {
        let Session {
            owner: _,
            rules: _,
            nodes: _,
            ahead: _,
            time: _,
            links_stay: _,
        } = self;
    }
}

impl Session {
    ghost use Rattle.fuse_writer.specs.Ahead.{attributes_of};
    ghost use Rattle.fuse_writer.specs.Desks.{new_session};

    /// The kernel was told nothing of a volume that has so many numbers of inodes, and nothing is ahead of their records. Until another
    /// time is told it is that of the image.
    pub(crate) fn new(
        alloc: Global,
        inodes: u32,
        owner: Owner,
        rules: Rules,
    ) -> Result<Session, AllocError>
        ensures { IfOk result (λ session. session ≡ new_session inodes owner rules) }
    {
        let nodes = Nodes::new(alloc, inodes)?;
        let ahead = Ahead::new(alloc, inodes)?;
        Ok(Session {
            owner,
            rules,
            nodes,
            ahead,
            time: time_in(owner.changed),
            links_stay: false,
        })
    }

    /// What an inode has: what is ahead of its record, or what that says.
    pub(crate) fn attributes_of(&self, frozen: &Frozen, number: u32) -> Attributes
        ensures { result ≡ attributes_of frozen.now self.now number }
    {
        match self.ahead.of(number) {
            Some(attributes) => attributes,
            None => own_attributes(frozen, self.owner, number),
        }
    }
}
