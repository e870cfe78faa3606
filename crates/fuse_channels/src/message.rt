//! A message that was taken, in room that serves for one after another.
ghost use Rattle.std.specs.Prelude.{◌≡◌, ◌≤◌, [], IfOk, IsTrue, length, take};
ghost use Rattle.fuse_channels.specs.Messages.{Reads};

use std::alloc::{AllocError, Global};
use std::io;
use std::io::Read;
use std::marker::Model;

/// Clauses see the bytes of the message.
#[derive(Drop)]
pub struct Message {
    room: Vec<u8>,
    bytes: usize,
}

impl Model for Message {
    ghost use Rattle.std.specs.Prelude.{ℕ, ◌<◌, ◌≤◌, List, length, take};

    ghost Value = { List ℕ };

    ghost view = { λ m. take m.bytes m.room.items };

    ghost invariant = { λ m. (m.bytes ≤ length m.room.items) × (0 < length m.room.items) };
}

impl Message {
    /// An empty message, with room for messages of this many bytes, and of one at least: a read without room tells nothing.
    pub fn with_room(alloc: Global, most: usize) -> Result<Message, AllocError>
        ensures { IfOk result (λ message. message ≡ []) }
    {
        Ok(Message {
            room: vec![in alloc; 0; most.max(1)]?,
            bytes: 0,
        })
    }

    /// The bytes.
    pub fn as_slice(&self) -> &[u8]
        ensures { result.now ≡ self.now }
    {
        &self.room[..self.bytes]
    }

    /// Takes what one read gives, and tells how many bytes that are. After an error the message is empty.
    pub(crate) fn read_from<R: Read>(&mut self, reader: &mut R) -> io::Result<usize>
        ensures { Reads (R.remaining reader.old) (R.remaining reader.new) result self.new }
    {
        self.bytes = 0;
        let bytes = reader.read(&mut self.room)?;
        self.bytes = bytes;
        Ok(bytes)
    }

    /// Takes these bytes, and tells whether there is room for them. Else the message is empty.
    pub(crate) fn copy_from(&mut self, bytes: &[u8]) -> bool
        ensures { IsTrue result → self.new ≡ bytes.now }
    {
        self.bytes = 0;
        if bytes.len() > self.room.len() {
            return false;
        }
        copy_to(&mut self.room, bytes);
        self.bytes = bytes.len();
        true
    }
}

/// Puts bytes at the front of room that they have.
fn copy_to(room: &mut [u8], bytes: &[u8])
    requires { length bytes.now ≤ length room.old }
    ensures { take (length bytes.now) room.new ≡ bytes.now }
{
    room[..bytes.len()].copy_from_slice(bytes);
}
