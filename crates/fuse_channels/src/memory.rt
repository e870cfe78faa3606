//! A channel in memory, for tests.
ghost use Rattle.std.specs.Prelude.{◌≡◌, [], ◌∷◌, ◌++◌, IfOk, OnErr, OnOk};
ghost use Rattle.fuse_channels.specs.Messages.{came, texts};

use crate::interface::{Channel, Received, Replied};
use crate::message::Message;
use std::alloc::Global;
use std::io;
use std::marker::Model;

/// It gives messages that were put into it, one after another, and keeps those that it is given.
#[derive(Drop)]
pub struct MemoryChannel {
    alloc: Global,
    requests: Vec<Vec<u8>>,
    next: usize,
    replies: Vec<Vec<u8>>,
}

impl Model for MemoryChannel {
    ghost use Rattle.std.specs.Prelude.{◌≤◌, drop, length, take};
    ghost use Rattle.fuse_channels.specs.Messages.{Messages, texts};

    ghost Value = { Messages };

    ghost view = { λ c. record { taken = take c.next (texts c.requests.items); waiting = drop c.next (texts c.requests.items); given = texts c.replies.items } };

    ghost invariant = { λ c. c.next ≤ length c.requests.items };
}

impl MemoryChannel {
    /// A channel that gives these messages.
    pub fn new(alloc: Global, requests: Vec<Vec<u8>>) -> MemoryChannel
        ensures { result ≡ record { taken = []; waiting = texts requests.items; given = [] } }
    {
        MemoryChannel {
            alloc,
            requests,
            next: 0,
            replies: Vec::new(alloc),
        }
    }

    /// The messages that it was given.
    pub fn replies(&self) -> &[Vec<u8>]
        ensures { texts result.now ≡ self.now.given }
    {
        &self.replies
    }
}

impl Channel for MemoryChannel {
    ghost taken = { λ c. c.taken };

    ghost given = { λ c. c.given };

    ghost ended = { λ c. c.waiting ≡ [] };

    fn receive(&mut self, message: &mut Message) -> io::Result<Received> {
        let Some(request) = self.requests.get(self.next) else {
            return Ok(Received::End);
        };
        if !message.copy_from(request) {
            return Err(io::Error::from(io::ErrorKind::InvalidInput));
        }
        self.next += 1;
        Ok(Received::Message)
    }

    fn reply(&mut self, message: &Vec<u8>) -> io::Result<Replied> {
        let copy = Vec::from_slice(self.alloc, message)?;
        self.replies.push(copy)?;
        Ok(Replied::Given)
    }
}
