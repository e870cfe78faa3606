//! A reader and a writer that are the two ends of a device of messages.
ghost use Rattle.std.specs.Prelude.{◌≡◌, [], ◌∷◌, ◌++◌, IfOk, OnErr, OnOk};
ghost use Rattle.std.specs.Io.KnownBytes.{Appends, Consumes};
ghost use Rattle.fuse_channels.specs.Messages.{HasEnded, ReadsOnce, came};

use crate::interface::{Channel, Received, Replied};
use crate::message::Message;
use http_server::Log;
use std::io;
use std::io::{Read, Write};
use std::marker::Model;

/// Linux's numbers of errors.
mod errors {
    /// ENOENT: the request was taken back, or nobody waits for the reply.
    pub const NO_ENTRY: i32 = 2;
    /// EINTR: a signal came.
    pub const INTERRUPTED: i32 = 4;
    /// EAGAIN: none is there yet.
    pub const AGAIN: i32 = 11;
    /// ENODEV: the volume was unmounted.
    pub const NO_DEVICE: i32 = 19;
}

/// A device of messages, such as that of FUSE: one call of the system reads a message, and one writes one. With standard input and
/// output as its ends it is what a server is started on. What came and went, and what each read gave, is kept in histories that only
/// clauses read.
#[derive(Drop)]
pub struct DeviceChannel<R, W> {
    reader: R,
    writer: W,
    taken: Log<(), Message>,
    given: Log<(), Vec<u8>>,
    reads: Log<(), io::Result<usize>>,
}

impl<R, W> Model for DeviceChannel<R, W> {
    ghost use Rattle.std.specs.Prelude.{map};
    ghost use Rattle.fuse_channels.specs.Messages.{Ends};

    ghost Value = { Ends R W };

    ghost view = { λ c. record { reader = c.reader; writer = c.writer; taken = map (λ e. e.1) c.taken.items; given = map (λ e. e.1.items) c.given.items; reads = map (λ e. e.1) c.reads.items } };
}

impl<R: Read, W: Write> DeviceChannel<R, W> {
    /// The channel of which these are the ends.
    pub fn new(reader: R, writer: W) -> DeviceChannel<R, W>
        ensures { result ≡ record { reader = reader; writer = writer; taken = []; given = []; reads = [] } }
    {
        DeviceChannel {
            reader,
            writer,
            taken: Log::new(),
            given: Log::new(),
            reads: Log::new(),
        }
    }
}

impl<R: Read, W: Write> Channel for DeviceChannel<R, W> {
    ghost taken = { λ c. c.taken };

    ghost given = { λ c. c.given };

    ghost ended = { λ c. HasEnded c.reads };

    fn receive(&mut self, message: &mut Message) -> io::Result<Received>
        ensures taken { IfOk result (λ outcome. self.new.taken ≡ self.old.taken ++ came outcome message.new) }
        ensures failed { OnErr result (self.new.taken ≡ self.old.taken) }
        ensures given { self.new.given ≡ self.old.given }
        ensures ended { IfOk result (λ outcome. outcome ≡ Received.End → HasEnded self.new.reads) }
        ensures reads { ReadsOnce (R.remaining self.old.reader) (R.remaining self.new.reader) self.old.reads self.new.reads message.new }
        // A message is what one read gave.
        ensures read { IfOk result (λ outcome. outcome ≡ Received.Message
            → Consumes (R.remaining self.old.reader) (R.remaining self.new.reader) message.new) }
    {
        let read = message.read_from(&mut self.reader);
        self.reads = self.reads.and(&(), &read);
        match read {
            Ok(0) => Ok(Received::End),
            Ok(_) => {
                self.taken = self.taken.and(&(), message);
                Ok(Received::Message)
            }
            Err(error) => match error.raw_os_error() {
                Some(errors::NO_ENTRY | errors::INTERRUPTED | errors::AGAIN) => {
                    Ok(Received::Nothing)
                }
                Some(errors::NO_DEVICE) => Ok(Received::End),
                _ => Err(error),
            },
        }
    }

    fn reply(&mut self, message: &Vec<u8>) -> io::Result<Replied>
        ensures given { OnOk result (self.new.given ≡ self.old.given ++ message.now.items ∷ []) }
        ensures failed { OnErr result (self.new.given ≡ self.old.given) }
        ensures taken { self.new.taken ≡ self.old.taken }
        // One write took the whole of it.
        ensures written { IfOk result (λ outcome. outcome ≡ Replied.Given
            → Appends (W.contents self.old.writer) (W.contents self.new.writer) message.now.items) }
    {
        match self.writer.write(message) {
            Ok(bytes) if bytes == message.len() => {
                self.given = self.given.and(&(), message);
                Ok(Replied::Given)
            }
            Ok(_) => Err(io::Error::from(io::ErrorKind::WriteZero)),
            Err(error) => match error.raw_os_error() {
                Some(errors::NO_ENTRY) => {
                    self.given = self.given.and(&(), message);
                    Ok(Replied::Late)
                }
                _ => Err(error),
            },
        }
    }
}
