//! What a channel is.
ghost use Rattle.std.specs.Prelude.{◌≡◌, ℕ, ◌∷◌, ◌++◌, [], List, IfOk, OnErr, OnOk};
ghost use Rattle.fuse_channels.specs.Messages.{came};

use crate::message::Message;
use std::io;

/// What came when a message was waited for.
#[derive(Clone, Copy, Debug, PartialEq, Eq)]
pub enum Received {
    /// A message.
    Message,
    /// None yet: the wait was cut short.
    Nothing,
    /// None, and none will come.
    End,
}

/// What became of a message that was given.
#[derive(Clone, Copy, Debug, PartialEq, Eq)]
pub enum Replied {
    /// The channel took it.
    Given,
    /// Nobody waits for it any more, and it was let go.
    Late,
}

/// A channel of whole messages.
pub trait Channel {
    /// The messages that were taken from it, the first first.
    ghost taken: { Self → List (List ℕ) };

    /// The messages that it was given, the first first, also those that nobody waited for any more.
    ghost given: { Self → List (List ℕ) };

    /// No message will come any more.
    ghost ended: { Self → Type 0 };

    /// Waits for a message, and takes it.
    fn receive(&mut self, message: &mut Message) -> io::Result<Received>
        ensures taken { IfOk result (λ outcome. taken self.new ≡ taken self.old ++ came outcome message.new) }
        ensures failed { OnErr result (taken self.new ≡ taken self.old) }
        ensures given { given self.new ≡ given self.old }
        ensures ended { IfOk result (λ outcome. outcome ≡ Received.End → ended self.new) };

    /// Gives a message.
    fn reply(&mut self, message: &Vec<u8>) -> io::Result<Replied>
        ensures given { OnOk result (given self.new ≡ given self.old ++ message.now.items ∷ []) }
        ensures failed { OnErr result (given self.new ≡ given self.old) }
        ensures taken { taken self.new ≡ taken self.old };
}
