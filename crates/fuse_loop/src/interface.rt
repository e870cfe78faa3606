//! What answers messages.
ghost use Rattle.std.specs.Prelude.{◌≡◌, ◌↔◌, ℕ, List, None, Some, IfOk, OnErr};
ghost use Rattle.fuse_wire.specs.declared.requests.Head.{Head};
ghost use Rattle.fuse_wire.specs.Requests.{Asked, decode};
ghost use Rattle.fuse_reader.specs.declared.desk.Turned.{Turned as Outcome};
ghost use Rattle.fuse_reader.specs.Desks.{turned_of};

use fuse_reader::Turned;
use std::alloc::AllocError;

/// A desk, which answers one message after another, each by a turn.
pub trait Answering {
    /// By this message a turn may come to this, with this reply, and leave the desk so.
    ghost turns: { Self → List ℕ → Outcome → List ℕ → Self → Type 0 };

    /// Where there is no memory for a reply to this message, a turn may leave the desk so.
    ghost fails: { Self → List ℕ → Self → Type 0 };

    /// Answers a message. The reply is written over what stands there, and is empty if none is asked for. After an error, which is
    /// that there was no memory to say so, part of a reply may stand there.
    fn turn(&mut self, message: &[u8], reply: &mut Vec<u8>) -> Result<Turned, AllocError>
        ensures unread { IfOk result (λ turned. (turned ≡ Turned.Unread) ↔ (decode message.now ≡ None)) }
        ensures turned { IfOk result (λ turned. (head : Head) (asked : Asked) → decode message.now ≡ Some (head, asked) → turned ≡ turned_of asked) }
        ensures turn { IfOk result (λ turned. turns self.old message.now turned reply.new.items self.new) }
        ensures failed { OnErr result (fails self.old message.now self.new) };
}
