//! A desk at a channel: each message that is taken is answered by one turn, until the end.
#![tactic(auto)]

mod interface;
mod laws;
mod tended;
mod viewed;

ghost use Rattle.std.specs.Prelude.{◌≡◌, [], ◌∷◌, ◌++◌, false, IfErr, IfOk, OnErr, OnOk};
ghost use Rattle.fuse_wire.specs.Requests.{decode};
ghost use Rattle.fuse_loop.specs.Sessions.{AnswersOne, EndsWell, IsDestroy, Leaves, LeavesIt, LeavesOne, Serves, ServesOne, asks_to_agree, is_in_place};

use fuse_channels::{Channel, Message, Received};
pub use fuse_reader::Turned;
use fuse_wire::Request;
pub use interface::Answering;
pub use laws::sessions_of_a_desk_that_reads;
use std::alloc::Global;

/// How many bytes the longest request has: a head, and a piece to be written of the most bytes that were agreed on.
pub const MESSAGE_BYTES: usize = 131_072 + 4096;

/// Why a desk is left before the volume is unmounted.
#[derive(Clone, Copy, Debug, PartialEq, Eq)]
pub enum LeftError {
    NoMemory,
    /// The channel failed, or gave more messages than can be counted.
    Channel,
    /// A message came that is no request, or the first one does not ask to agree on a version.
    NoRequest,
}

/// Answers the messages of a channel, one after another, until it ends or the volume is unmounted. The first one asks to agree on
/// a version.
pub fn serve<T: Answering, C: Channel>(
    alloc: Global,
    desk: &mut T,
    channel: &mut C,
) -> Result<(), LeftError>
    // It ends well only with the channel, or with DESTROY.
    ensures ended { OnOk result (EndsWell (C.ended channel.new) (C.taken channel.new)) }
    ensures served { OnOk result (Serves T.turns desk.old (C.taken channel.old) (C.given channel.old) (C.taken channel.new) (C.given channel.new) [] desk.new) }
    ensures left { IfErr result (λ why. Leaves T.turns T.fails desk.old (C.taken channel.old) (C.given channel.old)
        (C.taken channel.new) (C.given channel.new) why desk.new) }
{
    let Ok(mut message) = Message::with_room(alloc, MESSAGE_BYTES) else {
        return Err(LeftError::NoMemory);
    };
    let mut reply = Vec::new(alloc);
    let mut is_first = true;
    for _turn in 0..u64::MAX {
        match serve_one(desk, channel, &mut message, &mut reply, &mut is_first) {
            Ok(true) => {}
            Ok(false) => return Ok(()),
            Err(why) => return Err(why),
        }
    }
    Err(LeftError::Channel)
}

/// Takes a message, if one is there, and answers it. Tells whether more may follow.
fn serve_one<T: Answering, C: Channel>(
    desk: &mut T,
    channel: &mut C,
    message: &mut Message,
    reply: &mut Vec<u8>,
    is_first: &mut bool,
) -> Result<bool, LeftError>
    ensures served { OnOk result (ServesOne T.turns is_first.old is_first.new desk.old (C.taken channel.old) (C.given channel.old)
        (C.taken channel.new) (C.given channel.new) desk.new) }
    ensures ended { IfOk result (λ more. more ≡ false → EndsWell (C.ended channel.new) (C.taken channel.new)) }
    ensures left { IfErr result (λ why. LeavesOne T.turns T.fails is_first.old desk.old (C.taken channel.old) (C.given channel.old)
        (C.taken channel.new) (C.given channel.new) why desk.new) }
{
    match channel.receive(message) {
        Ok(Received::Message) => answer(desk, channel, message, reply, is_first),
        Ok(Received::Nothing) => Ok(true),
        Ok(Received::End) => Ok(false),
        Err(_) => Err(LeftError::Channel),
    }
}

/// Answers a message. Tells whether more may follow.
fn answer<T: Answering, C: Channel>(
    desk: &mut T,
    channel: &mut C,
    message: &Message,
    reply: &mut Vec<u8>,
    is_first: &mut bool,
) -> Result<bool, LeftError>
    ensures answered { OnOk result (AnswersOne T.turns is_first.old desk.old message.now (C.given channel.old) (C.given channel.new) desk.new) }
    ensures first { OnOk result (is_first.new ≡ false) }
    ensures ended { IfOk result (λ more. more ≡ false → IsDestroy message.now) }
    ensures left { IfErr result (λ why. LeavesIt T.turns T.fails is_first.old desk.old message.now why desk.new) }
    ensures none { OnErr result (C.given channel.new ≡ C.given channel.old) }
    ensures taken { C.taken channel.new ≡ C.taken channel.old }
{
    let bytes = message.as_slice();
    if !is_in_place(*is_first, bytes) {
        return Err(LeftError::NoRequest);
    }
    *is_first = false;
    let Ok(turned) = desk.turn(bytes, reply) else {
        return Err(LeftError::NoMemory);
    };
    match turned {
        Turned::Unread => Err(LeftError::NoRequest),
        Turned::Silent => Ok(true),
        Turned::Replied => give(channel, reply, true),
        Turned::Ended => give(channel, reply, false),
    }
}

/// Gives a reply. Tells whether more may follow, as it is said.
fn give<C: Channel>(channel: &mut C, reply: &Vec<u8>, more: bool) -> Result<bool, LeftError>
    ensures given { OnOk result (C.given channel.new ≡ C.given channel.old ++ reply.now.items ∷ []) }
    ensures more { IfOk result (λ goes_on. goes_on ≡ more) }
    ensures left { IfErr result (λ why. (why ≡ LeftError.Channel) × (C.given channel.new ≡ C.given channel.old)) }
    ensures taken { C.taken channel.new ≡ C.taken channel.old }
{
    match channel.reply(reply) {
        Ok(_) => Ok(more),
        Err(_) => Err(LeftError::Channel),
    }
}

/// Whether a message may come, the first one or a later one.
fn is_in_place(is_first: bool, message: &[u8]) -> bool
    ensures { result ≡ is_in_place is_first message.now }
{
    !is_first || asks_to_agree(message)
}

/// Whether a message asks to agree on a version.
fn asks_to_agree(message: &[u8]) -> bool
    ensures { result ≡ asks_to_agree (decode message.now) }
{
    matches!(fuse_wire::read(message), Some((_, Request::Init(_))))
}
