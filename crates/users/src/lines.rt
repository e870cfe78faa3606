//! The lines of one user.
use crate::calling::call;
use device::Device;
use shared::{Rotating, Seat, Shared};
use snapshot::{Command, Reply};
use std::alloc::{AllocError, Global};
use std::sync::Wait;
use std::sync::ledger::Ledger;
use user_scripts::{Handles, Then, UserLine};

/// A line of a user, and the reply to it.
#[derive(Drop)]
pub struct Answered {
    /// The bytes of the line, without its line feed.
    pub text: Vec<u8>,
    pub reply: Reply,
}

/// Carries out the lines of a user in order, and gives them with their replies. Room for these is made first.
pub(crate) fn carry_out<D: Device + Drop, L: Rotating, M: Ledger, R: Wait>(
    rt: &R,
    alloc: Global,
    shared: &Shared<D, L, M>,
    seat: &mut Seat<L, M>,
    lines: Vec<UserLine>,
) -> Result<Vec<Answered>, AllocError> {
    let mut answered = Vec::with_capacity(alloc, lines.len())?;
    let mut handles = Handles::new(alloc);
    for line in lines {
        let UserLine {
            user: _,
            text,
            command,
            then,
        } = line;
        let reply = reply_to(rt, alloc, shared, seat, &mut handles, command, then);
        answered.push(Answered { text, reply })?;
    }
    Ok(answered)
}

/// The reply to a command of a user, whose handles and snapshots are the user's. One of a handle that the user has not open,
/// or of a snapshot that the user has not standing, is refused without a call. Where the line asks for more of what was found, the
/// reply is that of the second call.
fn reply_to<D: Device + Drop, L: Rotating, M: Ledger, R: Wait>(
    rt: &R,
    alloc: Global,
    shared: &Shared<D, L, M>,
    seat: &mut Seat<L, M>,
    handles: &mut Handles,
    command: Command,
    then: Then,
) -> Reply {
    let command = handles.command_for(command)?;
    let reply = call(rt, alloc, shared, seat, &command);
    handles.note(&command, &reply)?;
    match then.command(&reply) {
        Some(next) => call(rt, alloc, shared, seat, &next),
        None => reply,
    }
}
