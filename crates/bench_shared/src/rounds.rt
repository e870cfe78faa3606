//! The rounds of one user.
use device::MemDevice;
use layout::Refusal;
use shared::{Rotating, Seat, Shared};
use snapshot::{Answer, Command};
use std::alloc::{AllocError, Global};
use std::sync::Wait;
use std::sync::ledger::Ledger;
use std::time::{Clock, Instant};
use users::call;

/// How many bytes a user writes.
const WRITTEN: usize = 1_000;

/// The commands of users that were carried out.
#[derive(Clone, Copy)]
pub struct Used {
    pub commands: u64,
    /// The nanoseconds of the longest one.
    pub longest: u128,
}

impl Used {
    /// Before the first command.
    pub const NONE: Used = Used {
        commands: 0,
        longest: 0,
    };

    /// These and those of another user.
    pub fn and(self, other: Used) -> Used {
        Used {
            commands: self.commands.saturating_add(other.commands),
            longest: self.longest.max(other.longest),
        }
    }
}

/// Carries out so many rounds of the user of this number, whose file is its own.
pub fn use_volume<L: Rotating, M: Ledger, R: Wait + Clock>(
    rt: &R,
    alloc: Global,
    shared: &Shared<MemDevice, L, M>,
    seat: &mut Seat<L, M>,
    user: u32,
    rounds: u32,
) -> Result<Used, Refusal> {
    let path = path_of(alloc, user)?;
    let mut used = Used::NONE;
    for _round in 0..rounds {
        use_file(rt, alloc, shared, seat, path.as_slice(), &mut used)?;
    }
    Ok(used)
}

/// The path of a user's file.
fn path_of(alloc: Global, user: u32) -> Result<Vec<u8>, AllocError> {
    Ok(format!(in alloc; "/user{user}")?.into_bytes())
}

/// A file is made, opened, written, read, closed and taken away.
fn use_file<L: Rotating, M: Ledger, R: Wait + Clock>(
    rt: &R,
    alloc: Global,
    shared: &Shared<MemDevice, L, M>,
    seat: &mut Seat<L, M>,
    path: &[u8],
    used: &mut Used,
) -> Result<(), Refusal> {
    let create = path.to_vec(alloc)?;
    timed(rt, alloc, shared, seat, Command::create(create), used)?;
    let open = path.to_vec(alloc)?;
    let opened = timed(rt, alloc, shared, seat, Command::Open(open), used)?;
    use_handle(rt, alloc, shared, seat, handle_of(&opened)?, used)?;
    let unlink = path.to_vec(alloc)?;
    timed(rt, alloc, shared, seat, Command::Unlink(unlink), used)?;
    Ok(())
}

/// A file is written, read and closed.
fn use_handle<L: Rotating, M: Ledger, R: Wait + Clock>(
    rt: &R,
    alloc: Global,
    shared: &Shared<MemDevice, L, M>,
    seat: &mut Seat<L, M>,
    handle: u32,
    used: &mut Used,
) -> Result<(), Refusal> {
    let piece = vec![in alloc; b'0'; WRITTEN]?;
    let write = Command::Write {
        handle,
        index: 0,
        piece,
    };
    timed(rt, alloc, shared, seat, write, used)?;
    let read = Command::Read { handle, index: 0 };
    timed(rt, alloc, shared, seat, read, used)?;
    timed(rt, alloc, shared, seat, Command::Close(handle), used)?;
    Ok(())
}

/// The handle that an `open` was answered.
fn handle_of(opened: &Answer) -> Result<u32, Refusal> {
    match opened {
        Answer::Number(handle) => u32::try_from(*handle).map_err(|_| Refusal::BadHandle),
        // No volume answers it otherwise.
        _ => Err(Refusal::BadHandle),
    }
}

/// Carries out a command, and notes how long it took. A clock that fails is refused as a device that does.
fn timed<L: Rotating, M: Ledger, R: Wait + Clock>(
    rt: &R,
    alloc: Global,
    shared: &Shared<MemDevice, L, M>,
    seat: &mut Seat<L, M>,
    command: Command,
    used: &mut Used,
) -> Result<Answer, Refusal> {
    let start = Instant::now(rt).map_err(|_| Refusal::Device)?;
    let answer = call(rt, alloc, shared, seat, &command)?;
    let longest = start.elapsed(rt).map_err(|_| Refusal::Device)?.as_nanos();
    *used = used.and(Used {
        commands: 1,
        longest,
    });
    Ok(answer)
}
