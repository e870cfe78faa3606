//! Requests are read.
ghost use Rattle.std.specs.Prelude.{◌≡◌, ◌+◌, ◌≤◌, length, option_map};
ghost use Rattle.fuse_wire.specs.Forgets.{forgets_of};
ghost use Rattle.fuse_wire.specs.Requests.{asked_of, changes_of, chosen, decode, forgotten_of, handle_of, head_of, moment, name_of, names_of, node_at, offer_of, piece_of, request_at, seen, sync_of, time_at, written_of};

use crate::fields::{long_at, name_at, word_at};
use crate::numbers::{Handle, NodeId, Time, Unique};
use crate::opcodes::Opcode;
use crate::requests::{Changes, Forgets, Head, Moment, Offer, Request};

/// How many bytes stand before the fields of a request.
const HEAD_BYTES: usize = 40;

/// The request that a message is. `None` if it is shorter than its head or its fields, if it says another length than it has,
/// or if a name has no end.
pub fn read(message: &[u8]) -> Option<(Head, Request<'_>)>
    ensures { option_map (λ x. (x.0, seen x.1)) result ≡ decode message.now }
{
    if message.len() < HEAD_BYTES || word_at(message, 0) as usize != message.len() {
        return None;
    }
    let request = request_at(message)?;
    Some((head_of(message), request))
}

/// What is asked for by a message that has a head.
#[tactic(auto, unfolding(crate::specs::Requests::request_at))]
fn request_at(message: &[u8]) -> Option<Request<'_>>
    requires { 40 ≤ length message.now }
    ensures { option_map seen result ≡ request_at message.now }
{
    let opcode = Opcode::of_number(word_at(message, 4));
    request_of(opcode, &message[HEAD_BYTES..])
}

/// What stands before the fields.
fn head_of(message: &[u8]) -> Head
    requires { 40 ≤ length message.now }
    ensures { result ≡ head_of message.now }
{
    Head {
        unique: Unique(long_at(message, 8)),
        node: NodeId(long_at(message, 16)),
        user: word_at(message, 24),
        group: word_at(message, 28),
        process: word_at(message, 32),
    }
}

/// The request of this kind with these fields.
fn request_of(opcode: Opcode, fields: &[u8]) -> Option<Request<'_>>
    ensures { option_map seen result ≡ asked_of opcode fields.now }
{
    match opcode {
        Opcode::Init => init(fields),
        Opcode::Lookup => Some(Request::Lookup {
            name: name_of(fields)?,
        }),
        Opcode::Forget => forget(fields),
        Opcode::BatchForget => batch_forget(fields),
        Opcode::GetAttributes => get_attributes(fields),
        Opcode::SetAttributes => set_attributes(fields),
        Opcode::ReadSymbolicLink => Some(Request::ReadSymbolicLink),
        Opcode::MakeSymbolicLink => make_symbolic_link(fields),
        Opcode::MakeNode => make_node(fields),
        Opcode::MakeDirectory => make_directory(fields),
        Opcode::Unlink => Some(Request::Unlink {
            name: name_of(fields)?,
        }),
        Opcode::RemoveDirectory => Some(Request::RemoveDirectory {
            name: name_of(fields)?,
        }),
        Opcode::Rename => rename(fields),
        Opcode::RenameWithFlags => rename_with_flags(fields),
        Opcode::Link => link(fields),
        Opcode::Open => open(fields),
        Opcode::Read => read_file(fields),
        Opcode::Write => write_file(fields),
        Opcode::Statistics => Some(Request::Statistics),
        Opcode::Release => Some(Request::Release {
            handle: handle_of(fields, 24)?,
        }),
        Opcode::Sync => sync_file(fields),
        Opcode::Flush => Some(Request::Flush {
            handle: handle_of(fields, 24)?,
        }),
        Opcode::OpenDirectory => open_directory(fields),
        Opcode::ReadDirectory => read_directory(fields),
        Opcode::ReadDirectoryPlus => read_directory_plus(fields),
        Opcode::ReleaseDirectory => Some(Request::ReleaseDirectory {
            handle: handle_of(fields, 24)?,
        }),
        Opcode::SyncDirectory => sync_directory(fields),
        Opcode::Create => create(fields),
        Opcode::Interrupt => interrupt(fields),
        Opcode::Destroy => Some(Request::Destroy),
        Opcode::SyncVolume => Some(Request::SyncVolume),
        Opcode::Allocate => allocate(fields),
        Opcode::Other(opcode) => Some(Request::Other { opcode }),
    }
}

// ---- of many kinds

/// The name at the front.
fn name_of(fields: &[u8]) -> Option<&[u8]>
    ensures { option_map (λ name. name.now) result ≡ name_of fields.now }
{
    let (name, _) = name_at(fields)?;
    Some(name)
}

/// The name at the front, and the one behind it.
fn names_of(fields: &[u8]) -> Option<(&[u8], &[u8])>
    ensures { option_map (λ x. (x.0.now, x.1.now)) result ≡ names_of fields.now }
{
    let (first, rest) = name_at(fields)?;
    Some((first, name_of(rest)?))
}

/// The handle at the front of so many bytes of fields.
fn handle_of(fields: &[u8], bytes: usize) -> Option<Handle>
    requires { 8 ≤ bytes }
    ensures { result ≡ handle_of bytes fields.now }
{
    if fields.len() < bytes {
        return None;
    }
    Some(Handle(long_at(fields, 0)))
}

/// A handle, and the place and the size of a piece of what is open.
fn piece_of(fields: &[u8]) -> Option<(Handle, u64, u32)>
    ensures { result ≡ piece_of fields.now }
{
    let handle = handle_of(fields, 40)?;
    Some((handle, long_at(fields, 8), word_at(fields, 16)))
}

/// A handle, and whether the data alone are meant.
fn sync_of(fields: &[u8]) -> Option<(Handle, bool)>
    ensures { result ≡ sync_of fields.now }
{
    let handle = handle_of(fields, 16)?;
    Some((handle, word_at(fields, 8) & 1 != 0))
}

// ---- the mount

fn init(fields: &[u8]) -> Option<Request<'_>>
    ensures { option_map seen result ≡ asked_of Opcode.Init fields.now }
{
    if fields.len() < 16 {
        return None;
    }
    Some(Request::Init(Offer {
        major: word_at(fields, 0),
        minor: word_at(fields, 4),
        readahead: word_at(fields, 8),
        flags: word_at(fields, 12),
    }))
}

fn interrupt(fields: &[u8]) -> Option<Request<'_>>
    ensures { option_map seen result ≡ asked_of Opcode.Interrupt fields.now }
{
    if fields.len() < 8 {
        return None;
    }
    Some(Request::Interrupt {
        unique: Unique(long_at(fields, 0)),
    })
}

fn forget(fields: &[u8]) -> Option<Request<'_>>
    ensures { option_map seen result ≡ asked_of Opcode.Forget fields.now }
{
    if fields.len() < 8 {
        return None;
    }
    Some(Request::Forget {
        lookups: long_at(fields, 0),
    })
}

fn batch_forget(fields: &[u8]) -> Option<Request<'_>>
    ensures { option_map seen result ≡ asked_of Opcode.BatchForget fields.now }
{
    if fields.len() < 8 {
        return None;
    }
    let forgets = forgotten_of(fields)?;
    Some(Request::BatchForget(forgets))
}

/// The nodes that are forgotten, of which the number stands in front.
fn forgotten_of(fields: &[u8]) -> Option<Forgets<'_>>
    requires { 8 ≤ length fields.now }
    ensures { option_map forgets_of result ≡ forgotten_of fields.now }
{
    let bytes = 16 * word_at(fields, 0) as usize;
    if fields.len() < 8 + bytes {
        return None;
    }
    Some(Forgets {
        bytes: &fields[8..8 + bytes],
    })
}

// ---- attributes

fn get_attributes(fields: &[u8]) -> Option<Request<'_>>
    ensures { option_map seen result ≡ asked_of Opcode.GetAttributes fields.now }
{
    if fields.len() < 16 {
        return None;
    }
    Some(Request::GetAttributes {
        handle: chosen(word_at(fields, 0), 1, Handle(long_at(fields, 8))),
    })
}

fn set_attributes(fields: &[u8]) -> Option<Request<'_>>
    ensures { option_map seen result ≡ asked_of Opcode.SetAttributes fields.now }
{
    if fields.len() < 88 {
        return None;
    }
    Some(Request::SetAttributes(changes_of(fields)))
}

/// Which attributes are to be set.
fn changes_of(fields: &[u8]) -> Changes
    requires { 88 ≤ length fields.now }
    ensures { result ≡ changes_of fields.now }
{
    let flags = word_at(fields, 0);
    let accessed = moment(flags, 1 << 7, time_at(fields, 32, 56));
    let modified = moment(flags, 1 << 8, time_at(fields, 40, 60));
    Changes {
        handle: chosen(flags, 1 << 6, Handle(long_at(fields, 8))),
        size: chosen(flags, 1 << 3, long_at(fields, 16)),
        mode: chosen(flags, 1, word_at(fields, 68)),
        user: chosen(flags, 1 << 1, word_at(fields, 76)),
        group: chosen(flags, 1 << 2, word_at(fields, 80)),
        accessed: chosen(flags, 1 << 4, accessed),
        modified: chosen(flags, 1 << 5, modified),
        changed: chosen(flags, 1 << 10, time_at(fields, 48, 64)),
    }
}

/// The value, if this bit of the flags is set.
fn chosen<T: Copy>(flags: u32, bit: u32, value: T) -> Option<T>
    ensures { result ≡ chosen flags bit value }
{
    if flags & bit == 0 {
        return None;
    }
    Some(value)
}

/// The time of the call, if this bit of the flags is set; else this one.
fn moment(flags: u32, bit: u32, time: Time) -> Moment
    ensures { result ≡ moment flags bit time }
{
    if flags & bit == 0 {
        return Moment::At(time);
    }
    Moment::Now
}

/// The time of which the seconds and the nanoseconds stand at these places.
fn time_at(fields: &[u8], seconds: usize, nanoseconds: usize) -> Time
    requires seconds { seconds + 8 ≤ length fields.now }
    requires nanoseconds { nanoseconds + 4 ≤ length fields.now }
    ensures { result ≡ time_at seconds nanoseconds fields.now }
{
    Time {
        seconds: long_at(fields, seconds),
        nanoseconds: word_at(fields, nanoseconds),
    }
}

// ---- names

fn make_symbolic_link(fields: &[u8]) -> Option<Request<'_>>
    ensures { option_map seen result ≡ asked_of Opcode.MakeSymbolicLink fields.now }
{
    let (name, target) = names_of(fields)?;
    Some(Request::MakeSymbolicLink { name, target })
}

fn make_node(fields: &[u8]) -> Option<Request<'_>>
    ensures { option_map seen result ≡ asked_of Opcode.MakeNode fields.now }
{
    if fields.len() < 16 {
        return None;
    }
    Some(Request::MakeNode {
        mode: word_at(fields, 0),
        device: word_at(fields, 4),
        umask: word_at(fields, 8),
        name: name_of(&fields[16..])?,
    })
}

fn make_directory(fields: &[u8]) -> Option<Request<'_>>
    ensures { option_map seen result ≡ asked_of Opcode.MakeDirectory fields.now }
{
    if fields.len() < 8 {
        return None;
    }
    Some(Request::MakeDirectory {
        mode: word_at(fields, 0),
        umask: word_at(fields, 4),
        name: name_of(&fields[8..])?,
    })
}

fn create(fields: &[u8]) -> Option<Request<'_>>
    ensures { option_map seen result ≡ asked_of Opcode.Create fields.now }
{
    if fields.len() < 16 {
        return None;
    }
    Some(Request::Create {
        flags: word_at(fields, 0),
        mode: word_at(fields, 4),
        umask: word_at(fields, 8),
        name: name_of(&fields[16..])?,
    })
}

fn allocate(fields: &[u8]) -> Option<Request<'_>>
    ensures { option_map seen result ≡ asked_of Opcode.Allocate fields.now }
{
    if fields.len() < 32 {
        return None;
    }
    Some(Request::Allocate {
        handle: Handle(long_at(fields, 0)),
        offset: long_at(fields, 8),
        bytes: long_at(fields, 16),
        mode: word_at(fields, 24),
    })
}

fn link(fields: &[u8]) -> Option<Request<'_>>
    ensures { option_map seen result ≡ asked_of Opcode.Link fields.now }
{
    if fields.len() < 8 {
        return None;
    }
    Some(Request::Link {
        node: NodeId(long_at(fields, 0)),
        name: name_of(&fields[8..])?,
    })
}

fn rename(fields: &[u8]) -> Option<Request<'_>>
    ensures { option_map seen result ≡ asked_of Opcode.Rename fields.now }
{
    if fields.len() < 8 {
        return None;
    }
    let (old, new) = names_of(&fields[8..])?;
    Some(Request::Rename {
        directory: NodeId(long_at(fields, 0)),
        flags: 0,
        old,
        new,
    })
}

fn rename_with_flags(fields: &[u8]) -> Option<Request<'_>>
    ensures { option_map seen result ≡ asked_of Opcode.RenameWithFlags fields.now }
{
    if fields.len() < 16 {
        return None;
    }
    let (old, new) = names_of(&fields[16..])?;
    Some(Request::Rename {
        directory: NodeId(long_at(fields, 0)),
        flags: word_at(fields, 8),
        old,
        new,
    })
}

// ---- open files and directories

fn open(fields: &[u8]) -> Option<Request<'_>>
    ensures { option_map seen result ≡ asked_of Opcode.Open fields.now }
{
    if fields.len() < 8 {
        return None;
    }
    Some(Request::Open {
        flags: word_at(fields, 0),
    })
}

fn open_directory(fields: &[u8]) -> Option<Request<'_>>
    ensures { option_map seen result ≡ asked_of Opcode.OpenDirectory fields.now }
{
    if fields.len() < 8 {
        return None;
    }
    Some(Request::OpenDirectory {
        flags: word_at(fields, 0),
    })
}

fn read_file(fields: &[u8]) -> Option<Request<'_>>
    ensures { option_map seen result ≡ asked_of Opcode.Read fields.now }
{
    let (handle, offset, size) = piece_of(fields)?;
    Some(Request::Read {
        handle,
        offset,
        size,
    })
}

fn read_directory(fields: &[u8]) -> Option<Request<'_>>
    ensures { option_map seen result ≡ asked_of Opcode.ReadDirectory fields.now }
{
    let (handle, offset, size) = piece_of(fields)?;
    Some(Request::ReadDirectory {
        handle,
        offset,
        size,
    })
}

fn read_directory_plus(fields: &[u8]) -> Option<Request<'_>>
    ensures { option_map seen result ≡ asked_of Opcode.ReadDirectoryPlus fields.now }
{
    let (handle, offset, size) = piece_of(fields)?;
    Some(Request::ReadDirectoryPlus {
        handle,
        offset,
        size,
    })
}

fn write_file(fields: &[u8]) -> Option<Request<'_>>
    ensures { option_map seen result ≡ asked_of Opcode.Write fields.now }
{
    if fields.len() < 40 {
        return None;
    }
    Some(Request::Write {
        handle: Handle(long_at(fields, 0)),
        offset: long_at(fields, 8),
        bytes: written_of(fields)?,
    })
}

/// The bytes that are to be written, of which the number stands in the fields.
fn written_of(fields: &[u8]) -> Option<&[u8]>
    requires { 40 ≤ length fields.now }
    ensures { option_map (λ bytes. bytes.now) result ≡ written_of fields.now }
{
    let bytes = word_at(fields, 16) as usize;
    if fields.len() < 40 + bytes {
        return None;
    }
    Some(&fields[40..40 + bytes])
}

fn sync_file(fields: &[u8]) -> Option<Request<'_>>
    ensures { option_map seen result ≡ asked_of Opcode.Sync fields.now }
{
    let (handle, data_only) = sync_of(fields)?;
    Some(Request::Sync { handle, data_only })
}

fn sync_directory(fields: &[u8]) -> Option<Request<'_>>
    ensures { option_map seen result ≡ asked_of Opcode.SyncDirectory fields.now }
{
    let (handle, data_only) = sync_of(fields)?;
    Some(Request::SyncDirectory { handle, data_only })
}
