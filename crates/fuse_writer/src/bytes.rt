//! The bytes of files: read, written, and lengthened by zeroes.
ghost use Rattle.std.specs.Prelude.{◌≡◌, ◌≤◌, ◌<◌, ◌+◌, ◌-◌, ◌/◌, ◌++◌, ◌^◌, ℕ, suc, IfErr, IfOk, List, OnOk, length};
ghost use Rattle.fuse_wire.specs.declared.bodies.Body.TheVariants.{Written};
ghost use Rattle.fuse_wire.specs.declared.errors.Errno.{Errno as Number};
ghost use Rattle.model.specs.Uses.{blocks_of};
ghost use Rattle.fuse_writer.specs.Doings.{Does, Doing, LeadsOn, go_on_or, items_of, said_by};
ghost use Rattle.fuse_writer.specs.Requests.{count_in, filled, fills_blocks, fills_to, if_block, place_in, reads, reads_between, reads_blocks, writes, writes_between, writes_part, writes_piece};
ghost use Rattle.fuse_writer.specs.Saying.{said_bytes};

use crate::mounted::Mounted;
use crate::opening::handle_of;
use device::Device;
use fuse_reader::{cut, end_of};
use fuse_wire::{Errno, NodeId};
use inode::blocks_of_size;
use layout::BLOCK_BYTES;
use reading::record_of;
use snapshot::Command;
use std::alloc::AllocError;

/// The most bytes that a request may ask for: 256 pages of 4 KiB.
pub(crate) const MOST_BYTES: u32 = 1 << 20;

/// The bytes of a block.
const BLOCK: u64 = BLOCK_BYTES as u64;

/// From where to where bytes of a file are meant.
#[derive(Clone, Copy)]
struct Span {
    from: u32,
    to: u32,
}

/// How far into a block a place of a file lies: at its start if it lies before, at its end if behind.
fn place_in(index: u32, at: u32) -> usize
    ensures place { result ≡ place_in index at }
    ensures within { result ≤ 1024 }
{
    let start = u64::from(index) * BLOCK;
    u64::from(at).saturating_sub(start).min(BLOCK) as usize
}

/// Reads so many bytes of an open file from an offset on, as far as the file reaches.
pub(crate) fn read<D: Device>(
    mounted: &mut Mounted<D>,
    node: NodeId,
    offset: u64,
    size: u32,
) -> Result<Vec<u8>, Errno>
    ensures start { mounted.new.asking.start ≡ mounted.old.asking.start }
    ensures does { Does (reads mounted.old.asking.volume.kept mounted.old.session node offset size)
        mounted.old.asking mounted.old.session (said_bytes (λ bytes. bytes.items) result) mounted.new.asking mounted.new.session }
    ensures few { IfOk result (λ bytes. length bytes.items ≤ 2 ^ 21) }
{
    let number = mounted.inode(node)?;
    if size > MOST_BYTES {
        return Err(Errno::Invalid);
    }
    let handle = handle_of(mounted, number)?;
    let file = record_of(mounted.metadata(), number).size;
    let end = end_of(u64::from(file), offset, size);
    if offset >= end {
        return Ok(Vec::new(mounted.alloc));
    }
    read_between(mounted, handle, offset as u32, end as u32)
}

/// The bytes of an open file between two places.
pub(crate) fn read_between<D: Device>(
    mounted: &mut Mounted<D>,
    handle: u32,
    from: u32,
    to: u32,
) -> Result<Vec<u8>, Errno>
    requires ordered { from ≤ to }
    requires small { to ≤ from + 2 ^ 20 }
    ensures start { mounted.new.asking.start ≡ mounted.old.asking.start }
    ensures session { mounted.new.session ≡ mounted.old.session }
    ensures does { (next : List ℕ → Doing) (refused : Number → Doing) → LeadsOn (reads_between handle from to next refused)
        mounted.old.asking mounted.old.session (if_block (items_of (λ bytes. bytes.items) result) next refused) mounted.new.asking mounted.new.session }
    ensures few { IfOk result (λ bytes. length bytes.items ≤ 2 ^ 21) }
{
    let span = Span { from, to };
    let mut bytes = Vec::new(mounted.alloc);
    let first = span.from / BLOCK_BYTES as u32;
    let last = blocks_of_size(span.to);
    for index in first..last {
        read_part(mounted, handle, index, span, &mut bytes)?;
    }
    Ok(bytes)
}

/// Adds what of a block of an open file lies between two places.
fn read_part<D: Device>(
    mounted: &mut Mounted<D>,
    handle: u32,
    index: u32,
    span: Span,
    bytes: &mut Vec<u8>,
) -> Result<(), Errno>
    ensures start { mounted.new.asking.start ≡ mounted.old.asking.start }
    ensures session { mounted.new.session ≡ mounted.old.session }
    ensures read { OnOk result ((n : ℕ) (next : List ℕ → Doing) (refused : Number → Doing)
        → LeadsOn (reads_blocks handle span.from span.to index (suc n) bytes.old.items next refused) mounted.old.asking mounted.old.session
        (reads_blocks handle span.from span.to (index + 1) n bytes.new.items next refused) mounted.new.asking mounted.new.session) }
    ensures refused { IfErr result (λ error. (n : ℕ) (next : List ℕ → Doing) (refused : Number → Doing)
        → LeadsOn (reads_blocks handle span.from span.to index (suc n) bytes.old.items next refused)
        mounted.old.asking mounted.old.session (refused error) mounted.new.asking mounted.new.session) }
    ensures few { OnOk result (length bytes.new.items ≤ length bytes.old.items + 1024) }
{
    let block = mounted.ask_bytes(Command::Read { handle, index })?;
    let from = place_in(index, span.from);
    let to = place_in(index, span.to);
    let part = cut(block.as_slice(), from, to.saturating_sub(from));
    match bytes.extend_from_slice(part) {
        Ok(()) => Ok(()),
        Err(AllocError) => Err(Errno::NoMemory),
    }
}

/// Writes bytes into an open file at an offset, and tells how many: less than all where a later block was refused. Behind the end of
/// the file zeroes are written before, if that is allowed. The file is touched before, as in Linux's own file systems.
pub(crate) fn write<D: Device>(
    mounted: &mut Mounted<D>,
    node: NodeId,
    offset: u64,
    bytes: &[u8],
) -> Result<u32, Errno>
    ensures start { mounted.new.asking.start ≡ mounted.old.asking.start }
    ensures does { Does (writes mounted.old.asking.volume.kept mounted.old.session node offset bytes.now)
        mounted.old.asking mounted.old.session (said_by Written result) mounted.new.asking mounted.new.session }
{
    let number = mounted.inode(node)?;
    let handle = handle_of(mounted, number)?;
    if offset.saturating_add(bytes.len() as u64) > u64::from(u32::MAX) {
        return Err(Errno::TooBig);
    }
    let own = record_of(mounted.metadata(), number).size;
    let span = Span {
        from: offset as u32,
        to: offset as u32 + bytes.len() as u32,
    };
    let touched = mounted.touched(number);
    mounted.note(number, touched);
    fill_to(mounted, handle, own, span.from)?;
    write_between(mounted, handle, span, bytes)
}

/// Writes bytes between two places of an open file, and tells how many. Refused where not one block is written.
fn write_between<D: Device>(
    mounted: &mut Mounted<D>,
    handle: u32,
    span: Span,
    bytes: &[u8],
) -> Result<u32, Errno>
    requires few { length bytes.now < 2 ^ 32 }
    ensures start { mounted.new.asking.start ≡ mounted.old.asking.start }
    ensures does { Does (writes_between handle span.from span.to bytes.now)
        mounted.old.asking mounted.old.session (said_by Written result) mounted.new.asking mounted.new.session }
{
    let first = span.from / BLOCK_BYTES as u32;
    let last = blocks_of_size(span.to);
    let mut rest = bytes;
    let mut done = 0u32;
    for index in first..last {
        let count = count_in(index, span).min(rest.len());
        match write_part(mounted, handle, index, span.from, &rest[..count]) {
            Ok(()) => {
                rest = &rest[count..];
                done += count as u32;
            }
            Err(error) => {
                if done == 0 {
                    return Err(error);
                }
                return Ok(done);
            }
        }
    }
    Ok(done)
}

/// How many bytes of a block lie between two places.
fn count_in(index: u32, span: Span) -> usize
    ensures count { result ≡ count_in index span.from span.to }
    ensures within { result ≤ 1024 }
{
    let from = place_in(index, span.from);
    place_in(index, span.to).saturating_sub(from)
}

/// Writes bytes into a block of an open file from the place in it on that this place of the file is: what stands before is read, and
/// written with them.
fn write_part<D: Device>(
    mounted: &mut Mounted<D>,
    handle: u32,
    index: u32,
    from: u32,
    bytes: &[u8],
) -> Result<(), Errno>
    ensures start { mounted.new.asking.start ≡ mounted.old.asking.start }
    ensures session { mounted.new.session ≡ mounted.old.session }
    ensures written { (done : Doing) (refused : Number → Doing) → LeadsOn (writes_part handle index (place_in index from) bytes.now done refused)
        mounted.old.asking mounted.old.session (go_on_or result done refused) mounted.new.asking mounted.new.session }
{
    let at = place_in(index, from);
    if at == 0 {
        let Ok(piece) = Vec::from_slice(mounted.alloc, bytes) else {
            return Err(Errno::NoMemory);
        };
        return write_piece(mounted, handle, index, piece);
    }
    let block = mounted.ask_bytes(Command::Read { handle, index })?;
    let Ok(piece) = filled(block, at, bytes) else {
        return Err(Errno::NoMemory);
    };
    write_piece(mounted, handle, index, piece)
}

/// What a block has before a place, with zeroes up to it, and these bytes behind.
fn filled(block: Vec<u8>, at: usize, bytes: &[u8]) -> Result<Vec<u8>, AllocError>
    ensures { IfOk result (λ piece. piece.items ≡ filled at block.items ++ bytes.now) }
{
    let mut piece = block;
    piece.resize(at, 0)?;
    piece.extend_from_slice(bytes)?;
    Ok(piece)
}

/// Writes a piece to the start of a block of an open file.
pub(crate) fn write_piece<D: Device>(
    mounted: &mut Mounted<D>,
    handle: u32,
    index: u32,
    piece: Vec<u8>,
) -> Result<(), Errno>
    ensures start { mounted.new.asking.start ≡ mounted.old.asking.start }
    ensures session { mounted.new.session ≡ mounted.old.session }
    ensures written { (done : Doing) (refused : Number → Doing) → LeadsOn (writes_piece handle index piece.items done refused)
        mounted.old.asking mounted.old.session (go_on_or result done refused) mounted.new.asking mounted.new.session }
{
    mounted.ask_done(Command::Write {
        handle,
        index,
        piece,
    })
}

/// Lengthens an open file of this size by zeroes to another one, if it is shorter and that is allowed.
pub(crate) fn fill_to<D: Device>(
    mounted: &mut Mounted<D>,
    handle: u32,
    own: u32,
    size: u32,
) -> Result<(), Errno>
    ensures start { mounted.new.asking.start ≡ mounted.old.asking.start }
    ensures session { mounted.new.session ≡ mounted.old.session }
    ensures filled { (next : Doing) (refused : Number → Doing) → LeadsOn (fills_to mounted.old.session.rules handle own size next refused)
        mounted.old.asking mounted.old.session (go_on_or result next refused) mounted.new.asking mounted.new.session }
{
    if size <= own {
        return Ok(());
    }
    if !mounted.session.rules.fills {
        return Err(Errno::Invalid);
    }
    let span = Span {
        from: own,
        to: size,
    };
    fill_between(mounted, handle, span)
}

/// Fills an open file by zeroes between two places.
fn fill_between<D: Device>(mounted: &mut Mounted<D>, handle: u32, span: Span) -> Result<(), Errno>
    ensures start { mounted.new.asking.start ≡ mounted.old.asking.start }
    ensures session { mounted.new.session ≡ mounted.old.session }
    ensures filled { (next : Doing) (refused : Number → Doing)
        → LeadsOn (fills_blocks handle span.from span.to (span.from / 1024) (blocks_of span.to - span.from / 1024) next refused)
        mounted.old.asking mounted.old.session (go_on_or result next refused) mounted.new.asking mounted.new.session }
{
    let zeroes = [0; BLOCK_BYTES];
    let first = span.from / BLOCK_BYTES as u32;
    let last = blocks_of_size(span.to);
    for index in first..last {
        let count = count_in(index, span);
        write_part(mounted, handle, index, span.from, &zeroes[..count])?;
    }
    Ok(())
}
