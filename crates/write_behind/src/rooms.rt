//! Writes that wait for the second thread, in memory that was asked for before the first of them.
ghost use Rattle.std.specs.Prelude.{◌≡◌, ◌+◌, ◌++◌, ◌∷◌, [], IfOk, MatchBool, MatchOption, OnErr, OnOk, map};
ghost use Rattle.std.specs.List.{list_any};
ghost use Rattle.write_behind.specs.Writes.{HasTaken, count_of, end_of, has_byte_of, is_left, meet, span_of, write_of};

use std::alloc::{AllocError, Global};
use std::collections::VecDeque;
use std::io;
use std::marker::Model;
use std::os::unix::fs::FileExt;

/// How many bytes a room has.
pub(crate) const ROOM_BYTES: usize = 1 << 17;

/// How many writes go into a room at most.
const ROOM_WRITES: usize = 128;

/// How many rooms there are: so much may wait for the medium without the first thread waiting for it.
const ROOMS: usize = 8;

/// Bytes of a file, from this one on.
#[derive(Clone, Copy, Debug, PartialEq, Eq)]
pub(crate) struct Span {
    pub(crate) offset: u64,
    pub(crate) count: usize,
}

impl Span {
    /// Whether some byte is in both.
    fn meets(&self, other: &Span) -> bool
        ensures { result ≡ meet self.now other.now }
    {
        self.offset < other.end() && other.offset < self.end()
    }

    /// The byte behind the last one.
    fn end(&self) -> u64
        ensures { result ≡ end_of self.now }
    {
        self.offset.saturating_add(self.count as u64)
    }
}

/// Writes, the first first.
#[derive(Drop)]
pub struct Room {
    /// Where each goes.
    spans: Vec<Span>,
    /// The bytes of all, in the same order.
    bytes: Vec<u8>,
}

impl Model for Room {
    ghost use Rattle.std.specs.Prelude.{◌≡◌, List, length};
    ghost use Rattle.write_behind.specs.Writes.{Write, bytes_in, writes_in};

    ghost Value = { List Write };

    ghost view = { λ room. writes_in room.spans.items room.bytes.items };

    ghost invariant = { λ room. bytes_in room.spans.items ≡ length room.bytes.items };
}

impl Room {
    /// No write, and memory for as many as go in.
    fn new(alloc: Global) -> Result<Room, AllocError>
        ensures { IfOk result (λ room. room ≡ []) }
    {
        Ok(Room {
            spans: Vec::with_capacity(alloc, ROOM_WRITES)?,
            bytes: Vec::with_capacity(alloc, ROOM_BYTES)?,
        })
    }

    /// Whether a write of so many bytes goes in.
    fn has_place(&self, count: usize) -> bool {
        self.spans.len() < ROOM_WRITES && count <= ROOM_BYTES.saturating_sub(self.bytes.len())
    }

    /// Adds a write behind the others.
    fn add(&mut self, bytes: &[u8], offset: u64) -> Result<(), AllocError>
        ensures added { OnOk result (self.new ≡ self.old ++ write_of bytes.now offset ∷ []) }
        ensures refused { OnErr result (self.new ≡ self.old) }
    {
        self.spans.reserve(1)?;
        self.bytes.extend_from_slice(bytes)?;
        self.spans.push_reserved(Span {
            offset,
            count: bytes.len(),
        });
        Ok(())
    }

    /// Has no write any more. The memory is kept.
    fn clear(&mut self)
        ensures { self.new ≡ [] }
    {
        self.spans.clear();
        self.bytes.clear();
    }

    /// Carries all out, the first first, up to one that is refused.
    pub fn write_to<F: FileExt>(&self, file: &F) -> io::Result<()> {
        let mut left = self.bytes.as_slice();
        for span in &self.spans {
            let (bytes, behind) = left.split_at(span.count);
            file.write_all_at(bytes, span.offset)?;
            left = behind;
        }
        Ok(())
    }

    /// How many bytes its writes have.
    pub(crate) fn count(&self) -> usize
        ensures { result ≡ count_of self.now }
    {
        self.bytes.len()
    }

    /// Whether one of its writes has a byte of these.
    fn meets(&self, span: &Span) -> bool
        ensures { result ≡ has_byte_of span.now self.now }
    {
        self.spans.iter().any(|own| own.meets(span))
    }
}

/// The rooms.
#[derive(Drop)]
pub struct Rooms {
    /// Those with writes, the first first; the next write goes into the last one.
    waiting: VecDeque<Room>,
    /// Where the writes go that are being carried out.
    going: Vec<Span>,
    /// Those whose writes were carried out.
    free: Vec<Room>,
}

impl Model for Rooms {
    ghost use Rattle.std.specs.Prelude.{length};
    ghost use Rattle.write_behind.specs.Writes.{Left, writes_of_rooms};

    ghost Value = { Left };

    ghost view = { λ rooms. record { going = rooms.going.items; waiting = writes_of_rooms rooms.waiting.items; free = length rooms.free.items } };
}

impl Rooms {
    /// As many rooms as there are, without a write. Takes memory for all that they will hold.
    pub fn new(alloc: Global) -> Result<Rooms, AllocError>
        ensures { IfOk result (λ rooms. rooms ≡ record { going = []; waiting = []; free = 8 }) }
    {
        let mut free = Vec::with_capacity(alloc, ROOMS)?;
        for _room in 0..ROOMS {
            free.push(Room::new(alloc)?)?;
        }
        Ok(Rooms {
            waiting: VecDeque::with_capacity(alloc, ROOMS)?,
            going: Vec::with_capacity(alloc, ROOM_WRITES)?,
            free,
        })
    }

    /// Takes a write behind all others, and tells whether there was room for it: else no room is free.
    pub fn take(&mut self, bytes: &[u8], offset: u64) -> Result<bool, AllocError>
        ensures taken { IfOk result (λ taken. MatchBool taken (HasTaken (write_of bytes.now offset) self.old self.new) ((self.new ≡ self.old) × (self.old.free ≡ 0))) }
        ensures refused { OnErr result (self.new ≡ self.old) }
    {
        match self.waiting.back_mut() {
            Some(last) if last.has_place(bytes.len()) => {
                last.add(bytes, offset)?;
                Ok(true)
            }
            _ => self.take_into_next(bytes, offset),
        }
    }

    /// The same, into a room without writes.
    fn take_into_next(&mut self, bytes: &[u8], offset: u64) -> Result<bool, AllocError>
        ensures taken { IfOk result (λ taken. MatchBool taken (HasTaken (write_of bytes.now offset) self.old self.new) ((self.new ≡ self.old) × (self.old.free ≡ 0))) }
        ensures refused { OnErr result (self.new ≡ self.old) }
    {
        self.waiting.reserve(1)?;
        let Some(mut room) = self.free.pop() else {
            return Ok(false);
        };
        room.clear();
        if let Err(error) = room.add(bytes, offset) {
            self.free.push_reserved(room);
            return Err(error);
        }
        self.waiting.push_back_reserved(room);
        Ok(true)
    }

    /// The first room with writes, if there is one: they are being carried out.
    pub fn begin(&mut self) -> Result<Option<Room>, AllocError>
        ensures begun { IfOk result (λ next. MatchOption next ((self.old.waiting ≡ []) × (self.new ≡ self.old))
            (λ room. (self.old.waiting ≡ room ++ self.new.waiting) × (self.new.going ≡ self.old.going ++ map span_of room))) }
        ensures refused { OnErr result (self.new ≡ self.old) }
    {
        let Some(room) = self.waiting.front() else {
            return Ok(None);
        };
        self.going.extend_from_slice(room.spans.as_slice())?;
        Ok(self.waiting.pop_front())
    }

    /// All writes of this room were carried out: it may take others.
    pub fn end(&mut self, room: Room) -> Result<(), AllocError>
        ensures ended { OnOk result (self.new ≡ record { going = []; waiting = self.old.waiting; free = self.old.free + 1 }) }
        ensures refused { OnErr result (self.new ≡ self.old) }
    {
        self.free.push(room)?;
        self.going.clear();
        Ok(())
    }

    /// Whether a write that is not carried out has a byte of these.
    pub(crate) fn meets(&self, span: &Span) -> bool
        ensures { result ≡ is_left span.now self.now }
    {
        self.goes_to(span) || self.waits_for(span)
    }

    /// Whether a write that is being carried out has a byte of these.
    fn goes_to(&self, span: &Span) -> bool
        ensures { result ≡ list_any (λ own. meet own span.now) self.now.going }
    {
        self.going.iter().any(|own| own.meets(span))
    }

    /// Whether a write that waits has a byte of these.
    fn waits_for(&self, span: &Span) -> bool
        ensures { result ≡ has_byte_of span.now self.now.waiting }
    {
        self.waiting.iter().any(|room| room.meets(span))
    }
}
