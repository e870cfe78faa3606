//! Sessions as they are made up: the requests, and the replies that are wanted.
use crate::served::Messages;
use crate::spelling::{
    CREATE, DESTROY, Field, GET_ATTRIBUTES, INIT, LINK, MAKE_DIRECTORY, MAKE_LINK, MAKE_NODE, OPEN,
    READ, READ_LINK, RELEASE, RENAME, RENAME_2, SET_ATTRIBUTES, STALE, STATISTICS, UNLINK, WRITE,
    reply, request,
};
use Field::{Bytes, Long, Name, Short, Word, Zeroes};
use std::alloc::{AllocError, Global};
use std::test::*;

/// The root's node; its number is 2.
pub(crate) const ROOT: u64 = 1;

/// Requests, and the replies to those that ask for one. No request fails at once: a session for which memory was too short has no
/// messages.
#[derive(Drop)]
pub(crate) struct Session {
    alloc: Global,
    unique: u64,
    messages: Messages,
    is_whole: bool,
}

/// What attributes tell.
#[derive(Clone, Copy)]
pub(crate) struct Shown {
    pub(crate) number: u64,
    pub(crate) size: u64,
    /// How many blocks of 512 bytes it has.
    pub(crate) blocks: u64,
    pub(crate) mode: u32,
    pub(crate) links: u32,
    pub(crate) group: u32,
    /// The number of a device.
    pub(crate) device: u32,
}

impl Session {
    /// One that has begun.
    pub(crate) fn new(alloc: Global) -> Session {
        let mut session = Session {
            alloc,
            unique: 0,
            messages: Messages::new(alloc),
            is_whole: true,
        };
        session.agrees();
        session
    }

    /// A version is asked for, and is agreed on.
    fn agrees(&mut self) {
        self.asks(
            INIT,
            0,
            &[
                Word(7),
                Word(45),
                Word(131_072),
                Word(0x73ff_fffb),
                Zeroes(48),
            ],
            &[
                Word(7),
                Word(31),
                Word(131_072),
                Word(0x44_2021),
                Short(12),
                Short(9),
                Word(131_072),
                Word(1),
                Short(256),
                Short(0),
                Zeroes(32),
            ],
        );
    }

    /// The volume is unmounted.
    pub(crate) fn end(mut self) -> Result<Messages, Fail> {
        self.asks(DESTROY, 0, &[], &[]);
        let Session {
            alloc: _,
            unique: _,
            messages,
            is_whole,
        } = self;
        if is_whole {
            Ok(messages)
        } else {
            Err(Fail::from("memory"))
        }
    }

    /// A request, and the reply's fields.
    pub(crate) fn asks(&mut self, kind: u32, node: u64, fields: &[Field<'_>], told: &[Field<'_>]) {
        self.is_answered(kind, node, fields, 0, told);
    }

    /// A request that is refused with an error.
    pub(crate) fn is_refused(&mut self, kind: u32, node: u64, fields: &[Field<'_>], error: u32) {
        self.is_answered(kind, node, fields, error, &[]);
    }

    fn is_answered(
        &mut self,
        kind: u32,
        node: u64,
        fields: &[Field<'_>],
        error: u32,
        told: &[Field<'_>],
    ) {
        self.passes(kind, node, fields);
        let kept = self.keep_reply(error, told);
        self.is_whole &= kept.is_ok();
    }

    /// A request without a reply.
    pub(crate) fn passes(&mut self, kind: u32, node: u64, fields: &[Field<'_>]) {
        let kept = self.keep_request(kind, node, fields);
        self.is_whole &= kept.is_ok();
    }

    fn keep_request(
        &mut self,
        kind: u32,
        node: u64,
        fields: &[Field<'_>],
    ) -> Result<(), AllocError> {
        self.unique = self.unique.saturating_add(2);
        let request = request(self.alloc, kind, self.unique, node, fields)?;
        self.messages.requests.push(request)?;
        Ok(())
    }

    fn keep_reply(&mut self, error: u32, told: &[Field<'_>]) -> Result<(), AllocError> {
        let reply = reply(self.alloc, error, self.unique, told)?;
        self.messages.replies.push(reply)?;
        Ok(())
    }

    /// A request that is answered with fields, with attributes behind them, and more behind those.
    fn tells(
        &mut self,
        kind: u32,
        node: u64,
        fields: &[Field<'_>],
        before: &[Field<'static>],
        shown: Shown,
        behind: &[Field<'static>],
    ) {
        match shown.between(self.alloc, before, behind) {
            Ok(told) => self.asks(kind, node, fields, told.as_slice()),
            Err(_) => self.is_whole = false,
        }
    }

    /// A request that is answered with where a name leads, and more behind it.
    pub(crate) fn finds(
        &mut self,
        kind: u32,
        parent: u64,
        fields: &[Field<'_>],
        node: u64,
        shown: Shown,
        behind: &[Field<'static>],
    ) {
        let entry = [Long(node), Long(0), Long(3600), Long(1), Word(0), Word(0)];
        self.tells(kind, parent, fields, &entry, shown, behind);
    }

    /// A request that is answered with attributes.
    pub(crate) fn shows(&mut self, kind: u32, node: u64, fields: &[Field<'_>], shown: Shown) {
        let before = [Long(1), Word(0), Word(0)];
        self.tells(kind, node, fields, &before, shown, &[]);
    }

    /// A node's attributes are asked for.
    pub(crate) fn has(&mut self, node: u64, shown: Shown) {
        self.shows(GET_ATTRIBUTES, node, &[Zeroes(16)], shown);
    }

    /// A node is no more.
    pub(crate) fn is_gone(&mut self, node: u64) {
        self.is_refused(GET_ATTRIBUTES, node, &[Zeroes(16)], STALE);
    }

    /// A file is made, and is open.
    pub(crate) fn creates(&mut self, parent: u64, name: &[u8], node: u64, shown: Shown) {
        self.finds(
            CREATE,
            parent,
            &made(name),
            node,
            shown,
            &opened(shown.number),
        );
    }

    /// A file is not made.
    pub(crate) fn creates_not(&mut self, parent: u64, name: &[u8], error: u32) {
        self.is_refused(CREATE, parent, &made(name), error);
    }

    /// A file is made, and is not open.
    pub(crate) fn makes_file(&mut self, name: &[u8], node: u64, shown: Shown) {
        let fields = [Word(FILE_MODE), Word(0), Word(0), Word(0), Name(name)];
        self.finds(MAKE_NODE, ROOT, &fields, node, shown, &[]);
    }

    /// A node of this mode is made, with the number of a device.
    pub(crate) fn makes_node(&mut self, name: &[u8], node: u64, device: u32, shown: Shown) {
        let fields = [Word(shown.mode), Word(device), Word(0), Word(0), Name(name)];
        self.finds(MAKE_NODE, ROOT, &fields, node, shown, &[]);
    }

    /// A symbolic link is made.
    pub(crate) fn makes_link(&mut self, name: &[u8], target: &[u8], node: u64, shown: Shown) {
        let fields = [Name(name), Name(target)];
        self.finds(MAKE_LINK, ROOT, &fields, node, shown, &[]);
    }

    /// A symbolic link leads there.
    pub(crate) fn reads_link(&mut self, node: u64, target: &[u8]) {
        self.asks(READ_LINK, node, &[], &[Bytes(target)]);
    }

    /// A directory without names is made.
    pub(crate) fn makes_directory(&mut self, parent: u64, name: &[u8], node: u64, number: u64) {
        let shown = directory(number, 2);
        self.finds(
            MAKE_DIRECTORY,
            parent,
            &made_directory(name),
            node,
            shown,
            &[],
        );
    }

    /// A directory is not made.
    pub(crate) fn makes_no_directory(&mut self, name: &[u8], error: u32) {
        self.is_refused(MAKE_DIRECTORY, ROOT, &made_directory(name), error);
    }

    /// A file is opened with these flags.
    pub(crate) fn opens(&mut self, node: u64, flags: u32, number: u64) {
        self.asks(OPEN, node, &[Word(flags), Word(0)], &opened(number));
    }

    /// A file is open no more.
    pub(crate) fn releases(&mut self, node: u64, number: u64) {
        self.asks(RELEASE, node, &[Long(number), Zeroes(16)], &[]);
    }

    /// So many of these bytes are written.
    pub(crate) fn writes(&mut self, node: u64, handle: u64, offset: u64, bytes: &[u8], count: u32) {
        let told = [Word(count), Word(0)];
        self.asks(WRITE, node, &written(handle, offset, bytes), &told);
    }

    /// These bytes are not written.
    pub(crate) fn writes_not(
        &mut self,
        node: u64,
        handle: u64,
        offset: u64,
        bytes: &[u8],
        error: u32,
    ) {
        self.is_refused(WRITE, node, &written(handle, offset, bytes), error);
    }

    /// These bytes are read where so many are asked for.
    pub(crate) fn reads(&mut self, node: u64, handle: u64, offset: u64, size: u32, bytes: &[u8]) {
        self.reads_fields(node, handle, offset, size, &[Bytes(bytes)]);
    }

    /// The same of bytes as fields tell them.
    pub(crate) fn reads_fields(
        &mut self,
        node: u64,
        handle: u64,
        offset: u64,
        size: u32,
        told: &[Field<'_>],
    ) {
        let fields = [Long(handle), Long(offset), Word(size), Zeroes(20)];
        self.asks(READ, node, &fields, told);
    }

    /// A size is set.
    pub(crate) fn cuts(&mut self, node: u64, size: u64, shown: Shown) {
        self.shows(SET_ATTRIBUTES, node, &sized(size), shown);
    }

    /// A size is not set.
    pub(crate) fn cuts_not(&mut self, node: u64, size: u64, error: u32) {
        self.is_refused(SET_ATTRIBUTES, node, &sized(size), error);
    }

    /// A name is given up.
    pub(crate) fn unlinks(&mut self, parent: u64, name: &[u8]) {
        self.asks(UNLINK, parent, &[Name(name)], &[]);
    }

    /// A file is given one more name in the root.
    pub(crate) fn links(&mut self, node: u64, name: &[u8], shown: Shown) {
        self.finds(LINK, ROOT, &[Long(node), Name(name)], node, shown, &[]);
    }

    /// A name of one directory becomes one of another.
    pub(crate) fn moves<'a>(&mut self, parent: u64, old: &'a [u8], to: u64, new: &'a [u8]) {
        self.asks(RENAME, parent, &[Long(to), Name(old), Name(new)], &[]);
    }

    /// It does not.
    pub(crate) fn moves_not<'a>(
        &mut self,
        parent: u64,
        old: &'a [u8],
        to: u64,
        new: &'a [u8],
        error: u32,
    ) {
        self.is_refused(RENAME, parent, &[Long(to), Name(old), Name(new)], error);
    }

    /// The same with flags, of a name of the root.
    pub(crate) fn moves_so<'a>(
        &mut self,
        flags: u32,
        old: &'a [u8],
        to: u64,
        new: &'a [u8],
        error: u32,
    ) {
        let fields = [Long(to), Word(flags), Word(0), Name(old), Name(new)];
        self.is_answered(RENAME_2, ROOT, &fields, error, &[]);
    }

    /// So many of the 26 data blocks and of the 30 numbers are free.
    pub(crate) fn has_left(&mut self, blocks: u64, numbers: u64) {
        let told = [
            Long(26),
            Long(blocks),
            Long(blocks),
            Long(30),
            Long(numbers),
            Word(1024),
            Word(56),
            Word(1024),
            Word(0),
            Zeroes(24),
        ];
        self.asks(STATISTICS, ROOT, &[], &told);
    }
}

impl Shown {
    /// Its fields, and those that stand before and behind them.
    fn between(
        self,
        alloc: Global,
        before: &[Field<'static>],
        behind: &[Field<'static>],
    ) -> Result<Vec<Field<'static>>, AllocError> {
        let mut told = Vec::new(alloc);
        told.extend_from_slice(before)?;
        told.extend_from_slice(&self.fields())?;
        told.extend_from_slice(behind)?;
        Ok(told)
    }

    /// As the fields of a reply.
    fn fields(self) -> [Field<'static>; 16] {
        [
            Long(self.number),
            Long(self.size),
            Long(self.blocks),
            Long(1000),
            Long(1000),
            Long(1000),
            Word(5),
            Word(5),
            Word(5),
            Word(self.mode),
            Word(self.links),
            Word(7),
            Word(self.group),
            Word(self.device),
            Word(1024),
            Word(0),
        ]
    }
}

/// The mode of a file that is made.
const FILE_MODE: u32 = 0o100_640;

/// What asks for a new file of this name, that is open.
pub(crate) fn made(name: &[u8]) -> [Field<'_>; 5] {
    [
        Word(0o101),
        Word(FILE_MODE),
        Word(0o22),
        Word(0),
        Name(name),
    ]
}

/// The fields of a directory to be made.
fn made_directory(name: &[u8]) -> [Field<'_>; 3] {
    [Word(0o755), Word(0o22), Name(name)]
}

/// What tells that a file is open.
fn opened(number: u64) -> [Field<'static>; 3] {
    [Long(number), Word(2), Word(0)]
}

/// The fields of a write.
pub(crate) fn written(handle: u64, offset: u64, bytes: &[u8]) -> [Field<'_>; 5] {
    let size = u32::try_from(bytes.len()).unwrap_or(u32::MAX);
    [
        Long(handle),
        Long(offset),
        Word(size),
        Zeroes(20),
        Bytes(bytes),
    ]
}

/// The fields that set a size.
fn sized(size: u64) -> [Field<'static>; 5] {
    [Word(8), Word(0), Long(0), Long(size), Zeroes(64)]
}

/// The fields that set a mode and a group.
pub(crate) fn grouped(mode: u32, group: u32) -> [Field<'static>; 6] {
    [
        Word(5),
        Zeroes(64),
        Word(mode),
        Zeroes(8),
        Word(group),
        Zeroes(4),
    ]
}

/// The fields that set a mode.
pub(crate) fn moded(mode: u32) -> [Field<'static>; 4] {
    [Word(1), Zeroes(64), Word(mode), Zeroes(16)]
}

/// A file of this number, size and blocks, with one name.
pub(crate) fn file(number: u64, size: u64, blocks: u64) -> Shown {
    Shown {
        number,
        size,
        blocks,
        mode: FILE_MODE,
        links: 1,
        group: 8,
        device: 0,
    }
}

/// A file of the mode that all have where modes are not kept.
pub(crate) fn plain(number: u64, size: u64, blocks: u64) -> Shown {
    Shown {
        mode: 0o100_644,
        ..file(number, size, blocks)
    }
}

/// A directory of this number with so many links.
pub(crate) fn directory(number: u64, links: u32) -> Shown {
    Shown {
        number,
        size: 1024,
        blocks: 2,
        mode: 0o40_755,
        links,
        group: 8,
        device: 0,
    }
}

/// A symbolic link of this number, with a target of so many bytes.
pub(crate) fn symbolic_link(number: u64, size: u64) -> Shown {
    Shown {
        mode: 0o120_777,
        ..file(number, size, 2 * size.div_ceil(1024))
    }
}
