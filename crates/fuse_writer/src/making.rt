//! The attributes of new inodes.
ghost use Rattle.std.specs.Prelude.{◌≡◌, ◌+◌, ◌%◌, ◌/◌};
ghost use Rattle.fuse_wire.specs.declared.requests.Head.{Head as Front};
ghost use Rattle.fuse_writer.specs.Ahead.{hands_on, is_device, new_attributes, words_for};
ghost use Rattle.fuse_writer.specs.Answers.{new_directory, new_file, new_link, new_node};
ghost use Rattle.fuse_writer.specs.Requests.{may_make};

use crate::granted::Rules;
use crate::mounted::Mounted;
use attributes::{Attributes, Time};
use device::Device;
use fuse_wire::Head;
use inode::ATTRIBUTES;
use snapshot::NO_ATTRIBUTES;

/// How many values the bits of a mode have that say who may use an inode.
pub(crate) const RIGHTS: u16 = 4096;

/// How many values a mode has.
const MODES: u32 = 65_536;

/// The bit of the mode of a directory that hands its group on.
const SET_GROUP: u16 = 0o2000;

/// The numbers of what an inode may be.
const FIFO: u16 = 1;

const CHARACTER_DEVICE: u16 = 2;

const DIRECTORY: u16 = 4;

const BLOCK_DEVICE: u16 = 6;

const FILE: u16 = 8;

const SOCKET: u16 = 12;

/// The mode of a symbolic link, which all may use.
const LINK_MODE: u16 = 0o120_777;

/// What a new inode is asked to be, and who asks.
#[derive(Clone, Copy, Debug, PartialEq, Eq)]
pub struct New {
    /// Its kind and who may use it.
    pub mode: u16,
    pub device: u32,
    pub user: u32,
    pub group: u32,
}

impl New {
    /// A node of the kind that its mode says.
    pub(crate) fn node(head: Head, mode: u32, device: u32) -> New
        ensures { result ≡ new_node head (mode % 65536) device }
    {
        New::with_mode(head, (mode % MODES) as u16, device)
    }

    /// A file.
    pub(crate) fn file(head: Head, mode: u32) -> New
        ensures { result ≡ new_file head mode }
    {
        New::with_mode(head, FILE * RIGHTS + rights_of(mode), 0)
    }

    /// A directory.
    pub(crate) fn directory(head: Head, mode: u32) -> New
        ensures { result ≡ new_directory head mode }
    {
        New::with_mode(head, DIRECTORY * RIGHTS + rights_of(mode), 0)
    }

    /// A symbolic link.
    pub(crate) fn link(head: Head) -> New
        ensures { result ≡ new_link head }
    {
        New::with_mode(head, LINK_MODE, 0)
    }

    /// What it is to be, as a number: the upper four bits of its mode.
    pub(crate) fn kind(self) -> u16
        ensures { result ≡ self.mode / 4096 }
    {
        self.mode / RIGHTS
    }

    fn with_mode(head: Head, mode: u16, device: u32) -> New
        ensures { result ≡ new_node head mode device }
    {
        New {
            mode,
            device,
            user: head.user,
            group: head.group,
        }
    }
}

/// Who may use an inode of this mode.
fn rights_of(mode: u32) -> u16
    ensures { result ≡ mode % 4096 }
{
    (mode % u32::from(RIGHTS)) as u16
}

/// Whether a node of this kind may be made: where attributes are not kept, a file alone.
pub(crate) fn may_make(rules: Rules, kind: u16) -> bool
    ensures { result ≡ may_make rules kind }
{
    kind == FILE
        || rules.keeps_attributes
            && (kind == FIFO || kind == CHARACTER_DEVICE || kind == BLOCK_DEVICE || kind == SOCKET)
}

/// What a new inode of a directory has that has these attributes. A directory whose bit for it is set hands its group on, and the bit
/// to new directories.
#[tactic(auto, unfolding(crate::specs::Ahead::new_attributes))]
fn new_attributes(time: Time, directory: Attributes, new: New) -> Attributes
    ensures { result ≡ new_attributes time directory new }
{
    let kind = new.kind();
    let hands_on = directory.mode & SET_GROUP != 0;
    Attributes {
        mode: if hands_on && kind == DIRECTORY {
            new.mode | SET_GROUP
        } else {
            new.mode
        },
        user: new.user,
        group: if hands_on { directory.group } else { new.group },
        device: if kind == CHARACTER_DEVICE || kind == BLOCK_DEVICE {
            new.device
        } else {
            0
        },
        generation: 0,
        accessed: time,
        modified: time,
        changed: time,
    }
}

/// The numbers that a new inode of a directory is made with: none, where attributes are not kept.
pub(crate) fn words_for<D: Device>(
    mounted: &Mounted<D>,
    directory: u32,
    new: New,
) -> [u32; ATTRIBUTES]
    ensures { result ≡ words_for mounted.now.asking.volume.kept mounted.now.session directory new }
{
    if !mounted.session.rules.keeps_attributes {
        return NO_ATTRIBUTES;
    }
    let own = mounted.attributes_of(directory);
    new_attributes(mounted.session.time, own, new).write()
}
