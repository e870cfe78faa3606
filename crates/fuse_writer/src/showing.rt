//! What is shown of inodes.
ghost use Rattle.std.specs.Prelude.{◌≡◌, ℕ};
ghost use Rattle.frozen.specs.Kept.{Kept};
ghost use Rattle.fuse_wire.specs.declared.bodies.Body.{Body};
ghost use Rattle.fuse_wire.specs.declared.bodies.Entry.{Entry as Shown};
ghost use Rattle.fuse_nodes.specs.Table.{id_of};
ghost use Rattle.fuse_writer.specs.declared.session.Session.{Session as Lasting};
ghost use Rattle.fuse_writer.specs.Doings.{Does, said_by};
ghost use Rattle.fuse_writer.specs.Requests.{entry_of, is_below_root, kept_for, shown_of, tells};

use crate::mounted::Mounted;
use crate::session::Session;
use device::Device;
use fuse_reader::shown_by;
use fuse_wire::{Attributes, Entry, Errno, NodeId, Time};
use layout::ROOT;

/// How long the kernel may keep a name: an hour, since nobody else changes the volume.
pub(crate) const NAME_KEPT: Time = Time {
    seconds: 3600,
    nanoseconds: 0,
};

/// How long it may keep attributes while repairs may change links.
const SECOND: Time = Time {
    seconds: 1,
    nanoseconds: 0,
};

/// How long the kernel may keep attributes.
pub(crate) fn kept_for(session: &Session) -> Time
    ensures { result ≡ kept_for session.now }
{
    if session.links_stay {
        NAME_KEPT
    } else {
        SECOND
    }
}

/// What is shown of an inode.
pub(crate) fn shown_of<D: Device>(mounted: &Mounted<D>, number: u32) -> Attributes
    ensures { result ≡ shown_of mounted.now.asking.volume.kept mounted.now.session number }
{
    shown_by(mounted.metadata(), number, mounted.attributes_of(number))
}

/// Tells the kernel of the inode to which a name in a directory leads.
pub(crate) fn tell_of<D: Device>(
    mounted: &mut Mounted<D>,
    directory: u32,
    name: &[u8],
    number: u32,
) -> Result<Entry, Errno>
    ensures start { mounted.new.asking.start ≡ mounted.old.asking.start }
    ensures does { (body : Shown → Body) → Does (tells mounted.old.session directory name.now number body)
        mounted.old.asking mounted.old.session (said_by body result) mounted.new.asking mounted.new.session }
{
    if !is_below_root(&mounted.session, number) {
        return Err(Errno::Device);
    }
    let attributes = shown_of(mounted, number);
    // No memory, or the number was given to new inodes so often that no number of a node is left.
    let Ok(node) = mounted.session.nodes.tell(number, directory, name) else {
        return Err(Errno::NoMemory);
    };
    Ok(entry_of(node, kept_for(&mounted.session), attributes))
}

/// Whether a name may lead to this number: one of the volume, and not the root's.
pub(crate) fn is_below_root(session: &Session, number: u32) -> bool
    ensures { result ≡ is_below_root session.now number }
{
    number > ROOT && session.nodes.has(number)
}

/// What a name leads to that leads to an inode with these attributes, which the kernel knows by this node.
pub(crate) fn entry_of(node: NodeId, attributes_kept: Time, attributes: Attributes) -> Entry
    ensures { (kept : Kept) (s : Lasting) (number : ℕ) → node.0 ≡ id_of s.nodes number → attributes_kept ≡ kept_for s
        → attributes ≡ shown_of kept s number
        → result ≡ entry_of kept s number }
{
    Entry {
        node,
        generation: 0,
        name_kept: NAME_KEPT,
        attributes_kept,
        attributes,
    }
}
