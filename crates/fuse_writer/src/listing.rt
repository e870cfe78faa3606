//! Listings that tell what names lead to.
ghost use Rattle.std.specs.Prelude.{◌≡◌, ◌≤◌, ◌^◌, ℕ, IfErr, IfOk, List, OnOk, length};
ghost use Rattle.frozen.specs.Kept.{frozen_view};
ghost use Rattle.model.specs.Slots.{Good, slot};
ghost use Rattle.fuse_writer.specs.declared.session.Session.{Session as Lasting};
ghost use Rattle.fuse_writer.specs.Doings.{Does, Doing, MayLead, refuses};
ghost use Rattle.fuse_writer.specs.Requests.{adds, adds_name, adds_slot, found_or_not, if_room, lists_plus, may_tell};
ghost use Rattle.fuse_writer.specs.Saying.{said_bytes};

use crate::bytes::MOST_BYTES;
use crate::mounted::Mounted;
use crate::session::Session;
use crate::showing::{entry_of, is_below_root, kept_for};
use device::Device;
use dirent::{SLOTS, Slot, slot_in};
use frozen::Frozen;
use fuse_reader::{entry_in, shown_by};
use fuse_wire::{Entry, Errno, NodeId, fits_plus, push_entry_plus};
use reading::record_of;

/// How many slots of a directory have a dot.
const DOTS: u32 = 2;

/// A directory that is listed, and how many bytes the listing may have.
#[derive(Clone, Copy)]
struct Listed {
    directory: u32,
    room: u32,
}

/// Lists a directory from this slot on, and tells the kernel what each name leads to but the dots.
pub(crate) fn list_plus<D: Device>(
    mounted: &mut Mounted<D>,
    node: NodeId,
    from: u64,
    room: u32,
) -> Result<Vec<u8>, Errno>
    ensures start { mounted.new.asking.start ≡ mounted.old.asking.start }
    ensures few { IfOk result (λ bytes. length bytes.items ≤ 2 ^ 20) }
    ensures does { Does (lists_plus mounted.old.asking.volume.kept mounted.old.session node from room)
        mounted.old.asking mounted.old.session (said_bytes (λ bytes. bytes.items) result) mounted.new.asking mounted.new.session }
{
    let directory = mounted.directory(node)?;
    if room > MOST_BYTES {
        return Err(Errno::Invalid);
    }
    let mut listing = Vec::new(mounted.alloc);
    let end = SLOTS as u32 * record_of(mounted.metadata(), directory).blocks();
    if from >= u64::from(end) {
        return Ok(listing);
    }
    let listed = Listed { directory, room };
    for place in from as u32..end {
        let frozen = mounted.asking.metadata();
        if !add_slot(frozen, &mut mounted.session, &mut listing, listed, place)? {
            return Ok(listing);
        }
    }
    Ok(listing)
}

/// Adds the name in a slot, if one stands there, and tells whether there was room for it.
fn add_slot(
    frozen: &Frozen,
    session: &mut Session,
    listing: &mut Vec<u8>,
    listed: Listed,
    place: u32,
) -> Result<bool, Errno>
    requires { length listing.old.items ≤ listed.room }
    ensures added { IfOk result (λ goes_on. (next : Lasting → List ℕ → Doing)
        → MayLead (adds_slot frozen.now session.old listed.directory listed.room place
        (slot frozen.now.geometry (frozen_view frozen.now) listed.directory place) listing.old.items next) session.old
        (if_room goes_on session.new listing.new.items next) session.new) }
    ensures refused { IfErr result (λ error. (next : Lasting → List ℕ → Doing)
        → MayLead (adds_slot frozen.now session.old listed.directory listed.room place
        (slot frozen.now.geometry (frozen_view frozen.now) listed.directory place) listing.old.items next) session.old
        (refuses error) session.new) }
    ensures few { OnOk result (length listing.new.items ≤ listed.room) }
{
    let Some(block) = frozen.directory_block(listed.directory, place / SLOTS as u32) else {
        return Ok(true);
    };
    match slot_in(block, place, frozen.geometry().inodes()) {
        Slot::Good { number, name } => {
            add_name(frozen, session, listing, listed, place, number, name)
        }
        Slot::Empty | Slot::Bad => Ok(true),
    }
}

/// Adds a name that stands in a slot for an inode, and tells whether there was room for it.
fn add_name(
    frozen: &Frozen,
    session: &mut Session,
    listing: &mut Vec<u8>,
    listed: Listed,
    place: u32,
    number: u32,
    name: &[u8],
) -> Result<bool, Errno>
    requires room { length listing.old.items ≤ listed.room }
    requires name { length name.now ≤ 56 }
    ensures added { IfOk result (λ goes_on. (next : Lasting → List ℕ → Doing)
        → MayLead (adds_slot frozen.now session.old listed.directory listed.room place (Good number name.now) listing.old.items next) session.old
        (if_room goes_on session.new listing.new.items next) session.new) }
    ensures refused { IfErr result (λ error. (next : Lasting → List ℕ → Doing)
        → MayLead (adds_slot frozen.now session.old listed.directory listed.room place (Good number name.now) listing.old.items next) session.old
        (refuses error) session.new) }
    ensures few { OnOk result (length listing.new.items ≤ listed.room) }
{
    let entry = entry_in(frozen, place, number, name);
    let room = listed.room as usize;
    if !fits_plus(listing, room, &entry) {
        return Ok(false);
    }
    let found = told(frozen, session, listed.directory, place, number, name);
    match push_entry_plus(listing, room, found.as_ref(), &entry) {
        Ok(_) => Ok(true),
        Err(_) => Err(Errno::NoMemory),
    }
}

/// Tells the kernel of the inode to which a name leads, if it may be told.
fn told(
    frozen: &Frozen,
    session: &mut Session,
    directory: u32,
    place: u32,
    number: u32,
    name: &[u8],
) -> Option<Entry>
    ensures { (bytes entry : List ℕ) (next : Lasting → List ℕ → Doing)
        → MayLead (adds_name frozen.now session.old directory place number name.now bytes entry next) session.old
        (adds session.new bytes (found_or_not result) entry next) session.new }
{
    if !may_be_told(session, place, number) {
        return None;
    }
    let Ok(node) = session.nodes.tell(number, directory, name) else {
        return None;
    };
    let own = session.attributes_of(frozen, number);
    Some(entry_of(node, kept_for(session), shown_by(frozen, number, own)))
}

/// Whether the kernel may be told of the inode to which the name in a slot leads.
fn may_be_told(session: &Session, place: u32, number: u32) -> bool
    ensures { result ≡ may_tell session.now place number }
{
    place >= DOTS && is_below_root(session, number)
}
