//! Attributes that are set, the size among them.
ghost use Rattle.std.specs.Prelude.{◌≡◌, ◌&&◌, not};
ghost use Rattle.fuse_wire.specs.declared.bodies.Body.TheVariants as bodies;
ghost use Rattle.fuse_wire.specs.declared.errors.Errno.{Errno as Number};
ghost use Rattle.fuse_writer.specs.declared.session.Session.{Session};
ghost use Rattle.fuse_writer.specs.Doings.{Does, Doing, LeadsOn, go_on, go_on_or, said_by};
ghost use Rattle.fuse_writer.specs.Ahead.{has_attributes};
ghost use Rattle.fuse_writer.specs.Requests.{keeps, resizes, kept_for, resizes_by_path, sets_attributes, sets_size};

use crate::ahead::{has_attributes, with_changes};
use crate::bytes::fill_to;
use crate::granted::Rules;
use crate::mounted::Mounted;
use crate::paths::path_of;
use crate::showing::shown_of;
use device::Device;
use fuse_wire::{Attributes, Changes, Errno, NodeId};
use reading::record_of;
use snapshot::Command;

/// Sets attributes of an inode: its size first, and then the others, with the time as that of the last change.
pub(crate) fn set_attributes<D: Device>(
    mounted: &mut Mounted<D>,
    node: NodeId,
    changes: &Changes,
) -> Result<Attributes, Errno>
    ensures start { mounted.new.asking.start ≡ mounted.old.asking.start }
    ensures does { Does (sets_attributes mounted.old.asking.volume.kept mounted.old.session node changes.now)
        mounted.old.asking mounted.old.session (said_by (bodies.Attributes (kept_for mounted.new.session)) result) mounted.new.asking mounted.new.session }
{
    let number = mounted.inode(node)?;
    if is_forbidden(mounted.session.rules, changes) {
        return Err(Errno::NotPermitted);
    }
    let own = mounted.attributes_of(number);
    let attributes = with_changes(mounted.session.time, changes, own);
    set_size(mounted, number, changes.size)?;
    keep(mounted, number, changes, attributes)?;
    Ok(shown_of(mounted, number))
}

/// An inode has these attributes from now on, if they are kept: its record gets them at once if a program set more than the size, and
/// later if not.
fn keep<D: Device>(
    mounted: &mut Mounted<D>,
    number: u32,
    changes: &Changes,
    attributes: attributes::Attributes,
) -> Result<(), Errno>
    ensures start { mounted.new.asking.start ≡ mounted.old.asking.start }
    ensures does { (next : Session → Doing) → LeadsOn (keeps mounted.old.session number changes.now attributes next)
        mounted.old.asking mounted.old.session (go_on result (next mounted.new.session)) mounted.new.asking mounted.new.session }
{
    if !mounted.session.rules.keeps_attributes {
        return Ok(());
    }
    if !has_attributes(changes) {
        mounted.note(number, attributes);
        return Ok(());
    }
    mounted.ask_done(Command::SetAttributes {
        inode: number,
        attributes: attributes.write(),
    })?;
    mounted.clear(number);
    Ok(())
}

/// Whether attributes are to be set that are not kept.
fn is_forbidden(rules: Rules, changes: &Changes) -> bool
    ensures { result ≡ (has_attributes changes.now && not rules.keeps_attributes) }
{
    has_attributes(changes) && !rules.keeps_attributes
}

/// Sets the size of a file, if it is to be set.
fn set_size<D: Device>(
    mounted: &mut Mounted<D>,
    number: u32,
    size: Option<u64>,
) -> Result<(), Errno>
    ensures start { mounted.new.asking.start ≡ mounted.old.asking.start }
    ensures session { mounted.new.session ≡ mounted.old.session }
    ensures does { (next : Doing) → LeadsOn (sets_size mounted.old.asking.volume.kept mounted.old.session number size next)
        mounted.old.asking mounted.old.session (go_on result next) mounted.new.asking mounted.new.session }
{
    let Some(size) = size else {
        return Ok(());
    };
    if mounted.metadata().is_directory_at(number) {
        return Err(Errno::IsDirectory);
    }
    if size > u64::from(u32::MAX) {
        return Err(Errno::TooBig);
    }
    let own = record_of(mounted.metadata(), number).size;
    match mounted.session.nodes.open_by(number) {
        Some(open) => resize(mounted, open.handle, own, size as u32),
        None => resize_by_path(mounted, number, own, size as u32),
    }
}

/// The same of a file that is not open: it is opened for it, and closed in any case. The first refusal is told.
fn resize_by_path<D: Device>(
    mounted: &mut Mounted<D>,
    number: u32,
    own: u32,
    size: u32,
) -> Result<(), Errno>
    ensures start { mounted.new.asking.start ≡ mounted.old.asking.start }
    ensures session { mounted.new.session ≡ mounted.old.session }
    ensures does { (next : Doing) → LeadsOn (resizes_by_path mounted.old.session number own size next)
        mounted.old.asking mounted.old.session (go_on result next) mounted.new.asking mounted.new.session }
{
    let path = path_of(mounted, number)?;
    let handle = mounted.ask_number(Command::Open(path))?;
    let outcome = resize(mounted, handle, own, size);
    let closed = mounted.ask_done(Command::Close(handle));
    outcome?;
    closed
}

/// Cuts an open file of this size short, or lengthens it by zeroes.
fn resize<D: Device>(
    mounted: &mut Mounted<D>,
    handle: u32,
    own: u32,
    size: u32,
) -> Result<(), Errno>
    ensures start { mounted.new.asking.start ≡ mounted.old.asking.start }
    ensures session { mounted.new.session ≡ mounted.old.session }
    ensures does { (done : Doing) (refused : Number → Doing) → LeadsOn (resizes mounted.old.session.rules handle own size done refused)
        mounted.old.asking mounted.old.session (go_on_or result done refused) mounted.new.asking mounted.new.session }
{
    if size < own {
        return mounted.ask_done(Command::Truncate { handle, size });
    }
    fill_to(mounted, handle, own, size)
}
