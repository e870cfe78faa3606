ghost use Rattle.std.specs.Prelude.{◌≡◌, ◌<◌, ◌≤◌, IfOk, OnOk, IsOkUnless, IsTrue};
ghost use Rattle.model.specs.Layout.{is_number};
ghost use Rattle.model.specs.Units.{only};
ghost use Rattle.model.specs.Uses.{is_sound};
ghost use Rattle.inode.specs.Parts.{without_attributes};
ghost use Rattle.frozen.specs.Kept.{frozen_view};
ghost use Rattle.phase_blocks.specs.Parts.{Inodes, Uses, Tells, IsPart, nothing_gathered, with_inode, with_use, with_uses};

use crate::parts::{Claim, Part};
use findings::Finding;
use frozen::Frozen;
use inode::{FREE, Record};
use layout::Refusal;
use std::alloc::Global;

/// What the inodes of a cylinder group claim, and what is wrong with them and with what they use. A unit that is no
/// group has no inodes.
pub fn part(alloc: Global, frozen: &Frozen, unit: u32) -> Result<Part, Refusal>
    ensures part { IfOk result (λ part. IsPart frozen.now.geometry (frozen_view frozen.now) (only unit) part) }
    ensures no_group { IfOk result (λ part. frozen.now.geometry.groups ≤ unit → part ≡ nothing_gathered) }
    ensures error { IsOkUnless result Refusal.NoMemory }
{
    let mut part = Part::new(alloc);
    let geometry = frozen.geometry();
    if unit >= geometry.groups() {
        return Ok(part);
    }
    for number in geometry.numbers_of(unit) {
        look_at_inode(&mut part, frozen, number)?;
    }
    part.in_order()
}

/// Looks at the record of an inode, and at all that it uses.
fn look_at_inode(part: &mut Part, frozen: &Frozen, number: u32) -> Result<(), Refusal>
    requires { IsTrue (is_number frozen.now.geometry number) }
    ensures looked { OnOk result ((inodes : Inodes) (uses : Uses) → Tells frozen.now.geometry (frozen_view frozen.now) inodes uses part.old
        → Tells frozen.now.geometry (frozen_view frozen.now) (with_inode inodes number) (with_uses uses number) part.new) }
    ensures error { IsOkUnless result Refusal.NoMemory }
{
    if frozen.mode(number) == FREE {
        return Ok(());
    }
    let record = frozen.without_attributes(number);
    if record.is_sound(&frozen.geometry()) {
        look_at_uses(part, frozen, number, &record)
    } else {
        part.add_finding(Finding::BadInode(number))
    }
}

/// Looks at each position of a sound inode: those of its blocks, and those of its tables.
fn look_at_uses(
    part: &mut Part,
    frozen: &Frozen,
    number: u32,
    inode: &Record,
) -> Result<(), Refusal>
    requires number { IsTrue (is_number frozen.now.geometry number) }
    requires inode { inode.now ≡ without_attributes ((frozen_view frozen.now).inode number) }
    requires sound { IsTrue (is_sound frozen.now.geometry inode.now) }
    ensures looked { OnOk result ((inodes : Inodes) (uses : Uses) → Tells frozen.now.geometry (frozen_view frozen.now) inodes uses part.old
        → Tells frozen.now.geometry (frozen_view frozen.now) inodes (with_uses uses number) part.new) }
    ensures error { IsOkUnless result Refusal.NoMemory }
{
    for position in 0..inode.blocks() {
        look_at_use(part, frozen, number, inode, position)?;
    }
    let geometry = frozen.geometry();
    for table in geometry.most_blocks()..geometry.tables_end(inode.blocks()) {
        look_at_use(part, frozen, number, inode, table)?;
    }
    Ok(())
}

/// Looks at what an inode uses at a position, if it uses the position.
fn look_at_use(
    part: &mut Part,
    frozen: &Frozen,
    number: u32,
    inode: &Record,
    position: u32,
) -> Result<(), Refusal>
    requires number { IsTrue (is_number frozen.now.geometry number) }
    requires inode { inode.now ≡ without_attributes ((frozen_view frozen.now).inode number) }
    ensures looked { OnOk result ((inodes : Inodes) (uses : Uses) → Tells frozen.now.geometry (frozen_view frozen.now) inodes uses part.old
        → Tells frozen.now.geometry (frozen_view frozen.now) inodes (with_use uses number position) part.new) }
    ensures error { IsOkUnless result Refusal.NoMemory }
{
    let Some(value) = frozen.use_of(inode, position) else {
        return Ok(());
    };
    if frozen.geometry().place_of(value).is_none() {
        return part.add_finding(Finding::BadPointer(number, position, value));
    }
    part.add_claim(Claim {
        block: value,
        inode: number,
        position,
    })
}
