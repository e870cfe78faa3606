ghost use Rattle.std.specs.Prelude.{◌≡◌, ◌+◌, IfErr, IfOk, IsTrue};
ghost use Rattle.frozen.specs.Kept.{frozen_view};
ghost use Rattle.machine.specs.Command.{Mkdir, Number};
ghost use Rattle.machine.specs.Effects.{AreDots, with_links};
ghost use Rattle.machine.specs.Effects as effects;
ghost use Rattle.metadata.specs.Shown.{Shows};
ghost use Rattle.model.specs.Layout.{is_data_address};
ghost use Rattle.model.specs.View.{View};
ghost use Rattle.live_states.specs.Planned.{IsOfVolume, IsPlanned, IsRefused};
ghost use Rattle.live_creations.specs.Named.{MayEnter};
ghost use Rattle.live_creations.specs.Made.{DirectoryMade};

use crate::placing::{MOST_LINKS, directory_for};
use dirent::replace;
use inode::{ATTRIBUTES, DIRECT_POINTERS, DIRECTORY, Record};
use layout::{BLOCK_BYTES, Block, Refusal};
use live_paths::Path;
use live_places::choose;
use live_plans::{NewEntry, Plan, enter, entry};
use metadata::Metadata;
use smallvec::smallvec;
use std::alloc::{AllocError, Global};
use std::sync::Arc;
use updates::{Cell, Cells, Change};

/// The plan by which a directory is made with these attributes; its number is the plan's file.
///
/// Refused in this order: with `BadName` where the bytes are no path; with `IsRoot` for `/`; with `NotDirectory` or
/// `NotFound` where the walk to the directory above ends before; with `Exists` where the name is there; with
/// `TooManyLinks` where the directory above has 32,767 links or more; with `NoInode` where each number is marked; with
/// `TooBig` where the directory above is full; with `NoBlock` where fewer data blocks are unmarked than the new directory
/// and its entry take. `NoMemory` comes at any time.
pub fn mkdir(
    alloc: Global,
    metadata: &Metadata,
    path: &[u8],
    attributes: &[u32; ATTRIBUTES],
) -> Result<Plan, Refusal>
    requires { IsOfVolume metadata.now }
    ensures planned { IfOk result (λ plan. IsPlanned metadata.now (Mkdir path.now attributes.now) (Number plan.file) plan) }
    ensures refused { IfErr result (IsRefused metadata.now (Mkdir path.now attributes.now)) }
{
    let parsed = Path::parse(path)?;
    let directory = directory_for(metadata.frozen(), &parsed)?;
    let mut parent = metadata.frozen().record(directory);
    if parent.links >= MOST_LINKS {
        return Err(Refusal::TooManyLinks);
    }
    parent.links += 1;
    let Some(number) = metadata.least_number() else {
        return Err(Refusal::NoInode);
    };
    let places = choose(metadata, directory, true)?;
    let Some(own) = places.own else {
        unreachable!()
    };
    let new = NewEntry {
        directory,
        parent,
        number,
        name: parsed.name(),
        place: places.place,
    };
    Ok(made(alloc, metadata, &new, own, attributes)?)
}

/// The updates by which the number of an entry becomes a directory with these attributes and its dots in this block, and the
/// entry is made.
fn made(
    alloc: Global,
    metadata: &Metadata,
    new: &NewEntry,
    own: u32,
    attributes: &[u32; ATTRIBUTES],
) -> Result<Plan, AllocError>
    requires volume { IsOfVolume metadata.now }
    requires entry { MayEnter metadata.now new.now }
    requires parent { new.now.parent ≡ with_links ((frozen_view metadata.now).inode new.now.directory) (((frozen_view metadata.now).inode new.now.directory).links + 1) }
    requires own { IsTrue (is_data_address metadata.now.geometry own) }
    ensures { IfOk result (λ plan. (view : View) → Shows metadata.now view → DirectoryMade metadata.now.geometry view new.now own attributes.now plan) }
{
    let mut plan = Plan::new(alloc, metadata.frozen().geometry(), new.number);
    plan.push(Change::SetNumber(new.number, true), Cells::new(alloc))?;
    plan.push(Change::SetBlock(own, true), Cells::new(alloc))?;
    plan.set_record(alloc, new.directory, new.parent, Cells::new(alloc))?;
    let dots = Arc::new(alloc, dots(new.number, new.directory))?;
    let after = smallvec![in alloc; Cell::BlockBit(own), Cell::Record(new.directory)]?;
    plan.push(Change::SetBytes(own, dots), after)?;
    let after = smallvec![in alloc; Cell::NumberBit(new.number), Cell::Block(own)]?;
    plan.set_record(alloc, new.number, new_directory(own, attributes), after)?;
    enter(alloc, metadata, &mut plan, new)?;
    Ok(plan)
}

/// A block with the dots of a directory, which stands in another one, and zeroes.
pub fn dots(number: u32, directory: u32) -> Block
    ensures { AreDots number directory result }
{
    let mut bytes = [0; BLOCK_BYTES];
    replace(&mut bytes, 0, &entry(number, b"."));
    replace(&mut bytes, 1, &entry(directory, b".."));
    bytes
}

/// The record of a directory of this block with these attributes, which is named by its entry and by itself.
pub fn new_directory(block: u32, attributes: &[u32; ATTRIBUTES]) -> Record
    ensures { result ≡ effects.new_directory block attributes.now }
{
    let mut direct = [0; DIRECT_POINTERS];
    direct[0] = block;
    let given = *attributes;
    Record {
        mode: DIRECTORY,
        links: 2,
        size: BLOCK_BYTES as u32,
        direct,
        indirect: 0,
        double: 0,
        attributes: given,
    }
}
