//! How items of the host go into a mounted volume.
ghost use Rattle.std.specs.Prelude.{◌≡◌, ◌++◌, ℕ, List, [], ◌∷◌, All, IfOk, None, length, map};
ghost use Rattle.archived_attributes.specs.Links.{is_hard_link};
ghost use Rattle.image_changes.specs.Asking.{Adds};
ghost use Rattle.machine.specs.Command.{Command as Request, Create as AsksCreate, Link as AsksLink, Mkdir as AsksMkdir};
ghost use Rattle.import_tree.specs.Putting.{AddsItems, IsTrueReading, IsTrueTo, MakesFile, PutMounted, TookIn, has_bytes, is_bare, item_of};

use crate::copying::{Stop, copy_file, room_for_parts};
use crate::given::Given;
use crate::items::{Item, Source};
use crate::making::{create, make_file, make_folder, make_link};
use crate::writing::{Turns, write_rest};
use archives::Kind;
use device::Device;
use failures::Failure;
use http_server::Log;
use image_changes::{flush_in_passes, mount, write_all};
use inode::ATTRIBUTES;
use layout::Refusal;
use outcomes::with;
use progress::{Tally, Watcher};
use snapshot::Volume;
use std::alloc::Global;
use std::rt::Files;
use write_behind::Pusher;

/// How many bytes a file or folder adds to what waits beside its own.
const BYTES_OF_ITEM: usize = 1 << 12;

/// How many items went into an image, and why the next one did not, if it did not.
#[derive(Drop)]
pub struct Filled {
    pub done: usize,
    pub stopped: Option<Failure>,
    pub readings: Readings,
}

/// What the host gave for items. It is a history that only clauses read, since no contract can say what a file of the host gives.
#[derive(Drop)]
pub struct Readings {
    /// Of each item that was put, its bytes; none of a folder.
    pub items: Log<Item, Given>,
}

/// A volume into which items were put, and how many went into it.
#[derive(Drop)]
pub struct Holding<D: Device> {
    pub filled: Filled,
    pub volume: Volume<D>,
}

/// Mounts the volume of a device, and puts items into it. A volume that cannot be mounted is not written: one whose image breaks a
/// rule is refused with `Damaged`.
pub fn put_on_device<R: Files + AllocGlobal, D: Device + Drop>(
    rt: &R,
    device: D,
    items: &[Item],
    watcher: &impl Watcher,
    pusher: &Pusher,
) -> Result<Holding<D>, Refusal>
    // Where none is refused and the device was honest, the volume of its image took them, with the bytes that the host gave.
    ensures read { IfOk result (λ holding. holding.filled.stopped ≡ None → map item_of holding.filled.readings.items.items ≡ items.now) }
    ensures held { IfOk result (λ holding. holding.filled.stopped ≡ None → All IsTrueReading holding.filled.readings.items.items) }
    ensures took_in { IfOk result (λ holding. holding.filled.stopped ≡ None → D.honest holding.volume.device
        → PutMounted (D.held device) (D.image device) holding.filled.readings.items.items (D.held holding.volume.device) (D.image holding.volume.device) holding.volume) }
{
    let mut volume = mount(rt.alloc(), device)?;
    let filled = put(rt, &mut volume, items, watcher, pusher);
    let (filled, volume) = with(filled, volume)?;
    Ok(Holding { filled, volume })
}

/// Makes items in a volume, one after another, up to the first one that is refused, and writes all. The watcher is told after
/// each. A file that is refused is not left behind in part. Refused with `Device` and `NoMemory` where not all could be written.
pub fn put<R: Files + AllocGlobal, D: Device>(
    rt: &R,
    volume: &mut Volume<D>,
    items: &[Item],
    watcher: &impl Watcher,
    pusher: &Pusher,
) -> Result<Filled, Refusal>
    // Where none is refused they were put, with the bytes that the host gave, by commands of which each was answered.
    ensures read { IfOk result (λ filled. filled.stopped ≡ None → map item_of filled.readings.items.items ≡ items.now) }
    // The bytes of an item that holds them are those.
    ensures held { IfOk result (λ filled. filled.stopped ≡ None → All IsTrueReading filled.readings.items.items) }
    ensures all { IfOk result (λ filled. filled.stopped ≡ None → filled.done ≡ length items.now) }
    ensures took_in { IfOk result (λ filled. filled.stopped ≡ None → D.honest volume.new.device
        → TookIn filled.readings.items.items (D.held volume.old.device) (D.image volume.old.device) volume.old (D.held volume.new.device) (D.image volume.new.device) volume.new) }
    ensures honest { D.honest volume.new.device → D.honest volume.old.device }
{
    let mut done = 0;
    let mut tally = Tally::new();
    let mut readings = Readings { items: Log::new() };
    let mut turns = Turns::new(pusher);
    let mut room = room_for_parts(rt.alloc())?;
    for item in items {
        let bytes = match put_item(rt, volume, item, &mut room, &mut turns, &mut readings) {
            Ok(bytes) => bytes,
            Err(error) => {
                write_all(rt.alloc(), volume)?;
                return Ok(Filled {
                    done,
                    stopped: Some(error),
                    readings,
                });
            }
        };
        turns.count(rt.alloc(), volume, BYTES_OF_ITEM)?;
        done += 1;
        tally.count(bytes, watcher);
    }
    flush_in_passes(rt.alloc(), volume)?;
    write_rest(rt.alloc(), volume)?;
    Ok(Filled {
        done,
        stopped: None,
        readings,
    })
}

/// Makes an item, and tells how many bytes it has. The room is for parts of a file.
fn put_item<R: Files + AllocGlobal, D: Device>(
    rt: &R,
    volume: &mut Volume<D>,
    item: &Item,
    room: &mut Vec<u8>,
    turns: &mut Turns<'_>,
    readings: &mut Readings,
) -> Result<usize, Failure>
    requires room { length room.old.items ≡ 131072 }
    ensures item { IfOk result (λ _. (bytes : List ℕ) × (readings.new.items.items ≡ readings.old.items.items ++ (item.now, bytes) ∷ [])
        × IsTrueTo item.now.source bytes
        × (D.honest volume.new.device
        → AddsItems ((item.now, bytes) ∷ []) (D.held volume.old.device) (D.image volume.old.device) volume.old (D.held volume.new.device) (D.image volume.new.device) volume.new)) }
    ensures honest { D.honest volume.new.device → D.honest volume.old.device }
    ensures room { length room.new.items ≡ 131072 }
{
    match make_item(rt, volume, item, room, turns) {
        Ok(given) => {
            readings.items = readings.items.and(item, &given);
            Ok(given.count())
        }
        Err(Stop::Host(failure)) => Err(failure),
        Err(Stop::Image(cause)) => {
            Err(Failure::from(cause).in_image(rt.alloc(), item.path.as_slice()))
        }
    }
}

/// Makes an item, and gives its bytes.
fn make_item<R: Files + AllocGlobal, D: Device>(
    rt: &R,
    volume: &mut Volume<D>,
    item: &Item,
    room: &mut Vec<u8>,
    turns: &mut Turns<'_>,
) -> Result<Given, Stop>
    requires room { length room.old.items ≡ 131072 }
    ensures source { IfOk result (λ given. IsTrueTo item.now.source given) }
    ensures item { IfOk result (λ given. D.honest volume.new.device
        → AddsItems ((item.now, given) ∷ []) (D.held volume.old.device) (D.image volume.old.device) volume.old (D.held volume.new.device) (D.image volume.new.device) volume.new) }
    ensures honest { D.honest volume.new.device → D.honest volume.old.device }
    ensures room { length room.new.items ≡ 131072 }
{
    let path = item.path.as_slice();
    let source = &item.source;
    if has_bytes(item.kind) {
        return make_file_from(rt, volume, path, item.attributes, source, room, turns);
    }
    if is_bare(item.kind) {
        return make_bare(rt.alloc(), volume, path, item.attributes, source);
    }
    if is_hard_link(item.kind) {
        return make_link_from(rt.alloc(), volume, source, path);
    }
    make_empty_folder(rt.alloc(), volume, path, item.attributes, source)
}

/// Whether the bytes of what is of this kind are written to a file.
fn has_bytes(kind: Kind) -> bool
    ensures { result ≡ has_bytes kind }
{
    match kind {
        Kind::File | Kind::SymbolicLink => true,
        _ => false,
    }
}

/// Whether what is of this kind is its attributes alone.
fn is_bare(kind: Kind) -> bool
    ensures { result ≡ is_bare kind }
{
    match kind {
        Kind::CharacterDevice | Kind::BlockDevice | Kind::Fifo => true,
        _ => false,
    }
}

/// Whether what is of this kind is one more name of a file.
fn is_hard_link(kind: Kind) -> bool
    ensures { result ≡ is_hard_link kind }
{
    match kind {
        Kind::HardLink => true,
        _ => false,
    }
}

/// Makes a directory with these attributes, and gives what this source holds.
fn make_empty_folder<D: Device>(
    alloc: Global,
    volume: &mut Volume<D>,
    path: &[u8],
    attributes: [u32; ATTRIBUTES],
    source: &Source,
) -> Result<Given, Stop>
    ensures source { IfOk result (λ given. IsTrueTo source.now given) }
    ensures made { IfOk result (λ _. D.honest volume.new.device
        → Adds (D.held volume.old.device) (D.image volume.old.device) volume.old (AsksMkdir path.now attributes ∷ []) (D.held volume.new.device) (D.image volume.new.device) volume.new) }
    ensures honest { D.honest volume.new.device → D.honest volume.old.device }
{
    make_folder(alloc, volume, path, attributes)?;
    Ok(held_in(source))
}

/// Makes a file with these attributes and no bytes, and gives what this source holds.
fn make_bare<D: Device>(
    alloc: Global,
    volume: &mut Volume<D>,
    path: &[u8],
    attributes: [u32; ATTRIBUTES],
    source: &Source,
) -> Result<Given, Stop>
    ensures source { IfOk result (λ given. IsTrueTo source.now given) }
    ensures made { IfOk result (λ _. D.honest volume.new.device
        → Adds (D.held volume.old.device) (D.image volume.old.device) volume.old (AsksCreate path.now attributes ∷ []) (D.held volume.new.device) (D.image volume.new.device) volume.new) }
    ensures honest { D.honest volume.new.device → D.honest volume.old.device }
{
    create(alloc, volume, path, attributes)?;
    Ok(held_in(source))
}

/// Gives the file one more name of which this source holds the path, and gives that path.
fn make_link_from<D: Device>(
    alloc: Global,
    volume: &mut Volume<D>,
    source: &Source,
    name: &[u8],
) -> Result<Given, Stop>
    ensures source { IfOk result (λ given. IsTrueTo source.now given) }
    ensures made { IfOk result (λ given. D.honest volume.new.device
        → Adds (D.held volume.old.device) (D.image volume.old.device) volume.old (AsksLink given name.now ∷ []) (D.held volume.new.device) (D.image volume.new.device) volume.new) }
    ensures honest { D.honest volume.new.device → D.honest volume.old.device }
{
    match source {
        Source::Held(path) => {
            make_link(alloc, volume, path.as_slice(), name)?;
            Ok(Given::all(path))
        }
        Source::Host(_) => Err(Stop::Image(Refusal::NotFound)),
    }
}

/// Makes a file with these attributes and the bytes of this source, and gives them.
fn make_file_from<R: Files + AllocGlobal, D: Device>(
    rt: &R,
    volume: &mut Volume<D>,
    path: &[u8],
    attributes: [u32; ATTRIBUTES],
    source: &Source,
    room: &mut Vec<u8>,
    turns: &mut Turns<'_>,
) -> Result<Given, Stop>
    requires room { length room.old.items ≡ 131072 }
    ensures source { IfOk result (λ given. IsTrueTo source.now given) }
    ensures made { IfOk result (λ given. D.honest volume.new.device → (more : List Request) × MakesFile path.now attributes given more
        × Adds (D.held volume.old.device) (D.image volume.old.device) volume.old more (D.held volume.new.device) (D.image volume.new.device) volume.new) }
    ensures honest { D.honest volume.new.device → D.honest volume.old.device }
    ensures room { length room.new.items ≡ 131072 }
{
    match source {
        Source::Host(host) => copy_file(rt, volume, path, attributes, host.as_str(), room, turns),
        Source::Held(bytes) => {
            make_file(
                rt.alloc(),
                volume,
                path,
                attributes,
                bytes.as_slice(),
                turns,
            )?;
            Ok(Given::all(bytes))
        }
    }
}

/// The bytes that a source holds.
fn held_in(source: &Source) -> Given
    ensures { IsTrueTo source.now result }
{
    match source {
        Source::Host(_) => Given::none(),
        Source::Held(bytes) => Given::all(bytes),
    }
}
