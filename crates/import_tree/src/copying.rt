//! How a file of the host is copied into a mounted volume, part by part, so that it takes the same memory however long it is.
ghost use Rattle.std.specs.Prelude.{◌≡◌, ◌≢◌, ◌++◌, ◌≤◌, ◌<◌, ℕ, List, ◌∷◌, IfErr, IfOk, IfSome, OnOk, Option, length, take};
ghost use Rattle.std.specs.Io.KnownBytes.{Consumes, IsAtEnd};
ghost use Rattle.std.specs.IoError.{error_kind};
ghost use Rattle.std.specs.declared.io.ErrorKind.TheVariants.{Interrupted};
ghost use Rattle.machine.specs.Command.{Command as Request};
ghost use Rattle.model.specs.Uses.{blocks_of};
ghost use Rattle.image_changes.specs.Asking.{Adds};
ghost use Rattle.import_tree.specs.Putting.{AddsBlocks, FillsFile, MakesFile};

use crate::given::Given;
use crate::making::{close, create, open, write_blocks};
use crate::writing::Turns;
use device::Device;
use failures::Failure;
use image_changes::ask;
use inode::ATTRIBUTES;
use layout::Refusal;
use snapshot::{Command, Volume};
use std::alloc::{AllocError, Global};
use std::io::Read;
use std::rt::Files;
use std::{fs, io};

/// How many bytes of a file of the host are in memory at once: whole blocks.
const PART_BYTES: usize = 1 << 17;

/// Room for a part of a file.
pub(crate) fn room_for_parts(alloc: Global) -> Result<Vec<u8>, AllocError>
    ensures { IfOk result (λ room. length room.items ≡ 131072) }
{
    vec![in alloc; 0; PART_BYTES]
}

/// Why an item is not made.
#[derive(Drop)]
pub(crate) enum Stop {
    /// The host does not give its bytes.
    Host(Failure),
    /// The image refuses it, or it cannot be written.
    Image(Refusal),
}

impl From<Refusal> for Stop {
    fn from(cause: Refusal) -> Stop {
        Stop::Image(cause)
    }
}

impl From<AllocError> for Stop {
    fn from(_error: AllocError) -> Stop {
        Stop::Image(Refusal::NoMemory)
    }
}

/// That this file of the host is not read.
fn unread(alloc: Global, host: &str, error: &io::Error) -> Stop {
    Stop::Host(Failure::of_call(alloc, error, host))
}

/// Makes a file with these attributes and the bytes of a file of the host, which are read into this room, and gives them. What cannot
/// be read leaves no file behind.
pub(crate) fn copy_file<R: Files + AllocGlobal, D: Device>(
    rt: &R,
    volume: &mut Volume<D>,
    path: &[u8],
    attributes: [u32; ATTRIBUTES],
    host: &str,
    room: &mut Vec<u8>,
    turns: &mut Turns<'_>,
) -> Result<Given, Stop>
    requires room { length room.old.items ≡ 131072 }
    ensures made { IfOk result (λ given. D.honest volume.new.device → (more : List Request) × MakesFile path.now attributes given more
        × Adds (D.held volume.old.device) (D.image volume.old.device) volume.old more (D.held volume.new.device) (D.image volume.new.device) volume.new) }
    ensures honest { D.honest volume.new.device → D.honest volume.old.device }
    ensures room { length room.new.items ≡ 131072 }
{
    match fs::open(rt, host) {
        Ok(mut file) => copy(volume, path, attributes, host, &mut file, room, turns),
        Err(error) => Err(unread(rt.alloc(), host, &error)),
    }
}

/// Makes a file with what is left to read, up to its end, and gives it. The first part is read before the file is made: a reader
/// that gives nothing at all changes nothing. Where bytes are refused or are not read, the file is taken away again.
fn copy<F: Read, D: Device>(
    volume: &mut Volume<D>,
    path: &[u8],
    attributes: [u32; ATTRIBUTES],
    host: &str,
    reader: &mut F,
    room: &mut Vec<u8>,
    turns: &mut Turns<'_>,
) -> Result<Given, Stop>
    requires room { length room.old.items ≡ 131072 }
    ensures all { IfOk result (λ given. IfSome (F.remaining reader.old) (λ left. given ≡ left)) }
    ensures end { OnOk result (IsAtEnd (F.remaining reader.new)) }
    ensures made { IfOk result (λ given. D.honest volume.new.device → (more : List Request) × MakesFile path.now attributes given more
        × Adds (D.held volume.old.device) (D.image volume.old.device) volume.old more (D.held volume.new.device) (D.image volume.new.device) volume.new) }
    ensures honest { D.honest volume.new.device → D.honest volume.old.device }
    ensures room { length room.new.items ≡ 131072 }
{
    let alloc = *room.allocator();
    let count = match read_part(reader, room.as_mut_slice()) {
        Ok(count) => count,
        Err(error) => return Err(unread(alloc, host, &error)),
    };
    create(alloc, volume, path, attributes)?;
    match fill_from(volume, path, host, reader, room, count, turns) {
        Ok(given) => Ok(given),
        Err(stop) => {
            ask(alloc, volume, &Command::Unlink(path.to_vec(alloc)?))?;
            Err(stop)
        }
    }
}

/// Gives an empty file so many bytes of this room, and then what is left to read.
fn fill_from<F: Read, D: Device>(
    volume: &mut Volume<D>,
    path: &[u8],
    host: &str,
    reader: &mut F,
    room: &mut Vec<u8>,
    count: usize,
    turns: &mut Turns<'_>,
) -> Result<Given, Stop>
    requires room { length room.old.items ≡ 131072 }
    requires within { count ≤ 131072 }
    requires end { count < 131072 → IsAtEnd (F.remaining reader.old) }
    ensures all { IfOk result (λ given. (left : Option (List ℕ)) → Consumes left (F.remaining reader.old) (take count room.old.items)
        → Consumes left (F.remaining reader.new) given) }
    ensures end { OnOk result (IsAtEnd (F.remaining reader.new)) }
    ensures filled { IfOk result (λ given. D.honest volume.new.device → (more : List Request) × FillsFile path.now given more
        × Adds (D.held volume.old.device) (D.image volume.old.device) volume.old more (D.held volume.new.device) (D.image volume.new.device) volume.new) }
    ensures honest { D.honest volume.new.device → D.honest volume.old.device }
    ensures room { length room.new.items ≡ 131072 }
{
    if count == 0 {
        return Ok(Given::none());
    }
    let alloc = *room.allocator();
    let handle = open(alloc, volume, path)?;
    let copied = copy_parts(volume, handle, host, reader, room, count, turns);
    close(alloc, volume, handle)?;
    copied
}

/// Writes so many bytes of this room to the empty file of a handle, and then what is left to read, and gives all of them.
fn copy_parts<F: Read, D: Device>(
    volume: &mut Volume<D>,
    handle: u32,
    host: &str,
    reader: &mut F,
    room: &mut Vec<u8>,
    first: usize,
    turns: &mut Turns<'_>,
) -> Result<Given, Stop>
    requires room { length room.old.items ≡ 131072 }
    requires within { first ≤ 131072 }
    requires end { first < 131072 → IsAtEnd (F.remaining reader.old) }
    ensures all { IfOk result (λ given. (left : Option (List ℕ)) → Consumes left (F.remaining reader.old) (take first room.old.items)
        → Consumes left (F.remaining reader.new) given) }
    ensures end { OnOk result (IsAtEnd (F.remaining reader.new)) }
    ensures written { IfOk result (λ given. D.honest volume.new.device → AddsBlocks handle given (blocks_of (length given))
        (D.held volume.old.device) (D.image volume.old.device) volume.old (D.held volume.new.device) (D.image volume.new.device) volume.new) }
    ensures honest { D.honest volume.new.device → D.honest volume.old.device }
    ensures room { length room.new.items ≡ 131072 }
{
    let alloc = *room.allocator();
    let mut given = Given::none();
    let mut index = 0;
    let mut count = first;
    // No file of an image has as many parts.
    for _part in 0..u32::MAX {
        index = write_blocks(
            alloc,
            volume,
            handle,
            index,
            &room.as_slice()[..count],
            turns,
        )?;
        given = given.and(room, count);
        if count < PART_BYTES {
            return Ok(given);
        }
        count = match read_part(reader, room.as_mut_slice()) {
            Ok(count) => count,
            Err(error) => return Err(unread(alloc, host, &error)),
        };
    }
    Err(Stop::Image(Refusal::TooBig))
}

/// Fills a room with the next bytes of a reader, and tells how many they are: fewer than it has room for at the end alone.
pub fn read_part<F: Read>(reader: &mut F, room: &mut [u8]) -> io::Result<usize>
    ensures room { length room.new ≡ length room.old }
    ensures within { IfOk result (λ count. count ≤ length room.new) }
    ensures read { IfOk result (λ count. Consumes (F.remaining reader.old) (F.remaining reader.new) (take count room.new)) }
    ensures end { IfOk result (λ count. count < length room.new → IsAtEnd (F.remaining reader.new)) }
    ensures retried { IfErr result (λ error. error_kind error ≢ Interrupted) }
{
    let mut count = 0;
    for _turn in 0..u64::MAX {
        if count >= room.len() {
            return Ok(count);
        }
        match reader.read(&mut room[count..]) {
            Ok(0) => return Ok(count),
            Ok(more) => count += more,
            Err(error) if error.kind() == io::ErrorKind::Interrupted => {}
            Err(error) => return Err(error),
        }
    }
    Err(io::Error::from(io::ErrorKind::TimedOut))
}
