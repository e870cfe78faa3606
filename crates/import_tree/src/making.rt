//! How a file is made in a mounted volume.
ghost use Rattle.std.specs.Prelude.{◌≡◌, ◌+◌, ◌++◌, List, [], ◌∷◌, IfOk, OnOk, length};
ghost use Rattle.machine.specs.Command.{Command as Request, Close as AsksClose, Create as AsksCreate, Link as AsksLink, Mkdir as AsksMkdir, Open as AsksOpen, Write as AsksWrite};
ghost use Rattle.model.specs.Uses.{blocks_of};
ghost use Rattle.image_changes.specs.Asking.{Adds};
ghost use Rattle.import_tree.specs.Putting.{AddsPart, FillsFile, MakesFile};

use crate::writing::Turns;
use device::Device;
use image_changes::{answer_to, ask};
use inode::ATTRIBUTES;
use layout::{BLOCK_BYTES, Refusal};
use snapshot::{Answer, Command, Volume};
use std::alloc::Global;

/// Makes a directory with these attributes.
pub(crate) fn make_folder<D: Device>(
    alloc: Global,
    volume: &mut Volume<D>,
    path: &[u8],
    attributes: [u32; ATTRIBUTES],
) -> Result<(), Refusal>
    ensures made { OnOk result (D.honest volume.new.device
        → Adds (D.held volume.old.device) (D.image volume.old.device) volume.old (AsksMkdir path.now attributes ∷ []) (D.held volume.new.device) (D.image volume.new.device) volume.new) }
    ensures honest { D.honest volume.new.device → D.honest volume.old.device }
{
    let path = path.to_vec(alloc)?;
    ask(alloc, volume, &Command::Mkdir { path, attributes })
}

/// Makes a file with these attributes and bytes. It is taken away again where the bytes are refused.
pub(crate) fn make_file<D: Device>(
    alloc: Global,
    volume: &mut Volume<D>,
    path: &[u8],
    attributes: [u32; ATTRIBUTES],
    bytes: &[u8],
    turns: &mut Turns<'_>,
) -> Result<(), Refusal>
    ensures made { OnOk result (D.honest volume.new.device → (more : List Request) × MakesFile path.now attributes bytes.now more
        × Adds (D.held volume.old.device) (D.image volume.old.device) volume.old more (D.held volume.new.device) (D.image volume.new.device) volume.new) }
    ensures honest { D.honest volume.new.device → D.honest volume.old.device }
{
    create(alloc, volume, path, attributes)?;
    match fill(alloc, volume, path, bytes, turns) {
        Ok(()) => Ok(()),
        Err(refusal) => {
            ask(alloc, volume, &Command::Unlink(path.to_vec(alloc)?))?;
            Err(refusal)
        }
    }
}

/// Makes a file with these attributes, without bytes.
pub(crate) fn create<D: Device>(
    alloc: Global,
    volume: &mut Volume<D>,
    path: &[u8],
    attributes: [u32; ATTRIBUTES],
) -> Result<(), Refusal>
    ensures made { OnOk result (D.honest volume.new.device
        → Adds (D.held volume.old.device) (D.image volume.old.device) volume.old (AsksCreate path.now attributes ∷ []) (D.held volume.new.device) (D.image volume.new.device) volume.new) }
    ensures honest { D.honest volume.new.device → D.honest volume.old.device }
{
    let path = path.to_vec(alloc)?;
    ask(alloc, volume, &Command::Create { path, attributes })
}

/// Gives the file at a path one more name.
pub(crate) fn make_link<D: Device>(
    alloc: Global,
    volume: &mut Volume<D>,
    path: &[u8],
    name: &[u8],
) -> Result<(), Refusal>
    ensures made { OnOk result (D.honest volume.new.device
        → Adds (D.held volume.old.device) (D.image volume.old.device) volume.old (AsksLink path.now name.now ∷ []) (D.held volume.new.device) (D.image volume.new.device) volume.new) }
    ensures honest { D.honest volume.new.device → D.honest volume.old.device }
{
    let path = path.to_vec(alloc)?;
    let name = name.to_vec(alloc)?;
    ask(alloc, volume, &Command::Link(path, name))
}

/// Gives an empty file its bytes.
fn fill<D: Device>(
    alloc: Global,
    volume: &mut Volume<D>,
    path: &[u8],
    bytes: &[u8],
    turns: &mut Turns<'_>,
) -> Result<(), Refusal>
    ensures filled { OnOk result (D.honest volume.new.device → (more : List Request) × FillsFile path.now bytes.now more
        × Adds (D.held volume.old.device) (D.image volume.old.device) volume.old more (D.held volume.new.device) (D.image volume.new.device) volume.new) }
    ensures honest { D.honest volume.new.device → D.honest volume.old.device }
{
    if bytes.is_empty() {
        return Ok(());
    }
    let handle = open(alloc, volume, path)?;
    let written = write_blocks(alloc, volume, handle, 0, bytes, turns);
    close(alloc, volume, handle)?;
    written?;
    Ok(())
}

/// Opens a file.
pub(crate) fn open<D: Device>(
    alloc: Global,
    volume: &mut Volume<D>,
    path: &[u8],
) -> Result<u32, Refusal>
    ensures opened { IfOk result (λ _. D.honest volume.new.device
        → Adds (D.held volume.old.device) (D.image volume.old.device) volume.old (AsksOpen path.now ∷ []) (D.held volume.new.device) (D.image volume.new.device) volume.new) }
    ensures honest { D.honest volume.new.device → D.honest volume.old.device }
{
    let answer = answer_to(alloc, volume, &Command::Open(path.to_vec(alloc)?))?;
    let Answer::Number(number) = answer else {
        return Err(Refusal::BadHandle);
    };
    match u32::try_from(number) {
        Ok(handle) => Ok(handle),
        Err(_) => Err(Refusal::BadHandle),
    }
}

/// Writes these bytes to the file of a handle, block by block from this one on, and flushes what waits at the end of each turn:
/// what waits at once is bounded, however long the file is. It gives the index of the block behind them.
pub(crate) fn write_blocks<D: Device>(
    alloc: Global,
    volume: &mut Volume<D>,
    handle: u32,
    first: u32,
    bytes: &[u8],
    turns: &mut Turns<'_>,
) -> Result<u32, Refusal>
    ensures next { IfOk result (λ next. next ≡ first + blocks_of (length bytes.now)) }
    ensures written { OnOk result (D.honest volume.new.device → AddsPart handle first bytes.now (blocks_of (length bytes.now))
        (D.held volume.old.device) (D.image volume.old.device) volume.old (D.held volume.new.device) (D.image volume.new.device) volume.new) }
    ensures honest { D.honest volume.new.device → D.honest volume.old.device }
{
    let mut next = Next {
        index: first,
        room: Vec::with_capacity(alloc, BLOCK_BYTES)?,
    };
    for piece in bytes.chunks(BLOCK_BYTES) {
        next = write_piece(alloc, volume, handle, next, piece)?;
        turns.count(alloc, volume, piece.len())?;
    }
    Ok(next.index)
}

/// What the write of a block needs.
#[derive(Drop)]
struct Next {
    /// The index of the block.
    index: u32,
    /// Room for its bytes.
    room: Vec<u8>,
}

/// Writes the bytes of a block, and gives what the next one needs.
fn write_piece<D: Device>(
    alloc: Global,
    volume: &mut Volume<D>,
    handle: u32,
    block: Next,
    piece: &[u8],
) -> Result<Next, Refusal>
    ensures next { IfOk result (λ next. next.index ≡ block.index + 1) }
    ensures written { IfOk result (λ _. D.honest volume.new.device
        → Adds (D.held volume.old.device) (D.image volume.old.device) volume.old (AsksWrite handle block.index piece.now ∷ []) (D.held volume.new.device) (D.image volume.new.device) volume.new) }
    ensures honest { D.honest volume.new.device → D.honest volume.old.device }
{
    let Next { index, mut room } = block;
    room.clear();
    room.extend_from_slice(piece)?;
    let command = Command::Write {
        handle,
        index,
        piece: room,
    };
    ask(alloc, volume, &command)?;
    match (index.checked_add(1), command) {
        (Some(index), Command::Write { piece: room, .. }) => Ok(Next { index, room }),
        _ => Err(Refusal::TooBig),
    }
}

/// Closes a handle.
pub(crate) fn close<D: Device>(
    alloc: Global,
    volume: &mut Volume<D>,
    handle: u32,
) -> Result<(), Refusal>
    ensures closed { OnOk result (D.honest volume.new.device
        → Adds (D.held volume.old.device) (D.image volume.old.device) volume.old (AsksClose handle ∷ []) (D.held volume.new.device) (D.image volume.new.device) volume.new) }
    ensures honest { D.honest volume.new.device → D.honest volume.old.device }
{
    ask(alloc, volume, &Command::Close(handle))
}
