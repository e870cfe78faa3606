//! What users see of files throughout.
use device::{Device, MemDevice};
use frozen::Frozen;
use inode::blocks_of_size;
use layout::{BLOCK_BYTES, Block, Refusal};
use reading::{Listing, joined, tree};
use snapshot::{Answer, Command, Volume};
use std::alloc::Global;

/// What users saw of the files that have names, at each of several moments.
#[derive(Drop)]
pub struct Files {
    files: Vec<File>,
}

/// What users saw of a file that has a name.
#[derive(Drop)]
struct File {
    number: u32,
    /// How many links it had when it was looked at last; none where a name was taken from it since.
    links: u16,
    /// The bytes of each of its blocks below its size; none of one that was seen otherwise since.
    pieces: Vec<Vec<u8>>,
}

impl Files {
    /// None.
    pub fn none(alloc: Global) -> Files {
        Files {
            files: Vec::new(alloc),
        }
    }

    /// Those that users see now. Each is opened, read and closed again: where a handle is refused, its bytes are left out.
    pub fn of<D: Device>(alloc: Global, volume: &mut Volume<D>) -> Result<Files, Refusal> {
        let view = volume.live().view(alloc)?;
        let listings = tree(alloc, &view, b"/".as_slice())?;
        let mut files = Files::none(alloc);
        for listing in listings.iter() {
            files.add_listing(alloc, volume, &view, listing)?;
        }
        Ok(files)
    }

    /// Adds the files in a directory.
    fn add_listing<D: Device>(
        &mut self,
        alloc: Global,
        volume: &mut Volume<D>,
        view: &Frozen,
        listing: &Listing,
    ) -> Result<(), Refusal> {
        for named in listing.names.iter() {
            if !view.is_directory_at(named.number) {
                let path = joined(alloc, listing.path.as_slice(), named.name.as_slice())?;
                self.files.push(file_of(alloc, volume, path)?)?;
            }
        }
        Ok(())
    }

    /// Leaves out what users do not see now as they did.
    pub fn leave_out(&mut self, now: &Files) {
        for file in self.files.iter_mut() {
            leave_out_of(file, now.file(file.number));
        }
    }

    /// The file of this number, if it has a name.
    fn file(&self, number: u32) -> Option<&File> {
        self.files.iter().find(|file| file.number == number)
    }

    /// How many of them must have a name, and how many bytes they must have.
    pub fn count(&self) -> (u64, u64) {
        let mut names = 0u64;
        let mut bytes = 0u64;
        for file in self.files.iter() {
            names = names.saturating_add(u64::from(file.links > 0));
            bytes = bytes.saturating_add(bytes_of(file));
        }
        (names, bytes)
    }

    /// Whether an image has all of it: each file from which no name was taken has one, and each piece stands in its file.
    pub fn are_in(
        &self,
        alloc: Global,
        image: &Frozen,
        device: &mut MemDevice,
    ) -> Result<bool, Refusal> {
        let listings = tree(alloc, image, b"/".as_slice())?;
        for file in self.files.iter() {
            if !is_in(file, listings.as_slice(), image, device)? {
                return Ok(false);
            }
        }
        Ok(true)
    }
}

/// What users see of the file of a path.
fn file_of<D: Device>(
    alloc: Global,
    volume: &mut Volume<D>,
    path: Vec<u8>,
) -> Result<File, Refusal> {
    let status = volume.live().stat(path.as_slice())?;
    let blocks = blocks_of_size(status.size);
    let pieces = match volume.apply(alloc, &Command::Open(path)) {
        Ok(Answer::Number(handle)) => pieces_of(alloc, volume, handle, blocks)?,
        _ => Vec::new(alloc),
    };
    Ok(File {
        number: status.number,
        links: status.links,
        pieces,
    })
}

/// The bytes of each of so many blocks of the file of a handle, which is closed then.
fn pieces_of<D: Device>(
    alloc: Global,
    volume: &mut Volume<D>,
    handle: u64,
    blocks: u32,
) -> Result<Vec<Vec<u8>>, Refusal> {
    let handle = u32::try_from(handle).map_err(|_| Refusal::BadHandle)?;
    let mut pieces = Vec::new(alloc);
    for index in 0..blocks {
        if let Answer::Bytes(bytes) = volume.apply(alloc, &Command::Read { handle, index })? {
            pieces.push(bytes)?;
        }
    }
    volume.apply(alloc, &Command::Close(handle))?;
    Ok(pieces)
}

/// Leaves out what users do not see now as they did of a file.
fn leave_out_of(file: &mut File, now: Option<&File>) {
    let Some(now) = now else {
        file.links = 0;
        file.pieces.clear();
        return;
    };
    if file.links > 0 {
        file.links = if now.links < file.links { 0 } else { now.links };
    }
    for (index, piece) in file.pieces.iter_mut().enumerate() {
        if !now.has_piece(index, piece.as_slice()) {
            piece.clear();
        }
    }
}

impl File {
    /// Whether a block of it has these bytes.
    fn has_piece(&self, index: usize, bytes: &[u8]) -> bool {
        match self.pieces.get(index) {
            Some(piece) => piece.as_slice() == bytes,
            None => false,
        }
    }
}

/// How many bytes of a file are known.
fn bytes_of(file: &File) -> u64 {
    let mut bytes = 0u64;
    for piece in file.pieces.iter() {
        bytes = bytes.saturating_add(piece.len() as u64);
    }
    bytes
}

/// Whether an image with these names has all of a file.
fn is_in(
    file: &File,
    listings: &[Listing],
    image: &Frozen,
    device: &mut MemDevice,
) -> Result<bool, Refusal> {
    if file.links > 0 && !is_named(listings, file.number) {
        return Ok(false);
    }
    for (index, piece) in file.pieces.iter().enumerate() {
        if !stands_in(piece.as_slice(), image, device, file.number, index)? {
            return Ok(false);
        }
    }
    Ok(true)
}

/// Whether a name in a directory stands for this number.
fn is_named(listings: &[Listing], number: u32) -> bool {
    listings.iter().any(|listing| listing.names.iter().any(|named| named.number == number))
}

/// Whether the block of this index of a file begins with these bytes.
fn stands_in(
    bytes: &[u8],
    image: &Frozen,
    device: &mut MemDevice,
    number: u32,
    index: usize,
) -> Result<bool, Refusal> {
    if bytes.is_empty() {
        return Ok(true);
    }
    let index = u32::try_from(index).map_err(|_| Refusal::BadIndex)?;
    if index >= image.geometry().most_blocks() {
        return Ok(false);
    }
    let Some(address) = image.claim_at(number, index) else {
        return Ok(false);
    };
    if address >= device.blocks() {
        return Ok(false);
    }
    let mut block: Block = [0; BLOCK_BYTES];
    device.read(address, &mut block)?;
    Ok(block.as_slice().starts_with(bytes))
}
