//! What the files of a volume had in their blocks, from its mount on.
use device::{Device, MemDevice};
use frozen::{Frozen, load};
use layout::{BLOCK_BYTES, Block, ROOT, Refusal};
use std::alloc::{AllocError, Global};

/// A block of a file.
#[derive(Clone, Copy, PartialEq, Eq)]
pub struct Place {
    /// The file's number.
    pub inode: u32,
    /// The block's index in the file.
    pub index: u32,
}

/// What a block of a file had at some moment.
#[derive(Drop)]
struct Version {
    place: Place,
    bytes: Block,
}

/// A handle that was given out.
#[derive(Clone, Copy)]
struct Opened {
    handle: u64,
    inode: u32,
}

/// What the files of a volume had in their blocks, from its mount on. Files with the same number, one after another, count
/// as one.
#[derive(Drop)]
pub struct History {
    /// Each handle with its file, those given out last behind.
    opened: Vec<Opened>,
    /// What each block had, the latest behind.
    versions: Vec<Version>,
}

impl History {
    /// That of a volume which was just mounted: what its files have on the device. Refused as an image that cannot be
    /// loaded.
    pub fn at_mount(alloc: Global, device: &mut MemDevice) -> Result<History, Refusal> {
        let frozen = load(alloc, device)?;
        let mut history = History {
            opened: Vec::new(alloc),
            versions: Vec::new(alloc),
        };
        for inode in ROOT..frozen.geometry().inodes() {
            let blocks = frozen.record(inode).blocks();
            history.add_file(&frozen, device, inode, blocks)?;
        }
        Ok(history)
    }

    /// Adds what a file of so many blocks has on the device.
    fn add_file(
        &mut self,
        frozen: &Frozen,
        device: &mut MemDevice,
        inode: u32,
        blocks: u32,
    ) -> Result<(), Refusal> {
        for index in 0..blocks {
            let place = Place { inode, index };
            if let Some(bytes) = block_of(frozen, device, place)? {
                self.versions.push(Version { place, bytes })?;
            }
        }
        Ok(())
    }

    /// Notes that a handle was opened on a file.
    pub fn add_handle(&mut self, handle: u64, inode: u32) -> Result<(), AllocError> {
        self.opened.push(Opened { handle, inode })?;
        Ok(())
    }

    /// Notes what a block of a file has from now on.
    pub fn add_bytes(&mut self, place: Place, bytes: Block) -> Result<(), AllocError> {
        self.versions.push(Version { place, bytes })?;
        Ok(())
    }

    /// The file on which a handle was opened last.
    pub fn file_of(&self, handle: u32) -> Option<u32> {
        let handle = u64::from(handle);
        let opened = self
            .opened
            .iter()
            .rev()
            .find(|opened| opened.handle == handle)?;
        Some(opened.inode)
    }

    /// What a block of a file had last; zeroes where nothing is known of it.
    pub fn latest(&self, place: Place) -> Block {
        match self
            .versions
            .iter()
            .rev()
            .find(|version| version.place == place)
        {
            Some(version) => version.bytes,
            None => [0; BLOCK_BYTES],
        }
    }

    /// Whether a block of a file had these bytes at its beginning at some moment.
    pub fn has(&self, place: Place, bytes: &[u8]) -> bool {
        self.versions.iter().any(|version| version.place == place
            && version.bytes.starts_with(bytes))
    }
}

/// What a file has in a block on the device; `None` where it is no file, or has no such block.
pub fn block_of(
    frozen: &Frozen,
    device: &mut MemDevice,
    place: Place,
) -> Result<Option<Block>, Refusal> {
    let Place { inode, index } = place;
    if frozen.is_directory_at(inode) {
        return Ok(None);
    }
    match frozen.claim_at(inode, index) {
        Some(address) if address < device.blocks() => {
            let mut block = [0; BLOCK_BYTES];
            device.read(address, &mut block)?;
            Ok(Some(block))
        }
        _ => Ok(None),
    }
}
