//! What users see of a volume throughout.
use crate::files::Files;
use device::MemDevice;
use frozen::Frozen;
use inode::Record;
use layout::{BLOCK_BYTES, Block, ROOT, Refusal};
use std::alloc::{AllocError, Global};

/// What users saw of a volume at each of several moments: the records of inodes, but for their links, since a rename counts one
/// more for a while, the bytes of directories, and the files that have names.
#[derive(Drop)]
pub struct Stays {
    /// Those of the inodes from the root on.
    records: Vec<Option<Record>>,
    names: Vec<Names>,
    files: Files,
}

/// A block of a directory.
#[derive(Clone, Copy)]
struct Names {
    directory: u32,
    position: u32,
    /// A byte that is 0 is not looked at: nothing stands there, or not what stood there at first.
    bytes: Block,
}

impl Stays {
    /// Nothing.
    pub fn nothing(alloc: Global) -> Stays {
        Stays {
            records: Vec::new(alloc),
            names: Vec::new(alloc),
            files: Files::none(alloc),
        }
    }

    /// All that users see now: this metadata, and these files.
    pub fn of(alloc: Global, view: &Frozen, files: Files) -> Result<Stays, AllocError> {
        let records = records_of(alloc, view)?;
        let names = names_of(alloc, view)?;
        Ok(Stays {
            records,
            names,
            files,
        })
    }

    /// Leaves out what users do not see now as they did, where they see this metadata and these files.
    pub fn leave_out(
        &mut self,
        alloc: Global,
        view: &Frozen,
        files: &Files,
    ) -> Result<(), AllocError> {
        let records = records_of(alloc, view)?;
        for (record, now) in self.records.iter_mut().zip(records.as_slice()) {
            if *record != *now {
                *record = None;
            }
        }
        self.leave_out_names(view);
        self.files.leave_out(files);
        Ok(())
    }

    /// Leaves out the bytes of directories that users do not see now as they did.
    fn leave_out_names(&mut self, view: &Frozen) {
        for names in self.names.iter_mut() {
            let now = view.directory_block(names.directory, names.position);
            leave_out_other(&mut names.bytes, now);
        }
    }

    /// The files.
    pub fn files(&self) -> &Files {
        &self.files
    }

    /// Whether the image of a device, of which this is the metadata, has all of it.
    pub fn is_in(
        &self,
        alloc: Global,
        image: &Frozen,
        device: &mut MemDevice,
    ) -> Result<bool, Refusal> {
        let records = records_of(alloc, image)?;
        if !self.has_records(records.as_slice()) || !self.has_names(image) {
            return Ok(false);
        }
        self.files.are_in(alloc, image, device)
    }

    /// Whether these records have those that stay.
    fn has_records(&self, records: &[Option<Record>]) -> bool {
        for (record, now) in self.records.iter().zip(records) {
            if record.is_some() && *record != *now {
                return false;
            }
        }
        true
    }

    /// Whether an image has the bytes of directories that stay.
    fn has_names(&self, image: &Frozen) -> bool {
        for names in self.names.iter() {
            let block = image.directory_block(names.directory, names.position);
            if !has_bytes(block, &names.bytes) {
                return false;
            }
        }
        true
    }
}

/// The records of the inodes from the root on, each without its links, where there is one.
fn records_of(alloc: Global, view: &Frozen) -> Result<Vec<Option<Record>>, AllocError> {
    let mut records = Vec::new(alloc);
    for number in ROOT..view.geometry().inodes() {
        let record = view.record(number);
        records.push((record.mode > 0).then_some(Record { links: 0, ..record }))?;
    }
    Ok(records)
}

/// The blocks of all directories.
fn names_of(alloc: Global, view: &Frozen) -> Result<Vec<Names>, AllocError> {
    let mut names = Vec::new(alloc);
    for number in ROOT..view.geometry().inodes() {
        if view.is_directory_at(number) {
            add_names(view, number, &mut names)?;
        }
    }
    Ok(names)
}

/// Adds the blocks of a directory.
fn add_names(view: &Frozen, directory: u32, names: &mut Vec<Names>) -> Result<(), AllocError> {
    for position in 0..view.geometry().most_blocks() {
        let Some(block) = view.directory_block(directory, position) else {
            break;
        };
        names.push(Names {
            directory,
            position,
            bytes: *block,
        })?;
    }
    Ok(())
}

/// Puts 0 in place of each byte that is otherwise now.
fn leave_out_other(block: &mut Block, now: Option<&Block>) {
    let Some(now) = now else {
        *block = [0; BLOCK_BYTES];
        return;
    };
    for (byte, there) in block.iter_mut().zip(now) {
        if *byte != *there {
            *byte = 0;
        }
    }
}

/// Whether a block has each of these bytes that is not 0.
fn has_bytes(block: Option<&Block>, bytes: &Block) -> bool {
    let Some(block) = block else {
        return *bytes == [0; BLOCK_BYTES];
    };
    for (byte, there) in bytes.iter().zip(block) {
        if *byte > 0 && *byte != *there {
            return false;
        }
    }
    true
}
