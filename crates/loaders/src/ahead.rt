//! Blocks of directories, read ahead by the worker that meets their records. What is read is what the rest of a load would read by
//! one thread; what it leaves out, as the blocks below a double indirect pointer, is read then.
ghost use Rattle.std.specs.Prelude.{◌≡◌, IfErr, IfOk, length};
ghost use Rattle.std.specs.Arc.{arc_value};
ghost use Rattle.frozen.specs.Loading.{GivesOut};
ghost use Rattle.model.specs.Image.{IsBlock};
ghost use Rattle.model.specs.Layout.{block_count};
ghost use Rattle.loaders.specs.Readers.{ReadsAhead};

use crate::reader::Reader;
use device::Device;
use frozen::Placed;
use inode::{DIRECT_POINTERS, DIRECTORY, RECORD_BYTES, Record, mode_of};
use layout::{BLOCK_BYTES, Block, Refusal, u32_at};
use std::alloc::{AllocError, Global};
use std::sync::Arc;

/// How many pointers a table has.
const POINTERS: usize = 256;

impl<D: Device> Reader<D> {
    /// Reads the blocks of the directories whose records stand in these blocks of a group, which has its block of maps before them:
    /// at most as many as a group has, so that directories that claim the same blocks take no more memory than the volume.
    pub(crate) fn read_ahead(&mut self, header: &[Option<Arc<Block>>]) -> Result<(), Refusal>
        requires { length (D.image self.old.device) ≡ block_count self.old.geometry }
        ensures ahead { ReadsAhead D.honest D.image D.held self.old self.new }
        ensures refused { IfErr result GivesOut }
    {
        let most = self
            .ahead
            .len()
            .saturating_add(self.geometry.blocks_a_group() as usize);
        for block in header.iter().skip(1) {
            if let Some(block) = block {
                self.read_of_records(block, most)?;
            }
        }
        Ok(())
    }

    /// Reads the blocks of the directories whose records stand in a block.
    fn read_of_records(&mut self, block: &Block, most: usize) -> Result<(), Refusal>
        requires { length (D.image self.old.device) ≡ block_count self.old.geometry }
        ensures ahead { ReadsAhead D.honest D.image D.held self.old self.new }
        ensures refused { IfErr result GivesOut }
    {
        let (records, _) = block.as_chunks::<RECORD_BYTES>();
        for bytes in records {
            let bytes = *bytes;
            if mode_of(&bytes) == DIRECTORY {
                let inode = Record::read(self.geometry.version(), &bytes);
                self.read_directory(&inode, most)?;
            }
        }
        Ok(())
    }

    /// Reads the blocks that a directory claims, if it is sound, but for those below its double indirect pointer.
    fn read_directory(&mut self, inode: &Record, most: usize) -> Result<(), Refusal>
        requires { length (D.image self.old.device) ≡ block_count self.old.geometry }
        ensures ahead { ReadsAhead D.honest D.image D.held self.old self.new }
        ensures refused { IfErr result GivesOut }
    {
        if !inode.is_sound(&self.geometry) {
            return Ok(());
        }
        let blocks = inode.blocks() as usize;
        for pointer in inode.direct.iter().take(blocks) {
            self.read_data(*pointer, most)?;
        }
        if blocks > DIRECT_POINTERS {
            self.read_table(inode.indirect, blocks - DIRECT_POINTERS, most)?;
        }
        Ok(())
    }

    /// Reads a table, and the blocks to which so many of its pointers lead.
    fn read_table(&mut self, address: u32, pointers: usize, most: usize) -> Result<(), Refusal>
        requires { length (D.image self.old.device) ≡ block_count self.old.geometry }
        ensures ahead { ReadsAhead D.honest D.image D.held self.old self.new }
        ensures refused { IfErr result GivesOut }
    {
        if !self.read_data(address, most)? {
            return Ok(());
        }
        let table = match self.ahead.last() {
            Some(placed) => *placed.block,
            None => return Ok(()),
        };
        for place in 0..pointers.min(POINTERS) {
            self.read_data(u32_at(&table, 4 * place), most)?;
        }
        Ok(())
    }

    /// Reads a data block, unless there are as many as this already, and tells whether it did.
    fn read_data(&mut self, address: u32, most: usize) -> Result<bool, Refusal>
        requires { length (D.image self.old.device) ≡ block_count self.old.geometry }
        ensures ahead { ReadsAhead D.honest D.image D.held self.old self.new }
        ensures refused { IfErr result GivesOut }
    {
        if self.ahead.len() >= most || self.geometry.place_of(address).is_none() {
            return Ok(false);
        }
        let mut bytes = [0; BLOCK_BYTES];
        self.device.read(address, &mut bytes)?;
        self.ahead.push(placed_at(self.alloc, address, &bytes)?)?;
        Ok(true)
    }
}

/// A block with its address, as it is put in its place.
fn placed_at(alloc: Global, address: u32, block: &Block) -> Result<Placed, AllocError>
    ensures address { IfOk result (λ placed. placed.address ≡ address) }
    ensures block { IfOk result (λ placed. arc_value placed.block ≡ block.now) }
    ensures whole { IfOk result (λ placed. IsBlock (arc_value placed.block)) }
{
    Ok(Placed {
        address,
        block: Arc::new(alloc, *block)?,
    })
}
