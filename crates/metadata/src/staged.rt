ghost use Rattle.std.specs.Prelude.{◌≡◌, [], ◌∷◌, ◌++◌, OnOk, map};
ghost use Rattle.updates.specs.Values.{change as change_of};
ghost use Rattle.metadata.specs.Staged.{bit, bits_of};

use frozen::Placed;
use std::alloc::{AllocError, Global};
use updates::Change;

/// A bit and its new value.
#[derive(Clone, Copy, Debug, PartialEq, Eq)]
pub enum Bit {
    /// Of an inode number.
    Number(u32, bool),
    /// Of a data block, by its address.
    Block(u32, bool),
}

/// Blocks that are ready to take the places of others, the later ones of an address in the place of the earlier ones,
/// and the bits that change with them.
#[derive(Drop)]
pub struct Staged {
    pub(crate) blocks: Vec<Placed>,
    pub(crate) bits: Vec<Bit>,
}

impl Staged {
    /// Nothing.
    pub(crate) fn new(alloc: Global) -> Staged
        ensures blocks { result.blocks.items ≡ [] }
        ensures bits { result.bits.items ≡ [] }
    {
        Staged {
            blocks: Vec::new(alloc),
            bits: Vec::new(alloc),
        }
    }

    /// Notes the bit that a change gives a value, if it is one of a bit.
    pub(crate) fn note(&mut self, change: &Change) -> Result<(), AllocError>
        ensures bits { OnOk result (map bit self.new.bits.items ≡ map bit self.old.bits.items ++ bits_of (change_of change.now ∷ [])) }
        ensures blocks { self.new.blocks ≡ self.old.blocks }
    {
        let bit = match change {
            Change::SetNumber(number, marked) => Bit::Number(*number, *marked),
            Change::SetBlock(address, marked) => Bit::Block(*address, *marked),
            Change::SetInode(..) | Change::SetBytes(..) => return Ok(()),
        };
        self.bits.push(bit)?;
        Ok(())
    }
}
