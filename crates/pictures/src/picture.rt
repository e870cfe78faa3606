ghost use Rattle.std.specs.Prelude.{◌≡◌, ◌<◌, ◌+◌, length, slice_range};
ghost use Rattle.model.specs.Layout.{block_count, group_block};

use crate::uses::Use;
use layout::Geometry;
use std::marker::Model;

/// What each block of a volume is used for, a cell for each.
#[derive(Drop)]
pub struct Picture {
    geometry: Geometry,
    cells: Vec<Use>,
}

impl Model for Picture {
    ghost use Rattle.std.specs.Prelude.{◌≡◌, length};
    ghost use Rattle.model.specs.Layout.{block_count};
    ghost use Rattle.pictures.specs.Pictured.{Pictured};

    ghost Value = { Pictured };

    ghost view = { λ p. record { geometry = p.geometry; cells = p.cells.items } };

    ghost invariant = { λ p. length p.cells.items ≡ block_count p.geometry };
}

impl Picture {
    /// The picture of these cells, by address.
    pub(crate) fn new(geometry: Geometry, cells: Vec<Use>) -> Picture
        requires { length cells.items ≡ block_count geometry }
        ensures { result ≡ record { geometry = geometry; cells = cells.items } }
    {
        Picture { geometry, cells }
    }

    /// The numbers of the volume.
    pub fn geometry(&self) -> Geometry
        ensures { result ≡ self.now.geometry }
    {
        self.geometry
    }

    /// The cells, by address.
    pub fn cells(&self) -> &[Use]
        ensures { result.now ≡ self.now.cells }
    {
        &self.cells
    }

    /// How many blocks are used so.
    pub fn count(&self, shown: Use) -> usize {
        self.cells.iter().filter(|cell| **cell == shown).count()
    }

    /// The cell of the superblock.
    pub(crate) fn superblock(&self) -> &[Use] {
        &self.cells[..1]
    }

    /// The cells of a group.
    pub(crate) fn group(&self, group: u32) -> &[Use]
        requires { group < self.now.geometry.groups }
        ensures { result.now ≡ slice_range self.now.cells (group_block self.now.geometry group) (group_block self.now.geometry group + self.now.geometry.blocks) }
    {
        let first = self.geometry.group_block(group) as usize;
        &self.cells[first..first + self.geometry.blocks_a_group() as usize]
    }
}
