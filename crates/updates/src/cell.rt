ghost use Rattle.std.specs.Prelude.{◌≡◌, ◌<◌};
ghost use Rattle.model.specs.Layout.{Geometry as Numbers, IsGeometry, block_count};
ghost use Rattle.ordering.specs.Cuts.{Cell as OrderedCell};
ghost use Rattle.queue_model.specs.Blocks.{home_of};
ghost use Rattle.updates.specs.Values.{cell};
ghost use Rattle.updates.specs.Places.{IsCell, place_of, place_count};

use layout::Geometry;

/// What one update writes.
#[derive(Clone, Copy, Debug, PartialEq, Eq)]
pub enum Cell {
    /// The record of an inode, by its number.
    Record(u32),
    /// The bit of an inode number.
    NumberBit(u32),
    /// The bit of a data block, by its address.
    BlockBit(u32),
    /// A whole block of the data area, by its address.
    Block(u32),
}

/// What stands in the places of a list that are not in use.
impl Default for Cell {
    fn default() -> Cell {
        Cell::Record(0)
    }
}

impl Cell {
    /// The address of the block in which the cell stands.
    pub fn home(self, geometry: &Geometry) -> u32
        requires { IsCell geometry.now (cell self) }
        ensures address { result ≡ home_of geometry.now (cell self) }
        ensures on_volume { result < block_count geometry.now }
        ensures not_super { 0 < result }
    {
        match self {
            Cell::Record(number) => geometry.inode_place(number).address,
            Cell::NumberBit(number) => geometry.group_block(geometry.group_of(number)),
            Cell::BlockBit(address) => match geometry.place_of(address) {
                Some(place) => geometry.group_block(place.group),
                None => unreachable!(),
            },
            Cell::Block(address) => address,
        }
    }

    /// A place of its own in a table of all cells of the volume.
    pub fn place(self, geometry: &Geometry) -> usize
        requires { IsCell geometry.now (cell self) }
        ensures place { result ≡ place_of geometry.now (cell self) }
        ensures in_table { result < place_count geometry.now }
    {
        let place = match self {
            Cell::Record(number) => number,
            Cell::NumberBit(number) => geometry.inodes() + number,
            Cell::BlockBit(address) => 2 * geometry.inodes() + address,
            Cell::Block(address) => 2 * geometry.inodes() + geometry.blocks() + address,
        };
        place as usize
    }
}

/// How many places there are: for the records and the bits of all inode numbers, and for the bits and the blocks of
/// all addresses.
pub fn places(geometry: &Geometry) -> usize
    ensures { result ≡ place_count geometry.now }
{
    2 * geometry.inodes() as usize + 2 * geometry.blocks() as usize
}

/// No two cells of a volume have one place.
pub fn cells_have_places_of_their_own()
    ensures { (geo : Numbers) → IsGeometry geo → (c d : OrderedCell) → IsCell geo c → IsCell geo d → place_of geo c ≡ place_of geo d → c ≡ d }
{}
