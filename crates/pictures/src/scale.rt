ghost use Rattle.std.specs.Prelude.{◌<◌, ◌≤◌, ◌+◌, ◌*◌};

use layout::Geometry;

/// How large the cells of a picture are. Rows of them are as wide on each scale.
#[derive(Clone, Copy, Debug, PartialEq, Eq)]
pub(crate) enum Scale {
    /// 64 cells a row, of 16 pixels.
    Large,
    /// 128 cells a row, of 8 pixels.
    Middle,
    /// 256 cells a row, of 4 pixels.
    Small,
}

impl Scale {
    /// The scale of a volume: the more blocks it has, the smaller they are drawn.
    pub(crate) fn of(geometry: &Geometry) -> Scale {
        match geometry.groups() * geometry.blocks_a_group() {
            0..=4_096 => Scale::Large,
            4_097..=32_768 => Scale::Middle,
            _ => Scale::Small,
        }
    }

    /// How many cells a row has.
    pub(crate) fn columns(self) -> u32
        ensures some { 64 ≤ result }
        ensures few { result ≤ 256 }
    {
        match self {
            Scale::Large => 64,
            Scale::Middle => 128,
            Scale::Small => 256,
        }
    }

    /// How wide and how high a cell is, in pixels.
    pub(crate) fn pixels(self) -> u32
        ensures { result ≤ 16 }
    {
        match self {
            Scale::Large => 16,
            Scale::Middle => 8,
            Scale::Small => 4,
        }
    }

    /// How wide the cells of a group of so many blocks are, in pixels.
    pub(crate) fn width_of(self, blocks: u32) -> u32
        ensures { result ≤ 1_024 }
    {
        match self {
            Scale::Large => 16 * blocks.min(64),
            Scale::Middle => 8 * blocks.min(128),
            Scale::Small => 4 * blocks.min(256),
        }
    }

    /// How high they are, in pixels.
    pub(crate) fn height_of(self, blocks: u32) -> u32
        requires { blocks ≤ 4_096 }
        ensures { result ≤ 1_024 }
    {
        match self {
            Scale::Large => 16 * blocks.div_ceil(64),
            Scale::Middle => 8 * blocks.div_ceil(128),
            Scale::Small => 4 * blocks.div_ceil(256),
        }
    }
}
