//! The geometry that the numbers of a line ask for.
ghost use Rattle.std.specs.Prelude.{◌≡◌, IfOk};

use command_line::Failure;
use failures::Reason;
use layout::{Geometry, INODES_PER_BLOCK};

/// The geometry of these numbers in this version of the layout. If there is none, it is refused with `BadGeometry` and the limit
/// that is broken, and with `BadSuper` if there is no such version.
pub(crate) fn geometry_of(
    groups: u32,
    blocks: u32,
    inodes: u32,
    version: u32,
) -> Result<Geometry, Failure>
    ensures { IfOk result (λ geometry. geometry ≡ record { groups = groups; blocks = blocks; inodes = inodes; version = version }) }
{
    match Geometry::new(groups, blocks, inodes) {
        Ok(geometry) => Ok(geometry.with_version(version)?),
        Err(cause) => Err(Failure::from(cause).because(limit_broken(groups, blocks, inodes))),
    }
}

/// The first limit that these numbers break, which are no geometry.
fn limit_broken(groups: u32, blocks: u32, inodes: u32) -> Reason {
    if groups < 1 || groups > 64 {
        return Reason::GroupCount;
    }
    if blocks < 8 || blocks > 4_096 {
        return Reason::BlockCount;
    }
    if inodes < 8 || inodes > 1_024 || inodes % INODES_PER_BLOCK != 0 {
        return Reason::InodeCount;
    }
    Reason::NoDataBlock
}
