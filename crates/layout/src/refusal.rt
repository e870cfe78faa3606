ghost use Rattle.std.specs.Prelude.{◌≡◌};
ghost use Rattle.layout.specs.declared.refusal.Refusal.TheVariants.{NoMemory};

use std::alloc::{AllocError, AllocFailed};
use thiserror::Error;

/// Why a call was refused. The text is the number of the cause, a blank and its name.
#[derive(Clone, Copy, Debug, PartialEq, Eq, Error)]
pub enum Refusal {
    /// A growth was refused.
    #[error("1 NoMemory")]
    NoMemory,
    /// The device failed in this call.
    #[error("2 Device")]
    Device,
    /// The length is no whole number of blocks, none at all, or not that of the geometry.
    #[error("3 BadLength")]
    BadLength,
    /// The magic, the version or a geometry number of block 0 is wrong.
    #[error("4 BadSuper")]
    BadSuper,
    /// The magic or the number of this cylinder group's block is wrong, and of no group before it.
    #[error("5 BadGroup {0}")]
    BadGroup(u32),
    /// There are not 1 to 64 workers.
    #[error("6 BadWorkers")]
    BadWorkers,
    /// No such name or inode stands there.
    #[error("7 NotFound")]
    NotFound,
    /// The new name stands there already.
    #[error("8 Exists")]
    Exists,
    /// A file stands where a directory is needed.
    #[error("9 NotDirectory")]
    NotDirectory,
    /// A directory stands where a file is needed, or would be renamed into another directory.
    #[error("10 IsDirectory")]
    IsDirectory,
    /// The directory to be removed has a name other than its dots.
    #[error("11 NotEmpty")]
    NotEmpty,
    /// The path is no path.
    #[error("12 BadName")]
    BadName,
    /// No inode number from 2 on is unmarked.
    #[error("13 NoInode")]
    NoInode,
    /// Fewer data blocks are unmarked than the call needs.
    #[error("14 NoBlock")]
    NoBlock,
    /// The call adds a link where there are 32,767 or more.
    #[error("15 TooManyLinks")]
    TooManyLinks,
    /// The block index is past the largest file, or the directory is full.
    #[error("16 TooBig")]
    TooBig,
    /// The handle is not open.
    #[error("17 BadHandle")]
    BadHandle,
    /// An index or a size is past the end, or no block, repair, limit or seat has this number.
    #[error("18 BadIndex")]
    BadIndex,
    /// The piece to be written is empty or longer than a block.
    #[error("19 BadPiece")]
    BadPiece,
    /// A snapshot stands already.
    #[error("20 SnapshotStands")]
    SnapshotStands,
    /// No snapshot stands.
    #[error("21 NoSnapshot")]
    NoSnapshot,
    /// The check was not made of the standing snapshot's image.
    #[error("22 ForeignPlan")]
    ForeignPlan,
    /// This repair was carried out before.
    #[error("23 AlreadyDone")]
    AlreadyDone,
    /// The image breaks a rule that soft updates keep.
    #[error("24 Damaged")]
    Damaged,
    /// The check's verdict is damaged, so it has no repairs.
    #[error("25 PlanNotSoft")]
    PlanNotSoft,
    /// A plan was already installed for this snapshot.
    #[error("26 PlanStands")]
    PlanStands,
    /// The trace has reached its limit, or the count of dropped calls its end.
    #[error("27 TraceFull")]
    TraceFull,
    /// No plan is installed.
    #[error("28 NoPlan")]
    NoPlan,
    /// No volume may have these numbers of groups, blocks and inodes.
    #[error("29 BadGeometry")]
    BadGeometry,
    /// The root stands where an entry is needed.
    #[error("30 IsRoot")]
    IsRoot,
    /// As many snapshots stand as may, or no number is left for one more.
    #[error("31 TooManySnapshots")]
    TooManySnapshots,
    /// As many handles are open as may be.
    #[error("32 TooManyOpen")]
    TooManyOpen,
}

impl From<AllocError> for Refusal {
    ghost from_gives = { λ _ refusal. refusal ≡ NoMemory };

    fn from(_error: AllocError) -> Refusal {
        Refusal::NoMemory
    }
}

impl<T: Drop> From<AllocFailed<T>> for Refusal {
    ghost from_gives = { λ _ refusal. refusal ≡ NoMemory };

    fn from(_error: AllocFailed<T>) -> Refusal {
        Refusal::NoMemory
    }
}
