//! Whose a volume is.
use fuse_wire::Time;

/// Whose the files and directories of a volume are of which no attributes are kept, and when they were changed: those of the file of
/// its image.
#[derive(Clone, Copy, Debug, PartialEq, Eq)]
pub struct Owner {
    pub user: u32,
    pub group: u32,
    pub changed: Time,
}
