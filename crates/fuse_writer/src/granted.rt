//! What a volume may be asked for beyond what it keeps.

/// What is done for programs though the volume has no command for it.
#[derive(Clone, Copy, Debug, PartialEq, Eq)]
pub struct Rules {
    /// Modes, owners and times are kept, and what files are beside plain ones. Else inodes are made without, and none are set.
    pub keeps_attributes: bool,
    /// Where a file is written or lengthened past its end, zeroes are written before.
    pub fills: bool,
    /// A name that a rename would replace is taken away before.
    pub replaces: bool,
}
