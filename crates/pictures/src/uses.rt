/// What a block of a volume is used for.
#[derive(Clone, Copy, Debug, PartialEq, Eq)]
pub enum Use {
    /// The superblock, or a group's block of maps.
    Maps,
    /// A block of inode records.
    Inodes,
    /// A data block that a sound directory alone claims, for its slots.
    Directory,
    /// A data block that a sound record alone claims, for pointers to further blocks.
    Indirect,
    /// A data block that a sound file alone claims, for its bytes.
    File,
    /// A data block that nothing claims, and that is not marked.
    Free,
    /// A data block that nothing claims, and that is marked.
    Lost,
    /// A data block with two claims or more.
    Duplicate,
}

impl Use {
    /// All of them, in the order of a legend.
    pub const ALL: [Use; 8] = [
        Use::Maps,
        Use::Inodes,
        Use::Directory,
        Use::Indirect,
        Use::File,
        Use::Free,
        Use::Lost,
        Use::Duplicate,
    ];

    /// Its name in a legend.
    pub fn name(self) -> &'static str {
        match self {
            Use::Maps => "superblock and maps",
            Use::Inodes => "inodes",
            Use::Directory => "directory",
            Use::Indirect => "indirect",
            Use::File => "file",
            Use::Free => "free",
            Use::Lost => "lost",
            Use::Duplicate => "duplicate",
        }
    }

    /// Its colour in SVG, of those that Okabe and Ito chose so that people who see few colours tell them apart; what is free is light.
    pub fn colour(self) -> &'static str {
        match self {
            Use::Maps => "#000000",
            Use::Inodes => "#0072B2",
            Use::Directory => "#009E73",
            Use::Indirect => "#CC79A7",
            Use::File => "#56B4E9",
            Use::Free => "#E6E6E6",
            Use::Lost => "#E69F00",
            Use::Duplicate => "#D55E00",
        }
    }
}
