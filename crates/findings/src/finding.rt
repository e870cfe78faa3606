ghost use Rattle.std.specs.Prelude.{◌≡◌, IfOk, IsOkUnless, Some};
ghost use Rattle.std.specs.List.{list_all};
ghost use Rattle.findings.specs.Findings.{is_soft};
ghost use Rattle.findings.specs.Report.{finding_text};

use layout::Refusal;
use std::alloc::Global;
use std::fmt;

/// What a check can find, in the order of a report.
#[derive(Clone, Copy, PartialEq, Eq, PartialOrd, Ord, Debug)]
pub enum Finding {
    /// The record of this inode is neither free nor sound.
    BadInode(u32),
    /// This inode uses, at this position, an address where no data block stands: the inode, the position, the address.
    BadPointer(u32, u32, u32),
    /// This inode claims, at this position, a block that an earlier claim owns: the inode, the position, the block.
    Duplicate(u32, u32, u32),
    /// The root is no sound directory.
    RootBad,
    /// An entry that is neither empty nor well formed: the directory, and the slot of the entry.
    BadSlot(u32, u32),
    /// The entry's name stands in an earlier entry of its directory too: the directory, and the slot of the entry.
    DupName(u32, u32),
    /// The first slot of this directory does not name the directory itself.
    BadDot(u32),
    /// The second slot of this directory does not name its parent.
    BadDotDot(u32),
    /// The entry names an inode that is not sound: the directory, and the slot of the entry.
    ToUnsound(u32, u32),
    /// The entry names the root, or a directory that an earlier entry names: the directory, and the slot of the entry.
    ExtraName(u32, u32),
    /// This inode is sound, and no path reaches it.
    LostInode(u32),
    /// An inode has more links than entries name it: the inode, its links, and the entries.
    CountHigh(u32, u16, u64),
    /// An inode has fewer links than entries name it: the inode, its links, and the entries.
    CountLow(u32, u16, u64),
    /// This block is marked, and no inode claims it.
    LostBlock(u32),
    /// An inode claims this block, and it is not marked.
    UnmarkedBlock(u32),
    /// This inode number is marked, and its record is free.
    LostNumber(u32),
    /// The record of this inode is not free, and its number is not marked.
    UnmarkedInode(u32),
}

impl Finding {
    /// Whether it is of a kind that soft updates may leave after a stop, so that a repair mends it.
    pub fn is_soft(&self) -> bool
        ensures { result ≡ is_soft self.now }
    {
        matches!(
            self,
            Finding::LostInode(_)
                | Finding::CountHigh(..)
                | Finding::LostBlock(_)
                | Finding::LostNumber(_)
        )
    }

    /// Its line in a report, without the blanks before it and the line feed.
    pub fn line(&self, alloc: Global) -> Result<Vec<u8>, Refusal>
        ensures line { IfOk result (λ text. text.items ≡ finding_text self.now) }
        ensures error { IsOkUnless result Refusal.NoMemory }
    {
        Ok(self.to_string(alloc)?.into_bytes())
    }
}

impl fmt::Display for Finding {
    ghost output = { λ finding. Some (finding_text finding) };

    fn fmt<W: fmt::Write>(&self, f: &mut fmt::Formatter<W>) -> fmt::Result {
        match *self {
            Finding::BadInode(inode) => write!(f, "bad inode {inode}"),
            Finding::BadPointer(inode, position, value) => {
                write!(f, "bad pointer {inode} position {position} value {value}")
            }
            Finding::Duplicate(inode, position, block) => {
                write!(f, "duplicate {inode} position {position} block {block}")
            }
            Finding::RootBad => write!(f, "bad root"),
            Finding::BadSlot(directory, slot) => write!(f, "bad slot {directory} slot {slot}"),
            Finding::DupName(directory, slot) => write!(f, "repeated name {directory} slot {slot}"),
            Finding::BadDot(directory) => write!(f, "bad dot {directory}"),
            Finding::BadDotDot(directory) => write!(f, "bad dot dot {directory}"),
            Finding::ToUnsound(directory, slot) => {
                write!(f, "name of no sound inode {directory} slot {slot}")
            }
            Finding::ExtraName(directory, slot) => write!(f, "second name {directory} slot {slot}"),
            Finding::LostInode(inode) => write!(f, "lost inode {inode}"),
            Finding::CountHigh(inode, links, entries) => {
                write!(f, "count high {inode} links {links} entries {entries}")
            }
            Finding::CountLow(inode, links, entries) => {
                write!(f, "count low {inode} links {links} entries {entries}")
            }
            Finding::LostBlock(block) => write!(f, "lost block {block}"),
            Finding::UnmarkedBlock(block) => write!(f, "unmarked block {block}"),
            Finding::LostNumber(number) => write!(f, "lost number {number}"),
            Finding::UnmarkedInode(inode) => write!(f, "unmarked inode {inode}"),
        }
    }
}

/// Whether each of them is of a soft kind.
pub(crate) fn all_soft(findings: &[Finding]) -> bool
    ensures { result ≡ list_all is_soft findings.now }
{
    findings.iter().all(|finding| finding.is_soft())
}
