ghost use Rattle.std.specs.Prelude.{◌≡◌, length, IfOk, IsOkUnless, Some};
ghost use Rattle.findings.specs.Report.{repair_of, repair_text, repairs_of};

use crate::finding::{Finding, all_soft};
use layout::Refusal;
use std::alloc::Global;
use std::fmt;

/// What mends a finding of a soft kind.
#[derive(Clone, Copy, PartialEq, Eq, Debug)]
pub enum Repair {
    /// Set the links of this inode to 0, which frees it unless it is open.
    DropInode(u32),
    /// Lower the links of an inode: the inode, and by how many.
    LowerCount(u32, u32),
    /// Unmark this block.
    FreeBlock(u32),
    /// Unmark this inode number.
    FreeNumber(u32),
}

impl Repair {
    /// What mends this finding; nothing does if it is of no soft kind.
    fn of(finding: &Finding) -> Option<Repair>
        ensures { result ≡ repair_of finding.now }
    {
        match *finding {
            Finding::LostInode(inode) => Some(Repair::DropInode(inode)),
            Finding::CountHigh(inode, links, entries) => {
                let more = u64::from(links).saturating_sub(entries);
                Some(Repair::LowerCount(inode, more as u32))
            }
            Finding::LostBlock(block) => Some(Repair::FreeBlock(block)),
            Finding::LostNumber(number) => Some(Repair::FreeNumber(number)),
            _ => None,
        }
    }

    /// Its line, without the blanks before it and the line feed.
    pub fn line(&self, alloc: Global) -> Result<Vec<u8>, Refusal>
        ensures line { IfOk result (λ text. text.items ≡ repair_text self.now) }
        ensures error { IsOkUnless result Refusal.NoMemory }
    {
        Ok(self.to_string(alloc)?.into_bytes())
    }
}

impl fmt::Display for Repair {
    ghost output = { λ repair. Some (repair_text repair) };

    fn fmt<W: fmt::Write>(&self, f: &mut fmt::Formatter<W>) -> fmt::Result {
        match *self {
            Repair::DropInode(inode) => write!(f, "drop inode {inode}"),
            Repair::LowerCount(inode, links) => write!(f, "lower count {inode} by {links}"),
            Repair::FreeBlock(block) => write!(f, "free block {block}"),
            Repair::FreeNumber(number) => write!(f, "free number {number}"),
        }
    }
}

/// One repair for each finding, if all are of soft kinds, else none at all.
pub fn repairs(alloc: Global, findings: &[Finding]) -> Result<Vec<Repair>, Refusal>
    ensures repairs { IfOk result (λ repairs. repairs.items ≡ repairs_of findings.now) }
    ensures error { IsOkUnless result Refusal.NoMemory }
{
    if !all_soft(findings) {
        return Ok(Vec::new(alloc));
    }
    Ok(
        findings
            .iter()
            .filter_map(|finding| Repair::of(finding))
            .collect(alloc)?,
    )
}

/// How many repairs these findings have.
pub(crate) fn repair_count(findings: &[Finding]) -> usize
    ensures { result ≡ length (repairs_of findings.now) }
{
    if all_soft(findings) {
        findings.len()
    } else {
        0
    }
}
