//! What is found of the links of a group's inodes.
ghost use Rattle.std.specs.Prelude.{◌≡◌, ◌<◌, ◌≤◌, [], IfOk, OnOk, IsOkUnless, IsTrue};
ghost use Rattle.findings.specs.Groups.{AreFoundIn};
ghost use Rattle.findings.specs.Findings.{is_of_counts};
ghost use Rattle.frozen.specs.Kept.{frozen_view};
ghost use Rattle.model.specs.Growth.{Adds};
ghost use Rattle.model.specs.Layout.{is_number};
ghost use Rattle.model.specs.Reached.{AreReached};
ghost use Rattle.refcounts.specs.Counts.{AreEntries};
ghost use Rattle.refcounts.specs.Links.{IsFoundOfLinks, links_finding};

use crate::counting::EntryCounts;
use findings::Finding;
use frozen::Frozen;
use layout::Refusal;
use sets::Members;
use std::alloc::{AllocError, Global};

/// The reachable inodes of this group that have more links than entries, and those that have fewer, where these are the
/// group's entries. A unit that is no group has no inodes. Only `NoMemory` is refused.
pub fn findings(
    alloc: Global,
    frozen: &Frozen,
    unit: u32,
    counts: &EntryCounts,
    reached: &Members,
) -> Result<Vec<Finding>, Refusal>
    ensures found { IfOk result (λ found. AreReached frozen.now.geometry (frozen_view frozen.now) reached.now
        → AreEntries frozen.now.geometry (frozen_view frozen.now) unit counts.now → unit < frozen.now.geometry.groups
        → AreFoundIn is_of_counts frozen.now.geometry (frozen_view frozen.now) unit found.items) }
    ensures no_group { IfOk result (λ found. frozen.now.geometry.groups ≤ unit → found.items ≡ []) }
    ensures error { IsOkUnless result Refusal.NoMemory }
{
    let geometry = frozen.geometry();
    let mut found = Vec::new(alloc);
    if unit >= geometry.groups() {
        return Ok(found);
    }
    for number in geometry.numbers_of(unit) {
        if reached.has(number) {
            let entries = counts.of(number % geometry.inodes_a_group());
            add_links(frozen, number, entries, &mut found)?;
        }
    }
    Ok(found)
}
/// Adds what is found of an inode that so many entries name.
fn add_links(
    frozen: &Frozen,
    inode: u32,
    entries: u64,
    found: &mut Vec<Finding>,
) -> Result<(), AllocError>
    requires { IsTrue (is_number frozen.now.geometry inode) }
    ensures { OnOk result (Adds (IsFoundOfLinks (frozen_view frozen.now) inode entries) found.old.items found.new.items) }
{
    let links = frozen.links(inode);
    if let Some(finding) = links_finding(inode, links, entries) {
        found.push(finding)?;
    }
    Ok(())
}

/// What is found of an inode with so many links and entries.
fn links_finding(inode: u32, links: u16, entries: u64) -> Option<Finding>
    ensures { result ≡ links_finding inode links entries }
{
    if u64::from(links) > entries {
        Some(Finding::CountHigh(inode, links, entries))
    } else if u64::from(links) < entries {
        Some(Finding::CountLow(inode, links, entries))
    } else {
        None
    }
}
