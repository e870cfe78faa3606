//! The findings of an image's number maps.
ghost use Rattle.std.specs.Prelude.{◌≡◌, ◌<◌, ◌/◌, ◌%◌, ◌++◌, ◌==◌, IfOk, OnOk, IsOkUnless, IsTrue};
ghost use Rattle.model.specs.Layout.{inode_count, group_block, is_number};
ghost use Rattle.model.specs.View.{map_bit};
ghost use Rattle.findings.specs.Findings.{AreFindingsOf, is_of_numbers};
ghost use Rattle.findings.specs.Numbers.{is_lost_number, is_unmarked_number, lost_below, unmarked_below};
ghost use Rattle.model.specs.Units.{only, stands_in};
ghost use Rattle.frozen.specs.Kept.{frozen_view, kept_bytes};
ghost use Rattle.phase_maps.specs.NumberFindings.{IsFoundOfNumbers};
ghost use Rattle.model.specs.Growth.{Adds};
ghost use Rattle.phase_maps.specs.Walks.{number_finding};

use cgmaps::{Map, bit_of};
use findings::{Finding, numbers_tell_their_findings};
use frozen::Frozen;
use inode::FREE;
use layout::{ROOT, Refusal};
use std::alloc::{AllocError, Global};

/// The marked numbers whose records are free, and then the unmarked numbers whose records are not, each in ascending
/// order. Only `NoMemory` is refused.
pub fn number_findings(alloc: Global, frozen: &Frozen) -> Result<Vec<Finding>, Refusal>
    ensures found { IfOk result (λ found. AreFindingsOf is_of_numbers frozen.now.geometry (frozen_view frozen.now) found.items) }
    ensures error { IsOkUnless result Refusal.NoMemory }
{
    numbers_tell_their_findings();
    let mut found = Vec::new(alloc);
    add_lost_numbers(frozen, &mut found)?;
    add_unmarked_inodes(frozen, &mut found)?;
    Ok(found)
}

/// Adds each marked number whose record is free.
fn add_lost_numbers(frozen: &Frozen, found: &mut Vec<Finding>) -> Result<(), AllocError>
    ensures { OnOk result (found.new.items ≡ found.old.items ++ lost_below frozen.now.geometry (frozen_view frozen.now) (inode_count frozen.now.geometry)) }
{
    for number in 0..frozen.geometry().inodes() {
        if is_lost(frozen, number) {
            found.push(Finding::LostNumber(number))?;
        }
    }
    Ok(())
}

/// Adds each unmarked number whose record is not free.
fn add_unmarked_inodes(frozen: &Frozen, found: &mut Vec<Finding>) -> Result<(), AllocError>
    ensures { OnOk result (found.new.items ≡ found.old.items ++ unmarked_below frozen.now.geometry (frozen_view frozen.now) (inode_count frozen.now.geometry)) }
{
    for number in 0..frozen.geometry().inodes() {
        if is_unmarked(frozen, number) {
            found.push(Finding::UnmarkedInode(number))?;
        }
    }
    Ok(())
}

/// Adds what is found of the numbers of a group.
pub(crate) fn add_numbers(
    frozen: &Frozen,
    group: u32,
    found: &mut Vec<Finding>,
) -> Result<(), AllocError>
    requires { group < frozen.now.geometry.groups }
    ensures { OnOk result (Adds (IsFoundOfNumbers frozen.now.geometry (frozen_view frozen.now) (stands_in frozen.now.geometry (only group))) found.old.items found.new.items) }
{
    for number in frozen.geometry().numbers_of(group) {
        add_number(frozen, number, found)?;
    }
    Ok(())
}

/// Adds what is found of a number.
fn add_number(frozen: &Frozen, number: u32, found: &mut Vec<Finding>) -> Result<(), AllocError>
    requires { IsTrue (is_number frozen.now.geometry number) }
    ensures { OnOk result (Adds (IsFoundOfNumbers frozen.now.geometry (frozen_view frozen.now) (λ i. i == number)) found.old.items found.new.items) }
{
    if let Some(finding) = number_finding(
        is_marked(frozen, number),
        is_free(frozen, number),
        number,
    ) {
        found.push(finding)?;
    }
    Ok(())
}

/// What is found of a number.
fn number_finding(is_marked: bool, is_free: bool, number: u32) -> Option<Finding>
    ensures { result ≡ number_finding is_marked is_free number }
{
    match (is_marked, is_free) {
        (true, true) => Some(Finding::LostNumber(number)),
        (false, false) => Some(Finding::UnmarkedInode(number)),
        _ => None,
    }
}

/// Whether the number is given out, marked and free.
fn is_lost(frozen: &Frozen, number: u32) -> bool
    requires { number < inode_count frozen.now.geometry }
    ensures { result ≡ is_lost_number frozen.now.geometry (frozen_view frozen.now) number }
{
    number >= ROOT && is_marked(frozen, number) && is_free(frozen, number)
}

/// Whether the number is given out, unmarked and not free.
fn is_unmarked(frozen: &Frozen, number: u32) -> bool
    requires { number < inode_count frozen.now.geometry }
    ensures { result ≡ is_unmarked_number frozen.now.geometry (frozen_view frozen.now) number }
{
    number >= ROOT && !is_marked(frozen, number) && !is_free(frozen, number)
}

/// Whether the number's bit is set.
fn is_marked(frozen: &Frozen, number: u32) -> bool
    requires { number < inode_count frozen.now.geometry }
    ensures { let geo = frozen.now.geometry in
        result ≡ map_bit (kept_bytes frozen.now.blocks (group_block geo (number / geo.inodes))) 32 (number % geo.inodes) }
{
    let geometry = frozen.geometry();
    let maps = frozen.maps_of(geometry.group_of(number));
    bit_of(maps, Map::Inodes, number % geometry.inodes_a_group())
}

/// Whether the number's record is free.
fn is_free(frozen: &Frozen, number: u32) -> bool
    requires { IsTrue (is_number frozen.now.geometry number) }
    ensures { result ≡ ((frozen_view frozen.now).inode number).mode == 0 }
{
    frozen.mode(number) == FREE
}
