ghost use Rattle.std.specs.Prelude.{◌≡◌, ◌≤◌, ◌<◌, ◌+◌, ◌*◌, ◌/◌, ◌++◌, ℕ, IfOk, OnOk, IsOkUnless, IsTrue, IsFalse, map};
ghost use Rattle.std.specs.List.{Contains};
ghost use Rattle.std.specs.List.Sorted.{IsStrictlySortedBy};
ghost use Rattle.findings.specs.declared.finding.Finding.TheVariants.{DupName, ToUnsound};
ghost use Rattle.findings.specs.Findings.{finding_cmp};
ghost use Rattle.model.specs.Growth.{Adds};
ghost use Rattle.model.specs.Shape.{most_blocks};
ghost use Rattle.model.specs.Uses.{is_directory_at, is_sound_at};
ghost use Rattle.model.specs.Slots as model;
ghost use Rattle.frozen.specs.Kept.{frozen_view};
ghost use Rattle.dirent.specs.Seen.{seen};
ghost use Rattle.phase_names.specs.Told.{IsTold, naming_of};
ghost use Rattle.phase_names.specs.Walks.{IsWalked, digest, keyed};

use crate::look::{Look, Naming};
use dirent::{SLOTS, Slot, slot_in};
use findings::Finding;
use frozen::Frozen;
use layout::{Block, ROOT, Refusal};
use std::alloc::{AllocError, Global};
use std::collections::BTreeSet;
use std::hash::{FoldHasher, Hasher};
use std::marker::Model;

/// The slot of a directory's name for itself.
const DOT: u32 = 0;

/// The slot of a directory's name for its parent.
const DOT_DOT: u32 = 1;

/// The first slot that has an entry.
const FIRST_ENTRY: u32 = 2;

/// A name, as it stands in its directory's block, behind a digest of it. So most names are told apart by one number.
#[derive(Clone, Copy, PartialEq, Eq, PartialOrd, Ord)]
struct Name<'a> {
    digest: u64,
    bytes: &'a [u8],
}

impl<'a> Name<'a> {
    /// The name of these bytes.
    fn new(bytes: &'a [u8]) -> Name<'a>
        ensures { (result.digest, result.bytes.now) ≡ keyed bytes.now }
    {
        Name {
            digest: digest(bytes),
            bytes,
        }
    }
}

/// What a walk over the slots of a directory has so far: the names, the findings, and the slots that name the root or
/// a sound directory.
#[derive(Drop)]
struct Walk<'a> {
    names: BTreeSet<Name<'a>>,
    findings: BTreeSet<Finding>,
    directories: Vec<Naming>,
}

impl<'a> Model for Walk<'a> {
    ghost use Rattle.std.specs.Prelude.{map};
    ghost use Rattle.phase_names.specs.Walks.{Walked};

    ghost Value = { Walked };

    ghost view = { λ w. record { names = map (λ name. (name.digest, name.bytes.now)) w.names.keys; findings = w.findings.keys; directories = w.directories.items } };
}

impl<'a> Walk<'a> {
    /// The walk before the first slot, with what is found of slot 0.
    fn begin(alloc: Global, frozen: &Frozen, directory: u32) -> Result<Walk<'a>, Refusal>
        requires { 1 ≤ directory }
        ensures walked { IfOk result (IsWalked frozen.now.geometry (frozen_view frozen.now) directory 0) }
        ensures error { IsOkUnless result Refusal.NoMemory }
    {
        let mut findings = BTreeSet::new(alloc);
        if number_in(frozen, directory, DOT) != directory {
            findings.insert(Finding::BadDot(directory))?;
        }
        Ok(Walk {
            names: BTreeSet::new(alloc),
            findings,
            directories: Vec::new(alloc),
        })
    }

    /// Looks at the slots of the block at this position.
    fn add_position(
        &mut self,
        frozen: &'a Frozen,
        directory: u32,
        position: u32,
    ) -> Result<(), Refusal>
        requires { position < most_blocks frozen.now.geometry }
        ensures walked { OnOk result (IsWalked frozen.now.geometry (frozen_view frozen.now) directory (16 * position) self.old
            → IsWalked frozen.now.geometry (frozen_view frozen.now) directory (16 * (position + 1)) self.new) }
        ensures error { IsOkUnless result Refusal.NoMemory }
    {
        match frozen.directory_block(directory, position) {
            Some(block) => self.add_block(frozen, directory, position, block),
            None => Ok(()),
        }
    }

    /// Looks at the slots of this block, which is the one at this position.
    fn add_block(
        &mut self,
        frozen: &Frozen,
        directory: u32,
        position: u32,
        block: &'a Block,
    ) -> Result<(), Refusal>
        requires position { position < most_blocks frozen.now.geometry }
        requires block { (s : ℕ) → s / 16 ≡ position
            → model.slot frozen.now.geometry (frozen_view frozen.now) directory s ≡ model.slot_in frozen.now.geometry block.now s }
        ensures walked { OnOk result (IsWalked frozen.now.geometry (frozen_view frozen.now) directory (16 * position) self.old
            → IsWalked frozen.now.geometry (frozen_view frozen.now) directory (16 * (position + 1)) self.new) }
        ensures error { IsOkUnless result Refusal.NoMemory }
    {
        let inodes = frozen.geometry().inodes();
        let first = SLOTS as u32 * position;
        for slot in first..first + SLOTS as u32 {
            self.add_slot(frozen, directory, slot, slot_in(block, slot, inodes))?;
        }
        Ok(())
    }

    /// Looks at one slot. What is found of the dots is found elsewhere.
    fn add_slot(
        &mut self,
        frozen: &Frozen,
        directory: u32,
        slot: u32,
        content: Slot<'a>,
    ) -> Result<(), Refusal>
        requires { seen content ≡ model.slot frozen.now.geometry (frozen_view frozen.now) directory slot }
        ensures walked { OnOk result (IsWalked frozen.now.geometry (frozen_view frozen.now) directory slot self.old
            → IsWalked frozen.now.geometry (frozen_view frozen.now) directory (slot + 1) self.new) }
        ensures error { IsOkUnless result Refusal.NoMemory }
    {
        match content {
            _ if slot < FIRST_ENTRY => Ok(()),
            Slot::Empty => Ok(()),
            Slot::Bad => add_finding(&mut self.findings, Finding::BadSlot(directory, slot)),
            Slot::Good { number, name } => self.add_entry(frozen, directory, slot, number, name),
        }
    }

    /// Looks at an entry.
    fn add_entry(
        &mut self,
        frozen: &Frozen,
        directory: u32,
        slot: u32,
        number: u32,
        name: &'a [u8],
    ) -> Result<(), Refusal>
        requires after_dots { 2 ≤ slot }
        requires good { model.slot frozen.now.geometry (frozen_view frozen.now) directory slot ≡ model.Good number name.now }
        ensures walked { OnOk result (IsWalked frozen.now.geometry (frozen_view frozen.now) directory slot self.old
            → IsWalked frozen.now.geometry (frozen_view frozen.now) directory (slot + 1) self.new) }
        ensures error { IsOkUnless result Refusal.NoMemory }
    {
        let repeated = Finding::DupName(directory, slot);
        add_name(&mut self.names, name, &mut self.findings, repeated)?;
        add_to_unsound(&mut self.findings, frozen, directory, slot, number)?;
        add_naming(&mut self.directories, frozen, slot, number)?;
        Ok(())
    }
}

/// What the slots of a sound directory tell.
pub(crate) fn look_at(alloc: Global, frozen: &Frozen, directory: u32) -> Result<Look, Refusal>
    requires { IsTrue (is_directory_at frozen.now.geometry (frozen_view frozen.now) directory) }
    ensures told { IfOk result (IsTold frozen.now.geometry (frozen_view frozen.now) directory) }
    ensures error { IsOkUnless result Refusal.NoMemory }
{
    let mut walk = Walk::begin(alloc, frozen, directory)?;
    for position in 0..frozen.blocks(directory) {
        walk.add_position(frozen, directory, position)?;
    }
    let Walk {
        findings,
        directories,
        ..
    } = walk;
    let parent = number_in(frozen, directory, DOT_DOT);
    Ok(Look::new(findings, parent, directories))
}

/// The number that a slot names, 0 where it names none.
fn number_in(frozen: &Frozen, directory: u32, slot: u32) -> u32
    ensures { result ≡ model.number_in (model.slot frozen.now.geometry (frozen_view frozen.now) directory slot) }
{
    let Some(block) = frozen.directory_block(directory, slot / SLOTS as u32) else {
        return 0;
    };
    match slot_in(block, slot, frozen.geometry().inodes()) {
        Slot::Good { number, .. } => number,
        _ => 0,
    }
}

/// Adds the name of an entry, and `repeated` where the name is there already.
fn add_name<'a>(
    names: &mut BTreeSet<Name<'a>>,
    name: &'a [u8],
    findings: &mut BTreeSet<Finding>,
    repeated: Finding,
) -> Result<(), Refusal>
    ensures named { OnOk result (Adds (λ x. keyed name.now ≡ x) (map (λ n. (n.digest, n.bytes.now)) names.old.keys) (map (λ n. (n.digest, n.bytes.now)) names.new.keys)) }
    ensures found { OnOk result (Adds (λ f. Contains (map (λ n. (n.digest, n.bytes.now)) names.old.keys) (keyed name.now)
        × (repeated ≡ f)) findings.old.keys findings.new.keys) }
    ensures ordered { OnOk result (IsStrictlySortedBy finding_cmp findings.old.keys → IsStrictlySortedBy finding_cmp findings.new.keys) }
    ensures error { IsOkUnless result Refusal.NoMemory }
{
    if names.insert(Name::new(name))? {
        return Ok(());
    }
    add_finding(findings, repeated)
}

/// Adds that an entry names an inode that is not sound, where it does.
fn add_to_unsound(
    findings: &mut BTreeSet<Finding>,
    frozen: &Frozen,
    directory: u32,
    slot: u32,
    number: u32,
) -> Result<(), Refusal>
    ensures found { OnOk result (Adds (λ f. IsFalse (is_sound_at frozen.now.geometry (frozen_view frozen.now) number)
        × (ToUnsound directory slot ≡ f)) findings.old.keys findings.new.keys) }
    ensures ordered { OnOk result (IsStrictlySortedBy finding_cmp findings.old.keys → IsStrictlySortedBy finding_cmp findings.new.keys) }
    ensures error { IsOkUnless result Refusal.NoMemory }
{
    if frozen.is_sound_at(number) {
        return Ok(());
    }
    add_finding(findings, Finding::ToUnsound(directory, slot))
}

/// Adds a slot and the number that it names, where that is the root's or a sound directory's.
fn add_naming(
    directories: &mut Vec<Naming>,
    frozen: &Frozen,
    slot: u32,
    number: u32,
) -> Result<(), AllocError>
    ensures { OnOk result (directories.new.items ≡ directories.old.items ++ naming_of frozen.now.geometry (frozen_view frozen.now) slot number) }
{
    if number != ROOT && !frozen.is_directory_at(number) {
        return Ok(());
    }
    directories.push(Naming {
        slot,
        inode: number,
    })?;
    Ok(())
}

/// Adds a finding.
fn add_finding(findings: &mut BTreeSet<Finding>, finding: Finding) -> Result<(), Refusal>
    ensures found { OnOk result (Adds (λ f. finding ≡ f) findings.old.keys findings.new.keys) }
    ensures ordered { OnOk result (IsStrictlySortedBy finding_cmp findings.new.keys) }
    ensures error { IsOkUnless result Refusal.NoMemory }
{
    findings.insert(finding)?;
    Ok(())
}

/// A number that is the same for the same name.
fn digest(name: &[u8]) -> u64
    ensures { result ≡ digest name.now }
{
    let mut hasher = FoldHasher::default();
    hasher.write(name);
    hasher.finish()
}
