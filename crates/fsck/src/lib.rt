//! The check of a whole image: records and the blocks that they use, names, connectivity, reference counts, and the
//! maps of the cylinder groups, one after another. In each of these phases workers share the groups; the walk of the
//! third they share round by round. The first and the fourth phase go over the groups twice: once each group has told
//! what it claims or names, each learns what is claimed or named of it.
#![tactic(auto)]

ghost use Rattle.std.specs.Prelude.{◌≡◌, ◌↔◌, ℕ, List, IfOk, IsOkUnless};
ghost use Rattle.std.specs.Arc.{arc_value};
ghost use Rattle.findings.specs.Findings.{AreFindings};
ghost use Rattle.findings.specs.Report.{verdict_of};
ghost use Rattle.findings.specs.declared.finding.Finding.{Finding as Found};
ghost use Rattle.findings.specs.declared.verdicts.Verdict.TheVariants.{Damaged};
ghost use Rattle.frozen.specs.Kept.{KeepsFrame, Kept, IsKeptOf, frozen_view};
ghost use Rattle.model.specs.Image.{image_view};
ghost use Rattle.model.specs.Layout.{Geometry};
ghost use Rattle.model.specs.Rules.{ObeysRules};
ghost use Rattle.model.specs.View.{View};
ghost use Rattle.fsck.specs.Checked.{CheckedImage, IsChecked, IsFoundIn};
ghost use Rattle.fsck.specs.Parts.{ArePiecesOf, MakesParts, MakesPieces, Reaches, are_links_if, are_maps_of, is_names_part, is_owned};

mod checked;
mod crew;
mod hands;
mod lone;
mod order;
mod phases;
mod works;

pub use checked::Checked;
use crew::{links_by_crew, maps_by_crew, names_by_crew, owners_by_crew};
use directories::{Piece, groups_of, pieces};
use findings::{Finding, OfGroup, all_found, joined};
use frozen::Frozen;
use layout::Refusal;
use lone::{links_by_one, maps_by_one, names_by_one, owners_by_one, reach};
use order::in_order;
use phase_blocks::BlockOwners;
use phases::check_names;
use sets::Members;
use std::alloc::Global;
use std::sync::Arc;
use std::thread::Threads;
use workers::{ByGroup, Gate, Workers};

/// Checks an image with 1 to 64 workers, which share the groups. Only `NoMemory` is refused. What is found is the same
/// for every number of workers.
///
/// The workers pass the gate before each group in each phase, with the phase's number from 1 to 5: first all groups in
/// phase 1, and so on. In phases 1 and 4 they do so in each of two passes, and in phase 3 in each round of the walk.
pub fn check<G: Gate>(
    rt: &(impl Threads + Sync),
    alloc: Global,
    frozen: &Arc<Frozen>,
    workers: Workers,
    gate: &G,
) -> Result<Checked, Refusal>
    ensures frozen { IfOk result (λ checked. checked.frozen ≡ arc_value frozen.now) }
    ensures checked { IfOk result (λ checked.
        IsChecked (arc_value frozen.now).geometry (frozen_view (arc_value frozen.now)) checked) }
    ensures error { IsOkUnless result Refusal.NoMemory }
{
    let found = find_shared(rt, workers, gate, alloc, frozen)?;
    checked_of(rt, alloc, frozen, found)
}

/// Checks an image with one worker, on the calling thread; other threads sort what was found, and do nothing else. Only
/// `NoMemory` is refused.
pub fn check_one(
    rt: &(impl Threads + Sync),
    alloc: Global,
    frozen: &Arc<Frozen>,
) -> Result<Checked, Refusal>
    ensures frozen { IfOk result (λ checked. checked.frozen ≡ arc_value frozen.now) }
    ensures checked { IfOk result (λ checked.
        IsChecked (arc_value frozen.now).geometry (frozen_view (arc_value frozen.now)) checked) }
    ensures error { IsOkUnless result Refusal.NoMemory }
{
    let found = find(alloc, frozen)?;
    checked_of(rt, alloc, frozen, found)
}

/// The checked image, from all that was found of it, in any order.
fn checked_of(
    rt: &(impl Threads + Sync),
    alloc: Global,
    frozen: &Arc<Frozen>,
    found: Vec<Finding>,
) -> Result<Checked, Refusal>
    requires { (f : Found) → IsFoundIn (arc_value frozen.now) f found.items }
    ensures frozen { IfOk result (λ checked. checked.frozen ≡ arc_value frozen.now) }
    ensures checked { IfOk result (λ checked.
        IsChecked (arc_value frozen.now).geometry (frozen_view (arc_value frozen.now)) checked) }
    ensures error { IsOkUnless result Refusal.NoMemory }
{
    let found = in_order(rt, alloc, found)?;
    Checked::new(alloc, Arc::clone(frozen)?, found)
}

/// What the five phases find, with one worker on the calling thread: each finding of the image at least once, in no
/// order. Only `NoMemory` is refused.
pub fn find(alloc: Global, frozen: &Frozen) -> Result<Vec<Finding>, Refusal>
    ensures found { IfOk result (λ found. (f : Found) → IsFoundIn frozen.now f found.items) }
    ensures error { IsOkUnless result Refusal.NoMemory }
{
    find_by(
        alloc,
        frozen,
        || -> Result<Vec<OfGroup<BlockOwners>>, Refusal>
            ensures frame { KeepsFrame frozen.entry.now }
            ensures made { MakesParts (λ unit made. is_owned frozen.entry.now unit made.kept made.found.items) frozen.entry.now.geometry.groups result }
        { owners_by_one(alloc, frozen) },
        || -> Result<Vec<phase_names::Part>, Refusal>
            ensures { MakesPieces (is_names_part frozen.entry.now) frozen.entry.now.geometry result }
        { names_by_one(alloc, frozen) },
        || -> Result<Members, Refusal>
            ensures { Reaches frozen.entry.now result }
        { reach(alloc, frozen) },
        |reached: Members| -> Result<Vec<Vec<Finding>>, Refusal>
            ensures { MakesParts (λ unit found. are_links_if frozen.entry.now reached unit found.items) frozen.entry.now.geometry.groups result }
        { links_by_one(alloc, frozen, &reached) },
        |owners: Vec<BlockOwners>| -> Result<Vec<Vec<Finding>>, Refusal>
            ensures { MakesParts (λ unit found. are_maps_of frozen.entry.now owners.items unit found.items) frozen.entry.now.geometry.groups result }
        { maps_by_one(alloc, frozen, owners.as_slice()) },
    )
}

/// The same, with a crew. The numbers of the image are cut in pieces once, for all phases that look at directories.
fn find_shared<R: Threads + Sync, G: Gate>(
    rt: &R,
    workers: Workers,
    gate: &G,
    alloc: Global,
    frozen: &Frozen,
) -> Result<Vec<Finding>, Refusal>
    ensures found { IfOk result (λ found. (f : Found) → IsFoundIn frozen.now f found.items) }
    ensures error { IsOkUnless result Refusal.NoMemory }
{
    let pieces = pieces(alloc, frozen)?;
    let pieces = pieces.as_slice();
    let groups = groups_of(alloc, frozen, pieces)?;
    let gate_of_pieces = ByGroup::new(gate, groups.as_slice());
    find_in_pieces(rt, workers, gate, &gate_of_pieces, alloc, frozen, pieces)
}

/// The same, with these pieces. Where the units are pieces, the workers pass the gate of the pieces, and otherwise that of the
/// groups.
fn find_in_pieces<R: Threads + Sync, G: Gate, P: Gate>(
    rt: &R,
    workers: Workers,
    gate: &G,
    gate_of_pieces: &P,
    alloc: Global,
    frozen: &Frozen,
    pieces: &[Piece],
) -> Result<Vec<Finding>, Refusal>
    requires pieces { ArePiecesOf frozen.now pieces.now }
    ensures found { IfOk result (λ found. (f : Found) → IsFoundIn frozen.now f found.items) }
    ensures error { IsOkUnless result Refusal.NoMemory }
{
    find_by(
        alloc,
        frozen,
        || -> Result<Vec<OfGroup<BlockOwners>>, Refusal>
            ensures frame { KeepsFrame frozen.entry.now }
            ensures made { MakesParts (λ unit made. is_owned frozen.entry.now unit made.kept made.found.items) frozen.entry.now.geometry.groups result }
        { owners_by_crew(rt, workers, gate, alloc, frozen) },
        || -> Result<Vec<phase_names::Part>, Refusal>
            requires pieces { ArePiecesOf frozen.now pieces.now }
            ensures { MakesPieces (is_names_part frozen.entry.now) frozen.entry.now.geometry result }
        { names_by_crew(rt, workers, gate_of_pieces, alloc, frozen, pieces) },
        || -> Result<Members, Refusal>
            requires pieces { ArePiecesOf frozen.now pieces.now }
            ensures { Reaches frozen.entry.now result }
        { connectivity::rounds(rt, alloc, frozen, pieces, workers, gate_of_pieces) },
        |reached: Members| -> Result<Vec<Vec<Finding>>, Refusal>
            requires pieces { ArePiecesOf frozen.now pieces.now }
            ensures { MakesParts (λ unit found. are_links_if frozen.entry.now reached unit found.items) frozen.entry.now.geometry.groups result }
        {
            links_by_crew(
                rt,
                workers,
                gate,
                gate_of_pieces,
                alloc,
                frozen,
                pieces,
                &reached,
            )
        },
        |owners: Vec<BlockOwners>| -> Result<Vec<Vec<Finding>>, Refusal>
            ensures { MakesParts (λ unit found. are_maps_of frozen.entry.now owners.items unit found.items) frozen.entry.now.geometry.groups result }
        { maps_by_crew(rt, workers, gate, alloc, frozen, owners.as_slice()) },
    )
}

/// What the five phases find, one after another, whoever makes the parts: of each phase a call gives what is made of all
/// groups, and of phase 3 what is reachable. The parts of phase 2 wait for that.
fn find_by<B, N, W, C, M>(
    alloc: Global,
    frozen: &Frozen,
    blocks: B,
    names: N,
    walk: W,
    counts: C,
    maps: M,
) -> Result<Vec<Finding>, Refusal>
where
    B: FnOnce() -> Result<Vec<OfGroup<BlockOwners>>, Refusal>,
    N: FnOnce() -> Result<Vec<phase_names::Part>, Refusal>,
    W: FnOnce() -> Result<Members, Refusal>,
    C: FnOnce(Members) -> Result<Vec<Vec<Finding>>, Refusal>,
    M: FnOnce(Vec<BlockOwners>) -> Result<Vec<Vec<Finding>>, Refusal>,
    requires callable { B.pre blocks × N.pre names × W.pre walk × ((reached : _) → C.pre counts reached) × ((owners : _) → M.pre maps owners) }
    requires blocks { (made : _) → B.post blocks made → KeepsFrame frozen.now
        × MakesParts (λ unit one. is_owned frozen.now unit one.kept one.found.items) frozen.now.geometry.groups made }
    requires names { (made : _) → N.post names made
        → MakesPieces (is_names_part frozen.now) frozen.now.geometry made }
    requires walk { (reached : _) → W.post walk reached → Reaches frozen.now reached }
    requires counts { (reached : _) (made : _) → C.post counts reached made
        → MakesParts (λ unit found. are_links_if frozen.now reached unit found.items) frozen.now.geometry.groups made }
    requires maps { (owners : _) (made : _) → M.post maps owners made
        → MakesParts (λ unit found. are_maps_of frozen.now owners.items unit found.items) frozen.now.geometry.groups made }
    ensures found { IfOk result (λ found. (f : Found) → IsFoundIn frozen.now f found.items) }
    ensures error { IsOkUnless result Refusal.NoMemory }
{
    let (owners, mut found) = joined(alloc, blocks()?)?;
    let names = names()?;
    let reached = walk()?;
    found.append(&mut check_names(alloc, frozen, names, &reached)?)?;
    found.append(&mut connectivity::findings(alloc, frozen, &reached)?)?;
    found.append(&mut all_found(alloc, counts(reached)?)?)?;
    found.append(&mut all_found(alloc, maps(owners)?)?)?;
    Ok(found)
}

/// The findings of what is kept of an image are the image's: what `load` keeps of an honest device's.
pub fn findings_are_the_images()
    ensures { (kept : Kept) (image : List (List ℕ)) (fs : List Found) → IsKeptOf kept image → AreFindings kept.geometry (frozen_view kept) fs
        → AreFindings kept.geometry (image_view kept.geometry image) fs }
{}

/// And so are the report, the verdict and the repairs: a checked image speaks of the image that it was kept of.
pub fn a_checked_image_is_the_images()
    ensures { (image : List (List ℕ)) (checked : CheckedImage) → IsKeptOf checked.frozen image
        → IsChecked checked.frozen.geometry (frozen_view checked.frozen) checked
        → IsChecked checked.frozen.geometry (image_view checked.frozen.geometry image) checked }
{}

/// What is checked of an image is told by the image: it does not depend on the number of workers, or on what they did
/// when.
pub fn checked_images_are_told_by_their_image()
    ensures { (geo : Geometry) (view : View) (a b : CheckedImage) → IsChecked geo view a → IsChecked geo view b
        → a.frozen ≡ b.frozen → a ≡ b }
{}

/// The verdict is `Damaged` exactly where a rule is broken that soft updates keep.
pub fn damaged_where_a_rule_is_broken()
    ensures { (geo : Geometry) (view : View) (fs : List Found) → AreFindings geo view fs
        → (verdict_of fs ≡ Damaged) ↔ (ObeysRules geo view → ⊥) }
{}
