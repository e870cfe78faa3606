//! What the records tell of all inode numbers, found out by workers.
ghost use Rattle.std.specs.Prelude.{◌≡◌, ◌<◌, ℕ, All, IfOk, IsOkUnless, Some, length, slice_get, vec_len};
ghost use Rattle.frozen.specs.Kept.{frozen_view};
ghost use Rattle.frozen.specs.Kinds.{AreKinds};
ghost use Rattle.loaders.specs.Looking.{TellsKinds};

use frozen::{Held, Kind};
use layout::Refusal;
use std::alloc::{AllocError, Global};
use std::thread::Threads;
use workers::{OpenGate, Work, Workers, each_group};

/// A worker that looks at the records of groups.
#[derive(Drop)]
struct Looker<'a> {
    alloc: Global,
    held: &'a Held,
}

impl Work for Looker<'_> {
    type Part = Vec<Kind>;

    ghost gives = { λ before unit part after. TellsKinds before.held.now unit part.items × (after ≡ before) };

    /// What is known of a group's numbers; past the last group there are none.
    fn part(&mut self, unit: u32) -> Result<Vec<Kind>, Refusal> {
        if unit >= self.held.geometry().groups() {
            return Ok(Vec::new(self.alloc));
        }
        Ok(kinds_of_group(self.alloc, self.held, unit)?)
    }
}

/// What the records tell of all inode numbers, by so many workers.
pub(crate) fn kinds_by(
    rt: &(impl Threads + Sync),
    alloc: Global,
    held: &Held,
    workers: Workers,
) -> Result<Vec<Kind>, Refusal>
    ensures known { IfOk result (λ kinds. AreKinds held.now.geometry (frozen_view held.now) kinds.items) }
    ensures error { IsOkUnless result Refusal.NoMemory }
{
    let works = lookers(alloc, held, workers)?;
    let (parts, _works) = each_group(rt, alloc, 0, held.geometry().groups(), works, &OpenGate)?;
    Ok(in_a_row(alloc, held, parts)?)
}

/// So many workers.
fn lookers(alloc: Global, held: &Held, workers: Workers) -> Result<Vec<Looker<'_>>, AllocError>
    ensures count { IfOk result (λ works. vec_len works ≡ workers.count) }
    ensures alike { IfOk result (λ works. All (λ work. work.held.now ≡ held.now) works.items) }
{
    let mut works = Vec::with_capacity(alloc, workers.count() as usize)?;
    for _worker in 0..workers.count() {
        works.push(Looker { alloc, held })?;
    }
    Ok(works)
}

/// What the records tell of the numbers of a group.
fn kinds_of_group(alloc: Global, held: &Held, group: u32) -> Result<Vec<Kind>, AllocError>
    requires { group < held.now.geometry.groups }
    ensures { IfOk result (λ kinds. TellsKinds held.now group kinds.items) }
{
    let inodes = held.geometry().inodes_a_group();
    let first = group * inodes;
    let mut kinds = Vec::with_capacity(alloc, inodes as usize)?;
    for number in first..first + inodes {
        kinds.push(held.kind(number))?;
    }
    Ok(kinds)
}

/// What is known of the numbers of all groups, in their order.
fn in_a_row(alloc: Global, held: &Held, parts: Vec<Vec<Kind>>) -> Result<Vec<Kind>, AllocError>
    requires count { length parts.items ≡ held.now.geometry.groups }
    requires told { (g : ℕ) (part : _) → slice_get parts.items g ≡ Some part → TellsKinds held.now g part.items }
    ensures { IfOk result (λ kinds. AreKinds held.now.geometry (frozen_view held.now) kinds.items) }
{
    let mut kinds = Vec::with_capacity(alloc, held.geometry().inodes() as usize)?;
    for part in parts {
        let mut part = part;
        kinds.append(&mut part)?;
    }
    Ok(kinds)
}
